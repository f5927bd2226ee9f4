//! Where findings go.
ghost use Rattle.std.specs.Prelude.{List, [], ◌++◌};
ghost use Rattle.sfi_rules.specs.declared.finding.Finding.{Finding};

use crate::findings::BundleFindings;

/// What takes the findings of a scan, in order: a list, an array of C's, a counter. The scan hands
/// them over as it goes, so it needs no memory for them.
pub trait FindingSink {
    // The sink before, the findings that it took, and the sink after.
    ghost takes: { Self → List Finding → Self → Type 0 };

    /// Takes the findings of one more bundle, which come after all before.
    fn put(&mut self, found: &BundleFindings)
        ensures { takes self.old found.now self.new };

    // Taking no finding leaves it unchanged.
    ghost none: { (s : Self) → takes s [] s };

    // Taking one list and then another is taking both joined.
    ghost more: { (s t u : Self) (xs ys : List Finding) → takes s xs t → takes t ys u
        → takes s (xs ++ ys) u };
}
