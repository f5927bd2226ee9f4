//! An array of C's as a sink of findings.
ghost use Rattle.std.specs.Prelude.{◌≡◌};
ghost use Rattle.sfi_c.specs.Parts.{with_findings};

use sfi_check::{FindingSink, SfiFinding};
use sfi_scan::BundleFindings;

/// Writes the findings to the front of the array, as many as it has room for.
pub(crate) fn write_findings(found: &BundleFindings, array: &mut [SfiFinding])
    ensures { array.new ≡ with_findings found.now array.old }
{
    let count = found.count().min(array.len());
    for i in 0..count {
        let Some(finding) = found.at(i) else {
            unreachable!();
        };
        array[i] = SfiFinding::from_finding(finding);
    }
}

/// A caller's array, whose first `written` elements are written. Findings for which it has no room
/// are dropped.
#[derive(Drop)]
pub(crate) struct Array<'a> {
    pub(crate) elements: &'a mut [SfiFinding],
    pub(crate) written: usize,
}

impl<'a> FindingSink for Array<'a> {
    ghost use Rattle.std.specs.Prelude.{◌≡◌};
    ghost use Rattle.std.proofs.Common.{refl, ◌∙◌};
    ghost use Rattle.sfi_c.specs.private.{Takes, takes_none, takes_more};

    // The array stays the same one.
    ghost takes = { λ s found t. (t.elements.ghost_name ≡ s.elements.ghost_name)
        × Takes s.elements.now s.written found t.elements.now t.written };

    fn put(&mut self, found: &BundleFindings) {
        let from = self.written.min(self.elements.len());
        let room = &mut self.elements[from..];
        let count = found.count().min(room.len());
        write_findings(found, room);
        self.written = from + count;
    }

    ghost none = { λ s. (refl, takes_none s.elements.now s.written) };

    ghost more = { λ s t u xs ys one two. (
      two.0 ∙ one.0,
      takes_more s.elements.now
          s.written xs t.elements.now t.written ys u.elements.now u.written one.1 two.1,
    ) };
}
