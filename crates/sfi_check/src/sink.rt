//! Sinks of findings: one that keeps none, and one that counts them.
ghost use Rattle.std.specs.Prelude.{◌≡◌};

use crate::tally::Tally;
use sfi_scan::{BundleFindings, FindingSink};

/// What keeps no findings.
#[derive(Drop)]
pub(crate) struct Nowhere;

impl FindingSink for Nowhere {
    ghost takes = { λ s found t. Unit {0} };

    fn put(&mut self, _found: &BundleFindings) {}

    ghost none = { λ s. tt };

    ghost more = { λ s t u xs ys before after. tt };
}

/// What counts the findings that it takes, and hands them on.
#[derive(Drop)]
pub(crate) struct Counted<'a, F> {
    pub(crate) tally: &'a mut Tally,
    pub(crate) sink: &'a mut F,
}

impl<'a, F: FindingSink> FindingSink for Counted<'a, F> {
    ghost use Rattle.std.proofs.Common.{refl, ◌∙◌};
    ghost use Rattle.sfi_check.specs.private.{Counts, counts_none, counts_more};

    // The tally and the sink stay the same ones.
    ghost takes = { λ s found t. (t.tally.ghost_name ≡ s.tally.ghost_name)
        × (t.sink.ghost_name ≡ s.sink.ghost_name) × Counts s.tally.now t.tally.now found
        × F.takes s.sink.now found t.sink.now };

    fn put(&mut self, found: &BundleFindings) {
        self.tally.add_findings(found);
        self.sink.put(found);
    }

    ghost none = { λ s. (refl, refl, counts_none s.tally.now, F.none s.sink.now) };

    ghost more = { λ s t u xs ys one two. (
      two.0 ∙ one.0,
      two.1 ∙ one.1,
      counts_more s.tally.now t.tally.now u.tally.now xs ys one.2 two.2,
      F.more s.sink.now t.sink.now u.sink.now xs ys one.3 two.3,
    ) };
}
