//! Bundles that are filled one after another, in code in bundles and in code in words.
ghost use Rattle.std.specs.Prelude.{◌≡◌, ◌%◌, ◌+◌, ◌*◌, ◌<◌, ◌≤◌, ◌++◌, [], IfOk, replicate};
ghost use Rattle.sfi_formats.specs.Limits.{bundle_size};
ghost use Rattle.sfi_rewrite.specs.Expansion.{size_of, slots_of, c_nop};
ghost use Rattle.sfi_rewrite.specs.private.{largest};
ghost use Rattle.sfi_rewrite.specs.Placement.{AreBundles};

use crate::bundle::Bundle;
use crate::slot::BundleSlot;
use sfi_formats::BUNDLE_BYTES;
use std::alloc::{AllocError, Global};
use std::marker::Model;

/// Bundles, of which the last may have room. Contracts see the slots of all.
#[derive(Drop)]
pub(crate) struct Filling {
    bundles: Vec<Bundle>,
    /// How many bytes all slots take.
    end: usize,
}

impl Model for Filling {
    ghost use Rattle.std.specs.Prelude.{List};
    ghost use Rattle.sfi_rewrite.specs.declared.slot.BundleSlot.{BundleSlot};
    ghost use Rattle.sfi_rewrite.specs.Expansion.{slots_of};
    ghost use Rattle.sfi_rewrite.specs.private.{IsFilled};

    ghost Value = { List BundleSlot };

    ghost view = { λ f. slots_of f.bundles.items };

    ghost invariant = { λ f. IsFilled f.bundles.items f.end };
}

impl Filling {
    /// No bundles.
    pub(crate) fn new(alloc: Global) -> Filling
        ensures { result ≡ [] }
    {
        Filling {
            bundles: Vec::new(alloc),
            end: 0,
        }
    }

    /// How many bytes all slots take.
    pub(crate) fn end(&self) -> usize
        ensures { result ≡ size_of self.now }
    {
        self.end
    }

    /// Adds slots, of `size` bytes in all: to the last bundle, or to a new one where that is full.
    /// The caller has seen to it that they fit there: they cross no bundle's end.
    pub(crate) fn push(&mut self, slots: &[BundleSlot], size: usize) -> Result<(), AllocError>
        requires size { size ≡ size_of slots.now }
        requires some { 0 < size }
        requires fits { size_of self.old % bundle_size + size ≤ bundle_size }
        requires room { size_of self.old + size ≤ largest }
        ensures { IfOk result (λ _. self.new ≡ self.old ++ slots.now) }
    {
        if self.end % BUNDLE_BYTES == 0 {
            self.bundles.push(Bundle::new(slots))?;
            self.end += size;
            return Ok(());
        }
        let last = self.bundles.len() - 1;
        self.bundles[last].push(slots);
        self.end += size;
        Ok(())
    }

    /// Adds `nops` c.nops, of 2 bytes each; they may go on in new bundles.
    pub(crate) fn push_nops(&mut self, nops: usize) -> Result<(), AllocError>
        requires { size_of self.old + 2 * nops ≤ largest }
        ensures { IfOk result (λ _. self.new ≡ self.old ++ replicate nops c_nop) }
    {
        for _ in 0..nops {
            self.push(&[BundleSlot::default()], 2)?;
        }
        Ok(())
    }

    /// The bundles.
    pub(crate) fn into_bundles(self) -> Vec<Bundle>
        ensures code { slots_of result.items ≡ self }
        ensures bundles { AreBundles result.items }
    {
        let Filling { bundles, .. } = self;
        bundles
    }
}
