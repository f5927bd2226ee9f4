//! Bundles of 16 bytes. Code in words is kept in them, too, four words in each.
ghost use Rattle.std.specs.Prelude.{◌≡◌, ◌+◌, ◌++◌, ◌≤◌};
ghost use Rattle.sfi_formats.specs.Limits.{bundle_size};
ghost use Rattle.sfi_rewrite.specs.Expansion.{size_of};

use crate::slot::{BundleSlot, size_of};
use arrayvec::ArrayVec;
use sfi_formats::BUNDLE_BYTES;
use std::marker::Model;

/// The most slots of a bundle: as many as it has 16-bit forms.
const SLOTS_MOST: usize = BUNDLE_BYTES / 2;

/// What stands in one bundle, in order. Contracts see the list of its slots.
#[derive(Drop)]
pub struct Bundle {
    slots: ArrayVec<BundleSlot, SLOTS_MOST>,
}

impl Model for Bundle {
    ghost use Rattle.std.specs.Prelude.{List};
    ghost use Rattle.sfi_rewrite.specs.declared.slot.BundleSlot.{BundleSlot};

    ghost Value = { List BundleSlot };

    ghost view = { λ b. b.slots.items };
}

impl Bundle {
    /// A bundle of these slots.
    pub(crate) fn new(slots: &[BundleSlot]) -> Bundle
        requires { size_of slots.now ≤ bundle_size }
        ensures { result ≡ slots.now }
    {
        let mut bundle = Bundle {
            slots: ArrayVec::new(),
        };
        bundle.push(slots);
        bundle
    }

    /// Adds slots at the end. The caller has seen to it that the bundle has room for them.
    pub(crate) fn push(&mut self, slots: &[BundleSlot])
        requires { size_of self.old + size_of slots.now ≤ bundle_size }
        ensures { self.new ≡ self.old ++ slots.now }
    {
        match self.slots.try_extend_from_slice(slots) {
            Ok(()) => {}
            Err(_) => unreachable!(),
        }
    }

    /// How many bytes the bundle's slots take.
    pub fn size(&self) -> usize
        ensures { result ≡ size_of self.now }
    {
        size_of(self.slots.as_slice())
    }

    /// The bundle's slots, in order.
    pub fn slots(&self) -> &[BundleSlot]
        ensures { result.now ≡ self.now }
    {
        &self.slots
    }
}
