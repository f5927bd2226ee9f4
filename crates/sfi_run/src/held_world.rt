//! A world behind a pointer, or none.
ghost use Rattle.std.specs.Prelude.{◌≡◌, Option, Some, None};
ghost use Rattle.sfi_host.specs.Worlds.{Sandboxes};
ghost use Rattle.sfi_run.specs.Held.{held_owns, held_coded};

use crate::box_parts::BoxParts;
use rv_mem::Pages;
use sfi_host::World;
use std::alloc::Global;
use std::marker::Model;

/// A world behind a pointer, or none: the pointer to its box, which C keeps and doesn't follow. To
/// drop it frees nothing; `into_box` gives the box back. It may go from one thread to another.
#[repr(C)]
#[derive(Drop)]
pub struct HeldWorld {
    at: *mut u8,
    alloc: Global,
    pub ghost world: { Option Sandboxes } by { held_coded },
}

impl Model for HeldWorld {
    ghost also_owns = { λ h. held_owns h.alloc h.at h.world };
}

// What is in the box is data that no other thread writes, but for the counts of owners, which are
// atomic; any thread may free it.
unsafe impl Send for HeldWorld {}

impl HeldWorld {
    /// No world: a null pointer, as where C begins with zeros.
    pub(crate) fn none(alloc: Global) -> HeldWorld
        ensures { result.world ≡ None }
    {
        HeldWorld {
            at: std::ptr::null_mut(),
            alloc,
        }
    }

    /// Holds the world whose box was taken apart into these parts.
    fn from_parts(parts: BoxParts<World<Pages>, Global>) -> HeldWorld
        ensures { result.world ≡ Some parts.value }
    {
        let BoxParts { ptr, alloc } = parts;
        HeldWorld {
            at: ptr.cast(),
            alloc,
        }
    }

    /// The parts of the world's box. There has to be one.
    fn into_parts(self) -> BoxParts<World<Pages>, Global>
        requires { (w : Sandboxes) × (self.world ≡ Some w) }
        ensures { Some result.value ≡ self.world }
    {
        let HeldWorld { at, alloc } = self;
        BoxParts {
            ptr: at.cast(),
            alloc,
        }
    }

    /// The world in the box.
    pub(crate) fn from_box(world: Box<World<Pages>>) -> HeldWorld
        ensures { result.world ≡ Some world.value }
    {
        HeldWorld::from_parts(BoxParts::from_box(world))
    }

    /// The box again, where there is a world.
    pub(crate) fn into_box(self) -> Box<World<Pages>>
        requires { (w : Sandboxes) × (self.world ≡ Some w) }
        ensures { Some result.value ≡ self.world }
    {
        self.into_parts().into_box()
    }
}
