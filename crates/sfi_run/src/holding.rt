//! A world that C holds.
ghost use Rattle.std.specs.Prelude.{◌≡◌, Option, None, Some};
ghost use Rattle.std.specs.Option.{option_map};
ghost use Rattle.sfi_run.specs.Held.{flag_of};

use crate::held_world::HeldWorld;
use rv_mem::Pages;
use sfi_host::World;
use std::alloc::Global;
use std::mem::replace;

/// A world, or none: `struct sfi_run_world`. C begins with zeros, and only moves it then. During a
/// call, also one that only looks, there is none in it: the call takes the world out, and puts it
/// back before it returns. A call that is left in another way, as by `longjmp`, leaves none.
#[repr(C)]
#[derive(Drop)]
pub struct SfiRunWorld {
    /// 0: none; 1: a world here. sfi_run_native.c has 2 for worlds of its own, which never get here.
    held: u32,
    pub inner: HeldWorld,
    ghost flag: { held ≡ flag_of inner.world },
}

impl SfiRunWorld {
    /// Takes the world out, for a call or to free it; `None` if there is none. `alloc` is only what the
    /// empty place holds: nothing is allocated or freed here. `SfiRunModule` and `SfiRunConsole` do the
    /// same.
    pub(crate) fn take(&mut self, alloc: Global) -> Option<Box<World<Pages>>>
        ensures taken { option_map (λ b. b.value) result ≡ self.old.inner.world }
        ensures none { self.new.inner.world ≡ None }
    {
        let none = SfiRunWorld {
            held: 0,
            inner: HeldWorld::none(alloc),
        };
        let SfiRunWorld { held, inner } = replace(self, none);
        if held == 0 {
            None
        } else {
            Some(inner.into_box())
        }
    }

    /// Puts a world in, where there is none: one that was there would never be freed.
    pub(crate) fn put(&mut self, world: Box<World<Pages>>)
        requires { self.old.inner.world ≡ None }
        ensures { self.new.inner.world ≡ Some world.value }
    {
        *self = SfiRunWorld {
            held: 1,
            inner: HeldWorld::from_box(world),
        };
    }
}
