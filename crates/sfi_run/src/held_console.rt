//! A console behind a pointer, or none.
ghost use Rattle.std.specs.Prelude.{◌≡◌, Option, Some, None};
ghost use Rattle.sfi_host.specs.Consoles.{ConsoleState};
ghost use Rattle.sfi_run.specs.Held.{console_owns, console_coded};

use crate::box_parts::BoxParts;
use sfi_host::Console;
use std::alloc::Global;
use std::marker::Model;

/// A console behind a pointer, or none: the pointer to its box, which C keeps and doesn't follow. To
/// drop it frees nothing; `into_box` gives the box back. It may go from one thread to another.
#[repr(C)]
#[derive(Drop)]
pub struct HeldConsole {
    at: *mut u8,
    alloc: Global,
    pub ghost console: { Option ConsoleState } by { console_coded },
}

impl Model for HeldConsole {
    ghost also_owns = { λ h. console_owns h.alloc h.at h.console };
}

// What is in the box is plain data, and any thread may free it.
unsafe impl Send for HeldConsole {}

impl HeldConsole {
    /// No console: a null pointer, as where C begins with zeros.
    pub(crate) fn none(alloc: Global) -> HeldConsole
        ensures { result.console ≡ None }
    {
        HeldConsole {
            at: std::ptr::null_mut(),
            alloc,
        }
    }

    /// Holds the console whose box was taken apart into these parts.
    fn from_parts(parts: BoxParts<Console, Global>) -> HeldConsole
        ensures { result.console ≡ Some parts.value }
    {
        let BoxParts { ptr, alloc } = parts;
        HeldConsole {
            at: ptr.cast(),
            alloc,
        }
    }

    /// The parts of the console's box. There has to be one.
    fn into_parts(self) -> BoxParts<Console, Global>
        requires { (c : ConsoleState) × (self.console ≡ Some c) }
        ensures { Some result.value ≡ self.console }
    {
        let HeldConsole { at, alloc } = self;
        BoxParts {
            ptr: at.cast(),
            alloc,
        }
    }

    /// The console in the box.
    pub(crate) fn from_box(console: Box<Console>) -> HeldConsole
        ensures { result.console ≡ Some console.value }
    {
        HeldConsole::from_parts(BoxParts::from_box(console))
    }

    /// The box again, where there is a console.
    pub(crate) fn into_box(self) -> Box<Console>
        requires { (c : ConsoleState) × (self.console ≡ Some c) }
        ensures { Some result.value ≡ self.console }
    {
        self.into_parts().into_box()
    }
}
