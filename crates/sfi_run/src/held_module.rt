//! A module behind a pointer, or none.
ghost use Rattle.std.specs.Prelude.{◌≡◌, List, Option, Some, None};
ghost use Rattle.sfi_image.specs.Spelling.{Part};
ghost use Rattle.sfi_run.specs.Held.{module_owns, module_coded};

use crate::box_parts::BoxParts;
use sfi_host::Module;
use std::alloc::Global;
use std::marker::Model;

/// A module behind a pointer, or none: the pointer to its box, which C keeps and doesn't follow. To
/// drop it frees nothing; `into_box` gives the box back. It may go from one thread to another.
#[repr(C)]
#[derive(Drop)]
pub struct HeldModule {
    at: *mut u8,
    alloc: Global,
    pub ghost parts: { Option (List Part) } by { module_coded },
}

impl Model for HeldModule {
    ghost also_owns = { λ h. module_owns h.alloc h.at h.parts };
}

// What is in the box is data that no other thread writes, but for the counts of owners, which are
// atomic; any thread may free it.
unsafe impl Send for HeldModule {}

impl HeldModule {
    /// No module: a null pointer, as where C begins with zeros.
    pub(crate) fn none(alloc: Global) -> HeldModule
        ensures { result.parts ≡ None }
    {
        HeldModule {
            at: std::ptr::null_mut(),
            alloc,
        }
    }

    /// Holds the module whose box was taken apart into these parts.
    fn from_parts(parts: BoxParts<Module, Global>) -> HeldModule
        ensures { result.parts ≡ Some parts.value }
    {
        let BoxParts { ptr, alloc } = parts;
        HeldModule {
            at: ptr.cast(),
            alloc,
        }
    }

    /// The parts of the module's box. There has to be one.
    fn into_parts(self) -> BoxParts<Module, Global>
        requires { (ps : List Part) × (self.parts ≡ Some ps) }
        ensures { Some result.value ≡ self.parts }
    {
        let HeldModule { at, alloc } = self;
        BoxParts {
            ptr: at.cast(),
            alloc,
        }
    }

    /// The module in the box.
    pub(crate) fn from_box(boxed: Box<Module>) -> HeldModule
        ensures { result.parts ≡ Some boxed.value }
    {
        HeldModule::from_parts(BoxParts::from_box(boxed))
    }

    /// The box again, where there is a module.
    pub(crate) fn into_box(self) -> Box<Module>
        requires { (ps : List Part) × (self.parts ≡ Some ps) }
        ensures { Some result.value ≡ self.parts }
    {
        self.into_parts().into_box()
    }
}
