//! An image that was accepted.
ghost use Rattle.std.specs.Prelude.{◌≡◌, length};
ghost use Rattle.sfi_formats.specs.declared.format.Format.{Format};
ghost use Rattle.sfi_image.specs.Spelling.{views};
ghost use Rattle.sfi_image.specs.Parts.{IsRightLayout};
ghost use Rattle.sfi_safe_runs.specs.Safety.{AllRunSafely};
ghost use Rattle.sfi_safe_runs.specs.Calling.{AllCallTyped};
ghost use Rattle.sfi_check.specs.Verdict.{bundle_count};
ghost use Rattle.sfi_safety.specs.Clean.{IsClean};

use sfi_formats::BUNDLE_BYTES;
use sfi_image::{Image, SandboxPart};
use std::marker::Model;

/// An accepted image: its layout is right, no rule is broken in it, and so every run from every
/// entry of each sandbox is safe. Contracts see it as the list of its parts.
#[derive(Drop)]
pub struct Accepted<'a> {
    image: Image<'a>,
}

impl<'a> Model for Accepted<'a> {
    ghost use Rattle.std.specs.Prelude.{List};
    ghost use Rattle.sfi_image.specs.Spelling.{Part};
    ghost use Rattle.sfi_safety.specs.Clean.{MayRun};

    ghost Value = { List Part };

    ghost view = { λ a. a.image };

    ghost invariant = { λ a. MayRun a.image };
}

impl<'a> Accepted<'a> {
    /// Marks the image as accepted. Its caller knows that it is clean: that no rule is broken in
    /// it.
    pub(crate) fn new(image: Image<'a>) -> Accepted<'a>
        requires { IsClean image }
        ensures { result ≡ image.entry }
    {
        Accepted { image }
    }

    /// The image.
    pub fn image(&self) -> &Image<'a>
        ensures image { result.now ≡ self.now }
        ensures clean { IsClean self.now }
        ensures safe { AllRunSafely self.now }
        ensures calls { AllCallTyped self.now }
    {
        &self.image
    }

    /// How many sandboxes the image has, one at least.
    pub fn sandbox_count(&self) -> usize
        ensures count { result ≡ length self.now }
        ensures clean { IsClean self.now }
        ensures safe { AllRunSafely self.now }
    {
        self.image.parts().len()
    }

    /// How many bundles, of 16 bytes in each format, the code regions have together.
    pub fn bundle_count(&self) -> usize
        ensures count { result ≡ bundle_count self.now }
        ensures clean { IsClean self.now }
        ensures safe { AllRunSafely self.now }
    {
        bundle_count(self.image.parts())
    }
}

/// How many bundles the code of all sandboxes has.
fn bundle_count(parts: &[SandboxPart]) -> usize
    requires { (format : Format) × IsRightLayout (views format parts.now) }
    ensures { (format : Format) → result ≡ bundle_count (views format parts.now) }
{
    let mut bundles = 0;
    for part in parts {
        bundles += part.code.len() / BUNDLE_BYTES;
    }
    bundles
}
