//! Images whose layout is right.
ghost use Rattle.std.specs.Prelude.{◌≡◌};
ghost use Rattle.sfi_image.specs.Spelling.{views, format_of};
ghost use Rattle.sfi_image.specs.Parts.{IsRightLayout};

use crate::part::SandboxPart;
use sfi_formats::Format;
use std::marker::Model;

/// The sandboxes of an image, 1 to 16 of them, with a right layout.
/// It borrows the bytes that it was read from.
#[derive(Drop)]
pub struct Image<'a> {
    format: Format,
    parts: Vec<SandboxPart<'a>>,
}

impl<'a> Model for Image<'a> {
    ghost use Rattle.std.specs.Prelude.{List};
    ghost use Rattle.sfi_image.specs.Spelling.{Part, views};
    ghost use Rattle.sfi_image.specs.Parts.{IsRightLayout};

    ghost Value = { List Part };

    ghost view = { λ i. views i.format i.parts.items };

    ghost invariant = { λ i. IsRightLayout (views i.format i.parts.items) };
}

impl<'a> Image<'a> {
    /// The image of these sandboxes, whose layout is right.
    pub(crate) fn new(format: Format, parts: Vec<SandboxPart<'a>>) -> Image<'a>
        requires { IsRightLayout (views format parts.items) }
        ensures { result ≡ views format parts.entry.items }
    {
        Image { format, parts }
    }

    /// The format.
    pub fn format(&self) -> Format
        ensures { result ≡ format_of self.now }
    {
        self.format
    }

    /// The sandboxes, in the order of the bytes.
    pub fn parts(&self) -> &[SandboxPart<'a>]
        ensures parts { views (format_of self.now) result.now ≡ self.now }
        ensures layout { IsRightLayout self.now }
    {
        &self.parts
    }
}
