//! A sandbox of an image, by its number.
ghost use Rattle.std.specs.Prelude.{◌≡◌, ◌+◌, length, IfOk, IfErr, IfSome, IfNone};
ghost use Rattle.sfi_image.specs.Spelling.{Part, part};
ghost use Rattle.sfi_image.specs.Keeping.{IsViewOf};
ghost use Rattle.sfi_image.specs.Faults.{IsFault};
ghost use Rattle.sfi_image.specs.Keeping.{sandbox_offset, IsSandboxOf, IsBeyond};

use crate::cursor::{ImageCursor, PartView};
use crate::fault::LayoutFault;

/// The image's sandbox `number`, counted from 0, and where its bytes end, counted from the image's
/// first; none, where the image has fewer sandboxes. The error is the image's fault. It looks at
/// the layout alone, of the whole image, and takes no memory.
pub fn sandbox_of<'a>(
    image: &'a [u8],
    number: u32,
) -> Result<Option<(PartView<'a>, usize)>, LayoutFault>
    ensures found { IfOk result (λ found. IfSome found (λ f.
        (p : Part) × (h : IsSandboxOf image.entry.now number p) × IsViewOf f.0 p
        × (f.1 ≡ sandbox_offset h.parts number + length (part p)))) }
    ensures beyond { IfOk result (λ found. IfNone found (IsBeyond image.entry.now number)) }
    ensures fault { IfErr result (λ k. IsFault image.entry.now k) }
{
    let mut cursor = ImageCursor::new(image)?;
    let mut sought = None;
    let mut passed = 0;
    while let Some(view) = cursor.next_part()? {
        if passed == number as usize {
            sought = Some((view, image.len() - cursor.unread().len()));
        }
        passed += 1;
    }
    Ok(sought)
}
