//! The end of a table: three numbers, the version and how many bytes the exports and the imports
//! have, and then the magic. `footer` of specs/Tables says the same.
ghost use Rattle.std.specs.Prelude.{◌≡◌, ◌<◌, ◌+◌, ◌++◌, length, IfSome, IfNone};
ghost use Rattle.sfi_image.specs.Spelling.{number, IsWord};

use crate::entry::{NUMBER_BYTES, number_at};

/// How many bytes the three numbers before the magic have; the magic isn't counted.
const FOOTER_BYTES: usize = 3 * NUMBER_BYTES;

// The numbers before the magic, and all bytes before them.
#[derive(Clone, Copy)]
pub(crate) struct Footer<'a> {
    pub(crate) version: u32,
    pub(crate) exports_bytes: u32,
    pub(crate) imports_bytes: u32,
    pub(crate) before: &'a [u8],
}

/// All but the last `count` bytes, and these; `None` if there are fewer.
pub(crate) fn cut_end(bytes: &[u8], count: usize) -> Option<(&[u8], &[u8])>
    ensures found { IfSome result (λ f. (bytes.now ≡ f.0.now ++ f.1.now) × (length f.1.now ≡ count)) }
    ensures none { IfNone result (length bytes.now < count) }
{
    if bytes.len() < count {
        return None;
    }
    Some(bytes.split_at(bytes.len() - count))
}

/// The three numbers at the end of `bytes`, which are all before a table's magic; `None` if there
/// are too few bytes. Whether the numbers fit what is before them isn't tested.
pub(crate) fn footer_of(bytes: &[u8]) -> Option<Footer<'_>>
    ensures found { IfSome result (λ f. bytes.now ≡ f.before.now
        ++ (number f.version ++ (number f.exports_bytes ++ number f.imports_bytes))) }
    ensures words { IfSome result (λ f.
        IsWord f.version × IsWord f.exports_bytes × IsWord f.imports_bytes) }
    ensures none { IfNone result (length bytes.now < FOOTER_BYTES) }
{
    let (before, numbers) = cut_end(bytes, FOOTER_BYTES)?;
    let (version, rest) = number_at(numbers);
    let (exports_bytes, rest) = number_at(rest);
    let (imports_bytes, _) = number_at(rest);
    Some(Footer {
        version,
        exports_bytes,
        imports_bytes,
        before,
    })
}
