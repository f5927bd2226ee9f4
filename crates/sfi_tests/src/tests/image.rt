//! The smallest image, and edits of images, as hexadecimal digits, two for each byte. Places count
//! bytes from the image's first one.
use std::alloc::{AllocError, Global};

// The head of one sandbox: code 256 bytes at 01000000, data 256 at 01800000, start at the code's
// first byte, no gates, no first data bytes.
const HEAD: &str = "534649310100000000000001000100000000800100010000000000010000000000000000";

// The instruction `ebreak` in its 32-bit form.
const EBREAK: &str = "73001000";

/// The digits of the smallest image: its head, which has 36 bytes, and 256 bytes of code.
pub(super) fn smallest(alloc: Global) -> Result<Vec<u8>, AllocError> {
    edited(alloc, HEAD.as_bytes(), &end_in(36, EBREAK, 64))
}

/// An edit of an image: `digits`, `times` times, replace the bytes from place `from` up to but not
/// with `to`. Places after the image's end stand for that end.
#[derive(Clone, Copy)]
pub(super) struct Edit<'a> {
    from: usize,
    to: usize,
    digits: &'a str,
    times: usize,
}

/// The edit by which the digits replace as many of the image's, from byte `at` on.
pub(super) fn put<'a>(at: usize, digits: &'a str) -> Edit<'a> {
    Edit {
        from: at,
        to: at.saturating_add(digits.len() / 2),
        digits,
        times: 1,
    }
}

/// The edit by which the digits are inserted before byte `at`.
pub(super) fn insert<'a>(at: usize, digits: &'a str) -> Edit<'a> {
    Edit {
        from: at,
        to: at,
        digits,
        times: 1,
    }
}

/// The edit by which the digits, `times` times, replace all from byte `at` on; with 0 times it cuts
/// the image there.
pub(super) fn end_in<'a>(at: usize, digits: &'a str, times: usize) -> Edit<'a> {
    Edit {
        from: at,
        to: usize::MAX,
        digits,
        times,
    }
}

/// The digits `text` of an image after the edit.
pub(super) fn edited(alloc: Global, text: &[u8], edit: &Edit<'_>) -> Result<Vec<u8>, AllocError> {
    let from = edit.from.saturating_mul(2).min(text.len());
    let to = edit.to.saturating_mul(2).min(text.len());
    let mut made = Vec::new(alloc);
    made.extend_from_slice(&text[..from])?;
    for _ in 0..edit.times {
        made.extend_from_slice(edit.digits.as_bytes())?;
    }
    made.extend_from_slice(&text[to..])?;
    Ok(made)
}
