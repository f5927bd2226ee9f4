//! A gate's stub: 16 bytes, those of code in bundles or those of code in words.
ghost use Rattle.std.specs.Prelude.{◌≡◌};
ghost use Rattle.sfi_link.specs.Code.{stub_of};

use sfi_formats::{BUNDLE_BYTES, Format};
use sfi_pairs::STUB;

/// A gate's stub in code in words: `ecall`, `and x30, x1, x25`, `or x30, x30, x24`, `jalr x0, 0(x30)`.
const WORD_STUB: [u8; BUNDLE_BYTES] = [
    0x73, 0x00, 0x00, 0x00, 0x33, 0xff, 0x90, 0x01, 0x33, 0x6f, 0x8f, 0x01, 0x67, 0x00, 0x0f, 0x00,
];

/// The bytes of a gate's stub in the format: it has the host do the gate's service, and returns to
/// its caller's x1, masked. The checker wants just these bytes.
pub(crate) fn stub_of(format: Format) -> &'static [u8; BUNDLE_BYTES]
    ensures { result.now ≡ stub_of format }
{
    if format.has_words() {
        &WORD_STUB
    } else {
        &STUB
    }
}
