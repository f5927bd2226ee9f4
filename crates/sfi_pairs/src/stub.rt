//! A gate's bundle, in code in bundles.
use sfi_formats::BUNDLE_BYTES;

/// The bytes of a gate: a call of the host, and a return to the bundle start that x1 names:
/// `ecall`, `and x31, x1, x25`, `or x31, x31, x24`, `jalr x0, 0(x31)`. `stub` of specs/Pairs and
/// `STUB` of `tools/second_checker.py` have them, too.
pub const STUB: [u8; BUNDLE_BYTES] = [
    0x73, 0x00, 0x00, 0x00, 0xb3, 0xff, 0x90, 0x01, 0xb3, 0xef, 0x8f, 0x01, 0x67, 0x80, 0x0f, 0x00,
];
