//! The two checksums in a file of native code: of the image that it belongs to, and of the file itself
//! (specs/File.antt).
ghost use Rattle.std.specs.Prelude.{◌≡◌};
ghost use Rattle.sfi_native.specs.Checksum.{after_byte as after_byte_of, crc32 as crc32_of, next_remainder as next_of};

/// The CRC's remainder one bit further, where the lowest bit comes first.
#[tactic(auto, unfolding(crate::specs::Checksum::next_remainder))]
fn next_remainder(c: u32) -> u32
    ensures { result ≡ next_of c }
{
    if c % 2 == 1 {
        (c / 2) ^ 0xedb8_8320
    } else {
        c / 2
    }
}

/// The remainder after one byte more.
fn after_byte(c: u32, byte: u8) -> u32
    ensures { result ≡ after_byte_of c byte }
{
    let mut remainder = c ^ u32::from(byte);
    for _ in 0..8_u32 {
        remainder = next_remainder(remainder);
    }
    remainder
}

/// The CRC-32 of bytes, as zip and gzip have it. `crc32` of specs/Checksum.antt and `sfi_crc32` of
/// include/sfi_native_code.h compute the same.
pub(crate) fn crc32(bytes: &[u8]) -> u32
    ensures { result ≡ crc32_of bytes.now }
{
    let mut remainder = 0xffff_ffff;
    for byte in bytes {
        remainder = after_byte(remainder, *byte);
    }
    remainder ^ 0xffff_ffff
}
