//! A number in the bytes of an image.
ghost use Rattle.std.specs.Prelude.{◌≡◌, ℕ};
ghost use Rattle.sfi_image.specs.Spelling.{number, IsWord};
ghost use Rattle.sfi_image.specs.Keeping.{LiesAt};
ghost use Rattle.sfi_places.specs.private.{IsReplaced};

use byteorder::{ByteOrder, LittleEndian};

/// The little-endian number of four bytes at byte `offset` of the image.
pub(crate) fn read_number(image: &[u8], offset: usize) -> u32
    requires { (n : ℕ) × IsWord n × LiesAt image.now offset (number n) }
    ensures { (n : ℕ) → IsWord n → LiesAt image.now offset (number n) → result ≡ n }
{
    LittleEndian::read_u32(&image[offset..])
}

/// Writes the value over the number that [`read_number`] reads at that offset.
pub(crate) fn write_number(image: &mut [u8], offset: usize, value: u32)
    requires { (n : ℕ) × LiesAt image.old offset (number n) }
    ensures { (n : ℕ) → IsReplaced image.old image.new offset (number n) (number value) }
{
    LittleEndian::write_u32(&mut image[offset..], value);
}
