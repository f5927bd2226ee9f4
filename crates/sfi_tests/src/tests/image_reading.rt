//! Images as bytes and as parts, and the lines of their faults.
use sfi_check::Refusal;
use sfi_formats::Format;
use sfi_image::{Gate, ImageFault, LayoutFault, parse_image, write_image, write_image_as};
use std::test::Fail;

// The head of an image with one sandbox: code 256 at 01000000, data 256 at 80000000, start
// 01000020, two gates, two first data bytes; and the gates (01000000, 1) and (01000010, 0).
const HEAD: [u8; 52] = [
    0x53, 0x46, 0x49, 0x31, 1, 0, 0, 0, 0, 0, 0, 1, 0, 1, 0, 0, 0, 0, 0, 0x80, 0, 1, 0, 0, 0x20, 0,
    0, 1, 2, 0, 0, 0, 2, 0, 0, 0, 0, 0, 0, 1, 1, 0, 0, 0, 0x10, 0, 0, 1, 0, 0, 0, 0,
];

/// The image that begins with `HEAD`: its code is the bytes 0 to 255, its first data bytes are
/// `Hi`.
fn image_bytes(rt: &HostRuntime) -> Result<Vec<u8>, Fail> {
    let mut bytes = Vec::new(rt.alloc());
    bytes.extend_from_slice(&HEAD)?;
    for byte in 0..=255u8 {
        bytes.push(byte)?;
    }
    bytes.extend_from_slice(b"Hi")?;
    Ok(bytes)
}

/// `parse_image` gives each field of the layout that docs/IMAGE.md describes.
#[test]
fn reads_an_image(rt: HostRuntime) -> Result<(), Fail> {
    let bytes = image_bytes(&rt)?;
    let image = parse_image(rt.alloc(), &bytes)?;
    let parts = image.parts();
    assert_eq!(rt; parts.len(), 1);
    let part = &parts[0];
    assert_eq!(rt; part.code_base, 0x0100_0000);
    assert_eq!(rt; part.data_base, 0x8000_0000);
    assert_eq!(rt; part.data_size, 256);
    assert_eq!(rt; part.start, 0x0100_0020);
    let gates = [
        Gate {
            address: 0x0100_0000,
            service: 1,
        },
        Gate {
            address: 0x0100_0010,
            service: 0,
        },
    ];
    assert!(rt; part.gates.as_slice() == gates.as_slice());
    assert_eq!(rt; bytes.len(), 310);
    assert!(rt; part.code == &bytes[52..308]);
    assert!(rt; part.init == b"Hi".as_slice());
    Ok(())
}

// The formats, and how an image of each begins.
const FORMATS: &[(Format, &[u8])] = &[
    (Format::Sfi1, b"SFI1"),
    (Format::Sfi2, b"SFI2"),
    (Format::Sfiw, b"SFIW"),
    (Format::Sfis, b"SFIS"),
];

/// An image that was read is written as the same bytes; in another format only its magic differs.
#[test]
fn writes_an_image_in_each_format(rt: HostRuntime) -> Result<(), Fail> {
    let alloc = rt.alloc();
    let bytes = image_bytes(&rt)?;
    let image = parse_image(alloc, &bytes)?;
    let same = write_image(alloc, image.parts())?;
    assert!(rt; same.as_slice() == bytes.as_slice());
    for (format, magic) in FORMATS {
        let written = write_image_as(alloc, *format, image.parts())?;
        assert!(rt; written.strip_prefix(*magic) == bytes.strip_prefix(b"SFI1".as_slice()));
        assert!(rt; parse_image(alloc, &written)?.format() == *format);
    }
    Ok(())
}

/// The texts of faults are the lines that commands print of them.
#[test]
fn says_faults_of_a_layout(rt: HostRuntime) -> Result<(), Fail> {
    let whole = format!(in rt.alloc(); "{}", ImageFault::Layout(LayoutFault::Magic))?;
    assert_eq!(rt; whole.as_str(), "layout fault 1 Magic");
    let refused = format!(in rt.alloc(); "{}", Refusal::Layout(LayoutFault::Trailing))?;
    assert_eq!(rt; refused.as_str(), "layout fault 11 Trailing");
    Ok(())
}
