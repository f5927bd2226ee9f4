//! Images made of pieces, and images cut short.
use sfi_check::{Refusal, StreamAnswer, check, check_stream};
use sfi_image::{LayoutFault, ReaderSource};
use std::alloc::{AllocError, Global};
use std::test::Fail;

/// The magics of the four formats: the digits of `SFI1`, `SFI2`, `SFIW` and `SFIS`.
pub(super) const SFI1: &str = "53464931";

pub(super) const SFI2: &str = "53464932";

pub(super) const SFIW: &str = "53464957";

pub(super) const SFIS: &str = "53464953";

/// The head of one sandbox after the magic: code 256 bytes at 01000000, data 256 at 01800000, start
/// at the code's first byte, no gates, no first data bytes.
pub(super) const HEAD: &str = "0100000000000001000100000000800100010000000000010000000000000000";

/// The same with data at 80000000, a single bit.
pub(super) const SINGLE_HEAD: &str =
    "0100000000000001000100000000008000010000000000010000000000000000";

/// `HEAD` with one gate, whose address and service come next.
pub(super) const GATE_HEAD: &str =
    "0100000000000001000100000000800100010000000000010100000000000000";

/// The stub that a listed gate's bundle has to be, as docs/IMAGE.md spells it.
pub(super) const STUB: &str = "73000000b3ff9001b3ef8f0167800f00";

/// `ebreak`. The smallest image's code is 64 of them.
pub(super) const EBREAK: &str = "73001000";

/// `c.nop`.
pub(super) const C_NOP: &str = "0100";

/// `c.ebreak`, which fills up a code region.
pub(super) const C_EBREAK: &str = "0290";

/// `and x0, x10, x27`; `or x0, x0, x26`; `sw x11, 0(x0)`.
pub(super) const PAIR_ON_X0: &str = "3370b5013360a0012320b000";

/// The base of data at 01800000, as in `HEAD`; and at 80000000, a single bit, as the fourth format asks.
pub(super) const DATA: &str = "00008001";

const SINGLE_DATA: &str = "00000080";

/// A program that puts two letters and exits with the code of the last: its image in the first
/// format, after the magic and up to the base of its data, and from there on up to the fill.
pub(super) const HI_CODE: &str = "010000000000000100010000";

pub(super) const HI: &str = "00010000200000010200000002000000\
    00000001010000001000000100000000\
    73000000b3ff9001b3ef8f0167800f0073000000b3ff9001b3ef8f0167800f00\
    370580011305050093052000eff05ffd37058001130505000100010001000100b37fb501b3efaf0103c51f00eff05ffc";

/// The whole image of that program, of 310 bytes, after this magic, with the data at this base.
pub(super) fn hi_pieces<'a>(magic: &'a str, data: &'a str) -> [(&'a str, usize); 6] {
    [
        (magic, 1),
        (HI_CODE, 1),
        (data, 1),
        (HI, 1),
        (C_EBREAK, 88),
        ("4869", 1),
    ]
}

/// The pieces one after another, each as often as its count says: digits, or the lines of a text.
pub(super) fn digits_of(alloc: Global, pieces: &[(&str, usize)]) -> Result<String, AllocError> {
    let mut digits = String::new(alloc);
    for (piece, times) in pieces {
        for _ in 0..*times {
            digits.push_str(piece)?;
        }
    }
    Ok(digits)
}

/// The bytes that the pieces' hexadecimal digits spell.
pub(super) fn bytes_of(alloc: Global, pieces: &[(&str, usize)]) -> Result<Vec<u8>, Fail> {
    let digits = digits_of(alloc, pieces)?;
    Ok(hex::decode(alloc, digits.as_bytes())?)
}

/// Whether both `check` and `check_stream` answer that the bytes are an image that is cut short.
fn is_short(alloc: Global, bytes: &[u8]) -> bool {
    let mut reader = bytes;
    let mut source = ReaderSource::new(&mut reader);
    check_stream(&mut source) == StreamAnswer::Layout(LayoutFault::Short)
        && matches!(
            check(alloc, bytes),
            Err(Refusal::Layout(LayoutFault::Short))
        )
}

/// An image that is cut at any length is found to be short; the whole image isn't.
#[test]
fn every_front_is_short(rt: HostRuntime) -> Result<(), Fail> {
    let alloc = rt.alloc();
    for (magic, data) in [
        (SFI1, DATA),
        (SFI2, DATA),
        (SFIW, DATA),
        (SFIS, SINGLE_DATA),
    ] {
        let bytes = bytes_of(alloc, &hi_pieces(magic, data))?;
        assert_eq!(rt; bytes.len(), 310);
        for len in 0..bytes.len() {
            assert!(rt; is_short(alloc, &bytes[..len]), "{len}");
        }
        assert!(rt; !is_short(alloc, &bytes));
    }
    Ok(())
}
