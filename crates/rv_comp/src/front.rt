//! The instruction at the front of a list of bytes.
ghost use Rattle.std.specs.Prelude.{◌≡◌, ◌<◌, length};
ghost use Rattle.rv_comp.specs.Fronts.{IsFront};
ghost use Rattle.rv_comp.specs.Fronts.{IsShortSpelling};
ghost use Rattle.rv_comp.specs.private.{IsOnlyFront};
ghost use Rattle.rv_word.specs.Spelling.{IsWordOf};

use crate::decode::decode16;
use rv_word::{Instr, Length, decode32, size_of_first};

/// What stands at the front of a list of bytes.
#[derive(Clone, Copy, PartialEq, Eq)]
pub enum Front {
    /// An instruction, and how many bytes it has: 2 or 4.
    Read(Instr, u32),
    /// The bytes end before the instruction does.
    Short,
    /// No instruction.
    Bad,
}

/// The instruction of 2 bytes that the halfword spells, or `Bad`.
fn read_halfword(halfword: u16) -> Front
    ensures { IsOnlyFront (λ i. IsShortSpelling halfword i) 2 result }
{
    match decode16(halfword) {
        Some(form) => Front::Read(form.expand(), 2),
        None => Front::Bad,
    }
}

/// The instruction of 4 bytes that the word spells, or `Bad`.
fn read_word(word: u32) -> Front
    ensures { IsOnlyFront (λ i. IsWordOf word i) 4 result }
{
    match decode32(word) {
        Some(instr) => Front::Read(instr, 4),
        None => Front::Bad,
    }
}

/// What stands at the front of fewer than four bytes: no instruction of 4 bytes fits.
fn read_cut_front(bytes: &[u8]) -> Front
    requires { length bytes.now < 4 }
    ensures { IsFront bytes.now result }
{
    if bytes.len() < 2 {
        return Front::Short;
    }
    let first = u16::from_le_bytes([bytes[0], bytes[1]]);
    match size_of_first(first) {
        Length::Short => read_halfword(first),
        Length::Wide => Front::Short,
        Length::Longer => Front::Bad,
    }
}

/// The instruction at the front of the bytes. What follows it makes no difference.
#[tactic(auto, using(crate::proofs::Fronts::front_one))]
pub fn read_front(bytes: &[u8]) -> Front
    ensures front { IsFront bytes.now result }
    ensures only { (front : Front) → IsFront bytes.now front → result ≡ front }
{
    if bytes.len() < 4 {
        return read_cut_front(bytes);
    }
    let word = u32::from_le_bytes([bytes[0], bytes[1], bytes[2], bytes[3]]);
    let first = (word & 0xffff) as u16;
    match size_of_first(first) {
        Length::Short => read_halfword(first),
        Length::Wide => read_word(word),
        Length::Longer => Front::Bad,
    }
}
