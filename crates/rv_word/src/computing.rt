//! Which words compute, as `Computes` of [`Outline`](crate::outline::Outline) says, by two tables:
//! what one test tells of most words, without making an outline.
ghost use Rattle.std.specs.Prelude.{◌≡◌, ℕ, true};
ghost use Rattle.std.specs.Bool.{OnTrue};
ghost use Rattle.rv_word.specs.Spelling.{bits};
ghost use Rattle.rv_word.specs.declared.outline.Outline.TheVariants.{Computes};
ghost use Rattle.rv_word.specs.Outlines.{IsWordThat};

use crate::word_fields::WordFields;

/// By bits 6:2 of a word and its funct3: the classes of funct7 with which the word computes. 1 is
/// every funct7, 2 is 0000000, 4 is 0000001 (extension M) and 8 is 0100000.
const COMPUTING: [u8; 256] = [
    0, 0, 0, 0, 0, 0, 0, 0, // 00000, LOAD
    0, 0, 0, 0, 0, 0, 0, 0, // 00001
    0, 0, 0, 0, 0, 0, 0, 0, // 00010
    0, 0, 0, 0, 0, 0, 0, 0, // 00011, MISC-MEM
    1, 2, 1, 1, 1, 10, 1, 1, // 00100, OP-IMM
    1, 1, 1, 1, 1, 1, 1, 1, // 00101, AUIPC
    0, 0, 0, 0, 0, 0, 0, 0, // 00110
    0, 0, 0, 0, 0, 0, 0, 0, // 00111
    0, 0, 0, 0, 0, 0, 0, 0, // 01000, STORE
    0, 0, 0, 0, 0, 0, 0, 0, // 01001
    0, 0, 0, 0, 0, 0, 0, 0, // 01010
    0, 0, 0, 0, 0, 0, 0, 0, // 01011
    14, 6, 6, 6, 6, 14, 6, 6, // 01100, OP
    1, 1, 1, 1, 1, 1, 1, 1, // 01101, LUI
    0, 0, 0, 0, 0, 0, 0, 0, // 01110
    0, 0, 0, 0, 0, 0, 0, 0, // 01111
    0, 0, 0, 0, 0, 0, 0, 0, // 10000
    0, 0, 0, 0, 0, 0, 0, 0, // 10001
    0, 0, 0, 0, 0, 0, 0, 0, // 10010
    0, 0, 0, 0, 0, 0, 0, 0, // 10011
    0, 0, 0, 0, 0, 0, 0, 0, // 10100
    0, 0, 0, 0, 0, 0, 0, 0, // 10101
    0, 0, 0, 0, 0, 0, 0, 0, // 10110
    0, 0, 0, 0, 0, 0, 0, 0, // 10111
    0, 0, 0, 0, 0, 0, 0, 0, // 11000, BRANCH
    0, 0, 0, 0, 0, 0, 0, 0, // 11001, JALR
    0, 0, 0, 0, 0, 0, 0, 0, // 11010
    0, 0, 0, 0, 0, 0, 0, 0, // 11011, JAL
    0, 0, 0, 0, 0, 0, 0, 0, // 11100, SYSTEM
    0, 0, 0, 0, 0, 0, 0, 0, // 11101
    0, 0, 0, 0, 0, 0, 0, 0, // 11110
    0, 0, 0, 0, 0, 0, 0, 0, // 11111
];

/// By funct7: the classes that it is in, as the sum of the same numbers.
const CLASSES: [u8; 128] = [
    3, 5, 1, 1, 1, 1, 1, 1, 1, 1, 1, 1, 1, 1, 1, 1, // 0000000
    1, 1, 1, 1, 1, 1, 1, 1, 1, 1, 1, 1, 1, 1, 1, 1, // 0010000
    9, 1, 1, 1, 1, 1, 1, 1, 1, 1, 1, 1, 1, 1, 1, 1, // 0100000
    1, 1, 1, 1, 1, 1, 1, 1, 1, 1, 1, 1, 1, 1, 1, 1, // 0110000
    1, 1, 1, 1, 1, 1, 1, 1, 1, 1, 1, 1, 1, 1, 1, 1, // 1000000
    1, 1, 1, 1, 1, 1, 1, 1, 1, 1, 1, 1, 1, 1, 1, 1, // 1010000
    1, 1, 1, 1, 1, 1, 1, 1, 1, 1, 1, 1, 1, 1, 1, 1, // 1100000
    1, 1, 1, 1, 1, 1, 1, 1, 1, 1, 1, 1, 1, 1, 1, 1, // 1110000
];

/// Whether the word spells an instruction that computes into a register, which its bits 11:7 name.
#[inline(always)]
pub fn computes32(word: u32) -> bool
    ensures found { OnTrue result (IsWordThat word (Computes (bits word 11 7))) }
    ensures only { (rd : ℕ) → IsWordThat word (Computes rd) → result ≡ true }
{
    let parts = WordFields::from_word(word);
    let place = (parts.opcode >> 2) * 8 + parts.funct3;
    let class = CLASSES[parts.funct7 as usize];
    parts.opcode & 0b11 == 0b11 && COMPUTING[place as usize] & class != 0
}
