//! The formats of images. For Python, `tools/suygapid/image/layout.py` and
//! `tools/second_checker.py` have their magics and largest regions, too.
ghost use Rattle.std.specs.Prelude.{◌≡◌, ◌↔◌, IsTrue, take};
ghost use Rattle.sfi_formats.specs.Numbers.{format_number, format_numbered};
ghost use Rattle.sfi_formats.specs.Formats.{magic, code_most, data_most, built_code_most, unit, has_stack, has_words, is_stack, has_single_mask};

use crate::registers::STACK_POINTER;

/// A format of images.
#[derive(Clone, Copy, PartialEq, Eq, Debug)]
pub enum Format {
    /// The first format: code in bundles.
    Sfi1,
    /// The format in which x2 is a stack pointer: it lies in the data region wherever a sandbox is
    /// entered or replied to, an access on it needs no pair, and what writes it is confined.
    Sfi2,
    /// The format of code in words of 4 bytes. In place of pairs there are typed registers, whose
    /// types say where they lie wherever a sandbox is entered or replied to, and what writes one is
    /// confined.
    Sfiw,
    /// The format of code in words whose mask of a data register is a single `and`. The data base is
    /// a single bit, and nothing lies in a zone at zero, where an address without that bit traps.
    Sfis,
}

impl Format {
    #[tactic(auto, unfolding(crate::specs::Formats::magic))]
    /// The bytes that an image of this format begins with.
    pub fn magic(self) -> [u8; 4]
        ensures { result ≡ magic self }
    {
        match self {
            Format::Sfi1 => *b"SFI1",
            Format::Sfi2 => *b"SFI2",
            Format::Sfiw => *b"SFIW",
            Format::Sfis => *b"SFIS",
        }
    }

    /// The number of this format, from 1 on, as C has it: `format` of `struct sfi_part` (`sfi_c`
    /// include/sfi.h) and of `struct sfi_bounds` (`sfi_slots`).
    pub fn number(self) -> u32
        ensures is { result ≡ format_number self }
        ensures back { format_numbered result ≡ self }
    {
        match self {
            Format::Sfi1 => 1,
            Format::Sfi2 => 2,
            Format::Sfiw => 3,
            Format::Sfis => 4,
        }
    }

    /// The format that has this number. A caller in C passes no other, as the headers ask; 0 and all
    /// above 4 are taken for the fourth, which asks most of others, so that each number has a format.
    pub fn numbered(number: u32) -> Self
        ensures { result ≡ format_numbered number }
    {
        match number {
            1 => Format::Sfi1,
            2 => Format::Sfi2,
            3 => Format::Sfiw,
            _ => Format::Sfis,
        }
    }

    /// The largest size of a code region, in bytes.
    pub fn code_most(self) -> u32
        ensures { result ≡ code_most self }
    {
        match self {
            Format::Sfi1 => 65536,
            Format::Sfi2 => 1_048_576,
            Format::Sfiw | Format::Sfis => 16_777_216,
        }
    }

    /// The largest size of a data region, in bytes.
    pub fn data_most(self) -> u32
        ensures { result ≡ data_most self }
    {
        match self {
            Format::Sfi1 | Format::Sfi2 => 1_048_576,
            Format::Sfiw | Format::Sfis => 1_073_741_824,
        }
    }

    /// The largest size in bytes of a code region that the assembler makes of a source; it may be
    /// below `code_most`, which images are held to.
    pub fn built_code_most(self) -> u32
        ensures { result ≡ built_code_most self }
    {
        match self {
            Format::Sfi1 => 65536,
            Format::Sfi2 | Format::Sfiw | Format::Sfis => 1_048_576,
        }
    }

    /// The size in bytes of a unit of code, a bundle or a word: a sandbox is entered, and jumps, at
    /// multiples of it alone.
    pub fn unit(self) -> u32
        ensures { result ≡ unit self }
    {
        match self {
            Format::Sfi1 | Format::Sfi2 => 16,
            Format::Sfiw | Format::Sfis => 4,
        }
    }

    /// Whether x2 is a stack pointer.
    pub fn has_stack(self) -> bool
        ensures { result ≡ has_stack self }
    {
        match self {
            Format::Sfi1 | Format::Sfiw | Format::Sfis => false,
            Format::Sfi2 => true,
        }
    }

    /// Whether code is in words, with typed registers.
    pub fn has_words(self) -> bool
        ensures { result ≡ has_words self }
    {
        match self {
            Format::Sfi1 | Format::Sfi2 => false,
            Format::Sfiw | Format::Sfis => true,
        }
    }

    /// Whether the mask of a data register, in code in words, is a single `and`. False for bundles,
    /// too.
    pub fn has_single_mask(self) -> bool
        ensures { result ≡ has_single_mask self }
    {
        match self {
            Format::Sfi1 | Format::Sfi2 | Format::Sfiw => false,
            Format::Sfis => true,
        }
    }

    /// Whether the register of this number is the stack pointer.
    pub fn is_stack(self, register: u8) -> bool
        ensures { result ≡ is_stack self register }
    {
        self.has_stack() && register == STACK_POINTER
    }

    /// Whether the bytes begin as an image of this format does, whatever follows.
    pub fn begins(self, bytes: &[u8]) -> bool
        ensures { IsTrue result ↔ (take 4 bytes.now ≡ magic self) }
    {
        bytes.len() >= 4 && &bytes[..4] == self.magic().as_slice()
    }
}
