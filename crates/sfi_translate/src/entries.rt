//! Which units of code a turn and an indirect jump enter at once. A unit is what an indirect jump may
//! go to: a bundle of 16 bytes, or a word in the formats of words. Any choice is right: with too few the
//! text is slow, with too many the C compiler is.

use crate::lines::FUNCTION_MOST;
use rv_comp::{Front, read_front};
use rv_word::Instr;
use sfi_formats::Format;
use sfi_image::SandboxPart;
use std::alloc::{AllocError, Global};

/// The units of a sandbox's code at which the translation has an `ENTRY` line.
#[derive(Drop)]
pub(crate) struct ChosenUnits {
    base: u32,
    has_words: bool,
    /// For each unit, by its number, whether it is an entry.
    chosen: Vec<bool>,
}

impl ChosenUnits {
    /// Chooses the start, where a function of the text begins, each target of a call, of a jump
    /// backwards or of one into another function, what follows a call, and what the code or the first
    /// data name.
    pub(crate) fn of_sandbox(
        alloc: Global,
        format: Format,
        part: &SandboxPart<'_>,
    ) -> Result<Self, AllocError> {
        let mut chosen = Vec::new(alloc);
        chosen.resize(part.code.len() / 4, false)?;
        let mut entries = ChosenUnits {
            base: part.code_base,
            has_words: format.has_words(),
            chosen,
        };
        entries.add(part.start);
        entries.add_of_code(part);
        entries.add_of_data(part.init);
        Ok(entries)
    }

    /// The number of the unit that begins at the address, counted from the code's start; None where an
    /// address isn't a unit's start. The number may lie beyond the code.
    fn unit_number(&self, address: u32) -> Option<usize> {
        let offset = address.wrapping_sub(self.base);
        let (place, rest) = if self.has_words {
            (offset / 4, offset % 4)
        } else {
            (offset / 16, offset % 16)
        };
        if rest == 0 {
            Some(place as usize)
        } else {
            None
        }
    }

    /// Whether the unit at that address is an entry.
    pub(crate) fn has(&self, address: u32) -> bool {
        match self.unit_number(address) {
            Some(place) => place < self.chosen.len() && self.chosen[place],
            None => false,
        }
    }

    /// Chooses the unit at an address, if one is there.
    fn add(&mut self, address: u32) {
        if let Some(place) = self.unit_number(address) {
            if place < self.chosen.len() {
                self.chosen[place] = true;
            }
        }
    }

    /// Adds the addresses of code that words of the first data hold, as tables of functions do.
    fn add_of_data(&mut self, bytes: &[u8]) {
        for place in 0..bytes.len() / 4 {
            let at = 4 * place;
            self.add(u32::from_le_bytes([bytes[at], bytes[at + 1], bytes[at + 2], bytes[at + 3]]));
        }
    }

    /// Adds where functions of the text begin, and what the instructions of the code name. It looks
    /// at each halfword in turn: `next` is the offset of the next instruction, `before` what
    /// `upper_of` says of the last one.
    fn add_of_code(&mut self, part: &SandboxPart<'_>) {
        let mut next = 0;
        let mut before = None;
        let mut here = part.code_base;
        for place in 0..part.code.len() / 2 {
            let at = 2 * place;
            if at % FUNCTION_MOST as usize == 0 {
                self.add(here);
            }
            if at >= next {
                if let Front::Read(instr, size) = read_front(&part.code[at..]) {
                    self.add_of_instr(here, here.wrapping_add(size), &instr);
                    self.add_sum_with_upper(before, &instr);
                    next = at.saturating_add(size as usize);
                    before = upper_of(&instr);
                }
            }
            here = here.wrapping_add(2);
        }
    }

    /// Adds what an instruction jumps to, if that is a call, or lies where a jump must enter, and
    /// what follows a call.
    fn add_of_instr(&mut self, here: u32, after: u32, instr: &Instr) {
        match *instr {
            Instr::Jal { rd, offset } => {
                if rd.number() != 0 {
                    self.add(here.wrapping_add_signed(offset));
                    self.add(after);
                } else {
                    self.add_of_jump(here, offset);
                }
            }
            Instr::Jalr { rd, .. } => {
                if rd.number() != 0 {
                    self.add(after);
                }
            }
            Instr::Branch { offset, .. } => self.add_of_jump(here, offset),
            _ => {}
        }
    }

    /// Adds the target of a jump backwards or into another function.
    fn add_of_jump(&mut self, here: u32, offset: i32) {
        let to = here.wrapping_add_signed(offset);
        if to <= here || to / FUNCTION_MOST != here / FUNCTION_MOST {
            self.add(to);
        }
    }

    /// Adds the sum of the number that a lui wrote (`before`: its register, the number) and the
    /// constant of `instr`, if that computes with a constant on this register: an addi makes this
    /// address. Of other computations it adds a unit too many, which does no harm.
    fn add_sum_with_upper(&mut self, before: Option<(u8, u32)>, instr: &Instr) {
        if let Some((register, upper)) = before {
            if let Instr::OpImm { rs1, imm, .. } = *instr {
                let read = rs1.number();
                if read == register {
                    self.add(upper.wrapping_add_signed(imm));
                }
            }
        }
    }
}

/// The register that a lui writes, and the number that it gets; None for another instruction.
fn upper_of(instr: &Instr) -> Option<(u8, u32)> {
    match *instr {
        Instr::Lui { rd, imm } => {
            let written = rd.number();
            Some((written, imm.wrapping_mul(4096)))
        }
        _ => None,
    }
}
