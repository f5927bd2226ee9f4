//! How many steps code owes where: steps that are done, but not yet subtracted from r14. Code is
//! right by any numbers; these make it subtract seldom.
use crate::compilation::target;
use crate::line::Line;
use rv_word::Instr;
use sfi_image::SandboxPart;
use sfi_translate::HEAD_BYTES;
use std::alloc::{AllocError, Global};

/// Fewer steps than this are owed anywhere.
const OWED_END: u8 = 63;

/// Instead of a number: none is known yet.
const NONE: u8 = 255;

/// A number of owed steps, or `NONE`, for each two bytes of a sandbox's code, at which an instruction may
/// begin. `Plan::owed` and `half_word` of specs/Registers take the same index as `place`.
#[derive(Drop)]
struct HalfWords {
    code_base: u32,
    numbers: Vec<u8>,
}

impl HalfWords {
    /// Each of them is `number`.
    fn new(alloc: Global, part: &SandboxPart<'_>, number: u8) -> Result<HalfWords, AllocError> {
        Ok(HalfWords {
            code_base: part.code_base,
            numbers: vec![in alloc; number; part.code.len() / 2]?,
        })
    }

    /// The index of an address's number; it may lie beyond the last.
    fn place(&self, at: u32) -> usize {
        (at.wrapping_sub(self.code_base) / 2) as usize
    }

    /// The number of an address, or else `other`, if it has none yet or lies outside.
    fn number_or(&self, at: u32, other: u8) -> u8 {
        match self.numbers.get(self.place(at)) {
            Some(number) if *number != NONE => *number,
            _ => other,
        }
    }

    /// Changes the number of an address; nothing if that lies outside.
    fn set(&mut self, at: u32, number: u8) {
        let place = self.place(at);
        if let Some(old) = self.numbers.get_mut(place) {
            *old = number;
        }
    }
}

/// Whether one instruction of the processor is enough for a branch from `at` to `to` that counts
/// nothing: it needs no test of the steps left, as `has_test` of [`crate::Jump`] says.
fn may_be_bare(at: u32, to: u32) -> bool {
    to > at && to / HEAD_BYTES == at / HEAD_BYTES
}

/// How many steps are to be owed behind the line at address `at`, where `more` are if it counts
/// nothing. Where it jumps ahead, the number at its label is set in `labels`, unless an earlier jump
/// did. Behind a branch that may be bare as many are owed as at its label, and none behind what never
/// goes on at the next line.
fn owed_behind(labels: &mut HalfWords, at: u32, line: &Line, more: u8) -> u8 {
    let Line::Does { instr, .. } = line else {
        return more;
    };
    if let Some(to) = target(line) {
        let there = labels.number_or(to, more);
        if to > at {
            labels.set(to, there);
        }
        return match instr {
            Instr::Branch { .. } if may_be_bare(at, to) => there,
            Instr::Branch { .. } => more,
            _ => 0,
        };
    }
    match instr {
        Instr::Jalr { .. } | Instr::Ecall | Instr::Ebreak => 0,
        _ => more,
    }
}

/// For each two bytes of a sandbox's code how many steps are owed there: those since the last jump that always jumps, from 63 on
/// from 0 again; behind a branch that may be bare as many as at its label; and where a line jumps ahead to, those that are owed at
/// the first such jump.
pub(crate) fn owed_of(
    alloc: Global,
    part: &SandboxPart<'_>,
    lines: &[Line],
) -> Result<Vec<u8>, AllocError> {
    let mut labels = HalfWords::new(alloc, part, NONE)?;
    let mut owed = HalfWords::new(alloc, part, 0)?;
    let mut pending = 0;
    for line in lines {
        if let Line::Does { at, .. } = line {
            let here = labels.number_or(*at, pending);
            owed.set(*at, here);
            let more = (here % OWED_END + 1) % OWED_END;
            pending = owed_behind(&mut labels, *at, line, more);
        }
    }
    Ok(owed.numbers)
}
