//! How often lines use registers, and a plan by that. Code is right by any numbers; the guess makes
//! it fast.
ghost use Rattle.std.specs.Prelude.{◌≡◌, ◌<◌, IfOk, IfSome};
ghost use Rattle.sfi_native.specs.Registers.{IsRightPlan};

use crate::line::Line;
use crate::owed::owed_of;
use crate::padding::padding_of;
use crate::plan::{Plan, is_fixed};
use crate::weights::weights_of;
use rv_word::{Instr, Reg};
use sfi_formats::Format;
use sfi_image::SandboxPart;
use std::alloc::{AllocError, Global};
use x86_instr::Register;

/// The registers of the processor in which the sandbox's may lie: those of `is_assignable` in plan.rt.
const ASSIGNABLE: [Register; 10] = [
    Register::Rbx,
    Register::Rbp,
    Register::Rsi,
    Register::Rdi,
    Register::R8,
    Register::R9,
    Register::R10,
    Register::R11,
    Register::R12,
    Register::R13,
];

/// How often each register is used.
#[derive(Drop)]
struct Uses {
    counts: [u64; 32],
}

impl Uses {
    /// Counts a use of a register by a line that runs `weight` times.
    fn add(&mut self, r: Reg, weight: u64) {
        let n = usize::from(r.number());
        self.counts[n] = self.counts[n].saturating_add(weight);
    }

    /// Counts the registers that an instruction reads and writes; it runs `weight` times.
    fn add_of(&mut self, instr: &Instr, weight: u64) {
        match *instr {
            Instr::Op { rd, rs1, rs2, .. } => {
                self.add(rd, weight);
                self.add(rs1, weight);
                self.add(rs2, weight);
            }
            Instr::OpImm { rd, rs1, .. }
            | Instr::Load { rd, rs1, .. }
            | Instr::Jalr { rd, rs1, .. } => {
                self.add(rd, weight);
                self.add(rs1, weight);
            }
            Instr::Store { rs1, rs2, .. } | Instr::Branch { rs1, rs2, .. } => {
                self.add(rs1, weight);
                self.add(rs2, weight);
            }
            Instr::Lui { rd, .. } | Instr::Auipc { rd, .. } | Instr::Jal { rd, .. } => {
                self.add(rd, weight);
            }
            _ => {}
        }
    }

    /// The register that is used most, of those that lie in the frame in `places` and aren't fixed;
    /// None, if none of these is used.
    fn busiest(&self, format: Format, places: &[Option<Register>; 32]) -> Option<usize>
        ensures { IfSome result (λ r. r < 32) }
    {
        let mut most = 0;
        let mut found = None;
        for r in 0..32 {
            let free = places[r].is_none() && !is_fixed(format, Reg::numbered(r as u8));
            if free && self.counts[r] > most {
                most = self.counts[r];
                found = Some(r);
            }
        }
        found
    }
}

/// How often lines use each register, weighted by how often each line runs.
fn uses_of(alloc: Global, lines: &[Line]) -> Result<Uses, AllocError> {
    let mut uses = Uses { counts: [0; 32] };
    let weights = weights_of(alloc, lines)?;
    for (line, weight) in lines.iter().zip(weights.iter()) {
        if let Line::Does { instr, .. } = line {
            uses.add_of(instr, *weight);
        }
    }
    Ok(uses)
}

/// Where registers lie: the ten that are used most, or as many as are used, in the processor's, the
/// others in the frame.
fn places_by(format: Format, uses: &Uses) -> [Option<Register>; 32] {
    let mut places = [None; 32];
    for k in 0..10 {
        if let Some(r) = uses.busiest(format, &places) {
            places[r] = Some(ASSIGNABLE[k]);
        }
    }
    places
}

/// A plan for these lines of a sandbox of an image of that format. The registers that they use most, above all in loops, lie in
/// the processor's, steps are counted as late as [`owed_of`] says, and nops stand where [`padding_of`] says.
pub fn plan_of(
    alloc: Global,
    format: Format,
    part: &SandboxPart<'_>,
    lines: &[Line],
) -> Result<Plan, AllocError>
    ensures right { IfOk result (λ plan. IsRightPlan plan) }
    ensures format { IfOk result (λ plan. plan.format ≡ format) }
{
    let mut plan = Plan::in_frame(alloc, format);
    plan.assigned = places_by(format, &uses_of(alloc, lines)?);
    plan.code_base = part.code_base;
    plan.owed = owed_of(alloc, part, lines)?;
    plan.padding = padding_of(alloc, part, &plan, lines)?;
    if plan.is_right() {
        Ok(plan)
    } else {
        Ok(Plan::in_frame(alloc, format))
    }
}
