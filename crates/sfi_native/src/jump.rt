//! The bytes of a branch or a jal.
ghost use Rattle.std.specs.Prelude.{◌≡◌, ◌++◌, ◌<◌, length, OnOk};
ghost use Rattle.sfi_native.specs.Code.{branch_line, compare_code, has_test as has_head_test, jal_line, leap, is_bare as is_bare_jump, met_by as met_by_of, opposite as opposite_of, tested_jump};
ghost use Rattle.x86_step.specs.Running.{spellings};

use crate::byte_sizes::TEST_BYTES;
use crate::computation::{count_size, put_count, put_number};
use crate::head::{leave_line_size, put_tested};
use crate::operation::{operand, put, put_read, register_or, with_operand};
use crate::plan::Plan;
use rv_word::{Cond, Reg};
use sfi_translate::HEAD_BYTES;
use std::alloc::AllocError;
use x86_instr::{AluOp, Condition, Instr, Register};

/// A jump between two addresses of the sandbox. Distances are in bytes, from the line's end in the
/// code of x86-64, in two's complement.
#[derive(Clone, Copy)]
pub struct Jump {
    /// The address of the line.
    pub from: u32,
    /// The address that it goes to.
    pub to: u32,
    /// The distance to that address's line.
    pub label: u32,
    /// The distance to the way out, where the jump goes if too few steps are left.
    pub exit: u32,
    /// How many steps are owed at the line of `to`, fewer than 63.
    pub label_owed: u32,
}

impl Jump {
    /// Whether it goes backwards, or past a head, of which there is one at each multiple of
    /// `HEAD_BYTES`, so that it needs a head's test of the steps left itself. `may_be_bare` of owed.rt says
    /// the opposite.
    fn has_test(&self) -> bool
        ensures { result ≡ has_head_test self.now }
    {
        self.to <= self.from || self.from / HEAD_BYTES != self.to / HEAD_BYTES
    }

    /// Whether one instruction is enough for it: it has no test, and as many steps are owed before it
    /// as at its label, so that none are to count.
    fn is_bare(&self, owed: u32) -> bool
        ensures { result ≡ is_bare_jump owed self.now }
    {
        !self.has_test() && owed == self.label_owed
    }

    /// How many bytes `put_jump` writes for it, where `owed` steps are owed before it.
    fn size(&self, owed: u32) -> u32
        requires few { owed < 128 }
        requires few_at_label { self.now.label_owed < 63 }
        ensures { result ≡ length (spellings (tested_jump owed self.now)) }
    {
        let counted = count_size(owed, self.label_owed);
        if self.has_test() {
            counted + TEST_BYTES + leave_line_size(self.label_owed)
        } else {
            counted + 5
        }
    }
}

/// Writes a jump to its label, with its test if it has one, where as many steps are owed already as
/// at the label.
#[tactic(auto, using(crate::proofs::Lists::with_test, crate::proofs::Lists::without_test))]
fn put_leap(out: &mut Vec<u8>, jump: &Jump) -> Result<(), AllocError>
    requires { jump.now.label_owed < 63 }
    ensures { OnOk result (out.new.items ≡ out.old.items ++ spellings (leap (has_head_test jump.now) jump.now)) }
{
    if !jump.has_test() {
        let distance = jump.label;
        return put(out, Instr::Jmp { distance });
    }
    put_tested(out, jump.to, jump.label_owed, jump.label, jump.exit)
}

/// Writes a jump, with its test if it has one, where `owed` steps are owed, its own among them.
#[tactic(auto, using(crate::proofs::Lists::two_parts))]
fn put_jump(out: &mut Vec<u8>, owed: u32, jump: &Jump) -> Result<(), AllocError>
    requires { jump.now.label_owed < 63 }
    ensures { OnOk result (out.new.items ≡ out.old.items ++ spellings (tested_jump owed jump.now)) }
{
    put_count(out, owed, jump.label_owed)?;
    put_leap(out, jump)
}

/// The condition on which a branch isn't taken.
fn opposite(cond: Cond) -> Condition
    ensures { result ≡ opposite_of cond }
{
    match cond {
        Cond::Beq => Condition::NotEqual,
        Cond::Bne => Condition::Equal,
        Cond::Blt => Condition::GreaterOrEqual,
        Cond::Bge => Condition::Less,
        Cond::Bltu => Condition::AboveOrEqual,
        Cond::Bgeu => Condition::Below,
    }
}

/// The condition on which a branch is taken.
fn met_by(cond: Cond) -> Condition
    ensures { result ≡ met_by_of cond }
{
    match cond {
        Cond::Beq => Condition::Equal,
        Cond::Bne => Condition::NotEqual,
        Cond::Blt => Condition::Less,
        Cond::Bge => Condition::GreaterOrEqual,
        Cond::Bltu => Condition::Below,
        Cond::Bgeu => Condition::AboveOrEqual,
    }
}

/// Writes the comparison of two registers; `owed` steps are owed before it, `next` behind it. Steps
/// are counted before the comparison, since that changes the flags.
#[tactic(auto, using(crate::proofs::Lists::compare_parts))]
fn put_compare(
    out: &mut Vec<u8>,
    plan: &Plan,
    owed: u32,
    next: u32,
    rs1: Reg,
    rs2: Reg,
) -> Result<(), AllocError>
    requires { owed < 63 }
    ensures { OnOk result (out.new.items ≡ out.old.items ++ spellings (compare_code plan.now owed next rs1 rs2)) }
{
    let first = plan.of(rs1);
    put_read(out, first, Register::Rax, rs1)?;
    put_count(out, owed + 1, next)?;
    put(
        out,
        with_operand(
            AluOp::Cmp,
            register_or(first, Register::Rax),
            operand(plan, rs2),
        ),
    )
}

/// Appends the line of a branch. `owed` steps are owed before it, and `next` behind it where it isn't
/// taken, each fewer than 63.
#[tactic(auto, using(crate::proofs::Lists::bare_parts, crate::proofs::Lists::branch_parts))]
pub fn push_branch_line(
    out: &mut Vec<u8>,
    plan: &Plan,
    owed: u32,
    next: u32,
    cond: Cond,
    rs1: Reg,
    rs2: Reg,
    jump: Jump,
) -> Result<(), AllocError>
    requires few { owed < 63 }
    requires few_behind { next < 63 }
    requires few_at_label { jump.label_owed < 63 }
    ensures { OnOk result (out.new.items ≡ out.old.items ++ spellings (branch_line plan.now owed next cond rs1 rs2 jump)) }
{
    put_compare(out, plan, owed, next, rs1, rs2)?;
    if jump.is_bare(next) {
        let condition = met_by(cond);
        let distance = jump.label;
        return put(
            out,
            Instr::Jcc {
                condition,
                distance,
            },
        );
    }
    put(
        out,
        Instr::Jcc {
            condition: opposite(cond),
            distance: jump.size(next),
        },
    )?;
    put_jump(out, next, &jump)
}

/// Appends the line of a jal; `behind` is the sandbox's address behind it, which `rd` gets. `owed`
/// steps, fewer than 63, are owed before it.
#[tactic(auto, using(crate::proofs::Lists::jal_parts))]
pub fn push_jal_line(
    out: &mut Vec<u8>,
    plan: &Plan,
    owed: u32,
    rd: Reg,
    behind: u32,
    jump: Jump,
) -> Result<(), AllocError>
    requires few { owed < 63 }
    requires few_at_label { jump.label_owed < 63 }
    ensures { OnOk result (out.new.items ≡ out.old.items ++ spellings (jal_line plan.now owed rd behind jump)) }
{
    put_number(out, plan, rd, behind)?;
    put_jump(out, owed + 1, &jump)
}
