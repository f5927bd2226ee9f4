//! What the rewriter asks of an item of the source.
ghost use Rattle.std.specs.Prelude.{◌≡◌, IfOk, IfErr};
ghost use Rattle.sfi_rewrite.specs.Expansion.{is_withheld, names_withheld, item_names_withheld, is_ecall};
ghost use Rattle.sfi_rewrite.specs.Expansion.{is_call};
ghost use Rattle.sfi_rewrite.specs.Expansion.{is_stack_write};
ghost use Rattle.sfi_rewrite.specs.Rewriting.{is_barred_jump, IsPermitted, HasItemFault};

use crate::fault::RewriteFault;
use crate::words::ADDRESS_REGISTER;
use rv_word::{Instr, Reg};
use sfi_formats::{CODE_REGISTER, Format, OFFSET_REGISTER};
use sfi_pairs::{is_data_register, is_reserved};
use sfi_source::{Body, Item};

/// Whether a source of the format may not name the register: it holds the base or mask of a region,
/// or the format's expansions write it. `is_withheld` of specs/Expansion is the same.
fn is_withheld_in(format: Format, register: Reg) -> bool
    ensures { result ≡ is_withheld format register }
{
    if format.has_words() {
        is_reserved(register)
            || matches!(
                register.number(),
                ADDRESS_REGISTER | CODE_REGISTER | OFFSET_REGISTER
            )
    } else {
        sfi_pairs::is_withheld(register)
    }
}

/// Whether one of the instruction's register operands is withheld from a source of the format, also
/// one that the instruction doesn't use, as a fence's.
fn names_withheld(format: Format, instr: &Instr) -> bool
    ensures { result ≡ names_withheld format instr.now }
{
    match *instr {
        Instr::Op { rd, rs1, rs2, .. } => is_withheld_in(format, rd)
            || is_withheld_in(format, rs1)
            || is_withheld_in(format, rs2),
        Instr::OpImm { rd, rs1, .. } => is_withheld_in(format, rd) || is_withheld_in(format, rs1),
        Instr::Load { rd, rs1, .. } => is_withheld_in(format, rd) || is_withheld_in(format, rs1),
        Instr::Store { rs1, rs2, .. } => is_withheld_in(format, rs1) || is_withheld_in(format, rs2),
        Instr::Branch { rs1, rs2, .. } => is_withheld_in(format, rs1)
            || is_withheld_in(format, rs2),
        Instr::Jal { rd, .. } => is_withheld_in(format, rd),
        Instr::Jalr { rd, rs1, .. } => is_withheld_in(format, rd) || is_withheld_in(format, rs1),
        Instr::Lui { rd, .. } => is_withheld_in(format, rd),
        Instr::Auipc { rd, .. } => is_withheld_in(format, rd),
        Instr::Fence { rd, rs1, .. } => is_withheld_in(format, rd) || is_withheld_in(format, rs1),
        Instr::Ecall => false,
        Instr::Ebreak => false,
    }
}

/// `names_withheld` for an item's body.
fn item_names_withheld(format: Format, body: &Body) -> bool
    ensures { result ≡ item_names_withheld format body.now }
{
    match body {
        Body::Plain(instr) => names_withheld(format, instr),
        Body::To(instr, _) => names_withheld(format, instr),
        Body::High(rd, _) => is_withheld_in(format, *rd),
        Body::Low(rd, _) => is_withheld_in(format, *rd),
        Body::Base(rd, _) => is_withheld_in(format, *rd),
    }
}

/// Whether the item is an `ecall`.
fn is_ecall_item(body: &Body) -> bool
    ensures { result ≡ is_ecall body.now }
{
    matches!(body, Body::Plain(Instr::Ecall))
}

/// Whether the item is a jal or jalr that writes a register other than x0: a return address, so
/// that in code in bundles it has to end its bundle.
pub(crate) fn is_call(body: &Body) -> bool
    ensures { result ≡ is_call body.now }
{
    match body {
        Body::Plain(Instr::Jalr { rd, .. }) => rd.number() != 0,
        Body::To(Instr::Jal { rd, .. }, _) => rd.number() != 0,
        _ => false,
    }
}

/// Whether the item is a jump that writes the stack pointer, or a load into it on another register:
/// what can't stand before the pair that puts the stack pointer back into the data region.
fn is_barred_stack_write(format: Format, body: &Body) -> bool
    ensures { result ≡ is_stack_write format body.now }
{
    match body {
        Body::Plain(Instr::Load { rd, rs1, .. }) => format.is_stack(rd.number())
            && !format.is_stack(rs1.number()),
        Body::Plain(Instr::Jal { rd, .. } | Instr::Jalr { rd, .. }) => {
            format.is_stack(rd.number())
        }
        Body::To(Instr::Jal { rd, .. }, _) => format.is_stack(rd.number()),
        _ => false,
    }
}

/// Whether the item is a jump of code in words that has no expansion: one that writes a data
/// register, or a jalr with an offset.
fn is_barred_jump(format: Format, body: &Body) -> bool
    ensures { result ≡ is_barred_jump format body.now }
{
    if !format.has_words() {
        return false;
    }
    match body {
        Body::Plain(Instr::Jalr { rd, imm, .. }) => is_data_register(*rd) || *imm != 0,
        Body::Plain(Instr::Jal { rd, .. }) | Body::To(Instr::Jal { rd, .. }, _) => {
            is_data_register(*rd)
        }
        _ => false,
    }
}

/// `Ok` where the item may have an expansion; else its fault, the first in this order of the four
/// that don't depend on its place. `HasItemFault` of specs/Rewriting has the same order.
pub(crate) fn permit(format: Format, item: &Item) -> Result<(), RewriteFault>
    ensures permitted { IfOk result (λ _. IsPermitted format item.now) }
    ensures refused { IfErr result (HasItemFault format item.now) }
{
    if item_names_withheld(format, &item.body) {
        return Err(RewriteFault::ReservedRegister { line: item.line });
    }
    if is_ecall_item(&item.body) {
        return Err(RewriteFault::Ecall { line: item.line });
    }
    if is_barred_stack_write(format, &item.body) {
        return Err(RewriteFault::StackWrite { line: item.line });
    }
    if is_barred_jump(format, &item.body) {
        return Err(RewriteFault::Jump { line: item.line });
    }
    Ok(())
}
