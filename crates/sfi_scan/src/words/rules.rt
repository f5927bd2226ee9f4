//! The rules of code in words, each as a test on an instruction and what is owed before it (`Owed`:
//! what it has to do, because an earlier one wrote a typed register). Each says what the definition
//! of about the same name in specs/words of `sfi_rules` does. `address` is the instruction's own.
ghost use Rattle.std.specs.Prelude.{◌≡◌};
ghost use Rattle.sfi_pairs.specs.Pairs.{is_placing};
ghost use Rattle.sfi_rules.specs.Readings.{IsWithin};
ghost use Rattle.sfi_rules.specs.words.Rules.{places, masks, is_pointer_step, breaks_ecall, breaks_reserved, may_access, breaks_access, breaks_jump, is_word_start, breaks_target, breaks_offset, left, owed_by};
ghost use Rattle.sfi_scan.specs.private.Scanning.{IsInside};
ghost use Rattle.sfi_rules.specs.words.Findings.{breaks_last, is_at_gate, lowest};

use crate::before::{is_masking, is_placing};
use crate::rules::{ends_region, offset_by};
use crate::words::owed::{Owing, fails_code, fails_data};
use rv_word::{ImmOp, Instr, Reg, RegOp};
use sfi_formats::{
    CODE_BASE_REGISTER, CODE_REGISTER, DATA_BASE_REGISTER, DATA_MASK_REGISTER, Format,
    OFFSET_REGISTER,
};
use sfi_pairs::{is_data_register_in, is_reserved_in};
use sfi_rules::{BundlePlace, Owed, Rule};

/// Whether the instruction is `or x30, x30, x24`.
pub(crate) fn is_code_placing(instr: &Instr) -> bool
    ensures { result ≡ is_placing 24 30 instr.now }
{
    is_placing(CODE_BASE_REGISTER, CODE_REGISTER, instr)
}

/// Whether the instruction is the last step of the mask of data register `d`: `or d, x31, x26`, which
/// puts an address of the data into it, or `and d, a, x27` where masks are single.
pub(crate) fn is_data_placing(format: Format, d: u8, instr: &Instr) -> bool
    ensures { result ≡ places format d instr.now }
{
    if format.has_single_mask() {
        return is_masking(DATA_MASK_REGISTER, d, instr);
    }
    match *instr {
        Instr::Op {
            op: RegOp::Or,
            rd,
            rs1,
            rs2,
        } => {
            rd.number() == d
                && rs1.number() == OFFSET_REGISTER
                && rs2.number() == DATA_BASE_REGISTER
        }
        _ => false,
    }
}

/// Whether the instruction is the first step of the mask of data register `d`: `and x31, d, x27`, which
/// masks it to an offset in the data, or `and d, a, x27` where masks are single.
pub(crate) fn is_data_masking(format: Format, d: u8, instr: &Instr) -> bool
    ensures { result ≡ masks format d instr.now }
{
    if format.has_single_mask() {
        return is_masking(DATA_MASK_REGISTER, d, instr);
    }
    match *instr {
        Instr::Op {
            op: RegOp::And,
            rd,
            rs1,
            rs2,
        } => {
            rd.number() == OFFSET_REGISTER
                && rs1.number() == d
                && rs2.number() == DATA_MASK_REGISTER
        }
        _ => false,
    }
}

/// Whether the instruction steps data register `d`: an `addi` from it to itself.
pub(crate) fn is_pointer_step(d: u8, instr: &Instr) -> bool
    ensures { result ≡ is_pointer_step d instr.now }
{
    match *instr {
        Instr::OpImm {
            op: ImmOp::Addi,
            rd,
            rs1,
            ..
        } => rd.number() == d && rs1.number() == d,
        _ => false,
    }
}

// ---- the rules

/// Whether the absolute address `address` is that of a listed gate: only a bundle's first can be.
fn is_at_gate(place: &BundlePlace, address: u32) -> bool
    ensures { result ≡ is_at_gate place.now address }
{
    place.listed && address == place.address
}

/// Whether the instruction breaks V3: an `ecall` at no listed gate.
fn breaks_ecall_in_words(place: &BundlePlace, address: u32, instr: &Instr) -> bool
    ensures { result ≡ breaks_ecall (is_at_gate place.now address) instr.now }
{
    match instr {
        Instr::Ecall => !is_at_gate(place, address),
        _ => false,
    }
}

/// Whether a load or store may have this base register: a data register of the format, or x26,
/// which holds the data's base.
pub(crate) fn is_access_base(format: Format, base: Reg) -> bool
    ensures { result ≡ may_access format base }
{
    is_data_register_in(format, base) || base.number() == DATA_BASE_REGISTER
}

/// Whether the instruction breaks V4: it writes a register that is reserved in the format.
fn breaks_reserved_in_words(format: Format, instr: &Instr) -> bool
    ensures { result ≡ breaks_reserved format instr.now }
{
    match instr.writes() {
        Some(rd) => is_reserved_in(format, rd),
        None => false,
    }
}

/// Whether the instruction breaks V5: a load or store on a register that [`is_access_base`] doesn't
/// allow.
fn breaks_access_in_words(format: Format, instr: &Instr) -> bool
    ensures { result ≡ breaks_access format instr.now }
{
    match *instr {
        Instr::Load { rs1, .. } | Instr::Store { rs1, .. } => !is_access_base(format, rs1),
        _ => false,
    }
}

/// Whether the instruction breaks V6: a `jalr` with an offset, or not on the code register x30.
fn breaks_jump_in_words(instr: &Instr) -> bool
    ensures { result ≡ breaks_jump instr.now }
{
    match *instr {
        Instr::Jalr { rs1, imm, .. } => !(imm == 0 && rs1.number() == CODE_REGISTER),
        _ => false,
    }
}

/// Whether a word of the code region begins at the absolute address `address`, so that a jump may
/// lead there.
pub(crate) fn is_word_start(place: &BundlePlace, address: u32) -> bool
    requires { IsWithin place.now }
    ensures { result ≡ is_word_start place.now.code_base place.now.code_size address }
{
    place.code_base <= address && address - place.code_base < place.code_size && address % 4 == 0
}

/// Whether the instruction breaks V7: a jump or branch to no word start of the code region.
fn breaks_target_in_words(place: &BundlePlace, address: u32, instr: &Instr) -> bool
    requires { IsWithin place.now }
    ensures { result ≡
        breaks_target place.now.code_base place.now.code_size address instr.now }
{
    match *instr {
        Instr::Jal { offset, .. } | Instr::Branch { offset, .. } => {
            !is_word_start(place, offset_by(address, offset))
        }
        _ => false,
    }
}

/// Whether the instruction breaks V12: it writes x31, which holds an offset where a mask has two steps,
/// and isn't `and x31, a, x27`.
fn breaks_offset(format: Format, instr: &Instr) -> bool
    ensures { result ≡ breaks_offset format instr.now }
{
    instr.writes_register(OFFSET_REGISTER)
        && !(format.has_single_mask() || is_masking(DATA_MASK_REGISTER, OFFSET_REGISTER, instr))
}

/// Whether the instruction of `size` bytes breaks V8: it ends the code region, and control may go
/// on to the address after it.
fn breaks_last(place: &BundlePlace, address: u32, size: u32, owed: Owed, instr: &Instr) -> bool
    requires within { IsWithin place.now }
    requires inside { IsInside place.now address size }
    ensures { result ≡ breaks_last (record {
      bundle = place.now;
      address = address;
      owed = owed;
      instr = instr.now;
      size = size;
    }) }
{
    address - place.code_base == place.code_size - size && !ends_region(instr)
}

/// The lowest rule that the instruction of `size` bytes at `address` breaks, of those that look at
/// instructions; `None` if it breaks none. `owing` is what it makes of `owed`, which is owed before
/// it. The tests go in the order of the rules' numbers. V1 and V2 are found where words are read;
/// V9 is none here.
pub(crate) fn lowest_rule_in_words(
    place: &BundlePlace,
    address: u32,
    size: u32,
    owed: Owed,
    owing: Owing,
    instr: &Instr,
) -> Option<Rule>
    requires within { IsWithin place.now }
    requires inside { IsInside place.now address size }
    requires left { owing.left ≡ left place.now.format owed instr.now }
    requires own { owing.own ≡ owed_by place.now.format instr.now }
    ensures { result ≡ lowest (record {
      bundle = place.now;
      address = address;
      owed = owed;
      instr = instr.now;
      size = size;
    }) }
{
    let format = place.format;
    if breaks_ecall_in_words(place, address, instr) {
        Some(Rule::V3)
    } else if breaks_reserved_in_words(format, instr) {
        Some(Rule::V4)
    } else if breaks_access_in_words(format, instr) {
        Some(Rule::V5)
    } else if breaks_jump_in_words(instr) {
        Some(Rule::V6)
    } else if breaks_target_in_words(place, address, instr) {
        Some(Rule::V7)
    } else if breaks_last(place, address, size, owed, instr) {
        Some(Rule::V8)
    } else if fails_data(format, owed, owing, instr) {
        Some(Rule::V10)
    } else if fails_code(format, owed, owing, instr) {
        Some(Rule::V11)
    } else if breaks_offset(format, instr) {
        Some(Rule::V12)
    } else {
        None
    }
}
