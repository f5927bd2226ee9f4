//! The rules of code in bundles, each as a test on an instruction, those around it, and its
//! bundle's place. Most say what the definition of the same name in specs/Rules or specs/Readings
//! of `sfi_rules` does. `before` has the two instructions before it in the bundle; `address` is its
//! own.
ghost use Rattle.std.specs.Prelude.{◌≡◌, ◌&&◌, List};
ghost use Rattle.rv_word.specs.Spelling.{offset_by};
ghost use Rattle.rv_word.specs.declared.instr.Instr.{Instr};
ghost use Rattle.sfi_rules.specs.Readings.{Piece, IsLongestReading};
ghost use Rattle.sfi_rules.specs.Readings.{writes_stack, is_stack_pair, begins_pair, ends_pair, precedes_pair, is_jump};
ghost use Rattle.sfi_rules.specs.Readings.{IsWithin};
ghost use Rattle.sfi_rules.specs.Rules.{InstrInBundle, is_empty, is_bundle_start, is_last_bundle, breaks_ecall, breaks_reserved, breaks_access, breaks_jump, breaks_target, breaks_stack, ends_region};
ghost use Rattle.sfi_rules.specs.Findings.{lowest, all_rules};
ghost use Rattle.sfi_scan.specs.private.Blocks.{near, ahead, finding_of};

use crate::ahead::{Ahead, read_ahead};
use crate::before::{Before, CODE, DATA, is_masking, is_placing};
use rv_word::Instr;
use sfi_formats::{BUNDLE_SIZE, STACK_POINTER};
use sfi_pairs::is_reserved;
use sfi_rules::{BundlePlace, Rule};

/// Whether the instruction breaks V3: an `ecall` that isn't the first instruction of a listed
/// gate's bundle. `is_first` says whether it is its bundle's first.
fn breaks_ecall(place: &BundlePlace, is_first: bool, instr: &Instr) -> bool
    ensures { (x : InstrInBundle) → x.bundle ≡ place.now → is_empty x.earlier ≡ is_first →
        result ≡ breaks_ecall x instr.now }
{
    match instr {
        Instr::Ecall => !(is_first && place.listed),
        _ => false,
    }
}

/// Whether the instruction breaks V4: it writes a reserved register.
pub(crate) fn breaks_reserved(instr: &Instr) -> bool
    ensures { result ≡ breaks_reserved instr.now }
{
    match instr.writes() {
        Some(rd) => is_reserved(rd),
        None => false,
    }
}

/// The stack pointer's number.
pub(crate) const STACK: u8 = STACK_POINTER;

/// Whether the instruction breaks V5: a load or store whose base is neither the stack pointer of
/// the second format nor put into the data by the pair directly before it.
fn breaks_access(place: &BundlePlace, before: &Before, instr: &Instr) -> bool
    ensures { (x : InstrInBundle) → x.bundle ≡ place.now → near x.earlier ≡ before.now →
        result ≡ breaks_access x instr.now }
{
    match *instr {
        Instr::Load { rs1, .. } | Instr::Store { rs1, .. } => {
            !(place.format.is_stack(rs1.number()) || before.is_pair(DATA, rs1))
        }
        _ => false,
    }
}

/// Whether the instruction breaks V6: a `jalr` with an offset, or not directly after the pair that
/// puts its base at a bundle start of the code.
fn breaks_jump(before: &Before, instr: &Instr) -> bool
    ensures { (x : InstrInBundle) → near x.earlier ≡ before.now → result ≡ breaks_jump x instr.now }
{
    match *instr {
        Instr::Jalr { rs1, imm, .. } => !(imm == 0 && before.is_pair(CODE, rs1)),
        _ => false,
    }
}

/// The address plus the offset in bytes, modulo 2^32: the target of a jump or branch.
pub(crate) fn offset_by(address: u32, offset: i32) -> u32
    ensures { result ≡ offset_by address offset }
{
    address.wrapping_add_signed(offset)
}

/// Whether a bundle of the code region begins at the absolute address `address`, so that a jump may
/// lead there.
pub(crate) fn is_bundle_start(place: &BundlePlace, address: u32) -> bool
    requires { IsWithin place.now }
    ensures { result ≡ is_bundle_start place.now address }
{
    place.code_base <= address
        && address - place.code_base < place.code_size
        && address % BUNDLE_SIZE == 0
}

/// Whether the instruction breaks V7: a jump or branch to no bundle start of the code region.
fn breaks_target(place: &BundlePlace, address: u32, instr: &Instr) -> bool
    requires { IsWithin place.now }
    ensures { (x : InstrInBundle) → x.bundle ≡ place.now → x.address ≡ address →
        result ≡ breaks_target x instr.now }
{
    match *instr {
        Instr::Jal { offset, .. } | Instr::Branch { offset, .. } => {
            !is_bundle_start(place, offset_by(address, offset))
        }
        _ => false,
    }
}

/// Whether the instruction may be the code region's last, since control never goes on to the
/// address after it. An `ecall` may not: the host's reply goes on there.
pub(crate) fn ends_region(instr: &Instr) -> bool
    ensures { result ≡ ends_region instr.now }
{
    matches!(
        instr,
        Instr::Jal { .. } | Instr::Jalr { .. } | Instr::Ebreak
    )
}

/// Whether the bundle is the last of its code region.
pub(crate) fn is_last_bundle(place: &BundlePlace) -> bool
    requires { IsWithin place.now }
    ensures { result ≡ is_last_bundle place.now }
{
    place.address - place.code_base == place.code_size - BUNDLE_SIZE
}

/// Whether the two instructions are the pair on the stack pointer, `and x2, a, x27` and
/// `or x2, x2, x26`, which puts it into the data.
fn is_stack_pair(first: &Instr, second: &Instr) -> bool
    ensures { result ≡ is_stack_pair first.now second.now }
{
    is_masking(DATA.mask, STACK, first) && is_placing(DATA.base, STACK, second)
}

/// Whether the instruction writes the stack pointer, in a format that has one.
fn writes_stack(place: &BundlePlace, instr: &Instr) -> bool
    ensures { result ≡ writes_stack place.now instr.now }
{
    place.format.has_stack() && instr.writes_register(STACK)
}

/// Whether the instruction is a `jal` or a `jalr`.
pub(crate) fn is_jump(instr: &Instr) -> bool
    ensures { result ≡ is_jump instr.now }
{
    matches!(instr, Instr::Jal { .. } | Instr::Jalr { .. })
}

/// Whether the instruction and the one directly after it, the first of `two`, are the pair on the
/// stack pointer.
fn begins_pair(instr: &Instr, two: &Ahead) -> bool
    ensures { (later : List Piece) → ahead later ≡ two.now →
        result ≡ begins_pair instr.now later }
{
    match &two.first {
        Some(next) => is_stack_pair(instr, next),
        None => false,
    }
}

/// Whether the instruction directly before it and the instruction are the pair on the stack pointer.
fn ends_pair(before: &Before, instr: &Instr) -> bool
    ensures { (earlier : List Instr) → near earlier ≡ before.now →
        result ≡ ends_pair earlier instr.now }
{
    match &before.second {
        Some(nearest) => is_stack_pair(nearest, instr),
        None => false,
    }
}

/// Whether `two`, the two instructions directly after a write of the stack pointer, are the pair on
/// it.
fn precedes_pair(two: &Ahead) -> bool
    ensures { (later : List Piece) → ahead later ≡ two.now → result ≡ precedes_pair later }
{
    match (&two.first, &two.second) {
        (Some(first), Some(second)) => is_stack_pair(first, second),
        (None, _) | (_, None) => false,
    }
}

/// Whether the instruction breaks V10: it writes the stack pointer, and is neither of the pair on
/// it nor directly before it. A `jal` or `jalr` may not stand before it, since control then leaves.
/// `after` has the bytes of its bundle after it.
fn breaks_stack(place: &BundlePlace, before: &Before, instr: &Instr, after: &[u8]) -> bool
    ensures { (x : InstrInBundle) → x.bundle ≡ place.now → near x.earlier ≡ before.now →
        IsLongestReading after.now x.later → result ≡ breaks_stack x instr.now }
{
    if !writes_stack(place, instr) {
        return false;
    }
    let two = read_ahead(after);
    !(begins_pair(instr, &two)
        || ends_pair(before, instr)
        || (!is_jump(instr) && precedes_pair(&two)))
}

/// The lowest rule that the instruction at `address` breaks, of those that look at instructions;
/// `None` if it breaks none. `after` has the bytes of its bundle after it. The tests go in the
/// order of `all_rules` of `sfi_rules`, so a new one comes in at its number. V1, V2 and V9 are
/// found elsewhere.
pub(crate) fn lowest_rule(
    place: &BundlePlace,
    address: u32,
    before: &Before,
    instr: &Instr,
    after: &[u8],
) -> Option<Rule>
    requires { IsWithin place.now }
    ensures { (x : InstrInBundle) → x.bundle ≡ place.now → x.address ≡ address →
        near x.earlier ≡ before.now → x.instr ≡ instr.now →
        (x.whole && is_empty x.later) ≡ is_empty after.now → IsLongestReading after.now x.later →
        lowest x all_rules ≡ finding_of place.now address result }
{
    let is_first = before.second.is_none();
    if breaks_ecall(place, is_first, instr) {
        Some(Rule::V3)
    } else if breaks_reserved(instr) {
        Some(Rule::V4)
    } else if breaks_access(place, before, instr) {
        Some(Rule::V5)
    } else if breaks_jump(before, instr) {
        Some(Rule::V6)
    } else if breaks_target(place, address, instr) {
        Some(Rule::V7)
    } else if after.is_empty() && is_last_bundle(place) && !ends_region(instr) {
        Some(Rule::V8)
    } else if breaks_stack(place, before, instr, after) {
        Some(Rule::V10)
    } else {
        None
    }
}
