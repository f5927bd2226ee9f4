//! Addresses for names, and what an instruction holds of them.
ghost use Rattle.std.specs.Prelude.{◌≡◌, ◌+◌, ◌<◌, ◌≤◌, ◌^◌, pos, ◌-ℤ◌, IfSome, slice_get};
ghost use Rattle.sfi_source.specs.Source.{upper, lower};
ghost use Rattle.sfi_link.specs.Code.{address_of, target_of, address_at, offset_of, base_of, value_at, base_at, target_at, of_name, with_offset, IsInCode, IsInReach, AreInReach};

use crate::bases::Bases;
use rv_word::{Instr, Reg};
use sfi_formats::{BUNDLE_SIZE, CODE_BASE_REGISTER, DATA_BASE_REGISTER};
use sfi_rewrite::PlacedName;

/// The address of what the name names, of a gate that of its stub; `None` where it names nothing.
/// `at` is where the sandbox lies.
pub(crate) fn address_of(at: Bases, name: PlacedName) -> Option<u32>
    requires near { IsInReach at name }
    ensures is { result ≡ address_of at name }
{
    match name {
        PlacedName::Gate(k) => Some(at.code + BUNDLE_SIZE * k as u32),
        PlacedName::Code(place) => Some(at.start + place),
        PlacedName::Data(offset) => Some(at.data + offset),
        PlacedName::Unknown => None,
    }
}

/// The address to which a jump to the name goes; `None` where the name is no gate and no label of
/// the code.
fn target_of(at: Bases, name: PlacedName) -> Option<u32>
    requires near { IsInReach at name }
    ensures is { result ≡ target_of at name }
    ensures near { IfSome result (IsInCode at) }
{
    match name {
        PlacedName::Gate(_) | PlacedName::Code(_) => address_of(at, name),
        PlacedName::Data(_) | PlacedName::Unknown => None,
    }
}

/// How many bytes the name's address is from the base of its region: from the code base, stubs
/// included, or from the data base. `None` where the name names nothing.
fn offset_of(at: Bases, name: PlacedName) -> Option<u32>
    requires near { IsInReach at name }
    ensures is { result ≡ offset_of at name }
{
    match name {
        PlacedName::Gate(k) => Some(BUNDLE_SIZE * k as u32),
        PlacedName::Code(place) => Some(at.start + place - at.code),
        PlacedName::Data(offset) => Some(offset),
        PlacedName::Unknown => None,
    }
}

/// The register that holds the base of the region of what the name names, x24 of code or x26 of
/// data; `None` where it names nothing.
fn base_register_of(name: PlacedName) -> Option<Reg>
    ensures is { result ≡ base_of name }
{
    match name {
        PlacedName::Gate(_) | PlacedName::Code(_) => Some(Reg::numbered(CODE_BASE_REGISTER)),
        PlacedName::Data(_) => Some(Reg::numbered(DATA_BASE_REGISTER)),
        PlacedName::Unknown => None,
    }
}

/// The address of what name number `place` of a sandbox names, if `at` is where the sandbox lies;
/// `None` where there is no such name or it names nothing.
pub fn address_at(at: Bases, names: &[PlacedName], place: usize) -> Option<u32>
    requires { AreInReach at names.now }
    ensures is { result ≡ address_at at names.now place }
{
    match names.get(place) {
        Some(name) => address_of(at, *name),
        None => None,
    }
}

/// How many bytes the address of name number `place` is from the base of its region; `None` where
/// there is no such name or it names nothing.
fn offset_at(at: Bases, names: &[PlacedName], place: usize) -> Option<u32>
    requires { AreInReach at names.now }
    ensures is { result ≡ of_name (offset_of at) (slice_get names.now place) }
{
    match names.get(place) {
        Some(name) => offset_of(at, *name),
        None => None,
    }
}

/// The number that the lui and the addi of an `la` of name number `place` make: its address, or in
/// a movable sandbox its offset from the base of its region, which an add of the base follows.
/// `None` where there is no such name or it names nothing.
pub(crate) fn value_at(at: Bases, names: &[PlacedName], place: usize) -> Option<u32>
    requires { AreInReach at names.now }
    ensures is { result ≡ value_at at names.now place }
{
    if at.movable {
        offset_at(at, names, place)
    } else {
        address_at(at, names, place)
    }
}

/// The register that holds the base of the region of what name number `place` names; `None` where
/// there is no such name or it names nothing.
pub(crate) fn base_at(names: &[PlacedName], place: usize) -> Option<Reg>
    ensures is { result ≡ base_at names.now place }
{
    match names.get(place) {
        Some(name) => base_register_of(*name),
        None => None,
    }
}

/// The address to which a jump to name number `place` goes; `None` where that is no gate and no
/// label of the code.
pub(crate) fn target_at(at: Bases, names: &[PlacedName], place: usize) -> Option<u32>
    requires { AreInReach at names.now }
    ensures is { result ≡ target_at at names.now place }
    ensures near { IfSome result (IsInCode at) }
{
    match names.get(place) {
        Some(name) => target_of(at, *name),
        None => None,
    }
}

/// The immediate of the lui for a number: bits 31:12 of the number plus 2048.
pub(crate) fn upper_immediate(value: u32) -> u32
    ensures is { result ≡ upper (pos value) }
    ensures fits { result < 2 ^ 20 }
{
    value.wrapping_add(2048) / 4096
}

/// The immediate of the addi after that lui, from -2048 to 2047.
pub(crate) fn lower_immediate(value: u32) -> i32
    ensures { result ≡ lower (pos value) }
{
    (value.wrapping_add(2048) % 4096) as i32 - 2048
}

/// The offset in bytes from address `here` to address `there`, which are at most 2^20 apart.
pub(crate) fn distance(here: u32, there: u32) -> i32
    requires back { here ≤ there + 2 ^ 20 }
    requires ahead { there ≤ here + 2 ^ 20 }
    ensures { result ≡ pos there -ℤ pos here }
{
    (i64::from(there) - i64::from(here)) as i32
}

/// The jal or branch with this offset, in bytes; any other instruction as it is.
pub(crate) fn with_offset(instr: Instr, offset: i32) -> Instr
    ensures { result ≡ with_offset offset instr }
{
    match instr {
        Instr::Jal { rd, .. } => Instr::Jal { rd, offset },
        Instr::Branch { cond, rs1, rs2, .. } => Instr::Branch {
            cond,
            rs1,
            rs2,
            offset,
        },
        Instr::Op { .. }
        | Instr::OpImm { .. }
        | Instr::Load { .. }
        | Instr::Store { .. }
        | Instr::Jalr { .. }
        | Instr::Lui { .. }
        | Instr::Auipc { .. }
        | Instr::Fence { .. }
        | Instr::Ecall
        | Instr::Ebreak => instr,
    }
}
