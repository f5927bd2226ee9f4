//! The bytes of a load or a store. Nothing is tested: an access beside the data faults, and the host
//! finds it in the table of accesses (`faults.rt`). Registers of the sandbox are read where they lie,
//! or else from eax (`rs1`) and ecx (`rs2`).
ghost use Rattle.std.specs.Prelude.{◌≡◌, ◌<◌, ◌++◌, OnOk};
ghost use Rattle.sfi_native.specs.Code.{data_address as data_address_at, load_code, load_from as load_of, load_line, store_code, store_line, store_to as store_of};
ghost use Rattle.x86_instr.specs.declared.instr.Instr.TheVariants.{MovExtended};
ghost use Rattle.x86_instr.specs.declared.operand.Operand.TheVariants.{Mem};
ghost use Rattle.x86_step.specs.Running.{spellings};

use crate::computation::put_count;
use crate::operation::{put, put_read, put_settle, register_or, result_in};
use crate::plan::Plan;
use rv_word::{LoadKind, Reg, StoreWidth};
use std::alloc::AllocError;
use x86_instr::{Address, Extension, Instr, Narrow, Operand, Register, Scale, Width};

/// The address of the data at the sandbox's address `index` + `displacement`: r15 has the host's
/// address of the sandbox's address 0.
fn data_address(index: Register, displacement: u32) -> Address
    ensures { result ≡ data_address_at index displacement }
{
    Address {
        base: Register::R15,
        index,
        scale: Scale::One,
        displacement,
    }
}

/// The instruction that loads a byte or a halfword into a register, extended to 32 bits.
fn narrow_load(extension: Extension, from: Narrow, dst: Register, place: Address) -> Instr
    ensures { result ≡ MovExtended extension from dst (Mem place) }
{
    Instr::MovExtended {
        extension,
        from,
        dst,
        src: Operand::Mem(place),
    }
}

/// The instruction that does a load of that kind into a register of the processor.
fn load_from(kind: LoadKind, dst: Register, place: Address) -> Instr
    ensures { result ≡ load_of kind dst place }
{
    match kind {
        LoadKind::Lb => narrow_load(Extension::Sign, Narrow::Byte, dst, place),
        LoadKind::Lh => narrow_load(Extension::Sign, Narrow::Word, dst, place),
        LoadKind::Lw => Instr::Mov {
            width: Width::Dword,
            dst,
            src: Operand::Mem(place),
        },
        LoadKind::Lbu => narrow_load(Extension::Zero, Narrow::Byte, dst, place),
        LoadKind::Lhu => narrow_load(Extension::Zero, Narrow::Word, dst, place),
    }
}

/// Writes a load of `rd`, without what counts its step.
#[tactic(auto, using(crate::proofs::Lists::load_parts))]
fn put_load(
    out: &mut Vec<u8>,
    plan: &Plan,
    kind: LoadKind,
    rd: Reg,
    rs1: Reg,
    displacement: u32,
) -> Result<(), AllocError>
    ensures { OnOk result (out.new.items ≡ out.old.items ++ spellings (load_code plan.now kind rd rs1 displacement)) }
{
    let base = plan.of(rs1);
    let place = plan.of(rd);
    put_read(out, base, Register::Rax, rs1)?;
    let from = data_address(register_or(base, Register::Rax), displacement);
    put(out, load_from(kind, result_in(place), from))?;
    put_settle(out, plan, place, rd)
}

/// Appends the line of a load; `owed` steps, fewer than 63, are owed before it, `next` behind it.
/// `displacement` is the immediate, in two's complement.
#[tactic(auto, using(crate::proofs::Lists::two_parts))]
pub fn push_load_line(
    out: &mut Vec<u8>,
    plan: &Plan,
    owed: u32,
    next: u32,
    kind: LoadKind,
    rd: Reg,
    rs1: Reg,
    displacement: u32,
) -> Result<(), AllocError>
    requires { owed < 63 }
    ensures { OnOk result (out.new.items ≡ out.old.items ++ spellings (load_line plan.now owed next kind rd rs1 displacement)) }
{
    put_load(out, plan, kind, rd, rs1, displacement)?;
    put_count(out, owed + 1, next)
}

/// The instruction that stores the low byte, halfword or word of a register of the processor.
fn store_to(width: StoreWidth, place: Address, src: Register) -> Instr
    ensures { result ≡ store_of width place src }
{
    match width {
        StoreWidth::Sb => Instr::MovStoreByte { dst: place, src },
        StoreWidth::Sh => Instr::MovStoreWord { dst: place, src },
        StoreWidth::Sw => Instr::MovStore {
            width: Width::Dword,
            dst: place,
            src,
        },
    }
}

/// Writes a store of `rs2`, without what counts its step.
#[tactic(auto, using(crate::proofs::Lists::store_parts))]
fn put_store(
    out: &mut Vec<u8>,
    plan: &Plan,
    width: StoreWidth,
    rs1: Reg,
    rs2: Reg,
    displacement: u32,
) -> Result<(), AllocError>
    ensures { OnOk result (out.new.items ≡ out.old.items ++ spellings (store_code plan.now width rs1 rs2 displacement)) }
{
    let base = plan.of(rs1);
    let stored = plan.of(rs2);
    put_read(out, base, Register::Rax, rs1)?;
    put_read(out, stored, Register::Rcx, rs2)?;
    let to = data_address(register_or(base, Register::Rax), displacement);
    put(out, store_to(width, to, register_or(stored, Register::Rcx)))
}

/// Appends the line of a store of `rs2`; `owed` steps, fewer than 63, are owed before it, `next`
/// behind it. `displacement` is the immediate, in two's complement.
#[tactic(auto, using(crate::proofs::Lists::two_parts))]
pub fn push_store_line(
    out: &mut Vec<u8>,
    plan: &Plan,
    owed: u32,
    next: u32,
    width: StoreWidth,
    rs1: Reg,
    rs2: Reg,
    displacement: u32,
) -> Result<(), AllocError>
    requires { owed < 63 }
    ensures { OnOk result (out.new.items ≡ out.old.items ++ spellings (store_line plan.now owed next width rs1 rs2 displacement)) }
{
    put_store(out, plan, width, rs1, rs2, displacement)?;
    put_count(out, owed + 1, next)
}
