//! What differs where masks are single: x26 is a data register, and all that 32 bits and an offset can lead to is closed.
use super::code::{line, part_of};
use rv_word::{ImmOp, Instr, Reg, RegOp};
use sfi_formats::Format;
use sfi_native::{Layout, Plan, plan_of, push_computing_line};
use std::alloc::Global;
use std::test::Fail;

/// x26 gets the sum of x5 and 8.
fn addition() -> Instr {
    Instr::OpImm {
        op: ImmOp::Addi,
        rd: Reg::numbered(26),
        rs1: Reg::numbered(5),
        imm: 8,
    }
}

/// x26 gets the bitwise and of x5 and x27.
fn mask() -> Instr {
    Instr::Op {
        op: RegOp::And,
        rd: Reg::numbered(26),
        rs1: Reg::numbered(5),
        rs2: Reg::numbered(27),
    }
}

const WRITTEN: [u8; 15] = [
    139, 68, 36, 20, // mov eax, [rsp+20]
    131, 192, 8, // add eax, 8
    137, 68, 36, 104, // mov [rsp+104], eax
    65, 131, 238, 1, // sub r14d, 1
];

const NOT_WRITTEN: [u8; 11] = [
    139, 68, 36, 20, // mov eax, [rsp+20]
    131, 192, 8, // add eax, 8
    65, 131, 238, 1, // sub r14d, 1
];

#[test]
fn x26_is_written(rt: HostRuntime) -> Result<(), Fail> {
    let single = Plan::in_frame(rt.alloc(), Format::Sfis);
    let mut out = Vec::new(rt.alloc());
    assert!(rt; push_computing_line(&mut out, &single, 0, 0, 0, addition())?);
    assert!(rt; out.as_slice() == WRITTEN.as_slice());
    let two_steps = Plan::in_frame(rt.alloc(), Format::Sfiw);
    out.clear();
    assert!(rt; push_computing_line(&mut out, &two_steps, 0, 0, 0, addition())?);
    assert!(rt; out.as_slice() == NOT_WRITTEN.as_slice());
    Ok(())
}

#[test]
fn x26_lies_in_a_register(rt: HostRuntime) -> Result<(), Fail> {
    let lines = [line(0, 4, addition()), line(4, 4, mask())];
    let part = part_of(rt.alloc(), &[0; 8]);
    for (format, wanted) in [(Format::Sfis, true), (Format::Sfiw, false)] {
        let plan = plan_of(rt.alloc(), format, &part, lines.as_slice())?;
        assert!(rt; plan.assigned[26].is_some() == wanted);
        assert!(rt; plan.assigned[5].is_some());
        assert!(rt; plan.assigned[27].is_none());
    }
    Ok(())
}

/// Whether a sandbox of that format has a layout with its frame and its data at these addresses.
fn has_layout(alloc: Global, format: Format, frame: u64, data_start: u64) -> bool {
    let plan = Plan::in_frame(alloc, format);
    Layout::new(plan, frame, data_start, &part_of(alloc, &[])).is_some()
}

/// Data of 4096 bytes at 0x02000000 in the sandbox: of 2^32 + 8192 bytes so many lie before them.
#[test]
fn all_addresses_are_closed(rt: HostRuntime) -> Result<(), Fail> {
    let alloc = rt.alloc();
    let end = 1 << 47;
    assert!(rt; has_layout(alloc, Format::Sfis, 0x1_0000_2000, 0x0200_1000));
    assert!(rt; !has_layout(alloc, Format::Sfis, 0x1_0000_1fff, 0x0200_1000));
    assert!(rt; !has_layout(alloc, Format::Sfis, 0x1_0000_2000, 0x0200_0000));
    assert!(rt; has_layout(alloc, Format::Sfis, 0, end - 0xfe00_1000));
    assert!(rt; !has_layout(alloc, Format::Sfis, 0, end - 0xfe00_0000));
    assert!(rt; has_layout(alloc, Format::Sfiw, 0x3000, 0x1000));
    assert!(rt; !has_layout(alloc, Format::Sfiw, 0x2fff, 0x1000));
    assert!(rt; !has_layout(alloc, Format::Sfiw, 0x3000, 0));
    Ok(())
}
