//! Nops before instructions, and where they are wanted.
use super::code::{addition, branch, line, load, part_of};
use rv_word::Cond;
use sfi_formats::Format;
use sfi_native::{Plan, compile, plan_of};
use std::test::Fail;
use x86_instr::NopSize;

const PADDED: [u8; 32] = [
    139, 68, 36, 20, // mov eax, [rsp+20]
    3, 68, 36, 24, // add eax, [rsp+24]
    137, 68, 36, 28, // mov [rsp+28], eax
    65, 131, 238, 1, // sub r14d, 1
    15, 31, 0, // nop dword ptr [rax]
    139, 68, 36, 8, // mov eax, [rsp+8]
    65, 139, 68, 7, 8, // mov eax, [r15+rax+8]
    137, 68, 36, 20, // mov [rsp+20], eax
];

/// The second unit is entered before its nop, and its access is behind it.
#[test]
fn nops_stand_before_instructions(rt: HostRuntime) -> Result<(), Fail> {
    let mut plan = Plan::in_frame(rt.alloc(), Format::Sfiw);
    plan.code_base = 0x0100_0000;
    plan.padding = vec![in rt.alloc(); None, None, Some(NopSize::Three), None]?;
    let lines = [line(0, 4, addition()), line(4, 4, load())];
    let part = part_of(rt.alloc(), &[0; 8]);
    let Some(compiled) = compile(rt.alloc(), Format::Sfiw, &part, &plan, lines.as_slice())? else {
        panic!(rt; "no code");
    };
    for (place, wanted) in PADDED.iter().enumerate() {
        let found = match compiled.bytes.get(place) {
            Some(byte) => *byte,
            None => 0,
        };
        assert!(rt; found == *wanted);
    }
    assert!(rt; compiled.entries.as_slice() == [0, 0, 16, 0].as_slice());
    let accesses = compiled.accesses.as_slice();
    assert!(rt; accesses.len() == 1);
    assert!(rt; accesses[0].offset == 16 + 3 + 4);
    Ok(())
}

/// Behind seven additions of four bytes, in rbx, rbp and rsi, the comparison and jcc of a branch are at 28 to 36.
#[test]
fn jumps_stand_off_borders(rt: HostRuntime) -> Result<(), Fail> {
    let mut lines = Vec::new(rt.alloc());
    for n in 0..7 {
        lines.push(line(4 * n, 4, addition()))?;
    }
    lines.push(line(28, 4, branch(Cond::Bne, -28)))?;
    lines.push(line(32, 4, addition()))?;
    let part = part_of(rt.alloc(), &[0; 36]);
    let plan = plan_of(rt.alloc(), Format::Sfiw, &part, lines.as_slice())?;
    let padding = plan.padding.as_slice();
    assert!(rt; padding.len() == 18);
    for (place, nop) in padding.iter().enumerate() {
        let wanted = if place == 14 { 7 } else { 0 };
        let found = match nop {
            Some(size) => size.bytes(),
            None => 0,
        };
        assert!(rt; found == wanted);
    }
    Ok(())
}
