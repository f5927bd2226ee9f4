//! Lines that count steps late, as the GNU assembler spells their instructions, and the numbers of steps that are owed.
use super::code::{AHEAD, addition, branch, line, load, part_of};
use rv_word::{Cond, Instr, LoadKind, Reg, StoreWidth};
use sfi_formats::Format;
use sfi_native::{
    Jump, Line, Plan, compile, plan_of, push_branch_line, push_computing_line, push_head_line,
    push_jal_line, push_jalr_line, push_leave_line, push_load_line, push_store_line,
};
use std::test::Fail;

const ADDITIONS: [u8; 44] = [
    139, 68, 36, 20, // mov eax, [rsp+20]
    3, 68, 36, 24, // add eax, [rsp+24]
    137, 68, 36, 28, // mov [rsp+28], eax
    139, 68, 36, 20, // mov eax, [rsp+20]
    3, 68, 36, 24, // add eax, [rsp+24]
    137, 68, 36, 28, // mov [rsp+28], eax
    65, 131, 238, 4, // sub r14d, 4
    139, 68, 36, 20, // mov eax, [rsp+20]
    3, 68, 36, 24, // add eax, [rsp+24]
    137, 68, 36, 28, // mov [rsp+28], eax
    65, 131, 238, 194, // sub r14d, -62
];

#[test]
fn computations_count_late(rt: HostRuntime) -> Result<(), Fail> {
    let mut out = Vec::new(rt.alloc());
    let plan = Plan::in_frame(rt.alloc(), Format::Sfiw);
    assert!(rt; push_computing_line(&mut out, &plan, 0, 5, 6, addition())?);
    assert!(rt; push_computing_line(&mut out, &plan, 0, 3, 0, addition())?);
    assert!(rt; push_computing_line(&mut out, &plan, 0, 0, 63, addition())?);
    assert!(rt; out.as_slice() == ADDITIONS.as_slice());
    Ok(())
}

const ACCESSES: [u8; 38] = [
    139, 68, 36, 8, // mov eax, [rsp+8]
    65, 15, 190, 68, 7, 252, // movsx eax, byte ptr [r15+rax-4]
    137, 68, 36, 40, // mov [rsp+40], eax
    65, 131, 238, 3, // sub r14d, 3
    139, 68, 36, 8, // mov eax, [rsp+8]
    139, 76, 36, 44, // mov ecx, [rsp+44]
    65, 137, 140, 7, 0, 1, 0, 0, // mov [r15+rax+256], ecx
    65, 131, 238, 255, // sub r14d, -1
];

#[test]
fn accesses_count_late(rt: HostRuntime) -> Result<(), Fail> {
    let mut out = Vec::new(rt.alloc());
    let plan = Plan::in_frame(rt.alloc(), Format::Sfiw);
    let (x2, x10, x11) = (Reg::numbered(2), Reg::numbered(10), Reg::numbered(11));
    push_load_line(&mut out, &plan, 3, 1, LoadKind::Lb, x10, x2, 0xffff_fffc)?;
    push_store_line(&mut out, &plan, 0, 2, StoreWidth::Sw, x2, x11, 256)?;
    assert!(rt; out.as_slice() == ACCESSES.as_slice());
    Ok(())
}

const JUMPS: [u8; 130] = [
    139, 68, 36, 20, // mov eax, [rsp+20]
    65, 131, 238, 2, // sub r14d, 2
    59, 68, 36, 24, // cmp eax, [rsp+24]
    15, 130, 9, 0, 0, 0, // {disp32} jb 1f
    65, 131, 238, 254, // sub r14d, -2
    233, 0, 1, 0, 0, // {disp32} jmp .+261
    184, 4, 1, 0, 1, // 1: mov eax, 0x1000104
    137, 68, 36, 4, // mov [rsp+4], eax
    65, 131, 238, 3, // sub r14d, 3
    65, 131, 254, 67, // cmp r14d, 67
    15, 131, 254, 255, 255, 255, // {disp32} jae .+4
    65, 131, 238, 2, // sub r14d, 2
    186, 64, 0, 0, 1, // mov edx, 0x1000040
    233, 0, 16, 0, 0, // {disp32} jmp .+4101
    65, 131, 254, 72, // cmp r14d, 72
    15, 131, 14, 0, 0, 0, // {disp32} jae .+20
    65, 131, 238, 7, // sub r14d, 7
    186, 128, 0, 0, 1, // mov edx, 0x1000080
    233, 0, 16, 0, 0, // {disp32} jmp .+4101
    65, 131, 238, 8, // sub r14d, 8
    186, 132, 0, 0, 1, // mov edx, 0x1000084
    233, 0, 16, 0, 0, // {disp32} jmp .+4101
    139, 84, 36, 20, // mov edx, [rsp+20]
    131, 194, 4, // add edx, 4
    131, 226, 254, // and edx, -2
    184, 4, 0, 0, 1, // mov eax, 0x1000004
    137, 68, 36, 4, // mov [rsp+4], eax
    65, 131, 238, 63, // sub r14d, 63
    233, 214, 15, 0, 0, // {disp32} jmp .+4059
];

/// Writes a branch ahead, where 2 are owed, 1 where it isn't taken and 3 at its label, and a jal back, 2 owed there.
fn push_jumps(out: &mut Vec<u8>, plan: &Plan) -> Result<(), Fail> {
    let (x1, x5, x6) = (Reg::numbered(1), Reg::numbered(5), Reg::numbered(6));
    let ahead = Jump {
        label_owed: 3,
        ..AHEAD
    };
    push_branch_line(out, plan, 2, 1, Cond::Bgeu, x5, x6, ahead)?;
    let back = Jump {
        from: 0x0100_0100,
        label: 0xffff_fff0,
        label_owed: 2,
        ..ahead
    };
    push_jal_line(out, plan, 4, x1, 0x0100_0104, back)?;
    Ok(())
}

#[test]
fn jumps_count_by_their_labels(rt: HostRuntime) -> Result<(), Fail> {
    let mut out = Vec::new(rt.alloc());
    let plan = Plan::in_frame(rt.alloc(), Format::Sfiw);
    push_jumps(&mut out, &plan)?;
    push_head_line(&mut out, 0x0100_0080, 7, 4096)?;
    push_leave_line(&mut out, 0x0100_0084, 8, 4096)?;
    let (x1, x5) = (Reg::numbered(1), Reg::numbered(5));
    push_jalr_line(&mut out, &plan, 62, x1, x5, 4, 0x0100_0004, 4054)?;
    assert!(rt; out.as_slice() == JUMPS.as_slice());
    Ok(())
}

const COMPILED: [u8; 129] = [
    65, 131, 254, 65, // cmp r14d, 65
    15, 131, 10, 0, 0, 0, // {disp32} jae 1f
    186, 0, 0, 0, 1, // mov edx, 0x1000000
    233, 109, 0, 0, 0, // {disp32} jmp 9f
    139, 68, 36, 20, // 1: mov eax, [rsp+20]
    3, 68, 36, 24, // add eax, [rsp+24]
    137, 68, 36, 28, // mov [rsp+28], eax
    139, 68, 36, 8, // mov eax, [rsp+8]
    65, 139, 68, 7, 8, // mov eax, [r15+rax+8]
    137, 68, 36, 20, // mov [rsp+20], eax
    65, 131, 238, 1, // sub r14d, 1
    139, 68, 36, 20, // mov eax, [rsp+20]
    3, 68, 36, 24, // add eax, [rsp+24]
    137, 68, 36, 28, // mov [rsp+28], eax
    65, 131, 238, 2, // sub r14d, 2
    186, 12, 0, 0, 1, // mov edx, 0x100000c
    233, 54, 0, 0, 0, // {disp32} jmp 9f
    65, 131, 254, 65, // cmp r14d, 65
    15, 130, 44, 0, 0, 0, // {disp32} jb 9f
    139, 194, // {load} mov eax, edx
    35, 68, 36, 100, // and eax, [rsp+100]
    11, 68, 36, 96, // or eax, [rsp+96]
    59, 194, // {load} cmp eax, edx
    15, 133, 26, 0, 0, 0, // {disp32} jne 9f
    72, 139, 132, 36, 128, 0, 0, 0, // mov rax, [rsp+128]
    68, 3, 116, 80, 4, // add r14d, [rax+rdx*2+4]
    139, 4, 80, // mov eax, [rax+rdx*2]
    72, 3, 132, 36, 136, 0, 0, 0, // add rax, [rsp+136]
    255, 224, // jmp rax; 9:
];

// The three lines behind the head; one step is owed at two of them.
const ENTRIES: [u32; 6] = [20, 0, 32, 1, 49, 1];

#[test]
fn code_counts_late(rt: HostRuntime) -> Result<(), Fail> {
    let mut plan = Plan::in_frame(rt.alloc(), Format::Sfiw);
    plan.code_base = 0x0100_0000;
    plan.owed = vec![in rt.alloc(); 0, 0, 1, 0, 1, 0, 2]?;
    let lines = [
        Line::Head { at: 0x0100_0000 },
        line(0, 4, addition()),
        line(4, 4, load()),
        line(8, 4, addition()),
    ];
    let part = part_of(rt.alloc(), &[0; 12]);
    let compiled = compile(rt.alloc(), Format::Sfiw, &part, &plan, lines.as_slice())?;
    let Some(compiled) = compiled else {
        panic!(rt; "no code");
    };
    assert!(rt; compiled.bytes.as_slice() == COMPILED.as_slice());
    assert!(rt; compiled.entries.as_slice() == ENTRIES.as_slice());
    let accesses = compiled.accesses.as_slice();
    assert!(rt; accesses.len() == 1);
    assert!(rt; accesses[0].offset == 36 && accesses[0].pc == 0x0100_0004 && accesses[0].owed == 1);
    Ok(())
}

#[test]
fn maps_owe_what_was_not_counted(rt: HostRuntime) -> Result<(), Fail> {
    let lines = [
        Line::Head { at: 0x0100_0000 },
        line(0, 4, addition()),
        line(4, 2, addition()),
        line(6, 2, load()),
        line(8, 4, addition()),
        line(12, 4, addition()),
        line(16, 4, branch(Cond::Bne, -4)),
        line(20, 4, addition()),
    ];
    let part = part_of(rt.alloc(), &[0; 24]);
    let plan = plan_of(rt.alloc(), Format::Sfiw, &part, lines.as_slice())?;
    assert!(rt; plan.code_base == 0x0100_0000);
    let owed = [0, 0, 1, 2, 3, 0, 4, 0, 5, 0, 6, 0];
    assert!(rt; plan.owed.as_slice() == owed.as_slice());
    Ok(())
}

/// A line that jumps ahead, and one that falls through to where that leads.
#[test]
fn maps_owe_at_labels_as_jumps_do(rt: HostRuntime) -> Result<(), Fail> {
    let lines = [
        line(0, 4, branch(Cond::Beq, 12)),
        line(4, 4, addition()),
        line(8, 4, load()),
        line(12, 4, addition()),
        line(16, 4, branch(Cond::Beq, -16)),
        line(20, 4, Instr::Ebreak),
        line(24, 4, addition()),
    ];
    let part = part_of(rt.alloc(), &[0; 28]);
    let plan = plan_of(rt.alloc(), Format::Sfiw, &part, lines.as_slice())?;
    let owed = [0, 0, 1, 0, 2, 0, 1, 0, 2, 0, 3, 0, 0, 0];
    assert!(rt; plan.owed.as_slice() == owed.as_slice());
    Ok(())
}

#[test]
fn maps_owe_fewer_than_63(rt: HostRuntime) -> Result<(), Fail> {
    let jump = Instr::Jal {
        rd: Reg::numbered(0),
        offset: 4,
    };
    let mut lines = vec![in rt.alloc(); line(0, 4, jump)]?;
    for n in 0..66 {
        lines.push(line(4 + 2 * n, 2, addition()))?;
    }
    let part = part_of(rt.alloc(), &[0; 136]);
    let plan = plan_of(rt.alloc(), Format::Sfiw, &part, lines.as_slice())?;
    let owed = plan.owed.as_slice();
    assert!(rt; owed.len() == 68);
    assert!(rt; owed[2] == 1 && owed[3] == 2 && owed[63] == 62);
    assert!(rt; owed[64] == 0 && owed[67] == 3);
    Ok(())
}
