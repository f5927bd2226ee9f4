//! Lines of code, as the GNU assembler spells their instructions.
use super::code::{AHEAD, addition, branch, call, line, load, number, operation, part_of};
use rv_word::{Cond, ImmOp, Instr, LoadKind, Reg, RegOp, StoreWidth};
use sfi_formats::Format;
use sfi_native::{
    Jump, Line, Plan, compile, push_branch_line, push_computing_line, push_head_line,
    push_jal_line, push_jalr_line, push_leave_line, push_line, push_load_line, push_store_line,
};
use std::test::Fail;

// {rex} setl chooses among spellings of one instruction. x24 isn't written, and an ecall isn't computed.
const BYTES: [u8; 48] = [
    139, 68, 36, 20, // mov eax, [rsp+20]
    3, 68, 36, 24, // add eax, [rsp+24]
    137, 68, 36, 28, // mov [rsp+28], eax
    65, 131, 238, 1, // sub r14d, 1
    139, 68, 36, 20, // mov eax, [rsp+20]
    131, 248, 251, // cmp eax, -5
    64, 15, 156, 192, // {rex} setl al
    64, 15, 182, 192, // {rex} movzx eax, al
    137, 68, 36, 124, // mov [rsp+124], eax
    65, 131, 238, 1, // sub r14d, 1
    184, 0, 176, 173, 222, // mov eax, 0xdeadb000
    65, 131, 238, 1, // sub r14d, 1
];

#[test]
fn lines_are_spelled(rt: HostRuntime) -> Result<(), Fail> {
    let plan = Plan::in_frame(rt.alloc(), Format::Sfiw);
    let mut out = Vec::new(rt.alloc());
    assert!(rt; push_computing_line(&mut out, &plan, 0, 0, 0, addition())?);
    let slti = Instr::OpImm {
        op: ImmOp::Slti,
        rd: Reg::numbered(31),
        rs1: Reg::numbered(5),
        imm: -5,
    };
    assert!(rt; push_computing_line(&mut out, &plan, 4, 0, 0, slti)?);
    assert!(rt; push_computing_line(&mut out, &plan, 8, 0, 0, number())?);
    assert!(rt; !push_computing_line(&mut out, &plan, 12, 0, 0, Instr::Ecall)?);
    assert!(rt; out.as_slice() == BYTES.as_slice());
    Ok(())
}

const JUMPS: [u8; 94] = [
    139, 68, 36, 20, // mov eax, [rsp+20]
    65, 131, 238, 1, // sub r14d, 1
    59, 68, 36, 24, // cmp eax, [rsp+24]
    15, 131, 0, 1, 0, 0, // {disp32} jae .+262
    184, 4, 0, 0, 1, // mov eax, 0x1000004
    137, 68, 36, 4, // mov [rsp+4], eax
    65, 131, 238, 1, // sub r14d, 1
    233, 240, 255, 255, 255, // jmp .-11
    65, 131, 254, 65, // cmp r14d, 65
    15, 131, 10, 0, 0, 0, // {disp32} jae .+16
    186, 128, 0, 0, 1, // mov edx, 0x1000080
    233, 0, 16, 0, 0, // jmp .+4101
    186, 132, 0, 0, 1, // mov edx, 0x1000084
    233, 0, 16, 0, 0, // jmp .+4101
    139, 84, 36, 20, // mov edx, [rsp+20]
    131, 194, 4, // add edx, 4
    131, 226, 254, // and edx, -2
    184, 4, 0, 0, 1, // mov eax, 0x1000004
    137, 68, 36, 4, // mov [rsp+4], eax
    65, 131, 238, 1, // sub r14d, 1
    233, 202, 15, 0, 0, // {disp32} jmp .+4047
];

#[test]
fn jumps_are_spelled(rt: HostRuntime) -> Result<(), Fail> {
    let plan = Plan::in_frame(rt.alloc(), Format::Sfiw);
    let mut out = Vec::new(rt.alloc());
    let (x1, x5, x6) = (Reg::numbered(1), Reg::numbered(5), Reg::numbered(6));
    push_branch_line(&mut out, &plan, 0, 0, Cond::Bgeu, x5, x6, AHEAD)?;
    let near = Jump {
        label: 0xffff_fff0,
        ..AHEAD
    };
    push_jal_line(&mut out, &plan, 0, x1, 0x0100_0004, near)?;
    push_head_line(&mut out, 0x0100_0080, 0, 4096)?;
    push_leave_line(&mut out, 0x0100_0084, 0, 4096)?;
    push_jalr_line(&mut out, &plan, 0, x1, x5, 4, 0x0100_0004, 4042)?;
    assert!(rt; out.as_slice() == JUMPS.as_slice());
    Ok(())
}

const ACCESSES: [u8; 38] = [
    139, 68, 36, 8, // mov eax, [rsp+8]
    65, 15, 190, 68, 7, 252, // movsx eax, byte ptr [r15+rax-4]
    137, 68, 36, 40, // mov [rsp+40], eax
    65, 131, 238, 1, // sub r14d, 1
    139, 68, 36, 8, // mov eax, [rsp+8]
    139, 76, 36, 44, // mov ecx, [rsp+44]
    65, 137, 140, 7, 0, 1, 0, 0, // mov [r15+rax+256], ecx
    65, 131, 238, 1, // sub r14d, 1
];

#[test]
fn accesses_are_spelled(rt: HostRuntime) -> Result<(), Fail> {
    let plan = Plan::in_frame(rt.alloc(), Format::Sfiw);
    let mut out = Vec::new(rt.alloc());
    let (x2, x10, x11) = (Reg::numbered(2), Reg::numbered(10), Reg::numbered(11));
    push_load_line(&mut out, &plan, 0, 0, LoadKind::Lb, x10, x2, 0xffff_fffc)?;
    push_store_line(&mut out, &plan, 0, 0, StoreWidth::Sw, x2, x11, 256)?;
    assert!(rt; out.as_slice() == ACCESSES.as_slice());
    Ok(())
}

// {disp32} chooses a distance of 32 bits.
const DIVISIONS: [u8; 170] = [
    139, 68, 36, 20, // mov eax, [rsp+20]
    139, 76, 36, 24, // mov ecx, [rsp+24]
    133, 201, // test ecx, ecx
    15, 133, 10, 0, 0, 0, // {disp32} jne .+16
    184, 255, 255, 255, 255, // mov eax, 0xffffffff
    185, 1, 0, 0, 0, // mov ecx, 1
    131, 249, 255, // cmp ecx, -1
    15, 133, 7, 0, 0, 0, // {disp32} jne .+13
    247, 216, // neg eax
    185, 1, 0, 0, 0, // mov ecx, 1
    153, // cdq
    247, 249, // idiv ecx
    137, 68, 36, 28, // mov [rsp+28], eax
    65, 131, 238, 1, // sub r14d, 1
    139, 68, 36, 20, // mov eax, [rsp+20]
    139, 76, 36, 24, // mov ecx, [rsp+24]
    133, 201, // test ecx, ecx
    15, 132, 9, 0, 0, 0, // {disp32} je .+15
    186, 0, 0, 0, 0, // mov edx, 0
    247, 241, // div ecx
    139, 194, // {load} mov eax, edx
    137, 68, 36, 28, // mov [rsp+28], eax
    65, 131, 238, 1, // sub r14d, 1
    139, 68, 36, 20, // mov eax, [rsp+20]
    139, 76, 36, 24, // mov ecx, [rsp+24]
    131, 249, 255, // cmp ecx, -1
    15, 133, 5, 0, 0, 0, // {disp32} jne .+11
    185, 1, 0, 0, 0, // mov ecx, 1
    133, 201, // test ecx, ecx
    15, 132, 5, 0, 0, 0, // {disp32} je .+11
    153, // cdq
    247, 249, // idiv ecx
    139, 194, // {load} mov eax, edx
    137, 68, 36, 28, // mov [rsp+28], eax
    65, 131, 238, 1, // sub r14d, 1
    139, 68, 36, 20, // mov eax, [rsp+20]
    139, 76, 36, 24, // mov ecx, [rsp+24]
    133, 201, // test ecx, ecx
    15, 133, 10, 0, 0, 0, // {disp32} jne .+16
    184, 255, 255, 255, 255, // mov eax, 0xffffffff
    185, 1, 0, 0, 0, // mov ecx, 1
    186, 0, 0, 0, 0, // mov edx, 0
    247, 241, // div ecx
    137, 68, 36, 28, // mov [rsp+28], eax
    65, 131, 238, 1, // sub r14d, 1
];

#[test]
fn divisions_are_spelled(rt: HostRuntime) -> Result<(), Fail> {
    let plan = Plan::in_frame(rt.alloc(), Format::Sfiw);
    let mut out = Vec::new(rt.alloc());
    for op in [RegOp::Div, RegOp::Remu, RegOp::Rem, RegOp::Divu] {
        assert!(rt; push_computing_line(&mut out, &plan, 0, 0, 0, operation(op))?);
    }
    assert!(rt; out.as_slice() == DIVISIONS.as_slice());
    Ok(())
}

/// A jump to 4 bytes behind where x5 leads, with the return address in x1.
fn jump_register() -> Instr {
    Instr::Jalr {
        rd: Reg::numbered(1),
        rs1: Reg::numbered(5),
        imm: 4,
    }
}

#[test]
fn each_kind_of_line_is_spelled(rt: HostRuntime) -> Result<(), Fail> {
    let plan = Plan::in_frame(rt.alloc(), Format::Sfiw);
    let mut out = Vec::new(rt.alloc());
    let at = 0x0100_0000;
    push_line(&mut out, &plan, Line::Function { sandbox: 0, at }, 0, 0)?;
    push_line(&mut out, &plan, line(0, 4, branch(Cond::Bgeu, 64)), 256, 0)?;
    push_line(&mut out, &plan, line(0, 4, call(64)), 0xffff_fff0, 0)?;
    push_line(&mut out, &plan, Line::Head { at: at + 128 }, 0, 4096)?;
    push_line(&mut out, &plan, line(132, 4, Instr::Ecall), 0, 4096)?;
    push_line(&mut out, &plan, line(0, 4, jump_register()), 0, 4096)?;
    assert!(rt; out.as_slice() == JUMPS.as_slice());
    Ok(())
}

const COMPILED: [u8; 148] = [
    65, 131, 254, 65, // cmp r14d, 65
    15, 131, 10, 0, 0, 0, // {disp32} jae 1f
    186, 0, 0, 0, 1, // mov edx, 0x1000000
    233, 128, 0, 0, 0, // {disp32} jmp 9f
    139, 68, 36, 20, // 1: mov eax, [rsp+20]
    65, 131, 238, 1, // sub r14d, 1
    59, 68, 36, 24, // cmp eax, [rsp+24]
    15, 131, 9, 0, 0, 0, // {disp32} jae 2f
    184, 0, 176, 173, 222, // 3: mov eax, 0xdeadb000
    65, 131, 238, 1, // sub r14d, 1
    184, 12, 0, 0, 1, // 2: mov eax, 0x100000c
    137, 68, 36, 4, // mov [rsp+4], eax
    65, 131, 238, 1, // sub r14d, 1
    65, 131, 254, 65, // cmp r14d, 65
    15, 131, 206, 255, 255, 255, // {disp32} jae 1b
    186, 0, 0, 0, 1, // mov edx, 0x1000000
    233, 68, 0, 0, 0, // {disp32} jmp 9f
    65, 131, 238, 0, // sub r14d, 0
    186, 12, 0, 0, 1, // mov edx, 0x100000c
    233, 54, 0, 0, 0, // {disp32} jmp 9f
    65, 131, 254, 65, // cmp r14d, 65
    15, 130, 44, 0, 0, 0, // {disp32} jb 9f
    139, 194, // {load} mov eax, edx
    35, 68, 36, 100, // and eax, [rsp+100]
    11, 68, 36, 96, // or eax, [rsp+96]
    59, 194, // {load} cmp eax, edx
    15, 133, 26, 0, 0, 0, // {disp32} jne 9f
    72, 139, 132, 36, 128, 0, 0, 0, // mov rax, [rsp+128]
    68, 3, 116, 80, 4, // add r14d, [rax+rdx*2+4]
    139, 4, 80, // mov eax, [rax+rdx*2]
    72, 3, 132, 36, 136, 0, 0, 0, // add rax, [rsp+136]
    255, 224, // jmp rax; 9:
];

// 1, 3 and 2 above, where nothing is owed
const ENTRIES: [u32; 6] = [20, 0, 38, 0, 47, 0];

#[test]
fn code_is_compiled(rt: HostRuntime) -> Result<(), Fail> {
    let plan = Plan::in_frame(rt.alloc(), Format::Sfiw);
    let at = 0x0100_0000;
    let lines = [
        Line::Function { sandbox: 0, at },
        Line::Head { at },
        line(0, 4, branch(Cond::Bgeu, 8)),
        line(4, 4, number()),
        line(8, 4, call(-8)),
    ];
    let part = part_of(rt.alloc(), &[0; 12]);
    let Some(compiled) = compile(rt.alloc(), Format::Sfiw, &part, &plan, lines.as_slice())? else {
        panic!(rt; "no code");
    };
    assert!(rt; compiled.bytes.as_slice() == COMPILED.as_slice());
    assert!(rt; compiled.entries.as_slice() == ENTRIES.as_slice());
    assert!(rt; compiled.accesses.is_empty());
    Ok(())
}

// mov eax, [rsp+8]; then the load, of 5 bytes; mov [rsp+20], eax; sub r14d, 1; mov eax, [rsp]; mov ecx, [rsp+24]; then the
// store
const LOAD_OFFSET: u32 = 4;

const STORE_OFFSET: u32 = 4 + 5 + 4 + 4 + 3 + 4;

#[test]
fn accesses_are_told(rt: HostRuntime) -> Result<(), Fail> {
    let plan = Plan::in_frame(rt.alloc(), Format::Sfiw);
    let at = 0x0100_0000;
    let store = Instr::Store {
        width: StoreWidth::Sh,
        rs1: Reg::numbered(0),
        rs2: Reg::numbered(6),
        imm: -4,
    };
    let lines = [
        line(0, 4, load()),
        Line::Entry { at: at + 4 },
        line(4, 4, store),
    ];
    let part = part_of(rt.alloc(), &[0; 8]);
    let Some(compiled) = compile(rt.alloc(), Format::Sfiw, &part, &plan, lines.as_slice())? else {
        panic!(rt; "no code");
    };
    let accesses = compiled.accesses.as_slice();
    assert!(rt; accesses.len() == 2);
    assert!(rt; accesses[0].offset == LOAD_OFFSET && accesses[0].pc == at);
    assert!(rt; accesses[1].offset == STORE_OFFSET && accesses[1].pc == at + 4);
    Ok(())
}
