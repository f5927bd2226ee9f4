//! Lines by a map of registers, as the GNU assembler spells their instructions, maps that aren't right, and those that are chosen.
use super::code::{AHEAD, call, line, part_of};
use rv_word::{Cond, ImmOp, Instr, LoadKind, Reg, RegOp, StoreWidth};
use sfi_formats::Format;
use sfi_native::{
    Plan, plan_of, push_branch_line, push_computing_line, push_load_line, push_store_line,
};
use std::alloc::Global;
use std::test::Fail;
use x86_instr::Register;

/// A plan with x2 in rsi, x5 in r8, x6 in rbx, x7 in r11, and the others in the frame.
fn some_registers(alloc: Global) -> Plan {
    let mut plan = Plan::in_frame(alloc, Format::Sfiw);
    plan.assigned[2] = Some(Register::Rsi);
    plan.assigned[5] = Some(Register::R8);
    plan.assigned[6] = Some(Register::Rbx);
    plan.assigned[7] = Some(Register::R11);
    plan
}

const BY_MAP: [u8; 99] = [
    69, 139, 216, // {load} mov r11d, r8d
    68, 3, 219, // {load} add r11d, ebx
    65, 131, 238, 1, // sub r14d, 1
    65, 139, 192, // {load} mov eax, r8d
    43, 195, // {load} sub eax, ebx
    139, 216, // {load} mov ebx, eax
    65, 131, 238, 1, // sub r14d, 1
    65, 3, 216, // {load} add ebx, r8d
    65, 131, 238, 1, // sub r14d, 1
    69, 139, 216, // {load} mov r11d, r8d
    68, 59, 92, 36, 40, // cmp r11d, [rsp+40]
    65, 15, 156, 195, // setl r11b
    69, 15, 182, 219, // movzx r11d, r11b
    65, 131, 238, 1, // sub r14d, 1
    65, 131, 192, 5, // add r8d, 5
    65, 131, 238, 1, // sub r14d, 1
    65, 139, 216, // {load} mov ebx, r8d
    65, 131, 238, 1, // sub r14d, 1
    187, 0, 176, 173, 222, // mov ebx, 0xdeadb000
    65, 131, 238, 1, // sub r14d, 1
    187, 249, 255, 255, 255, // mov ebx, -7
    65, 131, 238, 1, // sub r14d, 1
    65, 139, 216, // {load} mov ebx, r8d
    65, 131, 238, 1, // sub r14d, 1
    65, 139, 216, // {load} mov ebx, r8d
    65, 131, 238, 1, // sub r14d, 1
    // none, as x5 stays
    65, 131, 238, 1, // sub r14d, 1
];

/// Sums, a difference into its second operand, a comparison, a move, numbers, and operations with x0.
fn computations() -> [Instr; 11] {
    let (x0, x5, x6, x7) = (
        Reg::numbered(0),
        Reg::numbered(5),
        Reg::numbered(6),
        Reg::numbered(7),
    );
    let of = |op, rd, rs1, rs2| Instr::Op { op, rd, rs1, rs2 };
    let add = |rd, rs1, imm| Instr::OpImm {
        op: ImmOp::Addi,
        rd,
        rs1,
        imm,
    };
    [
        of(RegOp::Add, x7, x5, x6),
        of(RegOp::Sub, x6, x5, x6),
        of(RegOp::Add, x6, x5, x6),
        of(RegOp::Slt, x7, x5, Reg::numbered(10)),
        add(x5, x5, 5),
        add(x6, x5, 0),
        Instr::Lui {
            rd: x6,
            imm: 0xdeadb,
        },
        add(x6, x0, -7),
        of(RegOp::Add, x6, x0, x5),
        of(RegOp::Xor, x6, x5, x0),
        of(RegOp::Or, x5, x5, x0),
    ]
}

#[test]
fn computations_are_spelled_by_a_map(rt: HostRuntime) -> Result<(), Fail> {
    let mut out = Vec::new(rt.alloc());
    let plan = some_registers(rt.alloc());
    assert!(rt; plan.is_right());
    for instr in computations() {
        assert!(rt; push_computing_line(&mut out, &plan, 0, 0, 0, instr)?);
    }
    assert!(rt; out.as_slice() == BY_MAP.as_slice());
    Ok(())
}

const ACCESSES_BY_MAP: [u8; 44] = [
    65, 15, 190, 68, 55, 252, // movsx eax, byte ptr [r15+rsi-4]
    137, 68, 36, 40, // mov [rsp+40], eax
    65, 131, 238, 1, // sub r14d, 1
    65, 139, 92, 55, 8, // mov ebx, [r15+rsi+8]
    65, 131, 238, 1, // sub r14d, 1
    69, 136, 28, 55, // mov [r15+rsi], r11b
    65, 131, 238, 1, // sub r14d, 1
    139, 68, 36, 40, // mov eax, [rsp+40]
    65, 137, 116, 7, 4, // mov [r15+rax+4], esi
    65, 131, 238, 1, // sub r14d, 1
];

#[test]
fn accesses_are_spelled_by_a_map(rt: HostRuntime) -> Result<(), Fail> {
    let mut out = Vec::new(rt.alloc());
    let plan = some_registers(rt.alloc());
    let (x2, x10) = (Reg::numbered(2), Reg::numbered(10));
    push_load_line(&mut out, &plan, 0, 0, LoadKind::Lb, x10, x2, 0xffff_fffc)?;
    push_load_line(&mut out, &plan, 0, 0, LoadKind::Lw, Reg::numbered(6), x2, 8)?;
    let x7 = Reg::numbered(7);
    push_store_line(&mut out, &plan, 0, 0, StoreWidth::Sb, x2, x7, 0)?;
    push_store_line(&mut out, &plan, 0, 0, StoreWidth::Sw, x10, x2, 4)?;
    assert!(rt; out.as_slice() == ACCESSES_BY_MAP.as_slice());
    Ok(())
}

const BRANCH_BY_MAP: [u8; 14] = [
    65, 131, 238, 1, // sub r14d, 1
    68, 59, 4, 36, // cmp r8d, [rsp]
    15, 131, 0, 1, 0, 0, // {disp32} jae .+262
];

#[test]
fn branches_are_spelled_by_a_map(rt: HostRuntime) -> Result<(), Fail> {
    let mut out = Vec::new(rt.alloc());
    let plan = some_registers(rt.alloc());
    let (x0, x5) = (Reg::numbered(0), Reg::numbered(5));
    push_branch_line(&mut out, &plan, 0, 0, Cond::Bgeu, x5, x0, AHEAD)?;
    assert!(rt; out.as_slice() == BRANCH_BY_MAP.as_slice());
    Ok(())
}

#[test]
fn wrong_maps_are_told(rt: HostRuntime) -> Result<(), Fail> {
    let mut shared = some_registers(rt.alloc());
    shared.assigned[31] = Some(Register::R8);
    assert!(rt; !shared.is_right());
    let mut fixed = some_registers(rt.alloc());
    fixed.assigned[26] = Some(Register::R9);
    assert!(rt; !fixed.is_right());
    let mut taken = some_registers(rt.alloc());
    taken.assigned[31] = Some(Register::R14);
    assert!(rt; !taken.is_right());
    Ok(())
}

/// In a loop a function is called that uses x5 once; outside x6 is used three times.
#[test]
fn registers_of_called_functions_come_first(rt: HostRuntime) -> Result<(), Fail> {
    let (x0, x1) = (Reg::numbered(0), Reg::numbered(1));
    let double = |r| Instr::Op {
        op: RegOp::Add,
        rd: Reg::numbered(r),
        rs1: Reg::numbered(r),
        rs2: Reg::numbered(r),
    };
    let back = Instr::Branch {
        cond: Cond::Beq,
        rs1: x0,
        rs2: x0,
        offset: -4,
    };
    let ret = Instr::Jalr {
        rd: x0,
        rs1: x1,
        imm: 0,
    };
    let lines = [
        line(0, 4, double(6)),
        line(4, 4, call(12)),
        line(8, 4, back),
        line(12, 4, Instr::Ebreak),
        line(16, 4, double(5)),
        line(20, 4, ret),
    ];
    let part = part_of(rt.alloc(), &[0; 24]);
    let plan = plan_of(rt.alloc(), Format::Sfiw, &part, lines.as_slice())?;
    for (r, wanted) in [(5_usize, 3_u8), (1, 5), (6, 6)] {
        let found = match plan.assigned[r] {
            Some(q) => q.number(),
            None => 255,
        };
        assert!(rt; found == wanted);
    }
    Ok(())
}
