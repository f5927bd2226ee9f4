//! Instructions by their operands: their words as an assembler and a disassembler have them;
//! halfwords whose meaning is known from the RISC-V manual, first forms, and all halfwords there
//! and back. A word or halfword *spells* the instruction that it encodes. A *form* is a row of the
//! manual's table of 16-bit instructions, which expands to an instruction of 32 bits. An *outline*
//! is an instruction without its values: the register that it writes, the base of its access, how
//! far it jumps.
ghost use Rattle.std.specs.Prelude.{◌<◌};

use super::x;
use rv_comp::{
    Form16, Front, decode16, encode16, form_of, outline16, read_front, write_short, write_wide,
};
use rv_word::{
    Cond, ImmOp, Instr, Length, LoadKind, Outline, Reg, RegOp, StoreWidth, decode32, encode32,
    op_word, outline_of, outline32, size_of_first,
};
use std::process::Abort;

/// The instruction on two registers with these operands.
fn arithmetic(op: RegOp, rd: Reg, rs1: Reg, rs2: Reg) -> Instr {
    Instr::Op { op, rd, rs1, rs2 }
}

/// The instruction on a register and a constant with these operands.
fn immediate(op: ImmOp, rd: Reg, rs1: Reg, imm: i32) -> Instr {
    Instr::OpImm { op, rd, rs1, imm }
}

/// `addi`, with registers by their numbers.
fn addi(rd: u8, rs1: u8, imm: i32) -> Instr
    requires rd { rd < 32 }
    requires rs1 { rs1 < 32 }
{
    immediate(ImmOp::Addi, x(rd), x(rs1), imm)
}

/// `lw rd, imm(rs1)`.
fn load(rd: Reg, rs1: Reg, imm: i32) -> Instr {
    let kind = LoadKind::Lw;
    Instr::Load { kind, rd, rs1, imm }
}

/// `sw rs2, imm(rs1)`.
fn store(rs1: Reg, rs2: Reg, imm: i32) -> Instr {
    Instr::Store {
        width: StoreWidth::Sw,
        rs1,
        rs2,
        imm,
    }
}

/// The branch that compares `rs1` with x0, to `offset` bytes from its own address.
fn branch_on_zero(cond: Cond, rs1: Reg, offset: i32) -> Instr {
    Instr::Branch {
        cond,
        rs1,
        rs2: x(0),
        offset,
    }
}

/// `jal rd, offset`, the offset in bytes from its own address.
fn jump(rd: Reg, offset: i32) -> Instr {
    Instr::Jal { rd, offset }
}

/// `jalr rd, imm(rs1)`.
fn jump_to(rd: Reg, rs1: Reg, imm: i32) -> Instr {
    Instr::Jalr { rd, rs1, imm }
}

/// `lui rd, imm`: `imm` are the upper 20 bits, in the range 0 to 0xfffff.
fn lui(rd: Reg, imm: u32) -> Instr {
    Instr::Lui { rd, imm }
}

/// `fence` with these fields; `imm` are the word's upper 12 bits.
fn fence(imm: u32, rd: Reg, rs1: Reg) -> Instr {
    Instr::Fence { imm, rd, rs1 }
}

// ---- words

/// Tries that `word` decodes to `instr`, that this is encoded as `word`, and that both have the
/// same outline.
fn spells(rt: &impl Abort, word: u32, instr: &Instr) {
    let is_spelled = decode32(word) == Some(*instr) && encode32(*instr) == Some(word);
    let is_outlined = outline32(word) == Some(outline_of(*instr));
    assert!(rt; is_spelled && is_outlined, "{word:08x}");
}

/// Words with several kinds of operands, as an assembler encodes them.
#[test]
fn words_and_instructions(rt: HostRuntime) {
    let (kind, branch) = (LoadKind::Lbu, Cond::Beq);
    let vectors = [
        (0x02c5_8533, arithmetic(RegOp::Mul, x(10), x(11), x(12))),
        (0x4045_5513, immediate(ImmOp::Srai, x(10), x(10), 4)),
        (0xfd5f_f0ef, jump(x(1), -44)),
        (0xfe00_0ae3, branch_on_zero(branch, x(0), -12)),
        (
            0x001f_c503,
            Instr::Load {
                kind,
                rd: x(10),
                rs1: x(31),
                imm: 1,
            },
        ),
        (0x0180_0537, lui(x(10), 0x1800)),
        (0x0ff0_000f, fence(255, x(0), x(0))),
    ];
    for (word, instr) in &vectors {
        spells(&rt, *word, instr);
    }
}

/// Words that RV32IM doesn't have: a SYSTEM word other than ecall and ebreak, fence.i, jalr with
/// funct3 1, and slli by 32.
#[test]
fn words_of_no_instruction(rt: HostRuntime) {
    for word in [0x0020_0073, 0x0000_100f, 0x0000_1067, 0x0205_1513] {
        assert!(rt; decode32(word) == None, "reading {word:08x}");
    }
}

/// Operands that no word can hold: each number is the first outside its field's range, or odd where
/// that is even.
#[test]
fn instructions_of_no_word(rt: HostRuntime) {
    let outside = [
        branch_on_zero(Cond::Beq, x(8), 4096),
        branch_on_zero(Cond::Beq, x(8), -4098),
        branch_on_zero(Cond::Beq, x(8), 3),
        jump(x(1), 1048576),
        jump(x(1), -1048578),
        jump_to(x(0), x(1), 2048),
        jump_to(x(0), x(1), -2049),
        load(x(10), x(11), 2048),
        load(x(10), x(11), -2049),
        store(x(11), x(10), 2048),
        store(x(11), x(10), -2049),
        addi(10, 10, 2048),
        addi(10, 10, -2049),
        immediate(ImmOp::Slli, x(10), x(10), 32),
        immediate(ImmOp::Slli, x(10), x(10), -1),
        lui(x(10), 1048576),
        fence(4096, x(0), x(0)),
    ];
    for instr in &outside {
        assert!(rt; encode32(*instr) == None);
    }
}

/// 31 is the last register's number. `writes` gives the register that an instruction changes: none
/// where that is x0, which stays 0.
#[test]
fn registers(rt: HostRuntime) {
    assert!(rt; x(31).number() == 31);
    assert!(rt; Reg::new(32) == None);
    assert!(rt; jump(x(1), 16).writes() == Some(x(1)));
    assert!(rt; jump(x(0), 16).writes() == None);
}

/// The length by the first halfword: 16 bits, 32 bits, or more, as the manual's lowest bits say.
#[test]
fn lengths(rt: HostRuntime) {
    let halves = [
        (0x0800, Length::Short),
        (0x8533, Length::Wide),
        (0x001f, Length::Longer),
    ];
    for (first, length) in halves {
        assert!(rt; size_of_first(first) == length);
    }
}

/// Outlines of an assembler's words: `and x31, x1, x25`, `lw x10, 4(x2)`, `sw x10, 4(x2)`, `ecall`,
/// and of a word that is no instruction.
#[test]
fn outlines(rt: HostRuntime) {
    let (rd, base) = (x(10), x(2));
    assert!(rt; op_word(RegOp::And, x(31), x(1), x(25)) == 0x0190_ffb3);
    assert!(rt; outline32(0x0190_ffb3) == Some(Outline::Computes { rd: x(31) }));
    assert!(rt; outline32(0x0041_2503) == Some(Outline::Loads { rd, base }));
    assert!(rt; outline32(0x00a1_2223) == Some(Outline::Stores { base }));
    assert!(rt; outline32(0x0000_0073) == Some(Outline::Calls));
    assert!(rt; outline32(0x0020_0073).is_none());
}

// ---- halfwords

/// Tries that `halfword` is read as a form that expands to `want`, and has the outline of that.
fn expands(rt: &impl Abort, halfword: u16, want: Instr) {
    let is_expanded = match decode16(halfword) {
        Some(form) => form.expand() == want,
        None => false,
    };
    let is_outlined = outline16(halfword) == Some(outline_of(want));
    assert!(rt; is_expanded && is_outlined, "{halfword:04x}");
}

/// Halfwords and the instructions to which the manual expands them.
#[test]
fn known_halfwords(rt: HostRuntime) {
    let rt = &rt;
    expands(rt, 0x0800, addi(8, 2, 16));
    expands(rt, 0x4044, load(x(9), x(8), 4));
    expands(rt, 0x1141, addi(2, 2, -16));
    expands(rt, 0x717d, addi(2, 2, -16));
    expands(rt, 0x2801, jump(x(1), 16));
    expands(rt, 0x6785, lui(x(15), 0x1));
    expands(rt, 0x77fd, lui(x(15), 0xfffff));
    expands(rt, 0x8405, immediate(ImmOp::Srai, x(8), x(8), 1));
    expands(rt, 0x8c05, arithmetic(RegOp::Sub, x(8), x(8), x(9)));
    expands(rt, 0xbffd, jump(x(0), -2));
    expands(rt, 0xc801, branch_on_zero(Cond::Beq, x(8), 16));
    expands(rt, 0x4512, load(x(10), x(2), 4));
    expands(rt, 0xc606, store(x(2), x(1), 12));
    expands(rt, 0x8082, jump_to(x(0), x(1), 0));
    expands(rt, 0x852e, arithmetic(RegOp::Add, x(10), x(0), x(11)));
    expands(rt, 0x952e, arithmetic(RegOp::Add, x(10), x(10), x(11)));
    expands(rt, 0x9002, Instr::Ebreak);
    expands(rt, 0x0001, addi(0, 0, 0));
}

/// Halfwords that are no instruction of RV32C: zero, c.slli by 32, c.lwsp into x0, c.addi16sp by 0,
/// c.jr on x0, and c.subw of RV64.
#[test]
fn halfwords_of_no_form(rt: HostRuntime) {
    for halfword in [0x0000, 0x1002, 0x4002, 0x6101, 0x8002, 0x9c05] {
        assert!(rt; decode16(halfword).is_none());
        assert!(rt; outline16(halfword).is_none());
    }
}

/// All 65536 halfwords: the form that is read of one is written as the same halfword again.
#[test]
fn each_halfword_that_decodes_encodes_again(rt: HostRuntime) {
    for halfword in 0..=u16::MAX {
        if let Some(form) = decode16(halfword) {
            assert!(rt; encode16(form) == Some(halfword));
        }
    }
}

/// `form_of` gives the form of the first row of the manual's table that expands to an instruction,
/// or `None` where no row does, as for an addi from another register.
#[test]
fn first_forms(rt: HostRuntime) {
    let rows = [
        (addi(2, 2, -16), 0x1141), // c.addi sp, -16
        (addi(0, 0, 5), 0x0015), // c.addi zero, 5, a hint
        (addi(8, 2, 16), 0x0800), // c.addi4spn s0, sp, 16
        (addi(5, 0, 0), 0x4281), // c.li t0, 0
        (arithmetic(RegOp::Add, x(10), x(0), x(11)), 0x852e), // c.mv a0, a1
    ];
    for (instr, halfword) in rows {
        let spelled = form_of(instr).and_then(|form| encode16(form));
        assert!(rt; spelled == Some(halfword));
    }
    assert!(rt; form_of(addi(5, 6, 1)).is_none());
}

/// The halfword 717d is a c.addi16sp, but c.addi, which can say the same, is an earlier row of the
/// table: so `form_of` of what 717d expands to gives that, 1141.
#[test]
fn the_first_form_of_a_later_one(rt: HostRuntime) {
    let first = decode16(0x717d)
        .and_then(|form| form_of(form.expand()))
        .and_then(|form| encode16(form));
    assert!(rt; first == Some(0x1141));
}

/// What bytes begin with: an instruction and its size, `Short` where they end inside it, `Bad`
/// where it is none already by what is there. c.nop is 0001, ecall 00000073.
#[test]
fn fronts(rt: HostRuntime) {
    assert!(rt; read_front(&[]) == Front::Short);
    assert!(rt; read_front(&[0x01]) == Front::Short);
    assert!(rt; read_front(&[0x01, 0x00]) == Front::Read(addi(0, 0, 0), 2));
    assert!(rt; read_front(&[0x00, 0x00, 0x73]) == Front::Bad);
    assert!(rt; read_front(&[0x73, 0x00, 0x00]) == Front::Short);
    assert!(rt; read_front(&[0x73, 0x00, 0x00, 0x00]) == Front::Read(Instr::Ecall, 4));
    assert!(rt; read_front(&[0x73, 0x00, 0x20, 0x00]) == Front::Bad);
    assert!(rt; read_front(&[0x1f, 0x00]) == Front::Bad);
}

/// Bytes are written in little-endian order. What can't be encoded, an addi of 2048 or a c.jr on
/// x0, gives `false` and leaves the bytes as they were.
#[test]
fn bytes_of_instructions(rt: HostRuntime) {
    let mut wide = [0xaa; 4];
    assert!(rt; !write_wide(addi(1, 1, 2048), &mut wide));
    assert!(rt; wide == [0xaa; 4]);
    assert!(rt; write_wide(Instr::Ebreak, &mut wide));
    assert!(rt; wide == [0x73, 0x00, 0x10, 0x00]);

    let mut short = [0xaa; 2];
    assert!(rt; !write_short(Form16::CJr { rs1: x(0) }, &mut short));
    assert!(rt; short == [0xaa; 2]);
    assert!(rt; write_short(Form16::CAddi { rd: x(2), imm: -16 }, &mut short));
    assert!(rt; short == [0x41, 0x11]);
}
