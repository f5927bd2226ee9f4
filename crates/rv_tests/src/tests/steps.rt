//! Single steps of the machine, over both implementations of `Memory`. What each does is what the
//! RISC-V manual says; words are an assembler's.
use super::memories::{Call, are_answered, holds};
use Cause::{Break, Fetch, Illegal, Load, Store};
use rv_mem::{Memory, Pages, Segments, Width};
use rv_step::{Cause, Cpu, Outcome, after_call, step};
use rv_word::Reg;
use std::process::Abort;

/// Where the code lies, 256 bytes.
const CODE: u32 = 0x0100_0000;
/// The last two bytes of the code.
const LAST: u32 = 0x0100_00fe;
/// Where the data lies, 256 bytes.
const DATA: u32 = 0x0180_0000;

/// One step: the instruction as text, the pc, the width and value of its encoding there, registers
/// by number with their values before it, its outcome, and the pc and a register's value after it.
#[derive(Drop)]
struct Row {
    name: &'static str,
    pc: u32,
    width: Width,
    word: u32,
    before: [(u8, u32); 2],
    outcome: Outcome,
    next: u32,
    after: (u8, u32),
}

/// A step of `word`, at the code's first address, that is done: the pc is `next` then. `before` is
/// a register's number and value before it, `after` one's after it.
fn goes_on(name: &'static str, word: u32, before: (u8, u32), next: u32, after: (u8, u32)) -> Row {
    Row {
        name,
        pc: CODE,
        width: Width::Four,
        word,
        before: [before, (0, 0)],
        outcome: Outcome::Next,
        next,
        after,
    }
}

/// A step of `word` that computes x10 of x11 and x12. The five rows with it are also `VECTORS` of
/// examples/translate/forms.py, for code that is translated to C.
fn computes(name: &'static str, word: u32, x11: u32, x12: u32, x10: u32) -> Row {
    Row {
        before: [(11, x11), (12, x12)],
        ..goes_on(name, word, (0, 0), CODE + 4, (10, x10))
    }
}

/// A step of `word`, at the code's first address, that traps with this cause and address, and
/// changes neither pc nor x10. Before it x31 is `x31`, and x11 has all bits set, for stores.
fn traps(name: &'static str, word: u32, x31: u32, cause: Cause, address: u32) -> Row {
    Row {
        before: [(31, x31), (11, 0xffff_ffff)],
        outcome: Outcome::Trap(cause, address),
        ..goes_on(name, word, (0, 0), CODE, (10, 0))
    }
}

/// A trap of an instruction of which the code's last two bytes have only `halfword`.
fn traps_at_the_end(name: &'static str, halfword: u32, cause: Cause) -> Row {
    Row {
        pc: LAST,
        width: Width::Two,
        outcome: Outcome::Trap(cause, LAST),
        ..goes_on(name, halfword, (0, 0), LAST, (10, 0))
    }
}

/// The steps. The data begin with the bytes 1, 2, 3 and 4, and zeros follow. Quotients and
/// remainders by 0, and of the least number by -1, are those of the manual's table.
fn rows() -> [Row; 16] {
    let least = 0x8000_0000;
    let (x1, x31, x10) = ((1, CODE + 16), (31, DATA), (10, 0x0403_0201));
    [
        Row {
            width: Width::Two,
            ..goes_on("c.jal 16", 0x2801, (10, 0), CODE + 16, (1, CODE + 2))
        },
        goes_on("jalr x1, 3(x1)", 0x0030_80e7, x1, CODE + 18, (1, CODE + 4)),
        traps_at_the_end("half of ecall", 0x0073, Fetch),
        traps_at_the_end("longer than 32 bits", 0x001f, Illegal),
        traps("ebreak", 0x0010_0073, 0, Break, CODE),
        traps("lw x0, 0(x0)", 0x0000_2003, 0, Load, 0),
        traps("sw 2047(x31)", 0x7ebf_afa3, DATA + 255, Store, DATA + 0x8fe),
        traps("sw 0(x31)", 0x00bf_a023, DATA + 254, Store, DATA + 254),
        traps("lb -2048(x31)", 0x800f_8503, DATA, Load, DATA - 2048),
        goes_on("lw x0, 0(x31)", 0x000f_a003, x31, CODE + 4, (0, 0)),
        goes_on("lw x10, 0(x31)", 0x000f_a503, x31, CODE + 4, x10),
        computes("div by 0", 0x02c5_c533, 7, 0, u32::MAX),
        computes("rem by 0", 0x02c5_e533, 7, 0, 7),
        computes("div by -1", 0x02c5_c533, least, u32::MAX, least),
        computes("rem by -1", 0x02c5_e533, least, u32::MAX, 0),
        computes("mulhsu", 0x02c5_a533, u32::MAX, u32::MAX, u32::MAX),
    ]
}

/// The pc and registers before a row's step; `None` where the pc is odd or a register's number
/// isn't below 32, which no row has.
fn before(row: &Row) -> Option<Cpu> {
    let mut cpu = Cpu::at(row.pc)?;
    for (number, value) in row.before {
        cpu.set_reg(Reg::new(number)?, value);
    }
    Some(cpu)
}

/// Whether pc and register of `cpu` are those that the row says for after its step.
fn is_after(row: &Row, cpu: &Cpu) -> bool {
    let (number, value) = row.after;
    match Reg::new(number) {
        Some(reg) => cpu.pc() == row.next && cpu.reg(reg) == value,
        None => false,
    }
}

/// Writes the row's instruction into the code and takes its step: whether that does what the row
/// says and changes no byte of the data.
fn is_taken<M: Memory>(memory: &mut M, row: &Row) -> bool {
    let Some(mut cpu) = before(row) else {
        return false;
    };
    let mut data = [0u8; 256];
    data[..4].copy_from_slice(&[1, 2, 3, 4]);
    memory.store(row.pc, row.width, row.word)
        && step(&mut cpu, memory) == row.outcome
        && is_after(row, &cpu)
        && holds(memory, DATA, &data)
}

/// The code and the data before the first step.
const REGIONS: [Call; 2] = [
    Call::Add(CODE, 256, &[], Ok(())),
    Call::Add(DATA, 256, &[1, 2, 3, 4], Ok(())),
];

/// Takes each row's step over this memory, which is empty.
fn take_all<M: Memory>(rt: &impl Abort, memory: &mut M) {
    are_answered(rt, memory, &REGIONS);
    for row in &rows() {
        assert!(rt; is_taken(memory, row), "{}", row.name);
    }
}

/// Each row's step; and no machine has an odd pc.
#[test]
fn steps_are_the_manuals(rt: HostRuntime) {
    take_all(&rt, &mut Segments::new(rt.alloc()));
    take_all(&rt, &mut Pages::new(rt.alloc()));
    assert!(rt; Cpu::at(0x0100_0001).is_none());
}

/// Code of a single `ecall`.
const ECALL: [Call; 1] = [Call::Add(CODE, 4, &[0x73, 0x00, 0x00, 0x00], Ok(()))];

/// A step at an ecall changes nothing and gives `Call`; `after_call` then moves the pc past it.
#[test]
fn an_ecall_is_passed(rt: HostRuntime) {
    let mut memory = Segments::new(rt.alloc());
    are_answered(&rt, &mut memory, &ECALL);
    let mut cpu = Cpu::at(CODE).expect(&rt, "an even pc");
    assert!(rt; step(&mut cpu, &mut memory) == Outcome::Call);
    assert!(rt; cpu.pc() == CODE);
    after_call(&mut cpu);
    assert!(rt; cpu.pc() == CODE + 4);
}

// ---- without a checker

/// Where the second sandbox's data lies.
const NEIGHBOUR: u32 = 0x0280_0000;

// Two sandboxes' data lies at 01800000 and 02800000. The first one's code is sw x11, 0(x10),
// which `check` refuses.
const SANDBOXES: [Call; 4] = [
    Call::Add(CODE, 256, &[0x23, 0x20, 0xb5, 0x00], Ok(())),
    Call::Add(DATA, 256, &[], Ok(())),
    Call::Add(NEIGHBOUR, 256, b"Hi", Ok(())),
    Call::Load(NEIGHBOUR, Width::One, Some(0x48)),
];

/// The second sandbox's first byte once the first one has stored 0 there: it was `H`.
const AFTER: [Call; 1] = [Call::Load(NEIGHBOUR, Width::One, Some(0))];

/// Why there is a checker: the machine itself lets unchecked code of one sandbox overwrite
/// another's data.
#[test]
fn a_bare_store_reaches_the_neighbour(rt: HostRuntime) {
    let mut memory = Segments::new(rt.alloc());
    are_answered(&rt, &mut memory, &SANDBOXES);
    let mut cpu = Cpu::at(CODE).expect(&rt, "an even pc");
    cpu.set_reg(Reg::new(10).expect(&rt, "a register"), NEIGHBOUR);
    assert!(rt; step(&mut cpu, &mut memory) == Outcome::Next);
    are_answered(&rt, &mut memory, &AFTER);
}
