//! Texts of instructions, as the RISC-V manual and other assemblers have them: what `parse_instr`
//! reads and refuses, and what `print_instr` prints.

use rv_word::{Instr, Reg, decode32, encode32};
use sfi_text::{TextCause, parse_instr, print_instr};
use std::alloc::Global;
use std::process::Abort;
use std::test::Fail;

/// The instruction that the text means; the test fails where `parse_instr` refuses it.
fn instr(rt: &impl Abort, text: &str) -> Instr {
    match parse_instr(text) {
        Ok(instr) => instr,
        Err(cause) => panic!(rt; "{text}: {cause:?}"),
    }
}

/// Tries that `text` is read as the instruction of `word`, which is printed as `text` again.
fn reads_and_prints(rt: &impl Abort, alloc: Global, word: u32, text: &str) -> Result<(), Fail> {
    let read = instr(rt, text);
    let is_spelled = decode32(word) == Some(read) && encode32(read) == Some(word);
    assert!(rt; is_spelled, "{text}");
    let printed = print_instr(alloc, &read)?;
    assert_eq!(rt; printed.as_str(), text);
    Ok(())
}

/// Words as an assembler encodes the texts beside them.
const WORDS: &[(u32, &str)] = &[
    (0x02c5_8533, "mul x10, x11, x12"),
    (0x4045_5513, "srai x10, x10, 4"),
    (0xfd5f_f0ef, "jal x1, -44"),
    (0xfe00_0ae3, "beq x0, x0, -12"),
    (0x001f_c503, "lbu x10, 1(x31)"),
    (0x0180_0537, "lui x10, 0x1800"),
    (0x0ff0_000f, "fence 255, x0, x0"),
    (0xfeb1_2e23, "sw x11, -4(x2)"),
    (0xffff_f797, "auipc x15, 0xfffff"),
    (0x0000_8067, "jalr x0, 0(x1)"),
    (0x0000_0073, "ecall"),
    (0x0010_0073, "ebreak"),
    // Each number at both ends of its range.
    (0x7ff5_a503, "lw x10, 2047(x11)"),
    (0x8005_a503, "lw x10, -2048(x11)"),
    (0x7ea5_afa3, "sw x10, 2047(x11)"),
    (0x80a5_a023, "sw x10, -2048(x11)"),
    (0x7ff2_80e7, "jalr x1, 2047(x5)"),
    (0x8002_80e7, "jalr x1, -2048(x5)"),
    (0x7ff5_0513, "addi x10, x10, 2047"),
    (0x8005_0513, "addi x10, x10, -2048"),
    (0x01f5_1513, "slli x10, x10, 31"),
    (0xffff_f537, "lui x10, 0xfffff"),
    (0x7e04_0fe3, "beq x8, x0, 4094"),
    (0x8004_0063, "beq x8, x0, -4096"),
    (0x7fff_f0ef, "jal x1, 1048574"),
    (0x8000_00ef, "jal x1, -1048576"),
];

/// Each row of `WORDS`, from text to word and back.
#[test]
fn words_and_texts(rt: HostRuntime) -> Result<(), Fail> {
    for (word, text) in WORDS {
        reads_and_prints(&rt, rt.alloc(), *word, text)?;
    }
    Ok(())
}

/// A text, and another that means the same instruction.
const WAYS: &[(&str, &str)] = &[
    ("fence", "fence 255, x0, x0"),
    ("\taddi\tsp,sp,-0x10 \r", "addi x2, x2, -16"),
    ("addi x0,x0,-0", "addi x0, x0, 0"),
    ("addi x0, x0, 007", "addi x0, x0, 7"),
    ("lui a0, 0xFfFfF", "lui x10, 1048575"),
    ("lw fp , 4 ( s0 )", "lw x8, 4(x8)"),
];

/// White space, hexadecimal numbers and the registers' other names are read.
#[test]
fn ways_to_write_an_instruction(rt: HostRuntime) {
    for (text, other) in WAYS {
        assert!(rt; instr(&rt, text) == instr(&rt, other), "{text}");
    }
}

/// The manual's names of the registers by their use, from x0 to x31.
const NAMES: &str =
    "zero ra sp gp tp t0 t1 t2 s0 s1 a0 a1 a2 a3 a4 a5 a6 a7 s2 s3 s4 s5 s6 s7 s8 s9 s10 s11 t3 t4 t5 t6";

/// Each name is read as its register: a `jal` to it writes that one, or none for x0.
#[test]
fn register_names(rt: HostRuntime) -> Result<(), Fail> {
    for (number, name) in (0..32u8).zip(NAMES.split(' ')) {
        let text = format!(in rt.alloc(); "jal {name}, 0")?;
        let written = Reg::new(number).filter(|r| r.number() != 0);
        assert!(rt; instr(&rt, text.as_str()).writes() == written, "{name}");
    }
    Ok(())
}

/// Texts that are refused. Each line has a cause (`TextCause`), and the texts with it, with ` | `
/// between them. Where a text has several faults the first from the left counts.
const CAUSES: &str = "
Number: addi x1, x1, 2048 | addi x1, x1, 2048 x | addi x1, x1, -2049 | lw x10, 2048(x11) | lw x10, -2049(x11) | sw x10, 2048(x11)
Number: sw x10, -2049(x11) | jalr x1, 2048(x5) | jalr x1, -2049(x5) | beq x8, x0, 3 | beq x8, x0, 4096 | beq x8, x0, -4098 | jal x1, 1048576
Number: jal x1, -1048578 | slli x1, x1, 32 | lui x1, -1 | lui x1, 1048576 | fence 4096, x0, x0 | addi x1, x1, 99999999999999999999999
Number: lw a0, (a1)
Operands: addi x1, x1, 0X1 | addi x1, x1, 0xg | add x1, x2 | add x1 x2, x3 | ecall x1 |  |  \t\r | 5 | , nop
Word: addi x1, x1, -x | addi x1, x1, --5 | li x1, 1 | nop | .word 1 | ADD x1, x2, x3 | ecall # trap | é
Register: add x1, q9 $ | add x1, x2, x32 | add a0, , a0 | add x01, x2, x3
";

/// Each text of `CAUSES` is refused for its line's cause. A line feed belongs to no token: `Word`.
#[test]
fn causes(rt: HostRuntime) -> Result<(), Fail> {
    for row in CAUSES.lines().skip(1) {
        let (wanted, texts) = row.split_once(": ").unwrap_or((row, ""));
        for text in texts.split(" | ") {
            let Err(cause) = parse_instr(text) else {
                return Err(Fail::new(text));
            };
            let said = format!(in rt.alloc(); "{cause}")?;
            assert_eq!(rt; said.as_str(), wanted, "{text}");
        }
    }
    assert_eq!(rt; parse_instr("ecall\n").err(), Some(TextCause::Word));
    Ok(())
}
