//! What texts of the assembler mean, where and why they are refused, and their limits, all by
//! docs/SOURCE.md. What `parse_source` makes of a text is printed in one line for each sandbox, and
//! compared with the line in a table. An *item* is an instruction of the code; names are counted
//! from 0 in the order in which a sandbox's text first has them.
use rv_word::Instr;
use sfi_source::{Body, Item, Names, Source, SourcePart};
use sfi_text::{TextCause, TextFault, parse_source, print_instr};
use std::alloc::{AllocError, Global};
use std::process::Abort;
use std::test::Fail;

/// Appends what an item has the machine do: an instruction, or the part of an address that it adds,
/// each with the number of the name that it refers to.
fn push_body(out: &mut String, alloc: Global, body: &Body) -> Result<(), AllocError> {
    match body {
        Body::Plain(instr) => push_instr(out, alloc, instr),
        Body::To(instr, place) => {
            push_instr(out, alloc, instr)?;
            write!(out, " to {place}")
        }
        Body::High(rd, place) => {
            let rd = rd.number();
            write!(out, "high x{rd} of {place}")
        }
        Body::Low(rd, place) => {
            let rd = rd.number();
            write!(out, "low x{rd} of {place}")
        }
        Body::Base(rd, place) => {
            let rd = rd.number();
            write!(out, "base x{rd} of {place}")
        }
    }
}

/// Appends the instruction's text.
fn push_instr(out: &mut String, alloc: Global, instr: &Instr) -> Result<(), AllocError> {
    let text = print_instr(alloc, instr)?;
    out.push_str(text.as_str())
}

/// Appends an item and a `;`: its line from 1, `L` where a label stands before it, `c` where a
/// 16-bit form may stand for it, and its body.
fn push_item(out: &mut String, alloc: Global, item: &Item) -> Result<(), AllocError> {
    let label = if item.labelled { "L" } else { "" };
    let short = if item.rvc { "c" } else { "" };
    let line = item.line;
    write!(out, "{line}{label}{short} ")?;
    push_body(out, alloc, &item.body)?;
    out.push_str("; ")
}

/// Appends each gate as ` NAME=SERVICE`, both as numbers: the name's, and the service's.
fn push_gates(out: &mut String, part: &SourcePart) -> Result<(), AllocError> {
    for gate in part.gates() {
        let name = gate.name;
        let service = gate.service;
        write!(out, " {name}={service}")?;
    }
    Ok(())
}

/// Appends each name and what it names: a gate, an item of the code or a byte of the data, each by
/// its number, or `Unknown`.
fn push_names(out: &mut String, names: &Names) -> Result<(), AllocError> {
    for place in 0..names.len() {
        if let (Some(name), Some(named)) = (names.text(place), names.named(place)) {
            write!(out, " {name}={named:?}")?;
        }
    }
    Ok(())
}

// Appends each item, as `push_item` does.
fn push_items(out: &mut String, alloc: Global, part: &SourcePart) -> Result<(), AllocError> {
    for item in part.items() {
        push_item(out, alloc, item)?;
    }
    Ok(())
}

/// Appends the bytes that the text gives the data, each in decimal.
fn push_bytes(out: &mut String, part: &SourcePart) -> Result<(), AllocError> {
    for byte in part.bytes() {
        write!(out, " {byte}")?;
    }
    Ok(())
}

/// Appends a sandbox's line: its data's size, `movable` if it is, and after a `|` each its gates,
/// names, items and bytes. The tables are written in this form.
fn push_part(out: &mut String, alloc: Global, part: &SourcePart) -> Result<(), AllocError> {
    let size = part.data_size();
    write!(out, "{size} ")?;
    if part.is_movable() {
        out.push_str("movable ")?;
    }
    out.push_str("|")?;
    push_gates(out, part)?;
    out.push_str(" |")?;
    push_names(out, part.names())?;
    out.push_str(" | ")?;
    push_items(out, alloc, part)?;
    out.push_str("|")?;
    push_bytes(out, part)?;
    out.push_str("\n")
}

// Appends each sandbox, as `push_part` does.
fn push_parts(out: &mut String, alloc: Global, source: &Source) -> Result<(), AllocError> {
    for part in source.parts() {
        push_part(out, alloc, part)?;
    }
    Ok(())
}

/// Appends the sandboxes that a text means, or its fault's line as `sfi build` prints it.
fn push_meaning(out: &mut String, alloc: Global, text: &str) -> Result<(), AllocError> {
    match parse_source(alloc, text) {
        Ok(source) => push_parts(out, alloc, &source),
        Err(fault) => write!(out, "{fault}\n"),
    }
}

/// What `push_meaning` appends, as a text of its own.
fn meaning(alloc: Global, text: &str) -> Result<String, AllocError> {
    let mut out = String::new(alloc);
    push_meaning(&mut out, alloc, text)?;
    Ok(out)
}

// A line that begins a sandbox of 256 bytes.
const SANDBOX: &str = ".sandbox 256\n";

/// Each statement once, after `.sandbox 256`. A row is `TEXT => MEANING`. TEXT is the text's lines,
/// with a semicolon and a space between them. MEANING is what `push_part` prints of each sandbox,
/// `data's size | gates | names | items | bytes`, with ` & ` between them.
const STATEMENTS: &str = "
 => 256 | | | |
  # no more than a comment é\r; ;  => 256 | | | |
.gate y 3 => 256 | 0=3 | y=Gate(0) | |
.gate y 3; .gate _z.1 0x5 => 256 | 0=3 1=5 | y=Gate(0) _z.1=Gate(1) | |
.data; .gate y 0 => 256 | 0=0 | y=Gate(0) | |
nop; .option rvc; nop; .option norvc; nop => 256 | | | 2 addi x0, x0, 0; 4c addi x0, x0, 0; 6 addi x0, x0, 0; |
.option rvc; .gate g 1 => 256 | 0=1 | g=Gate(0) | |
.data; .byte -128, 255, 0x7F => 256 | | | | 128 255 127
.data; .half -2, 0x1234 => 256 | | | | 254 255 52 18
.data; .half -32768, 65535 => 256 | | | | 0 128 255 255
.data; .word -2147483648, 4294967295 => 256 | | | | 0 0 0 128 255 255 255 255
.data; .zero 3; x: .byte 1; y: => 256 | | x=Data(3) y=Data(4) | | 0 0 0 1
add a0, a1, a2 => 256 | | | 2 add x10, x11, x12; |
addi sp, sp, -16 => 256 | | | 2 addi x2, x2, -16; |
srai x8, x8, 31 => 256 | | | 2 srai x8, x8, 31; |
lw a0, -4(sp) => 256 | | | 2 lw x10, -4(x2); |
lb a0, 2047(a1); lb a0, -2048(a1) => 256 | | | 2 lb x10, 2047(x11); 3 lb x10, -2048(x11); |
sw a0, 0(fp) => 256 | | | 2 sw x10, 0(x8); |
sw a0, 2047(a1); sw a0, -2048(a1) => 256 | | | 2 sw x10, 2047(x11); 3 sw x10, -2048(x11); |
jalr ra, 4(t0) => 256 | | | 2 jalr x1, 4(x5); |
a: blt a0, a1, a => 256 | | a=Code(0) | 2L blt x10, x11, 0 to 0; |
jal ra, far => 256 | | far=Unknown | 2 jal x1, 0 to 0; |
lui a0, 0x12345 => 256 | | | 2 lui x10, 0x12345; |
auipc a0, 1048575 => 256 | | | 2 auipc x10, 0xfffff; |
fence 51, x1, x2 => 256 | | | 2 fence 51, x1, x2; |
fence => 256 | | | 2 fence 255, x0, x0; |
ecall; ebreak => 256 | | | 2 ecall; 3 ebreak; |
nop; ret => 256 | | | 2 addi x0, x0, 0; 3 jalr x0, 0(x1); |
li a0, 0x12345fff => 256 | | | 2 lui x10, 0x12346; 2 addi x10, x10, -1; |
li a0, 4096 => 256 | | | 2 lui x10, 0x1; |
li a0, -2049 => 256 | | | 2 lui x10, 0xfffff; 2 addi x10, x10, 2047; |
x: li a0, 2048 => 256 | | x=Code(0) | 2L lui x10, 0x1; 2 addi x10, x10, -2048; |
li a0, 4294967295 => 256 | | | 2 lui x10, 0x0; 2 addi x10, x10, -1; |
li a0, 2047 => 256 | | | 2 addi x10, x0, 2047; |
li a0, -2048 => 256 | | | 2 addi x10, x0, -2048; |
mv t6, a0; jr t0 => 256 | | | 2 addi x31, x10, 0; 3 jalr x0, 0(x5); |
j a; call b; b: => 256 | | a=Unknown b=Code(2) | 2 jal x0, 0 to 0; 3 jal x1, 0 to 1; |
beqz a0, a; bnez a1, a => 256 | | a=Unknown | 2 beq x10, x0, 0 to 0; 3 bne x11, x0, 0 to 0; |
la a0, d; .data; d:.zero 0 => 256 | | d=Data(0) | 2 high x10 of 0; 2 low x10 of 0; |
add: a0: _1:nop => 256 | | add=Code(0) a0=Code(0) _1=Code(0) | 2L addi x0, x0, 0; |
j b; a: .sandbox 512; a: b: => 256 | | b=Unknown a=Code(1) | 2 jal x0, 0 to 0; | & 512 | | a=Code(0) b=Code(0) | |
.sandbox 1048576 => 256 | | | | & 1048576 | | | |
.gate gggggggggggggggggggggggggggggggggggggggggggggggggggggggggggggggg 3; xxxxxxxxxxxxxxxxxxxxxxxxxxxxxxxxxxxxxxxxxxxxxxxxxxxxxxxxxxxxxxxx: j xxxxxxxxxxxxxxxxxxxxxxxxxxxxxxxxxxxxxxxxxxxxxxxxxxxxxxxxxxxxxxxx; la a0, gggggggggggggggggggggggggggggggggggggggggggggggggggggggggggggggg => 256 | 0=3 | gggggggggggggggggggggggggggggggggggggggggggggggggggggggggggggggg=Gate(0) xxxxxxxxxxxxxxxxxxxxxxxxxxxxxxxxxxxxxxxxxxxxxxxxxxxxxxxxxxxxxxxx=Code(0) | 3L jal x0, 0 to 1; 4 high x10 of 0; 4 low x10 of 0; |
";

// Statements after `.format words` and `.sandbox 256`: a sandbox that can be moved.
const MOVABLE: &str = "
.movable => 256 movable | | | |
.gate y 3; .movable; la a0, d; .data; d:.zero 0 => 256 movable | 0=3 | y=Gate(0) d=Data(0) | 5 high x10 of 1; 5 low x10 of 1; 5 base x10 of 1; |
.movable; .movable; x: la sp, x => 256 movable | | x=Code(0) | 5L high x2 of 0; 5 low x2 of 0; 5 base x2 of 0; |
.movable; .sandbox 256; la a0, x => 256 movable | | | | & 256 | | x=Unknown | 5 high x10 of 0; 5 low x10 of 0; |
";

/// Faults: each line has one, as its number, name and line, and the texts that have it, with ` | `
/// between them. These come after `.sandbox 256`; the names in texts of fault 7 have 65 letters,
/// one too many.
const FAULTS: &str = "
1 Word line 2: frob a0 | NOP | .foo: nop | é | nop 'x | add a0, -x, a0 | x: --5 | nop : x
1 Word line 3: x: add a0, a0, a0 # y; $ | .option rvc; frob
2 Register line 2: add a0, a0, q9 | add a0, , a0 | sw 5, 0(a1) | jal 5, x | mv a0, 5 | jr 5 | bnez x, x | la x, y | add a0, q9 $
3 Number line 2: .sandbox 300 | .sandbox 128 | .sandbox 2097152 | .sandbox a | .gate y 99 | .gate y -1 | .gate y, 1 | addi a0, a0, 2048
3 Number line 2: addi a0, a0, 99999999999999999999 | slli a0, a0, 32 | lw a0, 2048(a1) | lw a0, -2049(a1) | sw a0, 2048(a1) | sw a0, -2049(a1)
3 Number line 2: lw a0, (a1) | jalr a0, 2048(a1) | lui a0, 1048576 | auipc a0, -1 | fence 4096, x0, x0 | li a0, 4294967296 | li a0, -2147483649
3 Number line 2: addi x1, x1, 2048 x
3 Number line 3: .data; .byte 256 | .data; .byte -129 | .data; .half 65536 | .data; .half -32769 | .data; .word 4294967296
3 Number line 3: .data; .word -2147483649 | .data; .zero 1048577
4 Operands line 2: 5 | , nop | x: : nop | .sandbox | .sandbox 256 256 | .gate 1 1 | .gate .y 1 | .gate y | .gate y 1 1 | .option | .option rv64
4 Operands line 2: .option rvc rvc | .option 1 | .data 1 | .data: | add a0, a0 | add a0, a0, a0, a0 | addi a0, a0, 0X1 | lw a0, 0 a1
4 Operands line 2: lw a0, 0(a1 | beq a0, a1, 8 | beq a0, a1 | jal ra, -4 | fence 1 | ecall 1 | ebreak x0 | nop nop | ret ra | li a0 5 | j .x
4 Operands line 2: j 8 | call | beqz a0, a0, x | la a0, 0x1800000 | nop x # frob
4 Operands line 3: .data; .word 1, | .data; .zero 257 1
5 LabelTwice line 2: x: x: nop | x: y: x: frob
5 LabelTwice line 3: .gate g 1; .gate g 9 | .gate g 1; g: nop
5 LabelTwice line 4: x: nop; .data; x:
6 Directive line 2: .format 1 | x: .gate g 1 | .byte 1 | .zero 1 | .word
6 Directive line 3: .data; nop | x: .data; nop | .data; .data | .data; .option rvc | nop; .gate g 1
6 Directive line 4: .data; x:; .gate g 1
7 Limit line 2: xxxxxxxxxxxxxxxxxxxxxxxxxxxxxxxxxxxxxxxxxxxxxxxxxxxxxxxxxxxxxxxxx:
7 Limit line 2: j xxxxxxxxxxxxxxxxxxxxxxxxxxxxxxxxxxxxxxxxxxxxxxxxxxxxxxxxxxxxxxxxx 5
7 Limit line 2: .gate xxxxxxxxxxxxxxxxxxxxxxxxxxxxxxxxxxxxxxxxxxxxxxxxxxxxxxxxxxxxxxxxx 9
7 Limit line 2: la a0, xxxxxxxxxxxxxxxxxxxxxxxxxxxxxxxxxxxxxxxxxxxxxxxxxxxxxxxxxxxxxxxxx
7 Limit line 4: .data; .zero 256; .byte 0
";

// Faults of whole texts, in the same form.
const WHOLE_FAULTS: &str = "
1 Word line 2: .sandbox 256; .movable
1 Word line 1: .movable
4 Operands line 3: .format words; .sandbox 256; .movable 1 | .format 2; .sandbox 256; .movable x
6 Directive line 4: .format 2; .sandbox 256; nop; .movable | .format words; .sandbox 256; x:; .movable | .format 2; .sandbox 256; .data; x: .movable
1 Word line 2: ; frob
3 Number line 1: .sandbox 300
6 Directive line 1:  | # nothing; ;  | nop | x: | .gate g 1 | .option rvc | .data | .byte 300 | nop 5
";

/// A row's text as lines: `first`, which is empty or whole lines before it, and then `text`, in
/// which `; ` stands for a line feed.
fn lines_of(alloc: Global, first: &str, text: &str) -> Result<String, AllocError> {
    let mut lines = String::from_str(alloc, first)?;
    for (number, line) in text.split("; ").enumerate() {
        if number > 0 {
            lines.push_str("\n")?;
        }
        lines.push_str(line)?;
    }
    Ok(lines)
}

/// Tries a row `TEXT => MEANING`: the text, after the lines `first`, means what the row says.
fn is_meant(rt: &impl Abort, alloc: Global, first: &str, row: &str) -> Result<(), AllocError> {
    let (text, wanted) = row.split_once(" => ").unwrap_or((row, ""));
    let meant = meaning(alloc, lines_of(alloc, first, text)?.as_str())?;
    assert!(rt; meant.as_str().lines().eq(wanted.split(" & ")), "{row}");
    Ok(())
}

/// Each statement, and each pseudo-instruction, means what docs/SOURCE.md says.
#[test]
fn sources(rt: HostRuntime) -> Result<(), Fail> {
    for row in STATEMENTS.lines().skip(1) {
        is_meant(&rt, rt.alloc(), SANDBOX, row)?;
    }
    for row in MOVABLE.lines().skip(1) {
        is_meant(&rt, rt.alloc(), ".format words\n.sandbox 256\n", row)?;
    }
    Ok(())
}

/// Tries a row `FAULT: TEXTS`: each of its texts, after the lines `first`, has this fault.
fn are_refused(rt: &impl Abort, alloc: Global, first: &str, row: &str) -> Result<(), AllocError> {
    let (fault, texts) = row.split_once(": ").unwrap_or((row, ""));
    let wanted = format!(in alloc; "source fault {fault}\n")?;
    for text in texts.split(" | ") {
        let meant = meaning(alloc, lines_of(alloc, first, text)?.as_str())?;
        assert_eq!(rt; meant.as_str(), wanted.as_str(), "{text}");
    }
    Ok(())
}

/// Each fault but `Memory` (memory that ran out) is found, and its line.
#[test]
fn source_faults(rt: HostRuntime) -> Result<(), Fail> {
    for row in FAULTS.lines().skip(1) {
        are_refused(&rt, rt.alloc(), SANDBOX, row)?;
    }
    for row in WHOLE_FAULTS.lines().skip(1) {
        are_refused(&rt, rt.alloc(), "", row)?;
    }
    Ok(())
}

// ---- texts at the limits of the assembler, and one step beyond

/// The text 2 to the power `times` times.
fn doubled(alloc: Global, text: &str, times: u32) -> Result<String, AllocError> {
    let mut whole = String::from_str(alloc, text)?;
    for _ in 0..times {
        let half = whole.clone()?;
        whole.push_str(half.as_str())?;
    }
    Ok(whole)
}

/// Tries that `text` has no fault, and that with `end` appended it passes a limit, on line `line`.
fn is_full(rt: &impl Abort, alloc: Global, text: &str, end: &str, line: u32) -> Result<(), Fail> {
    assert!(rt; parse_source(alloc, text).is_ok(), "line {line}");
    let more = format!(in alloc; "{text}{end}")?;
    let cause = TextCause::Limit;
    assert_eq!(rt;
        parse_source(alloc, more.as_str()).err(),
        Some(TextFault { line, cause })
    );
    Ok(())
}

/// A sandbox has at most 64 gates.
#[test]
fn gates(rt: HostRuntime) -> Result<(), Fail> {
    let alloc = rt.alloc();
    let mut text = String::from_str(alloc, SANDBOX)?;
    for k in 0..64 {
        text.push_str(format!(in alloc; ".gate g{k} 1\n")?.as_str())?;
    }
    is_full(&rt, alloc, text.as_str(), ".gate h 1", 66)
}

/// A sandbox has at most 65536 instructions, and each counts of a pseudo-instruction: `la` is two,
/// in a movable sandbox three.
#[test]
fn instructions(rt: HostRuntime) -> Result<(), Fail> {
    let alloc = rt.alloc();
    let full = lines_of(alloc, SANDBOX, doubled(alloc, "nop\n", 16)?.as_str())?;
    is_full(&rt, alloc, full.as_str(), "nop", 65538)?;
    let pairs = lines_of(alloc, SANDBOX, doubled(alloc, "la a0, x\n", 15)?.as_str())?;
    is_full(&rt, alloc, pairs.as_str(), "nop", 32770)?;
    let all_but_one = lines_of(
        alloc,
        ".format 2\n.sandbox 256\n.movable\n",
        doubled(alloc, "la a0, x\n", 14)?.as_str(),
    )?;
    let rest = doubled(alloc, "nop\n", 14)?;
    let full = format!(in alloc; "{all_but_one}{rest}")?;
    is_full(&rt, alloc, full.as_str(), "nop", 32772)
}

/// Data bytes at most fill the data region, here of the least and the greatest size.
#[test]
fn data(rt: HostRuntime) -> Result<(), Fail> {
    let alloc = rt.alloc();
    let least = ".sandbox 256\n.data\n.zero 256\n";
    is_full(&rt, alloc, least, ".byte 0", 4)?;
    let most = ".sandbox 1048576\n.data\n.zero 1048576\n";
    is_full(&rt, alloc, most, ".byte 0", 4)
}

/// A text has at most 1048576 bytes. A longer one is refused as a whole, so on line 1.
#[test]
fn bytes(rt: HostRuntime) -> Result<(), Fail> {
    let alloc = rt.alloc();
    let mut text = String::from_str(alloc, ".sandbox 256   \n")?;
    for k in 0..16 {
        text.push_str(doubled(alloc, "# no statement \n", k)?.as_str())?;
    }
    assert_eq!(rt; text.len(), 1048576);
    is_full(&rt, alloc, text.as_str(), "\n", 1)
}
