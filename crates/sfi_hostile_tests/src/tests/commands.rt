//! Commands with what they read, and what they print of that, for tests of readers and writers that
//! fail.
use super::images::{
    C_EBREAK, DATA, EBREAK, HEAD, HI, HI_CODE, PAIR_ON_X0, SFI1, bytes_of, digits_of,
};
use std::alloc::Global;
use std::test::Fail;

/// A command line; what it reads, as pieces of a text or, if `is_bytes`, of the digits that spell
/// it; the status with which it ends; and how the text that it prints begins.
#[derive(Drop)]
pub(super) struct Command<'a> {
    pub(super) line: &'a str,
    pieces: &'static [(&'static str, usize)],
    is_bytes: bool,
    pub(super) status: u8,
    pub(super) front: &'a str,
}

/// Each command that reads standard input, and findings and a fault. After `= ` a row has a command
/// line, the name of its input in `pieces_of`, its status, and the first line or lines that it
/// prints, with ` | ` between them. bench/refusals.py reads these rows, too, and has an input of
/// its own for each name.
pub(super) const COMMANDS: &str = "
= sfi check | smallest | 0 | accepted sandboxes=1 bundles=16
= sfi check --report | pair on x0 | 1 | 0 01000008 V5 access sw x11, 0(x0)
refused findings=1 first=V5 sandbox=0 at=01000008
= sfi check --raw | smallest bytes | 0 | accepted sandboxes=1 bundles=16
= sfi check | smallest bytes | 0 | accepted sandboxes=1 bundles=16
= sfi dis | smallest bytes | 0 | sandbox 0 code 01000000 256
= sfi build | source | 0 | 534649310100000000000001
= sfi build --raw | source | 0 | SFI1
= sfi build --at 20500000:80000000 | source | 0 | 534649310100000000005020
= sfi map | source | 0 | sandbox=0 gate put at=01000000
sandbox=0 gate quit at=01000010
= sfi dis | smallest | 0 | sandbox 0 code 01000000 256 data 01800000 256 start 01000000 gates 0 init 0
01000000 00100073 ebreak
= sfi run | program | 0 | sandbox=0 exit=105 steps=19 out=4869
= sfi run --report | smallest | 0 | sandbox=0 trap=Break at=01000000 steps=0 out=
sandbox=0 pc=01000000 00100073 ebreak
x1=00000000 x2=018000f0 
= sfi convert | program | 0 | 534649320100000000000001
= sfi move --at 20500000:80000000 | program | 0 | 534649310100000000005020
= sfi translate | program | 0 | #include \"sfi_native.h\"
SANDBOX(0,16,01000000,256,01800000,256,01000020,2,2)
= sfi translate --whole | program | 0 | #ifndef SFI_NATIVE_H
= sfi native | program | 0 | SFIN
= sfi check | head | 2 | layout fault 3 Short
";

/// The source of the program `HI`.
const SOURCE: &str =
    ".sandbox 256\n.gate put 1\n.gate quit 0\nla a0, msg\nli a1, 2\ncall put\nla a0, msg\nlbu a0, 1(a0)\ncall quit\n.data\nmsg: .byte 72, 105\n";

/// The smallest image: 64 times `ebreak`.
const SMALLEST: &[(&str, usize)] = &[(SFI1, 1), (HEAD, 1), (EBREAK, 64)];

/// The smallest image, but at first a store after a pair on x0, which breaks V5.
const ON_X0: &[(&str, usize)] = &[(SFI1, 1), (HEAD, 1), (PAIR_ON_X0, 1), (EBREAK, 61)];

/// The image of `SOURCE`.
const PROGRAM: &[(&str, usize)] = &[
    (SFI1, 1),
    (HI_CODE, 1),
    (DATA, 1),
    (HI, 1),
    (C_EBREAK, 88),
    ("4869", 1),
];

/// The pieces of the input of that name, each with how often it is repeated; `None` where none has
/// the name.
fn pieces_of(name: &str) -> Option<&'static [(&'static str, usize)]> {
    match name {
        "smallest" | "smallest bytes" => Some(SMALLEST),
        "pair on x0" => Some(ON_X0),
        "source" => Some(&[(SOURCE, 1)]),
        "program" => Some(PROGRAM),
        "head" => Some(&[(SFI1, 1), (HEAD, 1)]),
        _ => None,
    }
}

/// The command of a row of `COMMANDS`, without its `= `; `None` where it isn't written as these
/// are.
pub(super) fn command_of<'a>(row: &'a str) -> Option<Command<'a>> {
    let (line, rest) = row.split_once(" | ")?;
    let (input, rest) = rest.split_once(" | ")?;
    let (status, front) = rest.split_once(" | ")?;
    Some(Command {
        line,
        pieces: pieces_of(input)?,
        is_bytes: input.ends_with(" bytes"),
        status: status.parse().ok()?,
        front: front.trim_end(),
    })
}

impl<'a> Command<'a> {
    /// What it reads: the bytes that its pieces spell, for an image as bytes, else the pieces' own
    /// text.
    pub(super) fn input(&self, alloc: Global) -> Result<Vec<u8>, Fail> {
        if self.is_bytes {
            return bytes_of(alloc, self.pieces);
        }
        let text = digits_of(alloc, self.pieces)?;
        Ok(Vec::from_slice(alloc, text.as_bytes())?)
    }
}
