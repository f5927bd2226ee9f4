//! What one line of source states, after its labels.

use rv_word::{Instr, Reg};
use sfi_formats::Format;

/// What a line of source states.
#[derive(Drop)]
pub enum Statement<'a> {
    /// `.format F`, where F is 1, 2, `words` or `single`: the format of the source is this one.
    Format(Format),
    /// `.sandbox N`: a sandbox with N bytes of data begins.
    Sandbox { data_size: u32 },
    /// Something within the sandbox begun last.
    Within(SandboxStatement<'a>),
}

/// What a line states within a sandbox.
///
/// Pseudo-instructions stand as what they mean: `nop`, `ret`, `mv` and `jr` are one instruction,
/// `li` is one or two, and `j`, `call`, `beqz` and `bnez` are a jump or branch to a name.
#[derive(Drop)]
pub enum SandboxStatement<'a> {
    /// `.gate L N`: the name is that of a gate of this service.
    Gate { name: &'a str, service: u32 },
    /// `.export L`: the sandbox's table of names has the name as an export.
    Export(&'a str),
    /// `.import L N`: a gate as `.gate` makes it, and the table has its name as an import.
    Import { name: &'a str, service: u32 },
    /// `.movable`: the sandbox can be moved once it is built.
    Movable,
    /// `.option rvc`, where true, or `.option norvc`: whether 16-bit forms are taken from here on.
    Compressed(bool),
    /// `.data`: the data follow.
    Data,
    /// `.word`, `.half` and `.byte`: these bytes of data.
    Bytes(Vec<u8>),
    /// `.zero N`: N bytes of data that are 0.
    Zeros(u32),
    /// One instruction that names no place.
    One(Instr),
    /// The two instructions of a `li` whose number takes two.
    Two(Instr, Instr),
    /// A jump or a branch to the place of this name; its offset is 0.
    Jump { instr: Instr, name: &'a str },
    /// `la rd, L`: the register takes the address of the place of this name, by a `lui` and an
    /// `addi`, and an `add` where the sandbox can be moved.
    Address { rd: Reg, name: &'a str },
}

/// Where a statement may come.
#[derive(Clone, Copy)]
pub enum Position {
    /// Once, before the first sandbox.
    Head,
    /// Anywhere, before the first sandbox too: it begins one.
    Outside,
    /// Before the sandbox's first label and instruction.
    Gates,
    /// In the code part.
    Code,
    /// In the data part.
    Data,
}
