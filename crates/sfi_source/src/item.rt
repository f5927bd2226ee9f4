//! What a sandbox of a source is made of: its gates, and the instructions of its code.
use rv_word::{Instr, Reg};

/// What a name of a sandbox names.
#[derive(Clone, Copy, Debug)]
pub enum Named {
    /// A gate, by its number, counted from 0.
    Gate(usize),
    /// The place before an item, by the item's number, counted from 0; it may be the number of
    /// items.
    Code(usize),
    /// The place this many bytes after the data base.
    Data(u32),
    /// Nothing: a statement uses the name, and no label or gate has it.
    Unknown,
}

/// What an item has the machine do. A name is given by its place among the sandbox's names.
#[derive(Clone, Copy)]
pub enum Body {
    /// The instruction, which is no jal and no branch.
    Plain(Instr),
    /// The jal or branch to what the name at that place names. Its offset is still 0.
    To(Instr, usize),
    /// The lui of the upper half of the address of the name at that place; in a movable sandbox, of
    /// how far the address is from its region's base.
    High(Reg, usize),
    /// The addi after that lui, of the low 12 bits, which are signed.
    Low(Reg, usize),
    /// In a movable sandbox, the add of the base of the region in which the address lies.
    Base(Reg, usize),
}

/// An instruction of the code.
#[derive(Clone, Copy)]
pub struct Item {
    /// The line that it stands on, from 1.
    pub line: u32,
    /// Whether a label stands before it.
    pub labelled: bool,
    /// Whether a 16-bit form may stand for it.
    pub rvc: bool,
    pub body: Body,
}

/// A gate of a sandbox.
#[derive(Clone, Copy, PartialEq, Eq)]
pub struct SourceGate {
    /// The place of its name among the sandbox's names.
    pub name: usize,
    /// What the host is asked for, at most `SERVICE_MOST` of `sfi_formats`.
    pub service: u32,
}
