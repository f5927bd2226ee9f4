//! The major opcodes, which stand in bits 6:0 of a word, by their names in the RISC-V
//! Unprivileged ISA, chapter "RV32/64G Instruction Set Listings".

pub(crate) const LOAD: u32 = 0b0000011;

pub(crate) const MISC_MEM: u32 = 0b0001111;

pub(crate) const OP_IMM: u32 = 0b0010011;

pub(crate) const AUIPC: u32 = 0b0010111;

pub(crate) const STORE: u32 = 0b0100011;

pub(crate) const OP: u32 = 0b0110011;

pub(crate) const LUI: u32 = 0b0110111;

pub(crate) const BRANCH: u32 = 0b1100011;

pub(crate) const JALR: u32 = 0b1100111;

pub(crate) const JAL: u32 = 0b1101111;

pub(crate) const SYSTEM: u32 = 0b1110011;
