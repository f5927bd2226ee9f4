//! Code of which these tests make lines, and a sandbox of it.
use rv_word::{Cond, Instr, LoadKind, Reg, RegOp};
use sfi_image::SandboxPart;
use sfi_native::{Jump, Line};
use std::alloc::Global;

/// x7 gets what `op` makes of x5 and x6.
pub(super) fn operation(op: RegOp) -> Instr {
    Instr::Op {
        op,
        rd: Reg::numbered(7),
        rs1: Reg::numbered(5),
        rs2: Reg::numbered(6),
    }
}

/// x7 gets the sum of x5 and x6.
pub(super) fn addition() -> Instr {
    operation(RegOp::Add)
}

/// x24 gets 0xdeadb000.
pub(super) fn number() -> Instr {
    Instr::Lui {
        rd: Reg::numbered(24),
        imm: 0xdeadb,
    }
}

/// x5 gets the word 8 bytes behind x2.
pub(super) fn load() -> Instr {
    Instr::Load {
        kind: LoadKind::Lw,
        rd: Reg::numbered(5),
        rs1: Reg::numbered(2),
        imm: 8,
    }
}

/// A branch over `offset` bytes, where `cond` holds of x5 and x6.
pub(super) fn branch(cond: Cond, offset: i32) -> Instr {
    Instr::Branch {
        cond,
        rs1: Reg::numbered(5),
        rs2: Reg::numbered(6),
        offset,
    }
}

/// A jump over `offset` bytes, with the return address in x1.
pub(super) fn call(offset: i32) -> Instr {
    Instr::Jal {
        rd: Reg::numbered(1),
        offset,
    }
}

/// The line of an instruction of `size` bytes, `offset` bytes behind 0x01000000.
pub(super) fn line(offset: u32, size: u32, instr: Instr) -> Line {
    Line::Does {
        at: 0x0100_0000_u32.wrapping_add(offset),
        size,
        instr,
    }
}

/// A jump over 64 bytes, from 0x01000000 on. In the code of x86-64 its label is 256 bytes ahead of it.
pub(super) const AHEAD: Jump = Jump {
    from: 0x0100_0000,
    to: 0x0100_0040,
    label: 256,
    exit: 4096,
    label_owed: 0,
};

/// A sandbox of `code`, at 0x01000000.
pub(super) fn part_of(alloc: Global, code: &[u8]) -> SandboxPart<'_> {
    SandboxPart {
        code_base: 0x0100_0000,
        data_base: 0x0200_0000,
        data_size: 4096,
        start: 0x0100_0000,
        gates: Vec::new(alloc),
        code,
        init: &[],
    }
}
