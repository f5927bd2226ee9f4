//! What a step answers.

/// Why a step trapped.
#[derive(Clone, Copy, Debug, PartialEq, Eq)]
pub enum Cause {
    /// A byte of the instruction at pc is missing.
    Fetch,
    /// The bytes at pc are no instruction.
    Illegal,
    /// An ebreak.
    Break,
    /// A byte of a load is missing.
    Load,
    /// A byte of a store is missing.
    Store,
}

/// What a step did.
#[derive(Clone, Copy, Debug, PartialEq, Eq)]
pub enum Outcome {
    /// The instruction is done.
    Next,
    /// An ecall is at pc; nothing changed.
    Call,
    /// Why it trapped, with pc, or with the address of a load or a store; nothing changed.
    Trap(Cause, u32),
}
