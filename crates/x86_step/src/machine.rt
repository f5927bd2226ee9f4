//! Registers, flags and memory.

/// The flags that conditions read; `None` where the manual leaves one undefined.
#[derive(Clone, Copy)]
pub struct Flags {
    pub carry: Option<bool>,
    pub zero: Option<bool>,
    pub sign: Option<bool>,
    pub overflow: Option<bool>,
}

/// A result and the flags after it.
#[derive(Clone, Copy)]
pub struct Computed {
    pub result: u64,
    pub flags: Flags,
}

/// Why an instruction isn't done. It leaves all as it was.
#[derive(Clone, Copy)]
pub enum Stop {
    /// A byte isn't there, or may not be written; or a jump's target isn't canonical. A processor raises
    /// an exception.
    Fault,
    /// The divisor is 0, or the quotient doesn't fit. A processor raises an exception.
    DivideError,
    /// A condition reads a flag that the manual leaves undefined. A processor goes on, with the flag at
    /// either value.
    UnknownFlag,
    /// The text has no instruction of these forms at rip. A processor does whatever the bytes there say
    /// to it.
    NoInstruction,
}

/// Bytes from an address on, which may be read and written; those beyond the last address aren't reached.
#[derive(Drop)]
pub struct Region {
    pub base: u64,
    pub bytes: Vec<u8>,
}

/// What instructions compute on.
#[derive(Drop)]
pub struct Core {
    /// By number.
    pub registers: [u64; 16],
    pub flags: Flags,
    pub memory: Region,
}
