//! The registers that have a part in a sandbox's confinement, by their parts.

/// x24, which holds the code base.
pub const CODE_BASE_REGISTER: u8 = 24;

/// x25, which holds the code size less the size of a unit of code: the mask of a code address.
pub const CODE_MASK_REGISTER: u8 = 25;

/// x26, which holds the data base, unless it is a data register, as where masks are single.
pub const DATA_BASE_REGISTER: u8 = 26;

/// x27, which holds the mask of a data address: the data size less 1; where masks are single, the
/// data base plus that.
pub const DATA_MASK_REGISTER: u8 = 27;

/// x31, in which the expansions of code in bundles make addresses.
pub const SCRATCH: u8 = 31;

/// x2, the stack pointer of a format that has one.
pub const STACK_POINTER: u8 = 2;

/// x30 of code in words, which an indirect jump goes by: it holds a word's start.
pub const CODE_REGISTER: u8 = 30;

/// x31 of code in words whose masks have two steps, which holds an offset in the data region. Where
/// masks are single, x31 is a data register.
pub const OFFSET_REGISTER: u8 = 31;
