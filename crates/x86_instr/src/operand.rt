//! What instructions compute on: registers, and memory at an address.
ghost use Rattle.std.specs.Prelude.{◌≡◌, ◌<◌};
ghost use Rattle.x86_instr.specs.Spelling.{number, scale_number};

/// A general-purpose register, by the name of its 64 bits.
#[derive(Clone, Copy)]
pub enum Register {
    Rax,
    Rcx,
    Rdx,
    Rbx,
    Rsp,
    Rbp,
    Rsi,
    Rdi,
    R8,
    R9,
    R10,
    R11,
    R12,
    R13,
    R14,
    R15,
}

impl Register {
    /// The number that fields of instructions have for the register: 0 for rax, to 15 for r15.
    #[inline]
    pub fn number(self) -> u8
        ensures value { result ≡ number self }
        ensures in_range { result < 16 }
    {
        match self {
            Register::Rax => 0,
            Register::Rcx => 1,
            Register::Rdx => 2,
            Register::Rbx => 3,
            Register::Rsp => 4,
            Register::Rbp => 5,
            Register::Rsi => 6,
            Register::Rdi => 7,
            Register::R8 => 8,
            Register::R9 => 9,
            Register::R10 => 10,
            Register::R11 => 11,
            Register::R12 => 12,
            Register::R13 => 13,
            Register::R14 => 14,
            Register::R15 => 15,
        }
    }
}

/// By what an index is multiplied.
#[derive(Clone, Copy)]
pub enum Scale {
    One,
    Two,
    Four,
    Eight,
}

impl Scale {
    /// The two bits that say it in SIB: its binary logarithm.
    pub(crate) fn number(self) -> u8
        ensures value { result ≡ scale_number self }
        ensures in_range { result < 4 }
    {
        match self {
            Scale::One => 0,
            Scale::Two => 1,
            Scale::Four => 2,
            Scale::Eight => 3,
        }
    }
}

/// The address `base` + `index` * `scale` + `displacement`. The index rsp means that there is none,
/// as in a SIB byte.
#[derive(Clone, Copy)]
pub struct Address {
    pub base: Register,
    pub index: Register,
    pub scale: Scale,
    /// 32 bits with their sign.
    pub displacement: u32,
}

/// An operand that ModRM's field r/m says.
#[derive(Clone, Copy)]
pub enum Operand {
    Reg(Register),
    Mem(Address),
}
