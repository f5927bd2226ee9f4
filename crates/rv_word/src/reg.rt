//! The 32 registers.
ghost use Rattle.std.specs.Prelude.{◌≡◌, ℕ, ◌<◌};
ghost use Rattle.std.specs.Option.{SomeIff};

use std::marker::Model;

/// One of the registers x0 to x31, which contracts see as its number.
#[derive(Clone, Copy, PartialEq, Eq, Debug)]
pub struct Reg {
    number: u8,
}

impl Model for Reg {
    ghost Value = { ℕ };

    ghost view = { λ r. r.number };

    ghost invariant = { λ r. r.number < 32 };

    ghost inverse = { λ n. record { number = n } };
}

impl Reg {
    /// The register of this number; `None` where there is none.
    pub fn new(number: u8) -> Option<Self>
        ensures { SomeIff result (number < 32) number }
    {
        if number < 32 {
            Some(Reg { number })
        } else {
            None
        }
    }

    /// The register of a number that is known to name one.
    #[inline]
    pub fn numbered(number: u8) -> Self
        requires { number < 32 }
        ensures { result ≡ number }
    {
        Reg { number }
    }

    /// 0 for x0, to 31 for x31.
    pub fn number(&self) -> u8
        ensures value { result ≡ self.now }
        ensures in_range { self.now < 32 }
    {
        self.number
    }

    /// The register that these five bits of a word name.
    pub(crate) fn of_field(field: u32) -> Self
        requires { field < 32 }
        ensures { result ≡ field }
    {
        Reg::numbered(field as u8)
    }

    /// The five bits of a word that name the register.
    pub(crate) fn field(self) -> u32
        ensures value { result ≡ self }
        ensures fits { result < 32 }
    {
        u32::from(self.number)
    }
}
