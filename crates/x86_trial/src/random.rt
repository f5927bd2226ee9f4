//! Random choices.
ghost use Rattle.std.specs.Prelude.{◌<◌, length};

use rand_core::{Rng, SeedableRng};
use rand_xoshiro::Xoshiro256PlusPlus;

/// A source of random choices.
#[derive(Drop)]
pub(crate) struct Random {
    generator: Xoshiro256PlusPlus,
}

impl Random {
    /// The same seed makes the same choices.
    pub(crate) fn from_seed(seed: u64) -> Random {
        Random {
            generator: Xoshiro256PlusPlus::seed_from_u64(seed),
        }
    }

    /// 64 random bits.
    pub(crate) fn word(&mut self) -> u64 {
        self.generator.next_u64()
    }

    /// A number below `end`.
    pub(crate) fn below(&mut self, end: u64) -> u64
        requires { 0 < end }
        ensures { result < end }
    {
        self.word() % end
    }

    /// True with a chance of 1 in `count`, by one number of the generator: drawing otherwise makes other
    /// cases of the same seeds.
    pub(crate) fn once_in(&mut self, count: u64) -> bool
        requires { 0 < count }
    {
        self.below(count) == 0
    }

    /// One of these, each as often.
    pub(crate) fn one_of<T: Copy>(&mut self, choices: &[T]) -> T
        requires { 0 < length choices.now }
    {
        choices[(self.word() % choices.len() as u64) as usize]
    }

    /// A number at or beside a power of two.
    fn edge(&mut self) -> u64 {
        let power = 1u64 << self.below(64);
        power.wrapping_add(self.below(3)).wrapping_sub(1)
    }

    /// A number of 64 bits: at or beside a power of two or the negative of one, where operations have
    /// their edges; below 16; of 32 bits; or any.
    pub(crate) fn number(&mut self) -> u64 {
        match self.below(6) {
            0 => self.edge(),
            1 => 0u64.wrapping_sub(self.edge()),
            2 => self.below(16),
            3 => self.word() % 0x1_0000_0000,
            _ => self.word(),
        }
    }

    /// The low 32 bits of such a number.
    pub(crate) fn dword(&mut self) -> u32 {
        (self.number() % 0x1_0000_0000) as u32
    }
}
