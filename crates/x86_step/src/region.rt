//! Loads and stores. Numbers have their lowest byte first.
ghost use Rattle.std.specs.Prelude.{ℕ, ◌≡◌, ◌<◌, ◌≤◌, ◌^◌, ◌+◌, ◌⊎◌, length, Some, IfSome, IfNone, IfOk, IfErr};
ghost use Rattle.x86_step.specs.Held.{Leaves, bytes_from, core_of};
ghost use Rattle.x86_step.specs.State.{number_at, written};
ghost use Rattle.x86_step.specs.Step.{loaded, stored};

use crate::machine::{Core, Region, Stop};

impl Region {
    /// The index in `bytes` of the byte at address `at`, if all `count` bytes from there on are in
    /// the region and none lies beyond the last address.
    fn place_of(&self, count: usize, at: u64) -> Option<usize>
        requires { 0 < count }
        ensures found { IfSome result (λ place. (at ≡ self.now.base + place) × (place + count ≤ length self.now.bytes.items) × (at + count ≤ 2 ^ 64)) }
        ensures none { IfNone result ((at < self.now.base) ⊎ (self.now.base + length self.now.bytes.items < at + count) ⊎ (2 ^ 64 < at + count)) }
    {
        let place = at.checked_sub(self.base)? as usize;
        at.checked_add(count as u64 - 1)?;
        if place < self.bytes.len() && count <= self.bytes.len() - place {
            Some(place)
        } else {
            None
        }
    }

    /// The number that `count` bytes from the index `place` on make.
    fn number(&self, place: usize, count: usize) -> u64
        requires few { count ≤ 8 }
        requires there { place + count ≤ length self.now.bytes.items }
        ensures value { number_at (bytes_from self.now.base self.now.bytes.items) count (self.now.base + place) ≡ Some result }
        ensures in_range { result < 256 ^ count }
    {
        if count == 0 {
            return 0;
        }
        u64::from(self.bytes[place]) + 256 * self.number(place + 1, count - 1)
    }

    /// Writes the low `count` bytes of a number from the index `place` on, the lowest first.
    fn put_number(&mut self, place: usize, count: usize, n: u64)
        requires { place + count ≤ length self.old.bytes.items }
        ensures base { self.new.base ≡ self.old.base }
        ensures length { length self.new.bytes.items ≡ length self.old.bytes.items }
        ensures written { (q : ℕ) → bytes_from self.old.base self.new.bytes.items q
            ≡ written (bytes_from self.old.base self.old.bytes.items) count (self.old.base + place) n q }
    {
        let mut rest = n;
        for k in 0..count {
            self.bytes[place + k] = (rest % 256) as u8;
            rest /= 256;
        }
    }
}

impl Core {
    /// The number that `count` bytes from address `at` on make; `Fault` where one of them isn't in
    /// memory.
    pub fn load(&self, count: usize, at: u64) -> Result<u64, Stop>
        requires { (0 < count) × (count ≤ 8) }
        ensures value { result ≡ loaded (core_of self.now) count at }
        ensures in_range { IfOk result (λ n. n < 256 ^ count) }
    {
        match self.memory.place_of(count, at) {
            None => Err(Stop::Fault),
            Some(place) => Ok(self.memory.number(place, count)),
        }
    }

    /// Stores the low `count` bytes of `n` from address `at` on; `Fault` where a byte there isn't in
    /// memory.
    pub fn store(&mut self, count: usize, at: u64, n: u64) -> Result<(), Stop>
        requires { (0 < count) × (count ≤ 8) }
        ensures value { Leaves result self.new (stored (core_of self.old) count at n) }
        ensures kept { IfErr result (λ e. self.new ≡ self.old) }
    {
        match self.memory.place_of(count, at) {
            None => Err(Stop::Fault),
            Some(place) => {
                self.memory.put_number(place, count, n);
                Ok(())
            }
        }
    }
}
