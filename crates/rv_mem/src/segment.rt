//! One run of bytes at consecutive addresses.
ghost use Rattle.std.specs.Prelude.{◌≡◌, ℕ, ◌+◌, ◌-◌, ◌^◌, ◌<◌, ◌≤◌, ◌++◌, ◌↔◌, IsTrue, IsSome, IfOk, length, replicate, slice_index, vec_len};
ghost use Rattle.std.specs.Bool.{OnTrue, OnFalse};

use std::alloc::{AllocError, Global};

/// Bytes from an address on. They end at the last address at the latest.
#[derive(Drop)]
pub struct Segment {
    pub base: u32,
    pub bytes: Vec<u8>,
    pub ghost fits: { base + vec_len bytes ≤ 2 ^ 32 },
    pub ghost in_range: { (k : ℕ) → slice_index bytes.items k < 256 },
}

impl Segment {
    ghost use Rattle.rv_mem.specs.private.Segment.{byte_in, Puts};
    ghost use Rattle.rv_mem.specs.private.Segment.{HasIn, HasNone};

    /// `size` bytes from address `base` on: those of `front`, and then zeros. The one error is that
    /// memory ran out.
    pub fn new(alloc: Global, base: u32, size: u32, front: &[u8]) -> Result<Segment, AllocError>
        requires end { base + size ≤ 2 ^ 32 }
        requires room { length front.now ≤ size }
        ensures base { IfOk result (λ s. s.base ≡ base) }
        ensures bytes { IfOk result (λ s.
            s.bytes.items ≡ front.now ++ replicate (size - length front.now) 0) }
    {
        let mut bytes = Vec::with_capacity(alloc, size as usize)?;
        bytes.extend_from_slice(front)?;
        bytes.resize(size as usize, 0)?;
        Ok(Segment { base, bytes })
    }

    /// Whether the segment has an address from `from` up to `to`, which isn't included.
    pub fn has_in(&self, from: u64, to: u64) -> bool
        ensures found { OnTrue result (HasIn (byte_in self.now.base self.now.bytes.items) from to) }
        ensures none { OnFalse result
            (HasNone (byte_in self.now.base self.now.bytes.items) from to) }
    {
        let start = u64::from(self.base);
        let end = start + self.bytes.len() as u64;
        start.max(from) < end.min(to)
    }

    /// The byte at the address, if it has one there.
    pub fn byte_at(&self, at: u32) -> Option<u8>
        ensures { result ≡ byte_in self.now.base self.now.bytes.items at }
    {
        if at < self.base {
            return None;
        }
        self.bytes.get((at - self.base) as usize).copied()
    }

    /// Whether the segment has a byte at the address.
    pub fn has(&self, at: u32) -> bool
        ensures { IsTrue result ↔ IsSome (byte_in self.now.base self.now.bytes.items at) }
    {
        self.byte_at(at).is_some()
    }

    /// Writes the byte of an address at which the segment has one.
    pub fn put(&mut self, at: u32, byte: u8)
        requires { IsSome (byte_in self.old.base self.old.bytes.items at) }
        ensures { Puts (byte_in self.old.base self.old.bytes.items)
            (byte_in self.new.base self.new.bytes.items) at byte }
    {
        let place = (at - self.base) as usize;
        self.bytes[place] = byte;
    }
}
