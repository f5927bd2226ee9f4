//! A memory of segments.
ghost use Rattle.std.specs.Prelude.{◌≡◌, IsSome};
ghost use Rattle.std.specs.Bool.{OnTrue, OnFalse};
ghost use Rattle.std.specs.FinMap.{empty, insert};
ghost use Rattle.rv_mem.specs.Bytes.{IsMemory, byte_at, Overlaps, IsFree};
ghost use Rattle.rv_mem.specs.private.Segment.{HasIn, HasNone};
ghost use Rattle.rv_mem.specs.Segment.{bytes_among};

use crate::fault::AddFault;
use crate::lookup;
use crate::memory::{Memory, Width};
use crate::segment::Segment;
use std::alloc::Global;

/// How many addresses a memory has.
const ADDRESSES: u64 = 1 << 32;

/// A memory as a list of segments, one for each `add`; no two have an address in common.
#[derive(Drop)]
pub struct Segments {
    alloc: Global,
    parts: Vec<Segment>,
    ghost in_range: { IsMemory (bytes_among parts.items) },
}

impl Segments {
    ghost use Rattle.rv_mem.specs.Segments.{bytes_of};

    /// A memory without any byte.
    pub fn new(alloc: Global) -> Segments
        ensures { bytes_of result ≡ empty }
    {
        Segments {
            alloc,
            parts: Vec::new(alloc),
        }
    }

    /// The byte at address `at`, if a segment has one there.
    #[tactic(auto, using(crate::proofs::Lookups::get_among))]
    fn byte_at(&self, at: u32) -> Option<u8>
        ensures { result ≡ byte_at (bytes_of self.now) at }
    {
        lookup::find_byte(&self.parts, at)
    }

    /// Writes the byte of an address that is there.
    fn put_byte(&mut self, at: u32, byte: u8)
        requires { IsSome (byte_at (bytes_of self.old) at) }
        ensures { bytes_of self.new ≡ insert (bytes_of self.old) at byte }
    {
        lookup::put_byte(&mut self.parts, at, byte);
    }

    /// Whether a segment has an address from `from` up to `to`, which isn't included.
    fn has_in(&self, from: u64, to: u64) -> bool
        ensures found { OnTrue result (HasIn (byte_at (bytes_of self.now)) from to) }
        ensures none { OnFalse result (HasNone (byte_at (bytes_of self.now)) from to) }
    {
        lookup::has_in(&self.parts, from, to)
    }

    /// Whether one of the `size` addresses from `base` on is there; after the last one comes
    /// address 0.
    fn overlaps(&self, base: u32, size: u32) -> bool
        ensures found { OnTrue result (Overlaps (bytes_of self.now) base size) }
        ensures free { OnFalse result (IsFree (bytes_of self.now) base size) }
    {
        let end = u64::from(base) + u64::from(size);
        if self.has_in(u64::from(base), end.min(ADDRESSES)) {
            return true;
        }
        self.has_in(0, end.saturating_sub(ADDRESSES))
    }
}

impl Memory for Segments {
    ghost use Rattle.rv_mem.specs.Segments.{bytes_of};

    ghost bytes = { bytes_of };

    ghost in_range = { λ m. m.in_range };

    fn load(&self, at: u32, width: Width) -> Option<u32> {
        let byte0 = u32::from(self.byte_at(at)?);
        if width == Width::One {
            return Some(byte0);
        }
        let byte1 = u32::from(self.byte_at(at.wrapping_add(1))?);
        if width == Width::Two {
            return Some(byte0 + byte1 * 0x100);
        }
        let byte2 = u32::from(self.byte_at(at.wrapping_add(2))?);
        let byte3 = u32::from(self.byte_at(at.wrapping_add(3))?);
        Some(byte0 + byte1 * 0x100 + byte2 * 0x1_0000 + byte3 * 0x100_0000)
    }

    fn fetch16(&self, at: u32) -> Option<u16> {
        let low = self.byte_at(at)?;
        let high = self.byte_at(at.wrapping_add(1))?;
        Some(u16::from_le_bytes([low, high]))
    }

    #[tactic(auto, using(crate::proofs::Lookups::stays))]
    fn store(&mut self, at: u32, width: Width, value: u32) -> bool {
        if self.load(at, width).is_none() {
            return false;
        }
        let [byte0, byte1, byte2, byte3] = value.to_le_bytes();
        self.put_byte(at, byte0);
        if width == Width::One {
            return true;
        }
        self.put_byte(at.wrapping_add(1), byte1);
        if width == Width::Two {
            return true;
        }
        self.put_byte(at.wrapping_add(2), byte2);
        self.put_byte(at.wrapping_add(3), byte3);
        true
    }

    fn copy_out(&self, at: u32, room: &mut [u8]) {
        for k in 0..room.len() {
            room[k] = self.byte_at(at + k as u32).unwrap();
        }
    }

    fn copy_in(&mut self, at: u32, copied: &[u8]) {
        for k in 0..copied.len() {
            self.put_byte(at + k as u32, copied[k]);
        }
    }

    fn clear(&mut self, at: u32, count: u32) {
        for k in 0..count {
            self.put_byte(at + k, 0);
        }
    }

    fn add(&mut self, base: u32, size: u32, front: &[u8]) -> Result<(), AddFault> {
        if self.overlaps(base, size) {
            return Err(AddFault::Overlap);
        }
        if u64::from(base) + u64::from(size) > ADDRESSES {
            return Err(AddFault::End);
        }
        let Ok(part) = Segment::new(self.alloc, base, size, front) else {
            return Err(AddFault::Memory);
        };
        if self.parts.push(part).is_err() {
            return Err(AddFault::Memory);
        }
        Ok(())
    }
}
