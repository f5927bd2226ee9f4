//! Regions of addresses, and their bytes in a memory.
ghost use Rattle.std.specs.Prelude.{◌≡◌, ◌+◌, ◌^◌, ◌≤◌, ◌↔◌, IsTrue, IsSome, Some, length};
ghost use Rattle.std.specs.Bool.{OnTrue, OnFalse};
ghost use Rattle.std.specs.List.{range_with_len};
ghost use Rattle.rv_mem.specs.Bytes.{Bytes, IsMemory, byte_at, bytes_at, with_bytes};
ghost use Rattle.sfi_image.specs.Spelling.{Holds};
ghost use Rattle.sfi_host.specs.Slots.{span_of, is_in, bytes_in, bytes_outside, IsWhole};

use rv_mem::{Memory, Width};

/// The `size` addresses from `base` on, as of a sandbox's code or data.
#[derive(Clone, Copy, Debug, PartialEq, Eq)]
pub struct Region {
    pub base: u32,
    pub size: u32,
}

impl Region {
    /// Whether the address `at` is in the region.
    pub(crate) fn holds(self, at: u32) -> bool
        ensures { result ≡ is_in (span_of self) at }
    {
        at >= self.base && at - self.base < self.size
    }

    /// The byte of the memory at the address `at`; `None` where that isn't in the region, or the memory
    /// has no byte there.
    pub(crate) fn byte<M: Memory>(self, memory: &M, at: u32) -> Option<u8>
        ensures value { result ≡ byte_at (bytes_in (span_of self) (M.bytes memory.now)) at }
        ensures there { IsWhole (span_of self) (bytes_in (span_of self) (M.bytes memory.now))
            → (IsSome result ↔ Holds (span_of self) at) }
    {
        if !self.holds(at) {
            return None;
        }
        let byte = memory.load(at, Width::One)?;
        Some(byte as u8)
    }

    /// Whether each of the `count` addresses from `at` on is in the region; `true` where `count` is 0,
    /// whatever `at` is. The contract speaks of each memory that has a byte at all of the region's
    /// addresses.
    pub(crate) fn covers(self, at: u32, count: u64) -> bool
        ensures there { (m : Bytes) → IsWhole (span_of self) (bytes_in (span_of self) m)
            → (IsTrue result
            ↔ IsSome (bytes_at (bytes_in (span_of self) m) (range_with_len at count))) }
        ensures end { (m : Bytes) → IsMemory m → IsWhole (span_of self) (bytes_in (span_of self) m)
            → OnTrue result (at + count ≤ 2 ^ 32) }
    {
        if count == 0 {
            return true;
        }
        let end = u64::from(self.base) + u64::from(self.size);
        self.base <= at && count <= end.saturating_sub(u64::from(at))
    }

    /// Fills `bytes` with the bytes from `at` on; `false` where one of these addresses is none of
    /// the region's, and then nothing changed.
    pub(crate) fn read<M: Memory>(self, memory: &M, at: u32, bytes: &mut [u8]) -> bool
        requires whole { IsWhole (span_of self) (bytes_in (span_of self) (M.bytes memory.now)) }
        ensures there { IsTrue result ↔ IsSome (bytes_at
            (bytes_in (span_of self) (M.bytes memory.now)) (range_with_len at (length bytes.old))) }
        ensures done { OnTrue result (bytes_at (bytes_in (span_of self) (M.bytes memory.now))
            (range_with_len at (length bytes.old)) ≡ Some bytes.new) }
        ensures refused { OnFalse result (bytes.new ≡ bytes.old) }
    {
        if !self.covers(at, bytes.len() as u64) {
            return false;
        }
        memory.copy_out(at, bytes);
        true
    }

    /// Writes all of `bytes` to the memory from the address `at` on. Each of these addresses has to be
    /// in the region, which the caller sees to: nothing tests it here.
    pub(crate) fn write<M: Memory>(self, memory: &mut M, at: u32, bytes: &[u8])
        requires there { IsSome (bytes_at (bytes_in (span_of self) (M.bytes memory.old))
            (range_with_len at (length bytes.now))) }
        requires end { at + length bytes.now ≤ 2 ^ 32 }
        ensures written { M.bytes memory.new
            ≡ with_bytes (M.bytes memory.old) (range_with_len at (length bytes.now)) bytes.now }
        ensures inside { bytes_in (span_of self) (M.bytes memory.new)
            ≡ with_bytes (bytes_in (span_of self) (M.bytes memory.old))
            (range_with_len at (length bytes.now)) bytes.now }
        ensures outside { bytes_outside (span_of self) (M.bytes memory.new)
            ≡ bytes_outside (span_of self) (M.bytes memory.old) }
        ensures whole { IsWhole (span_of self) (bytes_in (span_of self) (M.bytes memory.old))
            → IsWhole (span_of self) (bytes_in (span_of self) (M.bytes memory.new)) }
    {
        memory.copy_in(at, bytes);
    }
}
