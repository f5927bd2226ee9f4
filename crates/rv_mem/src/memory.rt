//! What a memory is.
ghost use Rattle.std.specs.Prelude.{◌≡◌, ◌≢◌, ◌+◌, ◌^◌, ◌<◌, ◌≤◌, ◌↔◌, length, replicate, IsTrue, IfSome, IsSome, Some, OnOk, OnErr};
ghost use Rattle.std.specs.Bool.{OnTrue, OnFalse};
ghost use Rattle.std.specs.List.{range_with_len};
ghost use Rattle.rv_mem.specs.Bytes.{Bytes, IsMemory, count_of, loaded, IsThere, stored, bytes_at, with_bytes, Overlaps, IsFree, added};

use crate::fault::AddFault;

/// How many bytes an access has.
#[derive(Clone, Copy, PartialEq, Eq)]
pub enum Width {
    One,
    Two,
    Four,
}

/// A memory: at each of the 2^32 addresses a byte, or none; an address with a byte is *there*.
/// Numbers stand low byte first (RISC-V Unprivileged ISA, chapter RV32I, "Load and Store
/// Instructions"). An access may begin at any address, and the address after the last one is the
/// first.
pub trait Memory: Drop {
    ghost bytes: { Self → Bytes };

    /// The number at the address, zero-extended; None exactly where one of its bytes is missing.
    fn load(&self, at: u32, width: Width) -> Option<u32>
        ensures value { result ≡ loaded (bytes self.now) at (count_of width) }
        ensures fits { IfSome result (λ n. n < 256 ^ count_of width) }
        ensures range { IsMemory (bytes self.now) };

    /// The two bytes at the address, as `load` reads them.
    fn fetch16(&self, at: u32) -> Option<u16>
        ensures value { result ≡ loaded (bytes self.now) at 2 }
        ensures range { IsMemory (bytes self.now) };

    /// Writes the low bytes of the value; false exactly where one of the bytes is missing,
    /// and then nothing changed.
    fn store(&mut self, at: u32, width: Width, value: u32) -> bool
        ensures there { IsTrue result ↔ IsThere (bytes self.old) at (count_of width) }
        ensures done { OnTrue result
            (bytes self.new ≡ stored (bytes self.old) at (count_of width) value) }
        ensures refused { OnFalse result (bytes self.new ≡ bytes self.old) };

    /// Fills `room` with the bytes from `at` on, at addresses that are there. Unlike a load, it
    /// doesn't go on at 0 after the last address, and neither do `copy_in` and `clear`.
    fn copy_out(&self, at: u32, room: &mut [u8])
        requires { IsSome (bytes_at (bytes self.now) (range_with_len at (length room.old))) }
        ensures { bytes_at (bytes self.now) (range_with_len at (length room.old))
            ≡ Some room.new };

    /// Writes `copied` from `at` on, at addresses that are there.
    fn copy_in(&mut self, at: u32, copied: &[u8])
        requires { IsSome (bytes_at (bytes self.old) (range_with_len at (length copied.now))) }
        ensures { bytes self.new
            ≡ with_bytes (bytes self.old) (range_with_len at (length copied.now)) copied.now };

    /// Writes zeros to the `count` addresses from `at` on, which are there.
    fn clear(&mut self, at: u32, count: u32)
        requires { IsSome (bytes_at (bytes self.old) (range_with_len at count)) }
        ensures { bytes self.new
            ≡ with_bytes (bytes self.old) (range_with_len at count) (replicate count 0) };

    /// Adds the `size` addresses from `base` on, with the bytes of `front` and then zeros.
    fn add(&mut self, base: u32, size: u32, front: &[u8]) -> Result<(), AddFault>
        requires { length front.now ≤ size }
        ensures ok { OnOk result (bytes self.new ≡ added (bytes self.old) base size front.now) }
        ensures err { OnErr result (bytes self.new ≡ bytes self.old) }

        // An address that is there already is reported as such,
        // even where the addresses reach past the last one.
        ensures overlap { (result ≡ Err AddFault.Overlap) ↔ Overlaps (bytes self.old) base size }
        ensures free { result ≢ Err AddFault.Overlap → IsFree (bytes self.old) base size }
        ensures end { (result ≡ Err AddFault.End)
            ↔ (IsFree (bytes self.old) base size × (2 ^ 32 < base + size)) };

    ghost in_range: { (m : Self) → IsMemory (bytes m) };
}
