//! What a host sees of its caller.
ghost use Rattle.std.specs.Prelude.{◌≡◌, ◌+◌, ◌^◌, ◌≤◌, ◌↔◌, IsTrue, IsSome, Some, length};
ghost use Rattle.std.specs.Bool.{OnTrue, OnFalse};
ghost use Rattle.rv_mem.specs.Bytes.{byte_at};
ghost use Rattle.sfi_image.specs.Spelling.{Holds};
ghost use Rattle.sfi_host.specs.Slots.{span_of, bytes_in, bytes_outside, IsWhole};

use crate::region::Region;
use rv_mem::{Memory, Width};

/// What is asked at a gate, and by whom.
#[derive(Clone, Copy, Debug)]
pub struct Request {
    /// The caller's number among the sandboxes.
    pub sandbox: u32,
    /// The gate that it called: its place among the caller's gates.
    pub gate: usize,
    /// The service of that gate.
    pub service: u32,
    /// The caller's a0.
    pub a0: u32,
    /// The caller's a1.
    pub a1: u32,
}

/// A sandbox that called a gate: its number, the service that it asks for, its a0 and a1, and its
/// data region in the memory of all. Contracts see what is asked as a `Call` of `specs/Hosts.antt`.
#[derive(Drop)]
pub struct Guest<'a, M: Memory> {
    memory: &'a mut M,
    region: Region,
    request: Request,
}

impl<'a, M: Memory> Guest<'a, M> {
    ghost use Rattle.sfi_host.specs.Hosts.{data_of, asked, outside, call_by, Borrows, HasData, SameMemory, data_from, with_a0, with_a1, with_byte, with_bytes_at};

    /// The caller with this data region that asks this. A [`World`](crate::World) makes one for each call;
    /// over a memory of one's own it tries a host without an image. [`Gates::call`](crate::Gates::call)
    /// wants a byte at each address of the region.
    pub fn new(memory: &'a mut M, region: Region, request: Request) -> Guest<'a, M>
        ensures same_reference { Borrows result memory.entry }
        ensures asked { asked M.bytes result
            ≡ call_by request (bytes_in (span_of region) (M.bytes memory.old)) }
        ensures outside { outside M.bytes result
            ≡ bytes_outside (span_of region) (M.bytes memory.old) }
        ensures place { data_of result ≡ span_of region }
        ensures has_data { IsWhole (span_of region)
            (bytes_in (span_of region) (M.bytes memory.old)) → HasData M.bytes result }
    {
        Guest {
            memory,
            region,
            request,
        }
    }

    /// Whether each of the `count` addresses from `at` on is in its data region; `true` where `count`
    /// is 0, whatever `at` is.
    pub(crate) fn covers(&self, at: u32, count: u64) -> bool
        requires has_data { HasData M.bytes self.now }
        ensures there { IsTrue result ↔ IsSome (data_from (asked M.bytes self.now) at count) }
        ensures end { OnTrue result (at + count ≤ 2 ^ 32) }
    {
        self.region.covers(at, count)
    }

    /// The caller's number among the sandboxes.
    pub fn sandbox(&self) -> u32
        ensures { result ≡ (asked M.bytes self.now).caller }
    {
        self.request.sandbox
    }

    /// The service of the gate that it called.
    pub fn service(&self) -> u32
        ensures { result ≡ (asked M.bytes self.now).service }
    {
        self.request.service
    }

    /// The caller's a0.
    pub fn arg0(&self) -> u32
        ensures { result ≡ (asked M.bytes self.now).a0 }
    {
        self.request.a0
    }

    /// The caller's a1.
    pub fn arg1(&self) -> u32
        ensures { result ≡ (asked M.bytes self.now).a1 }
    {
        self.request.a1
    }

    /// The caller's data region.
    pub fn data_region(&self) -> Region
        ensures { span_of result ≡ data_of self.now }
    {
        self.region
    }

    /// The byte at an address of the caller's data region; `None` for every other address.
    pub fn byte(&self, at: u32) -> Option<u8>
        ensures value { result ≡ byte_at (asked M.bytes self.now).bytes at }
        ensures there { HasData M.bytes self.now → (IsSome result ↔ Holds (data_of self.now) at) }
    {
        self.region.byte(&*self.memory, at)
    }

    /// Writes the byte at an address of its data region; `false` for every other address,
    /// and then nothing changed.
    pub fn put_byte(&mut self, at: u32, byte: u8) -> bool
        ensures same_reference { SameMemory self.old self.new }
        ensures done { OnTrue result
            (asked M.bytes self.new ≡ with_byte (asked M.bytes self.old) at byte) }
        ensures refused { OnFalse result (asked M.bytes self.new ≡ asked M.bytes self.old) }
        ensures there { IsTrue result ↔ IsSome (byte_at (asked M.bytes self.old).bytes at) }
        ensures region { HasData M.bytes self.old → (IsTrue result ↔ Holds (data_of self.old) at) }
        ensures has_data { HasData M.bytes self.old → HasData M.bytes self.new }
        ensures outside { outside M.bytes self.new ≡ outside M.bytes self.old }
        ensures place { data_of self.new ≡ data_of self.old }
    {
        if !self.region.holds(at) {
            return false;
        }
        self.memory.store(at, Width::One, u32::from(byte))
    }

    /// Writes all of `bytes` from `at` on. Each of these addresses has to be in its data region: the
    /// caller tests that by `covers` or `may_hand`, as nothing does here.
    pub(crate) fn put_bytes(&mut self, at: u32, bytes: &[u8])
        requires there { IsSome (data_from (asked M.bytes self.old) at (length bytes.now)) }
        requires end { at + length bytes.now ≤ 2 ^ 32 }
        ensures same_reference { SameMemory self.old self.new }
        ensures asked { asked M.bytes self.new
            ≡ with_bytes_at (asked M.bytes self.old) at bytes.now }
        ensures has_data { HasData M.bytes self.old → HasData M.bytes self.new }
        ensures outside { outside M.bytes self.new ≡ outside M.bytes self.old }
        ensures place { data_of self.new ≡ data_of self.old }
    {
        self.region.write(&mut *self.memory, at, bytes);
    }

    /// Fills `bytes` with its data bytes from `at` on; `false` where one of these addresses isn't
    /// in its data region, and then nothing changed.
    pub fn read(&self, at: u32, bytes: &mut [u8]) -> bool
        requires has_data { HasData M.bytes self.now }
        ensures there { IsTrue result
            ↔ IsSome (data_from (asked M.bytes self.now) at (length bytes.old)) }
        ensures done { OnTrue result
            (data_from (asked M.bytes self.now) at (length bytes.old) ≡ Some bytes.new) }
        ensures refused { OnFalse result (bytes.new ≡ bytes.old) }
    {
        self.region.read(&*self.memory, at, bytes)
    }

    /// Writes all of `bytes` from `at` on; `false` where one of these addresses isn't in its data
    /// region, and then nothing changed.
    pub fn write(&mut self, at: u32, bytes: &[u8]) -> bool
        requires has_data { HasData M.bytes self.old }
        ensures same_reference { SameMemory self.old self.new }
        ensures there { IsTrue result
            ↔ IsSome (data_from (asked M.bytes self.old) at (length bytes.now)) }
        ensures done { OnTrue result
            (asked M.bytes self.new ≡ with_bytes_at (asked M.bytes self.old) at bytes.now) }
        ensures refused { OnFalse result (asked M.bytes self.new ≡ asked M.bytes self.old) }
        ensures has_data { HasData M.bytes self.new }
        ensures outside { outside M.bytes self.new ≡ outside M.bytes self.old }
        ensures place { data_of self.new ≡ data_of self.old }
    {
        if !self.covers(at, bytes.len() as u64) {
            return false;
        }
        self.put_bytes(at, bytes);
        true
    }

    /// Sets the a0 that the caller has after the call; `arg0` gives it from now on.
    pub fn set0(&mut self, value: u32)
        ensures same_reference { SameMemory self.old self.new }
        ensures asked { asked M.bytes self.new ≡ with_a0 (asked M.bytes self.old) value }
        ensures has_data { HasData M.bytes self.old → HasData M.bytes self.new }
        ensures outside { outside M.bytes self.new ≡ outside M.bytes self.old }
        ensures place { data_of self.new ≡ data_of self.old }
    {
        self.request.a0 = value;
    }

    /// Sets the a1 that the caller has after the call; `arg1` gives it from now on.
    pub fn set1(&mut self, value: u32)
        ensures same_reference { SameMemory self.old self.new }
        ensures asked { asked M.bytes self.new ≡ with_a1 (asked M.bytes self.old) value }
        ensures has_data { HasData M.bytes self.old → HasData M.bytes self.new }
        ensures outside { outside M.bytes self.new ≡ outside M.bytes self.old }
        ensures place { data_of self.new ≡ data_of self.old }
    {
        self.request.a1 = value;
    }
}
