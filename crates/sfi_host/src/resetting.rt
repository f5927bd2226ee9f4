//! A sandbox's first data and registers, once more.
ghost use Rattle.std.specs.Prelude.{◌≡◌, ◌%◌, ◌+◌, ◌-◌, ◌<◌, ◌≤◌, ◌^◌, ◌++◌, length, replicate};
ghost use Rattle.std.specs.Arc.{arc_slice_items};
ghost use Rattle.std.specs.List.{range_with_len};
ghost use Rattle.rv_mem.specs.Bytes.{with_bytes};
ghost use Rattle.rv_step.specs.State.{IsHart};
ghost use Rattle.sfi_host.specs.Slots.{span_of, bytes_in, bytes_outside, IsWhole};
ghost use Rattle.sfi_host.specs.Loading.{reset_seat, with_first_bytes};
ghost use Rattle.sfi_host.specs.Worlds.{seat_of};

use crate::region::Region;
use crate::sandbox::{Sandbox, fresh_cpu};
use crate::status::Status;
use rv_mem::Memory;

impl Region {
    /// Fills the region with `front`, which fits into it, and with zeros after that.
    pub(crate) fn fill<M: Memory>(self, memory: &mut M, front: &[u8])
        requires whole { IsWhole (span_of self) (bytes_in (span_of self) (M.bytes memory.old)) }
        requires room { length front.now ≤ self.size }
        requires end { self.base + self.size < 2 ^ 32 }
        ensures filled { M.bytes memory.new
            ≡ with_bytes (M.bytes memory.old) (range_with_len self.base self.size)
            (front.now ++ replicate (self.size - length front.now) 0) }
        ensures outside { bytes_outside (span_of self) (M.bytes memory.new)
            ≡ bytes_outside (span_of self) (M.bytes memory.old) }
        ensures whole { IsWhole (span_of self) (bytes_in (span_of self) (M.bytes memory.new)) }
    {
        self.write(memory, self.base, front);
        self.clear_from(memory, front.len() as u32);
    }

    /// Fills the region with zeros from byte `from` of it, counted from its base, to its end.
    fn clear_from<M: Memory>(self, memory: &mut M, from: u32)
        requires whole { IsWhole (span_of self) (bytes_in (span_of self) (M.bytes memory.old)) }
        requires room { from ≤ self.size }
        requires end { self.base + self.size < 2 ^ 32 }
        ensures cleared { M.bytes memory.new
            ≡ with_bytes (M.bytes memory.old) (range_with_len (self.base + from) (self.size - from))
            (replicate (self.size - from) 0) }
        ensures outside { bytes_outside (span_of self) (M.bytes memory.new)
            ≡ bytes_outside (span_of self) (M.bytes memory.old) }
        ensures whole { IsWhole (span_of self) (bytes_in (span_of self) (M.bytes memory.new)) }
    {
        memory.clear(self.base + from, self.size - from);
    }
}

impl Sandbox {
    /// Makes it ready at its start, with its first data and no step done.
    pub(crate) fn reset<M: Memory>(&mut self, memory: &mut M)
        requires whole { IsWhole (span_of self.old.data)
            (bytes_in (span_of self.old.data) (M.bytes memory.old)) }
        requires room { length (arc_slice_items self.old.init) ≤ self.old.data.size }
        requires even { self.old.start % 2 ≡ 0 }
        requires code_size { 16 ≤ self.old.code.size }
        requires data_size { 16 ≤ self.old.data.size }
        requires data_end { self.old.data.base + self.old.data.size < 2 ^ 32 }
        ensures filled { M.bytes memory.new
            ≡ with_first_bytes (seat_of self.old).bounds (M.bytes memory.old) }
        ensures outside { bytes_outside (span_of self.old.data) (M.bytes memory.new)
            ≡ bytes_outside (span_of self.old.data) (M.bytes memory.old) }
        ensures whole { IsWhole (span_of self.old.data)
            (bytes_in (span_of self.old.data) (M.bytes memory.new)) }
        ensures reset { seat_of self.new ≡ reset_seat (seat_of self.old) }
        ensures hart { IsHart self.new.cpu }
    {
        self.data.fill(memory, &self.init);
        self.cpu = fresh_cpu(self.format, self.code, self.data, self.start);
        self.status = Status::Ready;
        self.steps = 0;
    }
}
