//! Guests over a memory, without an image, and a host of a few lines. A `Guest` is what a host sees
//! of the sandbox that calls it: what it asks, and its data.
ghost use Rattle.std.specs.Prelude.{◌≤◌, length};
ghost use Rattle.rv_mem.specs.Segments.{bytes_of};
ghost use Rattle.sfi_host.specs.Hosts.{Yield};
ghost use Rattle.sfi_host.specs.Slots.{bytes_in, IsWhole};

use rv_mem::{Memory, Segments, Width};
use sfi_host::{GateAnswer, Gates, Guest, Region, Request};
use std::alloc::Global;
use std::process::Abort;

/// Where the data region of the tests begins.
pub(super) const DATA: u32 = 0x0180_0000;

/// The data region of the tests.
pub(super) const REGION: Region = Region {
    base: DATA,
    size: 256,
};

/// A host that answers each call alike: it writes 7 to the caller's data byte at address a0, if
/// there is one, sets a0 to `number`, and ends the caller's turn.
#[derive(Clone, Copy)]
struct Marker {
    number: u32,
}

impl Gates for Marker {
    ghost use Rattle.std.specs.Prelude.{false, is_some, if◌then◌else◌};
    ghost use Rattle.std.specs.FinMap.{insert};
    ghost use Rattle.rv_mem.specs.Bytes.{byte_at};

    ghost answer = { λ s c. record {
      reply = record {
        way = Yield;
        a0 = s.number;
        a1 = c.a1;
        bytes = if is_some (byte_at c.bytes c.a0) then insert c.bytes c.a0 7 else c.bytes;
      };
      host = s;
    } };

    ghost may_refuse = { λ s c. false };

    /// Does what `answer` says, which is proved: a change of one needs the same of the other.
    fn call<M: Memory>(&mut self, guest: &mut Guest<'_, M>) -> GateAnswer {
        guest.put_byte(guest.arg0(), 7);
        guest.set0(self.number);
        GateAnswer::Yield
    }
}

/// A memory with the data region `REGION`, which begins with the bytes of `front`, and one more
/// byte on each side, 1 and 2, that no guest may reach.
pub(super) fn memory(rt: &impl Abort, alloc: Global, front: &[u8]) -> Segments
    requires { length front.now ≤ 256 }
    ensures { IsWhole (record { base = 25165824; size = 256 })
        (bytes_in (record { base = 25165824; size = 256 }) (bytes_of result)) }
{
    let mut memory = Segments::new(alloc);
    assert_eq!(rt; memory.add(DATA - 1, 1, &[1]), Ok(()));
    assert_eq!(rt; memory.add(DATA + 256, 1, &[2]), Ok(()));
    memory.add(DATA, 256, front).expect(rt, "room");
    memory
}

/// Has the host `gates` answer a call by a sandbox whose data is `REGION` of `memory`. Gives the
/// answer, and a0 and a1 after it.
pub(super) fn call<G: Gates>(
    gates: &mut G,
    memory: &mut Segments,
    request: Request,
) -> (GateAnswer, u32, u32)
    requires { IsWhole (record { base = 25165824; size = 256 })
        (bytes_in (record { base = 25165824; size = 256 }) (bytes_of memory.old)) }
    ensures { IsWhole (record { base = 25165824; size = 256 })
        (bytes_in (record { base = 25165824; size = 256 }) (bytes_of memory.new)) }
{
    let mut guest = Guest::new(memory, REGION, request);
    let answer = gates.call(&mut guest);
    (answer, guest.arg0(), guest.arg1())
}

/// A call of a service by its number, with these a0 and a1, by the sandbox of this number at its
/// gate 0.
pub(super) fn request(sandbox: u32, service: u32, a0: u32, a1: u32) -> Request {
    Request {
        sandbox,
        gate: 0,
        service,
        a0,
        a1,
    }
}

/// A guest tells what is asked, gives and takes single bytes of the data region, and refuses the
/// addresses beside it. a0 and a1 are as they were set last.
#[test]
fn a_guest_reaches_its_data_alone(rt: HostRuntime) {
    let mut memory = memory(&rt, rt.alloc(), &[72, 105]);
    let mut guest = Guest::new(&mut memory, REGION, request(3, 1, DATA, 2));
    assert_eq!(rt; (guest.sandbox(), guest.service()), (3, 1));
    assert_eq!(rt; (guest.arg0(), guest.arg1()), (DATA, 2));
    assert_eq!(rt;
        (guest.byte(DATA + 1), guest.byte(DATA + 255)),
        (Some(105), Some(0))
    );
    assert_eq!(rt;
        (guest.byte(DATA - 1), guest.byte(DATA + 256)),
        (None, None)
    );
    assert!(rt; !guest.put_byte(DATA - 1, 9));
    assert!(rt; guest.put_byte(DATA + 255, 9));
    assert!(rt; !guest.put_byte(DATA + 256, 9));
    guest.set0(5);
    guest.set1(6);
    assert_eq!(rt; (guest.arg0(), guest.arg1()), (5, 6));
    assert_eq!(rt; guest.byte(DATA + 255), Some(9));
}

/// Several bytes are read or written together, or none where one lies outside the data region.
#[test]
fn a_guest_copies_its_data(rt: HostRuntime) {
    let mut memory = memory(&rt, rt.alloc(), &[72, 105]);
    let mut guest = Guest::new(&mut memory, REGION, request(3, 1, DATA, 2));
    assert_eq!(rt; guest.data_region(), REGION);
    let mut bytes = [9, 9, 9];
    assert!(rt; !guest.read(DATA - 1, &mut bytes));
    assert!(rt; !guest.read(DATA + 254, &mut bytes));
    assert_eq!(rt; bytes, [9, 9, 9]);
    assert!(rt; guest.read(DATA, &mut bytes));
    assert_eq!(rt; bytes, [72, 105, 0]);
    assert!(rt; guest.write(DATA + 253, &[1, 2, 3]));
    assert!(rt; !guest.write(DATA + 254, &[4, 5, 6]));
    assert!(rt; guest.read(DATA + 253, &mut bytes));
    assert_eq!(rt; bytes, [1, 2, 3]);
    assert!(rt; guest.read(0, &mut []));
}

/// `Marker` answers, marks the byte and leaves a1 and the byte before it.
#[test]
fn a_host_of_a_few_lines_answers(rt: HostRuntime) {
    let mut memory = memory(&rt, rt.alloc(), &[72, 105]);
    let mut marker = Marker { number: 4 };
    let answer = call(&mut marker, &mut memory, request(0, 1, DATA + 1, 2));
    assert_eq!(rt; answer, (GateAnswer::Yield, 4, 2));
    assert_eq!(rt; memory.load(DATA, Width::Two), Some(0x0748));
}
