//! The store as a host.
ghost use Rattle.std.specs.Prelude.{◌≡◌};
ghost use Rattle.sfi_host.specs.Hosts.{IsAnswered, IsRefused, LeavesOthers};
ghost use Rattle.sfi_host.specs.Hosts.{HasData, SameMemory};
ghost use Rattle.example_host.specs.Store.{put, get, may_want};

use crate::store::Store;
use rv_mem::Memory;
use sfi_host::{GateAnswer, Gates, Guest};

/// The caller stops, with a0 as its number.
const EXIT: u32 = 0;

/// The key a0 gets the value a1.
const PUT: u32 = 1;

/// The caller gets the value of the key a0.
const GET: u32 = 2;

/// The caller goes on in its next turn.
const YIELD: u32 = 3;

/// a0 after a put.
const DONE: u32 = 0;

/// a0 after a put of a new key to a full store.
const FULL: u32 = 1;

/// a0 after a call of any other service.
const FAILED: u32 = u32::MAX;

impl Store {
    /// The service put: the key in a0 gets the value in a1, and a0 becomes `DONE` or `FULL`. `Memory`
    /// where memory ran out, and then nothing changed.
    fn serve_put<M: Memory>(&mut self, guest: &mut Guest<'_, M>) -> GateAnswer
        requires has_data { HasData M.bytes guest.old }
        ensures same_reference { SameMemory guest.old guest.new }
        ensures others { LeavesOthers M.bytes guest.old guest.new }
        ensures answered { IsAnswered (put self.old) M.bytes guest.old guest.new self.new result }
        ensures refused { IsRefused (may_want self.old) M.bytes guest.old guest.new
            self.old self.new result }
    {
        match self.put(guest.arg0(), guest.arg1()) {
            Ok(true) => guest.set0(DONE),
            Ok(false) => guest.set0(FULL),
            Err(_) => return GateAnswer::Memory,
        }
        GateAnswer::Replied
    }

    /// The service get: a0 becomes the value of the key in a0, and a1 becomes 1; or both become 0
    /// where the key has no value.
    fn serve_get<M: Memory>(&mut self, guest: &mut Guest<'_, M>) -> GateAnswer
        requires has_data { HasData M.bytes guest.old }
        ensures same_reference { SameMemory guest.old guest.new }
        ensures others { LeavesOthers M.bytes guest.old guest.new }
        ensures replied { result ≡ GateAnswer.Replied }
        ensures answered { IsAnswered (get self.old) M.bytes guest.old guest.new self.new result }
    {
        let (value, found) = match self.value(guest.arg0()) {
            Some(value) => (value, 1),
            None => (0, 0),
        };
        guest.set0(value);
        guest.set1(found);
        GateAnswer::Replied
    }
}

impl Gates for Store {
    ghost use Rattle.example_host.specs.Store.{store, store_may_refuse};

    ghost answer = { store };

    ghost may_refuse = { store_may_refuse };

    fn call<M: Memory>(&mut self, guest: &mut Guest<'_, M>) -> GateAnswer {
        match guest.service() {
            EXIT => GateAnswer::Exit(guest.arg0()),
            PUT => self.serve_put(guest),
            GET => self.serve_get(guest),
            YIELD => GateAnswer::Yield,
            _ => {
                guest.set0(FAILED);
                GateAnswer::Replied
            }
        }
    }
}
