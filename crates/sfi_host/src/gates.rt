//! What a host is.
ghost use Rattle.std.specs.Prelude.{Bool};
ghost use Rattle.sfi_host.specs.Hosts.{Call, Answer};
ghost use Rattle.sfi_host.specs.Hosts.{HasData, SameMemory};

use crate::guest::Guest;
use rv_mem::Memory;

/// How a caller goes on.
#[derive(Clone, Copy, Debug, PartialEq, Eq)]
pub enum GateAnswer {
    /// It goes on after the call.
    Replied,
    /// It goes on after the call, in its next turn.
    Yield,
    /// It has stopped, with this number.
    Exit(u32),
    /// It doesn't go on: the host has no memory for the reply, and nothing changed.
    Memory,
}

/// A host: it answers the calls of sandboxes. Implementations write their meaning down as `answer`,
/// a function from the host's state and what is asked to a reply and the state after it, and as
/// `may_refuse`, a test on the same values that says whether memory may run out. That `call`
/// changes nothing but the caller's a0, a1 and data region comes from the calls of [`Guest`] alone.
pub trait Gates {
    ghost use Rattle.sfi_host.specs.Hosts.{IsAnswered, IsRefused, LeavesOthers};

    ghost answer: { Self → Call → Answer Self };

    ghost may_refuse: { Self → Call → Bool };

    /// Answers a call: `guest` shows what is asked, and by it the host reads and writes the caller's
    /// a0, a1 and data. The result says how the caller goes on.
    fn call<M: Memory>(&mut self, guest: &mut Guest<'_, M>) -> GateAnswer
        requires has_data { HasData M.bytes guest.old }
        ensures same_reference { SameMemory guest.old guest.new }
        ensures others { LeavesOthers M.bytes guest.old guest.new }
        ensures answered { IsAnswered (answer self.old) M.bytes guest.old
            guest.new self.new result }
        ensures refused { IsRefused (may_refuse self.old) M.bytes guest.old guest.new
            self.old self.new result };
}
