//! The services of a console, and what it keeps of one sandbox.
ghost use Rattle.std.specs.Prelude.{◌≡◌, ◌<◌, ◌↔◌, IsTrue, length, take, drop};
ghost use Rattle.std.specs.Bool.{OnTrue, OnFalse};
ghost use Rattle.sfi_host.specs.Hosts.{IsAnswered, IsRefused, LeavesOthers};
ghost use Rattle.sfi_host.specs.Hosts.{HasData, SameMemory};
ghost use Rattle.sfi_host.specs.Consoles.{new_session, appended, put, get, has_bytes, most_messages, with_message, take_message, serve, may_want};

use crate::gates::GateAnswer;
use crate::guest::Guest;
use crate::handover::{append, may_hand, refuse};
use crate::message::Message;
use arrayvec::ArrayVec;
use rv_mem::Memory;
use std::alloc::Global;
use std::marker::Model;

// The services, by the numbers that a gate asks with. docs/GATES.md says what each does, and
// specs/Consoles has the same numbers and limits.
pub const EXIT: u32 = 0;

/// The service that writes.
pub const PUT: u32 = 1;

/// The service that reads.
pub const GET: u32 = 2;

pub const YIELD: u32 = 3;

pub const POST: u32 = 4;

pub const TAKE: u32 = 5;

/// How many bytes an output may have.
const MOST_OUTPUT: usize = 1_048_576;

/// How many messages a mailbox may have.
const MOST_MESSAGES: usize = 16;

/// The output of a sandbox, how many bytes of the input it has read, and the messages in its
/// mailbox, which lie in the session itself.
#[derive(Drop)]
pub struct Session {
    output: Vec<u8>,
    input_read: usize,
    mailbox: ArrayVec<Message, MOST_MESSAGES>,
}

impl Model for Session {
    ghost use Rattle.sfi_host.specs.Consoles.{SessionState};

    ghost Value = { SessionState };

    ghost view = { λ s.
        record { output = s.output.items; input_read = s.input_read; mailbox = s.mailbox.items } };
}

/// At most `most` bytes of the input, from byte `input_read` on.
fn next_bytes(input: &[u8], input_read: usize, most: usize) -> &[u8]
    ensures { result.now ≡ take most (drop input_read input.now) }
{
    let rest = &input[input_read.min(input.len())..];
    &rest[..most.min(rest.len())]
}

impl Session {
    /// A session in which nothing is written, read or posted.
    pub(crate) fn new(alloc: Global) -> Session
        ensures { result ≡ new_session }
    {
        Session {
            output: Vec::new(alloc),
            input_read: 0,
            mailbox: ArrayVec::new(),
        }
    }

    /// The bytes that the sandbox has put.
    pub(crate) fn output(&self) -> &[u8]
        ensures { result.now ≡ self.now.output }
    {
        self.output.as_slice()
    }

    /// The service put: appends the caller's a1 data bytes from a0 on to its output, and a0 becomes
    /// a1. It is refused where these may not be handed over, or the output would be too long. `Memory`
    /// where memory ran out, and then nothing changed.
    fn put<M: Memory>(&mut self, guest: &mut Guest<'_, M>) -> GateAnswer
        requires has_data { HasData M.bytes guest.old }
        ensures same_reference { SameMemory guest.old guest.new }
        ensures others { LeavesOthers M.bytes guest.old guest.new }
        ensures answered { IsAnswered (put self.old) M.bytes guest.old guest.new self.new result }
        ensures refused { IsRefused (λ call. has_bytes (appended self.old call))
            M.bytes guest.old guest.new self.old self.new result }
    {
        let (at, count) = (guest.arg0(), guest.arg1());
        if self.output.len().saturating_add(count as usize) > MOST_OUTPUT || !may_hand(guest) {
            return refuse(guest);
        }
        if append(&mut self.output, guest, at, count).is_err() {
            return GateAnswer::Memory;
        }
        guest.set0(count);
        GateAnswer::Replied
    }

    /// The service get: writes the next bytes of the input, at most a1, to the caller's data from a0
    /// on, and a0 becomes their count, which is 0 at the input's end. It is refused where a1 bytes from
    /// a0 on may not be handed over.
    fn get<M: Memory>(&mut self, input: &[u8], guest: &mut Guest<'_, M>) -> GateAnswer
        requires has_data { HasData M.bytes guest.old }
        ensures same_reference { SameMemory guest.old guest.new }
        ensures others { LeavesOthers M.bytes guest.old guest.new }
        ensures replied { result ≡ GateAnswer.Replied }
        ensures answered { IsAnswered (get input.now self.old) M.bytes guest.old
            guest.new self.new result }
    {
        if !may_hand(guest) {
            return refuse(guest);
        }
        let next = next_bytes(input, self.input_read, guest.arg1() as usize);
        guest.put_bytes(guest.arg0(), next);
        guest.set0(next.len() as u32);
        self.input_read += next.len();
        GateAnswer::Replied
    }

    /// The service take: removes the oldest message from the mailbox. a0 becomes its word, and a1 its
    /// sender's number plus 1; both become 0 where the mailbox is empty.
    fn take<M: Memory>(&mut self, guest: &mut Guest<'_, M>) -> GateAnswer
        requires has_data { HasData M.bytes guest.old }
        ensures same_reference { SameMemory guest.old guest.new }
        ensures others { LeavesOthers M.bytes guest.old guest.new }
        ensures replied { result ≡ GateAnswer.Replied }
        ensures answered { IsAnswered (take_message self.old) M.bytes guest.old
            guest.new self.new result }
    {
        let (word, from) = match self.mailbox.pop_at(0) {
            Some(message) => (message.word, message.sender + 1),
            None => (0, 0),
        };
        guest.set0(word);
        guest.set1(from);
        GateAnswer::Replied
    }

    /// Appends a message to the mailbox; `false` where that is full, and then nothing changed.
    pub(crate) fn deliver(&mut self, message: Message) -> bool
        ensures room { IsTrue result ↔ length self.old.mailbox < most_messages }
        ensures delivered { OnTrue result (self.new ≡ with_message self.old message) }
        ensures full { OnFalse result (self.new ≡ self.old) }
    {
        self.mailbox.try_push(message).is_ok()
    }

    /// Serves put, get and take, and refuses all other services: exit, yield and post are served by the
    /// console. `input` is all of the console's input; a session keeps how much of it was read.
    pub(crate) fn serve<M: Memory>(&mut self, input: &[u8], guest: &mut Guest<'_, M>) -> GateAnswer
        requires has_data { HasData M.bytes guest.old }
        ensures same_reference { SameMemory guest.old guest.new }
        ensures others { LeavesOthers M.bytes guest.old guest.new }
        ensures answered { IsAnswered (serve input.now self.old) M.bytes guest.old
            guest.new self.new result }
        ensures refused { IsRefused (may_want self.old) M.bytes guest.old guest.new
            self.old self.new result }
    {
        match guest.service() {
            PUT => self.put(guest),
            GET => self.get(input, guest),
            TAKE => self.take(guest),
            _ => refuse(guest),
        }
    }
}
