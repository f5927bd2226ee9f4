//! The host of `sfi run`.
ghost use Rattle.std.specs.Prelude.{◌≡◌, ◌<◌, IfOk, length};
ghost use Rattle.std.specs.Option.{option_map};
ghost use Rattle.sfi_host.specs.Hosts.{IsAnswered, LeavesOthers};
ghost use Rattle.sfi_host.specs.Consoles.{new_console, output_of, post};
ghost use Rattle.sfi_host.specs.Hosts.{asked, HasData, SameMemory};

use crate::gates::{GateAnswer, Gates};
use crate::guest::Guest;
use crate::handover::refuse;
use crate::message::Message;
use crate::session::{EXIT, POST, Session, YIELD};
use rv_mem::Memory;
use std::alloc::{AllocError, Global};
use std::marker::Model;

/// a0 after a post.
const POSTED: u32 = 0;

/// a0 after a post to a mailbox that is full.
const FULL: u32 = 1;

/// A host that keeps what each sandbox writes, lets each read the same input from its beginning, at
/// its own pace, and keeps a mailbox of at most 16 messages for each. docs/GATES.md lists its services
/// and says when they fail. All others are refused, which sets a0 to ffffffff and does nothing else,
/// and so are all but exit and yield of a caller whose number isn't below the count of sandboxes.
///
/// Only a put that appends bytes takes memory: the mailboxes' room is made with the console.
#[derive(Drop)]
pub struct Console {
    input: Vec<u8>,
    sessions: Vec<Session>,
}

impl Model for Console {
    ghost use Rattle.std.specs.Prelude.{◌<◌, ◌^◌, length};
    ghost use Rattle.sfi_host.specs.Consoles.{ConsoleState};

    ghost Value = { ConsoleState };

    ghost view = { λ c. record { input = c.input.items; sessions = c.sessions.items } };

    ghost invariant = { λ c. length c.sessions.items < 2 ^ 32 };
}

impl Console {
    /// A console for `sandboxes` sandboxes, numbered from 0, each of which reads `input`.
    pub fn new(alloc: Global, sandboxes: u32, input: &[u8]) -> Result<Console, AllocError>
        ensures { IfOk result (λ c. c ≡ new_console sandboxes input.now) }
    {
        let input = Vec::from_slice(alloc, input)?;
        let mut sessions = Vec::with_capacity(alloc, sandboxes as usize)?;
        for _ in 0..sandboxes {
            sessions.push(Session::new(alloc))?;
        }
        Ok(Console { input, sessions })
    }

    /// What a sandbox has written; `None` if there is no sandbox `sandbox`.
    pub fn output(&self, sandbox: u32) -> Option<&[u8]>
        ensures { option_map (λ bytes. bytes.now) result ≡ output_of self.now sandbox }
    {
        let session = self.sessions.get(sandbox as usize)?;
        Some(session.output())
    }

    /// The service post: appends the word in the caller's a1, with its number, to the mailbox of the
    /// sandbox whose number is in a0. a0 becomes `POSTED` or `FULL`; without such a sandbox the call is
    /// refused. The caller goes on in each case. `post` of specs/Consoles says the same.
    fn post<M: Memory>(&mut self, guest: &mut Guest<'_, M>) -> GateAnswer
        requires has_data { HasData M.bytes guest.old }
        requires known { (asked M.bytes guest.old).caller < length self.old.sessions }
        ensures same_reference { SameMemory guest.old guest.new }
        ensures others { LeavesOthers M.bytes guest.old guest.new }
        ensures replied { result ≡ GateAnswer.Replied }
        ensures answered { IsAnswered (post self.old) M.bytes guest.old guest.new self.new result }
    {
        let Some(session) = self.sessions.get_mut(guest.arg0() as usize) else {
            return refuse(guest);
        };
        let message = Message {
            sender: guest.sandbox(),
            word: guest.arg1(),
        };
        guest.set0(if session.deliver(message) {
            POSTED
        } else {
            FULL
        });
        GateAnswer::Replied
    }
}

impl Gates for Console {
    ghost use Rattle.sfi_host.specs.Consoles.{console, console_may_refuse};

    ghost answer = { console };

    ghost may_refuse = { console_may_refuse };

    /// Serves exit and yield to each caller, and the other services to those that it has a session
    /// of: a sandbox that was added to the world after the console was made has none.
    fn call<M: Memory>(&mut self, guest: &mut Guest<'_, M>) -> GateAnswer {
        match guest.service() {
            EXIT => return GateAnswer::Exit(guest.arg0()),
            YIELD => return GateAnswer::Yield,
            _ => {}
        }
        let caller = guest.sandbox() as usize;
        if caller >= self.sessions.len() {
            return refuse(guest);
        }
        if guest.service() == POST {
            return self.post(guest);
        }
        self.sessions[caller].serve(&self.input, guest)
    }
}
