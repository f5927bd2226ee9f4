//! The reply of a program that answers calls between turns.

use crate::gates::{GateAnswer, Gates};
use crate::guest::Guest;
use rv_mem::Memory;

/// A reply that is given to a sandbox that waits: a0 and a1, and a number if it is to stop.
#[derive(Clone, Copy, Debug, PartialEq, Eq)]
pub struct Later {
    pub a0: u32,
    pub a1: u32,
    pub exit: Option<u32>,
}

impl Gates for Later {
    ghost use Rattle.sfi_host.specs.Waiting.{later_answer, never};

    ghost answer = { later_answer };

    ghost may_refuse = { never };

    /// Gives the caller this a0 and a1, whatever it asks, and stops it where `exit` has a number.
    fn call<M: Memory>(&mut self, guest: &mut Guest<'_, M>) -> GateAnswer {
        guest.set0(self.a0);
        guest.set1(self.a1);
        match self.exit {
            None => GateAnswer::Replied,
            Some(number) => GateAnswer::Exit(number),
        }
    }
}
