//! What one sandbox posts to another.

use std::marker::Model;

/// A word and the number of the sandbox that posted it.
#[derive(Clone, Copy, Debug, Default, PartialEq, Eq)]
pub struct Message {
    pub sender: u32,
    pub word: u32,
}

impl Model for Message {
    ghost use Rattle.std.specs.Prelude.{◌-◌, ◌^◌, ◌<◌};
    ghost use Rattle.sfi_host.specs.Consoles.{Message as Posted};

    ghost Value = { Posted };

    ghost view = { λ m. record { sender = m.sender; word = m.word } };

    // So the sender plus 1, which the service take answers (`session.rt`), is within a word.
    ghost invariant = { λ m. m.sender < 2 ^ 32 - 1 };

    ghost inverse = { λ m. record { sender = m.sender; word = m.word } };
}
