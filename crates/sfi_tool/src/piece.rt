//! The host that answers a get of `exec`: it hands over a piece of the input, which was read before.

use rv_mem::Memory;
use sfi_host::{GateAnswer, Gates, Guest};

/// A host that writes these bytes from its caller's a0 on, if they have room in its data, and answers
/// their number in a0, modulo 2^32. `serve_get` has tested the room before, so what `write` says is
/// dropped.
#[derive(Clone, Copy)]
pub struct Piece<'a> {
    pub bytes: &'a [u8],
}

impl Gates for Piece<'_> {
    ghost use Rattle.sfi_host.specs.Waiting.{never};
    ghost use Rattle.sfi_tool.specs.private.{piece_answer};

    ghost answer = { piece_answer };

    ghost may_refuse = { never };

    fn call<M: Memory>(&mut self, guest: &mut Guest<'_, M>) -> GateAnswer {
        guest.write(guest.arg0(), self.bytes);
        guest.set0((self.bytes.len() % 4294967296) as u32);
        GateAnswer::Replied
    }
}
