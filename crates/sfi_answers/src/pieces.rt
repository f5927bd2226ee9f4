//! The command `check` on bytes that are read in pieces.

ghost use Rattle.std.specs.Prelude.{◌≡◌, ◌<◌, ◌≤◌, ◌+◌, ℕ, List, [], Option, Some, Result, Ok, Err, IfErr, IfOk, IfSome, IsOk, length, take};
ghost use Rattle.sfi_io.specs.Pieces.{Leads, most_to_come, to_come};
ghost use Rattle.sfi_io.specs.declared.text.TextStop.{TextStop};
ghost use Rattle.sfi_answers.specs.private.{HandsOut, SaysOf, IsLineOf, is_stopped, known};

use crate::fault::{InputFault, Stop, stop_answer};
use crate::raw::stream_answer;
use crate::verdict::Answer;
use sfi_check::check_stream;
use sfi_image::{ByteSource, ReadFault};
use sfi_io::{HexReader, ReadStop, TextStop};
use std::alloc::Global;
use std::io::Read;

/// What gives bytes in pieces, up to a limit of its input.
pub(crate) trait PieceReader: Drop {
    // What is known to come: the bytes, or why there are none.
    ghost comes: { Self → Option (Result (List ℕ) TextStop) };

    // An upper bound of the number of bytes that are to come.
    ghost most: { Self → ℕ };

    /// Writes the next bytes to the front of `buf`, and says how many: none only at the end, unless
    /// `buf` is empty. After a stop no more is to be read.
    fn next_bytes(&mut self, buf: &mut [u8]) -> Result<usize, TextStop>
        ensures bound { IfOk result (λ n. n ≤ length buf.new) }
        ensures size { length buf.new ≡ length buf.old }
        ensures bytes { IfOk result (λ n. Leads (comes self.old) (comes self.new) (take n buf.new)) }
        ensures end { IfOk result (λ n. n ≡ 0 → 0 < length buf.new
            → IfSome (comes self.new) (λ r. r ≡ Ok [])) }
        ensures stop { IfErr result (λ stop. Leads (comes self.old) (Some (Err stop)) []) }
        ensures fewer { IfOk result (λ n. most self.new + n ≤ most self.old) };

    /// Reads to the end, drops what comes, and says why the end can't be reached, if it can't.
    fn to_end(&mut self) -> Result<(), TextStop>
        ensures spelled { IfOk result (λ _. IfSome (comes self.old) (λ r. IsOk r)) }
        ensures stop { IfErr result (λ stop. Leads (comes self.old) (Some (Err stop)) []) };
}

impl<'a, R: Read> PieceReader for HexReader<'a, R> {
    ghost comes = { λ s. to_come R.remaining s };

    ghost most = { λ s. most_to_come s };

    fn next_bytes(&mut self, buf: &mut [u8]) -> Result<usize, TextStop> {
        self.read_bytes(buf)
    }

    fn to_end(&mut self) -> Result<(), TextStop> {
        self.read_rest()
    }
}

/// How far bytes were read.
#[derive(Clone, Copy)]
enum PieceState {
    Reading,
    /// Bytes were read up to their end, and nothing more is to be read.
    Ended,
    Stopped(TextStop),
}

/// Bytes that come in pieces, as the checker reads a stream. After a stop it gives no more, and
/// keeps the stop, since the checker is told only that a read failed.
#[derive(Drop)]
struct PieceSource<P: PieceReader> {
    pieces: P,
    state: PieceState,
}

impl<P: PieceReader> ByteSource for PieceSource<P> {
    ghost reads = { λ s n answer t. HandsOut (known s.state (P.comes s.pieces))
        (is_stopped s.state) n answer (known t.state (P.comes t.pieces))
        (is_stopped t.state) };

    ghost has_failed = { λ s. is_stopped s.state };

    fn read_some(&mut self, buf: &mut [u8]) -> Result<usize, ReadFault> {
        match self.state {
            PieceState::Reading => {}
            PieceState::Ended => return Ok(0),
            PieceState::Stopped(_) => return Err(ReadFault),
        }
        match self.pieces.next_bytes(buf) {
            Ok(count) => {
                if count == 0 && !buf.is_empty() {
                    self.state = PieceState::Ended;
                }
                Ok(count)
            }
            Err(stop) => {
                self.state = PieceState::Stopped(stop);
                Err(ReadFault)
            }
        }
    }

    fn failed(&self) -> bool {
        matches!(self.state, PieceState::Stopped(_))
    }

    ghost fails = { λ s t n h. h.failed };

    ghost stays = { λ s t n bytes h. h.failed };
}

impl<P: PieceReader> PieceSource<P> {
    ghost use Rattle.std.specs.Prelude.{[], Err, IfErr, IsOk, Some};
    ghost use Rattle.sfi_io.specs.Pieces.{Leads};
    ghost use Rattle.sfi_answers.specs.private.{known};

    /// Reads what the checker left, up to the end, and says why that can't be reached, if it can't:
    /// also where a read stopped before.
    fn end(&mut self) -> Result<(), TextStop>
        ensures spelled { IfOk result
            (λ _. IfSome (known self.old.state (P.comes self.old.pieces)) (λ r. IsOk r)) }
        ensures stop { IfErr result (λ stop. Leads
            (known self.old.state (P.comes self.old.pieces)) (Some (Err stop)) []) }
    {
        match self.state {
            PieceState::Reading => self.pieces.to_end(),
            PieceState::Ended => Ok(()),
            PieceState::Stopped(stop) => Err(stop),
        }
    }
}

/// The verdict on the image whose bytes come in these pieces. A fault of the input goes before it, so
/// that is read to its end or past its limit. Memory is taken for the line alone, however long the
/// input is.
pub(crate) fn pieces_answer<P: PieceReader>(alloc: Global, pieces: P) -> Result<Answer, ReadStop>
    ensures statuses { IfOk result (λ a. a.status ≤ 2) }
    ensures says { IfOk result (λ a. a.status < 2
        → IfSome (P.comes pieces) (λ r. SaysOf r a.status a.output.items)) }
    ensures line { IfOk result (λ a. a.status ≡ 2
        → IfSome (P.comes pieces) (λ r. IsLineOf r a.output.items)) }
{
    let mut source = PieceSource {
        pieces,
        state: PieceState::Reading,
    };
    let verdict = check_stream(&mut source);
    match source.end() {
        Ok(()) => stream_answer(alloc, verdict),
        Err(TextStop::Fault(fault)) => Ok(stop_answer(alloc, Stop::Input(InputFault::Hex(fault)))?),
        Err(TextStop::TooLarge) => Ok(stop_answer(alloc, Stop::Input(InputFault::TooLarge))?),
        Err(TextStop::Failed) => Err(ReadStop::Failed),
    }
}
