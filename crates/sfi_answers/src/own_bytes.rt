//! An image's own bytes, read in pieces.

ghost use Rattle.std.specs.Prelude.{◌≡◌, ◌≤◌, ◌-◌};
ghost use Rattle.sfi_io.specs.Hexadecimal.{limit};
ghost use Rattle.sfi_answers.specs.private.{own_to_come};

use crate::pieces::PieceReader;
use sfi_io::{INPUT_LIMIT, TextStop};
use std::io::Read;

/// How many bytes `to_end` reads at a time, which it doesn't keep. They lie on the stack.
const PIECE: usize = 8192;

/// A reader's bytes, as far as they keep the limit. Every error of the reader is a failure: none is
/// tried again.
#[derive(Drop)]
pub(crate) struct OwnBytes<'a, R: Read> {
    reader: &'a mut R,
    // How many bytes were read.
    read: usize,
    ghost fewer: { read ≤ limit },
}

impl<'a, R: Read> OwnBytes<'a, R> {
    /// What comes of this reader from here on, as an image's own bytes, not digits that spell them; none
    /// counts against the limit yet.
    pub(crate) fn new(reader: &'a mut R) -> Self
        ensures { own_to_come result.read (R.remaining result.reader.now)
            ≡ own_to_come 0 (R.remaining reader.old) }
    {
        OwnBytes { reader, read: 0 }
    }
}

impl<'a, R: Read> PieceReader for OwnBytes<'a, R> {
    ghost comes = { λ s. own_to_come s.read (R.remaining s.reader.now) };

    ghost most = { λ s. limit - s.read };

    fn next_bytes(&mut self, buf: &mut [u8]) -> Result<usize, TextStop> {
        let Ok(count) = self.reader.read(buf) else {
            return Err(TextStop::Failed);
        };
        if count > INPUT_LIMIT - self.read {
            return Err(TextStop::TooLarge);
        }
        self.read += count;
        Ok(count)
    }

    fn to_end(&mut self) -> Result<(), TextStop> {
        let mut unused = [0; PIECE];
        loop {
            match self.next_bytes(&mut unused) {
                Ok(0) => return Ok(()),
                Ok(_) => {}
                Err(stop) => return Err(stop),
            }
        }
    }
}
