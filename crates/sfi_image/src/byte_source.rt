//! Where bytes come from, piece by piece.
ghost use Rattle.std.specs.Prelude.{◌≡◌, ℕ, ◌≤◌, ◌<◌, Bool, true, false, List, [], Option, Some, None, length, take, IfOk, OnErr};
ghost use Rattle.sfi_image.specs.Sources.{ReadsOf};

use std::io::Read;
use thiserror::Error;

/// A read failed.
#[derive(Clone, Copy, Debug, PartialEq, Eq, Error)]
#[error("a read failed")]
pub struct ReadFault;

/// What hands out bytes in pieces.
pub trait ByteSource {
    // One read: the source before, the length of the buffer, the bytes handed out or None where it
    // failed, and the source after.
    ghost reads: { Self → ℕ → Option (List ℕ) → Self → Type 0 };

    // Whether a read has failed.
    ghost has_failed: { Self → Bool };

    /// Hands out bytes at the front of the buffer, and says how many: none is the end,
    /// unless the buffer is empty.
    fn read_some(&mut self, buf: &mut [u8]) -> Result<usize, ReadFault>
        ensures bound { IfOk result (λ n. n ≤ length buf.new) }
        ensures some { IfOk result (λ n.
            reads self.old (length buf.old) (Some (take n buf.new)) self.new) }
        ensures fault { OnErr result (reads self.old (length buf.old) None self.new) };

    /// Whether a read has failed so far.
    fn failed(&self) -> bool
        ensures { result ≡ has_failed self.now };

    // A read that fails says so from then on.
    ghost fails: { (s t : Self) (n : ℕ) → reads s n None t → has_failed t ≡ true };

    // A read that hands out bytes doesn't change whether one has failed.
    ghost stays: { (s t : Self) (n : ℕ) (bytes : List ℕ) → reads s n (Some bytes) t
        → has_failed t ≡ has_failed s };
}

/// A source over any reader. Each error of the reader is a fault, and none is tried again.
#[derive(Drop)]
pub struct ReaderSource<'a, R: Read> {
    reader: &'a mut R,
    failed: bool,
}

impl<'a, R: Read> ReaderSource<'a, R> {
    /// A source over this reader.
    pub fn new(reader: &'a mut R) -> Self
        ensures same_reference { result.reader.ghost_name ≡ reader.entry.ghost_name }
        ensures reader { R.remaining result.reader.now ≡ R.remaining reader.old }
        ensures failed { result.failed ≡ false }
    {
        ReaderSource {
            reader,
            failed: false,
        }
    }
}

impl<'a, R: Read> ByteSource for ReaderSource<'a, R> {
    ghost reads = { λ s n bytes t. ReadsOf (R.remaining s.reader.now) s.failed n bytes
        (R.remaining t.reader.now) t.failed };

    ghost has_failed = { λ s. s.failed };

    fn read_some(&mut self, buf: &mut [u8]) -> Result<usize, ReadFault> {
        match self.reader.read(buf) {
            Ok(count) => Ok(count),
            Err(_) => {
                self.failed = true;
                Err(ReadFault)
            }
        }
    }

    fn failed(&self) -> bool {
        self.failed
    }

    ghost fails = { λ s t n h. h.0 };

    ghost stays = { λ s t n bytes h. h.0 };
}
