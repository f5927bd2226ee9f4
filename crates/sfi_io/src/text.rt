//! Hexadecimal text that is read in pieces.

ghost use Rattle.std.specs.Prelude.{◌≤◌, ◌+◌, ◌-◌};
ghost use Rattle.sfi_io.specs.Hexadecimal.{limit};

use crate::front::{decode_front, pair_fault};
use crate::hexadecimal::{HexFault, digits_in};
use crate::streams::INPUT_LIMIT;
use std::io::Read;

/// How many bytes of a text are held at a time, at most: 252 lines of 64 digits, each with its end.
const PIECE: usize = 16380;

/// Why a text that is read gives no more bytes.
#[derive(Clone, Copy)]
pub enum TextStop {
    /// The text spells no bytes.
    Fault(HexFault),
    /// The text passes the limit.
    TooLarge,
    /// A read failed.
    Failed,
}

/// What is held of a text: the bytes of one piece from `at` up to `end`.
#[derive(Drop)]
struct HeldText {
    piece: [u8; PIECE],
    at: usize,
    end: usize,
    // How many bytes of text were read, and how many bytes they made.
    read: usize,
    made: usize,
    // A byte that was read as a pair's first digit, and waits for the second.
    high: Option<u8>,
    ghost inside: { (at ≤ end) × (end ≤ 16380) },
    ghost fewer: { (made + (end - at) ≤ read) × (read ≤ limit) },
}

/// The bytes that a reader's text spells, decoded as it is read: of the text one piece is held. Every
/// error of the reader is a failure: none is tried again.
#[derive(Drop)]
pub struct HexReader<'a, R: Read> {
    reader: &'a mut R,
    held: HeldText,
}

impl<'a, R: Read> HexReader<'a, R> {
    ghost use Rattle.std.specs.Prelude.{◌≡◌, ◌<◌, ◌⊎◌, ℕ, [], Some, Ok, Err, IfErr, IfOk, IfSome, IsOk, length, option_map, take};
    ghost use Rattle.sfi_io.specs.Pieces.{ahead, most_to_come, outcome, start_of, to_come, Leads};
    ghost use Rattle.sfi_io.specs.private.{AreLeft, ComesNoPair, GoesOn, IsOver, IsReadStop, IsStopOf};

    /// A decoder over this reader.
    pub fn new(reader: &'a mut R) -> Self
        ensures { to_come R.remaining result
            ≡ option_map (λ text. outcome (start_of text)) (R.remaining reader.old) }
    {
        HexReader {
            reader,
            held: HeldText {
                piece: [0; PIECE],
                at: 0,
                end: 0,
                read: 0,
                made: 0,
                high: None,
            },
        }
    }

    /// Reads the next piece of the text, where all that is held was decoded, and says how many
    /// bytes it has: 0 at the text's end.
    fn fill(&mut self) -> Result<usize, TextStop>
        requires { self.old.held.at ≡ self.old.held.end }
        ensures same { IfOk result (λ n. GoesOn (ahead R.remaining self.old)
            (ahead R.remaining self.new) []) }
        ensures high { self.new.held.high ≡ self.old.held.high }
        ensures made { self.new.held.made ≡ self.old.held.made }
        ensures read { IfOk result (λ n. self.new.held.read ≡ self.old.held.read + n) }
        ensures held { IfOk result (λ n. self.new.held.end ≡ self.new.held.at + n) }
        ensures over { IfOk result (λ n. n ≡ 0
            → IsOver (ahead R.remaining self.new) self.new.held.high) }
        ensures stop { IfErr result (λ stop. IfSome (ahead R.remaining self.old) (IsReadStop stop)) }
    {
        let Ok(count) = self.reader.read(&mut self.held.piece) else {
            return Err(TextStop::Failed);
        };
        if count > INPUT_LIMIT - self.held.read {
            return Err(TextStop::TooLarge);
        }
        let held = &mut self.held;
        held.at = 0;
        held.end = count;
        held.read += count;
        Ok(count)
    }

    /// Reads the text to its end, and says how many bytes that are no white space were left,
    /// counting a digit that waits. It is for a fault, which wants to know whether the number is
    /// odd.
    fn digits_left(&mut self) -> Result<usize, TextStop>
        ensures left { IfOk result (λ count. AreLeft (ahead R.remaining self.old) count) }
        ensures stop { IfErr result (λ stop. IfSome (ahead R.remaining self.old) (IsReadStop stop)) }
    {
        let mut count = usize::from(self.held.high.is_some());
        loop {
            count += digits_in(&self.held.piece[self.held.at..self.held.end]);
            self.held.at = self.held.end;
            match self.fill() {
                Ok(0) => return Ok(count),
                Ok(_) => {}
                Err(stop) => return Err(stop),
            }
        }
    }

    /// The fault of a text in which the digit that waits and the next byte are no pair. The text is
    /// read to its end, since an odd number of digits goes first.
    #[cold]
    fn fault(&mut self) -> TextStop
        requires { (high : ℕ) × (low : ℕ) × (self.old.held.high ≡ Some high)
            × ComesNoPair (ahead R.remaining self.old) high low }
        ensures { IfSome (ahead R.remaining self.old) (IsStopOf result) }
    {
        let high = self.held.high;
        let made = self.held.made;
        match self.digits_left() {
            Ok(count) => TextStop::Fault(pair_fault(high, made, count)),
            Err(stop) => stop,
        }
    }

    /// The answer at the text's end: `Ok(0)`, or the fault that a digit waits for its second.
    fn end(&self) -> Result<usize, TextStop>
        requires { IsOver (ahead R.remaining self.now) self.now.held.high }
        ensures none { IfOk result (λ n. n ≡ 0) }
        ensures end { IfOk result
            (λ n. IfSome (to_come R.remaining self.now) (λ r. r ≡ Ok [])) }
        ensures stop { IfErr result (λ stop. IfSome (ahead R.remaining self.now) (IsStopOf stop)) }
    {
        match self.held.high {
            None => Ok(0),
            Some(_) => Err(TextStop::Fault(HexFault::Odd)),
        }
    }

    /// Decodes held bytes, and writes what they spell to the front of `buf`. Says how many bytes
    /// that is: it stops where `buf` is full, where nothing is held any more, or before two bytes
    /// that are no pair.
    fn decode_held(&mut self, buf: &mut [u8]) -> usize
        ensures bound { result ≤ length buf.new }
        ensures size { length buf.new ≡ length buf.old }
        ensures on { GoesOn (ahead R.remaining self.old) (ahead R.remaining self.new)
            (take result buf.new) }
        ensures made { self.new.held.made ≡ self.old.held.made + result }
        ensures read { self.new.held.read ≡ self.old.held.read }
        ensures stops { self.new.held.at < self.new.held.end → (result ≡ length buf.new)
            ⊎ ((high : ℕ) × (low : ℕ) × (self.new.held.high ≡ Some high)
            × ComesNoPair (ahead R.remaining self.new) high low) }
    {
        let front = decode_front(
            self.held.high,
            &self.held.piece[self.held.at..self.held.end],
            buf,
        );
        self.held.at += front.taken;
        self.held.made += front.made;
        self.held.high = front.high;
        front.made
    }

    /// Writes the next bytes to the front of `buf`, and says how many: none only at the text's end,
    /// unless `buf` is empty. A text is read to its end or past its limit before a fault of it is said,
    /// and no more is to be read of it then.
    pub fn read_bytes(&mut self, buf: &mut [u8]) -> Result<usize, TextStop>
        ensures bound { IfOk result (λ n. n ≤ length buf.new) }
        ensures size { length buf.new ≡ length buf.old }
        ensures bytes { IfOk result (λ n. Leads (to_come R.remaining self.old)
            (to_come R.remaining self.new) (take n buf.new)) }
        ensures end { IfOk result (λ n. n ≡ 0 → 0 < length buf.new
            → IfSome (to_come R.remaining self.new) (λ r. r ≡ Ok [])) }
        ensures stop { IfErr result
            (λ stop. Leads (to_come R.remaining self.old) (Some (Err stop)) []) }
        ensures fewer { IfOk result (λ n. most_to_come self.new + n ≤ most_to_come self.old) }
    {
        loop {
            let count = self.decode_held(buf);
            if count > 0 || buf.is_empty() {
                return Ok(count);
            }
            if self.held.at < self.held.end {
                return Err(self.fault());
            }
            match self.fill() {
                Ok(0) => return self.end(),
                Ok(_) => {}
                Err(stop) => return Err(stop),
            }
        }
    }

    /// Reads the text to its end, drops what it spells, and says its fault, if it has one.
    pub fn read_rest(&mut self) -> Result<(), TextStop>
        ensures spelled { IfOk result (λ _. IfSome (to_come R.remaining self.old) (λ r. IsOk r)) }
        ensures stop { IfErr result
            (λ stop. Leads (to_come R.remaining self.old) (Some (Err stop)) []) }
    {
        let mut unused = [0; PIECE / 2];
        loop {
            match self.read_bytes(&mut unused) {
                Ok(0) => return Ok(()),
                Ok(_) => {}
                Err(stop) => return Err(stop),
            }
        }
    }
}
