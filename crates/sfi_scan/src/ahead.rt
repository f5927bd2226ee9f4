//! The instructions directly after a place.
ghost use Rattle.std.specs.Prelude.{◌≡◌, ◌+◌, ◌≤◌, List, []};
ghost use Rattle.sfi_scan.specs.private.Blocks.{ahead};
ghost use Rattle.sfi_rules.specs.Readings.{Piece, IsLongestReading};

use rv_comp::{Front, read_front};
use rv_word::Instr;

/// The two instructions directly after a place in its bundle, as far as there are: `first` is the
/// nearer one. V10 of the second format looks at them.
#[derive(Clone, Copy)]
pub(crate) struct Ahead {
    pub(crate) first: Option<Instr>,
    pub(crate) second: Option<Instr>,
}

/// The instruction that these bytes begin with; `None` where they are too few or don't decode.
fn first_instr(bytes: &[u8]) -> Option<Instr>
    ensures { (later : List Piece) → IsLongestReading bytes.now later →
        result ≡ (ahead later).first }
{
    match read_front(bytes) {
        Front::Read(instr, _) => Some(instr),
        Front::Short => None,
        Front::Bad => None,
    }
}

/// No instruction.
fn none_ahead() -> Ahead
    ensures { result ≡ ahead [] }
{
    Ahead {
        first: None,
        second: None,
    }
}

/// The first two instructions of `bytes`, which are all bytes of a bundle after some instruction.
pub(crate) fn read_ahead(bytes: &[u8]) -> Ahead
    ensures { (later : List Piece) → IsLongestReading bytes.now later → result ≡ ahead later }
{
    match read_front(bytes) {
        Front::Read(instr, size) => Ahead {
            first: Some(instr),
            second: first_instr(&bytes[size as usize..]),
        },
        Front::Short => none_ahead(),
        Front::Bad => none_ahead(),
    }
}
