//! Writing an instruction's bytes, low byte first.
ghost use Rattle.std.specs.Prelude.{◌≡◌, ◌↔◌, IsTrue};
ghost use Rattle.std.specs.Bool.{OnTrue, OnFalse};
ghost use Rattle.std.specs.Int.{w16, w32, to_le_bytes};
ghost use Rattle.rv_word.specs.Spelling.{spelling, InRange};
ghost use Rattle.rv_comp.specs.Fronts.{halfword_of};
ghost use Rattle.rv_comp.specs.Table.{allowed};

use crate::encode::encode16;
use crate::form::Form16;
use rv_word::{Instr, encode32};

/// Writes the instruction's word to `out`; false where a field is out of range, and then nothing
/// changed.
pub fn write_wide(instr: Instr, out: &mut [u8; 4]) -> bool
    ensures in_range { IsTrue result ↔ InRange instr }
    ensures written { OnTrue result (out.new ≡ to_le_bytes w32 (spelling instr)) }
    ensures kept { OnFalse result (out.new ≡ out.old) }
{
    if let Some(word) = encode32(instr) {
        *out = word.to_le_bytes();
        true
    } else {
        false
    }
}

/// Writes the form's halfword to `out`; false where its row doesn't allow a field, and then nothing
/// changed.
pub fn write_short(form: Form16, out: &mut [u8; 2]) -> bool
    ensures allowed { IsTrue result ↔ IsTrue (allowed form) }
    ensures written { OnTrue result (out.new ≡ to_le_bytes w16 (halfword_of form)) }
    ensures kept { OnFalse result (out.new ≡ out.old) }
{
    if let Some(halfword) = encode16(form) {
        *out = halfword.to_le_bytes();
        true
    } else {
        false
    }
}
