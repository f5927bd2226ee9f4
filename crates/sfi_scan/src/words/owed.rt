//! What is owed, the state of a scan of code in words: what the next instruction has to do
//! (`Owed`), because an earlier one wrote a data register or x30. Each function says what the
//! definition of about the same name in specs/words/Rules or specs/words/Findings of `sfi_rules`
//! does. `format` says which registers are data registers, and whether masks have two steps or one.
ghost use Rattle.std.specs.Prelude.{◌≡◌};
ghost use Rattle.rv_word.specs.Outlines.{destination};
ghost use Rattle.sfi_rules.specs.words.Rules.{left, owed_by_mask, owed_by_data, owed_by_code, owed_by, joined, is_of_data, is_of_code};
ghost use Rattle.sfi_rules.specs.words.Findings.{fails_data, fails_code, is_data_one};

use crate::before::is_masking;
use crate::rules::is_jump;
use crate::words::rules::{is_code_placing, is_data_masking, is_data_placing, is_pointer_step};
use rv_word::Instr;
use sfi_formats::{CODE_MASK_REGISTER, CODE_REGISTER, Format};
use sfi_pairs::{is_data_register_in, is_use};
use sfi_rules::Owed;

/// Whether what is owed follows a write of a data register.
fn is_owed_by_data(owed: Owed) -> bool
    ensures { result ≡ is_of_data owed }
{
    matches!(
        owed,
        Owed::Mask(_) | Owed::PlaceOnly(_) | Owed::MaskOrUse(_)
    )
}

/// Whether what is owed follows a write of the code register.
fn is_owed_by_code(owed: Owed) -> bool
    ensures { result ≡ is_of_code owed }
{
    matches!(owed, Owed::Code)
}

/// What is owed after the first step of the mask of data register `d`: that it is placed, where a
/// mask has two steps, else nothing.
fn owed_by_mask(format: Format, d: u8) -> Owed
    ensures { result ≡ owed_by_mask format d }
{
    if format.has_single_mask() {
        Owed::Nothing
    } else {
        Owed::PlaceOnly(d)
    }
}

/// What is left of `owed` after the instruction: nothing if it does what is owed, or the second
/// step of a mask; `None` if it doesn't, which breaks V10 or V11. `left` of specs/words/Rules.
fn owed_still(format: Format, owed: Owed, instr: &Instr) -> Option<Owed>
    ensures { result ≡ left format owed instr.now }
{
    match owed {
        Owed::Nothing => Some(Owed::Nothing),
        Owed::Mask(d) => is_data_masking(format, d, instr).then_some(owed_by_mask(format, d)),
        Owed::PlaceOnly(d) => is_data_placing(format, d, instr).then_some(Owed::Nothing),
        Owed::MaskOrUse(d) => {
            if is_data_masking(format, d, instr) {
                Some(owed_by_mask(format, d))
            } else {
                is_use(d, instr).then_some(Owed::Nothing)
            }
        }
        Owed::Code => is_code_placing(instr).then_some(Owed::Nothing),
    }
}

/// What must come after `instr`, which writes data register `d`; `None` where nothing can make that
/// right, since it is a jump.
fn owed_by_data(format: Format, d: u8, instr: &Instr) -> Option<Owed>
    ensures { result ≡ owed_by_data format d instr.now }
{
    if is_data_placing(format, d, instr) {
        Some(Owed::Nothing)
    } else if is_jump(instr) {
        None
    } else if is_pointer_step(d, instr) {
        Some(Owed::MaskOrUse(d))
    } else {
        Some(Owed::Mask(d))
    }
}

/// What must come after `instr`, which writes the code register x30; `None` where nothing can make
/// that right, since it is no step of its mask.
fn owed_by_code(instr: &Instr) -> Option<Owed>
    ensures { result ≡ owed_by_code instr.now }
{
    if is_code_placing(instr) {
        Some(Owed::Nothing)
    } else if is_masking(CODE_MASK_REGISTER, CODE_REGISTER, instr) {
        Some(Owed::Code)
    } else {
        None
    }
}

/// What must come after the instruction, by the register that it writes; `None` where nothing can
/// make the write right.
pub(crate) fn owed_by(format: Format, instr: &Instr) -> Option<Owed>
    ensures { result ≡ owed_by format instr.now }
{
    match instr.writes() {
        None => Some(Owed::Nothing),
        Some(rd) => {
            if is_data_register_in(format, rd) {
                owed_by_data(format, rd.number(), instr)
            } else if rd.number() == CODE_REGISTER {
                owed_by_code(instr)
            } else {
                Some(Owed::Nothing)
            }
        }
    }
}

/// What an instruction makes of what is owed. `left` is what is left of what was owed before it,
/// `None` where it doesn't do that; `own` what must come after it by its own write, `None` where
/// nothing can make that right.
#[derive(Clone, Copy)]
pub(crate) struct Owing {
    left: Option<Owed>,
    own: Option<Owed>,
}

impl Owing {
    /// What the instruction makes of `owed`, which is owed before it.
    pub(crate) fn of(format: Format, owed: Owed, instr: &Instr) -> Owing
        ensures left { result.left ≡ left format owed instr.now }
        ensures own { result.own ≡ owed_by format instr.now }
    {
        Owing {
            left: owed_still(format, owed, instr),
            own: owed_by(format, instr),
        }
    }

    /// What is owed after the instruction, whether it did what was owed or not: what it writes
    /// itself counts anew. An instruction after which something is left writes x31 alone, and so
    /// asks for nothing itself.
    pub(crate) fn next(self) -> Owed
        ensures { result ≡ joined self.left self.own }
    {
        match self.left {
            None | Some(Owed::Nothing) => match self.own {
                None => Owed::Nothing,
                Some(own) => own,
            },
            Some(still) => still,
        }
    }
}

/// Whether the instruction breaks V10: it doesn't do what is owed by a write of a data register, or
/// writes one so that nothing can make it right. `owing` is what it makes of `owed`, which is owed
/// before it.
pub(crate) fn fails_data(format: Format, owed: Owed, owing: Owing, instr: &Instr) -> bool
    requires left { owing.left ≡ left format owed instr.now }
    requires own { owing.own ≡ owed_by format instr.now }
    ensures { result ≡ fails_data format owed instr.now }
{
    (is_owed_by_data(owed) && owing.left.is_none())
        || (writes_data(format, instr) && owing.own.is_none())
}

/// Whether the instruction breaks V11: it doesn't do what is owed by a write of x30, or writes it
/// so that nothing can make it right. `owing` is what it makes of `owed`, which is owed before it.
pub(crate) fn fails_code(format: Format, owed: Owed, owing: Owing, instr: &Instr) -> bool
    requires left { owing.left ≡ left format owed instr.now }
    requires own { owing.own ≡ owed_by format instr.now }
    ensures { result ≡ fails_code format owed instr.now }
{
    (is_owed_by_code(owed) && owing.left.is_none())
        || (instr.writes_register(CODE_REGISTER) && owing.own.is_none())
}

/// Whether the instruction writes a data register.
fn writes_data(format: Format, instr: &Instr) -> bool
    ensures { result ≡ is_data_one format (destination instr.now) }
{
    match instr.writes() {
        Some(rd) => is_data_register_in(format, rd),
        None => false,
    }
}
