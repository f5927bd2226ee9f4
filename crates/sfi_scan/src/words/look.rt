//! A first look at a word of code in words: whether it breaks no rule, and what is owed after it
//! (`Owed`: what the next instruction has to do, because a typed register was written).
//! It goes by the word's bits, and decodes only writes of typed registers outside data pairs, and
//! what follows a step (`addi d, d, k` of a data register d), so it is quick.
//!
//! A function that returns an option returns what is owed after the word, if it is seen to break no
//! rule, and else `None`: such a word may still break no rule, and is read exactly. `address` is
//! the word's own. No word here is its region's last. The definitions are in specs/private/Words.
ghost use Rattle.std.specs.Prelude.{◌≡◌, ◌+◌, ◌<◌, ◌==◌, ◌&&◌, ◌||◌, not, ℕ, true, false, IfSome, length, []};
ghost use Rattle.std.specs.Bool.{OnTrue};
ghost use Rattle.rv_word.specs.Spelling.{bits};
ghost use Rattle.rv_word.specs.Outlines.{IsWordThat};
ghost use Rattle.rv_word.specs.Spelling.{IsWordOf};
ghost use Rattle.rv_word.specs.declared.instr.Instr.TheVariants.{Op};
ghost use Rattle.rv_word.specs.declared.instr.RegOp.TheVariants.{And, Or};
ghost use Rattle.rv_word.specs.declared.outline.Outline.TheVariants.{Computes};
ghost use Rattle.sfi_image.specs.declared.bundle.BundlePlace.{BundlePlace};
ghost use Rattle.sfi_formats.specs.Formats.{has_single_mask, is_data_register, is_data_register_in};
ghost use Rattle.sfi_rules.specs.Readings.{IsWithin};
ghost use Rattle.sfi_rules.specs.declared.owed.Owed.TheVariants.{Nothing, Mask, MaskOrUse};
ghost use Rattle.sfi_rules.specs.words.Findings.{IsWordFound};
ghost use Rattle.sfi_scan.specs.private.Blocks.{is_zero};
ghost use Rattle.sfi_scan.specs.private.Words.{is_reserved_or_typed, is_clean_alone, IsQuietThere, IsBeforeEnd, IsCleanHalfAlone};

use crate::clean::{half_at, word_at};
use crate::rules::offset_by;
use crate::words::owed::owed_by;
use crate::words::rules::{is_access_base, is_word_start};
use rv_comp::outline16;
use rv_word::{
    Outline, Reg, RegOp, access32, computes32, decode32, op_word, outline_of, outline32,
};
use sfi_formats::{
    CODE_BASE_REGISTER, CODE_REGISTER, DATA_BASE_REGISTER, DATA_MASK_REGISTER, Format,
    OFFSET_REGISTER,
};
use sfi_pairs::{is_data_register, is_data_register_in, is_reserved, is_use};
use sfi_rules::{BundlePlace, Owed};

/// Whether the register is reserved or typed in the third or in the fourth format (x26 is reserved
/// in one, and typed in the other): a write of it has rules of its own, V4 and V10 to V12.
#[inline(always)]
fn is_reserved_or_typed(reg: Reg) -> bool
    ensures { result ≡ is_reserved_or_typed reg }
{
    is_reserved(reg)
        || is_data_register(reg)
        || reg.number() == CODE_REGISTER
        || reg.number() == OFFSET_REGISTER
}

/// Whether `jalr rd, imm(base)` of code in words, before which nothing is owed, is seen to break no
/// rule: `imm` is 0, `base` is x30, and `rd` is neither reserved nor typed.
#[inline(always)]
fn is_clean_indirect_jump_in_words(rd: Reg, base: Reg, imm: i32) -> bool
    ensures { OnTrue result ((not (is_reserved_or_typed rd) && (is_zero imm && (base == 30))) ≡ true) }
{
    if imm != 0 {
        return false;
    }
    if is_reserved_or_typed(rd) {
        return false;
    }
    base.number() == CODE_REGISTER
}

/// Whether an instruction with this outline at `address`, before which nothing is owed, breaks no
/// rule but perhaps V8, that of the region's end, and leaves nothing owed. A new rule has to make
/// this false where it may be broken.
#[inline(always)]
fn is_clean_alone(place: &BundlePlace, address: u32, outline: Outline) -> bool
    requires { IsWithin place.now }
    ensures { OnTrue result (is_clean_alone place.now address outline ≡ true) }
{
    match outline {
        Outline::Computes { rd } => !is_reserved_or_typed(rd),
        Outline::Loads { rd, base } => !is_reserved_or_typed(rd)
            && is_access_base(place.format, base),
        Outline::Stores { base } => is_access_base(place.format, base),
        Outline::Branches { offset } => is_word_start(place, offset_by(address, offset)),
        Outline::Jumps { rd, offset } => {
            !is_reserved_or_typed(rd) && is_word_start(place, offset_by(address, offset))
        }
        Outline::JumpsTo { rd, base, imm } => is_clean_indirect_jump_in_words(rd, base, imm),
        Outline::Orders | Outline::Stops => true,
        Outline::Calls => false,
    }
}

/// The register that bits 11:7 of the word name.
#[inline(always)]
fn rd_of(word: u32) -> Reg
    ensures { result ≡ bits word 11 7 }
{
    Reg::numbered((word >> 7 & 0b11111) as u8)
}

/// The register that the word's bits 19:15 name.
#[inline(always)]
fn rs1_of(word: u32) -> Reg {
    Reg::numbered((word >> 15 & 0b11111) as u8)
}

/// Whether the word is `and x31, a, x27`, by which x31 becomes an offset in the data.
#[inline(always)]
fn is_data_masking_word(a: Reg, word: u32) -> bool
    ensures { OnTrue result (IsWordOf word (Op And 31 a 27)) }
{
    let target = Reg::numbered(OFFSET_REGISTER);
    op_word(RegOp::And, target, a, Reg::numbered(DATA_MASK_REGISTER)) == word
}

/// Whether the word is `or d, x31, x26`, and d is a data register, whose mask has two steps in the
/// format.
#[inline(always)]
fn is_data_placing_word(format: Format, d: Reg, word: u32) -> bool
    ensures word { OnTrue result (IsWordOf word (Op Or d 31 26)) }
    ensures data { OnTrue result (is_data_register d ≡ true) }
    ensures two_steps { OnTrue result (has_single_mask format ≡ false) }
{
    if !is_data_register(d) {
        return false;
    }
    if format.has_single_mask() {
        return false;
    }
    let offset = Reg::numbered(OFFSET_REGISTER);
    op_word(RegOp::Or, d, offset, Reg::numbered(DATA_BASE_REGISTER)) == word
}

/// Whether the word is `and d, a, x27`, and d is a data register, whose mask is that one step in
/// the format.
#[inline(always)]
fn is_single_mask_word(format: Format, d: Reg, a: Reg, word: u32) -> bool
    ensures word { OnTrue result (IsWordOf word (Op And d a 27)) }
    ensures data { OnTrue result (is_data_register_in format d ≡ true) }
    ensures one_step { OnTrue result (has_single_mask format ≡ true) }
{
    if !format.has_single_mask() {
        return false;
    }
    if !is_data_register_in(format, d) {
        return false;
    }
    op_word(RegOp::And, d, a, Reg::numbered(DATA_MASK_REGISTER)) == word
}

/// What is owed after a word that computes into a data register or x30, where nothing is owed
/// before it: by the exact rule (`owed_by`).
fn after_typed(format: Format, word: u32) -> Option<Owed>
    requires computes { IsWordThat word (Computes (bits word 11 7)) }
    requires typed { (is_data_register_in format (bits word 11 7) || (bits word 11 7 == 30)) ≡ true }
    ensures { (b : BundlePlace) (at : ℕ) → b.format ≡ format → IsBeforeEnd b at 4 →
        IfSome result (IsQuietThere b at Nothing word) }
{
    match decode32(word) {
        Some(instr) => owed_by(format, &instr),
        None => None,
    }
}

/// What is owed after a word that computes into a reserved or typed register, where nothing is owed
/// before it. Not inlined, as most words compute into another.
#[inline(never)]
fn after_reserved_or_typed(format: Format, word: u32) -> Option<Owed>
    requires { IsWordThat word (Computes (bits word 11 7)) }
    ensures { (b : BundlePlace) (at : ℕ) → b.format ≡ format → IsBeforeEnd b at 4 →
        IfSome result (IsQuietThere b at Nothing word) }
{
    let rd = rd_of(word);
    let a = rs1_of(word);
    if is_data_masking_word(a, word) {
        return Some(Owed::Nothing);
    }
    if is_data_placing_word(format, rd, word) {
        return Some(Owed::Nothing);
    }
    if is_single_mask_word(format, rd, a, word) {
        return Some(Owed::Nothing);
    }
    if is_data_register_in(format, rd) || rd.number() == CODE_REGISTER {
        return after_typed(format, word);
    }
    None
}

/// [`is_clean_alone`] for a word with this outline at `address`; false where it has none.
#[inline(always)]
fn is_known_clean_alone(place: &BundlePlace, address: u32, outline: Option<Outline>) -> bool
    requires within { IsWithin place.now }
    requires before_end { IsBeforeEnd place.now address 4 }
    ensures { (word : ℕ) → IfSome outline (IsWordThat word) →
        OnTrue result (IsQuietThere place.now address Nothing word Nothing) }
{
    match outline {
        Some(outline) => is_clean_alone(place, address, outline),
        None => false,
    }
}

/// Whether the word is a jump or branch that breaks no rule and leaves nothing owed, where nothing
/// is owed before it. Each opcode has a call of its own, so that the compiler drops outlines that
/// it cannot have.
#[inline(always)]
pub(crate) fn is_clean_jump_word(place: &BundlePlace, address: u32, word: u32) -> bool
    requires within { IsWithin place.now }
    requires before_end { IsBeforeEnd place.now address 4 }
    ensures { OnTrue result (IsQuietThere place.now address Nothing word Nothing) }
{
    match word & 0b111_1111 {
        0b110_0011 => is_known_clean_alone(place, address, outline32(word)),
        0b110_0111 => is_known_clean_alone(place, address, outline32(word)),
        0b110_1111 => is_known_clean_alone(place, address, outline32(word)),
        _ => false,
    }
}

/// What is owed after a word that neither computes nor accesses memory, where nothing is owed
/// before it.
fn after_outline(place: &BundlePlace, address: u32, word: u32) -> Option<Owed>
    requires within { IsWithin place.now }
    requires before_end { IsBeforeEnd place.now address 4 }
    ensures { IfSome result (IsQuietThere place.now address Nothing word) }
{
    let Some(outline) = outline32(word) else {
        return None;
    };
    if !is_clean_alone(place, address, outline) {
        return None;
    }
    Some(Owed::Nothing)
}

/// What is owed after a word that isn't known to compute, where nothing is owed before it. Loads
/// and stores are tested first.
#[inline(always)]
fn after_other(place: &BundlePlace, address: u32, word: u32) -> Option<Owed>
    requires within { IsWithin place.now }
    requires before_end { IsBeforeEnd place.now address 4 }
    ensures { IfSome result (IsQuietThere place.now address Nothing word) }
{
    match access32(word) {
        Some(access) => {
            if is_reserved_or_typed(access.written) {
                return None;
            }
            if !is_access_base(place.format, access.base) {
                return None;
            }
            Some(Owed::Nothing)
        }
        None => after_outline(place, address, word),
    }
}

/// What is owed after a word before which nothing is owed. Most words compute, so this is tested
/// first.
#[inline(always)]
fn after_nothing(place: &BundlePlace, address: u32, word: u32) -> Option<Owed>
    requires within { IsWithin place.now }
    requires before_end { IsBeforeEnd place.now address 4 }
    ensures { IfSome result (IsQuietThere place.now address Nothing word) }
{
    if computes32(word) {
        if is_reserved_or_typed(rd_of(word)) {
            return after_reserved_or_typed(place.format, word);
        }
        return Some(Owed::Nothing);
    }
    after_other(place, address, word)
}

/// Whether the word is `and x31, d, x27`, and the mask of data register d has two steps in the
/// format.
fn is_data_masking_word_of(format: Format, d: u8, word: u32) -> bool
    ensures word { OnTrue result (IsWordOf word (Op And 31 d 27)) }
    ensures two_steps { OnTrue result (has_single_mask format ≡ false) }
{
    let a = rs1_of(word);
    if a.number() != d {
        return false;
    }
    if format.has_single_mask() {
        return false;
    }
    is_data_masking_word(a, word)
}

/// [`is_data_placing_word`] for the register that the word writes, which has to be d.
fn is_data_placing_word_of(format: Format, d: u8, word: u32) -> bool
    ensures word { OnTrue result (IsWordOf word (Op Or d 31 26)) }
    ensures data { OnTrue result (is_data_register d ≡ true) }
    ensures two_steps { OnTrue result (has_single_mask format ≡ false) }
{
    let rd = rd_of(word);
    if rd.number() != d {
        return false;
    }
    is_data_placing_word(format, rd, word)
}

/// What is owed after a word that is the first or only step of the mask of data register d, where
/// that is owed before it; `None` if it isn't.
#[inline(always)]
fn after_masking(format: Format, d: u8, word: u32) -> Option<Owed>
    ensures owed { (b : BundlePlace) (at : ℕ) → b.format ≡ format → IsBeforeEnd b at 4 →
        IfSome result (IsQuietThere b at (Mask d) word) }
    ensures or_used { (b : BundlePlace) (at : ℕ) → b.format ≡ format → IsBeforeEnd b at 4 →
        IfSome result (IsQuietThere b at (MaskOrUse d) word) }
{
    if is_data_masking_word_of(format, d, word) {
        return Some(Owed::PlaceOnly(d));
    }
    let rd = rd_of(word);
    if rd.number() != d {
        return None;
    }
    let a = rs1_of(word);
    if is_single_mask_word(format, rd, a, word) {
        return Some(Owed::Nothing);
    }
    None
}

/// Whether the word is `or x30, x30, x24`.
fn is_code_placing_word(word: u32) -> bool
    ensures { OnTrue result (IsWordOf word (Op Or 30 30 24)) }
{
    let code = Reg::numbered(CODE_REGISTER);
    op_word(RegOp::Or, code, code, Reg::numbered(CODE_BASE_REGISTER)) == word
}

/// Whether the word is a load or store on d that may follow a step of d, with a small offset, and
/// breaks no rule.
fn is_clean_use(place: &BundlePlace, address: u32, d: u8, word: u32) -> bool
    requires within { IsWithin place.now }
    requires before_end { IsBeforeEnd place.now address 4 }
    ensures { OnTrue result (IsQuietThere place.now address (MaskOrUse d) word Nothing) }
{
    let Some(instr) = decode32(word) else {
        return false;
    };
    if !is_use(d, &instr) {
        return false;
    }
    is_clean_alone(place, address, outline_of(instr))
}

/// What is owed after a word before which `owed`, which isn't nothing, is owed. Not inlined, since
/// few words get here.
#[inline(never)]
fn after_owed(place: &BundlePlace, address: u32, owed: Owed, word: u32) -> Option<Owed>
    requires within { IsWithin place.now }
    requires before_end { IsBeforeEnd place.now address 4 }
    ensures { IfSome result (IsQuietThere place.now address owed word) }
{
    match owed {
        Owed::Nothing => None,
        Owed::Mask(d) => after_masking(place.format, d, word),
        Owed::PlaceOnly(d) => {
            if !is_data_placing_word_of(place.format, d, word) {
                return None;
            }
            Some(Owed::Nothing)
        }
        Owed::MaskOrUse(d) => {
            if let Some(next) = after_masking(place.format, d, word) {
                return Some(next);
            }
            if !is_clean_use(place, address, d, word) {
                return None;
            }
            Some(Owed::Nothing)
        }
        Owed::Code => {
            if !is_code_placing_word(word) {
                return None;
            }
            Some(Owed::Nothing)
        }
    }
}

/// Whether the halfword at `address` is a 16-bit instruction that breaks no rule there, where
/// nothing is owed before it, and leaves nothing owed.
#[inline(always)]
fn is_clean_half_alone(place: &BundlePlace, address: u32, halfword: u16) -> bool
    requires { IsWithin place.now }
    ensures { OnTrue result (IsCleanHalfAlone place.now address halfword) }
{
    match outline16(halfword) {
        Some(outline) => is_clean_alone(place, address, outline),
        None => false,
    }
}

/// What is owed after the two halfwords of a word, where both are 16-bit instructions. `None`
/// wherever something is owed before them: the exact reading then decides.
#[inline(always)]
fn after_halves(place: &BundlePlace, address: u32, word: &[u8], owed: Owed) -> Option<Owed>
    requires within { IsWithin place.now }
    requires before_end { IsBeforeEnd place.now address 4 }
    requires whole { length word.now ≡ 4 }
    ensures { IfSome result (IsWordFound place.now address owed word.now []) }
{
    match owed {
        Owed::Nothing => {
            if !is_clean_half_alone(place, address, half_at(word, 0)) {
                return None;
            }
            if !is_clean_half_alone(place, address + 2, half_at(word, 2)) {
                return None;
            }
            Some(Owed::Nothing)
        }
        Owed::Mask(_) | Owed::PlaceOnly(_) | Owed::MaskOrUse(_) | Owed::Code => None,
    }
}

/// What is owed after a word whose two lowest bits are 11, which is a 32-bit instruction if it is
/// any.
#[inline(always)]
fn look_at_wide_word(place: &BundlePlace, address: u32, owed: Owed, word: u32) -> Option<Owed>
    requires within { IsWithin place.now }
    requires before_end { IsBeforeEnd place.now address 4 }
    ensures { IfSome result (IsQuietThere place.now address owed word) }
{
    match owed {
        Owed::Nothing => after_nothing(place, address, word),
        Owed::Mask(_) | Owed::PlaceOnly(_) | Owed::MaskOrUse(_) | Owed::Code => {
            after_owed(place, address, owed, word)
        }
    }
}

/// What is owed after the word of these four bytes, where it is seen to break no rule with `owed`
/// before it; `None` where it isn't. It isn't the region's last.
#[inline(always)]
pub(crate) fn look_at_word(
    place: &BundlePlace,
    address: u32,
    word: &[u8],
    owed: Owed,
) -> Option<Owed>
    requires within { IsWithin place.now }
    requires before_end { IsBeforeEnd place.now address 4 }
    requires whole { length word.now ≡ 4 }
    ensures { IfSome result (IsWordFound place.now address owed word.now []) }
{
    let wide = word_at(word, 0);
    if wide & 0b11 != 0b11 {
        return after_halves(place, address, word, owed);
    }
    look_at_wide_word(place, address, owed, wide)
}
