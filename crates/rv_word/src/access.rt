//! Loads and stores, found by one test for both.
ghost use Rattle.std.specs.Prelude.{◌≡◌, IfSome, if◌then◌else◌, ◌==◌};
ghost use Rattle.rv_word.specs.declared.instr.Instr.{Instr};
ghost use Rattle.rv_word.specs.Outlines.{access, IsAccessOf};
ghost use Rattle.rv_word.specs.private.{word_of, Fits, is_access};
ghost use Rattle.rv_word.specs.Spelling.{IsWordOf};

use crate::opcode;
use crate::reg::Reg;
use crate::word_fields::WordFields;

/// The registers of a load or a store but the one whose value it stores.
#[derive(Clone, Copy, PartialEq, Eq)]
pub struct Access {
    /// What it loads into; x0 where it stores.
    pub written: Reg,
    /// The register to which it adds its offset.
    pub base: Reg,
}

impl WordFields {
    /// Whether opcode and funct3 are those of a load or a store: the values of funct3 that
    /// `from_funct3` of `LoadKind` and of `StoreWidth` know.
    fn is_access(self) -> bool
        ensures { result ≡ is_access self.opcode self.funct3 }
    {
        let widths = if self.opcode == opcode::STORE { 3 } else { 6 };
        (self.opcode == opcode::LOAD || self.opcode == opcode::STORE)
            && self.funct3 < widths
            && self.funct3 != 3
    }

    /// The register that a load writes, or x0 for a store.
    fn written(self) -> Reg
        requires { Fits self }
        ensures { result ≡ (if self.opcode == 0b0100011 then 0 else self.rd) }
    {
        let stores = self.opcode == opcode::STORE;
        Reg::of_field(if stores { 0 } else { self.rd })
    }

    /// The access of a word with these fields, if it is a load or a store.
    #[inline(always)]
    fn access(self) -> Option<Access>
        requires { Fits self }
        ensures found { IfSome result (IsAccessOf (word_of self)) }
        ensures only { (i : Instr) → IsWordOf (word_of self) i → result ≡ access i }
    {
        if !self.is_access() {
            return None;
        }
        Some(Access {
            written: self.written(),
            base: Reg::of_field(self.rs1),
        })
    }
}

/// The load or store that the word spells; `None` where it spells neither.
#[inline(always)]
pub fn access32(word: u32) -> Option<Access>
    ensures found { IfSome result (IsAccessOf word) }
    ensures only { (i : Instr) → IsWordOf word i → result ≡ access i }
{
    WordFields::from_word(word).access()
}
