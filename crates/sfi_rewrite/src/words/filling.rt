//! Words that are filled one after another: two 16-bit forms share one, if no label is between.
ghost use Rattle.std.specs.Prelude.{◌≡◌, ◌++◌, ◌+◌, ◌%◌, ◌≤◌, [], None, IfOk};
ghost use Rattle.sfi_rewrite.specs.Expansion.{size_of};
ghost use Rattle.sfi_rewrite.specs.private.{largest};
ghost use Rattle.sfi_rewrite.specs.private.{so_far, bytes_of, more_for, ended, with_slot};

use crate::filling::Filling;
use crate::slot::BundleSlot;
use rv_comp::Form16;
use std::alloc::{AllocError, Global};
use std::marker::Model;

/// How many bytes a word has.
const WORD_SIZE: usize = 4;

/// Words, after which a 16-bit form may wait for a second one to share a word. All have 4 bytes;
/// that isn't known where an allocation was refused.
#[derive(Drop)]
pub(crate) struct WordFilling {
    words: Filling,
    waiting: Option<Form16>,
}

impl Model for WordFilling {
    ghost use Rattle.sfi_rewrite.specs.private.{WordsSoFar, so_far};

    ghost Value = { WordsSoFar };

    ghost view = { λ w. so_far w.words w.waiting };
}

impl WordFilling {
    /// No words.
    pub(crate) fn new(alloc: Global) -> WordFilling
        ensures { result ≡ so_far [] None }
    {
        WordFilling {
            words: Filling::new(alloc),
            waiting: None,
        }
    }

    /// How many bytes the words take, if nothing more comes: a form that waits takes a word then.
    pub(crate) fn end(&self) -> usize
        requires { bytes_of self.now ≤ largest }
        ensures { result ≡ bytes_of self.now }
    {
        match self.waiting {
            Some(_) => self.words.end() + WORD_SIZE,
            None => self.words.end(),
        }
    }

    /// The place of what comes next, if a label stands before it.
    pub(crate) fn place(&self) -> u32
        requires { bytes_of self.now ≤ largest }
        ensures { result ≡ bytes_of self.now }
    {
        self.end() as u32
    }

    /// How many bytes the words take with one more slot, if nothing else comes.
    pub(crate) fn end_with(&self, slot: &BundleSlot) -> usize
        requires { bytes_of self.now ≤ largest }
        ensures { result ≡ bytes_of self.now + more_for self.now.waiting slot.now }
    {
        match (self.waiting, slot) {
            (Some(_), BundleSlot::Short(_)) => self.end(),
            (_, _) => self.end() + WORD_SIZE,
        }
    }

    /// Adds a word of these slots.
    fn push_word(&mut self, slots: &[BundleSlot]) -> Result<(), AllocError>
        requires word { size_of slots.now ≡ 4 }
        requires aligned { size_of self.old.words % 4 ≡ 0 }
        requires room { size_of self.old.words + 4 ≤ largest }
        ensures { IfOk result
            (λ _. self.new ≡ so_far (self.old.words ++ slots.now) self.old.waiting) }
    {
        self.words.push(slots, WORD_SIZE)
    }

    /// Where a 16-bit form waits, ends its word: the form stands there as a 32-bit instruction.
    pub(crate) fn end_word(&mut self) -> Result<(), AllocError>
        requires aligned { size_of self.old.words % 4 ≡ 0 }
        requires room { bytes_of self.old ≤ largest }
        ensures { IfOk result (λ _. self.new ≡ ended self.old.words self.old.waiting) }
    {
        if let Some(form) = self.waiting {
            self.waiting = None;
            self.push_word(&[BundleSlot::Wide(form.expand())])?;
        }
        Ok(())
    }

    /// Adds a slot. Two 16-bit slots, of which the first waits, make one word.
    pub(crate) fn push(&mut self, slot: BundleSlot) -> Result<(), AllocError>
        requires aligned { size_of self.old.words % 4 ≡ 0 }
        requires room { bytes_of self.old + more_for self.old.waiting slot ≤ largest }
        ensures { IfOk result (λ _. self.new ≡ with_slot self.old.words self.old.waiting slot) }
    {
        match (self.waiting, slot) {
            (Some(first), BundleSlot::Short(_)) => {
                self.waiting = None;
                self.push_word(&[BundleSlot::Short(first), slot])
            }
            (None, BundleSlot::Short(form)) => {
                self.waiting = Some(form);
                Ok(())
            }
            (_, _) => {
                self.end_word()?;
                self.push_word(&[slot])
            }
        }
    }

    /// The words. A 16-bit form that still waits is dropped, so `end_word` goes first.
    pub(crate) fn into_words(self) -> Filling
        ensures { result ≡ self.words }
    {
        let WordFilling { words, .. } = self;
        words
    }
}
