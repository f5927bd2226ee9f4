//! The words of a command line, as bytes.
ghost use Rattle.std.specs.Prelude.{◌≡◌, ◌++◌, ◌∷◌, [], List, OnOk, IfOk, IfErr, map, string_bytes};
ghost use Rattle.clap.specs.Walk.{Text};
ghost use Rattle.sfi_tool_c.specs.CommandAnswers.{SpellsWords};
ghost use Rattle.sfi_tool_c.specs.declared.words.WordsFault.TheVariants.{Memory, NoWords};

use std::alloc::{AllocError, Global};

/// Why there are no words.
#[derive(Clone, Copy, Drop)]
pub(crate) enum WordsFault {
    /// A word is not UTF-8, or has no zero byte after it.
    NoWords,
    /// An allocation was refused.
    Memory,
}

impl From<AllocError> for WordsFault {
    ghost from_gives = { λ _ e. e ≡ Memory };

    fn from(_e: AllocError) -> WordsFault {
        WordsFault::Memory
    }
}

/// Appends a copy of `word`.
fn push_copy(alloc: Global, words: &mut Vec<String>, word: &str) -> Result<(), AllocError>
    ensures { OnOk result (map string_bytes words.new.items
        ≡ map string_bytes words.old.items ++ word.now ∷ []) }
{
    words.push(String::from_str(alloc, word)?)?;
    Ok(())
}

/// The words that `bytes` spell: each is UTF-8 without a zero byte, and has one after it. `NoWords`
/// where a word isn't, or bytes follow the last zero byte.
pub(crate) fn words_of(alloc: Global, bytes: &[u8]) -> Result<Vec<String>, WordsFault>
    ensures words { IfOk result (λ ws. SpellsWords bytes.now (map string_bytes ws.items)) }
    ensures none { IfErr result (λ fault. fault ≡ NoWords
        → (words : List Text) → ¬ SpellsWords bytes.now words) }
{
    let mut words = Vec::new(alloc);
    let mut from = 0;
    for at in 0..bytes.len() {
        if bytes[at] == 0 {
            let Ok(word) = std::str::from_utf8(&bytes[from..at]) else {
                return Err(WordsFault::NoWords);
            };
            push_copy(alloc, &mut words, word)?;
            from = at + 1;
        }
    }
    if from < bytes.len() {
        return Err(WordsFault::NoWords);
    }
    Ok(words)
}
