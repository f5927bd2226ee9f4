//! Tests of translations and native code: the bytes of lines, as the GNU assembler spells their instructions,
//! and plans. They stand apart from `sfi_tests` so that both are proved side by side.
#![tactic(auto)]

#[cfg(test)]
mod tests;
