//! The theorem: every run of code that breaks no rule is safe, from every entry.
//!
//! What may happen to a sandbox, and what of it is safe, is said in `sfi_safe_runs`, which knows no rule.
//! Here is the proof for code in bundles, and that the rules of such code are needed; that for code
//! in words is in `sfi_word_safety`. `specs/Places.antt` has the invariant that leads from the rules to
//! safety. The crate has no code: what is proved are the laws of `proofs/Facts.antt`.
#![tactic(auto)]
