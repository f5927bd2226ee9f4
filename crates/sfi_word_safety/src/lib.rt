//! Code in words of four bytes, with typed registers: code which breaks none of its rules runs
//! safely, and it has no finding exactly if it breaks none.
//!
//! The rules are those of `sfi_rules` (`specs/words`), the runs those of `sfi_safe_runs`. The crate has no
//! code: what is proved are the laws of `proofs/Facts.antt`.
#![tactic(auto)]
