//! Runs of a sandbox, and which of them are safe.
//!
//! `specs/Runs.antt` says what may happen to a sandbox (its steps, its host's replies, changes by
//! others) and what each format asks of its typed registers, `specs/Safety.antt` what is safe: both
//! speak of addresses and states alone, and know no rule. A setting says whether guard zones are empty
//! or hold bytes, and whether the host has made gates direct; words without `As` are of the plain one.
//! The crate has no code: what is proved of these definitions are the laws of `proofs/Facts.antt`.
#![tactic(auto)]
