//! Hostile input: attacks on the rules, images cut short, readers and writers that fail,
//! a host without memory.
#![tactic(auto)]

#[cfg(test)]
mod tests;
