//! A broken rule, and where.

use crate::rule::Rule;

/// A rule that is broken, and where.
#[derive(Clone, Copy, PartialEq, Eq, Debug)]
pub struct Finding {
    /// The sandbox's place in the image, counted from 0.
    pub sandbox: u32,
    /// The address of the instruction's first byte, or of bytes that are no instruction; for V9 the
    /// gate's.
    pub address: u32,
    /// The lowest rule that is broken at the address.
    pub rule: Rule,
}
