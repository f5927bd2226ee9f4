//! What must come next, in code in words.

/// What the next instruction has to do, because an earlier one wrote a typed register (a data
/// register or x30) and left in it what may lie outside its region. A scan carries it from word to
/// word, and calls it owed. `d` stands for the data register whose number a variant holds.
#[derive(Clone, Copy)]
pub enum Owed {
    /// No instruction in particular.
    Nothing,
    /// It masks d: `and x31, d, x27`, after which [`PlaceOnly`](Owed::PlaceOnly) is owed; or in the
    /// fourth format `and d, a, x27`, after which nothing is.
    Mask(u8),
    /// It places d, as the second step of its mask: `or d, x31, x26`.
    PlaceOnly(u8),
    /// d was stepped by `addi d, d, k`: it masks d as in [`Mask`](Owed::Mask), or is a load, other
    /// than into x0, or a store on d with an offset from -1020 to 1020 bytes.
    MaskOrUse(u8),
    /// It places the code register: `or x30, x30, x24`.
    Code,
}
