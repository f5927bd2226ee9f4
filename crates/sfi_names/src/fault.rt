//! Why bytes have no table of names.

/// Why bytes have no table of names.
#[derive(Clone, Copy, Debug, PartialEq, Eq)]
pub enum NamesFault {
    /// They don't end in the magic, `SFIN`.
    NoTable,
    /// They end in the magic, but the bytes before it are not those of a table.
    BadTable,
}
