//! One sandbox of an image.

/// A gate: the only place where control may leave a sandbox.
#[derive(Clone, Copy, PartialEq, Eq)]
pub struct Gate {
    /// A bundle's first address. In code in bundles its stub stands there; in words an `ecall` may.
    pub address: u32,
    /// What the host is asked for, at most `SERVICE_MOST` of `sfi_formats` in an image.
    pub service: u32,
}

/// One sandbox. Its code and its first data bytes are slices of the bytes that it was read from, so
/// the image's code size, gate count and number of first data bytes are the lengths here.
#[derive(Drop)]
pub struct SandboxPart<'a> {
    /// The first address of the code region.
    pub code_base: u32,
    /// The first address of the data region.
    pub data_base: u32,
    /// How many bytes the data region has.
    pub data_size: u32,
    /// The address at which the sandbox starts to run.
    pub start: u32,
    /// The gates, in the order of their addresses.
    pub gates: Vec<Gate>,
    /// All bytes of the code region.
    pub code: &'a [u8],
    /// The first bytes of the data region; zeros follow.
    pub init: &'a [u8],
}
