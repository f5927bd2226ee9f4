//! The limits of a source, of a sandbox and of an image. `GUARD`, `GATES_MOST` and `SANDBOXES_MOST`
//! are also in `tools/suygapid/image/layout.py`, and these and `SLACK` in the C of
//! `sfi_native/include`.

/// How many bytes a bundle has.
pub const BUNDLE_SIZE: u32 = 16;

/// `BUNDLE_SIZE`, as a length of bytes.
pub const BUNDLE_BYTES: usize = BUNDLE_SIZE as usize;

/// How many addresses a guard zone has.
pub const GUARD: u32 = 4096;

/// The least bytes of a region, of code or of data.
pub const REGION_LEAST: u32 = 256;

/// The most bytes of a data region of a source, in whichever format.
pub const SOURCE_DATA_MOST: u32 = 1_048_576;

/// The most sandboxes that an image has.
pub const SANDBOXES_MOST: u32 = 16;

/// The most gates that a sandbox may have.
pub const GATES_MOST: u32 = 64;

/// The highest number of a service that a gate may ask for; the lowest is 0. CONTRIBUTING.md says
/// what has to follow where a service is added.
pub const SERVICE_MOST: u32 = 5;

/// The most instructions of a sandbox of a source.
pub const ITEMS_MOST: u32 = 65536;

/// The most bytes of a name of a source.
pub const NAME_MOST: u32 = 64;

/// How many bytes below its data region's end a sandbox's stack pointer lies at first.
pub const FIRST_FRAME: u32 = 16;

/// How many bytes outside its data region the address in a data register of code in words may lie;
/// where masks are single, also outside the first addresses, as many as the data have.
pub const SLACK: u32 = 1020;

/// `REGION_LEAST`, as a length of bytes.
pub const REGION_LEAST_BYTES: usize = REGION_LEAST as usize;

/// `SANDBOXES_MOST`, as a length of a list.
pub const SANDBOX_COUNT_MOST: usize = SANDBOXES_MOST as usize;

/// `GATES_MOST`, as a length of a list.
pub const GATE_COUNT_MOST: usize = GATES_MOST as usize;

/// `ITEMS_MOST`, as a length of a list.
pub const ITEM_COUNT_MOST: usize = ITEMS_MOST as usize;

/// `NAME_MOST`, as the length of a name's bytes.
pub const NAME_MOST_BYTES: usize = NAME_MOST as usize;
