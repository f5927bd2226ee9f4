//! Where a bundle of an image stands, and what its check needs to know of its sandbox.

use sfi_formats::Format;

/// Where a bundle stands, and what its check needs to know of its sandbox.
#[derive(Clone, Copy, PartialEq, Eq, Debug)]
pub struct BundlePlace {
    /// The sandbox's place in the image, counted from 0.
    pub sandbox: u32,
    /// The bundle's first address, a multiple of a bundle's size.
    pub address: u32,
    /// The image's format.
    pub format: Format,
    /// The first address of the sandbox's code region.
    pub code_base: u32,
    /// The size of the code region in bytes.
    pub code_size: u32,
    /// Whether the image lists a gate at this bundle.
    pub listed: bool,
}
