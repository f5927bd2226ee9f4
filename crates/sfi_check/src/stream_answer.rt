//! The verdict on a stream of bytes.

use sfi_image::LayoutFault;
use sfi_scan::Finding;

/// The verdict on the bytes of a stream.
#[derive(Clone, Copy, PartialEq, Eq, Debug)]
pub enum StreamAnswer {
    /// The bytes are accepted: how many sandboxes and how many bundles they have.
    Accepted { sandboxes: u32, bundles: u32 },
    /// The bytes are no image: the layout's fault.
    Layout(LayoutFault),
    /// Rules are broken: how many findings there are, and the first by sandbox and address.
    Findings { count: u32, first: Finding },
    /// A read failed, so nothing is said of the bytes.
    ReadFault,
}
