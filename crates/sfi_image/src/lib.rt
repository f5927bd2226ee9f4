//! Images of sandboxed code: how their bytes are read, and which layouts are right.
//!
//! An image is the four bytes of its format, `SFI1`, `SFI2`, `SFIW` or `SFIS`, a count from 1 to 16, and for
//! each sandbox seven numbers, its gates, its code and its first data bytes. Each number has 32 bits,
//! little-endian. Code and data lie in power-of-two regions with guard zones round the data, so
//! that one `and` and one `or` confine an address (Wahbe, Lucco, Anderson and Graham, "Efficient
//! Software-Based Fault Isolation", 1993), and gates lie at the starts of 16-byte bundles (Yee and
//! others, "Native Client", 2009).
//!
//! [`parse_image`] reads an image from all of its bytes, by an [`ImageCursor`], which steps from
//! sandbox to sandbox and takes no memory; [`sandbox_of`] goes to the sandbox of a number.
//! [`LayoutReader`] reads its layout from pieces, in order, as a [`ByteSource`] hands them out, and
//! takes none either; [`ReaderSource`] makes a source of any reader.
#![tactic(auto)]

mod arrays;
mod bounds;
mod bundle;
mod byte_source;
mod cursor;
mod fault;
mod fields;
mod gates;
mod image;
mod layout;
mod layout_reader;
mod lookup;
mod part;
mod reading;
mod reserved;
mod span;
mod want;
mod writing;
mod zones;

pub use arrays::{GateArray, SpanArray};
pub use bounds::{Bounds, are_bounds_apart};
pub use bundle::BundlePlace;
pub use byte_source::{ByteSource, ReadFault, ReaderSource};
pub use cursor::{ImageCursor, PartView};
pub use fault::{ImageFault, LayoutFault};
pub use fields::{Fields, has_guard_room, is_clear_of_zero, is_one_bit, is_region, with_guards};
pub use image::Image;
pub use layout_reader::LayoutReader;
pub use lookup::sandbox_of;
pub use part::{Gate, SandboxPart};
pub use reading::parse_image;
pub use reserved::{Reserved, data_mask_of};
pub use sfi_formats::Format;
pub use span::{Span, are_all_apart};
pub use want::{Stage, Want};
pub use writing::{write_image, write_image_as};
pub use zones::are_clear_of_zones;
