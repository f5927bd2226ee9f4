//! What the program reads and writes: its input to the end, the bytes of an image or those that
//! hexadecimal text spells, and a text that is written whole. A text's digits make bytes by pairs,
//! with white space anywhere between digits.
#![tactic(auto)]

mod front;
mod hexadecimal;
mod image;
mod streams;
mod text;

pub use hexadecimal::{HexFault, HexStop, bytes_of};
pub use image::{begins_as_image, image_bytes, read_first_bytes};
pub use streams::{INPUT_LIMIT, Input, ReadStop, read_input, write_out};
pub use text::{HexReader, TextStop};
