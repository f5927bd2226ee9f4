//! The command `native`.

use crate::rows::CommandRow;

pub(super) const NATIVE: CommandRow = CommandRow {
    name: "native",
    about: "Write an image as machine code of x86-64, if it is accepted",
    options: &[],
    notes: "\
Reads an image, and writes bytes for hosts that include sfi_native_code.h.

Exit status:
  0  written
  1  refused: the image breaks rules, and the verdict is printed
  2  the input is no image
  3, 4, 5  as `sfi help` says

Example:
  sfi native < hi.hex > hi.native",
};
