//! The command `dis`.

use crate::rows::CommandRow;

pub(super) const DIS: CommandRow = CommandRow {
    name: "dis",
    about: "List an image's regions, gates and instructions",
    options: &[],
    notes: "\
Reads an image, and prints for each sandbox a line of its regions, a line for
each gate, the names that the table at the end of its first data tells, if there
is one, and a line for each instruction. The code may break rules.

Exit status:
  0  listed
  2  the input is no image
  3, 4, 5  as `sfi help` says

Example:
  sfi dis < hi.hex",
};
