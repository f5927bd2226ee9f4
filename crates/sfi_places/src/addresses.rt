//! Writing a sandbox's addresses for another place, in the bytes of its image.
ghost use Rattle.std.specs.Prelude.{◌≡◌, ℕ, List, length, map};
ghost use Rattle.std.specs.List.{flat_map};
ghost use Rattle.sfi_image.specs.declared.part.Gate.{Gate};
ghost use Rattle.sfi_image.specs.Spelling.{Part, number, gate, part};
ghost use Rattle.sfi_places.specs.Moving.{moved_address, moved_gate, moved};
ghost use Rattle.sfi_image.specs.Keeping.{LiesAt};
ghost use Rattle.sfi_places.specs.private.{IsReplaced, GoesTo, GatesGo, CanMove};

use crate::numbers::{read_number, write_number};
use sfi_formats::Place;

// Where some numbers of a sandbox lie in its image, in bytes from its first one: a sandbox begins
// with seven numbers of four bytes, and its gates follow (specs/Spelling of `sfi_image`). And how
// many bytes a gate has.
const DATA_BASE_AT: usize = 8;

const START_AT: usize = 16;

pub(crate) const GATES_AT: usize = 28;

const GATE_BYTES: usize = 8;

/// Moves the address that the image has at byte `offset` by as much as `to` is from `from`, the old
/// base of its region.
fn write_address(image: &mut [u8], offset: usize, from: u32, to: u32)
    requires { (at : ℕ) × GoesTo from to at × LiesAt image.old offset (number at) }
    ensures { (at : ℕ) → GoesTo from to at
        → IsReplaced image.old image.new offset (number at) (number (moved_address from to at)) }
{
    let address = read_number(image, offset);
    write_number(image, offset, to + (address - from));
}

/// Moves the addresses of `gate_count` gates, the first of which the image has at byte `offset`, by
/// as much as the code base `to` is from the old one, `from`.
fn move_gates(image: &mut [u8], offset: usize, gate_count: u32, from: u32, to: u32)
    requires { (gs : List Gate) × (length gs ≡ gate_count) × GatesGo from to gs
        × LiesAt image.old offset (flat_map gate gs) }
    ensures { (gs : List Gate) → length gs ≡ gate_count → GatesGo from to gs
        → IsReplaced image.old image.new offset (flat_map gate gs)
        (flat_map gate (map (moved_gate from to) gs)) }
{
    for i in 0..gate_count {
        write_address(image, offset + GATE_BYTES * i as usize, from, to);
    }
}

/// Writes the fields and gates of the sandbox whose bytes begin at `offset`, which lies at `from`
/// and has `gate_count` gates, for the place `to`. It tests nothing, and is undone by the call with
/// both swapped.
pub(crate) fn write_place(image: &mut [u8], offset: usize, gate_count: u32, from: Place, to: Place)
    requires { (p : Part) × CanMove from to gate_count p × LiesAt image.old offset (part p) }
    ensures { (p : Part) → CanMove from to gate_count p
        → IsReplaced image.old image.new offset (part p)
        (part (moved to.code_base to.data_base p)) }
{
    write_address(image, offset, from.code_base, to.code_base);
    write_address(image, offset + DATA_BASE_AT, from.data_base, to.data_base);
    write_address(image, offset + START_AT, from.code_base, to.code_base);
    move_gates(
        image,
        offset + GATES_AT,
        gate_count,
        from.code_base,
        to.code_base,
    );
}
