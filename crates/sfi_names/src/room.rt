//! The room that code asks for above the stack of a function that its host calls.
ghost use Rattle.std.specs.Prelude.{◌≡◌, ◌<◌, length};
ghost use Rattle.sfi_names.specs.Rooms.{ends_with_room, room_in, room_of};

use crate::names::MAGIC;
use byteorder::{ByteOrder, LittleEndian};

/// How many bytes the last import has, where it is the room, with what follows it in a table: the
/// number in 4 bytes, the name with its length in 6, the footer's three numbers in 12, and the
/// magic in 4.
const ROOM_BYTES: usize = 26;

/// The length of the room's name, and the name: tools/suygapid/image/names.py writes it.
const ROOM_NAME: [u8; 6] = *b"\x05.room";

/// Whether these 26 bytes have the name of the room and its length from byte 4 on, and the magic
/// from byte 22 on.
fn ends_with_room(last: &[u8]) -> bool
    requires { length last.now ≡ ROOM_BYTES }
    ensures { result ≡ ends_with_room last.now }
{
    &last[4..10] == ROOM_NAME.as_slice() && &last[22..26] == MAGIC.as_slice()
}

/// The number of bytes of room that these 26 bytes ask for; 0 if they are no room's.
fn room_in(last: &[u8]) -> u32
    requires { length last.now ≡ ROOM_BYTES }
    ensures { result ≡ room_in last.now }
{
    if !ends_with_room(last) {
        return 0;
    }
    LittleEndian::read_u32(&last[..4])
}

/// How many bytes the table at the end of these first data bytes asks to be left free above the
/// stack of a function that a host calls: the number that its last import has in the place of an
/// address, if that import's name is `.room`, else 0. gcc and clang reach objects of a frame by a
/// base above the frame, which would pass the data's end. Of the table only its last 26 bytes are
/// looked at.
#[tactic(auto, unfolding(crate::specs::Rooms::room_of))]
pub fn room_at_end(bytes: &[u8]) -> u32
    ensures { result ≡ room_of bytes.now }
{
    if bytes.len() < ROOM_BYTES {
        return 0;
    }
    room_in(&bytes[bytes.len() - ROOM_BYTES..])
}
