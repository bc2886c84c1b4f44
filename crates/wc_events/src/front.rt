//! What a message of one `hdata` has before its items, as bytes.

ghost use Rattle.std.specs.Prelude.{◌≡◌, ◌+◌, ◌<◌, ◌≤◌, ◌++◌, length, MatchOption};
ghost use Rattle.wc_events.specs.HdaBytes.{front_part};
ghost use Rattle.wc_objects.specs.Spelling.{FitsIn, HasRoomFor, Puts};

use bytes::BytesMut;
use wc_objects::Kind;
use wc_objects::parts::{put_bytes, put_kind, room_after_bytes};

/// What a message of one `hdata` says before its items.
#[derive(Clone, Copy)]
pub struct Front<'a> {
    pub id: &'a [u8],
    pub path: &'a [u8],
    pub keys: &'a [u8],
}

/// What is left of a room after what is before the count of the items. None where it is longer.
pub fn room_after_front(room: usize, front: Front<'_>) -> Option<usize>
    ensures { FitsIn result room (front_part front.entry) }
{
    let room = room_after_bytes(room.checked_sub(1)?, front.id)?;
    room_after_bytes(
        room_after_bytes(room.checked_sub(3)?, front.path)?,
        front.keys,
    )
}

/// Puts what is before the count of the items after the bytes that are in a buffer.
pub fn put_front(out: &mut BytesMut, front: Front<'_>)
    requires { HasRoomFor out.old (front_part front) }
    ensures { Puts out.old out.new (front_part front.entry) }
{
    out.extend_reserved(&[0]);
    put_bytes(out, front.id);
    put_kind(out, Kind::Hda);
    put_bytes(out, front.path);
    put_bytes(out, front.keys);
}
