//! What a path reaches as bytes of a message: what each leaves of a room, and each put after the
//! bytes that are in a buffer.

ghost use Rattle.std.specs.Prelude.{◌≡◌, ◌+◌, ◌<◌, ◌≤◌, ◌++◌, length, MatchOption};
ghost use Rattle.std.specs.List.{flat_map};
ghost use Rattle.wc_hdata.specs.Kept.{IsKept};
ghost use Rattle.wc_hdata.specs.Reached.{place_of};
ghost use Rattle.wc_hdata.specs.WalkBytes.{key_bytes, keys_bytes, pointers_bytes};
ghost use Rattle.wc_objects.specs.Spelling.{FitsIn, HasRoomFor, Puts, pointer_bytes};

use crate::key::Key;
use crate::lists::Lists;
use crate::place::Place;
use crate::place_values::value_of;
use bytes::BytesMut;
use wc_events::parts::{put_line, room_after_line};
use wc_objects::parts::put_pointer;

// ---- values

// What gives a value of a line and what takes it are inlined into the loops over keys, and these
// loops are functions of their own, so that what they use stays in registers.

/// What is left after the value of a place that a key names.
#[inline(always)]
#[tactic(auto, unfolding(crate::specs::WalkBytes::key_bytes))]
fn room_after_value(room: usize, lists: &Lists<'_>, place: Place<'_>, key: Key) -> Option<usize>
    requires { IsKept lists.now (place_of place) }
    ensures { FitsIn result room (key_bytes lists.now.world (place_of place.entry) key) }
{
    match value_of(lists, place, key) {
        Some(value) => value.room_after(room),
        None => Some(room),
    }
}

/// Puts the value of a place that a key names.
#[inline(always)]
#[tactic(auto, unfolding(crate::specs::WalkBytes::key_bytes))]
fn put_value(out: &mut BytesMut, lists: &Lists<'_>, place: Place<'_>, key: Key)
    requires kept { IsKept lists.now (place_of place) }
    requires room { HasRoomFor out.old (key_bytes lists.now.world (place_of place) key) }
    ensures { Puts out.old out.new (key_bytes lists.now.world (place_of place.entry) key) }
{
    match value_of(lists, place, key) {
        Some(value) => value.put(out),
        None => {}
    }
}

/// What is left after the values of a place that the keys name.
#[inline(never)]
fn room_after_each(room: usize, lists: &Lists<'_>, place: Place<'_>, keys: &[Key]) -> Option<usize>
    requires { IsKept lists.now (place_of place) }
    ensures { FitsIn result room (keys_bytes lists.now.world (place_of place.entry) keys.now) }
{
    let mut left = room;
    for key in keys {
        left = room_after_value(left, lists, place, *key)?;
    }
    Some(left)
}

#[inline(never)]
fn put_each(out: &mut BytesMut, lists: &Lists<'_>, place: Place<'_>, keys: &[Key])
    requires kept { IsKept lists.now (place_of place) }
    requires room { HasRoomFor out.old (keys_bytes lists.now.world (place_of place) keys.now) }
    ensures { Puts out.old out.new (keys_bytes lists.now.world (place_of place.entry) keys.now) }
{
    for key in keys {
        put_value(out, lists, place, *key);
    }
}

/// What is left after the values of a place that the keys name. What lines say has a loop of its
/// own, since most of long answers are lines.
#[tactic(auto, using(crate::proofs::WalkMessage::line_is))]
pub(crate) fn room_after_values(
    room: usize,
    lists: &Lists<'_>,
    place: Place<'_>,
    keys: &[Key],
) -> Option<usize>
    requires { IsKept lists.now (place_of place) }
    ensures { FitsIn result room (keys_bytes lists.now.world (place_of place.entry) keys.now) }
{
    match place {
        Place::LineData(held) => room_after_line(room, held.buffer, held.line, keys),
        _ => room_after_each(room, lists, place, keys),
    }
}

#[inline(always)]
#[tactic(auto, using(crate::proofs::WalkMessage::line_is))]
fn put_values(out: &mut BytesMut, lists: &Lists<'_>, place: Place<'_>, keys: &[Key])
    requires kept { IsKept lists.now (place_of place) }
    requires room { HasRoomFor out.old (keys_bytes lists.now.world (place_of place) keys.now) }
    ensures { Puts out.old out.new (keys_bytes lists.now.world (place_of place.entry) keys.now) }
{
    match place {
        Place::LineData(held) => put_line(out, held.buffer, held.line, keys),
        _ => put_each(out, lists, place, keys),
    }
}

// ---- pointers

#[inline(always)]
fn put_pointers(out: &mut BytesMut, pointers: &[u64])
    requires { HasRoomFor out.old (pointers_bytes pointers.now) }
    ensures { Puts out.old out.new (pointers_bytes pointers.now) }
{
    for pointer in pointers {
        put_pointer(out, *pointer);
    }
}

// ---- items

/// Puts the item of a place, with the pointers of those that led to it and its own.
#[inline(never)]
pub(crate) fn put_item(
    out: &mut BytesMut,
    lists: &Lists<'_>,
    pointers: &[u64],
    place: Place<'_>,
    keys: &[Key],
)
    requires kept { IsKept lists.now (place_of place) }
    requires room { HasRoomFor out.old (pointers_bytes pointers.now
        ++ keys_bytes lists.now.world (place_of place) keys.now) }
    ensures { Puts out.old out.new (pointers_bytes pointers.now
        ++ keys_bytes lists.now.world (place_of place.entry) keys.now) }
{
    put_pointers(out, pointers);
    put_values(out, lists, place, keys);
}
