//! The items of messages that tell of lines: what they leave of a room, and each put after the bytes
//! that are in a buffer.

ghost use Rattle.std.specs.Prelude.{◌≡◌, ◌+◌, ◌^◌, ◌<◌, ◌≤◌, ◌++◌, ◌∷◌, []};
ghost use Rattle.std.specs.Prelude.{filter, length, MatchOption};
ghost use Rattle.std.specs.List.{flat_map};
ghost use Rattle.wc_model.specs.Parts.{is_flipped};
ghost use Rattle.wc_events.specs.LinesTold.{Leaves, line_spelled, lines_of, lines_spelled};
ghost use Rattle.wc_objects.specs.Spelling.{FitsIn, HasRoomFor, Puts};

use crate::flip_lookup::FlipLookup;
use crate::line_bytes::{put_line, room_after_line};
use crate::nick_bytes::Left;
use bytes::BytesMut;
use wc_keys::Key;
use wc_lines::{Lines, PackedLine};
use wc_objects::parts::{put_pointer, room_after_pointer};
use wc_text::Handle;

/// The lines of a buffer that are told in one message.
#[derive(Clone, Copy)]
pub(crate) enum ToldLines<'a> {
    /// A new line.
    New(&'a PackedLine),
    /// Those of these whose flags differ.
    Flipped {
        flips: &'a FlipLookup<'a>,
        lines: &'a Lines,
    },
}

// ---- what they leave of a room

#[inline(always)]
#[tactic(auto, unfolding(crate::specs::LinesTold::line_spelled))]
fn room_after_values(room: usize, buffer: Handle, line: &PackedLine, keys: &[Key]) -> Option<usize>
    ensures { FitsIn result room (line_spelled buffer keys.now line.now) }
{
    room_after_line(
        room_after_pointer(room, line.content().0)?,
        buffer,
        line,
        keys,
    )
}

/// What is left after the item of a line.
#[inline(always)]
fn room_after_item(left: Left, buffer: Handle, line: &PackedLine, keys: &[Key]) -> Option<Left>
    requires { left.items + left.room < 2 ^ 32 }
    ensures { Leaves result left (line_spelled buffer keys.now line.now) 1 }
{
    let room = room_after_values(left.room, buffer, line, keys)?;
    let items = left.items + 1;
    Some(Left { room, items })
}

/// What is left after a line, which takes room where its flag differs. The place is that of `has_at`.
#[inline(always)]
fn room_after_flip(
    left: Left,
    place: &mut usize,
    buffer: Handle,
    flips: &FlipLookup<'_>,
    line: &PackedLine,
    keys: &[Key],
) -> Option<Left>
    requires { left.items + left.room < 2 ^ 32 }
    ensures { Leaves result left
        (lines_spelled buffer keys.now (filter (is_flipped flips.now) (line.now ∷ [])))
        (length (filter (is_flipped flips.now) (line.now ∷ []))) }
{
    if !flips.has_at(place, line) {
        return Some(left);
    }
    room_after_item(left, buffer, line, keys)
}

/// What is left after the items of the lines whose flags differ.
fn room_after_flipped(
    whole: Left,
    buffer: Handle,
    flips: &FlipLookup<'_>,
    lines: &Lines,
    keys: &[Key],
) -> Option<Left>
    requires { whole.items + whole.room < 2 ^ 32 }
    ensures { Leaves result whole
        (lines_spelled buffer keys.now (filter (is_flipped flips.now) lines.now.lines))
        (length (filter (is_flipped flips.now) lines.now.lines)) }
{
    let mut left = whole;
    let mut place = 0;
    for line in lines.iter() {
        left = room_after_flip(left, &mut place, buffer, flips, line, keys)?;
    }
    Some(left)
}

/// What is left after the items of lines that are told in one message.
pub(crate) fn room_after_lines(
    left: Left,
    buffer: Handle,
    told: ToldLines<'_>,
    keys: &[Key],
) -> Option<Left>
    requires { left.items + left.room < 2 ^ 32 }
    ensures { Leaves result left (lines_spelled buffer keys.now (lines_of told.entry))
        (length (lines_of told.entry)) }
{
    match told {
        ToldLines::New(line) => room_after_item(left, buffer, line, keys),
        ToldLines::Flipped { flips, lines } => room_after_flipped(left, buffer, flips, lines, keys),
    }
}

// ---- each put after the bytes that are in a buffer

#[inline(always)]
#[tactic(auto, unfolding(crate::specs::LinesTold::line_spelled))]
fn put_item(out: &mut BytesMut, buffer: Handle, line: &PackedLine, keys: &[Key])
    requires { HasRoomFor out.old (line_spelled buffer keys.now line.now) }
    ensures { Puts out.old out.new (line_spelled buffer keys.now line.now) }
{
    put_pointer(out, line.content().0);
    put_line(out, buffer, line, keys);
}

/// Puts a line where its flag differs.
#[inline(always)]
fn put_flip(
    out: &mut BytesMut,
    place: &mut usize,
    buffer: Handle,
    flips: &FlipLookup<'_>,
    line: &PackedLine,
    keys: &[Key],
)
    requires { HasRoomFor out.old
        (lines_spelled buffer keys.now (filter (is_flipped flips.now) (line.now ∷ []))) }
    ensures { Puts out.old out.new
        (lines_spelled buffer keys.now (filter (is_flipped flips.now) (line.now ∷ []))) }
{
    if flips.has_at(place, line) {
        put_item(out, buffer, line, keys);
    }
}

fn put_flipped(
    out: &mut BytesMut,
    buffer: Handle,
    flips: &FlipLookup<'_>,
    lines: &Lines,
    keys: &[Key],
)
    requires { HasRoomFor out.old
        (lines_spelled buffer keys.now (filter (is_flipped flips.now) lines.now.lines)) }
    ensures { Puts out.old out.new
        (lines_spelled buffer keys.now (filter (is_flipped flips.now) lines.now.lines)) }
{
    let mut place = 0;
    for line in lines.iter() {
        put_flip(out, &mut place, buffer, flips, line, keys);
    }
}

/// Puts the items of lines that are told in one message.
pub(crate) fn put_lines(out: &mut BytesMut, buffer: Handle, told: ToldLines<'_>, keys: &[Key])
    requires { HasRoomFor out.old (lines_spelled buffer keys.now (lines_of told)) }
    ensures { Puts out.old out.new (lines_spelled buffer keys.now (lines_of told.entry)) }
{
    match told {
        ToldLines::New(line) => put_item(out, buffer, line, keys),
        ToldLines::Flipped { flips, lines } => put_flipped(out, buffer, flips, lines, keys),
    }
}
