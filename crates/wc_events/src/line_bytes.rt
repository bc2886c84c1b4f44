//! The values of a line as bytes of a message, by their keys: what they leave of a room, and each
//! put after the bytes that are in a buffer. Dumps have many lines, so that no value is made here
//! before it is written.

ghost use Rattle.std.specs.Prelude.{◌≡◌, ◌+◌, ◌<◌, ◌≤◌, ◌++◌, length};
ghost use Rattle.std.specs.Prelude.{MatchOption};
ghost use Rattle.std.specs.List.{flat_map};
ghost use Rattle.wc_events.specs.BufferObjects.{count};
ghost use Rattle.wc_events.specs.LineObjects.{moment};
ghost use Rattle.wc_events.specs.ValueBytes.{line_bytes};
ghost use Rattle.wc_objects.specs.Spelling.{FitsIn, HasRoomFor, Puts, value_bytes};
ghost use Rattle.wc_objects.specs.declared.object.Object.TheVariants as objects;

use crate::line_objects::{moment, truth};
use crate::value_bytes::{put_tags, room_after_tags};
use crate::values::count;
use bytes::BytesMut;
use wc_keys::Key;
use wc_lines::PackedLine;
use wc_objects::parts::{
    put_bytes, put_chr, put_decimal, put_pointer, room_after_bytes, room_after_decimal,
    room_after_pointer,
};
use wc_text::Handle;

// ---- what each leaves of a room

/// What is left after a date. Those of the years 2001 to 2286 have ten digits, which need not be
/// spelled to be counted.
#[inline(always)]
#[tactic(auto, using(crate::proofs::ValueBytes::tim_value))]
fn room_after_date(room: usize, date: u64) -> Option<usize>
    ensures { FitsIn result room (value_bytes (objects.Tim (moment date))) }
{
    if date < 1_000_000_000 || date > 9_999_999_999 {
        return room_after_decimal(room, moment(date));
    }
    room.checked_sub(11)
}

#[inline(always)]
#[tactic(auto, using(crate::proofs::ValueBytes::value_facts), unfolding(crate::specs::ValueBytes::line_bytes))]
fn room_after_value(room: usize, buffer: Handle, line: &PackedLine, key: Key) -> Option<usize>
    ensures { FitsIn result room (line_bytes buffer line.now key) }
{
    match key {
        Key::Buffer => room_after_pointer(room, buffer.0),
        Key::Id | Key::DateUsec | Key::DateUsecPrinted => room.checked_sub(4),
        Key::Date => room_after_date(room, line.date()),
        Key::DatePrinted => room_after_date(room, line.date_printed()),
        Key::Displayed | Key::NotifyLevel | Key::Highlight => room.checked_sub(1),
        Key::TagsArray => room_after_tags(room, line),
        Key::Prefix => room_after_bytes(room, line.prefix()),
        Key::Message => room_after_bytes(room, line.message()),
        _ => Some(room),
    }
}

/// What is left of a room after the values of a line of a buffer that the keys name. None where
/// they are longer.
pub fn room_after_line(
    room: usize,
    buffer: Handle,
    line: &PackedLine,
    keys: &[Key],
) -> Option<usize>
    ensures { FitsIn result room (flat_map (line_bytes buffer line.now) keys.now) }
{
    let mut left = room;
    for key in keys {
        left = room_after_value(left, buffer, line, *key)?;
    }
    Some(left)
}

// ---- each put after the bytes that are in a buffer

#[inline(always)]
#[tactic(auto, using(crate::proofs::ValueBytes::value_facts))]
fn put_count(out: &mut BytesMut, number: u32)
    requires { HasRoomFor out.old (value_bytes (objects.Int (count number))) }
    ensures { Puts out.old out.new (value_bytes (objects.Int (count number))) }
{
    out.extend_reserved(&count(u64::from(number)).to_be_bytes());
}

#[inline(always)]
#[tactic(auto, using(crate::proofs::ValueBytes::value_facts), unfolding(crate::specs::ValueBytes::line_bytes))]
fn put_value(out: &mut BytesMut, buffer: Handle, line: &PackedLine, key: Key)
    requires { HasRoomFor out.old (line_bytes buffer line.now key) }
    ensures { Puts out.old out.new (line_bytes buffer line.now key) }
{
    match key {
        Key::Buffer => put_pointer(out, buffer.0),
        Key::Id => put_count(out, line.id()),
        Key::Date => put_decimal(out, moment(line.date())),
        Key::DateUsec => put_count(out, line.usec()),
        Key::DatePrinted => put_decimal(out, moment(line.date_printed())),
        Key::DateUsecPrinted => put_count(out, line.usec_printed()),
        Key::Displayed => put_chr(out, truth(line.displayed())),
        Key::NotifyLevel => put_chr(out, line.notify()),
        Key::Highlight => put_chr(out, truth(line.highlight())),
        Key::TagsArray => put_tags(out, line),
        Key::Prefix => put_bytes(out, line.prefix()),
        Key::Message => put_bytes(out, line.message()),
        _ => {}
    }
}

/// Puts the values of a line of a buffer that the keys name, in their order. A key that is of no
/// line gives nothing.
pub fn put_line(out: &mut BytesMut, buffer: Handle, line: &PackedLine, keys: &[Key])
    requires { HasRoomFor out.old (flat_map (line_bytes buffer line.now) keys.now) }
    ensures { Puts out.old out.new (flat_map (line_bytes buffer line.now) keys.now) }
{
    for key in keys {
        put_value(out, buffer, line, *key);
    }
}
