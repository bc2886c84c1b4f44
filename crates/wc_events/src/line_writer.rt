//! Events of lines written without making their objects: the length of the message is found first.

ghost use Rattle.std.specs.Prelude.{◌≡◌, ◌+◌, ◌-◌, ◌^◌, ◌<◌, ◌≤◌, ◌++◌, ◌∷◌, [], length};
ghost use Rattle.std.specs.Prelude.{MatchOption, OnOk, OnErr, IsErrOf, Some};
ghost use Rattle.wc_keys.specs.Events.{id_of};
ghost use Rattle.wc_lines.specs.LineText.{HasUtf8Texts};
ghost use Rattle.wc_model.specs.declared.notice.EventKind.TheVariants as kinds;
ghost use Rattle.wc_objects.specs.Spelling.{be32, HasRoomFor, Puts};
ghost use Rattle.wc_events.specs.EventBytes.{IsPut, IsTooLong};
ghost use Rattle.wc_events.specs.HdaBytes.{front_part};
ghost use Rattle.wc_events.specs.LineObjects.{added_objects};
ghost use Rattle.wc_events.specs.LinesTold.{IsSize, lines_body, lines_message, lines_of};

use crate::front::{Front, put_front, room_after_front};
use crate::line_items::{ToldLines, put_lines, room_after_lines};
use crate::nick_bytes::Left;
use bytes::BytesMut;
use wc_keys::{Key, KeyList, LINE_PATH, event_id};
use wc_lines::PackedLine;
use wc_model::EventKind;
use wc_objects::WriteRefused;
use wc_objects::parts::{MAX_MESSAGE, put_count};
use wc_text::Handle;

/// How long a message is, and how many items it has.
#[derive(Clone, Copy)]
struct Size {
    bytes: usize,
    items: usize,
}

/// How long the message is, where a message may be that long.
fn size_of(front: Front<'_>, buffer: Handle, told: ToldLines<'_>, keys: &[Key]) -> Option<Size>
    ensures { MatchOption result
        (2 ^ 31 - 1 < length
        (lines_message (front_part front.entry) buffer keys.now (lines_of told.entry)))
        (IsSize (lines_message (front_part front.entry) buffer keys.now (lines_of told.entry))
        (lines_of told.entry)) }
{
    let room = room_after_front(MAX_MESSAGE - 8, front)?;
    let left = room_after_lines(Left { room, items: 0 }, buffer, told, keys)?;
    Some(Size {
        bytes: MAX_MESSAGE - left.room,
        items: left.items,
    })
}

/// Puts what comes after the length of the message.
fn put_body(
    out: &mut BytesMut,
    items: usize,
    front: Front<'_>,
    buffer: Handle,
    told: ToldLines<'_>,
    keys: &[Key],
)
    requires items { items ≡ length (lines_of told) }
    requires room { HasRoomFor out.old
        (lines_body (front_part front) buffer keys.now (lines_of told)) }
    ensures { Puts out.old out.new
        (lines_body (front_part front.entry) buffer keys.now (lines_of told.entry)) }
{
    put_front(out, front);
    put_count(out, items);
    put_lines(out, buffer, told, keys);
}

/// Puts the message, whose length is known.
fn put_message(
    out: &mut BytesMut,
    size: Size,
    front: Front<'_>,
    buffer: Handle,
    told: ToldLines<'_>,
    keys: &[Key],
)
    requires size { IsSize (lines_message (front_part front) buffer keys.now (lines_of told))
        (lines_of told) size }
    requires room { size.bytes ≤ out.old.spare }
    ensures { out.new.items ≡ out.old.items
        ++ lines_message (front_part front.entry) buffer keys.now (lines_of told.entry) }
{
    put_count(out, size.bytes);
    put_body(out, size.items, front, buffer, told, keys);
}

/// Puts lines of a buffer with the values of these keys, as the message with this front, after the
/// bytes that are in a buffer. Its memory is taken at once. Where it is refused the bytes stay as
/// they were.
///
/// `TooLong` where the message would be longer than 2^31 - 1 bytes, which is found before memory is
/// asked for; `NoMemory` where the buffer can't grow by its length.
pub(crate) fn append_lines(
    out: &mut BytesMut,
    front: Front<'_>,
    buffer: Handle,
    told: ToldLines<'_>,
    keys: &[Key],
) -> Result<(), WriteRefused>
    ensures ok { OnOk result (out.new.items ≡ out.old.items
        ++ lines_message (front_part front.entry) buffer keys.now (lines_of told.entry)) }
    ensures fits { OnOk result (length
        (lines_message (front_part front.entry) buffer keys.now (lines_of told.entry))
        ≤ 2 ^ 31 - 1) }
    ensures too_long { IsErrOf result WriteRefused.TooLong → 2 ^ 31 - 1 < length
        (lines_message (front_part front.entry) buffer keys.now (lines_of told.entry)) }
    ensures err { OnErr result (out.new.items ≡ out.old.items) }
{
    let Some(size) = size_of(front, buffer, told, keys) else {
        return Err(WriteRefused::TooLong);
    };
    let Ok(()) = out.reserve(size.bytes) else {
        return Err(WriteRefused::NoMemory);
    };
    put_message(out, size, front, buffer, told, keys);
    Ok(())
}

/// Puts the event `_buffer_line_added` of WeeChat's relay protocol, for a new line of a buffer.
pub(crate) fn write_line_added(
    out: &mut BytesMut,
    buffer: Handle,
    line: &PackedLine,
) -> Result<(), WriteRefused>
    requires { HasUtf8Texts line.now }
    ensures ok { OnOk result (IsPut out.old.items out.new.items (id_of kinds.LineAdded)
        (Some (added_objects buffer line.now))) }
    ensures too_long { IsErrOf result WriteRefused.TooLong →
        IsTooLong (id_of kinds.LineAdded) (Some (added_objects buffer line.now)) }
    ensures err { OnErr result (out.new.items ≡ out.old.items) }
{
    let front = Front {
        id: event_id(EventKind::LineAdded),
        path: LINE_PATH,
        keys: KeyList::LineData.text(),
    };
    append_lines(
        out,
        front,
        buffer,
        ToldLines::New(line),
        KeyList::LineData.keys(),
    )
}
