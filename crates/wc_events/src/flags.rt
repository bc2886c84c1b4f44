//! What a client is told of lines whose flags differ.

ghost use Rattle.std.specs.Prelude.{◌≡◌, OnOk, OnErr, IsErrOf, Some};
ghost use Rattle.wc_keys.specs.Events.{id_of};
ghost use Rattle.wc_model.specs.World.{lines_at};
ghost use Rattle.wc_model.specs.declared.notice.EventKind.TheVariants as kinds;
ghost use Rattle.wc_events.specs.BufferObjects.{flag_objects, flagged_objects};
ghost use Rattle.wc_events.specs.EventBytes.{IsPut, IsTooLong};

use crate::flip_lookup::{FlipLookup, has_flipped};
use crate::front::Front;
use crate::line_items::ToldLines;
use crate::line_writer::append_lines;
use bytes::BytesMut;
use std::alloc::Global;
use wc_keys::{KeyList, LINE_PATH, event_id};
use wc_lines::Lines;
use wc_model::{EventKind, Notice};
use wc_objects::WriteRefused;
use wc_text::Handle;
use wc_world::World;

/// Puts the event of the lines of these whose flags differ.
fn write_flipped(
    out: &mut BytesMut,
    buffer: Handle,
    flips: &FlipLookup<'_>,
    lines: &Lines,
) -> Result<(), WriteRefused>
    ensures ok { OnOk result (IsPut out.old.items out.new.items (id_of kinds.LineDataChanged)
        (Some (flag_objects buffer flips.now lines.now.lines))) }
    ensures too_long { IsErrOf result WriteRefused.TooLong →
        IsTooLong (id_of kinds.LineDataChanged)
        (Some (flag_objects buffer flips.now lines.now.lines)) }
    ensures err { OnErr result (out.new.items ≡ out.old.items) }
{
    let front = Front {
        id: event_id(EventKind::LineDataChanged),
        path: LINE_PATH,
        keys: KeyList::Flags.text(),
    };
    let told = ToldLines::Flipped { flips, lines };
    append_lines(out, front, buffer, told, KeyList::Flags.keys())
}

/// The same, and nothing where there are no such lines.
fn write_told(
    out: &mut BytesMut,
    buffer: Handle,
    flips: &FlipLookup<'_>,
    lines: &Lines,
) -> Result<(), WriteRefused>
    ensures ok { OnOk result (IsPut out.old.items out.new.items (id_of kinds.LineDataChanged)
        (flagged_objects buffer flips.now lines.now.lines)) }
    ensures too_long { IsErrOf result WriteRefused.TooLong →
        IsTooLong (id_of kinds.LineDataChanged)
        (flagged_objects buffer flips.now lines.now.lines) }
    ensures err { OnErr result (out.new.items ≡ out.old.items) }
{
    if !has_flipped(lines, flips) {
        return Ok(());
    }
    write_flipped(out, buffer, flips, lines)
}

/// Puts the event of a buffer's lines whose flags differ, which are named by their contents, after
/// the bytes that are in a buffer: an item for each, with its content's pointer. No object of it is
/// made: the length of the message is found first, and its memory taken at once. Where there are no
/// such lines nothing is put, and it takes no memory. Where it is refused the bytes stay as they
/// were.
///
/// `TooLong` where the message would be longer than 2^31 - 1 bytes, which is found before memory is
/// asked for; `NoMemory` where the bytes can't grow by its length.
pub fn write_flags(
    out: &mut BytesMut,
    world: &World,
    buffer: Handle,
    flips: &FlipLookup<'_>,
) -> Result<(), WriteRefused>
    ensures ok { OnOk result (IsPut out.old.items out.new.items (id_of kinds.LineDataChanged)
        (flagged_objects buffer flips.now (lines_at world.now buffer.0))) }
    ensures too_long { IsErrOf result WriteRefused.TooLong →
        IsTooLong (id_of kinds.LineDataChanged)
        (flagged_objects buffer flips.now (lines_at world.now buffer.0)) }
    ensures err { OnErr result (out.new.items ≡ out.old.items) }
{
    match world.lines(buffer) {
        Some(lines) => write_told(out, buffer, flips, lines),
        None => Ok(()),
    }
}

/// The same of the buffer and the lines of a notice.
pub(crate) fn write_noticed_flags(
    alloc: Global,
    out: &mut BytesMut,
    world: &World,
    notice: &Notice,
) -> Result<(), WriteRefused>
    ensures ok { OnOk result (IsPut out.old.items out.new.items (id_of kinds.LineDataChanged)
        (flagged_objects notice.now.buffer notice.now.flips
        (lines_at world.now notice.now.buffer.0))) }
    ensures too_long { IsErrOf result WriteRefused.TooLong →
        IsTooLong (id_of kinds.LineDataChanged)
        (flagged_objects notice.now.buffer notice.now.flips
        (lines_at world.now notice.now.buffer.0)) }
    ensures err { OnErr result (out.new.items ≡ out.old.items) }
{
    let flips = FlipLookup::new(alloc, &notice.flips);
    write_flags(out, world, notice.buffer, &flips)
}
