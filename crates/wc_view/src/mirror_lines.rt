//! What messages make of the lines. Where memory is refused, nothing changes.

ghost use Rattle.std.specs.Prelude.{◌≡◌, option_map, OnOk, OnErr};
ghost use Rattle.wc_view.specs.Entries.{part_at};
ghost use Rattle.wc_view.specs.Fold.{fold_dump, fold_added, fold_emptied, fold_flags, empties};
ghost use Rattle.wc_view.specs.Fold.{fold_change, fold_event, fold_lines, fold_marks, fold_trimmed};

use crate::buffer_lines::{BufferLines, add_row, of_rows, remove_buffer, set_flags, trim_buffer};
use crate::flags::flags_on;
use crate::named::buffer_named;
use crate::rows::{only_row, rows_on};
use crate::trims::trim_on;
use std::alloc::Global;
use wc_keys::{LINE_PATH, LINES_PATH, event_id};
use wc_model::EventKind;
use wc_objects::WireMessage;
use wc_text::{NoMemory, Text};

/// The dump of lines sets them.
fn take_dump(
    lines: &mut Option<Vec<BufferLines>>,
    alloc: Global,
    limit: Option<usize>,
    message: &WireMessage,
) -> Result<(), NoMemory>
    ensures ok { OnOk result (option_map (λ v. part_at v.items) lines.new ≡ fold_dump limit
        (option_map (λ v. part_at v.items) lines.old) message.now) }
    ensures err { OnErr result (option_map (λ v. v.items) lines.new
        ≡ option_map (λ v. v.items) lines.old) }
{
    let Some(rows) = rows_on(alloc, LINES_PATH, &message.objects)? else {
        return Ok(());
    };
    *lines = Some(of_rows(alloc, rows, limit)?);
    Ok(())
}

/// A new line goes after those of its buffer, once the dump was taken.
fn take_line(
    lines: &mut Option<Vec<BufferLines>>,
    alloc: Global,
    limit: Option<usize>,
    message: &WireMessage,
) -> Result<(), NoMemory>
    ensures ok { OnOk result (option_map (λ v. part_at v.items) lines.new ≡ fold_added limit
        (option_map (λ v. part_at v.items) lines.old) message.now) }
    ensures err { OnErr result (option_map (λ v. v.items) lines.new
        ≡ option_map (λ v. v.items) lines.old) }
{
    let Some(held) = lines else {
        return Ok(());
    };
    let Some(rows) = rows_on(alloc, LINE_PATH, &message.objects)? else {
        return Ok(());
    };
    match only_row(rows) {
        Some(row) => add_row(held, alloc, row, limit),
        None => Ok(()),
    }
}

/// A buffer that is closed or cleared has no lines any more, once the dump was taken.
fn take_emptied(lines: &mut Option<Vec<BufferLines>>, message: &WireMessage)
    ensures { option_map (λ v. part_at v.items) lines.new
        ≡ fold_emptied (option_map (λ v. part_at v.items) lines.old) message.now }
{
    let Some(entries) = lines else {
        return;
    };
    if let Some(buffer) = buffer_named(&message.objects) {
        remove_buffer(entries, buffer);
    }
}

/// Flags of lines are set, once the dump was taken.
fn take_flags(
    lines: &mut Option<Vec<BufferLines>>,
    alloc: Global,
    message: &WireMessage,
) -> Result<(), NoMemory>
    ensures ok { OnOk result (option_map (λ v. part_at v.items) lines.new
        ≡ fold_flags (option_map (λ v. part_at v.items) lines.old) message.now) }
    ensures err { OnErr result (option_map (λ v. v.items) lines.new
        ≡ option_map (λ v. v.items) lines.old) }
{
    let Some(entries) = lines else {
        return Ok(());
    };
    if let Some(flags) = flags_on(alloc, &message.objects)? {
        set_flags(entries.as_mut_slice(), flags.as_slice());
    }
    Ok(())
}

/// The oldest lines of a buffer go, once the dump was taken.
fn take_trimmed(lines: &mut Option<Vec<BufferLines>>, message: &WireMessage)
    ensures { option_map (λ v. part_at v.items) lines.new
        ≡ fold_trimmed (option_map (λ v. part_at v.items) lines.old) message.now }
{
    let Some(entries) = lines else {
        return;
    };
    if let Some(trim) = trim_on(&message.objects) {
        trim_buffer(entries.as_mut_slice(), trim);
    }
}

/// Whether after the event of this id its buffer has no lines any more.
fn empties(id: &[u8]) -> bool
    ensures { result ≡ empties id.now }
{
    id == event_id(EventKind::Closing) || id == event_id(EventKind::Cleared)
}

/// Folds the event of flags of lines, or of lines that went.
fn take_marks(
    lines: &mut Option<Vec<BufferLines>>,
    alloc: Global,
    message: &WireMessage,
) -> Result<(), NoMemory>
    ensures ok { OnOk result (option_map (λ v. part_at v.items) lines.new
        ≡ fold_marks (option_map (λ v. part_at v.items) lines.old) message.now) }
    ensures err { OnErr result (option_map (λ v. v.items) lines.new
        ≡ option_map (λ v. v.items) lines.old) }
{
    if message.id.as_slice() == event_id(EventKind::LineDataChanged) {
        return take_flags(lines, alloc, message);
    }
    if message.id.as_slice() == event_id(EventKind::LinesTrimmed) {
        take_trimmed(lines, message);
    }
    Ok(())
}

/// Folds the event of a change of lines that are held.
fn take_change(
    lines: &mut Option<Vec<BufferLines>>,
    alloc: Global,
    message: &WireMessage,
) -> Result<(), NoMemory>
    ensures ok { OnOk result (option_map (λ v. part_at v.items) lines.new
        ≡ fold_change (option_map (λ v. part_at v.items) lines.old) message.now) }
    ensures err { OnErr result (option_map (λ v. v.items) lines.new
        ≡ option_map (λ v. v.items) lines.old) }
{
    if empties(message.id.as_slice()) {
        take_emptied(lines, message);
        return Ok(());
    }
    take_marks(lines, alloc, message)
}

/// Folds an event.
fn take_event(
    lines: &mut Option<Vec<BufferLines>>,
    alloc: Global,
    limit: Option<usize>,
    message: &WireMessage,
) -> Result<(), NoMemory>
    ensures ok { OnOk result (option_map (λ v. part_at v.items) lines.new ≡ fold_event limit
        (option_map (λ v. part_at v.items) lines.old) message.now) }
    ensures err { OnErr result (option_map (λ v. v.items) lines.new
        ≡ option_map (λ v. v.items) lines.old) }
{
    if message.id.as_slice() == event_id(EventKind::LineAdded) {
        return take_line(lines, alloc, limit, message);
    }
    take_change(lines, alloc, message)
}

/// Folds what a message tells of lines, of which a buffer has as many as the limit at most, where
/// there is one.
pub(crate) fn fold_lines(
    lines: &mut Option<Vec<BufferLines>>,
    alloc: Global,
    limit: Option<usize>,
    dump: &Text,
    message: &WireMessage,
) -> Result<(), NoMemory>
    ensures ok { OnOk result (option_map (λ v. part_at v.items) lines.new
        ≡ fold_lines limit dump.now (option_map (λ v. part_at v.items) lines.old) message.now) }
    ensures err { OnErr result (option_map (λ v. v.items) lines.new
        ≡ option_map (λ v. v.items) lines.old) }
{
    if message.id.as_slice() == dump.as_slice() {
        return take_dump(lines, alloc, limit, message);
    }
    take_event(lines, alloc, limit, message)
}
