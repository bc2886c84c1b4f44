ghost use Rattle.std.specs.Prelude.{◌≡◌, ◌≢◌, true, IfOk, IfSome, OnOk, OnErr, IsErrOf};
ghost use Rattle.std.specs.Prelude.{option_map};
ghost use Rattle.std.specs.Str.{IsUtf8};
ghost use Rattle.wc_buffers.specs.Calls.{entry_of};
ghost use Rattle.wc_buffers.specs.Kept.{IsBuffer};
ghost use Rattle.wc_events.specs.BufferObjects.{named_objects, placed_objects, told_objects};
ghost use Rattle.wc_events.specs.BufferObjects.{objects_of, event_objects};
ghost use Rattle.wc_events.specs.EventBytes.{IsPut, IsTooLong};
ghost use Rattle.wc_events.specs.LineObjects.{added_objects};
ghost use Rattle.wc_keys.specs.Events.{id_of};
ghost use Rattle.wc_lines.specs.Ring.{newest};
ghost use Rattle.wc_model.specs.World.{lines_at};
ghost use Rattle.wc_model.specs.declared.notice.EventKind.TheVariants as kinds;
ghost use Rattle.wc_objects.specs.Forms.{well_formed};

use crate::buffers::row_and_vars;
use crate::event_values::{noticed_values, told_values};
use crate::flags::write_noticed_flags;
use crate::line_writer::write_line_added;
use crate::trims::first_trimmed;
use crate::values::about;
use bytes::BytesMut;
use std::alloc::Global;
use wc_buffers::Buffers;
use wc_keys::{KeyList, event_id};
use wc_model::{EventKind, Notice};
use wc_objects::{Object, WriteRefused, append_message};
use wc_text::{Handle, NoMemory};
use wc_world::World;

#[tactic(auto, using(crate::proofs::EventsFormed::named_formed), unfolding(crate::specs::BufferObjects::named_values))]
fn named_object(alloc: Global, notice: &Notice) -> Result<[Object; 1], NoMemory>
    requires text { IsUtf8 notice.now.full_name }
    ensures objects { IfOk result (λ objects. objects ≡ named_objects notice.now) }
    ensures formed { IfOk result (λ objects. well_formed objects ≡ true) }
{
    let values = noticed_values(alloc, notice, KeyList::Named.keys())?;
    about(alloc, KeyList::Named, notice.buffer, values)
}

#[rattlefmt::skip]
#[tactic(auto, using(crate::proofs::EventsFormed::placed_formed),
    unfolding(crate::specs::BufferObjects::placed_values))]
fn placed_object(alloc: Global, notice: &Notice) -> Result<[Object; 1], NoMemory>
    requires text { IsUtf8 notice.now.full_name }
    ensures objects { IfOk result (λ objects. objects ≡ placed_objects notice.now) }
    ensures formed { IfOk result (λ objects. well_formed objects ≡ true) }
{
    let values = noticed_values(alloc, notice, KeyList::Placed.keys())?;
    about(alloc, KeyList::Placed, notice.buffer, values)
}

/// What is told of the buffer of a notice under the keys of a list. None where it is not there.
fn told_object(
    alloc: Global,
    buffers: &Buffers,
    notice: &Notice,
    list: KeyList,
) -> Result<Option<[Object; 1]>, NoMemory>
    ensures objects { IfOk result (λ told. told ≡ option_map (told_objects list notice.now)
        (entry_of notice.now.buffer buffers.now)) }
    ensures kept { OnOk result (IfSome (entry_of notice.now.buffer buffers.now) IsBuffer) }
{
    let Some((row, vars)) = row_and_vars(buffers, notice.buffer) else {
        return Ok(None);
    };
    let values = told_values(alloc, notice, row, vars, list.keys())?;
    Ok(Some(about(alloc, list, notice.buffer, values)?))
}

/// The object of the event of a notice that is not of lines, in the world after the change. None where
/// nothing is told: of nicklists, which are pushed, of another limit of lines, and of a buffer that is
/// not there.
#[rattlefmt::skip]
#[tactic(auto, using(
    crate::proofs::EventsFormed::opened_told,
    crate::proofs::EventsFormed::renamed_told,
    crate::proofs::EventsFormed::title_told,
    crate::proofs::EventsFormed::vars_told
), unfolding(
    crate::specs::BufferObjects::objects_of,
    crate::specs::BufferObjects::opened_values,
    crate::specs::BufferObjects::renamed_values,
    crate::specs::BufferObjects::title_values,
    crate::specs::BufferObjects::vars_values
))]
fn event_objects(
    alloc: Global,
    world: &World,
    notice: &Notice,
) -> Result<Option<[Object; 1]>, NoMemory>
    requires text { IsUtf8 notice.now.full_name }
    requires no_line { notice.now.kind ≢ kinds.LineAdded }
    requires no_flags { notice.now.kind ≢ kinds.LineDataChanged }
    ensures objects { IfOk result (λ told. told ≡ event_objects world.now notice.now) }
    ensures formed { IfOk result (λ told. IfSome told (λ objects. well_formed objects ≡ true)) }
{
    match notice.kind {
        EventKind::Opened => told_object(alloc, world.buffers(), notice, KeyList::Opened),
        EventKind::Moved
        | EventKind::Merged
        | EventKind::Unmerged
        | EventKind::Hidden
        | EventKind::Unhidden => Ok(Some(placed_object(alloc, notice)?)),
        EventKind::Renamed => told_object(alloc, world.buffers(), notice, KeyList::Renamed),
        EventKind::TitleChanged => told_object(alloc, world.buffers(), notice, KeyList::Titled),
        EventKind::VarAdded | EventKind::VarChanged | EventKind::VarRemoved => {
            told_object(alloc, world.buffers(), notice, KeyList::Variables)
        }
        EventKind::Cleared | EventKind::Closing => Ok(Some(named_object(alloc, notice)?)),
        EventKind::LinesTrimmed => first_trimmed(alloc, &notice.trims),
        EventKind::LineAdded => unreachable!(),
        EventKind::LineDataChanged => unreachable!(),
        EventKind::Nicklist
        | EventKind::NicklistDiff
        | EventKind::NickTouched
        | EventKind::LimitSet => Ok(None),
    }
}

/// Puts the event of a notice that is not of lines.
fn write_object(
    alloc: Global,
    out: &mut BytesMut,
    world: &World,
    notice: &Notice,
) -> Result<(), WriteRefused>
    requires text { IsUtf8 notice.now.full_name }
    requires no_line { notice.now.kind ≢ kinds.LineAdded }
    requires no_flags { notice.now.kind ≢ kinds.LineDataChanged }
    ensures ok { OnOk result (IsPut out.old.items out.new.items (id_of notice.now.kind)
        (event_objects world.now notice.now)) }
    ensures too_long { IsErrOf result WriteRefused.TooLong →
        IsTooLong (id_of notice.now.kind) (event_objects world.now notice.now) }
    ensures err { OnErr result (out.new.items ≡ out.old.items) }
{
    let Ok(told) = event_objects(alloc, world, notice) else {
        return Err(WriteRefused::NoMemory);
    };
    match told {
        Some(objects) => append_message(out, event_id(notice.kind), objects.as_slice()),
        None => Ok(()),
    }
}

/// Puts the event of the newest line of a buffer, where it has one.
fn write_newest(out: &mut BytesMut, world: &World, buffer: Handle) -> Result<(), WriteRefused>
    ensures ok { OnOk result (IsPut out.old.items out.new.items (id_of kinds.LineAdded)
        (option_map (added_objects buffer) (newest (lines_at world.now buffer.0)))) }
    ensures too_long { IsErrOf result WriteRefused.TooLong → IsTooLong (id_of kinds.LineAdded)
        (option_map (added_objects buffer) (newest (lines_at world.now buffer.0))) }
    ensures err { OnErr result (out.new.items ≡ out.old.items) }
{
    let Some(lines) = world.lines(buffer) else {
        return Ok(());
    };
    let Some(line) = lines.newest() else {
        return Ok(());
    };
    write_line_added(out, buffer, line)
}

/// Puts the event of a notice, in the world after the change, after the bytes that are in a buffer.
/// Of a line and of flags no object is made. Nothing is put where nothing is told: of nicklists,
/// which are pushed, of another limit of lines, of flags where no line of the buffer is among those
/// that differ, and of a buffer or a line that is not there. Where it is refused the bytes stay as
/// they were.
///
/// `TooLong` where the message would be longer than 2^31 - 1 bytes; `NoMemory` where memory is asked
/// for and not found.
#[tactic(auto, unfolding(crate::specs::BufferObjects::objects_of))]
pub fn write_event(
    alloc: Global,
    out: &mut BytesMut,
    world: &World,
    notice: &Notice,
) -> Result<(), WriteRefused>
    requires text { IsUtf8 notice.now.full_name }
    ensures ok { OnOk result (IsPut out.old.items out.new.items (id_of notice.now.kind)
        (event_objects world.now notice.now)) }
    ensures too_long { IsErrOf result WriteRefused.TooLong →
        IsTooLong (id_of notice.now.kind) (event_objects world.now notice.now) }
    ensures err { OnErr result (out.new.items ≡ out.old.items) }
{
    match notice.kind {
        EventKind::LineAdded => write_newest(out, world, notice.buffer),
        EventKind::LineDataChanged => write_noticed_flags(alloc, out, world, notice),
        _ => write_object(alloc, out, world, notice),
    }
}
