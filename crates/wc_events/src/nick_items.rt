//! Nicklists as bytes after those that are in a buffer. Each group and each nick is gone to once: how
//! long it is, is found as it is put. Where one is refused, those before it stay.

ghost use Rattle.std.specs.Prelude.{◌≡◌, ◌+◌, ◌^◌, ◌<◌, ◌∷◌, [], map};
ghost use Rattle.wc_buffers.specs.Calls.{entry_of};
ghost use Rattle.wc_buffers.specs.Kept.{handles};
ghost use Rattle.wc_nickdiff.specs.NickPush.{full_list, root_item};
ghost use Rattle.wc_events.specs.Dumps.{if_there};
ghost use Rattle.wc_events.specs.NickBytes.{Writes};
ghost use Rattle.wc_events.specs.NickForms.{all_nicks, nick_group};
ghost use Rattle.wc_events.specs.NickObjects.{diff_item, nick_item, root_and_rows};
ghost use Rattle.wc_events.specs.Nicks.{nicks_items};
ghost use Rattle.wc_nicklist.specs.declared.item.Row.{Row};

use crate::nick_bytes::{
    Left, put_diff, put_nick, put_root, room_after_diff, room_after_nick, room_after_root,
};
use crate::nicks::Nicks;
use bytes::BytesMut;
use wc_nickdiff::DiffItem;
use wc_nicklist::{Item, Nicklist};
use wc_objects::WriteRefused;
use wc_text::Handle;
use wc_world::World;

// ---- one item

/// Puts a group or a nick of a list.
#[inline(always)]
fn write_nick(
    out: &mut BytesMut,
    left: Left,
    buffer: Handle,
    item: &Item,
) -> Result<Left, WriteRefused>
    requires { left.items + left.room < 2 ^ 31 }
    ensures { Writes result left out.old out.new (nick_item buffer item.now ∷ []) }
{
    let Some(rest) = room_after_nick(left, buffer, item) else {
        return Err(WriteRefused::TooLong);
    };
    let Ok(()) = out.reserve(left.room - rest.room) else {
        return Err(WriteRefused::NoMemory);
    };
    put_nick(out, buffer, item);
    Ok(rest)
}

/// Puts the root group of a buffer.
fn write_root(
    out: &mut BytesMut,
    left: Left,
    buffer: Handle,
    root: Handle,
) -> Result<Left, WriteRefused>
    requires { left.items + left.room < 2 ^ 31 }
    ensures { Writes result left out.old out.new (nick_item buffer (root_item root) ∷ []) }
{
    let Some(rest) = room_after_root(left, buffer, root) else {
        return Err(WriteRefused::TooLong);
    };
    let Ok(()) = out.reserve(left.room - rest.room) else {
        return Err(WriteRefused::NoMemory);
    };
    put_root(out, buffer, root);
    Ok(rest)
}

/// Puts an item of a diff.
fn write_diff(
    out: &mut BytesMut,
    left: Left,
    buffer: Handle,
    diff: &DiffItem,
) -> Result<Left, WriteRefused>
    requires { left.items + left.room < 2 ^ 31 }
    ensures { Writes result left out.old out.new (diff_item buffer diff.now ∷ []) }
{
    let Some(rest) = room_after_diff(left, buffer, diff) else {
        return Err(WriteRefused::TooLong);
    };
    let Ok(()) = out.reserve(left.room - rest.room) else {
        return Err(WriteRefused::NoMemory);
    };
    put_diff(out, buffer, diff);
    Ok(rest)
}

// ---- one after another

/// Puts the items of a diff.
fn write_diffs(
    out: &mut BytesMut,
    whole: Left,
    buffer: Handle,
    items: &[DiffItem],
) -> Result<Left, WriteRefused>
    requires { whole.items + whole.room < 2 ^ 31 }
    ensures { Writes result whole out.old out.new (map (diff_item buffer) items.now) }
{
    let mut left = whole;
    for item in items {
        left = write_diff(out, left, buffer, item)?;
    }
    Ok(left)
}

/// Puts the items of a push.
fn write_full(
    out: &mut BytesMut,
    whole: Left,
    buffer: Handle,
    items: &[Item],
) -> Result<Left, WriteRefused>
    requires { whole.items + whole.room < 2 ^ 31 }
    ensures { Writes result whole out.old out.new (map (nick_item buffer) items.now) }
{
    let mut left = whole;
    for item in items {
        left = write_nick(out, left, buffer, item)?;
    }
    Ok(left)
}

/// Puts the rows of a buffer's nicklist.
fn write_rows(
    out: &mut BytesMut,
    whole: Left,
    buffer: Handle,
    list: &Nicklist,
) -> Result<Left, WriteRefused>
    requires { whole.items + whole.room < 2 ^ 31 }
    ensures { Writes result whole out.old out.new
        (map (λ (r : Row). nick_item buffer r.item) list.now.rows) }
{
    let mut left = whole;
    for row in list.rows() {
        left = write_nick(out, left, buffer, row.item())?;
    }
    Ok(left)
}

/// Puts the root and the rows of a buffer's nicklist.
fn write_list(
    out: &mut BytesMut,
    left: Left,
    buffer: Handle,
    list: &Nicklist,
) -> Result<Left, WriteRefused>
    requires { left.items + left.room < 2 ^ 31 }
    ensures { Writes result left out.old out.new (map (nick_item buffer)
        (full_list (root_item list.now.root) list.now.rows)) }
{
    let left = write_root(out, left, buffer, list.root())?;
    write_rows(out, left, buffer, list)
}

/// Puts the nicklist of a buffer, where the buffer is there.
fn write_buffer(
    out: &mut BytesMut,
    left: Left,
    world: &World,
    buffer: Handle,
) -> Result<Left, WriteRefused>
    requires { left.items + left.room < 2 ^ 31 }
    ensures { Writes result left out.old out.new
        (if_there (root_and_rows world.now) (entry_of buffer world.now.groups)) }
{
    match world.nicks(buffer) {
        Some(list) => write_list(out, left, buffer, list),
        None => Ok(left),
    }
}

/// Puts the nicklists of the buffers of a group.
fn write_group(
    out: &mut BytesMut,
    whole: Left,
    world: &World,
    group: &[Handle],
) -> Result<Left, WriteRefused>
    requires { whole.items + whole.room < 2 ^ 31 }
    ensures { Writes result whole out.old out.new (nick_group world.now group.now) }
{
    let mut left = whole;
    for buffer in group {
        left = write_buffer(out, left, world, *buffer)?;
    }
    Ok(left)
}

/// Puts the nicklists of all buffers.
fn write_all(out: &mut BytesMut, whole: Left, world: &World) -> Result<Left, WriteRefused>
    requires { whole.items + whole.room < 2 ^ 31 }
    ensures { Writes result whole out.old out.new
        (all_nicks world.now (handles world.now.groups)) }
{
    let mut left = whole;
    for group in world.buffers().groups() {
        left = write_group(out, left, world, group)?;
    }
    Ok(left)
}

/// Puts groups and nicks that are told in one message. It answers what is left of the room, which is
/// that of the message, and how many items there are.
pub(crate) fn write_items(
    out: &mut BytesMut,
    left: Left,
    nicks: Nicks<'_>,
) -> Result<Left, WriteRefused>
    requires { left.items + left.room < 2 ^ 31 }
    ensures { Writes result left out.old out.new (nicks_items nicks.entry) }
{
    match nicks {
        Nicks::All(world) => write_all(out, left, world),
        Nicks::Of { buffer, list } => write_list(out, left, buffer, list),
        Nicks::Full { buffer, items } => write_full(out, left, buffer, items.as_slice()),
        Nicks::Diff { buffer, items } => write_diffs(out, left, buffer, items.as_slice()),
    }
}
