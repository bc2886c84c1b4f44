//! The values of a buffer, by their keys.

ghost use Rattle.std.specs.Prelude.{◌≡◌, IfOk, option_map};
ghost use Rattle.std.specs.List.{filter_map};
ghost use Rattle.wc_events.specs.BufferObjects.{noticed_value, entry_value, numbered_value};
ghost use Rattle.wc_events.specs.BufferObjects.{told_value, bare_name, is_channel};
ghost use Rattle.wc_events.specs.LentValues.{object_of};

use crate::lent_value::LentValue;
use crate::values::{count, truth};
use std::alloc::Global;
use wc_buffers::{BufferRow, Vars};
use wc_keys::Key;
use wc_model::Notice;
use wc_objects::Object;
use wc_text::{Items, NoMemory, split_once};

/// The plain type of a buffer, which has lines.
const PLAIN: i32 = 0;

/// All lines of a buffer call for notice.
const ALL_LINES: i32 = 3;

/// What a notice says of its buffer under a key. None under another key.
fn noticed_value<'a>(notice: &'a Notice, key: Key) -> Option<LentValue<'a>>
    ensures { option_map object_of result ≡ noticed_value notice.now key }
{
    let value = match key {
        Key::Number => LentValue::Int(count(u64::from(notice.number))),
        Key::FullName => LentValue::Str(notice.full_name.as_slice()),
        Key::PrevBuffer => LentValue::Ptr(notice.prev.0),
        Key::NextBuffer => LentValue::Ptr(notice.next.0),
        _ => return None,
    };
    Some(value)
}

/// The name of a buffer without its plugin: what is after the first dot of its full name, or all of
/// it where it has no dot.
fn bare_name(full_name: &[u8]) -> &[u8]
    ensures { result.now ≡ bare_name full_name.now }
{
    let (_, text_after) = split_once(full_name, b'.');
    text_after.unwrap_or(full_name)
}

/// Whether a buffer is of a channel, by its variable `type`.
fn is_channel(vars: &Vars) -> bool
    ensures { result ≡ is_channel vars.now }
{
    match vars.get(b"type") {
        Some(value) => value.as_slice() == b"channel".as_slice(),
        None => false,
    }
}

/// What a buffer has under a key, by its row and its variables. None under a key that is of no
/// buffer, and under those that say where it is among the others.
pub fn entry_value<'a>(row: &'a BufferRow, vars: &'a Vars, key: Key) -> Option<LentValue<'a>>
    ensures { option_map object_of result
        ≡ entry_value (record { row = row.now; vars = vars.now }) key }
{
    let value = match key {
        Key::FullName => LentValue::Str(row.full_name.as_slice()),
        Key::ShortName => LentValue::Str(row.short_name.as_slice()),
        Key::Hidden => LentValue::Int(truth(row.hidden)),
        Key::Title => LentValue::Str(row.title.as_slice()),
        Key::LocalVariables => LentValue::Vars(vars),
        Key::Name => LentValue::Str(bare_name(row.full_name.as_slice())),
        Key::BufferType => LentValue::Int(PLAIN),
        Key::Notify => LentValue::Int(ALL_LINES),
        Key::Nicklist => LentValue::Int(truth(is_channel(vars))),
        _ => return None,
    };
    Some(value)
}

/// The same with the number of the buffer.
fn numbered_value<'a>(
    number: i32,
    row: &'a BufferRow,
    vars: &'a Vars,
    key: Key,
) -> Option<LentValue<'a>>
    ensures { option_map object_of result
        ≡ numbered_value number (record { row = row.now; vars = vars.now }) key }
{
    match key {
        Key::Number => Some(LentValue::Int(number)),
        _ => entry_value(row, vars, key),
    }
}

/// What is told of a buffer after a change under a key.
fn told_value<'a>(
    notice: &'a Notice,
    row: &'a BufferRow,
    vars: &'a Vars,
    key: Key,
) -> Option<LentValue<'a>>
    ensures { option_map object_of result
        ≡ told_value notice.now (record { row = row.now; vars = vars.now }) key }
{
    match noticed_value(notice, key) {
        Some(value) => Some(value),
        None => entry_value(row, vars, key),
    }
}

/// What a notice says of its buffer under these keys.
pub(crate) fn noticed_values(
    alloc: Global,
    notice: &Notice,
    keys: &[Key],
) -> Result<Items<Object>, NoMemory>
    ensures { IfOk result (λ values. values ≡ filter_map (noticed_value notice.now) keys.now) }
{
    let mut values = Items::with_room(alloc, keys.len())?;
    for key in keys {
        if let Some(value) = noticed_value(notice, *key) {
            values.push(value.object(alloc)?)?;
        }
    }
    Ok(values)
}

/// What is told of a buffer after a change under these keys.
pub(crate) fn told_values(
    alloc: Global,
    notice: &Notice,
    row: &BufferRow,
    vars: &Vars,
    keys: &[Key],
) -> Result<Items<Object>, NoMemory>
    ensures { IfOk result (λ values. values
        ≡ filter_map (told_value notice.now (record { row = row.now; vars = vars.now })) keys.now) }
{
    let mut values = Items::with_room(alloc, keys.len())?;
    for key in keys {
        if let Some(value) = told_value(notice, row, vars, *key) {
            values.push(value.object(alloc)?)?;
        }
    }
    Ok(values)
}

/// What a buffer of this number has under these keys.
pub(crate) fn numbered_values(
    alloc: Global,
    number: i32,
    row: &BufferRow,
    vars: &Vars,
    keys: &[Key],
) -> Result<Items<Object>, NoMemory>
    ensures { IfOk result (λ values. values
        ≡ filter_map (numbered_value number (record { row = row.now; vars = vars.now })) keys.now) }
{
    let mut values = Items::with_room(alloc, keys.len())?;
    for key in keys {
        if let Some(value) = numbered_value(number, row, vars, *key) {
            values.push(value.object(alloc)?)?;
        }
    }
    Ok(values)
}
