//! What a client is told of a buffer that lost its oldest lines.

ghost use Rattle.std.specs.Prelude.{◌≡◌, true, IfOk, IfSome, option_map};
ghost use Rattle.std.specs.List.{filter_map};
ghost use Rattle.wc_objects.specs.Forms.{well_formed};
ghost use Rattle.wc_events.specs.BufferObjects.{trim_value, trim_objects, trimmed_objects};
ghost use Rattle.wc_events.specs.LentValues.{object_of};

use crate::lent_value::LentValue;
use crate::values::{about, count};
use std::alloc::Global;
use wc_keys::{Key, KeyList};
use wc_model::{Few, Trim};
use wc_objects::Object;
use wc_text::{Items, NoMemory};

/// What is told of lines that went under a key. None under another key.
fn trim_value(trim: Trim, key: Key) -> Option<LentValue<'static>>
    ensures { option_map object_of result ≡ trim_value trim key }
{
    match key {
        Key::Buffer => Some(LentValue::Ptr(trim.buffer.0)),
        Key::Trimmed => Some(LentValue::Int(count(u64::from(trim.count)))),
        _ => None,
    }
}

/// What is told of lines that went under these keys.
fn trim_values(alloc: Global, trim: Trim, keys: &[Key]) -> Result<Items<Object>, NoMemory>
    ensures { IfOk result (λ values. values ≡ filter_map (trim_value trim) keys.now) }
{
    let mut values = Items::with_room(alloc, keys.len())?;
    for key in keys {
        if let Some(value) = trim_value(trim, *key) {
            values.push(value.object(alloc)?)?;
        }
    }
    Ok(values)
}

/// The object of the event of a buffer that lost lines: how many of its oldest went, since it held as
/// many as it may.
#[rattlefmt::skip]
#[tactic(auto, using(crate::proofs::EventsFormed::trims_formed),
    unfolding(crate::specs::BufferObjects::trim_values))]
pub fn trim_objects(alloc: Global, trim: Trim) -> Result<[Object; 1], NoMemory>
    ensures objects { IfOk result (λ objects. objects ≡ trim_objects trim) }
    ensures formed { IfOk result (λ objects. well_formed objects ≡ true) }
{
    let values = trim_values(alloc, trim, KeyList::Trimmed.keys())?;
    about(alloc, KeyList::Trimmed, trim.buffer, values)
}

/// The same of the first of these buffers. None where there is none.
pub(crate) fn first_trimmed(
    alloc: Global,
    trims: &Few<Trim>,
) -> Result<Option<[Object; 1]>, NoMemory>
    ensures objects { IfOk result (λ told. told ≡ trimmed_objects trims.now) }
    ensures formed { IfOk result (λ told. IfSome told (λ objects. well_formed objects ≡ true)) }
{
    match trims.as_slice().first() {
        Some(trim) => Ok(Some(trim_objects(alloc, *trim)?)),
        None => Ok(None),
    }
}
