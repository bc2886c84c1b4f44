//! The reply to `hdata` on the path of the hotlist.

ghost use Rattle.std.specs.Prelude.{◌≡◌, ◌++◌, ◌∷◌, [], true, bytes_eq, map, IfOk, OnOk};
ghost use Rattle.wc_objects.specs.Forms.{well_formed};
ghost use Rattle.wc_session.specs.Hotlists.{hotlist_object, hotlist_objects, hotlist_text, int_of};
ghost use Rattle.wc_session.specs.Hotlists.{row_item, row_value, row_values};

use std::alloc::Global;
use wc_events::parts::count;
use wc_hdata::{Key, keys_text, read_keys_in};
use wc_hotlist::{HotRow, Hotlist};
use wc_keys::KeyList;
use wc_objects::{Hda, HdaItem, Kind, Object};
use wc_text::{Items, NoMemory, Text};

/// The path that asks for it.
const PATH: &[u8] = b"hotlist:gui_hotlist(*)";

/// The name of what the path leads to.
const NAME: &[u8] = b"hotlist";

/// Whether a path asks for the hotlist.
pub fn asks_hotlist(path: &[u8]) -> bool
    ensures { result ≡ bytes_eq path.now hotlist_text }
{
    path == PATH
}

fn numbers(alloc: Global, counts: &[u32]) -> Result<Items<Object>, NoMemory>
    ensures { IfOk result (λ values. values ≡ map int_of counts.now) }
{
    let mut values = Items::with_room(alloc, counts.len())?;
    for number in counts {
        values.push(Object::Int(count(u64::from(*number))))?;
    }
    Ok(values)
}

/// The value of a row under a key. None where the key is none of the hotlist.
fn row_value(alloc: Global, row: &HotRow, key: Key) -> Result<Option<Object>, NoMemory>
    ensures { IfOk result (λ value. value ≡ row_value row.now key) }
{
    match key {
        Key::Priority => Ok(Some(Object::Int(count(u64::from(row.priority))))),
        Key::Buffer => Ok(Some(Object::Ptr(row.buffer.0))),
        Key::Unread => {
            let values = numbers(alloc, &row.counts)?;
            Ok(Some(Object::Arr {
                kind: Kind::Int,
                values,
            }))
        }
        _ => Ok(None),
    }
}

/// The values of a row that the keys name, in their order.
fn row_values(alloc: Global, row: &HotRow, keys: &[Key]) -> Result<Items<Object>, NoMemory>
    ensures { IfOk result (λ values. values ≡ row_values keys.now row.now) }
{
    let mut values = Items::new(alloc);
    for key in keys {
        if let Some(value) = row_value(alloc, row, *key)? {
            values.push(value)?;
        }
    }
    Ok(values)
}

/// Puts the item of a row after others.
fn push_row(
    alloc: Global,
    items: &mut Items<HdaItem>,
    keys: &[Key],
    row: &HotRow,
) -> Result<(), NoMemory>
    ensures { OnOk result (items.new ≡ items.old ++ row_item keys.now row.now ∷ []) }
{
    let values = row_values(alloc, row, keys)?;
    let mut pointers = Items::with_room(alloc, 1)?;
    pointers.push(row.buffer.0)?;
    items.push(HdaItem { pointers, values })
}

fn row_items(alloc: Global, hotlist: &Hotlist, keys: &[Key]) -> Result<Items<HdaItem>, NoMemory>
    ensures { IfOk result (λ items. items ≡ map (row_item keys.now) hotlist.now) }
{
    let mut items = Items::new(alloc);
    for row in hotlist.rows() {
        push_row(alloc, &mut items, keys, &row)?;
    }
    Ok(items)
}

#[tactic(auto, unfolding(crate::specs::Hotlists::hotlist_object))]
fn hotlist_object(alloc: Global, hotlist: &Hotlist, keys: &[u8]) -> Result<Object, NoMemory>
    ensures { IfOk result (λ object. object ≡ hotlist_object hotlist.now keys.now) }
{
    let asked = read_keys_in(alloc, KeyList::Hotlist, keys)?;
    let items = row_items(alloc, hotlist, asked.as_slice())?;
    let names = keys_text(alloc, asked.as_slice())?;
    let path = Text::from_slice(alloc, NAME)?;
    Ok(Object::Hda(Hda {
        path: Some(path),
        keys: Some(names),
        items,
    }))
}

/// The rows of the hotlist in their order, with the values that the keys name. Keys are named as
/// `read_keys_in` has it.
pub fn hotlist_objects(
    alloc: Global,
    hotlist: &Hotlist,
    keys: &[u8],
) -> Result<[Object; 1], NoMemory>
    ensures objects { IfOk result (λ objects. objects ≡ hotlist_objects hotlist.now keys.now) }
    ensures formed { IfOk result (λ objects. well_formed objects ≡ true) }
{
    Ok([hotlist_object(alloc, hotlist, keys)?])
}
