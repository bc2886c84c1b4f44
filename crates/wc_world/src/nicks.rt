ghost use Rattle.std.specs.Prelude.{◌≡◌, ◌<◌, ℕ, IsSome, OnOk, OnErr, Some, None, nat_eq, length};
ghost use Rattle.std.specs.Prelude.{if◌then◌else◌};
ghost use Rattle.std.specs.HashMap.{spare};
ghost use Rattle.wc_nicklist.specs.Calls.{add_refusal, remove_refusal, change_refusal, add_row};
ghost use Rattle.wc_nicklist.specs.Order.{key_at};
ghost use Rattle.wc_nicklist.specs.Rows.{remove_row, change_row, TextsAreUtf8};
ghost use Rattle.wc_world.specs.Nicks.{list_at, rows_of, room_of, with_room, with_edit};
ghost use Rattle.wc_world.specs.Nicks.{IsListChangedAt};

use crate::nick_item::{add_item, change_item, remove_item};
use std::alloc::Global;
use std::collections::HashMap;
use wc_nicklist::{Item, Key, Nicklist};
use wc_text::{Handle, NoMemory, Text};

/// The nicklists of the buffers by the handles of these.
pub(crate) type Lists = HashMap<u64, Nicklist>;

/// Takes the memory for one buffer more.
pub(crate) fn reserve(lists: &mut Lists) -> Result<(), NoMemory>
    ensures same { (q : ℕ) → list_at lists.new q ≡ list_at lists.old q }
    ensures ok { OnOk result (0 < spare lists.new) }
{
    lists.reserve(1)?;
    Ok(())
}

/// Puts the nicklist of a buffer in. It takes no memory.
pub(crate) fn insert(lists: &mut Lists, h: Handle, list: Nicklist)
    requires { 0 < spare lists.old }
    ensures { (q : ℕ) → list_at lists.new q ≡ (if nat_eq h.0 q then Some list
        else list_at lists.old q) }
{
    // There is room, so that it is put in.
    drop(lists.insert(h.0, list));
}

/// Takes the nicklist of a buffer out. The answer is how many rows it had.
pub(crate) fn remove(lists: &mut Lists, h: Handle) -> u64
    ensures gone { (q : ℕ) → list_at lists.new q ≡ (if nat_eq h.0 q then None
        else list_at lists.old q) }
    ensures count { result ≡ length (rows_of (list_at lists.old h.0)) }
{
    match lists.remove(&h.0) {
        Some(list) => {
            let count = list.count();
            drop(list);
            count
        }
        None => 0,
    }
}

/// The nicklist of a buffer that is there.
pub(crate) fn at(lists: &Lists, h: Handle) -> &Nicklist
    requires { IsSome (list_at lists.now h.0) }
    ensures { list_at lists.now h.0 ≡ Some result.now }
{
    let Some(list) = lists.get(&h.0) else {
        unreachable!()
    };
    list
}

/// Takes the memory for one row more below a parent. The rows stay as they are. A parent that is
/// not there has no memory to take, and is refused before.
pub(crate) fn make_room(
    lists: &mut Lists,
    alloc: Global,
    h: Handle,
    parent: &Text,
) -> Result<(), NoMemory>
    requires { IsSome (list_at lists.old h.0) }
    ensures ok { OnOk result (IsListChangedAt h.0 (with_room parent.now) lists.old lists.new) }
    ensures err { OnErr result ((q : ℕ) → list_at lists.new q ≡ list_at lists.old q) }
{
    let Some(list) = lists.get_mut(&h.0) else {
        unreachable!()
    };
    match list.make_room(alloc, parent) {
        Ok(()) => Ok(()),
        Err(_) => Err(NoMemory),
    }
}

/// Puts an item in for which room was made below the parent. It takes no memory.
pub(crate) fn put(
    lists: &mut Lists,
    alloc: Global,
    h: Handle,
    is_group: bool,
    parent: &Text,
    item: Item,
)
    requires room { room_of (list_at lists.old h.0) ≡ Some parent.now }
    requires free { add_refusal is_group parent.now item.name
        (rows_of (list_at lists.old h.0)) ≡ None }
    requires text { TextsAreUtf8 item }
    ensures { IsListChangedAt h.0 (with_edit (add_row is_group parent.now item)) lists.old
        lists.new }
{
    let Some(list) = lists.get_mut(&h.0) else {
        unreachable!()
    };
    add_item(list, alloc, is_group, parent, item);
}

/// Takes the row of a key out, which can be taken. It takes no memory.
pub(crate) fn take(lists: &mut Lists, h: Handle, key: &Key)
    requires there { IsSome (list_at lists.old h.0) }
    requires free { remove_refusal key.now.is_group key.now.name
        (rows_of (list_at lists.old h.0)) ≡ None }
    ensures { IsListChangedAt h.0 (with_edit (remove_row (key_at key.now.is_group key.now.name)))
        lists.old lists.new }
{
    let Some(list) = lists.get_mut(&h.0) else {
        unreachable!()
    };
    remove_item(list, key);
}

/// Gives the row of the item's name, which is there, its other fields. It takes no memory.
pub(crate) fn write(lists: &mut Lists, h: Handle, is_group: bool, item: Item)
    requires there { IsSome (list_at lists.old h.0) }
    requires free { change_refusal is_group item.name (rows_of (list_at lists.old h.0)) ≡ None }
    requires text { TextsAreUtf8 item }
    ensures { IsListChangedAt h.0 (with_edit (change_row (key_at is_group item.name) item))
        lists.old lists.new }
{
    let Some(list) = lists.get_mut(&h.0) else {
        unreachable!()
    };
    change_item(list, is_group, item);
}
