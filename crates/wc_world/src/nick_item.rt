ghost use Rattle.std.specs.Prelude.{◌≡◌, IfOk, Some, None};
ghost use Rattle.wc_model.specs.Apply.{item_with, handle_in};
ghost use Rattle.wc_nicklist.specs.Calls.{add_refusal, remove_refusal, change_refusal, add_row};
ghost use Rattle.wc_nicklist.specs.Order.{key_at};
ghost use Rattle.wc_nicklist.specs.Rows.{find_row, remove_row, change_row, TextsAreUtf8};
ghost use Rattle.wc_world.specs.Nicks.{with_edit};

use crate::cut::cut_text;
use std::alloc::Global;
use wc_nicklist::{Item, Key, Nicklist};
use wc_text::{Handle, NoMemory, Text};

/// The most bytes of a colour, a prefix or the prefix's colour.
const ITEM_TEXT_LIMIT: usize = 64;

/// The item with this handle. What is too long is cut.
pub(crate) fn item_with(alloc: Global, handle: Handle, item: Item) -> Result<Item, NoMemory>
    requires { TextsAreUtf8 item }
    ensures { IfOk result (λ cut. cut ≡ item_with handle item) }
{
    let color = cut_text(alloc, item.color, ITEM_TEXT_LIMIT)?;
    let prefix = cut_text(alloc, item.prefix, ITEM_TEXT_LIMIT)?;
    let prefix_color = cut_text(alloc, item.prefix_color, ITEM_TEXT_LIMIT)?;
    Ok(Item {
        handle,
        is_group: item.is_group,
        visible: item.visible,
        level: item.level,
        name: item.name,
        color,
        prefix,
        prefix_color,
    })
}

/// The key of a group or a nick, in memory of its own.
pub(crate) fn key_at(alloc: Global, is_group: bool, name: &Text) -> Result<Key, NoMemory>
    ensures { IfOk result (λ key. key ≡ key_at is_group name.now) }
{
    let name = name.copy(alloc)?;
    Ok(Key { is_group, name })
}

/// The handle of the row of a key; null where there is none.
pub(crate) fn handle_at(list: &Nicklist, key: &Key) -> Handle
    ensures { result ≡ handle_in (find_row key.now list.now.rows) }
{
    match list.row(key) {
        Some(item) => item.handle,
        None => Handle(0),
    }
}

/// Adds an item for which room was made below the parent. It takes no memory.
pub(crate) fn add_item(
    list: &mut Nicklist,
    alloc: Global,
    is_group: bool,
    parent: &Text,
    item: Item,
)
    requires room { list.old.room ≡ Some parent.now }
    requires free { add_refusal is_group parent.now item.name list.old.rows ≡ None }
    requires text { TextsAreUtf8 item }
    ensures { list.new ≡ with_edit (add_row is_group parent.now item) list.old }
{
    if is_group {
        let Ok(()) = list.add_group(alloc, parent, item) else {
            unreachable!()
        };
    } else {
        let Ok(()) = list.add_nick(alloc, parent, item) else {
            unreachable!()
        };
    }
}

/// Takes out the item of a key, which can be taken. It takes no memory.
pub(crate) fn remove_item(list: &mut Nicklist, key: &Key)
    requires { remove_refusal key.now.is_group key.now.name list.old.rows ≡ None }
    ensures { list.new ≡ with_edit (remove_row (key_at key.now.is_group key.now.name)) list.old }
{
    if key.is_group {
        let Ok(item) = list.remove_group(&key.name) else {
            unreachable!()
        };
        drop(item);
    } else {
        let Ok(item) = list.remove_nick(&key.name) else {
            unreachable!()
        };
        drop(item);
    }
}

/// Gives the item of this name, which is there, its other fields. It takes no memory.
pub(crate) fn change_item(list: &mut Nicklist, is_group: bool, item: Item)
    requires free { change_refusal is_group item.name list.old.rows ≡ None }
    requires text { TextsAreUtf8 item }
    ensures { list.new ≡ with_edit (change_row (key_at is_group item.name) item) list.old }
{
    if is_group {
        let Ok(()) = list.change_group(item) else {
            unreachable!()
        };
    } else {
        let Ok(()) = list.change_nick(item) else {
            unreachable!()
        };
    }
}
