ghost use Rattle.std.specs.Prelude.{◌≡◌, ◌≢◌, Some, None, OnOk, IfErr};
ghost use Rattle.wc_nicklist.specs.Calls.{add_refusal, remove_refusal, change_refusal, add_row};
ghost use Rattle.wc_nicklist.specs.Order.{key_at, key_of};
ghost use Rattle.wc_nicklist.specs.Rows.{change_row, remove_row, TextsAreUtf8};

use std::alloc::Global;
use wc_nicklist::{Item, NickRefused, Nicklist};
use wc_text::Text;

/// Adds a group or a nick below a parent.
pub(crate) fn add(
    alloc: Global,
    list: &mut Nicklist,
    parent: &Text,
    item: Item,
) -> Result<(), NickRefused>
    requires { TextsAreUtf8 item }
    ensures accepted { OnOk result
        (add_refusal item.is_group parent.now item.name list.old.rows ≡ None) }
    ensures after { OnOk result
        (list.new.rows ≡ add_row item.is_group parent.now item list.old.rows) }
    ensures root { OnOk result (list.new.root ≡ list.old.root) }
    ensures refused { IfErr result (λ e. e ≢ NickRefused.NoMemory →
        add_refusal item.is_group parent.now item.name list.old.rows ≡ Some e) }
{
    if item.is_group {
        list.add_group(alloc, parent, item)
    } else {
        list.add_nick(alloc, parent, item)
    }
}

/// Removes the group or the nick of a name.
pub(crate) fn remove(list: &mut Nicklist, is_group: bool, name: &Text) -> Result<(), NickRefused>
    ensures accepted { OnOk result (remove_refusal is_group name.now list.old.rows ≡ None) }
    ensures after { OnOk result
        (list.new.rows ≡ remove_row (key_at is_group name.now) list.old.rows) }
    ensures root { OnOk result (list.new.root ≡ list.old.root) }
    ensures refused { IfErr result (λ e. remove_refusal is_group name.now list.old.rows ≡ Some e) }
{
    let removed = if is_group {
        list.remove_group(name)?
    } else {
        list.remove_nick(name)?
    };
    drop(removed);
    Ok(())
}

/// Gives the group or the nick of an item's name the item's other fields.
pub(crate) fn change(list: &mut Nicklist, item: Item) -> Result<(), NickRefused>
    requires { TextsAreUtf8 item }
    ensures accepted { OnOk result (change_refusal item.is_group item.name list.old.rows ≡ None) }
    ensures after { OnOk result (list.new.rows ≡ change_row (key_of item) item list.old.rows) }
    ensures root { OnOk result (list.new.root ≡ list.old.root) }
    ensures refused { IfErr result (λ e. change_refusal item.is_group item.name list.old.rows
        ≡ Some e) }
{
    if item.is_group {
        list.change_group(item)
    } else {
        list.change_nick(item)
    }
}
