//! The changes of nicklists that a script asks for.

ghost use Rattle.std.specs.Prelude.{IfOk};
ghost use Rattle.wc_nicklist.specs.Rows.{TextsAreUtf8};
ghost use Rattle.wc_world.specs.Texts.{IsChangeText};

use crate::words::{check_options, is_set, number_option, text, text_option};
use crate::wrong::Wrong;
use std::alloc::Global;
use wc_model::What;
use wc_nicklist::Item;
use wc_text::Handle;

const ITEM_OPTIONS: &[&str] = &["hidden", "level=", "color=", "prefix=", "prefix_color="];

/// An item. The world does not look at its handle and at whether it is a group.
fn item(alloc: Global, name: &str, options: &[&str]) -> Result<Item, Wrong>
    ensures { IfOk result TextsAreUtf8 }
{
    let level = number_option(options, "level=", 7)?;
    let name = text(alloc, name)?;
    let color = text_option(alloc, options, "color=")?;
    let prefix = text_option(alloc, options, "prefix=")?;
    let prefix_color = text_option(alloc, options, "prefix_color=")?;
    Ok(Item {
        handle: Handle(77),
        is_group: true,
        visible: !is_set(options, "hidden"),
        level,
        name,
        color,
        prefix,
        prefix_color,
    })
}

/// The item of a name and options.
fn item_of(alloc: Global, words: &[&str]) -> Result<Item, Wrong>
    ensures { IfOk result TextsAreUtf8 }
{
    let [name, options @ ..] = words else {
        return Err(Wrong::NoWord);
    };
    check_options(options, ITEM_OPTIONS)?;
    item(alloc, name, options)
}

/// A group after the name of the group above.
pub fn read_add_group(alloc: Global, words: &[&str]) -> Result<What, Wrong>
    ensures { IfOk result IsChangeText }
{
    let [parent, words @ ..] = words else {
        return Err(Wrong::NoWord);
    };
    let parent = text(alloc, parent)?;
    let item = item_of(alloc, words)?;
    Ok(What::AddGroup { parent, item })
}

/// A nick after the name of its group.
pub fn read_add_nick(alloc: Global, words: &[&str]) -> Result<What, Wrong>
    ensures { IfOk result IsChangeText }
{
    let [group, words @ ..] = words else {
        return Err(Wrong::NoWord);
    };
    let group = text(alloc, group)?;
    let item = item_of(alloc, words)?;
    Ok(What::AddNick { group, item })
}

pub fn read_change_group(alloc: Global, words: &[&str]) -> Result<What, Wrong>
    ensures { IfOk result IsChangeText }
{
    let item = item_of(alloc, words)?;
    Ok(What::ChangeGroup(item))
}

pub fn read_change_nick(alloc: Global, words: &[&str]) -> Result<What, Wrong>
    ensures { IfOk result IsChangeText }
{
    let item = item_of(alloc, words)?;
    Ok(What::ChangeNick(item))
}
