//! Pushes and diffs of nicklists, as words.

ghost use Rattle.std.specs.Prelude.{IfOk};
ghost use Rattle.wc_nickdiff.specs.Apply.{AreUtf8};
ghost use Rattle.wc_nicklist.specs.Rows.{TextsAreUtf8};
ghost use Rattle.wc_events.specs.NickForms.{IsPushText};

use crate::sheet::Sheet;
use crate::show_nicks::show_nicks;
use std::alloc::Global;
use wc_change_words::{Wrong, text};
use wc_nickdiff::{DiffItem, DiffRefused, Mark, Push, apply, item_applied};
use wc_nicklist::{Item, Nicklist};
use wc_text::{Handle, Items, Text};

fn sign(mark: Mark) -> &'static str {
    match mark {
        Mark::Parent => " ^",
        Mark::Added => " +",
        Mark::Removed => " -",
        Mark::Changed => " *",
    }
}

fn show_item(out: &mut Sheet, sign: &str, item: &Item) {
    out.put_text(sign, item.name.as_slice());
    out.put_number("=", item.handle.0);
}

fn show_diff(out: &mut Sheet, items: &[DiffItem]) {
    out.put_number("a diff of ", items.len() as u64);
    out.put(":");
    for item in items {
        show_item(out, sign(item.mark), &item.item);
    }
    out.put("\n");
}

fn show_full(out: &mut Sheet, items: &[Item]) {
    out.put_number("the full list of ", items.len() as u64);
    out.put(":");
    for item in items {
        show_item(out, " .", item);
    }
    out.put("\n");
}

/// The items of a push: each of a diff after its sign, and those of a full list after a dot.
pub fn show_push(out: &mut Sheet, push: &Push) {
    match push {
        Push::Nothing => out.put("nothing\n"),
        Push::Diff(items) => show_diff(out, items.as_slice()),
        Push::Full(items) => show_full(out, items.as_slice()),
    }
}

fn mark_of(sign: char) -> Result<Mark, Wrong> {
    match sign {
        '^' => Ok(Mark::Parent),
        '+' => Ok(Mark::Added),
        '-' => Ok(Mark::Removed),
        '*' => Ok(Mark::Changed),
        _ => Err(Wrong::NoWord),
    }
}

/// An item with this name and no other texts: a name that begins with `#` is a group's.
fn item(alloc: Global, handle: u64, name: &str) -> Result<Item, Wrong>
    ensures { IfOk result TextsAreUtf8 }
{
    let name_text = text(alloc, name)?;
    Ok(Item {
        handle: Handle(handle),
        is_group: name.starts_with('#'),
        visible: true,
        level: 0,
        name: name_text,
        color: Text::new(alloc),
        prefix: Text::new(alloc),
        prefix_color: Text::new(alloc),
    })
}

fn diff_item(alloc: Global, word: &str) -> Result<DiffItem, Wrong>
    ensures { IfOk result (λ d. TextsAreUtf8 d.item) }
{
    let mut letters = word.chars();
    let mark = mark_of(letters.next().unwrap_or(' '))?;
    let item = item(alloc, 1, letters.as_str())?;
    Ok(DiffItem { mark, item })
}

fn diff_items(alloc: Global, words: &[&str]) -> Result<Items<DiffItem>, Wrong>
    ensures { IfOk result AreUtf8 }
{
    let mut items = Items::new(alloc);
    for word in words {
        let item = diff_item(alloc, word)?;
        items.push(item)?;
    }
    Ok(items)
}

/// Says which item of a diff is refused, where one is.
fn show_refused(out: &mut Sheet, applied: Result<(), DiffRefused>) {
    match applied {
        Ok(()) => {}
        Err(DiffRefused::BadItem { place }) => {
            out.put_number("the item ", place);
            out.put(" is refused\n");
        }
        Err(DiffRefused::NoMemory) => out.lack(),
    }
}

/// Applies items of a diff, each written as its sign and its name, and shows the list after them.
fn apply_words(
    alloc: Global,
    out: &mut Sheet,
    list: &mut Nicklist,
    words: &[&str],
) -> Result<(), Wrong> {
    let items = diff_items(alloc, words)?;
    show_refused(out, apply(alloc, list, &items));
    show_nicks(out, list);
    Ok(())
}

/// What the items of a diff make of a copy of a nicklist.
pub fn show_applied(
    alloc: Global,
    out: &mut Sheet,
    list: &Nicklist,
    words: &[&str],
) -> Result<(), Wrong> {
    let none = Items::new(alloc);
    match item_applied(alloc, list, &none) {
        Ok(mut copy) => apply_words(alloc, out, &mut copy, words),
        Err(_) => Err(Wrong::NoMemory),
    }
}

/// A push by which a nick of no group comes in.
pub fn one_join(alloc: Global, name: &str) -> Result<Push, Wrong>
    ensures { IfOk result IsPushText }
{
    let mut items = Items::new(alloc);
    items.push(DiffItem {
        mark: Mark::Added,
        item: item(alloc, 0, name)?,
    })?;
    Ok(Push::Diff(items))
}
