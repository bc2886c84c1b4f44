//! The groups and nicks that a message tells.

ghost use Rattle.std.specs.Prelude.{◌≡◌, option_map, IfOk};
ghost use Rattle.wc_view.specs.Each.{each};
ghost use Rattle.wc_view.specs.NickRows.{first_pointer, nick_marks_in, nick_texts_in, nick_with};
ghost use Rattle.wc_view.specs.NickRows.{nick_of, nick_row_in, nick_rows_on, mark_of, mark_in};
ghost use Rattle.wc_view.specs.NickRows.{nick_change_in, nick_changes_on};

use crate::items::{items_on, last_pointer};
use crate::nick_rows::{NickChange, NickMarks, NickRow, NickTexts};
use crate::values::{level_in, number_in, text_copy, truth_in};
use std::alloc::Global;
use wc_keys::{KeyList, NICK_PATH};
use wc_nickdiff::{DiffItem, Mark};
use wc_nicklist::Item;
use wc_objects::{HdaItem, Object};
use wc_text::{Handle, Items, NoMemory};

/// The first pointer of an item, which names the buffer.
fn first_pointer(item: &HdaItem) -> Option<u64>
    ensures { result ≡ first_pointer item.now }
{
    item.pointers.as_slice().first().copied()
}

#[tactic(auto, unfolding(crate::specs::NickRows::nick_marks_in))]
fn nick_marks_in(group: &Object, visible: &Object, level: &Object) -> Option<NickMarks>
    ensures { result ≡ nick_marks_in group.now visible.now level.now }
{
    let is_group = truth_in(group)?;
    let visible = truth_in(visible)?;
    let level = number_in(level)?;
    Some(NickMarks {
        is_group,
        visible,
        level: u64::from(level),
    })
}

/// What the values say that are texts. None where one is null.
#[tactic(auto, unfolding(crate::specs::NickRows::nick_texts_in))]
fn nick_texts_in(
    alloc: Global,
    name: &Object,
    color: &Object,
    prefix: &Object,
    prefix_color: &Object,
) -> Result<Option<NickTexts>, NoMemory>
    ensures { IfOk result (λ texts. texts ≡ nick_texts_in name.now color.now prefix.now
        prefix_color.now) }
{
    let Some(name) = text_copy(alloc, name)? else {
        return Ok(None);
    };
    let Some(color) = text_copy(alloc, color)? else {
        return Ok(None);
    };
    let Some(prefix) = text_copy(alloc, prefix)? else {
        return Ok(None);
    };
    let Some(prefix_color) = text_copy(alloc, prefix_color)? else {
        return Ok(None);
    };
    Ok(Some(NickTexts {
        name,
        color,
        prefix,
        prefix_color,
    }))
}

fn nick_with(handle: u64, marks: NickMarks, texts: NickTexts) -> Item
    ensures { result ≡ nick_with handle marks texts }
{
    Item {
        handle: Handle(handle),
        is_group: marks.is_group,
        visible: marks.visible,
        level: marks.level,
        name: texts.name,
        color: texts.color,
        prefix: texts.prefix,
        prefix_color: texts.prefix_color,
    }
}

/// A group or a nick by its pointer and its values. None where these are others than a group or a
/// nick has.
fn nick_of(alloc: Global, handle: Option<u64>, values: &[Object]) -> Result<Option<Item>, NoMemory>
    ensures { IfOk result (λ item. item ≡ nick_of handle values.now) }
{
    let [group, visible, level, name, color, prefix, prefix_color] = values else {
        return Ok(None);
    };
    let Some(handle) = handle else {
        return Ok(None);
    };
    let Some(marks) = nick_marks_in(group, visible, level) else {
        return Ok(None);
    };
    let Some(texts) = nick_texts_in(alloc, name, color, prefix, prefix_color)? else {
        return Ok(None);
    };
    Ok(Some(nick_with(handle, marks, texts)))
}

#[tactic(auto, unfolding(crate::specs::NickRows::nick_row_in))]
fn nick_row_in(alloc: Global, item: &HdaItem) -> Result<Option<NickRow>, NoMemory>
    ensures { IfOk result (λ row. row ≡ nick_row_in item.now) }
{
    let Some(buffer) = first_pointer(item) else {
        return Ok(None);
    };
    let Some(item) = nick_of(alloc, last_pointer(item), item.values.as_slice())? else {
        return Ok(None);
    };
    Ok(Some(NickRow { buffer, item }))
}

/// The groups and nicks that items say. None where one says none.
#[tactic(auto, using(crate::proofs::EachLemmas::each_flag_facts))]
fn each_nick_row(alloc: Global, items: &Items<HdaItem>) -> Result<Option<Vec<NickRow>>, NoMemory>
    ensures { IfOk result (λ rows. option_map (λ v. v.items) rows ≡ each nick_row_in items.now) }
{
    let mut rows = Vec::new(alloc);
    for item in items.as_slice() {
        let Some(row) = nick_row_in(alloc, item)? else {
            return Ok(None);
        };
        if rows.push(row).is_err() {
            return Err(NoMemory);
        }
    }
    Ok(Some(rows))
}

/// The groups and nicks of a message with the keys of a nicklist. None of a message of another
/// kind, and where some item says none.
pub(crate) fn nick_rows_on(
    alloc: Global,
    objects: &Items<Object>,
) -> Result<Option<Vec<NickRow>>, NoMemory>
    ensures { IfOk result (λ rows. option_map (λ v. v.items) rows ≡ nick_rows_on objects.now) }
{
    match items_on(NICK_PATH, KeyList::Nicks.text(), objects) {
        Some(items) => each_nick_row(alloc, items),
        None => Ok(None),
    }
}

/// What the byte of `^`, `+`, `-` or `*` says.
fn mark_of(code: i8) -> Option<Mark>
    ensures { result ≡ mark_of code }
{
    if code == 94 {
        return Some(Mark::Parent);
    }
    if code == 43 {
        return Some(Mark::Added);
    }
    if code == 45 {
        return Some(Mark::Removed);
    }
    if code == 42 {
        Some(Mark::Changed)
    } else {
        None
    }
}

fn mark_in(value: &Object) -> Option<Mark>
    ensures { result ≡ mark_in value.now }
{
    mark_of(level_in(value)?)
}

#[tactic(auto, unfolding(crate::specs::NickRows::nick_change_in))]
fn nick_change_in(alloc: Global, item: &HdaItem) -> Result<Option<NickChange>, NoMemory>
    ensures { IfOk result (λ change. change ≡ nick_change_in item.now) }
{
    let [mark, values @ ..] = item.values.as_slice() else {
        return Ok(None);
    };
    let Some(buffer) = first_pointer(item) else {
        return Ok(None);
    };
    let Some(mark) = mark_in(mark) else {
        return Ok(None);
    };
    let Some(item) = nick_of(alloc, last_pointer(item), values)? else {
        return Ok(None);
    };
    Ok(Some(NickChange {
        buffer,
        diff: DiffItem { mark, item },
    }))
}

/// The items of a diff that items say. None where one says none.
#[tactic(auto, using(crate::proofs::EachLemmas::each_flag_facts))]
fn each_nick_change(
    alloc: Global,
    items: &Items<HdaItem>,
) -> Result<Option<Vec<NickChange>>, NoMemory>
    ensures { IfOk result (λ changes. option_map (λ v. v.items) changes
        ≡ each nick_change_in items.now) }
{
    let mut changes = Vec::new(alloc);
    for item in items.as_slice() {
        let Some(change) = nick_change_in(alloc, item)? else {
            return Ok(None);
        };
        if changes.push(change).is_err() {
            return Err(NoMemory);
        }
    }
    Ok(Some(changes))
}

/// The items of a diff. None of a message of another kind, and where some item says none.
pub(crate) fn nick_changes_on(
    alloc: Global,
    objects: &Items<Object>,
) -> Result<Option<Vec<NickChange>>, NoMemory>
    ensures { IfOk result (λ changes. option_map (λ v. v.items) changes
        ≡ nick_changes_on objects.now) }
{
    match items_on(NICK_PATH, KeyList::Diff.text(), objects) {
        Some(items) => each_nick_change(alloc, items),
        None => Ok(None),
    }
}
