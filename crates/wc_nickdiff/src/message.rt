ghost use Rattle.std.specs.Prelude.{◌≡◌, ◌++◌, List, [], None, IfOk, OnOk, map, reverse};
ghost use Rattle.wc_nicklist.specs.Rows.{find_row, IsRows};
ghost use Rattle.wc_nicklist.specs.declared.item.Row.{Row as RowValue};
ghost use Rattle.wc_nickdiff.specs.Compared.{items_written};
ghost use Rattle.wc_nickdiff.specs.Held.{before_at};
ghost use Rattle.wc_nickdiff.specs.NickPush.{diff, full_list, nick_push, root_item};
ghost use Rattle.wc_nickdiff.specs.Told.{told_at, IsTold};

use crate::buffer_touches::BufferTouches;
use crate::diff_item::{DiffItem, Mark, Push};
use crate::differences::Differences;
use crate::row::root_item;
use crate::writer::Writer;
use std::alloc::Global;
use wc_nicklist::{Item, Nicklist, Row};
use wc_text::{Items, NoMemory};

/// What is to be pushed, so that the rows told become the rows now.
pub(crate) fn message(
    alloc: Global,
    touches: &BufferTouches,
    now: &Nicklist,
) -> Result<Push, NoMemory>
    ensures { IfOk result (λ push. (told : List RowValue) →
        IsTold (λ k. before_at k touches.now.touches) now.now.rows told →
        push ≡ nick_push now.now.root told now.now.rows) }
{
    let count = now.count();
    let items = diff(alloc, touches, now)?;
    let length = items.as_slice().len() as u64;
    if length == 0 {
        return Ok(Push::Nothing);
    }
    if length <= count {
        return Ok(Push::Diff(items));
    }
    let items = full_list(alloc, now)?;
    Ok(Push::Full(items))
}

/// The items of the diff.
fn diff(alloc: Global, touches: &BufferTouches, now: &Nicklist) -> Result<Items<DiffItem>, NoMemory>
    requires { IsRows now.now.rows }
    ensures { IfOk result (λ items. (told : List RowValue) →
        IsTold (λ k. before_at k touches.now.touches) now.now.rows told →
        items ≡ diff (root_item now.now.root) told now.now.rows) }
{
    let touched = touches.as_slice();
    let mut differences = Differences::of(alloc, touched, now)?;
    differences.sort();
    reverse(&mut differences.out_groups);
    write(alloc, &differences, touches, now)
}

/// The items of the differences, list by list.
fn write(
    alloc: Global,
    differences: &Differences,
    touches: &BufferTouches,
    now: &Nicklist,
) -> Result<Items<DiffItem>, NoMemory>
    ensures { IfOk result (λ items. items ≡ items_written (root_item now.now.root)
        (told_at (λ k. before_at k touches.now.touches) now.now.rows) (λ k. find_row k now.now.rows)
        differences.now.out_nicks.items differences.now.out_groups.items
        differences.now.in_groups.items differences.now.in_nicks.items
        differences.now.changed.items) }
{
    let mut writer = Writer::new(alloc);
    put_lists(alloc, &mut writer, differences, touches, now)?;
    Ok(writer.into_items())
}

/// Puts the items of the differences into a writer that has none.
fn put_lists(
    alloc: Global,
    writer: &mut Writer,
    differences: &Differences,
    touches: &BufferTouches,
    now: &Nicklist,
) -> Result<(), NoMemory>
    requires { writer.old ≡ record { items = []; parent = None } }
    ensures { OnOk result (writer.new.items ≡ items_written (root_item now.now.root)
        (told_at (λ k. before_at k touches.now.touches) now.now.rows) (λ k. find_row k now.now.rows)
        differences.now.out_nicks.items differences.now.out_groups.items
        differences.now.in_groups.items differences.now.in_nicks.items
        differences.now.changed.items) }
{
    let d = differences;
    writer.put_all(alloc, Mark::Removed, d.out_nicks.as_slice(), touches, now)?;
    writer.put_all(alloc, Mark::Removed, d.out_groups.as_slice(), touches, now)?;
    writer.put_all(alloc, Mark::Added, d.in_groups.as_slice(), touches, now)?;
    writer.put_all(alloc, Mark::Added, d.in_nicks.as_slice(), touches, now)?;
    writer.put_all(alloc, Mark::Changed, d.changed.as_slice(), touches, now)
}

/// Turns rows around.
fn reverse(rows: &mut Vec<Row>)
    ensures { rows.new.items ≡ reverse rows.old.items }
{
    rows.as_mut_slice().reverse();
}

/// The root and all rows.
fn full_list(alloc: Global, now: &Nicklist) -> Result<Items<Item>, NoMemory>
    ensures { IfOk result (λ items. items ≡ full_list (root_item now.now.root) now.now.rows) }
{
    let mut items = Items::new(alloc);
    items.push(root_item(alloc, now.root())?)?;
    push_rows(alloc, &mut items, now)?;
    Ok(items)
}

/// Puts all rows after the items.
fn push_rows(alloc: Global, items: &mut Items<Item>, now: &Nicklist) -> Result<(), NoMemory>
    ensures { OnOk result (items.new ≡ items.old ++ map (λ r. r.item) now.now.rows) }
{
    for row in now.rows() {
        items.push(row.item().copy(alloc)?)?;
    }
    Ok(())
}
