ghost use Rattle.std.specs.List.Sorted.{IsPermutation, IsSortedBy};
ghost use Rattle.std.specs.Prelude.{◌≡◌, IfOk, ◌++◌, ◌∷◌, [], OnOk, OnErr};
ghost use Rattle.wc_nickdiff.specs.NickPush.{root_item};
ghost use Rattle.wc_nicklist.specs.Calls.{add_row};
ghost use Rattle.wc_nicklist.specs.Order.{key_of, before};
ghost use Rattle.wc_nicklist.specs.Rows.{parent_of, TextsAreUtf8};

use crate::by_kind::add;
use std::alloc::Global;
use wc_nicklist::{Item, Key, Nicklist, Row, RowView, row_cmp};
use wc_text::{Handle, NoMemory, Text};

/// The name of the root group, which is in no row.
pub(crate) const ROOT_NAME: &[u8; 4] = b"root";

/// The key of an item.
pub(crate) fn key_of(alloc: Global, item: &Item) -> Result<Key, NoMemory>
    ensures { IfOk result (λ key. key ≡ key_of item.now) }
{
    Ok(Key {
        is_group: item.is_group,
        name: item.name.copy(alloc)?,
    })
}

/// The name of the group that a row is in, or of the root.
pub(crate) fn parent_of(row: &Row) -> &[u8]
    ensures { result.now ≡ parent_of row.now }
{
    match row.path.as_slice().last() {
        Some(name) => name.as_slice(),
        None => ROOT_NAME,
    }
}

/// The item of the root group.
pub(crate) fn root_item(alloc: Global, root: Handle) -> Result<Item, NoMemory>
    ensures { IfOk result (λ item. item ≡ root_item root) }
{
    Ok(Item {
        handle: root,
        is_group: true,
        visible: false,
        level: 0,
        name: Text::from_slice(alloc, ROOT_NAME.as_slice())?,
        color: Text::new(alloc),
        prefix: Text::new(alloc),
        prefix_color: Text::new(alloc),
    })
}

/// A nicklist with the same root and the same rows.
pub(crate) fn copy_of(alloc: Global, list: &Nicklist) -> Result<Nicklist, NoMemory>
    ensures root { IfOk result (λ copy. copy.root ≡ list.now.root) }
    ensures rows { IfOk result (λ copy. copy.rows ≡ list.now.rows) }
{
    let mut copy = Nicklist::new(alloc, list.root())?;
    add_rows(alloc, &mut copy, list)?;
    Ok(copy)
}

/// Adds the rows of a nicklist to one that has none.
fn add_rows(alloc: Global, copy: &mut Nicklist, list: &Nicklist) -> Result<(), NoMemory>
    requires { copy.old.rows ≡ [] }
    ensures root { OnOk result (copy.new.root ≡ copy.old.root) }
    ensures rows { OnOk result (copy.new.rows ≡ list.now.rows) }
{
    for row in list.rows() {
        add_row(alloc, copy, &row)?;
    }
    Ok(())
}

/// Adds a row below the parent that it names.
fn add_row(alloc: Global, list: &mut Nicklist, row: &RowView<'_>) -> Result<(), NoMemory>
    requires { TextsAreUtf8 row.now.item }
    ensures root { OnOk result (list.new.root ≡ list.old.root) }
    ensures after { OnOk result (list.new.rows
        ≡ add_row row.now.item.is_group (parent_of row.now) row.now.item list.old.rows) }
{
    let parent = Text::from_slice(alloc, row.parent())?;
    add_copy(alloc, list, &parent, row.item())
}

/// Adds a copy of an item below a parent.
fn add_copy(alloc: Global, list: &mut Nicklist, parent: &Text, item: &Item) -> Result<(), NoMemory>
    requires { TextsAreUtf8 item.now }
    ensures root { OnOk result (list.new.root ≡ list.old.root) }
    ensures after { OnOk result
        (list.new.rows ≡ add_row item.now.is_group parent.now item.now list.old.rows) }
{
    let item = item.copy(alloc)?;
    match add(alloc, list, parent, item) {
        Ok(()) => Ok(()),
        Err(_) => Err(NoMemory),
    }
}

/// Puts rows in canonical order.
#[tactic(auto, unfolding(wc_nicklist::specs::Order::before))]
pub(crate) fn sort(rows: &mut Vec<Row>)
    ensures permutation { IsPermutation rows.old.items rows.new.items }
    ensures sorted { IsSortedBy before rows.new.items }
{
    rows.sort_unstable_by(|a, b| row_cmp(a, b));
}

/// Puts a value after others. Where memory is refused they stay as they were.
pub(crate) fn push<T: Drop>(items: &mut Vec<T>, item: T) -> Result<(), NoMemory>
    ensures ok { OnOk result (items.new.items ≡ items.old.items ++ item ∷ []) }
    ensures err { OnErr result (items.new.items ≡ items.old.items) }
{
    match items.push(item) {
        Ok(()) => Ok(()),
        Err(_) => Err(NoMemory),
    }
}
