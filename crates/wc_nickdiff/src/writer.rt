ghost use Rattle.std.specs.Prelude.{◌≡◌, ◌++◌, ◌∷◌, [], Some, None, IfOk, OnOk, map, option_copied};
ghost use Rattle.wc_nicklist.specs.Rows.{find_row, parent_of};
ghost use Rattle.wc_nickdiff.specs.Compared.{found_by};
ghost use Rattle.wc_nickdiff.specs.Held.{before_at};
ghost use Rattle.wc_nickdiff.specs.NickPush.{group_item, last_under, op, root_item, same_name};
ghost use Rattle.wc_nickdiff.specs.NickPush.{with_parents};
ghost use Rattle.wc_nickdiff.specs.Told.{told_at};

use crate::buffer_touches::BufferTouches;
use crate::diff_item::{DiffItem, Mark};
use crate::row::{ROOT_NAME, parent_of, root_item};
use std::alloc::Global;
use wc_nicklist::{Item, Key, Nicklist, Row};
use wc_text::{Items, NoMemory, Text};

/// The items of a diff, and the name of the parent that was named last.
#[derive(Drop)]
pub(crate) struct Writer {
    items: Items<DiffItem>,
    parent: Option<Text>,
}

impl Writer {
    /// No items. It takes no memory.
    pub(crate) fn new(alloc: Global) -> Writer
        ensures { result ≡ record { items = []; parent = None } }
    {
        Writer {
            items: Items::new(alloc),
            parent: None,
        }
    }

    /// The items.
    pub(crate) fn into_items(self) -> Items<DiffItem>
        ensures { result ≡ self.items }
    {
        self.items
    }

    /// Puts an item for each row after the items, with its parent where that differs from the one
    /// before. The parent of a row that is out is as it was told, and that of another as it is now.
    pub(crate) fn put_all(
        &mut self,
        alloc: Global,
        mark: Mark,
        rows: &[Row],
        touches: &BufferTouches,
        now: &Nicklist,
    ) -> Result<(), NoMemory>
        ensures items { OnOk result (let ops =
            map (op mark (root_item now.now.root)
            (found_by mark (told_at (λ k. before_at k touches.now.touches) now.now.rows)
            (λ k. find_row k now.now.rows))) rows.now in self.new.items ≡ self.old.items
            ++ with_parents self.old.parent ops) }
        ensures parent { OnOk result (self.new.parent ≡ last_under self.old.parent rows.now) }
    {
        for row in rows {
            self.put(alloc, mark, row, touches, now)?;
        }
        Ok(())
    }

    fn put(
        &mut self,
        alloc: Global,
        mark: Mark,
        row: &Row,
        touches: &BufferTouches,
        now: &Nicklist,
    ) -> Result<(), NoMemory>
        ensures items { OnOk result (let o = op mark (root_item now.now.root)
            (found_by mark (told_at (λ k. before_at k touches.now.touches) now.now.rows)
            (λ k. find_row k now.now.rows)) row.now in self.new.items ≡ self.old.items
            ++ with_parents self.old.parent (o ∷ [])) }
        ensures parent { OnOk result (self.new.parent ≡ Some (parent_of row.now)) }
    {
        let name = parent_of(row);
        if !self.is_under(name) {
            let parent = group_item(alloc, mark, name, touches, now)?;
            self.push(Mark::Parent, parent)?;
            self.parent = Some(Text::from_slice(alloc, name)?);
        }
        self.push(mark, row.item.copy(alloc)?)
    }

    /// Whether the group of that name was named last.
    fn is_under(&self, name: &[u8]) -> bool
        ensures { result ≡ same_name self.now.parent name.now }
    {
        match &self.parent {
            Some(parent) => parent.as_slice() == name,
            None => false,
        }
    }

    fn push(&mut self, mark: Mark, item: Item) -> Result<(), NoMemory>
        ensures items { OnOk result (self.new.items ≡ self.old.items ++ record {
          mark = mark;
          item = item;
        } ∷ []) }
        ensures parent { OnOk result (self.new.parent ≡ self.old.parent) }
    {
        self.items.push(DiffItem { mark, item })
    }
}

/// The item of the group of a name or of the root, as it was told for what is out, and otherwise as
/// it is now. Where no such group is, it is the root's.
fn group_item(
    alloc: Global,
    mark: Mark,
    name: &[u8],
    touches: &BufferTouches,
    now: &Nicklist,
) -> Result<Item, NoMemory>
    ensures { IfOk result (λ item. item ≡ group_item (root_item now.now.root)
        (found_by mark (told_at (λ k. before_at k touches.now.touches) now.now.rows)
        (λ k. find_row k now.now.rows)) name.now) }
{
    if name == ROOT_NAME.as_slice() {
        return root_item(alloc, now.root());
    }
    if mark.is_out()
        && let Some(before) = touches.before(true, name)
    {
        return match before {
            Some(row) => row.item.copy(alloc),
            None => root_item(alloc, now.root()),
        };
    }
    let key = Key {
        is_group: true,
        name: Text::from_slice(alloc, name)?,
    };
    match now.row(&key) {
        Some(item) => item.copy(alloc),
        None => root_item(alloc, now.root()),
    }
}
