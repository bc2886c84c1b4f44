ghost use Rattle.std.specs.Prelude.{◌≡◌, ◌++◌, map};
ghost use Rattle.std.specs.Iterator.{YieldsFirstBy, item_count};
ghost use Rattle.wc_nicklist.specs.Rows.{below, parent_of, path_eq};
ghost use Rattle.wc_nicklist.specs.Stored.{entry_row, AllEntriesLead};
ghost use Rattle.wc_nicklist.specs.Tree.{entries_in, rows_in};

use crate::item::Item;
use crate::leaf::{Leaf, is_child};
use crate::store::{Entry, Store, Stored};
use std::marker::Model;

/// A row that is lent by its nicklist.
#[derive(Drop)]
pub struct RowView<'a> {
    row: &'a Stored,
}

impl<'a> Model for RowView<'a> {
    ghost use Rattle.wc_nicklist.specs.declared.item.Row.{Row};

    ghost Value = { Row };

    ghost view = { λ a. a.row.now };
}

impl<'a> RowView<'a> {
    /// Whether it is right below a group.
    pub(crate) fn is_child_of(&self, group: &Stored) -> bool
        ensures { result ≡ path_eq self.now.path (below group.now) }
    {
        is_child(self.row, group)
    }

    /// The group or the nick.
    pub fn item(&self) -> &Item
        ensures { result.now ≡ self.now.item }
    {
        self.row.item()
    }

    /// The name of the row's parent.
    pub fn parent(&self) -> &[u8]
        ensures { result.now ≡ parent_of self.now }
    {
        match self.row.path().last() {
            Some(name) => name.as_slice(),
            None => b"root",
        }
    }
}

/// The rows of a nicklist in canonical order, which contracts see as the list of those that are
/// left.
#[derive(Drop)]
pub struct RowIter<'a> {
    store: &'a Store,
    leaf: &'a [Entry],
    leaves: &'a [Leaf],
}

impl<'a> Model for RowIter<'a> {
    ghost use Rattle.std.specs.Prelude.{List, ◌++◌, map};
    ghost use Rattle.wc_nicklist.specs.declared.item.Row.{Row};
    ghost use Rattle.wc_nicklist.specs.Stored.{entry_row, AllEntriesLead};
    ghost use Rattle.wc_nicklist.specs.Tree.{entries_in};

    ghost Value = { List Row };

    ghost view = { λ a. map (entry_row a.store.now) (a.leaf.now ++ entries_in a.leaves.now) };

    ghost invariant = { λ a. AllEntriesLead a.store.now (a.leaf.now ++ entries_in a.leaves.now) };
}

impl<'a> RowIter<'a> {
    /// The rows of these leaves.
    pub(crate) fn new(store: &'a Store, leaves: &'a [Leaf]) -> RowIter<'a>
        requires { AllEntriesLead store.now (entries_in leaves.now) }
        ensures { result ≡ rows_in store.now leaves.now }
    {
        RowIter {
            store,
            leaf: &[],
            leaves,
        }
    }

    /// The rows that are left of a leaf, and those of the leaves after it.
    pub(crate) fn from_leaf(store: &'a Store, leaf: &'a [Entry], leaves: &'a [Leaf]) -> RowIter<'a>
        requires { AllEntriesLead store.now (leaf.now ++ entries_in leaves.now) }
        ensures { result ≡ map (entry_row store.now) (leaf.now ++ entries_in leaves.now) }
    {
        RowIter {
            store,
            leaf,
            leaves,
        }
    }
}

impl<'a> Iterator for RowIter<'a> {
    type Item = RowView<'a>;

    ghost next_gives = { YieldsFirstBy (λ row. row) (λ s. s) };

    ghost remaining = { item_count (λ s. s) };

    fn next(&mut self) -> Option<RowView<'a>> {
        while self.leaf.is_empty() {
            let (leaf, leaves) = self.leaves.split_first()?;
            self.leaf = leaf.as_slice();
            self.leaves = leaves;
        }
        let (entry, leaf) = self.leaf.split_first()?;
        self.leaf = leaf;
        Some(RowView {
            row: self.store.get(entry.id),
        })
    }
}
