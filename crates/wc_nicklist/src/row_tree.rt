ghost use Rattle.std.specs.Prelude.{◌≡◌, ◌≤◌, ◌<◌, ◌+◌, ◌++◌, ℕ, [], None, Some, OnOk};
ghost use Rattle.std.specs.Prelude.{IsTrue, IsSome, IfSome, IsSomeAnd, length, map, vec_len};
ghost use Rattle.std.specs.Prelude.{vec_capacity, true, suc, drop, slice_get, nat_eq};
ghost use Rattle.std.specs.Prelude.{if◌then◌else◌};
ghost use Rattle.wc_nicklist.specs.Order.{key, key_at, address_of};
ghost use Rattle.wc_nicklist.specs.Rows.{find_row, insert_row, remove_row, change_row, changed_row};
ghost use Rattle.wc_nicklist.specs.Rows.{has_child, below, Ascending, IsRows};
ghost use Rattle.wc_nicklist.specs.Stored.{begins_below, entry_row, row_at, AllEntriesLead};
ghost use Rattle.wc_nicklist.specs.Stored.{EntryLeads};
ghost use Rattle.wc_nicklist.specs.Tree.{entries_in, rows_in, AreLeaves, IsLeafPlace, IsRoomyPlace};
ghost use Rattle.wc_nicklist.specs.Tree.{IsFullAt, AreNearlyLeaves, AreFewAt, IsInTree, IsInserted};
ghost use Rattle.wc_nicklist.specs.Tree.{IsRemoved};
ghost use Rattle.wc_nicklist.specs.declared.item.Row.{Row as RowValue};

use crate::item::Item;
use crate::iter::RowIter;
use crate::leaf::{HALF, LEAF_ROWS, Leaf};
use crate::order::Address;
use crate::store::{Entry, RowId, Slot, Store, Stored};
use std::alloc::Global;
use std::marker::Model;
use std::mem;
use wc_text::NoMemory;

/// Rows in canonical order: a store of rows, and a tree of two levels that has their order, leaves
/// of at most 64 entries each, one after the other.
#[derive(Drop)]
pub(crate) struct RowTree {
    store: Store,
    leaves: Vec<Leaf>,
    /// The memory of a leaf that is still to come.
    spare: Leaf,
    count: usize,
    alloc: Global,
}

impl Model for RowTree {
    ghost use Rattle.std.specs.Prelude.{nat_lt, nat_le, ◌&&◌, vec_len, vec_capacity};
    ghost use Rattle.wc_nicklist.specs.Stored.{store_has_room, Stored};
    ghost use Rattle.wc_nicklist.specs.Tree.{rows_in, IsTree};

    ghost Value = { Stored };

    ghost view = { λ a. record {
      rows = rows_in a.store a.leaves.items;
      store = a.store;
      has_room = store_has_room a.store && nat_lt (vec_len a.leaves) (vec_capacity a.leaves)
          && nat_le 64 (vec_capacity a.spare) && nat_lt a.count 18446744073709551615;
    } };

    ghost invariant = { λ a. IsTree a.store a.leaves.items a.spare a.count };
}

impl RowTree {
    /// No rows. It takes no memory.
    pub(crate) fn new(alloc: Global) -> RowTree
        ensures rows { result.rows ≡ [] }
        ensures at { (n : ℕ) → row_at result.store n ≡ None }
    {
        RowTree {
            store: Store::new(alloc),
            leaves: Vec::new(alloc),
            spare: Leaf::new(alloc),
            count: 0,
            alloc,
        }
    }

    pub(crate) fn len(&self) -> usize
        ensures { result ≡ length self.now.rows }
    {
        self.count
    }

    /// The rows in order.
    pub(crate) fn iter(&self) -> RowIter<'_>
        ensures { result ≡ self.now.rows }
    {
        RowIter::new(&self.store, self.leaves.as_slice())
    }

    /// Takes the memory for one row more, beside that of the row itself.
    pub(crate) fn reserve(&mut self) -> Result<(), NoMemory>
        ensures rows { self.new.rows ≡ self.old.rows }
        ensures at { (n : ℕ) → row_at self.new.store n ≡ row_at self.old.store n }
        ensures kept { IsTrue self.old.has_room → IsTrue self.new.has_room }
        ensures ok { OnOk result (IsTrue self.new.has_room) }
    {
        if self.count == usize::MAX {
            return Err(NoMemory);
        }
        self.store.reserve()?;
        self.leaves.reserve(1)?;
        self.spare.reserve()?;
        Ok(())
    }

    /// Puts a row at its place, and gives it a number. It takes no memory.
    pub(crate) fn insert(&mut self, row: Slot) -> RowId
        requires room { IsTrue self.old.has_room }
        requires held { IsRows self.old.rows }
        requires absent { find_row (key row.value) self.old.rows ≡ None }
        ensures rows { self.new.rows ≡ insert_row row.value self.old.rows }
        ensures fresh { row_at self.old.store result.0 ≡ None }
        ensures at { (n : ℕ) → row_at self.new.store n ≡ (if nat_eq result.0 n then Some row.value
            else row_at self.old.store n) }
    {
        let id = self.store.put(row);
        let stored = self.store.get(id);
        let address = stored.address();
        let entry = Entry {
            digest: address.digest,
            id,
        };
        insert(
            &mut self.leaves,
            &mut self.spare,
            self.alloc,
            &self.store,
            &address,
            entry,
        );
        self.count += 1;
        id
    }

    /// The row of a number.
    pub(crate) fn get(&self, id: RowId) -> &Stored
        requires { IsSome (row_at self.now.store id.0) }
        ensures { row_at self.now.store id.0 ≡ Some result.now }
    {
        self.store.get(id)
    }

    /// Takes the row of a number out.
    pub(crate) fn remove(&mut self, id: RowId) -> Slot
        requires held { IsRows self.old.rows }
        requires known { IsSomeAnd (row_at self.old.store id.0) (λ r. find_row (key r) self.old.rows
            ≡ Some r) }
        ensures row { row_at self.old.store id.0 ≡ Some result.value }
        ensures rows { self.new.rows ≡ remove_row (key result.value) self.old.rows }
        ensures at { (n : ℕ) → row_at self.new.store n ≡ (if nat_eq id.0 n then None
            else row_at self.old.store n) }
    {
        let row = self.store.get(id);
        remove(&mut self.leaves, &self.store, &row.address());
        self.count -= 1;
        self.store.take(id)
    }

    /// Gives the row of a number other fields.
    pub(crate) fn change(&mut self, id: RowId, item: Item)
        requires held { IsRows self.old.rows }
        requires known { IsSomeAnd (row_at self.old.store id.0) (λ r. find_row (key r) self.old.rows
            ≡ Some r) }
        ensures rows { (r : RowValue) → row_at self.old.store id.0 ≡ Some r →
            self.new.rows ≡ change_row (key r) item self.old.rows }
        ensures at { (r : RowValue) → row_at self.old.store id.0 ≡ Some r → (n : ℕ) →
            row_at self.new.store n ≡ (if nat_eq id.0 n then Some (changed_row r item)
            else row_at self.old.store n) }
    {
        self.store.change(id, item);
    }

    /// Whether a row is right below a group of these rows.
    pub(crate) fn has_child_of(&self, group: &Stored) -> bool
        requires held { IsRows self.now.rows }
        requires stands { find_row (key_at true group.now.item.name) self.now.rows
            ≡ Some group.now }
        ensures { result ≡ has_child (below group.now) self.now.rows }
    {
        has_child(&self.store, self.leaves.as_slice(), group)
    }
}

/// Whether a row is right below a group. Its children are right after it, so that the next
/// row tells.
fn has_child(store: &Store, leaves: &[Leaf], group: &Stored) -> bool
    requires held { IsRows (rows_in store.now leaves.now) }
    requires leaves { AreLeaves leaves.now }
    requires stand { AllEntriesLead store.now (entries_in leaves.now) }
    requires stands { find_row (key_at true group.now.item.name) (rows_in store.now leaves.now)
        ≡ Some group.now }
    ensures { result ≡ has_child (below group.now) (rows_in store.now leaves.now) }
{
    let (at, n) = find(store, leaves, &group.address());
    begins_with_child(rows_after(store, leaves, at, n), group)
}

/// The rows after one of a leaf.
fn rows_after<'a>(store: &'a Store, leaves: &'a [Leaf], at: usize, n: usize) -> RowIter<'a>
    requires leaves { AreLeaves leaves.now }
    requires stand { AllEntriesLead store.now (entries_in leaves.now) }
    requires outer { at < length leaves.now }
    requires inner { IfSome (slice_get leaves.now at) (λ l. n < vec_len l) }
    ensures { IfSome (slice_get leaves.now at) (λ l. result ≡ map (entry_row store.now)
        (drop (suc n) l.items ++ entries_in (drop (suc at) leaves.now))) }
{
    RowIter::from_leaf(store, &leaves[at].as_slice()[n + 1..], &leaves[at + 1..])
}

fn begins_with_child(mut rows: RowIter<'_>, group: &Stored) -> bool
    ensures { result ≡ begins_below (below group.now) rows.entry }
{
    match rows.next() {
        Some(row) => row.is_child_of(group),
        None => false,
    }
}

/// The leaf into which an address belongs.
fn leaf_of(store: &Store, leaves: &[Leaf], address: &Address<'_>) -> usize
    requires some { 0 < length leaves.now }
    requires leaves { AreLeaves leaves.now }
    requires stand { AllEntriesLead store.now (entries_in leaves.now) }
    requires order { Ascending (rows_in store.now leaves.now) }
    ensures { IsLeafPlace store.now leaves.now
        (address_of address.now.path.now
        (key_at address.now.is_group address.now.name.now)) result }
{
    let mut low = 0;
    let mut high = leaves.len() - 1;
    while low < high {
        let middle = low + (high - low) / 2;
        if leaves[middle].ends_before(store, address) {
            low = middle + 1;
        } else {
            high = middle;
        }
    }
    low
}

/// The leaf and the place in it of the row of a key whose path is known.
fn find(store: &Store, leaves: &[Leaf], address: &Address<'_>) -> (usize, usize)
    requires held { IsRows (rows_in store.now leaves.now) }
    requires leaves { AreLeaves leaves.now }
    requires stand { AllEntriesLead store.now (entries_in leaves.now) }
    requires known { IsSomeAnd (find_row (key_at address.now.is_group address.now.name.now)
        (rows_in store.now leaves.now)) (λ r. r.path ≡ address.now.path.now) }
    ensures { IsInTree store.now leaves.now result.0 result.1
        (key_at address.now.is_group address.now.name.now) }
{
    let at = leaf_of(store, leaves, address);
    let n = leaves[at].place(store, address);
    (at, n)
}

/// Takes the entry of a key out, whose path is known.
fn remove(leaves: &mut Vec<Leaf>, store: &Store, address: &Address<'_>) -> Entry
    requires held { IsRows (rows_in store.now leaves.old.items) }
    requires leaves { AreLeaves leaves.old.items }
    requires stand { AllEntriesLead store.now (entries_in leaves.old.items) }
    requires known { IsSomeAnd (find_row (key_at address.now.is_group address.now.name.now)
        (rows_in store.now leaves.old.items)) (λ r. r.path ≡ address.now.path.now) }
    ensures found { find_row (key_at address.now.is_group address.now.name.now)
        (rows_in store.now leaves.old.items) ≡ Some (entry_row store.now result) }
    ensures entries { IsRemoved (entries_in leaves.old.items) (entries_in leaves.new.items) result }
    ensures leaves { AreLeaves leaves.new.items }
{
    let (at, n) = find(store, leaves.as_slice(), address);
    let entry = leaves[at].remove(n);
    drop_empty(leaves, at);
    join_around(leaves, at);
    entry
}

/// Drops a leaf that has lost its last row.
fn drop_empty(leaves: &mut Vec<Leaf>, at: usize)
    requires within { at < vec_len leaves.old }
    requires nearly { AreNearlyLeaves leaves.old.items at }
    ensures entries { entries_in leaves.new.items ≡ entries_in leaves.old.items }
    ensures leaves { AreLeaves leaves.new.items }
{
    if leaves[at].is_empty() {
        leaves.remove(at);
    }
}

/// Joins a leaf with its neighbours where they have few rows, so that rows which go leave no run of
/// nearly empty leaves.
fn join_around(leaves: &mut Vec<Leaf>, at: usize)
    requires leaves { AreLeaves leaves.old.items }
    ensures entries { entries_in leaves.new.items ≡ entries_in leaves.old.items }
    ensures leaves { AreLeaves leaves.new.items }
{
    join(leaves, at);
    if at > 0 {
        join(leaves, at - 1);
    }
}

/// Joins a leaf with the next one where they have few rows together.
fn join(leaves: &mut Vec<Leaf>, at: usize)
    requires leaves { AreLeaves leaves.old.items }
    ensures entries { entries_in leaves.new.items ≡ entries_in leaves.old.items }
    ensures leaves { AreLeaves leaves.new.items }
{
    if !are_few(leaves.as_slice(), at) {
        return;
    }
    let next = leaves.remove(at + 1);
    leaves[at].append(next);
}

/// Whether a leaf and the next one have few rows together. A full leaf is split into two that have
/// twice as many, so that they are not joined again at once.
fn are_few(leaves: &[Leaf], at: usize) -> bool
    ensures { IsTrue result → AreFewAt leaves.now at }
{
    let Some(leaf) = leaves.get(at) else {
        return false;
    };
    match leaves.get(at + 1) {
        Some(next) => leaf.len() <= HALF && next.len() <= HALF - leaf.len(),
        None => false,
    }
}

/// Puts the entry of a row where its address belongs.
fn insert(
    leaves: &mut Vec<Leaf>,
    spare: &mut Leaf,
    alloc: Global,
    store: &Store,
    address: &Address<'_>,
    entry: Entry,
)
    requires room { vec_len leaves.old < vec_capacity leaves.old }
    requires spare_empty { spare.old.items ≡ [] }
    requires roomy { 64 ≤ vec_capacity spare.old }
    requires leaves { AreLeaves leaves.old.items }
    requires stand { AllEntriesLead store.now (entries_in leaves.old.items) }
    requires order { Ascending (rows_in store.now leaves.old.items) }
    requires stands { EntryLeads store.now entry }
    ensures entries { IsInserted store.now (entries_in leaves.old.items)
        (entries_in leaves.new.items) entry
        (address_of address.now.path.now (key_at address.now.is_group address.now.name.now)) }
    ensures leaves { AreLeaves leaves.new.items }
    ensures spare_empty { spare.new.items ≡ [] }
{
    if leaves.is_empty() {
        let mut leaf = mem::replace(spare, Leaf::new(alloc));
        leaf.push(entry);
        leaves.push_reserved(leaf);
        return;
    }
    let at = roomy_leaf(leaves, spare, alloc, store, address);
    leaves[at].put(store, address, entry);
}

/// A leaf with room into which an address belongs; a full one is split.
fn roomy_leaf(
    leaves: &mut Vec<Leaf>,
    spare: &mut Leaf,
    alloc: Global,
    store: &Store,
    address: &Address<'_>,
) -> usize
    requires some { 0 < vec_len leaves.old }
    requires room { vec_len leaves.old < vec_capacity leaves.old }
    requires spare_empty { spare.old.items ≡ [] }
    requires roomy { 64 ≤ vec_capacity spare.old }
    requires leaves { AreLeaves leaves.old.items }
    requires stand { AllEntriesLead store.now (entries_in leaves.old.items) }
    requires order { Ascending (rows_in store.now leaves.old.items) }
    ensures place { IsRoomyPlace store.now leaves.new.items
        (address_of address.now.path.now
        (key_at address.now.is_group address.now.name.now)) result }
    ensures entries { entries_in leaves.new.items ≡ entries_in leaves.old.items }
    ensures leaves { AreLeaves leaves.new.items }
    ensures spare_empty { spare.new.items ≡ [] }
{
    let at = leaf_of(store, leaves.as_slice(), address);
    if leaves[at].len() < LEAF_ROWS {
        return at;
    }
    let upper = mem::replace(spare, Leaf::new(alloc));
    split(leaves, at, upper, store, address)
}

/// Splits a full leaf, and answers the half into which an address belongs.
fn split(
    leaves: &mut Vec<Leaf>,
    at: usize,
    mut upper: Leaf,
    store: &Store,
    address: &Address<'_>,
) -> usize
    requires place { IsLeafPlace store.now leaves.old.items
        (address_of address.now.path.now (key_at address.now.is_group address.now.name.now)) at }
    requires full { IsFullAt leaves.old.items at }
    requires room { vec_len leaves.old < vec_capacity leaves.old }
    requires empty { upper.items ≡ [] }
    requires roomy { 64 ≤ vec_capacity upper }
    requires leaves { AreLeaves leaves.old.items }
    requires stand { AllEntriesLead store.now (entries_in leaves.old.items) }
    requires order { Ascending (rows_in store.now leaves.old.items) }
    ensures place { IsRoomyPlace store.now leaves.new.items
        (address_of address.now.path.now
        (key_at address.now.is_group address.now.name.now)) result }
    ensures entries { entries_in leaves.new.items ≡ entries_in leaves.old.items }
    ensures leaves { AreLeaves leaves.new.items }
{
    let lower = &mut leaves[at];
    lower.move_half(&mut upper);
    let in_upper = lower.ends_before(store, address);
    let Ok(()) = leaves.insert(at + 1, upper) else {
        unreachable!()
    };
    if in_upper { at + 1 } else { at }
}
