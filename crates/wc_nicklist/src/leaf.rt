ghost use Rattle.std.specs.Prelude.{◌≡◌, ◌≤◌, ◌<◌, ◌==◌, ◌++◌, ◌+◌, ◌∷◌, [], ℕ};
ghost use Rattle.std.specs.Prelude.{OnOk, IsTrue, length, insert, map, remove, slice_index_or};
ghost use Rattle.std.specs.Prelude.{take, vec_len, vec_capacity};
ghost use Rattle.wc_nicklist.specs.Order.{key_at, address_of};
ghost use Rattle.wc_nicklist.specs.Rows.{below, path_eq, Ascending};
ghost use Rattle.wc_nicklist.specs.Stored.{entry_row, AllBefore, AllEntriesLead, IsRowPlace};
ghost use Rattle.wc_nicklist.specs.Tree.{leaf_rows, IsLastDigest};

use crate::digest::Digest;
use crate::order::{Address, comes_before};
use crate::store::{Entry, Store, Stored};
use std::alloc::Global;
use std::marker::Model;
use wc_text::{NoMemory, Text};

/// The most rows of a leaf.
pub(crate) const LEAF_ROWS: usize = 64;

/// What a full leaf keeps when it is split.
pub(crate) const HALF: usize = LEAF_ROWS / 2;

/// How many rows a search in a leaf passes by at once.
const STRIDE: usize = 8;

/// The entries of rows one after the other, beside the digest of the last of them, so that a search
/// among leaves reads no entry. Contracts see the memory of the entries.
#[derive(Drop)]
pub(crate) struct Leaf {
    last: Digest,
    entries: Vec<Entry>,
}

impl Model for Leaf {
    ghost use Rattle.wc_nicklist.specs.Tree.{Leaf as Entries, IsLastDigest};

    ghost Value = { Entries };

    ghost view = { λ l. l.entries };

    ghost invariant = { λ l. IsLastDigest l.last l.entries.items };
}

impl Leaf {
    /// No rows. It takes no memory.
    pub(crate) fn new(alloc: Global) -> Leaf
        ensures { result.items ≡ [] }
    {
        Leaf {
            last: Digest::none(),
            entries: Vec::new(alloc),
        }
    }

    pub(crate) fn len(&self) -> usize
        ensures { result ≡ vec_len self.now }
    {
        self.entries.len()
    }

    pub(crate) fn is_empty(&self) -> bool
        ensures { result ≡ (vec_len self.now == 0) }
    {
        self.entries.is_empty()
    }

    pub(crate) fn as_slice(&self) -> &[Entry]
        ensures value { result.now ≡ self.now.items }
        ensures len { length result.now ≡ vec_len self.now }
    {
        self.entries.as_slice()
    }

    /// Takes the memory for all rows that a leaf may have.
    pub(crate) fn reserve(&mut self) -> Result<(), NoMemory>
        requires { self.old.items ≡ [] }
        ensures items { self.new.items ≡ [] }
        ensures capacity { vec_capacity self.old ≤ vec_capacity self.new }
        ensures ok { OnOk result (64 ≤ vec_capacity self.new) }
    {
        self.entries.reserve(LEAF_ROWS)?;
        Ok(())
    }

    /// Whether its rows, so the last one, are before an address.
    pub(crate) fn ends_before(&self, store: &Store, address: &Address<'_>) -> bool
        requires filled { 0 < vec_len self.now }
        requires stand { AllEntriesLead store.now self.now.items }
        requires order { Ascending (leaf_rows store.now self.now) }
        ensures all { IsTrue result → AllBefore (leaf_rows store.now self.now)
            (address_of address.now.path.now (key_at address.now.is_group address.now.name.now)) }
        ensures not_all { AllBefore (leaf_rows store.now self.now)
            (address_of address.now.path.now (key_at address.now.is_group address.now.name.now)) →
            IsTrue result }
    {
        if self.last.tells(&address.digest) {
            return self.last.name < address.digest.name;
        }
        match self.entries.split_last() {
            Some((entry, _)) => comes_before(store, entry, address),
            None => false,
        }
    }

    /// Puts a row after the others, where there is room.
    pub(crate) fn push(&mut self, entry: Entry)
        requires { vec_len self.old < vec_capacity self.old }
        ensures items { self.new.items ≡ self.old.items ++ entry ∷ [] }
        ensures len { vec_len self.new ≡ vec_len self.old + 1 }
        ensures capacity { vec_capacity self.new ≡ vec_capacity self.old }
    {
        self.entries.push_reserved(entry);
        self.last = last_digest(self.entries.as_slice());
    }

    /// The place of an address: the number of rows that are before it.
    pub(crate) fn place(&self, store: &Store, address: &Address<'_>) -> usize
        requires stand { AllEntriesLead store.now self.now.items }
        requires order { Ascending (leaf_rows store.now self.now) }
        ensures { IsRowPlace (leaf_rows store.now self.now)
            (address_of address.now.path.now
            (key_at address.now.is_group address.now.name.now)) result }
    {
        place(store, self.entries.as_slice(), address)
    }

    /// Puts a row at the place of its address, where there is room.
    pub(crate) fn put(&mut self, store: &Store, address: &Address<'_>, entry: Entry)
        requires stand { AllEntriesLead store.now self.old.items }
        requires order { Ascending (leaf_rows store.now self.old) }
        requires room { vec_len self.old < vec_capacity self.old }
        ensures place { (n : ℕ) × IsRowPlace (leaf_rows store.now self.old)
            (address_of address.now.path.now (key_at address.now.is_group address.now.name.now)) n
            × (self.new.items ≡ insert self.old.items n entry) }
        ensures len { vec_len self.new ≡ vec_len self.old + 1 }
        ensures capacity { vec_capacity self.old ≤ vec_capacity self.new }
    {
        let at = place(store, self.entries.as_slice(), address);
        let Ok(()) = self.entries.insert(at, entry) else {
            unreachable!()
        };
        self.last = last_digest(self.entries.as_slice());
    }

    /// Takes a row out.
    pub(crate) fn remove(&mut self, at: usize) -> Entry
        requires { at < vec_len self.old }
        ensures value { result ≡ slice_index_or self.old.items at result }
        ensures items { self.new.items ≡ remove self.old.items at }
        ensures len { vec_len self.new + 1 ≡ vec_len self.old }
        ensures capacity { vec_capacity self.new ≡ vec_capacity self.old }
    {
        let entry = self.entries.remove(at);
        self.last = last_digest(self.entries.as_slice());
        entry
    }

    /// Moves the second half of its rows, where it is full, into an empty leaf.
    pub(crate) fn move_half(&mut self, upper: &mut Leaf)
        requires full { vec_len self.old ≡ 64 }
        requires empty { upper.old.items ≡ [] }
        requires roomy { 64 ≤ vec_capacity upper.old }
        ensures rows { self.old.items ≡ self.new.items ++ upper.new.items }
        ensures lower_len { vec_len self.new ≡ 32 }
        ensures upper_len { vec_len upper.new ≡ 32 }
        ensures lower_capacity { vec_capacity self.new ≡ vec_capacity self.old }
        ensures upper_capacity { vec_capacity upper.new ≡ vec_capacity upper.old }
    {
        move_half(&mut self.entries, &mut upper.entries);
        self.last = last_digest(self.entries.as_slice());
        upper.last = last_digest(upper.entries.as_slice());
    }

    /// Puts the rows of another leaf after these, where there is room.
    pub(crate) fn append(&mut self, next: Leaf)
        requires { vec_len self.old + vec_len next ≤ vec_capacity self.old }
        ensures items { self.new.items ≡ self.old.items ++ next.items }
        ensures len { vec_len self.new ≡ vec_len self.old + vec_len next }
        ensures capacity { vec_capacity self.old ≤ vec_capacity self.new }
    {
        let Leaf {
            last: _,
            mut entries,
        } = next;
        let Ok(()) = self.entries.append(&mut entries) else {
            unreachable!()
        };
        self.last = last_digest(self.entries.as_slice());
    }
}

/// The digest of the last of these rows.
fn last_digest(entries: &[Entry]) -> Digest
    ensures { IsLastDigest result entries.now }
{
    match entries.split_last() {
        Some((entry, _)) => entry.digest,
        None => Digest::none(),
    }
}

/// The place of an address: the number of rows that are before it.
///
/// Which row is read next hangs on no row before, but for the end of each loop. So a processor goes
/// ahead and reads several rows from memory at once, where a search by halves waits for each.
fn place(store: &Store, entries: &[Entry], address: &Address<'_>) -> usize
    requires stand { AllEntriesLead store.now entries.now }
    requires order { Ascending (map (entry_row store.now) entries.now) }
    ensures { IsRowPlace (map (entry_row store.now) entries.now)
        (address_of address.now.path.now
        (key_at address.now.is_group address.now.name.now)) result }
{
    let mut at = place_by_strides(store, entries, address);
    while at < entries.len() && comes_before(store, &entries[at], address) {
        at += 1;
    }
    at
}

/// A place up to which the rows are before an address, less than a stride from the last such.
fn place_by_strides(store: &Store, entries: &[Entry], address: &Address<'_>) -> usize
    requires stand { AllEntriesLead store.now entries.now }
    requires order { Ascending (map (entry_row store.now) entries.now) }
    ensures within { result ≤ length entries.now }
    ensures left { AllBefore (take result (map (entry_row store.now) entries.now))
        (address_of address.now.path.now (key_at address.now.is_group address.now.name.now)) }
{
    let mut at = 0;
    while entries.len() - at >= STRIDE && comes_before(store, &entries[at + STRIDE - 1], address) {
        at += STRIDE;
    }
    at
}

/// Moves the second half of the rows of a full leaf.
fn move_half(lower: &mut Vec<Entry>, upper: &mut Vec<Entry>)
    requires full { vec_len lower.old ≡ 64 }
    requires empty { upper.old.items ≡ [] }
    requires roomy { 64 ≤ vec_capacity upper.old }
    ensures rows { lower.old.items ≡ lower.new.items ++ upper.new.items }
    ensures lower_len { vec_len lower.new ≡ 32 }
    ensures upper_len { vec_len upper.new ≡ 32 }
    ensures lower_capacity { vec_capacity lower.new ≡ vec_capacity lower.old }
    ensures upper_capacity { vec_capacity upper.new ≡ vec_capacity upper.old }
{
    while lower.len() > HALF {
        let entry = lower.remove(HALF);
        upper.push_reserved(entry);
    }
}

fn same_path(a: &[Text], b: &[Text]) -> bool
    ensures { result ≡ path_eq a.now b.now }
{
    if a.len() != b.len() {
        return false;
    }
    for i in 0..a.len() {
        if a[i].as_slice() != b[i].as_slice() {
            return false;
        }
    }
    true
}

/// Whether a row is right below a group.
pub(crate) fn is_child(row: &Stored, group: &Stored) -> bool
    ensures { result ≡ path_eq row.now.path (below group.now) }
{
    is_below(row.path(), group.path(), group.item().name.as_slice())
}

/// Whether a path is that of what is right below a group.
pub(crate) fn is_below(path: &[Text], above: &[Text], name: &[u8]) -> bool
    ensures { result ≡ path_eq path.now (above.now ++ name.now ∷ []) }
{
    match path.split_last() {
        Some((last, front)) => last.as_slice() == name && same_path(front, above),
        None => false,
    }
}
