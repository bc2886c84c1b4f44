ghost use Rattle.std.specs.Prelude.{◌≡◌, ◌≤◌, ◌<◌, length, drop, min};
ghost use Rattle.wc_text.specs.Order.{fold_order};
ghost use Rattle.wc_nicklist.specs.Order.{key_at, key_cmp, address, address_cmp, address_of};
ghost use Rattle.wc_nicklist.specs.Order.{is_before};
ghost use Rattle.wc_nicklist.specs.Digest.{IsPathDigest};
ghost use Rattle.wc_nicklist.specs.Stored.{entry_row, EntryLeads};

use crate::digest::{Digest, NO_PLACE};
use crate::item::Row;
use crate::store::{Entry, Store, Stored};
use std::cmp::Ordering;
use wc_text::{Text, fold_cmp};

/// Where a row is: the names of the groups above it, its kind and its name, beside their digest.
#[derive(Drop)]
pub(crate) struct Address<'a> {
    pub(crate) path: &'a [Text],
    pub(crate) is_group: bool,
    pub(crate) name: &'a [u8],
    pub(crate) digest: Digest,
    ghost exact: { IsPathDigest digest path.now is_group name.now },
}

impl Address<'_> {
    /// The address without its digest.
    fn names(&self) -> Names<'_>
        ensures path { result.path.now ≡ self.now.path.now }
        ensures kind { result.is_group ≡ self.now.is_group }
        ensures name { result.name.now ≡ self.now.name.now }
    {
        Names {
            path: self.path,
            is_group: self.is_group,
            name: self.name,
        }
    }
}

/// The names of the groups above a row, its kind and its name.
#[derive(Drop)]
struct Names<'a> {
    path: &'a [Text],
    is_group: bool,
    name: &'a [u8],
}

impl<'a> Names<'a> {
    fn of_stored(row: &'a Stored) -> Names<'a>
        ensures path { result.path.now ≡ row.now.path }
        ensures kind { result.is_group ≡ row.now.item.is_group }
        ensures name { result.name.now ≡ row.now.item.name }
    {
        Names {
            path: row.path(),
            is_group: row.item().is_group,
            name: row.item().name.as_slice(),
        }
    }

    fn of(row: &'a Row) -> Names<'a>
        ensures path { result.path.now ≡ row.now.path }
        ensures kind { result.is_group ≡ row.now.item.is_group }
        ensures name { result.name.now ≡ row.now.item.name }
    {
        Names {
            path: row.path.as_slice(),
            is_group: row.item.is_group,
            name: row.item.name.as_slice(),
        }
    }
}

/// The canonical order of two rows: a group, its nicks, then its child groups, each by name.
pub fn row_cmp(a: &Row, b: &Row) -> Ordering
    ensures { result ≡ address_cmp (address a.now) (address b.now) }
{
    compare(&Names::of(a), &Names::of(b))
}

/// Whether a row is before an address in canonical order. Mostly the digests tell, without a look
/// at the row.
#[inline(always)]
pub(crate) fn comes_before(store: &Store, entry: &Entry, address: &Address<'_>) -> bool
    requires { EntryLeads store.now entry.now }
    ensures { result ≡ is_before (entry_row store.now entry.now)
        (address_of address.now.path.now (key_at address.now.is_group address.now.name.now)) }
{
    let digest = entry.digest;
    if digest.place != address.digest.place
        || digest.place == NO_PLACE
        || digest.name == address.digest.name
    {
        return comes_before_by_names(store, entry, address);
    }
    digest.name < address.digest.name
}

/// The same by the names, where the digests do not tell. It is kept apart, so that a search has a
/// short loop.
#[inline(never)]
fn comes_before_by_names(store: &Store, entry: &Entry, address: &Address<'_>) -> bool
    requires { EntryLeads store.now entry.now }
    ensures { result ≡ is_before (entry_row store.now entry.now)
        (address_of address.now.path.now (key_at address.now.is_group address.now.name.now)) }
{
    let row = store.get(entry.id);
    let digest = entry.digest;
    if digest.place != address.digest.place || digest.place == NO_PLACE {
        return compare(&Names::of_stored(row), &address.names()).is_lt();
    }
    name_cmp(row.item().name.as_slice(), address.name).is_lt()
}

/// The canonical order: name by name along the paths, and a nick before a group.
fn compare(a: &Names<'_>, b: &Names<'_>) -> Ordering
    ensures { result ≡ address_cmp (address_of a.now.path.now
        (key_at a.now.is_group a.now.name.now))
        (address_of b.now.path.now (key_at b.now.is_group b.now.name.now)) }
{
    let shared = a.path.len().min(b.path.len());
    for i in 0..shared {
        let of_groups = name_cmp(a.path[i].as_slice(), b.path[i].as_slice());
        if of_groups != Ordering::Equal {
            return of_groups;
        }
    }
    compare_ends(a, b, shared)
}

/// The order of two addresses whose first names are alike, where one path ends there.
fn compare_ends(a: &Names<'_>, b: &Names<'_>, shared: usize) -> Ordering
    requires within_a { shared ≤ length a.now.path.now }
    requires within_b { shared ≤ length b.now.path.now }
    requires one_ends { min (length a.now.path.now) (length b.now.path.now) ≤ shared }
    ensures { result ≡ address_cmp (address_of (drop shared a.now.path.now)
        (key_at a.now.is_group a.now.name.now)) (address_of (drop shared b.now.path.now)
        (key_at b.now.is_group b.now.name.now)) }
{
    if shared < a.path.len() {
        compare_keys(true, a.path[shared].as_slice(), b.is_group, b.name).then(Ordering::Greater)
    } else if shared < b.path.len() {
        compare_keys(a.is_group, a.name, true, b.path[shared].as_slice()).then(Ordering::Less)
    } else {
        compare_keys(a.is_group, a.name, b.is_group, b.name)
    }
}

/// The order of two keys: a nick before a group, then by name.
fn compare_keys(a_is_group: bool, a: &[u8], b_is_group: bool, b: &[u8]) -> Ordering
    ensures { result ≡ key_cmp (key_at a_is_group a.now) (key_at b_is_group b.now) }
{
    if a_is_group == b_is_group {
        name_cmp(a, b)
    } else if a_is_group {
        Ordering::Greater
    } else {
        Ordering::Less
    }
}

/// The order of two names, which mostly are the same where they are compared.
fn name_cmp(a: &[u8], b: &[u8]) -> Ordering
    ensures { result ≡ fold_order a.now b.now }
{
    if a == b {
        Ordering::Equal
    } else {
        fold_cmp(a, b)
    }
}
