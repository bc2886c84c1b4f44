//! Each story: a table of hooks, what is done in its passes, and what comes of it.

use crate::passes::{
    Five, by_priority, nested, reentrant, with_fewer_entries, with_inner_pass, with_late_entry,
    with_switched_entries, with_unhooked_entry,
};
use crate::tables::{crowded_table, full_table, hook_signal, table_of};
use std::alloc::Global;
use std::marker::Brand;
use std::sync::ledger::Blank;
use wc_hooks::{HookId, HookKind, HookRefused, Owner};
use wc_text::{LinkId, Text};

/// The priorities of entries that come in the order of their numbers.
const FALLING: [u32; 4] = [4, 3, 2, 1];

/// What a story that opens passes gives, where none was refused.
type Given<T> = Result<Option<T>, HookRefused>;

/// Entries come by priority, and then in the order in which they were hooked.
pub fn in_order(alloc: Global, key: &Text) -> Result<Five, HookRefused> {
    let mut table = table_of(alloc, key, [100, 2000, 100, 1000])?;
    Ok(by_priority::<Brand>(&mut table, key, Blank::new(1)))
}

/// An entry that is hooked in a running pass does not run in it, also where it comes before those
/// that ran.
pub fn late(alloc: Global, key: &Text, priority: u32) -> Given<(u64, bool, Five)> {
    let mut table = table_of(alloc, key, FALLING)?;
    let blank = Blank::new(1);
    Ok(with_late_entry::<Brand>(&mut table, alloc, key, priority, blank))
}

/// An entry that is unhooked or disabled earlier in the pass does not run.
pub fn fewer(alloc: Global, key: &Text) -> Given<(u64, bool, u64)> {
    let mut table = table_of(alloc, key, FALLING)?;
    Ok(with_fewer_entries::<Brand>(&mut table, key, Blank::new(1)))
}

/// An entry runs that is enabled now and was at the opening.
pub fn switched(alloc: Global, key: &Text) -> Given<(u64, Five)> {
    let mut table = table_of(alloc, key, FALLING)?;
    Ok(with_switched_entries::<Brand>(&mut table, key, Blank::new(1)))
}

/// An inner pass passes over an owner that runs, and leaves the outer pass its next entry.
pub fn inner(alloc: Global, key: &Text) -> Given<(u64, u64, u64)> {
    let mut table = table_of(alloc, key, FALLING)?;
    Ok(with_inner_pass::<Brand>(&mut table, key, Blank::new(1)))
}

/// An entry that is unhooked in an inner pass is gone from the outer one and from later ones.
pub fn unhooked(alloc: Global, key: &Text) -> Given<(bool, Five, Five)> {
    let mut table = table_of(alloc, key, FALLING)?;
    Ok(with_unhooked_entry::<Brand>(&mut table, key, Blank::new(1)))
}

/// A pass gives the entries of its own kind and key alone, whatever is done while one runs.
pub fn crowded(alloc: Global, key: &Text) -> Given<(u64, Five, Five)> {
    let mut table = crowded_table(alloc, key)?;
    Ok(reentrant::<Brand>(&mut table, alloc, key, Blank::new(1)))
}

/// How many passes can be open inside one another, and whether one that tells clients can be opened
/// in the innermost.
pub fn deep(alloc: Global, key: &Text) -> Result<(u32, bool), HookRefused> {
    let mut table = table_of(alloc, key, FALLING)?;
    Ok(nested(&mut table, key, 20))
}

/// Why an entry is refused once the table is full.
pub fn one_too_many(alloc: Global, key: &Text) -> Result<Option<HookRefused>, HookRefused> {
    let mut table = full_table(alloc, key)?;
    Ok(hook_signal(&mut table, alloc, key, 0, 961).err())
}

/// How many entries of clients a full table has, and then after one more is hooked.
pub fn relays(alloc: Global, key: &Text) -> Result<(u32, u32), HookRefused> {
    let mut table = full_table(alloc, key)?;
    let before = table.relay_count();
    if before >= 64 {
        return Ok((before, before));
    }
    table.hook(alloc, HookKind::Relay, key, 0, Owner::Session(LinkId(1)))?;
    Ok((before, table.relay_count()))
}

/// What is answered of an entry that is not there: whether it lives, is unhooked, is enabled.
pub fn unknown(alloc: Global, key: &Text) -> Result<(bool, bool, bool), HookRefused> {
    let mut table = table_of(alloc, key, FALLING)?;
    let id = HookId(5);
    Ok((
        table.lives(id),
        table.unhook(id),
        table.set_enabled(id, true),
    ))
}
