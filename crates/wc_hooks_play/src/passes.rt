//! Passes through tables of hooks.

ghost use Rattle.std.specs.Prelude.{◌≡◌, ◌≢◌, ◌<◌, ◌≤◌, ℕ};
ghost use Rattle.wc_hooks.specs.Table.{IsOpen, pass_at};

use crate::tables::hook_signal;
use std::alloc::Global;
use std::sync::ledger::{Blank, Ledger};
use wc_hooks::{HookId, HookKind, HookTable, Owner, Pass, Steps};
use wc_text::Text;

/// The triggers of five entries in a row, 0 where none is left.
pub type Five = (u64, u64, u64, u64, u64);

/// The trigger whose entry comes next, which then runs. 0 where none is left.
fn next_trigger<L: Ledger>(table: &mut HookTable, pass: &mut Pass, steps: &mut Steps<L>) -> u64
    requires { IsOpen table.old pass.old }
    ensures pass { pass.new ≡ pass.old }
    ensures is_open { IsOpen table.new pass.old }
    ensures hooked { table.new.hooked ≡ table.old.hooked }
    ensures others { (place : ℕ) → place ≢ pass.old → pass_at table.new place
        ≡ pass_at table.old place }
{
    match table.next(pass, steps) {
        Some(entry) => match entry.owner {
            Owner::Trigger(trigger) => trigger,
            Owner::Session(link) => link.0,
        },
        None => 0,
    }
}

/// The triggers of the next five entries, which then run.
fn next_five<L: Ledger>(table: &mut HookTable, pass: &mut Pass, steps: &mut Steps<L>) -> Five
    requires { IsOpen table.old pass.old }
    ensures pass { pass.new ≡ pass.old }
    ensures is_open { IsOpen table.new pass.old }
    ensures hooked { table.new.hooked ≡ table.old.hooked }
    ensures others { (place : ℕ) → place ≢ pass.old → pass_at table.new place
        ≡ pass_at table.old place }
{
    let first = next_trigger(table, pass, steps);
    let second = next_trigger(table, pass, steps);
    let third = next_trigger(table, pass, steps);
    let fourth = next_trigger(table, pass, steps);
    let fifth = next_trigger(table, pass, steps);
    (first, second, third, fourth, fifth)
}

/// What a pass of its own gives.
fn whole_pass<L: Ledger>(table: &mut HookTable, key: &Text, steps: &mut Steps<L>) -> Five
    ensures hooked { table.new.hooked ≡ table.old.hooked }
    ensures open { (place : ℕ) → IsOpen table.old place → IsOpen table.new place }
{
    let Some(mut pass) = table.open_pass(HookKind::Signal, key) else {
        return (0, 0, 0, 0, 0);
    };
    let given = next_five(table, &mut pass, steps);
    table.close_pass(pass);
    given
}

fn first_within<L: Ledger>(table: &mut HookTable, key: &Text, steps: &mut Steps<L>) -> u64
    ensures hooked { table.new.hooked ≡ table.old.hooked }
    ensures open { (place : ℕ) → IsOpen table.old place → IsOpen table.new place }
{
    let Some(mut inner) = table.open_pass(HookKind::Signal, key) else {
        return 0;
    };
    let within = next_trigger(table, &mut inner, steps);
    table.close_pass(inner);
    within
}

fn unhook_within(table: &mut HookTable, key: &Text) -> bool
    ensures hooked { table.new.hooked ≡ table.old.hooked }
    ensures open { (place : ℕ) → IsOpen table.old place → IsOpen table.new place }
{
    let Some(inner) = table.open_pass(HookKind::Signal, key) else {
        return false;
    };
    let unhooked = table.unhook(HookId(2));
    table.close_pass(inner);
    unhooked
}

fn opens_for_relays(table: &mut HookTable, key: &Text) -> bool
    ensures { (place : ℕ) → IsOpen table.old place → IsOpen table.new place }
{
    if table.is_relay_open() {
        return false;
    }
    let Some(pass) = table.open_pass(HookKind::Relay, key) else {
        return false;
    };
    table.close_pass(pass);
    true
}

/// How many passes can be opened inside one another, and whether a Relay pass can be opened in the
/// innermost.
pub fn nested(table: &mut HookTable, key: &Text, most: u32) -> (u32, bool)
    ensures within { result.0 ≤ most }
    ensures open { (place : ℕ) → IsOpen table.old place → IsOpen table.new place }
{
    if most == 0 {
        return (0, false);
    }
    let Some(pass) = table.open_pass(HookKind::Signal, key) else {
        return (0, opens_for_relays(table, key));
    };
    let (count, relays) = nested(table, key, most - 1);
    table.close_pass(pass);
    (count + 1, relays)
}

pub fn by_priority<L: Ledger>(table: &mut HookTable, key: &Text, blank: Blank) -> Five
    requires hooked { table.old.hooked < 1900 }
    requires name { blank.name ≡ L.name }
    requires parts { blank.parts ≡ L.parts }
    requires some { 0 < L.parts }
{
    let mut steps: Steps<L> = Steps::new(blank);
    whole_pass(table, key, &mut steps)
}

/// Hooks an entry of this priority after the first entry ran. Gives the first, whether it was hooked,
/// and the others.
pub fn with_late_entry<L: Ledger>(
    table: &mut HookTable,
    alloc: Global,
    key: &Text,
    priority: u32,
    blank: Blank,
) -> Option<(u64, bool, Five)>
    requires hooked { table.old.hooked < 1900 }
    requires name { blank.name ≡ L.name }
    requires parts { blank.parts ≡ L.parts }
    requires some { 0 < L.parts }
{
    let mut steps: Steps<L> = Steps::new(blank);
    let mut pass = table.open_pass(HookKind::Signal, key)?;
    let first = next_trigger(table, &mut pass, &mut steps);
    let late = hook_signal(table, alloc, key, priority, 5);
    let others = next_five(table, &mut pass, &mut steps);
    table.close_pass(pass);
    Some((first, late.is_ok(), others))
}

/// Unhooks the second entry and disables the third after the first ran.
pub fn with_fewer_entries<L: Ledger>(
    table: &mut HookTable,
    key: &Text,
    blank: Blank,
) -> Option<(u64, bool, u64)>
    requires hooked { table.old.hooked < 1900 }
    requires name { blank.name ≡ L.name }
    requires parts { blank.parts ≡ L.parts }
    requires some { 0 < L.parts }
{
    let mut steps: Steps<L> = Steps::new(blank);
    let mut pass = table.open_pass(HookKind::Signal, key)?;
    let first = next_trigger(table, &mut pass, &mut steps);
    let unhooked = table.unhook(HookId(2));
    let disabled = table.set_enabled(HookId(3), false);
    let second = next_trigger(table, &mut pass, &mut steps);
    table.close_pass(pass);
    Some((first, unhooked && disabled, second))
}

/// After the first entry ran, the second is enabled, which was disabled at the opening, and the
/// third is disabled and enabled again.
pub fn with_switched_entries<L: Ledger>(
    table: &mut HookTable,
    key: &Text,
    blank: Blank,
) -> Option<(u64, Five)>
    requires hooked { table.old.hooked < 1900 }
    requires name { blank.name ≡ L.name }
    requires parts { blank.parts ≡ L.parts }
    requires some { 0 < L.parts }
{
    let mut steps: Steps<L> = Steps::new(blank);
    table.set_enabled(HookId(2), false);
    let mut pass = table.open_pass(HookKind::Signal, key)?;
    let first = next_trigger(table, &mut pass, &mut steps);
    table.set_enabled(HookId(2), true);
    table.set_enabled(HookId(3), false);
    table.set_enabled(HookId(3), true);
    let others = next_five(table, &mut pass, &mut steps);
    table.close_pass(pass);
    Some((first, others))
}

/// Opens an inner pass, whose first entry then runs and ends.
pub fn with_inner_pass<L: Ledger>(
    table: &mut HookTable,
    key: &Text,
    blank: Blank,
) -> Option<(u64, u64, u64)>
    requires hooked { table.old.hooked < 1900 }
    requires name { blank.name ≡ L.name }
    requires parts { blank.parts ≡ L.parts }
    requires some { 0 < L.parts }
{
    let mut steps: Steps<L> = Steps::new(blank);
    let mut outer = table.open_pass(HookKind::Signal, key)?;
    let first = next_trigger(table, &mut outer, &mut steps);
    let within = first_within(table, key, &mut steps);
    table.end_run(HookId(2));
    let second = next_trigger(table, &mut outer, &mut steps);
    table.close_pass(outer);
    Some((first, within, second))
}

/// Unhooks the second entry in an inner pass. Gives what the outer pass gives then, and a pass
/// after its closing.
pub fn with_unhooked_entry<L: Ledger>(
    table: &mut HookTable,
    key: &Text,
    blank: Blank,
) -> Option<(bool, Five, Five)>
    requires hooked { table.old.hooked < 1900 }
    requires name { blank.name ≡ L.name }
    requires parts { blank.parts ≡ L.parts }
    requires some { 0 < L.parts }
{
    let mut steps: Steps<L> = Steps::new(blank);
    let mut outer = table.open_pass(HookKind::Signal, key)?;
    let unhooked = unhook_within(table, key);
    let given = next_five(table, &mut outer, &mut steps);
    table.close_pass(outer);
    table.end_run(HookId(1));
    table.end_run(HookId(3));
    table.end_run(HookId(4));
    let later = whole_pass(table, key, &mut steps);
    Some((unhooked && !table.unhook(HookId(2)), given, later))
}

/// While the first entry runs, the second is unhooked, a fourth is hooked, and an inner pass is
/// opened. Gives the first, what the inner pass gives, and what the outer pass gives then.
pub fn reentrant<L: Ledger>(
    table: &mut HookTable,
    alloc: Global,
    key: &Text,
    blank: Blank,
) -> Option<(u64, Five, Five)>
    requires hooked { table.old.hooked < 1900 }
    requires name { blank.name ≡ L.name }
    requires parts { blank.parts ≡ L.parts }
    requires some { 0 < L.parts }
{
    let mut steps: Steps<L> = Steps::new(blank);
    let mut outer = table.open_pass(HookKind::Signal, key)?;
    let first = next_trigger(table, &mut outer, &mut steps);
    table.unhook(HookId(2));
    let fourth = hook_signal(table, alloc, key, 100, 4);
    let within = whole_pass(table, key, &mut steps);
    table.end_run(HookId(3));
    if let Ok(id) = fourth {
        table.end_run(id);
    }
    let others = next_five(table, &mut outer, &mut steps);
    table.close_pass(outer);
    Some((first, within, others))
}
