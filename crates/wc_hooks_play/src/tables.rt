//! Tables of hooks with their entries.

ghost use Rattle.std.specs.Prelude.{◌≡◌, ◌+◌, ◌<◌, ◌≤◌, IfOk};

use std::alloc::Global;
use wc_hooks::{HookId, HookKind, HookRefused, HookTable, Owner};
use wc_text::Text;

/// Hooks an entry of this trigger under a signal.
pub fn hook_signal(
    table: &mut HookTable,
    alloc: Global,
    key: &Text,
    priority: u32,
    trigger: u64,
) -> Result<HookId, HookRefused>
    requires { table.old.hooked < 2000 }
    ensures hooked { table.new.hooked ≤ table.old.hooked + 1 }
    ensures passes { table.new.passes ≡ table.old.passes }
{
    table.hook(
        alloc,
        HookKind::Signal,
        key,
        priority,
        Owner::Trigger(trigger),
    )
}

/// A table in which triggers are hooked under one signal, with these priorities, numbered from 1.
pub fn table_of(alloc: Global, key: &Text, priorities: [u32; 4]) -> Result<HookTable, HookRefused>
    ensures { IfOk result (λ table. table.hooked < 5) }
{
    let Ok(mut table) = HookTable::new(alloc) else {
        return Err(HookRefused::NoMemory);
    };
    let [first, second, third, fourth] = priorities;
    hook_signal(&mut table, alloc, key, first, 1)?;
    hook_signal(&mut table, alloc, key, second, 2)?;
    hook_signal(&mut table, alloc, key, third, 3)?;
    hook_signal(&mut table, alloc, key, fourth, 4)?;
    Ok(table)
}

/// A table with three entries of equal priority under a signal, and 500 elsewhere.
pub fn crowded_table(alloc: Global, key: &Text) -> Result<HookTable, HookRefused>
    ensures { IfOk result (λ table. table.hooked < 600) }
{
    let Ok(mut table) = HookTable::new(alloc) else {
        return Err(HookRefused::NoMemory);
    };
    hook_signal(&mut table, alloc, key, 100, 1)?;
    hook_signal(&mut table, alloc, key, 100, 2)?;
    hook_signal(&mut table, alloc, key, 100, 3)?;
    for trigger in 0..500u64 {
        let owner = Owner::Trigger(trigger + 1000);
        table.hook(alloc, HookKind::Print, key, 100, owner)?;
    }
    Ok(table)
}

/// Hooks as many signals as fit into a new table.
pub fn full_table(alloc: Global, key: &Text) -> Result<HookTable, HookRefused>
    ensures { IfOk result (λ table. table.hooked < 1000) }
{
    let mut table = table_of(alloc, key, [4, 3, 2, 1])?;
    for trigger in 5..961u64 {
        hook_signal(&mut table, alloc, key, 0, trigger)?;
    }
    Ok(table)
}
