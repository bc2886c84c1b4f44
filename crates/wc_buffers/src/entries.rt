ghost use Rattle.std.specs.Prelude.{◌≡◌, ◌<◌, IsSome, IsSomeAnd, OnOk, OnErr, IfOk, Some, None, ℕ};
ghost use Rattle.std.specs.Prelude.{List, if◌then◌else◌, nat_eq, bytes_eq};
ghost use Rattle.std.specs.HashMap.{spare};
ghost use Rattle.std.specs.Str.{IsUtf8};
ghost use Rattle.wc_buffers.specs.Calls.{with_hidden, with_full_name, with_short_name, with_title};
ghost use Rattle.wc_buffers.specs.Calls.{with_var, without_var, lacks_var};
ghost use Rattle.wc_buffers.specs.Kept.{at_handle, IsEntryChanged};

use crate::row::BufferEntry;
use std::alloc::Global;
use std::collections::HashMap;
use std::mem;
use wc_text::{Handle, NoMemory, Text};

/// The buffers by their handles.
pub(crate) type Entries = HashMap<u64, BufferEntry>;

/// Takes the memory for one buffer more.
pub(crate) fn reserve(entries: &mut Entries) -> Result<(), NoMemory>
    ensures same { (q : ℕ) → at_handle entries.new q ≡ at_handle entries.old q }
    ensures ok { OnOk result (0 < spare entries.new) }
{
    entries.reserve(1)?;
    Ok(())
}

/// Puts a buffer in. It takes no memory.
pub(crate) fn insert(entries: &mut Entries, entry: BufferEntry)
    requires { 0 < spare entries.old }
    ensures { (q : ℕ) → at_handle entries.new q ≡ (if nat_eq entry.row.handle.0 q then Some entry
        else at_handle entries.old q) }
{
    let Ok(_) = entries.insert(entry.row.handle.0, entry) else {
        unreachable!()
    };
}

/// Takes a buffer out that is there.
pub(crate) fn remove(entries: &mut Entries, h: Handle) -> BufferEntry
    requires { IsSome (at_handle entries.old h.0) }
    ensures entry { at_handle entries.old h.0 ≡ Some result }
    ensures left { (q : ℕ) → at_handle entries.new q ≡ (if nat_eq h.0 q then None
        else at_handle entries.old q) }
{
    let Some(entry) = entries.remove(&h.0) else {
        unreachable!()
    };
    entry
}

pub(crate) fn set_hidden(entries: &mut Entries, h: Handle, hidden: bool)
    requires { IsSome (at_handle entries.old h.0) }
    ensures { IsEntryChanged h.0 (with_hidden hidden) entries.old entries.new }
{
    let Some(entry) = entries.get_mut(&h.0) else {
        unreachable!()
    };
    entry.row.hidden = hidden;
}

pub(crate) fn set_short_name(entries: &mut Entries, h: Handle, name: Text)
    requires { IsSome (at_handle entries.old h.0) }
    ensures { IsEntryChanged h.0 (with_short_name name) entries.old entries.new }
{
    let Some(entry) = entries.get_mut(&h.0) else {
        unreachable!()
    };
    entry.row.short_name = name;
}

pub(crate) fn set_title(entries: &mut Entries, h: Handle, title: Text)
    requires { IsSome (at_handle entries.old h.0) }
    ensures { IsEntryChanged h.0 (with_title title) entries.old entries.new }
{
    let Some(entry) = entries.get_mut(&h.0) else {
        unreachable!()
    };
    entry.row.title = title;
}

/// Gives a buffer another full name, and the variables that follow from it. The answer is the name
/// that it had.
pub(crate) fn set_full_name(
    entries: &mut Entries,
    alloc: Global,
    h: Handle,
    name: Text,
) -> Result<Text, NoMemory>
    requires { IsSome (at_handle entries.old h.0) }
    ensures ok { OnOk result (IsEntryChanged h.0 (with_full_name name) entries.old entries.new) }
    ensures old { IfOk result (λ old. IsSomeAnd (at_handle entries.old h.0)
        (λ e. e.row.full_name ≡ old)) }
    ensures err { OnErr result (IsEntryChanged h.0 (λ e. e) entries.old entries.new) }
{
    let Some(entry) = entries.get_mut(&h.0) else {
        unreachable!()
    };
    entry.vars.set_fixed(alloc, name.as_slice())?;
    Ok(mem::replace(&mut entry.row.full_name, name))
}

/// Sets a variable of a buffer. True where it is new.
pub(crate) fn set_var(
    entries: &mut Entries,
    alloc: Global,
    h: Handle,
    name: &[u8],
    value: &[u8],
) -> Result<bool, NoMemory>
    requires there { IsSome (at_handle entries.old h.0) }
    requires utf8 { IsUtf8 value.now }
    ensures ok { OnOk result (IsEntryChanged h.0 (with_var name.now value.now) entries.old
        entries.new) }
    ensures new { IfOk result (λ new. new ≡ lacks_var name.now (at_handle entries.old h.0)) }
    ensures err { OnErr result (IsEntryChanged h.0 (λ e. e) entries.old entries.new) }
{
    let Some(entry) = entries.get_mut(&h.0) else {
        unreachable!()
    };
    let new = entry.vars.set(alloc, name, value)?;
    Ok(new)
}

/// Takes a variable of a buffer out.
pub(crate) fn remove_var(entries: &mut Entries, h: Handle, name: &[u8])
    requires { IsSome (at_handle entries.old h.0) }
    ensures { IsEntryChanged h.0 (without_var name.now) entries.old entries.new }
{
    let Some(entry) = entries.get_mut(&h.0) else {
        unreachable!()
    };
    entry.vars.remove(name);
}
