ghost use Rattle.std.specs.Prelude.{◌≡◌, ◌==◌, ◌<◌, ◌≤◌, ◌-◌, ◌&&◌, ◌++◌, ◌∷◌};
ghost use Rattle.std.specs.Prelude.{[], OnOk, OnErr, IfOk, Some, true, false, length, List, ℕ};
ghost use Rattle.std.specs.HashMap.{spare};
ghost use Rattle.std.specs.List.{list_any};
ghost use Rattle.std.specs.Str.{IsUtf8};
ghost use Rattle.wc_buffers.specs.Calls.{is_there, buffer_of, entry_of, without_buffer};
ghost use Rattle.wc_buffers.specs.Calls.{move_group_to, merge_groups, unmerge_group, with_entry};
ghost use Rattle.wc_buffers.specs.Calls.{with_hidden, with_full_name, with_short_name, with_title};
ghost use Rattle.wc_buffers.specs.Calls.{with_var, without_var, lacks_var, other_named};
ghost use Rattle.wc_buffers.specs.Calls.{are_together, is_alone, is_bad_name, is_fixed, is_full};
ghost use Rattle.wc_buffers.specs.Groups.{rows};
ghost use Rattle.wc_buffers.specs.Kept.{IsBuffer, at_handle, at_name};

use crate::buffers::Buffers;
use crate::entries::Entries;
use crate::names::Names;
use crate::row::{BufferEntry, BufferRow};
use crate::{entries, names};
use std::alloc::Global;
use wc_text::{Handle, NoMemory, Text};

/// Takes the memory for one buffer more and for its name.
fn reserve(
    names: &mut Names,
    entries: &mut Entries,
    alloc: Global,
    full_name: &[u8],
) -> Result<Vec<u8>, NoMemory>
    ensures names { (q : List ℕ) → at_name names.new q ≡ at_name names.old q }
    ensures entries { (q : ℕ) → at_handle entries.new q ≡ at_handle entries.old q }
    ensures name { IfOk result (λ name. name.items ≡ full_name.now) }
    ensures name_room { OnOk result (0 < spare names.new) }
    ensures entry_room { OnOk result (0 < spare entries.new) }
{
    let name = names::key_of(alloc, full_name)?;
    names::reserve(names)?;
    entries::reserve(entries)?;
    Ok(name)
}

impl Buffers {
    /// Puts a buffer in as a group of its own at the end.
    pub(crate) fn put(&mut self, alloc: Global, entry: BufferEntry) -> Result<(), NoMemory>
        requires handle { 0 < entry.row.handle.0 }
        requires absent { is_there entry.row.handle self.old ≡ false }
        requires fits { IsBuffer entry }
        requires room { length (rows self.old) < 256 }
        requires free { list_any (other_named entry.row.full_name entry.row.handle)
            (rows self.old) ≡ false }
        ensures ok { OnOk result (self.new ≡ self.old ++ (entry ∷ []) ∷ []) }
        ensures err { OnErr result (self.new ≡ self.old) }
    {
        let h = entry.row.handle;
        let full_name = entry.row.full_name.as_slice();
        let name = reserve(&mut self.names, &mut self.entries, alloc, full_name)?;
        names::insert(&mut self.names, name, h);
        entries::insert(&mut self.entries, entry);
        self.table.add(h);
        Ok(())
    }

    /// Takes a buffer out that is there.
    pub(crate) fn take(&mut self, h: Handle) -> BufferRow
        requires { is_there h self.old ≡ true }
        ensures row { buffer_of h self.old ≡ Some result }
        ensures after { self.new ≡ without_buffer h self.old }
    {
        let entry = entries::remove(&mut self.entries, h);
        names::remove(&mut self.names, entry.row.full_name.as_slice());
        self.table.remove(h);
        entry.row
    }

    /// The group of a buffer, so that it has this number.
    pub(crate) fn move_group(&mut self, h: Handle, number: u32)
        requires there { is_there h self.old ≡ true }
        requires above { 0 < number }
        requires within { number - 1 < length self.old }
        ensures { self.new ≡ move_group_to h number self.old }
    {
        let _ = &self.entries;
        self.table.move_group(h, number as usize - 1);
    }

    /// Takes a buffer out of its group and puts it after those of another's.
    pub(crate) fn append(&mut self, h: Handle, into: Handle)
        requires there { is_there h self.old ≡ true }
        requires target { is_there into self.old ≡ true }
        requires apart { are_together h into self.old ≡ false }
        ensures { self.new ≡ merge_groups h into self.old }
    {
        let _ = &self.entries;
        self.table.merge(h, into);
    }

    /// A buffer that has others in its group as a new group after it.
    pub(crate) fn part(&mut self, h: Handle)
        requires there { is_there h self.old ≡ true }
        requires merged { is_alone h self.old ≡ false }
        ensures { self.new ≡ unmerge_group h self.old }
    {
        let _ = &self.entries;
        self.table.unmerge(h);
    }

    pub(crate) fn put_hidden(&mut self, h: Handle, hidden: bool)
        requires { is_there h self.old ≡ true }
        ensures { self.new ≡ with_entry h (with_hidden hidden) self.old }
    {
        entries::set_hidden(&mut self.entries, h, hidden);
    }

    pub(crate) fn put_full_name(
        &mut self,
        alloc: Global,
        h: Handle,
        name: &Text,
    ) -> Result<(), NoMemory>
        requires there { is_there h self.old ≡ true }
        requires fits { is_bad_name 256 name.now ≡ false }
        requires utf8 { IsUtf8 name.now }
        requires free { list_any (other_named name.now h) (rows self.old) ≡ false }
        ensures ok { OnOk result (self.new ≡ with_entry h (with_full_name name.now) self.old) }
        ensures err { OnErr result (self.new ≡ self.old) }
    {
        let key = names::key_of(alloc, name.as_slice())?;
        let name = name.copy(alloc)?;
        names::reserve(&mut self.names)?;
        let old = entries::set_full_name(&mut self.entries, alloc, h, name)?;
        names::remove(&mut self.names, old.as_slice());
        names::insert(&mut self.names, key, h);
        Ok(())
    }

    pub(crate) fn put_short_name(&mut self, h: Handle, name: Text)
        requires there { is_there h self.old ≡ true }
        requires fits { is_bad_name 128 name ≡ false }
        requires utf8 { IsUtf8 name }
        ensures { self.new ≡ with_entry h (with_short_name name) self.old }
    {
        entries::set_short_name(&mut self.entries, h, name);
    }

    pub(crate) fn put_title(&mut self, h: Handle, title: Text)
        requires there { is_there h self.old ≡ true }
        requires fits { length title ≤ 1024 }
        requires utf8 { IsUtf8 title }
        ensures { self.new ≡ with_entry h (with_title title) self.old }
    {
        entries::set_title(&mut self.entries, h, title);
    }

    /// Sets a variable of a buffer. True where it is new.
    pub(crate) fn put_var(
        &mut self,
        alloc: Global,
        h: Handle,
        name: &[u8],
        value: &[u8],
    ) -> Result<bool, NoMemory>
        requires there { is_there h self.old ≡ true }
        requires own { is_fixed name.now ≡ false }
        requires room { (lacks_var name.now (entry_of h self.old)
            && is_full (entry_of h self.old)) ≡ false }
        requires utf8 { IsUtf8 name.now }
        requires value { IsUtf8 value.now }
        ensures ok { OnOk result (self.new ≡ with_entry h (with_var name.now value.now) self.old) }
        ensures new { IfOk result (λ new. new ≡ lacks_var name.now (entry_of h self.old)) }
        ensures err { OnErr result (self.new ≡ self.old) }
    {
        let new = entries::set_var(&mut self.entries, alloc, h, name, value)?;
        Ok(new)
    }

    pub(crate) fn drop_var(&mut self, h: Handle, name: &[u8])
        requires there { is_there h self.old ≡ true }
        requires own { is_fixed name.now ≡ false }
        ensures { self.new ≡ with_entry h (without_var name.now) self.old }
    {
        entries::remove_var(&mut self.entries, h, name);
    }
}
