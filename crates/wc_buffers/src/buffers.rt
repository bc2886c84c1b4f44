ghost use Rattle.std.specs.Prelude.{◌≡◌, [], map, length, IfOk, option_copied};
ghost use Rattle.wc_buffers.specs.Calls.{is_there, buffer_of, vars_at, entry_of, number};
ghost use Rattle.wc_buffers.specs.Calls.{handle_of_name};
ghost use Rattle.wc_buffers.specs.Groups.{rows};
ghost use Rattle.wc_buffers.specs.Kept.{AreBuffers, handles};

use crate::entries::Entries;
use crate::group::MOST_BUFFERS;
use crate::iter::GroupIter;
use crate::names::Names;
use crate::row::{BufferEntry, BufferRow};
use crate::table::GroupTable;
use crate::vars::Vars;
use std::alloc::Global;
use std::collections::HashMap;
use std::marker::Model;
use wc_text::{Handle, NoMemory};

/// All buffers, in groups that share a number.
///
/// Contracts see the list of groups, each a list of buffers with their variables. There are at most
/// 256 buffers. Each has its own handle and its own full name.
#[derive(Drop)]
pub struct Buffers {
    pub(crate) table: GroupTable,
    pub(crate) entries: Entries,
    pub(crate) names: Names,
}

impl Model for Buffers {
    ghost use Rattle.std.specs.Prelude.{List};
    ghost use Rattle.wc_buffers.specs.declared.row.BufferEntry.{BufferEntry};
    ghost use Rattle.wc_buffers.specs.Kept.{groups_of_handles, AreBuffersKept};

    ghost Value = { List (List BufferEntry) };

    ghost view = { λ a. groups_of_handles a.entries a.table };

    ghost invariant = { λ a. AreBuffersKept a.table a.entries a.names };
}

impl Buffers {
    /// No buffers, and room for 256 of them, so that closing, moving, unmerging, hiding and
    /// unhiding take no memory.
    pub fn new(alloc: Global) -> Result<Buffers, NoMemory>
        ensures { IfOk result (λ buffers. buffers ≡ []) }
    {
        let table = GroupTable::new(alloc)?;
        let entries = HashMap::with_capacity(alloc, MOST_BUFFERS)?;
        let names = HashMap::with_capacity(alloc, MOST_BUFFERS)?;
        Ok(Buffers {
            table,
            entries,
            names,
        })
    }

    /// The number of a buffer, which is one plus the place of its group. None exactly where it is
    /// not there.
    pub fn number(&self, h: Handle) -> Option<u32>
        ensures { result ≡ number h self.now }
    {
        let _ = &self.entries;
        self.table.number(h)
    }

    /// The buffer of a full name. None exactly where no buffer has it.
    pub fn find(&self, full_name: &[u8]) -> Option<Handle>
        ensures { result ≡ handle_of_name full_name.now self.now }
    {
        match self.names.get(full_name) {
            Some(h) => Some(*h),
            None => None,
        }
    }

    /// What is kept of a buffer. None exactly where it is not there.
    pub fn get(&self, h: Handle) -> Option<&BufferRow>
        ensures { option_copied result ≡ buffer_of h self.now }
    {
        match self.entry(h) {
            Some(entry) => Some(&entry.row),
            None => None,
        }
    }

    /// The variables of a buffer. None exactly where it is not there.
    pub fn vars(&self, h: Handle) -> Option<&Vars>
        ensures { option_copied result ≡ vars_at h self.now }
    {
        match self.entry(h) {
            Some(entry) => Some(&entry.vars),
            None => None,
        }
    }

    /// The groups in order, each as the handles of its buffers.
    pub fn groups(&self) -> GroupIter<'_>
        ensures groups { result ≡ handles self.now }
        ensures held { AreBuffers self.now }
    {
        let _ = &self.entries;
        self.table.iter()
    }

    pub(crate) fn entry(&self, h: Handle) -> Option<&BufferEntry>
        ensures { option_copied result ≡ entry_of h self.now }
    {
        self.entries.get(&h.0)
    }

    pub(crate) fn is_there(&self, h: Handle) -> bool
        ensures { result ≡ is_there h self.now }
    {
        self.entries.contains_key(&h.0)
    }

    /// How many buffers there are.
    pub(crate) fn count(&self) -> usize
        ensures { result ≡ length (rows self.now) }
    {
        let _ = &self.entries;
        self.table.count()
    }

    /// How many groups there are.
    pub(crate) fn group_count(&self) -> usize
        ensures { result ≡ length self.now }
    {
        let _ = &self.entries;
        self.table.len()
    }
}
