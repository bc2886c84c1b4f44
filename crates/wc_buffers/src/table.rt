ghost use Rattle.std.specs.Prelude.{◌≡◌, ℕ, ◌<◌, ◌++◌, ◌∷◌, ◌&&◌, ◌==◌, [], length};
ghost use Rattle.std.specs.Prelude.{true, false, IfOk, option_map, ◌+◌};
ghost use Rattle.std.specs.List.{list_any};
ghost use Rattle.wc_buffers.specs.Groups.{rows, has, in_group, place, take_out, append_to, merge};
ghost use Rattle.wc_buffers.specs.Groups.{move_group, unmerge};
ghost use Rattle.wc_buffers.specs.Table.{key, AreGroups, IsGroupsStored};

use crate::group::{Group, MOST_BUFFERS};
use crate::iter::GroupIter;
use std::alloc::Global;
use std::marker::Model;
use wc_text::{Handle, NoMemory};

/// How many groups there is room for: one that is made before another goes is beside as many
/// groups as there are buffers.
const MOST_GROUPS: usize = MOST_BUFFERS + 1;

/// The groups of buffers by their handles, which contracts see as lists of handles.
///
/// The room for all buffers and groups is taken at the making, so that no edit takes memory.
#[derive(Drop)]
pub(crate) struct GroupTable {
    groups: Vec<Group>,
    /// Empty groups that are still to be used.
    spare: Vec<Group>,
    /// How many buffers there are.
    count: usize,
}

impl Model for GroupTable {
    ghost use Rattle.std.specs.Prelude.{List};
    ghost use Rattle.wc_text.specs.declared.names.Handle.{Handle};
    ghost use Rattle.wc_buffers.specs.Table.{IsGroupTable};

    ghost Value = { List (List Handle) };

    ghost view = { λ a. a.groups.items };

    ghost invariant = { λ a. IsGroupTable a.groups a.spare a.count };
}

impl GroupTable {
    /// No groups, and room for all of them.
    pub(crate) fn new(alloc: Global) -> Result<GroupTable, NoMemory>
        ensures { IfOk result (λ table. table ≡ []) }
    {
        let groups = Vec::with_capacity(alloc, MOST_GROUPS)?;
        let mut spare = Vec::with_capacity(alloc, MOST_GROUPS)?;
        for _ in 0..MOST_GROUPS {
            let group = Group::new(alloc)?;
            spare.push_reserved(group);
        }
        Ok(GroupTable {
            groups,
            spare,
            count: 0,
        })
    }

    /// How many buffers there are.
    pub(crate) fn count(&self) -> usize
        ensures count { result ≡ length (rows self.now) }
        ensures groups { AreGroups self.now }
    {
        let _ = &self.groups;
        self.count
    }

    /// How many groups there are.
    pub(crate) fn len(&self) -> usize
        ensures { result ≡ length self.now }
    {
        self.groups.len()
    }

    pub(crate) fn iter(&self) -> GroupIter<'_>
        ensures all { result ≡ self.now }
        ensures groups { AreGroups self.now }
    {
        GroupIter::new(self.groups.as_slice())
    }

    /// The number of the group of a buffer, from 1.
    pub(crate) fn number(&self, h: Handle) -> Option<u32>
        ensures { result ≡ option_map (λ n. n + 1) (place key h.0 self.now) }
    {
        match place_of(self.groups.as_slice(), h) {
            Some(place) => Some(place as u32 + 1),
            None => None,
        }
    }

    /// Whether two buffers are in one group.
    pub(crate) fn are_together(&self, h: Handle, into: Handle) -> bool
        ensures { result ≡ list_any (λ g. in_group key h.0 g && in_group key into.0 g) self.now }
    {
        self.groups
            .iter()
            .any(|group| group.has(h) && group.has(into))
    }

    /// Whether a buffer is the only one of its group.
    pub(crate) fn is_alone(&self, h: Handle) -> bool
        ensures { result ≡ list_any (λ g. in_group key h.0 g && (length g == 1)) self.now }
    {
        self.groups
            .iter()
            .any(|group| group.has(h) && group.len() == 1)
    }

    /// A buffer as a group of its own at the end.
    pub(crate) fn add(&mut self, h: Handle)
        requires room { length (rows self.old) < 256 }
        requires absent { has key h.0 self.old ≡ false }
        ensures { self.new ≡ self.old ++ (h ∷ []) ∷ [] }
    {
        add(&mut self.groups, &mut self.spare, h);
        self.count += 1;
    }

    /// Takes a buffer out, and its group where that is left empty.
    pub(crate) fn remove(&mut self, h: Handle)
        requires { has key h.0 self.old ≡ true }
        ensures { self.new ≡ take_out key h.0 self.old }
    {
        remove(&mut self.groups, &mut self.spare, h);
        self.count -= 1;
    }

    /// The group of a buffer, so that this many groups are before it.
    pub(crate) fn move_group(&mut self, h: Handle, before: usize)
        requires there { has key h.0 self.old ≡ true }
        requires within { before < length self.old }
        ensures { self.new ≡ move_group key h.0 before self.old }
    {
        move_group(&mut self.groups, &mut self.spare, h, before);
    }

    /// Takes a buffer out of its group and puts it after those of another's.
    pub(crate) fn merge(&mut self, h: Handle, into: Handle)
        requires there { has key h.0 self.old ≡ true }
        requires target { has key into.0 self.old ≡ true }
        requires apart { (h.0 == into.0) ≡ false }
        ensures merged { self.new ≡ merge key h.0 into.0 self.old }
        ensures same { (q : ℕ) → has key q self.new ≡ has key q self.old }
    {
        remove(&mut self.groups, &mut self.spare, h);
        append(&mut self.groups, &mut self.spare, into, h);
    }

    /// A buffer that has others in its group as a new group after it.
    pub(crate) fn unmerge(&mut self, h: Handle)
        requires there { has key h.0 self.old ≡ true }
        requires merged { list_any (λ g. in_group key h.0 g && (length g == 1)) self.old ≡ false }
        ensures { self.new ≡ unmerge key h.0 self.old }
    {
        unmerge(&mut self.groups, &mut self.spare, h);
    }
}

/// The place of the group that has a buffer.
fn place_of(groups: &[Group], h: Handle) -> Option<usize>
    ensures { result ≡ place key h.0 groups.now }
{
    groups.iter().position(|group| group.has(h))
}

fn add(groups: &mut Vec<Group>, spare: &mut Vec<Group>, h: Handle)
    requires stored { IsGroupsStored groups.old spare.old }
    requires room { length (rows groups.old.items) < 256 }
    requires absent { has key h.0 groups.old.items ≡ false }
    ensures stored { IsGroupsStored groups.new spare.new }
    ensures added { groups.new.items ≡ groups.old.items ++ (h ∷ []) ∷ [] }
{
    let Some(mut group) = spare.pop() else {
        unreachable!()
    };
    group.push(h);
    groups.push_reserved(group);
}

fn remove(groups: &mut Vec<Group>, spare: &mut Vec<Group>, h: Handle)
    requires stored { IsGroupsStored groups.old spare.old }
    requires there { has key h.0 groups.old.items ≡ true }
    ensures stored { IsGroupsStored groups.new spare.new }
    ensures removed { groups.new.items ≡ take_out key h.0 groups.old.items }
{
    let Some(place) = place_of(groups.as_slice(), h) else {
        unreachable!()
    };
    let group = &mut groups[place];
    group.remove(h);
    if group.len() == 0 {
        let empty = groups.remove(place);
        spare.push_reserved(empty);
    }
}

fn move_group(groups: &mut Vec<Group>, spare: &mut Vec<Group>, h: Handle, before: usize)
    requires stored { IsGroupsStored groups.old spare.old }
    requires there { has key h.0 groups.old.items ≡ true }
    requires within { before < length groups.old.items }
    ensures stored { IsGroupsStored groups.new spare.new }
    ensures moved { groups.new.items ≡ move_group key h.0 before groups.old.items }
{
    let Some(place) = place_of(groups.as_slice(), h) else {
        unreachable!()
    };
    let group = groups.remove(place);
    let Ok(()) = groups.insert(before, group) else {
        unreachable!()
    };
}

/// Puts a buffer that is not there after those of another's group.
fn append(groups: &mut Vec<Group>, spare: &mut Vec<Group>, into: Handle, h: Handle)
    requires stored { IsGroupsStored groups.old spare.old }
    requires there { has key into.0 groups.old.items ≡ true }
    requires absent { has key h.0 groups.old.items ≡ false }
    requires room { length (rows groups.old.items) < 256 }
    ensures stored { IsGroupsStored groups.new spare.new }
    ensures appended { groups.new.items ≡ append_to key into.0 (h ∷ []) groups.old.items }
{
    let Some(place) = place_of(groups.as_slice(), into) else {
        unreachable!()
    };
    let group = &mut groups[place];
    group.push(h);
}

fn unmerge(groups: &mut Vec<Group>, spare: &mut Vec<Group>, h: Handle)
    requires stored { IsGroupsStored groups.old spare.old }
    requires there { has key h.0 groups.old.items ≡ true }
    requires merged { list_any (λ g. in_group key h.0 g && (length g == 1))
        groups.old.items ≡ false }
    ensures stored { IsGroupsStored groups.new spare.new }
    ensures unmerged { groups.new.items ≡ unmerge key h.0 groups.old.items }
{
    let Some(place) = place_of(groups.as_slice(), h) else {
        unreachable!()
    };
    let Some(mut alone) = spare.pop() else {
        unreachable!()
    };
    alone.push(h);
    let group = &mut groups[place];
    group.remove(h);
    let Ok(()) = groups.insert(place + 1, alone) else {
        unreachable!()
    };
}
