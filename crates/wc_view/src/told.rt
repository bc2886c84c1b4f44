//! The buffers that messages tell.

ghost use Rattle.std.specs.Prelude.{◌≡◌, Option, Some, option_map, IfOk, OnOk, List};
ghost use Rattle.wc_view.specs.declared.mirror_buffer.MirrorBuffer.{MirrorBuffer};
ghost use Rattle.wc_view.specs.Each.{each};
ghost use Rattle.wc_view.specs.ToldBuffer.{buffer_in};
ghost use Rattle.wc_view.specs.BufferFold.{is_told, are_once, runs, buffers_on};
ghost use Rattle.wc_view.specs.BufferFold.{fold_buffer_dump, kind_among};
ghost use Rattle.wc_view.specs.BufferFold.{event_buffer, fold_buffer_event};
ghost use Rattle.wc_view.specs.Runs.{GroupsSoFar, nothing_open, with_row, groups_of_open, or_kept};

use crate::grouped::{push_filled, with_event};
use crate::items::{items_on, only_item};
use crate::mirror_buffer::SharedBuffer;
use crate::told_buffer::{ToldBuffer, buffer_in};
use std::alloc::Global;
use std::marker::Model;
use wc_keys::{BUFFER_PATH, Key, KeyList, event_id, event_keys, event_path};
use wc_model::EventKind;
use wc_objects::{HdaItem, Object, WireMessage};
use wc_text::{Items, NoMemory};

type Group = Items<SharedBuffer>;

/// What items tell under these keys. None where one has other values.
#[tactic(auto, using(crate::proofs::EachLemmas::each_flag_facts))]
fn each_buffer(
    alloc: Global,
    keys: &[Key],
    items: &Items<HdaItem>,
) -> Result<Option<Vec<ToldBuffer>>, NoMemory>
    ensures { IfOk result (λ rows. option_map (λ v. v.items) rows
        ≡ each (buffer_in keys.now) items.now) }
{
    let mut rows = Vec::new(alloc);
    for item in items.as_slice() {
        let Some(row) = buffer_in(alloc, keys, item)? else {
            return Ok(None);
        };
        if rows.push(row).is_err() {
            return Err(NoMemory);
        }
    }
    Ok(Some(rows))
}

fn buffers_on(alloc: Global, objects: &Items<Object>) -> Result<Option<Vec<ToldBuffer>>, NoMemory>
    ensures { IfOk result (λ rows. option_map (λ v. v.items) rows ≡ buffers_on objects.now) }
{
    match items_on(BUFFER_PATH, KeyList::Dump.text(), objects) {
        Some(items) => each_buffer(alloc, KeyList::Dump.keys(), items),
        None => Ok(None),
    }
}

/// No buffer is told twice.
fn are_once(rows: &[ToldBuffer]) -> bool
    ensures { result ≡ are_once rows.now }
{
    let mut rest = rows;
    while let [row, others @ ..] = rest {
        if is_told(row.buffer.handle.0, others) {
            return false;
        }
        rest = others;
    }
    true
}

fn is_told(h: u64, rows: &[ToldBuffer]) -> bool
    ensures { result ≡ is_told h rows.now }
{
    rows.iter().any(|other| other.buffer.handle.0 == h)
}

/// Groups, and after them one that may grow: that of this number.
#[derive(Drop)]
struct OpenGroup {
    groups: Items<Group>,
    number: u32,
    group: Group,
}

impl Model for OpenGroup {
    ghost use Rattle.wc_view.specs.Runs.{GroupsSoFar};

    ghost Value = { GroupsSoFar };

    ghost view = { λ o. record { groups = o.groups; number = o.number; group = o.group } };
}

impl OpenGroup {
    fn new(alloc: Global) -> OpenGroup
        ensures { result ≡ nothing_open }
    {
        OpenGroup {
            groups: Items::new(alloc),
            number: 0,
            group: Items::new(alloc),
        }
    }

    /// Puts a buffer into the last group where it has its number, and else into the next one.
    fn push(&mut self, alloc: Global, row: ToldBuffer) -> Result<(), NoMemory>
        ensures { OnOk result (self.new ≡ with_row self.old row) }
    {
        let buffer = SharedBuffer::new(alloc, row.buffer)?;
        if self.group.as_slice().is_empty() || self.number == row.number {
            self.number = row.number;
            return self.group.push(buffer);
        }
        let mut next = Items::new(alloc);
        next.push(buffer)?;
        let last = std::mem::replace(&mut self.group, next);
        self.number = row.number;
        self.groups.push(last)
    }

    /// All groups.
    fn finish(self) -> Result<Items<Group>, NoMemory>
        ensures { IfOk result (λ groups. groups ≡ groups_of_open self) }
    {
        let mut groups = self.groups;
        push_filled(&mut groups, self.group)?;
        Ok(groups)
    }
}

/// Runs of equal numbers as groups.
#[tactic(auto, using(crate::proofs::RunLemmas::runs_finished))]
fn runs(alloc: Global, rows: Vec<ToldBuffer>) -> Result<Items<Group>, NoMemory>
    ensures { IfOk result (λ groups. groups ≡ runs rows.items) }
{
    let mut last = OpenGroup::new(alloc);
    for row in rows {
        last.push(alloc, row)?;
    }
    last.finish()
}

/// The groups of the dump. None where the message is not one that changes them.
pub(crate) fn groups_in_dump(
    alloc: Global,
    message: &WireMessage,
) -> Result<Option<Items<Group>>, NoMemory>
    ensures { IfOk result (λ new. (part : Option (List (List MirrorBuffer))) →
        or_kept new part ≡ fold_buffer_dump part message.now) }
{
    let Some(rows) = buffers_on(alloc, &message.objects)? else {
        return Ok(None);
    };
    if !are_once(rows.as_slice()) {
        return Ok(None);
    }
    Ok(Some(runs(alloc, rows)?))
}

/// The events that change buffers.
const KINDS: [EventKind; 12] = [
    EventKind::Opened,
    EventKind::Moved,
    EventKind::Merged,
    EventKind::Unmerged,
    EventKind::Hidden,
    EventKind::Unhidden,
    EventKind::Renamed,
    EventKind::TitleChanged,
    EventKind::VarAdded,
    EventKind::VarChanged,
    EventKind::VarRemoved,
    EventKind::Closing,
];

#[tactic(auto, using(crate::proofs::KindLemmas::kind_among_facts))]
fn kind_among(kinds: &[EventKind], id: &[u8]) -> Option<EventKind>
    ensures { result ≡ kind_among id.now kinds.now }
{
    for kind in kinds {
        if id == event_id(*kind) {
            return Some(*kind);
        }
    }
    None
}

/// What the one item of an event tells. None of a message of another kind.
#[tactic(auto, unfolding(crate::specs::BufferFold::event_buffer))]
pub(crate) fn event_buffer(
    alloc: Global,
    kind: EventKind,
    objects: &Items<Object>,
) -> Result<Option<ToldBuffer>, NoMemory>
    ensures { IfOk result (λ told. told ≡ event_buffer kind objects.now) }
{
    let keys = event_keys(kind);
    let Some(items) = items_on(event_path(kind), keys.text(), objects) else {
        return Ok(None);
    };
    let Some(item) = only_item(items.as_slice()) else {
        return Ok(None);
    };
    buffer_in(alloc, keys.keys(), item)
}

/// The groups after an event. None where the message is not one that changes them.
pub(crate) fn groups_in_event(
    alloc: Global,
    groups: &Items<Group>,
    message: &WireMessage,
) -> Result<Option<Items<Group>>, NoMemory>
    ensures { IfOk result (λ new. or_kept new (Some groups.now) ≡ fold_buffer_event
        (Some groups.now) message.now) }
{
    let Some(kind) = kind_among(&KINDS, message.id.as_slice()) else {
        return Ok(None);
    };
    let Some(told) = event_buffer(alloc, kind, &message.objects)? else {
        return Ok(None);
    };
    Ok(Some(with_event(alloc, kind, told, groups)?))
}
