//! What messages make of the nicklists. All memory is found before the first write.

ghost use Rattle.std.specs.Prelude.{◌≡◌, ◌<◌, true, Some, Ok, Option, option_map, map, IfOk, IfErr};
ghost use Rattle.std.specs.Prelude.{OnOk, IfSome, vec_len, vec_capacity};
ghost use Rattle.wc_objects.specs.Forms.{well_formed};
ghost use Rattle.wc_model.specs.declared.notice.EventKind.TheVariants as event;
ghost use Rattle.wc_view.specs.BufferFold.{event_buffer};
ghost use Rattle.wc_view.specs.Each.{each, only};
ghost use Rattle.wc_view.specs.Grouped.{key_of};
ghost use Rattle.wc_view.specs.NickEntries.{nicks_at};
ghost use Rattle.wc_view.specs.NickFold.{NickPart, fold_nick_dump, fold_full, fold_diff};
ghost use Rattle.wc_view.specs.NickFold.{fold_opened, fold_closed, fold_nick_event, fold_nicks};
ghost use Rattle.wc_view.specs.NickFold.{changes_are_of};
ghost use Rattle.wc_view.specs.NickGroups.{entry_listed, GroupsAreUtf8};
ghost use Rattle.wc_view.specs.NickLists.{ItemsAreUtf8};
ghost use Rattle.wc_view.specs.NickSteps.{after_step, buffer_of, RefusesDiff};

use crate::buffer_nicks::{BufferNicks, add_buffer, nicklist_of, remove_list, replace_list};
use crate::named::buffer_named;
use crate::nick_groups::{BufferItems, by_buffer};
use crate::nick_items::{nick_changes_on, nick_rows_on};
use crate::nick_list::list_of;
use crate::nick_rows::NickChange;
use crate::told::event_buffer;
use std::alloc::Global;
use wc_keys::event_id;
use wc_model::EventKind;
use wc_nickdiff::{DiffItem, DiffRefused, item_applied};
use wc_nicklist::Nicklist;
use wc_objects::WireMessage;
use wc_text::{Handle, Items, NoMemory, Text};

/// What is to be done to the nicklists.
#[derive(Drop)]
pub(crate) enum NickStep {
    /// They stay as they are.
    Nothing,
    /// They are these from now on.
    All(Vec<BufferNicks>),
    /// The nicklist of a buffer is this one from now on, where the buffer is held.
    Becomes(BufferNicks),
    /// A buffer comes, where it is not held.
    Opened(BufferNicks),
    /// The buffer of this handle goes.
    Closed(u64),
}

/// The nicklist of a buffer of which these items are told. None where they are no nicklist.
fn entry_of(alloc: Global, group: BufferItems) -> Result<Option<BufferNicks>, NoMemory>
    requires { ItemsAreUtf8 group.1 }
    ensures { IfOk result (λ entry. entry ≡ entry_listed group) }
{
    let (buffer, items) = group.parts();
    match list_of(alloc, items)? {
        Some(list) => Ok(Some(BufferNicks::new(buffer, list))),
        None => Ok(None),
    }
}

/// The nicklists of these groups. None where the items of one are no nicklist.
#[tactic(auto, using(crate::proofs::NickFolded::lists_of_facts))]
fn lists_of(alloc: Global, groups: Vec<BufferItems>) -> Result<Option<Vec<BufferNicks>>, NoMemory>
    requires { GroupsAreUtf8 groups.items }
    ensures { IfOk result (λ entries. option_map (λ v. v.items) entries
        ≡ each entry_listed groups.items) }
{
    let mut entries = Vec::new(alloc);
    for group in groups {
        let Some(entry) = entry_of(alloc, group)? else {
            return Ok(None);
        };
        if entries.push(entry).is_err() {
            return Err(NoMemory);
        }
    }
    Ok(Some(entries))
}

/// The dump sets the nicklists, where each of its lists is one.
#[tactic(auto, using(crate::proofs::NickFolded::dump_step_facts))]
fn dump_step(alloc: Global, message: &WireMessage) -> Result<NickStep, NoMemory>
    requires { well_formed message.now.objects ≡ true }
    ensures { IfOk result (λ step. (part : Option NickPart) → after_step step part
        ≡ fold_nick_dump part message.now) }
{
    let Some(rows) = nick_rows_on(alloc, &message.objects)? else {
        return Ok(NickStep::Nothing);
    };
    let groups = by_buffer(alloc, rows)?;
    match lists_of(alloc, groups)? {
        Some(entries) => Ok(NickStep::All(entries)),
        None => Ok(NickStep::Nothing),
    }
}

/// The one group of these, and None where they are more or fewer.
fn only_group(mut groups: Vec<BufferItems>) -> Option<BufferItems>
    ensures { result ≡ only groups.items }
{
    if groups.len() == 1 {
        groups.pop()
    } else {
        None
    }
}

/// A full list of one buffer is its nicklist from now on.
#[tactic(auto, using(crate::proofs::NickFolded::full_step_facts))]
fn full_step(alloc: Global, message: &WireMessage) -> Result<NickStep, NoMemory>
    requires { well_formed message.now.objects ≡ true }
    ensures { IfOk result (λ step. (part : Option NickPart) → after_step step part
        ≡ fold_full part message.now) }
{
    let Some(rows) = nick_rows_on(alloc, &message.objects)? else {
        return Ok(NickStep::Nothing);
    };
    let Some(group) = only_group(by_buffer(alloc, rows)?) else {
        return Ok(NickStep::Nothing);
    };
    match entry_of(alloc, group)? {
        Some(entry) => Ok(NickStep::Becomes(entry)),
        None => Ok(NickStep::Nothing),
    }
}

/// The items of a diff without their buffers.
fn diff_of(alloc: Global, changes: Vec<NickChange>) -> Result<Items<DiffItem>, NoMemory>
    ensures { IfOk result (λ items. items ≡ map (λ change. change.diff) changes.items) }
{
    let mut items = Items::new(alloc);
    for change in changes {
        items.push(change.diff)?;
    }
    Ok(items)
}

/// The one buffer that changes are of. None where they are of several, or none.
fn buffer_of(changes: &[NickChange]) -> Option<u64>
    ensures { result ≡ buffer_of changes.now }
{
    let [first, others @ ..] = changes else {
        return None;
    };
    if are_of(first.buffer, others) {
        Some(first.buffer)
    } else {
        None
    }
}

fn are_of(buffer: u64, changes: &[NickChange]) -> bool
    ensures { result ≡ changes_are_of buffer changes.now }
{
    changes.iter().all(|change| change.buffer == buffer)
}

/// A diff of a buffer that is held is applied to its nicklist.
#[tactic(auto, using(crate::proofs::NickFolded::diff_step_facts))]
fn diff_step(
    alloc: Global,
    entries: &[BufferNicks],
    message: &WireMessage,
) -> Result<NickStep, DiffRefused>
    requires { well_formed message.now.objects ≡ true }
    ensures ok { IfOk result (λ step. fold_diff (Some (nicks_at entries.now)) message.now
        ≡ Ok (after_step step (Some (nicks_at entries.now)))) }
    ensures err { IfErr result
        (λ e. RefusesDiff e (fold_diff (Some (nicks_at entries.now)) message.now)) }
{
    let Some(changes) = nick_changes_on(alloc, &message.objects)? else {
        return Ok(NickStep::Nothing);
    };
    let Some(buffer) = buffer_of(changes.as_slice()) else {
        return Ok(NickStep::Nothing);
    };
    let Some(list) = nicklist_of(entries, buffer) else {
        return Ok(NickStep::Nothing);
    };
    let items = diff_of(alloc, changes)?;
    let list = item_applied(alloc, list, &items)?;
    Ok(NickStep::Becomes(BufferNicks::new(buffer, list)))
}

/// The handle of the buffer that an event says to have come.
fn opened_in(alloc: Global, message: &WireMessage) -> Result<Option<u64>, NoMemory>
    ensures { IfOk result (λ buffer. buffer ≡ option_map (λ told. key_of told.buffer)
        (event_buffer event.Opened message.now.objects)) }
{
    match event_buffer(alloc, EventKind::Opened, &message.objects)? {
        Some(told) => Ok(Some(told.buffer.handle.0)),
        None => Ok(None),
    }
}

/// A buffer that comes has a nicklist without rows, whose root no message named yet.
#[tactic(auto, using(crate::proofs::NickFolded::opened_step_facts))]
fn opened_step(alloc: Global, message: &WireMessage) -> Result<NickStep, NoMemory>
    ensures { IfOk result (λ step. (part : Option NickPart) → after_step step part
        ≡ fold_opened part message.now) }
{
    let Some(buffer) = opened_in(alloc, message)? else {
        return Ok(NickStep::Nothing);
    };
    let list = Nicklist::new(alloc, Handle(0))?;
    Ok(NickStep::Opened(BufferNicks::new(buffer, list)))
}

/// The nicklist of a buffer that is closed goes.
fn closed_step(message: &WireMessage) -> NickStep
    ensures { (part : Option NickPart) → after_step result part ≡ fold_closed part message.now }
{
    match buffer_named(&message.objects) {
        Some(buffer) => NickStep::Closed(buffer),
        None => NickStep::Nothing,
    }
}

/// What an event makes of the nicklists that are held.
fn event_step(
    alloc: Global,
    entries: &[BufferNicks],
    message: &WireMessage,
) -> Result<NickStep, DiffRefused>
    requires { well_formed message.now.objects ≡ true }
    ensures ok { IfOk result (λ step. fold_nick_event (Some (nicks_at entries.now)) message.now
        ≡ Ok (after_step step (Some (nicks_at entries.now)))) }
    ensures err { IfErr result
        (λ e. RefusesDiff e (fold_nick_event (Some (nicks_at entries.now)) message.now)) }
{
    let id = message.id.as_slice();
    if id == event_id(EventKind::NicklistDiff) {
        return diff_step(alloc, entries, message);
    }
    if id == event_id(EventKind::Nicklist) {
        return Ok(full_step(alloc, message)?);
    }
    if id == event_id(EventKind::Opened) {
        return Ok(opened_step(alloc, message)?);
    }
    if id == event_id(EventKind::Closing) {
        return Ok(closed_step(message));
    }
    Ok(NickStep::Nothing)
}

/// What a message makes of the nicklists. `BadItem` where it is a diff that can't be applied.
pub(crate) fn nick_step(
    alloc: Global,
    dump: &Text,
    nicks: &Option<Vec<BufferNicks>>,
    message: &WireMessage,
) -> Result<NickStep, DiffRefused>
    requires { well_formed message.now.objects ≡ true }
    ensures ok { IfOk result (λ step. fold_nicks dump.now
        (option_map (λ v. nicks_at v.items) nicks.now) message.now
        ≡ Ok (after_step step (option_map (λ v. nicks_at v.items) nicks.now))) }
    ensures err { IfErr result (λ e. RefusesDiff e
        (fold_nicks dump.now (option_map (λ v. nicks_at v.items) nicks.now) message.now)) }
{
    if message.id.as_slice() == dump.as_slice() {
        return Ok(dump_step(alloc, message)?);
    }
    match nicks {
        Some(entries) => event_step(alloc, entries.as_slice(), message),
        None => Ok(NickStep::Nothing),
    }
}

/// Makes room for one buffer more.
pub(crate) fn make_room(nicks: &mut Option<Vec<BufferNicks>>) -> Result<(), NoMemory>
    ensures same { option_map (λ v. v.items) nicks.new ≡ option_map (λ v. v.items) nicks.old }
    ensures room { OnOk result (IfSome nicks.new (λ v. vec_len v < vec_capacity v)) }
{
    match nicks {
        Some(entries) => match entries.reserve(1) {
            Ok(()) => Ok(()),
            Err(_) => Err(NoMemory),
        },
        None => Ok(()),
    }
}

/// Does what is to be done.
pub(crate) fn take_step(nicks: &mut Option<Vec<BufferNicks>>, step: NickStep)
    requires { IfSome nicks.old (λ v. vec_len v < vec_capacity v) }
    ensures { option_map (λ v. nicks_at v.items) nicks.new ≡ after_step step
        (option_map (λ v. nicks_at v.items) nicks.old) }
{
    if let NickStep::All(entries) = step {
        *nicks = Some(entries);
        return;
    }
    let Some(entries) = nicks else {
        drop(step);
        return;
    };
    match step {
        NickStep::Nothing | NickStep::All(_) => {}
        NickStep::Becomes(entry) => replace_list(entries.as_mut_slice(), entry),
        NickStep::Opened(entry) => add_buffer(entries, entry),
        NickStep::Closed(buffer) => remove_list(entries, buffer),
    }
}
