//! The buffers in groups, and what events make of them. The groups after an event are new lists;
//! the buffers in them are shared with the lists before, so that want of memory leaves these as
//! they were.

ghost use Rattle.std.specs.Prelude.{◌≡◌, ◌++◌, ◌∷◌, [], IfOk, OnOk};
ghost use Rattle.wc_buffers.specs.Groups.{filled_groups, has, in_group, without, only, take_out};
ghost use Rattle.wc_buffers.specs.Groups.{pick, others, own, move_group, part, unmerge};
ghost use Rattle.wc_model.specs.declared.notice.EventKind.TheVariants as event;
ghost use Rattle.wc_view.specs.Grouped.{key_of, with_after, insert_after, put_after};
ghost use Rattle.wc_view.specs.Grouped.{open_buffer_in, move_group_at, merge_groups_at, with_told};
ghost use Rattle.wc_view.specs.Grouped.{told_or_same, told_group, told_update, with_edit, with_event};

use crate::mirror_buffer::{MirrorBuffer, SharedBuffer};
use crate::told_buffer::ToldBuffer;
use std::alloc::Global;
use wc_model::EventKind;
use wc_text::{Items, NoMemory};

type Group = Items<SharedBuffer>;

fn key_of(buffer: &SharedBuffer) -> u64
    ensures { result ≡ key_of buffer.now }
{
    buffer.get().handle.0
}

fn in_group(h: u64, group: &[SharedBuffer]) -> bool
    ensures { result ≡ in_group key_of h group.now }
{
    group.iter().any(|buffer| key_of(buffer) == h)
}

pub(crate) fn has(h: u64, groups: &[Group]) -> bool
    ensures { result ≡ has key_of h groups.now }
{
    groups.iter().any(|group| in_group(h, group.as_slice()))
}

/// The buffers of a group but one.
#[tactic(auto, using(crate::proofs::GroupLoops::without_facts))]
fn without(alloc: Global, h: u64, group: &[SharedBuffer]) -> Result<Group, NoMemory>
    ensures { IfOk result (λ kept. kept ≡ without key_of h group.now) }
{
    let mut kept = Items::new(alloc);
    for buffer in group {
        if key_of(buffer) != h {
            kept.push(buffer.share()?)?;
        }
    }
    Ok(kept)
}

/// One buffer of a group, after others.
#[tactic(auto, using(crate::proofs::GroupLoops::only_more, crate::proofs::GroupLoops::only_same))]
fn push_only(picked: &mut Group, h: u64, group: &[SharedBuffer]) -> Result<(), NoMemory>
    ensures { OnOk result (picked.new ≡ picked.old ++ only key_of h group.now) }
{
    for buffer in group {
        if key_of(buffer) == h {
            picked.push(buffer.share()?)?;
        }
    }
    Ok(())
}

#[tactic(auto, using(crate::proofs::GroupLoops::pick_more))]
fn pick(alloc: Global, h: u64, groups: &[Group]) -> Result<Group, NoMemory>
    ensures { IfOk result (λ picked. picked ≡ pick key_of h groups.now) }
{
    let mut picked = Items::new(alloc);
    for group in groups {
        push_only(&mut picked, h, group.as_slice())?;
    }
    Ok(picked)
}

/// A group that has buffers, after others.
pub(crate) fn push_filled(groups: &mut Items<Group>, group: Group) -> Result<(), NoMemory>
    ensures { OnOk result (groups.new ≡ groups.old ++ filled_groups (group ∷ [])) }
{
    if group.as_slice().is_empty() {
        return Ok(());
    }
    groups.push(group)
}

/// The groups without a buffer, of which one that is left empty goes.
#[tactic(auto, using(crate::proofs::GroupLoops::take_out_more))]
fn take_out(alloc: Global, h: u64, groups: &[Group]) -> Result<Items<Group>, NoMemory>
    ensures { IfOk result (λ left. left ≡ take_out key_of h groups.now) }
{
    let mut left = Items::new(alloc);
    for group in groups {
        push_filled(&mut left, without(alloc, h, group.as_slice())?)?;
    }
    Ok(left)
}

/// Buffers after others.
fn push_all(group: &mut Group, new: &[SharedBuffer]) -> Result<(), NoMemory>
    ensures { OnOk result (group.new ≡ group.old ++ new.now) }
{
    for buffer in new {
        group.push(buffer.share()?)?;
    }
    Ok(())
}

/// One buffer, and after it the new ones where it is the one that they go after.
fn push_with_after(
    group: &mut Group,
    h: u64,
    new: &[SharedBuffer],
    buffer: &SharedBuffer,
) -> Result<(), NoMemory>
    ensures { OnOk result (group.new ≡ group.old ++ with_after h new.now buffer.now) }
{
    group.push(buffer.share()?)?;
    if key_of(buffer) == h {
        return push_all(group, new);
    }
    Ok(())
}

#[tactic(auto, using(crate::proofs::GroupLoops::insert_more))]
fn insert_after(
    alloc: Global,
    h: u64,
    new: &[SharedBuffer],
    group: &[SharedBuffer],
) -> Result<Group, NoMemory>
    ensures { IfOk result (λ placed. placed ≡ insert_after h new.now group.now) }
{
    let mut placed = Items::new(alloc);
    for buffer in group {
        push_with_after(&mut placed, h, new, buffer)?;
    }
    Ok(placed)
}

#[tactic(auto, using(crate::proofs::GroupLoops::put_more))]
fn put_after(
    alloc: Global,
    h: u64,
    new: &[SharedBuffer],
    groups: &[Group],
) -> Result<Items<Group>, NoMemory>
    ensures { IfOk result (λ placed. placed ≡ put_after h new.now groups.now) }
{
    let mut placed = Items::new(alloc);
    for group in groups {
        placed.push(insert_after(alloc, h, new, group.as_slice())?)?;
    }
    Ok(placed)
}

/// A buffer after another, of which it need not be in the group. Nothing changes where that is no
/// other buffer that is there.
fn merge_groups_at(
    alloc: Global,
    h: u64,
    prev: u64,
    groups: &Items<Group>,
) -> Result<Items<Group>, NoMemory>
    ensures { IfOk result (λ new. new ≡ merge_groups_at h prev groups.now) }
{
    if prev == h || !has(prev, groups.as_slice()) {
        return groups.copy(alloc);
    }
    let picked = pick(alloc, h, groups.as_slice())?;
    let left = take_out(alloc, h, groups.as_slice())?;
    put_after(alloc, prev, picked.as_slice(), left.as_slice())
}

/// The parts of a group, of which one is the buffer alone, after other groups.
fn push_parts(
    groups: &mut Items<Group>,
    alloc: Global,
    h: u64,
    group: &Group,
) -> Result<(), NoMemory>
    ensures { OnOk result (groups.new ≡ groups.old ++ part key_of h group.now) }
{
    if !in_group(h, group.as_slice()) {
        return groups.push(group.copy(alloc)?);
    }
    push_filled(groups, without(alloc, h, group.as_slice())?)?;
    let mut alone = Items::new(alloc);
    push_only(&mut alone, h, group.as_slice())?;
    push_filled(groups, alone)
}

#[tactic(auto, using(crate::proofs::GroupLoops::unmerge_more))]
fn unmerge(alloc: Global, h: u64, groups: &[Group]) -> Result<Items<Group>, NoMemory>
    ensures { IfOk result (λ parted. parted ≡ unmerge key_of h groups.now) }
{
    let mut parted = Items::new(alloc);
    for group in groups {
        push_parts(&mut parted, alloc, h, group)?;
    }
    Ok(parted)
}

/// The groups that do not have a buffer.
#[tactic(auto, using(crate::proofs::GroupLoops::others_facts))]
fn others(alloc: Global, h: u64, groups: &[Group]) -> Result<Items<Group>, NoMemory>
    ensures { IfOk result (λ found. found ≡ others key_of h groups.now) }
{
    let mut found = Items::new(alloc);
    for group in groups {
        if !in_group(h, group.as_slice()) {
            found.push(group.copy(alloc)?)?;
        }
    }
    Ok(found)
}

/// The groups that have a buffer, after others.
#[tactic(auto, using(crate::proofs::GroupLoops::own_more, crate::proofs::GroupLoops::own_same))]
fn push_own(
    found: &mut Items<Group>,
    alloc: Global,
    h: u64,
    groups: &[Group],
) -> Result<(), NoMemory>
    ensures { OnOk result (found.new ≡ found.old ++ own key_of h groups.now) }
{
    for group in groups {
        if in_group(h, group.as_slice()) {
            found.push(group.copy(alloc)?)?;
        }
    }
    Ok(())
}

fn push_groups(found: &mut Items<Group>, alloc: Global, groups: &[Group]) -> Result<(), NoMemory>
    ensures { OnOk result (found.new ≡ found.old ++ groups.now) }
{
    for group in groups {
        found.push(group.copy(alloc)?)?;
    }
    Ok(())
}

/// The groups that have a buffer, between others.
fn own_between(
    alloc: Global,
    h: u64,
    front: &[Group],
    groups: &[Group],
    back: &[Group],
) -> Result<Items<Group>, NoMemory>
    ensures { IfOk result
        (λ new. new ≡ (front.now ++ own key_of h groups.now) ++ back.now) }
{
    let mut new = Items::new(alloc);
    push_groups(&mut new, alloc, front)?;
    push_own(&mut new, alloc, h, groups)?;
    push_groups(&mut new, alloc, back)?;
    Ok(new)
}

/// The group of a buffer at the place of this number, from 1. Nothing changes where there is no
/// such place.
fn move_group_at(
    alloc: Global,
    h: u64,
    number: u32,
    groups: &Items<Group>,
) -> Result<Items<Group>, NoMemory>
    ensures { IfOk result (λ new. new ≡ move_group_at h number groups.now) }
{
    let others = others(alloc, h, groups.as_slice())?;
    let place = number as usize;
    if place == 0 || place - 1 > others.as_slice().len() {
        return groups.copy(alloc);
    }
    let (front, back) = others.as_slice().split_at(place - 1);
    own_between(alloc, h, front, groups.as_slice(), back)
}

/// The title that is told, and the full name with it.
fn put_title(new: &mut MirrorBuffer, alloc: Global, told: &MirrorBuffer) -> Result<(), NoMemory>
    ensures { OnOk result (new.new ≡ with_told event.TitleChanged told.now new.old) }
{
    new.full_name = told.full_name.copy(alloc)?;
    new.title = told.title.copy(alloc)?;
    Ok(())
}

/// The variables that are told, and the full name with them.
fn put_vars(new: &mut MirrorBuffer, alloc: Global, told: &MirrorBuffer) -> Result<(), NoMemory>
    ensures { OnOk result (new.new ≡ with_told event.VarChanged told.now new.old) }
{
    new.full_name = told.full_name.copy(alloc)?;
    new.vars = told.vars.copy(alloc)?;
    Ok(())
}

/// The names that are told, and the variables with them.
fn put_names(new: &mut MirrorBuffer, alloc: Global, told: &MirrorBuffer) -> Result<(), NoMemory>
    ensures { OnOk result (new.new ≡ with_told event.Renamed told.now new.old) }
{
    put_vars(new, alloc, told)?;
    new.short_name = told.short_name.copy(alloc)?;
    Ok(())
}

/// The values that the event of this kind tells of a buffer.
fn put_told(
    new: &mut MirrorBuffer,
    alloc: Global,
    kind: EventKind,
    told: &MirrorBuffer,
) -> Result<(), NoMemory>
    ensures { OnOk result (new.new ≡ with_told kind told.now new.old) }
{
    match kind {
        EventKind::Hidden => {
            new.hidden = true;
            Ok(())
        }
        EventKind::Unhidden => {
            new.hidden = false;
            Ok(())
        }
        EventKind::Renamed => put_names(new, alloc, told),
        EventKind::TitleChanged => put_title(new, alloc, told),
        EventKind::VarAdded | EventKind::VarChanged | EventKind::VarRemoved => {
            put_vars(new, alloc, told)
        }
        _ => Ok(()),
    }
}

/// A buffer with the values that the event of this kind tells of it.
fn with_told(
    alloc: Global,
    kind: EventKind,
    told: &MirrorBuffer,
    buffer: &MirrorBuffer,
) -> Result<MirrorBuffer, NoMemory>
    ensures { IfOk result (λ b. b ≡ with_told kind told.now buffer.now) }
{
    let mut new = buffer.copy(alloc)?;
    put_told(&mut new, alloc, kind, told)?;
    Ok(new)
}

/// A buffer with what is told of it, and another one shared.
fn told_or_shared(
    alloc: Global,
    kind: EventKind,
    told: &MirrorBuffer,
    buffer: &SharedBuffer,
) -> Result<SharedBuffer, NoMemory>
    ensures { IfOk result (λ b. b ≡ told_or_same kind told.now buffer.now) }
{
    if key_of(buffer) == told.handle.0 {
        SharedBuffer::new(alloc, with_told(alloc, kind, told, buffer.get())?)
    } else {
        buffer.share()
    }
}

fn told_group(
    alloc: Global,
    kind: EventKind,
    told: &MirrorBuffer,
    group: &[SharedBuffer],
) -> Result<Group, NoMemory>
    ensures { IfOk result (λ new. new ≡ told_group kind told.now group.now) }
{
    let mut new = Items::new(alloc);
    for buffer in group {
        new.push(told_or_shared(alloc, kind, told, buffer)?)?;
    }
    Ok(new)
}

fn told_update(
    alloc: Global,
    kind: EventKind,
    told: &MirrorBuffer,
    groups: &[Group],
) -> Result<Items<Group>, NoMemory>
    ensures { IfOk result (λ new. new ≡ told_update kind told.now groups.now) }
{
    let mut new = Items::new(alloc);
    for group in groups {
        new.push(told_group(alloc, kind, told, group.as_slice())?)?;
    }
    Ok(new)
}

/// The groups after an event of a buffer that is held.
#[tactic(auto, unfolding(crate::specs::Grouped::with_edit))]
fn edit_group(
    alloc: Global,
    kind: EventKind,
    told: &ToldBuffer,
    groups: &Items<Group>,
) -> Result<Items<Group>, NoMemory>
    ensures { IfOk result (λ new. new ≡ with_edit kind told.now groups.now) }
{
    let h = told.buffer.handle.0;
    match kind {
        EventKind::Closing => take_out(alloc, h, groups.as_slice()),
        EventKind::Moved => move_group_at(alloc, h, told.number, groups),
        EventKind::Merged => merge_groups_at(alloc, h, told.prev, groups),
        EventKind::Unmerged => unmerge(alloc, h, groups.as_slice()),
        _ => told_update(alloc, kind, &told.buffer, groups.as_slice()),
    }
}

/// A buffer in a group of its own after the others.
fn push_alone(
    groups: &mut Items<Group>,
    alloc: Global,
    buffer: MirrorBuffer,
) -> Result<(), NoMemory>
    ensures { OnOk result (groups.new ≡ groups.old ++ (buffer ∷ []) ∷ []) }
{
    let buffer = SharedBuffer::new(alloc, buffer)?;
    let mut group = Items::new(alloc);
    group.push(buffer)?;
    groups.push(group)
}

/// A buffer in a group of its own after the others. Nothing changes where it is there.
fn open_buffer_in(
    alloc: Global,
    buffer: MirrorBuffer,
    groups: &Items<Group>,
) -> Result<Items<Group>, NoMemory>
    ensures { IfOk result (λ new. new ≡ open_buffer_in buffer groups.now) }
{
    if has(buffer.handle.0, groups.as_slice()) {
        return groups.copy(alloc);
    }
    let mut new = groups.copy(alloc)?;
    push_alone(&mut new, alloc, buffer)?;
    Ok(new)
}

/// The groups after an event. An opening of a buffer that is held changes nothing, and neither does
/// another event of one that is not.
pub(crate) fn with_event(
    alloc: Global,
    kind: EventKind,
    told: ToldBuffer,
    groups: &Items<Group>,
) -> Result<Items<Group>, NoMemory>
    ensures { IfOk result (λ new. new ≡ with_event kind told groups.now) }
{
    if matches!(kind, EventKind::Opened) {
        return open_buffer_in(alloc, told.buffer, groups);
    }
    if has(told.buffer.handle.0, groups.as_slice()) {
        edit_group(alloc, kind, &told, groups)
    } else {
        groups.copy(alloc)
    }
}
