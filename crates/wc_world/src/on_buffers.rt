ghost use Rattle.std.specs.HashMap.{spare};
ghost use Rattle.std.specs.Prelude.{◌≡◌, ◌≢◌, ◌<◌, ◌≤◌, ◌^◌, ℕ, IfOk, IfErr, OnOk, OnErr};
ghost use Rattle.std.specs.Prelude.{[], None};
ghost use Rattle.std.specs.Prelude.{◌+◌, Some, false, nat_eq, nat_lt, if◌then◌else◌};
ghost use Rattle.std.specs.Str.{IsUtf8};
ghost use Rattle.wc_buffers.specs.Calls.{add_refusal, close_refusal, handle_of, with_buffer};
ghost use Rattle.wc_buffers.specs.Calls.{without_buffer};
ghost use Rattle.wc_buffers.specs.Entries.{IsText};
ghost use Rattle.wc_buffers.specs.Groups.{has};
ghost use Rattle.wc_buffers.specs.Kept.{AreBuffers};
ghost use Rattle.wc_lines.specs.Held.{no_lines};
ghost use Rattle.wc_model.specs.Apply.{of_buffers, or_else, row_of};
ghost use Rattle.wc_model.specs.Notices.{Outcome, var_kind};
ghost use Rattle.wc_model.specs.World.{last_handle};
ghost use Rattle.wc_model.specs.declared.change.What.{What as WhatValue};
ghost use Rattle.wc_model.specs.declared.refused.ChangeRefused.{ChangeRefused as ChangeRefusedValue};
ghost use Rattle.wc_world.specs.Kept.{held_at};
ghost use Rattle.wc_world.specs.Nicks.{list_at};
ghost use Rattle.wc_world.specs.Texts.{IsBufferText};

use crate::held::{self, Held};
use crate::nicks::{self, Lists};
use crate::noticed::{are_buffers, name_of, told};
use crate::world::{LAST_HANDLE, World};
use std::alloc::Global;
use wc_buffers::{BufferRow, BufferSpec, Buffers};
use wc_lines::Lines;
use wc_model::{ChangeRefused, EventKind, Notice};
use wc_nicklist::Nicklist;
use wc_text::{Handle, NoMemory, Pair, Text};

/// A variable that is new was added, and else changed.
fn var_kind(new: bool) -> EventKind
    ensures { result ≡ var_kind new }
{
    if new {
        EventKind::VarAdded
    } else {
        EventKind::VarChanged
    }
}

/// What is stored of a new buffer beside its row, and its name for those who are told.
#[derive(Drop)]
struct NewBuffer {
    full_name: Text,
    lines: Lines,
    list: Nicklist,
}

/// A buffer of this name with the next handle, without lines and without nicks, and room to store
/// it.
fn new_buffer(
    held: &mut Held,
    lists: &mut Lists,
    alloc: Global,
    next: u64,
    limit: u32,
    full_name: &Text,
) -> Result<NewBuffer, NoMemory>
    requires some { 1 ≤ limit }
    requires most { limit ≤ 4096 }
    requires left { next ≤ 2 ^ 62 + 1 }
    ensures name { IfOk result (λ buffer. buffer.full_name ≡ full_name.now) }
    ensures lines { IfOk result (λ buffer. buffer.lines ≡ no_lines limit) }
    ensures list { IfOk result (λ buffer. buffer.list
        ≡ record { root = record { 0 = next + 3 }; rows = []; room = None }) }
    ensures line_room { OnOk result (0 < spare held.new) }
    ensures list_room { OnOk result (0 < spare lists.new) }
    ensures same_lines { (q : ℕ) → held_at held.new q ≡ held_at held.old q }
    ensures same_lists { (q : ℕ) → list_at lists.new q ≡ list_at lists.old q }
{
    held::reserve(held)?;
    nicks::reserve(lists)?;
    let full_name = full_name.copy(alloc)?;
    let lines = Lines::new(alloc, limit)?;
    let list = Nicklist::new(alloc, Handle(next + 3))?;
    Ok(NewBuffer {
        full_name,
        lines,
        list,
    })
}

/// Stores a new buffer beside its row, and answers its name. It takes no memory.
fn store(held: &mut Held, lists: &mut Lists, h: Handle, buffer: NewBuffer) -> Text
    requires lines { 0 < spare held.old }
    requires lists { 0 < spare lists.old }
    ensures lines { (q : ℕ) → held_at held.new q ≡ (if nat_eq h.0 q then Some buffer.lines
        else held_at held.old q) }
    ensures lists { (q : ℕ) → list_at lists.new q ≡ (if nat_eq h.0 q then Some buffer.list
        else list_at lists.old q) }
    ensures name { result ≡ buffer.full_name }
{
    held::insert(held, h, buffer.lines);
    nicks::insert(lists, h, buffer.list);
    buffer.full_name
}

/// Takes a buffer out that may be closed.
fn take_back(buffers: &mut Buffers, h: Handle)
    requires { close_refusal h buffers.old ≡ None }
    ensures held { AreBuffers buffers.old }
    ensures after { buffers.new ≡ without_buffer h buffers.old }
{
    are_buffers(buffers);
    let Ok(_) = buffers.close(h) else {
        unreachable!()
    };
}

/// Adds the row of a buffer that draws four handles from the next one on.
fn put_row(
    buffers: &mut Buffers,
    alloc: Global,
    next: u64,
    spec: BufferSpec,
) -> Result<(), ChangeRefused>
    requires started { 1 < next }
    requires ended { next ≤ 2 ^ 62 + 1 }
    requires absent { has handle_of next buffers.old ≡ false }
    requires text { IsBufferText spec }
    ensures accepted { OnOk result (add_refusal (row_of next spec) spec.vars buffers.old ≡ None) }
    ensures after { OnOk result
        (buffers.new ≡ with_buffer (row_of next spec) spec.vars buffers.old) }
    ensures left { OnOk result (next + 4 ≤ 2 ^ 62 + 1) }
    ensures refused { IfErr result (λ e. e ≢ ChangeRefusedValue.NoMemory →
        or_else (of_buffers (add_refusal (row_of next spec) spec.vars buffers.old))
        (if nat_lt (last_handle + 1) (next + 4) then Some ChangeRefusedValue.Spent else None)
        ≡ Some e) }
    ensures err { OnErr result (buffers.new ≡ buffers.old) }
{
    let row = BufferRow {
        handle: Handle(next),
        own_lines: Handle(next + 1),
        mixed_lines: Handle(next + 2),
        full_name: spec.full_name,
        short_name: spec.short_name,
        title: spec.title,
        hidden: false,
    };
    buffers.add(alloc, row, &spec.vars)?;
    if next > LAST_HANDLE - 3 {
        take_back(buffers, Handle(next));
        return Err(ChangeRefused::Spent);
    }
    Ok(())
}

impl World {
    /// A buffer in a group of its own, at the end.
    pub(crate) fn add(
        &mut self,
        alloc: Global,
        h: Handle,
        spec: BufferSpec,
    ) -> Result<Notice, ChangeRefused>
        requires { IsBufferText spec }
        ensures { Outcome self.old (record { buffer = h; what = WhatValue.Add spec })
            self.new result }
    {
        let handle = Handle(self.next);
        let (held, lists) = (&mut self.held, &mut self.nicks);
        let name = &spec.full_name;
        let Ok(buffer) = new_buffer(held, lists, alloc, self.next, self.limit.most, name) else {
            drop(spec);
            return Err(ChangeRefused::NoMemory);
        };
        match put_row(&mut self.buffers, alloc, self.next, spec) {
            Ok(()) => {
                let full_name = store(&mut self.held, &mut self.nicks, handle, buffer);
                self.next += 4;
                Ok(told(&self.buffers, alloc, EventKind::Opened, handle, full_name))
            }
            Err(refused) => {
                drop(buffer);
                Err(refused)
            }
        }
    }

    /// The buffer goes, and its lines and its nicklist with it.
    pub(crate) fn close(&mut self, alloc: Global, h: Handle) -> Result<Notice, ChangeRefused>
        ensures { Outcome self.old (record { buffer = h; what = WhatValue.Close }) self.new result }
    {
        let full_name = name_of(&self.buffers, alloc, h)?;
        let notice = told(&self.buffers, alloc, EventKind::Closing, h, full_name);
        self.buffers.close(h)?;
        held::remove(&mut self.held, h);
        self.row_count -= nicks::remove(&mut self.nicks, h);
        Ok(notice)
    }

    /// The buffer's group gets this number.
    pub(crate) fn move_to(
        &mut self,
        alloc: Global,
        h: Handle,
        number: u32,
    ) -> Result<Notice, ChangeRefused>
        ensures { Outcome self.old (record { buffer = h; what = WhatValue.MoveTo number })
            self.new result }
    {
        let full_name = name_of(&self.buffers, alloc, h)?;
        self.buffers.move_to(h, number)?;
        Ok(told(&self.buffers, alloc, EventKind::Moved, h, full_name))
    }

    /// The buffer goes after those of another one's group.
    pub(crate) fn merge(
        &mut self,
        alloc: Global,
        h: Handle,
        into: Handle,
    ) -> Result<Notice, ChangeRefused>
        ensures { Outcome self.old (record { buffer = h; what = WhatValue.MergeInto into })
            self.new result }
    {
        let full_name = name_of(&self.buffers, alloc, h)?;
        self.buffers.merge(h, into)?;
        Ok(told(&self.buffers, alloc, EventKind::Merged, h, full_name))
    }

    /// The buffer gets a group of its own, after its old one.
    pub(crate) fn unmerge(&mut self, alloc: Global, h: Handle) -> Result<Notice, ChangeRefused>
        ensures { Outcome self.old (record { buffer = h; what = WhatValue.Unmerge })
            self.new result }
    {
        let full_name = name_of(&self.buffers, alloc, h)?;
        self.buffers.unmerge(h)?;
        Ok(told(&self.buffers, alloc, EventKind::Unmerged, h, full_name))
    }

    /// The buffer is hidden.
    pub(crate) fn hide(&mut self, alloc: Global, h: Handle) -> Result<Notice, ChangeRefused>
        ensures { Outcome self.old (record { buffer = h; what = WhatValue.Hide }) self.new result }
    {
        let full_name = name_of(&self.buffers, alloc, h)?;
        self.buffers.hide(h)?;
        Ok(told(&self.buffers, alloc, EventKind::Hidden, h, full_name))
    }

    /// The buffer is shown again.
    pub(crate) fn unhide(&mut self, alloc: Global, h: Handle) -> Result<Notice, ChangeRefused>
        ensures { Outcome self.old (record { buffer = h; what = WhatValue.Unhide })
            self.new result }
    {
        let full_name = name_of(&self.buffers, alloc, h)?;
        self.buffers.unhide(h)?;
        Ok(told(&self.buffers, alloc, EventKind::Unhidden, h, full_name))
    }

    /// The buffer gets another short name.
    pub(crate) fn set_short_name(
        &mut self,
        alloc: Global,
        h: Handle,
        short_name: Text,
    ) -> Result<Notice, ChangeRefused>
        requires { IsUtf8 short_name }
        ensures { Outcome self.old (record { buffer = h; what = WhatValue.ShortName short_name })
            self.new result }
    {
        let full_name = name_of(&self.buffers, alloc, h)?;
        self.buffers.set_short_name(alloc, h, &short_name)?;
        Ok(told(&self.buffers, alloc, EventKind::Renamed, h, full_name))
    }

    /// The buffer gets another title, which is cut.
    pub(crate) fn set_title(
        &mut self,
        alloc: Global,
        h: Handle,
        title: Text,
    ) -> Result<Notice, ChangeRefused>
        requires { IsUtf8 title }
        ensures { Outcome self.old (record { buffer = h; what = WhatValue.Title title })
            self.new result }
    {
        let full_name = name_of(&self.buffers, alloc, h)?;
        self.buffers.set_title(alloc, h, &title)?;
        Ok(told(&self.buffers, alloc, EventKind::TitleChanged, h, full_name))
    }

    /// A variable of the buffer is set.
    pub(crate) fn set_var(
        &mut self,
        alloc: Global,
        h: Handle,
        var: Pair,
    ) -> Result<Notice, ChangeRefused>
        requires { IsText var }
        ensures { Outcome self.old (record { buffer = h; what = WhatValue.SetVar var })
            self.new result }
    {
        let full_name = name_of(&self.buffers, alloc, h)?;
        let new = self.buffers.set_var(alloc, h, &var.name, &var.value)?;
        Ok(told(&self.buffers, alloc, var_kind(new), h, full_name))
    }

    /// A variable of the buffer is taken out.
    pub(crate) fn remove_var(
        &mut self,
        alloc: Global,
        h: Handle,
        name: Text,
    ) -> Result<Notice, ChangeRefused>
        ensures { Outcome self.old (record { buffer = h; what = WhatValue.RemoveVar name })
            self.new result }
    {
        let full_name = name_of(&self.buffers, alloc, h)?;
        self.buffers.remove_var(alloc, h, &name)?;
        Ok(told(&self.buffers, alloc, EventKind::VarRemoved, h, full_name))
    }
}
