ghost use Rattle.std.specs.Prelude.{◌≡◌, ◌≤◌, ℕ, IfOk, IfSome, option_copied, option_map, is_some};
ghost use Rattle.std.specs.Prelude.{Some, None, [], nat_eq, if◌then◌else◌};
ghost use Rattle.std.specs.FinMap.{empty, get, insert};
ghost use Rattle.wc_buffers.specs.Calls.{is_there, with_buffer};
ghost use Rattle.wc_lines.specs.Held.{no_lines};
ghost use Rattle.wc_nicklist.specs.Rows.{IsRows, Nicks as NicksValue};
ghost use Rattle.wc_world.specs.Handles.{next_from, skip_world};
ghost use Rattle.wc_world.specs.Kept.{held_at, held_in, lines_map, lines_view, printed_map};
ghost use Rattle.wc_world.specs.Nicks.{rows_map, AreCut, AreNicks};
ghost use Rattle.wc_model.specs.World.{core_row, first_world, rows_at, root_at};

use crate::held::{self, Held as HeldLines};
use crate::line_limit::LineLimit;
use crate::nicks::{self, Lists};
use std::alloc::Global;
use std::collections::HashMap;
use std::marker::Model;
use wc_buffers::{BufferRow, Buffers};
use wc_lines::Lines;
use wc_nicklist::Nicklist;
use wc_text::{Handle, Items, NoMemory, Text};

/// Handles are numbers up to this one.
pub(crate) const LAST_HANDLE: u64 = 1 << 62;

/// All nicklists together have so many rows at most.
pub(crate) const ROW_LIMIT: u64 = 1 << 20;

/// The buffers in groups, and the lines and the nicklist of each. It changes as a whole: a refused
/// change leaves it as it was.
#[derive(Drop)]
pub struct World {
    pub(crate) buffers: Buffers,
    pub(crate) held: HeldLines,
    pub(crate) nicks: Lists,
    /// The rows of all nicklists.
    pub(crate) row_count: u64,
    pub(crate) limit: LineLimit,
    pub(crate) next: u64,
}

impl Model for World {
    ghost use Rattle.std.specs.Coded.{codes};
    ghost use Rattle.std.specs.FinMap as map;
    ghost use Rattle.wc_model.specs.World as model;
    ghost use Rattle.wc_world.specs.Kept.{world_of, IsWorld};
    ghost use Rattle.wc_world.specs.Nicks.{rows_map, AreNicks};

    ghost Value = { model.World };

    ghost coded = { Prim.hlevel (codes, map.code) };

    ghost view = { λ a. world_of a.buffers a.held (rows_map a.nicks) a.limit a.next };

    ghost invariant = { λ a. IsWorld a.buffers a.held a.limit a.next
        × AreNicks a.buffers a.nicks a.row_count };
}

/// The next handle after those below this one are passed over.
#[tactic(auto, unfolding(crate::specs::Handles::next_from))]
fn next_from(handle: u64, next: u64) -> u64
    ensures { result ≡ next_from handle next }
{
    if handle > LAST_HANDLE {
        return next;
    }
    next.max(handle)
}

/// What is kept of the core buffer.
fn core_row(alloc: Global) -> Result<BufferRow, NoMemory>
    ensures { IfOk result (λ row. row ≡ core_row) }
{
    let full_name = Text::from_slice(alloc, b"core.weechat")?;
    let short_name = Text::from_slice(alloc, b"weechat")?;
    let title = Text::from_slice(alloc, b"WeeChat headless")?;
    Ok(BufferRow {
        handle: Handle(1),
        own_lines: Handle(2),
        mixed_lines: Handle(3),
        full_name,
        short_name,
        title,
        hidden: false,
    })
}

/// The core buffer alone.
fn core_buffers(alloc: Global) -> Result<Buffers, NoMemory>
    ensures { IfOk result (λ buffers. buffers ≡ with_buffer core_row [] []) }
{
    let mut buffers = Buffers::new(alloc)?;
    let Ok(row) = core_row(alloc) else {
        drop(buffers);
        return Err(NoMemory);
    };
    match buffers.add(alloc, row, &Items::new(alloc)) {
        Ok(()) => Ok(buffers),
        Err(_) => {
            drop(buffers);
            Err(NoMemory)
        }
    }
}

/// No lines for the core buffer.
fn core_lines(alloc: Global, limit: u32) -> Result<HeldLines, NoMemory>
    requires some { 1 ≤ limit }
    requires most { limit ≤ 4096 }
    ensures each { IfOk result (λ held. (q : ℕ) → held_at held q
        ≡ (if nat_eq 1 q then Some (no_lines limit) else None)) }
    ensures all { IfOk result (λ held. lines_map held ≡ insert empty 1 []) }
    ensures printed { IfOk result (λ held. printed_map held ≡ insert empty 1 0) }
{
    let lines = Lines::new(alloc, limit)?;
    let mut held = HashMap::new(alloc);
    held::reserve(&mut held)?;
    held::insert(&mut held, Handle(1), lines);
    Ok(held)
}

/// No nicks for the core buffer.
fn core_nicks(alloc: Global) -> Result<Lists, NoMemory>
    ensures held { IfOk result (λ lists. AreNicks (with_buffer core_row [] []) lists 0) }
    ensures rows { IfOk result (λ lists. rows_map lists ≡ insert empty 1 []) }
{
    let mut lists = HashMap::new(alloc);
    nicks::reserve(&mut lists)?;
    let Ok(list) = Nicklist::new(alloc, Handle(4)) else {
        drop(lists);
        return Err(NoMemory);
    };
    nicks::insert(&mut lists, Handle(1), list);
    Ok(lists)
}

impl World {
    /// The core buffer alone, whose handles are 1 to 4, with no rows in its nicklist. A buffer
    /// holds as many lines as the limit.
    pub fn new(alloc: Global, limit: u32) -> Result<World, NoMemory>
        requires some { 1 ≤ limit }
        requires most { limit ≤ 4096 }
        ensures { IfOk result (λ world. world ≡ first_world limit) }
    {
        let buffers = core_buffers(alloc)?;
        let held = core_lines(alloc, limit)?;
        let nicks = core_nicks(alloc)?;
        Ok(World {
            buffers,
            held,
            nicks,
            row_count: 0,
            limit: LineLimit {
                most: limit,
                changes: 0,
            },
            next: 5,
        })
    }

    /// Passes over the handles below this one: no change draws them. Where one of them was drawn, or
    /// the handle is above 2^62, nothing more is passed over.
    pub fn skip_to(&mut self, handle: u64)
        ensures { self.new ≡ skip_world handle self.old }
    {
        self.next = next_from(handle, self.next);
    }

    /// The buffers.
    pub fn buffers(&self) -> &Buffers
        ensures { result.now ≡ self.now.groups }
    {
        &self.buffers
    }

    /// The lines of a buffer. None exactly where it is not there.
    pub fn lines(&self, h: Handle) -> Option<&Lines>
        ensures { option_map lines_view (option_copied result) ≡ held_in self.now h.0 }
    {
        self.held.get(&h.0)
    }

    /// The nicklist of a buffer. None exactly where it is not there.
    pub fn nicks(&self, h: Handle) -> Option<&Nicklist>
        ensures there { is_some (option_copied result) ≡ is_there h self.now.groups }
        ensures stored { option_map (λ (x : NicksValue). x.rows) (option_copied result)
            ≡ get self.now.nicks h.0 }
        ensures rows { IfSome result (λ list. list.now.rows ≡ rows_at self.now h.0) }
        ensures root { IfSome result (λ list. list.now.root ≡ root_at h.0) }
        ensures held { (b : ℕ) → IsRows (rows_at self.now b) }
        ensures cut { IfSome result (λ list. AreCut list.now.rows) }
    {
        self.nicks.get(&h.0)
    }

    /// How many lines a buffer holds at most.
    pub fn limit(&self) -> u32
        ensures { result ≡ self.now.limit }
    {
        self.limit.most
    }

    /// How often that was changed. The count stops at the greatest number.
    pub fn limit_changes(&self) -> u64
        ensures { result ≡ self.now.limit_changes }
    {
        self.limit.changes
    }
}
