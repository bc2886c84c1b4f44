ghost use Rattle.std.specs.Prelude.{◌≡◌, ◌≤◌, ◌-◌, ◌++◌, ◌∷◌, [], length, map, IfOk, IfSome, All};
ghost use Rattle.std.specs.Prelude.{OnOk, OnErr};
ghost use Rattle.std.specs.VecDeque.{deque_capacity};
ghost use Rattle.std.specs.Prelude.{IsTrue, ◌↔◌, option_copied, slice_get};
ghost use Rattle.std.specs.Iterator.{YieldsFirstRef, item_count};
ghost use Rattle.wc_lines.specs.Flags.{flag_at, with_own_flag, with_flags};
ghost use Rattle.wc_lines.specs.Held.{no_lines};
ghost use Rattle.wc_lines.specs.Ring.{with_line, pushed_out, without_lines, with_displayed};
ghost use Rattle.wc_lines.specs.Ring.{has_content, last_of, place_of, newest, with_room, with_limit};
ghost use Rattle.wc_lines.specs.LinesLeft.{lines_left};
ghost use Rattle.wc_lines.specs.LineText.{HasUtf8Texts};

use crate::packed_line::PackedLine;
use std::alloc::Global;
use std::collections::{HashMap, VecDeque, vec_deque};
use std::marker::Model;
use wc_text::{Handle, NoMemory};

/// Whether lines are displayed, by their content handles.
pub type Flags = HashMap<u64, bool>;

/// The newest lines of a buffer, up to a limit. Contracts see the limit, the list, from the oldest,
/// how many lines were ever pushed, and for how many there is room.
///
/// The room for all of them is taken at the making, and for a greater limit before that is set, so
/// that no other call takes memory.
#[derive(Drop)]
pub struct Lines {
    limit: u32,
    /// How many lines were ever pushed. It stops at the greatest number.
    pushed: u64,
    /// For how many lines room was made.
    room: u32,
    queue: VecDeque<PackedLine>,
}

impl Model for Lines {
    ghost use Rattle.wc_lines.specs.Held.{RingView};

    ghost Value = { RingView };

    ghost use Rattle.wc_lines.specs.Inside.{held_of, IsRing};

    ghost view = { held_of };

    ghost invariant = { IsRing };
}

impl Lines {
    /// No lines, and room for as many as the limit.
    pub fn new(alloc: Global, limit: u32) -> Result<Lines, NoMemory>
        requires some { 1 ≤ limit }
        requires most { limit ≤ 4096 }
        ensures { IfOk result (λ lines. lines ≡ no_lines limit) }
    {
        let queue = VecDeque::with_capacity(alloc, limit as usize)?;
        Ok(Lines {
            limit,
            pushed: 0,
            room: limit,
            queue,
        })
    }

    /// Puts a line after the others. Where as many as the limit are held, the oldest is first taken
    /// out and given back.
    pub fn push(&mut self, line: PackedLine) -> Option<PackedLine>
        requires { HasUtf8Texts line }
        ensures held { self.new ≡ with_line self.old line }
        ensures oldest { result ≡ pushed_out self.old }
        ensures text { IfSome result HasUtf8Texts }
    {
        self.pushed = self.pushed.saturating_add(1);
        if self.queue.len() < self.limit as usize {
            self.queue.push_back_reserved(line);
            return None;
        }
        let oldest = self.queue.pop_front();
        self.queue.push_back_reserved(line);
        oldest
    }

    /// Makes room for so many lines, so that they may become the limit. Where memory is refused
    /// nothing changes.
    pub fn make_room(&mut self, limit: u32) -> Result<(), NoMemory>
        ensures ok { OnOk result (self.new ≡ with_room limit self.old) }
        ensures err { OnErr result (self.new ≡ self.old) }
    {
        if limit <= self.room {
            return Ok(());
        }
        reserve(&mut self.queue, limit as usize)?;
        self.room = limit;
        Ok(())
    }

    /// Holds so many lines at most from now on. The oldest above that are taken out, and their
    /// number is answered. It takes no memory, since there is room for them.
    pub fn set_limit(&mut self, limit: u32) -> u32
        requires some { 1 ≤ limit }
        requires most { limit ≤ 4096 }
        requires room { limit ≤ self.old.room }
        ensures held { self.new ≡ with_limit limit self.old }
        ensures dropped { result ≡ length self.old.lines - limit }
    {
        let dropped = self.len().saturating_sub(limit);
        keep_last(&mut self.queue, limit as usize);
        self.limit = limit;
        dropped
    }

    /// Takes all lines out. The count of those that were pushed stays.
    pub fn clear(&mut self)
        ensures { self.new ≡ without_lines self.old }
    {
        self.queue.clear();
    }

    /// How many lines are held.
    pub fn len(&self) -> u32
        ensures lines { result ≡ length self.now.lines }
        ensures within { result ≤ self.now.limit }
        ensures some { 1 ≤ self.now.limit }
        ensures most { self.now.limit ≤ 4096 }
    {
        self.queue.len() as u32
    }

    /// How many lines were ever pushed. The count stops at the greatest number.
    pub fn pushed(&self) -> u64
        ensures { result ≡ self.now.pushed }
    {
        self.pushed
    }

    /// Whether no lines are held.
    pub fn is_empty(&self) -> bool
        ensures { IsTrue result ↔ (self.now.lines ≡ []) }
    {
        self.queue.is_empty()
    }

    /// The lines, from the oldest.
    pub fn iter(&self) -> LineIter<'_>
        ensures lines { lines_left result ≡ self.now.lines }
        ensures text { All HasUtf8Texts self.now.lines }
    {
        LineIter {
            lines: self.queue.iter(),
        }
    }

    /// The newest line. None exactly where no lines are held.
    pub fn newest(&self) -> Option<&PackedLine>
        ensures line { option_copied result ≡ newest self.now.lines }
        ensures text { IfSome (option_copied result) HasUtf8Texts }
    {
        self.queue.back()
    }

    /// The line at this place, counted from the oldest at 0. None exactly where there is none.
    pub fn at(&self, place: u32) -> Option<&PackedLine>
        ensures line { option_copied result ≡ slice_get self.now.lines place }
        ensures text { IfSome (option_copied result) HasUtf8Texts }
    {
        self.queue.get(place as usize)
    }

    /// Sets whether the line with this content handle is displayed, the oldest such line where
    /// there are several. False where there is none; then nothing changes.
    pub fn set_displayed(&mut self, content: Handle, on: bool) -> bool
        ensures lines { self.new ≡ with_displayed content on self.old }
        ensures found { result ≡ has_content content self.old.lines }
    {
        let Some(place) = place_of(&self.queue, content) else {
            return false;
        };
        let line = &mut self.queue[place];
        line.set_displayed(on);
        true
    }

    /// Gives each line the flag that is at its content handle. A line that has none is left as it
    /// is.
    pub fn set_flags(&mut self, flags: &Flags)
        ensures { self.new ≡ with_flags (flag_at flags.now) self.old }
    {
        set_flags(self.queue.make_contiguous(), flags);
    }
}

/// Makes room for so many lines in all. Where memory is refused the lines stay.
fn reserve(lines: &mut VecDeque<PackedLine>, limit: usize) -> Result<(), NoMemory>
    ensures items { lines.new.items ≡ lines.old.items }
    ensures kept { deque_capacity lines.old ≤ deque_capacity lines.new }
    ensures room { OnOk result (limit ≤ deque_capacity lines.new) }
{
    lines.reserve(limit.saturating_sub(lines.len()))?;
    Ok(())
}

/// Takes the oldest lines out until so many are left.
#[tactic(auto, using(crate::proofs::KeepLast::keep_last_facts))]
fn keep_last(lines: &mut VecDeque<PackedLine>, limit: usize)
    ensures items { lines.new.items ≡ last_of limit lines.old.items }
    ensures room { deque_capacity lines.new ≡ deque_capacity lines.old }
{
    while lines.len() > limit {
        drop(lines.pop_front());
    }
}

fn set_flags(lines: &mut [PackedLine], flags: &Flags)
    ensures { lines.new ≡ map (with_own_flag (flag_at flags.now)) lines.old }
{
    for line in lines.iter_mut() {
        set_flag(line, flags);
    }
}

fn set_flag(line: &mut PackedLine, flags: &Flags)
    ensures { line.new ≡ with_own_flag (flag_at flags.now) line.old }
{
    if let Some(on) = flags.get(&line.content().0) {
        line.set_displayed(*on);
    }
}

/// The place of the oldest line with this content handle.
fn place_of(lines: &VecDeque<PackedLine>, content: Handle) -> Option<usize>
    ensures { result ≡ place_of content lines.now.items }
{
    lines.iter().position(|line| line.content() == content)
}

/// The lines that are still to come, from the oldest.
#[derive(Drop)]
pub struct LineIter<'a> {
    lines: vec_deque::Iter<'a, PackedLine>,
}

impl<'a> Iterator for LineIter<'a> {
    type Item = &'a PackedLine;

    ghost next_gives = { YieldsFirstRef lines_left };

    ghost remaining = { item_count lines_left };

    fn next(&mut self) -> Option<&'a PackedLine> {
        self.lines.next()
    }
}
