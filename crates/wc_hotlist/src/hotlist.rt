ghost use Rattle.std.specs.Prelude.{◌≡◌, ◌≤◌, ◌<◌, ◌+◌, ◌⊎◌, ◌≤ℤ◌, pos, List, [], IfOk, true};
ghost use Rattle.std.specs.Prelude.{IsTrue, length, slice_index_or, vec_len, vec_capacity};
ghost use Rattle.std.specs.Iterator.{YieldsFirst, item_count};
ghost use Rattle.wc_hotlist.specs.HotRows.{rows_left};
ghost use Rattle.wc_hotlist.specs.Pairs.{HotPair, pairs_with, pairs_without};
ghost use Rattle.wc_hotlist.specs.Rows.{rows_of, has_row};
ghost use Rattle.wc_hotlist.specs.Means.{Means};
ghost use Rattle.wc_hotlist.specs.Counted.{place_of, lower_place, put_row};
ghost use Rattle.wc_hotlist.specs.Kept.{rows_with, rows_without, rows_counted, rows_raised};
ghost use Rattle.wc_hotlist.specs.declared.row.HotRow.{HotRow as HotRowValue};

use crate::row::HotRow;
use std::alloc::Global;
use std::marker::Model;
use std::slice;
use wc_text::{Handle, NoMemory};

/// As many buffers can be there at once.
const ROOM: usize = 256;

/// Which buffers had lines that were displayed, and how many of each level.
///
/// Contracts see its rows, and say of which printed lines they are: `Means rows pairs` where the
/// pairs are the buffers and levels of these lines. The rows are kept in their order, so that no
/// line has to be kept. Room for 256 buffers is taken at the making; no later call takes memory.
#[derive(Drop)]
pub struct Hotlist {
    rows: Vec<HotRow>,
}

impl Model for Hotlist {
    ghost use Rattle.std.specs.Prelude.{List};
    ghost use Rattle.wc_hotlist.specs.declared.row.HotRow.{HotRow};

    ghost Value = { List HotRow };

    ghost view = { λ a. a.rows.items };

    ghost use Rattle.wc_hotlist.specs.Inside.{HasRoom};

    ghost invariant = { HasRoom };
}

impl Hotlist {
    /// No rows, and room for 256.
    pub fn new(alloc: Global) -> Result<Hotlist, NoMemory>
        ensures rows { IfOk result (λ hotlist. hotlist ≡ []) }
        ensures model { IfOk result (λ hotlist. Means hotlist []) }
    {
        let rows = Vec::with_capacity(alloc, ROOM)?;
        Ok(Hotlist { rows })
    }

    /// A line was printed on a buffer. It counts where it was displayed and its level of
    /// notification is from 0 to 3, unless 256 other buffers have rows.
    #[tactic(auto, unfolding(crate::specs::Kept::rows_with))]
    pub fn line(&mut self, buffer: Handle, notify: i8, displayed: bool)
        ensures rows { self.new ≡ rows_with self.old buffer notify displayed }
        ensures model { IsTrue (has_row buffer self.old) ⊎ (length self.old < 256) →
            notify ≤ℤ pos 3 → (pairs : List HotPair) → Means self.old pairs
            → Means self.new (pairs_with pairs buffer notify displayed) }
    {
        if displayed {
            count_displayed(&mut self.rows, buffer, notify);
        }
    }

    /// Takes all rows out.
    pub fn clear(&mut self)
        ensures rows { self.new ≡ [] }
        ensures model { Means self.new [] }
    {
        self.rows.clear();
    }

    /// Takes the row of a buffer out, where it has one.
    pub fn remove(&mut self, buffer: Handle)
        ensures rows { self.new ≡ rows_without buffer self.old }
        ensures model { (pairs : List HotPair) → Means self.old pairs
            → Means self.new (pairs_without buffer pairs) }
    {
        remove_row(&mut self.rows, buffer);
    }

    /// The rows: the greater priority first, and of one priority that buffer first which reached it
    /// first.
    pub fn rows(&self) -> HotIter<'_>
        ensures rows { rows_left result ≡ self.now }
        ensures model { (pairs : List HotPair) → Means self.now pairs
            → rows_left result ≡ rows_of pairs }
    {
        HotIter {
            rows: self.rows.iter(),
        }
    }

    /// How many rows there are.
    pub fn len(&self) -> usize
        ensures rows { result ≡ length self.now }
        ensures most { result ≤ 256 }
    {
        self.rows.len()
    }
}

/// Counts a line that was displayed, by its level of notification.
#[tactic(auto, unfolding(crate::specs::Kept::rows_with))]
fn count_displayed(rows: &mut Vec<HotRow>, buffer: Handle, notify: i8)
    requires room { 256 ≤ vec_capacity rows.old }
    requires within { vec_len rows.old ≤ 256 }
    ensures rows { rows.new.items ≡ rows_with rows.old.items buffer notify true }
    ensures room { vec_capacity rows.new ≡ vec_capacity rows.old }
    ensures within { vec_len rows.new ≤ 256 }
{
    if let Ok(level) = u8::try_from(notify)
        && level < 4
    {
        count_line(rows, buffer, level);
    }
}

/// Counts a line of this level. A buffer without a row gets one where there is room.
fn count_line(rows: &mut Vec<HotRow>, buffer: Handle, level: u8)
    requires level { level < 4 }
    requires room { 256 ≤ vec_capacity rows.old }
    requires within { vec_len rows.old ≤ 256 }
    ensures rows { rows.new.items
        ≡ rows_counted buffer level rows.old.items (place_of buffer rows.old.items) }
    ensures room { vec_capacity rows.new ≡ vec_capacity rows.old }
    ensures within { vec_len rows.new ≤ 256 }
{
    match place_of(rows, buffer) {
        Some(place) => count_at(rows, place, level),
        None => {
            if rows.len() < ROOM {
                put_row(rows, HotRow::first(buffer, level));
            }
        }
    }
}

/// Counts a line of this level in the row at a place, and moves the row where the level is a new
/// greatest one.
fn count_at(rows: &mut Vec<HotRow>, place: usize, level: u8)
    requires place { place < vec_len rows.old }
    requires level { level < 4 }
    requires room { 256 ≤ vec_capacity rows.old }
    requires within { vec_len rows.old ≤ 256 }
    ensures rows { (row : HotRowValue) → rows.new.items
        ≡ rows_raised level rows.old.items place (slice_index_or rows.old.items place row) }
    ensures room { vec_capacity rows.new ≡ vec_capacity rows.old }
    ensures within { vec_len rows.new ≤ 256 }
{
    let row = rows[place];
    if level <= row.priority {
        rows[place] = row.counted(level);
    } else {
        rows.remove(place);
        put_row(rows, row.raised(level));
    }
}

/// Puts a row before those of a lower priority.
fn put_row(rows: &mut Vec<HotRow>, row: HotRow)
    requires { vec_len rows.old < vec_capacity rows.old }
    ensures rows { rows.new.items ≡ put_row row rows.old.items }
    ensures room { vec_capacity rows.new ≡ vec_capacity rows.old }
    ensures one { vec_len rows.new ≡ vec_len rows.old + 1 }
{
    let place = lower_place(rows, row.priority).unwrap_or(rows.len());
    let Ok(()) = rows.insert(place, row) else {
        unreachable!()
    };
}

/// The place of the first row of a lower priority.
fn lower_place(rows: &[HotRow], priority: u8) -> Option<usize>
    ensures { result ≡ lower_place priority rows.now }
{
    rows.iter().position(|row| row.priority < priority)
}

/// Takes the row of a buffer out, where it has one.
#[tactic(auto, unfolding(crate::specs::Kept::rows_without))]
fn remove_row(rows: &mut Vec<HotRow>, buffer: Handle)
    ensures rows { rows.new.items ≡ rows_without buffer rows.old.items }
    ensures room { vec_capacity rows.new ≡ vec_capacity rows.old }
    ensures fewer { vec_len rows.new ≤ vec_len rows.old }
{
    if let Some(place) = place_of(rows, buffer) {
        rows.remove(place);
    }
}

/// The place of a buffer's row.
fn place_of(rows: &[HotRow], buffer: Handle) -> Option<usize>
    ensures { result ≡ place_of buffer rows.now }
{
    rows.iter().position(|row| row.buffer == buffer)
}

/// The rows that are still to come, in their order.
#[derive(Drop)]
pub struct HotIter<'a> {
    rows: slice::Iter<'a, HotRow>,
}

impl<'a> Iterator for HotIter<'a> {
    type Item = HotRow;

    ghost next_gives = { YieldsFirst rows_left };

    ghost remaining = { item_count rows_left };

    fn next(&mut self) -> Option<HotRow> {
        self.rows.next().copied()
    }
}
