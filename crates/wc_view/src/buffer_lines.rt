//! The lines of each buffer.

ghost use Rattle.std.specs.Prelude.{◌≡◌, ℕ, ◌<◌, ◌++◌, ◌∷◌, [], length, None, IfOk, IfSome};
ghost use Rattle.std.specs.Prelude.{IfNone, OnOk, OnErr, drop};
ghost use Rattle.std.specs.FinMap.{find};
ghost use Rattle.std.specs.Ordering.{nat_cmp};
ghost use Rattle.wc_lines.specs.Ring.{last_of};
ghost use Rattle.wc_view.specs.Entries.{part_at, IsEntry};
ghost use Rattle.wc_view.specs.LinesLeft.{mirror_lines_left};
ghost use Rattle.wc_view.specs.Parts.{lines_at, with_row, part_of, without, flagged_line};
ghost use Rattle.wc_view.specs.Parts.{with_line_flag, with_flag, with_flags, kept_lines, with_trim};

use crate::flags::LineFlag;
use crate::mirror_line::{MirrorLineIter, PackedMirrorLine};
use crate::rows::LineRow;
use crate::trims::LineTrim;
use std::alloc::Global;
use std::collections::VecDeque;
use std::marker::Model;
use wc_text::NoMemory;

/// A buffer's handle and its lines, from the oldest.
#[derive(Drop)]
pub(crate) struct BufferLines {
    buffer: u64,
    lines: VecDeque<PackedMirrorLine>,
}

impl Model for BufferLines {
    ghost use Rattle.std.specs.Prelude.{List, ℕ};
    ghost use Rattle.wc_view.specs.declared.mirror_buffer.MirrorLine.{MirrorLine};

    ghost Value = { ℕ × List MirrorLine };

    ghost view = { λ b. (b.buffer, b.lines.items) };
}

impl BufferLines {
    fn new(alloc: Global, buffer: u64) -> BufferLines
        ensures { result ≡ (buffer, []) }
    {
        BufferLines {
            buffer,
            lines: VecDeque::new(alloc),
        }
    }

    fn buffer(&self) -> u64
        ensures { result ≡ self.now.0 }
    {
        self.buffer
    }

    fn lines(&self) -> MirrorLineIter<'_>
        ensures { mirror_lines_left result ≡ self.now.1 }
    {
        MirrorLineIter::new(&self.lines)
    }

    /// Puts a line after the others, of which the oldest go above the limit, where there is one.
    /// Where memory is refused, all stay.
    fn push(&mut self, line: PackedMirrorLine, limit: Option<usize>) -> Result<(), NoMemory>
        ensures ok { OnOk result
            (self.new ≡ (self.old.0, kept_lines limit (self.old.1 ++ line ∷ []))) }
        ensures err { OnErr result (self.new ≡ self.old) }
    {
        match self.lines.push_back(line) {
            Ok(()) => {
                keep_up_to(&mut self.lines, limit);
                Ok(())
            }
            Err(_) => Err(NoMemory),
        }
    }

    /// So many of the oldest lines go, and all where there are fewer.
    #[tactic(auto, using(crate::proofs::EntryLemmas::last_rest))]
    fn drop_first(&mut self, count: u32)
        ensures { self.new ≡ (self.old.0, drop count self.old.1) }
    {
        let rest = self.lines.len().saturating_sub(count as usize);
        keep_last(&mut self.lines, rest);
    }

    /// Sets the flag in the lines of its content.
    fn set_flag(&mut self, flag: LineFlag)
        ensures { self.new ≡ (self.old.0, with_line_flag flag self.old.1) }
    {
        flag_lines(self.lines.make_contiguous(), flag);
    }
}

/// Sets the flag in a line, where it has the content of the flag.
fn flag_line(line: &mut PackedMirrorLine, flag: LineFlag)
    ensures { line.new ≡ flagged_line flag line.old }
{
    if line.content().0 == flag.content {
        line.set_displayed(flag.displayed);
    }
}

/// Sets the flag in the lines of its content.
fn flag_lines(lines: &mut [PackedMirrorLine], flag: LineFlag)
    ensures { lines.new ≡ with_line_flag flag lines.old }
{
    for line in lines.iter_mut() {
        flag_line(line, flag);
    }
}

#[tactic(auto, using(crate::proofs::EntryLemmas::keep_last_facts))]
fn keep_last(lines: &mut VecDeque<PackedMirrorLine>, limit: usize)
    ensures { lines.new.items ≡ last_of limit lines.old.items }
{
    while lines.len() > limit {
        let _ = lines.pop_front();
    }
}

/// The oldest lines go above the limit, where there is one.
fn keep_up_to(lines: &mut VecDeque<PackedMirrorLine>, limit: Option<usize>)
    ensures { lines.new.items ≡ kept_lines limit lines.old.items }
{
    if let Some(limit) = limit {
        keep_last(lines, limit);
    }
}

#[tactic(auto, using(crate::proofs::EntryLemmas::find_more))]
fn place_of(entries: &[BufferLines], buffer: u64) -> Option<usize>
    ensures some { IfSome result (λ i. (i < length entries.now) × IsEntry buffer i entries.now) }
    ensures none { IfNone result (find nat_cmp buffer entries.now ≡ None) }
{
    for i in 0..entries.len() {
        if entries[i].buffer() == buffer {
            return Some(i);
        }
    }
    None
}

/// The lines of a buffer, none where it is not there.
#[tactic(auto, using(crate::proofs::EntryLemmas::lines_of_facts))]
pub(crate) fn lines_of(entries: &[BufferLines], buffer: u64) -> MirrorLineIter<'_>
    ensures { mirror_lines_left result ≡ lines_at (part_at entries.now) buffer }
{
    match place_of(entries, buffer) {
        Some(place) => entries[place].lines(),
        None => MirrorLineIter::none(),
    }
}

/// Puts a line after the others of its buffer, of which the oldest go above the limit, where there
/// is one. Where memory is refused, all stay.
#[tactic(auto, using(crate::proofs::EntryLemmas::row_at, crate::proofs::EntryLemmas::row_new))]
pub(crate) fn add_row(
    entries: &mut Vec<BufferLines>,
    alloc: Global,
    row: LineRow,
    limit: Option<usize>,
) -> Result<(), NoMemory>
    ensures ok { OnOk result (part_at entries.new.items ≡ with_row limit row
        (part_at entries.old.items)) }
    ensures err { OnErr result (entries.new.items ≡ entries.old.items) }
{
    match place_of(entries.as_slice(), row.buffer) {
        Some(place) => {
            let entry = &mut entries[place];
            entry.push(row.line, limit)?;
            Ok(())
        }
        None => {
            let mut entry = BufferLines::new(alloc, row.buffer);
            entry.push(row.line, limit)?;
            match entries.push(entry) {
                Ok(()) => Ok(()),
                Err(_) => Err(NoMemory),
            }
        }
    }
}

/// The last lines of each buffer, up to the limit, or all where there is none.
#[tactic(auto, using(crate::proofs::PartLemmas::rows_more))]
pub(crate) fn of_rows(
    alloc: Global,
    rows: Vec<LineRow>,
    limit: Option<usize>,
) -> Result<Vec<BufferLines>, NoMemory>
    ensures { IfOk result (λ entries. part_at entries.items ≡ part_of limit rows.items) }
{
    let mut entries = Vec::new(alloc);
    for row in rows {
        add_row(&mut entries, alloc, row, limit)?;
    }
    Ok(entries)
}

/// Takes the lines of a buffer out.
#[tactic(auto, using(crate::proofs::EditLemmas::gone))]
pub(crate) fn remove_buffer(entries: &mut Vec<BufferLines>, buffer: u64)
    ensures { part_at entries.new.items ≡ without buffer (part_at entries.old.items) }
{
    entries.retain(|entry| entry.buffer() != buffer);
}

/// Sets the flag of a line, where the line is there.
#[tactic(auto, using(crate::proofs::EditLemmas::flag_at, crate::proofs::EditLemmas::flag_nowhere))]
fn set_flag(entries: &mut [BufferLines], flag: LineFlag)
    ensures { part_at entries.new ≡ with_flag (part_at entries.old) flag }
{
    if let Some(place) = place_of(entries, flag.buffer) {
        entries[place].set_flag(flag);
    }
}

/// Sets the flags of lines, of those that are there.
pub(crate) fn set_flags(entries: &mut [BufferLines], flags: &[LineFlag])
    ensures { part_at entries.new ≡ with_flags (part_at entries.old) flags.now }
{
    for flag in flags {
        set_flag(entries, *flag);
    }
}

/// Takes so many of the oldest lines of a buffer out, where it is there.
#[tactic(auto, using(crate::proofs::EditLemmas::trim_at, crate::proofs::EditLemmas::trim_nowhere))]
pub(crate) fn trim_buffer(entries: &mut [BufferLines], trim: LineTrim)
    ensures { part_at entries.new ≡ with_trim trim (part_at entries.old) }
{
    if let Some(place) = place_of(entries, trim.buffer) {
        entries[place].drop_first(trim.count);
    }
}
