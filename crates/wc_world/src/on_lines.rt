ghost use Rattle.std.specs.Prelude.{◌≡◌, ◌<◌, ◌+◌, ◌-◌, ◌^◌, [], ◌∷◌, IfOk, length};
ghost use Rattle.wc_buffers.specs.Calls.{buffer_of};
ghost use Rattle.wc_model.specs.LineCuts.{line_of};
ghost use Rattle.wc_model.specs.Notices.{name_in, trim_of, Outcome};
ghost use Rattle.wc_model.specs.declared.change.What.{What as WhatValue};
ghost use Rattle.wc_model.specs.declared.notice.EventKind.TheVariants as kinds;
ghost use Rattle.wc_world.specs.Flips.{stored_lines};
ghost use Rattle.wc_world.specs.Kept.{printed_under};
ghost use Rattle.wc_world.specs.Texts.{IsLineText};
ghost use Rattle.wc_world.specs.Told.{told_with};

use crate::cut::line_of;
use crate::held::{self, Held};
use crate::limits::{count, one_trim};
use crate::noticed::{name_of, no_buffer, told, told_line};
use crate::world::{LAST_HANDLE, World};
use std::alloc::Global;
use wc_buffers::Buffers;
use wc_lines::PackedLine;
use wc_model::{ChangeRefused, EventKind, Few, LineSpec, Notice, Trim};
use wc_text::{Handle, NoMemory, Text};

/// What is told of a line that is printed, beside the buffer: its name, the line, and the oldest line
/// that goes for it.
#[derive(Drop)]
struct LineNews {
    full_name: Text,
    lines: Few<Handle>,
    trims: Few<Trim>,
}

/// What is told of a line with the next handle, where a buffer holds so many lines at most.
fn news_of(
    buffers: &Buffers,
    held: &Held,
    alloc: Global,
    h: Handle,
    next: u64,
    limit: u32,
) -> Result<LineNews, NoMemory>
    ensures name { IfOk result (λ news. news.full_name ≡ name_in (buffer_of h buffers.now)) }
    ensures lines { IfOk result (λ news. news.lines ≡ record { 0 = next } ∷ []) }
    ensures trims { IfOk result (λ news. news.trims
        ≡ trim_of h (length (stored_lines held.now h.0) + 1 - limit)) }
{
    let full_name = name_of(buffers, alloc, h)?;
    let lines = Few::one(Handle(next));
    let trims = one_trim(alloc, h, (count(held, h) + 1).saturating_sub(limit));
    Ok(LineNews {
        full_name,
        lines,
        trims,
    })
}

/// What is noticed of a line that was printed. It takes no memory.
fn told_news(buffers: &Buffers, alloc: Global, h: Handle, news: LineNews) -> Notice
    ensures { result ≡ told_with kinds.LineAdded h buffers.now news.full_name news.lines []
        news.trims }
{
    told_line(buffers, alloc, h, news.full_name, news.lines, news.trims)
}

/// A line as it is put to a buffer, and what is told of it.
#[derive(Drop)]
struct NewLine {
    line: PackedLine,
    news: LineNews,
}

/// The line with the next handle, and what is told of it.
fn new_line(
    buffers: &Buffers,
    held: &Held,
    alloc: Global,
    h: Handle,
    next: u64,
    limit: u32,
    spec: LineSpec,
) -> Result<NewLine, NoMemory>
    requires below { next < 2 ^ 62 }
    requires text { IsLineText spec }
    ensures line { IfOk result (λ new. new.line ≡ line_of (printed_under held.now h.0) next spec) }
    ensures name { IfOk result (λ new. new.news.full_name ≡ name_in (buffer_of h buffers.now)) }
    ensures lines { IfOk result (λ new. new.news.lines ≡ record { 0 = next } ∷ []) }
    ensures trims { IfOk result (λ new. new.news.trims
        ≡ trim_of h (length (stored_lines held.now h.0) + 1 - limit)) }
{
    let Ok(news) = news_of(buffers, held, alloc, h, next, limit) else {
        drop(spec);
        return Err(NoMemory);
    };
    let printed = held::printed(held, h);
    let line = line_of(alloc, printed, next, spec)?;
    Ok(NewLine { line, news })
}

impl World {
    /// Puts a line after those of a buffer, of which the last ones up to the limit stay.
    pub(crate) fn print(
        &mut self,
        alloc: Global,
        h: Handle,
        spec: LineSpec,
    ) -> Result<Notice, ChangeRefused>
        requires { IsLineText spec }
        ensures { Outcome self.old (record { buffer = h; what = WhatValue.Print spec })
            self.new result }
    {
        if let Some(refused) = no_buffer(&self.buffers, h) {
            drop(spec);
            return Err(ChangeRefused::Buffer(refused));
        }
        if self.next >= LAST_HANDLE {
            drop(spec);
            return Err(ChangeRefused::Spent);
        }
        let (buffers, held) = (&self.buffers, &self.held);
        let new = new_line(buffers, held, alloc, h, self.next, self.limit.most, spec)?;
        held::put_line(&mut self.held, h, new.line);
        self.next += 2;
        Ok(told_news(&self.buffers, alloc, h, new.news))
    }

    /// Takes the lines of a buffer.
    pub(crate) fn clear(&mut self, alloc: Global, h: Handle) -> Result<Notice, ChangeRefused>
        ensures { Outcome self.old (record { buffer = h; what = WhatValue.Clear }) self.new result }
    {
        if let Some(refused) = no_buffer(&self.buffers, h) {
            return Err(ChangeRefused::Buffer(refused));
        }
        let full_name = name_of(&self.buffers, alloc, h)?;
        held::clear(&mut self.held, h);
        Ok(told(&self.buffers, alloc, EventKind::Cleared, h, full_name))
    }
}
