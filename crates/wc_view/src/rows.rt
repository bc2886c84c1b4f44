//! The lines that a message tells.

ghost use Rattle.std.specs.Prelude.{◌≡◌, Option, option_map, List, IfOk};
ghost use Rattle.wc_view.specs.Each.{each, only};
ghost use Rattle.wc_view.specs.Rows.{dates_in, marks_in, line_texts_in, row_with, row_in, rows_on};

use crate::items::{items_on, last_pointer};
use crate::mirror_line::PackedMirrorLine;
use crate::values::{date_in, level_in, number_in, pointer_in, text_in, texts_in, truth_in};
use std::alloc::Global;
use wc_keys::KeyList;
use wc_lines::PackedTexts;
use wc_objects::{HdaItem, Object};
use wc_text::{Items, NoMemory};

/// A line and the handle of its buffer.
#[derive(Drop)]
pub(crate) struct LineRow {
    pub buffer: u64,
    pub line: PackedMirrorLine,
}

/// When a line was dated and printed, in seconds since 1970 and microseconds.
#[derive(Clone, Copy)]
pub(crate) struct LineDates {
    pub date: u64,
    pub usec: u32,
    pub date_printed: u64,
    pub usec_printed: u32,
}

/// What a line's numbers say.
#[derive(Clone, Copy)]
pub(crate) struct LineMarks {
    pub buffer: u64,
    pub id: u32,
    pub dates: LineDates,
    pub displayed: bool,
    pub notify: i8,
    pub highlight: bool,
}

/// What the values say that are dates. None where one can not be that of a line.
#[tactic(auto, unfolding(crate::specs::Rows::dates_in))]
fn dates_in(
    date: &Object,
    usec: &Object,
    printed: &Object,
    usec_printed: &Object,
) -> Option<LineDates>
    ensures { result ≡ dates_in date.now usec.now printed.now usec_printed.now }
{
    let date = date_in(date)?;
    let usec = number_in(usec)?;
    let date_printed = date_in(printed)?;
    let usec_printed = number_in(usec_printed)?;
    Some(LineDates {
        date,
        usec,
        date_printed,
        usec_printed,
    })
}

/// What the values say that are numbers. None where one can not be that of a line.
#[tactic(auto, unfolding(crate::specs::Rows::marks_in))]
fn marks_in(
    buffer: &Object,
    id: &Object,
    dates: LineDates,
    displayed: &Object,
    notify: &Object,
    highlight: &Object,
) -> Option<LineMarks>
    ensures { result ≡ marks_in buffer.now id.now dates displayed.now notify.now highlight.now }
{
    let buffer = pointer_in(buffer)?;
    let id = number_in(id)?;
    let displayed = truth_in(displayed)?;
    let notify = level_in(notify)?;
    let highlight = truth_in(highlight)?;
    Some(LineMarks {
        buffer,
        id,
        dates,
        displayed,
        notify,
        highlight,
    })
}

/// What the values say that are texts. None where one is null.
#[tactic(auto, unfolding(crate::specs::Rows::line_texts_in))]
fn line_texts_in(
    alloc: Global,
    tags: &Object,
    prefix: &Object,
    message: &Object,
) -> Result<Option<PackedTexts>, NoMemory>
    ensures { IfOk result (λ texts. texts ≡ line_texts_in tags.now prefix.now message.now) }
{
    let Some(tags) = texts_in(alloc, tags)? else {
        return Ok(None);
    };
    let Some(prefix) = text_in(prefix) else {
        return Ok(None);
    };
    let Some(message) = text_in(message) else {
        return Ok(None);
    };
    let texts = PackedTexts::new(
        alloc,
        tags.as_slice(),
        prefix.as_slice(),
        message.as_slice(),
    )?;
    Ok(Some(texts))
}

fn row_with(content: u64, marks: LineMarks, texts: PackedTexts) -> LineRow
    ensures { result ≡ row_with content marks texts }
{
    LineRow {
        buffer: marks.buffer,
        line: PackedMirrorLine::new(content, marks, texts),
    }
}

/// The line that an item says. None where the item has other values than a line has.
#[tactic(auto, unfolding(crate::specs::Rows::row_in))]
fn row_in(alloc: Global, item: &HdaItem) -> Result<Option<LineRow>, NoMemory>
    ensures { IfOk result (λ row. row ≡ row_in item.now) }
{
    let Some(content) = last_pointer(item) else {
        return Ok(None);
    };
    let [
        buffer,
        id,
        date,
        usec,
        printed,
        usec_printed,
        displayed,
        notify,
        highlight,
        tags,
        prefix,
        message,
    ] = item.values.as_slice()
    else {
        return Ok(None);
    };
    let Some(dates) = dates_in(date, usec, printed, usec_printed) else {
        return Ok(None);
    };
    let Some(marks) = marks_in(buffer, id, dates, displayed, notify, highlight) else {
        return Ok(None);
    };
    let Some(texts) = line_texts_in(alloc, tags, prefix, message)? else {
        return Ok(None);
    };
    Ok(Some(row_with(content, marks, texts)))
}

/// The lines that items say. None where one says none.
#[tactic(auto, using(crate::proofs::EachLemmas::each_flag_facts))]
fn each_row(alloc: Global, items: &Items<HdaItem>) -> Result<Option<Vec<LineRow>>, NoMemory>
    ensures { IfOk result (λ rows. option_map (λ v. v.items) rows ≡ each row_in items.now) }
{
    let mut rows = Vec::new(alloc);
    for item in items.as_slice() {
        let Some(row) = row_in(alloc, item)? else {
            return Ok(None);
        };
        if rows.push(row).is_err() {
            return Err(NoMemory);
        }
    }
    Ok(Some(rows))
}

/// The lines of a message of one `hda` on this path with the keys of a line. None of any other
/// message, and where some item says no line.
pub(crate) fn rows_on(
    alloc: Global,
    path: &[u8],
    objects: &Items<Object>,
) -> Result<Option<Vec<LineRow>>, NoMemory>
    ensures { IfOk result (λ rows. option_map (λ v. v.items) rows ≡ rows_on path.now objects.now) }
{
    match items_on(path, KeyList::LineData.text(), objects) {
        Some(items) => each_row(alloc, items),
        None => Ok(None),
    }
}

/// The one line of these, and None where they are more or fewer.
pub(crate) fn only_row(mut rows: Vec<LineRow>) -> Option<LineRow>
    ensures { result ≡ only rows.items }
{
    if rows.len() == 1 { rows.pop() } else { None }
}
