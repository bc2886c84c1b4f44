//! The calls of a hotlist.

use crate::texts::{cut_handle, number};
use std::alloc::AllocError;
use wc_hotlist::{HotRow, Hotlist};
use wc_notation::{Wrong, cut_word};
use wc_text::Handle;

/// How many rows an answer has.
const SHOWN: usize = 6;

fn level_of(word: &str) -> Result<i8, Wrong> {
    match word.parse::<i8>() {
        Ok(level) => Ok(level),
        Err(_) => Err(Wrong::Number),
    }
}

/// A row: its buffer, its priority, and its counts from level 0 on.
fn put_row(out: &mut String, row: HotRow) -> Result<(), AllocError> {
    let buffer = row.buffer.0;
    let priority = row.priority;
    let [low, message, private, highlight] = row.counts;
    write!(
        out,
        " {buffer}:{priority}({low},{message},{private},{highlight})"
    )
}

/// Writes how many rows there are, and the first ones.
pub fn put_rows(hotlist: &Hotlist, out: &mut String) -> Result<(), Wrong> {
    let count = hotlist.len();
    write!(out, "{count}:")?;
    for row in hotlist.rows().take(SHOWN) {
        put_row(out, row)?;
    }
    Ok(())
}

/// Writes the row at a place, where one is there.
fn put_place(hotlist: &Hotlist, place: u64, out: &mut String) -> Result<(), Wrong> {
    let mut left = place;
    for row in hotlist.rows() {
        if left == 0 {
            return Ok(put_row(out, row)?);
        }
        left -= 1;
    }
    Ok(out.push_str("none")?)
}

/// Counts a line.
fn count_line(hotlist: &mut Hotlist, rest: &str) -> Result<(), Wrong> {
    let (buffer, rest) = cut_handle(rest)?;
    let (level, shown) = cut_word(rest);
    hotlist.line(buffer, level_of(level)?, shown == "shown");
    Ok(())
}

/// Counts so many lines of a buffer.
fn count_many(hotlist: &mut Hotlist, rest: &str) -> Result<(), Wrong> {
    let (count, rest) = cut_word(rest);
    let (buffer, level) = cut_handle(rest)?;
    let level = level_of(level)?;
    for _ in 0..number(count)? {
        hotlist.line(buffer, level, true);
    }
    Ok(())
}

/// Counts a line of each buffer from one to another.
fn count_each(hotlist: &mut Hotlist, rest: &str) -> Result<(), Wrong> {
    let (first, rest) = cut_word(rest);
    let (last, level) = cut_word(rest);
    let level = level_of(level)?;
    for buffer in number(first)?..=number(last)? {
        hotlist.line(Handle(buffer), level, true);
    }
    Ok(())
}

fn remove(hotlist: &mut Hotlist, rest: &str) -> Result<(), Wrong> {
    hotlist.remove(Handle(number(rest)?));
    Ok(())
}

/// Makes a call, and writes the rows after it, or the one that it asks for.
pub fn answer(
    hotlist: &mut Hotlist,
    call: &str,
    rest: &str,
    out: &mut String,
) -> Result<(), Wrong> {
    match call {
        "line" => count_line(hotlist, rest)?,
        "many" => count_many(hotlist, rest)?,
        "each" => count_each(hotlist, rest)?,
        "remove" => remove(hotlist, rest)?,
        "clear" => hotlist.clear(),
        "place" => return put_place(hotlist, number(rest)?, out),
        _ => return Err(Wrong::Word),
    }
    put_rows(hotlist, out)
}
