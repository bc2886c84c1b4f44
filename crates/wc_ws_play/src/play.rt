//! The lines of a table:
//!
//! - `new` begins again, with a link to which nothing was fed;
//! - `feed TEXT` feeds a text, `fill N TEXT` the same text so many times in one piece, and
//!   `each TEXT` its bytes one by one, with a `next` after each;
//! - `next` calls `next` once, `all` until it waits, has ended or refuses;
//! - `unsent` shows what is to be sent, `gone N` says that so many bytes of it were sent;
//! - `put TEXT` puts a message.

use crate::calls::{all, anew, each, feed, fill, gone, next, put, unsent};
use std::alloc::{AllocError, Global};
use wc_notation::{Wrong, cut_word, end_answer, is_passed_over};
use wc_ws::WsLink;

/// Writes the answer of a line.
fn answer(alloc: Global, link: &mut WsLink, line: &str, out: &mut String) -> Result<(), Wrong> {
    let (call, rest) = cut_word(line);
    match call {
        "new" => anew(alloc, link, out),
        "feed" => feed(alloc, link, rest, out),
        "fill" => fill(alloc, link, rest, out),
        "each" => each(alloc, link, rest, out),
        "next" => next(alloc, link, out),
        "all" => all(alloc, link, out),
        "unsent" => unsent(link, out),
        "gone" => gone(link, rest, out),
        "put" => put(alloc, link, rest, out),
        _ => Err(Wrong::Word),
    }
}

/// Writes a line and its answer.
fn turn(alloc: Global, link: &mut WsLink, line: &str, out: &mut String) -> Result<(), AllocError> {
    if is_passed_over(line) {
        return Ok(());
    }
    write!(out, "> {line}\n")?;
    let answered = answer(alloc, link, line, out);
    end_answer(out, answered)
}

/// The lines of a table, each with its answer.
pub fn play(alloc: Global, link: &mut WsLink, text: &str) -> Result<String, Wrong> {
    let mut out = String::new(alloc);
    for line in text.lines() {
        turn(alloc, link, line, &mut out)?;
    }
    Ok(out)
}
