//! Each call of a table.

use crate::shown::{goes_on, put_answer, put_bytes};
use std::alloc::{AllocError, Global};
use wc_notation::{Wrong, cut_word, unescape};
use wc_text::{NoMemory, Text};
use wc_ws::{WsGot, WsLink, WsRefused};

pub fn anew(alloc: Global, link: &mut WsLink, out: &mut String) -> Result<(), Wrong> {
    *link = WsLink::new(alloc)?;
    Ok(out.push_str("new")?)
}

fn feed_bytes(link: &mut WsLink, bytes: &[u8], out: &mut String) -> Result<(), Wrong> {
    link.feed(bytes)?;
    Ok(write!(out, "{} bytes", bytes.len())?)
}

pub fn feed(alloc: Global, link: &mut WsLink, rest: &str, out: &mut String) -> Result<(), Wrong> {
    let bytes = unescape(alloc, rest)?;
    feed_bytes(link, bytes.as_slice(), out)
}

/// A text so many times.
fn times(alloc: Global, count: u32, text: &[u8]) -> Result<Text, NoMemory> {
    let mut all = Text::new(alloc);
    for _ in 0..count {
        all.append(text)?;
    }
    Ok(all)
}

pub fn fill(alloc: Global, link: &mut WsLink, rest: &str, out: &mut String) -> Result<(), Wrong> {
    let (count, text) = cut_word(rest);
    let Ok(count) = count.parse::<u32>() else {
        return Err(Wrong::Number);
    };
    let text = unescape(alloc, text)?;
    let bytes = times(alloc, count, text.as_slice())?;
    feed_bytes(link, bytes.as_slice(), out)
}

/// Calls `next` and writes what it answered. Whether there may be more answers.
fn step(alloc: Global, link: &mut WsLink, out: &mut String) -> Result<bool, AllocError> {
    let answer = link.next(alloc);
    put_answer(out, &answer)?;
    out.push_str("; ")?;
    Ok(goes_on(&answer))
}

/// Feeds a byte and calls `next`.
fn feed_byte(alloc: Global, link: &mut WsLink, byte: u8, out: &mut String) -> Result<(), Wrong> {
    link.feed(&[byte])?;
    let answer = link.next(alloc);
    Ok(put_short(out, &answer)?)
}

/// Writes a point for an answer that waits, and else the answer.
fn put_short(out: &mut String, answer: &Result<WsGot, WsRefused>) -> Result<(), AllocError> {
    if matches!(answer, Ok(WsGot::NotYet)) {
        return out.push('.');
    }
    out.push(' ')?;
    put_answer(out, answer)?;
    out.push(' ')
}

pub fn each(alloc: Global, link: &mut WsLink, rest: &str, out: &mut String) -> Result<(), Wrong> {
    let bytes = unescape(alloc, rest)?;
    for byte in bytes.as_slice() {
        feed_byte(alloc, link, *byte, out)?;
    }
    Ok(())
}

pub fn next(alloc: Global, link: &mut WsLink, out: &mut String) -> Result<(), Wrong> {
    let answer = link.next(alloc);
    Ok(put_answer(out, &answer)?)
}

pub fn all(alloc: Global, link: &mut WsLink, out: &mut String) -> Result<(), Wrong> {
    for _ in 0..10_000u32 {
        if !step(alloc, link, out)? {
            return Ok(());
        }
    }
    Ok(())
}

pub fn unsent(link: &WsLink, out: &mut String) -> Result<(), Wrong> {
    Ok(put_bytes(out, link.unsent())?)
}

pub fn gone(link: &mut WsLink, rest: &str, out: &mut String) -> Result<(), Wrong> {
    let Ok(n) = rest.parse::<usize>() else {
        return Err(Wrong::Number);
    };
    if n > link.unsent().len() {
        return Err(Wrong::Number);
    }
    link.gone(n);
    Ok(write!(out, "{} bytes are left", link.unsent().len())?)
}

pub fn put(alloc: Global, link: &mut WsLink, rest: &str, out: &mut String) -> Result<(), Wrong> {
    let message = unescape(alloc, rest)?;
    match link.put(message.as_slice()) {
        Ok(()) => Ok(out.push_str("put")?),
        Err(why) => Ok(write!(out, "refused: {why}")?),
    }
}
