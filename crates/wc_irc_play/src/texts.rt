//! Texts, and the channels that are joined by themselves.

use crate::sheet::Sheet;
use std::alloc::Global;
use wc_irc::autojoin_lines;
use wc_irc_texts::{Moment, in_one_line, plain, read_time, reason_text, spaced, tag_time};
use wc_notation::{Wrong, unescape};
use wc_text::{Items, NoMemory, Text, words};

/// Writes how many texts there are, and each of them.
pub fn put_texts(out: &mut Sheet, texts: &[Text]) {
    out.put_number(texts.len() as u64);
    for text in texts {
        out.put(" ");
        out.put_quoted(text.as_slice());
    }
}

/// Writes texts that were made.
pub fn put_list(out: &mut Sheet, texts: Result<Items<Text>, NoMemory>) {
    match texts {
        Ok(texts) => put_texts(out, texts.as_slice()),
        Err(NoMemory) => out.lack(),
    }
}

/// Writes a text that was made.
fn put_made(out: &mut Sheet, text: Result<Text, NoMemory>) {
    match text {
        Ok(text) => out.put_quoted(text.as_slice()),
        Err(NoMemory) => out.lack(),
    }
}

/// The words of a text, each in memory of its own.
pub fn own_words(alloc: Global, text: &[u8]) -> Result<Items<Text>, NoMemory> {
    let mut own = Items::new(alloc);
    for word in words(text) {
        own.push(Text::from_slice(alloc, word)?)?;
    }
    Ok(own)
}

fn put_spaced(alloc: Global, text: &[u8], out: &mut Sheet) {
    match own_words(alloc, text) {
        Ok(own) => put_made(out, spaced(alloc, own.as_slice())),
        Err(NoMemory) => out.lack(),
    }
}

fn put_moment(out: &mut Sheet, moment: Option<Moment>) {
    match moment {
        Some(
            Moment {
                seconds,
                microseconds,
            },
        ) => {
            let written = write!(out.text, "{seconds} and {microseconds}");
            out.note(written);
        }
        None => out.put("no time"),
    }
}

fn put_answer(alloc: Global, call: &str, text: &[u8], out: &mut Sheet) -> Result<(), Wrong> {
    match call {
        "autojoin" => put_list(out, autojoin_lines(alloc, text)),
        "plain" => put_made(out, plain(alloc, text)),
        "line" => put_made(out, in_one_line(alloc, text)),
        "reason" => put_made(out, reason_text(alloc, text)),
        "spaced" => put_spaced(alloc, text, out),
        "time" => put_moment(out, read_time(text)),
        "tags" => put_moment(out, tag_time(text)),
        _ => return Err(Wrong::Word),
    }
    Ok(())
}

/// Writes the answer of a call on one text.
pub fn texts_answer(alloc: Global, call: &str, rest: &str, out: &mut Sheet) -> Result<(), Wrong> {
    let text = unescape(alloc, rest)?;
    put_answer(alloc, call, text.as_slice(), out)
}
