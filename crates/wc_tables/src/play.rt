use crate::{irc, objects, options, requests, texts};
use std::alloc::Global;
use wc_notation::{Sheet, Wrong, cut_word, is_passed_over};
use wc_options::Options;

/// Writes the answer of a line, which names a part, a call of it, and its texts.
fn answer(alloc: Global, options: &mut Options, line: &str, out: &mut Sheet) -> Result<(), Wrong> {
    let (part, following) = cut_word(line);
    let (call, rest) = cut_word(following);
    match part {
        "text" => texts::answer(alloc, call, rest, out),
        "relay" => requests::answer(alloc, call, rest, out),
        "irc" => irc::answer(alloc, call, rest, out),
        "options" => options::answer(alloc, options, call, rest, out),
        "objects" => objects::answer(alloc, call, rest, out),
        _ => Err(Wrong::Word),
    }
}

/// Writes a line and its answer.
fn turn(alloc: Global, options: &mut Options, line: &str, out: &mut Sheet) {
    if is_passed_over(line) {
        return;
    }
    out.begin_answer(line);
    let answered = answer(alloc, options, line, out);
    out.end_answer(answered);
}

/// Writes the lines of a table, each with its answer.
pub fn play(alloc: Global, options: &mut Options, text: &str, out: &mut Sheet) {
    for line in text.lines() {
        turn(alloc, options, line, out);
    }
}
