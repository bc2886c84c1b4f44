use crate::messages::{front, message};
use crate::stage::Stage;
use std::alloc::Global;
use wc_notation::{Sheet, Wrong, cut_word, is_passed_over, unescape};
use wc_text::{NoMemory, Text};

fn put_limit(out: &mut Sheet, limit: u32) {
    let written = write!(out.text, "a mirror of {limit} lines a buffer");
    out.note(written);
}

/// Begins anew with a mirror of so many lines a buffer.
fn renew(alloc: Global, stage: &mut Stage, rest: &str, out: &mut Sheet) -> Result<(), Wrong> {
    match rest.parse::<u32>() {
        Ok(limit) if limit > 0 => {
            stage.renew(alloc, limit)?;
            put_limit(out, limit);
            Ok(())
        }
        _ => Err(Wrong::Number),
    }
}

/// The bytes that a line gives to the mirror.
fn given(alloc: Global, word: &str, rest: &str) -> Result<Text, Wrong> {
    match word {
        "take" => message(alloc, rest),
        "front" => front(alloc, rest),
        "bytes" => unescape(alloc, rest),
        _ => Err(Wrong::Word),
    }
}

/// Does what a line says, and writes what it answers.
fn answer(alloc: Global, stage: &mut Stage, line: &str, out: &mut Sheet) -> Result<(), Wrong> {
    let (word, rest) = cut_word(line);
    if word == "mirror" {
        return renew(alloc, stage, rest, out);
    }
    let bytes = given(alloc, word, rest)?;
    stage.take(alloc, bytes.as_slice(), out);
    Ok(())
}

/// Writes a line, and what it answers.
fn turn(alloc: Global, stage: &mut Stage, line: &str, out: &mut Sheet) {
    if is_passed_over(line) {
        return;
    }
    out.begin_answer(line);
    let answered = answer(alloc, stage, line, out);
    out.end_answer(answered);
}

/// Writes the lines of a file, each with what it answers.
fn put_answers(alloc: Global, stage: &mut Stage, text: &str, out: &mut Sheet) {
    for line in text.lines() {
        turn(alloc, stage, line, out);
    }
}

/// Plays the lines of a file on a mirror of its own.
pub fn play(alloc: Global, text: &str, out: &mut Sheet) {
    match Stage::new(alloc) {
        Ok(mut stage) => put_answers(alloc, &mut stage, text, out),
        Err(NoMemory) => out.lack(),
    }
}
