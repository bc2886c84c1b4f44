ghost use Rattle.std.specs.Prelude.{IfOk};
ghost use Rattle.std.specs.Str.{IsUtf8};

use crate::wrong::Wrong;
use std::alloc::{AllocError, Global};
use wc_text::{Handle, Text};

pub fn number(word: &str) -> Result<u64, Wrong> {
    match word.parse::<u64>() {
        Ok(number) => Ok(number),
        Err(_) => Err(Wrong::NoNumber),
    }
}

pub fn handle(word: &str) -> Result<Handle, Wrong> {
    let number = number(word)?;
    Ok(Handle(number))
}

pub fn small_number(word: &str) -> Result<u32, Wrong> {
    match word.parse::<u32>() {
        Ok(number) => Ok(number),
        Err(_) => Err(Wrong::NoNumber),
    }
}

/// A word in which `\s` stands for a blank.
fn with_blanks(alloc: Global, word: &str) -> Result<String, Wrong> {
    let mut out = String::new(alloc);
    for (place, piece) in word.split("\\s").enumerate() {
        if place > 0 {
            out.push(' ')?;
        }
        out.push_str(piece)?;
    }
    Ok(out)
}

/// A text this many times, and what follows it.
fn repeat_text(alloc: Global, unit: &str, count: u64, tail: &str) -> Result<String, Wrong> {
    let mut out = String::new(alloc);
    for _ in 0..count {
        out.push_str(unit)?;
    }
    out.push_str(tail)?;
    Ok(out)
}

/// What a word spells: nothing for `''`, for `a~3~b` the text `aaab`, and a blank for each `\s`.
fn spell(alloc: Global, word: &str) -> Result<String, Wrong> {
    if word == "''" {
        return Ok(String::new(alloc));
    }
    match word.split_once('~') {
        Some((unit, rest)) => {
            let (count, tail) = rest.split_once('~').unwrap_or((rest, ""));
            repeat_text(alloc, unit, number(count)?, tail)
        }
        None => with_blanks(alloc, word),
    }
}

/// The text that a word spells.
pub fn text(alloc: Global, word: &str) -> Result<Text, Wrong>
    ensures { IfOk result IsUtf8 }
{
    let spelled = spell(alloc, word)?;
    Ok(Text::from_slice(alloc, spelled.as_str().as_bytes())?)
}

/// What follows a name such as `date=` in the first of the words that begins with it.
pub fn option_of<'a>(options: &[&'a str], name: &str) -> Option<&'a str> {
    for word in options {
        let word: &'a str = *word;
        if let Some(rest) = word.strip_prefix(name) {
            return Some(rest);
        }
    }
    None
}

/// What follows a name in each of the words that begins with it.
pub fn options_of<'a>(
    alloc: Global,
    options: &[&'a str],
    name: &str,
) -> Result<Vec<&'a str>, AllocError> {
    let mut found = Vec::new(alloc);
    for word in options {
        let word: &'a str = *word;
        if let Some(rest) = word.strip_prefix(name) {
            found.push(rest)?;
        }
    }
    Ok(found)
}

/// Whether a word is among the options.
pub fn is_set(options: &[&str], name: &str) -> bool {
    option_of(options, name).is_some()
}

/// The number after a name, or another one where no option has it.
pub fn number_option(options: &[&str], name: &str, other: u64) -> Result<u64, Wrong> {
    match option_of(options, name) {
        Some(word) => number(word),
        None => Ok(other),
    }
}

/// The text after a name, which is empty where no option has it.
pub fn text_option(alloc: Global, options: &[&str], name: &str) -> Result<Text, Wrong>
    ensures { IfOk result IsUtf8 }
{
    text(alloc, option_of(options, name).unwrap_or("''"))
}

fn begins_with_one(word: &str, names: &[&'static str]) -> bool {
    for name in names {
        let name: &'static str = *name;
        if word.starts_with(name) {
            return true;
        }
    }
    false
}

/// Refuses options of which one begins with none of these names.
pub fn check_options(options: &[&str], names: &[&'static str]) -> Result<(), Wrong> {
    for word in options {
        if !begins_with_one(word, names) {
            return Err(Wrong::NoWord);
        }
    }
    Ok(())
}
