//! The changes of lines that a script asks for.

ghost use Rattle.std.specs.Prelude.{IfOk, All};
ghost use Rattle.std.specs.Str.{IsUtf8};
ghost use Rattle.wc_world.specs.Texts.{IsChangeText, IsLineText};

use crate::words::{
    check_options, handle, is_set, number_option, option_of, options_of, text, text_option,
};
use crate::wrong::Wrong;
use std::alloc::Global;
use wc_model::{Flip, LineSpec, What};
use wc_text::{Items, Text};

const LINE_OPTIONS: &[&str] = &[
    "date=",
    "printed=",
    "usec=",
    "usec_printed=",
    "hidden",
    "notify=",
    "highlight",
    "tag=",
    "prefix=",
];

/// When a line is printed, where its options say nothing.
const DATE: u64 = 1_700_000_000;

/// The numbers of a line.
#[derive(Clone, Copy)]
struct Marks {
    date: u64,
    usec: u32,
    date_printed: u64,
    usec_printed: u32,
    notify: i8,
}

fn notify(options: &[&str]) -> Result<i8, Wrong> {
    match option_of(options, "notify=").unwrap_or("0").parse::<i8>() {
        Ok(notify) => Ok(notify),
        Err(_) => Err(Wrong::NoNumber),
    }
}

/// Microseconds, which may be more than a second has.
fn usec_option(options: &[&str], name: &str) -> Result<u32, Wrong> {
    match u32::try_from(number_option(options, name, 0)?) {
        Ok(usec) => Ok(usec),
        Err(_) => Err(Wrong::NoNumber),
    }
}

fn marks_of(options: &[&str]) -> Result<Marks, Wrong> {
    let date = number_option(options, "date=", DATE)?;
    let date_printed = number_option(options, "printed=", date)?;
    let usec = usec_option(options, "usec=")?;
    let usec_printed = usec_option(options, "usec_printed=")?;
    let notify = notify(options)?;
    Ok(Marks {
        date,
        usec,
        date_printed,
        usec_printed,
        notify,
    })
}

fn texts(alloc: Global, words: &[&str]) -> Result<Items<Text>, Wrong>
    ensures { IfOk result (All IsUtf8) }
{
    let mut texts = Items::new(alloc);
    for word in words {
        let text = text(alloc, word)?;
        texts.push(text)?;
    }
    Ok(texts)
}

/// The tags of the options, of which each is written `tag=name`.
fn tags(alloc: Global, options: &[&str]) -> Result<Items<Text>, Wrong>
    ensures { IfOk result (All IsUtf8) }
{
    let words = options_of(alloc, options, "tag=")?;
    texts(alloc, words.as_slice())
}

fn line(alloc: Global, message: &str, options: &[&str]) -> Result<LineSpec, Wrong>
    ensures { IfOk result IsLineText }
{
    let marks = marks_of(options)?;
    let tags = tags(alloc, options)?;
    let prefix = text_option(alloc, options, "prefix=")?;
    let message = text(alloc, message)?;
    Ok(LineSpec {
        date: marks.date,
        usec: marks.usec,
        date_printed: marks.date_printed,
        usec_printed: marks.usec_printed,
        displayed: !is_set(options, "hidden"),
        notify: marks.notify,
        highlight: is_set(options, "highlight"),
        tags,
        prefix,
        message,
    })
}

/// A line whose message is the first word.
pub fn read_print(alloc: Global, words: &[&str]) -> Result<What, Wrong>
    ensures { IfOk result IsChangeText }
{
    let [message, options @ ..] = words else {
        return Err(Wrong::NoWord);
    };
    check_options(options, LINE_OPTIONS)?;
    let line = line(alloc, message, options)?;
    Ok(What::Print(line))
}

/// A flip that is written `show=6` or `hide=6`.
fn flip(word: &str) -> Result<Flip, Wrong> {
    let Some((way, content)) = word.split_once('=') else {
        return Err(Wrong::NoWord);
    };
    let displayed = match way {
        "show" => true,
        "hide" => false,
        _ => return Err(Wrong::NoWord),
    };
    let content = handle(content)?;
    Ok(Flip { content, displayed })
}

pub fn flips_of(alloc: Global, words: &[&str]) -> Result<Items<Flip>, Wrong> {
    let mut flips = Items::new(alloc);
    for word in words {
        flips.push(flip(word)?)?;
    }
    Ok(flips)
}

pub fn read_flips(alloc: Global, words: &[&str]) -> Result<What, Wrong>
    ensures { IfOk result IsChangeText }
{
    let flips = flips_of(alloc, words)?;
    Ok(What::Flips(flips))
}
