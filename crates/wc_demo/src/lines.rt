//! What the server says, line by line.

ghost use Rattle.std.specs.Prelude.{◌≡◌, ◌++◌, ◌%◌, IfOk, OnOk, decimal};
ghost use Rattle.wc_demo.specs.Lines.{comer_of, leaver_of, sent_line};

use itoa::Buffer;
use std::alloc::Global;
use wc_text::{NoMemory, Text};

/// The nick that comes and speaks at a line.
fn comer_of(place: u32) -> u32
    ensures { result ≡ comer_of place }
{
    place / 4 % 50
}

/// The nick that leaves at a line: it came halfway round before.
fn leaver_of(place: u32) -> u32
    ensures { result ≡ leaver_of place }
{
    (comer_of(place) + 25) % 50
}

/// Puts words, a number and more words after a text.
fn put(text: &mut Text, before: &[u8], number: u32, after: &[u8]) -> Result<(), NoMemory>
    ensures { OnOk result (text.new ≡ text.old ++ before.now ++ decimal number ++ after.now) }
{
    let mut digits = Buffer::new();
    text.append(before)?;
    text.append(digits.format(number).as_bytes())?;
    text.append(after)
}

/// Puts what a nick says at a place after a text.
fn put_words(text: &mut Text, place: u32) -> Result<(), NoMemory>
    requires { place % 4 ≡ 1 }
    ensures { OnOk result (text.new ≡ text.old ++ sent_line place) }
{
    put(text, b":u", comer_of(place), b"!u@h PRIVMSG #d :hello ")?;
    put(text, b"", place, b"\r\n")
}

/// Puts the line at a place, from 1 on, after a text.
#[tactic(auto, using(crate::proofs::LineLemmas::at_coming))]
fn put_line(text: &mut Text, place: u32) -> Result<(), NoMemory>
    ensures { OnOk result (text.new ≡ text.old ++ sent_line place) }
{
    match place % 4 {
        0 => put(text, b":u", comer_of(place), b"!u@h JOIN #d\r\n"),
        1 => put_words(text, place),
        2 => put(text, b":me!m@h MODE #d +v u", comer_of(place), b"\r\n"),
        _ => put(text, b":u", leaver_of(place), b"!u@h PART #d\r\n"),
    }
}

/// The line at a place, from 1 on, with its end.
pub(crate) fn line_at(alloc: Global, place: u32) -> Result<Text, NoMemory>
    ensures { IfOk result (λ text. text ≡ sent_line place) }
{
    let mut text = Text::new(alloc);
    put_line(&mut text, place)?;
    Ok(text)
}
