ghost use Rattle.std.specs.Prelude.{◌≡◌, ◌≤◌, ◌<◌, suc, length, take, IfOk};
ghost use Rattle.std.specs.Str.{IsUtf8};
ghost use Rattle.wc_irc_texts.specs.Parts.{last_blank, cut_len, part_len, past_seam, after_part};
ghost use Rattle.wc_irc_texts.specs.Parts.{parts};

use std::alloc::Global;
use wc_text::{Items, NoMemory, Text, cut};

/// The place of the last blank up to this one, but for one at the front: 0 where there is none.
fn last_blank(text: &[u8], last: usize) -> usize
    requires { last < length text.now }
    ensures { result ≡ last_blank (take (suc last) text.now) }
{
    let mut place = last;
    while place > 0 && text[place] != b' ' {
        place -= 1;
    }
    place
}

/// How many bytes of a text that has more fit into the room.
fn cut_len(text: &[u8], room: usize) -> usize
    requires long { room < length text.now }
    requires utf8 { IsUtf8 text.now }
    ensures { result ≡ cut_len room text.now }
{
    let place = last_blank(text, room);
    if place > 0 { place } else { cut(text, room) }
}

/// How many bytes the first part has.
#[tactic(auto, unfolding(crate::specs::Parts::part_len))]
fn part_len(text: &[u8], room: usize) -> usize
    requires { IsUtf8 text.now }
    ensures { result ≡ part_len room text.now }
{
    if text.len() <= room {
        text.len()
    } else {
        cut_len(text, room)
    }
}

/// A text without the blank at a seam.
fn past_seam(text: &[u8]) -> &[u8]
    ensures { result.now ≡ past_seam text.now }
{
    match text {
        [b' ', others @ ..] => others,
        _ => text,
    }
}

/// The first part, and what comes after it.
#[tactic(auto, using(crate::proofs::PartLemmas::len_inside))]
fn cut_part(text: &[u8], room: usize) -> (&[u8], &[u8])
    requires { IsUtf8 text.now }
    ensures part { result.0.now ≡ take (part_len room text.now) text.now }
    ensures rest { result.1.now ≡ after_part room text.now }
{
    let (part, others) = text.split_at(part_len(text, room));
    (part, past_seam(others))
}

/// The parts of a text, each of which has so many bytes of room. A part ends before the last blank
/// that may come after it, and this blank is left out. Where there is none the part has as many
/// whole characters as fit. The room is that of a character at least.
pub fn parts(alloc: Global, text: &[u8], room: usize) -> Result<Items<Text>, NoMemory>
    requires room { 4 ≤ room }
    requires utf8 { IsUtf8 text.now }
    ensures { IfOk result (λ made. made ≡ parts room text.now) }
{
    let mut parts = Items::new(alloc);
    let mut rest = text;
    while !rest.is_empty() {
        let (part, others) = cut_part(rest, room);
        parts.push(Text::from_slice(alloc, part)?)?;
        rest = others;
    }
    Ok(parts)
}
