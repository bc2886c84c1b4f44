//! The nicks of a channel.

use crate::sheet::Sheet;
use std::alloc::Global;
use wc_irc_nicks::{Members, NewNick};
use wc_irc_texts::{ModeSet, Seat};
use wc_notation::{Wrong, two_texts, unescape};
use wc_text::Text;

/// The most bytes of a nick.
const LONGEST: usize = 64;

/// The modes whose places digits name.
fn modes_of(digits: &Text) -> Result<ModeSet, Wrong> {
    let mut modes = ModeSet::NONE;
    for digit in digits.as_slice() {
        if !digit.is_ascii_digit() {
            return Err(Wrong::Number);
        }
        modes = modes.with((*digit - b'0') as usize);
    }
    Ok(modes)
}

fn put_modes(out: &mut Sheet, modes: ModeSet) {
    for place in 0..10 {
        if modes.has(place) {
            out.put_number(place as u64);
        }
    }
    if let Some(place) = modes.highest() {
        out.put(" highest ");
        out.put_number(place as u64);
    }
}

fn put_seat(out: &mut Sheet, seat: &Seat) {
    out.put_quoted(seat.nick.as_slice());
    put_modes(out, seat.modes);
}

/// Writes how many nicks there are, and each with its modes.
pub fn put_all(out: &mut Sheet, members: &Members) {
    out.put_number(members.count() as u64);
    for seat in members.iter() {
        out.put(" ");
        put_seat(out, seat);
    }
}

fn put_found(out: &mut Sheet, members: &Members, nick: &Text) {
    match members.find(nick.as_slice()) {
        Some(seat) => put_seat(out, seat),
        None => out.put("not there"),
    }
}

/// Puts a nick to the end, unless it is there or is too long.
fn come(alloc: Global, members: &mut Members, nick: &Text) -> Result<(), Wrong> {
    members.reserve(1)?;
    if nick.as_slice().len() > LONGEST || members.has(nick.as_slice()) {
        return Err(Wrong::Word);
    }
    let new = NewNick::new(alloc, members.case_map(), nick.as_slice())?;
    members.push(new, ModeSet::NONE);
    Ok(())
}

/// Gives a nick that is there another name, where that may be.
fn rename(alloc: Global, members: &mut Members, old: &Text, new: &Text) -> Result<(), Wrong> {
    let (old, new) = (old.as_slice(), new.as_slice());
    members.reserve(1)?;
    if new.len() > LONGEST || !members.has(old) || !members.may_rename(old, new) {
        return Err(Wrong::Word);
    }
    let new = NewNick::new(alloc, members.case_map(), new)?;
    members.rename(old, new);
    Ok(())
}

fn name(alloc: Global, members: &mut Members, rest: &str) -> Result<(), Wrong> {
    let (old, new) = two_texts(alloc, rest)?;
    rename(alloc, members, &old, &new)
}

fn give(alloc: Global, members: &mut Members, rest: &str) -> Result<(), Wrong> {
    let (nick, digits) = two_texts(alloc, rest)?;
    let modes = modes_of(&digits)?;
    members.put_modes(nick.as_slice(), modes);
    Ok(())
}

fn come_or_go(alloc: Global, members: &mut Members, comes: bool, rest: &str) -> Result<(), Wrong> {
    let nick = unescape(alloc, rest)?;
    if comes {
        return come(alloc, members, &nick);
    }
    members.remove(nick.as_slice());
    Ok(())
}

fn find(alloc: Global, members: &Members, rest: &str, out: &mut Sheet) -> Result<(), Wrong> {
    let nick = unescape(alloc, rest)?;
    put_found(out, members, &nick);
    Ok(())
}

fn put_nicks(out: &mut Sheet, members: &Members) -> Result<(), Wrong> {
    put_all(out, members);
    Ok(())
}

/// Writes the answer of a call on the nicks of a channel.
pub fn nicks_answer(
    alloc: Global,
    members: &mut Members,
    call: &str,
    rest: &str,
    out: &mut Sheet,
) -> Result<(), Wrong> {
    match call {
        "come" => come_or_go(alloc, members, true, rest),
        "go" => come_or_go(alloc, members, false, rest),
        "name" => name(alloc, members, rest),
        "give" => give(alloc, members, rest),
        "find" => find(alloc, members, rest, out),
        "nicks" => put_nicks(out, members),
        _ => Err(Wrong::Word),
    }
}
