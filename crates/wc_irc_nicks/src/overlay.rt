ghost use Rattle.std.specs.Prelude.{◌≡◌, ◌≤◌, [], length, IsTrue, is_some, option_map, IfOk, OnOk, OnErr};
ghost use Rattle.std.specs.Option.{option_copied};
ghost use Rattle.wc_irc_nicks.specs.Merged.{over, put_seat, merged};
ghost use Rattle.wc_irc_nicks.specs.MergedSeen.{seat_in};
ghost use Rattle.wc_irc_nicks.specs.Seats.{seat_of, AreApart};

use crate::members::{Members, NewNick};
use std::alloc::Global;
use wc_irc_texts::{ModeSet, Seat};
use wc_text::{NoMemory, Text};

/// The nicks of a channel as one message after another change of it would leave them, before
/// anything is written: what is changed lies over the list.
#[derive(Drop)]
pub struct Overlay<'a> {
    list: &'a Members,
    changed: Members,
    ghost same_map: { changed.case_map ≡ list.now.case_map },
}

/// A nick as it is found, with the spelling in which it came first.
#[derive(Clone, Copy)]
pub struct FoundNick<'a> {
    pub nick: &'a Text,
    pub modes: ModeSet,
}

/// A nick with the modes that it was given over its own, where it was given some.
fn over<'a>(seat: &'a Seat, changed: Option<&'a Seat>) -> FoundNick<'a>
    ensures { seat_in result ≡ over seat.now (option_copied changed.entry) }
{
    let modes = match changed {
        Some(changed) => changed.modes,
        None => seat.modes,
    };
    FoundNick {
        nick: &seat.nick,
        modes,
    }
}

fn found(seat: Option<&Seat>) -> Option<FoundNick<'_>>
    ensures { option_map seat_in result ≡ option_copied seat.entry }
{
    match seat {
        Some(seat) => Some(over(seat, None)),
        None => None,
    }
}

impl<'a> Overlay<'a> {
    /// A list without a change. It takes no memory.
    pub fn new(alloc: Global, list: &'a Members) -> Overlay<'a>
        ensures list { result.list.now ≡ list.now }
        ensures changed { result.changed.seats ≡ [] }
    {
        Overlay {
            list,
            changed: Members::new(alloc, list.case_map()),
        }
    }

    /// A nick as the changes leave it.
    pub fn find(&self, nick: &[u8]) -> Option<FoundNick<'_>>
        ensures found { option_map seat_in result ≡ seat_of self.now.list.now.case_map nick.now
            (merged self.now.list.now.case_map self.now.changed.seats self.now.list.now.seats) }
        ensures short { IsTrue (is_some result) → length nick.now ≤ 64 }
    {
        let changed = self.changed.find(nick);
        match self.list.find(nick) {
            Some(seat) => Some(over(seat, changed)),
            None => found(changed),
        }
    }

    /// Gives a nick of at most 64 bytes these modes. One that is not there comes in at the end.
    /// Where memory is refused nothing is changed.
    pub fn put(&mut self, alloc: Global, nick: &[u8], modes: ModeSet) -> Result<(), NoMemory>
        requires { length nick.now ≤ 64 }
        ensures list { self.new.list ≡ self.old.list }
        ensures ok { OnOk result (self.new.changed.seats
            ≡ put_seat self.old.list.now.case_map nick.now modes self.old.changed.seats) }
        ensures after { OnOk result (merged self.old.list.now.case_map self.new.changed.seats
            self.old.list.now.seats
            ≡ put_seat self.old.list.now.case_map nick.now modes
            (merged self.old.list.now.case_map self.old.changed.seats
            self.old.list.now.seats)) }
        ensures err { OnErr result (self.new.changed.seats ≡ self.old.changed.seats) }
    {
        put(&mut self.changed, alloc, nick, modes)
    }
}

/// Gives a nick these modes. One that is not there comes in at the end.
fn put(list: &mut Members, alloc: Global, nick: &[u8], modes: ModeSet) -> Result<(), NoMemory>
    requires { length nick.now ≤ 64 }
    ensures case_map { list.new.case_map ≡ list.old.case_map }
    ensures apart { AreApart list.old.case_map list.old.seats }
    ensures ok { OnOk result (list.new.seats
        ≡ put_seat list.old.case_map nick.now modes list.old.seats) }
    ensures err { OnErr result (list.new.seats ≡ list.old.seats) }
{
    if list.has(nick) {
        list.put_modes(nick, modes);
        return Ok(());
    }
    let new = NewNick::new(alloc, list.case_map(), nick)?;
    list.reserve(1)?;
    list.push(new, modes);
    Ok(())
}
