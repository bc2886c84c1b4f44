ghost use Rattle.std.specs.Prelude.{◌≡◌, ◌≤◌, ◌+◌, ◌++◌, ◌∷◌, [], true, false, not, length, IsTrue, is_some};
ghost use Rattle.std.specs.Prelude.{IfOk, OnOk};
ghost use Rattle.std.specs.Option.{option_copied};
ghost use Rattle.wc_ircmsg.specs.CaseMaps.{folded_name};
ghost use Rattle.wc_irc_nicks.specs.Kept.{with_seats};
ghost use Rattle.wc_irc_nicks.specs.KeptSeen.{seats_left};
ghost use Rattle.wc_irc_nicks.specs.Seats.{seat_of, has_seat, without_seat, with_modes, with_name, AreApart};

use crate::folded::folded_key;
use crate::nick_index::{NickIndex, find, forget, insert, reserve};
use crate::places::{Places, close_up, set_modes, set_name, take_out};
use std::alloc::Global;
use std::collections::HashMap;
use std::marker::Model;
use wc_irc_texts::{ModeSet, Seat, is_same};
use wc_ircmsg::CaseMap;
use wc_text::{NoMemory, Text};

/// A nick that is to come onto a list, with what look-ups go by.
#[derive(Drop)]
pub struct NewNick {
    case_map: CaseMap,
    nick: Text,
    key: Vec<u8>,
}

impl Model for NewNick {
    ghost use Rattle.std.specs.Prelude.{◌≡◌};
    ghost use Rattle.wc_ircmsg.specs.CaseMaps.{folded_name};
    ghost use Rattle.wc_irc_nicks.specs.Kept.{NewNickValue};

    ghost Value = { NewNickValue };

    ghost view = { λ a. record { case_map = a.case_map; nick = a.nick } };

    ghost invariant = { λ a. a.key.items ≡ folded_name a.case_map a.nick };
}

impl NewNick {
    /// The nick as it is written.
    pub fn nick(&self) -> &[u8]
        ensures { result.now ≡ self.now.nick }
    {
        self.nick.as_slice()
    }

    /// A nick for a list that goes by this case map.
    pub fn new(alloc: Global, case_map: CaseMap, nick: &[u8]) -> Result<NewNick, NoMemory>
        ensures { IfOk result (λ new. new ≡ record { case_map = case_map; nick = nick.now }) }
    {
        let key = folded_key(alloc, case_map, nick)?;
        let nick = Text::from_slice(alloc, nick)?;
        Ok(NewNick {
            case_map,
            nick,
            key,
        })
    }
}

/// The nicks of a channel in the order of their coming, of which no two are the same.
///
/// A nick that goes leaves a hole, and an index leads from the folded nick to its place, so that
/// each change costs the same however many nicks there are. The holes are taken out once they are
/// more than the nicks.
#[derive(Drop)]
pub struct Members {
    case_map: CaseMap,
    places: Places,
    index: NickIndex,
    count: usize,
}

impl Model for Members {
    ghost use Rattle.std.specs.Prelude.{min, ◌-◌, vec_capacity, vec_len};
    ghost use Rattle.std.specs.HashMap.{spare};
    ghost use Rattle.wc_nicklist.specs.Index.{at_long};
    ghost use Rattle.wc_irc_nicks.specs.Kept.{MembersValue, IsKept, AreCounted, filled};

    ghost Value = { MembersValue };

    ghost view = { λ a. record {
      case_map = a.case_map;
      seats = filled a.places.items;
      room = min (vec_capacity a.places - vec_len a.places) (spare a.index);
    } };

    ghost invariant = { λ a. IsKept a.case_map a.places.items (at_long a.index)
        × AreCounted a.places.items a.count };
}

impl Members {
    /// No nicks, which are told apart by this case map. It takes no memory.
    pub fn new(alloc: Global, case_map: CaseMap) -> Members
        ensures case_map { result.case_map ≡ case_map }
        ensures seats { result.seats ≡ [] }
    {
        Members {
            case_map,
            places: Vec::new(alloc),
            index: HashMap::new(alloc),
            count: 0,
        }
    }

    /// The case map by which nicks are told apart.
    pub fn case_map(&self) -> CaseMap
        ensures { result ≡ self.now.case_map }
    {
        self.case_map
    }

    /// How many nicks there are.
    pub fn count(&self) -> usize
        ensures { result ≡ length self.now.seats }
    {
        self.count
    }

    /// A nick with its modes, in the spelling that is kept.
    pub fn find(&self, nick: &[u8]) -> Option<&Seat>
        ensures found { option_copied result
            ≡ seat_of self.now.case_map nick.now self.now.seats }
        ensures apart { AreApart self.now.case_map self.now.seats }
        ensures short { IsTrue (is_some result) → length nick.now ≤ 64 }
    {
        match find(&self.index, self.case_map, nick) {
            Some(place) => self.places[place].as_ref(),
            None => None,
        }
    }

    pub fn has(&self, nick: &[u8]) -> bool
        ensures has { result ≡ has_seat self.now.case_map nick.now self.now.seats }
        ensures apart { AreApart self.now.case_map self.now.seats }
    {
        self.find(nick).is_some()
    }

    /// Takes the memory for so many nicks more.
    pub fn reserve(&mut self, count: usize) -> Result<(), NoMemory>
        ensures case_map { self.new.case_map ≡ self.old.case_map }
        ensures seats { self.new.seats ≡ self.old.seats }
        ensures ok { OnOk result (count ≤ self.new.room) }
    {
        self.places.reserve(count)?;
        reserve(&mut self.index, count)
    }

    /// Puts a nick that is not there, of at most 64 bytes, to the end. It takes no memory.
    pub fn push(&mut self, new: NewNick, modes: ModeSet)
        requires case_map { new.case_map ≡ self.old.case_map }
        requires short { length new.nick ≤ 64 }
        requires absent { has_seat self.old.case_map new.nick self.old.seats ≡ false }
        requires room { 1 ≤ self.old.room }
        ensures case_map { self.new.case_map ≡ self.old.case_map }
        ensures seats { self.new.seats
            ≡ self.old.seats ++ record { nick = new.nick; modes = modes } ∷ [] }
        ensures room { self.old.room ≤ self.new.room + 1 }
    {
        let place = self.places.len();
        insert(&mut self.index, new.key, place);
        self.places.push_reserved(Some(Seat {
            nick: new.nick,
            modes,
        }));
        self.count += 1;
    }

    /// Takes a nick out, where it is there. It takes no memory.
    pub fn remove(&mut self, nick: &[u8])
        ensures case_map { self.new.case_map ≡ self.old.case_map }
        ensures seats { self.new.seats ≡ without_seat self.old.case_map nick.now self.old.seats }
    {
        let Some(place) = find(&self.index, self.case_map, nick) else {
            return;
        };
        take_out(
            &mut self.places,
            &mut self.index,
            self.case_map,
            nick,
            place,
        );
        self.count -= 1;
        if self.places.len() / 2 > self.count {
            close_up(&mut self.places, &mut self.index, self.case_map);
        }
    }

    /// Gives a nick other modes, where it is there. It takes no memory.
    pub fn put_modes(&mut self, nick: &[u8], modes: ModeSet)
        ensures { self.new ≡ with_seats (with_modes self.old.case_map nick.now modes) self.old }
    {
        if let Some(place) = find(&self.index, self.case_map, nick) {
            set_modes(&mut self.places, place, modes);
        }
    }

    /// Gives a nick that is there another name, of at most 64 bytes, which no other nick has. It
    /// keeps its place and its modes. It takes no memory.
    pub fn rename(&mut self, old: &[u8], new: NewNick)
        requires case_map { new.case_map ≡ self.old.case_map }
        requires short { length new.nick ≤ 64 }
        requires there { has_seat self.old.case_map old.now self.old.seats ≡ true }
        requires absent { has_seat self.old.case_map new.nick
            (without_seat self.old.case_map old.now self.old.seats) ≡ false }
        requires room { 1 ≤ self.old.room }
        ensures case_map { self.new.case_map ≡ self.old.case_map }
        ensures seats { self.new.seats
            ≡ with_name self.old.case_map old.now new.nick self.old.seats }
    {
        let Some(place) = find(&self.index, self.case_map, old) else {
            unreachable!()
        };
        forget(&mut self.index, self.case_map, old);
        insert(&mut self.index, new.key, place);
        set_name(&mut self.places, place, new.nick);
    }

    /// Whether a nick may get another name: no other nick of the list has it.
    pub fn may_rename(&self, old: &[u8], new: &[u8]) -> bool
        ensures { result ≡ not (has_seat self.now.case_map new.now
            (without_seat self.now.case_map old.now self.now.seats)) }
    {
        is_same(self.case_map(), old, new) || !self.has(new)
    }

    /// The nicks in the order of their coming, of which no two are the same.
    pub fn iter(&self) -> SeatIter<'_>
        ensures seats { seats_left result ≡ self.now.seats }
        ensures apart { AreApart self.now.case_map self.now.seats }
    {
        SeatIter {
            places: self.places.as_slice(),
        }
    }
}

/// The nicks that are still to come, in order.
#[derive(Drop)]
pub struct SeatIter<'a> {
    places: &'a [Option<Seat>],
}

impl<'a> Iterator for SeatIter<'a> {
    type Item = &'a Seat;

    ghost use Rattle.std.specs.Iterator.{YieldsFirstRef, item_count};
    ghost use Rattle.wc_irc_nicks.specs.KeptSeen.{seats_left};

    ghost next_gives = { YieldsFirstRef seats_left };

    ghost remaining = { item_count seats_left };

    fn next(&mut self) -> Option<&'a Seat> {
        while let [place, others @ ..] = self.places {
            self.places = others;
            if let Some(seat) = place {
                return Some(seat);
            }
        }
        None
    }
}
