ghost use Rattle.std.specs.Prelude.{◌≡◌, ◌≤◌, ◌+◌, ◌++◌, length, IfOk, OnOk, OnErr};
ghost use Rattle.wc_irc_nicks.specs.Merged.{put_seat, merged};
ghost use Rattle.wc_irc.specs.NameActs.{listed_seat, listed_seats, after_names};
ghost use Rattle.wc_irc.specs.NameActs.{has_hosts_in_names};
ghost use Rattle.wc_irc.specs.NamesSeen.{seats_of_comers, MayCome, AllMayCome};
ghost use Rattle.wc_irc.specs.ModeActs.{after_mode, with_change, with_changes};
ghost use Rattle.wc_irc_texts.specs.ModesSeen.{change_in, changes_in};
ghost use Rattle.wc_irc.specs.ServersSeen.{seen};
ghost use Rattle.wc_text.specs.Words.{words_of};

use crate::mode_acts::modes_after;
use crate::state::State;
use std::alloc::Global;
use wc_irc_nicks::{Members, NewNick};
use wc_irc_texts::{ModeChange, ModeSet, is_nick, listed_name, mode_changes, param, params_from};
use wc_ircmsg::{CaseMap, Message, Prefixes};
use wc_text::{NoMemory, words};

/// A nick of a list of names, which comes or gets other modes.
#[derive(Drop)]
pub(crate) struct Comer {
    new: NewNick,
    modes: ModeSet,
}

/// Puts a name after the nicks, where it is one.
fn put_comer(
    comers: &mut Vec<Comer>,
    alloc: Global,
    case_map: CaseMap,
    prefixes: &Prefixes,
    has_hosts: bool,
    name: &[u8],
) -> Result<(), NoMemory>
    requires { AllMayCome case_map comers.old.items }
    ensures seats { OnOk result (seats_of_comers comers.new.items
        ≡ seats_of_comers comers.old.items ++ listed_seat prefixes.now has_hosts name.now) }
    ensures may { AllMayCome case_map comers.new.items }
{
    let listed = listed_name(prefixes, has_hosts, name);
    if !is_nick(prefixes, listed.nick) {
        return Ok(());
    }
    let new = NewNick::new(alloc, case_map, listed.nick)?;
    comers.reserve(1)?;
    comers.push_reserved(Comer {
        new,
        modes: listed.modes,
    });
    Ok(())
}

/// The nicks of a list of names, with all that they need of memory.
fn comers_of(
    alloc: Global,
    case_map: CaseMap,
    prefixes: &Prefixes,
    has_hosts: bool,
    names: &[u8],
) -> Result<Vec<Comer>, NoMemory>
    ensures seats { IfOk result (λ comers. seats_of_comers comers.items
        ≡ listed_seats prefixes.now has_hosts (words_of names.now)) }
    ensures may { IfOk result (λ comers. AllMayCome case_map comers.items) }
{
    let mut comers = Vec::new(alloc);
    for name in words(names) {
        put_comer(&mut comers, alloc, case_map, prefixes, has_hosts, name)?;
    }
    Ok(comers)
}

/// Puts a nick onto a list, or gives it its modes where it is there. It takes no memory.
fn put(list: &mut Members, comer: Comer)
    requires may { MayCome list.old.case_map comer }
    requires room { 1 ≤ list.old.room }
    ensures case_map { list.new.case_map ≡ list.old.case_map }
    ensures seats { list.new.seats
        ≡ put_seat list.old.case_map comer.new.nick comer.modes list.old.seats }
    ensures room { list.old.room ≤ list.new.room + 1 }
{
    if list.has(comer.new.nick()) {
        list.put_modes(comer.new.nick(), comer.modes);
    } else {
        list.push(comer.new, comer.modes);
    }
}

/// Puts each of the nicks, in order. It takes no memory.
fn put_all(list: &mut Members, comers: Vec<Comer>)
    requires may { AllMayCome list.old.case_map comers.items }
    requires room { length comers.items ≤ list.old.room }
    ensures case_map { list.new.case_map ≡ list.old.case_map }
    ensures seats { list.new.seats
        ≡ merged list.old.case_map (seats_of_comers comers.items) list.old.seats }
{
    for comer in comers {
        put(list, comer);
    }
}

/// Takes a list of names in.
fn take_names(
    list: &mut Members,
    alloc: Global,
    prefixes: &Prefixes,
    has_hosts: bool,
    names: &[u8],
) -> Result<(), NoMemory>
    ensures case_map { list.new.case_map ≡ list.old.case_map }
    ensures ok { OnOk result (list.new.seats ≡ merged list.old.case_map
        (listed_seats prefixes.now has_hosts (words_of names.now)) list.old.seats) }
    ensures err { OnErr result (list.new.seats ≡ list.old.seats) }
{
    let comers = comers_of(alloc, list.case_map(), prefixes, has_hosts, names)?;
    list.reserve(comers.len())?;
    put_all(list, comers);
    Ok(())
}

/// A nick that is there gets or loses a mode.
fn take_change(list: &mut Members, prefixes: &Prefixes, change: ModeChange<'_>)
    ensures case_map { list.new.case_map ≡ list.old.case_map }
    ensures seats { list.new.seats
        ≡ with_change prefixes.now list.old.case_map (change_in change.entry) list.old.seats }
{
    let Some(seat) = list.find(change.nick) else {
        return;
    };
    let modes = modes_after(prefixes, change, seat.modes);
    list.put_modes(change.nick, modes);
}

/// Each change in order. It takes no memory.
fn take_changes(list: &mut Members, prefixes: &Prefixes, changes: &[ModeChange<'_>])
    ensures case_map { list.new.case_map ≡ list.old.case_map }
    ensures seats { list.new.seats
        ≡ with_changes prefixes.now list.old.case_map (changes_in changes.now) list.old.seats }
{
    for change in changes {
        take_change(list, prefixes, *change);
    }
}

impl State {
    /// Whether names of a list have hosts.
    pub(crate) fn has_hosts_in_names(&self) -> bool
        ensures { result ≡ has_hosts_in_names (seen self.now) }
    {
        self.has_capability(b"userhost-in-names")
    }

    /// Takes in the names of a channel.
    pub(crate) fn take_names(&mut self, alloc: Global, m: &Message) -> Result<(), NoMemory>
        ensures after { OnOk result (seen self.new ≡ after_names (seen self.old) m.now) }
        ensures unchanged { OnErr result (seen self.new ≡ seen self.old) }
    {
        let Some(place) = self.place_of(param(m, 2)) else {
            return Ok(());
        };
        let has_hosts = self.has_hosts_in_names();
        let list = &mut self.channels[place].nicks;
        take_names(list, alloc, &self.features.prefixes, has_hosts, param(m, 3))
    }

    /// Takes in the modes that are set on a channel.
    pub(crate) fn take_modes(&mut self, alloc: Global, m: &Message) -> Result<(), NoMemory>
        ensures after { OnOk result (seen self.new ≡ after_mode (seen self.old) m.now) }
        ensures unchanged { OnErr result (seen self.new ≡ seen self.old) }
    {
        let Some(place) = self.place_of(param(m, 0)) else {
            return Ok(());
        };
        let changes = mode_changes(alloc, &self.features, params_from(m, 1))?;
        let list = &mut self.channels[place].nicks;
        take_changes(list, &self.features.prefixes, changes.as_slice());
        Ok(())
    }
}
