ghost use Rattle.std.specs.Prelude.{◌≡◌, ◌++◌, ◌∷◌, [], List, codes, IfOk, OnOk};
ghost use Rattle.wc_irc.specs.ChannelStates.{channel_at};
ghost use Rattle.wc_irc_nicks.specs.MergedSeen.{seat_in};
ghost use Rattle.wc_irc.specs.ModeActs.{place_of, modes_after, same_place, moved};
ghost use Rattle.wc_irc.specs.ModeActs.{changes_acts, mode_moves, mode_line, mode_on};
ghost use Rattle.wc_irc_texts.specs.ModeBits.{highest};
ghost use Rattle.wc_irc_texts.specs.Modes.{ModeChange as Change};
ghost use Rattle.wc_irc_texts.specs.ModesSeen.{change_in, changes_in};
ghost use Rattle.wc_irc.specs.NickActs.{add_nick, remove_nick};
ghost use Rattle.wc_irc_nicks.specs.OverlaySeen.{seats_over};
ghost use Rattle.wc_irc_texts.specs.Rows.{param, params_from};
ghost use Rattle.wc_irc.specs.ServersSeen.{seen};
ghost use Rattle.wc_irc_texts.specs.Texts.{spaced};

use crate::act::Act;
use crate::channel_acts::channel_at;
use crate::lines::{nick_tags, printed};
use crate::nick_acts::{add_nick, remove_nick};
use crate::state::State;
use std::alloc::Global;
use wc_irc_nicks::{FoundNick, Members, Overlay};
use wc_irc_texts::{ModeChange, ModeSet, joined, mode_changes, param, params_from, spaced};
use wc_ircmsg::{Message, Prefixes};
use wc_text::{Items, NoMemory, Text};

// ---- one nick

/// Whether two nicks with these highest modes are in the same group.
fn same_place(place: Option<usize>, other: Option<usize>) -> bool
    ensures { result ≡ same_place place other }
{
    match (place, other) {
        (Some(place), Some(other)) => place == other,
        (None, None) => true,
        _ => false,
    }
}

/// The buffer of a channel on which nicks move between the groups of these modes.
#[derive(Clone, Copy)]
pub(crate) struct Groups<'a> {
    pub(crate) prefixes: &'a Prefixes,
    pub(crate) buffer: &'a [u8],
}

/// A nick goes, and comes into the group of another mode.
fn put_again(
    acts: &mut Items<Act>,
    alloc: Global,
    groups: Groups<'_>,
    nick: &[u8],
    place: Option<usize>,
) -> Result<(), NoMemory>
    ensures { OnOk result (acts.new ≡ acts.old
        ++ remove_nick groups.entry.buffer.now nick.now
        ∷ add_nick groups.entry.prefixes.now groups.entry.buffer.now nick.now place ∷ []) }
{
    acts.push(remove_nick(alloc, groups.buffer, nick)?)?;
    acts.push(add_nick(alloc, groups.prefixes, groups.buffer, nick, place)?)
}

/// Moves a nick to the group of its highest mode, where that is another one.
pub(crate) fn put_moved(
    acts: &mut Items<Act>,
    alloc: Global,
    groups: Groups<'_>,
    found: FoundNick<'_>,
    modes: ModeSet,
) -> Result<(), NoMemory>
    ensures { OnOk result (acts.new ≡ acts.old ++ moved groups.entry.prefixes.now
        groups.entry.buffer.now (seat_in found.entry) (highest modes.0)) }
{
    let place = modes.highest();
    if same_place(found.modes.highest(), place) {
        return Ok(());
    }
    put_again(acts, alloc, groups, found.nick.as_slice(), place)
}

// ---- MODE

/// The place of a mode in PREFIX.
fn place_of(prefixes: &Prefixes, letter: u8) -> Option<usize>
    ensures { result ≡ place_of prefixes.now letter }
{
    prefixes
        .modes
        .as_slice()
        .iter()
        .position(|other| *other == letter)
}

/// The modes of a nick after a change.
pub(crate) fn modes_after(prefixes: &Prefixes, change: ModeChange<'_>, modes: ModeSet) -> ModeSet
    ensures { result ≡ modes_after prefixes.now (change_in change.entry) modes }
{
    match place_of(prefixes, change.letter) {
        Some(place) => modes.changed(change.adds, place),
        None => modes,
    }
}

/// A nick that is there gets or loses a mode.
fn put_change(
    acts: &mut Items<Act>,
    alloc: Global,
    groups: Groups<'_>,
    overlay: &mut Overlay<'_>,
    change: ModeChange<'_>,
) -> Result<(), NoMemory>
    ensures list { overlay.new.list ≡ overlay.old.list }
    ensures acts { OnOk result ((others : List Change) → acts.new
        ++ changes_acts groups.entry.prefixes.now groups.entry.buffer.now
        overlay.old.list.now.case_map others (seats_over overlay.new)
        ≡ acts.old ++ changes_acts groups.entry.prefixes.now groups.entry.buffer.now
        overlay.old.list.now.case_map (change_in change.entry ∷ others)
        (seats_over overlay.old)) }
{
    let Some(found) = overlay.find(change.nick) else {
        return Ok(());
    };
    let modes = modes_after(groups.prefixes, change, found.modes);
    put_moved(acts, alloc, groups, found, modes)?;
    overlay.put(alloc, change.nick, modes)
}

/// Each change in order, over the list as those before it leave it.
fn put_changes(
    acts: &mut Items<Act>,
    alloc: Global,
    groups: Groups<'_>,
    list: &Members,
    changes: &[ModeChange<'_>],
) -> Result<(), NoMemory>
    ensures { OnOk result (acts.new ≡ acts.old ++ changes_acts groups.entry.prefixes.now
        groups.entry.buffer.now list.now.case_map (changes_in changes.now) list.now.seats) }
{
    let mut overlay = Overlay::new(alloc, list);
    for change in changes {
        put_change(acts, alloc, groups, &mut overlay, *change)?;
    }
    Ok(())
}

fn put_mode_moves(
    acts: &mut Items<Act>,
    alloc: Global,
    state: &State,
    m: &Message,
    buffer: &[u8],
) -> Result<(), NoMemory>
    ensures { OnOk result (acts.new ≡ acts.old ++ mode_moves (seen state.now) m.now buffer.now
        (channel_at (seen state.now) (param 0 m.now))) }
{
    let Some(channel) = channel_at(state, param(m, 0)) else {
        return Ok(());
    };
    let changes = mode_changes(alloc, &state.features, params_from(m, 1))?;
    let groups = Groups {
        prefixes: &state.features.prefixes,
        buffer,
    };
    put_changes(acts, alloc, groups, &channel.nicks, changes.as_slice())
}

fn mode_text(alloc: Global, m: &Message) -> Result<Text, NoMemory>
    ensures { IfOk result (λ text. text ≡ codes "Mode " ++ param 0 m.now ++ codes " ["
        ++ spaced (params_from 1 m.now) ++ codes "] by " ++ m.now.nick) }
{
    let modes = spaced(alloc, params_from(m, 1))?;
    let (channel, nick) = (param(m, 0), m.nick.as_slice());
    joined(
        alloc,
        &[b"Mode ", channel, b" [", modes.as_slice(), b"] by ", nick],
    )
}

fn mode_line(alloc: Global, m: &Message, buffer: &[u8]) -> Result<Act, NoMemory>
    ensures { IfOk result (λ a. a ≡ mode_line m.now buffer.now) }
{
    let text = mode_text(alloc, m)?;
    let tags = nick_tags(alloc, b"irc_mode", m)?;
    printed(alloc, buffer, tags, b"--", text.as_slice())
}

/// Modes of a channel are set: nicks that get or lose one move to the groups of their highest.
pub(crate) fn put_mode_on(
    acts: &mut Items<Act>,
    alloc: Global,
    state: &State,
    m: &Message,
    buffer: &[u8],
) -> Result<(), NoMemory>
    ensures { OnOk result (acts.new ≡ acts.old ++ mode_on (seen state.now) m.now buffer.now) }
{
    put_mode_moves(acts, alloc, state, m, buffer)?;
    acts.push(mode_line(alloc, m, buffer)?)
}
