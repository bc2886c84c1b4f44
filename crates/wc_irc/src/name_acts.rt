ghost use Rattle.std.specs.Prelude.{◌≡◌, ◌++◌, List, OnOk};
ghost use Rattle.wc_irc_texts.specs.declared.seat.Seat.{Seat};
ghost use Rattle.wc_irc.specs.NameActs.{listed_seat, listed_seats, placed, placed_all};
ghost use Rattle.wc_irc.specs.NameActs.{names_on};
ghost use Rattle.wc_irc_nicks.specs.OverlaySeen.{seats_over};
ghost use Rattle.wc_irc_texts.specs.Rows.{param};
ghost use Rattle.wc_irc_nicks.specs.Seats.{seat_of};
ghost use Rattle.wc_irc.specs.ServersSeen.{seen};
ghost use Rattle.wc_text.specs.Words.{words_of};

use crate::act::Act;
use crate::channel_acts::channel_at;
use crate::mode_acts::{Groups, put_moved};
use crate::nick_acts::add_nick;
use crate::state::State;
use std::alloc::Global;
use wc_irc_nicks::{Members, Overlay};
use wc_irc_texts::{ListedName, is_nick, listed_name, param};
use wc_ircmsg::Message;
use wc_text::{Items, NoMemory, words};

/// A nick that is listed comes, or moves where its highest mode is another one.
fn put_placed(
    acts: &mut Items<Act>,
    alloc: Global,
    groups: Groups<'_>,
    overlay: &Overlay<'_>,
    listed: ListedName<'_>,
) -> Result<(), NoMemory>
    ensures { OnOk result (acts.new ≡ acts.old
        ++ placed groups.entry.prefixes.now groups.entry.buffer.now
        (record { nick = listed.entry.nick.now; modes = listed.entry.modes })
        (seat_of overlay.now.list.now.case_map listed.entry.nick.now (seats_over overlay.now))) }
{
    match overlay.find(listed.nick) {
        Some(found) => put_moved(acts, alloc, groups, found, listed.modes),
        None => acts.push(add_nick(
            alloc,
            groups.prefixes,
            groups.buffer,
            listed.nick,
            listed.modes.highest(),
        )?),
    }
}

/// A name that is a nick, over the list as those before it leave it.
fn put_name(
    acts: &mut Items<Act>,
    alloc: Global,
    groups: Groups<'_>,
    overlay: &mut Overlay<'_>,
    has_hosts: bool,
    name: &[u8],
) -> Result<(), NoMemory>
    ensures list { overlay.new.list ≡ overlay.old.list }
    ensures acts { OnOk result ((others : List Seat) → acts.new
        ++ placed_all groups.entry.prefixes.now groups.entry.buffer.now
        overlay.old.list.now.case_map others (seats_over overlay.new)
        ≡ acts.old ++ placed_all groups.entry.prefixes.now groups.entry.buffer.now
        overlay.old.list.now.case_map (listed_seat groups.entry.prefixes.now has_hosts name.now ++ others)
        (seats_over overlay.old)) }
{
    let listed = listed_name(groups.prefixes, has_hosts, name);
    if !is_nick(groups.prefixes, listed.nick) {
        return Ok(());
    }
    put_placed(acts, alloc, groups, overlay, listed)?;
    overlay.put(alloc, listed.nick, listed.modes)
}

/// Each name in order.
fn put_names_of(
    acts: &mut Items<Act>,
    alloc: Global,
    groups: Groups<'_>,
    list: &Members,
    has_hosts: bool,
    names: &[u8],
) -> Result<(), NoMemory>
    ensures { OnOk result (acts.new ≡ acts.old ++ placed_all groups.entry.prefixes.now
        groups.entry.buffer.now list.now.case_map
        (listed_seats groups.entry.prefixes.now has_hosts (words_of names.now)) list.now.seats) }
{
    let mut overlay = Overlay::new(alloc, list);
    for name in words(names) {
        put_name(acts, alloc, groups, &mut overlay, has_hosts, name)?;
    }
    Ok(())
}

/// The names of a channel are told.
pub(crate) fn put_names_on(
    acts: &mut Items<Act>,
    alloc: Global,
    state: &State,
    m: &Message,
    buffer: &[u8],
) -> Result<(), NoMemory>
    ensures { OnOk result (acts.new ≡ acts.old ++ names_on (seen state.now) m.now buffer.now) }
{
    let Some(channel) = channel_at(state, param(m, 2)) else {
        return Ok(());
    };
    let groups = Groups {
        prefixes: &state.features.prefixes,
        buffer,
    };
    let has_hosts = state.has_hosts_in_names();
    put_names_of(acts, alloc, groups, &channel.nicks, has_hosts, param(m, 3))
}
