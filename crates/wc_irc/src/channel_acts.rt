ghost use Rattle.std.specs.Option.{option_copied};
ghost use Rattle.std.specs.Prelude.{◌≡◌, ◌++◌, codes, IfOk, OnOk, option_map};
ghost use Rattle.wc_irc.specs.Channels.{joined};
ghost use Rattle.wc_irc.specs.ChannelActs.{comes, come, join_line, join_on, join_in, own_join};
ghost use Rattle.wc_irc.specs.ChannelActs.{join_acts, gone, leave_as, part_line, part_on, kick_line};
ghost use Rattle.wc_irc.specs.ChannelActs.{kick_on, quit_line, quit_on};
ghost use Rattle.wc_irc.specs.ChannelActs.{quit_of, quit_acts};
ghost use Rattle.wc_irc.specs.ChannelStates.{channel_at, comes_in};
ghost use Rattle.wc_irc_texts.specs.Rows.{param};
ghost use Rattle.wc_irc.specs.ServersSeen.{seen};
ghost use Rattle.wc_irc.specs.TalkActs.{on_found};
ghost use Rattle.wc_irc.specs.Targets.{found};
ghost use Rattle.wc_irc_texts.specs.Texts.{reason_text, source_text};
ghost use Rattle.wc_ircmsg.specs.Utf8.{MessageIsUtf8};

use crate::act::Act;
use crate::channel::{Channel, channel_of};
use crate::lines::{full_tags, nick_tags, printed};
use crate::new_buffers::put_opened;
use crate::nick_acts::{add_nick, put_add_groups, put_emptied, remove_nick};
use crate::state::State;
use crate::targets::found;
use std::alloc::Global;
use wc_buffers::Buffers;
use wc_irc_texts::{Seat, is_nick, joined, param, reason_text, source_text};
use wc_ircmsg::Message;
use wc_text::{Items, NoMemory, Text};

/// The joined channel of a name.
#[tactic(auto, using(crate::proofs::OneChannelLemmas::shown_channel))]
pub(crate) fn channel_at<'a>(state: &'a State, name: &[u8]) -> Option<&'a Channel>
    ensures { option_map joined (option_copied result) ≡ channel_at (seen state.now) name.now }
{
    channel_of(&state.channels, state.features.case_map, name)
}

/// Whether a nick comes onto the list of a channel. The own one joins one that is not joined.
fn comes(state: &State, nick: &[u8], name: &[u8]) -> bool
    ensures { result ≡ comes (seen state.now) nick.now (channel_at (seen state.now) name.now) }
{
    match channel_at(state, name) {
        Some(channel) => channel.comes_in(&state.features.prefixes, nick),
        None => state.is_own(nick) && is_nick(&state.features.prefixes, nick),
    }
}

fn put_come(
    acts: &mut Items<Act>,
    alloc: Global,
    state: &State,
    m: &Message,
    buffer: &[u8],
) -> Result<(), NoMemory>
    ensures { OnOk result (acts.new ≡ acts.old ++ come (seen state.now) m.now buffer.now) }
{
    let nick = m.nick.as_slice();
    if !comes(state, nick, param(m, 0)) {
        return Ok(());
    }
    acts.push(add_nick(alloc, &state.features.prefixes, buffer, nick, None)?)
}

fn join_text(alloc: Global, m: &Message) -> Result<Text, NoMemory>
    ensures { IfOk result (λ text. text ≡ source_text m.now.nick m.now.user m.now.host
        ++ codes " has joined " ++ param 0 m.now) }
{
    let source = source_text(alloc, m)?;
    joined(alloc, &[source.as_slice(), b" has joined ", param(m, 0)])
}

fn join_line(alloc: Global, m: &Message, buffer: &[u8]) -> Result<Act, NoMemory>
    ensures { IfOk result (λ a. a ≡ join_line m.now buffer.now) }
{
    let text = join_text(alloc, m)?;
    let tags = full_tags(alloc, b"irc_join", m)?;
    printed(alloc, buffer, tags, b"-->", text.as_slice())
}

fn put_join_on(
    acts: &mut Items<Act>,
    alloc: Global,
    state: &State,
    m: &Message,
    buffer: &[u8],
) -> Result<(), NoMemory>
    ensures { OnOk result (acts.new ≡ acts.old ++ join_on (seen state.now) m.now buffer.now) }
{
    put_come(acts, alloc, state, m, buffer)?;
    acts.push(join_line(alloc, m, buffer)?)
}

fn put_join_in(
    acts: &mut Items<Act>,
    alloc: Global,
    state: &State,
    m: &Message,
    buffer: &[u8],
) -> Result<(), NoMemory>
    ensures { OnOk result (acts.new ≡ acts.old ++ join_in (seen state.now) m.now buffer.now) }
{
    put_add_groups(acts, alloc, &state.features.prefixes, buffer)?;
    put_join_on(acts, alloc, state, m, buffer)
}

/// The own nick joins a channel, whose buffer has this full name, where it is there.
#[tactic(auto, using(crate::proofs::MessageTextLemmas::param_text))]
fn put_own_join(
    acts: &mut Items<Act>,
    alloc: Global,
    state: &State,
    m: &Message,
    there: Option<Text>,
) -> Result<(), NoMemory>
    requires { MessageIsUtf8 m.now }
    ensures { OnOk result (acts.new ≡ acts.old ++ own_join (seen state.now) m.now there) }
{
    let buffer = put_opened(acts, alloc, state, b"channel", param(m, 0), there)?;
    put_join_in(acts, alloc, state, m, buffer.as_slice())
}

fn put_join_there(
    acts: &mut Items<Act>,
    alloc: Global,
    state: &State,
    m: &Message,
    there: Option<Text>,
) -> Result<(), NoMemory>
    ensures { OnOk result (acts.new ≡ acts.old ++ on_found there (join_on (seen state.now) m.now)) }
{
    match there {
        Some(buffer) => put_join_on(acts, alloc, state, m, buffer.as_slice()),
        None => Ok(()),
    }
}

/// A nick joins a channel. The own one opens its buffer and adds the groups.
pub(crate) fn put_join(
    acts: &mut Items<Act>,
    alloc: Global,
    buffers: &Buffers,
    state: &State,
    m: &Message,
) -> Result<(), NoMemory>
    requires { MessageIsUtf8 m.now }
    ensures { OnOk result (acts.new ≡ acts.old ++ join_acts buffers.now (seen state.now) m.now) }
{
    let there = found(alloc, buffers, state, param(m, 0))?;
    if state.is_own(m.nick.as_slice()) {
        put_own_join(acts, alloc, state, m, there)
    } else {
        put_join_there(acts, alloc, state, m, there)
    }
}

// ---- PART and KICK

fn put_gone(
    acts: &mut Items<Act>,
    alloc: Global,
    buffer: &[u8],
    seat: Option<&Seat>,
) -> Result<(), NoMemory>
    ensures { OnOk result (acts.new ≡ acts.old ++ gone buffer.now (option_copied seat.entry)) }
{
    match seat {
        Some(seat) => acts.push(remove_nick(alloc, buffer, seat.nick.as_slice())?),
        None => Ok(()),
    }
}

/// Takes a nick off the list of a channel, and where it is the own one all of them.
fn put_leave(
    acts: &mut Items<Act>,
    alloc: Global,
    state: &State,
    nick: &[u8],
    buffer: &[u8],
    name: &[u8],
) -> Result<(), NoMemory>
    ensures { OnOk result (acts.new ≡ acts.old ++ leave_as (seen state.now) nick.now buffer.now
        (channel_at (seen state.now) name.now)) }
{
    let Some(channel) = channel_at(state, name) else {
        return Ok(());
    };
    if state.is_own(nick) {
        put_emptied(acts, alloc, buffer, &channel.nicks)
    } else {
        put_gone(acts, alloc, buffer, channel.nicks.find(nick))
    }
}

fn part_text(alloc: Global, m: &Message) -> Result<Text, NoMemory>
    ensures { IfOk result (λ text. text ≡ source_text m.now.nick m.now.user m.now.host
        ++ codes " has left " ++ param 0 m.now ++ reason_text (param 1 m.now)) }
{
    let source = source_text(alloc, m)?;
    let reason = reason_text(alloc, param(m, 1))?;
    let channel = param(m, 0);
    joined(
        alloc,
        &[source.as_slice(), b" has left ", channel, reason.as_slice()],
    )
}

fn part_line(alloc: Global, m: &Message, buffer: &[u8]) -> Result<Act, NoMemory>
    ensures { IfOk result (λ a. a ≡ part_line m.now buffer.now) }
{
    let text = part_text(alloc, m)?;
    let tags = full_tags(alloc, b"irc_part", m)?;
    printed(alloc, buffer, tags, b"<--", text.as_slice())
}

/// A nick leaves a channel.
pub(crate) fn put_part_on(
    acts: &mut Items<Act>,
    alloc: Global,
    state: &State,
    m: &Message,
    buffer: &[u8],
) -> Result<(), NoMemory>
    ensures { OnOk result (acts.new ≡ acts.old ++ part_on (seen state.now) m.now buffer.now) }
{
    put_leave(acts, alloc, state, m.nick.as_slice(), buffer, param(m, 0))?;
    acts.push(part_line(alloc, m, buffer)?)
}

fn kick_text(alloc: Global, m: &Message) -> Result<Text, NoMemory>
    ensures { IfOk result (λ text. text ≡ m.now.nick ++ codes " has kicked " ++ param 1 m.now
        ++ reason_text (param 2 m.now)) }
{
    let reason = reason_text(alloc, param(m, 2))?;
    let (nick, kicked) = (m.nick.as_slice(), param(m, 1));
    joined(alloc, &[nick, b" has kicked ", kicked, reason.as_slice()])
}

fn kick_line(alloc: Global, m: &Message, buffer: &[u8]) -> Result<Act, NoMemory>
    ensures { IfOk result (λ a. a ≡ kick_line m.now buffer.now) }
{
    let text = kick_text(alloc, m)?;
    let tags = nick_tags(alloc, b"irc_kick", m)?;
    printed(alloc, buffer, tags, b"<--", text.as_slice())
}

/// A nick is kicked from a channel.
pub(crate) fn put_kick_on(
    acts: &mut Items<Act>,
    alloc: Global,
    state: &State,
    m: &Message,
    buffer: &[u8],
) -> Result<(), NoMemory>
    ensures { OnOk result (acts.new ≡ acts.old ++ kick_on (seen state.now) m.now buffer.now) }
{
    put_leave(acts, alloc, state, param(m, 1), buffer, param(m, 0))?;
    acts.push(kick_line(alloc, m, buffer)?)
}

// ---- QUIT

fn quit_text(alloc: Global, m: &Message) -> Result<Text, NoMemory>
    ensures { IfOk result (λ text. text ≡ source_text m.now.nick m.now.user m.now.host
        ++ codes " has quit" ++ reason_text (param 0 m.now)) }
{
    let source = source_text(alloc, m)?;
    let reason = reason_text(alloc, param(m, 0))?;
    joined(alloc, &[source.as_slice(), b" has quit", reason.as_slice()])
}

fn quit_line(alloc: Global, m: &Message, buffer: &[u8]) -> Result<Act, NoMemory>
    ensures { IfOk result (λ a. a ≡ quit_line m.now buffer.now) }
{
    let text = quit_text(alloc, m)?;
    let tags = full_tags(alloc, b"irc_quit", m)?;
    printed(alloc, buffer, tags, b"<--", text.as_slice())
}

fn put_quit_on(
    acts: &mut Items<Act>,
    alloc: Global,
    m: &Message,
    seat: &Seat,
    buffer: &[u8],
) -> Result<(), NoMemory>
    ensures { OnOk result (acts.new ≡ acts.old ++ quit_on m.now seat.now buffer.now) }
{
    acts.push(remove_nick(alloc, buffer, seat.nick.as_slice())?)?;
    acts.push(quit_line(alloc, m, buffer)?)
}

fn put_quit_of(
    acts: &mut Items<Act>,
    alloc: Global,
    buffers: &Buffers,
    state: &State,
    m: &Message,
    channel: &Channel,
) -> Result<(), NoMemory>
    ensures { OnOk result (acts.new ≡ acts.old
        ++ quit_of buffers.now (seen state.now) m.now (joined channel.now)) }
{
    let Some(seat) = channel.nicks.find(m.nick.as_slice()) else {
        return Ok(());
    };
    match found(alloc, buffers, state, channel.name.as_slice())? {
        Some(buffer) => put_quit_on(acts, alloc, m, seat, buffer.as_slice()),
        None => Ok(()),
    }
}

/// A nick leaves each channel that has it.
pub(crate) fn put_quit(
    acts: &mut Items<Act>,
    alloc: Global,
    buffers: &Buffers,
    state: &State,
    m: &Message,
) -> Result<(), NoMemory>
    ensures { OnOk result (acts.new ≡ acts.old ++ quit_acts buffers.now (seen state.now) m.now) }
{
    for channel in state.channels.as_slice() {
        put_quit_of(acts, alloc, buffers, state, m, channel)?;
    }
    Ok(())
}
