ghost use Rattle.std.specs.Option.{option_copied};
ghost use Rattle.std.specs.Prelude.{◌≡◌, ◌++◌, ◌∷◌, [], codes, map, length, nat_le, option_map};
ghost use Rattle.std.specs.Prelude.{IfOk, OnOk};
ghost use Rattle.wc_irc.specs.Autojoin.{message};
ghost use Rattle.wc_irc.specs.CommandActs.{Sends, Refuses, Speaks, SendsLine, wrong_arguments};
ghost use Rattle.wc_irc.specs.CommandActs.{no_channel, may_lead};
ghost use Rattle.wc_irc.specs.CommandActs.{on_channel, to_target, target_in, talk_at};
ghost use Rattle.wc_irc.specs.LongTexts.{action};
ghost use Rattle.wc_irc.specs.CommandActs.{reason_params, channel_in, is_joined, part_errand};
ghost use Rattle.wc_irc.specs.CommandActs.{new_topic, is_sign, is_of_channel, first_word, own_modes};
ghost use Rattle.wc_irc.specs.CommandActs.{mode_errand, said_errand, channel_errand, change_errand};
ghost use Rattle.wc_irc.specs.CommandActs.{other_errand, errand_of};
ghost use Rattle.wc_irc.specs.CommandSeen.{place_seen, errand_seen, link_seen};
ghost use Rattle.wc_irc_words.specs.TypedSeen.{meaning};
ghost use Rattle.wc_text.specs.Words.{words_of};

use crate::channel_acts::channel_at;
use crate::everyday::everyday;
use crate::long_texts::action;
use crate::place::Place;
use crate::state::State;
use std::alloc::Global;
use wc_irc_texts::joined;
use wc_irc_words::{ServerCommand, is_target};
use wc_ircmsg::is_one_line;
use wc_text::{Items, NoMemory, Text, cut_word, words};

/// What a command is for, on the buffer where it is typed.
#[derive(Drop)]
pub(crate) enum Errand<'a> {
    /// It is refused so, whether the link stands or not.
    Refuse(Text),
    /// A message is to be sent.
    Send {
        command: &'static [u8],
        params: Items<Text>,
    },
    /// A text is to be said to a target, and to be seen.
    Speak {
        target: &'a [u8],
        text: Text,
    },
    /// A text is to be noticed to a target.
    Notify {
        target: &'a [u8],
        text: &'a [u8],
    },
    /// A line is to be sent as it stands.
    Line(Text),
    /// The private buffer of a nick is to be there.
    Open(&'a [u8]),
    /// Two messages are to be sent.
    SendBoth {
        first: &'static [u8],
        params: Items<Text>,
        second: &'static [u8],
        others: Items<Text>,
    },
    /// Messages of a command are to be sent, each with parameters of its own.
    SendEach {
        command: &'static [u8],
        each: Items<Items<Text>>,
    },
}

/// The most words of `/mode` on the buffer of a channel, which is one parameter more.
const MOST_MODES: u32 = 14;

/// What takes the topic away.
const DELETE: &[u8] = b"-delete";

// ---- refusals

const WRONG_ARGUMENTS: &[u8] = b"wrong arguments: /";

pub(crate) fn wrong_arguments<'a>(alloc: Global, name: &[u8]) -> Result<Errand<'a>, NoMemory>
    ensures { IfOk result (λ errand. errand_seen errand ≡ wrong_arguments name.now) }
{
    Ok(Errand::Refuse(joined(alloc, &[WRONG_ARGUMENTS, name])?))
}

pub(crate) fn no_channel<'a>(alloc: Global) -> Result<Errand<'a>, NoMemory>
    ensures { IfOk result (λ errand. errand_seen errand ≡ no_channel) }
{
    Ok(Errand::Refuse(Text::from_slice(alloc, b"irc: no channel here")?))
}

fn no_text<'a>(alloc: Global) -> Result<Errand<'a>, NoMemory>
    ensures { IfOk result (λ errand. errand_seen errand ≡ Refuses (codes "no text here")) }
{
    Ok(Errand::Refuse(Text::from_slice(alloc, b"no text here")?))
}

// ---- messages

pub(crate) fn put_params(
    params: &mut Items<Text>,
    alloc: Global,
    others: &[&[u8]],
) -> Result<(), NoMemory>
    ensures { OnOk result (params.new ≡ params.old ++ map (λ other. other.now) others.now) }
{
    for other in others {
        params.push(Text::from_slice(alloc, other)?)?;
    }
    Ok(())
}

pub(crate) fn send<'a>(
    alloc: Global,
    command: &'static [u8],
    params: &[&[u8]],
) -> Result<Errand<'a>, NoMemory>
    ensures { IfOk result (λ errand. errand_seen errand
        ≡ Sends (message command.now (map (λ param. param.now) params.now))) }
{
    let mut own = Items::new(alloc);
    put_params(&mut own, alloc, params)?;
    Ok(Errand::Send {
        command,
        params: own,
    })
}

pub(crate) fn put_words(
    params: &mut Items<Text>,
    alloc: Global,
    text: &[u8],
) -> Result<(), NoMemory>
    ensures { OnOk result (params.new ≡ params.old ++ words_of text.now) }
{
    for word in words(text) {
        params.push(Text::from_slice(alloc, word)?)?;
    }
    Ok(())
}

/// A message with the words of a text.
fn send_words<'a>(
    alloc: Global,
    command: &'static [u8],
    text: &[u8],
) -> Result<Errand<'a>, NoMemory>
    ensures { IfOk result (λ errand. errand_seen errand
        ≡ Sends (message command.now (words_of text.now))) }
{
    let mut params = Items::new(alloc);
    put_words(&mut params, alloc, text)?;
    Ok(Errand::Send { command, params })
}

// ---- the channel or the nick of a buffer

/// Whether a channel or a nick can be sent before these parameters: where there are any, it is not
/// empty, has no blank and does not begin with `:`.
pub(crate) fn may_lead(target: &[u8], params: &[&[u8]]) -> bool
    ensures { result ≡ may_lead target.now (map (λ param. param.now) params.now) }
{
    is_one_line(target) && (params.is_empty() || is_target(target) && !target.contains(&b' '))
}

/// A message of the channel, which it names before these parameters.
pub(crate) fn on_channel<'a>(
    alloc: Global,
    command: &'static [u8],
    params: &[&[u8]],
    channel: Option<&[u8]>,
) -> Result<Errand<'a>, NoMemory>
    ensures { IfOk result (λ errand. errand_seen errand ≡ on_channel command.now
        (map (λ param. param.now) params.now) (option_copied channel.entry)) }
{
    let Some(channel) = channel else {
        return no_channel(alloc);
    };
    if !may_lead(channel, params) {
        return no_channel(alloc);
    }
    let mut own = Items::new(alloc);
    own.push(Text::from_slice(alloc, channel)?)?;
    put_params(&mut own, alloc, params)?;
    Ok(Errand::Send {
        command,
        params: own,
    })
}

/// A text to the channel or the nick.
fn to_target<'a>(
    alloc: Global,
    text: Text,
    target: Option<&'a [u8]>,
) -> Result<Errand<'a>, NoMemory>
    ensures { IfOk result (λ errand. errand_seen errand
        ≡ to_target text (option_copied target.entry)) }
{
    match target {
        Some(target) if may_lead(target, &[text.as_slice()]) => {
            Ok(Errand::Speak { target, text })
        }
        _ => no_channel(alloc),
    }
}

/// A deed, on the buffer of a channel or a nick.
fn act<'a>(alloc: Global, deed: &[u8], place: Place<'a>) -> Result<Errand<'a>, NoMemory>
    ensures { IfOk result (λ errand. errand_seen errand
        ≡ to_target (action deed.now) (target_in (place_seen place.entry))) }
{
    let text = action(alloc, deed)?;
    to_target(alloc, text, place.target())
}

/// A text that is no command, on the buffer of a channel or a nick.
fn talk<'a>(alloc: Global, text: &[u8], place: Place<'a>) -> Result<Errand<'a>, NoMemory>
    ensures { IfOk result (λ errand. errand_seen errand ≡ talk_at text.now (place_seen place.entry)) }
{
    if !place.takes_text() {
        return no_text(alloc);
    }
    let text = Text::from_slice(alloc, text)?;
    to_target(alloc, text, place.target())
}

/// Whether a channel is joined.
fn is_joined(link: Option<&State>, name: &[u8]) -> bool
    ensures { result ≡ is_joined (link_seen link.entry) name.now }
{
    match link {
        Some(state) => channel_at(state, name).is_some(),
        None => false,
    }
}

/// The PART of the channel of the buffer, with a reason where there is one.
fn part_here<'a>(alloc: Global, reason: &[u8], place: Place<'_>) -> Result<Errand<'a>, NoMemory>
    ensures { IfOk result (λ errand. errand_seen errand ≡ on_channel (codes "PART")
        (reason_params reason.now) (channel_in (place_seen place.entry))) }
{
    if reason.is_empty() {
        on_channel(alloc, b"PART", &[], place.channel())
    } else {
        on_channel(alloc, b"PART", &[reason], place.channel())
    }
}

/// The PART of a channel, with a reason where there is one.
fn part_from<'a>(alloc: Global, channel: &[u8], reason: &[u8]) -> Result<Errand<'a>, NoMemory>
    ensures { IfOk result (λ errand. errand_seen errand
        ≡ Sends (message (codes "PART") (channel.now ∷ reason_params reason.now))) }
{
    if reason.is_empty() {
        send(alloc, b"PART", &[channel])
    } else {
        send(alloc, b"PART", &[channel, reason])
    }
}

/// The PART of the channel that the first word names, where it is joined, and else of the buffer's.
fn part<'a>(
    alloc: Global,
    link: Option<&State>,
    text: &[u8],
    place: Place<'_>,
) -> Result<Errand<'a>, NoMemory>
    ensures { IfOk result (λ errand. errand_seen errand
        ≡ part_errand (link_seen link.entry) (place_seen place.entry) text.now) }
{
    let (channel, reason) = cut_word(text);
    if is_target(channel) && is_joined(link, channel) {
        part_from(alloc, channel, reason)
    } else {
        part_here(alloc, text, place)
    }
}

// ---- modes

/// Whether a text begins with `+` or `-`.
fn is_sign(text: &[u8]) -> bool
    ensures { result ≡ is_sign text.now }
{
    match text {
        [first, ..] => *first == b'+' || *first == b'-',
        [] => false,
    }
}

fn is_of_channel(place: Place<'_>, text: &[u8]) -> bool
    ensures { result ≡ is_of_channel (place_seen place.entry) text.now }
{
    match place {
        Place::Channel(_) => is_sign(text),
        Place::Private(_) | Place::Elsewhere => false,
    }
}

fn first_word(text: &[u8]) -> &[u8]
    ensures { result.now ≡ first_word (words_of text.now) }
{
    match words(text).next() {
        Some(word) => word,
        None => &[],
    }
}

/// Whether a channel can be sent before the words of a text, or alone where there are none.
fn may_lead_words(channel: &[u8], text: &[u8]) -> bool
    ensures { result ≡ may_lead channel.now (words_of text.now) }
{
    match words(text).next() {
        Some(_) => is_one_line(channel) && is_target(channel) && !channel.contains(&b' '),
        None => is_one_line(channel),
    }
}

/// MODE of the channel with the words of a text.
fn channel_modes<'a>(
    alloc: Global,
    text: &[u8],
    channel: Option<&[u8]>,
) -> Result<Errand<'a>, NoMemory>
    ensures { IfOk result (λ errand. errand_seen errand
        ≡ on_channel (codes "MODE") (words_of text.now) (option_copied channel.entry)) }
{
    let Some(channel) = channel else {
        return no_channel(alloc);
    };
    if !may_lead_words(channel, text) {
        return no_channel(alloc);
    }
    let mut params = Items::new(alloc);
    params.push(Text::from_slice(alloc, channel)?)?;
    put_words(&mut params, alloc, text)?;
    Ok(Errand::Send {
        command: b"MODE",
        params,
    })
}

/// Whether a text has this many words at most.
fn are_at_most(text: &[u8], most: u32) -> bool
    ensures { result ≡ nat_le (length (words_of text.now)) most }
{
    let mut count = 0;
    for _ in words(text) {
        if count == most {
            return false;
        }
        count += 1;
    }
    true
}

fn own_modes<'a>(alloc: Global, text: &[u8], place: Place<'_>) -> Result<Errand<'a>, NoMemory>
    ensures { IfOk result (λ errand. errand_seen errand
        ≡ own_modes (place_seen place.entry) (words_of text.now)) }
{
    if are_at_most(text, MOST_MODES) {
        channel_modes(alloc, text, place.channel())
    } else {
        wrong_arguments(alloc, b"mode")
    }
}

/// MODE with the words of a text, of the channel of the buffer where they begin with `+` or `-`.
fn mode<'a>(alloc: Global, text: &[u8], place: Place<'_>) -> Result<Errand<'a>, NoMemory>
    ensures { IfOk result (λ errand. errand_seen errand
        ≡ mode_errand (place_seen place.entry) (words_of text.now)) }
{
    if is_of_channel(place, first_word(text)) {
        own_modes(alloc, text, place)
    } else {
        send_words(alloc, b"MODE", text)
    }
}

/// The KICK of a nick, with a reason where there is one.
fn kick<'a>(
    alloc: Global,
    nick: &[u8],
    reason: &[u8],
    place: Place<'_>,
) -> Result<Errand<'a>, NoMemory>
    ensures { IfOk result (λ errand. errand_seen errand ≡ on_channel (codes "KICK")
        (nick.now ∷ reason_params reason.now) (channel_in (place_seen place.entry))) }
{
    if reason.is_empty() {
        on_channel(alloc, b"KICK", &[nick], place.channel())
    } else {
        on_channel(alloc, b"KICK", &[nick, reason], place.channel())
    }
}

/// The topic that is set, which is none by `-delete`.
fn new_topic(topic: &[u8]) -> &[u8]
    ensures { result.now ≡ new_topic topic.now }
{
    if topic == DELETE {
        return &[];
    }
    topic
}

fn rename<'a>(alloc: Global, nick: &[u8]) -> Result<Errand<'a>, NoMemory>
    ensures { IfOk result (λ errand. errand_seen errand
        ≡ Sends (message (codes "NICK") (nick.now ∷ []))) }
{
    send(alloc, b"NICK", &[nick])
}

fn set_topic<'a>(alloc: Global, topic: &[u8], place: Place<'_>) -> Result<Errand<'a>, NoMemory>
    ensures { IfOk result (λ errand. errand_seen errand ≡ on_channel (codes "TOPIC")
        (new_topic topic.now ∷ []) (channel_in (place_seen place.entry))) }
{
    on_channel(alloc, b"TOPIC", &[new_topic(topic)], place.channel())
}

fn names<'a>(alloc: Global, place: Place<'_>) -> Result<Errand<'a>, NoMemory>
    ensures { IfOk result (λ errand. errand_seen errand ≡ on_channel (codes "NAMES") []
        (channel_in (place_seen place.entry))) }
{
    on_channel(alloc, b"NAMES", &[], place.channel())
}

fn speak<'a>(alloc: Global, target: &'a [u8], text: &[u8]) -> Result<Errand<'a>, NoMemory>
    ensures { IfOk result (λ errand. errand_seen errand ≡ Speaks target.now text.now) }
{
    let text = Text::from_slice(alloc, text)?;
    Ok(Errand::Speak { target, text })
}

fn quote<'a>(alloc: Global, line: &[u8]) -> Result<Errand<'a>, NoMemory>
    ensures { IfOk result (λ errand. errand_seen errand ≡ SendsLine line.now) }
{
    Ok(Errand::Line(Text::from_slice(alloc, line)?))
}

// ---- commands

/// What a command is for that says something to others, or is to.
fn said_errand<'a>(
    alloc: Global,
    place: Place<'a>,
    command: &ServerCommand<'a>,
) -> Result<Option<Errand<'a>>, NoMemory>
    ensures { IfOk result (λ errand. option_map errand_seen errand
        ≡ said_errand (place_seen place.entry) (meaning command.now)) }
{
    match command {
        ServerCommand::Say { target, text } => Ok(Some(speak(alloc, *target, *text)?)),
        ServerCommand::Notice { target, text } => Ok(Some(Errand::Notify {
            target: *target,
            text: *text,
        })),
        ServerCommand::Query(nick) => Ok(Some(Errand::Open(*nick))),
        ServerCommand::Act(deed) => Ok(Some(act(alloc, *deed, place)?)),
        ServerCommand::Talk(text) => Ok(Some(talk(alloc, *text, place)?)),
        _ => Ok(None),
    }
}

/// What a command is for that comes into a channel, leaves it, or asks who is there.
fn channel_errand<'a>(
    alloc: Global,
    link: Option<&State>,
    place: Place<'_>,
    command: &ServerCommand<'a>,
) -> Result<Option<Errand<'a>>, NoMemory>
    ensures { IfOk result (λ errand. option_map errand_seen errand ≡ channel_errand
        (link_seen link.entry) (place_seen place.entry) (meaning command.now)) }
{
    match command {
        ServerCommand::Join(text) => Ok(Some(send_words(alloc, b"JOIN", *text)?)),
        ServerCommand::Part(text) => Ok(Some(part(alloc, link, *text, place)?)),
        ServerCommand::Names => Ok(Some(names(alloc, place)?)),
        _ => Ok(None),
    }
}

/// What a command is for that changes a channel.
fn change_errand<'a>(
    alloc: Global,
    place: Place<'_>,
    command: &ServerCommand<'a>,
) -> Result<Option<Errand<'a>>, NoMemory>
    ensures { IfOk result (λ errand. option_map errand_seen errand
        ≡ change_errand (place_seen place.entry) (meaning command.now)) }
{
    match command {
        ServerCommand::Topic(topic) => Ok(Some(set_topic(alloc, *topic, place)?)),
        ServerCommand::Kick { nick, reason } => Ok(Some(kick(alloc, *nick, *reason, place)?)),
        ServerCommand::Mode(text) => Ok(Some(mode(alloc, *text, place)?)),
        _ => Ok(None),
    }
}

/// What another command is for. None for one that is not about a buffer.
fn other_errand<'a>(
    alloc: Global,
    place: Place<'_>,
    command: &ServerCommand<'a>,
) -> Result<Option<Errand<'a>>, NoMemory>
    ensures { IfOk result (λ errand. option_map errand_seen errand
        ≡ other_errand (place_seen place.entry) (meaning command.now)) }
{
    match command {
        ServerCommand::Nick(nick) => Ok(Some(rename(alloc, *nick)?)),
        ServerCommand::Bid(word, text) => Ok(Some(everyday(alloc, place, *word, *text)?)),
        ServerCommand::Quote(line) => Ok(Some(quote(alloc, *line)?)),
        ServerCommand::Wrong(name) => Ok(Some(wrong_arguments(alloc, *name)?)),
        _ => Ok(None),
    }
}

/// What a command is for. None for one that is not about a buffer.
#[tactic(auto, unfolding(crate::specs::CommandActs::errand_of))]
pub(crate) fn errand_of<'a>(
    alloc: Global,
    link: Option<&State>,
    place: Place<'a>,
    command: &ServerCommand<'a>,
) -> Result<Option<Errand<'a>>, NoMemory>
    ensures { IfOk result (λ errand. option_map errand_seen errand
        ≡ errand_of (link_seen link.entry) (place_seen place.entry) (meaning command.now)) }
{
    if let Some(errand) = said_errand(alloc, place, command)? {
        return Ok(Some(errand));
    }
    if let Some(errand) = channel_errand(alloc, link, place, command)? {
        return Ok(Some(errand));
    }
    if let Some(errand) = change_errand(alloc, place, command)? {
        return Ok(Some(errand));
    }
    other_errand(alloc, place, command)
}
