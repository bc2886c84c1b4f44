ghost use Rattle.std.specs.Prelude.{◌≡◌, ◌++◌, ◌∷◌, [], true, false, codes, IfOk, OnOk};
ghost use Rattle.std.specs.Str.{IsUtf8};
ghost use Rattle.wc_ircmsg.specs.Utf8.{MessageIsUtf8};
ghost use Rattle.wc_irc_texts.specs.Groups.{sign_at};
ghost use Rattle.wc_irc_texts.specs.ModeBits.{highest};
ghost use Rattle.wc_irc.specs.ServersSeen.{seen};
ghost use Rattle.wc_irc.specs.ChannelStates.{channel_at};
ghost use Rattle.wc_irc.specs.Lines.{said, nick_tag, host_tag};
ghost use Rattle.wc_irc_texts.specs.Rows.{param};
ghost use Rattle.wc_irc_texts.specs.Speech.{calls_nick};
ghost use Rattle.wc_irc.specs.SpeechActs.{without_space, seat_in, sign_of, sign_or, shown_nick, talk_line};
ghost use Rattle.wc_irc.specs.SpeechActs.{notify_tag, talk_tags, on_private, heard_privately};
ghost use Rattle.wc_irc.specs.SpeechActs.{talk_acts, privmsg_acts};
ghost use Rattle.wc_irc.specs.TalkActs.{on_server, on_found, aimed};
ghost use Rattle.wc_irc.specs.Targets.{server_buffer, found};
ghost use Rattle.wc_irc_texts.specs.Statuses.{status_sign};
ghost use Rattle.wc_irc_texts.specs.Texts.{plain};

use crate::act::Act;
use crate::channel_acts::channel_at;
use crate::lines::{one_tag, put_host_tag, put_nick_tag, put_tag, said};
use crate::new_buffers::put_opened;
use crate::private_buffers::opens_too_many;
use crate::state::State;
use crate::talk::{Talk, talk_heard};
use crate::talk_acts::{aimed, put_on_server};
use crate::targets::{found, server_buffer};
use std::alloc::Global;
use wc_buffers::Buffers;
use wc_irc_texts::{ModeSet, calls_nick, is_channel, joined, param, plain, sign_at, status_sign};
use wc_ircmsg::{Message, Prefixes};
use wc_text::{Items, NoMemory, Text};

fn without_space(sign: &[u8]) -> &[u8]
    ensures { result.now ≡ without_space sign.now }
{
    match sign {
        [b' ', ..] => &[],
        _ => sign,
    }
}

/// The character that shows the highest of some modes, and nothing for none.
fn sign_of(prefixes: &Prefixes, modes: ModeSet) -> &[u8]
    ensures { result.now ≡ without_space (sign_at prefixes.now (highest modes.0)) }
{
    without_space(sign_at(prefixes, modes.highest()))
}

/// The sign of a nick on a channel, and nothing where it is not there.
fn sign_in<'a>(state: &'a State, target: &[u8], nick: &[u8]) -> &'a [u8]
    ensures { result.now ≡ sign_of state.now.features.prefixes
        (seat_in nick.now (channel_at (seen state.now) target.now)) }
{
    let Some(channel) = channel_at(state, target) else {
        return &[];
    };
    match channel.nicks.find(nick) {
        Some(seat) => sign_of(&state.features.prefixes, seat.modes),
        None => &[],
    }
}

/// One sign in the place of another.
fn sign_or<'a>(status: &'a [u8], sign: &'a [u8]) -> &'a [u8]
    ensures { result.now ≡ sign_or status.now sign.now }
{
    match status {
        [] => sign,
        _ => status,
    }
}

/// The sign that is shown before a nick: that of the target, where it tells some nicks by one, and
/// else that of the nick.
fn shown_sign<'a>(state: &'a State, target: &'a [u8], nick: &[u8]) -> &'a [u8]
    ensures { result.now ≡ sign_or (status_sign state.now.features target.now)
        (sign_of state.now.features.prefixes
        (seat_in nick.now (channel_at (seen state.now) target.now))) }
{
    sign_or(
        status_sign(&state.features, target),
        sign_in(state, target, nick),
    )
}

/// A nick as the line of a channel shows it.
fn shown_nick(alloc: Global, state: &State, target: &[u8], nick: &[u8]) -> Result<Text, NoMemory>
    ensures { IfOk result (λ shown. shown ≡ shown_nick (seen state.now) target.now nick.now) }
{
    joined(alloc, &[shown_sign(state, target, nick), nick])
}

/// Whether a text calls the user by name, its formatting bytes aside.
fn calls_user(alloc: Global, state: &State, text: &[u8]) -> Result<bool, NoMemory>
    ensures { IfOk result (λ calls. calls ≡ calls_nick state.now.nick (plain text.now)) }
{
    let bare = plain(alloc, text)?;
    Ok(calls_nick(state.nick.as_slice(), bare.as_slice()))
}

/// Who says or does something on which target.
#[derive(Clone, Copy)]
pub(crate) struct Voice<'a> {
    pub(crate) target: &'a [u8],
    pub(crate) nick: &'a [u8],
    pub(crate) does: bool,
    pub(crate) text: &'a [u8],
}

fn done_text(alloc: Global, nick: &[u8], deed: &[u8]) -> Result<Text, NoMemory>
    ensures { IfOk result (λ text. text ≡ nick.now ++ codes " " ++ deed.now) }
{
    joined(alloc, &[nick, b" ", deed])
}

fn done_line(
    alloc: Global,
    voice: Voice<'_>,
    tags: Items<Text>,
    buffer: &[u8],
    calls: bool,
) -> Result<Act, NoMemory>
    ensures { IfOk result (λ a. a ≡ said buffer.now tags (codes " *")
        (voice.entry.nick.now ++ codes " " ++ voice.entry.text.now) calls) }
{
    let text = done_text(alloc, voice.nick, voice.text)?;
    said(alloc, buffer, tags, b" *", text.as_slice(), calls)
}

fn said_line(
    alloc: Global,
    state: &State,
    voice: Voice<'_>,
    tags: Items<Text>,
    buffer: &[u8],
    calls: bool,
) -> Result<Act, NoMemory>
    ensures { IfOk result (λ a. a ≡ said buffer.now tags
        (shown_nick (seen state.now) voice.entry.target.now voice.entry.nick.now) voice.entry.text.now calls) }
{
    let prefix = shown_nick(alloc, state, voice.target, voice.nick)?;
    said(alloc, buffer, tags, prefix.as_slice(), voice.text, calls)
}

/// The line of what one says or does.
pub(crate) fn talk_line(
    alloc: Global,
    state: &State,
    voice: Voice<'_>,
    tags: Items<Text>,
    buffer: &[u8],
) -> Result<Act, NoMemory>
    ensures { IfOk result (λ a. a ≡ talk_line (seen state.now) voice.entry.target.now voice.entry.nick.now
        voice.entry.does voice.entry.text.now tags buffer.now) }
{
    let calls = calls_user(alloc, state, voice.text)?;
    if voice.does {
        done_line(alloc, voice, tags, buffer, calls)
    } else {
        said_line(alloc, state, voice, tags, buffer, calls)
    }
}

// ---- tags

fn notify_tag(state: &State, target: &[u8]) -> &'static [u8]
    ensures { result.now ≡ notify_tag (seen state.now) target.now }
{
    if is_channel(state.features.chan_types.as_slice(), aimed(state, target)) {
        b"notify_message"
    } else {
        b"notify_private"
    }
}

/// The tags of who says something, after those of what it is.
fn put_who(
    tags: &mut Items<Text>,
    alloc: Global,
    state: &State,
    m: &Message,
) -> Result<(), NoMemory>
    ensures { OnOk result (tags.new ≡ tags.old ++ notify_tag (seen state.now) (param 0 m.now)
        ∷ nick_tag m.now.nick ∷ host_tag m.now ∷ []) }
{
    put_tag(tags, alloc, notify_tag(state, param(m, 0)))?;
    put_nick_tag(tags, alloc, m.nick.as_slice())?;
    put_host_tag(tags, alloc, m)
}

fn said_tags(alloc: Global, state: &State, m: &Message) -> Result<Items<Text>, NoMemory>
    ensures { IfOk result (λ tags. tags ≡ talk_tags (seen state.now) m.now false) }
{
    let mut tags = one_tag(alloc, b"irc_privmsg")?;
    put_who(&mut tags, alloc, state, m)?;
    Ok(tags)
}

fn done_tags(alloc: Global, state: &State, m: &Message) -> Result<Items<Text>, NoMemory>
    ensures { IfOk result (λ tags. tags ≡ talk_tags (seen state.now) m.now true) }
{
    let mut tags = one_tag(alloc, b"irc_privmsg")?;
    put_tag(&mut tags, alloc, b"irc_action")?;
    put_who(&mut tags, alloc, state, m)?;
    Ok(tags)
}

fn talk_tags(alloc: Global, state: &State, m: &Message, does: bool) -> Result<Items<Text>, NoMemory>
    ensures { IfOk result (λ tags. tags ≡ talk_tags (seen state.now) m.now does) }
{
    if does {
        done_tags(alloc, state, m)
    } else {
        said_tags(alloc, state, m)
    }
}

// ---- PRIVMSG

fn put_talk_line(
    acts: &mut Items<Act>,
    alloc: Global,
    state: &State,
    m: &Message,
    voice: Voice<'_>,
    buffer: &[u8],
) -> Result<(), NoMemory>
    ensures { OnOk result (acts.new ≡ acts.old ++ talk_line (seen state.now)
        voice.entry.target.now voice.entry.nick.now voice.entry.does voice.entry.text.now
        (talk_tags (seen state.now) m.now voice.entry.does) buffer.now ∷ []) }
{
    let tags = talk_tags(alloc, state, m, voice.does)?;
    acts.push(talk_line(alloc, state, voice, tags, buffer)?)
}

/// On the channel, where it has a buffer.
fn put_on_channel(
    acts: &mut Items<Act>,
    alloc: Global,
    buffers: &Buffers,
    state: &State,
    m: &Message,
    voice: Voice<'_>,
) -> Result<(), NoMemory>
    ensures { OnOk result (acts.new ≡ acts.old
        ++ on_found (found buffers.now (seen state.now)
        (aimed (seen state.now) voice.entry.target.now)) (λ buffer. talk_line (seen state.now) voice.entry.target.now voice.entry.nick.now
        voice.entry.does voice.entry.text.now
        (talk_tags (seen state.now) m.now voice.entry.does) buffer ∷ [])) }
{
    match found(alloc, buffers, state, aimed(state, voice.target))? {
        Some(buffer) => put_talk_line(acts, alloc, state, m, voice, buffer.as_slice()),
        None => Ok(()),
    }
}

/// On the private buffer of the nick, which is opened where it is not there.
fn put_on_private(
    acts: &mut Items<Act>,
    alloc: Global,
    state: &State,
    m: &Message,
    voice: Voice<'_>,
    there: Option<Text>,
) -> Result<(), NoMemory>
    requires { IsUtf8 voice.nick.now }
    ensures { OnOk result (acts.new ≡ acts.old ++ on_private (seen state.now)
        voice.entry.nick.now (talk_line (seen state.now) voice.entry.target.now
        voice.entry.nick.now voice.entry.does voice.entry.text.now
        (talk_tags (seen state.now) m.now voice.entry.does)) there) }
{
    let buffer = put_opened(acts, alloc, state, b"private", voice.nick, there)?;
    put_talk_line(acts, alloc, state, m, voice, buffer.as_slice())
}

/// On the server's own buffer, where what is said privately gets none.
fn put_instead(
    acts: &mut Items<Act>,
    alloc: Global,
    state: &State,
    m: &Message,
    voice: Voice<'_>,
) -> Result<(), NoMemory>
    ensures { OnOk result (acts.new ≡ acts.old ++ talk_line (seen state.now)
        voice.entry.target.now voice.entry.nick.now voice.entry.does voice.entry.text.now
        (talk_tags (seen state.now) m.now voice.entry.does)
        (server_buffer state.now.name) ∷ []) }
{
    let buffer = server_buffer(alloc, state.name.as_slice())?;
    put_talk_line(acts, alloc, state, m, voice, buffer.as_slice())
}

/// On the private buffer of the nick, or on the server's own where it would be one too many.
fn put_privately(
    acts: &mut Items<Act>,
    alloc: Global,
    buffers: &Buffers,
    state: &State,
    m: &Message,
    voice: Voice<'_>,
) -> Result<(), NoMemory>
    requires { IsUtf8 voice.nick.now }
    ensures { OnOk result (acts.new ≡ acts.old ++ heard_privately buffers.now (seen state.now)
        voice.entry.nick.now (talk_line (seen state.now) voice.entry.target.now
        voice.entry.nick.now voice.entry.does voice.entry.text.now
        (talk_tags (seen state.now) m.now voice.entry.does))
        (found buffers.now (seen state.now) voice.entry.nick.now)) }
{
    let there = found(alloc, buffers, state, voice.nick)?;
    if opens_too_many(buffers, state, &there) {
        drop(there);
        return put_instead(acts, alloc, state, m, voice);
    }
    put_on_private(acts, alloc, state, m, voice, there)
}

fn put_talk(
    acts: &mut Items<Act>,
    alloc: Global,
    buffers: &Buffers,
    state: &State,
    m: &Message,
    does: bool,
    text: &[u8],
) -> Result<(), NoMemory>
    requires { MessageIsUtf8 m.now }
    ensures { OnOk result (acts.new
        ≡ acts.old ++ talk_acts buffers.now (seen state.now) m.now does text.now) }
{
    let voice = Voice {
        target: param(m, 0),
        nick: m.nick.as_slice(),
        does,
        text,
    };
    if is_channel(
        state.features.chan_types.as_slice(),
        aimed(state, voice.target),
    ) {
        put_on_channel(acts, alloc, buffers, state, m, voice)
    } else {
        put_privately(acts, alloc, buffers, state, m, voice)
    }
}

fn request_text(alloc: Global, m: &Message, word: &[u8]) -> Result<Text, NoMemory>
    ensures { IfOk result (λ text. text
        ≡ codes "CTCP " ++ word.now ++ codes " from " ++ m.now.nick) }
{
    joined(alloc, &[b"CTCP ", word, b" from ", m.nick.as_slice()])
}

fn put_request(
    acts: &mut Items<Act>,
    alloc: Global,
    state: &State,
    m: &Message,
    word: &[u8],
) -> Result<(), NoMemory>
    ensures { OnOk result (acts.new ≡ acts.old ++ on_server (seen state.now) (codes "irc_ctcp")
        (codes "--") (codes "CTCP " ++ word.now ++ codes " from " ++ m.now.nick) ∷ []) }
{
    let text = request_text(alloc, m, word)?;
    put_on_server(acts, alloc, state, b"irc_ctcp", b"--", text.as_slice())
}

pub(crate) fn put_privmsg(
    acts: &mut Items<Act>,
    alloc: Global,
    buffers: &Buffers,
    state: &State,
    m: &Message,
) -> Result<(), NoMemory>
    requires { MessageIsUtf8 m.now }
    ensures { OnOk result (acts.new ≡ acts.old ++ privmsg_acts buffers.now (seen state.now) m.now) }
{
    match talk_heard(m) {
        Talk::Says(text) => put_talk(acts, alloc, buffers, state, m, false, text),
        Talk::Does(deed) => put_talk(acts, alloc, buffers, state, m, true, deed),
        Talk::Requests(word) => put_request(acts, alloc, state, m, word),
    }
}
