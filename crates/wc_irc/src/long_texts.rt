//! What is sent of a text to other users, and printed of it: all of it, in as many lines as it needs.

ghost use Rattle.std.specs.Prelude.{◌≡◌, ◌++◌, ◌∷◌, [], true, false, codes, IfOk, OnOk};
ghost use Rattle.std.specs.Str.{IsUtf8};
ghost use Rattle.wc_ircmsg.specs.Written.{IsWritable};
ghost use Rattle.wc_irc.specs.CommandSeen.{AreSendable, IsSendable};
ghost use Rattle.wc_irc.specs.LongTexts.{mask_room, room_for, text_to, speech, action, wrapped};
ghost use Rattle.wc_irc.specs.LongTexts.{sent_parts, long_said, long_done, long_speech, speech_acts};
ghost use Rattle.wc_irc.specs.LongTexts.{long_notice, notify_acts};
ghost use Rattle.wc_irc.specs.OwnSpeech.{own_texts, shown_parts};
ghost use Rattle.wc_irc.specs.SentLines.{sent_message};
ghost use Rattle.wc_irc.specs.ServersSeen.{seen};
ghost use Rattle.wc_irc.specs.SpeechActs.{talk_of};
ghost use Rattle.wc_irc.specs.SpeechSeen.{talk_seen};

use crate::act::Act;
use crate::link_acts::user_word;
use crate::own_speech::{put_own_deeds, put_own_speech, put_shown_parts};
use crate::sent_lines::{LONGEST_LINE, message_line, put_too_long};
use crate::state::State;
use crate::talk::{Talk, room_after, talk_of};
use std::alloc::Global;
use wc_buffers::Buffers;
use wc_irc_texts::{joined, parts};
use wc_text::{Items, NoMemory, Text};

const PRIVMSG: &[u8] = b"PRIVMSG";

const NOTICE: &[u8] = b"NOTICE";

/// What the line `:N!M C T :` leaves of the longest one beside N, M, C and T.
const MOST_ROOM: usize = LONGEST_LINE - 6;

/// The same where M is a user name after one sign, and a host of 63 bytes.
const MOST_ROOM_UNTOLD: usize = MOST_ROOM - 65;

/// What is around the words of a deed.
const AROUND_DEED: usize = 9;

/// The most bytes of a character.
const LEAST_ROOM: usize = 4;

// ---- how much of a text reaches others in one line

fn mask_room(alloc: Global, state: &State) -> Result<usize, NoMemory>
    ensures { IfOk result (λ room. room ≡ mask_room (seen state.now)) }
{
    let mask = state.mask.as_slice();
    if !mask.is_empty() {
        return Ok(room_after(MOST_ROOM, mask));
    }
    let user = user_word(alloc, state.login.user.as_slice())?;
    Ok(room_after(MOST_ROOM_UNTOLD, user.as_slice()))
}

/// How many bytes of a text reach others in one line.
#[tactic(auto, unfolding(crate::specs::LongTexts::room_for))]
fn room_for(alloc: Global, state: &State, command: &[u8], target: &[u8]) -> Result<usize, NoMemory>
    ensures { IfOk result (λ room. room ≡ room_for (seen state.now) command.now target.now) }
{
    let room = mask_room(alloc, state)?;
    let room = room_after(room, state.nick.as_slice());
    Ok(room_after(room_after(room, command), target))
}

// ---- a text as it is sent

/// The request between clients that tells what is done.
pub(crate) fn action(alloc: Global, deed: &[u8]) -> Result<Text, NoMemory>
    ensures { IfOk result (λ text. text ≡ action deed.now) }
{
    joined(alloc, &[b"\x01ACTION ", deed, b"\x01"])
}

/// The line of a text to a target.
fn text_act(alloc: Global, command: &[u8], target: &[u8], text: &[u8]) -> Result<Act, NoMemory>
    requires { IsWritable (text_to command.now target.now text.now) }
    ensures { IfOk result (λ a. a ≡ sent_message (text_to command.now target.now text.now)) }
{
    let mut params = Items::new(alloc);
    params.push(Text::from_slice(alloc, target)?)?;
    params.push(Text::from_slice(alloc, text)?)?;
    Ok(Act::Send(message_line(alloc, command, params)?))
}

/// The line of a part of something that is said or done.
fn part_act(
    alloc: Global,
    command: &[u8],
    target: &[u8],
    does: bool,
    part: &[u8],
) -> Result<Act, NoMemory>
    requires { IsWritable (text_to command.now target.now (wrapped does part.now)) }
    ensures { IfOk result (λ a. a
        ≡ sent_message (text_to command.now target.now (wrapped does part.now))) }
{
    if !does {
        return text_act(alloc, command, target, part);
    }
    let deed = action(alloc, part)?;
    text_act(alloc, command, target, deed.as_slice())
}

fn put_parts(
    acts: &mut Items<Act>,
    alloc: Global,
    command: &[u8],
    target: &[u8],
    does: bool,
    texts: &[Text],
) -> Result<(), NoMemory>
    requires { AreSendable command.now target.now does texts.now }
    ensures { OnOk result (acts.new
        ≡ acts.old ++ sent_parts command.now target.now does texts.now) }
{
    for text in texts {
        acts.push(part_act(alloc, command, target, does, text.as_slice())?)?;
    }
    Ok(())
}

// ---- texts that do not fit into one line

/// Something that is said, in parts.
fn put_long_said(
    acts: &mut Items<Act>,
    alloc: Global,
    buffers: &Buffers,
    state: &State,
    target: &[u8],
    room: usize,
    text: &[u8],
) -> Result<(), NoMemory>
    requires { IsSendable target.now text.now }
    ensures { OnOk result (acts.new ≡ acts.old
        ++ long_said buffers.now (seen state.now) target.now room text.now) }
{
    if room < LEAST_ROOM {
        return put_too_long(acts, alloc, buffers, PRIVMSG);
    }
    let texts = parts(alloc, text, room)?;
    put_parts(acts, alloc, PRIVMSG, target, false, texts.as_slice())?;
    put_shown_parts(acts, alloc, buffers, state, target, text, texts.as_slice())
}

/// Something that is done, in parts.
fn put_long_done(
    acts: &mut Items<Act>,
    alloc: Global,
    buffers: &Buffers,
    state: &State,
    target: &[u8],
    room: usize,
    deed: &[u8],
) -> Result<(), NoMemory>
    requires { IsSendable target.now deed.now }
    ensures { OnOk result (acts.new ≡ acts.old
        ++ long_done buffers.now (seen state.now) target.now room deed.now) }
{
    if room < LEAST_ROOM {
        return put_too_long(acts, alloc, buffers, PRIVMSG);
    }
    let texts = parts(alloc, deed, room)?;
    put_parts(acts, alloc, PRIVMSG, target, true, texts.as_slice())?;
    put_own_deeds(acts, alloc, buffers, state, target, texts.as_slice())
}

fn put_long_speech(
    acts: &mut Items<Act>,
    alloc: Global,
    buffers: &Buffers,
    state: &State,
    target: &[u8],
    room: usize,
    text: &[u8],
) -> Result<(), NoMemory>
    requires { IsSendable target.now text.now }
    ensures { OnOk result (acts.new ≡ acts.old
        ++ long_speech buffers.now (seen state.now) target.now room (talk_of text.now)) }
{
    match talk_of(text) {
        Talk::Says(text) => put_long_said(acts, alloc, buffers, state, target, room, text),
        Talk::Does(deed) => {
            let room = room.saturating_sub(AROUND_DEED);
            put_long_done(acts, alloc, buffers, state, target, room, deed)
        }
        Talk::Requests(_) => put_too_long(acts, alloc, buffers, PRIVMSG),
    }
}

/// Something that is said to a target: its lines to the server, and then those that are printed.
pub(crate) fn put_speech(
    acts: &mut Items<Act>,
    alloc: Global,
    buffers: &Buffers,
    state: &State,
    target: &[u8],
    text: &[u8],
) -> Result<(), NoMemory>
    requires { IsSendable target.now text.now }
    ensures { OnOk result (acts.new ≡ acts.old
        ++ speech_acts buffers.now (seen state.now) target.now text.now) }
{
    let room = room_for(alloc, state, PRIVMSG, target)?;
    if room < text.len() {
        return put_long_speech(acts, alloc, buffers, state, target, room, text);
    }
    acts.push(text_act(alloc, PRIVMSG, target, text)?)?;
    put_own_speech(acts, alloc, buffers, state, target, text)
}

/// A notice in parts.
fn put_long_notice(
    acts: &mut Items<Act>,
    alloc: Global,
    buffers: &Buffers,
    target: &[u8],
    room: usize,
    text: &[u8],
) -> Result<(), NoMemory>
    requires { IsSendable target.now text.now }
    ensures { OnOk result (acts.new ≡ acts.old ++ long_notice buffers.now target.now room text.now) }
{
    if room < LEAST_ROOM {
        return put_too_long(acts, alloc, buffers, NOTICE);
    }
    let texts = parts(alloc, text, room)?;
    put_parts(acts, alloc, NOTICE, target, false, texts.as_slice())
}

/// What is noticed to a target, which is not printed.
pub(crate) fn put_notify(
    acts: &mut Items<Act>,
    alloc: Global,
    buffers: &Buffers,
    state: &State,
    target: &[u8],
    text: &[u8],
) -> Result<(), NoMemory>
    requires { IsSendable target.now text.now }
    ensures { OnOk result (acts.new ≡ acts.old
        ++ notify_acts buffers.now (seen state.now) target.now text.now) }
{
    let room = room_for(alloc, state, NOTICE, target)?;
    if room < text.len() {
        return put_long_notice(acts, alloc, buffers, target, room, text);
    }
    acts.push(text_act(alloc, NOTICE, target, text)?)
}
