ghost use Rattle.std.specs.Prelude.{◌≡◌, ◌++◌, ◌∷◌, [], true, false, IfOk, OnOk};
ghost use Rattle.std.specs.Str.{IsUtf8};
ghost use Rattle.wc_irc.specs.OwnSpeech.{own_tags, own_line, own_talk, acts_of_own, own_speech};
ghost use Rattle.wc_irc.specs.OwnSpeech.{is_secret, hides, shown_text};
ghost use Rattle.wc_irc.specs.OwnSpeech.{own_lines, private_lines, own_texts, shown_parts};
ghost use Rattle.wc_irc.specs.ServersSeen.{seen};
ghost use Rattle.wc_irc.specs.SpeechActs.{on_private, talk_of};
ghost use Rattle.wc_irc.specs.SpeechSeen.{talk_seen};
ghost use Rattle.wc_irc.specs.TalkActs.{on_found, aimed};
ghost use Rattle.wc_irc.specs.Targets.{found};

use crate::act::Act;
use crate::lines::{one_tag, put_nick_tag, put_tag};
use crate::new_buffers::put_opened;
use crate::speech_acts::{Voice, talk_line};
use crate::state::State;
use crate::talk::{Talk, talk_of};
use crate::talk_acts::aimed;
use crate::targets::found;
use std::alloc::Global;
use wc_buffers::Buffers;
use wc_irc_texts::{is_channel, joined};
use wc_text::{Items, NoMemory, Text, cut_word};

/// The tags of an own line, which tells of nothing new and calls nobody.
fn own_tags(alloc: Global, state: &State) -> Result<Items<Text>, NoMemory>
    ensures { IfOk result (λ tags. tags ≡ own_tags (seen state.now)) }
{
    let mut tags = one_tag(alloc, b"irc_privmsg")?;
    put_tag(&mut tags, alloc, b"notify_none")?;
    put_tag(&mut tags, alloc, b"self_msg")?;
    put_tag(&mut tags, alloc, b"no_highlight")?;
    put_nick_tag(&mut tags, alloc, state.nick.as_slice())?;
    Ok(tags)
}

/// Something that the user says or does.
#[derive(Clone, Copy)]
struct Own<'a> {
    target: &'a [u8],
    does: bool,
    text: &'a [u8],
}

fn own_line(alloc: Global, state: &State, own: Own<'_>, buffer: &[u8]) -> Result<Act, NoMemory>
    ensures { IfOk result (λ a. a ≡ own_line (seen state.now) own.entry.target.now own.entry.does
        own.entry.text.now buffer.now) }
{
    let voice = Voice {
        target: own.target,
        nick: state.nick.as_slice(),
        does: own.does,
        text: own.text,
    };
    let tags = own_tags(alloc, state)?;
    talk_line(alloc, state, voice, tags, buffer)
}

/// On the channel, where it has a buffer.
fn put_on_channel(
    acts: &mut Items<Act>,
    alloc: Global,
    buffers: &Buffers,
    state: &State,
    own: Own<'_>,
) -> Result<(), NoMemory>
    ensures { OnOk result (acts.new ≡ acts.old
        ++ on_found (found buffers.now (seen state.now)
        (aimed (seen state.now) own.entry.target.now)) (λ buffer. own_line (seen state.now) own.entry.target.now own.entry.does
        own.entry.text.now buffer ∷ [])) }
{
    match found(alloc, buffers, state, aimed(state, own.target))? {
        Some(buffer) => acts.push(own_line(alloc, state, own, buffer.as_slice())?),
        None => Ok(()),
    }
}

/// On the private buffer of the target, which is opened where it is not there.
fn put_on_private(
    acts: &mut Items<Act>,
    alloc: Global,
    buffers: &Buffers,
    state: &State,
    own: Own<'_>,
) -> Result<(), NoMemory>
    requires { IsUtf8 own.target.now }
    ensures { OnOk result (acts.new ≡ acts.old ++ on_private (seen state.now)
        own.entry.target.now (own_line (seen state.now) own.entry.target.now own.entry.does
        own.entry.text.now) (found buffers.now (seen state.now) own.entry.target.now)) }
{
    let there = found(alloc, buffers, state, own.target)?;
    let buffer = put_opened(acts, alloc, state, b"private", own.target, there)?;
    acts.push(own_line(alloc, state, own, buffer.as_slice())?)
}

fn put_own_talk(
    acts: &mut Items<Act>,
    alloc: Global,
    buffers: &Buffers,
    state: &State,
    own: Own<'_>,
) -> Result<(), NoMemory>
    requires { IsUtf8 own.target.now }
    ensures { OnOk result (acts.new ≡ acts.old ++ own_talk buffers.now (seen state.now)
        own.entry.target.now own.entry.does own.entry.text.now) }
{
    if is_channel(
        state.features.chan_types.as_slice(),
        aimed(state, own.target),
    ) {
        put_on_channel(acts, alloc, buffers, state, own)
    } else {
        put_on_private(acts, alloc, buffers, state, own)
    }
}

/// Whether a command of the service for nicks takes a password.
fn is_secret(word: &[u8]) -> bool
    ensures { result ≡ is_secret word.now }
{
    word.eq_ignore_ascii_case(b"identify")
        || word.eq_ignore_ascii_case(b"register")
        || word.eq_ignore_ascii_case(b"ghost")
        || word.eq_ignore_ascii_case(b"release")
        || word.eq_ignore_ascii_case(b"regain")
}

/// Whether words of a text that is said to this target are not shown.
fn hides(target: &[u8], text: &[u8]) -> bool
    ensures { result ≡ hides target.now text.now }
{
    let (word, rest) = cut_word(text);
    target.eq_ignore_ascii_case(b"nickserv") && is_secret(word) && !rest.is_empty()
}

/// Something that is said, where the words after a command that takes a password are not shown.
fn put_said(
    acts: &mut Items<Act>,
    alloc: Global,
    buffers: &Buffers,
    state: &State,
    target: &[u8],
    text: &[u8],
) -> Result<(), NoMemory>
    requires { IsUtf8 target.now }
    ensures { OnOk result (acts.new ≡ acts.old ++ own_talk buffers.now (seen state.now)
        target.now false (shown_text target.now text.now)) }
{
    let does = false;
    if !hides(target, text) {
        return put_own_talk(acts, alloc, buffers, state, Own { target, does, text });
    }
    let shown = joined(alloc, &[cut_word(text).0, b" ********"])?;
    let text = shown.as_slice();
    put_own_talk(acts, alloc, buffers, state, Own { target, does, text })
}

/// Puts the line of a text after the acts. Another request between clients has none.
fn put_talk(
    acts: &mut Items<Act>,
    alloc: Global,
    buffers: &Buffers,
    state: &State,
    target: &[u8],
    talk: Talk<'_>,
) -> Result<(), NoMemory>
    requires { IsUtf8 target.now }
    ensures { OnOk result (acts.new ≡ acts.old
        ++ acts_of_own buffers.now (seen state.now) target.now (talk_seen talk.entry)) }
{
    match talk {
        Talk::Says(text) => put_said(acts, alloc, buffers, state, target, text),
        Talk::Does(text) => {
            let does = true;
            put_own_talk(acts, alloc, buffers, state, Own { target, does, text })
        }
        Talk::Requests(_) => Ok(()),
    }
}

/// Puts the line of what is sent to a target by PRIVMSG after the acts.
pub(crate) fn put_own_speech(
    acts: &mut Items<Act>,
    alloc: Global,
    buffers: &Buffers,
    state: &State,
    target: &[u8],
    text: &[u8],
) -> Result<(), NoMemory>
    requires { IsUtf8 target.now }
    ensures { OnOk result (acts.new
        ≡ acts.old ++ own_speech buffers.now (seen state.now) target.now text.now) }
{
    put_talk(acts, alloc, buffers, state, target, talk_of(text))
}

// ---- the parts of a text that is too long for one line

/// To whom something is said or done.
#[derive(Clone, Copy)]
struct Aim<'a> {
    target: &'a [u8],
    does: bool,
}

/// Puts each part as a line of the buffer after the acts.
fn put_own_lines(
    acts: &mut Items<Act>,
    alloc: Global,
    state: &State,
    aim: Aim<'_>,
    texts: &[Text],
    buffer: &[u8],
) -> Result<(), NoMemory>
    ensures { OnOk result (acts.new ≡ acts.old ++ own_lines (seen state.now)
        aim.entry.target.now aim.entry.does texts.now buffer.now) }
{
    for text in texts {
        let own = Own {
            target: aim.target,
            does: aim.does,
            text: text.as_slice(),
        };
        acts.push(own_line(alloc, state, own, buffer)?)?;
    }
    Ok(())
}

/// On the private buffer of the target, which is opened once where it is not there.
fn put_private_lines(
    acts: &mut Items<Act>,
    alloc: Global,
    buffers: &Buffers,
    state: &State,
    aim: Aim<'_>,
    texts: &[Text],
) -> Result<(), NoMemory>
    requires { IsUtf8 aim.target.now }
    ensures { OnOk result (acts.new ≡ acts.old ++ private_lines (seen state.now)
        aim.entry.target.now aim.entry.does texts.now
        (found buffers.now (seen state.now) aim.entry.target.now)) }
{
    let there = found(alloc, buffers, state, aim.target)?;
    let buffer = put_opened(acts, alloc, state, b"private", aim.target, there)?;
    put_own_lines(acts, alloc, state, aim, texts, buffer.as_slice())
}

fn put_own_texts(
    acts: &mut Items<Act>,
    alloc: Global,
    buffers: &Buffers,
    state: &State,
    aim: Aim<'_>,
    texts: &[Text],
) -> Result<(), NoMemory>
    requires { IsUtf8 aim.target.now }
    ensures { OnOk result (acts.new ≡ acts.old ++ own_texts buffers.now (seen state.now)
        aim.entry.target.now aim.entry.does texts.now) }
{
    let whole = aimed(state, aim.target);
    if !is_channel(state.features.chan_types.as_slice(), whole) {
        return put_private_lines(acts, alloc, buffers, state, aim, texts);
    }
    match found(alloc, buffers, state, whole)? {
        Some(buffer) => put_own_lines(acts, alloc, state, aim, texts, buffer.as_slice()),
        None => Ok(()),
    }
}

/// Puts the lines of something that is done in parts after the acts.
pub(crate) fn put_own_deeds(
    acts: &mut Items<Act>,
    alloc: Global,
    buffers: &Buffers,
    state: &State,
    target: &[u8],
    texts: &[Text],
) -> Result<(), NoMemory>
    requires { IsUtf8 target.now }
    ensures { OnOk result (acts.new ≡ acts.old
        ++ own_texts buffers.now (seen state.now) target.now true texts.now) }
{
    let does = true;
    put_own_texts(acts, alloc, buffers, state, Aim { target, does }, texts)
}

/// The same of something that is said, or one line where words of it are not shown.
pub(crate) fn put_shown_parts(
    acts: &mut Items<Act>,
    alloc: Global,
    buffers: &Buffers,
    state: &State,
    target: &[u8],
    text: &[u8],
    texts: &[Text],
) -> Result<(), NoMemory>
    requires { IsUtf8 target.now }
    ensures { OnOk result (acts.new ≡ acts.old
        ++ shown_parts buffers.now (seen state.now) target.now text.now texts.now) }
{
    if hides(target, text) {
        return put_said(acts, alloc, buffers, state, target, text);
    }
    let does = false;
    put_own_texts(acts, alloc, buffers, state, Aim { target, does }, texts)
}
