ghost use Rattle.std.specs.Prelude.{◌≡◌, ◌++◌, codes, map, OnOk};
ghost use Rattle.std.specs.Str.{IsUtf8};
ghost use Rattle.wc_ircmsg.specs.Written.{IsWritable, line_of};
ghost use Rattle.wc_irc.specs.Autojoin.{message};
ghost use Rattle.wc_irc.specs.CommandActs.{if_linked, acts_of_errand};
ghost use Rattle.wc_irc.specs.CommandSeen.{errand_seen, link_seen, IsFit, IsSendable, AreWritable};
ghost use Rattle.wc_irc.specs.LongTexts.{speech_acts, notify_acts};
ghost use Rattle.wc_irc.specs.NewBuffers.{opened};
ghost use Rattle.wc_irc.specs.SentLines.{refusal, line_acts, both_acts, each_acts};
ghost use Rattle.wc_irc.specs.Targets.{found};

use crate::act::Act;
use crate::errand::Errand;
use crate::long_texts::{put_notify, put_speech};
use crate::new_buffers::put_opened;
use crate::sent_lines::{message_line, put_both_lines, put_line, put_refusal};
use crate::state::State;
use crate::targets::found;
use std::alloc::Global;
use wc_buffers::Buffers;
use wc_text::{Items, NoMemory, Text};

const NOT_CONNECTED: &[u8] = b"irc: not connected";

fn put_not_connected(
    acts: &mut Items<Act>,
    alloc: Global,
    buffers: &Buffers,
) -> Result<(), NoMemory>
    ensures { OnOk result (acts.new
        ≡ acts.old ++ refusal buffers.now (codes "irc: not connected")) }
{
    put_refusal(acts, alloc, buffers, NOT_CONNECTED)
}

fn put_message(
    acts: &mut Items<Act>,
    alloc: Global,
    buffers: &Buffers,
    link: Option<&State>,
    command: &[u8],
    params: Items<Text>,
) -> Result<(), NoMemory>
    requires { IsWritable (message command.now params) }
    ensures { OnOk result (acts.new ≡ acts.old ++ if_linked buffers.now (link_seen link.entry)
        (λ s. line_acts buffers.now (line_of (message command.now params)))) }
{
    if link.is_none() {
        return put_not_connected(acts, alloc, buffers);
    }
    put_line(acts, alloc, buffers, message_line(alloc, command, params)?)
}

/// The lines of two messages.
fn put_both(
    acts: &mut Items<Act>,
    alloc: Global,
    buffers: &Buffers,
    link: Option<&State>,
    first: (&[u8], Items<Text>),
    second: (&[u8], Items<Text>),
) -> Result<(), NoMemory>
    requires first { IsWritable (message first.0.now first.1) }
    requires second { IsWritable (message second.0.now second.1) }
    ensures { OnOk result (acts.new ≡ acts.old ++ if_linked buffers.now (link_seen link.entry)
        (λ s. both_acts buffers.now (line_of (message first.entry.0.now first.entry.1))
        (line_of (message second.entry.0.now second.entry.1)))) }
{
    if link.is_none() {
        return put_not_connected(acts, alloc, buffers);
    }
    let (command, params) = first;
    let first = message_line(alloc, command, params)?;
    let (command, params) = second;
    let second = message_line(alloc, command, params)?;
    put_both_lines(acts, alloc, buffers, first, second)
}

/// The line of each message of a command.
fn put_lines(
    acts: &mut Items<Act>,
    alloc: Global,
    buffers: &Buffers,
    command: &[u8],
    each: Items<Items<Text>>,
) -> Result<(), NoMemory>
    requires { AreWritable command.now each }
    ensures { OnOk result (acts.new ≡ acts.old
        ++ each_acts buffers.now (map (λ params. message command.now params) each)) }
{
    for params in each.into_vec() {
        let line = message_line(alloc, command, params)?;
        put_line(acts, alloc, buffers, line)?;
    }
    Ok(())
}

fn put_each(
    acts: &mut Items<Act>,
    alloc: Global,
    buffers: &Buffers,
    link: Option<&State>,
    command: &[u8],
    each: Items<Items<Text>>,
) -> Result<(), NoMemory>
    requires { AreWritable command.now each }
    ensures { OnOk result (acts.new ≡ acts.old ++ if_linked buffers.now (link_seen link.entry)
        (λ s. each_acts buffers.now (map (λ params. message command.now params) each))) }
{
    match link {
        Some(_) => put_lines(acts, alloc, buffers, command, each),
        None => put_not_connected(acts, alloc, buffers),
    }
}

fn put_talk(
    acts: &mut Items<Act>,
    alloc: Global,
    buffers: &Buffers,
    link: Option<&State>,
    target: &[u8],
    text: &[u8],
) -> Result<(), NoMemory>
    requires { IsSendable target.now text.now }
    ensures { OnOk result (acts.new ≡ acts.old ++ if_linked buffers.now (link_seen link.entry)
        (λ s. speech_acts buffers.now s target.now text.now)) }
{
    match link {
        Some(state) => put_speech(acts, alloc, buffers, state, target, text),
        None => put_not_connected(acts, alloc, buffers),
    }
}

fn put_notice(
    acts: &mut Items<Act>,
    alloc: Global,
    buffers: &Buffers,
    link: Option<&State>,
    target: &[u8],
    text: &[u8],
) -> Result<(), NoMemory>
    requires { IsSendable target.now text.now }
    ensures { OnOk result (acts.new ≡ acts.old ++ if_linked buffers.now (link_seen link.entry)
        (λ s. notify_acts buffers.now s target.now text.now)) }
{
    match link {
        Some(state) => put_notify(acts, alloc, buffers, state, target, text),
        None => put_not_connected(acts, alloc, buffers),
    }
}

fn put_quoted(
    acts: &mut Items<Act>,
    alloc: Global,
    buffers: &Buffers,
    link: Option<&State>,
    line: Text,
) -> Result<(), NoMemory>
    ensures { OnOk result (acts.new ≡ acts.old ++ if_linked buffers.now (link_seen link.entry)
        (λ s. line_acts buffers.now line)) }
{
    if link.is_none() {
        return put_not_connected(acts, alloc, buffers);
    }
    put_line(acts, alloc, buffers, line)
}

fn put_private(
    acts: &mut Items<Act>,
    alloc: Global,
    buffers: &Buffers,
    link: Option<&State>,
    nick: &[u8],
) -> Result<(), NoMemory>
    requires { IsUtf8 nick.now }
    ensures { OnOk result (acts.new ≡ acts.old ++ if_linked buffers.now (link_seen link.entry)
        (λ s. opened (found buffers.now s nick.now) (codes "private") s nick.now)) }
{
    let Some(state) = link else {
        return put_not_connected(acts, alloc, buffers);
    };
    let there = found(alloc, buffers, state, nick)?;
    put_opened(acts, alloc, state, b"private", nick, there)?;
    Ok(())
}

/// Puts what a command comes to after the acts, where this link stands.
#[tactic(auto, unfolding(crate::specs::CommandActs::acts_of_errand))]
pub(crate) fn put_errand(
    acts: &mut Items<Act>,
    alloc: Global,
    buffers: &Buffers,
    link: Option<&State>,
    errand: Errand<'_>,
) -> Result<(), NoMemory>
    requires { IsFit (errand_seen errand) }
    ensures { OnOk result (acts.new ≡ acts.old
        ++ acts_of_errand buffers.now (link_seen link.entry) (errand_seen errand.entry)) }
{
    match errand {
        Errand::Refuse(text) => put_refusal(acts, alloc, buffers, text.as_slice()),
        Errand::Send { command, params } => {
            put_message(acts, alloc, buffers, link, command, params)
        }
        Errand::Speak { target, text } => {
            put_talk(acts, alloc, buffers, link, target, text.as_slice())
        }
        Errand::Notify { target, text } => put_notice(acts, alloc, buffers, link, target, text),
        Errand::Line(line) => put_quoted(acts, alloc, buffers, link, line),
        Errand::Open(nick) => put_private(acts, alloc, buffers, link, nick),
        Errand::SendBoth {
            first,
            params,
            second,
            others,
        } => put_both(
            acts,
            alloc,
            buffers,
            link,
            (first, params),
            (second, others),
        ),
        Errand::SendEach { command, each } => put_each(acts, alloc, buffers, link, command, each),
    }
}
