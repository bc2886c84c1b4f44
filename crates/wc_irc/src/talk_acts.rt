ghost use Rattle.std.specs.Char.{to_ascii_lowercase};
ghost use Rattle.std.specs.Prelude.{◌≡◌, ◌++◌, ◌∷◌, ◌&&◌, [], map, not, codes, IsTrue, IfOk, OnOk};
ghost use Rattle.wc_buffers.specs.Calls.{entry_of};
ghost use Rattle.wc_buffers.specs.Vars.{pair, value_of};
ghost use Rattle.wc_irc.specs.Autojoin.{autojoin_lines};
ghost use Rattle.wc_irc_texts.specs.Rows.{param};
ghost use Rattle.wc_irc.specs.ServersSeen.{seen};
ghost use Rattle.wc_irc.specs.TalkActs.{on_server, sent, ping_acts, error_acts, other_acts};
ghost use Rattle.wc_irc.specs.TalkActs.{taken_acts, has_value, told_nick, tell_nick, raised};
ghost use Rattle.wc_irc.specs.TalkActs.{welcome_line, welcome_acts, notice_line, notice_acts};
ghost use Rattle.wc_irc.specs.TalkActs.{on_found, aimed};
ghost use Rattle.wc_irc.specs.Targets.{server_buffer, found};
ghost use Rattle.wc_irc.specs.TargetsSeen.{acts_in, acts_at};
ghost use Rattle.wc_irc_texts.specs.Texts.{in_one_line, unquoted};
ghost use Rattle.wc_irc.specs.declared.act.Act.TheVariants as act;
ghost use Rattle.wc_ircmsg.specs.Commands.{is_command};
ghost use Rattle.wc_model.specs.declared.change.What.TheVariants as what;

use crate::act::Act;
use crate::autojoin::{autojoin_lines, line_of};
use crate::lines::{nick_tags, one_tag, printed};
use crate::state::State;
use crate::targets::{found, server_buffer};
use std::alloc::Global;
use wc_buffers::{BufferRow, Buffers, Vars};
use wc_irc_texts::{
    in_one_line, is_channel, joined, last_param, param, params_from, spaced, unquoted,
    whole_channel,
};
use wc_ircmsg::Message;
use wc_model::What;
use wc_text::{Cause, Handle, Items, NoMemory, Pair, Text};

/// Puts a line of the server's own buffer after the acts.
pub(crate) fn put_on_server(
    acts: &mut Items<Act>,
    alloc: Global,
    state: &State,
    tag: &[u8],
    prefix: &[u8],
    text: &[u8],
) -> Result<(), NoMemory>
    ensures { OnOk result (acts.new
        ≡ acts.old ++ on_server (seen state.now) tag.now prefix.now text.now ∷ []) }
{
    let buffer = server_buffer(alloc, state.name.as_slice())?;
    let tags = one_tag(alloc, tag)?;
    acts.push(printed(alloc, buffer.as_slice(), tags, prefix, text)?)
}

/// The channel that is spoken to, of which a sign before it tells some nicks, or else the target.
pub(crate) fn aimed<'a>(state: &State, target: &'a [u8]) -> &'a [u8]
    ensures { result.now ≡ aimed (seen state.now) target.now }
{
    whole_channel(&state.features, target)
}

/// One text as parameters, without what would end a line.
fn one_param(alloc: Global, text: &[u8]) -> Result<Items<Text>, NoMemory>
    ensures { IfOk result (λ params. params ≡ in_one_line text.now ∷ []) }
{
    let mut params = Items::new(alloc);
    params.push(in_one_line(alloc, text)?)?;
    Ok(params)
}

/// A line to the server: a command and one text, without what would end the line.
pub(crate) fn sent(alloc: Global, command: &[u8], text: &[u8]) -> Result<Act, NoMemory>
    requires { IsTrue (is_command command.now) }
    ensures { IfOk result (λ line. line ≡ sent command.now text.now) }
{
    let params = one_param(alloc, text)?;
    let word = Text::from_slice(alloc, command)?;
    Ok(Act::Send(line_of(alloc, word, params)?))
}

/// Answers a PING with the same last parameter.
pub(crate) fn put_ping(acts: &mut Items<Act>, alloc: Global, m: &Message) -> Result<(), NoMemory>
    ensures { OnOk result (acts.new ≡ acts.old ++ ping_acts m.now) }
{
    acts.push(sent(alloc, b"PONG", last_param(m))?)
}

pub(crate) fn put_error(
    acts: &mut Items<Act>,
    alloc: Global,
    state: &State,
    m: &Message,
) -> Result<(), NoMemory>
    ensures { OnOk result (acts.new ≡ acts.old ++ error_acts (seen state.now) m.now) }
{
    put_on_server(acts, alloc, state, b"irc_error", b"=!=", last_param(m))
}

/// `irc_` and a command in lower case.
fn tag_of(alloc: Global, command: &[u8]) -> Result<Text, NoMemory>
    ensures { IfOk result (λ tag. tag ≡ codes "irc_" ++ map to_ascii_lowercase command.now) }
{
    let lower: Vec<u8> = command
        .iter()
        .map(|byte| byte.to_ascii_lowercase())
        .collect(alloc)?;
    joined(alloc, &[b"irc_", lower.as_slice()])
}

/// Prints a message that has no row of its own.
pub(crate) fn put_other(
    acts: &mut Items<Act>,
    alloc: Global,
    state: &State,
    m: &Message,
) -> Result<(), NoMemory>
    ensures { OnOk result (acts.new ≡ acts.old ++ other_acts (seen state.now) m.now) }
{
    let tag = tag_of(alloc, m.command.as_slice())?;
    let text = spaced(alloc, params_from(m, 1))?;
    put_on_server(acts, alloc, state, tag.as_slice(), b"--", text.as_slice())
}

/// Tries the next nick, or gives the server up after the last of them.
pub(crate) fn put_taken(acts: &mut Items<Act>, alloc: Global, state: &State) -> Result<(), NoMemory>
    ensures { OnOk result (acts.new ≡ acts.old ++ taken_acts (seen state.now)) }
{
    if !state.may_try() {
        return acts.push(Act::Leave(Cause::NickTaken));
    }
    let nick = state.next_nick(alloc)?;
    acts.push(sent(alloc, b"NICK", nick.as_slice())?)
}

// ---- 001

pub(crate) fn has_value(vars: &Vars, name: &[u8], value: &[u8]) -> bool
    ensures { result ≡ has_value value.now (value_of name.now vars.now) }
{
    match vars.get(name) {
        Some(other) => value == other.as_slice(),
        None => false,
    }
}

/// Whether a buffer of the server has another nick.
fn differs(state: &State, vars: &Vars, nick: &[u8]) -> bool
    ensures { result ≡ (has_value state.now.name (value_of (codes "server") vars.now)
        && not (has_value nick.now (value_of (codes "nick") vars.now))) }
{
    has_value(vars, b"server", state.name.as_slice()) && !has_value(vars, b"nick", nick)
}

fn nick_var(alloc: Global, nick: &[u8]) -> Result<Pair, NoMemory>
    ensures { IfOk result (λ var. var ≡ pair (codes "nick") nick.now) }
{
    let name = Text::from_slice(alloc, b"nick")?;
    let value = Text::from_slice(alloc, nick)?;
    Ok(Pair { name, value })
}

/// The change of the variable `nick` of a buffer.
fn nick_act(alloc: Global, row: &BufferRow, nick: &[u8]) -> Result<Act, NoMemory>
    ensures { IfOk result (λ a. a
        ≡ act.On row.now.full_name (what.SetVar (pair (codes "nick") nick.now))) }
{
    let full_name = row.full_name.copy(alloc)?;
    let var = nick_var(alloc, nick)?;
    Ok(Act::On {
        full_name,
        what: What::SetVar(var),
    })
}

/// Tells the own nick to a buffer of the server that has another one.
fn put_told(
    acts: &mut Items<Act>,
    alloc: Global,
    state: &State,
    row: &BufferRow,
    vars: &Vars,
    nick: &[u8],
) -> Result<(), NoMemory>
    ensures { OnOk result (acts.new ≡ acts.old
        ++ told_nick (seen state.now) nick.now (record { row = row.now; vars = vars.now })) }
{
    if !differs(state, vars, nick) {
        return Ok(());
    }
    acts.push(nick_act(alloc, row, nick)?)
}

#[tactic(auto, using(crate::proofs::ActLemmas::entry_facts))]
fn put_told_at(
    acts: &mut Items<Act>,
    alloc: Global,
    state: &State,
    buffers: &Buffers,
    h: Handle,
    nick: &[u8],
) -> Result<(), NoMemory>
    ensures { OnOk result (acts.new ≡ acts.old
        ++ acts_in (told_nick (seen state.now) nick.now) (entry_of h buffers.now)) }
{
    let Some(row) = buffers.get(h) else {
        return Ok(());
    };
    let Some(vars) = buffers.vars(h) else {
        return Ok(());
    };
    put_told(acts, alloc, state, row, vars, nick)
}

fn put_told_in(
    acts: &mut Items<Act>,
    alloc: Global,
    state: &State,
    buffers: &Buffers,
    group: &[Handle],
    nick: &[u8],
) -> Result<(), NoMemory>
    ensures { OnOk result (acts.new ≡ acts.old
        ++ acts_at (told_nick (seen state.now) nick.now) buffers.now group.now) }
{
    for h in group {
        put_told_at(acts, alloc, state, buffers, *h, nick)?;
    }
    Ok(())
}

/// Tells the own nick to each buffer of the server that has another one.
#[tactic(auto, using(crate::proofs::ActLemmas::all_acts))]
fn put_tell_nick(
    acts: &mut Items<Act>,
    alloc: Global,
    state: &State,
    buffers: &Buffers,
    nick: &[u8],
) -> Result<(), NoMemory>
    ensures { OnOk result (acts.new ≡ acts.old
        ++ tell_nick buffers.now (seen state.now) nick.now) }
{
    for group in buffers.groups() {
        put_told_in(acts, alloc, state, buffers, group, nick)?;
    }
    Ok(())
}

fn put_lines(acts: &mut Items<Act>, alloc: Global, lines: &[Text]) -> Result<(), NoMemory>
    ensures { OnOk result (acts.new ≡ acts.old ++ map (λ line. act.Send line) lines.now) }
{
    for line in lines {
        acts.push(Act::Send(line.copy(alloc)?))?;
    }
    Ok(())
}

fn put_joins(acts: &mut Items<Act>, alloc: Global, state: &State) -> Result<(), NoMemory>
    ensures { OnOk result (acts.new ≡ acts.old
        ++ map (λ line. act.Send line) (autojoin_lines state.now.login.autojoin)) }
{
    let lines = autojoin_lines(alloc, state.login.autojoin.as_slice())?;
    put_lines(acts, alloc, lines.as_slice())
}

/// Puts a signal with the server's name after the acts.
pub(crate) fn put_raised(
    acts: &mut Items<Act>,
    alloc: Global,
    state: &State,
    signal: &[u8],
) -> Result<(), NoMemory>
    ensures { OnOk result (acts.new ≡ acts.old ++ raised signal.now (seen state.now) ∷ []) }
{
    let signal = Text::from_slice(alloc, signal)?;
    let payload = state.name.copy(alloc)?;
    acts.push(Act::Raise { signal, payload })
}

fn put_welcome_line(
    acts: &mut Items<Act>,
    alloc: Global,
    state: &State,
    m: &Message,
) -> Result<(), NoMemory>
    ensures { OnOk result (acts.new ≡ acts.old ++ welcome_line (seen state.now) m.now ∷ []) }
{
    put_on_server(acts, alloc, state, b"irc_001", b"--", last_param(m))
}

/// Tells the own nick, prints the line, raises the signal and joins channels, where it is the first
/// welcome of the link.
pub(crate) fn put_welcome(
    acts: &mut Items<Act>,
    alloc: Global,
    buffers: &Buffers,
    state: &State,
    m: &Message,
) -> Result<(), NoMemory>
    ensures { OnOk result (acts.new
        ≡ acts.old ++ welcome_acts buffers.now (seen state.now) m.now) }
{
    if state.is_registered {
        return put_welcome_line(acts, alloc, state, m);
    }
    let nick = state.own_nick_from(param(m, 0));
    put_tell_nick(acts, alloc, state, buffers, nick)?;
    put_welcome_line(acts, alloc, state, m)?;
    put_raised(acts, alloc, state, b"irc_server_connected")?;
    put_joins(acts, alloc, state)
}

// ---- NOTICE

fn noticed(alloc: Global, nick: &[u8], said: &[u8]) -> Result<Text, NoMemory>
    ensures { IfOk result (λ text. text
        ≡ codes "Notice(" ++ nick.now ++ codes "): " ++ said.now) }
{
    joined(alloc, &[b"Notice(", nick, b"): ", said])
}

fn notice_text(alloc: Global, m: &Message) -> Result<Text, NoMemory>
    ensures { IfOk result (λ text. text
        ≡ codes "Notice(" ++ m.now.nick ++ codes "): " ++ unquoted (param 1 m.now)) }
{
    let said = unquoted(alloc, param(m, 1))?;
    noticed(alloc, m.nick.as_slice(), said.as_slice())
}

fn put_notice_line(
    acts: &mut Items<Act>,
    alloc: Global,
    m: &Message,
    buffer: &[u8],
) -> Result<(), NoMemory>
    ensures { OnOk result (acts.new ≡ acts.old ++ notice_line m.now buffer.now ∷ []) }
{
    let text = notice_text(alloc, m)?;
    let tags = nick_tags(alloc, b"irc_notice", m)?;
    acts.push(printed(alloc, buffer, tags, b"--", text.as_slice())?)
}

fn put_channel_notice(
    acts: &mut Items<Act>,
    alloc: Global,
    buffers: &Buffers,
    state: &State,
    m: &Message,
) -> Result<(), NoMemory>
    ensures { OnOk result (acts.new ≡ acts.old
        ++ on_found (found buffers.now (seen state.now) (aimed (seen state.now) (param 0 m.now)))
        (λ buffer. notice_line m.now buffer ∷ [])) }
{
    match found(alloc, buffers, state, aimed(state, param(m, 0)))? {
        Some(buffer) => put_notice_line(acts, alloc, m, buffer.as_slice()),
        None => Ok(()),
    }
}

fn put_server_notice(
    acts: &mut Items<Act>,
    alloc: Global,
    state: &State,
    m: &Message,
) -> Result<(), NoMemory>
    ensures { OnOk result (acts.new ≡ acts.old
        ++ notice_line m.now (server_buffer state.now.name) ∷ []) }
{
    let buffer = server_buffer(alloc, state.name.as_slice())?;
    put_notice_line(acts, alloc, m, buffer.as_slice())
}

/// Prints a notice on its channel, where that has a buffer, and one for another target on the
/// server's own buffer.
pub(crate) fn put_notice(
    acts: &mut Items<Act>,
    alloc: Global,
    buffers: &Buffers,
    state: &State,
    m: &Message,
) -> Result<(), NoMemory>
    ensures { OnOk result (acts.new ≡ acts.old ++ notice_acts buffers.now (seen state.now) m.now) }
{
    if is_channel(
        state.features.chan_types.as_slice(),
        aimed(state, param(m, 0)),
    ) {
        put_channel_notice(acts, alloc, buffers, state, m)
    } else {
        put_server_notice(acts, alloc, state, m)
    }
}
