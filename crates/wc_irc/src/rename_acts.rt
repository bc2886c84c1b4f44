ghost use Rattle.std.specs.Option.{option_copied};
ghost use Rattle.std.specs.Prelude.{◌≡◌, ◌++◌, ◌∷◌, [], codes, flat_map, IfOk, OnOk};
ghost use Rattle.std.specs.Str.{IsUtf8};
ghost use Rattle.wc_buffers.specs.Calls.{entry_of, vars_at};
ghost use Rattle.wc_buffers.specs.Groups.{rows};
ghost use Rattle.wc_buffers.specs.Vars.{pair};
ghost use Rattle.wc_irc.specs.Channels.{joined};
ghost use Rattle.wc_irc.specs.RenameActs.{come_again, nick_line, rename_on, rename_of};
ghost use Rattle.wc_irc.specs.RenameActs.{is_private_at, is_private, is_taken, if_free};
ghost use Rattle.wc_irc.specs.RenameActs.{renamed_buffer, rename_private, name_after, own_var};
ghost use Rattle.wc_irc.specs.RenameActs.{own_vars, nick_acts};
ghost use Rattle.wc_irc_texts.specs.Rows.{param};
ghost use Rattle.wc_irc.specs.ServersSeen.{seen};
ghost use Rattle.wc_irc.specs.TalkActs.{on_found};
ghost use Rattle.wc_irc.specs.Targets.{full_name};
ghost use Rattle.wc_irc.specs.TargetsSeen.{acts_in, acts_at};
ghost use Rattle.wc_irc.specs.declared.act.Act.TheVariants as act;
ghost use Rattle.wc_ircmsg.specs.Utf8.{MessageIsUtf8};
ghost use Rattle.wc_model.specs.declared.change.What.TheVariants as what;

use crate::act::Act;
use crate::channel::Channel;
use crate::lines::{nick_tags, printed};
use crate::new_buffers::{pair, short_name};
use crate::nick_acts::{add_nick, remove_nick};
use crate::state::State;
use crate::talk_acts::has_value;
use crate::targets::{found, full_name, has_name};
use std::alloc::Global;
use wc_buffers::{BufferRow, Buffers, Vars};
use wc_irc_texts::{Seat, is_nick, joined, param};
use wc_ircmsg::Message;
use wc_model::What;
use wc_text::{Handle, Items, NoMemory, Text};

// ---- channels

/// A nick comes again under its other name, where it may have that.
fn put_come_again(
    acts: &mut Items<Act>,
    alloc: Global,
    state: &State,
    m: &Message,
    channel: &Channel,
    seat: &Seat,
    buffer: &[u8],
) -> Result<(), NoMemory>
    ensures { OnOk result (acts.new ≡ acts.old
        ++ come_again (seen state.now) m.now (joined channel.now) seat.now buffer.now) }
{
    let prefixes = &state.features.prefixes;
    let (old, new) = (m.nick.as_slice(), param(m, 0));
    if !channel.may_have(prefixes, old, new) {
        return Ok(());
    }
    acts.push(add_nick(alloc, prefixes, buffer, new, seat.modes.highest())?)
}

fn nick_text(alloc: Global, m: &Message) -> Result<Text, NoMemory>
    ensures { IfOk result (λ text. text ≡ m.now.nick ++ codes " is now known as " ++ param 0 m.now) }
{
    let (old, new) = (m.nick.as_slice(), param(m, 0));
    joined(alloc, &[old, b" is now known as ", new])
}

fn nick_line(alloc: Global, m: &Message, buffer: &[u8]) -> Result<Act, NoMemory>
    ensures { IfOk result (λ a. a ≡ nick_line m.now buffer.now) }
{
    let text = nick_text(alloc, m)?;
    let tags = nick_tags(alloc, b"irc_nick", m)?;
    printed(alloc, buffer, tags, b"--", text.as_slice())
}

fn put_rename_on(
    acts: &mut Items<Act>,
    alloc: Global,
    state: &State,
    m: &Message,
    channel: &Channel,
    seat: &Seat,
    buffer: &[u8],
) -> Result<(), NoMemory>
    ensures { OnOk result (acts.new ≡ acts.old
        ++ rename_on (seen state.now) m.now (joined channel.now) seat.now buffer.now) }
{
    acts.push(remove_nick(alloc, buffer, seat.nick.as_slice())?)?;
    put_come_again(acts, alloc, state, m, channel, seat, buffer)?;
    acts.push(nick_line(alloc, m, buffer)?)
}

fn put_rename_of(
    acts: &mut Items<Act>,
    alloc: Global,
    buffers: &Buffers,
    state: &State,
    m: &Message,
    channel: &Channel,
) -> Result<(), NoMemory>
    ensures { OnOk result (acts.new ≡ acts.old
        ++ rename_of buffers.now (seen state.now) m.now (joined channel.now)) }
{
    let Some(seat) = channel.nicks.find(m.nick.as_slice()) else {
        return Ok(());
    };
    match found(alloc, buffers, state, channel.name.as_slice())? {
        Some(buffer) => put_rename_on(acts, alloc, state, m, channel, seat, buffer.as_slice()),
        None => Ok(()),
    }
}

/// The nick of each channel that has it goes, and comes again under its other name.
fn put_renames(
    acts: &mut Items<Act>,
    alloc: Global,
    buffers: &Buffers,
    state: &State,
    m: &Message,
) -> Result<(), NoMemory>
    ensures { OnOk result (acts.new ≡ acts.old
        ++ flat_map (rename_of buffers.now (seen state.now) m.now) (seen state.now).channels) }
{
    for channel in state.channels.as_slice() {
        put_rename_of(acts, alloc, buffers, state, m, channel)?;
    }
    Ok(())
}

// ---- the private buffer

fn is_private_at(vars: Option<&Vars>) -> bool
    ensures { result ≡ is_private_at (option_copied vars.entry) }
{
    match vars {
        Some(vars) => has_value(vars, b"type", b"private"),
        None => false,
    }
}

fn is_private(buffers: &Buffers, name: &[u8]) -> bool
    ensures { result ≡ is_private buffers.now name.now }
{
    match buffers.find(name) {
        Some(h) => is_private_at(buffers.vars(h)),
        None => false,
    }
}

/// Whether another buffer than the one of the old name has the new one.
fn is_taken(buffers: &Buffers, old: &[u8], new: &[u8]) -> bool
    ensures { result ≡ is_taken buffers.now old.now new.now }
{
    has_name(buffers, new) && old != new
}

fn if_free(buffers: &Buffers, new: &[u8], old: Option<Text>) -> Option<Text>
    ensures { result ≡ if_free buffers.now new.now old }
{
    let old = old?;
    if is_private(buffers, old.as_slice()) && !is_taken(buffers, old.as_slice(), new) {
        Some(old)
    } else {
        None
    }
}

/// The private buffer of the nick, by its full name, where it gets another one.
fn renamed_buffer(
    alloc: Global,
    buffers: &Buffers,
    state: &State,
    m: &Message,
) -> Result<Option<Text>, NoMemory>
    ensures { IfOk result (λ old. old ≡ renamed_buffer buffers.now (seen state.now) m.now) }
{
    let new = full_name(alloc, state.name.as_slice(), param(m, 0))?;
    let old = found(alloc, buffers, state, m.nick.as_slice())?;
    Ok(if_free(buffers, new.as_slice(), old))
}

/// A change of the buffer of a full name.
fn on(alloc: Global, name: &[u8], what: What) -> Result<Act, NoMemory>
    ensures { IfOk result (λ a. a ≡ act.On name.now what) }
{
    let full_name = Text::from_slice(alloc, name)?;
    Ok(Act::On { full_name, what })
}

fn rename_what(alloc: Global, new: &[u8]) -> Result<What, NoMemory>
    ensures { IfOk result (λ made. made ≡ what.Rename new.now []) }
{
    let name = Text::from_slice(alloc, new)?;
    Ok(What::Rename {
        name,
        flips: Items::new(alloc),
    })
}

/// The buffer of a full name gets other names, and its variable `channel` another value.
fn put_rename_private(
    acts: &mut Items<Act>,
    alloc: Global,
    nick: &[u8],
    new: &[u8],
    old: &[u8],
) -> Result<(), NoMemory>
    requires { IsUtf8 nick.now }
    ensures { OnOk result (acts.new ≡ acts.old ++ rename_private nick.now new.now old.now) }
{
    acts.push(on(alloc, old, rename_what(alloc, new)?)?)?;
    acts.push(on(alloc, new, What::ShortName(short_name(alloc, nick)?))?)?;
    acts.push(on(alloc, new, What::SetVar(pair(alloc, b"channel", nick)?))?)
}

// ---- the own nick

/// The own nick that is told, and the private buffer that is renamed, where one is.
#[derive(Clone, Copy)]
struct OwnNick<'a> {
    nick: &'a [u8],
    new: &'a [u8],
    renamed: &'a Option<Text>,
}

/// The full name of a buffer after the rename.
fn name_after<'a>(own: OwnNick<'a>, name: &'a [u8]) -> &'a [u8]
    ensures { result.now ≡ name_after own.entry.renamed.now own.entry.new.now name.now }
{
    match own.renamed {
        Some(old) if old.as_slice() == name => own.new,
        _ => name,
    }
}

fn own_act(alloc: Global, own: OwnNick<'_>, name: &[u8]) -> Result<Act, NoMemory>
    ensures { IfOk result (λ a. a
        ≡ act.On (name_after own.entry.renamed.now own.entry.new.now name.now)
        (what.SetVar (pair (codes "nick") own.entry.nick.now))) }
{
    let var = pair(alloc, b"nick", own.nick)?;
    on(alloc, name_after(own, name), What::SetVar(var))
}

fn put_own_var(
    acts: &mut Items<Act>,
    alloc: Global,
    state: &State,
    row: &BufferRow,
    vars: &Vars,
    own: OwnNick<'_>,
) -> Result<(), NoMemory>
    ensures { OnOk result (acts.new ≡ acts.old ++ own_var own.entry.renamed.now
        own.entry.new.now (seen state.now) own.entry.nick.now
        (record { row = row.now; vars = vars.now })) }
{
    if !has_value(vars, b"server", state.name.as_slice()) {
        return Ok(());
    }
    acts.push(own_act(alloc, own, row.full_name.as_slice())?)
}

#[tactic(auto, using(crate::proofs::ActLemmas::entry_facts))]
fn put_own_var_at(
    acts: &mut Items<Act>,
    alloc: Global,
    state: &State,
    buffers: &Buffers,
    h: Handle,
    own: OwnNick<'_>,
) -> Result<(), NoMemory>
    ensures { OnOk result (acts.new ≡ acts.old ++ acts_in (own_var own.entry.renamed.now
        own.entry.new.now (seen state.now) own.entry.nick.now) (entry_of h buffers.now)) }
{
    let Some(row) = buffers.get(h) else {
        return Ok(());
    };
    let Some(vars) = buffers.vars(h) else {
        return Ok(());
    };
    put_own_var(acts, alloc, state, row, vars, own)
}

fn put_own_var_in(
    acts: &mut Items<Act>,
    alloc: Global,
    state: &State,
    buffers: &Buffers,
    group: &[Handle],
    own: OwnNick<'_>,
) -> Result<(), NoMemory>
    ensures { OnOk result (acts.new ≡ acts.old ++ acts_at (own_var own.entry.renamed.now
        own.entry.new.now (seen state.now) own.entry.nick.now) buffers.now group.now) }
{
    for h in group {
        put_own_var_at(acts, alloc, state, buffers, *h, own)?;
    }
    Ok(())
}

/// Tells the own nick to each buffer of the server, by the full name that it has then.
#[tactic(auto, using(crate::proofs::ActLemmas::all_acts))]
fn put_own_vars(
    acts: &mut Items<Act>,
    alloc: Global,
    state: &State,
    buffers: &Buffers,
    own: OwnNick<'_>,
) -> Result<(), NoMemory>
    ensures { OnOk result (acts.new ≡ acts.old ++ flat_map (own_var
        own.entry.renamed.now own.entry.new.now (seen state.now) own.entry.nick.now)
        (rows buffers.now)) }
{
    for group in buffers.groups() {
        put_own_var_in(acts, alloc, state, buffers, group, own)?;
    }
    Ok(())
}

fn put_own(
    acts: &mut Items<Act>,
    alloc: Global,
    buffers: &Buffers,
    state: &State,
    m: &Message,
    own: OwnNick<'_>,
) -> Result<(), NoMemory>
    requires nick { own.nick.now ≡ param 0 m.now }
    requires new { own.new.now ≡ full_name state.now.name (param 0 m.now) }
    requires renamed { own.renamed.now
        ≡ renamed_buffer buffers.now (seen state.now) m.now }
    ensures { OnOk result (acts.new ≡ acts.old
        ++ own_vars buffers.now (seen state.now) m.now) }
{
    if !state.is_own(m.nick.as_slice()) || !is_nick(&state.features.prefixes, own.nick) {
        return Ok(());
    }
    put_own_vars(acts, alloc, state, buffers, own)
}

fn put_private(acts: &mut Items<Act>, alloc: Global, own: OwnNick<'_>) -> Result<(), NoMemory>
    requires { IsUtf8 own.nick.now }
    ensures { OnOk result (acts.new ≡ acts.old ++ on_found own.entry.renamed.now
        (rename_private own.entry.nick.now own.entry.new.now)) }
{
    match own.renamed {
        Some(old) => put_rename_private(acts, alloc, own.nick, own.new, old.as_slice()),
        None => Ok(()),
    }
}

/// A nick gets another name: on the lists of its channels, for its private buffer, and where it is
/// the own one in the variables of the server's buffers.
#[tactic(auto, using(crate::proofs::MessageTextLemmas::param_text))]
pub(crate) fn put_nick(
    acts: &mut Items<Act>,
    alloc: Global,
    buffers: &Buffers,
    state: &State,
    m: &Message,
) -> Result<(), NoMemory>
    requires { MessageIsUtf8 m.now }
    ensures { OnOk result (acts.new ≡ acts.old ++ nick_acts buffers.now (seen state.now) m.now) }
{
    put_renames(acts, alloc, buffers, state, m)?;
    let renamed = renamed_buffer(alloc, buffers, state, m)?;
    let new = full_name(alloc, state.name.as_slice(), param(m, 0))?;
    let own = OwnNick {
        nick: param(m, 0),
        new: new.as_slice(),
        renamed: &renamed,
    };
    put_private(acts, alloc, own)?;
    put_own(acts, alloc, buffers, state, m, own)
}
