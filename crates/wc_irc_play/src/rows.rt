//! Messages of a server: their kinds, what 005 tells, and what MODE sets. Names of nicks and of
//! channels.

use crate::sheet::Sheet;
use crate::texts::{own_words, put_list};
use std::alloc::Global;
use wc_irc_texts::{
    Features, ModeChange, group_at, group_names, is_channel, is_nick, kind_of, listed_name,
    mode_changes, sign_at, source_text,
};
use wc_ircmsg::{CaseMap, Message, read_line};
use wc_notation::{Wrong, unescape};
use wc_text::{NoMemory, Text};

/// Whom a message is from.
fn put_source(alloc: Global, message: &Message, out: &mut Sheet) {
    match source_text(alloc, message) {
        Ok(source) => out.put_named(" from", source.as_slice()),
        Err(NoMemory) => out.lack(),
    }
}

/// Writes the kind of a message to a server that tells this, and whom it is from.
fn put_kind(
    alloc: Global,
    features: &Features,
    is_registered: bool,
    message: &Message,
    out: &mut Sheet,
) {
    let kind = kind_of(features.chan_types.as_slice(), is_registered, message);
    let written = write!(out.text, "{kind:?}");
    out.note(written);
    put_source(alloc, message, out);
}

fn put_line(
    alloc: Global,
    features: &Features,
    is_registered: bool,
    line: &Text,
    out: &mut Sheet,
) -> Result<(), Wrong> {
    match read_line(alloc, line.as_slice()) {
        Ok(message) => put_kind(alloc, features, is_registered, &message, out),
        Err(_) => return Err(Wrong::NoText),
    }
    Ok(())
}

fn case_map_name(case_map: CaseMap) -> &'static str {
    match case_map {
        CaseMap::Ascii => "ascii",
        CaseMap::Rfc1459 => "rfc1459",
        CaseMap::StrictRfc1459 => "strict-rfc1459",
    }
}

/// Writes what a server told of itself.
pub fn put_features(out: &mut Sheet, features: &Features) {
    out.put_named("modes", features.prefixes.modes.as_slice());
    out.put_named(" signs", features.prefixes.chars.as_slice());
    out.put_named(" types", features.chan_types.as_slice());
    out.put_named(" lists", features.chan_modes.as_slice());
    out.put(" names ");
    out.put(case_map_name(features.case_map));
    put_status(out, &features.status_msg);
}

fn put_status(out: &mut Sheet, signs: &Option<Text>) {
    match signs {
        Some(signs) => out.put_named(" status", signs.as_slice()),
        None => {}
    }
}

/// What is told after a 005 with these parameters.
fn told(alloc: Global, features: &Features, text: &Text) -> Result<Features, NoMemory> {
    match own_words(alloc, text.as_slice()) {
        Ok(params) => features.after_tokens(alloc, params.as_slice()),
        Err(NoMemory) => Err(NoMemory),
    }
}

/// Writes what a 005 with these parameters tells.
fn tokens(alloc: Global, features: &Features, text: &Text, out: &mut Sheet) {
    match told(alloc, features, text) {
        Ok(told) => put_features(out, &told),
        Err(NoMemory) => out.lack(),
    }
}

/// Writes the groups of a server that told this by 005.
fn groups(alloc: Global, features: &Features, text: &Text, out: &mut Sheet) {
    match told(alloc, features, text) {
        Ok(told) => put_list(out, group_names(alloc, &told.prefixes)),
        Err(NoMemory) => out.lack(),
    }
}

fn put_change(out: &mut Sheet, change: ModeChange<'_>) {
    let sign = if change.adds { '+' } else { '-' };
    let letter = change.letter as char;
    let written = write!(out.text, " {sign}{letter}");
    out.note(written);
    out.put_quoted(change.nick);
}

fn put_changes(out: &mut Sheet, changes: &[ModeChange<'_>]) {
    out.put_number(changes.len() as u64);
    for change in changes {
        put_change(out, *change);
    }
}

fn put_modes(alloc: Global, features: &Features, params: &[Text], out: &mut Sheet) {
    match mode_changes(alloc, features, params) {
        Ok(changes) => put_changes(out, changes.as_slice()),
        Err(NoMemory) => out.lack(),
    }
}

/// Writes what a MODE with these parameters sets.
fn modes(alloc: Global, features: &Features, text: &Text, out: &mut Sheet) {
    match own_words(alloc, text.as_slice()) {
        Ok(params) => put_modes(alloc, features, params.as_slice(), out),
        Err(NoMemory) => out.lack(),
    }
}

fn put_group(alloc: Global, features: &Features, place: Option<usize>, out: &mut Sheet) {
    match group_at(alloc, &features.prefixes, place) {
        Ok(group) => out.put_named(" group", group.as_slice()),
        Err(NoMemory) => out.lack(),
    }
    out.put_named(" sign", sign_at(&features.prefixes, place));
}

/// Writes the nick of a name with signs, its group and its sign.
fn listed(alloc: Global, features: &Features, has_hosts: bool, name: &Text, out: &mut Sheet) {
    let listed = listed_name(&features.prefixes, has_hosts, name.as_slice());
    out.put_named("nick", listed.nick);
    put_group(alloc, features, listed.modes.highest(), out);
}

fn put_nick(features: &Features, text: &Text, out: &mut Sheet) {
    let is = is_nick(&features.prefixes, text.as_slice());
    out.put(if is { "a nick" } else { "no nick" });
}

fn put_channel(features: &Features, text: &Text, out: &mut Sheet) {
    let is = is_channel(features.chan_types.as_slice(), text.as_slice());
    out.put(if is { "a channel" } else { "no channel" });
}

fn put_answer(
    alloc: Global,
    features: &Features,
    call: &str,
    text: &Text,
    out: &mut Sheet,
) -> Result<(), Wrong> {
    match call {
        "kind" => return put_line(alloc, features, false, text, out),
        "registered" => return put_line(alloc, features, true, text, out),
        "tokens" => tokens(alloc, features, text, out),
        "modes" => modes(alloc, features, text, out),
        "groups" => groups(alloc, features, text, out),
        "listed" => listed(alloc, features, false, text, out),
        "listed-hosts" => listed(alloc, features, true, text, out),
        "nick" => put_nick(features, text, out),
        "channel" => put_channel(features, text, out),
        _ => return Err(Wrong::Word),
    }
    Ok(())
}

/// Writes the answer of a call where the server told nothing yet.
pub fn rows_answer(alloc: Global, call: &str, rest: &str, out: &mut Sheet) -> Result<(), Wrong> {
    let text = unescape(alloc, rest)?;
    match Features::new(alloc) {
        Ok(features) => put_answer(alloc, &features, call, &text, out),
        Err(NoMemory) => Err(Wrong::NoMemory),
    }
}
