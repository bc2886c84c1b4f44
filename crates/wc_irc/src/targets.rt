ghost use Rattle.std.specs.Prelude.{◌≡◌, find, IfOk};
ghost use Rattle.std.specs.Option.{option_copied};
ghost use Rattle.wc_buffers.specs.Calls.{buffer_of};
ghost use Rattle.wc_irc.specs.ServersSeen.{seen};
ghost use Rattle.wc_irc.specs.Targets.{server_buffer, front_of, full_name, is_alike, names_of, found};
ghost use Rattle.wc_irc.specs.Targets.{has_name};
ghost use Rattle.wc_irc.specs.TargetsSeen.{name_in, names_at};

use crate::state::State;
use std::alloc::Global;
use wc_buffers::Buffers;
use wc_irc_texts::{is_same, joined};
use wc_ircmsg::CaseMap;
use wc_text::{Handle, NoMemory, Text};

/// The full name of the server's own buffer.
pub(crate) fn server_buffer(alloc: Global, server: &[u8]) -> Result<Text, NoMemory>
    ensures { IfOk result (λ name. name ≡ server_buffer server.now) }
{
    joined(alloc, &[b"irc.server.", server])
}

/// The front of the names of its other buffers.
fn front_of(alloc: Global, server: &[u8]) -> Result<Text, NoMemory>
    ensures { IfOk result (λ front. front ≡ front_of server.now) }
{
    joined(alloc, &[b"irc.", server, b"."])
}

/// The full name of the buffer of a channel or a nick.
pub(crate) fn full_name(alloc: Global, server: &[u8], target: &[u8]) -> Result<Text, NoMemory>
    ensures { IfOk result (λ name. name ≡ full_name server.now target.now) }
{
    let mut name = front_of(alloc, server)?;
    name.append(target)?;
    Ok(name)
}

/// Whether a full name is the front and after it a channel or a nick that is the same.
fn is_alike(case_map: CaseMap, front: &[u8], target: &[u8], name: &[u8]) -> bool
    ensures { result ≡ is_alike case_map front.now target.now name.now }
{
    match name.strip_prefix(front) {
        Some(other) => is_same(case_map, target, other),
        None => false,
    }
}

/// What a channel or a nick is looked for by.
#[derive(Clone, Copy)]
struct Wanted<'a> {
    case_map: CaseMap,
    front: &'a [u8],
    target: &'a [u8],
}

/// The name of a buffer, where it is there and the name is the same.
fn alike_name<'a>(buffers: &'a Buffers, h: Handle, wanted: Wanted<'_>) -> Option<&'a Text>
    ensures { option_copied result
        ≡ find (is_alike wanted.entry.case_map wanted.entry.front.now wanted.entry.target.now)
        (name_in (buffer_of h buffers.now)) }
{
    let name = &buffers.get(h)?.full_name;
    if is_alike(
        wanted.case_map,
        wanted.front,
        wanted.target,
        name.as_slice(),
    ) {
        Some(name)
    } else {
        None
    }
}

/// The first name in a group that is the same.
#[tactic(auto, using(crate::proofs::TargetLemmas::find_facts))]
fn alike_in<'a>(buffers: &'a Buffers, group: &[Handle], wanted: Wanted<'_>) -> Option<&'a Text>
    ensures { option_copied result
        ≡ find (is_alike wanted.entry.case_map wanted.entry.front.now wanted.entry.target.now)
        (names_at buffers.now group.now) }
{
    for h in group {
        if let Some(name) = alike_name(buffers, *h, wanted) {
            return Some(name);
        }
    }
    None
}

/// The first name of all buffers that is the same.
#[tactic(auto, using(crate::proofs::TargetLemmas::find_facts))]
fn first_alike<'a>(buffers: &'a Buffers, wanted: Wanted<'_>) -> Option<&'a Text>
    ensures { option_copied result
        ≡ find (is_alike wanted.entry.case_map wanted.entry.front.now wanted.entry.target.now)
        (names_of buffers.now) }
{
    for group in buffers.groups() {
        if let Some(name) = alike_in(buffers, group, wanted) {
            return Some(name);
        }
    }
    None
}

/// The same, in memory of its own.
fn copied(alloc: Global, name: Option<&Text>) -> Result<Option<Text>, NoMemory>
    ensures { IfOk result (λ copy. copy ≡ option_copied name.entry) }
{
    match name {
        Some(name) => Ok(Some(name.copy(alloc)?)),
        None => Ok(None),
    }
}

fn copied_alike(
    alloc: Global,
    buffers: &Buffers,
    state: &State,
    target: &[u8],
) -> Result<Option<Text>, NoMemory>
    ensures { IfOk result (λ name. name
        ≡ find (is_alike (seen state.now).features.case_map (front_of state.now.name) target.now)
        (names_of buffers.now)) }
{
    let front = front_of(alloc, state.name.as_slice())?;
    let wanted = Wanted {
        case_map: state.features.case_map,
        front: front.as_slice(),
        target,
    };
    copied(alloc, first_alike(buffers, wanted))
}

pub(crate) fn has_name(buffers: &Buffers, name: &[u8]) -> bool
    ensures { result ≡ has_name name.now buffers.now }
{
    buffers.find(name).is_some()
}

/// The full name of the buffer of a channel or a nick, where there is one: the one that is named
/// exactly so, and else the first whose name is the same.
#[tactic(auto, unfolding(crate::specs::Targets::found))]
pub(crate) fn found(
    alloc: Global,
    buffers: &Buffers,
    state: &State,
    target: &[u8],
) -> Result<Option<Text>, NoMemory>
    ensures { IfOk result (λ name. name ≡ found buffers.now (seen state.now) target.now) }
{
    let name = full_name(alloc, state.name.as_slice(), target)?;
    if has_name(buffers, name.as_slice()) {
        return Ok(Some(name));
    }
    drop(name);
    copied_alike(alloc, buffers, state, target)
}
