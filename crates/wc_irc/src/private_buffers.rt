ghost use Rattle.std.specs.Prelude.{◌≡◌, ◌-◌, Some, length};
ghost use Rattle.wc_buffers.specs.Calls.{vars_at};
ghost use Rattle.wc_irc.specs.PrivateBuffers.{private_buffers, is_full, opens_too_many};
ghost use Rattle.wc_irc.specs.PrivatesSeen.{is_private_by, privates_at};
ghost use Rattle.wc_irc.specs.ServersSeen.{seen};

use crate::state::State;
use crate::talk_acts::has_value;
use wc_buffers::{Buffers, Vars};
use wc_text::{Handle, Text};

/// So many buffers may there be in all.
pub(crate) const MOST_BUFFERS: u32 = 256;

/// Whether these are the variables of a private buffer of the server.
fn are_private(state: &State, vars: &Vars) -> bool
    ensures { result ≡ is_private_by (seen state.now) (Some vars.now) }
{
    has_value(vars, b"server", state.name.as_slice()) && has_value(vars, b"type", b"private")
}

fn is_private_at(buffers: &Buffers, state: &State, buffer: Handle) -> bool
    ensures { result ≡ is_private_by (seen state.now) (vars_at buffer buffers.now) }
{
    match buffers.vars(buffer) {
        Some(vars) => are_private(state, vars),
        None => false,
    }
}

/// What the private buffers of the server in a group leave of a number of them.
fn room_after(buffers: &Buffers, state: &State, group: &[Handle], room: u32) -> u32
    ensures { result ≡ room - privates_at buffers.now (seen state.now) group.now }
{
    let mut left = room;
    for buffer in group {
        if is_private_at(buffers, state, *buffer) {
            left = left.saturating_sub(1);
        }
    }
    left
}

/// How many private buffers more messages may open.
#[tactic(auto, using(crate::proofs::PrivateLemmas::all_privates))]
fn room_left(buffers: &Buffers, state: &State) -> u32
    ensures { result ≡ state.now.private_max
        - length (private_buffers buffers.now (seen state.now)) }
{
    let mut room = state.private_max;
    for group in buffers.groups() {
        room = room_after(buffers, state, group, room);
    }
    room
}

/// Whether so many private buffers of the server are there as messages may open.
#[tactic(auto, using(crate::proofs::PrivateLemmas::no_room), unfolding(crate::specs::PrivateBuffers::is_full))]
fn is_full(buffers: &Buffers, state: &State) -> bool
    ensures { result ≡ is_full buffers.now (seen state.now) }
{
    state.private_max < MOST_BUFFERS && room_left(buffers, state) == 0
}

/// Whether a message would open one too many, where this is the full name of the private buffer of
/// its nick, if it is there. They are counted only where one would be opened.
pub(crate) fn opens_too_many(buffers: &Buffers, state: &State, there: &Option<Text>) -> bool
    ensures { result ≡ opens_too_many buffers.now (seen state.now) there.now }
{
    match there {
        Some(_) => false,
        None => is_full(buffers, state),
    }
}
