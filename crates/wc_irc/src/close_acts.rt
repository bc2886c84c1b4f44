ghost use Rattle.std.specs.Option.{option_copied};
ghost use Rattle.std.specs.Prelude.{◌≡◌, ◌++◌, OnOk, IfOk};
ghost use Rattle.wc_irc.specs.CloseActs.{quit_line, disconnect_acts, part_of, close_acts};
ghost use Rattle.wc_irc.specs.ServersSeen.{seen};

use crate::act::Act;
use crate::channel_acts::channel_at;
use crate::command_acts::link_at;
use crate::place::place_at;
use crate::state::State;
use crate::talk_acts::sent;
use std::alloc::Global;
use wc_buffers::Buffers;
use wc_text::{Cause, Handle, Items, NoMemory, Text};

fn put_quit_line(acts: &mut Items<Act>, alloc: Global, state: &State) -> Result<(), NoMemory>
    ensures { OnOk result (acts.new ≡ acts.old ++ quit_line (seen state.now)) }
{
    if !state.is_connected {
        return Ok(());
    }
    acts.push(Act::Send(Text::from_slice(alloc, b"QUIT")?))
}

/// What is said as the program ends.
pub(crate) fn quit_line(alloc: Global, state: &State) -> Result<Items<Act>, NoMemory>
    ensures { IfOk result (λ acts. acts ≡ quit_line (seen state.now)) }
{
    let mut acts = Items::new(alloc);
    put_quit_line(&mut acts, alloc, state)?;
    Ok(acts)
}

/// The same, and then the loss of the server.
pub(crate) fn disconnect_acts(alloc: Global, state: &State) -> Result<Items<Act>, NoMemory>
    ensures { IfOk result (λ acts. acts ≡ disconnect_acts (seen state.now)) }
{
    let mut acts = quit_line(alloc, state)?;
    acts.push(Act::Leave(Cause::Disconnected))?;
    Ok(acts)
}

/// The PART of a channel, where it is joined.
fn put_part(
    acts: &mut Items<Act>,
    alloc: Global,
    state: &State,
    channel: Option<&[u8]>,
) -> Result<(), NoMemory>
    ensures { OnOk result (acts.new ≡ acts.old
        ++ part_of (seen state.now) (option_copied channel.entry)) }
{
    let Some(channel) = channel else {
        return Ok(());
    };
    if channel_at(state, channel).is_none() {
        return Ok(());
    }
    acts.push(sent(alloc, b"PART", channel)?)
}

/// What is said before a buffer is closed.
#[tactic(auto, unfolding(crate::specs::CloseActs::close_acts))]
pub(crate) fn close_acts(
    alloc: Global,
    buffers: &Buffers,
    state: &State,
    buffer: Handle,
) -> Result<Items<Act>, NoMemory>
    ensures { IfOk result (λ acts. acts ≡ close_acts buffers.now (seen state.now) buffer) }
{
    let mut acts = Items::new(alloc);
    let channel = place_at(buffers, buffer).channel();
    if let Some(state) = link_at(state, buffers, buffer) {
        put_part(&mut acts, alloc, state, channel)?;
    }
    Ok(acts)
}
