ghost use Rattle.std.specs.Prelude.{◌≡◌, true, IfOk};
ghost use Rattle.std.specs.Str.{IsUtf8};
ghost use Rattle.wc_buffers.specs.Calls.{vars_at};
ghost use Rattle.wc_buffers.specs.Kept.{AreBuffers};
ghost use Rattle.wc_ircmsg.specs.Written.{is_one_line};
ghost use Rattle.wc_irc.specs.CommandActs.{acts_of_line, linked, linked_in, acts_of_typed};
ghost use Rattle.wc_irc.specs.CommandActs.{acts_of_unlinked};
ghost use Rattle.wc_irc.specs.CommandSeen.{place_seen, link_seen, IsPlaceUtf8};
ghost use Rattle.wc_irc.specs.ServersSeen.{seen};

use crate::act::Act;
use crate::errand::errand_of;
use crate::errand_acts::put_errand;
use crate::place::{Place, place_at};
use crate::state::State;
use crate::talk_acts::has_value;
use std::alloc::Global;
use wc_buffers::{Buffers, Vars};
use wc_irc_texts::in_one_line;
use wc_irc_words::read_server_command;
use wc_text::{Handle, Items, NoMemory};

/// What a line that is typed at a place comes to, where this link stands.
fn acts_of_line(
    alloc: Global,
    buffers: &Buffers,
    link: Option<&State>,
    place: Place<'_>,
    line: &[u8],
) -> Result<Option<Items<Act>>, NoMemory>
    requires place { IsPlaceUtf8 (place_seen place) }
    requires one_line { is_one_line line.now ≡ true }
    requires text { IsUtf8 line.now }
    ensures { IfOk result (λ acts. acts ≡ acts_of_line buffers.now (link_seen link.entry)
        (place_seen place.entry) line.now) }
{
    let Some(command) = read_server_command(line) else {
        return Ok(None);
    };
    let Some(errand) = errand_of(alloc, link, place, &command)? else {
        return Ok(None);
    };
    let mut acts = Items::new(alloc);
    put_errand(&mut acts, alloc, buffers, link, errand)?;
    Ok(Some(acts))
}

/// The link of a buffer with these variables, where it is that of this server and stands.
fn linked<'a>(state: &'a State, vars: &Vars) -> Option<&'a State>
    ensures { link_seen result ≡ linked (seen state.now) vars.now }
{
    if state.is_connected && has_value(vars, b"server", state.name.as_slice()) {
        Some(state)
    } else {
        None
    }
}

/// The link of a buffer.
pub(crate) fn link_at<'a>(state: &'a State, buffers: &Buffers, buffer: Handle) -> Option<&'a State>
    ensures { link_seen result ≡ linked_in (seen state.now) (vars_at buffer buffers.now) }
{
    match buffers.vars(buffer) {
        Some(vars) => linked(state, vars),
        None => None,
    }
}

/// What a text that is typed into a buffer comes to at a server.
#[tactic(auto, unfolding(crate::specs::CommandActs::acts_of_typed))]
pub(crate) fn on_command(
    state: &State,
    alloc: Global,
    buffers: &Buffers,
    buffer: Handle,
    text: &[u8],
) -> Result<Option<Items<Act>>, NoMemory>
    requires { IsUtf8 text.now }
    ensures acts { IfOk result (λ acts. acts
        ≡ acts_of_typed buffers.now (seen state.now) buffer text.now) }
    ensures held { AreBuffers buffers.now }
{
    let _ = buffers.groups();
    let line = in_one_line(alloc, text)?;
    let link = link_at(state, buffers, buffer);
    let place = place_at(buffers, buffer);
    acts_of_line(alloc, buffers, link, place, line.as_slice())
}

/// What follows of a text that is typed into a buffer of no server that has a link. None exactly
/// where `Server::on_command` has none: where the text is empty or another command, or makes,
/// deletes, connects or disconnects a server. Nothing is sent: each answer is a refusal.
#[tactic(auto, unfolding(crate::specs::CommandActs::acts_of_unlinked))]
pub fn on_command_unlinked(
    alloc: Global,
    buffers: &Buffers,
    buffer: Handle,
    text: &[u8],
) -> Result<Option<Items<Act>>, NoMemory>
    requires { IsUtf8 text.now }
    ensures { IfOk result (λ acts. acts ≡ acts_of_unlinked buffers.now buffer text.now) }
{
    let line = in_one_line(alloc, text)?;
    let place = place_at(buffers, buffer);
    acts_of_line(alloc, buffers, None, place, line.as_slice())
}
