ghost use Rattle.std.specs.Prelude.{◌≡◌, ◌++◌, codes, IfOk, OnOk};
ghost use Rattle.wc_irc.specs.InviteActs.{is_of_another, invite_line, invite_acts};
ghost use Rattle.wc_irc.specs.ServersSeen.{seen};
ghost use Rattle.wc_irc_texts.specs.Rows.{param};

use crate::act::Act;
use crate::lines::{nick_tags, printed};
use crate::state::State;
use crate::talk_acts::put_other;
use crate::targets::found;
use std::alloc::Global;
use wc_buffers::Buffers;
use wc_irc_texts::{joined, param};
use wc_ircmsg::Message;
use wc_text::{Items, NoMemory, Text};

/// Whether another nick is invited than the own one, and the server tells of such.
fn is_of_another(state: &State, m: &Message) -> bool
    ensures { result ≡ is_of_another (seen state.now) m.now }
{
    state.has_capability(b"invite-notify") && !state.is_own(param(m, 0))
}

fn invite_text(alloc: Global, m: &Message) -> Result<Text, NoMemory>
    ensures { IfOk result (λ text. text ≡ m.now.nick ++ codes " has invited " ++ param 0 m.now
        ++ codes " to " ++ param 1 m.now) }
{
    let nick = m.nick.as_slice();
    let (invited, channel) = (param(m, 0), param(m, 1));
    joined(alloc, &[nick, b" has invited ", invited, b" to ", channel])
}

fn invite_line(alloc: Global, m: &Message, buffer: &[u8]) -> Result<Act, NoMemory>
    ensures { IfOk result (λ a. a ≡ invite_line m.now buffer.now) }
{
    let text = invite_text(alloc, m)?;
    let tags = nick_tags(alloc, b"irc_invite", m)?;
    printed(alloc, buffer, tags, b"--", text.as_slice())
}

/// Puts what follows of an INVITE: that of another nick is told to its channel, where that has a
/// buffer.
pub(crate) fn put_invite(
    acts: &mut Items<Act>,
    alloc: Global,
    buffers: &Buffers,
    state: &State,
    m: &Message,
) -> Result<(), NoMemory>
    ensures { OnOk result (acts.new
        ≡ acts.old ++ invite_acts buffers.now (seen state.now) m.now) }
{
    if !is_of_another(state, m) {
        return put_other(acts, alloc, state, m);
    }
    match found(alloc, buffers, state, param(m, 1))? {
        Some(buffer) => acts.push(invite_line(alloc, m, buffer.as_slice())?),
        None => Ok(()),
    }
}
