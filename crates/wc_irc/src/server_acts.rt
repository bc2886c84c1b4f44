ghost use Rattle.std.specs.Prelude.{◌≡◌, ◌++◌, unwrap_or, IfOk, OnOk, OnErr};
ghost use Rattle.wc_irc.specs.ServerActs.{acts_of_kind, after_kind, is_too_many, kind_within, kind_to};
ghost use Rattle.wc_irc.specs.ServerActs.{acts_of_server, with_mask, after_server};
ghost use Rattle.wc_irc.specs.Dates.{moment_of, dated_acts};
ghost use Rattle.wc_irc.specs.Servers.{tells_mask, mask_after};
ghost use Rattle.wc_irc.specs.ServersSeen.{seen};
ghost use Rattle.wc_ircmsg.specs.Utf8.{MessageIsUtf8};

use crate::act::Act;
use crate::channel_acts::{put_join, put_quit};
use crate::channel_row::{ChannelRow, put_row};
use crate::dates::{dated_acts, moment_of};
use crate::invite_acts::put_invite;
use crate::login_acts::put_login;
use crate::rename_acts::put_nick;
use crate::speech_acts::put_privmsg;
use crate::state::State;
use crate::talk_acts::{put_error, put_notice, put_other, put_ping, put_taken, put_welcome};
use std::alloc::Global;
use wc_buffers::Buffers;
use wc_irc_texts::{MessageKind, joined, kind_of, param};
use wc_ircmsg::Message;
use wc_text::{Items, NoMemory, Text};

impl State {
    /// Whether a message of a kind is about a channel that is one too many.
    fn is_too_many(&self, m: &Message, kind: MessageKind) -> bool
        ensures { result ≡ is_too_many (seen self.now) m.now kind }
    {
        match kind {
            MessageKind::Join => self.is_own(m.nick.as_slice()) && self.is_beyond(param(m, 0)),
            MessageKind::Names => self.is_beyond(param(m, 2)),
            _ => false,
        }
    }

    fn kind_within(&self, m: &Message, kind: MessageKind) -> MessageKind
        ensures { result ≡ kind_within (seen self.now) m.now kind }
    {
        if self.is_too_many(m, kind) {
            MessageKind::Other
        } else {
            kind
        }
    }

    /// What a message tells the server as it is.
    pub(crate) fn kind(&self, m: &Message) -> MessageKind
        ensures { result ≡ kind_to (seen self.now) m.now }
    {
        let kind = kind_of(self.features.chan_types.as_slice(), self.is_registered, m);
        self.kind_within(m, kind)
    }

    /// Takes in a message.
    #[tactic(auto, unfolding(crate::specs::ServerActs::after_kind))]
    pub(crate) fn take_in(
        &mut self,
        alloc: Global,
        m: &Message,
        kind: MessageKind,
    ) -> Result<(), NoMemory>
        ensures after { OnOk result (seen self.new ≡ after_kind (seen self.old) m.now kind) }
        ensures unchanged { OnErr result (seen self.new ≡ seen self.old) }
    {
        match kind {
            MessageKind::Welcome => self.welcome(alloc, param(m, 0)),
            MessageKind::Tokens => self.take_tokens(alloc, m.params.as_slice()),
            MessageKind::NickInUse => self.try_next(alloc),
            MessageKind::Join => self.join(alloc, m.nick.as_slice(), param(m, 0)),
            MessageKind::Part => {
                self.leave(m.nick.as_slice(), param(m, 0));
                Ok(())
            }
            MessageKind::Kick => {
                self.leave(param(m, 1), param(m, 0));
                Ok(())
            }
            MessageKind::Mode => self.take_modes(alloc, m),
            MessageKind::Names => self.take_names(alloc, m),
            MessageKind::Nick => self.rename(alloc, m.nick.as_slice(), param(m, 0)),
            MessageKind::Quit => {
                self.quit(m.nick.as_slice());
                Ok(())
            }
            MessageKind::Other => self.take_login(alloc, m),
            _ => Ok(()),
        }
    }

    /// Whether a message tells how others see the own nick.
    fn tells_mask(&self, m: &Message) -> bool
        ensures { result ≡ tells_mask (seen self.now) m.now }
    {
        !m.user.as_slice().is_empty()
            && !m.host.as_slice().is_empty()
            && self.is_own(m.nick.as_slice())
    }

    /// How others see the own nick, where a message tells it.
    fn told_mask(&self, alloc: Global, m: &Message) -> Result<Option<Text>, NoMemory>
        ensures { IfOk result (λ mask. unwrap_or mask self.now.mask
            ≡ mask_after (seen self.now) m.now) }
    {
        if !self.tells_mask(m) {
            return Ok(None);
        }
        let user = m.user.as_slice();
        let mask = joined(alloc, &[user, b"@", m.host.as_slice()])?;
        Ok(Some(mask))
    }

    fn put_mask(&mut self, told: Option<Text>)
        ensures { seen self.new ≡ with_mask (unwrap_or told self.old.mask) (seen self.old) }
    {
        let Some(mask) = told else {
            return;
        };
        self.mask = mask;
    }

    /// Takes in a message, and how others see the own nick where it tells it.
    fn take_all(&mut self, alloc: Global, m: &Message, kind: MessageKind) -> Result<(), NoMemory>
        ensures after { OnOk result (seen self.new ≡ with_mask (mask_after (seen self.old) m.now)
            (after_kind (seen self.old) m.now kind)) }
        ensures unchanged { OnErr result (seen self.new ≡ seen self.old) }
    {
        let told = self.told_mask(alloc, m)?;
        match self.take_in(alloc, m, kind) {
            Ok(()) => {
                self.put_mask(told);
                Ok(())
            }
            Err(NoMemory) => {
                drop(told);
                Err(NoMemory)
            }
        }
    }
}

/// Puts what follows of a message after the acts.
#[tactic(auto, unfolding(crate::specs::ServerActs::acts_of_kind))]
fn put_acts(
    acts: &mut Items<Act>,
    alloc: Global,
    buffers: &Buffers,
    state: &State,
    m: &Message,
    kind: MessageKind,
) -> Result<(), NoMemory>
    requires { MessageIsUtf8 m.now }
    ensures { OnOk result (acts.new
        ≡ acts.old ++ acts_of_kind buffers.now (seen state.now) m.now kind) }
{
    match kind {
        MessageKind::Welcome => put_welcome(acts, alloc, buffers, state, m),
        MessageKind::NickInUse => put_taken(acts, alloc, state),
        MessageKind::Join => put_join(acts, alloc, buffers, state, m),
        MessageKind::Part => put_row(acts, alloc, buffers, state, m, ChannelRow::Part),
        MessageKind::Kick => put_row(acts, alloc, buffers, state, m, ChannelRow::Kick),
        MessageKind::Quit => put_quit(acts, alloc, buffers, state, m),
        MessageKind::Topic => put_row(acts, alloc, buffers, state, m, ChannelRow::Topic),
        MessageKind::TopicReply => put_row(acts, alloc, buffers, state, m, ChannelRow::TopicReply),
        MessageKind::NamesEnd => put_row(acts, alloc, buffers, state, m, ChannelRow::NamesEnd),
        MessageKind::ModeReply => put_row(acts, alloc, buffers, state, m, ChannelRow::ModeReply),
        MessageKind::Privmsg => put_privmsg(acts, alloc, buffers, state, m),
        MessageKind::Nick => put_nick(acts, alloc, buffers, state, m),
        MessageKind::Mode => put_row(acts, alloc, buffers, state, m, ChannelRow::Mode),
        MessageKind::Names => put_row(acts, alloc, buffers, state, m, ChannelRow::Names),
        MessageKind::Notice => put_notice(acts, alloc, buffers, state, m),
        MessageKind::Ping => put_ping(acts, alloc, m),
        MessageKind::Error => put_error(acts, alloc, state, m),
        MessageKind::Invite => put_invite(acts, alloc, buffers, state, m),
        MessageKind::Tokens => put_other(acts, alloc, state, m),
        MessageKind::Other => put_login(acts, alloc, state, m),
    }
}

/// What follows of a message.
pub(crate) fn acts_of(
    alloc: Global,
    buffers: &Buffers,
    state: &State,
    m: &Message,
    kind: MessageKind,
) -> Result<Items<Act>, NoMemory>
    requires { MessageIsUtf8 m.now }
    ensures { IfOk result (λ acts. acts ≡ dated_acts (moment_of (seen state.now) m.now)
        (acts_of_kind buffers.now (seen state.now) m.now kind)) }
{
    let mut acts = Items::new(alloc);
    put_acts(&mut acts, alloc, buffers, state, m, kind)?;
    dated_acts(alloc, moment_of(state, m), acts)
}

/// The same, and takes the message in. Where memory is refused the server stays as it was.
pub(crate) fn on_message(
    state: &mut State,
    alloc: Global,
    buffers: &Buffers,
    m: &Message,
) -> Result<Items<Act>, NoMemory>
    requires { MessageIsUtf8 m.now }
    ensures acts { IfOk result (λ acts. acts
        ≡ acts_of_server buffers.now (seen state.old) m.now) }
    ensures after { OnOk result (seen state.new ≡ after_server (seen state.old) m.now) }
    ensures unchanged { OnErr result (seen state.new ≡ seen state.old) }
{
    let kind = state.kind(m);
    let acts = acts_of(alloc, buffers, state, m, kind)?;
    match state.take_all(alloc, m, kind) {
        Ok(()) => Ok(acts),
        Err(NoMemory) => {
            drop(acts);
            Err(NoMemory)
        }
    }
}
