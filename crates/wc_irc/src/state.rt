ghost use Rattle.std.specs.Prelude.{◌≡◌, drop, IfOk, OnOk, OnErr};
ghost use Rattle.wc_irc.specs.Servers.{is_own, own_nick_from, after_welcome, next_nick, may_try};
ghost use Rattle.wc_irc.specs.Servers.{after_taken, after_features, has_capability};
ghost use Rattle.wc_irc.specs.ServersSeen.{seen};

use crate::channel::Channel;
use std::alloc::Global;
use wc_irc_texts::{Features, Negotiation, is_nick, is_same};
use wc_text::{Address, Items, NoMemory, Text};

/// So many nicks that are in use are answered by another one.
const MOST_TAKEN: u32 = 4;

/// What a user gives of a server, beside its nicks.
#[derive(Drop)]
pub(crate) struct Login {
    pub(crate) user: Text,
    pub(crate) real_name: Text,
    pub(crate) password: Text,
    pub(crate) autojoin: Text,
}

/// What one server is known to be.
#[derive(Drop)]
pub(crate) struct State {
    pub(crate) name: Text,
    pub(crate) address: Address,
    pub(crate) login: Login,
    /// The own nick, which before the first 001 is the one that was tried last.
    pub(crate) nick: Text,
    /// The nicks to try, of which so many were tried.
    pub(crate) nicks: Items<Text>,
    pub(crate) tried: usize,
    /// How many nicks that were tried are in use.
    pub(crate) taken: u32,
    /// How the login goes on.
    pub(crate) negotiation: Negotiation,
    /// `user@host` as others see the own nick, or nothing before it is told.
    pub(crate) mask: Text,
    pub(crate) is_connected: bool,
    pub(crate) is_registered: bool,
    pub(crate) features: Features,
    /// The joined channels in the order of joining.
    pub(crate) channels: Vec<Channel>,
    /// How many private buffers messages may open.
    pub(crate) private_max: u32,
}

/// How many nicks were tried after one more, of which there need not be so many.
#[tactic(auto, using(crate::proofs::StateLemmas::tried_facts))]
fn tried_after(nicks: &[Text], tried: usize) -> usize
    ensures { drop result nicks.now ≡ drop 1 (drop tried nicks.now) }
{
    if tried < nicks.len() {
        tried + 1
    } else {
        tried
    }
}

impl State {
    /// Whether a nick is the own one.
    pub(crate) fn is_own(&self, nick: &[u8]) -> bool
        ensures { result ≡ is_own (seen self.now) nick.now }
    {
        is_same(self.features.case_map, nick, self.nick.as_slice())
    }

    /// Whether the capability of this name stands.
    pub(crate) fn has_capability(&self, name: &[u8]) -> bool
        ensures { result ≡ has_capability name.now (seen self.now) }
    {
        self.negotiation.has(name)
    }

    /// The own nick after a welcome to this one: the one that it is already, where this is no nick.
    pub(crate) fn own_nick_from<'a>(&'a self, nick: &'a [u8]) -> &'a [u8]
        ensures { result.now ≡ own_nick_from (seen self.now) nick.now }
    {
        if is_nick(&self.features.prefixes, nick) {
            nick
        } else {
            self.nick.as_slice()
        }
    }

    /// Takes in a 001 with this nick.
    pub(crate) fn welcome(&mut self, alloc: Global, nick: &[u8]) -> Result<(), NoMemory>
        ensures after { OnOk result (seen self.new ≡ after_welcome (seen self.old) nick.now) }
        ensures unchanged { OnErr result (self.new ≡ self.old) }
    {
        if self.is_registered {
            return Ok(());
        }
        let nick = Text::from_slice(alloc, self.own_nick_from(nick))?;
        self.nick = nick;
        self.is_registered = true;
        self.negotiation.end();
        Ok(())
    }

    pub(crate) fn may_try(&self) -> bool
        ensures { result ≡ may_try (seen self.now) }
    {
        self.taken < MOST_TAKEN
    }

    /// The nick that is tried after one that is in use.
    pub(crate) fn next_nick(&self, alloc: Global) -> Result<Text, NoMemory>
        ensures { IfOk result (λ nick. nick ≡ next_nick (seen self.now)) }
    {
        if let Some(nick) = self.nicks.as_slice().get(self.tried) {
            return nick.copy(alloc);
        }
        let mut nick = self.nick.copy(alloc)?;
        nick.append(b"_")?;
        Ok(nick)
    }

    /// Takes in that a nick is in use, before the first 001.
    #[tactic(auto, using(crate::proofs::TriedLemmas::after_try))]
    pub(crate) fn try_next(&mut self, alloc: Global) -> Result<(), NoMemory>
        ensures after { OnOk result (seen self.new ≡ after_taken (seen self.old)) }
        ensures unchanged { OnErr result (self.new ≡ self.old) }
    {
        if !self.may_try() {
            return Ok(());
        }
        let nick = self.next_nick(alloc)?;
        self.nick = nick;
        self.tried = tried_after(self.nicks.as_slice(), self.tried);
        self.taken += 1;
        Ok(())
    }

    /// Takes in a 005 with these parameters. While a channel is joined it changes nothing.
    pub(crate) fn take_tokens(&mut self, alloc: Global, params: &[Text]) -> Result<(), NoMemory>
        ensures after { OnOk result (seen self.new ≡ after_features (seen self.old) params.now) }
        ensures unchanged { OnErr result (self.new ≡ self.old) }
    {
        if !self.channels.is_empty() {
            return Ok(());
        }
        self.features = self.features.after_tokens(alloc, params)?;
        Ok(())
    }
}
