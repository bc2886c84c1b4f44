ghost use Rattle.std.specs.Prelude.{◌≡◌, map, position, OnOk, OnErr};
ghost use Rattle.std.specs.Option.{option_copied};
ghost use Rattle.wc_irc.specs.Channels.{joined, channel_of, after_quit, LeavesOthers};
ghost use Rattle.wc_irc.specs.Channels.{is_channel_named, Joined};
ghost use Rattle.wc_irc.specs.ChannelStates.{comes_in, with_nick, may_have};

use std::alloc::Global;
use wc_irc_nicks::{Members, NewNick};
use wc_irc_texts::{ModeSet, is_nick, is_same};
use wc_ircmsg::{CaseMap, Prefixes};
use wc_text::{NoMemory, Text};

/// A joined channel and its nicks.
#[derive(Drop)]
pub struct Channel {
    /// The channel's name, as the own JOIN had it.
    pub name: Text,
    pub nicks: Members,
}

impl Channel {
    fn is_named(&self, case_map: CaseMap, name: &[u8]) -> bool
        ensures { result ≡ is_channel_named case_map name.now self.now }
    {
        is_same(case_map, name, self.name.as_slice())
    }

    /// Whether a nick comes onto the list: it is one, and is not there.
    pub(crate) fn comes_in(&self, prefixes: &Prefixes, nick: &[u8]) -> bool
        ensures { result ≡ comes_in prefixes.now nick.now (joined self.now) }
    {
        is_nick(prefixes, nick) && !self.nicks.has(nick)
    }

    /// Puts a nick to the end of the list, where it comes onto it.
    #[tactic(auto, using(crate::proofs::OneChannelLemmas::nick_facts))]
    pub(crate) fn come_in(
        &mut self,
        alloc: Global,
        prefixes: &Prefixes,
        nick: &[u8],
    ) -> Result<(), NoMemory>
        ensures after { OnOk result (joined self.new
            ≡ with_nick prefixes.now nick.now (joined self.old)) }
        ensures unchanged { OnErr result (joined self.new ≡ joined self.old) }
    {
        if !self.comes_in(prefixes, nick) {
            return Ok(());
        }
        let new = NewNick::new(alloc, self.nicks.case_map(), nick)?;
        self.nicks.reserve(1)?;
        self.nicks.push(new, ModeSet::NONE);
        Ok(())
    }

    /// Whether a nick may get another name: that is a nick, and no other one of the list has it.
    pub(crate) fn may_have(&self, prefixes: &Prefixes, old: &[u8], new: &[u8]) -> bool
        ensures { result ≡ may_have prefixes.now old.now new.now (joined self.now) }
    {
        is_nick(prefixes, new) && self.nicks.may_rename(old, new)
    }
}

/// The place of the joined channel of a name.
pub(crate) fn channel_place(channels: &[Channel], case_map: CaseMap, name: &[u8]) -> Option<usize>
    ensures { result ≡ position (is_channel_named case_map name.now) channels.now }
{
    channels
        .iter()
        .position(|channel| channel.is_named(case_map, name))
}

/// The joined channel of a name.
pub fn channel_of<'a>(
    channels: &'a [Channel],
    case_map: CaseMap,
    name: &[u8],
) -> Option<&'a Channel>
    ensures { option_copied result ≡ channel_of case_map name.now channels.now }
{
    let mut rest = channels;
    while let [channel, others @ ..] = rest {
        if channel.is_named(case_map, name) {
            return Some(channel);
        }
        rest = others;
    }
    None
}

/// Takes a nick out of each channel that has it. Every other channel stays as it was. It takes no
/// memory.
pub fn quit(channels: &mut [Channel], nick: &[u8])
    ensures after { map joined channels.new ≡ after_quit nick.now channels.old }
    ensures others { (channel : Joined) → LeavesOthers nick.now channel }
{
    for channel in channels {
        channel.nicks.remove(nick);
    }
}
