ghost use Rattle.std.specs.Prelude.{◌≡◌, position, IfOk, OnOk, OnErr};
ghost use Rattle.wc_irc.specs.Channels.{is_channel_named, joined};
ghost use Rattle.wc_irc.specs.ChannelStates.{with_nick, new_channel, entered, after_join};
ghost use Rattle.wc_irc.specs.ChannelStates.{after_leave, quit_by, is_beyond};
ghost use Rattle.wc_irc.specs.ServersSeen.{seen};

use crate::channel::{Channel, channel_place, quit};
use crate::channel_acts::channel_at;
use crate::state::State;
use std::alloc::Global;
use wc_irc_nicks::Members;
use wc_text::{NoMemory, Text};

/// So many channels are joined at most.
const MOST_CHANNELS: usize = 1024;

impl State {
    /// Whether a channel is one too many: it is not joined, and so many others are.
    pub(crate) fn is_beyond(&self, name: &[u8]) -> bool
        ensures { result ≡ is_beyond (seen self.now) name.now }
    {
        self.channels.len() >= MOST_CHANNELS && channel_at(self, name).is_none()
    }

    /// The place of the joined channel of a name.
    pub(crate) fn place_of(&self, name: &[u8]) -> Option<usize>
        ensures { result ≡ position (is_channel_named self.now.features.case_map name.now)
            self.now.channels.items }
    {
        channel_place(&self.channels, self.features.case_map, name)
    }

    /// A channel of this name with the nick that joins it.
    fn new_channel(&self, alloc: Global, nick: &[u8], name: &[u8]) -> Result<Channel, NoMemory>
        ensures { IfOk result (λ channel. joined channel ≡ with_nick self.now.features.prefixes
            nick.now (new_channel (seen self.now) name.now)) }
    {
        let mut channel = Channel {
            name: Text::from_slice(alloc, name)?,
            nicks: Members::new(alloc, self.features.case_map),
        };
        channel.come_in(alloc, &self.features.prefixes, nick)?;
        Ok(channel)
    }

    /// Takes in that the own nick joined a channel that was not joined.
    fn enter(&mut self, alloc: Global, nick: &[u8], name: &[u8]) -> Result<(), NoMemory>
        ensures after { OnOk result (seen self.new ≡ entered (seen self.old) nick.now name.now) }
        ensures unchanged { OnErr result (seen self.new ≡ seen self.old) }
    {
        let channel = self.new_channel(alloc, nick, name)?;
        self.channels.reserve(1)?;
        self.channels.push_reserved(channel);
        Ok(())
    }

    /// Takes in that a nick joined a channel.
    pub(crate) fn join(&mut self, alloc: Global, nick: &[u8], name: &[u8]) -> Result<(), NoMemory>
        ensures after { OnOk result (seen self.new
            ≡ after_join (seen self.old) nick.now name.now) }
        ensures unchanged { OnErr result (seen self.new ≡ seen self.old) }
    {
        match self.place_of(name) {
            Some(place) => self.channels[place].come_in(alloc, &self.features.prefixes, nick),
            None if self.is_own(nick) => self.enter(alloc, nick, name),
            None => Ok(()),
        }
    }

    /// Takes in that a nick left a channel. It takes no memory.
    pub(crate) fn leave(&mut self, nick: &[u8], name: &[u8])
        ensures { seen self.new ≡ after_leave (seen self.old) nick.now name.now }
    {
        let Some(place) = self.place_of(name) else {
            return;
        };
        if self.is_own(nick) {
            drop(self.channels.remove(place));
        } else {
            self.channels[place].nicks.remove(nick);
        }
    }

    /// Takes in that a nick left all channels. It takes no memory.
    pub(crate) fn quit(&mut self, nick: &[u8])
        ensures { seen self.new ≡ quit_by (seen self.old) nick.now }
    {
        quit(&mut self.channels, nick);
    }
}
