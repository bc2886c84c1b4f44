ghost use Rattle.std.specs.Prelude.{◌≡◌, ◌≢◌, ◌≤◌, Ok, Err, map, length, IfOk, IfErr, OnOk, OnErr};
ghost use Rattle.wc_irc.specs.ChannelLaws.{HasChannelNames};
ghost use Rattle.wc_irc.specs.Channels.{joined};
ghost use Rattle.wc_irc.specs.LinkActs.{first_acts, after_connect, loss_acts, after_loss};
ghost use Rattle.wc_irc.specs.ServerActs.{acts_of_server, after_server};
ghost use Rattle.wc_irc.specs.Start.{start_of};
ghost use Rattle.wc_irc.specs.declared.refused.ServerRefused.TheVariants as Refused;
ghost use Rattle.wc_ircmsg.specs.Utf8.{MessageIsUtf8};

use crate::act::Act;
use crate::channel::Channel;
use crate::link_acts::{on_connect, on_lost};
use crate::refused::ServerRefused;
use crate::server_acts::on_message;
use crate::start::started;
use crate::state::State;
use std::alloc::Global;
use std::marker::Model;
use wc_buffers::Buffers;
use wc_irc_texts::Features;
use wc_ircmsg::Message;
use wc_options::Options;
use wc_text::{Address, Items, NoMemory, Text};

/// A server over one link, from the beginning of its connection on. The options are those that it
/// had then.
#[derive(Drop)]
pub struct Server {
    pub(crate) state: State,
}

impl Model for Server {
    ghost use Rattle.wc_irc.specs.ChannelLaws.{AreKept};
    ghost use Rattle.wc_irc.specs.Servers.{ServerState};
    ghost use Rattle.wc_irc.specs.ServersSeen.{seen};

    ghost Value = { ServerState };

    ghost view = { λ a. seen a.state };

    ghost invariant = { λ a. AreKept (seen a.state) };
}

impl Server {
    /// A server that is to be connected, as the options have it. Refused as `TlsOn` exactly where
    /// it is to use TLS, and else as `BadAddress` exactly where its option `addresses` is no
    /// address. Its own nick is the first of `nicks` that is one and has at most 60 bytes, or
    /// `weechat` where there is none.
    pub fn new(alloc: Global, name: &[u8], options: &Options) -> Result<Server, ServerRefused>
        ensures made { IfOk result (λ server. start_of options.now name.now ≡ Ok server) }
        ensures refused { IfErr result (λ refused. refused ≢ Refused.NoMemory →
            start_of options.now name.now ≡ Err refused) }
    {
        match started(alloc, name, options) {
            Ok(state) => Ok(Server { state }),
            Err(refused) => Err(refused),
        }
    }

    /// Its name.
    pub fn name(&self) -> &Text
        ensures { result.now ≡ self.now.name }
    {
        &self.state.name
    }

    /// Where it is to be connected to.
    pub fn address(&self) -> Address
        ensures { result ≡ self.now.address }
    {
        self.state.address
    }

    /// The own nick, which before the first 001 is the one that was tried last.
    pub fn nick(&self) -> &Text
        ensures { result.now ≡ self.now.nick }
    {
        &self.state.nick
    }

    /// Whether this link had its first 001.
    pub fn is_registered(&self) -> bool
        ensures { result ≡ self.now.is_registered }
    {
        self.state.is_registered
    }

    /// What the server told of itself.
    pub fn features(&self) -> &Features
        ensures { result.now ≡ self.now.features }
    {
        &self.state.features
    }

    /// The joined channels in the order of joining, each with its nicks: at most 1,024. Each has the
    /// name of a channel where CHANTYPES is what the server told.
    pub fn channels(&self) -> &[Channel]
        ensures channels { map joined result.now ≡ self.now.channels }
        ensures names { HasChannelNames self.now }
        ensures few { length self.now.channels ≤ 1024 }
    {
        self.state.channels.as_slice()
    }

    /// What is said as the link begins: PASS where the server has a password, NICK and USER
    /// (RFC 2812). Where memory is refused the server stays as it was.
    pub fn registered_lines(&mut self, alloc: Global) -> Result<Items<Act>, NoMemory>
        ensures acts { IfOk result (λ acts. acts ≡ first_acts self.old) }
        ensures after { OnOk result (self.new ≡ after_connect self.old) }
        ensures unchanged { OnErr result (self.new ≡ self.old) }
    {
        on_connect(&mut self.state, alloc)
    }

    /// What follows of the link's loss, where these buffers are there: the nicks of each channel go,
    /// a line of the server's own buffer and the signal `irc_server_disconnected`. No channel is
    /// joined then. Where memory is refused the server stays as it was.
    pub fn on_lost(&mut self, alloc: Global, buffers: &Buffers) -> Result<Items<Act>, NoMemory>
        ensures acts { IfOk result (λ acts. acts ≡ loss_acts buffers.now self.old) }
        ensures after { OnOk result (self.new ≡ after_loss self.old) }
        ensures unchanged { OnErr result (self.new ≡ self.old) }
    {
        on_lost(&mut self.state, alloc, buffers)
    }

    /// What follows of a message where these buffers are there, and the server takes it in. Where
    /// memory is refused the server stays as it was.
    ///
    /// The first 001 gives the own nick, tells it to each buffer of the server that has another
    /// one, and joins the channels of `autojoin`. A PING is answered by a PONG with the same last
    /// parameter (RFC 2812). Before the first 001 each of four 433 is answered by a NICK with the
    /// next of `nicks`, or with the last one and `_`, and a fifth gives the server up. While a
    /// channel is joined a 005 changes nothing.
    ///
    /// The own JOIN opens the channel's buffer where it is not there, with the groups of its nicks.
    /// A nick comes onto the list of a joined channel at a JOIN, and leaves it at a PART, KICK or
    /// QUIT; where it is the own one, a PART or KICK takes all of them out. A NICK keeps its place,
    /// and takes it out where the name is no nick or another one's. A MODE and a list of names (353)
    /// move nicks between the groups of PREFIX. What is said privately opens the buffer of its nick.
    ///
    /// Where so many private buffers of the server are there as `irc.look.private_max` had it when the
    /// connection was begun, and that is below 256, what would open another one is printed on the
    /// server's own buffer instead, with the same tags and levels.
    ///
    /// While 1,024 channels are joined, the own JOIN of another one joins nothing: it is a line of the
    /// server's own buffer, as any message that is not known, and so are that channel's names.
    ///
    /// Where the capability `server-time` stands, the lines have the moment that the message tells,
    /// and else none.
    ///
    /// A message of the own nick with a user and a host tells how much of a text reaches others in
    /// one line.
    pub fn on_message(
        &mut self,
        alloc: Global,
        buffers: &Buffers,
        m: &Message,
    ) -> Result<Items<Act>, NoMemory>
        requires { MessageIsUtf8 m.now }
        ensures acts { IfOk result (λ acts. acts
            ≡ acts_of_server buffers.now self.old m.now) }
        ensures after { OnOk result (self.new ≡ after_server self.old m.now) }
        ensures unchanged { OnErr result (self.new ≡ self.old) }
    {
        on_message(&mut self.state, alloc, buffers, m)
    }
}
