ghost use Rattle.std.specs.Prelude.{◌≡◌, ◌≤◌, Some, true, false, length, drop, IfOk, OnOk, OnErr};
ghost use Rattle.wc_irc.specs.LinkActs.{first_acts, after_connect, loss_acts, after_loss};
ghost use Rattle.wc_irc.specs.ServerActs.{acts_of_server, after_server};
ghost use Rattle.wc_ircmsg.specs.Utf8.{MessageIsUtf8};
ghost use Rattle.wc_servers.specs.Seats.{new_seat, is_open, told, known, left_for, quitting};

use bytes::BytesMut;
use std::alloc::Global;
use std::marker::Model;
use wc_buffers::Buffers;
use wc_irc::{Act, Server};
use wc_ircmsg::Message;
use wc_text::{Cause, Items, LinkId, NoMemory};

/// How many bytes may wait to be sent to a server.
const MOST_UNSENT: usize = 16 << 20;

/// A server over its link. One that is leaving takes part in nothing more, and its unsent bytes are
/// still lent.
#[derive(Drop)]
pub struct Seat {
    link: LinkId,
    server: Server,
    unsent: BytesMut,
    leaving: Option<Cause>,
    /// How many began to leave before it did.
    rank: u64,
}

impl Model for Seat {
    ghost use Rattle.wc_servers.specs.Seats.{SeatView};

    ghost Value = { SeatView };

    ghost view = { λ s. record {
      link = s.link.0;
      server = s.server;
      unsent = s.unsent.items;
      leaving = s.leaving;
      rank = s.rank;
    } };
}

/// What ends a line.
const END: &[u8] = b"\r\n";

impl Seat {
    pub(crate) fn new(alloc: Global, link: LinkId, server: Server) -> Seat
        ensures { result ≡ new_seat link.0 server }
    {
        Seat {
            link,
            server,
            unsent: BytesMut::new(alloc),
            leaving: None,
            rank: 0,
        }
    }

    pub fn link(&self) -> LinkId
        ensures { result.0 ≡ self.now.link }
    {
        self.link
    }

    pub fn server(&self) -> &Server
        ensures { result.now ≡ self.now.server }
    {
        &self.server
    }

    pub fn is_open(&self) -> bool
        ensures { result ≡ is_open self.now }
    {
        self.leaving.is_none()
    }

    /// Why it is leaving, if it is.
    pub fn leaving(&self) -> Option<Cause>
        ensures { result ≡ self.now.leaving }
    {
        self.leaving
    }

    pub(crate) fn rank(&self) -> u64
        ensures { result ≡ self.now.rank }
    {
        self.rank
    }

    /// The bytes that are still to be sent.
    pub fn unsent(&self) -> &[u8]
        ensures { result.now ≡ self.now.unsent }
    {
        self.unsent.as_slice()
    }

    /// Takes the first bytes away from the unsent ones.
    pub(crate) fn gone(&mut self, count: usize)
        requires { count ≤ length self.old.unsent }
        ensures { self.new ≡ record self.old { unsent = drop count self.old.unsent } }
    {
        self.unsent.advance(count);
    }

    /// Puts a line with its end after the unsent bytes. Where memory is refused, or they would be more
    /// than 16 MB, they stay as they were.
    pub(crate) fn tell(&mut self, line: &[u8]) -> Result<(), NoMemory>
        ensures told { OnOk result (self.new ≡ told line.now self.old) }
        ensures unchanged { OnErr result (self.new ≡ self.old) }
        ensures link { self.new.link ≡ self.old.link }
    {
        let count = line.len().checked_add(END.len()).ok_or(NoMemory)?;
        if self.unsent.len().saturating_add(count) > MOST_UNSENT {
            return Err(NoMemory);
        }
        if self.unsent.reserve(count).is_err() {
            return Err(NoMemory);
        }
        self.unsent.extend_reserved(line);
        self.unsent.extend_reserved(END);
        Ok(())
    }

    /// Tells it that the run ends, where it is not leaving and its link stands. False where memory
    /// is refused: it stays as it was.
    pub(crate) fn quit(&mut self, alloc: Global) -> bool
        ensures told { result ≡ true → self.new ≡ quitting self.old }
        ensures unchanged { result ≡ false → self.new ≡ self.old }
    {
        if !self.is_open() {
            return true;
        }
        let Ok(acts) = self.server.before_quit(alloc) else {
            return false;
        };
        match acts.as_slice() {
            [Act::Send(line), ..] => self.tell(line.as_slice()).is_ok(),
            _ => true,
        }
    }

    /// What is said as its link begins to stand. Where memory is refused it stays as it was.
    pub(crate) fn stand(&mut self, alloc: Global) -> Result<Items<Act>, NoMemory>
        ensures acts { IfOk result (λ acts. acts ≡ first_acts self.old.server) }
        ensures after { OnOk result
            (self.new ≡ known (after_connect self.old.server) self.old) }
        ensures unchanged { OnErr result (self.new ≡ self.old) }
        ensures link { self.new.link ≡ self.old.link }
    {
        self.server.registered_lines(alloc)
    }

    /// What follows of a message where these buffers are there. Where memory is refused it stays as
    /// it was.
    pub(crate) fn take(
        &mut self,
        alloc: Global,
        buffers: &Buffers,
        message: &Message,
    ) -> Result<Items<Act>, NoMemory>
        requires { MessageIsUtf8 message.now }
        ensures acts { IfOk result (λ acts. acts
            ≡ acts_of_server buffers.now self.old.server message.now) }
        ensures after { OnOk result
            (self.new ≡ known (after_server self.old.server message.now) self.old) }
        ensures unchanged { OnErr result (self.new ≡ self.old) }
        ensures link { self.new.link ≡ self.old.link }
    {
        self.server.on_message(alloc, buffers, message)
    }

    /// Begins to leave for this cause, after so many others, and tells what follows of its loss where
    /// these buffers are there. It leaves also where memory is refused.
    pub(crate) fn lose(
        &mut self,
        alloc: Global,
        cause: Cause,
        rank: u64,
        buffers: &Buffers,
    ) -> Result<Items<Act>, NoMemory>
        ensures acts { IfOk result (λ acts. acts ≡ loss_acts buffers.now self.old.server) }
        ensures lost { OnOk result (self.new
            ≡ left_for cause rank (known (after_loss self.old.server) self.old)) }
        ensures left { OnErr result (self.new ≡ left_for cause rank self.old) }
        ensures link { self.new.link ≡ self.old.link }
        ensures leaving { self.new.leaving ≡ Some cause }
    {
        self.leaving = Some(cause);
        self.rank = rank;
        self.server.on_lost(alloc, buffers)
    }
}
