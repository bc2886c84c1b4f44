//! What is done to the server of one link.

ghost use Rattle.std.specs.Option.{option_copied};
ghost use Rattle.std.specs.Prelude.{◌≡◌, ◌≤◌, ◌+◌, ◌-◌, ◌^◌, min, length, true, false, map};
ghost use Rattle.std.specs.Prelude.{IfSome, OnOk, OnErr};
ghost use Rattle.wc_ircmsg.specs.Utf8.{MessageIsUtf8};
ghost use Rattle.wc_outside.specs.Keyed.{at_key};
ghost use Rattle.wc_servers.specs.Lost.{Stood, Took, Lost};
ghost use Rattle.wc_servers.specs.Seats.{seat_link, told_at, gone_at, forgotten, is_open_at};
ghost use Rattle.wc_servers.specs.Seats.{unsent_at, first_leaving, quitting, QuitFront};

use crate::places::{
    drop_seat, first_leaving, gone_at, lose_at, quit_all, seat_place, stand_at, take_at, tell_at,
};
use crate::seat::Seat;
use crate::servers::Servers;
use wc_buffers::Buffers;
use wc_irc::Act;
use wc_ircmsg::Message;
use wc_text::{Cause, Items, LinkId, NoMemory};

impl Servers {
    /// Puts a line with its end after the unsent bytes of the server of a link. It is dropped where
    /// there is none, or where it is leaving. Where memory is refused nothing changes.
    pub fn tell(&mut self, link: LinkId, line: &[u8]) -> Result<(), NoMemory>
        ensures told { OnOk result (self.new ≡ record self.old {
          seats = told_at link.0 line.now self.old.seats (at_key seat_link link.0 self.old.seats);
        }) }
        ensures unchanged { OnErr result (self.new ≡ self.old) }
    {
        tell_at(&mut self.seats, link, line)
    }

    /// What is said as the link of a server stands, where there is a server that is not leaving.
    /// Where memory is refused nothing changes.
    pub fn stand(&mut self, link: LinkId) -> Result<Items<Act>, NoMemory>
        ensures stood { Stood link.0 self.old.seats self.new.seats result
            (at_key seat_link link.0 self.old.seats) }
        ensures others { self.new ≡ record self.old { seats = self.new.seats } }
    {
        stand_at(&mut self.seats, self.alloc, link)
    }

    /// What follows of a message of a server, where there is a server that is not leaving, and where
    /// these buffers are there. Where memory is refused nothing changes.
    pub fn take(
        &mut self,
        link: LinkId,
        buffers: &Buffers,
        message: &Message,
    ) -> Result<Items<Act>, NoMemory>
        requires { MessageIsUtf8 message.now }
        ensures took { Took link.0 buffers.now message.now self.old.seats self.new.seats result
            (at_key seat_link link.0 self.old.seats) }
        ensures others { self.new ≡ record self.old { seats = self.new.seats } }
    {
        take_at(&mut self.seats, self.alloc, link, buffers, message)
    }

    /// Has the server of a link leave for this cause, where there is one that is not leaving, and
    /// tells what follows of its loss where these buffers are there. It leaves also where memory is
    /// refused.
    pub fn lose(
        &mut self,
        link: LinkId,
        cause: Cause,
        buffers: &Buffers,
    ) -> Result<Items<Act>, NoMemory>
        ensures lost { Lost link.0 buffers.now cause self.old.left self.old.seats self.new.seats result
            (at_key seat_link link.0 self.old.seats) }
        ensures shut { is_open_at (at_key seat_link link.0 self.new.seats) ≡ false }
        ensures others { self.new ≡ record self.old {
          seats = self.new.seats;
          left = min (self.old.left + 1) (2 ^ 64 - 1);
        } }
    {
        let rank = self.left;
        self.left = rank.saturating_add(1);
        lose_at(&mut self.seats, self.alloc, link, cause, rank, buffers)
    }

    /// Tells the servers whose links stand that the run ends, one after another. False where one
    /// finds no memory for that: it and those after it stay as they were.
    pub fn quit(&mut self) -> bool
        ensures told { result ≡ true →
            self.new ≡ record self.old { seats = map quitting self.old.seats } }
        ensures front { QuitFront self.old.seats self.new.seats }
        ensures others { self.new ≡ record self.old { seats = self.new.seats } }
    {
        quit_all(&mut self.seats, self.alloc)
    }

    /// The unsent bytes of the server of a link, also while it is leaving. None where there is no
    /// such server.
    pub fn unsent(&self, link: LinkId) -> Option<&[u8]>
        ensures { option_copied result ≡ unsent_at (at_key seat_link link.0 self.now.seats) }
    {
        let place = seat_place(&self.seats, link)?;
        Some(self.seats[place].unsent())
    }

    /// Takes the first unsent bytes of a server away.
    pub fn gone(&mut self, link: LinkId, count: usize)
        requires { IfSome (unsent_at (at_key seat_link link.0 self.old.seats))
            (λ unsent. count ≤ length unsent) }
        ensures { self.new ≡ record self.old {
          seats = gone_at link.0 count self.old.seats (at_key seat_link link.0 self.old.seats);
        } }
    {
        gone_at(&mut self.seats, link, count);
    }

    /// Forgets the server of a link, as the link is closed.
    pub fn forget(&mut self, link: LinkId)
        ensures { self.new ≡ forgotten link.0 self.old }
    {
        drop_seat(&mut self.seats, link);
    }

    /// The server that began to leave first, of those that are leaving.
    pub fn first_leaving(&self) -> Option<&Seat>
        ensures { option_copied result ≡ first_leaving self.now.seats }
    {
        first_leaving(self.seats.as_slice())
    }
}
