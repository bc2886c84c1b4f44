ghost use Rattle.std.specs.Prelude.{◌≡◌, ◌<◌, ◌^◌, ◌+◌, ◌++◌, ◌∷◌, [], None, option_map, find, bytes_eq};
ghost use Rattle.std.specs.Prelude.{IfSome, OnOk, OnErr, ◌&&◌};
ghost use Rattle.std.specs.Option.{option_copied};
ghost use Rattle.wc_outside.specs.Keyed.{at_key};
ghost use Rattle.wc_servers.specs.Seats.{no_servers, seat_link, seat_of, new_seat, used_up, begun, is_open};
ghost use Rattle.wc_servers.specs.Seats.{AreSeats, open_in, open_of, server_named};

use crate::places::seat_place;
use crate::seat::Seat;
use crate::wanted::Wanted;
use std::alloc::Global;
use std::marker::Model;
use wc_irc::Server;
use wc_text::{LinkId, NoMemory};

/// The servers that have a link, or are to have one.
#[derive(Drop)]
pub struct Servers {
    pub(crate) alloc: Global,
    /// Those that are open and those that are leaving, in the order in which they were begun.
    pub(crate) seats: Vec<Seat>,
    /// The connections that are still to be asked for.
    pub(crate) wanted: Vec<Wanted>,
    /// Link numbers up to this one are used.
    pub(crate) used: u64,
    /// How many began to leave.
    pub(crate) left: u64,
}

impl Model for Servers {
    ghost use Rattle.wc_servers.specs.Seats.{ServersView, AreSeats};

    ghost Value = { ServersView };

    ghost view = { λ s. record {
      seats = s.seats.items;
      wanted = s.wanted.items;
      used = s.used;
      left = s.left;
    } };

    ghost invariant = { λ s. AreSeats (record {
      seats = s.seats.items;
      wanted = s.wanted.items;
      used = s.used;
      left = s.left;
    }) };
}

impl Servers {
    /// No servers, and no link number is used.
    pub fn new(alloc: Global) -> Servers
        ensures { result ≡ no_servers }
    {
        Servers {
            alloc,
            seats: Vec::new(alloc),
            wanted: Vec::new(alloc),
            used: 0,
            left: 0,
        }
    }

    /// Those that are open and those that are leaving, in the order in which they were begun.
    pub fn seats(&self) -> &[Seat]
        ensures seats { result.now ≡ self.now.seats }
        ensures apart { AreSeats self.now }
    {
        self.seats.as_slice()
    }

    /// Link numbers up to this one are used.
    pub fn used(&self) -> u64
        ensures { result ≡ self.now.used }
    {
        self.used
    }

    /// Takes note that a link number is used, and those below it.
    pub fn use_up(&mut self, link: LinkId)
        ensures { self.new ≡ used_up link.0 self.old }
    {
        if self.used < link.0 {
            self.used = link.0;
        }
    }

    /// Begins a connection, whose link is to have the next number, and which is to be asked for.
    /// Where memory is refused nothing changes.
    pub fn begin(&mut self, server: Server) -> Result<(), NoMemory>
        requires { self.old.used < 2 ^ 62 }
        ensures begun { OnOk result (self.new ≡ begun server self.old) }
        ensures unchanged { OnErr result (self.new ≡ self.old) }
    {
        let link = LinkId(self.used + 1);
        let name = server.name().copy(self.alloc)?;
        let wanted = Wanted {
            link,
            address: server.address(),
            server: name,
        };
        self.put(link, wanted, server)
    }

    /// Puts a server that is wanted after the others.
    fn put(&mut self, link: LinkId, wanted: Wanted, server: Server) -> Result<(), NoMemory>
        requires next { link.0 ≡ self.old.used + 1 }
        ensures begun { OnOk result (self.new ≡ record self.old {
          seats = self.old.seats ++ new_seat link.0 server ∷ [];
          wanted = self.old.wanted ++ wanted ∷ [];
          used = link.0;
        }) }
        ensures unchanged { OnErr result (self.new ≡ self.old) }
    {
        let seat = Seat::new(self.alloc, link, server);
        push_both(&mut self.seats, &mut self.wanted, seat, wanted)?;
        self.used = link.0;
        Ok(())
    }

    /// The connection that is next to be asked for, which is taken out.
    pub fn take_wanted(&mut self) -> Option<Wanted>
        ensures taken { IfSome result (λ wanted. self.old.wanted ≡ wanted ∷ self.new.wanted) }
        ensures none { result ≡ None → (self.old.wanted ≡ []) × (self.new.wanted ≡ []) }
        ensures others { self.new ≡ record self.old { wanted = self.new.wanted } }
    {
        if self.wanted.is_empty() {
            return None;
        }
        Some(self.wanted.remove(0))
    }

    /// The server of a link, where it is not leaving.
    pub fn open_at(&self, link: LinkId) -> Option<&Seat>
        ensures { option_map seat_of (option_copied result)
            ≡ open_in (at_key seat_link link.0 self.now.seats) }
    {
        let place = seat_place(&self.seats, link)?;
        if !self.seats[place].is_open() {
            return None;
        }
        Some(&self.seats[place])
    }

    /// The server of a name, where it is not leaving.
    pub fn named(&self, name: &[u8]) -> Option<&Seat>
        ensures { option_map seat_of (option_copied result)
            ≡ server_named name.now (open_of self.now.seats) }
    {
        named(&self.seats, name)
    }
}

/// Puts a server and what is wanted for it after the others. Where memory is refused neither is put.
fn push_both(
    seats: &mut Vec<Seat>,
    wanted: &mut Vec<Wanted>,
    seat: Seat,
    one: Wanted,
) -> Result<(), NoMemory>
    ensures seats { OnOk result (seats.new.items ≡ seats.old.items ++ seat ∷ []) }
    ensures wanted { OnOk result (wanted.new.items ≡ wanted.old.items ++ one ∷ []) }
    ensures unchanged { OnErr result (seats.new.items ≡ seats.old.items) }
    ensures unwanted { OnErr result (wanted.new.items ≡ wanted.old.items) }
{
    if seats.reserve(1).is_err() || wanted.reserve(1).is_err() {
        return Err(NoMemory);
    }
    seats.push_reserved(seat);
    wanted.push_reserved(one);
    Ok(())
}

/// The server of a name, where it is not leaving.
fn named<'a>(seats: &'a [Seat], name: &[u8]) -> Option<&'a Seat>
    ensures { option_copied result
        ≡ find (λ seat. is_open seat && bytes_eq seat.server.name name.now) seats.now }
{
    seats.iter().find(|seat| seat.is_open() && seat.server().name().as_slice() == name)
}
