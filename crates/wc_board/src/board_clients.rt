//! The clients of a board: how they come and go, and what is seen of them.

ghost use Rattle.std.specs.Prelude.{◌≡◌, ◌≤◌, ◌++◌, ◌∷◌, [], false, length, filter, IfSome};
ghost use Rattle.std.specs.Prelude.{OnOk, OnErr, option_copied};
ghost use Rattle.wc_outside.specs.Keyed.{at_key, without};
ghost use Rattle.wc_board.specs.Connections.{connection_link, is_open, is_open_at, session_at};
ghost use Rattle.wc_board.specs.Connections.{unsent_at, gone_at, left_at, new_connection};
ghost use Rattle.wc_board.specs.Connections.{departure_of};
ghost use Rattle.wc_board.specs.Hooked.{IsHooked};

use crate::board::Board;
use crate::connection::{Connection, Departure, connection_place, first_departure, open_count};
use wc_hooks::HookTable;
use wc_session::Session;
use wc_text::{Arrival, Cause, LinkId, NoMemory};

impl Board {
    /// Admits a client, which comes after the others. Where 64 clients are open, or 2^64 - 1 were
    /// ever admitted, the answer is NoMemory, so whoever may come to that has to look before.
    pub fn admit(&mut self, arrival: Arrival) -> Result<(), NoMemory>
        ensures admitted { OnOk result (self.new ≡ record self.old {
          connections =
              self.old.connections
              ++ new_connection arrival.link arrival.nonce ∷ [];
        }) }
        ensures refused { OnErr result (self.new ≡ self.old) }
    {
        let session = Session::new(self.alloc, arrival.link, arrival.nonce)?;
        self.clients.admit(self.alloc, session)
    }

    /// Lets the client of a link leave for this cause, where it is open. It takes part in nothing
    /// more, and its unsent bytes are lent until it is forgotten.
    pub fn retire(&mut self, link: LinkId, cause: Cause)
        ensures leaves { self.new ≡ record self.old {
          connections =
              left_at link.0 cause self.old.connections
              (at_key connection_link link.0 self.old.connections);
        } }
        ensures shut { is_open_at (at_key connection_link link.0 self.new.connections) ≡ false }
    {
        self.clients.retire(link, cause);
    }

    /// Forgets the client of a link, as the link is closed.
    pub fn forget(&mut self, link: LinkId)
        ensures { self.new ≡ record self.old {
          connections =
              without connection_link link.0 self.old.connections;
        } }
    {
        self.clients.forget(link);
    }

    /// Takes the first unsent bytes of a client away.
    pub fn gone(&mut self, link: LinkId, count: usize)
        requires { IfSome (unsent_at (at_key connection_link link.0 self.old.connections))
            (λ unsent. count ≤ length unsent) }
        ensures { self.new ≡ record self.old {
          connections =
              gone_at link.0 count self.old.connections
              (at_key connection_link link.0 self.old.connections);
        } }
    {
        self.clients.gone(link, count);
    }

    /// Whether a link has a client that is not leaving.
    pub fn is_open(&self, link: LinkId) -> bool
        ensures { result ≡ is_open_at (at_key connection_link link.0 self.now.connections) }
    {
        let connections = self.clients.as_slice();
        match connection_place(connections, link) {
            Some(place) => connections[place].is_open(),
            None => false,
        }
    }

    /// The session of the client of a link, also while it is leaving. None where there is no such
    /// client.
    pub fn session(&self, link: LinkId) -> Option<&Session>
        ensures { option_copied result
            ≡ session_at (at_key connection_link link.0 self.now.connections) }
    {
        let connections = self.clients.as_slice();
        let place = connection_place(connections, link)?;
        Some(&connections[place].session)
    }

    /// The first client that is leaving.
    pub fn departure(&self) -> Option<Departure>
        ensures { result ≡ departure_of self.now.connections }
    {
        first_departure(self.clients.as_slice())
    }

    /// How many clients are open.
    pub fn open_count(&self) -> usize
        ensures { result ≡ length (filter (λ connection. is_open connection)
            self.now.connections) }
    {
        open_count(self.clients.as_slice())
    }

    /// The clients that are open and those that are leaving, in the order in which they came.
    pub fn connections(&self) -> &[Connection]
        ensures { result.now ≡ self.now.connections }
    {
        self.clients.as_slice()
    }

    /// The table of hooks: it has one entry for each client that is open, in the order in which they
    /// came, and no other. No pass is open in it, and no entry runs.
    pub fn hooks(&self) -> &HookTable
        ensures { IsHooked result.now self.now.connections }
    {
        self.clients.hooks()
    }
}
