//! What the loop sees of the core, and what it takes of its clients.

ghost use Rattle.std.specs.Prelude.{◌≡◌, ◌≤◌, ◌∷◌, [], None, nat_le, length, filter, IfSome};
ghost use Rattle.std.specs.Option.{option_copied};
ghost use Rattle.wc_outside.specs.Keyed.{at_key, without};
ghost use Rattle.wc_board.specs.Connections.{connection_link, is_open, is_open_at};
ghost use Rattle.wc_core.specs.LinksSeen.{departure_in, departure_of_seat, unsent_in_core, gone_in};
ghost use Rattle.wc_servers.specs.Seats.{first_leaving, forgotten};
ghost use Rattle.std.specs.Prelude.{false};
ghost use Rattle.wc_core.specs.Limits.{client_limit};
ghost use Rattle.wc_core.specs.Served.{unwritten_of};

use crate::core_state::Core;
use crate::limits::client_limit;
use wc_board::{Connection, Departure};
use wc_servers::{Servers, Wanted};
use wc_text::LinkId;
use wc_world::World;

impl Core {
    /// The server that began to leave first, or else the first client that is leaving. A client that
    /// began to leave has no further line served, so the servers that its lines disconnected began
    /// to leave before it.
    pub fn departure(&self) -> Option<Departure>
        ensures { result ≡ departure_in self.now }
    {
        match self.server_departure() {
            Some(departure) => Some(departure),
            None => self.board.departure(),
        }
    }

    /// The server that began to leave first, of those that are leaving.
    fn server_departure(&self) -> Option<Departure>
        ensures { result ≡ departure_of_seat (first_leaving self.now.servers.seats) }
    {
        let seat = self.servers.first_leaving()?;
        let cause = seat.leaving()?;
        Some(Departure {
            link: seat.link(),
            cause,
        })
    }

    /// Forgets the client or the server of a link, as the link is closed.
    pub fn forget(&mut self, link: LinkId)
        ensures { self.new ≡ record self.old {
          connections =
              without connection_link link.0 self.old.connections;
          servers = forgotten link.0 self.old.servers;
        } }
    {
        self.board.forget(link);
        self.servers.forget(link);
    }

    /// The unsent bytes of the client of a link, or else of its server, also while it is leaving.
    /// None where there is neither.
    pub fn unsent(&self, link: LinkId) -> Option<&[u8]>
        ensures { option_copied result ≡ unsent_in_core link.0 self.now }
    {
        match self.board.session(link) {
            Some(session) => Some(session.unsent()),
            None => self.servers.unsent(link),
        }
    }

    /// How many bytes may wait to be sent to the client of a link, where that is bounded.
    pub fn most_unsent(&self, link: LinkId) -> Option<usize> {
        self.board.session(link)?.most_unsent()
    }

    /// Takes the first unsent bytes of a client, or else of a server, away.
    pub fn gone(&mut self, link: LinkId, count: usize)
        requires { IfSome (unsent_in_core link.0 self.old) (λ unsent. count ≤ length unsent) }
        ensures { self.new ≡ gone_in link.0 count self.old
            (at_key connection_link link.0 self.old.connections) }
    {
        if self.board.session(link).is_some() {
            self.board.gone(link, count);
        } else {
            self.servers.gone(link, count);
        }
    }

    /// The connection that is next to be asked for, which is taken out.
    pub fn take_wanted(&mut self) -> Option<Wanted>
        ensures taken { IfSome result
            (λ wanted. self.old.servers.wanted ≡ wanted ∷ self.new.servers.wanted) }
        ensures none { result ≡ None →
            (self.old.servers.wanted ≡ []) × (self.new.servers.wanted ≡ []) }
        ensures others { self.new ≡ record self.old {
          servers = record self.old.servers { wanted = self.new.servers.wanted };
        } }
    {
        self.servers.take_wanted()
    }

    /// Has no server connect by itself at the start.
    pub fn hold_servers(&mut self)
        ensures { self.new ≡ record self.old { connects = false } }
    {
        self.connects = false;
    }

    /// The servers that are open and those that are leaving, in the order in which they were begun.
    pub fn servers(&self) -> &Servers
        ensures { result.now ≡ self.now.servers }
    {
        &self.servers
    }

    /// Whether a link has a client that is not leaving.
    pub fn is_open(&self, link: LinkId) -> bool
        ensures { result ≡ is_open_at (at_key connection_link link.0 self.now.connections) }
    {
        self.board.is_open(link)
    }

    /// The clients that are open and those that are leaving, in the order in which they came.
    pub fn connections(&self) -> &[Connection]
        ensures { result.now ≡ self.now.connections }
    {
        self.board.connections()
    }

    /// The text of the options that is to be written: that of the last `/save`, unless it is
    /// written already.
    pub fn unwritten(&self) -> Option<&[u8]>
        ensures { option_copied result ≡ unwritten_of self.now }
    {
        if !self.unwritten {
            return None;
        }
        let text = self.saved.as_ref()?;
        Some(text.as_slice())
    }

    /// Notes that the text that was saved last is written.
    pub fn written(&mut self)
        ensures { self.new ≡ record self.old { unwritten = false } }
    {
        self.unwritten = false;
    }

    /// How often want of memory cut something short or made a client leave.
    pub fn starved(&self) -> u64
        ensures { result ≡ self.now.starved }
    {
        self.starved
    }

    /// Whether `/quit` was run.
    pub fn quits(&self) -> bool
        ensures { result ≡ self.now.quits }
    {
        self.quits
    }

    /// The buffers, with their lines and nicklists.
    pub fn world(&self) -> &World
        ensures { result.now ≡ self.now.world }
    {
        self.board.world()
    }

    /// Whether as many clients are open as the options allow.
    pub(crate) fn is_full(&self) -> bool
        ensures { result ≡ nat_le (client_limit self.now.options)
            (length (filter (λ connection. is_open connection) self.now.connections)) }
    {
        self.board.open_count() >= client_limit(&self.options) as usize
    }
}
