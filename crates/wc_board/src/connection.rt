ghost use Rattle.std.specs.Prelude.{◌≡◌, ◌==◌, true, false, length, filter, map, position};
ghost use Rattle.std.specs.List.{list_any};
ghost use Rattle.wc_outside.specs.Keyed.{PlaceOf};
ghost use Rattle.wc_board.specs.Connections.{connection_link, is_open, departure_of};
ghost use Rattle.wc_board.specs.Served.{listens, noted_connection, heard_connection};
ghost use Rattle.wc_board.specs.Served.{starved_connection};
ghost use Rattle.wc_board.specs.Services.{kind_of, buffer_of, serve_connection};

use wc_model::EventKind;
use wc_session::{BufferEvent, Session};
use wc_text::{Cause, Handle, LinkId};

/// A client. One that is leaving takes part in nothing more, and its unsent bytes are still lent.
#[derive(Drop)]
pub struct Connection {
    pub session: Session,
    pub leaving: Option<Cause>,
}

/// What a pass does for each client.
#[derive(Drop)]
pub enum Service {
    /// Tells an event.
    Tell(BufferEvent),
    /// Serves want of memory for an event of this kind and buffer.
    Starve(EventKind, Handle),
}

/// A client that is leaving.
#[derive(Clone, Copy)]
pub struct Departure {
    pub link: LinkId,
    pub cause: Cause,
}

impl Connection {
    pub fn is_open(&self) -> bool
        ensures { result ≡ is_open self.now }
    {
        self.leaving.is_none()
    }

    /// Whether an event of a buffer is for this client: it is open, and asked for it.
    fn listens(&self, kind: EventKind, buffer: Handle) -> bool
        ensures { result ≡ listens kind buffer.0 self.now }
    {
        self.is_open() && self.session.follows(kind, buffer)
    }

    /// Takes note of an event that is not told, while the client is open.
    fn note(&mut self, kind: EventKind, buffer: Handle)
        ensures { self.new ≡ noted_connection kind buffer.0 self.old }
    {
        if self.is_open() {
            self.session.hear(kind, buffer);
        }
    }

    /// Tells an event, where it is for this client. False where memory is refused: the client
    /// leaves.
    fn tell(&mut self, event: &BufferEvent) -> bool
        ensures told { result ≡ true → self.new ≡ heard_connection event.now self.old }
        ensures starved { result ≡ false →
            self.new ≡ starved_connection event.now.kind event.now.buffer.0 self.old }
        ensures stays { result ≡ true → is_open self.new ≡ is_open self.old }
        ensures shut { result ≡ false → is_open self.new ≡ false }
        ensures link { self.new.session.client.link ≡ self.old.session.client.link }
    {
        if !self.is_open() {
            return true;
        }
        if self.session.append_event(event).is_err() {
            self.leaving = Some(Cause::NoMemory);
            return false;
        }
        true
    }

    /// Serves want of memory for an event: where it is for this client, the client leaves, and the
    /// answer is false.
    fn starve(&mut self, kind: EventKind, buffer: Handle) -> bool
        ensures starved { self.new ≡ starved_connection kind buffer.0 self.old }
        ensures stays { result ≡ true → is_open self.new ≡ is_open self.old }
        ensures shut { result ≡ false → is_open self.new ≡ false }
        ensures link { self.new.session.client.link ≡ self.old.session.client.link }
    {
        if self.listens(kind, buffer) {
            self.leaving = Some(Cause::NoMemory);
            return false;
        }
        self.note(kind, buffer);
        true
    }

    /// Does what a pass does for each client. False where the client leaves for want of memory.
    pub fn serve(&mut self, service: &Service) -> bool
        ensures served { result ≡ true → self.new ≡ serve_connection service.now self.old }
        ensures starved { result ≡ false →
            self.new ≡ starved_connection (kind_of service.now) (buffer_of service.now) self.old }
        ensures stays { result ≡ true → is_open self.new ≡ is_open self.old }
        ensures shut { result ≡ false → is_open self.new ≡ false }
        ensures link { self.new.session.client.link ≡ self.old.session.client.link }
    {
        match service {
            Service::Tell(event) => self.tell(event),
            Service::Starve(kind, buffer) => self.starve(*kind, *buffer),
        }
    }
}

/// Whether an event of a buffer is for some client.
pub fn some_listens(connections: &[Connection], kind: EventKind, buffer: Handle) -> bool
    ensures { result ≡ list_any (λ connection. listens kind buffer.0 connection) connections.now }
{
    connections
        .iter()
        .any(|connection| connection.listens(kind, buffer))
}

/// Has each client that is open take note of an event that is for none.
pub fn note_all(connections: &mut [Connection], kind: EventKind, buffer: Handle)
    ensures { connections.new ≡ map (noted_connection kind buffer.0) connections.old }
{
    for connection in connections.iter_mut() {
        connection.note(kind, buffer);
    }
}

/// How many clients are open.
pub fn open_count(connections: &[Connection]) -> usize
    ensures { result ≡ length (filter (λ connection. is_open connection) connections.now) }
{
    connections
        .iter()
        .filter(|connection| connection.is_open())
        .count()
}

fn position_of(connections: &[Connection], link: LinkId) -> Option<usize>
    ensures { result ≡ position (λ connection. connection_link connection == link.0)
        connections.now }
{
    connections
        .iter()
        .position(|connection| connection.session.link() == link)
}

/// The place of the client of a link.
pub fn connection_place(connections: &[Connection], link: LinkId) -> Option<usize>
    ensures { PlaceOf connection_link link.0 connections.now result }
{
    position_of(connections, link)
}

/// The first client that is leaving.
pub fn first_departure(connections: &[Connection]) -> Option<Departure>
    ensures { result ≡ departure_of connections.now }
{
    let mut rest = connections;
    while let [connection, others @ ..] = rest {
        if let Some(cause) = connection.leaving {
            return Some(Departure {
                link: connection.session.link(),
                cause,
            });
        }
        rest = others;
    }
    None
}
