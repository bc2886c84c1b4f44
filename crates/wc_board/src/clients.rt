//! The clients of a board, each with its entry in the table of hooks while it is open.

ghost use Rattle.std.specs.Prelude.{◌≡◌, ◌≤◌, ◌<◌, ◌+◌, ◌^◌, ◌++◌, ◌∷◌, [], List, true, false, map};
ghost use Rattle.std.specs.Prelude.{length, IfOk, IfSome, OnOk, OnErr, None};
ghost use Rattle.std.specs.List.{remove};
ghost use Rattle.wc_hooks.specs.Table.{with_row};
ghost use Rattle.wc_nickdiff.specs.Held.{OfBuffer};
ghost use Rattle.wc_outside.specs.Keyed.{at_key, without};
ghost use Rattle.wc_relaycmd.specs.Utf8.{RequestIsUtf8};
ghost use Rattle.wc_session.specs.RequestContext.{context_seen};
ghost use Rattle.wc_board.specs.Answered.{AnsweredAt};
ghost use Rattle.wc_board.specs.Connections.{connection_link, is_open_at, unsent_at, gone_at};
ghost use Rattle.wc_board.specs.Connections.{left_at};
ghost use Rattle.wc_board.specs.Hooked.{relay_row, IsHooked};
ghost use Rattle.wc_board.specs.Served.{noted_connection, ConnectionsServed};
ghost use Rattle.wc_board.specs.Services.{kind_of, buffer_of, serve_connection};

use crate::connection::{Connection, Service, connection_place, note_all};
use crate::relay_pass::serve_pass;
use std::alloc::Global;
use std::marker::{Brand, Model};
use std::sync::ledger::Blank;
use wc_hooks::{HookId, HookKind, HookTable, Owner};
use wc_model::EventKind;
use wc_relaycmd::Request;
use wc_session::{Outcome, RequestContext, Session};
use wc_text::{Cause, Handle, LinkId, NoMemory, Text};
use wc_world::World;

/// How many entries of clients may live.
const ENTRY_LIMIT: u32 = 64;

/// The connections of the clients that are open and of those that are leaving, in the order in which
/// they came. Contracts see their list.
///
/// Each client that is open has one entry of the kind `Relay` in the table of hooks, in the same
/// order; an event is told in a pass over these. The number of its entry is kept for each
/// connection.
#[derive(Drop)]
pub struct Clients {
    connections: Vec<Connection>,
    entries: Vec<HookId>,
    hooks: HookTable,
    drawn: u64,
}

impl Model for Clients {
    ghost use Rattle.std.specs.Prelude.{List};
    ghost use Rattle.wc_board.specs.declared.connection.Connection.{Connection};

    ghost Value = { List Connection };

    ghost use Rattle.wc_board.specs.Hooked.{AreHooked};

    ghost view = { λ clients. clients.connections.items };

    ghost invariant = { λ clients. AreHooked clients.hooks clients.entries.items clients.drawn
        clients.connections.items };
}

/// Hooks an entry for the client of a link, where fewer than 64 live and a number is left for it.
fn hook_client(
    hooks: &mut HookTable,
    alloc: Global,
    drawn: u64,
    link: LinkId,
) -> Result<HookId, NoMemory>
    requires { hooks.old.hooked ≡ drawn }
    ensures number { IfOk result (λ id. id.0 ≡ drawn + 1) }
    ensures small { IfOk result (λ id. drawn + 1 < 2 ^ 64) }
    ensures hooked { IfOk result
        (λ id. hooks.new ≡ with_row (relay_row id link) hooks.old) }
    ensures refused { OnErr result (hooks.new ≡ hooks.old) }
{
    if drawn == u64::MAX || hooks.relay_count() >= ENTRY_LIMIT {
        return Err(NoMemory);
    }
    let key = Text::new(alloc);
    match hooks.hook(alloc, HookKind::Relay, &key, 0, Owner::Session(link)) {
        Ok(id) => Ok(id),
        Err(_) => Err(NoMemory),
    }
}

impl Clients {
    /// No client.
    pub fn new(alloc: Global) -> Result<Clients, NoMemory>
        ensures { IfOk result (λ clients. clients ≡ []) }
    {
        let hooks = HookTable::new(alloc)?;
        Ok(Clients {
            connections: Vec::new(alloc),
            entries: Vec::new(alloc),
            hooks,
            drawn: 0,
        })
    }

    /// The connections.
    pub fn as_slice(&self) -> &[Connection]
        ensures { result.now ≡ self.now }
    {
        self.connections.as_slice()
    }

    /// The table of their entries.
    pub fn hooks(&self) -> &HookTable
        ensures { IsHooked result.now self.now }
    {
        &self.hooks
    }

    /// Admits the client of a session, which comes after the others. Where 64 clients are open, or no
    /// number is left for an entry, the answer is that of want of memory.
    pub fn admit(&mut self, alloc: Global, session: Session) -> Result<(), NoMemory>
        ensures admitted { OnOk result
            (self.new ≡ self.old ++ record { session = session; leaving = None } ∷ []) }
        ensures refused { OnErr result (self.new ≡ self.old) }
    {
        self.connections.reserve(1)?;
        self.entries.reserve(1)?;
        let entry = hook_client(&mut self.hooks, alloc, self.drawn, session.link())?;
        self.drawn += 1;
        self.entries.push_reserved(entry);
        self.connections.push_reserved(Connection {
            session,
            leaving: None,
        });
        Ok(())
    }

    /// Lets the client of a link leave for this cause, where it is open, and takes its entry out.
    pub fn retire(&mut self, link: LinkId, cause: Cause)
        ensures leaves { self.new ≡ left_at link.0 cause self.old
            (at_key connection_link link.0 self.old) }
        ensures shut { is_open_at (at_key connection_link link.0 self.new) ≡ false }
    {
        let Some(place) = connection_place(&self.connections, link) else {
            return;
        };
        if !self.connections[place].is_open() {
            return;
        }
        self.hooks.unhook(self.entries[place]);
        self.connections[place].leaving = Some(cause);
    }

    /// Forgets the clients of a link, with the entry of each that is open.
    pub fn forget(&mut self, link: LinkId)
        ensures { self.new ≡ without connection_link link.0 self.old }
    {
        while let Some(place) = connection_place(self.as_slice(), link) {
            self.take_out(place);
        }
    }

    /// Takes the connection at a place out, with the entry of its client where it is open.
    fn take_out(&mut self, place: usize)
        requires { place < length self.old }
        ensures { self.new ≡ remove self.old place }
    {
        self.hooks.unhook(self.entries[place]);
        self.entries.remove(place);
        let _gone = self.connections.remove(place);
    }

    /// Takes the first unsent bytes of the client of a link away.
    pub fn gone(&mut self, link: LinkId, count: usize)
        requires { IfSome (unsent_at (at_key connection_link link.0 self.old))
            (λ unsent. count ≤ length unsent) }
        ensures { self.new ≡ gone_at link.0 count self.old
            (at_key connection_link link.0 self.old) }
    {
        if let Some(place) = connection_place(&self.connections, link) {
            self.connections[place].session.gone(count);
        }
    }

    /// Serves a request of the client of a link, unless it is leaving.
    pub fn answer(
        &mut self,
        alloc: Global,
        world: &World,
        context: RequestContext<'_>,
        link: LinkId,
        request: Request,
    ) -> Outcome
        requires { RequestIsUtf8 request }
        ensures { (pending : List OfBuffer) → AnsweredAt link.0 (context_seen context.entry) request result
            (record { world = world.now; pending = pending; connections = self.old })
            (record { world = world.now; pending = pending; connections = self.new })
            (at_key connection_link link.0 self.old) }
    {
        let Some(place) = connection_place(&self.connections, link) else {
            drop(request);
            return Outcome::NoMemory;
        };
        if !self.connections[place].is_open() {
            drop(request);
            return Outcome::NoMemory;
        }
        self.connections[place]
            .session
            .request(alloc, world, context, request)
    }

    /// Has each client that is open take note of an event that is for none.
    pub fn note_all(&mut self, kind: EventKind, buffer: Handle)
        ensures { self.new ≡ map (noted_connection kind buffer.0) self.old }
    {
        note_all(&mut self.connections, kind, buffer);
    }

    /// Serves each client that is open in a pass over their entries. False where one leaves for
    /// want of memory.
    pub fn serve_all(&mut self, alloc: Global, service: &Service) -> bool
        ensures told { result ≡ true →
            self.new ≡ map (serve_connection service.now) self.old }
        ensures each { ConnectionsServed (kind_of service.now) (buffer_of service.now)
            (serve_connection service.now) self.old self.new }
    {
        let key = Text::new(alloc);
        let Some(mut pass) = self.hooks.open_pass(HookKind::Relay, &key) else {
            unreachable!();
        };
        let told = serve_pass::<Brand>(
            &mut self.hooks,
            &mut pass,
            &self.entries,
            &mut self.connections,
            service,
            Blank::new(1),
        );
        self.hooks.close_pass(pass);
        told
    }
}
