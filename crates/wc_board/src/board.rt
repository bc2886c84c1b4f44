ghost use Rattle.std.specs.Prelude.{◌≡◌, ◌<◌, ◌≤◌, ◌+◌, ◌++◌, ℕ, List, [], true, map};
ghost use Rattle.std.specs.Prelude.{IfOk, OnOk, OnErr};
ghost use Rattle.wc_text.specs.declared.names.Handle.{Handle as HandleValue};
ghost use Rattle.wc_nicklist.specs.declared.item.Row.{Row};
ghost use Rattle.wc_nickdiff.specs.Held.{touches_of};
ghost use Rattle.wc_outside.specs.Keyed.{at_key};
ghost use Rattle.wc_model.specs.Notices.{Outcome};
ghost use Rattle.wc_model.specs.Order.{order};
ghost use Rattle.wc_model.specs.Parts.{parts_of};
ghost use Rattle.wc_model.specs.World.{rows_at};
ghost use Rattle.wc_world.specs.Handles.{skip_world};
ghost use Rattle.wc_world.specs.Texts.{IsChangeText};
ghost use Rattle.wc_board.specs.Answered.{noticed, IsUnchanged};
ghost use Rattle.wc_board.specs.BoardView.{NoStrayTouches, first_board};
ghost use Rattle.wc_board.specs.Connections.{connection_link, client_of, unsent_on};
ghost use Rattle.wc_board.specs.Pushes.{pushed_connection, pushed_bytes, EachPushed};
ghost use Rattle.wc_board.specs.Pushes.{touched_number};
ghost use Rattle.wc_board.specs.Served.{heard_number, told_connection, ConnectionsKept, NoticeServed};
ghost use Rattle.wc_board.specs.Told.{AreTold, AreTouched};

use crate::clients::Clients;
use crate::nick_change::change_world;
use crate::pushes::{forget_nicks, push_nicks};
use crate::spellings::Spellings;
use crate::telling::tell_notice;
use std::alloc::Global;
use std::marker::{Brand, Model};
use std::sync::ledger::{Blank, Ledger};
use wc_model::{Change, ChangeRefused, Notice};
use wc_nickdiff::Pending;
use wc_text::{Handle, NoMemory};
use wc_world::World;

/// The world, what was touched of the nicklists since their last push, and the clients. They are
/// changed by these calls alone, so that no change goes untold.
#[derive(Drop)]
pub struct Board {
    pub(crate) alloc: Global,
    pub(crate) world: World,
    pending: Pending,
    pub(crate) clients: Clients,
}

/// A change that was made and told.
#[derive(Drop)]
pub struct Told {
    /// What was noticed of it.
    pub notice: Notice,
    /// Whether each client that it was for found memory for it. Who found none is leaving.
    pub to_all: bool,
}

impl Model for Board {
    ghost use Rattle.std.specs.Coded.{codes};
    ghost use Rattle.std.specs.FinMap as map;
    ghost use Rattle.wc_board.specs.BoardView.{BoardView, NoStrayTouches};

    ghost Value = { BoardView };

    ghost coded = { Prim.hlevel (codes, map.code) };

    ghost view = { λ board. record {
      world = board.world;
      pending = board.pending;
      connections = board.clients;
    } };

    ghost invariant = { λ board. NoStrayTouches board.world board.pending };
}

/// The handle of the core buffer.
const CORE: Handle = Handle(1);

impl Board {
    /// The core buffer alone, which holds as many lines as the limit, and no client.
    pub fn new(alloc: Global, limit: u32) -> Result<Board, NoMemory>
        requires some { 1 ≤ limit }
        requires most { limit ≤ 4096 }
        ensures { IfOk result (λ board. board ≡ first_board limit) }
    {
        let world = World::new(alloc, limit)?;
        let pending = Pending::new(alloc)?;
        let clients = Clients::new(alloc)?;
        Ok(Board {
            alloc,
            world,
            pending,
            clients,
        })
    }

    /// The buffers, with their lines and nicklists.
    pub fn world(&self) -> &World
        ensures world { result.now ≡ self.now.world }
        ensures stray { NoStrayTouches self.now.world self.now.pending }
    {
        &self.world
    }

    /// Passes over the handles below this one, up to 2^62, as far as they were not drawn. No client is
    /// told of that.
    pub fn skip_to(&mut self, handle: u64)
        ensures { self.new ≡ record self.old { world = skip_world handle self.old.world } }
    {
        self.world.skip_to(handle);
    }

    /// Makes a change, and tells its event, and how many of the oldest lines each buffer lost, to each
    /// client that is open and asked for it. Each of these is spelled once. The refusals are those of
    /// the world. A client that finds no memory for one of them is leaving, and the change stands.
    pub fn tell(&mut self, change: Change) -> Result<Told, ChangeRefused>
        requires { IsChangeText change.what }
        ensures outcome { Outcome self.old.world change self.new.world (noticed result) }
        ensures touched { OnOk result
            (AreTouched self.old.world change self.old.pending self.new.pending) }
        ensures told { IfOk result (λ told. told.to_all ≡ true →
            self.new.connections ≡ map (told_connection self.new.world told.notice)
            self.old.connections) }
        ensures each { IfOk result (λ told.
            NoticeServed self.new.world told.notice
            self.old.connections self.new.connections) }
        ensures unchanged { OnErr result (IsUnchanged self.old self.new) }
    {
        self.tell_alone::<Brand>(change, Blank::new(1))
    }

    /// The same where the events that are spelled are counted: of each part of the notice at most one
    /// is, and none where no client asked for it or the change is refused.
    pub fn tell_counted<L: Ledger>(
        &mut self,
        change: Change,
        spellings: &mut Spellings<L>,
    ) -> Result<Told, ChangeRefused>
        requires { IsChangeText change.what }
        ensures outcome { Outcome self.old.world change self.new.world (noticed result) }
        ensures touched { OnOk result
            (AreTouched self.old.world change self.old.pending self.new.pending) }
        ensures told { IfOk result (λ told. told.to_all ≡ true →
            self.new.connections ≡ map (told_connection self.new.world told.notice)
            self.old.connections) }
        ensures each { IfOk result (λ told.
            NoticeServed self.new.world told.notice
            self.old.connections self.new.connections) }
        ensures unchanged { OnErr result (IsUnchanged self.old self.new) }
        ensures once { IfOk result (λ told. spellings.new ≤ spellings.old
            + heard_number self.old.connections (parts_of self.new.world told.notice)) }
        ensures none { IfOk result (λ told.
            heard_number self.old.connections (parts_of self.new.world told.notice) ≡ 0 →
            spellings.new ≡ spellings.old) }
        ensures refused { OnErr result (spellings.new ≡ spellings.old) }
    {
        let notice = change_world(self.alloc, &mut self.world, &mut self.pending, change)?;
        let to_all = tell_notice(
            &mut self.clients,
            self.alloc,
            &self.world,
            &notice,
            spellings,
        );
        Ok(Told { notice, to_all })
    }

    /// The same with a count of its own.
    fn tell_alone<L: Ledger>(&mut self, change: Change, blank: Blank) -> Result<Told, ChangeRefused>
        requires text { IsChangeText change.what }
        requires name { blank.name ≡ L.name }
        requires parts { blank.parts ≡ L.parts }
        requires some { 0 < L.parts }
        ensures outcome { Outcome self.old.world change self.new.world (noticed result) }
        ensures touched { OnOk result
            (AreTouched self.old.world change self.old.pending self.new.pending) }
        ensures told { IfOk result (λ told. told.to_all ≡ true →
            self.new.connections ≡ map (told_connection self.new.world told.notice)
            self.old.connections) }
        ensures each { IfOk result (λ told.
            NoticeServed self.new.world told.notice
            self.old.connections self.new.connections) }
        ensures unchanged { OnErr result (IsUnchanged self.old self.new) }
    {
        let mut spellings: Spellings<L> = Spellings::new(blank);
        self.tell_counted(change, &mut spellings)
    }

    /// Pushes what became of each nicklist since its last push to each client that is open and
    /// asked for it, in the order of buffers. False where a client found no memory for a push: it
    /// is leaving.
    pub fn push(&mut self) -> bool
        ensures told { result ≡ true → (told : ℕ → List Row) →
            AreTold self.old.world self.old.pending told → self.new.connections
            ≡ map (pushed_connection self.old.world told (order self.old.world.groups))
            self.old.connections }
        ensures sent { result ≡ true → (told : ℕ → List Row) →
            AreTold self.old.world self.old.pending told → (link : ℕ) →
            unsent_on link self.new.connections ≡ unsent_on link self.old.connections
            ++ pushed_bytes self.old.world told (order self.old.world.groups)
            (at_key connection_link link self.old.connections) }
        ensures each { (told : ℕ → List Row) → AreTold self.old.world self.old.pending told →
            EachPushed (order self.old.world.groups)
            (pushed_connection self.old.world told (order self.old.world.groups))
            self.old.connections self.new.connections }
        ensures kept { ConnectionsKept self.old.connections self.new.connections }
        ensures clients { map client_of self.new.connections ≡ map client_of self.old.connections }
        ensures forgets { (buffer : HandleValue) → touches_of buffer self.new.pending ≡ [] }
        ensures rows { AreTold self.new.world self.new.pending (rows_at self.new.world) }
        ensures world { self.new.world ≡ self.old.world }
        ensures idle { ((buffer : HandleValue) → touches_of buffer self.old.pending ≡ []) →
            (result ≡ true) × (self.new.connections ≡ self.old.connections) }
    {
        self.push_alone::<Brand>(Blank::new(1))
    }

    /// The same where the events that are spelled are counted: at most one is for each buffer of
    /// which something was touched.
    pub fn push_counted<L: Ledger>(&mut self, spellings: &mut Spellings<L>) -> bool
        ensures told { result ≡ true → (told : ℕ → List Row) →
            AreTold self.old.world self.old.pending told → self.new.connections
            ≡ map (pushed_connection self.old.world told (order self.old.world.groups))
            self.old.connections }
        ensures sent { result ≡ true → (told : ℕ → List Row) →
            AreTold self.old.world self.old.pending told → (link : ℕ) →
            unsent_on link self.new.connections ≡ unsent_on link self.old.connections
            ++ pushed_bytes self.old.world told (order self.old.world.groups)
            (at_key connection_link link self.old.connections) }
        ensures each { (told : ℕ → List Row) → AreTold self.old.world self.old.pending told →
            EachPushed (order self.old.world.groups)
            (pushed_connection self.old.world told (order self.old.world.groups))
            self.old.connections self.new.connections }
        ensures kept { ConnectionsKept self.old.connections self.new.connections }
        ensures clients { map client_of self.new.connections ≡ map client_of self.old.connections }
        ensures forgets { (buffer : HandleValue) → touches_of buffer self.new.pending ≡ [] }
        ensures rows { AreTold self.new.world self.new.pending (rows_at self.new.world) }
        ensures world { self.new.world ≡ self.old.world }
        ensures once { spellings.new
            ≤ spellings.old + touched_number self.old.pending (order self.old.world.groups) }
        ensures idle { ((buffer : HandleValue) → touches_of buffer self.old.pending ≡ []) →
            (result ≡ true) × (self.new.connections ≡ self.old.connections) }
    {
        let _rows = self.world.nicks(CORE);
        let told = push_nicks(
            &mut self.clients,
            self.alloc,
            &self.world,
            &self.pending,
            spellings,
        );
        self.forget_touches();
        told
    }

    /// The same with a count of its own.
    fn push_alone<L: Ledger>(&mut self, blank: Blank) -> bool
        requires name { blank.name ≡ L.name }
        requires parts { blank.parts ≡ L.parts }
        requires some { 0 < L.parts }
        ensures told { result ≡ true → (told : ℕ → List Row) →
            AreTold self.old.world self.old.pending told → self.new.connections
            ≡ map (pushed_connection self.old.world told (order self.old.world.groups))
            self.old.connections }
        ensures sent { result ≡ true → (told : ℕ → List Row) →
            AreTold self.old.world self.old.pending told → (link : ℕ) →
            unsent_on link self.new.connections ≡ unsent_on link self.old.connections
            ++ pushed_bytes self.old.world told (order self.old.world.groups)
            (at_key connection_link link self.old.connections) }
        ensures each { (told : ℕ → List Row) → AreTold self.old.world self.old.pending told →
            EachPushed (order self.old.world.groups)
            (pushed_connection self.old.world told (order self.old.world.groups))
            self.old.connections self.new.connections }
        ensures kept { ConnectionsKept self.old.connections self.new.connections }
        ensures clients { map client_of self.new.connections ≡ map client_of self.old.connections }
        ensures forgets { (buffer : HandleValue) → touches_of buffer self.new.pending ≡ [] }
        ensures rows { AreTold self.new.world self.new.pending (rows_at self.new.world) }
        ensures world { self.new.world ≡ self.old.world }
        ensures idle { ((buffer : HandleValue) → touches_of buffer self.old.pending ≡ []) →
            (result ≡ true) × (self.new.connections ≡ self.old.connections) }
    {
        let mut spellings: Spellings<L> = Spellings::new(blank);
        self.push_counted(&mut spellings)
    }

    /// Forgets what was touched, at once for all buffers. That takes no memory; if it did, they
    /// would be gone through.
    fn forget_touches(&mut self)
        ensures forgets { (buffer : HandleValue) → touches_of buffer self.new.pending ≡ [] }
        ensures world { self.new.world ≡ self.old.world }
        ensures connections { self.new.connections ≡ self.old.connections }
    {
        match Pending::new(self.alloc) {
            Ok(pending) => self.pending = pending,
            Err(NoMemory) => forget_nicks(&self.world, &mut self.pending),
        }
    }
}
