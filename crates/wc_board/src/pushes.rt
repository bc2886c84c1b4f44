//! The pushes of nicklists, and what is forgotten of what was touched.

ghost use Rattle.std.specs.Prelude.{◌≡◌, ◌==◌, ◌&&◌, ◌++◌, ◌+◌, ◌≤◌, ℕ, List, [], ◌∷◌, true, false, map};
ghost use Rattle.std.specs.Prelude.{if◌then◌else◌};
ghost use Rattle.std.specs.List.{list_any};
ghost use Rattle.wc_text.specs.declared.names.Handle.{Handle as HandleValue};
ghost use Rattle.wc_nicklist.specs.declared.item.Row.{Row};
ghost use Rattle.wc_nickdiff.specs.Held.{touches_of};
ghost use Rattle.wc_buffers.specs.Calls.{is_there};
ghost use Rattle.wc_model.specs.Order.{order};
ghost use Rattle.wc_outside.specs.Keyed.{at_key};
ghost use Rattle.wc_world.specs.Near.{numbers};
ghost use Rattle.wc_board.specs.Connections.{connection_link, client_of, unsent_on};
ghost use Rattle.wc_board.specs.Pushes.{AreThere, AreHeld, push_of, push_connection};
ghost use Rattle.wc_board.specs.Pushes.{pushed_connection, pushed_bytes, EachPushed};
ghost use Rattle.wc_board.specs.Pushes.{is_touched, touched_number};
ghost use Rattle.wc_board.specs.Served.{ConnectionsKept};
ghost use Rattle.wc_board.specs.Told.{WasTold, AreTold};

use crate::clients::Clients;
use crate::connection::Service;
use crate::spellings::Spellings;
use std::alloc::Global;
use std::sync::ledger::Ledger;
use wc_model::EventKind;
use wc_nickdiff::Pending;
use wc_text::{Handle, NoMemory};
use wc_world::World;

/// Pushes what became of each nicklist since it was told to each client that is open and asked for
/// it, in the order of buffers, and spells it at most once for each buffer that was touched. False
/// where memory is refused: who is not told leaves.
pub fn push_nicks<L: Ledger>(
    clients: &mut Clients,
    alloc: Global,
    world: &World,
    pending: &Pending,
    spellings: &mut Spellings<L>,
) -> bool
    ensures told { result ≡ true → (told : ℕ → List Row) → AreTold world.now pending.now told →
        clients.new ≡ map (pushed_connection world.now told (order world.now.groups))
        clients.old }
    ensures sent { result ≡ true → (told : ℕ → List Row) → AreTold world.now pending.now told →
        (link : ℕ) → unsent_on link clients.new ≡ unsent_on link clients.old
        ++ pushed_bytes world.now told (order world.now.groups)
        (at_key connection_link link clients.old) }
    ensures each { (told : ℕ → List Row) → AreTold world.now pending.now told →
        EachPushed (order world.now.groups)
        (pushed_connection world.now told (order world.now.groups))
        clients.old clients.new }
    ensures kept { ConnectionsKept clients.old clients.new }
    ensures clients { map client_of clients.new ≡ map client_of clients.old }
    ensures once { spellings.new
        ≤ spellings.old + touched_number pending.now (order world.now.groups) }
    ensures idle { ((buffer : HandleValue) → touches_of buffer pending.now ≡ []) →
        (result ≡ true) × (clients.new ≡ clients.old) }
{
    // Once for all buffers: their rows are rows that a nicklist can hold.
    let _held = world.nicks(Handle(1));
    let mut told = true;
    for group in world.buffers().groups() {
        let pushed = push_group(clients, alloc, world, pending, group, spellings);
        told &= pushed;
    }
    told
}

/// Pushes what became of the nicklists of the buffers of a group.
fn push_group<L: Ledger>(
    clients: &mut Clients,
    alloc: Global,
    world: &World,
    pending: &Pending,
    group: &[Handle],
    spellings: &mut Spellings<L>,
) -> bool
    requires { AreHeld world.now }
    ensures told { result ≡ true → AreThere world.now group.now → (told : ℕ → List Row) →
        AreTold world.now pending.now told →
        clients.new ≡ map (pushed_connection world.now told (numbers group.now))
        clients.old }
    ensures each { AreThere world.now group.now → (told : ℕ → List Row) →
        AreTold world.now pending.now told →
        EachPushed (numbers group.now) (pushed_connection world.now told (numbers group.now))
        clients.old clients.new }
    ensures kept { ConnectionsKept clients.old clients.new }
    ensures clients { map client_of clients.new ≡ map client_of clients.old }
    ensures once { spellings.new
        ≤ spellings.old + touched_number pending.now (numbers group.now) }
    ensures idle { ((buffer : HandleValue) → touches_of buffer pending.now ≡ []) →
        (result ≡ true) × (clients.new ≡ clients.old) }
{
    let mut told = true;
    for buffer in group {
        let pushed = push_buffer(clients, alloc, world, pending, *buffer, spellings);
        told &= pushed;
    }
    told
}

/// Whether something was touched of a buffer.
fn is_touched(pending: &Pending, buffer: Handle) -> bool
    ensures exact { result ≡ is_touched pending.now buffer.0 }
    ensures none { result ≡ false → touches_of buffer pending.now ≡ [] }
{
    pending.held(buffer) != 0
}

/// Pushes what became of the nicklist of a buffer. Where no memory is found for it, each client
/// that follows it leaves. A buffer of which nothing was touched costs no more than to see that.
fn push_buffer<L: Ledger>(
    clients: &mut Clients,
    alloc: Global,
    world: &World,
    pending: &Pending,
    buffer: Handle,
    spellings: &mut Spellings<L>,
) -> bool
    requires { AreHeld world.now }
    ensures told { result ≡ true → is_there buffer world.now.groups ≡ true → (told : List Row) →
        WasTold world.now pending.now buffer told →
        clients.new ≡ map (push_connection buffer (push_of world.now buffer.0 told))
        clients.old }
    ensures each { is_there buffer world.now.groups ≡ true → (told : List Row) →
        WasTold world.now pending.now buffer told →
        EachPushed (buffer.0 ∷ []) (push_connection buffer (push_of world.now buffer.0 told))
        clients.old clients.new }
    ensures kept { ConnectionsKept clients.old clients.new }
    ensures clients { map client_of clients.new ≡ map client_of clients.old }
    ensures once { spellings.new
        ≤ spellings.old + touched_number pending.now (buffer.0 ∷ []) }
    ensures idle { touches_of buffer pending.now ≡ [] →
        (result ≡ true) × (clients.new ≡ clients.old) }
{
    if !is_touched(pending, buffer) {
        return true;
    }
    match spellings.of_nicks(alloc, world, pending, buffer) {
        Ok(Some(event)) => clients.serve_all(alloc, &Service::Tell(event)),
        Ok(None) => true,
        Err(NoMemory) => {
            clients.serve_all(alloc, &Service::Starve(EventKind::NicklistDiff, buffer));
            false
        }
    }
}

/// Forgets what was touched of the buffers that are there.
pub fn forget_nicks(world: &World, pending: &mut Pending)
    ensures { (buffer : HandleValue) → touches_of buffer pending.new
        ≡ (if list_any (λ n. n == buffer.0) (order world.now.groups) then []
        else touches_of buffer pending.old) }
{
    for group in world.buffers().groups() {
        forget_group(pending, group);
    }
}

fn forget_group(pending: &mut Pending, group: &[Handle])
    ensures { (buffer : HandleValue) → touches_of buffer pending.new
        ≡ (if list_any (λ n. n == buffer.0) (numbers group.now) then []
        else touches_of buffer pending.old) }
{
    for buffer in group {
        pending.forget(*buffer);
    }
}

/// Forgets what was touched of a buffer that is closed.
pub fn forget_closed(pending: &mut Pending, closed: bool, buffer: Handle)
    ensures { (other : HandleValue) → touches_of other pending.new
        ≡ (if closed && (buffer.0 == other.0) then [] else touches_of other pending.old) }
{
    if closed {
        pending.forget(buffer);
    }
}
