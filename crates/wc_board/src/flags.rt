//! The lines whose flags differ after a change, told of each buffer by itself.

ghost use Rattle.std.specs.Prelude.{◌≡◌, ◌+◌, ◌≤◌, true, map, fold, [], ◌∷◌};
ghost use Rattle.wc_model.specs.Parts.{flag_parts};
ghost use Rattle.wc_world.specs.Near.{numbers};
ghost use Rattle.wc_board.specs.Served.{heard_number, part_connection, flags_of};
ghost use Rattle.wc_board.specs.Served.{PartsServed, PartsTold};

use crate::clients::Clients;
use crate::connection::some_listens;
use crate::serving::serve_spelled;
use crate::spellings::Spellings;
use std::alloc::Global;
use std::sync::ledger::Ledger;
use wc_events::{FlipLookup, has_flips};
use wc_model::EventKind;
use wc_text::{Handle, Items};
use wc_world::World;

/// Tells of each buffer, in order, which of its lines have another flag, in the world after the change.
/// The lines are named by their contents. A buffer that no client listens to is not searched, and where
/// no line has another flag nothing is done. False where memory is refused for one buffer; the others
/// are told all the same.
pub fn tell_flags<L: Ledger>(
    clients: &mut Clients,
    alloc: Global,
    world: &World,
    flips: &Items<Handle>,
    spellings: &mut Spellings<L>,
) -> bool
    ensures told { result ≡ true →
        clients.new ≡ map (λ connection. fold (λ connection part.
        part_connection world.now part connection) connection
        (flag_parts world.now flips.now)) clients.old }
    ensures each { PartsServed world.now (flag_parts world.now flips.now)
        clients.old clients.new }
    ensures least { spellings.old ≤ spellings.new }
    ensures once { spellings.new ≤ spellings.old
        + heard_number clients.old (flag_parts world.now flips.now) }
{
    if flips.as_slice().is_empty() {
        return true;
    }
    let lookup = FlipLookup::new(alloc, flips);
    tell_buffers(clients, alloc, world, &lookup, spellings)
}

/// Tells of the buffers of all groups.
fn tell_buffers<L: Ledger>(
    clients: &mut Clients,
    alloc: Global,
    world: &World,
    flips: &FlipLookup<'_>,
    spellings: &mut Spellings<L>,
) -> bool
    ensures { PartsTold world.now (flag_parts world.now flips.now) result
        clients.old clients.new spellings.old spellings.new }
{
    let mut told = true;
    for group in world.buffers().groups() {
        let group_told = tell_group(clients, alloc, world, group, flips, spellings);
        told &= group_told;
    }
    told
}

/// Tells of the buffers of a group.
fn tell_group<L: Ledger>(
    clients: &mut Clients,
    alloc: Global,
    world: &World,
    group: &[Handle],
    flips: &FlipLookup<'_>,
    spellings: &mut Spellings<L>,
) -> bool
    ensures { PartsTold world.now (flags_of world.now flips.now (numbers group.now)) result
        clients.old clients.new spellings.old spellings.new }
{
    let mut told = true;
    for buffer in group {
        let buffer_told = tell_buffer(clients, alloc, world, *buffer, flips, spellings);
        told &= buffer_told;
    }
    told
}

/// Tells of a buffer which of its lines have another flag, if there are such. No client takes note of
/// it but by its message.
fn tell_buffer<L: Ledger>(
    clients: &mut Clients,
    alloc: Global,
    world: &World,
    buffer: Handle,
    flips: &FlipLookup<'_>,
    spellings: &mut Spellings<L>,
) -> bool
    ensures { PartsTold world.now (flags_of world.now flips.now (buffer.0 ∷ [])) result
        clients.old clients.new spellings.old spellings.new }
{
    let kind = EventKind::LineDataChanged;
    if !some_listens(clients.as_slice(), kind, buffer) {
        return true;
    }
    if !has_flips(world, flips, buffer) {
        return true;
    }
    let spelled = spellings.of_flags(alloc, world, buffer, flips);
    serve_spelled(clients, alloc, kind, buffer, spelled)
}
