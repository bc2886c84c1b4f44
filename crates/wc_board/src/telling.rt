//! What was noticed of a change, told in its parts.

ghost use Rattle.std.specs.Prelude.{◌≡◌, ◌+◌, ◌≤◌, true, map, fold, [], ◌∷◌};
ghost use Rattle.std.specs.Str.{IsUtf8};
ghost use Rattle.wc_model.specs.Parts.{parts_of, trim_part};
ghost use Rattle.wc_model.specs.World.{World as WorldValue};
ghost use Rattle.wc_board.specs.Served.{heard_number, part_connection, told_connection};
ghost use Rattle.wc_board.specs.Served.{ConnectionsServed, PartsServed, NoticeServed};

use crate::clients::Clients;
use crate::connection::some_listens;
use crate::flags::tell_flags;
use crate::serving::serve_spelled;
use crate::spellings::Spellings;
use std::alloc::Global;
use std::sync::ledger::Ledger;
use wc_model::{EventKind, Notice, Trim};
use wc_world::World;

/// Tells what was noticed of a change to each client that is open and asked for it, in the world
/// after the change: its own event, then of each buffer which of its lines have another flag, and then
/// of each buffer that lost its oldest lines how many went. Each of these is spelled once, where it is
/// for some client, and told in a pass; where it is for none nothing is spelled and no pass is opened.
/// False where memory is refused for one of them: who is not told leaves, and the others are told what
/// comes after it.
pub fn tell_notice<L: Ledger>(
    clients: &mut Clients,
    alloc: Global,
    world: &World,
    notice: &Notice,
    spellings: &mut Spellings<L>,
) -> bool
    requires { IsUtf8 notice.now.full_name }
    ensures told { result ≡ true →
        clients.new ≡ map (told_connection world.now notice.now) clients.old }
    ensures each { NoticeServed world.now notice.now clients.old clients.new }
    ensures once { spellings.new ≤ spellings.old
        + heard_number clients.old (parts_of world.now notice.now) }
    ensures none { heard_number clients.old (parts_of world.now notice.now) ≡ 0 →
        spellings.new ≡ spellings.old }
{
    let own_told = tell_own(clients, alloc, world, notice, spellings);
    let flags_told = tell_flags(clients, alloc, world, &notice.flips, spellings);
    let trims_told = tell_trims(clients, alloc, notice.trims.as_slice(), spellings);
    own_told & flags_told & trims_told
}

/// Tells the event of a change itself. False where memory is refused.
fn tell_own<L: Ledger>(
    clients: &mut Clients,
    alloc: Global,
    world: &World,
    notice: &Notice,
    spellings: &mut Spellings<L>,
) -> bool
    requires { IsUtf8 notice.now.full_name }
    ensures told { result ≡ true →
        clients.new ≡ map (part_connection world.now notice.now) clients.old }
    ensures each { ConnectionsServed notice.now.kind notice.now.buffer.0
        (part_connection world.now notice.now) clients.old clients.new }
    ensures count { spellings.new ≡ spellings.old
        + heard_number clients.old (notice.now ∷ []) }
{
    if !some_listens(clients.as_slice(), notice.kind, notice.buffer) {
        clients.note_all(notice.kind, notice.buffer);
        return true;
    }
    let spelled = spellings.of_notice(alloc, world, notice);
    serve_spelled(clients, alloc, notice.kind, notice.buffer, spelled)
}

/// Tells of each of these buffers how many of its oldest lines went, one after another. False where
/// memory is refused for one; the others are told all the same.
fn tell_trims<L: Ledger>(
    clients: &mut Clients,
    alloc: Global,
    trims: &[Trim],
    spellings: &mut Spellings<L>,
) -> bool
    ensures told { result ≡ true → (world : WorldValue) →
        clients.new ≡ map (λ connection. fold (λ connection part.
        part_connection world part connection) connection (map trim_part trims.now)) clients.old }
    ensures each { (world : WorldValue) →
        PartsServed world (map trim_part trims.now) clients.old clients.new }
    ensures least { spellings.old ≤ spellings.new }
    ensures once { spellings.new ≤ spellings.old
        + heard_number clients.old (map trim_part trims.now) }
{
    let mut told = true;
    for trim in trims {
        let trim_told = tell_trim(clients, alloc, *trim, spellings);
        told &= trim_told;
    }
    told
}

/// Tells how many of its oldest lines a buffer lost, of which no client takes note but by its message.
/// False where memory is refused.
fn tell_trim<L: Ledger>(
    clients: &mut Clients,
    alloc: Global,
    trim: Trim,
    spellings: &mut Spellings<L>,
) -> bool
    ensures told { result ≡ true → (world : WorldValue) →
        clients.new ≡ map (part_connection world (trim_part trim)) clients.old }
    ensures each { (world : WorldValue) →
        ConnectionsServed (trim_part trim).kind trim.buffer.0
        (part_connection world (trim_part trim)) clients.old clients.new }
    ensures count { spellings.new ≡ spellings.old
        + heard_number clients.old (trim_part trim ∷ []) }
{
    let kind = EventKind::LinesTrimmed;
    if !some_listens(clients.as_slice(), kind, trim.buffer) {
        return true;
    }
    let spelled = spellings.of_trim(alloc, trim);
    serve_spelled(clients, alloc, kind, trim.buffer, spelled)
}
