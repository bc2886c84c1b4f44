//! A pass over the entries of the clients, beside their connections: entries come in the order of
//! these, so the connection of each is found with no search.

ghost use Rattle.std.specs.Prelude.{◌≡◌, ◌<◌, true, false, [], map, length};
ghost use Rattle.wc_hooks.specs.Table.{IsOpen, pass_at};
ghost use Rattle.wc_board.specs.Connections.{is_open};
ghost use Rattle.wc_board.specs.Hooked.{entry_rows, are_rising};
ghost use Rattle.wc_board.specs.RelayPass.{IsPassAt, relay_alone, is_given, turn_ended};
ghost use Rattle.wc_board.specs.Served.{starved_connection, ConnectionsServed};
ghost use Rattle.wc_board.specs.Services.{kind_of, buffer_of, serve_connection};

use crate::connection::{Connection, Service};
use std::sync::ledger::{Blank, Ledger};
use wc_hooks::{Entry, HookId, HookTable, Pass, Steps};

/// Whether the entry with this number was given.
fn is_given(given: Option<Entry>, id: HookId) -> bool
    ensures { result ≡ is_given given id }
{
    match given {
        Some(entry) => entry.id == id,
        None => false,
    }
}

/// Serves the client whose entry runs, and ends its run. Where the client leaves for want of memory
/// its entry is unhooked there and then, and the answer is false.
fn run_entry(
    hooks: &mut HookTable,
    id: HookId,
    connection: &mut Connection,
    service: &Service,
) -> bool
    ensures hooks { hooks.new ≡ turn_ended id result hooks.old }
    ensures served { result ≡ true →
        connection.new ≡ serve_connection service.now connection.old }
    ensures starved { result ≡ false → connection.new
        ≡ starved_connection (kind_of service.now) (buffer_of service.now) connection.old }
    ensures stays { result ≡ true → is_open connection.new ≡ is_open connection.old }
    ensures shut { result ≡ false → is_open connection.new ≡ false }
    ensures link { connection.new.session.client.link ≡ connection.old.session.client.link }
{
    let stays = connection.serve(service);
    if !stays {
        hooks.unhook(id);
    }
    hooks.end_run(id);
    stays
}

/// Goes through a pass that was just opened, and serves each client whose entry it gives, until it
/// gives none. False where one leaves for want of memory. These are the numbers of the entries of
/// the connections.
pub fn serve_pass<L: Ledger>(
    hooks: &mut HookTable,
    pass: &mut Pass,
    ids: &[HookId],
    connections: &mut Vec<Connection>,
    service: &Service,
    blank: Blank,
) -> bool
    requires name { blank.name ≡ L.name }
    requires parts { blank.parts ≡ L.parts }
    requires some { 0 < L.parts }
    requires place { pass.old ≡ 16 }
    requires opened { IsPassAt hooks.old ids.now 0 connections.old.items }
    requires rising { are_rising 0 hooks.old.hooked ids.now ≡ true }
    requires each { length ids.now ≡ length connections.old.items }
    ensures told { result ≡ true →
        connections.new.items ≡ map (serve_connection service.now) connections.old.items }
    ensures each { ConnectionsServed (kind_of service.now) (buffer_of service.now)
        (serve_connection service.now) connections.old.items connections.new.items }
    ensures rows { hooks.new.rows ≡ entry_rows ids.now connections.new.items }
    ensures marks { hooks.new.marks ≡ [] }
    ensures passes { hooks.new.passes ≡ relay_alone (pass_at hooks.new 16) }
    ensures is_open { IsOpen hooks.new 16 }
    ensures drawn { hooks.new.hooked ≡ hooks.old.hooked }
    ensures length { length connections.new.items ≡ length connections.old.items }
    ensures pass { pass.new ≡ pass.old }
{
    let mut steps: Steps<L> = Steps::new(blank);
    let mut told = true;
    let mut given = hooks.next(pass, &mut steps);
    for place in 0..connections.len() {
        if !is_given(given, ids[place]) {
            continue;
        }
        let stays = run_entry(hooks, ids[place], &mut connections[place], service);
        told &= stays;
        given = hooks.next(pass, &mut steps);
    }
    told
}
