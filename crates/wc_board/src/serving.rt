//! An event that was to be spelled, served to the clients that it is for.

ghost use Rattle.std.specs.Prelude.{◌≡◌, true, map, IfOk};
ghost use Rattle.wc_model.specs.declared.notice.Notice.{Notice as NoticeValue};
ghost use Rattle.wc_model.specs.World.{World as WorldValue};
ghost use Rattle.wc_session.specs.Event.{IsEventOf};
ghost use Rattle.wc_board.specs.Served.{part_connection, ConnectionsServed};

use crate::clients::Clients;
use crate::connection::Service;
use std::alloc::Global;
use wc_model::EventKind;
use wc_session::BufferEvent;
use wc_text::{Handle, NoMemory};

/// Tells an event in a pass, or where it found no memory has each client leave that it was for. False
/// where one leaves.
pub fn serve_spelled(
    clients: &mut Clients,
    alloc: Global,
    kind: EventKind,
    buffer: Handle,
    spelled: Result<BufferEvent, NoMemory>,
) -> bool
    ensures told { result ≡ true → (world : WorldValue) (part : NoticeValue) →
        IfOk spelled (λ event. IsEventOf event world part) →
        clients.new ≡ map (part_connection world part) clients.old }
    ensures each { (world : WorldValue) (part : NoticeValue) → part.kind ≡ kind →
        part.buffer ≡ buffer → IfOk spelled (λ event. IsEventOf event world part) →
        ConnectionsServed part.kind part.buffer.0 (part_connection world part)
        clients.old clients.new }
{
    match spelled {
        Ok(event) => clients.serve_all(alloc, &Service::Tell(event)),
        Err(NoMemory) => {
            clients.serve_all(alloc, &Service::Starve(kind, buffer));
            false
        }
    }
}
