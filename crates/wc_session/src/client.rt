ghost use Rattle.std.specs.Prelude.{◌≡◌};
ghost use Rattle.wc_session.specs.Known.{new_client};
ghost use Rattle.wc_session.specs.Sync.{follows, after_event};

use crate::buffer_sets::BufferSets;
use crate::sync_set::SyncSet;
use std::alloc::Global;
use wc_model::EventKind;
use wc_relaycmd::Algorithm;
use wc_text::{Handle, LinkId};

/// What is known of a client.
#[derive(Drop)]
pub struct Client {
    pub link: LinkId,
    /// The bytes that a salt has to begin with.
    pub nonce: [u8; 16],
    /// How the client is to prove that it knows the password, as its handshake settled. None where
    /// it made none, or where there is no way that both allow; it is then dropped.
    pub chosen: Option<Algorithm>,
    /// Whether it writes its lines with `escape_commands`.
    pub escaped: bool,
    pub logged_in: bool,
    /// The events that it asked for of all buffers.
    pub everywhere: SyncSet,
    /// The events that it asked for of single buffers, which are there.
    pub sets: BufferSets,
}

impl Client {
    /// A client that has said nothing.
    pub fn new(alloc: Global, link: LinkId, nonce: [u8; 16]) -> Client
        ensures { result ≡ new_client link nonce }
    {
        Client {
            link,
            nonce,
            chosen: None,
            escaped: false,
            logged_in: false,
            everywhere: SyncSet::none(),
            sets: BufferSets::new(alloc),
        }
    }

    /// Whether an event of a buffer is for this client.
    pub fn follows(&self, kind: EventKind, buffer: Handle) -> bool
        ensures { result ≡ follows kind buffer.0 self.now }
    {
        self.everywhere.union(self.sets.at(buffer)).wants(kind)
    }

    /// Takes note of an event, be it for this client or not: a closed buffer has no set from then
    /// on.
    pub fn hear(&mut self, kind: EventKind, buffer: Handle)
        ensures { self.new ≡ after_event kind buffer.0 self.old }
    {
        if matches!(kind, EventKind::Closing) {
            self.sets.remove(buffer);
        }
    }
}
