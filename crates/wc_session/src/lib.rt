//! The relay's side of one client: what it is sent, and what is known of it.
#![tactic(auto)]

mod buffer_event;
mod buffer_sets;
mod client;
mod completions;
mod handshake;
mod heeded;
mod hotlists;
mod laws;
mod login;
mod names;
mod objects;
mod outcome;
mod paths;
mod request_context;
mod sending;
mod served;
mod session;
mod sync;
mod sync_set;

pub use buffer_event::BufferEvent;
pub use buffer_sets::BufferSets;
pub use client::Client;
pub use heeded::option_value;
pub use laws::{event_tells, lets_in_exactly, one_reply_each, push_tells};
pub use names::buffer_named;
pub use outcome::Outcome;
pub use request_context::RequestContext;
pub use session::Session;
pub use sync_set::{BufferSet, SyncSet};
