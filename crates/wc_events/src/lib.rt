//! What a client of the relay is told of buffers, lines and nicklists.
#![tactic(auto)]

mod buffers;
mod event_values;
mod events;
mod flags;
mod flip_lookup;
mod front;
mod lent_nick;
mod lent_value;
mod line_bytes;
mod line_items;
mod line_objects;
mod line_writer;
mod nick_bytes;
mod nick_items;
mod nick_writer;
mod nicks;
pub mod parts;
mod trims;
mod value_bytes;
mod values;

pub use events::write_event;
pub use flags::write_flags;
pub use flip_lookup::{FlipLookup, has_flips};
pub use nick_writer::write_nicks;
pub use nicks::{Nicks, push_kind};
pub use trims::trim_objects;
pub use wc_keys::event_id;
