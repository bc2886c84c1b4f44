//! Objects and messages of the relay.
#![tactic(auto)]

mod fault;
mod forms;
mod hex;
mod keys;
mod kind;
mod laws;
mod object;
pub mod parts;
mod read;
mod reader;
mod size;
mod values;
mod write;

pub use forms::well_formed;
pub use kind::Kind;
pub use laws::{no_spelling_begins_another, one_message, one_spelling};
pub use object::{Hda, HdaItem, InlVar, Object, WireMessage};
pub use read::{MessageRefused, read_i32, read_message, read_ptr, read_str};
pub use write::{WriteRefused, append_message, append_text, write_message};
