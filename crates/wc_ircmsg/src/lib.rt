//! The lines of the IRC protocol, read and written.
#![tactic(auto)]

mod case_map;
mod command;
mod ctcp;
mod marked;
mod message;
mod params;
mod prefixes;
mod read;
mod source;
mod write;

pub use case_map::{CaseMap, same_name};
pub use ctcp::read_ctcp;
pub use message::{LineRefused, Message};
pub use prefixes::{Prefixes, read_prefix_token};
pub use read::{one_message, read_line};
pub use write::{is_one_line, is_writable, write_line};
