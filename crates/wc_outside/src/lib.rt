//! What the program meets outside itself: sockets, the keeper of a file, and a sink of printed
//! text.
#![tactic(auto)]

mod happening;
mod keeper;
mod sink;
mod sockets;

pub use happening::{Asked, Failed, Happening};
pub use keeper::{KeepFault, Keeper};
pub use sink::Sink;
pub use sockets::{Got, Put, READY_LIMIT, Ready, Sockets, Token};
