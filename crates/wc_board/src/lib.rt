//! The board: the world, what is to be pushed of its nicklists, and the clients that are told.
#![tactic(auto)]

mod board;
mod board_clients;
mod board_requests;
mod clients;
mod connection;
mod flags;
mod laws;
mod nick_change;
mod pushes;
mod relay_pass;
mod serving;
mod spellings;
mod telling;

pub use board::{Board, Told};
pub use connection::{Connection, Departure};
pub use laws::{push_tells_rows, tell_keeps_told};
pub use spellings::Spellings;
