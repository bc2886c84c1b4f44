//! Turns: waits, reads and writes over the core's clients. It knows the sockets and the core, and
//! nothing of a client's mirror.
#![tactic(auto)]

mod connect;
mod feed;
mod headless;
mod line_buffer;
mod links;
mod logins;
mod serve;
mod sockets;
mod tail;
mod turn;
mod turns;

pub use headless::Headless;
pub use links::{Closed, LinkState};
pub use sockets::{WsThen, serve_ws};
pub use tail::Tail;
pub use turn::TurnEnd;
