//! The demo: the script of a run in which a server speaks and a client follows, whether it was played,
//! and how many buffers, lines and nicks there are after it.
#![tactic(auto)]

mod client;
mod counts;
mod in_mirror;
mod in_world;
mod lines;
mod played;
mod start;
mod steps;

pub use client::client_counts;
pub use counts::Counts;
pub use in_world::world_counts;
pub use played::is_played;
pub use start::start_words;
pub use steps::{CLIENT, script, wake_count};
