//! The program's run: its words, its configuration, its turns, and the status that it ends with.
#![tactic(auto)]

mod demo;
mod ending;
mod help;
mod laws;
mod print;
mod program;
mod run;
mod words;

pub use laws::cuts_change_nothing;
pub use program::{Ended, needs_sockets, run_program};
pub use words::config_dir;
