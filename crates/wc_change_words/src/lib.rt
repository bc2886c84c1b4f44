//! The changes of a world as the words of a script.
#![tactic(auto)]

mod changes;
mod lines;
mod nicks;
mod words;
mod wrong;

pub use changes::read_change;
pub use words::{handle, number, small_number, text};
pub use wrong::Wrong;
