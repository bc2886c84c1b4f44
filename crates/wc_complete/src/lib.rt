//! What may be put for the word before a cursor: names of commands, and nicks of a buffer.
#![tactic(auto)]

mod base_word;
mod completion;
mod found;
mod nicks;
mod order;

pub use completion::{Completion, Context, complete};
