//! The buffers, in groups that share a number, with their variables.
#![tactic(auto)]

mod buffers;
mod calls;
mod edits;
mod entries;
mod group;
mod iter;
mod names;
mod refusals;
mod refused;
mod row;
mod table;
mod vars;

pub use buffers::Buffers;
pub use iter::GroupIter;
pub use refused::BufferRefused;
pub use row::{BufferEntry, BufferRow, BufferSpec};
pub use vars::{VarIter, Vars};
