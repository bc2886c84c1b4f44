//! The hotlist: which buffers had lines since it was last cleared, and how many of each level.
#![tactic(auto)]

mod hotlist;
mod row;

pub use hotlist::{HotIter, Hotlist};
pub use row::HotRow;
