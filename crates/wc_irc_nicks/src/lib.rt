//! The nicks of a channel with their modes, in the order of their coming, and what changes make of
//! them.
#![tactic(auto)]

mod folded;
mod members;
mod nick_index;
mod overlay;
mod places;

pub use members::{Members, NewNick, SeatIter};
pub use overlay::{FoundNick, Overlay};
