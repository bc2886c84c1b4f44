//! What the world is, what changes it, and what is noticed of a change.
#![tactic(auto)]

mod change;
mod few;
mod laws;
mod levels;
mod notice;
mod refused;

pub use change::{Change, Flip, LineSpec, What};
pub use few::Few;
pub use laws::{lines_leave_buffers, notice_of_new_buffer};
pub use levels::{LineLevels, levels_of};
pub use notice::{EventKind, Notice, Trim};
pub use refused::ChangeRefused;
