//! The table of hooks: who wants to run for which kind of happening, and the passes that go through
//! them.
#![tactic(auto)]

mod cursor;
mod entry;
mod kind;
mod laws;
mod marks;
mod past;
mod places;
mod slot;
mod slots;
mod steps;
mod table;

pub use entry::{Entry, HookId, HookRefused, Owner};
pub use kind::HookKind;
pub use laws::{passes_hold, steps_hold};
pub use steps::Steps;
pub use table::{HookTable, Pass};
