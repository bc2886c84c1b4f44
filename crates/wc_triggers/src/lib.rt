//! Triggers: what a user has run at events, and when.
#![tactic(auto)]

mod arguments;
mod commands;
mod hooks;
mod keys;
mod numbered;
mod outcomes;
mod react;
mod read;
mod refused;
mod replacements;
mod run;
mod slashes;
mod trigger;
mod triggers;
mod words;

pub use arguments::Arguments;
pub use keys::TriggerKey;
pub use numbered::NumberedTrigger;
pub use outcomes::{PostAction, ReturnCode};
pub use react::Reaction;
pub use read::read_trigger;
pub use refused::{AddRefused, NoSuch, TriggerRefused};
pub use replacements::Replacement;
pub use run::Run;
pub use trigger::{Trigger, TriggerParts};
pub use triggers::{NumberIter, Triggers};
