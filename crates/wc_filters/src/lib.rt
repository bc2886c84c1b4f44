//! Filters, which hide lines of buffers: by the buffer, the tags, and what is said.
#![tactic(auto)]

mod filter;
mod filters;
mod halves;
mod line_parts;
mod masks;
mod refused;
mod row;
mod search;
mod seeker;
mod sieve;
mod switch;

pub use filter::Filter;
pub use filters::{Filters, NameIter};
pub use line_parts::Tags;
pub use masks::{buffers_match, tags_match};
pub use refused::FilterRefused;
pub use seeker::Seeker;
pub use switch::Switch;
