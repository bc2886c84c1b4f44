//! The lines of a buffer: the newest ones, up to a limit.
#![tactic(auto)]

mod laws;
mod line;
mod lines;
mod packed_line;
mod packed_texts;

pub use laws::held_is_last;
pub use line::Line;
pub use lines::{Flags, LineIter, Lines};
pub use packed_line::{LineMarks, PackedLine};
pub use packed_texts::{PackedTexts, TagIter};
