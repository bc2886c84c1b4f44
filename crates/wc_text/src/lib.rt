//! Texts, lists and small names that every other crate speaks of.
#![tactic(auto)]

mod cuts;
mod items;
mod masks;
mod names;
mod no_memory;
mod numbers;
mod order;
mod places;
mod split;
mod text;
mod utf8;
mod word_iter;

pub use cuts::cut;
pub use items::{Duplicate, Items};
pub use masks::mask_matches;
pub use names::{Address, Arrival, Cause, Handle, LinkId, Pair};
pub use no_memory::NoMemory;
pub use numbers::read_i64;
pub use order::fold_cmp;
pub use split::{cut_at, cut_word, past_blanks, split_once};
pub use text::Text;
pub use utf8::lossy;
pub use word_iter::{WordIter, words};
