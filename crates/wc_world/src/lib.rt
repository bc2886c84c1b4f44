//! The world: the buffers with the lines and the nicklist of each, changed as a whole.
#![tactic(auto)]

mod all_lines;
mod changes;
mod cut;
mod flags;
mod held;
mod limits;
mod line_limit;
mod near;
mod nick_item;
mod nicks;
mod noticed;
mod on_buffers;
mod on_flips;
mod on_limit;
mod on_lines;
mod on_nicks;
mod world;

pub use cut::{CutTexts, cut_texts};
pub use world::World;
