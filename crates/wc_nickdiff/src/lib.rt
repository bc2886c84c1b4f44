//! What a nicklist became since it was last told, as the items of a diff or as the full list.
#![tactic(auto)]

mod buffer_touches;
mod by_kind;
mod diff;
mod diff_item;
mod differences;
mod index;
mod laws;
mod message;
mod pending;
mod refused;
mod row;
mod told;
mod writer;

pub use diff::{apply, item_applied};
pub use diff_item::{DiffItem, FirstTouch, Mark, Push};
pub use laws::{diff_holds, push_holds, pushed_are_told, touch_keeps_told, untouched_are_told};
pub use pending::Pending;
pub use refused::DiffRefused;
