//! Nicklists: groups with their nicks, which contracts see as one flat list of rows.
#![tactic(auto)]

mod by_name;
mod digest;
mod index;
mod item;
mod iter;
mod leaf;
mod name;
mod nicklist;
mod order;
mod path;
mod reasons;
mod refused;
mod room;
mod row_tree;
mod store;
mod touch;

pub use item::{Item, Key, Row};
pub use iter::{RowIter, RowView};
pub use name::Name;
pub use nicklist::Nicklist;
pub use order::row_cmp;
pub use refused::NickRefused;
pub use touch::Touch;
