//! The servers that have a link: what each is known to be, its unsent bytes, and how they come and
//! go.
#![tactic(auto)]

mod change_text;
mod places;
mod seat;
mod servers;
mod servers_links;
mod wanted;

pub use change_text::{is_change_text, is_utf8};
pub use seat::Seat;
pub use servers::Servers;
pub use wanted::Wanted;
