//! The keys and the events of WeeChat's relay protocol, each said once.
#![tactic(auto)]

mod events;
mod key;
mod laws;

pub use events::{
    Asked, BUFFER_PATH, LINE_PATH, LINES_PATH, NICK_PATH, event_asked, event_id, event_keys,
    event_path,
};
pub use key::{Key, KeyList};
pub use laws::own_keys_are_not_told;
