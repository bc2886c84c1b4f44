//! Data paths, which name what a relay client asks of the `hdata` of WeeChat, and what they lead
//! to.
#![tactic(auto)]

mod answer;
mod buffer_values;
mod count;
mod cursor;
mod element;
mod grammar;
mod infos;
mod item_bytes;
mod key;
mod keys;
mod laws;
mod lists;
mod narrow;
mod path;
mod place;
mod place_values;
mod pointer;
mod pointers;
mod reach;
mod refused;
mod shown;
mod starts;
mod variable;
mod visits;
mod walker;
mod writer;

pub use answer::walk;
pub use count::Count;
pub use element::Element;
pub use grammar::read_path;
pub use infos::{info, infolist};
pub use key::Key;
pub use keys::{keys_text, read_keys, read_keys_in};
pub use laws::{
    buffer_dump_is_walk, dump_paths, dumps_give_few_pointers, line_dump_is_walk, one_path,
    walks_are_sound,
};
pub use path::{Path, Start, Step, h_path};
pub use refused::WalkRefused;
pub use variable::Variable;
pub use writer::write_walk;
