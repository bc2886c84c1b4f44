//! What a text that is typed asks of IRC servers, by its bytes alone.
#![tactic(auto)]

mod command_word;
mod everyday;
mod typed;
mod typed_server;
mod typed_words;

pub use command_word::CommandWord;
pub use everyday::{Everyday, Form};
pub use typed::{ServerCommand, read_server_command};
pub use typed_words::{are_few_words, are_mode_words, is_target};
