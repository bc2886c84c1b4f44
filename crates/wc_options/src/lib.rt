//! The options of the program, the rules that their values keep, and the file that they are kept
//! in.
#![tactic(auto)]

mod address;
mod config;
mod file;
mod kind;
mod number;
mod options;
mod place;
mod quotes;
mod refusal;
mod server;
mod table;
mod version;
mod write;

pub use address::read_address;
pub use config::{is_passed_over, read_config};
pub use file::{first_line, part_line};
pub use kind::{Kind, LONGEST_VALUE};
pub use number::number_in;
pub use options::{Changed, MOST_SERVERS, Options};
pub use refusal::{ConfigRefused, SetRefused};
pub use version::VERSION_LINE;
