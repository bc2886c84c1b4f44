//! The core: the clients, the buffers with their lines, and what is typed into them.
#![tactic(auto)]

mod beginning;
mod command_forms;
mod command_names;
mod core_acts;
mod core_connect;
mod core_eval;
mod core_filters;
mod core_hotlist;
mod core_input;
mod core_links;
mod core_options;
mod core_servers;
mod core_state;
mod core_typed;
mod evaluated;
mod laws;
mod limits;
mod lines;
mod refusals;
mod resolve;
mod typed;
mod typed_buffer;
mod typed_eval;
mod typed_filter;
mod typed_help;
mod typed_hotlist;

pub use command_names::CommandNames;
pub use core_state::Core;
pub use laws::{
    counted_handles_are_skipped_nowhere, each_command_has_one_form,
    fresh_handles_begin_at_the_start, known_commands_are_named,
};
pub use limits::port_of;
pub use wc_board::{Connection, Departure};
pub use wc_servers::Wanted;
