//! What one IRC server is told and tells: what it is known to be, what follows of its messages, and
//! what a user's commands come to.
#![tactic(auto)]

mod act;
mod autojoin;
mod channel;
mod channel_acts;
mod channel_row;
mod channel_state;
mod close_acts;
mod command_acts;
mod dates;
mod errand;
mod errand_acts;
mod everyday;
mod invite_acts;
mod laws;
mod lines;
mod link_acts;
mod login_acts;
mod long_texts;
mod mode_acts;
mod name_acts;
mod names_state;
mod new_buffers;
mod nick_acts;
mod own_speech;
mod place;
mod private_buffers;
mod refused;
mod rename_acts;
mod rename_state;
mod sent_lines;
mod server;
mod server_acts;
mod server_commands;
mod server_options;
mod speech_acts;
mod start;
mod state;
mod talk;
mod talk_acts;
mod targets;
mod title_acts;

pub use act::Act;
pub use autojoin::autojoin_lines;
pub use channel::{Channel, channel_of, quit};
pub use command_acts::on_command_unlinked;
pub use laws::{full_opens_none, no_bound_by_default};
pub use refused::ServerRefused;
pub use server::Server;
pub use server_options::{connect_refusal, delete_refusal, server_settings};
