//! The texts of an IRC server, without its state: names, nicks with their signs and groups, the kind
//! of a message, modes, what a server tells of itself, and texts as they are printed and sent.
#![tactic(auto)]

mod capabilities;
mod features;
mod formatting;
mod groups;
mod kind;
mod laws;
mod line_text;
mod listed;
mod login_step;
mod mode_kinds;
mod modes;
mod moment;
mod names;
mod negotiation;
mod params;
mod parting;
mod sasl;
mod seat;
mod speech;
mod statuses;
mod tags;

pub use features::Features;
pub use formatting::plain;
pub use groups::{group_at, group_names, sign_at};
pub use kind::{MessageKind, kind_of};
pub use laws::parts_are_whole;
pub use line_text::{in_one_line, joined, reason_text, source_text, spaced, unquoted};
pub use listed::{ListedName, listed_name};
pub use login_step::{LoginStep, Stage};
pub use modes::{ModeChange, mode_changes};
pub use moment::{Moment, read_time};
pub use names::{LONGEST_NICK, is_channel, is_nick, is_same};
pub use negotiation::{Negotiation, has_sasl};
pub use params::{last_param, param, params_from};
pub use parting::parts;
pub use sasl::login_pieces;
pub use seat::{ModeSet, Seat};
pub use speech::calls_nick;
pub use statuses::{status_sign, whole_channel};
pub use tags::tag_time;
