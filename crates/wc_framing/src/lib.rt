//! How the bytes of a link are framed: as they come, or in the frames of a WebSocket.
//!
//! The first bytes of a client decide. What its frames come to is told by `wc_ws`, and each message
//! that is owed to it is put into a frame of its own.
#![tactic(auto)]

mod framing;
mod laws;
mod messages;
mod opening;

pub use framing::{Belongs, Framing, feed_piece, next_message};
pub use laws::frames_cut_anywhere;
pub use messages::{Framed, put_messages};
