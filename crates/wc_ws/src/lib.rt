//! A WebSocket link over bytes in memory.
//!
//! Pieces of what a client sent are fed, and `next` says what they came to: the head of the
//! handshake is answered, and then each frame is one answer. What is to be sent is lent by
//! `unsent` until `gone` says that it was sent.
#![tactic(auto)]

mod frames;
mod head;
mod link;
mod names;
mod next;

pub use link::WsLink;
pub use names::{PutRefused, WsGot, WsRefused, WsStage};
