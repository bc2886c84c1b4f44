//! What a link answers.

use wc_text::Text;

/// What came of a call of `next`.
#[derive(Drop)]
pub enum WsGot {
    /// The payload of a text or binary message.
    Payload(Text),
    /// A frame with nothing for the reader: a ping, a pong, or a part of a message whose last
    /// part is still to come.
    Control,
    /// Nothing yet: the head or the frame at the front is not whole.
    NotYet,
    /// The client closed.
    Ended,
}

/// Why a link takes nothing any more.
#[derive(Clone, Copy, PartialEq, Eq, Debug, thiserror::Error)]
pub enum WsRefused {
    /// No empty line in this many bytes.
    #[error("no empty line in {limit} bytes")]
    HeadTooLong { limit: u32 },
    /// The head asks for no WebSocket.
    #[error("no request for a WebSocket")]
    BadHead,
    /// A frame or a message that breaks the protocol, or is too long.
    #[error("a bad frame")]
    BadFrame,
    #[error("out of memory")]
    NoMemory,
}

/// Why a message was not put.
#[derive(Clone, Copy, PartialEq, Eq, Debug, thiserror::Error)]
pub enum PutRefused {
    /// No message is taken before the head was accepted, and after the link ended.
    #[error("the link takes no message")]
    NotTaken,
    #[error("out of memory")]
    NoMemory,
}

/// How far a link is.
#[derive(Clone, Copy, PartialEq, Eq, Debug)]
pub enum WsStage {
    /// The head is not whole.
    Head,
    /// The head was accepted: frames follow.
    Frames,
    /// The link was refused, and answers this from now on.
    Over(WsRefused),
}
