use wc_text::{Cause, Handle, Text};

/// What a request came to.
#[derive(Drop)]
pub enum Outcome {
    /// Its reply comes after the unsent bytes.
    Replied,
    /// It gets no reply.
    Silent,
    /// A text was typed into a buffer, and is to be run there. It gets no reply.
    Input { buffer: Handle, text: Text },
    /// The client is to be dropped, once what is unsent was offered to it.
    Leave(Cause),
    /// Memory was asked for and not found. Nothing changed.
    NoMemory,
}
