use wc_buffers::BufferSpec;
use wc_model::What;
use wc_text::{Cause, Text};

/// What is to be done for a server. A list of these is done in its order.
///
/// Lines have no dates yet but those that a server tells, and renames no flips: who runs an act gives
/// it those. An act on a buffer
/// that is not there is passed over, and so is one whose change is refused.
#[derive(Drop)]
pub enum Act {
    /// A new buffer.
    Open(BufferSpec),
    /// A change of the buffer of this full name, which an act before may have opened.
    On { full_name: Text, what: What },
    /// A line to the server, without its end.
    Send(Text),
    /// A signal.
    Raise { signal: Text, payload: Text },
    /// The link is to be closed for this cause, and the server is lost.
    Leave(Cause),
}
