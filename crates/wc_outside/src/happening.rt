use wc_text::{Address, LinkId, Text};

/// One thing that the sockets gave.
#[derive(Drop)]
pub enum Happening {
    /// A wait came back at this moment, in milliseconds since 1970.
    Woke(u64),
    /// A link was accepted, with its nonce.
    Accepted(LinkId, [u8; 16]),
    /// Bytes came on a link.
    Read(LinkId, Text),
    /// A link's bytes came to their end.
    Ended(LinkId),
    /// A read of a link or a write to it failed, or so did its connection.
    Failed(LinkId),
    /// A connection that was asked for stands.
    Connected(LinkId),
    /// A connection was refused as it was asked for; its link was never there.
    Refused(LinkId),
    /// The listener failed.
    ListenFailed,
}

/// What sockets were asked to do at an address.
#[derive(Clone, Copy, Debug, PartialEq, Eq)]
pub enum Asked {
    /// To listen at this port of 127.0.0.1.
    Listen(u16),
    /// To connect to this address.
    Connect(Address),
}

/// A call of the outside failed.
#[derive(Clone, Copy, Debug, PartialEq, Eq, thiserror::Error)]
#[error("failed")]
pub struct Failed;
