use wc_text::{Address, LinkId, Text};

/// A connection that is still to be asked for.
#[derive(Drop)]
pub struct Wanted {
    /// The number that its link is to have.
    pub link: LinkId,
    pub address: Address,
    /// The name of its server.
    pub server: Text,
}
