use crate::path::Path;
use crate::store::Slot;
use wc_text::Text;

/// The memory of a row that is still to come under a parent.
#[derive(Drop)]
pub(crate) struct Room {
    pub(crate) parent: Text,
    pub(crate) path: Path,
    pub(crate) name: Vec<u8>,
    pub(crate) slot: Slot,
}
