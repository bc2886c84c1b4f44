use wc_nickdiff::DiffItem;
use wc_nicklist::Item;
use wc_text::Text;

/// What an item tells of a group or a nick that is no text.
#[derive(Clone, Copy, Debug, PartialEq, Eq)]
pub(crate) struct NickMarks {
    pub is_group: bool,
    pub visible: bool,
    pub level: u64,
}

/// The texts of a group or a nick.
#[derive(Drop)]
pub(crate) struct NickTexts {
    pub name: Text,
    pub color: Text,
    pub prefix: Text,
    pub prefix_color: Text,
}

/// A group or a nick, and the handle of its buffer.
#[derive(Drop)]
pub(crate) struct NickRow {
    pub buffer: u64,
    pub item: Item,
}

/// An item of a diff, and the handle of its buffer.
#[derive(Drop)]
pub(crate) struct NickChange {
    pub buffer: u64,
    pub diff: DiffItem,
}
