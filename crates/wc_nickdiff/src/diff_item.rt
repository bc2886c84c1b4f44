ghost use Rattle.std.specs.Prelude.{◌≡◌};

use wc_nicklist::{Item, Key, Row};
use wc_text::Items;

/// What an item of a diff does.
#[derive(Clone, Copy, Debug, PartialEq, Eq)]
pub enum Mark {
    /// It names the group that the items after it are in.
    Parent,
    /// It comes in.
    Added,
    /// It goes.
    Removed,
    /// It gets other fields.
    Changed,
}

impl Mark {
    ghost use Rattle.wc_nickdiff.specs.Apply.{is_parent};
    ghost use Rattle.wc_nickdiff.specs.Compared.{is_out};

    /// Whether an item with it names a group for those after it.
    pub(crate) fn names_parent(self) -> bool
        ensures { result ≡ is_parent self }
    {
        match self {
            Mark::Parent => true,
            Mark::Added | Mark::Removed | Mark::Changed => false,
        }
    }

    /// Whether an item with it is told as it was before.
    pub(crate) fn is_out(self) -> bool
        ensures { result ≡ is_out self }
    {
        match self {
            Mark::Removed => true,
            Mark::Parent | Mark::Added | Mark::Changed => false,
        }
    }
}

/// An item of a diff.
#[derive(Drop)]
pub struct DiffItem {
    pub mark: Mark,
    pub item: Item,
}

/// What is pushed of a nicklist.
#[derive(Drop)]
pub enum Push {
    /// The rows are those that were told.
    Nothing,
    /// What has changed.
    Diff(Items<DiffItem>),
    /// The root and all rows, in canonical order.
    Full(Items<Item>),
}

/// A key that was touched, and the row that was at its first touch.
#[derive(Drop)]
pub struct FirstTouch {
    pub(crate) key: Key,
    pub(crate) before: Option<Row>,
}
