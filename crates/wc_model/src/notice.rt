use crate::few::Few;
use wc_text::{Handle, Items, Text};

/// What happened, as an event of the relay protocol tells it.
#[derive(Clone, Copy, PartialEq, Eq)]
pub enum EventKind {
    Opened,
    Moved,
    Merged,
    Unmerged,
    Hidden,
    Unhidden,
    Renamed,
    TitleChanged,
    VarAdded,
    VarChanged,
    VarRemoved,
    Cleared,
    Closing,
    LineAdded,
    LineDataChanged,
    /// A nicklist as a whole. No change is noticed so: it is how nicklists are pushed.
    Nicklist,
    /// What became of a nicklist since it was pushed.
    NicklistDiff,
    /// A group or a nick came, went or was changed. No client is told of it before the next push.
    NickTouched,
    /// Buffers hold another number of lines at most. No client is told of it but by the lines that
    /// went.
    LimitSet,
    /// The oldest lines of a buffer went, since it held as many as it may. No change is noticed so:
    /// it is told after the event of the change.
    LinesTrimmed,
}

/// How many of the oldest lines of a buffer went, since it held as many as it may.
#[derive(Clone, Copy, PartialEq, Eq)]
pub struct Trim {
    pub buffer: Handle,
    pub count: u32,
}

/// What is noticed of an accepted change. But for a close the values are those after it; for a
/// close they are those before it.
#[derive(Drop)]
pub struct Notice {
    pub kind: EventKind,
    /// Null for flips and for a limit, and then `number`, `full_name`, `prev` and `next` say nothing.
    pub buffer: Handle,
    /// One plus the place of the buffer's group.
    pub number: u32,
    pub full_name: Text,
    /// The buffers before and after, in the order of groups; null at the ends.
    pub prev: Handle,
    pub next: Handle,
    /// The printed line by its own handle, and else nothing.
    pub lines: Few<Handle>,
    /// The contents of the lines whose flag differs, in the order of buffers and from the oldest.
    pub flips: Items<Handle>,
    /// The buffers that lost lines, since they held as many as they may, in the order of buffers.
    pub trims: Few<Trim>,
}
