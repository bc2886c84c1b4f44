use wc_buffers::BufferSpec;
use wc_nicklist::Item;
use wc_text::{Handle, Items, Pair, Text};

/// A change of the world.
#[derive(Drop)]
pub struct Change {
    /// The buffer that it is about. An added buffer draws its handle; flips name their lines.
    pub buffer: Handle,
    pub what: What,
}

#[derive(Drop)]
pub enum What {
    /// A buffer in a group of its own, at the end.
    Add(BufferSpec),
    Close,
    /// The buffer's group gets this number.
    MoveTo(u32),
    /// The buffer goes after those of another one's group.
    MergeInto(Handle),
    /// The buffer gets a group of its own, after its old one.
    Unmerge,
    Hide,
    Unhide,
    /// Another full name, and the lines that filters show or hide for it.
    Rename { name: Text, flips: Items<Flip> },
    ShortName(Text),
    Title(Text),
    SetVar(Pair),
    RemoveVar(Text),
    Print(LineSpec),
    /// The buffer's lines go.
    Clear,
    Flips(Items<Flip>),
    /// A group below another one, which is named; `root` names the root. It draws its handle, and
    /// its level is one more than that of the group above.
    AddGroup { parent: Text, item: Item },
    /// A nick in a group, which is named; `root` names the root. It draws its handle.
    AddNick { group: Text, item: Item },
    /// A group that has neither groups nor nicks goes.
    RemoveGroup(Text),
    RemoveNick(Text),
    /// The group of the item's name gets its other fields, but for the handle and the level.
    ChangeGroup(Item),
    /// The nick of the item's name gets its other fields, but for the handle.
    ChangeNick(Item),
    /// Each buffer holds as many lines at most, 1 to 4,096, from now on, and those above it go, from
    /// the oldest. No buffer is looked at.
    Limit(u32),
}

/// A line that filters show or hide from now on.
#[derive(Clone, Copy, PartialEq, Eq)]
pub struct Flip {
    pub content: Handle,
    pub displayed: bool,
}

/// A line before its two handles are drawn.
#[derive(Drop)]
pub struct LineSpec {
    /// In seconds since 1970.
    pub date: u64,
    /// The microseconds of the date. Those above 999,999 count as 999,999.
    pub usec: u32,
    /// In seconds since 1970.
    pub date_printed: u64,
    /// The microseconds of the date of printing. Those above 999,999 count as 999,999.
    pub usec_printed: u32,
    pub displayed: bool,
    /// The level of notification, from -1 for none to 3.
    pub notify: i8,
    pub highlight: bool,
    /// Those past 32, or past 256 bytes in sum, are dropped from the first that does not fit.
    pub tags: Items<Text>,
    /// Cut at 128 bytes.
    pub prefix: Text,
    /// Cut at 1,024 bytes.
    pub message: Text,
}
