ghost use Rattle.std.specs.Prelude.{◌≡◌};
ghost use Rattle.std.specs.Str.{IsUtf8};
ghost use Rattle.wc_keys.specs.declared.events.Asked.TheVariants as options;
ghost use Rattle.wc_keys.specs.Events.{buffer_path, line_path, nick_path};
ghost use Rattle.wc_keys.specs.Events.{id_of, path_of, list_of, asked_of};

use crate::key::KeyList;
use wc_model::EventKind;

/// The path of what is told of a buffer.
pub const BUFFER_PATH: &[u8] = b"buffer";

/// The path of what is told of a line.
pub const LINE_PATH: &[u8] = b"line_data";

/// The path of what is told of a group or a nick.
pub const NICK_PATH: &[u8] = b"buffer/nicklist_item";

/// The path of the dump of lines.
pub const LINES_PATH: &[u8] = b"buffer/lines/line/line_data";

/// The options of `sync` of which an event needs one.
#[derive(Clone, Copy, Debug, PartialEq, Eq)]
pub enum Asked {
    /// `buffers`.
    Buffers,
    /// `buffer`.
    Buffer,
    /// `buffers` or `buffer`.
    Either,
    /// `nicklist`.
    Nicklist,
    /// `trims`.
    Trims,
    /// No option: no client is told of it.
    Nothing,
}

/// The id under which an event is told, the path of its items, their keys, and what asks for it.
#[derive(Clone, Copy)]
struct EventRow {
    id: &'static [u8],
    path: &'static [u8],
    keys: KeyList,
    asked: Asked,
}

fn row(id: &'static [u8], path: &'static [u8], keys: KeyList, asked: Asked) -> EventRow
    ensures id { result.id.now ≡ id.now }
    ensures path { result.path.now ≡ path.now }
    ensures keys { result.keys ≡ keys }
    ensures asked { result.asked ≡ asked }
{
    EventRow {
        id,
        path,
        keys,
        asked,
    }
}

/// An event of a buffer among the others.
fn buffer_row(id: &'static [u8], keys: KeyList) -> EventRow
    ensures id { result.id.now ≡ id.now }
    ensures path { result.path.now ≡ buffer_path }
    ensures keys { result.keys ≡ keys }
    ensures asked { result.asked ≡ options.Either }
{
    row(id, BUFFER_PATH, keys, Asked::Either)
}

/// An event of what a buffer has.
fn own_row(id: &'static [u8], keys: KeyList) -> EventRow
    ensures id { result.id.now ≡ id.now }
    ensures path { result.path.now ≡ buffer_path }
    ensures keys { result.keys ≡ keys }
    ensures asked { result.asked ≡ options.Buffer }
{
    row(id, BUFFER_PATH, keys, Asked::Buffer)
}

fn line_row(id: &'static [u8], keys: KeyList) -> EventRow
    ensures id { result.id.now ≡ id.now }
    ensures path { result.path.now ≡ line_path }
    ensures keys { result.keys ≡ keys }
    ensures asked { result.asked ≡ options.Buffer }
{
    row(id, LINE_PATH, keys, Asked::Buffer)
}

fn nick_row(id: &'static [u8], keys: KeyList, asked: Asked) -> EventRow
    ensures id { result.id.now ≡ id.now }
    ensures path { result.path.now ≡ nick_path }
    ensures keys { result.keys ≡ keys }
    ensures asked { result.asked ≡ asked }
{
    row(id, NICK_PATH, keys, asked)
}

/// Each event once.
fn event_row(kind: EventKind) -> EventRow
    ensures id { result.id.now ≡ id_of kind }
    ensures path { result.path.now ≡ path_of kind }
    ensures keys { result.keys ≡ list_of kind }
    ensures asked { result.asked ≡ asked_of kind }
{
    match kind {
        EventKind::Opened => row(
            b"_buffer_opened",
            BUFFER_PATH,
            KeyList::Opened,
            Asked::Buffers,
        ),
        EventKind::Moved => buffer_row(b"_buffer_moved", KeyList::Placed),
        EventKind::Merged => buffer_row(b"_buffer_merged", KeyList::Placed),
        EventKind::Unmerged => buffer_row(b"_buffer_unmerged", KeyList::Placed),
        EventKind::Hidden => buffer_row(b"_buffer_hidden", KeyList::Placed),
        EventKind::Unhidden => buffer_row(b"_buffer_unhidden", KeyList::Placed),
        EventKind::Renamed => buffer_row(b"_buffer_renamed", KeyList::Renamed),
        EventKind::TitleChanged => own_row(b"_buffer_title_changed", KeyList::Titled),
        EventKind::VarAdded => own_row(b"_buffer_localvar_added", KeyList::Variables),
        EventKind::VarChanged => own_row(b"_buffer_localvar_changed", KeyList::Variables),
        EventKind::VarRemoved => own_row(b"_buffer_localvar_removed", KeyList::Variables),
        EventKind::Cleared => own_row(b"_buffer_cleared", KeyList::Named),
        EventKind::Closing => buffer_row(b"_buffer_closing", KeyList::Named),
        EventKind::LineAdded => line_row(b"_buffer_line_added", KeyList::LineData),
        EventKind::LineDataChanged => line_row(b"_buffer_line_data_changed", KeyList::Flags),
        EventKind::Nicklist => nick_row(b"_nicklist", KeyList::Nicks, Asked::Nicklist),
        EventKind::NicklistDiff => nick_row(b"_nicklist_diff", KeyList::Diff, Asked::Nicklist),
        EventKind::NickTouched => nick_row(b"", KeyList::Nicks, Asked::Nothing),
        EventKind::LimitSet => row(b"", BUFFER_PATH, KeyList::Named, Asked::Nothing),
        EventKind::LinesTrimmed => row(
            b"_buffer_lines_trimmed",
            BUFFER_PATH,
            KeyList::Trimmed,
            Asked::Trims,
        ),
    }
}

/// The id under which an event is told. A touch of a nicklist and another limit of lines are told under
/// none.
pub fn event_id(kind: EventKind) -> &'static [u8]
    ensures id { result.now ≡ id_of kind }
    ensures text { IsUtf8 result.now }
{
    event_row(kind).id
}

/// The path of the items of an event.
pub fn event_path(kind: EventKind) -> &'static [u8]
    ensures { result.now ≡ path_of kind }
{
    event_row(kind).path
}

/// The keys of the items of an event.
pub fn event_keys(kind: EventKind) -> KeyList
    ensures { result ≡ list_of kind }
{
    event_row(kind).keys
}

/// The options of `sync` of which an event needs one.
pub fn event_asked(kind: EventKind) -> Asked
    ensures { result ≡ asked_of kind }
{
    event_row(kind).asked
}
