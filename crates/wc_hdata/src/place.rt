//! What the elements of a path lead to, and what names it.

ghost use Rattle.std.specs.Prelude.{◌≡◌};
ghost use Rattle.wc_hdata.specs.Reached.{place_of};
ghost use Rattle.wc_hdata.specs.Walk.{list_pointer, pointer_of};

use wc_buffers::Buffers;
use wc_lines::PackedLine;
use wc_text::Handle;

/// A line, and the buffer that holds it.
#[derive(Clone, Copy)]
pub(crate) struct HeldLine<'a> {
    pub(crate) buffer: Handle,
    pub(crate) line: &'a PackedLine,
}

/// A list of lines.
#[derive(Clone, Copy)]
pub(crate) enum LineList {
    /// The own one of a buffer.
    Own(Handle),
    /// The mixed one of the group whose first buffer this is.
    Mixed(Handle),
}

/// What an element of a path leads to.
#[derive(Clone, Copy)]
pub(crate) enum Place<'a> {
    Buffer(Handle),
    Lines(LineList),
    Line(HeldLine<'a>),
    LineData(HeldLine<'a>),
}

/// What names a list of lines.
fn list_pointer(buffers: &Buffers, list: LineList) -> u64
    ensures { result ≡ list_pointer buffers.now list }
{
    match list {
        LineList::Own(buffer) => match buffers.get(buffer) {
            Some(row) => row.own_lines.0,
            None => 0,
        },
        LineList::Mixed(buffer) => match buffers.get(buffer) {
            Some(row) => row.mixed_lines.0,
            None => 0,
        },
    }
}

/// What names a place.
pub(crate) fn pointer_of(buffers: &Buffers, place: Place<'_>) -> u64
    ensures { result ≡ pointer_of buffers.now (place_of place.entry) }
{
    match place {
        Place::Buffer(buffer) => buffer.0,
        Place::Lines(list) => list_pointer(buffers, list),
        Place::Line(held) => held.line.handle().0,
        Place::LineData(held) => held.line.content().0,
    }
}
