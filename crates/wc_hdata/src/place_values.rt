//! The values of what a path reaches, by their keys.

ghost use Rattle.std.specs.Prelude.{◌≡◌, option_map};
ghost use Rattle.wc_events.specs.LentValues.{object_of};
ghost use Rattle.wc_hdata.specs.Kept.{IsKept, IsKeptList};
ghost use Rattle.wc_hdata.specs.Lists.{lines_in};
ghost use Rattle.wc_hdata.specs.Reached.{held_line, place_of};
ghost use Rattle.wc_hdata.specs.Values.{of_data, of_line, of_lines, value_of};

use crate::buffer_values::of_buffer;
use crate::key::Key;
use crate::lists::{Lists, numbers_of};
use crate::place::{HeldLine, LineList, Place};
use wc_events::parts::{LentValue, count, line_value};
use wc_lines::PackedLine;

/// The value of a list of lines that a key names. None for other keys than those of lists.
fn of_lines<'a>(lists: &'a Lists<'_>, list: LineList, key: Key) -> Option<LentValue<'a>>
    requires { IsKeptList lists.now list }
    ensures { option_map object_of result ≡ of_lines key (lines_in lists.now.world list) }
{
    let numbers = numbers_of(lists, list);
    match key {
        Key::FirstLine => Some(LentValue::Ptr(numbers.first)),
        Key::LastLine => Some(LentValue::Ptr(numbers.last)),
        Key::LinesCount => Some(LentValue::Int(count(numbers.count))),
        _ => None,
    }
}

/// The value of a line that a key names. None for other keys than that of lines.
fn of_line<'a>(line: &'a PackedLine, key: Key) -> Option<LentValue<'a>>
    ensures { option_map object_of result ≡ of_line key line.now }
{
    match key {
        Key::Data => Some(LentValue::Ptr(line.content().0)),
        _ => None,
    }
}

/// The value of what a line says that a key names. None for other keys than those of lines' data.
#[inline(always)]
fn of_data<'a>(held: HeldLine<'a>, key: Key) -> Option<LentValue<'a>>
    ensures { option_map object_of result ≡ of_data key (held_line held.entry) }
{
    line_value(held.buffer, held.line, key)
}

/// The value of a place that a key names. None for other keys than those of its element.
#[inline(always)]
#[tactic(auto, unfolding(crate::specs::Values::value_of))]
pub(crate) fn value_of<'a>(
    lists: &'a Lists<'_>,
    place: Place<'a>,
    key: Key,
) -> Option<LentValue<'a>>
    requires { IsKept lists.now (place_of place) }
    ensures { option_map object_of result
        ≡ value_of lists.now.world (place_of place.entry) key }
{
    match place {
        Place::Buffer(buffer) => of_buffer(lists.world().buffers(), lists.buffers(), buffer, key),
        Place::Lines(list) => of_lines(lists, list, key),
        Place::Line(held) => of_line(held.line, key),
        Place::LineData(held) => of_data(held, key),
    }
}
