//! Where a step of a path leads.

ghost use Rattle.std.specs.Prelude.{◌≡◌, position, ◌==◌, true, false, ◌-◌};
ghost use Rattle.wc_buffers.specs.Calls.{is_there};
ghost use Rattle.wc_hdata.specs.Kept.{AreKept, IsHeld, IsKept, IsKeptList, IsReady, Listed};
ghost use Rattle.wc_hdata.specs.Lists.{lines_in, own_lines};
ghost use Rattle.wc_hdata.specs.Reached.{held_line, place_of};
ghost use Rattle.wc_hdata.specs.Steps.{buffers_from, from_buffer, from_data, from_first, from_last};
ghost use Rattle.wc_hdata.specs.Steps.{from_line, from_lines, place_in, reach};
ghost use Rattle.wc_text.specs.declared.names.Handle.{Handle as HandleValue};

use crate::count::Count;
use crate::cursor::Cursor;
use crate::lists::{Lists, own_lines};
use crate::path::Step;
use crate::place::{HeldLine, LineList, Place};
use crate::variable::Variable;
use wc_text::Handle;

/// The places to which a step leads from one. No memory is taken.
// Inlined, so that the places are made where they are kept, and are not copied there.
#[inline(always)]
#[tactic(auto, unfolding(crate::specs::Steps::reach))]
pub(crate) fn reach<'b, 'a>(lists: &'b Lists<'a>, step: Step, place: Place<'a>) -> Cursor<'b, 'a>
    requires kept { IsKept lists.now (place_of place) }
    requires ready { IsReady lists.now step }
    ensures places { result ≡ reach lists.now.world step (place_of place.entry) }
    ensures kept { AreKept lists.now result }
{
    match place {
        Place::Buffer(buffer) => from_buffer(lists, step, buffer),
        Place::Lines(list) => from_lines(lists, step, list),
        // This borrows nothing of the lists, as the others may.
        Place::Line(held) => return from_line(step.variable, held),
        Place::LineData(held) => from_data(lists, step, held),
    }
}

fn from_buffer<'b, 'a>(lists: &'b Lists<'a>, step: Step, buffer: Handle) -> Cursor<'b, 'a>
    requires there { is_there buffer lists.now.world.groups ≡ true }
    requires ready { IsReady lists.now step }
    ensures places { result ≡ from_buffer lists.now.world step.variable buffer }
    ensures kept { AreKept lists.now result }
{
    match step.variable {
        Variable::OwnLines => Cursor::one(Place::Lines(LineList::Own(buffer))),
        Variable::Lines => Cursor::one(Place::Lines(lists.shown(buffer))),
        _ => Cursor::none(),
    }
}

fn from_lines<'b, 'a>(lists: &'b Lists<'a>, step: Step, list: LineList) -> Cursor<'b, 'a>
    requires { IsKeptList lists.now list }
    ensures places { result ≡ from_lines lists.now.world step.variable step.count list }
    ensures kept { AreKept lists.now result }
{
    let is_last = match step.variable {
        Variable::FirstLine => false,
        Variable::LastLine => true,
        _ => return Cursor::none(),
    };
    lines_from(lists, step.count, is_last, list)
}

/// The lines to which a count goes from the first or the last of a list.
fn lines_from<'b, 'a>(
    lists: &'b Lists<'a>,
    count: Count,
    is_last: bool,
    list: LineList,
) -> Cursor<'b, 'a>
    requires { IsKeptList lists.now list }
    ensures first { is_last ≡ false →
        result ≡ from_first count (lines_in lists.now.world list) }
    ensures last { is_last ≡ true →
        result ≡ from_last count (lines_in lists.now.world list) }
    ensures kept { AreKept lists.now result }
{
    match list {
        LineList::Own(buffer) => own_from(lists, count, is_last, buffer),
        LineList::Mixed(first) => {
            let lines = lists.mixed(first);
            Cursor::of_held(lines, count, end_of(is_last, lines.len()))
        }
    }
}

fn own_from<'b, 'a>(
    lists: &'b Lists<'a>,
    count: Count,
    is_last: bool,
    buffer: Handle,
) -> Cursor<'b, 'a>
    requires { is_there buffer lists.now.world.groups ≡ true }
    ensures first { is_last ≡ false →
        result ≡ from_first count (own_lines lists.now.world buffer) }
    ensures last { is_last ≡ true →
        result ≡ from_last count (own_lines lists.now.world buffer) }
    ensures kept { AreKept lists.now result }
{
    let Some(lines) = own_lines(lists.world(), buffer) else {
        return Cursor::none();
    };
    let at = end_of(is_last, lines.len() as usize);
    Cursor::of_own(buffer, lines, count, at)
}

/// The place of the first or the last of so many lines.
fn end_of(is_last: bool, lines: usize) -> usize
    ensures first { is_last ≡ false → result ≡ 0 }
    ensures last { is_last ≡ true → result ≡ lines - 1 }
{
    if is_last { lines.saturating_sub(1) } else { 0 }
}

fn from_line<'b, 'a>(variable: Variable, held: HeldLine<'a>) -> Cursor<'b, 'a>
    ensures places { result ≡ from_line variable (held_line held.entry) }
    ensures kept { (listed : Listed) → IsHeld listed.world (held_line held.entry) →
        AreKept listed result }
{
    let Variable::Data = variable else {
        return Cursor::none();
    };
    Cursor::one(Place::LineData(held))
}

fn from_data<'b, 'a>(lists: &'b Lists<'a>, step: Step, held: HeldLine<'a>) -> Cursor<'b, 'a>
    requires { IsHeld lists.now.world (held_line held) }
    ensures places { result ≡ from_data lists.now.world step.variable step.count
        (held_line held.entry) }
    ensures kept { AreKept lists.now result }
{
    let Variable::Buffer = step.variable else {
        return Cursor::none();
    };
    buffers_from(lists, step.count, held.buffer)
}

/// The buffers to which a count goes from one.
pub(crate) fn buffers_from<'b, 'a>(
    lists: &'b Lists<'a>,
    count: Count,
    buffer: Handle,
) -> Cursor<'b, 'a>
    requires { is_there buffer lists.now.world.groups ≡ true }
    ensures places { result ≡ buffers_from lists.now.world.groups count buffer }
    ensures kept { AreKept lists.now result }
{
    // A buffer that is there is the one at its own place: it need not be looked for.
    if let Count::One = count {
        return Cursor::one(Place::Buffer(buffer));
    }
    let buffers = lists.buffers();
    Cursor::of_buffers(buffers, count, place_in(buffers, buffer))
}

/// The place of a buffer among all.
fn place_in(buffers: &[Handle], buffer: Handle) -> usize
    ensures { result ≡ place_in buffer buffers.now }
{
    match position(buffers, buffer) {
        Some(at) => at,
        None => 0,
    }
}

fn position(buffers: &[Handle], buffer: Handle) -> Option<usize>
    ensures { result ≡ position (λ (h : HandleValue). h.0 == buffer.0) buffers.now }
{
    buffers.iter().position(|other| other.0 == buffer.0)
}
