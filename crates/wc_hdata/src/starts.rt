//! Where a path begins.

ghost use Rattle.std.specs.Prelude.{◌≡◌, map, option_map, IfSome, true};
ghost use Rattle.std.specs.List.{AllByRecursion};
ghost use Rattle.wc_buffers.specs.Calls.{is_there};
ghost use Rattle.wc_buffers.specs.Kept.{handles};
ghost use Rattle.wc_hdata.specs.declared.element.Element.TheVariants as elements;
ghost use Rattle.wc_hdata.specs.Kept.{AllMade, AreKept, IsFor, IsHeld, IsThere};
ghost use Rattle.wc_hdata.specs.Lists.{held_by, own_lines};
ghost use Rattle.wc_hdata.specs.Reached.{held_line};
ghost use Rattle.wc_hdata.specs.Starts.{at_buffer, at_data, at_line, at_list, at_pointer, has_own};
ghost use Rattle.wc_hdata.specs.Starts.{is_named, line_among, line_at, lines_from, list_at};
ghost use Rattle.wc_hdata.specs.Starts.{mixed_among};
ghost use Rattle.wc_hdata.specs.Starts.{mixed_of, named_in, own_at, place_of_line, starts};
ghost use Rattle.wc_hdata.specs.Steps.{all_buffers};

use crate::count::Count;
use crate::cursor::Cursor;
use crate::element::Element;
use crate::lists::{Lists, own_lines};
use crate::path::{Path, Start};
use crate::place::{HeldLine, LineList, Place};
use crate::reach::buffers_from;
use wc_buffers::Buffers;
use wc_lines::{Lines as OwnLines, PackedLine};
use wc_text::Handle;
use wc_world::World;

// ---- lists of lines by their pointers

fn has_own(buffers: &Buffers, pointer: u64, buffer: Handle) -> bool
    ensures { result ≡ has_own buffers.now pointer buffer }
{
    match buffers.get(buffer) {
        Some(row) => row.own_lines.0 == pointer,
        None => false,
    }
}

/// The buffer whose own lines have this pointer. `all` are all buffers in their order.
fn own_at(buffers: &Buffers, all: &[Handle], pointer: u64) -> Option<Handle>
    requires { all.now ≡ all_buffers buffers.now }
    ensures { result ≡ own_at buffers.now pointer }
{
    for buffer in all {
        if has_own(buffers, pointer, *buffer) {
            return Some(*buffer);
        }
    }
    None
}

/// The first buffer of a group of two or more, where this is the pointer of its mixed lines.
fn mixed_of(buffers: &Buffers, pointer: u64, group: &[Handle]) -> Option<Handle>
    ensures { result ≡ mixed_of buffers.now pointer group.now }
{
    let [first, _, ..] = group else {
        return None;
    };
    match buffers.get(*first) {
        Some(row) if row.mixed_lines.0 == pointer => Some(*first),
        _ => None,
    }
}

fn mixed_at(buffers: &Buffers, pointer: u64) -> Option<Handle>
    ensures { result ≡ mixed_among buffers.now pointer (handles buffers.now) }
{
    for group in buffers.groups() {
        if let Some(first) = mixed_of(buffers, pointer, group) {
            return Some(first);
        }
    }
    None
}

/// The list of lines of a pointer.
fn list_at(buffers: &Buffers, all: &[Handle], pointer: u64) -> Option<LineList>
    requires { all.now ≡ all_buffers buffers.now }
    ensures { result ≡ list_at buffers.now pointer }
{
    match own_at(buffers, all, pointer) {
        Some(buffer) => Some(LineList::Own(buffer)),
        None => mixed_at(buffers, pointer).map(LineList::Mixed),
    }
}

// ---- lines by their pointers

/// Whether a pointer names a line, or the data of one.
fn is_named(element: Element, pointer: u64, line: &PackedLine) -> bool
    ensures { result ≡ is_named element pointer line.now }
{
    match element {
        Element::Line => line.handle().0 == pointer,
        Element::LineData => line.content().0 == pointer,
        Element::Buffer | Element::Lines => false,
    }
}

/// The first line of a buffer that a pointer names.
fn line_in(lines: &OwnLines, buffer: Handle, element: Element, pointer: u64) -> Option<HeldLine<'_>>
    ensures { option_map held_line result ≡ named_in element pointer
        (map (held_by buffer) lines.now.lines) }
{
    for line in lines.iter() {
        if is_named(element, pointer, line) {
            return Some(HeldLine { buffer, line });
        }
    }
    None
}

/// The first line of these buffers that a pointer names.
fn line_among<'a>(
    world: &'a World,
    buffers: &[Handle],
    element: Element,
    pointer: u64,
) -> Option<HeldLine<'a>>
    requires { AllByRecursion (IsThere world.now.groups) buffers.now }
    ensures line { option_map held_line result
        ≡ line_among world.now element pointer buffers.now }
    ensures held { IfSome result (λ held. IsHeld world.now (held_line held)) }
{
    for buffer in buffers {
        if let Some(held) = line_of(world, *buffer, element, pointer) {
            return Some(held);
        }
    }
    None
}

fn line_of(world: &World, buffer: Handle, element: Element, pointer: u64) -> Option<HeldLine<'_>>
    requires { is_there buffer world.now.groups ≡ true }
    ensures line { option_map held_line result
        ≡ named_in element pointer (own_lines world.now buffer) }
    ensures held { IfSome result (λ held. IsHeld world.now (held_line held)) }
{
    line_in(own_lines(world, buffer)?, buffer, element, pointer)
}

/// The first line that a pointer names.
fn line_at<'a>(lists: &Lists<'a>, element: Element, pointer: u64) -> Option<HeldLine<'a>>
    ensures line { option_map held_line result ≡ line_at lists.now.world element pointer }
    ensures held { IfSome result (λ held. IsHeld lists.now.world (held_line held)) }
{
    line_among(lists.world(), lists.buffers(), element, pointer)
}

/// The place of a line among those of its buffer.
fn place_of_line(buffer: Handle, lines: &OwnLines, pointer: u64) -> usize
    ensures { result ≡ place_of_line pointer (map (held_by buffer) lines.now.lines) }
{
    let count = lines.len() as usize;
    let mut at = 0;
    for line in lines.iter() {
        if line.handle().0 == pointer {
            return at;
        }
        at += 1;
    }
    count
}

// ---- the beginning

/// The lines to which a count goes from one, along the buffer's own.
fn lines_from<'b, 'a>(lists: &'b Lists<'a>, count: Count, held: HeldLine<'a>) -> Cursor<'b, 'a>
    requires { IsHeld lists.now.world (held_line held) }
    ensures places { result ≡ lines_from lists.now.world count (held_line held.entry) }
    ensures kept { AreKept lists.now result }
{
    let HeldLine { buffer, line } = held;
    let Some(lines) = own_lines(lists.world(), buffer) else {
        return Cursor::none();
    };
    let at = place_of_line(buffer, lines, line.handle().0);
    Cursor::of_own(buffer, lines, count, at)
}

/// Where a path begins. None where its pointer is dead. No memory is taken.
#[tactic(auto, unfolding(crate::specs::Starts::starts))]
pub(crate) fn starts<'b, 'a>(lists: &'b Lists<'a>, path: &Path) -> Option<Cursor<'b, 'a>>
    requires { IsFor lists.now path.now }
    ensures places { result ≡ starts lists.now.world path.now.count path.now.start }
    ensures kept { IfSome result (AreKept lists.now) }
{
    match path.start {
        Start::FirstBuffer => Some(Cursor::of_buffers(lists.buffers(), path.count, 0)),
        Start::LastBuffer => {
            let buffers = lists.buffers();
            let at = buffers.len().saturating_sub(1);
            Some(Cursor::of_buffers(buffers, path.count, at))
        }
        Start::Pointer { element, pointer } => at_pointer(lists, path.count, element, pointer),
    }
}

/// The places of a pointer. None where it is dead.
fn at_pointer<'b, 'a>(
    lists: &'b Lists<'a>,
    count: Count,
    element: Element,
    pointer: u64,
) -> Option<Cursor<'b, 'a>>
    requires { element ≡ elements.Lines → AllMade lists.now }
    ensures places { result ≡ at_pointer lists.now.world count element pointer }
    ensures kept { IfSome result (AreKept lists.now) }
{
    match element {
        Element::Buffer => at_buffer(lists, count, pointer),
        Element::Lines => at_list(lists, pointer),
        Element::Line => at_line(lists, count, pointer),
        Element::LineData => at_data(lists, pointer),
    }
}

fn at_buffer<'b, 'a>(lists: &'b Lists<'a>, count: Count, pointer: u64) -> Option<Cursor<'b, 'a>>
    ensures places { result ≡ at_buffer lists.now.world.groups count pointer }
    ensures kept { IfSome result (AreKept lists.now) }
{
    let buffer = Handle(pointer);
    if !is_there(lists.world().buffers(), buffer) {
        return None;
    }
    Some(buffers_from(lists, count, buffer))
}

fn is_there(buffers: &Buffers, buffer: Handle) -> bool
    ensures { result ≡ is_there buffer buffers.now }
{
    match buffers.get(buffer) {
        Some(_) => true,
        None => false,
    }
}

fn at_list<'b, 'a>(lists: &'b Lists<'a>, pointer: u64) -> Option<Cursor<'b, 'a>>
    requires { AllMade lists.now }
    ensures places { result ≡ at_list lists.now.world.groups pointer }
    ensures kept { IfSome result (AreKept lists.now) }
{
    match list_at(lists.world().buffers(), lists.buffers(), pointer) {
        Some(list) => Some(Cursor::one(Place::Lines(list))),
        None => None,
    }
}

fn at_line<'b, 'a>(lists: &'b Lists<'a>, count: Count, pointer: u64) -> Option<Cursor<'b, 'a>>
    ensures places { result ≡ at_line lists.now.world count pointer }
    ensures kept { IfSome result (AreKept lists.now) }
{
    match line_at(lists, Element::Line, pointer) {
        Some(held) => Some(lines_from(lists, count, held)),
        None => None,
    }
}

fn at_data<'b, 'a>(lists: &'b Lists<'a>, pointer: u64) -> Option<Cursor<'b, 'a>>
    ensures places { result ≡ at_data lists.now.world pointer }
    ensures kept { IfSome result (AreKept lists.now) }
{
    match line_at(lists, Element::LineData, pointer) {
        Some(held) => Some(Cursor::one(Place::LineData(held))),
        None => None,
    }
}
