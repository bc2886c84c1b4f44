//! The parts of a world that a script asks to see.

use crate::diffs::show_applied;
use crate::sheet::Sheet;
use crate::show_buffers::{show_groups, show_value, show_vars_of, world_buffers};
use crate::show_lines::show_lines_of;
use crate::show_nicks::{show_nicks_of, show_order, show_row_of, show_told};
use std::alloc::Global;
use wc_buffers::Buffers;
use wc_change_words::{Wrong, handle};
use wc_nickdiff::Pending;
use wc_nicklist::Nicklist;
use wc_text::Handle;
use wc_world::World;

/// A part that may be shown after each change.
#[derive(Clone, Copy)]
pub enum Part {
    Nothing,
    Groups,
    Buffers,
    Vars(Handle),
    Lines(Handle),
    Nicks(Handle),
    /// What was told of a nicklist.
    Told(Handle),
}

fn part_of_buffer(part: &str, buffer: Handle) -> Result<Part, Wrong> {
    match part {
        "vars" => Ok(Part::Vars(buffer)),
        "lines" => Ok(Part::Lines(buffer)),
        "nicks" => Ok(Part::Nicks(buffer)),
        "told" => Ok(Part::Told(buffer)),
        _ => Err(Wrong::NoWord),
    }
}

pub fn part_of(words: &[&str]) -> Result<Part, Wrong> {
    match words {
        ["nothing"] => Ok(Part::Nothing),
        ["groups"] => Ok(Part::Groups),
        ["buffers"] => Ok(Part::Buffers),
        [part, buffer] => part_of_buffer(part, handle(buffer)?),
        _ => Err(Wrong::NoWord),
    }
}

pub fn show_part(alloc: Global, out: &mut Sheet, world: &World, pending: &Pending, part: Part) {
    match part {
        Part::Nothing => {}
        Part::Groups => show_groups(out, world.buffers()),
        Part::Buffers => world_buffers(out, world),
        Part::Vars(buffer) => show_vars_of(out, world.buffers(), buffer),
        Part::Lines(buffer) => show_lines_of(out, world, buffer),
        Part::Nicks(buffer) => show_nicks_of(out, world, buffer),
        Part::Told(buffer) => show_told(alloc, out, world, pending, buffer),
    }
}

/// Shows a number, or that there is none.
fn show_number(out: &mut Sheet, number: Option<u64>) {
    match number {
        Some(number) => out.put_number("", number),
        None => out.put("none"),
    }
    out.put("\n");
}

fn number_of(buffers: &Buffers, buffer: Handle) -> Option<u64> {
    let number = buffers.number(buffer)?;
    Some(u64::from(number))
}

fn buffer_of_name(buffers: &Buffers, name: &str) -> Option<u64> {
    let buffer = buffers.find(name.as_bytes())?;
    Some(buffer.0)
}

/// Shows one thing of the buffers, which words name.
pub fn show_of_buffers(out: &mut Sheet, buffers: &Buffers, words: &[&str]) -> Result<(), Wrong> {
    match words {
        ["number", buffer] => show_number(out, number_of(buffers, handle(buffer)?)),
        ["find", name] => show_number(out, buffer_of_name(buffers, name)),
        ["value", buffer, name] => show_value(out, buffers, handle(buffer)?, name),
        _ => return Err(Wrong::NoWord),
    }
    Ok(())
}

/// Shows one thing of a nicklist, which words name.
pub fn show_of_list(
    alloc: Global,
    out: &mut Sheet,
    list: &Nicklist,
    words: &[&str],
) -> Result<(), Wrong> {
    match words {
        ["row", kind, name] => show_row_of(alloc, out, list, kind, name),
        ["order", kind, name, other_kind, other] => {
            show_order(alloc, out, list, (kind, name), (other_kind, other));
        }
        ["apply", items @ ..] => return show_applied(alloc, out, list, items),
        _ => return Err(Wrong::NoWord),
    }
    Ok(())
}
