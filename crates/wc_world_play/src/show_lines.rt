//! Lines of buffers, as a world and as a mirror hold them.

use crate::sheet::Sheet;
use wc_lines::{Lines, PackedLine, TagIter};
use wc_text::Handle;
use wc_view::{Mirror, MirrorLineIter, PackedMirrorLine};
use wc_world::World;

/// Handles are shown up to this one: those of 256 buffers and of some lines.
pub const HANDLES: u64 = 1100;

/// What is shown of a line beside its tags.
#[derive(Clone, Copy)]
struct LineView<'a> {
    content: Handle,
    id: u32,
    date: u64,
    usec: u32,
    date_printed: u64,
    usec_printed: u32,
    displayed: bool,
    notify: i8,
    highlight: bool,
    prefix: &'a [u8],
    message: &'a [u8],
}

fn show_line(out: &mut Sheet, buffer: Handle, line: &LineView<'_>) {
    out.put_number("  ", buffer.0);
    out.put_number(": ", line.content.0);
    out.put_text(" ", line.prefix);
    out.put_text(" ", line.message);
    out.put_number(" with id ", u64::from(line.id));
    out.put_number(", at ", line.date);
    out.put_number(" and ", u64::from(line.usec));
    out.put_number(" us, printed ", line.date_printed);
    out.put_number(" and ", u64::from(line.usec_printed));
    out.put(" us");
    out.put(if line.displayed {
        ", shown"
    } else {
        ", hidden"
    });
    out.put_signed(", notify ", i64::from(line.notify));
    out.put(if line.highlight { ", highlight" } else { "" });
}

fn show_tags(out: &mut Sheet, count: usize, tags: TagIter<'_>) {
    out.put_number(", ", count as u64);
    out.put(" tags");
    for tag in tags {
        out.put_text(" ", tag);
    }
    out.put("\n");
}

fn show_of_world(out: &mut Sheet, buffer: Handle, line: &PackedLine) {
    let view = LineView {
        content: line.content(),
        id: line.id(),
        date: line.date(),
        usec: line.usec(),
        date_printed: line.date_printed(),
        usec_printed: line.usec_printed(),
        displayed: line.displayed(),
        notify: line.notify(),
        highlight: line.highlight(),
        prefix: line.prefix(),
        message: line.message(),
    };
    show_line(out, buffer, &view);
    show_tags(out, line.tags_len(), line.tags());
}

fn show_lines_of_world(out: &mut Sheet, buffer: Handle, lines: &Lines) {
    for line in lines.iter() {
        show_of_world(out, buffer, line);
    }
}

/// How many lines a buffer holds, and all of them.
pub fn show_lines_of(out: &mut Sheet, world: &World, buffer: Handle) {
    let Some(lines) = world.lines(buffer) else {
        return out.put("  no buffer\n");
    };
    out.put_number("  ", u64::from(lines.len()));
    out.put_number(" of ", u64::from(world.limit()));
    out.put(" lines\n");
    show_lines_of_world(out, buffer, lines);
}

/// The lines of all buffers of a world.
pub fn world_lines(out: &mut Sheet, world: &World) {
    for number in 1..HANDLES {
        if let Some(lines) = world.lines(Handle(number)) {
            show_lines_of_world(out, Handle(number), lines);
        }
    }
}

fn show_of_mirror(out: &mut Sheet, buffer: Handle, line: &PackedMirrorLine) {
    let view = LineView {
        content: line.content(),
        id: line.id(),
        date: line.date(),
        usec: line.usec(),
        date_printed: line.date_printed(),
        usec_printed: line.usec_printed(),
        displayed: line.displayed(),
        notify: line.notify(),
        highlight: line.highlight(),
        prefix: line.prefix(),
        message: line.message(),
    };
    show_line(out, buffer, &view);
    show_tags(out, line.tags_len(), line.tags());
}

fn show_lines_of_mirror(out: &mut Sheet, buffer: Handle, lines: MirrorLineIter<'_>) {
    for line in lines {
        show_of_mirror(out, buffer, line);
    }
}

/// The lines of all buffers of a mirror.
pub fn mirror_lines(out: &mut Sheet, mirror: &Mirror) {
    for number in 1..HANDLES {
        if let Some(lines) = mirror.lines(Handle(number)) {
            show_lines_of_mirror(out, Handle(number), lines);
        }
    }
}
