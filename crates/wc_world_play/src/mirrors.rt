//! What mirrors hold beside what the world has.

use crate::clients::Screen;
use crate::sheet::Sheet;
use crate::show_buffers::{mirror_buffers, world_buffers};
use crate::show_lines::{mirror_lines, world_lines};
use crate::show_nicks::{mirror_nicks, world_nicks};
use std::alloc::Global;
use wc_text::Handle;
use wc_view::Mirror;
use wc_world::World;

/// Says whether a part of a mirror is as the world has it, and shows it where it is not.
fn show_held(out: &mut Sheet, name: &str, world: &Sheet, mirror: &Sheet) {
    out.put(name);
    if world.read() == mirror.read() {
        return out.put(" as in the world\n");
    }
    out.put(" otherwise:\n");
    out.put(if mirror.is_empty() {
        "  none\n"
    } else {
        mirror.read()
    });
}

fn show_buffers(alloc: Global, out: &mut Sheet, world: &World, mirror: &Mirror) {
    if mirror.buffers().is_none() {
        return out.put("buffers not taken\n");
    }
    let mut there = Sheet::new(alloc);
    let mut held = Sheet::new(alloc);
    world_buffers(&mut there, world);
    mirror_buffers(&mut held, mirror);
    show_held(out, "buffers", &there, &held);
}

fn show_lines(alloc: Global, out: &mut Sheet, world: &World, mirror: &Mirror) {
    if mirror.lines(Handle(1)).is_none() {
        return out.put("lines not taken\n");
    }
    let mut there = Sheet::new(alloc);
    let mut held = Sheet::new(alloc);
    world_lines(&mut there, world);
    mirror_lines(&mut held, mirror);
    show_held(out, "lines", &there, &held);
}

fn show_nicks(alloc: Global, out: &mut Sheet, world: &World, mirror: &Mirror) {
    let mut held = Sheet::new(alloc);
    mirror_nicks(&mut held, mirror);
    if held.is_empty() {
        return out.put("nicklists not taken\n");
    }
    let mut there = Sheet::new(alloc);
    world_nicks(&mut there, world);
    show_held(out, "nicklists", &there, &held);
}

/// Says what the mirror of a client holds.
pub fn show_mirror(alloc: Global, out: &mut Sheet, world: &World, screen: &Screen) {
    if screen.refused > 0 {
        out.put_number("", screen.refused);
        out.put(" messages refused\n");
    }
    show_buffers(alloc, out, world, &screen.mirror);
    show_lines(alloc, out, world, &screen.mirror);
    show_nicks(alloc, out, world, &screen.mirror);
}

/// What is shown of a mirror that has all that the world has.
const ALL_HELD: &str =
    "buffers as in the world\nlines as in the world\nnicklists as in the world\n";

/// Answers whether the mirror of a client has all that the world has, and shows it where it has not.
pub fn show_other(alloc: Global, out: &mut Sheet, world: &World, screen: &Screen) -> bool {
    let mut shown = Sheet::new(alloc);
    show_mirror(alloc, &mut shown, world, screen);
    let has_all = shown.read() == ALL_HELD;
    if !has_all {
        out.put(shown.read());
    }
    has_all
}
