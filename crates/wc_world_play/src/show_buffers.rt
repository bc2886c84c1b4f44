//! Buffers in their groups, as a world and as a mirror hold them.

use crate::sheet::Sheet;
use wc_buffers::{Buffers, Vars};
use wc_text::{Handle, Items, Pair};
use wc_view::{Mirror, MirrorBuffer, SharedBuffer};
use wc_world::World;

/// What is shown of a buffer beside its variables.
#[derive(Clone, Copy)]
struct BufferView<'a> {
    number: u64,
    handle: Handle,
    full_name: &'a [u8],
    short_name: &'a [u8],
    title: &'a [u8],
    hidden: bool,
}

fn show_buffer(out: &mut Sheet, buffer: &BufferView<'_>) {
    out.put_number("  ", buffer.number);
    out.put_number(": ", buffer.handle.0);
    out.put_text(" ", buffer.full_name);
    out.put_text(" short ", buffer.short_name);
    out.put_text(" title ", buffer.title);
    out.put(if buffer.hidden {
        " hidden vars"
    } else {
        " vars"
    });
}

fn show_var(out: &mut Sheet, name: &[u8], value: &[u8]) {
    out.put_text(" ", name);
    out.put_text("=", value);
}

/// The groups as the handles of their buffers, each group ended by a bar.
pub fn show_groups(out: &mut Sheet, buffers: &Buffers) {
    out.put(" ");
    for group in buffers.groups() {
        show_group(out, group);
    }
    out.put("\n");
}

fn show_group(out: &mut Sheet, group: &[Handle]) {
    for buffer in group {
        out.put_number(" ", buffer.0);
    }
    out.put(" |");
}

fn show_vars(out: &mut Sheet, vars: &Vars) {
    for (name, value) in vars.iter() {
        show_var(out, name.as_slice(), value.as_slice());
    }
    out.put("\n");
}

/// How many variables a buffer has, and all of them.
pub fn show_vars_of(out: &mut Sheet, buffers: &Buffers, buffer: Handle) {
    let Some(vars) = buffers.vars(buffer) else {
        return out.put("  no buffer\n");
    };
    out.put_number("  ", vars.len() as u64);
    out.put(":");
    show_vars(out, vars);
}

/// The value of a variable of a buffer.
pub fn show_value(out: &mut Sheet, buffers: &Buffers, buffer: Handle, name: &str) {
    let Some(vars) = buffers.vars(buffer) else {
        return out.put("no buffer\n");
    };
    match vars.get(name.as_bytes()) {
        Some(value) => out.put_text("", value.as_slice()),
        None => out.put("none"),
    }
    out.put("\n");
}

fn show_of_world(out: &mut Sheet, buffers: &Buffers, number: u64, buffer: Handle) {
    let Some(row) = buffers.get(buffer) else {
        return;
    };
    let Some(vars) = buffers.vars(buffer) else {
        return;
    };
    let view = BufferView {
        number,
        handle: row.handle,
        full_name: row.full_name.as_slice(),
        short_name: row.short_name.as_slice(),
        title: row.title.as_slice(),
        hidden: row.hidden,
    };
    show_buffer(out, &view);
    show_vars(out, vars);
}

fn show_group_of_world(out: &mut Sheet, buffers: &Buffers, number: u64, group: &[Handle]) {
    for buffer in group {
        show_of_world(out, buffers, number, *buffer);
    }
}

/// The buffers of a world, each after its number and its handle.
pub fn world_buffers(out: &mut Sheet, world: &World) {
    let buffers = world.buffers();
    let mut number = 0u64;
    for group in buffers.groups() {
        number = number.saturating_add(1);
        show_group_of_world(out, buffers, number, group);
    }
}

fn show_pairs(out: &mut Sheet, vars: &[Pair]) {
    for pair in vars {
        show_var(out, pair.name.as_slice(), pair.value.as_slice());
    }
    out.put("\n");
}

fn show_of_mirror(out: &mut Sheet, number: u64, buffer: &MirrorBuffer) {
    let view = BufferView {
        number,
        handle: buffer.handle,
        full_name: buffer.full_name.as_slice(),
        short_name: buffer.short_name.as_slice(),
        title: buffer.title.as_slice(),
        hidden: buffer.hidden,
    };
    show_buffer(out, &view);
    show_pairs(out, buffer.vars.as_slice());
}

fn show_group_of_mirror(out: &mut Sheet, number: u64, group: &Items<SharedBuffer>) {
    for buffer in group.as_slice() {
        show_of_mirror(out, number, buffer.get());
    }
}

/// The buffers of a mirror. Nothing where it took no dump of them.
pub fn mirror_buffers(out: &mut Sheet, mirror: &Mirror) {
    let Some(groups) = mirror.buffers() else {
        return;
    };
    let mut number = 0u64;
    for group in groups.as_slice() {
        number = number.saturating_add(1);
        show_group_of_mirror(out, number, group);
    }
}
