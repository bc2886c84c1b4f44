use crate::copy::{put_pair, put_text, visible};
use wc_notation::Sheet;
use wc_text::{Items, Pair};
use wc_view::{Mirror, MirrorBuffer, SharedBuffer};

fn put_vars(out: &mut Sheet, vars: &Items<Pair>) {
    for pair in vars.as_slice() {
        put_pair(out, pair);
    }
}

fn put_names(out: &mut Sheet, buffer: &MirrorBuffer) {
    put_text(out, buffer.full_name.as_slice());
    out.put(" short");
    put_text(out, buffer.short_name.as_slice());
    out.put(" title");
    put_text(out, buffer.title.as_slice());
}

fn put_buffer(out: &mut Sheet, buffer: &MirrorBuffer) {
    let written = write!(out.text, "\n    buffer {:x}:", buffer.handle.0);
    out.note(written);
    put_names(out, buffer);
    out.put(" ");
    out.put(visible(!buffer.hidden));
    put_vars(out, &buffer.vars);
}

fn put_group(out: &mut Sheet, group: &[SharedBuffer]) {
    out.put("\n  group");
    for buffer in group {
        put_buffer(out, buffer.get());
    }
}

/// Writes the buffers in their groups.
pub fn put_groups(out: &mut Sheet, mirror: &Mirror) {
    let Some(groups) = mirror.buffers() else {
        return out.put("\n  no buffers were taken");
    };
    for group in groups.as_slice() {
        put_group(out, group.as_slice());
    }
}
