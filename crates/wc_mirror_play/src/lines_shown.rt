use crate::copy::{put_text, visible};
use wc_notation::Sheet;
use wc_text::Handle;
use wc_view::{Mirror, PackedMirrorLine};

fn put_dates(out: &mut Sheet, line: &PackedMirrorLine) {
    let date = line.date();
    let usec = line.usec();
    let printed = line.date_printed();
    let usec_printed = line.usec_printed();
    let written = write!(
        out.text,
        " date {date} usec {usec} printed {printed} usec {usec_printed}"
    );
    out.note(written);
}

fn put_id(out: &mut Sheet, line: &PackedMirrorLine) {
    let id = line.id();
    let written = write!(out.text, " id {id}");
    out.note(written);
}

fn put_marks(out: &mut Sheet, line: &PackedMirrorLine) {
    let visible = visible(line.displayed());
    let level = line.notify();
    let written = write!(out.text, " {visible} level {level}");
    out.note(written);
    out.put_either(line.highlight(), " highlight", "");
}

fn put_tags(out: &mut Sheet, line: &PackedMirrorLine) {
    for tag in line.tags() {
        out.put_named(" tag", tag);
    }
}

fn put_line(out: &mut Sheet, line: &PackedMirrorLine) {
    let written = write!(out.text, "\n    line {:x}:", line.content().0);
    out.note(written);
    put_text(out, line.prefix());
    put_text(out, line.message());
    put_id(out, line);
    put_dates(out, line);
    put_marks(out, line);
    put_tags(out, line);
}

fn put_title(out: &mut Sheet, buffer: Handle) {
    let written = write!(out.text, "\n  lines of buffer {:x}", buffer.0);
    out.note(written);
}

/// Writes the lines of a buffer, where it has some.
pub fn put_lines(out: &mut Sheet, mirror: &Mirror, buffer: Handle) {
    let Some(lines) = mirror.lines(buffer) else {
        return;
    };
    let mut is_first = true;
    for line in lines {
        if is_first {
            put_title(out, buffer);
            is_first = false;
        }
        put_line(out, line);
    }
}
