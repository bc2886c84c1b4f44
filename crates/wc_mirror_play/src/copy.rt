use crate::buffers_shown::put_groups;
use crate::lines_shown::put_lines;
use crate::nicks_shown::put_nicks;
use wc_notation::Sheet;
use wc_text::{Handle, Pair};
use wc_view::Mirror;

/// The highest handle of a buffer whose lines and nicks are shown.
const HIGHEST: u64 = 255;

/// Whether something is shown, in a word.
pub fn visible(is: bool) -> &'static str {
    if is { "visible" } else { "hidden" }
}

/// Writes a text between `<` and `>`, after a blank.
pub fn put_text(out: &mut Sheet, bytes: &[u8]) {
    out.put(" ");
    out.put_quoted(bytes);
}

/// Writes a name and its value, after a blank.
pub fn put_pair(out: &mut Sheet, pair: &Pair) {
    put_text(out, pair.name.as_slice());
    out.put("=");
    out.put_quoted(pair.value.as_slice());
}

fn put_each_nicklist(out: &mut Sheet, mirror: &Mirror) {
    for number in 0..=HIGHEST {
        put_nicks(out, mirror, Handle(number));
    }
}

fn put_each_lines(out: &mut Sheet, mirror: &Mirror) {
    if mirror.lines(Handle(0)).is_none() {
        return out.put("\n  no lines were taken");
    }
    out.put("\n  lines were taken");
    for number in 0..=HIGHEST {
        put_lines(out, mirror, Handle(number));
    }
}

/// Writes what a mirror holds, in lines of which each comes after a line feed.
pub fn put_mirror(out: &mut Sheet, mirror: &Mirror) {
    put_groups(out, mirror);
    put_each_lines(out, mirror);
    put_each_nicklist(out, mirror);
}
