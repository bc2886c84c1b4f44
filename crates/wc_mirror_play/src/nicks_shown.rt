use crate::copy::{put_text, visible};
use wc_nicklist::{Item, Nicklist, RowView};
use wc_notation::Sheet;
use wc_text::Handle;
use wc_view::Mirror;

/// Whether an item is a group or a nick, in a word.
fn kind(item: &Item) -> &'static str {
    if item.is_group { "group" } else { "nick" }
}

fn put_name(out: &mut Sheet, item: &Item) {
    let written = write!(out.text, "\n    {} {:x}:", kind(item), item.handle.0);
    out.note(written);
    put_text(out, item.name.as_slice());
}

fn put_marks(out: &mut Sheet, item: &Item) {
    let written = write!(out.text, " {} level {}", visible(item.visible), item.level);
    out.note(written);
    out.put_named(" color", item.color.as_slice());
    out.put_named(" prefix", item.prefix.as_slice());
    put_text(out, item.prefix_color.as_slice());
}

fn put_row(out: &mut Sheet, row: &RowView<'_>) {
    put_name(out, row.item());
    out.put_named(" in", row.parent());
    put_marks(out, row.item());
}

fn put_title(out: &mut Sheet, buffer: Handle, root: Handle) {
    let written = write!(
        out.text,
        "\n  nicklist of buffer {:x}, root {:x}",
        buffer.0, root.0
    );
    out.note(written);
}

fn put_list(out: &mut Sheet, buffer: Handle, list: &Nicklist) {
    put_title(out, buffer, list.root());
    for row in list.rows() {
        put_row(out, &row);
    }
}

/// Writes the nicklist of a buffer, where it is there.
pub fn put_nicks(out: &mut Sheet, mirror: &Mirror, buffer: Handle) {
    if let Some(list) = mirror.nicks(buffer) {
        put_list(out, buffer, list);
    }
}
