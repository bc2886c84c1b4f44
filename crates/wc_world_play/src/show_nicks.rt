//! Nicklists, as a world and as a mirror hold them.

use crate::sheet::Sheet;
use crate::show_lines::HANDLES;
use std::alloc::Global;
use std::cmp::Ordering;
use wc_nickdiff::Pending;
use wc_nicklist::{Item, Key, Nicklist, Row, row_cmp};
use wc_text::{Handle, NoMemory, Text};
use wc_view::Mirror;
use wc_world::World;

fn has_texts(item: &Item) -> bool {
    !item.color.as_slice().is_empty()
        || !item.prefix.as_slice().is_empty()
        || !item.prefix_color.as_slice().is_empty()
}

/// The colours and the prefix of an item, where it has some, and whether it is hidden.
fn show_fields(out: &mut Sheet, item: &Item) {
    if has_texts(item) {
        out.put_text("(", item.color.as_slice());
        out.put_text(" ", item.prefix.as_slice());
        out.put_text(" ", item.prefix_color.as_slice());
        out.put(")");
    }
    out.put(if item.visible { "" } else { "!" });
}

/// A group as `level:parent/name=handle`, and a nick as `parent.name=handle`.
fn show_item(out: &mut Sheet, parent: &[u8], item: &Item) {
    out.put(" ");
    if item.is_group {
        out.put_number("", item.level);
        out.put(":");
    }
    out.put_bytes(parent);
    out.put_text(if item.is_group { "/" } else { "." }, item.name.as_slice());
    out.put_number("=", item.handle.0);
    show_fields(out, item);
}

fn show_list(out: &mut Sheet, list: &Nicklist) {
    for row in list.rows() {
        show_item(out, row.parent(), row.item());
    }
    out.put("\n");
}

/// The handle of the root of a buffer's nicklist, how many rows it has, and the rows.
pub fn show_nicks_of(out: &mut Sheet, world: &World, buffer: Handle) {
    match world.nicks(buffer) {
        Some(list) => show_nicks(out, list),
        None => out.put("  no buffer\n"),
    }
}

pub fn show_nicks(out: &mut Sheet, list: &Nicklist) {
    out.put_number("  root=", list.root().0);
    out.put_number(", ", list.count());
    out.put(" rows:");
    show_list(out, list);
}

/// The nicklist of a buffer of this number.
fn show_numbered(out: &mut Sheet, number: u64, list: &Nicklist) {
    out.put_number("  ", number);
    out.put(":");
    show_list(out, list);
}

/// The nicklists of all buffers of a world.
pub fn world_nicks(out: &mut Sheet, world: &World) {
    for number in 1..HANDLES {
        if let Some(list) = world.nicks(Handle(number)) {
            show_numbered(out, number, list);
        }
    }
}

/// The nicklists of all buffers of a mirror. Nothing where it took no dump of them.
pub fn mirror_nicks(out: &mut Sheet, mirror: &Mirror) {
    for number in 1..HANDLES {
        if let Some(list) = mirror.nicks(Handle(number)) {
            show_numbered(out, number, list);
        }
    }
}

fn show_row(out: &mut Sheet, row: &Row) {
    let parent = match row.path.as_slice() {
        [.., last] => last.as_slice(),
        [] => b"root",
    };
    show_item(out, parent, &row.item);
}

fn show_rows(out: &mut Sheet, rows: &[Row]) {
    for row in rows {
        show_row(out, row);
    }
    out.put("\n");
}

/// The rows that were told of a nicklist at its last push.
fn show_told_of(alloc: Global, out: &mut Sheet, pending: &Pending, buffer: Handle, now: &Nicklist) {
    match pending.told(alloc, buffer, now) {
        Ok(told) => show_rows(out, told.as_slice()),
        Err(NoMemory) => out.lack(),
    }
}

/// How many keys of a buffer were touched since its last push, and the rows that were told.
pub fn show_told(alloc: Global, out: &mut Sheet, world: &World, pending: &Pending, buffer: Handle) {
    let Some(list) = world.nicks(buffer) else {
        return out.put("  no buffer\n");
    };
    out.put_number("  ", pending.held(buffer));
    out.put(" touched, told were:");
    show_told_of(alloc, out, pending, buffer, list);
}

/// The row of a kind and a name.
fn row_of(alloc: Global, list: &Nicklist, kind: &str, name: &str) -> Result<Option<Row>, NoMemory> {
    let key = Key {
        is_group: kind == "group",
        name: Text::from_slice(alloc, name.as_bytes())?,
    };
    list.row_of(alloc, &key)
}

/// A row of a nicklist by its kind and its name.
pub fn show_row_of(alloc: Global, out: &mut Sheet, list: &Nicklist, kind: &str, name: &str) {
    match row_of(alloc, list, kind, name) {
        Ok(Some(row)) => show_row(out, &row),
        Ok(None) => out.put(" none"),
        Err(NoMemory) => out.lack(),
    }
    out.put("\n");
}

type Found = Result<Option<Row>, NoMemory>;

fn order_of(one: &Found, other: &Found) -> &'static str {
    let (Ok(Some(one)), Ok(Some(other))) = (one, other) else {
        return "no row\n";
    };
    match row_cmp(one, other) {
        Ordering::Less => "before\n",
        Ordering::Equal => "the same\n",
        Ordering::Greater => "after\n",
    }
}

/// How two rows of a nicklist are ordered, each named by its kind and its name.
pub fn show_order(
    alloc: Global,
    out: &mut Sheet,
    list: &Nicklist,
    one: (&str, &str),
    other: (&str, &str),
) {
    let one = row_of(alloc, list, one.0, one.1);
    let other = row_of(alloc, list, other.0, other.1);
    out.put(order_of(&one, &other));
}
