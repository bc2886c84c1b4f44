//! The dumps of a world as the bytes of their messages.

use crate::sheet::Sheet;
use bytes::BytesMut;
use std::alloc::Global;
use wc_change_words::{Wrong, handle};
use wc_events::{Nicks, write_nicks};
use wc_hdata::{Path, read_path, write_walk};
use wc_text::{Handle, NoMemory};
use wc_world::World;

/// Shows bytes after their number.
pub fn show_bytes(out: &mut Sheet, bytes: &[u8]) {
    out.put_number("", bytes.len() as u64);
    out.put(if bytes.is_empty() {
        " bytes"
    } else {
        " bytes "
    });
    out.put_bytes(bytes);
    out.put("\n");
}

/// Shows bytes that were written, unless there was no memory for them.
fn show_written(out: &mut Sheet, bytes: &BytesMut, is_written: bool) {
    if is_written {
        show_bytes(out, bytes.as_slice());
    } else {
        out.lack();
    }
}

/// Shows the message of groups and nicks.
fn show_nicks(alloc: Global, out: &mut Sheet, nicks: Nicks<'_>) {
    let mut bytes = BytesMut::new(alloc);
    let is_written = write_nicks(&mut bytes, b"_nicklist", nicks).is_ok();
    show_written(out, &bytes, is_written);
}

/// What is asked of a path: under an id, the values of these keys.
#[derive(Clone, Copy)]
struct Query<'a> {
    id: &'a str,
    path: &'a str,
    keys: &'a str,
}

const BUFFERS: Query<'static> = Query {
    id: "b",
    path: "buffer:gui_buffers(*)",
    keys: "number,full_name,short_name,hidden,title,local_variables",
};

const LINES: Query<'static> = Query {
    id: "l",
    path: "buffer:gui_buffers(*)/own_lines/first_line(*)/data",
    keys: "buffer,id,date,date_usec,date_printed,date_usec_printed,displayed,notify_level,highlight,tags_array,prefix,message",
};

fn show_walked(alloc: Global, out: &mut Sheet, world: &World, query: Query<'_>, path: &Path) {
    let mut bytes = BytesMut::new(alloc);
    let keys = query.keys.as_bytes();
    let is_written = write_walk(alloc, &mut bytes, query.id.as_bytes(), world, path, keys).is_ok();
    show_written(out, &bytes, is_written);
}

/// Shows what a path leads to.
fn show_path(alloc: Global, out: &mut Sheet, world: &World, query: Query<'_>) {
    match &read_path(alloc, query.path.as_bytes()) {
        Ok(Some(path)) => show_walked(alloc, out, world, query, path),
        Ok(None) => out.put("no path\n"),
        Err(NoMemory) => out.lack(),
    }
}

fn show_list(alloc: Global, out: &mut Sheet, world: &World, buffer: Handle) {
    match Nicks::of_buffer(world, buffer) {
        Some(nicks) => show_nicks(alloc, out, nicks),
        None => out.put("no buffer\n"),
    }
}

/// Shows the dump that a word names, or the nicklist of one buffer.
pub fn show_dump(
    alloc: Global,
    out: &mut Sheet,
    world: &World,
    words: &[&str],
) -> Result<(), Wrong> {
    match words {
        ["buffers"] => show_path(alloc, out, world, BUFFERS),
        ["lines"] => show_path(alloc, out, world, LINES),
        ["nicklists"] => show_nicks(alloc, out, Nicks::of_all(world)),
        ["nicklist", buffer] => show_list(alloc, out, world, handle(buffer)?),
        _ => return Err(Wrong::NoWord),
    }
    Ok(())
}
