//! What is typed for a server, and what it says before something is closed.

use crate::acts::{put_answer, put_result};
use crate::sheet::Sheet;
use crate::stage::{Stage, named, utf8};
use std::alloc::Global;
use wc_buffers::Buffers;
use wc_irc::{Server, on_command_unlinked};
use wc_notation::{Wrong, cut_word};
use wc_text::Handle;

/// Types a text into the buffer that a word names.
fn type_text(
    alloc: Global,
    server: &Server,
    buffers: &Buffers,
    rest: &str,
    out: &mut Sheet,
) -> Result<(), Wrong> {
    let (buffer, text) = cut_word(rest);
    let buffer = named(alloc, buffers, buffer)?;
    let text = utf8(alloc, text)?;
    put_answer(
        out,
        server.on_command(alloc, buffers, buffer, text.as_slice()),
    );
    Ok(())
}

/// The same where the buffer's server has no link.
fn type_unlinked(
    alloc: Global,
    buffers: &Buffers,
    rest: &str,
    out: &mut Sheet,
) -> Result<(), Wrong> {
    let (buffer, text) = cut_word(rest);
    let buffer = named(alloc, buffers, buffer)?;
    let text = utf8(alloc, text)?;
    put_answer(
        out,
        on_command_unlinked(alloc, buffers, buffer, text.as_slice()),
    );
    Ok(())
}

/// Types a text into the buffer of a handle, where it is there.
fn type_at(
    alloc: Global,
    server: &Server,
    buffers: &Buffers,
    handle: Handle,
    text: &str,
    out: &mut Sheet,
) -> Result<(), Wrong> {
    let Some(row) = buffers.get(handle) else {
        return Ok(());
    };
    out.put_quoted(row.full_name.as_slice());
    out.put("\n");
    let text = utf8(alloc, text)?;
    put_answer(
        out,
        server.on_command(alloc, buffers, handle, text.as_slice()),
    );
    Ok(())
}

/// Types a text into each of the first five buffers.
fn type_everywhere(
    alloc: Global,
    server: &Server,
    buffers: &Buffers,
    text: &str,
    out: &mut Sheet,
) -> Result<(), Wrong> {
    for number in 1..=5 {
        type_at(alloc, server, buffers, Handle(number), text, out)?;
    }
    Ok(())
}

fn close(
    alloc: Global,
    server: &Server,
    buffers: &Buffers,
    rest: &str,
    out: &mut Sheet,
) -> Result<(), Wrong> {
    let buffer = named(alloc, buffers, rest)?;
    put_result(out, server.before_close(alloc, buffers, buffer));
    Ok(())
}

/// Writes the answer of a call on a server about a buffer.
fn buffers_answer(
    alloc: Global,
    server: &Server,
    buffers: &Buffers,
    call: &str,
    rest: &str,
    out: &mut Sheet,
) -> Result<(), Wrong> {
    match call {
        "type" => type_text(alloc, server, buffers, rest, out),
        "everywhere" => type_everywhere(alloc, server, buffers, rest, out),
        "unlinked" => type_unlinked(alloc, buffers, rest, out),
        "close" => close(alloc, server, buffers, rest, out),
        _ => Err(Wrong::Word),
    }
}

/// Writes the answer of a call on a server.
pub fn commands_answer(
    alloc: Global,
    server: &mut Server,
    stage: &Stage,
    call: &str,
    rest: &str,
    out: &mut Sheet,
) -> Result<(), Wrong> {
    let buffers = &stage.buffers;
    match call {
        "link" => put_result(out, server.registered_lines(alloc)),
        "lose" => put_result(out, server.on_lost(alloc, buffers)),
        "quit" => put_result(out, server.before_quit(alloc)),
        "disconnect" => put_result(out, server.on_disconnect(alloc)),
        _ => return buffers_answer(alloc, server, buffers, call, rest, out),
    }
    Ok(())
}
