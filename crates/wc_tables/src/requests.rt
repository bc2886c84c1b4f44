//! Calls on the lines of relay clients.

use crate::logins::{algorithm, key, login};
use std::alloc::Global;
use wc_notation::{Sheet, Wrong, unescape};
use wc_relaycmd::{Command, Request, read_request};
use wc_text::{Items, NoMemory, Pair, Text};

fn put_pairs(out: &mut Sheet, name: &str, pairs: &Items<Pair>) {
    out.put(name);
    for pair in pairs.as_slice() {
        out.put(" ");
        out.put_quoted(pair.name.as_slice());
        out.put("=");
        out.put_quoted(pair.value.as_slice());
    }
}

fn put_texts(out: &mut Sheet, name: &str, texts: &Items<Text>) {
    out.put(name);
    for text in texts.as_slice() {
        out.put(" ");
        out.put_quoted(text.as_slice());
    }
}

fn put_two(out: &mut Sheet, name: &str, first: &Text, second: &Text) {
    out.put_two(name, first.as_slice(), second.as_slice());
}

fn put_nicklist(out: &mut Sheet, buffer: &Option<Text>) {
    match buffer {
        Some(buffer) => out.put_named("nicklist", buffer.as_slice()),
        None => out.put("nicklist of all"),
    }
}

fn put_completion(out: &mut Sheet, buffer: &Text, position: i64, text: &Text) {
    out.put_named("completion", buffer.as_slice());
    let written = write!(out.text, " {position} ");
    out.note(written);
    out.put_quoted(text.as_slice());
}

fn put_selection(
    out: &mut Sheet,
    name: &str,
    buffers: &Items<Text>,
    options: &Option<Items<Text>>,
) {
    put_texts(out, name, buffers);
    if let Some(options) = options {
        put_texts(out, " with", options);
    }
}

/// A command of one text at most.
fn put_short(out: &mut Sheet, command: &Command) {
    match command {
        Command::Info(name) => out.put_named("info", name.as_slice()),
        Command::Nicklist(buffer) => put_nicklist(out, buffer),
        Command::Test => out.put("test"),
        Command::Ping(text) => out.put_named("ping", text.as_slice()),
        Command::Quit => out.put("quit"),
        _ => out.put("another"),
    }
}

fn put_command(out: &mut Sheet, command: &Command) {
    match command {
        Command::Handshake(pairs) => put_pairs(out, "handshake", pairs),
        Command::Init(pairs) => put_pairs(out, "init", pairs),
        Command::Hdata { path, keys } => put_two(out, "hdata", path, keys),
        Command::Infolist { name, argument } => put_two(out, "infolist", name, argument),
        Command::Input { buffer, text } => put_two(out, "input", buffer, text),
        Command::Completion {
            buffer,
            position,
            text,
        } => put_completion(out, buffer, *position, text),
        Command::Sync { buffers, options } => put_selection(out, "sync", buffers, options),
        Command::Desync { buffers, options } => put_selection(out, "desync", buffers, options),
        _ => put_short(out, command),
    }
}

fn put_request(out: &mut Sheet, request: &Request) {
    out.put("(");
    out.put_escaped(request.id.as_slice());
    out.put(") ");
    put_command(out, &request.command);
}

fn put_reading(out: &mut Sheet, request: &Result<Option<Request>, NoMemory>) {
    match request {
        Ok(Some(request)) => put_request(out, request),
        Ok(None) => out.put("no request"),
        Err(NoMemory) => out.lack(),
    }
}

fn put_line(alloc: Global, line: &[u8], escaped: bool, out: &mut Sheet) {
    let request = read_request(alloc, line, escaped);
    put_reading(out, &request);
}

fn request(alloc: Global, rest: &str, escaped: bool, out: &mut Sheet) -> Result<(), Wrong> {
    let line = unescape(alloc, rest)?;
    put_line(alloc, line.as_slice(), escaped, out);
    Ok(())
}

/// Writes the answer of a call.
pub fn answer(alloc: Global, call: &str, rest: &str, out: &mut Sheet) -> Result<(), Wrong> {
    match call {
        "request" => request(alloc, rest, false, out),
        "request_escaped" => request(alloc, rest, true, out),
        "login" => login(alloc, rest, out),
        "algorithm" => algorithm(alloc, rest, out),
        "key" => key(alloc, rest, out),
        _ => Err(Wrong::Word),
    }
}
