//! Calls on the options that a table holds, and on the file that they are kept in.

use std::alloc::Global;
use wc_notation::{Sheet, Wrong, cut_word, two_texts, unescape};
use wc_options::{
    Changed, ConfigRefused, Options, SetRefused, number_in, read_address, read_config,
};
use wc_text::{Address, NoMemory, Text};

fn put_found(out: &mut Sheet, address: Address) {
    let [a, b, c, d] = address.ip.to_be_bytes();
    let written = write!(out.text, "address {a}.{b}.{c}.{d} port {}", address.port);
    out.note(written);
}

fn put_address(out: &mut Sheet, text: &Text) {
    match read_address(text.as_slice()) {
        Some(address) => put_found(out, address),
        None => out.put("no address"),
    }
}

fn bound(word: &str) -> Result<u32, Wrong> {
    match word.parse::<u32>() {
        Ok(number) => Ok(number),
        Err(_) => Err(Wrong::Number),
    }
}

fn put_number(out: &mut Sheet, number: u32) {
    let written = write!(out.text, "{number}");
    out.note(written);
}

/// The number that a text writes between two others.
fn number(rest: &str, out: &mut Sheet) -> Result<(), Wrong> {
    let (lowest, following) = cut_word(rest);
    let (highest, text) = cut_word(following);
    match number_in(text.as_bytes(), bound(lowest)?, bound(highest)?) {
        Some(number) => put_number(out, number),
        None => out.put("no such number"),
    }
    Ok(())
}

fn put_unread(out: &mut Sheet, refused: ConfigRefused) {
    let written = write!(out.text, "refused: {refused}");
    out.note(written);
}

fn hold(options: &mut Options, read: Options, out: &mut Sheet) {
    *options = read;
    out.put("read");
}

/// Reads a file. From then on its options are held, unless it is refused.
fn read(alloc: Global, options: &mut Options, file: &Text, out: &mut Sheet) {
    match read_config(alloc, file.as_slice()) {
        Ok(read) => hold(options, read, out),
        Err(refused) => put_unread(out, refused),
    }
}

fn get(options: &Options, name: &Text, out: &mut Sheet) {
    match options.get(name.as_slice()) {
        Some(value) => out.put_quoted(value.as_slice()),
        None => out.put("no such option"),
    }
}

fn put_refused(out: &mut Sheet, refused: &SetRefused) {
    let written = write!(out.text, "refused: {refused}");
    out.note(written);
}

fn put_set(out: &mut Sheet, changed: &Result<Changed, SetRefused>) {
    match changed {
        Ok(changed) => out.put_either(changed.made_server, "set, a server is made", "set"),
        Err(refused) => put_refused(out, refused),
    }
}

fn set_text(
    alloc: Global,
    options: &mut Options,
    name: &Text,
    value: &Text,
    out: &mut Sheet,
) -> Result<(), Wrong> {
    if std::str::from_utf8(value.as_slice()).is_err() {
        return Err(Wrong::NoText);
    }
    put_set(out, &options.set(alloc, name, value));
    Ok(())
}

fn set(alloc: Global, options: &mut Options, rest: &str, out: &mut Sheet) -> Result<(), Wrong> {
    let (name, value) = two_texts(alloc, rest)?;
    set_text(alloc, options, &name, &value, out)
}

fn unset(alloc: Global, options: &mut Options, name: &Text, out: &mut Sheet) {
    match &options.unset(alloc, name) {
        Ok(()) => out.put("unset"),
        Err(refused) => put_refused(out, refused),
    }
}

fn delete(options: &mut Options, name: &Text, out: &mut Sheet) {
    let was_there = options.del_server(name.as_slice());
    out.put_either(was_there, "deleted", "no such server");
}

fn put_servers(out: &mut Sheet, servers: &[Text]) {
    out.put("servers:");
    for name in servers {
        out.put(" ");
        out.put_quoted(name.as_slice());
    }
}

fn put_lines(out: &mut Sheet, text: &[u8]) {
    out.put("file:");
    for line in text.split_inclusive(|byte| *byte == b'\n') {
        out.put("\n");
        out.put_quoted(line);
    }
}

/// The file of the options, each line of it on a line of its own.
fn put_file(alloc: Global, options: &Options, out: &mut Sheet) {
    match options.write_config(alloc) {
        Ok(text) => put_lines(out, text.as_slice()),
        Err(NoMemory) => out.lack(),
    }
}

fn put_answer(
    alloc: Global,
    options: &mut Options,
    call: &str,
    text: &Text,
    out: &mut Sheet,
) -> Result<(), Wrong> {
    match call {
        "address" => put_address(out, text),
        "read" => read(alloc, options, text, out),
        "get" => get(options, text, out),
        "unset" => unset(alloc, options, text, out),
        "delete" => delete(options, text, out),
        _ => return Err(Wrong::Word),
    }
    Ok(())
}

/// Writes the answer of a call on one text.
fn answer_on_text(
    alloc: Global,
    options: &mut Options,
    call: &str,
    rest: &str,
    out: &mut Sheet,
) -> Result<(), Wrong> {
    let text = unescape(alloc, rest)?;
    put_answer(alloc, options, call, &text, out)
}

/// Writes the answer of a call.
pub fn answer(
    alloc: Global,
    options: &mut Options,
    call: &str,
    rest: &str,
    out: &mut Sheet,
) -> Result<(), Wrong> {
    match call {
        "number" => return number(rest, out),
        "set" => return set(alloc, options, rest, out),
        "servers" => put_servers(out, options.servers()),
        "file" => put_file(alloc, options, out),
        _ => return answer_on_text(alloc, options, call, rest, out),
    }
    Ok(())
}
