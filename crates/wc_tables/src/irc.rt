//! Calls on the lines of IRC servers.

use std::alloc::Global;
use wc_ircmsg::{
    CaseMap, LineRefused, Message, Prefixes, is_writable, read_ctcp, read_line, read_prefix_token,
    same_name, write_line,
};
use wc_notation::{Sheet, Wrong, two_texts, unescape};
use wc_text::{Items, NoMemory, Text};

fn put_params(out: &mut Sheet, params: &Items<Text>) {
    for param in params.as_slice() {
        out.put(" ");
        out.put_quoted(param.as_slice());
    }
}

fn put_message(out: &mut Sheet, message: &Message) {
    out.put_named("nick", message.nick.as_slice());
    out.put_named(" user", message.user.as_slice());
    out.put_named(" host", message.host.as_slice());
    out.put_named(" command", message.command.as_slice());
    out.put(" params");
    put_params(out, &message.params);
}

fn put_refused(out: &mut Sheet, refused: LineRefused) {
    let written = write!(out.text, "refused: {refused}");
    out.note(written);
}

fn read(alloc: Global, line: &[u8], out: &mut Sheet) {
    match read_line(alloc, line) {
        Ok(message) => put_message(out, &message),
        Err(refused) => put_refused(out, refused),
    }
}

fn put_written(alloc: Global, message: &Message, out: &mut Sheet) {
    if !is_writable(message) {
        return out.put("no line spells this");
    }
    match write_line(alloc, message) {
        Ok(line) => out.put_quoted(line.as_slice()),
        Err(NoMemory) => out.lack(),
    }
}

/// Reads a line, and writes its message again.
fn rewrite(alloc: Global, line: &[u8], out: &mut Sheet) {
    match read_line(alloc, line) {
        Ok(message) => put_written(alloc, &message, out),
        Err(refused) => put_refused(out, refused),
    }
}

fn add_param(alloc: Global, params: &mut Items<Text>, word: &str) -> Result<(), Wrong> {
    let param = unescape(alloc, word)?;
    Ok(params.push(param)?)
}

fn params(alloc: Global, words: &str) -> Result<Items<Text>, Wrong> {
    let mut params = Items::new(alloc);
    for word in words.split(' ') {
        add_param(alloc, &mut params, word)?;
    }
    Ok(params)
}

/// The message of a command and its parameters, each of which is a word.
fn message(alloc: Global, rest: &str) -> Result<Message, Wrong> {
    let (command, words) = rest.split_once(' ').unwrap_or((rest, ""));
    let command = unescape(alloc, command)?;
    let params = params(alloc, words)?;
    Ok(Message {
        tags: Text::new(alloc),
        nick: Text::new(alloc),
        user: Text::new(alloc),
        host: Text::new(alloc),
        command,
        params,
    })
}

fn write(alloc: Global, rest: &str, out: &mut Sheet) -> Result<(), Wrong> {
    let message = message(alloc, rest)?;
    put_written(alloc, &message, out);
    Ok(())
}

fn put_same(out: &mut Sheet, name: &str, map: CaseMap, a: &[u8], b: &[u8]) {
    out.put(name);
    out.put_either(same_name(map, a, b), " same", " apart");
}

fn names(alloc: Global, rest: &str, out: &mut Sheet) -> Result<(), Wrong> {
    let (a, b) = two_texts(alloc, rest)?;
    let (a, b) = (a.as_slice(), b.as_slice());
    put_same(out, "ascii", CaseMap::Ascii, a, b);
    put_same(out, ", strict-rfc1459", CaseMap::StrictRfc1459, a, b);
    put_same(out, ", rfc1459", CaseMap::Rfc1459, a, b);
    Ok(())
}

fn put_ctcp(out: &mut Sheet, parts: Option<(&[u8], &[u8])>) {
    let Some((word, arguments)) = parts else {
        return out.put("no ctcp");
    };
    out.put_named("word", word);
    out.put_named(" arguments", arguments);
}

fn put_prefixes(out: &mut Sheet, prefixes: &Prefixes) {
    out.put_named("modes", prefixes.modes.as_slice());
    out.put_named(" characters", prefixes.chars.as_slice());
}

fn prefixes(alloc: Global, value: &[u8], out: &mut Sheet) {
    match read_prefix_token(alloc, value) {
        Ok(Some(prefixes)) => put_prefixes(out, &prefixes),
        Ok(None) => out.put("no prefixes"),
        Err(NoMemory) => out.lack(),
    }
}

fn put_answer(alloc: Global, call: &str, text: &[u8], out: &mut Sheet) -> Result<(), Wrong> {
    match call {
        "read" => read(alloc, text, out),
        "rewrite" => rewrite(alloc, text, out),
        "ctcp" => put_ctcp(out, read_ctcp(text)),
        "prefixes" => prefixes(alloc, text, out),
        _ => return Err(Wrong::Word),
    }
    Ok(())
}

/// Writes the answer of a call on one text.
fn answer_on_text(alloc: Global, call: &str, rest: &str, out: &mut Sheet) -> Result<(), Wrong> {
    let text = unescape(alloc, rest)?;
    put_answer(alloc, call, text.as_slice(), out)
}

/// Writes the answer of a call.
pub fn answer(alloc: Global, call: &str, rest: &str, out: &mut Sheet) -> Result<(), Wrong> {
    match call {
        "write" => write(alloc, rest, out),
        "names" => names(alloc, rest, out),
        _ => answer_on_text(alloc, call, rest, out),
    }
}
