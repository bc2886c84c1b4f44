//! Calls on the messages and objects of a relay.

use bytes::BytesMut;
use std::alloc::Global;
use wc_notation::{Sheet, Wrong, read_objects, show_objects, two_texts, unescape};
use wc_objects::{
    MessageRefused, Object, WireMessage, WriteRefused, append_message, append_text, read_i32,
    read_message, read_ptr, read_str, well_formed, write_message,
};
use wc_text::{Items, NoMemory, Text};

fn put_size(out: &mut Sheet, size: usize) {
    let written = write!(out.text, "{size} bytes: ");
    out.note(written);
}

fn put_message(out: &mut Sheet, message: &WireMessage, size: usize) {
    put_size(out, size);
    out.put_quoted(message.id.as_slice());
    let written = show_objects(&mut out.text, message.objects.as_slice());
    out.note(written);
}

fn put_refused(out: &mut Sheet, refused: MessageRefused) {
    let written = write!(out.text, "refused: {refused}");
    out.note(written);
}

/// What is read of the front of some bytes: a message and its size, where it is whole.
type Front = Result<Option<(WireMessage, usize)>, MessageRefused>;

fn put_front(out: &mut Sheet, front: &Front) {
    match front {
        Ok(Some((message, size))) => put_message(out, message, *size),
        Ok(None) => out.put("bytes are missing"),
        Err(refused) => put_refused(out, *refused),
    }
}

fn read(alloc: Global, bytes: &[u8], out: &mut Sheet) {
    let front = read_message(alloc, bytes);
    put_front(out, &front);
}

/// The message of an id and objects that words write.
fn message_with(alloc: Global, id: &str, words: &[&str]) -> Result<WireMessage, Wrong> {
    let id = unescape(alloc, id)?;
    let objects = read_objects(alloc, words)?;
    Ok(WireMessage { id, objects })
}

/// The same, where the first word is the id.
fn message(alloc: Global, rest: &str) -> Result<WireMessage, Wrong> {
    let words: Vec<&str> = rest.split_whitespace().collect(alloc)?;
    match words.as_slice() {
        [id, others @ ..] => message_with(alloc, id, others),
        [] => Err(Wrong::Missing),
    }
}

fn refusal(refused: WriteRefused) -> Wrong {
    match refused {
        WriteRefused::NoMemory => Wrong::NoMemory,
        WriteRefused::TooLong => Wrong::TooLong,
    }
}

/// The bytes of a message, where these can be its id and its objects.
fn message_of(alloc: Global, id: &Text, objects: &Items<Object>) -> Result<Text, Wrong> {
    if std::str::from_utf8(id.as_slice()).is_err() {
        return Err(Wrong::NoText);
    }
    if !well_formed(objects) {
        return Err(Wrong::Unformed);
    }
    write_message(alloc, id, objects).map_err(refusal)
}

/// Writes the bytes of a message, and what is read of them.
fn put_both(alloc: Global, message: &WireMessage, out: &mut Sheet) -> Result<(), Wrong> {
    let bytes = message_of(alloc, &message.id, &message.objects)?;
    out.put_escaped(bytes.as_slice());
    out.put("\n");
    read(alloc, bytes.as_slice(), out);
    Ok(())
}

/// Writes a message, and reads what is written.
fn write(alloc: Global, rest: &str, out: &mut Sheet) -> Result<(), Wrong> {
    let message = message(alloc, rest)?;
    put_both(alloc, &message, out)
}

fn put_written(alloc: Global, message: &WireMessage, out: &mut Sheet) -> Result<(), Wrong> {
    let bytes = message_of(alloc, &message.id, &message.objects)?;
    out.put_escaped(bytes.as_slice());
    Ok(())
}

fn put_rewritten(alloc: Global, front: &Front, out: &mut Sheet) -> Result<(), Wrong> {
    match front {
        Ok(Some((message, _))) => return put_written(alloc, message, out),
        Ok(None) => out.put("bytes are missing"),
        Err(refused) => put_refused(out, *refused),
    }
    Ok(())
}

/// Reads a message, and writes what is read.
fn rewrite(alloc: Global, bytes: &[u8], out: &mut Sheet) -> Result<(), Wrong> {
    let front = read_message(alloc, bytes);
    put_rewritten(alloc, &front, out)
}

fn append_to(buffer: &mut BytesMut, id: &[u8], objects: &Items<Object>) -> Result<(), Wrong> {
    if std::str::from_utf8(id).is_err() {
        return Err(Wrong::NoText);
    }
    if !well_formed(objects) {
        return Err(Wrong::Unformed);
    }
    append_message(buffer, id, objects.as_slice()).map_err(refusal)
}

fn put_appended(alloc: Global, message: &WireMessage, out: &mut Sheet) -> Result<(), Wrong> {
    let mut buffer = BytesMut::copy_from_slice(alloc, b"before")?;
    append_to(&mut buffer, message.id.as_slice(), &message.objects)?;
    out.put_escaped(buffer.as_slice());
    Ok(())
}

/// Writes a message after the bytes `before`.
fn append(alloc: Global, rest: &str, out: &mut Sheet) -> Result<(), Wrong> {
    let message = message(alloc, rest)?;
    put_appended(alloc, &message, out)
}

fn append_text_to(buffer: &mut BytesMut, id: &[u8], text: &[u8]) -> Result<(), Wrong> {
    if std::str::from_utf8(id).is_err() {
        return Err(Wrong::NoText);
    }
    if std::str::from_utf8(text).is_err() {
        return Err(Wrong::NoText);
    }
    append_text(buffer, id, text).map_err(refusal)
}

fn put_text_message(alloc: Global, id: &[u8], text: &[u8], out: &mut Sheet) -> Result<(), Wrong> {
    let mut buffer = BytesMut::copy_from_slice(alloc, b"before")?;
    append_text_to(&mut buffer, id, text)?;
    out.put_escaped(buffer.as_slice());
    Ok(())
}

/// Writes a message of one text after the bytes `before`.
fn text(alloc: Global, rest: &str, out: &mut Sheet) -> Result<(), Wrong> {
    let (id, text) = two_texts(alloc, rest)?;
    put_text_message(alloc, id.as_slice(), text.as_slice(), out)
}

fn put_number(out: &mut Sheet, number: i32) {
    let written = write!(out.text, "{number}");
    out.note(written);
}

fn read_int(bytes: &[u8], out: &mut Sheet) {
    match read_i32(bytes) {
        Some(number) => put_number(out, number),
        None => out.put("none"),
    }
}

fn put_pointer(out: &mut Sheet, pointer: u64, size: usize) {
    let written = write!(out.text, "{size} bytes: {pointer:x}");
    out.note(written);
}

fn read_pointer(bytes: &[u8], out: &mut Sheet) {
    match read_ptr(bytes) {
        Some((pointer, size)) => put_pointer(out, pointer, size),
        None => out.put("none"),
    }
}

fn put_text(out: &mut Sheet, text: &Option<Text>, size: usize) {
    put_size(out, size);
    match text {
        Some(text) => out.put_quoted(text.as_slice()),
        None => out.put("null"),
    }
}

fn put_text_read(out: &mut Sheet, read: &Result<Option<(Option<Text>, usize)>, NoMemory>) {
    match read {
        Ok(Some((text, size))) => put_text(out, text, *size),
        Ok(None) => out.put("none"),
        Err(NoMemory) => out.lack(),
    }
}

fn read_text(alloc: Global, bytes: &[u8], out: &mut Sheet) {
    let read = read_str(alloc, bytes);
    put_text_read(out, &read);
}

fn put_answer(alloc: Global, call: &str, bytes: &[u8], out: &mut Sheet) -> Result<(), Wrong> {
    match call {
        "read" => read(alloc, bytes, out),
        "rewrite" => return rewrite(alloc, bytes, out),
        "read_int" => read_int(bytes, out),
        "read_ptr" => read_pointer(bytes, out),
        "read_str" => read_text(alloc, bytes, out),
        _ => return Err(Wrong::Word),
    }
    Ok(())
}

/// Writes the answer of a call on bytes.
fn answer_on_bytes(alloc: Global, call: &str, rest: &str, out: &mut Sheet) -> Result<(), Wrong> {
    let bytes = unescape(alloc, rest)?;
    put_answer(alloc, call, bytes.as_slice(), out)
}

/// Writes the answer of a call.
pub fn answer(alloc: Global, call: &str, rest: &str, out: &mut Sheet) -> Result<(), Wrong> {
    match call {
        "write" => write(alloc, rest, out),
        "append" => append(alloc, rest, out),
        "append_text" => text(alloc, rest, out),
        _ => answer_on_bytes(alloc, call, rest, out),
    }
}
