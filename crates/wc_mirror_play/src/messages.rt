//! The bytes that lines write.

use std::alloc::Global;
use wc_notation::{Wrong, read_objects, unescape};
use wc_objects::{Object, WriteRefused, well_formed, write_message};
use wc_text::{Items, Text};

fn refusal(refused: WriteRefused) -> Wrong {
    match refused {
        WriteRefused::NoMemory => Wrong::NoMemory,
        WriteRefused::TooLong => Wrong::TooLong,
    }
}

fn message_bytes(alloc: Global, id: &Text, objects: &Items<Object>) -> Result<Text, Wrong> {
    if std::str::from_utf8(id.as_slice()).is_err() {
        return Err(Wrong::NoText);
    }
    if !well_formed(objects) {
        return Err(Wrong::Unformed);
    }
    write_message(alloc, id, objects).map_err(refusal)
}

fn message_of(alloc: Global, id: &str, words: &[&str]) -> Result<Text, Wrong> {
    let id = unescape(alloc, id)?;
    let objects = read_objects(alloc, words)?;
    message_bytes(alloc, &id, &objects)
}

/// The bytes of the message whose id and objects words write.
pub fn message(alloc: Global, rest: &str) -> Result<Text, Wrong> {
    let words: Vec<&str> = rest.split_whitespace().collect(alloc)?;
    match words.as_slice() {
        [id, others @ ..] => message_of(alloc, id, others),
        [] => Err(Wrong::Missing),
    }
}

/// So many of the first bytes.
fn cut(alloc: Global, bytes: &[u8], count: usize) -> Result<Text, Wrong> {
    match bytes.get(..count) {
        Some(front) => Ok(Text::from_slice(alloc, front)?),
        None => Err(Wrong::Number),
    }
}

/// The first bytes of a message, as many as the first word says.
pub fn front(alloc: Global, rest: &str) -> Result<Text, Wrong> {
    let Some((count, words)) = rest.split_once(' ') else {
        return Err(Wrong::Missing);
    };
    let Ok(count) = count.parse::<usize>() else {
        return Err(Wrong::Number);
    };
    let whole = message(alloc, words)?;
    cut(alloc, whole.as_slice(), count)
}
