use crate::wrong::Wrong;
use std::alloc::{AllocError, Global};
use wc_text::Text;

/// The value of a hexadecimal digit in lower case.
fn digit(byte: u8) -> Option<u8> {
    match byte {
        b'0'..=b'9' => Some(byte - b'0'),
        b'a'..=b'f' => Some(byte - b'a' + 10),
        _ => None,
    }
}

fn hex_byte(high: u8, low: u8) -> Result<u8, Wrong> {
    match (digit(high), digit(low)) {
        (Some(high), Some(low)) => Ok(high.wrapping_mul(16).wrapping_add(low)),
        _ => Err(Wrong::Escape),
    }
}

/// The byte of an escape of one letter.
fn named_byte(letter: u8) -> Result<u8, Wrong> {
    match letter {
        b'n' => Ok(b'\n'),
        b'r' => Ok(b'\r'),
        b's' => Ok(b' '),
        b'0' => Ok(b'\0'),
        b'\\' => Ok(b'\\'),
        _ => Err(Wrong::Escape),
    }
}

/// The byte that an escape stands for, where it stands for one, and how many bytes it takes after
/// its backslash.
fn byte_of_escape(rest: &[u8]) -> Result<(Option<u8>, usize), Wrong> {
    match rest {
        [b'.', ..] => Ok((None, 1)),
        [b'x', high, low, ..] => Ok((Some(hex_byte(*high, *low)?), 3)),
        [letter, ..] => Ok((Some(named_byte(*letter)?), 1)),
        [] => Err(Wrong::Escape),
    }
}

fn append(text: &mut Text, byte: Option<u8>) -> Result<(), Wrong> {
    match byte {
        Some(byte) => Ok(text.append(&[byte])?),
        None => Ok(()),
    }
}

/// Puts what is at the front of a text after another. How many bytes belong to it beside the
/// first.
fn put_front(found: &mut Text, first: u8, rest: &[u8]) -> Result<usize, Wrong> {
    if first != b'\\' {
        found.append(&[first])?;
        return Ok(0);
    }
    let (meant, taken) = byte_of_escape(rest)?;
    append(found, meant)?;
    Ok(taken)
}

/// The bytes that a text writes, in which `\n`, `\r`, `\0`, `\\`, `\s` for a blank and `\xHH`
/// stand for one byte each, and `\.` for none: it shows where a text is empty, or ends in a blank.
pub fn unescape(alloc: Global, text: &str) -> Result<Text, Wrong> {
    let bytes = text.as_bytes();
    let mut found = Text::new(alloc);
    let mut skip = 0usize;
    for (place, first) in bytes.iter().enumerate() {
        if skip > 0 {
            skip -= 1;
        } else {
            let rest = bytes.get(place.saturating_add(1)..).unwrap_or(&[]);
            skip = put_front(&mut found, *first, rest)?;
        }
    }
    Ok(found)
}

fn put_byte(out: &mut String, byte: u8) -> Result<(), AllocError> {
    match byte {
        b'\n' => out.push_str("\\n"),
        b'\r' => out.push_str("\\r"),
        b'\0' => out.push_str("\\0"),
        b'\\' => out.push_str("\\\\"),
        b' '..=b'~' => out.push(byte as char),
        _ => write!(out, "\\x{byte:02x}"),
    }
}

/// Writes bytes so that they can be read: those that print as they are, unless they are among the
/// marks, and the others as escapes.
pub fn escape(out: &mut String, bytes: &[u8], marks: &[u8]) -> Result<(), AllocError> {
    for byte in bytes {
        if !marks.contains(byte) {
            put_byte(out, *byte)?;
        } else if *byte == b' ' {
            out.push_str("\\s")?;
        } else {
            write!(out, "\\x{byte:02x}")?;
        }
    }
    Ok(())
}

/// Writes a text so that it can be read, between `<` and `>`.
pub fn put_quoted(out: &mut String, bytes: &[u8]) -> Result<(), AllocError> {
    out.push('<')?;
    escape(out, bytes, &[])?;
    out.push('>')
}

/// The same after a word and a blank.
pub fn put_named(out: &mut String, name: &str, bytes: &[u8]) -> Result<(), AllocError> {
    out.push_str(name)?;
    out.push(' ')?;
    put_quoted(out, bytes)
}

/// Writes one of two words.
pub fn put_either(out: &mut String, is: bool, yes: &str, no: &str) -> Result<(), AllocError> {
    out.push_str(if is { yes } else { no })
}
