//! Values that hold no others, and lists of these, each in one word.

use crate::escapes::unescape;
use crate::wrong::Wrong;
use std::alloc::Global;
use wc_objects::{Kind, Object};
use wc_text::{Items, Text};

const KINDS: [Kind; 12] = [
    Kind::Chr,
    Kind::Int,
    Kind::Lon,
    Kind::Str,
    Kind::Buf,
    Kind::Ptr,
    Kind::Tim,
    Kind::Htb,
    Kind::Hda,
    Kind::Inf,
    Kind::Inl,
    Kind::Arr,
];

/// The kind that three letters name.
pub fn kind_named(letters: &str) -> Result<Kind, Wrong> {
    for kind in KINDS {
        if kind.letters().as_slice() == letters.as_bytes() {
            return Ok(kind);
        }
    }
    Err(Wrong::Word)
}

/// A text, or null where it is `~`.
pub fn text_or_null(alloc: Global, text: &str) -> Result<Option<Text>, Wrong> {
    if text == "~" {
        return Ok(None);
    }
    Ok(Some(unescape(alloc, text)?))
}

/// The number of a `chr`: a sign of ASCII that is no digit stands for its code.
fn chr(text: &str) -> Result<Object, Wrong> {
    match text.as_bytes() {
        [sign] if sign.is_ascii() && !sign.is_ascii_digit() => Ok(Object::Chr(*sign as i8)),
        _ => match text.parse::<i8>() {
            Ok(number) => Ok(Object::Chr(number)),
            Err(_) => Err(Wrong::Number),
        },
    }
}

fn int(text: &str) -> Result<Object, Wrong> {
    match text.parse::<i32>() {
        Ok(number) => Ok(Object::Int(number)),
        Err(_) => Err(Wrong::Number),
    }
}

fn long(text: &str) -> Result<i64, Wrong> {
    match text.parse::<i64>() {
        Ok(number) => Ok(number),
        Err(_) => Err(Wrong::Number),
    }
}

fn lon(text: &str) -> Result<Object, Wrong> {
    Ok(Object::Lon(long(text)?))
}

fn tim(text: &str) -> Result<Object, Wrong> {
    Ok(Object::Tim(long(text)?))
}

/// The pointer that digits of base 16 write.
pub fn pointer(text: &str) -> Result<u64, Wrong> {
    match u64::from_str_radix(text, 16) {
        Ok(pointer) => Ok(pointer),
        Err(_) => Err(Wrong::Number),
    }
}

fn ptr(text: &str) -> Result<Object, Wrong> {
    Ok(Object::Ptr(pointer(text)?))
}

fn str(alloc: Global, text: &str) -> Result<Object, Wrong> {
    Ok(Object::Str(text_or_null(alloc, text)?))
}

fn buf(alloc: Global, text: &str) -> Result<Object, Wrong> {
    Ok(Object::Buf(text_or_null(alloc, text)?))
}

/// A value of a kind that holds no others.
pub fn simple(alloc: Global, kind: Kind, text: &str) -> Result<Object, Wrong> {
    match kind {
        Kind::Chr => chr(text),
        Kind::Int => int(text),
        Kind::Lon => lon(text),
        Kind::Str => str(alloc, text),
        Kind::Buf => buf(alloc, text),
        Kind::Ptr => ptr(text),
        Kind::Tim => tim(text),
        Kind::Htb | Kind::Hda | Kind::Inf | Kind::Inl | Kind::Arr => Err(Wrong::Word),
    }
}

fn simple_values(alloc: Global, kind: Kind, texts: Option<&str>) -> Result<Items<Object>, Wrong> {
    let mut values = Items::new(alloc);
    let Some(texts) = texts else {
        return Ok(values);
    };
    for text in texts.split(',') {
        values.push(simple(alloc, kind, text)?)?;
    }
    Ok(values)
}

/// The kind at the front of a text, and what is after the colon that ends it.
fn kind_and_rest(text: &str) -> Result<(Kind, Option<&str>), Wrong> {
    match text.split_once(':') {
        Some((letters, rest)) => Ok((kind_named(letters)?, Some(rest))),
        None => Ok((kind_named(text)?, None)),
    }
}

fn array(alloc: Global, text: &str) -> Result<Object, Wrong> {
    let (kind, texts) = kind_and_rest(text)?;
    let values = simple_values(alloc, kind, texts)?;
    Ok(Object::Arr { kind, values })
}

/// A pair of a value and what a text writes.
fn pair_with(
    alloc: Global,
    first: Object,
    kind: Kind,
    text: &str,
) -> Result<(Object, Object), Wrong> {
    Ok((first, simple(alloc, kind, text)?))
}

fn pair(alloc: Global, key: Kind, value: Kind, text: &str) -> Result<(Object, Object), Wrong> {
    match text.split_once('=') {
        Some((first, second)) => pair_with(alloc, simple(alloc, key, first)?, value, second),
        None => Err(Wrong::Missing),
    }
}

fn pairs(
    alloc: Global,
    key: Kind,
    value: Kind,
    texts: Option<&str>,
) -> Result<Items<(Object, Object)>, Wrong> {
    let mut pairs = Items::new(alloc);
    let Some(texts) = texts else {
        return Ok(pairs);
    };
    for text in texts.split(',') {
        pairs.push(pair(alloc, key, value, text)?)?;
    }
    Ok(pairs)
}

fn table(alloc: Global, text: &str) -> Result<Object, Wrong> {
    let (key, rest) = kind_and_rest(text)?;
    let (value, texts) = kind_and_rest(rest.unwrap_or(""))?;
    let pairs = pairs(alloc, key, value, texts)?;
    Ok(Object::Htb { key, value, pairs })
}

/// A value of an item: an array, a table, or one that holds no others.
pub fn value(alloc: Global, kind: Kind, text: &str) -> Result<Object, Wrong> {
    match kind {
        Kind::Arr => array(alloc, text),
        Kind::Htb => table(alloc, text),
        _ => simple(alloc, kind, text),
    }
}

/// The kind and the value of a word.
pub fn kind_and_value(word: &str) -> Result<(Kind, &str), Wrong> {
    let Some((letters, text)) = word.split_once(':') else {
        return Err(Wrong::Word);
    };
    Ok((kind_named(letters)?, text))
}
