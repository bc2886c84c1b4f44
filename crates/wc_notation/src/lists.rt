//! Lists of items, whose words go on up to the word `end`.

ghost use Rattle.std.specs.Prelude.{◌≤◌, length};

use crate::escapes::unescape;
use crate::values::{kind_and_value, pointer, simple, text_or_null, value};
use crate::wrong::Wrong;
use std::alloc::Global;
use wc_objects::{Hda, HdaItem, InlVar, Object};
use wc_text::{Items, Text};

/// What an item of an `hda` begins with.
const AT: &str = "at:";

/// What an item of an `inl` begins with.
const ITEM: &str = "item";

fn begins_item(word: &str) -> bool {
    word == ITEM || word.starts_with(AT)
}

/// How many words are before the next item.
fn item_end(words: &[&str]) -> usize
    ensures { result ≤ length words.now }
{
    words
        .iter()
        .position(|word| begins_item(word))
        .unwrap_or(words.len())
}

fn before_item<'a, 'b>(words: &'a [&'b str]) -> &'a [&'b str] {
    words.split_at(item_end(words)).0
}

fn from_item<'a, 'b>(words: &'a [&'b str]) -> &'a [&'b str] {
    words.split_at(item_end(words)).1
}

fn pointers(alloc: Global, text: &str) -> Result<Items<u64>, Wrong> {
    let mut pointers = Items::new(alloc);
    for digits in text.split('/') {
        pointers.push(pointer(digits)?)?;
    }
    Ok(pointers)
}

fn word_value(alloc: Global, word: &str) -> Result<Object, Wrong> {
    let (kind, text) = kind_and_value(word)?;
    value(alloc, kind, text)
}

fn values(alloc: Global, words: &[&str]) -> Result<Items<Object>, Wrong> {
    let mut values = Items::new(alloc);
    for word in words {
        values.push(word_value(alloc, word)?)?;
    }
    Ok(values)
}

fn hda_item(alloc: Global, first: &str, words: &[&str]) -> Result<HdaItem, Wrong> {
    let Some(text) = first.strip_prefix(AT) else {
        return Err(Wrong::Word);
    };
    let pointers = pointers(alloc, text)?;
    let values = values(alloc, words)?;
    Ok(HdaItem { pointers, values })
}

fn hda_items(alloc: Global, words: &[&str]) -> Result<Items<HdaItem>, Wrong> {
    let mut items = Items::new(alloc);
    let mut rest = words;
    for _ in 0..words.len() {
        let [first, following @ ..] = rest else {
            return Ok(items);
        };
        items.push(hda_item(alloc, first, before_item(following))?)?;
        rest = from_item(following);
    }
    Ok(items)
}

/// The path and the keys of an `hda`, which a colon parts. Without a colon the keys are null.
fn path_and_keys(alloc: Global, text: &str) -> Result<(Option<Text>, Option<Text>), Wrong> {
    let (path, keys) = text.split_once(':').unwrap_or((text, "~"));
    let path = text_or_null(alloc, path)?;
    let keys = text_or_null(alloc, keys)?;
    Ok((path, keys))
}

pub fn hda(alloc: Global, text: &str, words: &[&str]) -> Result<Object, Wrong> {
    let (path, keys) = path_and_keys(alloc, text)?;
    let items = hda_items(alloc, words)?;
    Ok(Object::Hda(Hda { path, keys, items }))
}

/// A variable of an item, `NAME=KIND:VALUE`.
fn variable(alloc: Global, word: &str) -> Result<InlVar, Wrong> {
    let Some((name, rest)) = word.split_once('=') else {
        return Err(Wrong::Word);
    };
    let (kind, text) = kind_and_value(rest)?;
    let name = unescape(alloc, name)?;
    let value = simple(alloc, kind, text)?;
    Ok(InlVar { name, value })
}

fn variables(alloc: Global, words: &[&str]) -> Result<Items<InlVar>, Wrong> {
    let mut variables = Items::new(alloc);
    for word in words {
        variables.push(variable(alloc, word)?)?;
    }
    Ok(variables)
}

fn inl_items(alloc: Global, words: &[&str]) -> Result<Items<Items<InlVar>>, Wrong> {
    let mut items = Items::new(alloc);
    let mut rest = words;
    for _ in 0..words.len() {
        let [first, following @ ..] = rest else {
            return Ok(items);
        };
        if *first != ITEM {
            return Err(Wrong::Word);
        }
        items.push(variables(alloc, before_item(following))?)?;
        rest = from_item(following);
    }
    Ok(items)
}

pub fn inl(alloc: Global, text: &str, words: &[&str]) -> Result<Object, Wrong> {
    let name = unescape(alloc, text)?;
    let items = inl_items(alloc, words)?;
    Ok(Object::Inl { name, items })
}
