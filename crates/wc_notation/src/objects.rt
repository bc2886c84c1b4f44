ghost use Rattle.std.specs.Prelude.{◌≤◌, length};

use crate::lists::{hda, inl};
use crate::values::{kind_and_value, text_or_null, value};
use crate::wrong::Wrong;
use std::alloc::Global;
use wc_objects::{Kind, Object};
use wc_text::Items;

/// What ends a list of items.
const END: &str = "end";

/// The name and the value of an `inf`, which a colon parts.
fn inf(alloc: Global, text: &str) -> Result<Object, Wrong> {
    let Some((name, value)) = text.split_once(':') else {
        return Err(Wrong::Missing);
    };
    let name = text_or_null(alloc, name)?;
    let value = text_or_null(alloc, value)?;
    Ok(Object::Inf { name, value })
}

/// How many words are before the one that ends a list.
fn list_end(words: &[&str]) -> usize
    ensures { result ≤ length words.now }
{
    words
        .iter()
        .position(|word| *word == END)
        .unwrap_or(words.len())
}

/// How many words go on with the object of a word.
fn object_end(first: &str, words: &[&str]) -> usize
    ensures { result ≤ length words.now }
{
    if first.starts_with("hda:") || first.starts_with("inl:") {
        return list_end(words);
    }
    0
}

/// The words that go on with the object of a word.
fn own_words<'a, 'b>(first: &str, words: &'a [&'b str]) -> &'a [&'b str] {
    words.split_at(object_end(first, words)).0
}

/// The words after an object, without the one that ends a list.
fn other_words<'a, 'b>(first: &str, words: &'a [&'b str]) -> &'a [&'b str] {
    match words.split_at(object_end(first, words)).1 {
        [end, following @ ..] if *end == END => following,
        others => others,
    }
}

/// The object of a word, and of the words that go on with it.
fn object(alloc: Global, first: &str, words: &[&str]) -> Result<Object, Wrong> {
    let (kind, text) = kind_and_value(first)?;
    match kind {
        Kind::Hda => hda(alloc, text, words),
        Kind::Inl => inl(alloc, text, words),
        Kind::Inf => inf(alloc, text),
        _ => value(alloc, kind, text),
    }
}

/// The objects that words write.
pub fn read_objects(alloc: Global, words: &[&str]) -> Result<Items<Object>, Wrong> {
    let mut objects = Items::new(alloc);
    let mut rest = words;
    for _ in 0..words.len() {
        let [first, following @ ..] = rest else {
            return Ok(objects);
        };
        objects.push(object(alloc, first, own_words(first, following))?)?;
        rest = other_words(first, following);
    }
    Ok(objects)
}
