//! Calls on words, numbers, masks and lists of texts.

use std::alloc::Global;
use std::cmp::Ordering;
use wc_notation::{Sheet, Wrong, cut_word, two_texts, unescape};
use wc_text::{Items, NoMemory, Pair, Text};

fn put_words(out: &mut Sheet, text: &[u8]) {
    out.put("words:");
    for word in wc_text::words(text) {
        out.put(" ");
        out.put_quoted(word);
    }
}

fn put_number(out: &mut Sheet, number: i64) {
    let written = write!(out.text, "{number}");
    out.note(written);
}

fn put_integer(out: &mut Sheet, text: &[u8]) {
    match wc_text::read_i64(text) {
        Some(number) => put_number(out, number),
        None => out.put("no integer"),
    }
}

fn order_named(order: Ordering) -> &'static str {
    match order {
        Ordering::Less => "less",
        Ordering::Equal => "equal",
        Ordering::Greater => "greater",
    }
}

fn order(alloc: Global, rest: &str, out: &mut Sheet) -> Result<(), Wrong> {
    let (first, second) = two_texts(alloc, rest)?;
    let order = wc_text::fold_cmp(first.as_slice(), second.as_slice());
    out.put(order_named(order));
    Ok(())
}

fn mask(alloc: Global, rest: &str, fold: bool, out: &mut Sheet) -> Result<(), Wrong> {
    let (mask, text) = two_texts(alloc, rest)?;
    let matches = wc_text::mask_matches(mask.as_slice(), text.as_slice(), fold);
    out.put_either(matches, "matches", "does not match");
    Ok(())
}

fn put_lossy(alloc: Global, bytes: &[u8], out: &mut Sheet) {
    match wc_text::lossy(alloc, bytes) {
        Ok(text) => out.put_quoted(text.as_slice()),
        Err(NoMemory) => out.lack(),
    }
}

fn put_cut(out: &mut Sheet, text: &[u8], limit: usize) -> Result<(), Wrong> {
    let Ok(text) = std::str::from_utf8(text) else {
        return Err(Wrong::NoText);
    };
    let length = wc_text::cut(text.as_bytes(), limit);
    let written = write!(out.text, "{length} bytes");
    out.note(written);
    Ok(())
}

fn cut(alloc: Global, rest: &str, out: &mut Sheet) -> Result<(), Wrong> {
    let (limit, rest) = cut_word(rest);
    let Ok(limit) = limit.parse::<usize>() else {
        return Err(Wrong::Number);
    };
    let text = unescape(alloc, rest)?;
    put_cut(out, text.as_slice(), limit)
}

fn joined(alloc: Global, first: &[u8], second: &[u8]) -> Result<Text, NoMemory> {
    let mut text = Text::from_slice(alloc, first)?;
    text.append(second)?;
    Ok(text)
}

/// The text of two parts that two words write.
fn joined_text(alloc: Global, rest: &str) -> Result<Text, Wrong> {
    let (first, second) = two_texts(alloc, rest)?;
    match joined(alloc, first.as_slice(), second.as_slice()) {
        Ok(text) => Ok(text),
        Err(NoMemory) => Err(Wrong::NoMemory),
    }
}

/// A pair whose name and value is the text.
fn pair(alloc: Global, text: &Text) -> Result<Pair, NoMemory> {
    let name = text.copy(alloc)?;
    let value = text.copy(alloc)?;
    Ok(Pair { name, value })
}

/// A list of this pair.
fn pairs(alloc: Global, text: &Text) -> Result<Items<Pair>, NoMemory> {
    let mut pairs = Items::new(alloc);
    pairs.push(pair(alloc, text)?)?;
    Ok(pairs)
}

fn put_pair(out: &mut Sheet, pair: &Pair) {
    out.put_quoted(pair.name.as_slice());
    out.put("=");
    out.put_quoted(pair.value.as_slice());
}

fn put_copy(alloc: Global, pair: &Pair, out: &mut Sheet) {
    match pair.copy(alloc) {
        Ok(copy) => put_pair(out, &copy),
        Err(NoMemory) => out.lack(),
    }
}

fn put_each_copy(alloc: Global, pairs: &Items<Pair>, out: &mut Sheet) {
    for pair in pairs.as_slice() {
        put_copy(alloc, pair, out);
    }
}

fn put_copies(alloc: Global, pairs: &Items<Pair>, out: &mut Sheet) {
    match pairs.copy(alloc) {
        Ok(copies) => put_each_copy(alloc, &copies, out),
        Err(NoMemory) => out.lack(),
    }
}

fn put_list(alloc: Global, text: &Text, out: &mut Sheet) {
    match pairs(alloc, text) {
        Ok(pairs) => put_copies(alloc, &pairs, out),
        Err(NoMemory) => out.lack(),
    }
}

/// Makes a text of two, copies it into a list, and shows a copy of the list.
fn copies(alloc: Global, rest: &str, out: &mut Sheet) -> Result<(), Wrong> {
    let text = joined_text(alloc, rest)?;
    put_list(alloc, &text, out);
    Ok(())
}

fn put_answer(alloc: Global, call: &str, text: &[u8], out: &mut Sheet) -> Result<(), Wrong> {
    match call {
        "words" => put_words(out, text),
        "integer" => put_integer(out, text),
        "lossy" => put_lossy(alloc, text, out),
        _ => return Err(Wrong::Word),
    }
    Ok(())
}

/// Writes the answer of a call on one text.
fn answer_on_text(alloc: Global, call: &str, rest: &str, out: &mut Sheet) -> Result<(), Wrong> {
    let text = unescape(alloc, rest)?;
    put_answer(alloc, call, text.as_slice(), out)
}

/// Writes the answer of a call.
pub fn answer(alloc: Global, call: &str, rest: &str, out: &mut Sheet) -> Result<(), Wrong> {
    match call {
        "order" => order(alloc, rest, out),
        "mask" => mask(alloc, rest, false, out),
        "mask_fold" => mask(alloc, rest, true, out),
        "cut" => cut(alloc, rest, out),
        "copies" => copies(alloc, rest, out),
        _ => answer_on_text(alloc, call, rest, out),
    }
}
