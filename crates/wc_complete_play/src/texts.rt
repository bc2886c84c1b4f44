ghost use Rattle.std.specs.Prelude.{IfOk};
ghost use Rattle.std.specs.Str.{IsUtf8};

use std::alloc::Global;
use wc_notation::{Wrong, cut_word, unescape};
use wc_text::{Handle, Items, Text};

/// The text that a word writes.
pub fn text_of(alloc: Global, word: &str) -> Result<Text, Wrong>
    ensures { IfOk result IsUtf8 }
{
    let text = unescape(alloc, word)?;
    match std::str::from_utf8(text.as_slice()) {
        Ok(_) => Ok(text),
        Err(_) => Err(Wrong::NoText),
    }
}

/// The texts that words write.
pub fn texts_of(alloc: Global, words: &str) -> Result<Items<Text>, Wrong> {
    let mut texts = Items::new(alloc);
    for word in words.split_whitespace() {
        texts.push(unescape(alloc, word)?)?;
    }
    Ok(texts)
}

/// The number that a word writes.
pub fn number(word: &str) -> Result<u64, Wrong> {
    match word.parse::<u64>() {
        Ok(number) => Ok(number),
        Err(_) => Err(Wrong::Number),
    }
}

/// The handle that the first word writes, and what is after it.
pub fn cut_handle(text: &str) -> Result<(Handle, &str), Wrong> {
    let (word, rest) = cut_word(text);
    Ok((Handle(number(word)?), rest))
}
