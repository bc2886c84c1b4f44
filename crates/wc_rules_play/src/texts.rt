ghost use Rattle.std.specs.Prelude.{IfOk};
ghost use Rattle.std.specs.Str.{IsUtf8};

use std::alloc::Global;
use wc_notation::{Wrong, unescape};
use wc_text::{Items, Text};

/// The text that a word writes.
pub fn text_of(alloc: Global, word: &str) -> Result<Text, Wrong>
    ensures { IfOk result IsUtf8 }
{
    let text = unescape(alloc, word)?;
    match std::str::from_utf8(text.as_slice()) {
        Ok(_) => Ok(text),
        Err(_) => Err(Wrong::NoText),
    }
}

/// The tags that a word writes, which commas part.
pub fn tags_of(alloc: Global, word: &str) -> Result<Items<Text>, Wrong> {
    let mut tags = Items::new(alloc);
    if word == "-" {
        return Ok(tags);
    }
    for tag in word.split(',') {
        tags.push(unescape(alloc, tag)?)?;
    }
    Ok(tags)
}
