use crate::texts::tags_of;
use std::alloc::Global;
use wc_filters::{Tags, buffers_match, tags_match};
use wc_notation::{Wrong, cut_word, put_either, two_texts, unescape};

/// Whether the masks of a filter have the buffer of a full name.
pub fn put_buffers(alloc: Global, rest: &str, out: &mut String) -> Result<(), Wrong> {
    let (masks, name) = two_texts(alloc, rest)?;
    let is_meant = buffers_match(masks.as_slice(), name.as_slice());
    Ok(put_either(out, is_meant, "matches", "does not match")?)
}

/// Whether the items of a filter hold of tags.
pub fn put_tags(alloc: Global, rest: &str, out: &mut String) -> Result<(), Wrong> {
    let (items, tags) = cut_word(rest);
    let items = unescape(alloc, items)?;
    let tags = tags_of(alloc, tags)?;
    let is_meant = tags_match(items.as_slice(), Tags::Listed(tags.as_slice()));
    Ok(put_either(out, is_meant, "matches", "does not match")?)
}
