ghost use Rattle.std.specs.Prelude.{◌≡◌, ◌<◌, ◌+◌, ◌++◌, ◌^◌, length, IfOk, OnOk};
ghost use Rattle.std.specs.Prelude.{MatchOption, None, Some};
ghost use Rattle.std.specs.Iterator.{YieldsFirstRef, item_count};
ghost use Rattle.wc_lines.specs.Packed.{spelled, all_spelled, first_tag, tags_of, AllFit};
ghost use Rattle.wc_lines.specs.TagsLeft.{tags_left};

use std::alloc::Global;
use std::marker::Model;
use wc_text::{NoMemory, Text};

/// The tags, the prefix and the message of a line in one block of memory. They may be any bytes.
#[derive(Drop)]
pub struct PackedTexts {
    /// Where the message begins, after the prefix.
    message_at: u32,
    /// Where the tags begin, after the message.
    tags_at: u32,
    block: Vec<u8>,
}

impl Model for PackedTexts {
    ghost use Rattle.wc_lines.specs.Packed.{LineTexts};

    ghost Value = { LineTexts };

    ghost use Rattle.wc_lines.specs.Block.{texts_in, IsBlock};

    ghost view = { texts_in };

    ghost invariant = { IsBlock };
}

impl PackedTexts {
    /// These texts. It takes memory once, as much as they need.
    pub fn new(
        alloc: Global,
        tags: &[Text],
        prefix: &[u8],
        message: &[u8],
    ) -> Result<PackedTexts, NoMemory>
        ensures { IfOk result (λ texts. texts
            ≡ record { tags = tags.now; prefix = prefix.now; message = message.now }) }
    {
        let mut block = Vec::with_capacity(alloc, size_of(tags, prefix, message)?)?;
        let message_at = put(&mut block, prefix)?;
        let tags_at = put(&mut block, message)?;
        put_tags(&mut block, tags)?;
        Ok(PackedTexts {
            message_at,
            tags_at,
            block,
        })
    }

    /// The tags, in order.
    pub fn tags(&self) -> TagIter<'_>
        ensures { tags_left result ≡ self.now.tags }
    {
        let rest = self.block.as_slice().split_at(self.tags_at as usize).1;
        TagIter { rest }
    }

    /// How many tags there are.
    pub fn tags_len(&self) -> usize
        ensures { result ≡ length self.now.tags }
    {
        count_tags(self.block.as_slice().split_at(self.tags_at as usize).1)
    }

    /// The tags as they lie in the block: each after its length in four bytes.
    pub fn spelled_tags(&self) -> &[u8]
        ensures { result.now ≡ all_spelled self.now.tags }
    {
        self.block.as_slice().split_at(self.tags_at as usize).1
    }

    pub fn prefix(&self) -> &[u8]
        ensures { result.now ≡ self.now.prefix }
    {
        self.block.as_slice().split_at(self.message_at as usize).0
    }

    pub fn message(&self) -> &[u8]
        ensures { result.now ≡ self.now.message }
    {
        let front = self.block.as_slice().split_at(self.tags_at as usize).0;
        front.split_at(self.message_at as usize).1
    }
}

/// How many bytes a block of these texts has.
fn size_of(tags: &[Text], prefix: &[u8], message: &[u8]) -> Result<usize, NoMemory>
    ensures { IfOk result (λ size. size
        ≡ length (prefix.now ++ message.now) + length (all_spelled tags.now)) }
{
    let mut size = sum(prefix.len(), message.len())?;
    for tag in tags {
        size = sum(size, 4)?;
        size = sum(size, tag.as_slice().len())?;
    }
    Ok(size)
}

fn sum(size: usize, more: usize) -> Result<usize, NoMemory>
    ensures { IfOk result (λ sum. sum ≡ size + more) }
{
    match size.checked_add(more) {
        Some(sum) => Ok(sum),
        None => Err(NoMemory),
    }
}

/// Puts bytes after those of a block, and answers how many it then has.
fn put(block: &mut Vec<u8>, bytes: &[u8]) -> Result<u32, NoMemory>
    ensures bytes { OnOk result (block.new.items ≡ block.old.items ++ bytes.now) }
    ensures end { IfOk result (λ end. end ≡ length block.new.items) }
{
    block.extend_from_slice(bytes)?;
    match u32::try_from(block.len()) {
        Ok(end) => Ok(end),
        Err(_) => Err(NoMemory),
    }
}

fn put_tags(block: &mut Vec<u8>, tags: &[Text]) -> Result<(), NoMemory>
    ensures spelled { OnOk result (block.new.items ≡ block.old.items ++ all_spelled tags.now) }
    ensures fit { OnOk result (AllFit tags.now) }
{
    for tag in tags {
        put_tag(block, tag.as_slice())?;
    }
    Ok(())
}

/// Puts the length of a tag in four bytes, and then the tag.
#[tactic(auto, unfolding(crate::specs::Packed::spelled))]
fn put_tag(block: &mut Vec<u8>, tag: &[u8]) -> Result<(), NoMemory>
    ensures spelled { OnOk result (block.new.items ≡ block.old.items ++ spelled tag.now) }
    ensures fits { OnOk result (length tag.now < 2 ^ 32) }
{
    let Ok(length) = u32::try_from(tag.len()) else {
        return Err(NoMemory);
    };
    block.extend_from_slice(&length.to_be_bytes())?;
    block.extend_from_slice(tag)?;
    Ok(())
}

/// The tags that are still to come, in order.
#[derive(Drop)]
pub struct TagIter<'a> {
    rest: &'a [u8],
}

impl<'a> Iterator for TagIter<'a> {
    type Item = &'a [u8];

    ghost next_gives = { YieldsFirstRef tags_left };

    ghost remaining = { item_count tags_left };

    #[tactic(auto, using(crate::proofs::PackedLaws::tag_facts))]
    fn next(&mut self) -> Option<&'a [u8]> {
        let (tag, rest) = first_tag(self.rest)?;
        self.rest = rest;
        Some(tag)
    }
}

/// The tag at the front of the bytes, and the bytes after it. None where no tag is spelled there.
#[tactic(auto, unfolding(crate::specs::Packed::first_tag))]
fn first_tag(bytes: &[u8]) -> Option<(&[u8], &[u8])>
    ensures { MatchOption result (first_tag bytes.now ≡ None)
        (λ x. first_tag bytes.now ≡ Some (x.0.now, x.1.now)) }
{
    if bytes.len() < 4 {
        return None;
    }
    let (front, rest) = bytes.split_at(4);
    let length = u32::from_be_bytes([front[0], front[1], front[2], front[3]]) as usize;
    if rest.len() < length {
        return None;
    }
    Some(rest.split_at(length))
}

/// How many tags are spelled at the front of the bytes.
fn count_tags(bytes: &[u8]) -> usize
    ensures { result ≡ length (tags_of bytes.now) }
{
    let mut count = 0;
    let mut rest = bytes;
    while let Some((_tag, after)) = first_tag(rest) {
        rest = after;
        count += 1;
    }
    count
}
