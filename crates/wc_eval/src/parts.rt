ghost use Rattle.std.specs.Prelude.{◌≡◌, ◌<◌, ◌≤◌, ◌+◌, ◌-◌, ◌^◌, ◌∷◌, [], length};
ghost use Rattle.std.specs.Prelude.{suc, take, nat_le, IfSome, option_map};
ghost use Rattle.wc_eval.specs.Pieces.{blocks_of, open_after, most_open};
ghost use Rattle.wc_eval.specs.Walks.{meant};
ghost use Rattle.wc_eval.specs.Parts.{parts_of, group_by, whole_group, comparing_in};
ghost use Rattle.wc_eval.specs.Reading.{blocks_left, past_first, past_pair, past_two, texts_left};
ghost use Rattle.wc_eval.specs.Reading.{TakesPart, size_of, from_sign, IsComparing};

use crate::comparison::Comparison;
use crate::pieces::{Piece, Walk, is_byte};

/// The walk after a byte, if that is the next piece.
fn past_first(walk: Walk<'_>, byte: u8) -> Option<Walk<'_>>
    ensures found { option_map blocks_left result ≡ past_first byte (blocks_left walk.entry) }
    ensures shorter { IfSome result (λ end. length end.rest.now < length walk.entry.rest.now) }
{
    let (block, after) = walk.next_block()?;
    if !is_byte(block, byte) {
        return None;
    }
    Some(after)
}

/// The walk after a piece and another, if both are this byte.
fn past_pair<'a>(block: Piece<'_>, walk: Walk<'a>, byte: u8) -> Option<Walk<'a>>
    ensures found { option_map blocks_left result
        ≡ past_pair byte (meant block.entry) (blocks_left walk.entry) }
    ensures shorter { IfSome result (λ end. length end.rest.now < length walk.entry.rest.now) }
{
    if !is_byte(block, byte) {
        return None;
    }
    past_first(walk, byte)
}

/// The walk after the first two such bytes outside forms and groups.
fn past_two(start: Walk<'_>, byte: u8) -> Option<Walk<'_>>
    ensures found { option_map blocks_left result ≡ past_two byte (blocks_left start.entry) }
    ensures shorter { IfSome result (λ end. length end.rest.now + 2
        ≤ length start.entry.rest.now) }
{
    let mut walk = start;
    'steps: while let Some((block, after)) = walk.next_block() {
        if let Some(end) = past_pair(block, after, byte) {
            return Some(end);
        }
        walk = after;
    }
    None
}

/// What is before the two bytes that are right before an end of the text.
fn before_two<'a>(text: &'a [u8], end: &[u8]) -> &'a [u8]
    requires { length end.now + 2 ≤ length text.now }
    ensures { result.now ≡ take (length text.now - length end.now - 2) text.now }
{
    text.split_at(text.len() - end.len() - 2).0
}

/// The parts of a condition that are still to come, which a sign of two such bytes parts outside
/// forms and groups.
#[derive(Clone, Copy)]
pub(crate) struct Parts<'a> {
    byte: u8,
    left: Option<Walk<'a>>,
}

impl<'a> Parts<'a> {
    pub(crate) fn new(text: &'a [u8], byte: u8) -> Parts<'a>
        ensures texts { texts_left result ≡ parts_of byte text.now }
        ensures size { size_of result ≡ suc (length text.now) }
    {
        Parts {
            byte,
            left: Some(Walk::new(text)),
        }
    }

    /// The next part, and those after it.
    pub(crate) fn next(self) -> Option<(&'a [u8], Parts<'a>)>
        ensures takes { TakesPart (texts_left self.entry) result }
        ensures shorter { IfSome result (λ step. length step.0.now + size_of step.1
            < size_of self.entry) }
    {
        let walk = self.left?;
        match past_two(walk, self.byte) {
            Some(end) => Some((
                before_two(walk.rest(), end.rest()),
                parts_along(self.byte, Some(end)),
            )),
            None => Some((walk.rest(), parts_along(self.byte, None))),
        }
    }
}

/// The parts along a walk, if there is one.
fn parts_along(byte: u8, left: Option<Walk<'_>>) -> Parts<'_>
    ensures byte { result.byte ≡ byte }
    ensures left { result.left ≡ left.entry }
{
    Parts { byte, left }
}

/// The condition in a group that is all of a text, if it is one.
pub(crate) fn whole_group(text: &[u8]) -> Option<&[u8]>
    ensures { option_map (λ inside. inside.now) result ≡ whole_group text.now }
{
    let (block, after) = Walk::new(text).next_block()?;
    if !after.rest().is_empty() {
        return None;
    }
    inside_of(block)
}

/// The condition in a piece, if that is a group.
fn inside_of(block: Piece<'_>) -> Option<&[u8]>
    ensures { option_map (λ inside. inside.now) result ≡ group_by (meant block.entry ∷ []) }
{
    match block {
        Piece::Group(inside) => Some(inside),
        Piece::Byte(_) | Piece::Form(_) => None,
    }
}

/// A comparison with what is on its left and on its right.
#[derive(Clone, Copy)]
pub(crate) struct Sides<'a> {
    pub(crate) left: &'a [u8],
    pub(crate) comparison: Comparison,
    pub(crate) right: &'a [u8],
}

/// The text from the first sign of a comparison on, outside forms and groups.
fn from_sign(text: &[u8]) -> Option<&[u8]>
    ensures found { option_map (λ rest. rest.now) result ≡ from_sign (blocks_of text.now) }
    ensures shorter { IfSome result (λ rest. length rest.now ≤ length text.now) }
{
    let mut walk = Walk::new(text);
    'steps: while let Some((_, after)) = walk.next_block() {
        if Comparison::cut(walk.rest()).is_some() {
            return Some(walk.rest());
        }
        walk = after;
    }
    None
}

/// The leftmost comparison in a condition, outside forms and groups.
pub(crate) fn cut_comparison(text: &[u8]) -> Option<Sides<'_>>
    ensures { IsComparing (comparing_in text.now) result }
{
    let rest = from_sign(text)?;
    let (comparison, right) = Comparison::cut(rest)?;
    let left = text.split_at(text.len() - rest.len()).0;
    Some(Sides {
        left,
        comparison,
        right,
    })
}

/// How many parentheses are open after a piece, with a partner or without, where so many were.
pub(crate) fn open_after(piece: Piece<'_>, count: usize) -> usize
    requires { count < 2 ^ 64 - 1 }
    ensures { result ≡ open_after (meant piece.entry) count }
{
    if is_byte(piece, b'(') {
        return count + 1;
    }
    if is_byte(piece, b')') {
        return count.saturating_sub(1);
    }
    count
}

/// Whether at no place of a condition more than so many parentheses are open, with a partner or
/// without, outside forms.
pub(crate) fn opens_at_most(text: &[u8], most: usize) -> bool
    requires { most < 2 ^ 32 }
    ensures { result ≡ nat_le (most_open text.now) most }
{
    let mut open: usize = 0;
    let mut walk = Walk::new(text);
    'steps: while let Some((piece, after)) = walk.next() {
        open = open_after(piece, open);
        if open > most {
            return false;
        }
        walk = after;
    }
    true
}
