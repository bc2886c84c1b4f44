ghost use Rattle.std.specs.Prelude.{◌≡◌, ◌≢◌, ◌-◌, None, length, take, option_map};
ghost use Rattle.wc_eval.specs.Pieces.{split_at, blocks_of};
ghost use Rattle.wc_eval.specs.Walks.{left_of, meant, texts_of};
ghost use Rattle.wc_eval.specs.Branches.{place_by, next_place, still_outside, place_at_end};
ghost use Rattle.wc_eval.specs.Branches.{branch, branches_of};

use crate::parts::open_after;
use crate::pieces::{Piece, Walk, is_byte};

/// A place right after a byte that is outside forms, and outside groups unless a parenthesis that
/// is open there is closed later.
#[derive(Clone, Copy)]
struct Candidate<'a> {
    /// How many parentheses are open there.
    count: usize,
    after: Walk<'a>,
}

/// The candidate, unless a parenthesis that was open there was closed.
fn still_outside(candidate: Option<Candidate<'_>>, count: usize) -> Option<Candidate<'_>>
    ensures { place_by result ≡ still_outside (place_by candidate.entry) count }
{
    match candidate {
        Some(found) if found.count <= count => Some(found),
        _ => None,
    }
}

/// The candidate that is known after a piece, with so many parentheses open then.
fn next_candidate<'a>(
    candidate: Option<Candidate<'a>>,
    piece: Piece<'_>,
    count: usize,
    after: Walk<'a>,
    byte: u8,
) -> Option<Candidate<'a>>
    ensures { place_by result ≡ next_place byte (meant piece.entry) count
        (place_by candidate.entry) (left_of after.entry) }
{
    let kept = still_outside(candidate, count);
    if kept.is_some() || !is_byte(piece, byte) {
        return kept;
    }
    Some(Candidate { count, after })
}

/// The walk after the first such byte outside forms and groups. The text is passed once: where a
/// candidate is lost, those after it up to there are too.
fn past_block(start: Walk<'_>, byte: u8) -> Option<Walk<'_>>
    ensures { option_map left_of result
        ≡ option_map (λ place. place.1) (place_at_end byte 0 None (left_of start.entry)) }
{
    let mut walk = start;
    let mut open: usize = 0;
    let mut first: Option<Candidate<'_>> = None;
    'steps: while let Some((piece, after)) = walk.next() {
        open = open_after(piece, open);
        first = next_candidate(first, piece, open, after, byte);
        walk = after;
    }
    match first {
        Some(candidate) => Some(candidate.after),
        None => None,
    }
}

/// What is before the first such byte outside forms and groups, and what comes after it. The byte
/// is no parenthesis.
pub(crate) fn split_at_block(text: &[u8], byte: u8) -> Option<(&[u8], &[u8])>
    requires opening { byte ≢ 40 }
    requires closing { byte ≢ 41 }
    ensures { option_map (λ parts. (parts.0.now, parts.1.now)) result
        ≡ option_map texts_of (split_at byte (blocks_of text.now)) }
{
    let end = past_block(Walk::new(text), byte)?;
    Some((up_to(text, end.rest()), end.rest()))
}

/// What is before the byte that is right before an end of the text.
fn up_to<'a>(text: &'a [u8], end: &[u8]) -> &'a [u8]
    ensures { result.now ≡ take (length text.now - length end.now - 1) text.now }
{
    let count = text.len().saturating_sub(end.len()).saturating_sub(1);
    text.split_at(count).0
}

/// The branch that is taken of two that the first `:` parts. The second may lack.
pub(crate) fn branch(branches: &[u8], holds: bool) -> &[u8]
    ensures { result.now ≡ branch holds (branches_of branches.now) }
{
    let Some((first, second)) = split_at_block(branches, b':') else {
        return if holds { branches } else { b"" };
    };
    if holds { first } else { second }
}
