//! Where a pattern is found in a text, and what its groups have there.

ghost use Rattle.std.specs.Prelude.{◌≡◌, All, IfOk, IsTrue, slice_range};
ghost use Rattle.std.specs.Str.{IsUtf8};
ghost use Rattle.wc_eval.specs.Matching.{all_groups_in};
ghost use Rattle.wc_eval.specs.Verdicts.{Stay, is_known_fine};
ghost use Rattle.wc_eval.specs.Replaced.{text_between, group_text, group_texts, match_span};

use crate::characters::as_text;
use crate::scope::text_in;
use crate::search::{Span, all_groups};
use crate::verdicts::Verdicts;
use std::alloc::Global;
use wc_text::{Items, NoMemory, Text};

/// For each match of a pattern that was judged to be one, from the left, what it spans and what each
/// of its groups spans. No verdict comes of it. Refused as `Verdicts::pattern` refuses.
pub fn matches_of(
    alloc: Global,
    verdicts: &mut Verdicts,
    text: &Text,
    pattern: &Text,
) -> Result<Items<Items<Span>>, NoMemory>
    requires text { IsUtf8 text.now }
    requires known { IsTrue (is_known_fine pattern.now verdicts.old) }
    ensures matches { IfOk result (λ matches. matches ≡ all_groups_in pattern.now text.now) }
    ensures rows { verdicts.new.rows ≡ verdicts.old.rows }
    ensures stay { Stay verdicts.old verdicts.new }
{
    let Some(own) = verdicts.pattern(pattern)? else {
        unreachable!()
    };
    all_groups(alloc, own.regex(), as_text(text.as_slice()))
}

/// The bytes between two places, as far as there are some.
fn bytes_between(text: &[u8], from: usize, to: usize) -> &[u8]
    ensures { result.now ≡ slice_range text.now from to }
{
    let rest = text.split_at(from.min(text.len())).1;
    rest.split_at(to.saturating_sub(from).min(rest.len())).0
}

/// The bytes between two places, where they are text.
pub(crate) fn text_between(text: &[u8], from: usize, to: usize) -> &[u8]
    ensures value { result.now ≡ text_between text.now from to }
    ensures utf8 { IsUtf8 result.now }
{
    match text_in(bytes_between(text, from, to)) {
        Some(part) => part,
        None => b"",
    }
}

/// What a group of a match has. It is empty where the group took no part.
fn group_text(text: &[u8], group: Span) -> &[u8]
    ensures value { result.now ≡ group_text text.now group }
    ensures utf8 { IsUtf8 result.now }
{
    match group {
        Some((start, end)) => text_between(text, start, end),
        None => b"",
    }
}

/// What the groups of a match have, of which the first is the match. One that took no part is empty.
/// Refused for want of memory alone.
pub fn group_texts(alloc: Global, text: &[u8], groups: &[Span]) -> Result<Items<Text>, NoMemory>
    ensures texts { IfOk result (λ texts. texts ≡ group_texts text.now groups.now) }
    ensures utf8 { IfOk result (All IsUtf8) }
{
    let mut texts = Items::new(alloc);
    let mut rest = groups;
    'groups: while let Some((group, others)) = rest.split_first() {
        texts.push(Text::from_slice(alloc, group_text(text, *group))?)?;
        rest = others;
    }
    Ok(texts)
}

/// Where a match begins and ends.
pub(crate) fn match_span(groups: &[Span]) -> (usize, usize)
    ensures { result ≡ match_span groups.now }
{
    match groups {
        [Some(span), ..] => *span,
        _ => (0, 0),
    }
}
