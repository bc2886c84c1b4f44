ghost use Rattle.std.specs.Prelude.{◌≡◌, ◌<◌, ◌≤◌, not, length, IsTrue, IfOk, IfSome, Some};
ghost use Rattle.std.specs.Prelude.{option_map};
ghost use Rattle.std.specs.Str.{IsUtf8};
ghost use Rattle.wc_eval.specs.Verdicts.{Oracle, Agrees, Stay, OnlyOn, is_known_fine};
ghost use Rattle.wc_eval.specs.Matching.{is_found};
ghost use Rattle.wc_eval.specs.Signs.{equals_sign, bang_sign, order_sign};
ghost use Rattle.wc_eval.specs.Comparisons.{sign_at, order_of, finds, holds_by};
ghost use Rattle.wc_eval.specs.Comparisons.{has_text_sides, is_by_pattern};

use crate::search::is_match;
use crate::verdicts::Verdicts;
use std::alloc::Global;
use std::cmp::Ordering;
use wc_text::{NoMemory, Text, mask_matches, read_i64};

/// What two texts are compared by.
#[derive(Clone, Copy, PartialEq, Eq)]
pub enum Comparison {
    Equal,
    NotEqual,
    Less,
    AtMost,
    More,
    AtLeast,
    /// The right is a pattern that the left has.
    Found,
    NotFound,
    /// The right is a mask that matches the left, with case kept.
    Masked,
    NotMasked,
    MaskedInAnyCase,
    NotMaskedInAnyCase,
}

impl Comparison {
    /// The comparison whose sign is at the front of a text, the longest first, and what comes after
    /// the sign.
    #[tactic(auto, using(crate::proofs::SignLemmas::sign_is))]
    pub fn cut(text: &[u8]) -> Option<(Comparison, &[u8])>
        ensures found { option_map (λ parts. (parts.0, parts.1.now)) result ≡ sign_at text.now }
        ensures shorter { IfSome result (λ parts. length parts.1.now < length text.now) }
    {
        let (first, rest) = text.split_first()?;
        match *first {
            b'=' => after_equals(rest),
            b'!' => after_bang(rest),
            b'<' => Some(with_equals(rest, Comparison::AtMost, Comparison::Less)),
            b'>' => Some(with_equals(rest, Comparison::AtLeast, Comparison::More)),
            _ => None,
        }
    }

    /// Whether its sides are texts, in which parentheses stay.
    pub(crate) fn has_text_sides(self) -> bool
        ensures { result ≡ has_text_sides self }
    {
        match self {
            Comparison::Equal | Comparison::NotEqual => false,
            Comparison::Less | Comparison::AtMost => false,
            Comparison::More | Comparison::AtLeast => false,
            _ => true,
        }
    }
}

/// The first comparison and what comes after a `=` at the front of a text, or the second and the
/// text.
fn with_equals(text: &[u8], first: Comparison, second: Comparison) -> (Comparison, &[u8])
    ensures found { Some (result.0, result.1.now) ≡ order_sign first second text.now }
    ensures shorter { length result.1.now ≤ length text.now }
{
    match text {
        [b'=', rest @ ..] => (first, rest),
        _ => (second, text),
    }
}

/// The comparison whose sign is a `=` and what is at the front of a text.
fn after_equals(text: &[u8]) -> Option<(Comparison, &[u8])>
    ensures found { option_map (λ parts. (parts.0, parts.1.now)) result ≡ equals_sign text.now }
    ensures shorter { IfSome result (λ parts. length parts.1.now < length text.now) }
{
    match text {
        [b'=', b'*', rest @ ..] => Some((Comparison::Masked, rest)),
        [b'=', rest @ ..] => Some((Comparison::Equal, rest)),
        [b'~', rest @ ..] => Some((Comparison::Found, rest)),
        [b'*', rest @ ..] => Some((Comparison::MaskedInAnyCase, rest)),
        _ => None,
    }
}

/// The comparison whose sign is a `!` and what is at the front of a text.
fn after_bang(text: &[u8]) -> Option<(Comparison, &[u8])>
    ensures found { option_map (λ parts. (parts.0, parts.1.now)) result ≡ bang_sign text.now }
    ensures shorter { IfSome result (λ parts. length parts.1.now < length text.now) }
{
    match text {
        [b'!', b'*', rest @ ..] => Some((Comparison::NotMasked, rest)),
        [b'=', rest @ ..] => Some((Comparison::NotEqual, rest)),
        [b'~', rest @ ..] => Some((Comparison::NotFound, rest)),
        [b'*', rest @ ..] => Some((Comparison::NotMaskedInAnyCase, rest)),
        _ => None,
    }
}

/// How two texts are ordered: two whole numbers as numbers, others byte by byte.
fn order(a: &[u8], b: &[u8]) -> Ordering
    ensures { result ≡ order_of a.now b.now }
{
    match (read_i64(a), read_i64(b)) {
        (Some(x), Some(y)) => x.cmp(&y),
        _ => a.cmp(&b),
    }
}

/// Whether a comparison by order or by mask holds. Patterns are looked for elsewhere.
fn holds(comparison: Comparison, a: &[u8], b: &[u8]) -> bool
    ensures { (oracle : Oracle) → IsTrue (not (is_by_pattern comparison)) →
        result ≡ holds_by oracle comparison a.now b.now }
{
    match comparison {
        Comparison::Equal => order(a, b).is_eq(),
        Comparison::NotEqual => order(a, b).is_ne(),
        Comparison::Less => order(a, b).is_lt(),
        Comparison::AtMost => order(a, b).is_le(),
        Comparison::More => order(a, b).is_gt(),
        Comparison::AtLeast => order(a, b).is_ge(),
        Comparison::Masked => mask_matches(b, a, false),
        Comparison::NotMasked => !mask_matches(b, a, false),
        Comparison::MaskedInAnyCase => mask_matches(b, a, true),
        Comparison::NotMaskedInAnyCase => !mask_matches(b, a, true),
        Comparison::Found | Comparison::NotFound => false,
    }
}

/// Whether a text has a match of a pattern. A text that is no pattern finds nothing.
fn finds(
    alloc: Global,
    verdicts: &mut Verdicts,
    text: &Text,
    pattern: &Text,
) -> Result<bool, NoMemory>
    requires text { IsUtf8 text.now }
    requires pattern { IsUtf8 pattern.now }
    ensures found { IfOk result (λ found. (oracle : Oracle) → Agrees oracle verdicts.new →
        found ≡ finds oracle text.now pattern.now) }
    ensures stay { Stay verdicts.old verdicts.new }
    ensures only { OnlyOn pattern.now verdicts.old verdicts.new }
{
    if !verdicts.judge(pattern)? {
        return Ok(false);
    }
    found_by(alloc, verdicts, text, pattern)
}

/// Whether a text has a match of a pattern that was judged to be one.
fn found_by(
    alloc: Global,
    verdicts: &mut Verdicts,
    text: &Text,
    pattern: &Text,
) -> Result<bool, NoMemory>
    requires text { IsUtf8 text.now }
    requires known { IsTrue (is_known_fine pattern.now verdicts.old) }
    ensures found { IfOk result (λ found. found ≡ is_found pattern.now text.now) }
    ensures rows { verdicts.new.rows ≡ verdicts.old.rows }
    ensures stay { Stay verdicts.old verdicts.new }
{
    let Some(own) = verdicts.pattern(pattern)? else {
        unreachable!()
    };
    let Ok(text) = std::str::from_utf8(text.as_slice()) else {
        unreachable!()
    };
    is_match(alloc, own.regex(), text)
}

/// Whether a comparison of two values holds. A text that is no pattern is found in none, whatever
/// the verdict on it comes from; each verdict stays. A comparison by pattern judges its right side
/// alone, and another judges nothing.
///
/// Refused for want of memory alone.
pub fn compare(
    alloc: Global,
    verdicts: &mut Verdicts,
    comparison: Comparison,
    left: &Text,
    right: &Text,
) -> Result<bool, NoMemory>
    requires left { IsUtf8 left.now }
    requires right { IsUtf8 right.now }
    ensures holds { IfOk result (λ holds. (oracle : Oracle) → Agrees oracle verdicts.new →
        holds ≡ holds_by oracle comparison left.now right.now) }
    ensures stay { Stay verdicts.old verdicts.new }
    ensures only { OnlyOn right.now verdicts.old verdicts.new }
    ensures same { IsTrue (not (is_by_pattern comparison)) → verdicts.new ≡ verdicts.old }
{
    match comparison {
        Comparison::Found => finds(alloc, verdicts, left, right),
        Comparison::NotFound => Ok(!finds(alloc, verdicts, left, right)?),
        _ => Ok(holds(comparison, left.as_slice(), right.as_slice())),
    }
}
