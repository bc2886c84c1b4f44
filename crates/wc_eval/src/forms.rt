ghost use Rattle.std.specs.Prelude.{◌≡◌, ◌<◌, ◌≤◌, length, IfSome, option_map};
ghost use Rattle.wc_eval.specs.Pieces.{split_at, pieces_of};
ghost use Rattle.wc_eval.specs.Walks.{from_form, CutsToForm, left_of, past_byte, texts_of};

use crate::pieces::{Walk, before, inside_form, is_byte, past_form};

/// The text from the first `${` on.
fn from_form(text: &[u8]) -> &[u8]
    ensures text { result.now ≡ from_form text.now }
    ensures shorter { length result.now ≤ length text.now }
{
    let mut rest = text;
    'bytes: while let [first, others @ ..] = rest {
        if *first == b'$' && others.first() == Some(&b'{') {
            return rest;
        }
        rest = others;
    }
    rest
}

/// The text before the first form, and the form with what comes after it. A `${` without its `}`
/// is no form, and neither is one after it.
pub(crate) fn cut_to_form(text: &[u8]) -> (&[u8], Option<(&[u8], &[u8])>)
    ensures form { CutsToForm text.now result.0.now result.1 }
    ensures shorter { IfSome result.1 (λ parts. length parts.1.now < length text.now) }
{
    let rest = from_form(text);
    let Some(inside) = inside_form(rest) else {
        return (text, None);
    };
    let Some(end) = past_form(inside) else {
        return (text, None);
    };
    let front = text.split_at(text.len() - rest.len()).0;
    (front, Some((before(inside, end), end)))
}

/// The walk after the first such byte outside forms.
fn past_byte(start: Walk<'_>, byte: u8) -> Option<Walk<'_>>
    ensures found { option_map left_of result ≡ past_byte byte (left_of start.entry) }
    ensures shorter { IfSome result (λ end. length end.rest.now < length start.entry.rest.now) }
{
    let mut walk = start;
    'steps: while let Some((piece, after)) = walk.next() {
        if is_byte(piece, byte) {
            return Some(after);
        }
        walk = after;
    }
    None
}

/// What is before the first such byte outside forms, and what comes after it.
pub(crate) fn split_at_byte(text: &[u8], byte: u8) -> Option<(&[u8], &[u8])>
    ensures found { option_map (λ parts. (parts.0.now, parts.1.now)) result
        ≡ option_map texts_of (split_at byte (pieces_of text.now)) }
    ensures shorter { IfSome result (λ parts. length parts.1.now < length text.now) }
{
    let end = past_byte(Walk::new(text), byte)?;
    Some((before(text, end.rest()), end.rest()))
}
