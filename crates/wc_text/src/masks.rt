ghost use Rattle.std.specs.Prelude.{◌≡◌, ◌++◌, ◌∷◌, true, IsTrue, MatchOption};
ghost use Rattle.std.specs.Option.{option_copied};
ghost use Rattle.wc_text.specs.Mask.{matches_of, is_plain, after_front, after_first, ends_with};
ghost use Rattle.wc_text.specs.Mask.{same_byte};

use crate::places::place_of;

/// Whether the mask matches the whole text. `*` stands for any run of bytes, the empty one too;
/// each other byte stands for itself, and with `fold` an ASCII letter for itself in either case.
/// It takes no more steps than some multiple of the product of the two lengths.
pub fn mask_matches(mask: &[u8], text: &[u8], fold: bool) -> bool
    ensures { result ≡ matches_of fold mask.now text.now }
{
    let Some((front, others)) = split_at_star(mask) else {
        return is_whole(mask, text, fold);
    };
    let Some(following) = after_front(front, text, fold) else {
        return false;
    };
    matches_some_end(others, following, fold)
}

/// Whether the mask matches some end of the text: each part between stars is looked for
/// after the first place of the part before it, and the last part at the end.
fn matches_some_end(mask: &[u8], text: &[u8], fold: bool) -> bool
    ensures { result ≡ ends_with fold mask.now text.now }
{
    let mut mask = mask;
    let mut text = text;
    while let Some((part, others)) = split_at_star(mask) {
        let Some(following) = after_first(part, text, fold) else {
            return false;
        };
        mask = others;
        text = following;
    }
    is_end(mask, text, fold)
}

/// What is before the first `*` and after it.
fn split_at_star(mask: &[u8]) -> Option<(&[u8], &[u8])>
    ensures { MatchOption result (IsTrue (is_plain mask.now))
        (λ parts. IsTrue (is_plain parts.0.now) × (mask.now ≡ parts.0.now ++ 42 ∷ parts.1.now)) }
{
    let star = place_of(b'*', mask);
    if star == mask.len() {
        return None;
    }
    Some((mask.split_at(star).0, mask.split_at(star + 1).1))
}

/// Whether a mask without `*` matches the whole text.
fn is_whole(mask: &[u8], text: &[u8], fold: bool) -> bool
    requires { IsTrue (is_plain mask.now) }
    ensures { result ≡ matches_of fold mask.now text.now }
{
    match after_front(mask, text, fold) {
        Some(following) => following.is_empty(),
        None => false,
    }
}

/// Whether a mask without `*` matches some end of the text.
fn is_end(mask: &[u8], text: &[u8], fold: bool) -> bool
    requires { IsTrue (is_plain mask.now) }
    ensures { result ≡ ends_with fold mask.now text.now }
{
    if text.len() < mask.len() {
        return false;
    }
    let (_, end) = text.split_at(text.len() - mask.len());
    after_front(mask, end, fold).is_some()
}

/// What comes after the part, where the text begins with it.
fn after_front<'a>(part: &[u8], text: &'a [u8], fold: bool) -> Option<&'a [u8]>
    ensures { option_copied result ≡ after_front fold part.now text.now }
{
    let mut part = part;
    let mut text = text;
    while let Some((c, others)) = part.split_first() {
        let (b, following) = text.split_first()?;
        if !same_byte(*c, *b, fold) {
            return None;
        }
        part = others;
        text = following;
    }
    Some(text)
}

/// What comes after the first place of the part.
#[tactic(auto, using(crate::proofs::MaskLemmas::found_first))]
fn after_first<'a>(part: &[u8], text: &'a [u8], fold: bool) -> Option<&'a [u8]>
    ensures { option_copied result ≡ after_first fold part.now text.now }
{
    let mut text = text;
    loop {
        if let Some(following) = after_front(part, text, fold) {
            return Some(following);
        }
        text = text.split_first()?.1;
    }
}

/// Whether two bytes are the same, or with `fold` the same but for ASCII case.
fn same_byte(a: u8, b: u8, fold: bool) -> bool
    ensures { result ≡ same_byte fold a b }
{
    if fold {
        a.to_ascii_lowercase() == b.to_ascii_lowercase()
    } else {
        a == b
    }
}
