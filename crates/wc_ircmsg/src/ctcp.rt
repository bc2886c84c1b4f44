ghost use Rattle.std.specs.Prelude.{◌≡◌, ◌≢◌, ◌∷◌, ◌++◌, [], ℕ, List, IfSome, IsSomeAnd};
ghost use Rattle.std.specs.Prelude.{MatchOption};
ghost use Rattle.wc_ircmsg.specs.Ctcp.{IsCtcp};

use crate::source::or_empty;
use wc_text::split_once;

/// What is between a first and a last byte 01.
fn quoted(text: &[u8]) -> Option<&[u8]>
    ensures { MatchOption result ((inner : List ℕ) → text.now ≢ 1 ∷ (inner ++ 1 ∷ []))
        (λ inner. text.now ≡ 1 ∷ (inner.now ++ 1 ∷ [])) }
{
    let (first, text_after) = text.split_first()?;
    let (last, inner) = text_after.split_last()?;
    if *first != 0x01 || *last != 0x01 {
        return None;
    }
    Some(inner)
}

/// The word and the arguments of a CTCP message: what is between a first and a last byte 01, parted
/// at the first blank. Without a blank the arguments are empty. None exactly where the text does
/// not begin and end with such a byte of its own, or no word comes after the first. It takes no
/// memory.
pub fn read_ctcp(text: &[u8]) -> Option<(&[u8], &[u8])>
    ensures found { IfSome result (λ parts. IsCtcp text.now parts.0.now parts.1.now) }
    ensures only { (word arguments : List ℕ) → IsCtcp text.now word arguments →
        IsSomeAnd result (λ parts. (parts.0.now ≡ word) × (parts.1.now ≡ arguments)) }
{
    let inner = quoted(text)?;
    let (word, arguments) = split_once(inner, b' ');
    if word.is_empty() {
        return None;
    }
    Some((word, or_empty(arguments)))
}
