ghost use Rattle.std.specs.Prelude.{◌≡◌, ◌<◌, ◌≤◌, length, IfSome};
ghost use Rattle.std.specs.Option.{option_copied};
ghost use Rattle.wc_text.specs.Splits.{before, onward, text_after, past, word_of, rest_of};

fn onward(text: &[u8], byte: u8) -> &[u8]
    ensures { result.now ≡ onward byte text.now }
{
    let mut rest = text;
    while let [first, others @ ..] = rest {
        if *first == byte {
            return rest;
        }
        rest = others;
    }
    rest
}

/// The text before the first such byte, and from it on. Where there is none the second part is
/// empty.
#[tactic(auto, using(crate::proofs::SplitLemmas::cuts))]
pub fn cut_at(text: &[u8], byte: u8) -> (&[u8], &[u8])
    ensures front { result.0.now ≡ before byte text.now }
    ensures back { result.1.now ≡ onward byte text.now }
    ensures shorter { length result.1.now ≤ length text.now }
{
    let back = onward(text, byte);
    (&text[..text.len() - back.len()], back)
}

fn text_after(text: &[u8], byte: u8) -> Option<&[u8]>
    ensures { option_copied result ≡ text_after byte text.now }
{
    let mut rest = text;
    while let [first, others @ ..] = rest {
        if *first == byte {
            return Some(others);
        }
        rest = others;
    }
    None
}

/// The text before the first such byte, and what comes after it, where there is one.
#[tactic(auto, using(crate::proofs::SplitLemmas::cuts))]
pub fn split_once(text: &[u8], byte: u8) -> (&[u8], Option<&[u8]>)
    ensures front { result.0.now ≡ before byte text.now }
    ensures back { option_copied result.1 ≡ text_after byte text.now }
    ensures shorter { IfSome result.1 (λ rest. length rest.now < length text.now) }
{
    (cut_at(text, byte).0, text_after(text, byte))
}

/// The text without the blanks at its front.
pub fn past_blanks(text: &[u8]) -> &[u8]
    ensures { result.now ≡ past 32 text.now }
{
    let mut rest = text;
    while let [b' ', others @ ..] = rest {
        rest = others;
    }
    rest
}

/// The word at the front of the text, and what follows it after blanks.
pub fn cut_word(text: &[u8]) -> (&[u8], &[u8])
    ensures word { result.0.now ≡ word_of text.now }
    ensures rest { result.1.now ≡ rest_of text.now }
{
    let (word, text_after) = cut_at(text, b' ');
    (word, past_blanks(text_after))
}
