ghost use Rattle.std.specs.Option.{option_copied};
ghost use Rattle.std.specs.Prelude.{◌≡◌, None};
ghost use Rattle.wc_irc_words.specs.Typed.{is_target, are_words_to, are_mode_words, tls_words};
ghost use Rattle.wc_irc_words.specs.TypedSeen.{only_word, at_most_two};
ghost use Rattle.wc_text.specs.Words.{words_of};

use wc_text::{cut_word, words};

/// The most words of `/mode`.
const MOST_MODE_WORDS: u32 = 15;

const TLS: &[u8] = b"-tls";

const WITHOUT_TLS: &[u8] = b"-notls";

/// The word of a text that has one and no more.
pub(crate) fn only_word(text: &[u8]) -> Option<&[u8]>
    ensures { option_copied result ≡ only_word text.now }
{
    let (word, rest) = cut_word(text);
    if text.is_empty() || !rest.is_empty() {
        return None;
    }
    Some(word)
}

/// Whether a word can be sent before the last parameter.
pub fn is_target(word: &[u8]) -> bool
    ensures { result ≡ is_target word.now }
{
    match word {
        [first, ..] => *first != b':',
        [] => false,
    }
}

/// Whether a text has two words at most.
pub(crate) fn is_at_most_two(text: &[u8]) -> bool
    ensures { result ≡ at_most_two text.now }
{
    let (_first, rest) = cut_word(text);
    let (_second, rest) = cut_word(rest);
    rest.is_empty()
}

/// Whether these are one word to so many, of which the last alone may begin with `:`.
#[tactic(auto, using(crate::proofs::TypedLemmas::few_words_all))]
pub fn are_few_words(text: &[u8], most: u32) -> bool
    ensures { result ≡ are_words_to most (words_of text.now) }
{
    let mut count = 0;
    let mut ends = false;
    for word in words(text) {
        if ends || count == most {
            return false;
        }
        count += 1;
        ends = !is_target(word);
    }
    count > 0
}

/// Whether these are 1 to 15 words, of which the last alone may begin with `:`.
pub fn are_mode_words(text: &[u8]) -> bool
    ensures { result ≡ are_mode_words (words_of text.now) }
{
    are_few_words(text, MOST_MODE_WORDS)
}

/// What the words after an address say of TLS, of which the last counts. None where another word
/// is among them.
pub(crate) fn tls_in(text: &[u8]) -> Option<Option<bool>>
    ensures { result ≡ tls_words None (words_of text.now) }
{
    let mut tls = None;
    for word in words(text) {
        if word == TLS {
            tls = Some(true);
        } else if word == WITHOUT_TLS {
            tls = Some(false);
        } else {
            return None;
        }
    }
    Some(tls)
}
