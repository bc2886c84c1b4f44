ghost use Rattle.std.specs.Prelude.{◌≡◌, ◌≤◌, length};
ghost use Rattle.wc_complete.specs.BaseWord.{begins_char, char_count, after_chars};
ghost use Rattle.wc_complete.specs.BaseWord.{front_at, last_word};

/// Whether a character begins with this byte, in UTF-8.
fn begins_char(byte: u8) -> bool
    ensures { result ≡ begins_char byte }
{
    !(0x80..=0xBF).contains(&byte)
}

/// How many characters a text has.
pub(crate) fn char_count(text: &[u8]) -> usize
    ensures count { result ≡ char_count text.now }
    ensures most { result ≤ length text.now }
{
    text.iter().filter(|byte| begins_char(**byte)).count()
}

/// The text after its first so many characters.
fn after_chars(text: &[u8], count: u64) -> &[u8]
    ensures { result.now ≡ after_chars count text.now }
{
    let mut rest = text;
    let mut left = count;
    while let [first, others @ ..] = rest {
        if begins_char(*first) {
            if left == 0 {
                return rest;
            }
            left -= 1;
        }
        rest = others;
    }
    rest
}

/// The text before a position, which counts characters. A negative one and one after the end are
/// the end.
#[tactic(auto, using(crate::proofs::WordLaws::front_is))]
pub(crate) fn front_at(text: &[u8], position: i64) -> &[u8]
    ensures front { result.now ≡ front_at position text.now }
    ensures within { length result.now ≤ length text.now }
{
    if position < 0 {
        return text;
    }
    let rest = after_chars(text, position.unsigned_abs());
    text.split_at(text.len() - rest.len()).0
}

/// What comes after the last blank of a text, or all of it where it has none.
#[tactic(auto, using(crate::proofs::WordLaws::word_facts))]
pub(crate) fn last_word(text: &[u8]) -> &[u8]
    ensures { result.now ≡ last_word text.now }
{
    let mut word = text;
    let mut rest = text;
    while let [first, others @ ..] = rest {
        if *first == b' ' {
            word = others;
        }
        rest = others;
    }
    word
}
