ghost use Rattle.std.specs.Prelude.{◌≡◌};
ghost use Rattle.std.specs.Iterator.{YieldsFirstRef, item_count};
ghost use Rattle.wc_text.specs.Words.{words_of, words_left, after_spaces};

use crate::places::place_of;

/// The words of some bytes that are still to come.
#[derive(Drop)]
pub struct WordIter<'a> {
    rest: &'a [u8],
}

/// The words of the bytes: the maximal runs of bytes other than the space, in order.
pub fn words(bytes: &[u8]) -> WordIter<'_>
    ensures { words_left result ≡ words_of bytes.now }
{
    WordIter { rest: bytes }
}

impl<'a> Iterator for WordIter<'a> {
    type Item = &'a [u8];

    ghost next_gives = { YieldsFirstRef words_left };

    ghost remaining = { item_count words_left };

    #[tactic(auto, using(crate::proofs::WordsLemmas::next_word))]
    fn next(&mut self) -> Option<&'a [u8]> {
        self.rest = after_spaces(self.rest);
        if self.rest.is_empty() {
            return None;
        }
        let (word, rest) = self.rest.split_at(place_of(b' ', self.rest));
        self.rest = rest;
        Some(word)
    }
}

/// The bytes from the first on that is no space.
fn after_spaces(bytes: &[u8]) -> &[u8]
    ensures { result.now ≡ after_spaces bytes.now }
{
    let mut rest = bytes;
    while let [b' ', following @ ..] = rest {
        rest = following;
    }
    rest
}
