ghost use Rattle.std.specs.Prelude.{◌≡◌, drop};
ghost use Rattle.wc_ircmsg.specs.Answers.{marked_word, after_marked};

use wc_text::cut_word;

fn without_first(text: &[u8]) -> &[u8]
    ensures { result.now ≡ drop 1 text.now }
{
    match text {
        [_, others @ ..] => others,
        [] => text,
    }
}

/// A first word that the byte marks, without the byte, and what follows it after blanks. Where the
/// text does not begin with the byte these are nothing and the text.
pub(crate) fn cut_marked(text: &[u8], mark: u8) -> (&[u8], &[u8])
    ensures word { result.0.now ≡ marked_word mark text.now }
    ensures rest { result.1.now ≡ after_marked mark text.now }
{
    let [first, ..] = text else {
        return (&[], text);
    };
    if *first != mark {
        return (&[], text);
    }
    let (word, rest) = cut_word(text);
    (without_first(word), rest)
}
