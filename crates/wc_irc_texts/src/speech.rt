ghost use Rattle.std.specs.Prelude.{◌≡◌, true};
ghost use Rattle.std.specs.Option.{option_copied};
ghost use Rattle.wc_irc_texts.specs.Speech.{is_word_byte, nick_first, calls_nick};
ghost use Rattle.wc_text.specs.Mask.{after_front, same_byte};

/// Whether a byte is a letter or digit of ASCII, `_` or `-`.
fn is_word_byte(byte: u8) -> bool
    ensures { result ≡ is_word_byte byte }
{
    byte.is_ascii_alphanumeric() || byte == b'_' || byte == b'-'
}

fn is_same_letter(a: u8, b: u8) -> bool
    ensures { result ≡ same_byte true a b }
{
    a.to_ascii_lowercase() == b.to_ascii_lowercase()
}

/// What comes after the front, where the text begins with it but for ASCII case.
fn after_front<'a>(front: &[u8], text: &'a [u8]) -> Option<&'a [u8]>
    ensures { option_copied result ≡ after_front true front.now text.now }
{
    let mut front = front;
    let mut text = text;
    while let Some((a, others)) = front.split_first() {
        let (b, following) = text.split_first()?;
        if !is_same_letter(*a, *b) {
            return None;
        }
        front = others;
        text = following;
    }
    Some(text)
}

/// Whether a nick is at the front of a text, and no byte of a word comes after it.
fn is_nick_first(nick: &[u8], text: &[u8]) -> bool
    ensures { result ≡ nick_first nick.now text.now }
{
    match after_front(nick, text) {
        Some([next, ..]) => !is_word_byte(*next),
        Some([]) => true,
        None => false,
    }
}

/// Whether a text has a nick with no letter or digit of ASCII, no `_` and no `-` beside it. ASCII
/// case is ignored.
#[tactic(auto, unfolding(crate::specs::Speech::calls_nick))]
pub fn calls_nick(nick: &[u8], text: &[u8]) -> bool
    ensures { result ≡ calls_nick nick.now text.now }
{
    let mut bare = true;
    let mut rest = text;
    while let [first, others @ ..] = rest {
        if bare && is_nick_first(nick, rest) {
            return true;
        }
        bare = !is_word_byte(*first);
        rest = others;
    }
    false
}
