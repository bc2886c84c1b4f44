ghost use Rattle.std.specs.Prelude.{◌≡◌, ◌≤◌, length, IfSome, option_map};
ghost use Rattle.wc_eval.specs.Comparisons.{after_word};
ghost use Rattle.wc_eval.specs.Kinds.{text_words, letter_words, comma_words, kind_among};
ghost use Rattle.wc_eval.specs.Kinds.{kind_of, commas_of};

/// Which form it is.
#[derive(Clone, Copy, PartialEq, Eq)]
pub(crate) enum Kind {
    /// The text as it is.
    Raw,
    /// The text evaluated, and the result evaluated.
    Eval,
    If,
    Calc,
    Length,
    Lower,
    Upper,
    Rev,
    /// A group of the last match.
    Group,
    Cut,
    Repeat,
    Hide,
    Split,
    Define,
    /// A name that stands for a value.
    Name,
}

/// A kind, and what comes after its word.
type Front<'a> = (Kind, &'a [u8]);

impl Kind {
    /// The kind whose word is at the front of what is between `${` and `}`, and what comes after
    /// the word. Without such a word it is a name.
    pub(crate) fn cut(inside: &[u8]) -> (Kind, &[u8])
        ensures { (result.0, result.1.now) ≡ kind_of inside.now }
    {
        if let Some(found) = cut_text_word(inside) {
            return found;
        }
        if let Some(found) = cut_letter_word(inside) {
            return found;
        }
        match cut_comma_word(inside) {
            Some(found) => found,
            None => (Kind::Name, inside),
        }
    }

    /// How many of its arguments have a comma after them. One more takes the rest.
    pub(crate) fn commas(self) -> usize
        ensures { result ≡ commas_of self }
    {
        match self {
            Kind::Repeat | Kind::Hide | Kind::Define => 1,
            Kind::Cut => 2,
            Kind::Split => 3,
            _ => 0,
        }
    }
}

/// What comes after a word, where the text begins with it.
fn after_word<'a>(text: &'a [u8], word: &[u8]) -> Option<&'a [u8]>
    ensures found { option_map (λ rest. rest.now) result ≡ after_word word.now text.now }
    ensures shorter { IfSome result (λ rest. length rest.now ≤ length text.now) }
{
    let mut rest = text;
    let mut left = word;
    'bytes: while let [letter, letters @ ..] = left {
        let (first, others) = rest.split_first()?;
        if first != letter {
            return None;
        }
        rest = others;
        left = letters;
    }
    Some(rest)
}

/// The kinds whose one argument is the rest of their text.
fn cut_text_word(inside: &[u8]) -> Option<Front<'_>>
    ensures { option_map (λ found. (found.0, found.1.now)) result
        ≡ kind_among text_words inside.now }
{
    if let Some(text) = after_word(inside, b"raw:") {
        return Some((Kind::Raw, text));
    }
    if let Some(text) = after_word(inside, b"eval:") {
        return Some((Kind::Eval, text));
    }
    if let Some(text) = after_word(inside, b"if:") {
        return Some((Kind::If, text));
    }
    if let Some(text) = after_word(inside, b"calc:") {
        return Some((Kind::Calc, text));
    }
    match after_word(inside, b"length:") {
        Some(text) => Some((Kind::Length, text)),
        None => None,
    }
}

/// The kinds that are about letters, and groups.
fn cut_letter_word(inside: &[u8]) -> Option<Front<'_>>
    ensures { option_map (λ found. (found.0, found.1.now)) result
        ≡ kind_among letter_words inside.now }
{
    if let Some(text) = after_word(inside, b"lower:") {
        return Some((Kind::Lower, text));
    }
    if let Some(text) = after_word(inside, b"upper:") {
        return Some((Kind::Upper, text));
    }
    if let Some(text) = after_word(inside, b"rev:") {
        return Some((Kind::Rev, text));
    }
    match after_word(inside, b"re:") {
        Some(text) => Some((Kind::Group, text)),
        None => None,
    }
}

/// The kinds with several arguments.
fn cut_comma_word(inside: &[u8]) -> Option<Front<'_>>
    ensures { option_map (λ found. (found.0, found.1.now)) result
        ≡ kind_among comma_words inside.now }
{
    if let Some(text) = after_word(inside, b"cut:") {
        return Some((Kind::Cut, text));
    }
    if let Some(text) = after_word(inside, b"repeat:") {
        return Some((Kind::Repeat, text));
    }
    if let Some(text) = after_word(inside, b"hide:") {
        return Some((Kind::Hide, text));
    }
    if let Some(text) = after_word(inside, b"split:") {
        return Some((Kind::Split, text));
    }
    match after_word(inside, b"define:") {
        Some(text) => Some((Kind::Define, text)),
        None => None,
    }
}
