ghost use Rattle.std.specs.Prelude.{◌≡◌, ◌<◌, ◌-◌, length, take, IfSome, option_map};
ghost use Rattle.wc_eval.specs.Pieces.{is_byte, pieces_of};
ghost use Rattle.wc_eval.specs.Walks.{after_form, inside_form, meant, pieces_left, left_of, Steps};
ghost use Rattle.wc_eval.specs.Walks.{StepsByBlocks, after_group};

/// What comes after the first `}` that no form at the front of the text takes.
pub(crate) fn past_form(text: &[u8]) -> Option<&[u8]>
    ensures found { option_map (λ rest. rest.now) result ≡ after_form 0 text.now }
    ensures shorter { IfSome result (λ rest. length rest.now < length text.now) }
{
    let mut open: usize = 0;
    let mut rest = text;
    'bytes: while let [first, others @ ..] = rest {
        if *first == b'$' && others.first() == Some(&b'{') {
            open += 1;
        } else if *first == b'}' {
            if open == 0 {
                return Some(others);
            }
            open -= 1;
        }
        rest = others;
    }
    None
}

/// What comes after a `${` at the front of a text.
pub(crate) fn inside_form(text: &[u8]) -> Option<&[u8]>
    ensures found { option_map (λ rest. rest.now) result ≡ inside_form text.now }
    ensures shorter { IfSome result (λ rest. length rest.now < length text.now) }
{
    match text {
        [b'$', b'{', rest @ ..] => Some(rest),
        _ => None,
    }
}

/// A piece of a text.
#[derive(Clone, Copy)]
pub(crate) enum Piece<'a> {
    Byte(u8),
    /// What is between `${` and its `}`.
    Form(&'a [u8]),
    /// What is between `(` and its `)`.
    Group(&'a [u8]),
}

/// Whether a piece is this byte.
pub(crate) fn is_byte(piece: Piece<'_>, byte: u8) -> bool
    ensures { result ≡ is_byte byte (meant piece.entry) }
{
    match piece {
        Piece::Byte(b) => b == byte,
        Piece::Form(_) | Piece::Group(_) => false,
    }
}

/// What is before the byte that is right before an end of the text.
pub(crate) fn before<'a>(text: &'a [u8], end: &[u8]) -> &'a [u8]
    requires { length end.now < length text.now }
    ensures { result.now ≡ take (length text.now - length end.now - 1) text.now }
{
    text.split_at(text.len() - end.len() - 1).0
}

/// A walk along the pieces of a text, of which contracts see those that are still to come.
#[derive(Clone, Copy)]
pub(crate) struct Walk<'a> {
    rest: &'a [u8],
    /// After a `${` without its `}` there are bytes alone.
    has_bytes_alone: bool,
}

impl<'a> Walk<'a> {
    pub(crate) fn new(text: &'a [u8]) -> Walk<'a>
        ensures pieces { left_of result ≡ pieces_of text.now }
        ensures rest { result.rest.now ≡ text.now }
    {
        Walk {
            rest: text,
            has_bytes_alone: false,
        }
    }

    /// The text that is still to come.
    pub(crate) fn rest(self) -> &'a [u8]
        ensures { result.now ≡ self.entry.rest.now }
    {
        self.rest
    }

    /// The next piece, and the walk after it.
    pub(crate) fn next(self) -> Option<(Piece<'a>, Walk<'a>)>
        ensures steps { Steps (left_of self.entry) result }
        ensures shorter { IfSome result (λ step. length step.1.rest.now < length self.entry.rest.now) }
    {
        let (first, others) = self.rest.split_first()?;
        let byte = Piece::Byte(*first);
        if self.has_bytes_alone {
            return Some((byte, after(others, true)));
        }
        let Some(inside) = inside_form(self.rest) else {
            return Some((byte, after(others, false)));
        };
        match past_form(inside) {
            Some(end) => Some((Piece::Form(before(inside, end)), after(end, false))),
            None => Some((byte, after(others, true))),
        }
    }

    /// The walk after the first `)` that no parenthesis before it takes.
    fn past_group(self) -> Option<Walk<'a>>
        ensures found { option_map left_of result ≡ after_group 0 (left_of self.entry) }
        ensures shorter { IfSome result (λ end. length end.rest.now < length self.entry.rest.now) }
    {
        let mut open: usize = 0;
        let mut walk = self;
        'pieces: while let Some((piece, after)) = walk.next() {
            if is_byte(piece, b'(') {
                open += 1;
            } else if is_byte(piece, b')') {
                if open == 0 {
                    return Some(after);
                }
                open -= 1;
            }
            walk = after;
        }
        None
    }

    /// The next piece, where a parenthesis with its partner is one, and the walk after it.
    pub(crate) fn next_block(self) -> Option<(Piece<'a>, Walk<'a>)>
        ensures steps { StepsByBlocks (left_of self.entry) result }
        ensures shorter { IfSome result (λ step. length step.1.rest.now
            < length self.entry.rest.now) }
    {
        let (piece, after) = self.next()?;
        if !is_byte(piece, b'(') {
            return Some((piece, after));
        }
        match after.past_group() {
            Some(end) => Some((Piece::Group(before(after.rest, end.rest)), end)),
            None => Some((piece, after)),
        }
    }
}

/// A walk along a text, of which the pieces are bytes alone or may be forms.
fn after(rest: &[u8], has_bytes_alone: bool) -> Walk<'_>
    ensures pieces { left_of result ≡ pieces_left has_bytes_alone rest.now }
    ensures rest { result.rest.now ≡ rest.now }
{
    Walk {
        rest,
        has_bytes_alone,
    }
}
