ghost use Rattle.std.specs.Prelude.{◌≡◌, ◌≤◌, length};
ghost use Rattle.wc_eval.specs.Texts.{is_blank, past_margin, without_tail, without_blanks};
ghost use Rattle.wc_eval.specs.Texts.{is_true, digit_of};

/// Whether the byte is a space or a tab.
pub(crate) fn is_blank(byte: u8) -> bool
    ensures { result ≡ is_blank byte }
{
    byte == b' ' || byte == b'\t'
}

/// The text without the blanks at its front.
pub(crate) fn past_margin(text: &[u8]) -> &[u8]
    ensures text { result.now ≡ past_margin text.now }
    ensures shorter { length result.now ≤ length text.now }
{
    let mut rest = text;
    'blanks: while let [first, others @ ..] = rest {
        if !is_blank(*first) {
            return rest;
        }
        rest = others;
    }
    rest
}

/// The text without the blanks at its end.
fn without_tail(text: &[u8]) -> &[u8]
    ensures { result.now ≡ without_tail text.now }
{
    let mut front = text;
    'blanks: while let Some((last, others)) = front.split_last() {
        if !is_blank(*last) {
            return front;
        }
        front = others;
    }
    front
}

/// The text without the blanks at both ends.
#[tactic(auto, unfolding(crate::specs::Texts::without_blanks))]
pub(crate) fn without_blanks(text: &[u8]) -> &[u8]
    ensures { result.now ≡ without_blanks text.now }
{
    without_tail(past_margin(text))
}

/// How the value of a condition is written.
pub(crate) fn digit(holds: bool) -> &'static [u8]
    ensures { result.now ≡ digit_of holds }
{
    if holds { b"1" } else { b"0" }
}

/// Whether a text is true: it is not empty and not `0`.
pub fn is_true(text: &[u8]) -> bool
    ensures { result ≡ is_true text.now }
{
    match text {
        [] | [b'0'] => false,
        _ => true,
    }
}
