ghost use Rattle.std.specs.Prelude.{◌≡◌, ◌≤◌, ◌+◌, ◌<◌, length, IfOk, ◌++◌};
ghost use Rattle.wc_irc_texts.specs.Texts.{is_format, is_digit_first, front_digits, second_colour};
ghost use Rattle.wc_irc_texts.specs.Texts.{after_digit, colour_len, plain};
ghost use Rattle.wc_irc_texts.specs.TextsSeen.{before_format, from_format, past_format};

use std::alloc::Global;
use wc_text::{NoMemory, Text};

/// The byte that begins a colour.
const COLOUR: u8 = 0x03;

/// Whether a byte is bold, a colour in hexadecimal, reset, monospace, reverse, italic, strike or
/// underline, or one of 19 to 1C, which are colours to relay clients.
fn is_format(byte: u8) -> bool
    ensures { result ≡ is_format byte }
{
    byte == 0x02
        || byte == 0x04
        || byte == 0x0F
        || byte == 0x11
        || byte == 0x16
        || 0x19 <= byte && byte <= 0x1D
        || byte == 0x1F
}

fn is_digit_first(text: &[u8]) -> bool
    ensures { result ≡ is_digit_first text.now }
{
    match text {
        [first, ..] => first.is_ascii_digit(),
        [] => false,
    }
}

/// How many digits are at the front, of which two count at most.
fn front_digits(text: &[u8]) -> usize
    ensures digits { result ≡ front_digits text.now }
    ensures within { result ≤ length text.now }
{
    match text {
        [first, others @ ..] if first.is_ascii_digit() => {
            if is_digit_first(others) { 2 } else { 1 }
        }
        _ => 0,
    }
}

/// How many bytes a second colour has with the comma before it.
fn second_colour(text: &[u8]) -> usize
    ensures colour { result ≡ second_colour text.now }
    ensures within { result ≤ length text.now }
{
    match text {
        [b',', others @ ..] if is_digit_first(others) => 1 + front_digits(others),
        _ => 0,
    }
}

/// How many bytes of a colour come after its first digit.
fn after_digit(text: &[u8]) -> usize
    ensures colour { result ≡ after_digit text.now }
    ensures within { result ≤ length text.now }
{
    match text {
        [first, others @ ..] if first.is_ascii_digit() => 1 + second_colour(others),
        _ => second_colour(text),
    }
}

/// How many bytes after the one that begins a colour belong to it.
fn colour_len(text: &[u8]) -> usize
    ensures colour { result ≡ colour_len text.now }
    ensures within { result ≤ length text.now }
{
    match text {
        [first, others @ ..] if first.is_ascii_digit() => 1 + after_digit(others),
        _ => 0,
    }
}

/// The text from the first byte on that begins formatting.
fn from_format(text: &[u8]) -> &[u8]
    ensures { result.now ≡ from_format text.now }
{
    let mut rest = text;
    while let [first, others @ ..] = rest {
        if *first == COLOUR || is_format(*first) {
            return rest;
        }
        rest = others;
    }
    rest
}

/// The text before that, and from it on.
#[tactic(auto, using(crate::proofs::TextLemmas::format_cuts))]
fn cut_format(text: &[u8]) -> (&[u8], &[u8])
    ensures front { result.0.now ≡ before_format text.now }
    ensures back { result.1.now ≡ from_format text.now }
{
    let back = from_format(text);
    (&text[..text.len() - back.len()], back)
}

/// The text without the formatting at its front.
fn past_format(text: &[u8]) -> &[u8]
    ensures { result.now ≡ past_format text.now }
{
    match text {
        [COLOUR, others @ ..] => others.split_at(colour_len(others)).1,
        [first, others @ ..] if is_format(*first) => others,
        _ => text,
    }
}

/// A text without its formatting bytes, which are 02, 04, 0F, 11, 16, 19 to 1D, 1F and 03 with up
/// to two digits and after them a comma and up to two more.
#[tactic(auto, using(crate::proofs::TextLemmas::plain_steps))]
pub fn plain(alloc: Global, text: &[u8]) -> Result<Text, NoMemory>
    ensures { IfOk result (λ bare. bare ≡ plain text.now) }
{
    let mut bare = Text::new(alloc);
    let mut rest = text;
    while !rest.is_empty() {
        let (kept, others) = cut_format(rest);
        bare.append(kept)?;
        rest = past_format(others);
    }
    Ok(bare)
}
