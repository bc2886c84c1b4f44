//! Values in quotes. A backslash is before each quote and each backslash of the value.
ghost use Rattle.std.specs.Prelude.{◌≡◌, ◌++◌, ◌∷◌, Ok, Some, IfOk, IfSome, OnOk, length, true};
ghost use Rattle.std.specs.Prelude.{position, slice_index_or};
ghost use Rattle.wc_options.specs.Quotes.{is_marked, escaped, quoted, unescaped, unquoted};
ghost use Rattle.wc_options.specs.Quotes.{after_mark, LeavesBelow};

use std::alloc::Global;
use wc_text::{NoMemory, Text};

/// What a quote or a backslash is for.
pub(crate) enum Mark<'a> {
    /// The quote that ends the value.
    Closing,
    /// A byte of the value, and what comes after it.
    Byte(u8, &'a [u8]),
    /// A quote that is not the last byte, or a backslash before any other byte.
    Stray,
}

fn is_marked(byte: u8) -> bool
    ensures { result ≡ is_marked byte }
{
    byte == b'"' || byte == b'\\'
}

/// The place of the first quote or backslash.
fn first_marked(text: &[u8]) -> Option<usize>
    ensures { result ≡ position is_marked text.now }
{
    text.iter().position(|byte| is_marked(*byte))
}

/// Puts a value in quotes after a text.
#[tactic(auto, using(crate::proofs::QuotesLemmas::written_quotes))]
pub(crate) fn append_quoted(text: &mut Text, value: &[u8]) -> Result<(), NoMemory>
    ensures written { OnOk result (text.new ≡ text.old ++ quoted value.now) }
    ensures reads_back { unquoted (quoted value.now) ≡ Some value.now }
{
    text.append(b"\"")?;
    append_escaped(text, value)?;
    text.append(b"\"")
}

/// Puts what is between the quotes after a text. What needs no backslash is put in one piece.
fn append_escaped(text: &mut Text, value: &[u8]) -> Result<(), NoMemory>
    ensures { OnOk result (text.new ≡ text.old ++ escaped value.now) }
{
    let mut rest = value;
    while let Some(place) = first_marked(rest) {
        let (plain, marked) = rest.split_at(place);
        let (byte, others) = marked.split_at(1);
        text.append(plain)?;
        text.append(b"\\")?;
        text.append(byte)?;
        rest = others;
    }
    text.append(rest)
}

/// The value that a text in quotes is for. None where the text does not begin with a quote, where
/// no other quote ends it, or where a backslash is before any byte but a quote and a backslash.
#[tactic(auto, using(crate::proofs::QuotesLemmas::quoting))]
pub(crate) fn unquote(alloc: Global, text: &[u8]) -> Result<Option<Text>, NoMemory>
    ensures value { IfOk result (λ found. found ≡ unquoted text.now) }
    ensures only { IfOk result (λ found. IfSome found (λ value. text.now ≡ quoted value)) }
{
    match text.strip_prefix(b"\"") {
        Some(rest) => unescape(alloc, rest),
        None => Ok(None),
    }
}

/// The value that is written after the first quote.
fn unescape(alloc: Global, text: &[u8]) -> Result<Option<Text>, NoMemory>
    ensures { IfOk result (λ found. found ≡ unescaped text.now) }
{
    let mut value = Text::new(alloc);
    let mut rest = text;
    while let Some(place) = first_marked(rest) {
        let (plain, marked) = rest.split_at(place);
        value.append(plain)?;
        match mark_of(marked) {
            Mark::Closing => return Ok(Some(value)),
            Mark::Byte(byte, others) => {
                value.append(&[byte])?;
                rest = others;
            }
            Mark::Stray => return Ok(None),
        }
    }
    Ok(None)
}

/// What the quote or the backslash is for with which a text begins.
#[tactic(auto, using(crate::proofs::QuotesLemmas::marks))]
fn mark_of(text: &[u8]) -> Mark<'_>
    requires { is_marked (slice_index_or text.now 0 0) ≡ true }
    ensures value { unescaped text.now ≡ after_mark result }
    ensures shorter { LeavesBelow (length text.now) result }
{
    match text.strip_prefix(b"\\") {
        Some(rest) => escaped_byte(rest),
        None => {
            if text.len() == 1 {
                return Mark::Closing;
            }
            Mark::Stray
        }
    }
}

/// What the backslash is for that is before a text.
#[tactic(auto, using(crate::proofs::QuotesLemmas::marked_bytes))]
fn escaped_byte(text: &[u8]) -> Mark<'_>
    ensures value { unescaped (92 ∷ text.now) ≡ after_mark result }
    ensures shorter { LeavesBelow (length text.now) result }
{
    match text.split_first() {
        Some((byte, others)) => {
            if is_marked(*byte) {
                return Mark::Byte(*byte, others);
            }
            Mark::Stray
        }
        None => Mark::Stray,
    }
}
