ghost use Rattle.std.specs.Prelude.{◌≡◌, ◌≤◌, ◌<◌, ◌++◌, length, take, IfOk, IfSome};
ghost use Rattle.std.specs.Str.{IsUtf8, encode_utf8_all};
ghost use Rattle.wc_eval.specs.Values.{size_in};
ghost use Rattle.wc_eval.specs.Cuts.{calc_value, length_value, kept_count, cut_to, cut_by};
ghost use Rattle.wc_eval.specs.Cuts.{cut_value};

use crate::characters::{character_count, characters, spelled};
use crate::sums::calc;
use crate::values::read_size;
use std::alloc::Global;
use wc_text::{NoMemory, Text};

/// The value of `${calc:}`: the number, or `0` where the text is worth none.
pub(crate) fn calc_value(alloc: Global, text: &[u8]) -> Result<Text, NoMemory>
    ensures text { IfOk result (λ value. value ≡ calc_value text.now) }
    ensures utf8 { IfOk result IsUtf8 }
{
    let Some(value) = calc(text) else {
        return Text::from_slice(alloc, "0".as_bytes());
    };
    let digits = value.to_string(alloc)?;
    Text::from_slice(alloc, digits.as_str().as_bytes())
}

/// The value of `${length:}`: how many characters the text has.
pub(crate) fn length_value(alloc: Global, text: &[u8]) -> Result<Text, NoMemory>
    requires { IsUtf8 text.now }
    ensures text { IfOk result (λ value. value ≡ length_value text.now) }
    ensures utf8 { IfOk result IsUtf8 }
{
    let digits = character_count(text).to_string(alloc)?;
    Text::from_slice(alloc, digits.as_str().as_bytes())
}

/// How many characters of a longer text are kept, which with `counts` the suffix is among. None
/// where the suffix alone has more.
fn kept_count(counts: bool, size: u64, suffix: &[u8]) -> Option<u64>
    requires { IsUtf8 suffix.now }
    ensures count { result ≡ kept_count counts size suffix.now }
    ensures most { IfSome result (λ count. count ≤ size) }
{
    if !counts {
        return Some(size);
    }
    size.checked_sub(character_count(suffix) as u64)
}

/// The first so many characters, and the suffix after them.
fn front_and(
    alloc: Global,
    characters: &[char],
    count: usize,
    suffix: &[u8],
) -> Result<Text, NoMemory>
    requires count { count ≤ length characters.now }
    requires suffix { IsUtf8 suffix.now }
    ensures text { IfOk result (λ value. value
        ≡ encode_utf8_all (take count characters.now) ++ suffix.now) }
    ensures utf8 { IfOk result IsUtf8 }
{
    let mut value = spelled(alloc, characters.split_at(count).0)?;
    value.append(suffix)?;
    Ok(value)
}

/// A text that is cut after so many characters, where it has more, and then the suffix.
fn cut_to(
    alloc: Global,
    counts: bool,
    size: u64,
    suffix: &[u8],
    text: &[u8],
) -> Result<Text, NoMemory>
    requires suffix { IsUtf8 suffix.now }
    requires text { IsUtf8 text.now }
    ensures text { IfOk result (λ value. value ≡ cut_to counts size suffix.now text.now) }
    ensures utf8 { IfOk result IsUtf8 }
{
    let characters = characters(alloc, text)?;
    if characters.len() as u64 <= size {
        return Text::from_slice(alloc, text);
    }
    let Some(count) = kept_count(counts, size, suffix) else {
        return Ok(Text::new(alloc));
    };
    front_and(alloc, characters.as_slice(), count as usize, suffix)
}

/// A text that is cut after as many characters as the digits say. Where they are no whole number of 0
/// or more it is empty.
fn cut_by(
    alloc: Global,
    counts: bool,
    digits: &[u8],
    suffix: &[u8],
    text: &[u8],
) -> Result<Text, NoMemory>
    requires suffix { IsUtf8 suffix.now }
    requires text { IsUtf8 text.now }
    ensures text { IfOk result (λ value. value
        ≡ cut_by counts (size_in digits.now) suffix.now text.now) }
    ensures utf8 { IfOk result IsUtf8 }
{
    match read_size(digits) {
        Some(size) => cut_to(alloc, counts, size, suffix, text),
        None => Ok(Text::new(alloc)),
    }
}

/// The value of `${cut:}`. With a `+` before the size the suffix counts.
pub(crate) fn cut_value(
    alloc: Global,
    size: &[u8],
    suffix: &[u8],
    text: &[u8],
) -> Result<Text, NoMemory>
    requires suffix { IsUtf8 suffix.now }
    requires text { IsUtf8 text.now }
    ensures text { IfOk result (λ value. value ≡ cut_value size.now suffix.now text.now) }
    ensures utf8 { IfOk result IsUtf8 }
{
    let Some((first, digits)) = size.split_first() else {
        return Ok(Text::new(alloc));
    };
    if *first == b'+' {
        return cut_by(alloc, true, digits, suffix, text);
    }
    cut_by(alloc, false, size, suffix, text)
}
