ghost use Rattle.std.specs.Prelude.{◌≡◌, ◌≤◌, length, IfOk};
ghost use Rattle.std.specs.Str.{IsUtf8, chars, encode_utf8_all};
ghost use Rattle.wc_eval.specs.Texts.{character_count, reverse_text, lower_case, upper_case};

use std::alloc::{AllocError, Global};
use wc_text::{NoMemory, Text};

/// The bytes as a text, which they are.
pub(crate) fn as_text(bytes: &[u8]) -> &str
    requires { IsUtf8 bytes.now }
    ensures { result.now ≡ bytes.now }
{
    let Ok(text) = std::str::from_utf8(bytes) else {
        unreachable!()
    };
    text
}

/// How many characters a text has.
pub(crate) fn character_count(text: &[u8]) -> usize
    requires { IsUtf8 text.now }
    ensures count { result ≡ character_count text.now }
    ensures most { result ≤ length text.now }
{
    as_text(text).chars().count()
}

/// The characters of a text.
pub(crate) fn characters(alloc: Global, text: &[u8]) -> Result<Vec<char>, NoMemory>
    requires { IsUtf8 text.now }
    ensures { IfOk result (λ found. found.items ≡ chars text.now) }
{
    Ok(collected(alloc, as_text(text))?)
}

fn collected(alloc: Global, text: &str) -> Result<Vec<char>, AllocError>
    ensures { IfOk result (λ found. found.items ≡ chars text.now) }
{
    text.chars().collect(alloc)
}

/// The text that characters write.
pub(crate) fn spelled(alloc: Global, characters: &[char]) -> Result<Text, NoMemory>
    ensures text { IfOk result (λ text. text ≡ encode_utf8_all characters.now) }
    ensures utf8 { IfOk result IsUtf8 }
{
    let mut text = String::new(alloc);
    for character in characters {
        text.push(*character)?;
    }
    Text::from_slice(alloc, text.as_str().as_bytes())
}

/// The value of `${rev:}`: the characters from the last to the first.
#[tactic(auto, unfolding(crate::specs::Texts::reverse_text))]
pub(crate) fn reverse_text(alloc: Global, text: &[u8]) -> Result<Text, NoMemory>
    requires { IsUtf8 text.now }
    ensures text { IfOk result (λ value. value ≡ reverse_text text.now) }
    ensures utf8 { IfOk result IsUtf8 }
{
    let mut characters = characters(alloc, text)?;
    characters.as_mut_slice().reverse();
    spelled(alloc, characters.as_slice())
}

/// The value of `${lower:}`: letters of ASCII in lower case.
pub(crate) fn lower_case(alloc: Global, text: &[u8]) -> Result<Text, NoMemory>
    requires { IsUtf8 text.now }
    ensures text { IfOk result (λ value. value ≡ lower_case text.now) }
    ensures utf8 { IfOk result IsUtf8 }
{
    let letters = as_text(text).to_ascii_lowercase(alloc)?;
    Text::from_slice(alloc, letters.as_str().as_bytes())
}

/// The value of `${upper:}`: letters of ASCII in upper case.
pub(crate) fn upper_case(alloc: Global, text: &[u8]) -> Result<Text, NoMemory>
    requires { IsUtf8 text.now }
    ensures text { IfOk result (λ value. value ≡ upper_case text.now) }
    ensures utf8 { IfOk result IsUtf8 }
{
    let letters = as_text(text).to_ascii_uppercase(alloc)?;
    Text::from_slice(alloc, letters.as_str().as_bytes())
}
