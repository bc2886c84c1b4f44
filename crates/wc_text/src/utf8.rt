ghost use Rattle.std.specs.Prelude.{◌≡◌, ◌++◌, IfOk};
ghost use Rattle.std.specs.Str.{IsUtf8};
ghost use Rattle.wc_text.specs.Lossy.{lossy_of, char_len};

use crate::no_memory::NoMemory;
use crate::text::Text;
use std::alloc::Global;

/// U+FFFD in UTF-8.
const REPLACEMENT: [u8; 3] = [0xEF, 0xBF, 0xBD];

/// A text made of any bytes: from the left each well-formed character of UTF-8,
/// and U+FFFD for each other single byte.
pub fn lossy(alloc: Global, bytes: &[u8]) -> Result<Text, NoMemory>
    ensures { IfOk result (λ text. text ≡ lossy_of bytes.now) }
{
    let (_, others) = split_valid(bytes);
    if others.is_empty() {
        return Text::from_slice(alloc, bytes);
    }
    let mut text = Text::new(alloc);
    let mut rest = bytes;
    loop {
        let (valid, others) = split_valid(rest);
        text.append(valid)?;
        let Some((_, following)) = others.split_first() else {
            return Ok(text);
        };
        text.append(&REPLACEMENT)?;
        rest = following;
    }
}

/// The longest front that is UTF-8, and what comes after it, which begins with no character.
fn split_valid(bytes: &[u8]) -> (&[u8], &[u8])
    ensures whole { bytes.now ≡ result.0.now ++ result.1.now }
    ensures valid { IsUtf8 result.0.now }
    ensures no_char { char_len result.1.now ≡ 0 }
{
    match std::str::from_utf8(bytes) {
        Ok(_) => bytes.split_at(bytes.len()),
        Err(error) => bytes.split_at(error.valid_up_to()),
    }
}
