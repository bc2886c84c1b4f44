ghost use Rattle.std.specs.Prelude.{◌≡◌, ◌≤◌, ◌<◌, ◌+◌, ◌++◌, Err, length, OnOk, IfOk};
ghost use Rattle.std.specs.Str.{IsUtf8};
ghost use Rattle.wc_eval.specs.Values.{Makes, size_in, copies_of, repeat_value, hide_value};
ghost use Rattle.wc_eval.specs.declared.values.Stop.TheVariants.{NoMemory as no_memory};

use crate::characters::character_count;
use std::alloc::Global;
use wc_text::{NoMemory, Text, read_i64};

/// The most bytes of a value.
pub(crate) const LONGEST: usize = 65_536;

/// Why an evaluation stops.
#[derive(Clone, Copy, PartialEq, Eq)]
pub(crate) enum Stop {
    /// A limit is passed.
    Over,
    /// Memory was asked for and not found.
    NoMemory,
}

impl From<NoMemory> for Stop {
    ghost from_gives = { λ _ stop. stop ≡ no_memory };

    fn from(_error: NoMemory) -> Stop {
        Stop::NoMemory
    }
}

/// A whole number of 0 or more.
pub(crate) fn read_size(text: &[u8]) -> Option<u64>
    ensures { result ≡ size_in text.now }
{
    u64::try_from(read_i64(text)?).ok()
}

/// Puts bytes after a value, which has to stay within the limit.
pub(crate) fn append(value: &mut Text, bytes: &[u8]) -> Result<(), Stop>
    ensures ok { OnOk result (value.new ≡ value.old ++ bytes.now) }
    ensures short { OnOk result (length value.new ≤ 65536) }
    ensures over { result ≡ Err Stop.Over → 65536 < length value.old + length bytes.now }
{
    if bytes.len() > LONGEST || value.as_slice().len() > LONGEST - bytes.len() {
        return Err(Stop::Over);
    }
    value.append(bytes)?;
    Ok(())
}

/// A text so many times, unless that is too long.
fn copies_of(alloc: Global, count: u64, text: &[u8]) -> Result<Text, Stop>
    ensures { Makes (copies_of count text.now) result }
{
    let mut value = Text::new(alloc);
    if text.is_empty() {
        return Ok(value);
    }
    if count > (LONGEST / text.len()) as u64 {
        return Err(Stop::Over);
    }
    for _turn in 0..count {
        value.append(text)?;
    }
    Ok(value)
}

/// The value of `${repeat:}`.
pub(crate) fn repeat_value(alloc: Global, size: &[u8], text: &[u8]) -> Result<Text, Stop>
    requires { IsUtf8 text.now }
    ensures utf8 { IfOk result IsUtf8 }
    ensures made { Makes (repeat_value size.now text.now) result }
{
    match read_size(size) {
        Some(count) => copies_of(alloc, count, text),
        None => Ok(Text::new(alloc)),
    }
}

/// The value of `${hide:}`.
pub(crate) fn hide_value(alloc: Global, cover: &[u8], text: &[u8]) -> Result<Text, Stop>
    requires cover { IsUtf8 cover.now }
    requires text { IsUtf8 text.now }
    ensures utf8 { IfOk result IsUtf8 }
    ensures made { Makes (hide_value cover.now text.now) result }
{
    copies_of(alloc, character_count(text) as u64, cover)
}
