ghost use Rattle.std.specs.Prelude.{◌≡◌, ◌≤◌, ◌<◌, length, IfOk, IfSome};
ghost use Rattle.std.specs.Option.{option_copied};
ghost use Rattle.wc_triggers.specs.Slashes.{is_marked, first_meant, unslashed};

use std::alloc::Global;
use wc_text::{NoMemory, Text};

/// Whether a backslash before the byte is not meant itself: the byte that ends a text, and with
/// `both` the backslash.
fn is_marked(byte: u8, stop: u8, both: bool) -> bool
    ensures { result ≡ is_marked stop both byte }
{
    byte == stop || (both && byte == b'\\')
}

/// The byte that is meant at the front of a text, and what comes after it.
fn first_meant(byte: u8, others: &[u8], stop: u8, both: bool) -> (u8, &[u8])
    ensures meant { (result.0, result.1.now) ≡ first_meant stop both byte others.now }
    ensures shorter { length result.1.now ≤ length others.now }
{
    match others {
        [next, following @ ..] => {
            if byte == b'\\' && is_marked(*next, stop, both) {
                return (*next, following);
            }
            (byte, others)
        }
        [] => (byte, others),
    }
}

/// What is written up to the first such byte that no backslash takes, and what comes after that
/// byte, where there is one. A backslash before that byte, and with `both` before a backslash, is
/// not meant itself.
pub(crate) fn unslashed(
    alloc: Global,
    text: &[u8],
    stop: u8,
    both: bool,
) -> Result<(Text, Option<&[u8]>), NoMemory>
    ensures read { IfOk result (λ read. (read.0, option_copied read.1)
        ≡ unslashed stop both text.now) }
    ensures shorter { IfOk result (λ read. IfSome read.1 (λ rest. length rest.now
        < length text.now)) }
{
    let mut value = Text::new(alloc);
    let mut rest = text;
    while let [first, others @ ..] = rest {
        if *first == stop {
            return Ok((value, Some(others)));
        }
        let (byte, following) = first_meant(*first, others, stop, both);
        value.append(&[byte])?;
        rest = following;
    }
    Ok((value, None))
}
