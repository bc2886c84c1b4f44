ghost use Rattle.std.specs.Option.{option_copied};
ghost use Rattle.std.specs.Prelude.{◌≡◌};
ghost use Rattle.wc_irc_texts.specs.Tags.{value_in, or_before, tag_value, tag_time};

use crate::moment::{Moment, read_time};
use wc_text::split_once;

/// The tag that has the moment of a message (IRCv3 server-time).
const TIME: &[u8] = b"time";

/// The value of a tag, where it has this name.
fn value_in<'a>(name: &[u8], tag: &'a [u8]) -> Option<&'a [u8]>
    ensures { option_copied result ≡ value_in name.now tag.now }
{
    let (own, value) = split_once(tag, b'=');
    if name == own { value } else { None }
}

fn or_before<'a>(value: Option<&'a [u8]>, found: Option<&'a [u8]>) -> Option<&'a [u8]>
    ensures { option_copied result
        ≡ or_before (option_copied value.entry) (option_copied found.entry) }
{
    match value {
        Some(value) => Some(value),
        None => found,
    }
}

/// The value of the tag of this name, of which the last counts.
fn tag_value<'a>(name: &[u8], tags: &'a [u8]) -> Option<&'a [u8]>
    ensures { option_copied result ≡ tag_value name.now tags.now }
{
    let mut found = None;
    let mut left = Some(tags);
    while let Some(rest) = left {
        let (tag, others) = split_once(rest, b';');
        found = or_before(value_in(name, tag), found);
        left = others;
    }
    found
}

/// The moment that the tags of a message tell: that of the last tag `time` with a value, where this
/// is one. Semicolons part tags, and each is a name, or a name, `=` and a value (IRCv3).
pub fn tag_time(tags: &[u8]) -> Option<Moment>
    ensures { result ≡ tag_time tags.now }
{
    read_time(tag_value(TIME, tags)?)
}
