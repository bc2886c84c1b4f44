//! How many of the oldest lines of a buffer went, by a message.

ghost use Rattle.std.specs.Prelude.{◌≡◌};
ghost use Rattle.wc_view.specs.Trims.{trim_in, trim_on};

use crate::items::items_on;
use crate::values::{number_in, pointer_in};
use wc_keys::{BUFFER_PATH, KeyList};
use wc_objects::{HdaItem, Object};
use wc_text::Items;

/// How many of the oldest lines of a buffer went.
#[derive(Clone, Copy)]
pub(crate) struct LineTrim {
    pub buffer: u64,
    pub count: u32,
}

/// What an item says of them. None where the item has other values.
#[tactic(auto, unfolding(crate::specs::Trims::trim_in))]
fn trim_in(item: &HdaItem) -> Option<LineTrim>
    ensures { result ≡ trim_in item.now }
{
    let [buffer, count] = item.values.as_slice() else {
        return None;
    };
    let buffer = pointer_in(buffer)?;
    let count = number_in(count)?;
    Some(LineTrim { buffer, count })
}

/// What a message says of them. None of a message of another kind, and of one that has not one item.
pub(crate) fn trim_on(objects: &Items<Object>) -> Option<LineTrim>
    ensures { result ≡ trim_on objects.now }
{
    let items = items_on(BUFFER_PATH, KeyList::Trimmed.text(), objects)?;
    let [item] = items.as_slice() else {
        return None;
    };
    trim_in(item)
}
