//! The buffer that a message tells of by its number and its name alone.

ghost use Rattle.std.specs.Prelude.{◌≡◌};
ghost use Rattle.wc_view.specs.Named.{named_in, buffer_named};

use crate::items::{items_on, last_pointer};
use crate::values::{number_in, text_in};
use wc_keys::{BUFFER_PATH, KeyList};
use wc_objects::{HdaItem, Object};
use wc_text::Items;

#[tactic(auto, unfolding(crate::specs::Named::named_in))]
fn named_in(item: &HdaItem) -> Option<u64>
    ensures { result ≡ named_in item.now }
{
    let [number, name] = item.values.as_slice() else {
        return None;
    };
    let _number = number_in(number)?;
    let _name = text_in(name)?;
    last_pointer(item)
}

/// The buffer of the one item, where its values can be a number and a name.
pub(crate) fn buffer_named(objects: &Items<Object>) -> Option<u64>
    ensures { result ≡ buffer_named objects.now }
{
    let items = items_on(BUFFER_PATH, KeyList::Named.text(), objects)?;
    let [item] = items.as_slice() else {
        return None;
    };
    named_in(item)
}
