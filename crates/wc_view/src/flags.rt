//! The flags of lines that a message tells.

ghost use Rattle.std.specs.Prelude.{◌≡◌, option_map, IfOk};
ghost use Rattle.wc_view.specs.Each.{each};
ghost use Rattle.wc_view.specs.Flags.{flag_in, flags_on};

use crate::items::{items_on, last_pointer};
use crate::values::{pointer_in, truth_in};
use std::alloc::Global;
use wc_keys::{KeyList, LINE_PATH};
use wc_objects::{HdaItem, Object};
use wc_text::{Items, NoMemory};

/// Whether the lines of a buffer that have this content are displayed.
#[derive(Clone, Copy)]
pub(crate) struct LineFlag {
    pub buffer: u64,
    pub content: u64,
    pub displayed: bool,
}

/// The flag that an item says. None where the item has other values than a flag has.
#[tactic(auto, unfolding(crate::specs::Flags::flag_in))]
fn flag_in(item: &HdaItem) -> Option<LineFlag>
    ensures { result ≡ flag_in item.now }
{
    let [buffer, displayed] = item.values.as_slice() else {
        return None;
    };
    let content = last_pointer(item)?;
    let buffer = pointer_in(buffer)?;
    let displayed = truth_in(displayed)?;
    Some(LineFlag {
        buffer,
        content,
        displayed,
    })
}

/// The flags that items say. None where one says none.
#[tactic(auto, using(crate::proofs::EachLemmas::each_flag_facts))]
fn each_flag(alloc: Global, items: &Items<HdaItem>) -> Result<Option<Vec<LineFlag>>, NoMemory>
    ensures { IfOk result (λ flags. option_map (λ v. v.items) flags ≡ each flag_in items.now) }
{
    let mut flags = Vec::new(alloc);
    for item in items.as_slice() {
        let Some(flag) = flag_in(item) else {
            return Ok(None);
        };
        if flags.push(flag).is_err() {
            return Err(NoMemory);
        }
    }
    Ok(Some(flags))
}

/// The flags of a message. None of a message of another kind, and where some item says none.
pub(crate) fn flags_on(
    alloc: Global,
    objects: &Items<Object>,
) -> Result<Option<Vec<LineFlag>>, NoMemory>
    ensures { IfOk result (λ flags. option_map (λ v. v.items) flags ≡ flags_on objects.now) }
{
    match items_on(LINE_PATH, KeyList::Flags.text(), objects) {
        Some(items) => each_flag(alloc, items),
        None => Ok(None),
    }
}
