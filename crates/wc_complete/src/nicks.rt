ghost use Rattle.std.specs.Prelude.{◌≡◌, ◌++◌, IfOk, OnOk, filter};
ghost use Rattle.wc_complete.specs.Candidates.{begins_as};
ghost use Rattle.wc_complete.specs.NickNames.{nick_name, nick_names};

use crate::found::push_name;
use std::alloc::Global;
use wc_nicklist::{Item, Nicklist};
use wc_text::{NoMemory, Text};

/// The nicks that begin with the base word, in the order of the list.
pub(crate) fn nicks_found(
    alloc: Global,
    nicks: &Nicklist,
    base: &[u8],
) -> Result<Vec<Text>, NoMemory>
    ensures { IfOk result (λ found. found.items
        ≡ filter (begins_as base.now) (nick_names nicks.now.rows)) }
{
    let mut found = Vec::new(alloc);
    for row in nicks.rows() {
        push_nick(alloc, &mut found, base, row.item())?;
    }
    Ok(found)
}

/// Puts the name of a nick after others, where it begins with the base word.
fn push_nick(alloc: Global, found: &mut Vec<Text>, base: &[u8], item: &Item) -> Result<(), NoMemory>
    ensures { OnOk result (found.new.items
        ≡ found.old.items ++ filter (begins_as base.now) (nick_name item.now)) }
{
    if item.is_group {
        return Ok(());
    }
    push_name(alloc, found, base, item.name.as_slice())
}
