//! Plays passes through tables of hooks, and prints what they give: the triggers whose entries run,
//! in order, and 0 where none is left.
//!
//! Nothing is claimed here: what is printed is compared.
#![tactic(auto)]

mod passes;
mod stories;
mod tables;

use std::fmt::Debug;
use std::io;
use wc_text::Text;

/// Prints what a story gave.
fn show<T: Debug + Drop>(rt: &HostRuntime, name: &str, given: T) -> io::Result<()> {
    print!(rt; "== {name}\n{given:?}\n")
}

/// Plays what becomes of a pass in which the table changes.
fn play_changes(rt: &HostRuntime, key: &Text) -> io::Result<()> {
    let alloc = rt.alloc();
    show(
        rt,
        "an entry hooked in a pass, among those that are left",
        stories::late(alloc, key, 3),
    )?;
    show(
        rt,
        "an entry hooked in a pass, before those that ran",
        stories::late(alloc, key, 9),
    )?;
    show(
        rt,
        "the next entry unhooked, the one after it disabled",
        stories::fewer(alloc, key),
    )?;
    show(
        rt,
        "an entry enabled, one disabled and enabled again",
        stories::switched(alloc, key),
    )?;
    show(
        rt,
        "an entry unhooked in an inner pass",
        stories::unhooked(alloc, key),
    )
}

fn main(rt: HostRuntime) -> io::Result<()> {
    let alloc = rt.alloc();
    let Ok(key) = Text::from_slice(alloc, b"buffer_opened") else {
        return Ok(());
    };
    show(
        &rt,
        "by priority, and then as they were hooked",
        stories::in_order(alloc, &key),
    )?;
    play_changes(&rt, &key)?;
    show(
        &rt,
        "an inner pass, and the next entry of the outer one",
        stories::inner(alloc, &key),
    )?;
    show(
        &rt,
        "the entries of the pass's kind and key alone",
        stories::crowded(alloc, &key),
    )?;
    show(
        &rt,
        "as many passes as fit, and one that tells clients",
        stories::deep(alloc, &key),
    )?;
    show(&rt, "the 961st entry", stories::one_too_many(alloc, &key))?;
    show(
        &rt,
        "an entry of a client in a full table",
        stories::relays(alloc, &key),
    )?;
    show(
        &rt,
        "an entry that is not there",
        stories::unknown(alloc, &key),
    )
}
