//! Which list of lines each buffer shows, found by the handle of the buffer.

ghost use Rattle.std.specs.Prelude.{◌≡◌, IfOk, OnOk};
ghost use Rattle.std.specs.List.{AllByRecursion};
ghost use Rattle.wc_hdata.specs.Lists.{shown_list};
ghost use Rattle.wc_hdata.specs.Shown.{IsShown};

use crate::lists::group_of;
use crate::place::LineList;
use std::alloc::Global;
use wc_buffers::Buffers;
use wc_text::{Handle, NoMemory};

/// The list of lines that a buffer shows.
#[derive(Clone, Copy)]
pub(crate) struct Shown {
    buffer: Handle,
    list: LineList,
}

/// The list of lines that a buffer shows: its own where it is alone in its group, and else the
/// mixed one of the group.
fn shown_list(buffers: &Buffers, buffer: Handle) -> LineList
    ensures { result ≡ shown_list buffers.now buffer }
{
    match group_of(buffers, buffer) {
        [first, _, ..] => LineList::Mixed(*first),
        _ => LineList::Own(buffer),
    }
}

/// Puts what these buffers show after others.
fn push_shown(shown: &mut Vec<Shown>, buffers: &Buffers, all: &[Handle]) -> Result<(), NoMemory>
    requires { AllByRecursion (IsShown buffers.now) shown.old.items }
    ensures { OnOk result (AllByRecursion (IsShown buffers.now) shown.new.items) }
{
    shown.reserve(all.len())?;
    for buffer in all {
        let list = shown_list(buffers, *buffer);
        match shown.push(Shown {
            buffer: *buffer,
            list,
        }) {
            Ok(()) => {}
            Err(_) => return Err(NoMemory),
        }
    }
    Ok(())
}

/// What these buffers show, in the order of their handles.
pub(crate) fn shown_lists(
    alloc: Global,
    buffers: &Buffers,
    all: &[Handle],
) -> Result<Vec<Shown>, NoMemory>
    ensures { IfOk result (λ shown. AllByRecursion (IsShown buffers.now) shown.items) }
{
    let mut shown = Vec::new(alloc);
    push_shown(&mut shown, buffers, all)?;
    shown.sort_by_key(|one| one.buffer.0)?;
    Ok(shown)
}

/// The list of lines that a buffer shows, which is looked for in its group only where it is not
/// among these.
pub(crate) fn find_shown(shown: &[Shown], buffers: &Buffers, buffer: Handle) -> LineList
    requires { AllByRecursion (IsShown buffers.now) shown.now }
    ensures { result ≡ shown_list buffers.now buffer }
{
    match shown.binary_search_by_key(&buffer.0, |one| one.buffer.0) {
        Ok(at) => shown[at].list,
        Err(_) => shown_list(buffers, buffer),
    }
}
