ghost use Rattle.std.specs.Prelude.{◌≡◌, [], ◌∷◌, IfOk};
ghost use Rattle.wc_buffers.specs.Calls.{buffer_of, is_there, no_buffer};
ghost use Rattle.wc_buffers.specs.Kept.{AreBuffers};
ghost use Rattle.wc_model.specs.Notices.{name_in};
ghost use Rattle.wc_model.specs.declared.notice.EventKind.TheVariants as kinds;
ghost use Rattle.wc_world.specs.Told.{told_at, told_with};

use crate::near::{next_of, prev_of};
use std::alloc::Global;
use wc_buffers::{BufferRefused, Buffers};
use wc_model::{EventKind, Few, Notice, Trim};
use wc_text::{Handle, Items, NoMemory, Text};

/// The full name of a buffer in memory of its own; empty where the buffer is not there.
pub(crate) fn name_of(buffers: &Buffers, alloc: Global, h: Handle) -> Result<Text, NoMemory>
    ensures { IfOk result (λ name. name ≡ name_in (buffer_of h buffers.now)) }
{
    match buffers.get(h) {
        Some(row) => row.full_name.copy(alloc),
        None => Ok(Text::new(alloc)),
    }
}

/// What is noticed of a buffer as it is, and of lines that went. It takes no memory.
fn noticed_all(
    buffers: &Buffers,
    kind: EventKind,
    h: Handle,
    full_name: Text,
    lines: Few<Handle>,
    flips: Items<Handle>,
    trims: Few<Trim>,
) -> Notice
    ensures { result ≡ told_with kind h buffers.now full_name lines flips trims }
{
    let number = buffers.number(h).unwrap_or(0);
    let prev = prev_of(buffers, h);
    let next = next_of(buffers, h);
    Notice {
        kind,
        buffer: h,
        number,
        full_name,
        prev,
        next,
        lines,
        flips,
        trims,
    }
}

/// What is noticed of a buffer as it is. It takes no memory.
pub(crate) fn noticed(
    buffers: &Buffers,
    alloc: Global,
    kind: EventKind,
    h: Handle,
    full_name: Text,
    lines: Few<Handle>,
    flips: Items<Handle>,
) -> Notice
    ensures { result ≡ told_at kind h buffers.now full_name lines flips }
{
    let none = Few::none(alloc);
    noticed_all(buffers, kind, h, full_name, lines, flips, none)
}

/// What is noticed of a buffer as it is, and of lines that went. It takes no memory.
pub(crate) fn noticed_trims(
    buffers: &Buffers,
    alloc: Global,
    kind: EventKind,
    h: Handle,
    full_name: Text,
    trims: Few<Trim>,
) -> Notice
    ensures { result ≡ told_with kind h buffers.now full_name [] [] trims }
{
    let none = Items::new(alloc);
    noticed_all(buffers, kind, h, full_name, Few::none(alloc), none, trims)
}

/// What is noticed of a buffer as it is, without lines. It takes no memory.
pub(crate) fn told(
    buffers: &Buffers,
    alloc: Global,
    kind: EventKind,
    h: Handle,
    full_name: Text,
) -> Notice
    ensures { result ≡ told_at kind h buffers.now full_name [] [] }
{
    let none = Items::new(alloc);
    noticed(buffers, alloc, kind, h, full_name, Few::none(alloc), none)
}

/// Whether a buffer is there.
pub(crate) fn is_there(buffers: &Buffers, h: Handle) -> bool
    ensures { result ≡ is_there h buffers.now }
{
    match buffers.get(h) {
        Some(_) => true,
        None => false,
    }
}

/// Why nothing can be done at a buffer: it is not there.
pub(crate) fn no_buffer(buffers: &Buffers, h: Handle) -> Option<BufferRefused>
    ensures { result ≡ no_buffer h buffers.now }
{
    if is_there(buffers, h) {
        return None;
    }
    Some(BufferRefused::NoBuffer { handle: h })
}

/// What is noticed of a line that was printed. It takes no memory.
pub(crate) fn told_line(
    buffers: &Buffers,
    alloc: Global,
    h: Handle,
    full_name: Text,
    lines: Few<Handle>,
    trims: Few<Trim>,
) -> Notice
    ensures { result ≡ told_with kinds.LineAdded h buffers.now full_name lines [] trims }
{
    let none = Items::new(alloc);
    noticed_all(
        buffers,
        EventKind::LineAdded,
        h,
        full_name,
        lines,
        none,
        trims,
    )
}

/// Calls on what holds of all buffers. It does nothing.
pub(crate) fn are_buffers(buffers: &Buffers)
    ensures { AreBuffers buffers.now }
{
    let _ = buffers.groups();
}
