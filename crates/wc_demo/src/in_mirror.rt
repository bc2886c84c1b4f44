//! What a mirror has of buffers, lines and nicks.

ghost use Rattle.std.specs.Prelude.{◌≡◌, ◌++◌, ◌∷◌, [], List, IfSome, length};
ghost use Rattle.wc_text.specs.declared.names.Handle.{Handle as HandleValue};
ghost use Rattle.wc_view.specs.declared.mirror_buffer.MirrorBuffer.{MirrorBuffer};
ghost use Rattle.wc_view.specs.LinesLeft.{mirror_lines_left};
ghost use Rattle.wc_demo.specs.Counts.{nicks_in};
ghost use Rattle.wc_demo.specs.MirrorCounts.{mirrored_lines, mirrored_rows, mirrored_in};
ghost use Rattle.wc_demo.specs.MirrorCounts.{mirror_counts_of};

use crate::counts::{Counts, nick_count};
use wc_text::Handle;
use wc_view::{Mirror, MirrorLineIter, SharedBuffer};

/// How many lines are to come. None where that passes 64 bits.
fn left_of(lines: MirrorLineIter) -> Option<u64>
    ensures { IfSome result (λ count. count ≡ length (mirror_lines_left lines.entry)) }
{
    let mut count = 0u64;
    for line in lines {
        let _ = line;
        count = count.checked_add(1)?;
    }
    Some(count)
}

/// How many lines a buffer has, none where the line dump was not taken. None where that passes 64
/// bits.
fn line_count(mirror: &Mirror, buffer: Handle) -> Option<u64>
    ensures { IfSome result (λ count. count ≡ length (mirrored_lines mirror.now buffer.0)) }
{
    match mirror.lines(buffer) {
        Some(lines) => left_of(lines),
        None => Some(0),
    }
}

/// How many nicks its list has, none where that dump was not taken. None where that passes 64 bits.
fn nicks_of(mirror: &Mirror, buffer: Handle) -> Option<u64>
    ensures { IfSome result
        (λ count. count ≡ length (nicks_in (mirrored_rows mirror.now buffer.0))) }
{
    match mirror.nicks(buffer) {
        Some(list) => nick_count(list),
        None => Some(0),
    }
}

/// The counts with those of one buffer more.
fn count_buffer(counts: Counts, mirror: &Mirror, buffer: &SharedBuffer) -> Option<Counts>
    ensures { (before : List MirrorBuffer) → counts ≡ mirrored_in mirror.now before →
        IfSome result (λ all. all ≡ mirrored_in mirror.now (before ++ buffer.now ∷ [])) }
{
    let handle = buffer.get().handle;
    let lines = line_count(mirror, handle)?;
    let nicks = nicks_of(mirror, handle)?;
    counts.with_buffer(lines, nicks)
}

/// The counts with those of a group of buffers more.
fn count_group(counts: Counts, mirror: &Mirror, group: &[SharedBuffer]) -> Option<Counts>
    ensures { (before : List MirrorBuffer) → counts ≡ mirrored_in mirror.now before →
        IfSome result (λ all. all ≡ mirrored_in mirror.now (before ++ group.now)) }
{
    let mut all = counts;
    for buffer in group {
        all = count_buffer(all, mirror, buffer)?;
    }
    Some(all)
}

/// The counts of all buffers, none where the buffer dump was not taken. None where one passes 64
/// bits.
pub(crate) fn mirror_counts(mirror: &Mirror) -> Option<Counts>
    ensures { IfSome result (λ counts. counts ≡ mirror_counts_of mirror.now) }
{
    let mut counts = Counts::none();
    let Some(groups) = mirror.buffers() else {
        return Some(counts);
    };
    for group in groups.as_slice() {
        counts = count_group(counts, mirror, group.as_slice())?;
    }
    Some(counts)
}
