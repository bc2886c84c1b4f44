//! What a world has of buffers, lines and nicks.

ghost use Rattle.std.specs.Prelude.{◌≡◌, ◌++◌, ◌∷◌, [], List, IfSome, length};
ghost use Rattle.wc_text.specs.declared.names.Handle.{Handle as HandleValue};
ghost use Rattle.wc_model.specs.World.{lines_at, rows_at};
ghost use Rattle.wc_demo.specs.Counts.{nicks_in, counted_in, counts_of};

use crate::counts::{Counts, nick_count};
use wc_text::Handle;
use wc_world::World;

/// How many lines a buffer has.
fn line_count(world: &World, buffer: Handle) -> u64
    ensures { result ≡ length (lines_at world.now buffer.0) }
{
    match world.lines(buffer) {
        Some(lines) => u64::from(lines.len()),
        None => 0,
    }
}

/// How many nicks its list has. None where that passes 64 bits.
fn nicks_of(world: &World, buffer: Handle) -> Option<u64>
    ensures { IfSome result (λ count. count ≡ length (nicks_in (rows_at world.now buffer.0))) }
{
    match world.nicks(buffer) {
        Some(list) => nick_count(list),
        None => Some(0),
    }
}

/// The counts with those of one buffer more.
fn count_buffer(counts: Counts, world: &World, buffer: Handle) -> Option<Counts>
    ensures { (before : List HandleValue) → counts ≡ counted_in world.now before →
        IfSome result (λ all. all ≡ counted_in world.now (before ++ buffer ∷ [])) }
{
    let nicks = nicks_of(world, buffer)?;
    counts.with_buffer(line_count(world, buffer), nicks)
}

/// The counts with those of a group of buffers more.
fn count_group(counts: Counts, world: &World, group: &[Handle]) -> Option<Counts>
    ensures { (before : List HandleValue) → counts ≡ counted_in world.now before →
        IfSome result (λ all. all ≡ counted_in world.now (before ++ group.now)) }
{
    let mut all = counts;
    for buffer in group {
        all = count_buffer(all, world, *buffer)?;
    }
    Some(all)
}

/// The counts of all buffers. None where one passes 64 bits.
pub fn world_counts(world: &World) -> Option<Counts>
    ensures { IfSome result (λ counts. counts ≡ counts_of world.now) }
{
    let mut counts = Counts::none();
    for group in world.buffers().groups() {
        counts = count_group(counts, world, group)?;
    }
    Some(counts)
}
