//! The values of a buffer, by their keys.

ghost use Rattle.std.specs.Prelude.{◌≡◌, None, Some, MatchOption, option_map, unwrap_or};
ghost use Rattle.wc_buffers.specs.Calls.{entry_of, number};
ghost use Rattle.wc_hdata.specs.Steps.{all_buffers};
ghost use Rattle.wc_hdata.specs.Values.{of_buffer};
ghost use Rattle.wc_model.specs.Order.{before_in, after_in, first_of};
ghost use Rattle.wc_events.specs.BufferObjects.{count};
ghost use Rattle.wc_events.specs.LentValues.{object_of};
ghost use Rattle.wc_world.specs.Near.{numbers};

use crate::key::Key;
use wc_buffers::{BufferRow, Buffers, Vars};
use wc_events::parts::{LentValue, count, entry_value};
use wc_text::Handle;

/// The buffer before another among all, or 0.
fn before(all: &[Handle], buffer: Handle) -> u64
    ensures { result ≡ before_in 0 buffer.0 (numbers all.now) }
{
    let mut before = 0;
    for other in all {
        if other.0 == buffer.0 {
            return before;
        }
        before = other.0;
    }
    0
}

/// The buffer after another among all, or 0.
fn next_buffer(all: &[Handle], buffer: Handle) -> u64
    ensures { result ≡ after_in buffer.0 (numbers all.now) }
{
    let mut left = all;
    while let Some((first, others)) = left.split_first() {
        if first.0 == buffer.0 {
            return first_of(others);
        }
        left = others;
    }
    0
}

fn first_of(handles: &[Handle]) -> u64
    ensures { result ≡ first_of (numbers handles.now) }
{
    match handles.first() {
        Some(first) => first.0,
        None => 0,
    }
}

/// What there is of a buffer: its row and its variables. None exactly where it is not there.
pub(crate) fn row_and_vars(buffers: &Buffers, buffer: Handle) -> Option<(&BufferRow, &Vars)>
    ensures { MatchOption result (entry_of buffer buffers.now ≡ None)
        (λ parts. entry_of buffer buffers.now
        ≡ Some (record { row = parts.0.now; vars = parts.1.now })) }
{
    let row = buffers.get(buffer)?;
    let vars = buffers.vars(buffer)?;
    Some((row, vars))
}

/// The value of a buffer that a key names. None where it is not there, and for other keys than
/// those of buffers.
/// `all` are all buffers in their order.
#[tactic(auto, using(crate::proofs::Orders::prev_is, crate::proofs::Orders::next_is))]
pub(crate) fn of_buffer<'a>(
    buffers: &'a Buffers,
    all: &[Handle],
    buffer: Handle,
    key: Key,
) -> Option<LentValue<'a>>
    requires { all.now ≡ all_buffers buffers.now }
    ensures { option_map object_of result ≡ of_buffer buffers.now buffer key
        (entry_of buffer buffers.now) }
{
    let (row, vars) = row_and_vars(buffers, buffer)?;
    match key {
        Key::Number => Some(LentValue::Int(number(buffers, buffer))),
        Key::PrevBuffer => Some(LentValue::Ptr(before(all, buffer))),
        Key::NextBuffer => Some(LentValue::Ptr(next_buffer(all, buffer))),
        _ => entry_value(row, vars, key),
    }
}

/// The number of a buffer, as a message has it.
pub(crate) fn number(buffers: &Buffers, buffer: Handle) -> i32
    ensures { result ≡ count (unwrap_or (number buffer buffers.now) 0) }
{
    match buffers.number(buffer) {
        Some(number) => count(u64::from(number)),
        None => 0,
    }
}
