ghost use Rattle.std.specs.Prelude.{◌≡◌, None, Some, MatchOption, IfSome};
ghost use Rattle.wc_buffers.specs.Calls.{entry_of};
ghost use Rattle.wc_buffers.specs.Kept.{IsBuffer};

use wc_buffers::{BufferRow, Buffers, Vars};
use wc_text::Handle;

/// What there is of a buffer: its row and its variables. None exactly where it is not there.
pub(crate) fn row_and_vars(buffers: &Buffers, buffer: Handle) -> Option<(&BufferRow, &Vars)>
    ensures entry { MatchOption result (entry_of buffer buffers.now ≡ None)
        (λ parts. entry_of buffer buffers.now
        ≡ Some (record { row = parts.0.now; vars = parts.1.now })) }
    ensures kept { IfSome result
        (λ parts. IsBuffer (record { row = parts.0.now; vars = parts.1.now })) }
{
    let _ = buffers.groups();
    let row = buffers.get(buffer)?;
    let vars = buffers.vars(buffer)?;
    Some((row, vars))
}
