ghost use Rattle.std.specs.Prelude.{◌≡◌, ◌<◌, IsSome, OnOk, Some, None, ℕ, nat_eq, if◌then◌else◌};
ghost use Rattle.std.specs.HashMap.{spare};
ghost use Rattle.wc_lines.specs.LineText.{HasUtf8Texts};
ghost use Rattle.wc_lines.specs.Ring.{with_line, without_lines};
ghost use Rattle.wc_world.specs.Kept.{held_at, printed_under, IsHeldChanged};

use std::collections::HashMap;
use wc_lines::{Lines, PackedLine};
use wc_text::{Handle, NoMemory};

/// The lines of the buffers by the handles of these.
pub(crate) type Held = HashMap<u64, Lines>;

/// Takes the memory for one buffer more.
pub(crate) fn reserve(held: &mut Held) -> Result<(), NoMemory>
    ensures same { (q : ℕ) → held_at held.new q ≡ held_at held.old q }
    ensures ok { OnOk result (0 < spare held.new) }
{
    held.reserve(1)?;
    Ok(())
}

/// Puts the lines of a buffer in. It takes no memory.
pub(crate) fn insert(held: &mut Held, h: Handle, lines: Lines)
    requires { 0 < spare held.old }
    ensures { (q : ℕ) → held_at held.new q ≡ (if nat_eq h.0 q then Some lines
        else held_at held.old q) }
{
    // There is room, so that it is put in.
    drop(held.insert(h.0, lines));
}

/// Takes the lines of a buffer out.
pub(crate) fn remove(held: &mut Held, h: Handle)
    ensures { (q : ℕ) → held_at held.new q ≡ (if nat_eq h.0 q then None else held_at held.old q) }
{
    let _ = held.remove(&h.0);
}

/// How many lines were ever put to a buffer. A buffer that is not there had none.
pub(crate) fn printed(held: &Held, h: Handle) -> u64
    ensures { result ≡ printed_under held.now h.0 }
{
    match held.get(&h.0) {
        Some(lines) => lines.pushed(),
        None => 0,
    }
}

/// Puts a line after those of a buffer that is there.
pub(crate) fn put_line(held: &mut Held, h: Handle, line: PackedLine)
    requires there { IsSome (held_at held.old h.0) }
    requires text { HasUtf8Texts line }
    ensures { IsHeldChanged h.0 (λ lines. with_line lines line) held.old held.new }
{
    let Some(lines) = held.get_mut(&h.0) else {
        unreachable!()
    };
    let _ = lines.push(line);
}

/// Takes the lines of a buffer that is there.
pub(crate) fn clear(held: &mut Held, h: Handle)
    requires { IsSome (held_at held.old h.0) }
    ensures { IsHeldChanged h.0 without_lines held.old held.new }
{
    let Some(lines) = held.get_mut(&h.0) else {
        unreachable!()
    };
    lines.clear();
}
