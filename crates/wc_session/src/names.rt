ghost use Rattle.std.specs.Prelude.{◌≡◌};
ghost use Rattle.wc_buffers.specs.Calls.{is_there};
ghost use Rattle.wc_session.specs.Names.{hex_number, handle_named, if_there, named_by};
ghost use Rattle.wc_session.specs.Names.{buffer_named};

use wc_buffers::Buffers;
use wc_text::Handle;

/// The number that hex digits of either case write. None where they are none, or the number needs
/// more than 64 bits.
fn hex_number(digits: &[u8]) -> Option<u64>
    ensures { result ≡ hex_number digits.now }
{
    if digits.is_empty() {
        return None;
    }
    let mut value: u64 = 0;
    for b in digits {
        let digit = char::from(*b).to_digit(16)?;
        value = value.checked_mul(16)?.checked_add(u64::from(digit))?;
    }
    Some(value)
}

/// The handle that `0x` and hex digits name.
fn handle_named(name: &[u8]) -> Option<u64>
    ensures { result ≡ handle_named name.now }
{
    hex_number(name.strip_prefix(b"0x")?)
}

fn is_there(buffers: &Buffers, buffer: Handle) -> bool
    ensures { result ≡ is_there buffer buffers.now }
{
    match buffers.get(buffer) {
        Some(_) => true,
        None => false,
    }
}

fn if_there(buffers: &Buffers, handle: u64) -> Option<Handle>
    ensures { result ≡ if_there buffers.now handle }
{
    let buffer = Handle(handle);
    if !is_there(buffers, buffer) {
        return None;
    }
    Some(buffer)
}

/// The buffer that a text names, by its handle or by its full name. None exactly where there is no
/// such buffer.
#[tactic(auto, unfolding(crate::specs::Names::buffer_named))]
pub fn buffer_named(buffers: &Buffers, name: &[u8]) -> Option<Handle>
    ensures { result ≡ buffer_named buffers.now name.now }
{
    match handle_named(name) {
        Some(handle) => if_there(buffers, handle),
        None => buffers.find(name),
    }
}
