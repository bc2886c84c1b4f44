ghost use Rattle.std.specs.Prelude.{◌≡◌, ◌≤◌, ◌==◌, length};
ghost use Rattle.std.specs.List.{position_or_len};

/// The first place of the byte, or the length where it is nowhere.
pub(crate) fn place_of(byte: u8, bytes: &[u8]) -> usize
    ensures place { result ≡ position_or_len (λ b. b == byte) bytes.now }
    ensures within { result ≤ length bytes.now }
{
    bytes.iter().position(|b| *b == byte).unwrap_or(bytes.len())
}
