ghost use Rattle.std.specs.Prelude.{◌≡◌, ◌≤◌, ◌<◌, IsTrue, false};
ghost use Rattle.std.specs.Str.{IsUtf8};
ghost use Rattle.wc_text.specs.Cut.{cut_of};

/// The length of the longest front of whole characters that is not longer than the limit, in bytes.
pub fn cut(text: &[u8], limit: usize) -> usize
    requires { IsUtf8 text.now }
    ensures { result ≡ cut_of text.now limit }
{
    if text.len() <= limit {
        return text.len();
    }
    let mut end = limit;
    while end > 0 && is_within_char(text[end]) {
        end -= 1;
    }
    end
}

/// Whether the byte is in a character after its first byte.
fn is_within_char(byte: u8) -> bool
    ensures within { IsTrue result → (128 ≤ byte) × (byte < 192) }
    ensures begins { result ≡ false → 128 ≤ byte → 192 ≤ byte }
{
    byte & 0xC0 == 0x80
}
