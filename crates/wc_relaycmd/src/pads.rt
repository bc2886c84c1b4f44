//! Blocks of bytes, as HMAC uses them.

ghost use Rattle.std.specs.Prelude.{◌≡◌, ◌≤◌, length};
ghost use Rattle.wc_relaycmd.specs.Pbkdf2.{with_zeros, with_pad, xor_each};

/// The key with zeros after it, up to a whole block.
pub(crate) fn with_zeros<const N: usize>(key: &[u8]) -> [u8; N]
    requires { length key.now ≤ N }
    ensures { result ≡ with_zeros N key.now }
{
    let mut block = [0u8; N];
    block[..key.len()].copy_from_slice(key);
    block
}

/// Each byte of the block with the pad.
pub(crate) fn with_pad<const N: usize>(block: &[u8; N], pad: u8) -> [u8; N]
    ensures { result ≡ with_pad pad block.now }
{
    let mut out = *block;
    'bytes: for i in 0..N {
        out[i] = block[i] ^ pad;
    }
    out
}

/// Puts another text onto a text, byte by byte.
pub(crate) fn xor_into<const N: usize>(total: &mut [u8; N], other: &[u8; N])
    ensures { total.new ≡ xor_each total.old other.now }
{
    'bytes: for i in 0..N {
        total[i] ^= other[i];
    }
}
