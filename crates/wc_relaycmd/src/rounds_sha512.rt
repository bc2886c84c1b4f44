ghost use Rattle.std.specs.Prelude.{◌≡◌, ℕ, List, ◌≤◌, ◌++◌};
ghost use Rattle.sha2.specs.Hashers.{Holds512};
ghost use Rattle.sha2.specs.Sha512.{sha512};
ghost use Rattle.wc_relaycmd.specs.Pbkdf2.{key_block, with_pad, hmac_of_block, sha512_key};

use crate::pads::{with_pad, with_zeros, xor_into};
use sha2::{Digest, Sha512};

/// The hashers that have taken the block of the key with each of the two pads.
#[derive(Drop)]
struct KeyHashers {
    inner: Sha512,
    outer: Sha512,
}

fn block_of(key: &[u8]) -> [u8; 128]
    ensures { result ≡ key_block sha512 128 key.now }
{
    if key.len() > 128 {
        with_zeros(&Sha512::digest(key))
    } else {
        with_zeros(key)
    }
}

fn hashers_of(key: &[u8]) -> KeyHashers
    ensures inner { Holds512 result.inner (with_pad 0x36 (key_block sha512 128 key.now)) }
    ensures outer { Holds512 result.outer (with_pad 0x5C (key_block sha512 128 key.now)) }
{
    let block = block_of(key);
    let inner = Sha512::new_with_prefix(with_pad(&block, 0x36));
    let outer = Sha512::new_with_prefix(with_pad(&block, 0x5C));
    KeyHashers { inner, outer }
}

fn copy_of(hasher: &Sha512) -> Sha512
    ensures { result ≡ hasher.now }
{
    match hasher.clone() {
        Ok(copy) => copy,
        Err(_) => Sha512::new(),
    }
}

/// The digest of what the hasher has taken, and of two pieces after it.
fn digest_after(hasher: &Sha512, first: &[u8], second: &[u8]) -> [u8; 64]
    ensures { (m : List ℕ) → Holds512 hasher.now m → result ≡ sha512 (m ++ first.now
        ++ second.now) }
{
    let mut copy = copy_of(hasher);
    copy.update(first);
    copy.update(second);
    copy.finalize()
}

/// The code of two pieces taken as one text.
fn code_of(hashers: &KeyHashers, first: &[u8], second: &[u8]) -> [u8; 64]
    ensures { (block : List ℕ) → Holds512 hashers.now.inner (with_pad 0x36 block) →
        Holds512 hashers.now.outer (with_pad 0x5C block) →
        result ≡ hmac_of_block sha512 block (first.now ++ second.now) }
{
    let digest = digest_after(&hashers.inner, first, second);
    digest_after(&hashers.outer, &digest, &[])
}

/// The first block of PBKDF2 (RFC 8018) by HMAC over SHA-512, of at least one round. It takes no
/// memory.
#[tactic(auto, unfolding(crate::specs::Pbkdf2::pbkdf2))]
pub fn pbkdf2_sha512(password: &[u8], salt: &[u8], rounds: u32) -> [u8; 64]
    requires { 1 ≤ rounds }
    ensures { result ≡ sha512_key password.now salt.now rounds }
{
    let hashers = hashers_of(password);
    let mut code = code_of(&hashers, salt, &[0, 0, 0, 1]);
    let mut total = code;
    for i in 1..rounds {
        code = code_of(&hashers, &code, &[]);
        xor_into(&mut total, &code);
    }
    total
}
