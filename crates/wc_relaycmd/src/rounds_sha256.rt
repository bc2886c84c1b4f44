ghost use Rattle.std.specs.Prelude.{◌≡◌, ℕ, List, ◌≤◌, ◌++◌};
ghost use Rattle.sha2.specs.Hashers.{Holds256};
ghost use Rattle.sha2.specs.Sha256.{sha256};
ghost use Rattle.wc_relaycmd.specs.Pbkdf2.{key_block, with_pad, hmac_of_block, sha256_key};

use crate::pads::{with_pad, with_zeros, xor_into};
use sha2::{Digest, Sha256};

/// The hashers that have taken the block of the key with each of the two pads.
#[derive(Drop)]
struct KeyHashers {
    inner: Sha256,
    outer: Sha256,
}

fn block_of(key: &[u8]) -> [u8; 64]
    ensures { result ≡ key_block sha256 64 key.now }
{
    if key.len() > 64 {
        with_zeros(&Sha256::digest(key))
    } else {
        with_zeros(key)
    }
}

fn hashers_of(key: &[u8]) -> KeyHashers
    ensures inner { Holds256 result.inner (with_pad 0x36 (key_block sha256 64 key.now)) }
    ensures outer { Holds256 result.outer (with_pad 0x5C (key_block sha256 64 key.now)) }
{
    let block = block_of(key);
    let inner = Sha256::new_with_prefix(with_pad(&block, 0x36));
    let outer = Sha256::new_with_prefix(with_pad(&block, 0x5C));
    KeyHashers { inner, outer }
}

fn copy_of(hasher: &Sha256) -> Sha256
    ensures { result ≡ hasher.now }
{
    match hasher.clone() {
        Ok(copy) => copy,
        Err(_) => Sha256::new(),
    }
}

/// The digest of what the hasher has taken, and of two pieces after it.
fn digest_after(hasher: &Sha256, first: &[u8], second: &[u8]) -> [u8; 32]
    ensures { (m : List ℕ) → Holds256 hasher.now m → result ≡ sha256 (m ++ first.now
        ++ second.now) }
{
    let mut copy = copy_of(hasher);
    copy.update(first);
    copy.update(second);
    copy.finalize()
}

/// The code of two pieces taken as one text.
fn code_of(hashers: &KeyHashers, first: &[u8], second: &[u8]) -> [u8; 32]
    ensures { (block : List ℕ) → Holds256 hashers.now.inner (with_pad 0x36 block) →
        Holds256 hashers.now.outer (with_pad 0x5C block) →
        result ≡ hmac_of_block sha256 block (first.now ++ second.now) }
{
    let digest = digest_after(&hashers.inner, first, second);
    digest_after(&hashers.outer, &digest, &[])
}

/// The first block of PBKDF2 (RFC 8018) by HMAC over SHA-256, of at least one round. It takes no
/// memory.
#[tactic(auto, unfolding(crate::specs::Pbkdf2::pbkdf2))]
pub fn pbkdf2_sha256(password: &[u8], salt: &[u8], rounds: u32) -> [u8; 32]
    requires { 1 ≤ rounds }
    ensures { result ≡ sha256_key password.now salt.now rounds }
{
    let hashers = hashers_of(password);
    let mut code = code_of(&hashers, salt, &[0, 0, 0, 1]);
    let mut total = code;
    for i in 1..rounds {
        code = code_of(&hashers, &code, &[]);
        xor_into(&mut total, &code);
    }
    total
}
