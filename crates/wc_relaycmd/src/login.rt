ghost use Rattle.std.specs.Option.{option_copied};
ghost use Rattle.std.specs.Prelude.{◌≡◌, ◌++◌, ◌↔◌, IsTrue, IfOk, Some};
ghost use Rattle.sha2.specs.Sha256.{sha256};
ghost use Rattle.sha2.specs.Sha512.{sha512};
ghost use Rattle.wc_relaycmd.specs.declared.algorithm.Algorithm.TheVariants.{Pbkdf2Sha256, Pbkdf2Sha512};
ghost use Rattle.wc_relaycmd.specs.Logins.{hash_named, rounds_named, rounds_in, bytes_in};
ghost use Rattle.wc_relaycmd.specs.Logins.{hash_from, hash_of, login_of};
ghost use Rattle.wc_relaycmd.specs.Logins.{round_count, IsDigestOf, IsSalted, Proves, LetsIn};

use crate::algorithm::Algorithm;
use crate::lists::last_value;
use crate::rounds_sha256::pbkdf2_sha256;
use crate::rounds_sha512::pbkdf2_sha512;
use hex::FromHexError;
use sha2::{Digest, Sha256, Sha512};
use std::alloc::Global;
use wc_text::{Items, NoMemory, Pair, Text, read_i64, split_once};

/// How many rounds PBKDF2 takes here.
const ROUNDS: u32 = 100_000;

/// What a client gives to be let in.
#[derive(Drop)]
pub struct Login {
    pub password: Option<Text>,
    /// Where it is given it alone decides.
    pub hash: Option<HashLogin>,
}

/// A hash of a salt and the password. The salt and the hash are bytes, and no text.
#[derive(Drop)]
pub struct HashLogin {
    pub algorithm: Algorithm,
    /// How often it was hashed, where the algorithm hashes in rounds, else 0.
    pub rounds: u32,
    pub salt: Text,
    pub hash: Text,
}

fn hash_named(name: &[u8]) -> Option<Algorithm>
    ensures { result ≡ hash_named name.now }
{
    if name == Algorithm::Sha256.name() {
        return Some(Algorithm::Sha256);
    }
    if name == Algorithm::Sha512.name() {
        return Some(Algorithm::Sha512);
    }
    None
}

fn rounds_named(name: &[u8]) -> Option<Algorithm>
    ensures { result ≡ rounds_named name.now }
{
    if name == Algorithm::Pbkdf2Sha256.name() {
        return Some(Algorithm::Pbkdf2Sha256);
    }
    if name == Algorithm::Pbkdf2Sha512.name() {
        return Some(Algorithm::Pbkdf2Sha512);
    }
    None
}

/// The number of rounds that a text counts.
#[tactic(auto, unfolding(crate::specs::Logins::rounds_in))]
fn rounds_in(text: &[u8]) -> Option<u32>
    ensures { result ≡ rounds_in text.now }
{
    u32::try_from(read_i64(text)?).ok()
}

/// The bytes that hex digits of either case write. None where they are no pairs of digits.
fn hex_bytes(alloc: Global, digits: &[u8]) -> Result<Option<Text>, NoMemory>
    ensures { IfOk result (λ bytes. bytes ≡ bytes_in digits.now) }
{
    match hex::decode(alloc, digits) {
        Ok(bytes) => Ok(Some(Text::from_slice(alloc, bytes.as_slice())?)),
        Err(FromHexError::OutOfMemory) => Err(NoMemory),
        Err(_) => Ok(None),
    }
}

#[tactic(auto, unfolding(crate::specs::Logins::hash_from))]
fn hash_from(
    alloc: Global,
    algorithm: Option<Algorithm>,
    rounds: Option<u32>,
    salt: &[u8],
    hash: &[u8],
) -> Result<Option<HashLogin>, NoMemory>
    ensures { IfOk result (λ login. login ≡ hash_from algorithm rounds salt.now hash.now) }
{
    let Some(algorithm) = algorithm else {
        return Ok(None);
    };
    let Some(rounds) = rounds else {
        return Ok(None);
    };
    let Some(salt) = hex_bytes(alloc, salt)? else {
        return Ok(None);
    };
    let Some(hash) = hex_bytes(alloc, hash)? else {
        return Ok(None);
    };
    Ok(Some(HashLogin {
        algorithm,
        rounds,
        salt,
        hash,
    }))
}

/// The hash login that a text of the form `algorithm:salt:hash` or `algorithm:salt:rounds:hash`
/// writes.
fn read_hash(alloc: Global, text: &[u8]) -> Result<Option<HashLogin>, NoMemory>
    ensures { IfOk result (λ login. login ≡ hash_of text.now) }
{
    let (name, text_after) = split_once(text, b':');
    let Some(text_after) = text_after else {
        return Ok(None);
    };
    let (salt, text_after) = split_once(text_after, b':');
    let Some(text_after) = text_after else {
        return Ok(None);
    };
    let (third, text_after) = split_once(text_after, b':');
    let Some(text_after) = text_after else {
        return hash_from(alloc, hash_named(name), Some(0), salt, third);
    };
    let (hash, more) = split_once(text_after, b':');
    if let Some(_) = more {
        return Ok(None);
    }
    hash_from(alloc, rounds_named(name), rounds_in(third), salt, hash)
}

fn copy_of(alloc: Global, text: Option<&Text>) -> Result<Option<Text>, NoMemory>
    ensures { IfOk result (λ copy. copy ≡ option_copied text.entry) }
{
    match text {
        Some(text) => Ok(Some(text.copy(alloc)?)),
        None => Ok(None),
    }
}

/// The login that the pairs of `init` write. Of a repeated name the last counts, and unknown names
/// are ignored. None exactly where a `password_hash` is given that is not `sha256:SALT:HASH`,
/// `sha512:SALT:HASH`, `pbkdf2+sha256:SALT:ROUNDS:HASH` or `pbkdf2+sha512:SALT:ROUNDS:HASH`, the
/// salt and the hash in hex and the rounds a number of at most 32 bits.
#[tactic(auto, unfolding(crate::specs::Logins::login_of))]
pub fn read_login(alloc: Global, pairs: &Items<Pair>) -> Result<Option<Login>, NoMemory>
    ensures { IfOk result (λ login. login ≡ login_of pairs.now) }
{
    let password = copy_of(alloc, last_value(pairs, b"password"))?;
    let Some(text) = last_value(pairs, b"password_hash") else {
        return Ok(Some(Login {
            password,
            hash: None,
        }));
    };
    let Some(hash) = read_hash(alloc, text.as_slice())? else {
        return Ok(None);
    };
    Ok(Some(Login {
        password,
        hash: Some(hash),
    }))
}

/// Whether a digest is the SHA-256 of the salt and the password after it.
fn is_sha256(digest: &[u8], salt: &[u8], password: &[u8]) -> bool
    ensures { IsTrue result ↔ (digest.now ≡ sha256 (salt.now ++ password.now)) }
{
    let mut hasher = Sha256::new();
    hasher.update(salt);
    hasher.update(password);
    let made = hasher.finalize();
    is_same_secret(digest, made.as_slice())
}

/// Whether a digest is the SHA-512 of the salt and the password after it.
fn is_sha512(digest: &[u8], salt: &[u8], password: &[u8]) -> bool
    ensures { IsTrue result ↔ (digest.now ≡ sha512 (salt.now ++ password.now)) }
{
    let mut hasher = Sha512::new();
    hasher.update(salt);
    hasher.update(password);
    let made = hasher.finalize();
    is_same_secret(digest, made.as_slice())
}

/// Whether a hash was made in as many rounds as are taken here.
fn has_rounds(login: &HashLogin) -> bool
    ensures { IsTrue result ↔ (login.now.rounds ≡ round_count) }
{
    login.rounds == ROUNDS
}

/// Whether a hash is that of PBKDF2 over SHA-256, in as many rounds as are taken here.
fn is_sha256_key(login: &HashLogin, password: &[u8]) -> bool
    ensures { IsTrue result ↔ IsDigestOf Pbkdf2Sha256 login.now.salt password.now
        login.now.rounds login.now.hash }
{
    if !has_rounds(login) {
        return false;
    }
    let made = pbkdf2_sha256(password, login.salt.as_slice(), login.rounds);
    is_same_secret(login.hash.as_slice(), made.as_slice())
}

/// Whether a hash is that of PBKDF2 over SHA-512, in as many rounds as are taken here.
fn is_sha512_key(login: &HashLogin, password: &[u8]) -> bool
    ensures { IsTrue result ↔ IsDigestOf Pbkdf2Sha512 login.now.salt password.now
        login.now.rounds login.now.hash }
{
    if !has_rounds(login) {
        return false;
    }
    let made = pbkdf2_sha512(password, login.salt.as_slice(), login.rounds);
    is_same_secret(login.hash.as_slice(), made.as_slice())
}

/// Whether the hash of a login is that of its salt and the password by an algorithm.
fn is_digest(algorithm: Algorithm, login: &HashLogin, password: &[u8]) -> bool
    ensures { IsTrue result ↔ IsDigestOf algorithm login.now.salt password.now login.now.rounds
        login.now.hash }
{
    let salt = login.salt.as_slice();
    let hash = login.hash.as_slice();
    match algorithm {
        Algorithm::Plain => false,
        Algorithm::Sha256 => is_sha256(hash, salt, password),
        Algorithm::Sha512 => is_sha512(hash, salt, password),
        Algorithm::Pbkdf2Sha256 => is_sha256_key(login, password),
        Algorithm::Pbkdf2Sha512 => is_sha512_key(login, password),
    }
}

/// Whether a salt begins with the nonce and has at least one byte more.
fn is_salted(salt: &[u8], nonce: &[u8]) -> bool
    ensures { IsTrue result ↔ IsSalted salt.now nonce.now }
{
    match salt.strip_prefix(nonce) {
        Some(more) => !more.is_empty(),
        None => false,
    }
}

fn proves(login: &HashLogin, password: &[u8], nonce: &[u8], chosen: Algorithm) -> bool
    ensures { IsTrue result ↔ Proves login.now password.now nonce.now chosen }
{
    if login.algorithm != chosen {
        return false;
    }
    if !is_salted(login.salt.as_slice(), nonce) {
        return false;
    }
    is_digest(chosen, login, password)
}

fn is_password(given: &Option<Text>, password: &[u8]) -> bool
    ensures { IsTrue result ↔ (given.now ≡ Some password.now) }
{
    match given {
        Some(given) => is_same_secret(given.as_slice(), password),
        None => false,
    }
}

/// Whether a login is let in, where `password` is the one that is set and `nonce` and `chosen` are
/// those of the handshake. It takes no memory.
///
/// Nobody is let in where the password that is set is empty. A hash has to be of the chosen
/// algorithm, its salt has to begin with the nonce and have at least one byte more, and the hash
/// has to be that of the salt's bytes followed by the password's, or for `pbkdf2+sha256` and
/// `pbkdf2+sha512` the key of the password and the salt in 100,000 rounds (RFC 8018). Without a
/// hash the password itself has to be given, and `plain` be chosen.
pub fn check_login(login: &Login, password: &[u8], nonce: &[u8; 16], chosen: Algorithm) -> bool
    ensures { IsTrue result ↔ LetsIn login.now password.now nonce.now chosen }
{
    if password.is_empty() {
        return false;
    }
    match &login.hash {
        Some(hash) => proves(hash, password, nonce, chosen),
        None => chosen == Algorithm::Plain && is_password(&login.password, password),
    }
}

/// Whether two secrets are the same bytes.
///
/// Where their lengths are equal each byte is looked at, whatever the bytes before it are, so that
/// the time that the comparison takes does not tell how much of a guess is right. That is how it is
/// written; no proof speaks of time.
pub fn is_same_secret(given: &[u8], kept: &[u8]) -> bool
    ensures { IsTrue result ↔ (given.now ≡ kept.now) }
{
    if given.len() != kept.len() {
        return false;
    }
    let mut difference = 0u8;
    for (x, y) in given.iter().zip(kept) {
        difference |= *x ^ *y;
    }
    difference == 0
}
