ghost use Rattle.std.specs.Prelude.{◌≡◌};
ghost use Rattle.wc_relaycmd.specs.Choices.{algorithm_name, is_offered, is_allowed, is_common};
ghost use Rattle.wc_relaycmd.specs.Choices.{choice_of};

use wc_text::mask_matches;

/// How a client proves that it knows the password.
#[derive(Clone, Copy, Debug, PartialEq, Eq)]
pub enum Algorithm {
    /// By the password itself.
    Plain,
    /// By the SHA-256 of a salt and the password.
    Sha256,
    /// By the SHA-512 of a salt and the password.
    Sha512,
    /// By PBKDF2 over SHA-256, of the password and a salt.
    Pbkdf2Sha256,
    /// By PBKDF2 over SHA-512, of the password and a salt.
    Pbkdf2Sha512,
}

impl Algorithm {
    /// How the algorithm is written.
    pub fn name(self) -> &'static [u8]
        ensures { result.now ≡ algorithm_name self }
    {
        match self {
            Algorithm::Plain => b"plain",
            Algorithm::Sha256 => b"sha256",
            Algorithm::Sha512 => b"sha512",
            Algorithm::Pbkdf2Sha256 => b"pbkdf2+sha256",
            Algorithm::Pbkdf2Sha512 => b"pbkdf2+sha512",
        }
    }
}

fn is_offered(offered: &[u8], name: &[u8]) -> bool
    ensures { result ≡ is_offered offered.now name.now }
{
    offered.split(|b| *b == b':').any(|piece| piece == name)
}

fn is_allowed(allowed: &[u8], name: &[u8]) -> bool
    ensures { result ≡ is_allowed allowed.now name.now }
{
    allowed
        .split(|b| *b == b',')
        .any(|mask| mask_matches(mask, name, false))
}

#[tactic(auto, unfolding(crate::specs::Choices::is_common))]
fn is_common(offered: &[u8], allowed: &[u8], algorithm: Algorithm) -> bool
    ensures { result ≡ is_common offered.now allowed.now algorithm }
{
    is_offered(offered, algorithm.name()) && is_allowed(allowed, algorithm.name())
}

/// The strongest algorithm that is in the client's list, whose names colons part, and is allowed:
/// some mask of the option, whose masks commas part, matches its name with case kept. None where
/// there is no such algorithm.
pub fn choose_algorithm(offered: &[u8], allowed: &[u8]) -> Option<Algorithm>
    ensures { result ≡ choice_of offered.now allowed.now }
{
    [
        Algorithm::Pbkdf2Sha512,
        Algorithm::Pbkdf2Sha256,
        Algorithm::Sha512,
        Algorithm::Sha256,
        Algorithm::Plain,
    ]
    .iter()
    .copied()
    .find(|algorithm| is_common(offered, allowed, *algorithm))
}
