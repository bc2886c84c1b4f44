//! The options that a session heeds.

ghost use Rattle.std.specs.Prelude.{◌≡◌};
ghost use Rattle.wc_session.specs.Heeded.{option_value, password_of, masks_of, most_unsent};

use wc_options::{Options, number_in};

/// The value of the option with a name, which is empty where there is none.
pub fn option_value<'a>(options: &'a Options, name: &[u8]) -> &'a [u8]
    ensures { result.now ≡ option_value options.now name.now }
{
    match options.get(name) {
        Some(value) => value.as_slice(),
        None => b"",
    }
}

/// The password that is set.
#[tactic(auto, unfolding(crate::specs::Heeded::password_of))]
pub fn password_of(options: &Options) -> &[u8]
    ensures { result.now ≡ password_of options.now }
{
    option_value(options, b"relay.network.password")
}

/// The algorithms that are allowed, as masks.
#[tactic(auto, unfolding(crate::specs::Heeded::masks_of))]
pub fn masks_of(options: &Options) -> &[u8]
    ensures { result.now ≡ masks_of options.now }
{
    option_value(options, b"relay.network.password_hash_algo")
}

/// The option of how many megabytes of unsent bytes a client may have.
const MAX_UNSENT: &[u8] = b"relay.network.max_unsent";

const MEGABYTE: usize = 1_048_576;

/// How many unsent bytes a client may have, where that is bounded. The option has megabytes, of which
/// none are no bound.
#[tactic(auto, unfolding(crate::specs::Heeded::most_unsent))]
pub fn most_unsent(options: &Options) -> Option<usize>
    ensures { result ≡ most_unsent options.now }
{
    match number_in(option_value(options, MAX_UNSENT), 1, 4096) {
        Some(megabytes) => Some(megabytes as usize * MEGABYTE),
        None => None,
    }
}
