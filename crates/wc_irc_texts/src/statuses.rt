ghost use Rattle.std.specs.Prelude.{◌≡◌};
ghost use Rattle.wc_irc_texts.specs.Statuses.{status_signs, has_status, first_byte, past_byte};
ghost use Rattle.wc_irc_texts.specs.Statuses.{status_sign, whole_channel};

use crate::features::Features;
use crate::modes::has_letter;
use crate::names::is_channel;

/// The signs that may be before a channel.
fn status_signs(features: &Features) -> &[u8]
    ensures { result.now ≡ status_signs features.now }
{
    match &features.status_msg {
        Some(signs) => signs.as_slice(),
        None => features.prefixes.chars.as_slice(),
    }
}

/// Whether a target is no channel itself, and a channel after one of these signs.
fn has_status(features: &Features, target: &[u8]) -> bool
    ensures { result ≡ has_status features.now target.now }
{
    let chan_types = features.chan_types.as_slice();
    match target {
        [sign, channel @ ..] => {
            !is_channel(chan_types, target)
                && has_letter(*sign, status_signs(features))
                && is_channel(chan_types, channel)
        }
        [] => false,
    }
}

fn first_byte(target: &[u8]) -> &[u8]
    ensures { result.now ≡ first_byte target.now }
{
    match target {
        [_, ..] => &target[..1],
        [] => &[],
    }
}

fn past_byte(target: &[u8]) -> &[u8]
    ensures { result.now ≡ past_byte target.now }
{
    match target {
        [_, channel @ ..] => channel,
        [] => &[],
    }
}

/// The sign before a channel, as in `@#a`, which stands for those of its nicks that have the sign
/// (STATUSMSG of 005, or else PREFIX). Nothing where the target is another one.
#[tactic(auto, unfolding(crate::specs::Statuses::status_sign))]
pub fn status_sign<'a>(features: &Features, target: &'a [u8]) -> &'a [u8]
    ensures { result.now ≡ status_sign features.now target.now }
{
    if has_status(features, target) {
        first_byte(target)
    } else {
        &[]
    }
}

/// The channel of such a target, and another target as it is.
#[tactic(auto, unfolding(crate::specs::Statuses::whole_channel))]
pub fn whole_channel<'a>(features: &Features, target: &'a [u8]) -> &'a [u8]
    ensures { result.now ≡ whole_channel features.now target.now }
{
    if has_status(features, target) {
        past_byte(target)
    } else {
        target
    }
}
