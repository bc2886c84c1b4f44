ghost use Rattle.std.specs.Option.{option_copied};
ghost use Rattle.std.specs.Prelude.{◌≡◌, codes};
ghost use Rattle.wc_buffers.specs.Calls.{vars_at};
ghost use Rattle.wc_buffers.specs.Vars.{value_of};
ghost use Rattle.wc_irc.specs.CommandActs.{is_kind, place_of, place_in, channel_in, target_in};
ghost use Rattle.wc_irc.specs.CommandActs.{takes_text};
ghost use Rattle.wc_irc.specs.CommandSeen.{place_seen, IsPlaceUtf8};

use crate::talk_acts::has_value;
use wc_buffers::{Buffers, Vars};
use wc_text::Handle;

/// Where a command is typed, by the variables of the buffer.
#[derive(Clone, Copy)]
pub(crate) enum Place<'a> {
    /// The buffer of a channel, which a variable names, where there is one.
    Channel(Option<&'a [u8]>),
    /// The buffer of a nick, which the same variable names.
    Private(Option<&'a [u8]>),
    Elsewhere,
}

impl<'a> Place<'a> {
    /// The channel, where it is the buffer of one.
    pub(crate) fn channel(self) -> Option<&'a [u8]>
        ensures { option_copied result ≡ channel_in (place_seen self.entry) }
    {
        match self {
            Place::Channel(channel) => channel,
            Place::Private(_) | Place::Elsewhere => None,
        }
    }

    /// The channel or the nick, where it is the buffer of one.
    pub(crate) fn target(self) -> Option<&'a [u8]>
        ensures { option_copied result ≡ target_in (place_seen self.entry) }
    {
        match self {
            Place::Channel(channel) => channel,
            Place::Private(nick) => nick,
            Place::Elsewhere => None,
        }
    }

    /// Whether a text that is no command may be typed there.
    pub(crate) fn takes_text(self) -> bool
        ensures { result ≡ takes_text (place_seen self.entry) }
    {
        match self {
            Place::Channel(_) | Place::Private(_) => true,
            Place::Elsewhere => false,
        }
    }
}

fn is_kind(vars: &Vars, kind: &[u8]) -> bool
    ensures { result ≡ is_kind kind.now vars.now }
{
    has_value(vars, b"type", kind)
}

fn target_var(vars: &Vars) -> Option<&[u8]>
    ensures { option_copied result ≡ value_of (codes "channel") vars.now }
{
    match vars.get(b"channel") {
        Some(target) => Some(target.as_slice()),
        None => None,
    }
}

fn place_of(vars: &Vars) -> Place<'_>
    ensures { place_seen result ≡ place_of vars.now }
{
    if is_kind(vars, b"channel") {
        Place::Channel(target_var(vars))
    } else if is_kind(vars, b"private") {
        Place::Private(target_var(vars))
    } else {
        Place::Elsewhere
    }
}

/// Where a command is typed that is typed into this buffer.
#[tactic(auto, using(crate::proofs::ErrandLemmas::place_utf8))]
pub(crate) fn place_at(buffers: &Buffers, buffer: Handle) -> Place<'_>
    ensures place { place_seen result ≡ place_in (vars_at buffer buffers.now) }
    ensures text { IsPlaceUtf8 (place_seen result) }
{
    let _ = buffers.groups();
    match buffers.vars(buffer) {
        Some(vars) => place_of(vars),
        None => Place::Elsewhere,
    }
}
