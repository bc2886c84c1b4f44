ghost use Rattle.std.specs.Prelude.{◌≡◌, ◌&&◌, ◌++◌, ◌∷◌, [], map, IfOk, OnOk, OnErr};
ghost use Rattle.wc_irc.specs.Channels.{joined};
ghost use Rattle.wc_irc.specs.ChannelStates.{may_have, renamed, own_after, after_nick};
ghost use Rattle.wc_irc.specs.ReadySeen.{given, give_each, CanGive, AllCanGive, IsReady, AreReady};
ghost use Rattle.wc_irc_nicks.specs.Seats.{has_seat};
ghost use Rattle.wc_irc.specs.ServersSeen.{seen};

use crate::channel::Channel;
use crate::state::State;
use std::alloc::Global;
use wc_irc_nicks::NewNick;
use wc_ircmsg::Prefixes;
use wc_text::{NoMemory, Text};

/// Whether a nick of a channel gets another name.
fn gets(channel: &Channel, prefixes: &Prefixes, old: &[u8], new: &[u8]) -> bool
    ensures { result ≡ (has_seat channel.now.nicks.case_map old.now channel.now.nicks.seats
        && may_have prefixes.now old.now new.now (joined channel.now)) }
{
    channel.nicks.has(old) && channel.may_have(prefixes, old, new)
}

/// Another name for a nick of a channel, with the memory that it takes. None where the nick goes or
/// is not there.
fn ready_name(
    channel: &mut Channel,
    alloc: Global,
    prefixes: &Prefixes,
    old: &[u8],
    new: &[u8],
) -> Result<Option<NewNick>, NoMemory>
    ensures ready { IfOk result (λ next. IsReady prefixes.now old.now new.now channel.new next) }
    ensures same { joined channel.new ≡ joined channel.old }
{
    if !gets(channel, prefixes, old, new) {
        return Ok(None);
    }
    channel.nicks.reserve(1)?;
    let next = NewNick::new(alloc, channel.nicks.case_map(), new)?;
    Ok(Some(next))
}

fn put_name(names: &mut Vec<Option<NewNick>>, next: Option<NewNick>) -> Result<(), NoMemory>
    ensures { OnOk result (names.new.items ≡ names.old.items ++ next ∷ []) }
{
    names.reserve(1)?;
    names.push_reserved(next);
    Ok(())
}

/// The same for each channel.
fn ready_names(
    channels: &mut [Channel],
    alloc: Global,
    prefixes: &Prefixes,
    old: &[u8],
    new: &[u8],
) -> Result<Vec<Option<NewNick>>, NoMemory>
    ensures ready { IfOk result (λ names. AreReady prefixes.now old.now new.now channels.new
        names.items) }
    ensures same { map joined channels.new ≡ map joined channels.old }
{
    let mut names = Vec::new(alloc);
    for channel in channels {
        let next = ready_name(channel, alloc, prefixes, old, new)?;
        put_name(&mut names, next)?;
    }
    Ok(names)
}

/// Gives a nick the name that is ready, or takes it out where none is. It takes no memory.
fn give(channel: &mut Channel, old: &[u8], next: Option<NewNick>)
    requires { CanGive old.now channel.old next }
    ensures { joined channel.new ≡ given old.now next (joined channel.old) }
{
    match next {
        Some(next) => channel.nicks.rename(old, next),
        None => channel.nicks.remove(old),
    }
}

/// The same on each channel.
fn give_all(channels: &mut [Channel], old: &[u8], names: Vec<Option<NewNick>>)
    requires { AllCanGive old.now channels.old names.items }
    ensures { map joined channels.new ≡ give_each old.now names.items (map joined channels.old) }
{
    let mut place = 0;
    for next in names {
        give(&mut channels[place], old, next);
        place += 1;
    }
}

fn rename_all(
    channels: &mut [Channel],
    alloc: Global,
    prefixes: &Prefixes,
    old: &[u8],
    new: &[u8],
) -> Result<(), NoMemory>
    ensures after { OnOk result (map joined channels.new
        ≡ map (renamed prefixes.now old.now new.now) (map joined channels.old)) }
    ensures unchanged { OnErr result (map joined channels.new ≡ map joined channels.old) }
{
    let names = ready_names(channels, alloc, prefixes, old, new)?;
    give_all(channels, old, names);
    Ok(())
}

impl State {
    fn own_after<'a>(&'a self, old: &[u8], new: &'a [u8]) -> &'a [u8]
        ensures { result.now ≡ own_after (seen self.now) old.now new.now }
    {
        if self.is_own(old) {
            self.own_nick_from(new)
        } else {
            self.nick.as_slice()
        }
    }

    /// Takes in that a nick has another name. All memory is taken before a channel is changed.
    pub(crate) fn rename(&mut self, alloc: Global, old: &[u8], new: &[u8]) -> Result<(), NoMemory>
        ensures after { OnOk result (seen self.new ≡ after_nick (seen self.old) old.now new.now) }
        ensures unchanged { OnErr result (seen self.new ≡ seen self.old) }
    {
        let nick = Text::from_slice(alloc, self.own_after(old, new))?;
        rename_all(&mut self.channels, alloc, &self.features.prefixes, old, new)?;
        self.nick = nick;
        Ok(())
    }
}
