ghost use Rattle.std.specs.Prelude.{◌≡◌, ◌++◌, map, true, false, IfOk, OnOk};
ghost use Rattle.wc_irc.specs.NickActs.{item, add_group, add_groups, add_nick, remove_nick};
ghost use Rattle.wc_irc.specs.NickActs.{emptied};

use crate::act::Act;
use std::alloc::Global;
use wc_irc_nicks::Members;
use wc_irc_texts::{group_at, group_names, sign_at};
use wc_ircmsg::Prefixes;
use wc_model::What;
use wc_nicklist::Item;
use wc_text::{Handle, Items, NoMemory, Text};

/// A group or a nick before its handle is drawn.
fn item(
    alloc: Global,
    is_group: bool,
    level: u64,
    name: &[u8],
    sign: &[u8],
) -> Result<Item, NoMemory>
    ensures { IfOk result (λ made. made ≡ item is_group level name.now sign.now) }
{
    let name = Text::from_slice(alloc, name)?;
    let prefix = Text::from_slice(alloc, sign)?;
    Ok(Item {
        handle: Handle(0),
        is_group,
        visible: true,
        level,
        name,
        color: Text::new(alloc),
        prefix,
        prefix_color: Text::new(alloc),
    })
}

fn add_group(alloc: Global, buffer: &[u8], name: &[u8]) -> Result<Act, NoMemory>
    ensures { IfOk result (λ a. a ≡ add_group buffer.now name.now) }
{
    let full_name = Text::from_slice(alloc, buffer)?;
    let parent = Text::from_slice(alloc, b"root")?;
    let item = item(alloc, true, 1, name, b"")?;
    Ok(Act::On {
        full_name,
        what: What::AddGroup { parent, item },
    })
}

fn put_groups(
    acts: &mut Items<Act>,
    alloc: Global,
    buffer: &[u8],
    names: &[Text],
) -> Result<(), NoMemory>
    ensures { OnOk result (acts.new ≡ acts.old ++ map (add_group buffer.now) names.now) }
{
    for name in names {
        acts.push(add_group(alloc, buffer, name.as_slice())?)?;
    }
    Ok(())
}

/// Adds the groups of a channel's nicks. One that is there stays, since its act is refused.
pub(crate) fn put_add_groups(
    acts: &mut Items<Act>,
    alloc: Global,
    prefixes: &Prefixes,
    buffer: &[u8],
) -> Result<(), NoMemory>
    ensures { OnOk result (acts.new ≡ acts.old ++ add_groups prefixes.now buffer.now) }
{
    let names = group_names(alloc, prefixes)?;
    put_groups(acts, alloc, buffer, names.as_slice())
}

/// A nick comes into the group of its highest mode, whose place of PREFIX this is.
pub(crate) fn add_nick(
    alloc: Global,
    prefixes: &Prefixes,
    buffer: &[u8],
    nick: &[u8],
    place: Option<usize>,
) -> Result<Act, NoMemory>
    ensures { IfOk result (λ a. a ≡ add_nick prefixes.now buffer.now nick.now place) }
{
    let full_name = Text::from_slice(alloc, buffer)?;
    let group = group_at(alloc, prefixes, place)?;
    let item = item(alloc, false, 0, nick, sign_at(prefixes, place))?;
    Ok(Act::On {
        full_name,
        what: What::AddNick { group, item },
    })
}

pub(crate) fn remove_nick(alloc: Global, buffer: &[u8], nick: &[u8]) -> Result<Act, NoMemory>
    ensures { IfOk result (λ a. a ≡ remove_nick buffer.now nick.now) }
{
    let full_name = Text::from_slice(alloc, buffer)?;
    let nick = Text::from_slice(alloc, nick)?;
    Ok(Act::On {
        full_name,
        what: What::RemoveNick(nick),
    })
}

/// Takes all nicks of a list out, in its order.
pub(crate) fn put_emptied(
    acts: &mut Items<Act>,
    alloc: Global,
    buffer: &[u8],
    nicks: &Members,
) -> Result<(), NoMemory>
    ensures { OnOk result (acts.new ≡ acts.old ++ emptied buffer.now nicks.now.seats) }
{
    for seat in nicks.iter() {
        acts.push(remove_nick(alloc, buffer, seat.nick.as_slice())?)?;
    }
    Ok(())
}
