ghost use Rattle.std.specs.Prelude.{◌≡◌, ◌++◌, ◌∷◌, [], false, IfOk, OnOk};
ghost use Rattle.wc_irc.specs.Lines.{line, said, printed, nick_tag, host_tag, nick_tags, full_tags};

use crate::act::Act;
use std::alloc::Global;
use wc_irc_texts::{joined, plain};
use wc_ircmsg::Message;
use wc_model::{LineSpec, What, levels_of};
use wc_text::{Items, NoMemory, Text};

/// A line with its levels, where it is known whether it calls the user. It has no dates yet.
#[tactic(auto, unfolding(crate::specs::Lines::line))]
fn line(
    alloc: Global,
    tags: Items<Text>,
    prefix: &[u8],
    text: &[u8],
    calls_user: bool,
) -> Result<LineSpec, NoMemory>
    ensures { IfOk result (λ spec. spec ≡ line tags prefix.now text.now calls_user) }
{
    let prefix = plain(alloc, prefix)?;
    let message = plain(alloc, text)?;
    let levels = levels_of(tags.as_slice(), calls_user);
    Ok(LineSpec {
        date: 0,
        usec: 0,
        date_printed: 0,
        usec_printed: 0,
        displayed: true,
        notify: levels.notify,
        highlight: levels.highlight,
        tags,
        prefix,
        message,
    })
}

/// The print of a line on the buffer of a full name, where it is known whether it calls the user.
pub(crate) fn said(
    alloc: Global,
    buffer: &[u8],
    tags: Items<Text>,
    prefix: &[u8],
    text: &[u8],
    calls_user: bool,
) -> Result<Act, NoMemory>
    ensures { IfOk result (λ act. act ≡ said buffer.now tags prefix.now text.now calls_user) }
{
    let full_name = Text::from_slice(alloc, buffer)?;
    let line = line(alloc, tags, prefix, text, calls_user)?;
    Ok(Act::On {
        full_name,
        what: What::Print(line),
    })
}

/// The same where it calls no one.
pub(crate) fn printed(
    alloc: Global,
    buffer: &[u8],
    tags: Items<Text>,
    prefix: &[u8],
    text: &[u8],
) -> Result<Act, NoMemory>
    ensures { IfOk result (λ act. act ≡ printed buffer.now tags prefix.now text.now) }
{
    said(alloc, buffer, tags, prefix, text, false)
}

pub(crate) fn put_tag(tags: &mut Items<Text>, alloc: Global, tag: &[u8]) -> Result<(), NoMemory>
    ensures { OnOk result (tags.new ≡ tags.old ++ tag.now ∷ []) }
{
    tags.push(Text::from_slice(alloc, tag)?)
}

/// A tag alone.
pub(crate) fn one_tag(alloc: Global, tag: &[u8]) -> Result<Items<Text>, NoMemory>
    ensures { IfOk result (λ tags. tags ≡ tag.now ∷ []) }
{
    let mut tags = Items::new(alloc);
    put_tag(&mut tags, alloc, tag)?;
    Ok(tags)
}

pub(crate) fn put_nick_tag(
    tags: &mut Items<Text>,
    alloc: Global,
    nick: &[u8],
) -> Result<(), NoMemory>
    ensures { OnOk result (tags.new ≡ tags.old ++ nick_tag nick.now ∷ []) }
{
    tags.push(joined(alloc, &[b"nick_", nick])?)
}

pub(crate) fn put_host_tag(
    tags: &mut Items<Text>,
    alloc: Global,
    m: &Message,
) -> Result<(), NoMemory>
    ensures { OnOk result (tags.new ≡ tags.old ++ host_tag m.now ∷ []) }
{
    let user = m.user.as_slice();
    let host = m.host.as_slice();
    tags.push(joined(alloc, &[b"host_", user, b"@", host])?)
}

/// A tag, and the nick that a message is from.
pub(crate) fn nick_tags(alloc: Global, tag: &[u8], m: &Message) -> Result<Items<Text>, NoMemory>
    ensures { IfOk result (λ tags. tags ≡ nick_tags tag.now m.now) }
{
    let mut tags = one_tag(alloc, tag)?;
    put_nick_tag(&mut tags, alloc, m.nick.as_slice())?;
    Ok(tags)
}

/// A tag, the nick that a message is from, and its host.
pub(crate) fn full_tags(alloc: Global, tag: &[u8], m: &Message) -> Result<Items<Text>, NoMemory>
    ensures { IfOk result (λ tags. tags ≡ full_tags tag.now m.now) }
{
    let mut tags = nick_tags(alloc, tag, m)?;
    put_host_tag(&mut tags, alloc, m)?;
    Ok(tags)
}
