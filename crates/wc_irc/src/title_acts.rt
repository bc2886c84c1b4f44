ghost use Rattle.std.specs.Prelude.{◌≡◌, ◌++◌, codes, decimal, IfOk, OnOk};
ghost use Rattle.wc_irc.specs.ChannelStates.{channel_at};
ghost use Rattle.wc_irc_texts.specs.Rows.{param};
ghost use Rattle.wc_irc.specs.ServersSeen.{seen};
ghost use Rattle.wc_irc.specs.TitleActs.{titled, topic_line, topic_on};
ghost use Rattle.wc_irc.specs.TitleActs.{topic_reply_line, topic_reply_on};
ghost use Rattle.wc_irc.specs.TitleActs.{count_of, names_end_line, names_end_on};
ghost use Rattle.wc_irc.specs.TitleActs.{mode_reply_line, mode_reply_on};

use crate::act::Act;
use crate::channel_acts::channel_at;
use crate::lines::{nick_tags, one_tag, printed};
use crate::state::State;
use std::alloc::Global;
use wc_irc_texts::{joined, param, params_from, plain, spaced};
use wc_ircmsg::Message;
use wc_model::What;
use wc_text::{Items, NoMemory, Text};

// ---- TOPIC and 332

/// The title of a buffer, without formatting bytes.
fn titled(alloc: Global, topic: &[u8], buffer: &[u8]) -> Result<Act, NoMemory>
    ensures { IfOk result (λ a. a ≡ titled topic.now buffer.now) }
{
    let full_name = Text::from_slice(alloc, buffer)?;
    let title = plain(alloc, topic)?;
    Ok(Act::On {
        full_name,
        what: What::Title(title),
    })
}

fn topic_text(alloc: Global, m: &Message) -> Result<Text, NoMemory>
    ensures { IfOk result (λ text. text ≡ m.now.nick ++ codes " has changed topic for "
        ++ param 0 m.now ++ codes " to \"" ++ param 1 m.now ++ codes "\"") }
{
    let nick = m.nick.as_slice();
    let (channel, topic) = (param(m, 0), param(m, 1));
    joined(
        alloc,
        &[
            nick,
            b" has changed topic for ",
            channel,
            b" to \"",
            topic,
            b"\"",
        ],
    )
}

fn topic_line(alloc: Global, m: &Message, buffer: &[u8]) -> Result<Act, NoMemory>
    ensures { IfOk result (λ a. a ≡ topic_line m.now buffer.now) }
{
    let text = topic_text(alloc, m)?;
    let tags = nick_tags(alloc, b"irc_topic", m)?;
    printed(alloc, buffer, tags, b"--", text.as_slice())
}

/// A channel gets another title.
pub(crate) fn put_topic_on(
    acts: &mut Items<Act>,
    alloc: Global,
    m: &Message,
    buffer: &[u8],
) -> Result<(), NoMemory>
    ensures { OnOk result (acts.new ≡ acts.old ++ topic_on m.now buffer.now) }
{
    acts.push(titled(alloc, param(m, 1), buffer)?)?;
    acts.push(topic_line(alloc, m, buffer)?)
}

fn topic_reply_text(alloc: Global, m: &Message) -> Result<Text, NoMemory>
    ensures { IfOk result (λ text. text ≡ codes "Topic for " ++ param 1 m.now
        ++ codes " is \"" ++ param 2 m.now ++ codes "\"") }
{
    let (channel, topic) = (param(m, 1), param(m, 2));
    joined(alloc, &[b"Topic for ", channel, b" is \"", topic, b"\""])
}

fn topic_reply_line(alloc: Global, m: &Message, buffer: &[u8]) -> Result<Act, NoMemory>
    ensures { IfOk result (λ a. a ≡ topic_reply_line m.now buffer.now) }
{
    let text = topic_reply_text(alloc, m)?;
    let tags = one_tag(alloc, b"irc_332")?;
    printed(alloc, buffer, tags, b"--", text.as_slice())
}

/// A server tells the title of a channel.
pub(crate) fn put_topic_reply_on(
    acts: &mut Items<Act>,
    alloc: Global,
    m: &Message,
    buffer: &[u8],
) -> Result<(), NoMemory>
    ensures { OnOk result (acts.new ≡ acts.old ++ topic_reply_on m.now buffer.now) }
{
    acts.push(titled(alloc, param(m, 2), buffer)?)?;
    acts.push(topic_reply_line(alloc, m, buffer)?)
}

// ---- 366

/// How many nicks a joined channel has.
fn count_of(state: &State, channel: &[u8]) -> usize
    ensures { result ≡ count_of (channel_at (seen state.now) channel.now) }
{
    match channel_at(state, channel) {
        Some(channel) => channel.nicks.count(),
        None => 0,
    }
}

fn names_end_text(alloc: Global, channel: &[u8], count: usize) -> Result<Text, NoMemory>
    ensures { IfOk result (λ text. text ≡ codes "Channel " ++ channel.now ++ codes ": "
        ++ decimal count ++ codes " nicks") }
{
    let mut digits = itoa::Buffer::new();
    let count = digits.format(count as u64).as_bytes();
    joined(alloc, &[b"Channel ", channel, b": ", count, b" nicks"])
}

fn names_end_line(alloc: Global, state: &State, m: &Message, buffer: &[u8]) -> Result<Act, NoMemory>
    ensures { IfOk result (λ a. a ≡ names_end_line (seen state.now) m.now buffer.now) }
{
    let channel = param(m, 1);
    let text = names_end_text(alloc, channel, count_of(state, channel))?;
    let tags = one_tag(alloc, b"irc_366")?;
    printed(alloc, buffer, tags, b"--", text.as_slice())
}

/// A list of names is at its end.
pub(crate) fn put_names_end_on(
    acts: &mut Items<Act>,
    alloc: Global,
    state: &State,
    m: &Message,
    buffer: &[u8],
) -> Result<(), NoMemory>
    ensures { OnOk result (acts.new ≡ acts.old ++ names_end_on (seen state.now) m.now buffer.now) }
{
    acts.push(names_end_line(alloc, state, m, buffer)?)
}

// ---- 324

fn mode_reply_line(alloc: Global, m: &Message, buffer: &[u8]) -> Result<Act, NoMemory>
    ensures { IfOk result (λ a. a ≡ mode_reply_line m.now buffer.now) }
{
    let modes = spaced(alloc, params_from(m, 2))?;
    let text = joined(
        alloc,
        &[b"Mode ", param(m, 1), b" [", modes.as_slice(), b"]"],
    )?;
    let tags = one_tag(alloc, b"irc_324")?;
    printed(alloc, buffer, tags, b"--", text.as_slice())
}

/// A server tells the modes of a channel.
pub(crate) fn put_mode_reply_on(
    acts: &mut Items<Act>,
    alloc: Global,
    m: &Message,
    buffer: &[u8],
) -> Result<(), NoMemory>
    ensures { OnOk result (acts.new ≡ acts.old ++ mode_reply_on m.now buffer.now) }
{
    acts.push(mode_reply_line(alloc, m, buffer)?)
}
