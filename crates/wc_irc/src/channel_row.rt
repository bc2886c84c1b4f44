ghost use Rattle.std.specs.Prelude.{◌≡◌, ◌++◌, OnOk};
ghost use Rattle.wc_irc.specs.ChannelRowsSeen.{place_of, acts_on};
ghost use Rattle.wc_irc.specs.ServersSeen.{seen};
ghost use Rattle.wc_irc.specs.TalkActs.{on_found};
ghost use Rattle.wc_irc.specs.Targets.{found};
ghost use Rattle.wc_irc_texts.specs.Rows.{param};

use crate::act::Act;
use crate::channel_acts::{put_kick_on, put_part_on};
use crate::mode_acts::put_mode_on;
use crate::name_acts::put_names_on;
use crate::state::State;
use crate::targets::found;
use crate::title_acts::{put_mode_reply_on, put_names_end_on, put_topic_on, put_topic_reply_on};
use std::alloc::Global;
use wc_buffers::Buffers;
use wc_irc_texts::param;
use wc_ircmsg::Message;
use wc_text::{Items, NoMemory};

/// A kind of message of which all that follows is on the buffer of one channel.
#[derive(Clone, Copy)]
pub(crate) enum ChannelRow {
    Part,
    Kick,
    Mode,
    Topic,
    /// 332
    TopicReply,
    /// 353
    Names,
    /// 366
    NamesEnd,
    /// 324
    ModeReply,
}

impl ChannelRow {
    /// The place of the parameter that names the channel.
    fn place(self) -> usize
        ensures { result ≡ place_of self }
    {
        match self {
            ChannelRow::Part | ChannelRow::Kick | ChannelRow::Mode | ChannelRow::Topic => 0,
            ChannelRow::TopicReply | ChannelRow::NamesEnd | ChannelRow::ModeReply => 1,
            ChannelRow::Names => 2,
        }
    }
}

fn put_acts_on(
    acts: &mut Items<Act>,
    alloc: Global,
    state: &State,
    m: &Message,
    row: ChannelRow,
    buffer: &[u8],
) -> Result<(), NoMemory>
    ensures { OnOk result (acts.new ≡ acts.old ++ acts_on row (seen state.now) m.now buffer.now) }
{
    match row {
        ChannelRow::Part => put_part_on(acts, alloc, state, m, buffer),
        ChannelRow::Kick => put_kick_on(acts, alloc, state, m, buffer),
        ChannelRow::Mode => put_mode_on(acts, alloc, state, m, buffer),
        ChannelRow::Topic => put_topic_on(acts, alloc, m, buffer),
        ChannelRow::TopicReply => put_topic_reply_on(acts, alloc, m, buffer),
        ChannelRow::Names => put_names_on(acts, alloc, state, m, buffer),
        ChannelRow::NamesEnd => put_names_end_on(acts, alloc, state, m, buffer),
        ChannelRow::ModeReply => put_mode_reply_on(acts, alloc, m, buffer),
    }
}

/// Puts what follows of a message on the buffer of its channel, where that is there.
pub(crate) fn put_row(
    acts: &mut Items<Act>,
    alloc: Global,
    buffers: &Buffers,
    state: &State,
    m: &Message,
    row: ChannelRow,
) -> Result<(), NoMemory>
    ensures { OnOk result (acts.new ≡ acts.old
        ++ on_found (found buffers.now (seen state.now) (param (place_of row) m.now))
        (acts_on row (seen state.now) m.now)) }
{
    match found(alloc, buffers, state, param(m, row.place()))? {
        Some(buffer) => put_acts_on(acts, alloc, state, m, row, buffer.as_slice()),
        None => Ok(()),
    }
}
