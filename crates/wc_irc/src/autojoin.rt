ghost use Rattle.std.specs.Prelude.{◌≡◌, ◌≤◌, ◌-◌, ◌++◌, [], drop, slice_index_or, true, codes, IfOk, OnOk};
ghost use Rattle.wc_ircmsg.specs.Written.{IsWritable, is_one_line, line_of};
ghost use Rattle.wc_irc.specs.Autojoin.{message, join_params, join_line, join, joins_from};
ghost use Rattle.wc_irc.specs.Autojoin.{first_word, second_word, autojoin_lines};
ghost use Rattle.wc_irc_texts.specs.Pieces.{pieces, pieces_left, is_bare, is_bare_left, length_left};

use std::alloc::Global;
use wc_irc_texts::in_one_line;
use wc_irc_words::is_target;
use wc_ircmsg::{Message, write_line};
use wc_text::{Items, NoMemory, Text, cut_word, past_blanks, split_once};

fn join_params(alloc: Global, channel: &[u8], key: &[u8]) -> Result<Items<Text>, NoMemory>
    ensures { IfOk result (λ params. params ≡ join_params channel.now key.now) }
{
    let mut params = Items::new(alloc);
    params.push(Text::from_slice(alloc, channel)?)?;
    if !key.is_empty() {
        params.push(Text::from_slice(alloc, key)?)?;
    }
    Ok(params)
}

/// The line of a message without tags and a prefix.
pub(crate) fn line_of(alloc: Global, command: Text, params: Items<Text>) -> Result<Text, NoMemory>
    requires { IsWritable (message command params) }
    ensures { IfOk result (λ line. line ≡ line_of (message command params)) }
{
    let message = Message {
        tags: Text::new(alloc),
        nick: Text::new(alloc),
        user: Text::new(alloc),
        host: Text::new(alloc),
        command,
        params,
    };
    write_line(alloc, &message)
}

/// The JOIN of a channel with its key, where it has one.
fn join_line(alloc: Global, channel: &[u8], key: &[u8]) -> Result<Text, NoMemory>
    requires { IsWritable (message (codes "JOIN") (join_params channel.now key.now)) }
    ensures { IfOk result (λ line. line ≡ join_line channel.now key.now) }
{
    let params = join_params(alloc, channel, key)?;
    let command = Text::from_slice(alloc, b"JOIN")?;
    line_of(alloc, command, params)
}

/// Puts the JOIN of a channel after the lines. An empty channel is passed over, and so is one that
/// begins with `:`.
fn put_join(
    lines: &mut Items<Text>,
    alloc: Global,
    channel: &[u8],
    key: &[u8],
) -> Result<(), NoMemory>
    requires channel { is_bare channel.now ≡ true }
    requires key { is_bare key.now ≡ true }
    ensures { OnOk result (lines.new ≡ lines.old ++ join channel.now key.now) }
{
    if !is_target(channel) {
        return Ok(());
    }
    lines.push(join_line(alloc, channel, key)?)
}

/// The first piece of what is left of a text, and what is left after its comma.
fn next_piece(left: Option<&[u8]>) -> (&[u8], Option<&[u8]>)
    requires { is_bare_left left ≡ true }
    ensures piece { result.0.now ≡ slice_index_or (pieces_left left.entry) 0 [] }
    ensures others { pieces_left result.1 ≡ drop 1 (pieces_left left.entry) }
    ensures bare { is_bare result.0.now ≡ true }
    ensures bare_left { is_bare_left result.1 ≡ true }
    ensures shorter { length_left result.1 ≤ length_left left.entry - 1 }
{
    match left {
        Some(text) => split_once(text, b','),
        None => (&[], None),
    }
}

/// Puts one JOIN for each channel after the lines, with the key at its place.
fn put_joins(
    lines: &mut Items<Text>,
    alloc: Global,
    channels: &[u8],
    keys: &[u8],
) -> Result<(), NoMemory>
    requires channels { is_bare channels.now ≡ true }
    requires keys { is_bare keys.now ≡ true }
    ensures { OnOk result (lines.new ≡ lines.old ++ joins_from (pieces channels.now)
        (pieces keys.now)) }
{
    let mut left = Some(channels);
    let mut keys_left = Some(keys);
    while left.is_some() {
        let (channel, others) = next_piece(left);
        let (key, other_keys) = next_piece(keys_left);
        put_join(lines, alloc, channel, key)?;
        left = others;
        keys_left = other_keys;
    }
    Ok(())
}

/// The first two words of a text.
pub(crate) fn first_words(text: &[u8]) -> (&[u8], &[u8])
    requires { is_one_line text.now ≡ true }
    ensures first { result.0.now ≡ first_word text.now }
    ensures second { result.1.now ≡ second_word text.now }
    ensures first_bare { is_bare result.0.now ≡ true }
    ensures second_bare { is_bare result.1.now ≡ true }
{
    let (first, rest) = cut_word(past_blanks(text));
    (first, cut_word(rest).0)
}

/// The lines that join the channels of the option `autojoin`, without their ends: one JOIN for each
/// channel of the first word, with the key at its place in the second, where one is. Commas part
/// them. An empty channel is passed over, and so is one that begins with `:`. CR, LF and NUL are
/// taken out before.
pub fn autojoin_lines(alloc: Global, value: &[u8]) -> Result<Items<Text>, NoMemory>
    ensures { IfOk result (λ lines. lines ≡ autojoin_lines value.now) }
{
    let mut lines = Items::new(alloc);
    let value = in_one_line(alloc, value)?;
    let (channels, keys) = first_words(value.as_slice());
    put_joins(&mut lines, alloc, channels, keys)?;
    Ok(lines)
}
