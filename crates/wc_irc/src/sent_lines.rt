//! The lines that a command sends, of which none is longer than servers read, and refusals.

ghost use Rattle.std.specs.Prelude.{◌≡◌, ◌++◌, codes, IfOk, OnOk};
ghost use Rattle.wc_text.specs.Splits.{word_of};
ghost use Rattle.wc_ircmsg.specs.Written.{IsWritable, line_of};
ghost use Rattle.wc_irc.specs.Autojoin.{message};
ghost use Rattle.wc_irc.specs.SentLines.{refusal, too_long, fits_line, line_acts, both_acts};

use crate::act::Act;
use crate::autojoin::line_of;
use crate::lines::printed;
use std::alloc::Global;
use wc_buffers::Buffers;
use wc_irc_texts::joined;
use wc_text::{Handle, Items, NoMemory, Text, cut_word};

/// The handle of the core's buffer.
const CORE: Handle = Handle(1);

const REFUSAL: &[u8] = b"=!=";

const TOO_LONG: &[u8] = b"irc: too long: ";

/// The most bytes of a line before its CR LF (RFC 2812).
pub(crate) const LONGEST_LINE: usize = 510;

/// A refusal is a line of the core's buffer.
pub(crate) fn put_refusal(
    acts: &mut Items<Act>,
    alloc: Global,
    buffers: &Buffers,
    text: &[u8],
) -> Result<(), NoMemory>
    ensures { OnOk result (acts.new ≡ acts.old ++ refusal buffers.now text.now) }
{
    let Some(core) = buffers.get(CORE) else {
        return Ok(());
    };
    let no_tags = Items::new(alloc);
    acts.push(printed(alloc, core.full_name.as_slice(), no_tags, REFUSAL, text)?)
}

fn too_long_text(alloc: Global, command: &[u8]) -> Result<Text, NoMemory>
    ensures { IfOk result (λ text. text ≡ codes "irc: too long: " ++ command.now) }
{
    joined(alloc, &[TOO_LONG, command])
}

/// The refusal of a command whose line would be too long.
pub(crate) fn put_too_long(
    acts: &mut Items<Act>,
    alloc: Global,
    buffers: &Buffers,
    command: &[u8],
) -> Result<(), NoMemory>
    ensures { OnOk result (acts.new ≡ acts.old ++ too_long buffers.now command.now) }
{
    let text = too_long_text(alloc, command)?;
    put_refusal(acts, alloc, buffers, text.as_slice())
}

/// The same of a line, which begins with its command.
fn put_long_line(
    acts: &mut Items<Act>,
    alloc: Global,
    buffers: &Buffers,
    line: &[u8],
) -> Result<(), NoMemory>
    ensures { OnOk result (acts.new ≡ acts.old ++ too_long buffers.now (word_of line.now)) }
{
    put_too_long(acts, alloc, buffers, cut_word(line).0)
}

/// The line of a message.
pub(crate) fn message_line(
    alloc: Global,
    command: &[u8],
    params: Items<Text>,
) -> Result<Text, NoMemory>
    requires { IsWritable (message command.now params) }
    ensures { IfOk result (λ line. line ≡ line_of (message command.now params)) }
{
    let command = Text::from_slice(alloc, command)?;
    line_of(alloc, command, params)
}

fn fits_line(line: &Text) -> bool
    ensures { result ≡ fits_line line.now }
{
    line.as_slice().len() <= LONGEST_LINE
}

/// Sends a line that is not too long.
pub(crate) fn put_line(
    acts: &mut Items<Act>,
    alloc: Global,
    buffers: &Buffers,
    line: Text,
) -> Result<(), NoMemory>
    ensures { OnOk result (acts.new ≡ acts.old ++ line_acts buffers.now line) }
{
    if fits_line(&line) {
        acts.push(Act::Send(line))
    } else {
        put_long_line(acts, alloc, buffers, line.as_slice())
    }
}

/// Sends two lines of which none is too long.
pub(crate) fn put_both_lines(
    acts: &mut Items<Act>,
    alloc: Global,
    buffers: &Buffers,
    first: Text,
    second: Text,
) -> Result<(), NoMemory>
    ensures { OnOk result (acts.new ≡ acts.old ++ both_acts buffers.now first second) }
{
    if !fits_line(&first) {
        return put_long_line(acts, alloc, buffers, first.as_slice());
    }
    if !fits_line(&second) {
        return put_long_line(acts, alloc, buffers, second.as_slice());
    }
    acts.push(Act::Send(first))?;
    acts.push(Act::Send(second))
}
