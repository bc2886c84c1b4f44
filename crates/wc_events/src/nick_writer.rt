//! Nicklists written without making their objects, in one walk over them. How long the message is,
//! and how many items it has, is put in front of them when they are there.

ghost use Rattle.std.specs.Prelude.{◌≡◌, ◌+◌, ◌-◌, ◌^◌, ◌<◌, ◌≤◌, ◌++◌, length, take, drop};
ghost use Rattle.std.specs.Prelude.{MatchResult, OnOk, OnErr, IsErrOf};
ghost use Rattle.wc_objects.specs.Spelling.{be32, message_bytes};
ghost use Rattle.wc_events.specs.HdaBytes.{front_part, hda_message};
ghost use Rattle.wc_events.specs.NickBytes.{IsCounted, IsCut, IsHead, IsWhole};
ghost use Rattle.wc_events.specs.Nicks.{nicks_items, nicks_objects};

use crate::front::{Front, put_front, room_after_front};
use crate::nick_bytes::Left;
use crate::nick_items::write_items;
use crate::nicks::Nicks;
use bytes::BytesMut;
use wc_keys::NICK_PATH;
use wc_objects::WriteRefused;
use wc_objects::parts::{MAX_MESSAGE, put_count};

/// Puts what is before the items, with 0 in place of the length and of the count, and answers what
/// is left of the room of a message after it.
fn put_head(out: &mut BytesMut, front: Front<'_>) -> Result<usize, WriteRefused>
    ensures { MatchResult result (IsHead (front_part front.entry) out.old out.new)
        (λ refused. (out.new.items ≡ out.old.items) × (refused ≡ WriteRefused.TooLong
        → 2147483639 < length (front_part front.entry))) }
{
    let Some(room) = room_after_front(MAX_MESSAGE - 8, front) else {
        return Err(WriteRefused::TooLong);
    };
    let Ok(()) = out.reserve(MAX_MESSAGE - room) else {
        return Err(WriteRefused::NoMemory);
    };
    put_count(out, 0);
    put_front(out, front);
    put_count(out, 0);
    Ok(room)
}

/// Puts a count in place of the four bytes that are at a place.
fn set_count(out: &mut BytesMut, at: usize, count: usize)
    requires { at + 4 ≤ length out.old.items }
    ensures { out.new.items ≡ take at out.old.items
        ++ (be32 count ++ drop (at + 4) out.old.items) }
{
    write_count(out.as_mut_slice(), at, count);
}

#[tactic(auto, unfolding(wc_objects::specs::Spelling::be32))]
fn write_count(bytes: &mut [u8], at: usize, count: usize)
    requires { at + 4 ≤ length bytes.old }
    ensures { bytes.new ≡ take at bytes.old ++ (be32 count ++ drop (at + 4) bytes.old) }
{
    let word = count.to_be_bytes();
    bytes[at..at + 4].copy_from_slice(&word[4..]);
}

/// Puts the message, with 0 in place of its length, and answers what is left of the room of a
/// message after it.
fn write_counted(
    out: &mut BytesMut,
    front: Front<'_>,
    nicks: Nicks<'_>,
) -> Result<usize, WriteRefused>
    ensures { MatchResult result
        (IsCounted (front_part front.entry) (nicks_items nicks.entry) out.old out.new)
        (λ refused. IsCut refused (front_part front.entry) (nicks_items nicks.entry)
        out.old out.new) }
{
    let start = out.len();
    let room = put_head(out, front)?;
    let left = write_items(out, Left { room, items: 0 }, nicks)?;
    set_count(out, start + (MAX_MESSAGE - 4 - room), left.items);
    Ok(left.room)
}

/// Puts the message with this front after the bytes that are in a buffer. Where it is refused, some
/// of it may be there.
fn write_whole(out: &mut BytesMut, front: Front<'_>, nicks: Nicks<'_>) -> Result<(), WriteRefused>
    ensures { MatchResult result
        (λ _. IsWhole (front_part front.entry) (nicks_items nicks.entry) out.old out.new)
        (λ refused. IsCut refused (front_part front.entry) (nicks_items nicks.entry)
        out.old out.new) }
{
    let start = out.len();
    let room = write_counted(out, front, nicks)?;
    set_count(out, start, MAX_MESSAGE - room);
    Ok(())
}

/// Puts the message with this front after the bytes that are in a buffer.
#[tactic(auto, using(crate::proofs::NickWritten::cut_back))]
fn append(out: &mut BytesMut, front: Front<'_>, nicks: Nicks<'_>) -> Result<(), WriteRefused>
    ensures ok { OnOk result (out.new.items ≡ out.old.items
        ++ hda_message (front_part front.entry) (nicks_items nicks.entry)) }
    ensures fits { OnOk result
        (length (hda_message (front_part front.entry) (nicks_items nicks.entry)) ≤ 2 ^ 31 - 1) }
    ensures too_long { IsErrOf result WriteRefused.TooLong →
        2 ^ 31 - 1 < length (hda_message (front_part front.entry) (nicks_items nicks.entry)) }
    ensures err { OnErr result (out.new.items ≡ out.old.items) }
{
    let start = out.len();
    match write_whole(out, front, nicks) {
        Ok(()) => Ok(()),
        Err(refused) => {
            out.truncate(start);
            Err(refused)
        }
    }
}

/// Puts groups and nicks as a message under this id after the bytes that are in a buffer, as
/// WeeChat's relay protocol has them: an item for each, with the pointers of its buffer and its own,
/// and its values. None of them is copied, and each is gone to once: the buffer grows as they are
/// put. Where it is refused the bytes stay as they were.
///
/// `TooLong` where the message would be longer than 2^31 - 1 bytes; `NoMemory` where the buffer can't
/// grow by its length.
pub fn write_nicks(out: &mut BytesMut, id: &[u8], nicks: Nicks<'_>) -> Result<(), WriteRefused>
    ensures ok { OnOk result (out.new.items ≡ out.old.items
        ++ message_bytes id.now (nicks_objects nicks.entry)) }
    ensures fits { OnOk result
        (length (message_bytes id.now (nicks_objects nicks.entry)) ≤ 2 ^ 31 - 1) }
    ensures too_long { IsErrOf result WriteRefused.TooLong →
        2 ^ 31 - 1 < length (message_bytes id.now (nicks_objects nicks.entry)) }
    ensures err { OnErr result (out.new.items ≡ out.old.items) }
{
    let front = Front {
        id,
        path: NICK_PATH,
        keys: nicks.keys().text(),
    };
    append(out, front, nicks)
}
