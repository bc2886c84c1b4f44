//! Messages read from bytes.

ghost use Rattle.std.specs.Prelude.{◌≡◌, ℕ, ◌<◌, ◌≤◌, ◌^◌, List, Option, Some, None, Ok, Err};
ghost use Rattle.std.specs.Prelude.{length, take, drop, IsTrue, MatchOption, IfOk, IfSome, IfNone};
ghost use Rattle.std.specs.Int.{w32, cast_signed, from_be_bytes};
ghost use Rattle.wc_objects.specs.Reading.{GivesWhole, GivesFirst, GivesFront, pointer_at, text_at};
ghost use Rattle.wc_objects.specs.Reading.{objects_of, message_of, first_message};
ghost use Rattle.wc_objects.specs.Spelling.{pointer_bytes, text_bytes};
ghost use Rattle.wc_objects.specs.Spells.{FrontSpells, IsFront, IsStr, misses_bytes};

use crate::fault::{ReadError, Rule};
use crate::object::{Object, WireMessage};
use crate::reader::Reader;
use std::alloc::Global;
use wc_text::{Items, NoMemory, Text};

/// Why bytes were not read as a message.
#[derive(Clone, Copy, Debug, PartialEq, Eq, thiserror::Error)]
pub enum MessageRefused {
    /// The first field that breaks a rule begins at this place. It is 0 for a length that no
    /// message has.
    #[error("a field breaks a rule at byte {place}")]
    BadAt { place: usize },
    #[error("out of memory")]
    NoMemory,
}

impl Reader<'_> {
    /// Objects to the end of the bytes.
    fn objects(&mut self, alloc: Global) -> Result<Items<Object>, ReadError>
        ensures { GivesWhole result (objects_of self.old.bytes.now) }
    {
        let mut items = Items::new(alloc);
        for _ in 0..self.bytes.len() {
            if self.bytes.is_empty() {
                return Ok(items);
            }
            let item = self.object(alloc)?;
            items.push(item)?;
        }
        if self.bytes.is_empty() {
            Ok(items)
        } else {
            Err(ReadError::Broken(self.bytes.len()))
        }
    }
}

/// A message of a length that messages have, of which these are all bytes.
#[tactic(auto, unfolding(crate::specs::Reading::message_of))]
fn message(alloc: Global, bytes: &[u8]) -> Result<WireMessage, ReadError>
    ensures { GivesWhole result (message_of bytes.now) }
{
    let mut reader = Reader { bytes };
    let _size = reader.number()?;
    reader.no_compression()?;
    let id = reader.name(alloc, Rule::Plain)?;
    let objects = reader.objects(alloc)?;
    Ok(WireMessage { id, objects })
}

/// The length that the first four bytes state.
fn stated_length(bytes: &[u8]) -> Option<usize>
    ensures { MatchOption result (length bytes.now < 4) (λ size. (4 ≤ length bytes.now)
        × (size ≡ from_be_bytes w32 (take 4 bytes.now))) }
{
    if bytes.len() < 4 {
        return None;
    }
    let size = u32::from_be_bytes([bytes[0], bytes[1], bytes[2], bytes[3]]);
    Some(size as usize)
}

/// The message at the front of the bytes, or where its first field that breaks a rule begins.
#[tactic(auto, unfolding(crate::specs::Reading::first_message))]
fn first_message(
    alloc: Global,
    bytes: &[u8],
) -> Result<Option<(WireMessage, usize)>, MessageRefused>
    ensures { GivesFirst result (first_message bytes.now) }
{
    let Some(size) = stated_length(bytes) else {
        return Ok(None);
    };
    if size < 9 || size > 0x7fff_ffff {
        return Err(MessageRefused::BadAt { place: 0 });
    }
    if bytes.len() < size {
        return Ok(None);
    }
    match message(alloc, &bytes[..size]) {
        Ok(message) => Ok(Some((message, size))),
        Err(ReadError::NoMemory) => Err(MessageRefused::NoMemory),
        Err(ReadError::Broken(left)) => Err(MessageRefused::BadAt {
            place: size.saturating_sub(left),
        }),
    }
}

/// The message at the front of the bytes and how many bytes it takes, in WeeChat's relay protocol
/// without compression. Other bytes may follow it. A message is given exactly where so many of the
/// first bytes are its one spelling.
///
/// None where fewer than four bytes are there, or the first four state a length from 9 to 2^31 - 1
/// and fewer bytes than that are there. `BadAt` where neither holds and the bytes of that length
/// spell no message.
pub fn read_message(
    alloc: Global,
    bytes: &[u8],
) -> Result<Option<(WireMessage, usize)>, MessageRefused>
    // What is read is spelt so.
    ensures found { IfOk result
        (λ front. IfSome front (λ found. FrontSpells found.0 found.1 bytes.now)) }
    // What is spelt so is read, unless memory is refused.
    ensures only { (message : WireMessage) (size : ℕ) → FrontSpells message size bytes.now →
        GivesFirst result (Ok (Some (message, size))) }
    // None is given exactly where bytes are missing.
    ensures none { IfOk result (λ front. IfNone front (IsTrue (misses_bytes bytes.now))) }
    ensures missing { IsTrue (misses_bytes bytes.now) → GivesFirst result (Ok None) }
    // Which field is the first that breaks a rule.
    ensures exact { GivesFirst result (first_message bytes.now) }
{
    first_message(alloc, bytes)
}

/// The signed number that the first four bytes are, the highest first. None where fewer are there.
pub fn read_i32(bytes: &[u8]) -> Option<i32>
    ensures { MatchOption result (length bytes.now < 4) (λ n. (4 ≤ length bytes.now)
        × (n ≡ cast_signed w32 (from_be_bytes w32 (take 4 bytes.now)))) }
{
    if bytes.len() < 4 {
        return None;
    }
    Some(i32::from_be_bytes([bytes[0], bytes[1], bytes[2], bytes[3]]))
}

fn front_pointer(bytes: &[u8]) -> Option<(u64, usize)>
    ensures { GivesFront result (length bytes.now) (pointer_at bytes.now) }
{
    let mut reader = Reader { bytes };
    match reader.pointer() {
        Ok(pointer) => Some((pointer, bytes.len().saturating_sub(reader.bytes.len()))),
        Err(ReadError::Broken(_)) => None,
        Err(ReadError::NoMemory) => unreachable!(),
    }
}

/// The pointer at the front of the bytes, without the letters of its type, and how many bytes it
/// takes. None where no prefix of the bytes is a pointer in its one form.
pub fn read_ptr(bytes: &[u8]) -> Option<(u64, usize)>
    // What is read is spelt so.
    ensures found { IfSome result (λ found. IsFront (pointer_bytes found.0) found.1 bytes.now) }
    // What is spelt so is read.
    ensures only { (pointer size : ℕ) → pointer < 2 ^ 64 →
        IsFront (pointer_bytes pointer) size bytes.now → result ≡ Some (pointer, size) }
{
    front_pointer(bytes)
}

fn front_text(alloc: Global, bytes: &[u8]) -> Result<Option<(Option<Text>, usize)>, NoMemory>
    ensures { IfOk result (λ found. GivesFront found (length bytes.now) (text_at bytes.now)) }
{
    let mut reader = Reader { bytes };
    match reader.text(alloc, Rule::Plain) {
        Ok(text) => Ok(Some((text, bytes.len().saturating_sub(reader.bytes.len())))),
        Err(ReadError::NoMemory) => Err(NoMemory),
        Err(ReadError::Broken(_)) => Ok(None),
    }
}

/// The text or null at the front of the bytes, without the letters of its type, and how many bytes
/// it takes. None where no prefix of the bytes is such a text.
pub fn read_str(alloc: Global, bytes: &[u8]) -> Result<Option<(Option<Text>, usize)>, NoMemory>
    // What is read is spelt so.
    ensures found { IfOk result
        (λ front. IfSome front (λ found. IsFront (text_bytes found.0) found.1 bytes.now)) }
    ensures text { IfOk result (λ front. IfSome front (λ found. IsStr found.0)) }
    // What is spelt so is read, unless memory is refused.
    ensures only { (text : Option (List ℕ)) (size : ℕ) → IsStr text →
        IsFront (text_bytes text) size bytes.now →
        IfOk result (λ front. front ≡ Some (text, size)) }
{
    front_text(alloc, bytes)
}
