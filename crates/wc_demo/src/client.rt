//! What the client has by all that it was sent.

ghost use Rattle.std.specs.Prelude.{◌≡◌, ◌<◌, ◌≤◌, ◌∷◌, [], IfOk, IfSome, OnOk, Some, length, codes};
ghost use Rattle.wc_view.specs.Ids.{AreIds};
ghost use Rattle.wc_view.specs.Taking.{nothing_taken};
ghost use Rattle.wc_demo.specs.Client.{TakesOne, TakesAll, TakesBoth, IsCountedBy};

use crate::counts::Counts;
use crate::in_mirror::mirror_counts;
use std::alloc::Global;
use wc_text::{NoMemory, Text};
use wc_view::Mirror;

/// The ids under which the client takes the dumps of buffers, of lines and of nicklists.
fn ids(alloc: Global) -> Result<[Text; 3], NoMemory>
    ensures ids { IfOk result AreIds }
    ensures are { IfOk result (λ ids. ids ≡ codes "b" ∷ codes "l" ∷ codes "n" ∷ []) }
{
    let buffers = Text::from_slice(alloc, b"b")?;
    let lines = Text::from_slice(alloc, b"l")?;
    let nicks = Text::from_slice(alloc, b"n")?;
    Ok([buffers, lines, nicks])
}

/// A mirror that has taken nothing, and holds so many lines of a buffer at most.
fn new_mirror(alloc: Global, limit: u32) -> Result<Mirror, NoMemory>
    requires { 1 ≤ limit }
    ensures { IfOk result (λ mirror. mirror
        ≡ nothing_taken (Some limit) (codes "b") (codes "l") (codes "n")) }
{
    let dumps = ids(alloc)?;
    Mirror::new(alloc, limit, dumps)
}

/// Takes the message at the front of bytes, and answers the bytes after it. None where none is
/// taken.
fn take_one<'a>(mirror: &mut Mirror, alloc: Global, bytes: &'a [u8]) -> Option<&'a [u8]>
    ensures takes { IfSome result (λ left. TakesOne mirror.old bytes.now mirror.new left.now) }
    ensures less { IfSome result (λ left. length left.now < length bytes.now) }
{
    match mirror.take(alloc, bytes) {
        Ok(size) if size > 0 => bytes.get(size..),
        _ => None,
    }
}

/// Takes each message of bytes.
fn take_all(mirror: &mut Mirror, alloc: Global, bytes: &[u8]) -> Result<(), NoMemory>
    ensures { OnOk result (TakesAll mirror.old bytes.now mirror.new) }
{
    let mut rest = bytes;
    while !rest.is_empty() {
        let Some(left) = take_one(mirror, alloc, rest) else {
            return Err(NoMemory);
        };
        rest = left;
    }
    Ok(())
}

/// Takes each message of what was sent, and then of what is unsent.
fn take_both(mirror: &mut Mirror, alloc: Global, sent: &[u8], unsent: &[u8]) -> Result<(), NoMemory>
    ensures { OnOk result (TakesBoth mirror.old sent.now unsent.now mirror.new) }
{
    take_all(mirror, alloc, sent)?;
    take_all(mirror, alloc, unsent)
}

/// The counts of a mirror that takes each message of what was sent to the client, and then of what is
/// unsent. It holds so many lines of a buffer at most.
pub fn client_counts(
    alloc: Global,
    limit: u32,
    sent: &[u8],
    unsent: &[u8],
) -> Result<Counts, NoMemory>
    requires { 1 ≤ limit }
    ensures { IfOk result (IsCountedBy limit sent.now unsent.now) }
{
    let mut mirror = new_mirror(alloc, limit)?;
    take_both(&mut mirror, alloc, sent, unsent)?;
    mirror_counts(&mirror).ok_or(NoMemory)
}
