ghost use Rattle.std.specs.Prelude.{◌≡◌, true, IfOk, OnOk, OnErr, is_some};
ghost use Rattle.std.specs.Str.{IsUtf8};
ghost use Rattle.wc_events.specs.Nicks.{nicks_objects};
ghost use Rattle.wc_model.specs.Parts.{flag_part};
ghost use Rattle.wc_objects.specs.Forms.{well_formed};
ghost use Rattle.wc_session.specs.Event.{event_messages};
ghost use Rattle.wc_session.specs.Sending.{message, fits, fitting, reply, null_hdata, Sends};
ghost use Rattle.wc_session.specs.Sending.{is_owed};

use bytes::BytesMut;
use std::alloc::Global;
use wc_events::{FlipLookup, Nicks, write_event, write_flags, write_nicks};
use wc_model::Notice;
use wc_objects::{Hda, Object, WriteRefused, append_message};
use wc_text::{Handle, Items, NoMemory};
use wc_world::World;

/// Puts a message after the unsent bytes, and answers whether it fits in a message.
pub fn send(out: &mut BytesMut, id: &[u8], objects: &[Object]) -> Result<bool, NoMemory>
    requires formed { well_formed objects.now ≡ true }
    requires text { IsUtf8 id.now }
    ensures fits { IfOk result (λ sent. sent ≡ fits (message id.now objects.now)) }
    ensures ok { IfOk result (λ sent. Sends out.old.items out.new.items
        (fitting (message id.now objects.now))) }
    ensures err { OnErr result (out.new.items ≡ out.old.items) }
{
    match append_message(out, id, objects) {
        Ok(()) => Ok(true),
        Err(WriteRefused::TooLong) => Ok(false),
        Err(WriteRefused::NoMemory) => Err(NoMemory),
    }
}

/// Puts a message of groups and nicks after the unsent bytes, and answers whether it fits in a
/// message.
pub fn send_nicks(out: &mut BytesMut, id: &[u8], nicks: Nicks<'_>) -> Result<bool, NoMemory>
    requires { IsUtf8 id.now }
    ensures fits { IfOk result (λ sent. sent ≡ fits (message id.now (nicks_objects nicks.entry))) }
    ensures ok { IfOk result (λ sent. well_formed (nicks_objects nicks.entry) ≡ true →
        Sends out.old.items out.new.items (fitting (message id.now (nicks_objects nicks.entry)))) }
    ensures err { OnErr result (out.new.items ≡ out.old.items) }
{
    match write_nicks(out, id, nicks) {
        Ok(()) => Ok(true),
        Err(WriteRefused::TooLong) => Ok(false),
        Err(WriteRefused::NoMemory) => Err(NoMemory),
    }
}

/// Puts the event of a notice, in the world after the change, after the unsent bytes. Nothing is put
/// where it is too long for a message, or nothing is told.
pub fn send_event(
    alloc: Global,
    out: &mut BytesMut,
    world: &World,
    notice: &Notice,
) -> Result<(), NoMemory>
    requires { IsUtf8 notice.now.full_name }
    ensures ok { OnOk result (Sends out.old.items out.new.items
        (event_messages world.now notice.now)) }
    ensures err { OnErr result (out.new.items ≡ out.old.items) }
{
    match write_event(alloc, out, world, notice) {
        Ok(()) => Ok(()),
        Err(WriteRefused::TooLong) => Ok(()),
        Err(WriteRefused::NoMemory) => Err(NoMemory),
    }
}

/// The same of the event of a buffer's lines whose flags differ.
pub fn send_flags(
    out: &mut BytesMut,
    world: &World,
    buffer: Handle,
    flips: &FlipLookup<'_>,
) -> Result<(), NoMemory>
    ensures ok { OnOk result (Sends out.old.items out.new.items
        (event_messages world.now (flag_part flips.now buffer.0))) }
    ensures err { OnErr result (out.new.items ≡ out.old.items) }
{
    match write_flags(out, world, buffer, flips) {
        Ok(()) => Ok(()),
        Err(WriteRefused::TooLong) => Ok(()),
        Err(WriteRefused::NoMemory) => Err(NoMemory),
    }
}

/// The null hdata.
pub fn null_hdata(alloc: Global) -> [Object; 1]
    ensures objects { result ≡ null_hdata }
    ensures formed { well_formed result ≡ true }
{
    [Object::Hda(Hda {
        path: None,
        keys: None,
        items: Items::new(alloc),
    })]
}

/// Puts the reply to a request after the unsent bytes, which is the null hdata where these objects
/// are too long for a message. It answers whether there is one.
#[tactic(auto, unfolding(crate::specs::Sending::reply))]
pub fn reply(
    alloc: Global,
    out: &mut BytesMut,
    id: &[u8],
    objects: &[Object],
) -> Result<bool, NoMemory>
    requires formed { well_formed objects.now ≡ true }
    requires text { IsUtf8 id.now }
    ensures owed { IfOk result (λ sent. sent ≡ is_owed (reply id.now objects.now)) }
    ensures ok { IfOk result (λ sent. Sends out.old.items out.new.items
        (reply id.now objects.now)) }
    ensures err { OnErr result (out.new.items ≡ out.old.items) }
{
    if send(out, id, objects)? {
        return Ok(true);
    }
    let null = null_hdata(alloc);
    let sent = send(out, id, null.as_slice())?;
    Ok(sent)
}

/// The same of a reply of groups and nicks.
#[tactic(auto, unfolding(crate::specs::Sending::reply))]
pub fn reply_nicks(
    alloc: Global,
    out: &mut BytesMut,
    id: &[u8],
    nicks: Nicks<'_>,
) -> Result<bool, NoMemory>
    requires formed { well_formed (nicks_objects nicks) ≡ true }
    requires text { IsUtf8 id.now }
    ensures owed { IfOk result
        (λ sent. sent ≡ is_owed (reply id.now (nicks_objects nicks.entry))) }
    ensures ok { IfOk result (λ sent. Sends out.old.items out.new.items
        (reply id.now (nicks_objects nicks.entry))) }
    ensures err { OnErr result (out.new.items ≡ out.old.items) }
{
    if send_nicks(out, id, nicks)? {
        return Ok(true);
    }
    let null = null_hdata(alloc);
    let sent = send(out, id, null.as_slice())?;
    Ok(sent)
}
