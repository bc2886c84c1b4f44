//! The replies to `hdata`.

ghost use Rattle.std.specs.Prelude.{◌≡◌, ◌≢◌, IfOk, OnOk, OnErr};
ghost use Rattle.std.specs.Str.{IsUtf8};
ghost use Rattle.wc_hdata.specs.declared.refused.WalkRefused.TheVariants as Refused;
ghost use Rattle.wc_session.specs.Reply.{hdata_objects};
ghost use Rattle.wc_session.specs.Sending.{IsTold, Sends, is_owed, reply};

use crate::sending::{null_hdata, send};
use bytes::BytesMut;
use std::alloc::Global;
use wc_hdata::{WalkRefused, read_path, write_walk};
use wc_text::NoMemory;
use wc_world::World;

/// Puts what a path leads to after the unsent bytes, and answers whether it did: not where the text
/// spells no path, where the walk is refused, and where the message would be too long.
#[tactic(auto, unfolding(crate::specs::Reply::hdata_objects, crate::specs::Sending::reply))]
fn send_walk(
    alloc: Global,
    out: &mut BytesMut,
    id: &[u8],
    world: &World,
    path: &[u8],
    keys: &[u8],
) -> Result<bool, NoMemory>
    requires { IsUtf8 id.now }
    ensures ok { IfOk result (λ sent. IsTold sent out.old.items out.new.items id.now
        (hdata_objects world.now path.now keys.now)) }
    ensures err { OnErr result (out.new.items ≡ out.old.items) }
{
    let Some(path) = read_path(alloc, path)? else {
        return Ok(false);
    };
    match write_walk(alloc, out, id, world, &path, keys) {
        Ok(()) => Ok(true),
        Err(refused) => {
            unless_memory(refused)?;
            Ok(false)
        }
    }
}

/// `NoMemory` exactly where a walk was refused for it.
fn unless_memory(refused: WalkRefused) -> Result<(), NoMemory>
    ensures { OnOk result (refused ≢ Refused.NoMemory) }
{
    match refused {
        WalkRefused::NoMemory => Err(NoMemory),
        _ => Ok(()),
    }
}

/// Puts the reply to `hdata` after the unsent bytes: what the path leads to, item by item and without
/// objects of them, and the null hdata where there is no such answer. It answers whether there is a
/// reply.
pub fn reply_walk(
    alloc: Global,
    out: &mut BytesMut,
    id: &[u8],
    world: &World,
    path: &[u8],
    keys: &[u8],
) -> Result<bool, NoMemory>
    requires { IsUtf8 id.now }
    ensures owed { IfOk result (λ sent. sent
        ≡ is_owed (reply id.now (hdata_objects world.now path.now keys.now))) }
    ensures ok { IfOk result (λ sent. Sends out.old.items out.new.items
        (reply id.now (hdata_objects world.now path.now keys.now))) }
    ensures err { OnErr result (out.new.items ≡ out.old.items) }
{
    if send_walk(alloc, out, id, world, path, keys)? {
        return Ok(true);
    }
    let null = null_hdata(alloc);
    let sent = send(out, id, null.as_slice())?;
    Ok(sent)
}
