ghost use Rattle.std.specs.Prelude.{◌≡◌, ◌≤◌, ◌++◌, ℕ, IfOk, OnOk, OnErr, length, option_map};
ghost use Rattle.std.specs.Prelude.{if◌then◌else◌};
ghost use Rattle.std.specs.List.{flat_map};
ghost use Rattle.wc_lines.specs.Ring.{with_limit, with_room};
ghost use Rattle.wc_model.specs.Notices.{trim_of};
ghost use Rattle.wc_world.specs.Flips.{lies_in, stored_lines};
ghost use Rattle.wc_world.specs.Kept.{held_at, IsHeldChanged};
ghost use Rattle.wc_world.specs.Limits.{stored_trim, AreRoomier, HasRoom};
ghost use Rattle.wc_world.specs.Near.{numbers};

use crate::held::Held;
use std::alloc::Global;
use wc_model::{Few, Trim};
use wc_text::{Handle, Items, NoMemory};

/// How many lines a buffer holds. One that is not there holds none.
pub(crate) fn count(held: &Held, h: Handle) -> u32
    ensures lines { result ≡ length (stored_lines held.now h.0) }
    ensures most { result ≤ 4096 }
{
    match held.get(&h.0) {
        Some(lines) => lines.len(),
        None => 0,
    }
}

/// Puts down after the others that so many lines of a buffer went, where some did.
fn push_trim(trims: &mut Items<Trim>, buffer: Handle, count: u32) -> Result<(), NoMemory>
    ensures { OnOk result (trims.new ≡ trims.old ++ trim_of buffer count) }
{
    if count == 0 {
        return Ok(());
    }
    trims.push(Trim { buffer, count })?;
    Ok(())
}

/// The same of one buffer alone. It takes no memory.
pub(crate) fn one_trim(alloc: Global, buffer: Handle, count: u32) -> Few<Trim>
    ensures { result ≡ trim_of buffer count }
{
    if count == 0 {
        return Few::none(alloc);
    }
    Few::one(Trim { buffer, count })
}

/// How many lines of each of these buffers pass the limit, in their order.
pub(crate) fn all_trims(
    alloc: Global,
    held: &Held,
    buffers: &[Handle],
    limit: u32,
) -> Result<Few<Trim>, NoMemory>
    ensures { IfOk result (λ trims. trims ≡ flat_map (stored_trim limit held.now)
        (numbers buffers.now)) }
{
    let mut trims = Items::new(alloc);
    for h in buffers {
        push_trim(&mut trims, *h, count(held, *h).saturating_sub(limit))?;
    }
    Ok(Few::many(trims))
}

/// Makes room for so many lines in each of these buffers. Where memory is refused some may have it.
pub(crate) fn make_room(held: &mut Held, buffers: &[Handle], limit: u32) -> Result<(), NoMemory>
    ensures ok { OnOk result ((q : ℕ) → held_at held.new q ≡ (if lies_in q (numbers buffers.now)
        then option_map (with_room limit) (held_at held.old q) else held_at held.old q)) }
    ensures err { OnErr result (AreRoomier held.old held.new) }
{
    for h in buffers {
        make_room_at(held, *h, limit)?;
    }
    Ok(())
}

fn make_room_at(held: &mut Held, h: Handle, limit: u32) -> Result<(), NoMemory>
    ensures ok { OnOk result (IsHeldChanged h.0 (with_room limit) held.old held.new) }
    ensures err { OnErr result ((q : ℕ) → held_at held.new q ≡ held_at held.old q) }
{
    if let Some(lines) = held.get_mut(&h.0) {
        lines.make_room(limit)?;
    }
    Ok(())
}

/// Gives each of these buffers another limit, for which there is room. It takes no memory.
pub(crate) fn set_limits(held: &mut Held, buffers: &[Handle], limit: u32)
    requires some { 1 ≤ limit }
    requires most { limit ≤ 4096 }
    requires room { (q : ℕ) → HasRoom limit (held_at held.old q) }
    ensures { (q : ℕ) → held_at held.new q ≡ (if lies_in q (numbers buffers.now)
        then option_map (with_limit limit) (held_at held.old q) else held_at held.old q) }
{
    for h in buffers {
        set_limit_at(held, *h, limit);
    }
}

fn set_limit_at(held: &mut Held, h: Handle, limit: u32)
    requires some { 1 ≤ limit }
    requires most { limit ≤ 4096 }
    requires room { HasRoom limit (held_at held.old h.0) }
    ensures { IsHeldChanged h.0 (with_limit limit) held.old held.new }
{
    if let Some(lines) = held.get_mut(&h.0) {
        let _ = lines.set_limit(limit);
    }
}
