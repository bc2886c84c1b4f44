ghost use Rattle.std.specs.Prelude.{◌≡◌, ◌++◌, ℕ, IfOk, OnOk, None, not, find, option_map};
ghost use Rattle.std.specs.Prelude.{if◌then◌else◌};
ghost use Rattle.wc_lines.specs.Flags.{flag_at, with_flags};
ghost use Rattle.wc_model.specs.Order.{order};
ghost use Rattle.wc_model.specs.declared.change.Flip.{Flip as FlipValue};
ghost use Rattle.wc_world.specs.Flips.{is_stored, all_differing, lies_in};
ghost use Rattle.wc_world.specs.Kept.{held_at, IsHeldChanged};
ghost use Rattle.wc_world.specs.Near.{numbers};

use crate::flags::{first_in, flags_of, push_differing, take_out};
use crate::held::Held;
use std::alloc::Global;
use wc_buffers::Buffers;
use wc_lines::Flags;
use wc_model::Flip;
use wc_text::{Handle, Items, NoMemory};

/// All buffers, by group and then by place in the group.
#[tactic(auto, using(crate::proofs::NearLemmas::order_handles))]
pub(crate) fn in_order(alloc: Global, buffers: &Buffers) -> Result<Items<Handle>, NoMemory>
    ensures { IfOk result (λ all. numbers all ≡ order buffers.now) }
{
    let mut all = Items::new(alloc);
    for group in buffers.groups() {
        push_all(&mut all, group)?;
    }
    Ok(all)
}

fn push_all(all: &mut Items<Handle>, group: &[Handle]) -> Result<(), NoMemory>
    ensures { OnOk result (all.new ≡ all.old ++ group.now) }
{
    for h in group {
        all.push(*h)?;
    }
    Ok(())
}

/// The content of the first flip of a line that none of the buffers holds.
pub(crate) fn first_not_held(
    alloc: Global,
    flips: &[Flip],
    held: &Held,
    buffers: &[Handle],
) -> Result<Option<Handle>, NoMemory>
    ensures { IfOk result (λ first. first ≡ option_map (λ (flip : FlipValue). flip.content)
        (find (λ (flip : FlipValue). not (is_stored held.now (numbers buffers.now) flip.content.0))
        flips.now)) }
{
    let mut flags = flags_of(alloc, flips)?;
    take_all_out(&mut flags, held, buffers);
    Ok(first_in(flips, &flags))
}

/// Takes the flags of all lines of the buffers out.
fn take_all_out(flags: &mut Flags, held: &Held, buffers: &[Handle])
    ensures { (content : ℕ) → flag_at flags.new content
        ≡ (if is_stored held.now (numbers buffers.now) content then None
        else flag_at flags.old content) }
{
    for h in buffers {
        if let Some(lines) = held.get(&h.0) {
            take_out(flags, lines);
        }
    }
}

/// The contents of all lines that get another flag, in the order of these buffers.
pub(crate) fn all_differing(
    alloc: Global,
    flags: &Flags,
    held: &Held,
    buffers: &[Handle],
) -> Result<Items<Handle>, NoMemory>
    ensures { IfOk result (λ contents. contents ≡ all_differing (flag_at flags.now) held.now
        (numbers buffers.now)) }
{
    let mut contents = Items::new(alloc);
    for h in buffers {
        if let Some(lines) = held.get(&h.0) {
            push_differing(&mut contents, flags, lines)?;
        }
    }
    Ok(contents)
}

/// Sets the flags of the lines of all these buffers. It takes no memory.
pub(crate) fn set_flags(held: &mut Held, buffers: &[Handle], flags: &Flags)
    ensures { (q : ℕ) → held_at held.new q ≡ (if lies_in q (numbers buffers.now)
        then option_map (with_flags (flag_at flags.now)) (held_at held.old q)
        else held_at held.old q) }
{
    for h in buffers {
        set_flags_at(held, *h, flags);
    }
}

fn set_flags_at(held: &mut Held, h: Handle, flags: &Flags)
    ensures { IsHeldChanged h.0 (with_flags (flag_at flags.now)) held.old held.new }
{
    if let Some(lines) = held.get_mut(&h.0) {
        lines.set_flags(flags);
    }
}
