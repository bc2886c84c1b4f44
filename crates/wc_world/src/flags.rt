ghost use Rattle.std.specs.Prelude.{◌≡◌, ◌++◌, ℕ, IfOk, OnOk, None, Some, nat_eq, is_some, find};
ghost use Rattle.std.specs.Prelude.{option_map, if◌then◌else◌};
ghost use Rattle.wc_lines.specs.Flags.{flag_at};
ghost use Rattle.wc_model.specs.declared.change.Flip.{Flip as FlipValue};
ghost use Rattle.wc_world.specs.Flips.{last_flag, has_number, differs, differing_handles};

use std::alloc::Global;
use std::collections::HashMap;
use wc_lines::{Flags, Lines, PackedLine};
use wc_model::Flip;
use wc_text::{Handle, Items, NoMemory};

/// The flag of the last flip of each content.
pub(crate) fn flags_of(alloc: Global, flips: &[Flip]) -> Result<Flags, NoMemory>
    ensures { IfOk result (λ flags. (content : ℕ) → flag_at flags content
        ≡ last_flag flips.now content) }
{
    let mut flags = HashMap::new(alloc);
    for flip in flips {
        put(&mut flags, *flip)?;
    }
    Ok(flags)
}

fn put(flags: &mut Flags, flip: Flip) -> Result<(), NoMemory>
    ensures { OnOk result ((content : ℕ) → flag_at flags.new content
        ≡ (if nat_eq flip.content.0 content then Some flip.displayed
        else flag_at flags.old content)) }
{
    match flags.insert(flip.content.0, flip.displayed) {
        Ok(_) => Ok(()),
        Err(_) => Err(NoMemory),
    }
}

/// The content of the first flip that has a flag here.
pub(crate) fn first_in(flips: &[Flip], flags: &Flags) -> Option<Handle>
    ensures { result ≡ option_map (λ (flip : FlipValue). flip.content)
        (find (λ (flip : FlipValue). is_some (flag_at flags.now flip.content.0)) flips.now) }
{
    for flip in flips {
        if flags.contains_key(&flip.content.0) {
            return Some(flip.content);
        }
    }
    None
}

/// Takes the flags of these lines out.
pub(crate) fn take_out(flags: &mut Flags, lines: &Lines)
    ensures { (content : ℕ) → flag_at flags.new content ≡ (if has_number content lines.now.lines
        then None else flag_at flags.old content) }
{
    for line in lines.iter() {
        take_one(flags, line.content());
    }
}

fn take_one(flags: &mut Flags, content: Handle)
    ensures { (n : ℕ) → flag_at flags.new n ≡ (if nat_eq content.0 n then None
        else flag_at flags.old n) }
{
    let _ = flags.remove(&content.0);
}

/// Puts the lines that get another flag after the list.
pub(crate) fn push_differing(
    contents: &mut Items<Handle>,
    flags: &Flags,
    lines: &Lines,
) -> Result<(), NoMemory>
    ensures { OnOk result (contents.new ≡ contents.old ++ differing_handles (flag_at flags.now)
        lines.now.lines) }
{
    for line in lines.iter() {
        if differs(flags, line) {
            contents.push(line.content())?;
        }
    }
    Ok(())
}

/// Whether a line gets another flag.
fn differs(flags: &Flags, line: &PackedLine) -> bool
    ensures { result ≡ differs (flag_at flags.now) line.now }
{
    match flags.get(&line.content().0) {
        Some(on) => line.displayed() != *on,
        None => false,
    }
}
