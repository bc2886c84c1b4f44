ghost use Rattle.std.specs.Prelude.{◌≡◌, ◌∷◌, ◌++◌, [], IfOk, OnOk, filter};
ghost use Rattle.wc_complete.specs.Candidates.{begins_as, slashed, all_slashed};

use std::alloc::Global;
use wc_text::{NoMemory, Text};

/// Whether a text begins with these bytes, ASCII case ignored.
fn begins_as(base: &[u8], text: &[u8]) -> bool
    ensures { result ≡ begins_as base.now text.now }
{
    let mut left = base;
    let mut rest = text;
    while let [first, more @ ..] = left {
        let [byte, others @ ..] = rest else {
            return false;
        };
        if first.to_ascii_lowercase() != byte.to_ascii_lowercase() {
            return false;
        }
        left = more;
        rest = others;
    }
    true
}

fn push(found: &mut Vec<Text>, text: Text) -> Result<(), NoMemory>
    ensures { OnOk result (found.new.items ≡ found.old.items ++ text ∷ []) }
{
    match found.push(text) {
        Ok(()) => Ok(()),
        Err(_) => Err(NoMemory),
    }
}

/// Puts a name after others, where it begins with the base word.
pub(crate) fn push_name(
    alloc: Global,
    found: &mut Vec<Text>,
    base: &[u8],
    name: &[u8],
) -> Result<(), NoMemory>
    ensures { OnOk result (found.new.items
        ≡ found.old.items ++ filter (begins_as base.now) (name.now ∷ [])) }
{
    if !begins_as(base, name) {
        return Ok(());
    }
    let name = Text::from_slice(alloc, name)?;
    push(found, name)
}

/// Puts a name with a slash in front after others, where the name begins with the base word.
fn push_command(
    alloc: Global,
    found: &mut Vec<Text>,
    base: &[u8],
    name: &[u8],
) -> Result<(), NoMemory>
    ensures { OnOk result (found.new.items
        ≡ found.old.items ++ filter (begins_as (slashed base.now)) (slashed name.now ∷ [])) }
{
    if !begins_as(base, name) {
        return Ok(());
    }
    let mut command = Text::from_slice(alloc, b"/")?;
    command.append(name)?;
    push(found, command)
}

/// The commands, each after a slash, that begin with a slash and these bytes, in their order.
#[tactic(auto, using(crate::proofs::FoundLaws::next_command))]
pub(crate) fn commands_found(
    alloc: Global,
    commands: &[Text],
    base: &[u8],
) -> Result<Vec<Text>, NoMemory>
    ensures { IfOk result (λ found. found.items
        ≡ filter (begins_as (slashed base.now)) (all_slashed commands.now)) }
{
    let mut found = Vec::new(alloc);
    for name in commands {
        push_command(alloc, &mut found, base, name.as_slice())?;
    }
    Ok(found)
}
