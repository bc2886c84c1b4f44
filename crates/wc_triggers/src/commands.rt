ghost use Rattle.std.specs.Prelude.{◌≡◌, ◌++◌, ◌∷◌, [], All, IfOk, OnOk};
ghost use Rattle.std.specs.Str.{IsUtf8};
ghost use Rattle.wc_triggers.specs.Commands.{commands_of, filled_of};

use crate::slashes::unslashed;
use std::alloc::Global;
use wc_text::{Items, NoMemory, Text, past_blanks};

/// Puts a command after the others, without the blanks at its front, unless it is empty then.
fn push_filled(alloc: Global, commands: &mut Items<Text>, command: &[u8]) -> Result<(), NoMemory>
    ensures { OnOk result (commands.new ≡ commands.old ++ filled_of (command.now ∷ [])) }
{
    let command = past_blanks(command);
    if command.is_empty() {
        return Ok(());
    }
    commands.push(Text::from_slice(alloc, command)?)
}

/// The commands of a text: what stands between the semicolons that no backslash takes, in which `\;`
/// is read as `;`.
pub(crate) fn commands_of(alloc: Global, text: &[u8]) -> Result<Items<Text>, NoMemory>
    requires { IsUtf8 text.now }
    ensures are { IfOk result (λ commands. commands ≡ commands_of text.now) }
    ensures utf8 { IfOk result (All IsUtf8) }
{
    let mut commands = Items::new(alloc);
    let mut rest = Some(text);
    while let Some(pieces) = rest {
        let (command, others) = unslashed(alloc, pieces, b';', false)?;
        push_filled(alloc, &mut commands, command.as_slice())?;
        rest = others;
    }
    Ok(commands)
}
