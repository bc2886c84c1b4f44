ghost use Rattle.std.specs.Prelude.{◌≡◌};
ghost use Rattle.wc_core.specs.Typed.{help_command, help_on};
ghost use Rattle.wc_core.specs.TypedSeen.{meaning};

use crate::command_forms::{form_named, without_slash};
use crate::typed::{CommandText, UNKNOWN, wrong_arguments};
use crate::typed_buffer::only_word;

/// The form of the command of this name.
fn help_on(name: &[u8]) -> CommandText<'_>
    ensures { meaning result ≡ help_on name.now }
{
    match form_named(name) {
        Some(form) => CommandText::Print {
            buffer: None,
            tags: b"",
            prefix: b"",
            message: form,
        },
        None => CommandText::Refused {
            front: UNKNOWN,
            name,
        },
    }
}

/// What `/help` asks for: the form of a command, whose name may begin with `/`, or without a name
/// the names of all commands.
pub(crate) fn help_command(text: &[u8]) -> CommandText<'_>
    ensures { meaning result ≡ help_command text.now }
{
    if text.is_empty() {
        return CommandText::ListCommands;
    }
    match only_word(text) {
        Some(word) => help_on(without_slash(word)),
        None => wrong_arguments(b"help"),
    }
}
