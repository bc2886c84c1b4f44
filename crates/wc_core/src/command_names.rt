//! The names of all commands.

ghost use Rattle.std.specs.Prelude.{◌≡◌, ◌++◌, IfOk, OnOk};
ghost use Rattle.wc_text.specs.Words.{words_of};
ghost use Rattle.wc_core.specs.Forms.{core_text, server_text, command_names, names_told};

use crate::refusals::joined_texts;
use std::alloc::Global;
use std::marker::Model;
use wc_text::{Items, NoMemory, Text, words};

/// The names of the commands that the core knows by itself, which blanks part.
#[tactic(auto, unfolding(crate::specs::Forms::core_text))]
fn core_text() -> &'static [u8]
    ensures { result.now ≡ core_text }
{
    b"print buffer close quit eval filter help hotlist set unset save"
}

/// The names of the commands that servers know, which blanks part.
#[tactic(auto, unfolding(crate::specs::Forms::server_text))]
fn server_text() -> &'static [u8]
    ensures { result.now ≡ server_text }
{
    b"join j part msg m notice query q me nick topic kick k mode names n quote server \
connect disconnect w whois whowas who list away invite op deop voice devoice \
halfop dehalfop ban unban kickban ctcp ping motd cycle oper knock time version \
stats"
}

/// The line that has the names of all commands.
pub(crate) fn names_told(alloc: Global) -> Result<Text, NoMemory>
    ensures { IfOk result (λ text. text ≡ names_told) }
{
    let mut text = joined_texts(alloc, b"core: ", core_text())?;
    text.append(b"; IRC: ")?;
    text.append(server_text())?;
    Ok(text)
}

/// Puts the words of a text after the others.
fn put_words(names: &mut Items<Text>, alloc: Global, text: &[u8]) -> Result<(), NoMemory>
    ensures { OnOk result (names.new ≡ names.old ++ words_of text.now) }
{
    for name in words(text) {
        names.push(Text::from_slice(alloc, name)?)?;
    }
    Ok(())
}

/// The names of all commands that can be typed, without their `/`: those of the core first, and then
/// those that servers know. `/input` is left out, as clients type it by themselves.
#[derive(Drop)]
pub struct CommandNames {
    names: Items<Text>,
}

impl Model for CommandNames {
    ghost use Rattle.std.specs.Prelude.{◌≡◌, List, ℕ};
    ghost use Rattle.wc_core.specs.Forms.{command_names};

    ghost Value = { List (List ℕ) };

    ghost view = { λ a. a.names };

    ghost invariant = { λ a. a.names ≡ command_names };
}

impl CommandNames {
    #[tactic(auto, unfolding(crate::specs::Forms::command_names))]
    pub fn new(alloc: Global) -> Result<CommandNames, NoMemory>
        ensures { IfOk result (λ names. names ≡ command_names) }
    {
        let mut names = Items::new(alloc);
        put_words(&mut names, alloc, core_text())?;
        put_words(&mut names, alloc, server_text())?;
        Ok(CommandNames { names })
    }

    pub fn as_slice(&self) -> &[Text]
        ensures { result.now ≡ command_names }
    {
        self.names.as_slice()
    }
}
