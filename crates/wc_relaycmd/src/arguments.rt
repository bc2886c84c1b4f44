ghost use Rattle.std.specs.Prelude.{◌≡◌, IfOk, option_map};
ghost use Rattle.wc_relaycmd.specs.Answers.{leading_of, init_of, hdata_of, infolist_of, input_of};
ghost use Rattle.wc_relaycmd.specs.Answers.{completion_of};
ghost use Rattle.wc_relaycmd.specs.Answers.{buffers_of, options_of, command_of, if_filled};
ghost use Rattle.wc_relaycmd.specs.Lists.{pieces_of};

use crate::lists::{pairs, pieces};
use crate::request::Command;
use crate::word::Word;
use std::alloc::Global;
use wc_text::{Items, NoMemory, Text, cut_word, read_i64, split_once};

/// The word at the front of a text. None where the text is empty.
fn leading_option(alloc: Global, text: &[u8]) -> Result<Option<Text>, NoMemory>
    ensures { IfOk result (λ word. word ≡ leading_of text.now) }
{
    if text.is_empty() {
        return Ok(None);
    }
    let (word, _) = cut_word(text);
    Ok(Some(Text::from_slice(alloc, word)?))
}

fn init(alloc: Global, text: &[u8]) -> Result<Option<Command>, NoMemory>
    ensures { IfOk result (λ command. command ≡ init_of text.now) }
{
    if text.is_empty() {
        return Ok(None);
    }
    Ok(Some(Command::Init(pairs(alloc, text)?)))
}

fn hdata(alloc: Global, text: &[u8]) -> Result<Option<Command>, NoMemory>
    ensures { IfOk result (λ command. command ≡ hdata_of text.now) }
{
    if text.is_empty() {
        return Ok(None);
    }
    let (path, text_after) = cut_word(text);
    let (keys, _) = cut_word(text_after);
    let path = Text::from_slice(alloc, path)?;
    let keys = Text::from_slice(alloc, keys)?;
    Ok(Some(Command::Hdata { path, keys }))
}

/// The name of a list, a pointer, and the word that says of what the list is to be. What is after
/// the name may be missing.
fn infolist(alloc: Global, text: &[u8]) -> Result<Option<Command>, NoMemory>
    ensures { IfOk result (λ command. command ≡ infolist_of text.now) }
{
    if text.is_empty() {
        return Ok(None);
    }
    let (name, after_name) = cut_word(text);
    let (_, after_pointer) = cut_word(after_name);
    let (argument, _) = cut_word(after_pointer);
    let name = Text::from_slice(alloc, name)?;
    let argument = Text::from_slice(alloc, argument)?;
    Ok(Some(Command::Infolist { name, argument }))
}

/// A buffer, one blank, and a text that is not empty.
fn input(alloc: Global, text: &[u8]) -> Result<Option<Command>, NoMemory>
    ensures { IfOk result (λ command. command ≡ input_of text.now) }
{
    let (buffer, text_after) = split_once(text, b' ');
    let Some(typed) = text_after else {
        return Ok(None);
    };
    if typed.is_empty() {
        return Ok(None);
    }
    let buffer = Text::from_slice(alloc, buffer)?;
    let text = Text::from_slice(alloc, typed)?;
    Ok(Some(Command::Input { buffer, text }))
}

/// A buffer, a whole number, and a text that may be empty.
#[tactic(auto, unfolding(crate::specs::Answers::completion_of))]
fn completion(alloc: Global, text: &[u8]) -> Result<Option<Command>, NoMemory>
    ensures { IfOk result (λ command. command ≡ completion_of text.now) }
{
    if text.is_empty() {
        return Ok(None);
    }
    let (buffer, text_after) = cut_word(text);
    let (number, typed) = cut_word(text_after);
    let Some(position) = read_i64(number) else {
        return Ok(None);
    };
    let buffer = Text::from_slice(alloc, buffer)?;
    let text = Text::from_slice(alloc, typed)?;
    Ok(Some(Command::Completion {
        buffer,
        position,
        text,
    }))
}

/// The buffers of `sync` and `desync`. Where none are written all are meant.
fn buffers(alloc: Global, text: &[u8]) -> Result<Items<Text>, NoMemory>
    ensures { IfOk result (λ buffers. buffers ≡ buffers_of text.now) }
{
    if text.is_empty() {
        let mut all = Items::new(alloc);
        all.push(Text::from_slice(alloc, b"*")?)?;
        return Ok(all);
    }
    let (word, _) = cut_word(text);
    pieces(alloc, word)
}

/// The options of `sync` and `desync`, if they are written.
fn options(alloc: Global, text: &[u8]) -> Result<Option<Items<Text>>, NoMemory>
    ensures { IfOk result (λ options. options ≡ options_of text.now) }
{
    let (_, text_after) = cut_word(text);
    let (word, _) = cut_word(text_after);
    if word.is_empty() {
        return Ok(None);
    }
    Ok(Some(pieces(alloc, word)?))
}

#[tactic(auto, unfolding(crate::specs::Answers::command_of))]
fn handshake(alloc: Global, text: &[u8]) -> Result<Option<Command>, NoMemory>
    ensures { IfOk result (λ command. command ≡ command_of Word.Handshake text.now) }
{
    Ok(Some(Command::Handshake(pairs(alloc, text)?)))
}

#[tactic(auto, unfolding(crate::specs::Answers::command_of))]
fn info(alloc: Global, text: &[u8]) -> Result<Option<Command>, NoMemory>
    ensures { IfOk result (λ command. command ≡ command_of Word.Info text.now) }
{
    Ok(leading_option(alloc, text)?.map(Command::Info))
}

#[tactic(auto, unfolding(crate::specs::Answers::command_of))]
fn nicklist(alloc: Global, text: &[u8]) -> Result<Option<Command>, NoMemory>
    ensures { IfOk result (λ command. command ≡ command_of Word.Nicklist text.now) }
{
    Ok(Some(Command::Nicklist(leading_option(alloc, text)?)))
}

#[tactic(auto, unfolding(crate::specs::Answers::command_of))]
fn sync(alloc: Global, text: &[u8]) -> Result<Option<Command>, NoMemory>
    ensures { IfOk result (λ command. command ≡ command_of Word.Sync text.now) }
{
    let buffers = buffers(alloc, text)?;
    let options = options(alloc, text)?;
    Ok(Some(Command::Sync { buffers, options }))
}

#[tactic(auto, unfolding(crate::specs::Answers::command_of))]
fn desync(alloc: Global, text: &[u8]) -> Result<Option<Command>, NoMemory>
    ensures { IfOk result (λ command. command ≡ command_of Word.Desync text.now) }
{
    let buffers = buffers(alloc, text)?;
    let options = options(alloc, text)?;
    Ok(Some(Command::Desync { buffers, options }))
}

#[tactic(auto, unfolding(crate::specs::Answers::command_of))]
fn ping(alloc: Global, text: &[u8]) -> Result<Option<Command>, NoMemory>
    ensures { IfOk result (λ command. command ≡ command_of Word.Ping text.now) }
{
    Ok(Some(Command::Ping(Text::from_slice(alloc, text)?)))
}

/// What the arguments of a command ask. None where one that is needed is missing or is no number.
#[tactic(auto, unfolding(crate::specs::Answers::command_of))]
pub fn command(alloc: Global, word: Word, text: &[u8]) -> Result<Option<Command>, NoMemory>
    ensures { IfOk result (λ command. command ≡ command_of word text.now) }
{
    match word {
        Word::Handshake => handshake(alloc, text),
        Word::Init => init(alloc, text),
        Word::Hdata => hdata(alloc, text),
        Word::Info => info(alloc, text),
        Word::Infolist => infolist(alloc, text),
        Word::Nicklist => nicklist(alloc, text),
        Word::Input => input(alloc, text),
        Word::Completion => completion(alloc, text),
        Word::Sync => sync(alloc, text),
        Word::Desync => desync(alloc, text),
        Word::Test => Ok(Some(Command::Test)),
        Word::Ping => ping(alloc, text),
        Word::Quit => Ok(Some(Command::Quit)),
    }
}
