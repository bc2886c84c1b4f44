//! The changes that lines of a script ask for.

ghost use Rattle.std.specs.Prelude.{IfOk, All};
ghost use Rattle.wc_buffers.specs.Entries.{IsText};
ghost use Rattle.wc_world.specs.Texts.{IsBufferText, IsChangeText};

use crate::lines::{flips_of, read_flips, read_print};
use crate::nicks::{read_add_group, read_add_nick, read_change_group, read_change_nick};
use crate::words::{check_options, handle, option_of, options_of, small_number, text, text_option};
use crate::wrong::Wrong;
use std::alloc::Global;
use wc_buffers::BufferSpec;
use wc_model::What;
use wc_text::{Items, Pair};

fn one_word<'a>(words: &[&'a str]) -> Result<&'a str, Wrong> {
    match words {
        [word] => Ok(*word),
        _ => Err(Wrong::NoWord),
    }
}

/// The changes of which nothing more is said.
fn read_plain(word: &str) -> Result<What, Wrong>
    ensures { IfOk result IsChangeText }
{
    match word {
        "close" => Ok(What::Close),
        "unmerge" => Ok(What::Unmerge),
        "hide" => Ok(What::Hide),
        "unhide" => Ok(What::Unhide),
        "clear" => Ok(What::Clear),
        _ => Err(Wrong::NoWord),
    }
}

/// A variable that is written `name=value`.
fn pair(alloc: Global, word: &str) -> Result<Pair, Wrong>
    ensures { IfOk result IsText }
{
    let (name, value) = word.split_once('=').unwrap_or((word, "''"));
    let name = text(alloc, name)?;
    let value = text(alloc, value)?;
    Ok(Pair { name, value })
}

fn pairs(alloc: Global, words: &[&str]) -> Result<Items<Pair>, Wrong>
    ensures { IfOk result (All IsText) }
{
    let mut pairs = Items::new(alloc);
    for word in words {
        let pair = pair(alloc, word)?;
        pairs.push(pair)?;
    }
    Ok(pairs)
}

/// The variables of the options, of which each is written `var=name=value`.
fn vars(alloc: Global, options: &[&str]) -> Result<Items<Pair>, Wrong>
    ensures { IfOk result (All IsText) }
{
    let words = options_of(alloc, options, "var=")?;
    pairs(alloc, words.as_slice())
}

const BUFFER_OPTIONS: &[&str] = &["short=", "title=", "var="];

fn buffer(alloc: Global, name: &str, options: &[&str]) -> Result<BufferSpec, Wrong>
    ensures { IfOk result IsBufferText }
{
    let full_name = text(alloc, name)?;
    let short_name = text(alloc, option_of(options, "short=").unwrap_or("short"))?;
    let title = text_option(alloc, options, "title=")?;
    let vars = vars(alloc, options)?;
    Ok(BufferSpec {
        full_name,
        short_name,
        title,
        vars,
    })
}

fn read_add(alloc: Global, words: &[&str]) -> Result<What, Wrong>
    ensures { IfOk result IsChangeText }
{
    let [name, options @ ..] = words else {
        return Err(Wrong::NoWord);
    };
    check_options(options, BUFFER_OPTIONS)?;
    let buffer = buffer(alloc, name, options)?;
    Ok(What::Add(buffer))
}

/// Another limit of lines, from 1 to 4096. The buffer of the change is not looked at.
fn read_limit(words: &[&str]) -> Result<What, Wrong>
    ensures { IfOk result IsChangeText }
{
    match small_number(one_word(words)?)? {
        limit @ 1..=4096 => Ok(What::Limit(limit)),
        _ => Err(Wrong::NoNumber),
    }
}

fn read_move(words: &[&str]) -> Result<What, Wrong>
    ensures { IfOk result IsChangeText }
{
    let number = small_number(one_word(words)?)?;
    Ok(What::MoveTo(number))
}

fn read_merge(words: &[&str]) -> Result<What, Wrong>
    ensures { IfOk result IsChangeText }
{
    let into = handle(one_word(words)?)?;
    Ok(What::MergeInto(into))
}

fn read_rename(alloc: Global, words: &[&str]) -> Result<What, Wrong>
    ensures { IfOk result IsChangeText }
{
    let [name, options @ ..] = words else {
        return Err(Wrong::NoWord);
    };
    let flips = flips_of(alloc, options)?;
    let name = text(alloc, name)?;
    Ok(What::Rename { name, flips })
}

fn read_short_name(alloc: Global, words: &[&str]) -> Result<What, Wrong>
    ensures { IfOk result IsChangeText }
{
    let name = text(alloc, one_word(words)?)?;
    Ok(What::ShortName(name))
}

fn read_title(alloc: Global, words: &[&str]) -> Result<What, Wrong>
    ensures { IfOk result IsChangeText }
{
    let title = text(alloc, one_word(words)?)?;
    Ok(What::Title(title))
}

fn read_set_var(alloc: Global, words: &[&str]) -> Result<What, Wrong>
    ensures { IfOk result IsChangeText }
{
    let pair = pair(alloc, one_word(words)?)?;
    Ok(What::SetVar(pair))
}

fn read_remove_var(alloc: Global, words: &[&str]) -> Result<What, Wrong>
    ensures { IfOk result IsChangeText }
{
    let name = text(alloc, one_word(words)?)?;
    Ok(What::RemoveVar(name))
}

fn read_remove_group(alloc: Global, words: &[&str]) -> Result<What, Wrong>
    ensures { IfOk result IsChangeText }
{
    let name = text(alloc, one_word(words)?)?;
    Ok(What::RemoveGroup(name))
}

fn read_remove_nick(alloc: Global, words: &[&str]) -> Result<What, Wrong>
    ensures { IfOk result IsChangeText }
{
    let name = text(alloc, one_word(words)?)?;
    Ok(What::RemoveNick(name))
}

/// The change that a word and what follows it ask for.
pub fn read_change(alloc: Global, word: &str, words: &[&str]) -> Result<What, Wrong>
    ensures { IfOk result IsChangeText }
{
    if words.is_empty() {
        return read_plain(word);
    }
    match word {
        "add" => read_add(alloc, words),
        "move" => read_move(words),
        "merge" => read_merge(words),
        "rename" => read_rename(alloc, words),
        "short-name" => read_short_name(alloc, words),
        "title" => read_title(alloc, words),
        "set-var" => read_set_var(alloc, words),
        "remove-var" => read_remove_var(alloc, words),
        _ => read_inner_change(alloc, word, words),
    }
}

/// The change of the lines or of the nicklist of a buffer.
fn read_inner_change(alloc: Global, word: &str, words: &[&str]) -> Result<What, Wrong>
    ensures { IfOk result IsChangeText }
{
    match word {
        "print" => read_print(alloc, words),
        "limit" => read_limit(words),
        "flips" => read_flips(alloc, words),
        "add-group" => read_add_group(alloc, words),
        "add-nick" => read_add_nick(alloc, words),
        "remove-group" => read_remove_group(alloc, words),
        "remove-nick" => read_remove_nick(alloc, words),
        "change-group" => read_change_group(alloc, words),
        "change-nick" => read_change_nick(alloc, words),
        _ => Err(Wrong::NoWord),
    }
}
