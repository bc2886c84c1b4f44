ghost use Rattle.std.specs.Prelude.{◌≡◌, ◌++◌, ◌∷◌, [], IfOk, OnOk, codes, map, string_bytes};
ghost use Rattle.wc_demo.specs.Start.{start_words};

use std::alloc::Global;
use wc_text::NoMemory;

/// Puts a word after others.
fn push_word(alloc: Global, words: &mut Vec<String>, word: &str) -> Result<(), NoMemory>
    ensures { OnOk result (map string_bytes words.new.items
        ≡ map string_bytes words.old.items ++ word.now ∷ []) }
{
    let mut text = String::new(alloc);
    text.push_str(word)?;
    match words.push(text) {
        Ok(()) => Ok(()),
        Err(_) => Err(NoMemory),
    }
}

/// Puts words after others that have a command be run at the start.
fn push_command(alloc: Global, words: &mut Vec<String>, command: &str) -> Result<(), NoMemory>
    ensures { OnOk result (map string_bytes words.new.items
        ≡ map string_bytes words.old.items ++ codes "-r" ∷ command.now ∷ []) }
{
    push_word(alloc, words, "-r")?;
    push_word(alloc, words, command)
}

/// Puts the words of the run after others: a password, and a server that the program connects to.
fn push_words(alloc: Global, words: &mut Vec<String>) -> Result<(), NoMemory>
    ensures { OnOk result (map string_bytes words.new.items
        ≡ map string_bytes words.old.items ++ start_words) }
{
    push_command(alloc, words, "/set relay.network.password x")?;
    push_command(alloc, words, "/server add demo 127.0.0.1/6667 -notls")?;
    push_command(alloc, words, "/connect demo")
}

/// The words of the run.
pub fn start_words(alloc: Global) -> Result<Vec<String>, NoMemory>
    ensures { IfOk result (λ words. map string_bytes words.items ≡ start_words) }
{
    let mut words = Vec::new(alloc);
    push_words(alloc, &mut words)?;
    Ok(words)
}
