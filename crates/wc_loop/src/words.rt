ghost use Rattle.std.specs.Prelude.{◌≡◌, ◌||◌, ◌^◌, ◌≤◌, ◌+◌, Option, Some, None, IfOk, IfSome, []};
ghost use Rattle.std.specs.Prelude.{◌∷◌, length, map, string_bytes};
ghost use Rattle.std.specs.Option.{option_copied};
ghost use Rattle.wc_loop.specs.Words.{turns_of, demo_of, is_version, is_help, is_folder, is_turns};
ghost use Rattle.wc_loop.specs.Words.{is_demo, is_command, is_unconnected, asked_by, asked_with};
ghost use Rattle.wc_loop.specs.Words.{takes_text, takes_number, takes_value, with_turns, with_demo};
ghost use Rattle.wc_loop.specs.Words.{shown_after, with_slash, wish_of, folder_of, commands_of};

use std::alloc::Global;
use wc_text::{NoMemory, read_i64};

/// What is printed in the place of a run.
#[derive(Clone, Copy, PartialEq, Eq)]
pub enum Shows {
    /// Nothing is: the program runs.
    Nothing,
    Version,
    /// The words, and what each status means.
    Help,
    /// What there is after a run in memory in which a server says so many lines.
    Demo(u32),
}

/// What the words ask.
#[derive(Clone, Copy)]
pub struct Wish {
    /// What to print and end.
    pub shows: Shows,
    /// For so many waits.
    pub turns: u64,
    /// Whether no server is connected by itself at the start.
    pub holds: bool,
}

/// The number of turns that a word asks for, from 1 to 2^62.
#[tactic(auto, unfolding(crate::specs::Words::turns_of))]
fn turns_of(text: &[u8]) -> Option<u64>
    ensures value { result ≡ turns_of text.now }
    ensures above { IfSome result (λ turns. 1 ≤ turns) }
{
    let turns = read_i64(text)?;
    if turns < 1 || turns > 1 << 62 {
        return None;
    }
    Some(turns as u64)
}

/// The number of lines of a demo that a word asks for, from 1 to 100,000.
#[tactic(auto, unfolding(crate::specs::Words::demo_of))]
fn demo_of(text: &[u8]) -> Option<u32>
    ensures { result ≡ demo_of text.now }
{
    let lines = read_i64(text)?;
    if lines < 1 || lines > 100_000 {
        return None;
    }
    Some(lines as u32)
}

#[tactic(auto, unfolding(crate::specs::Words::is_version))]
fn is_version(word: &str) -> bool
    ensures { result ≡ is_version word.now }
{
    word == "-v"
}

#[tactic(auto, unfolding(crate::specs::Words::is_help))]
fn is_help(word: &str) -> bool
    ensures { result ≡ is_help word.now }
{
    word == "-h" || word == "--help"
}

#[tactic(auto, unfolding(crate::specs::Words::is_folder))]
fn is_folder(word: &str) -> bool
    ensures { result ≡ is_folder word.now }
{
    word == "-d"
}

#[tactic(auto, unfolding(crate::specs::Words::is_turns))]
fn is_turns(word: &str) -> bool
    ensures { result ≡ is_turns word.now }
{
    word == "--turns"
}

#[tactic(auto, unfolding(crate::specs::Words::is_demo))]
fn is_demo(word: &str) -> bool
    ensures { result ≡ is_demo word.now }
{
    word == "--demo"
}

#[tactic(auto, unfolding(crate::specs::Words::is_command))]
fn is_command(word: &str) -> bool
    ensures { result ≡ is_command word.now }
{
    word == "-r"
}

#[tactic(auto, unfolding(crate::specs::Words::is_unconnected))]
fn is_unconnected(word: &str) -> bool
    ensures { result ≡ is_unconnected word.now }
{
    word == "-a"
}

/// What is asked after a word that takes no value. None where it takes one, or is unknown.
#[tactic(auto, unfolding(crate::specs::Words::asked_by))]
fn asked_by(wish: Wish, word: &str) -> Option<Wish>
    ensures asked { result ≡ asked_by wish word.now }
    ensures turns { IfSome result (λ asked. asked.turns ≡ wish.turns) }
{
    if is_version(word) {
        return Some(Wish {
            shows: Shows::Version,
            ..wish
        });
    }
    if is_help(word) {
        return Some(Wish {
            shows: Shows::Help,
            ..wish
        });
    }
    if is_unconnected(word) {
        return Some(Wish {
            holds: true,
            ..wish
        });
    }
    None
}

/// Whether a word takes a value that is text.
fn takes_text(word: &str) -> bool
    ensures { result ≡ takes_text word.now }
{
    is_folder(word) || is_command(word)
}

/// Whether a word takes a value that is a number.
fn takes_number(word: &str) -> bool
    ensures { result ≡ takes_number word.now }
{
    is_turns(word) || is_demo(word)
}

/// Whether a word takes a value.
fn takes_value(word: &str) -> bool
    ensures { result ≡ takes_value word.now }
{
    takes_text(word) || takes_number(word)
}

/// Whether a word takes a value that is no folder.
fn passes_folder(word: &str) -> bool
    ensures { result ≡ (takes_number word.now || is_command word.now) }
{
    takes_number(word) || is_command(word)
}

/// Whether a word takes a value that is no command.
fn passes_command(word: &str) -> bool
    ensures { result ≡ (takes_number word.now || is_folder word.now) }
{
    takes_number(word) || is_folder(word)
}

/// What is asked after a number of turns. None where it is unreadable.
fn with_turns(wish: Wish, turns: Option<u64>) -> Option<Wish>
    requires { IfSome turns (λ n. 1 ≤ n) }
    ensures asked { result ≡ with_turns wish turns }
    ensures above { IfSome result (λ asked. 1 ≤ asked.turns) }
{
    let turns = turns?;
    Some(Wish { turns, ..wish })
}

/// What is shown where a demo of so many lines is asked for: `-v` and `-h` overrule it.
fn shown_after(shows: Shows, lines: u32) -> Shows
    ensures { result ≡ shown_after shows lines }
{
    match shows {
        Shows::Version => Shows::Version,
        Shows::Help => Shows::Help,
        Shows::Nothing | Shows::Demo(_) => Shows::Demo(lines),
    }
}

/// What is asked after a number of lines of a demo. None where it is unreadable.
fn with_demo(wish: Wish, lines: Option<u32>) -> Option<Wish>
    ensures asked { result ≡ with_demo wish lines }
    ensures turns { IfSome result (λ asked. asked.turns ≡ wish.turns) }
{
    let lines = lines?;
    Some(Wish {
        shows: shown_after(wish.shows, lines),
        ..wish
    })
}

/// What is asked after a word that takes a value, and its value. None where that is unreadable.
#[tactic(auto, unfolding(crate::specs::Words::asked_with))]
fn asked_with(wish: Wish, word: &str, value: &[u8]) -> Option<Wish>
    requires above { 1 ≤ wish.turns }
    ensures asked { result ≡ asked_with wish word.now value.now }
    ensures above { IfSome result (λ asked. 1 ≤ asked.turns) }
{
    if is_turns(word) {
        return with_turns(wish, turns_of(value));
    }
    if is_demo(word) {
        return with_demo(wish, demo_of(value));
    }
    Some(wish)
}

/// The first word, and the words after it.
fn first(words: &[String]) -> Option<(&str, &[String])>
    ensures some { IfSome result (λ found. map string_bytes words.now
        ≡ found.0.now ∷ map string_bytes found.1.now) }
    ensures within { IfSome result (λ found. length found.1.now + 1 ≡ length words.now) }
    ensures none { result ≡ None → words.now ≡ [] }
{
    match words {
        [word, others @ ..] => Some((word.as_str(), others)),
        [] => None,
    }
}

/// Reads the words: `-v`, `-h` or `--help`, `-a`, `--turns` or `--demo` and a number, `-d` and a
/// folder, `-r` and a command. Of `-v` and `-h`, and of a repeated number, the last counts; both
/// overrule `--demo`. The number is that of the first fault, counted from 1: the unknown word, the
/// word whose value is missing, or the unreadable value.
#[tactic(auto, using(crate::proofs::WordsLemmas::read_words_facts))]
pub fn read_words(words: &[String]) -> Result<Wish, u64>
    ensures wish { result ≡ wish_of (map string_bytes words.now) }
    ensures above { IfOk result (λ wish. 1 ≤ wish.turns) }
{
    let mut wish = Wish {
        shows: Shows::Nothing,
        turns: 1 << 62,
        holds: false,
    };
    let mut place = 0;
    let mut rest = words;
    while let Some((word, others)) = first(rest) {
        if let Some(asked) = asked_by(wish, word) {
            wish = asked;
            place += 1;
            rest = others;
            continue;
        }
        let Some((value, following)) = first(others) else {
            return Err(place + 1);
        };
        if !takes_value(word) {
            return Err(place + 1);
        }
        let Some(asked) = asked_with(wish, word, value.as_bytes()) else {
            return Err(place + 2);
        };
        wish = asked;
        place += 2;
        rest = following;
    }
    Ok(wish)
}

/// The folder that the words name: the value of the last `-d`. There is none where no word is `-d`
/// with a value.
pub fn config_dir(words: &Vec<String>) -> Option<&str>
    ensures { option_copied result ≡ folder_of (map string_bytes words.now.items) }
{
    let mut folder = None;
    let mut rest = words.as_slice();
    while let Some((word, others)) = first(rest) {
        let Some((value, following)) = first(others) else {
            return folder;
        };
        if is_folder(word) {
            folder = Some(value);
            rest = following;
        } else if passes_folder(word) {
            rest = following;
        } else {
            rest = others;
        }
    }
    folder
}

/// A command with a slash in front.
fn with_slash(alloc: Global, command: &str) -> Result<String, NoMemory>
    ensures { IfOk result (λ slashed. string_bytes slashed ≡ with_slash command.now) }
{
    let mut slashed = String::new(alloc);
    if command.as_bytes().first() != Some(&b'/') {
        slashed.push_str("/")?;
    }
    slashed.push_str(command)?;
    Ok(slashed)
}

/// The commands that are run at the start, in order: the value of each `-r`, with a slash in front.
pub fn start_commands(alloc: Global, words: &[String]) -> Result<Vec<String>, NoMemory>
    ensures { IfOk result (λ commands. map string_bytes commands.items
        ≡ commands_of (map string_bytes words.now)) }
{
    let mut commands = Vec::new(alloc);
    let mut rest = words;
    while let Some((word, others)) = first(rest) {
        let Some((value, following)) = first(others) else {
            return Ok(commands);
        };
        if is_command(word) {
            let command = with_slash(alloc, value)?;
            if commands.push(command).is_err() {
                return Err(NoMemory);
            }
            rest = following;
        } else if passes_command(word) {
            rest = following;
        } else {
            rest = others;
        }
    }
    Ok(commands)
}
