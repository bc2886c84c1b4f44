ghost use Rattle.std.specs.Prelude.{◌≡◌, ◌≤◌, ℕ, List, length, slice_get, option_map};
ghost use Rattle.std.specs.Prelude.{IfOk, option_and_then};
ghost use Rattle.wc_text.specs.Integer.{integer_of};
ghost use Rattle.std.specs.Str.{IsUtf8};
ghost use Rattle.wc_eval.specs.Cuts.{split_value, part_of, parts_between, place_of};
ghost use Rattle.wc_eval.specs.Cuts.{or_comma, is_among, AreSeparators, after_separators};
ghost use Rattle.wc_eval.specs.Cuts.{before_separator, separator_count, spelled_or_empty};

use crate::characters::{characters, spelled};
use std::alloc::Global;
use std::collections::HashSet;
use wc_text::{NoMemory, Text, read_i64};

/// A set of these characters.
fn set_of(alloc: Global, characters: &[char]) -> Result<HashSet<char>, NoMemory>
    ensures { IfOk result (λ set. AreSeparators characters.now set) }
{
    let mut set = HashSet::new(alloc);
    for character in characters {
        let Ok(_) = set.insert(*character) else {
            return Err(NoMemory);
        };
    }
    Ok(set)
}

/// How many separators there are.
fn separator_count(characters: &[char], separators: &HashSet<char>) -> usize
    ensures count { (of : List ℕ) → AreSeparators of separators.now →
        result ≡ separator_count (is_among of) characters.now }
    ensures most { result ≤ length characters.now }
{
    let mut count = 0;
    for character in characters {
        if separators.contains(character) {
            count += 1;
        }
    }
    count
}

/// How many parts there are. Without characters there is none.
fn part_count(characters: &[char], separators: &HashSet<char>) -> usize
    ensures { (of : List ℕ) → AreSeparators of separators.now →
        result ≡ length (parts_between (is_among of) characters.now) }
{
    if characters.is_empty() {
        return 0;
    }
    separator_count(characters, separators) + 1
}

/// What comes after so many separators.
fn after_separators<'a>(
    characters: &'a [char],
    separators: &HashSet<char>,
    count: usize,
) -> Option<&'a [char]>
    ensures { (of : List ℕ) → AreSeparators of separators.now →
        option_map (λ rest. rest.now) result
        ≡ after_separators (is_among of) count characters.now }
{
    let mut left = count;
    let mut rest = characters;
    'characters: while left > 0 {
        let (first, others) = rest.split_first()?;
        if separators.contains(first) {
            left -= 1;
        }
        rest = others;
    }
    Some(rest)
}

/// How many characters are before the next separator.
fn part_length(characters: &[char], separators: &HashSet<char>) -> usize
    ensures length { (of : List ℕ) → AreSeparators of separators.now →
        result ≡ length (before_separator (is_among of) characters.now) }
    ensures most { result ≤ length characters.now }
{
    let mut rest = characters;
    'characters: while let Some((first, others)) = rest.split_first() {
        if separators.contains(first) {
            return characters.len() - rest.len();
        }
        rest = others;
    }
    characters.len()
}

/// The part at a place from 0, or nothing.
fn part_at(
    alloc: Global,
    characters: &[char],
    separators: &HashSet<char>,
    place: usize,
) -> Result<Text, NoMemory>
    ensures text { IfOk result (λ value. (of : List ℕ) → AreSeparators of separators.now →
        value ≡ spelled_or_empty (slice_get (parts_between (is_among of) characters.now) place)) }
    ensures utf8 { IfOk result IsUtf8 }
{
    if characters.is_empty() {
        return Ok(Text::new(alloc));
    }
    let Some(rest) = after_separators(characters, separators, place) else {
        return Ok(Text::new(alloc));
    };
    spelled(alloc, rest.split_at(part_length(rest, separators)).0)
}

/// The place of a part that is numbered from 1, or from -1 backward.
fn place_of(number: i64, count: usize) -> Option<usize>
    ensures { result ≡ place_of number count }
{
    if number > 0 {
        return Some((number - 1) as usize);
    }
    if number == 0 {
        return None;
    }
    count.checked_sub(number.unsigned_abs() as usize)
}

/// The place of the part that a text asks for.
fn place_in(number: &[u8], count: usize) -> Option<usize>
    ensures { result ≡ option_and_then (λ z. place_of z count) (integer_of number.now) }
{
    place_of(read_i64(number)?, count)
}

/// A part by its number, or how many there are.
fn part_of(
    alloc: Global,
    number: &[u8],
    characters: &[char],
    separators: &HashSet<char>,
) -> Result<Text, NoMemory>
    ensures text { IfOk result (λ value. (of : List ℕ) → AreSeparators of separators.now →
        value ≡ part_of number.now (parts_between (is_among of) characters.now)) }
    ensures utf8 { IfOk result IsUtf8 }
{
    let count = part_count(characters, separators);
    if number == b"count".as_slice() {
        let digits = count.to_string(alloc)?;
        return Text::from_slice(alloc, digits.as_str().as_bytes());
    }
    match place_in(number, count) {
        Some(place) => part_at(alloc, characters, separators, place),
        None => Ok(Text::new(alloc)),
    }
}

/// Without separators a comma is one.
fn or_comma(characters: &[u8]) -> &[u8]
    ensures text { result.now ≡ or_comma characters.now }
{
    if characters.is_empty() {
        b","
    } else {
        characters
    }
}

/// The value of `${split:}`. There are no flags; without separators a comma is one.
pub(crate) fn split_value(
    alloc: Global,
    number: &[u8],
    separators: &[u8],
    flags: &[u8],
    text: &[u8],
) -> Result<Text, NoMemory>
    requires separators { IsUtf8 separators.now }
    requires text { IsUtf8 text.now }
    ensures text { IfOk result (λ value. value
        ≡ split_value number.now separators.now flags.now text.now) }
    ensures utf8 { IfOk result IsUtf8 }
{
    if !flags.is_empty() {
        return Ok(Text::new(alloc));
    }
    let among = characters(alloc, or_comma(separators))?;
    let set = set_of(alloc, among.as_slice())?;
    let characters = characters(alloc, text)?;
    part_of(alloc, number, characters.as_slice(), &set)
}
