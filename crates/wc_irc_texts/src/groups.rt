ghost use Rattle.std.specs.Prelude.{◌≡◌, IfOk, codes, slice_index_or};
ghost use Rattle.wc_irc_texts.specs.Groups.{digit, group_name, group_names, group_at, sign_at};
ghost use Rattle.wc_irc_texts.specs.Texts.{char_texts};

use crate::names::cut_char;
use std::alloc::Global;
use wc_ircmsg::Prefixes;
use wc_text::{Items, NoMemory, Text};

/// The group of the nicks that have no mode of PREFIX.
const LAST_GROUP: &[u8] = b"999|...";

fn digit(number: usize) -> u8
    ensures { result ≡ digit number }
{
    b'0' + (number % 10) as u8
}

/// The group of a mode: its place in three digits, a bar and its letter.
fn group_name(alloc: Global, place: usize, letter: u8) -> Result<Text, NoMemory>
    ensures { IfOk result (λ name. name ≡ group_name place letter) }
{
    let name = [
        digit(place / 100),
        digit(place / 10),
        digit(place),
        b'|',
        letter,
    ];
    Text::from_slice(alloc, name.as_slice())
}

/// The groups of a channel's nicks, in order: one for each mode of PREFIX, and one for the others.
pub fn group_names(alloc: Global, prefixes: &Prefixes) -> Result<Items<Text>, NoMemory>
    ensures { IfOk result (λ names. names ≡ group_names prefixes.now) }
{
    let mut names = Items::new(alloc);
    let mut place = 0;
    for letter in prefixes.modes.as_slice() {
        names.push(group_name(alloc, place, *letter)?)?;
        place += 1;
    }
    names.push(Text::from_slice(alloc, LAST_GROUP)?)?;
    Ok(names)
}

/// The group of the nicks whose highest mode is at this place of PREFIX, or that of the nicks
/// without one.
pub fn group_at(alloc: Global, prefixes: &Prefixes, place: Option<usize>) -> Result<Text, NoMemory>
    ensures { IfOk result (λ name. name ≡ group_at prefixes.now place) }
{
    let Some(place) = place else {
        return Text::from_slice(alloc, LAST_GROUP);
    };
    match prefixes.modes.as_slice().get(place) {
        Some(letter) => group_name(alloc, place, *letter),
        None => Text::from_slice(alloc, LAST_GROUP),
    }
}

/// The character at a place of a text, or a space where there is none.
fn char_at(characters: &[u8], place: usize) -> &[u8]
    ensures { result.now ≡ slice_index_or (char_texts characters.now) place (codes " ") }
{
    let mut left = place;
    let mut rest = characters;
    while !rest.is_empty() {
        let (character, others) = cut_char(rest);
        if left == 0 {
            return character;
        }
        left -= 1;
        rest = others;
    }
    b" "
}

/// The character that shows the mode at this place of PREFIX, or a space where there is none.
pub fn sign_at(prefixes: &Prefixes, place: Option<usize>) -> &[u8]
    ensures { result.now ≡ sign_at prefixes.now place }
{
    match place {
        Some(place) => char_at(prefixes.chars.as_slice(), place),
        None => b" ",
    }
}
