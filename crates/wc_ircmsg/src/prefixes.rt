ghost use Rattle.std.specs.Prelude.{◌≡◌, ◌==◌, ◌&&◌, nat_eq, length, Some, IfOk, IfSome};
ghost use Rattle.std.specs.Prelude.{option_map};
ghost use Rattle.std.specs.Str.{chars};
ghost use Rattle.wc_ircmsg.specs.Tokens.{each_once, parts_of, are_modes, are_chars, SpellsPrefixes};
ghost use Rattle.wc_ircmsg.specs.declared.prefixes.Prefixes.{Prefixes};

use crate::command::is_name;
use std::alloc::{AllocError, Global};
use wc_text::{NoMemory, Text, split_once};

/// The modes that a member of a channel may have, and the character that shows each, from the
/// highest on. There are as many characters as modes.
#[derive(Drop)]
pub struct Prefixes {
    pub modes: Text,
    pub chars: Text,
}

/// Whether no value is twice in the list.
fn each_once<T: PartialEq>(list: &[T]) -> bool
    ensures { result ≡ each_once T.eq list.now }
{
    let mut rest = list;
    while let [first, others @ ..] = rest {
        if others.contains(first) {
            return false;
        }
        rest = others;
    }
    true
}

/// What is between `(` and the first `)`, and after that.
fn cut_token(value: &[u8]) -> Option<(&[u8], &[u8])>
    ensures { option_map (λ parts. (parts.0.now, parts.1.now)) result ≡ parts_of value.now }
{
    let [b'(', text_after @ ..] = value else {
        return None;
    };
    let (modes, chars) = split_once(text_after, b')');
    Some((modes, chars?))
}

fn are_modes(modes: &[u8]) -> bool
    ensures { result ≡ are_modes modes.now }
{
    is_name(modes) && each_once(modes)
}

fn characters(alloc: Global, text: &str) -> Result<Vec<char>, AllocError>
    ensures { IfOk result (λ characters. characters.items ≡ chars text.now) }
{
    text.chars().collect(alloc)
}

fn each_char_once(alloc: Global, text: &str, count: usize) -> Result<bool, NoMemory>
    ensures { IfOk result (λ once. once ≡ ((length (chars text.now) == count) && each_once nat_eq
        (chars text.now))) }
{
    let characters = characters(alloc, text)?;
    Ok(characters.len() == count && each_once(characters.as_slice()))
}

/// Whether these are so many characters, each of them once.
#[tactic(auto, using(crate::proofs::TokenLemmas::utf8_tests))]
fn are_chars(alloc: Global, chars: &[u8], count: usize) -> Result<bool, NoMemory>
    ensures { IfOk result (λ are. are ≡ are_chars count chars.now) }
{
    match std::str::from_utf8(chars) {
        Ok(text) => each_char_once(alloc, text, count),
        Err(_) => Ok(false),
    }
}

/// The modes and characters of a server's token PREFIX, whose value is `(`, letters, `)` and as
/// many characters, as in
/// `(ov)@+`. None exactly where the value has another form, has no mode, or has a letter or a
/// character twice.
pub fn read_prefix_token(alloc: Global, value: &[u8]) -> Result<Option<Prefixes>, NoMemory>
    ensures found { IfOk result (λ read. IfSome read (SpellsPrefixes value.now)) }
    ensures only { IfOk result (λ read. (prefixes : Prefixes) → SpellsPrefixes value.now prefixes →
        read ≡ Some prefixes) }
{
    let Some((modes, chars)) = cut_token(value) else {
        return Ok(None);
    };
    if !are_modes(modes) || !are_chars(alloc, chars, modes.len())? {
        return Ok(None);
    }
    let modes = Text::from_slice(alloc, modes)?;
    let chars = Text::from_slice(alloc, chars)?;
    Ok(Some(Prefixes { modes, chars }))
}
