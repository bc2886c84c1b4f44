ghost use Rattle.std.specs.Prelude.{◌≡◌, ◌≤◌, not, true, ◌==◌, All, IfOk, IfSome, option_map};
ghost use Rattle.std.specs.List.{list_all};
ghost use Rattle.std.specs.Str.{IsUtf8};
ghost use Rattle.wc_triggers.specs.Words.{ends_word, word_front, words_up_to, is_name, has_needed};
ghost use Rattle.wc_triggers.specs.Words.{quoted_word, trigger_words, word_at};
ghost use Rattle.wc_triggers.specs.Slashes.{unslashed};
ghost use Rattle.wc_text.specs.Splits.{past};

use crate::slashes::unslashed;
use std::alloc::Global;
use wc_text::{Items, NoMemory, Text, cut_word, past_blanks};

/// How many words a trigger may have.
const MOST_WORDS: usize = 8;

/// Whether the text is at its end or at a blank.
fn ends_word(text: &[u8]) -> bool
    ensures { result ≡ ends_word text.now }
{
    match text {
        [] => true,
        [byte, ..] => *byte == b' ',
    }
}

/// The word that goes up to the next quote, and what follows it after blanks. None where no quote
/// ends it, or where neither a blank nor the end comes after that quote.
fn quoted_word(alloc: Global, text: &[u8]) -> Result<Option<(Text, &[u8])>, NoMemory>
    ensures { IfOk result (λ front. option_map (λ front. (front.0, front.1.now)) front
        ≡ quoted_word (unslashed 34 true text.now).0 (unslashed 34 true text.now).1) }
{
    let (word, rest) = unslashed(alloc, text, b'"', true)?;
    let Some(rest) = rest else {
        return Ok(None);
    };
    if !ends_word(rest) {
        return Ok(None);
    }
    Ok(Some((word, past_blanks(rest))))
}

/// The word at the front of a text, and what follows it after blanks. None where it stands in quotes
/// wrongly.
fn word_front(alloc: Global, text: &[u8]) -> Result<Option<(Text, &[u8])>, NoMemory>
    ensures { IfOk result (λ front. option_map (λ front. (front.0, front.1.now)) front
        ≡ word_front text.now) }
{
    match text {
        [b'"', others @ ..] => quoted_word(alloc, others),
        _ => {
            let (word, rest) = cut_word(text);
            Ok(Some((Text::from_slice(alloc, word)?, rest)))
        }
    }
}

/// The words of a text. None where there are too many, or one stands in quotes wrongly.
fn words_of(alloc: Global, text: &[u8]) -> Result<Option<Items<Text>>, NoMemory>
    ensures { IfOk result (λ words. words ≡ words_up_to 8 (past 32 text.now)) }
{
    let mut words = Items::new(alloc);
    let mut rest = past_blanks(text);
    let mut left = MOST_WORDS;
    while !rest.is_empty() {
        if left == 0 {
            return Ok(None);
        }
        let Some((word, following)) = word_front(alloc, rest)? else {
            return Ok(None);
        };
        words.push(word)?;
        rest = following;
        left -= 1;
    }
    Ok(Some(words))
}

/// Whether a word is not empty and has no blank.
#[tactic(auto, unfolding(crate::specs::Words::is_name))]
pub(crate) fn is_name(word: &[u8]) -> bool
    ensures { result ≡ is_name word.now }
{
    match word {
        [] => false,
        _ => has_no_blank(word),
    }
}

fn has_no_blank(word: &[u8]) -> bool
    ensures { result ≡ list_all (λ byte. not (byte == 32)) word.now }
{
    word.iter().all(|byte| *byte != b' ')
}

/// Whether there are at least a name, a hook and its arguments.
fn has_needed(words: &[Text]) -> bool
    ensures { result ≡ has_needed words.now }
{
    match words {
        [name, _, _, ..] => is_name(name.as_slice()),
        _ => false,
    }
}

/// The words of a trigger. None where they are fewer than three or more than eight, where the first
/// is no name, or where one stands in quotes wrongly.
pub(crate) fn trigger_words(alloc: Global, text: &[u8]) -> Result<Option<Items<Text>>, NoMemory>
    ensures { IfOk result (λ words. words ≡ trigger_words text.now) }
{
    let Some(words) = words_of(alloc, text)? else {
        return Ok(None);
    };
    if has_needed(words.as_slice()) {
        Ok(Some(words))
    } else {
        Ok(None)
    }
}

/// The word at this place, which is empty where it lacks.
pub(crate) fn word_at(words: &[Text], place: usize) -> &[u8]
    ensures { result.now ≡ word_at words.now place }
{
    match words.get(place) {
        Some(word) => word.as_slice(),
        None => b"",
    }
}
