ghost use Rattle.std.specs.Option.{option_copied};
ghost use Rattle.std.specs.Prelude.{◌≡◌, ℕ, List};
ghost use Rattle.wc_core.specs.Typed.{set_property, Adds, Merges, wrong_buffer, one_word};
ghost use Rattle.wc_core.specs.Typed.{without_words, some_text, moves_to, close_command};
ghost use Rattle.wc_core.specs.Typed.{switch_command, buffer_command};
ghost use Rattle.wc_core.specs.TypedSeen.{name_of, word_named, set_to, set_var_property, meaning};
ghost use Rattle.wc_core.specs.TypedSeen.{only_word, property_set};
ghost use Rattle.wc_text.specs.Splits.{word_of, rest_of};

use crate::typed::{CommandText, read_number, wrong_arguments};
use crate::typed_hotlist::hotlist_property;
use wc_text::cut_word;

/// The word after `/buffer`.
#[derive(Clone, Copy, PartialEq, Eq)]
pub(crate) enum BufferWord {
    Add,
    Close,
    Move,
    Merge,
    Unmerge,
    Hide,
    Unhide,
    Clear,
    Set,
}

impl BufferWord {
    const ALL: [BufferWord; 9] = [
        BufferWord::Add,
        BufferWord::Close,
        BufferWord::Move,
        BufferWord::Merge,
        BufferWord::Unmerge,
        BufferWord::Hide,
        BufferWord::Unhide,
        BufferWord::Clear,
        BufferWord::Set,
    ];

    fn name(self) -> &'static [u8]
        ensures { result.now ≡ name_of self }
    {
        match self {
            BufferWord::Add => b"add",
            BufferWord::Close => b"close",
            BufferWord::Move => b"move",
            BufferWord::Merge => b"merge",
            BufferWord::Unmerge => b"unmerge",
            BufferWord::Hide => b"hide",
            BufferWord::Unhide => b"unhide",
            BufferWord::Clear => b"clear",
            BufferWord::Set => b"set",
        }
    }

    /// The word that is written so, with case kept.
    pub(crate) fn named(text: &[u8]) -> Option<BufferWord>
        ensures { result ≡ word_named text.now }
    {
        BufferWord::ALL
            .iter()
            .copied()
            .find(|word| text == word.name())
    }
}

/// What `/buffer set` sets.
pub(crate) enum Property<'a> {
    Name,
    ShortName,
    Title,
    /// Which news a client has not seen.
    Hotlist,
    /// The variable that is named after `localvar_set_`.
    SetVar(&'a [u8]),
    /// The variable that is named after `localvar_del_`.
    RemoveVar(&'a [u8]),
}

const SET_VAR: &[u8] = b"localvar_set_";

const REMOVE_VAR: &[u8] = b"localvar_del_";

/// The property of a variable.
fn var_property(word: &[u8]) -> Option<Property<'_>>
    ensures { (text : List ℕ) → set_to result text ≡ set_var_property word.now text }
{
    if word.starts_with(SET_VAR) {
        return Some(Property::SetVar(word.split_at(13).1));
    }
    if word.starts_with(REMOVE_VAR) {
        return Some(Property::RemoveVar(word.split_at(13).1));
    }
    None
}

/// The property that is written so.
pub(crate) fn read_property(word: &[u8]) -> Option<Property<'_>>
    ensures { (text : List ℕ) → set_to result text ≡ set_property word.now text }
{
    if word == b"name".as_slice() {
        Some(Property::Name)
    } else if word == b"short_name".as_slice() {
        Some(Property::ShortName)
    } else if word == b"title".as_slice() {
        Some(Property::Title)
    } else if word == b"hotlist".as_slice() {
        Some(Property::Hotlist)
    } else {
        var_property(word)
    }
}

fn wrong_buffer<'a>() -> CommandText<'a>
    ensures { meaning result ≡ wrong_buffer }
{
    wrong_arguments(b"buffer")
}

/// The word of a text that has one and no more.
pub(crate) fn only_word(text: &[u8]) -> Option<&[u8]>
    ensures { option_copied result ≡ only_word text.now }
{
    let (word, rest) = cut_word(text);
    if text.is_empty() || !rest.is_empty() {
        return None;
    }
    Some(word)
}

/// A new buffer of this name.
fn add(text: &[u8]) -> CommandText<'_>
    ensures { meaning result ≡ one_word (λ name. Adds name) text.now }
{
    match only_word(text) {
        Some(name) => CommandText::Add(name),
        None => wrong_buffer(),
    }
}

fn close(text: &[u8]) -> CommandText<'_>
    ensures { meaning result ≡ close_command text.now }
{
    if text.is_empty() {
        return CommandText::Close(None);
    }
    match only_word(text) {
        Some(name) => CommandText::Close(Some(name)),
        None => wrong_buffer(),
    }
}

fn move_to(text: &[u8]) -> CommandText<'_>
    ensures { meaning result ≡ one_word moves_to text.now }
{
    match only_word(text).and_then(read_number) {
        Some(number) => CommandText::MoveTo(number),
        None => wrong_buffer(),
    }
}

fn merge(text: &[u8]) -> CommandText<'_>
    ensures { meaning result ≡ one_word (λ name. Merges name) text.now }
{
    match only_word(text) {
        Some(name) => CommandText::Merge(name),
        None => wrong_buffer(),
    }
}

/// What is asked where no word comes after it.
fn without_words<'a>(asked: CommandText<'a>, text: &'a [u8]) -> CommandText<'a>
    ensures { meaning result ≡ without_words (meaning asked.entry) text.now }
{
    if text.is_empty() {
        asked
    } else {
        wrong_buffer()
    }
}

/// What is asked where a text comes after it.
fn with_value<'a>(asked: CommandText<'a>, text: &'a [u8]) -> CommandText<'a>
    ensures { meaning result ≡ some_text (λ value. meaning asked.entry) text.now }
{
    if text.is_empty() {
        wrong_buffer()
    } else {
        asked
    }
}

/// A property of the buffer.
fn set_to<'a>(property: Property<'a>, text: &'a [u8]) -> CommandText<'a>
    ensures { meaning result ≡ property_set property.entry text.now }
{
    match property {
        Property::Name => with_value(CommandText::Name(text), text),
        Property::ShortName => with_value(CommandText::ShortName(text), text),
        Property::Title => with_value(CommandText::Title(text), text),
        Property::Hotlist => hotlist_property(text),
        Property::SetVar(name) => with_value(CommandText::SetVar { name, value: text }, text),
        Property::RemoveVar(name) => without_words(CommandText::RemoveVar(name), text),
    }
}

fn set(text: &[u8]) -> CommandText<'_>
    ensures { meaning result ≡ set_property (word_of text.now) (rest_of text.now) }
{
    let (word, rest) = cut_word(text);
    match read_property(word) {
        Some(property) => set_to(property, rest),
        None => wrong_buffer(),
    }
}

/// The buffer that a word names is to be shown.
fn switch<'a>(word: &'a [u8], text: &'a [u8]) -> CommandText<'a>
    ensures { meaning result ≡ switch_command word.now text.now }
{
    if word.is_empty() {
        return wrong_buffer();
    }
    without_words(CommandText::Switch(word), text)
}

/// What `/buffer` asks for.
pub(crate) fn buffer_command(text: &[u8]) -> CommandText<'_>
    ensures { meaning result ≡ buffer_command text.now }
{
    let (word, rest) = cut_word(text);
    match BufferWord::named(word) {
        Some(BufferWord::Add) => add(rest),
        Some(BufferWord::Close) => close(rest),
        Some(BufferWord::Move) => move_to(rest),
        Some(BufferWord::Merge) => merge(rest),
        Some(BufferWord::Unmerge) => without_words(CommandText::Unmerge, rest),
        Some(BufferWord::Hide) => without_words(CommandText::Hide, rest),
        Some(BufferWord::Unhide) => without_words(CommandText::Unhide, rest),
        Some(BufferWord::Clear) => without_words(CommandText::Clear, rest),
        Some(BufferWord::Set) => set(rest),
        None => switch(word, rest),
    }
}
