ghost use Rattle.std.specs.Prelude.{◌≡◌, Some, ◌++◌, ◌∷◌, [], IfOk, OnOk, filter};
ghost use Rattle.wc_core.specs.Typed.{no_text_here, unknown_command, wrong_arguments};
ghost use Rattle.wc_core.specs.Typed.{close_here, quit_command};
ghost use Rattle.wc_core.specs.Typed.{command, slash_command, typed_line, print_words};
ghost use Rattle.wc_core.specs.Typed.{set_option, set_command, unset_command, option_command};
ghost use Rattle.wc_core.specs.Typed.{save_command};
ghost use Rattle.wc_core.specs.Typed.{print_tagged, print_on, print_command, tags_of};
ghost use Rattle.wc_core.specs.Step.{other_of};
ghost use Rattle.wc_core.specs.TypedSeen.{meaning, word_in, number_of, texts_in};
ghost use Rattle.wc_text.specs.Words.{is_filled};

use crate::typed_buffer::{buffer_command, only_word};
use crate::typed_eval::{EvalUse, eval_command};
use crate::typed_filter::{FilterUse, filter_command};
use crate::typed_help::help_command;
use crate::typed_hotlist::{HotlistUse, news_command};
use std::alloc::Global;
use wc_text::{Items, NoMemory, Text, cut_word, split_once};

pub(crate) const UNKNOWN: &[u8] = b"unknown command: /";

const WRONG: &[u8] = b"wrong arguments: /";

/// What a line that is typed into a buffer asks for.
#[derive(Drop)]
pub enum CommandText<'a> {
    Nothing,
    /// The end of the run.
    Quit,
    /// A refusal, whose text is these two.
    Refused {
        front: &'a [u8],
        name: &'a [u8],
    },
    /// What the core does not know by itself. A refusal whose text is these two is told where no
    /// server takes it.
    Other {
        front: &'a [u8],
        name: &'a [u8],
    },
    /// A line of the buffer that is named, or else of the one into which it was typed. Commas part
    /// the tags.
    Print {
        buffer: Option<&'a [u8]>,
        tags: &'a [u8],
        prefix: &'a [u8],
        message: &'a [u8],
    },
    /// A new buffer.
    Add(&'a [u8]),
    /// The end of the buffer that is named, or else of the one into which it was typed.
    Close(Option<&'a [u8]>),
    MoveTo(u32),
    /// The buffer goes to the group of the one that is named.
    Merge(&'a [u8]),
    Unmerge,
    Hide,
    Unhide,
    Clear,
    /// Another name after the first dot of the full name.
    Name(&'a [u8]),
    ShortName(&'a [u8]),
    Title(&'a [u8]),
    SetVar {
        name: &'a [u8],
        value: &'a [u8],
    },
    RemoveVar(&'a [u8]),
    /// Another value of an option.
    SetOption {
        name: &'a [u8],
        value: &'a [u8],
    },
    /// The default of an option.
    UnsetOption(&'a [u8]),
    /// The buffer that is named is to be shown.
    Switch(&'a [u8]),
    /// The options are to be saved.
    Save,
    /// Rows of the hotlist are to be taken out.
    UseHotlist(HotlistUse),
    /// The filters are to change.
    UseFilters(FilterUse<'a>),
    /// The names of all commands are to be printed.
    ListCommands,
    /// A text that is evaluated.
    Eval {
        usage: EvalUse,
        text: &'a [u8],
    },
}

fn no_text_here<'a>() -> CommandText<'a>
    ensures { meaning result ≡ no_text_here }
{
    CommandText::Other {
        front: b"no text here",
        name: b"",
    }
}

pub(crate) fn unknown_command(name: &[u8]) -> CommandText<'_>
    ensures { meaning result ≡ unknown_command name.now }
{
    CommandText::Other {
        front: UNKNOWN,
        name,
    }
}

pub(crate) fn wrong_arguments(name: &[u8]) -> CommandText<'_>
    ensures { meaning result ≡ wrong_arguments name.now }
{
    CommandText::Refused { front: WRONG, name }
}

fn quit_command(text: &[u8]) -> CommandText<'_>
    ensures { meaning result ≡ quit_command text.now }
{
    if text.is_empty() {
        CommandText::Quit
    } else {
        wrong_arguments(b"quit")
    }
}

/// The end of the buffer into which it was typed.
fn close_here(text: &[u8]) -> CommandText<'_>
    ensures { meaning result ≡ close_here text.now }
{
    if text.is_empty() {
        CommandText::Close(None)
    } else {
        wrong_arguments(b"close")
    }
}

/// The option of a name gets a value, which is not empty.
fn set_option<'a>(name: &'a [u8], value: &'a [u8]) -> CommandText<'a>
    ensures { meaning result ≡ set_option name.now value.now }
{
    if value.is_empty() {
        return wrong_arguments(b"set");
    }
    CommandText::SetOption { name, value }
}

/// The option whose name is the first word gets what comes after it as its value.
fn set_command(text: &[u8]) -> CommandText<'_>
    ensures { meaning result ≡ set_command text.now }
{
    let (name, value) = cut_word(text);
    set_option(name, value)
}

/// The option whose name is the only word gets its default.
fn unset_command(text: &[u8]) -> CommandText<'_>
    ensures { meaning result ≡ unset_command text.now }
{
    match only_word(text) {
        Some(name) => CommandText::UnsetOption(name),
        None => wrong_arguments(b"unset"),
    }
}

fn save_command(text: &[u8]) -> CommandText<'_>
    ensures { meaning result ≡ save_command text.now }
{
    if text.is_empty() {
        CommandText::Save
    } else {
        wrong_arguments(b"save")
    }
}

/// The commands for options.
#[tactic(auto, unfolding(crate::specs::Typed::option_command))]
pub(crate) fn option_command<'a>(name: &'a [u8], text: &'a [u8]) -> CommandText<'a>
    ensures { meaning result ≡ option_command name.now text.now }
{
    if name == b"set".as_slice() {
        set_command(text)
    } else if name == b"unset".as_slice() {
        unset_command(text)
    } else if name == b"save".as_slice() {
        save_command(text)
    } else {
        unknown_command(name)
    }
}

fn command<'a>(name: &'a [u8], text: &'a [u8]) -> CommandText<'a>
    ensures { meaning result ≡ command name.now text.now }
{
    if name == b"print".as_slice() {
        print_command(text)
    } else if name == b"buffer".as_slice() {
        buffer_command(text)
    } else if name == b"close".as_slice() {
        close_here(text)
    } else if name == b"quit".as_slice() {
        quit_command(text)
    } else if name == b"eval".as_slice() {
        eval_command(text)
    } else if name == b"filter".as_slice() {
        filter_command(text)
    } else if name == b"help".as_slice() {
        help_command(text)
    } else {
        news_command(name, text)
    }
}

/// What comes after a `/`, which a second `/` makes a text.
fn slash_command(text: &[u8]) -> CommandText<'_>
    ensures { meaning result ≡ slash_command text.now }
{
    if let [b'/', ..] = text {
        return no_text_here();
    }
    let (name, rest) = cut_word(text);
    command(name, rest)
}

/// Reads a line that is typed into a buffer. What does not begin with a `/` is a text, which servers
/// may take.
#[tactic(auto, unfolding(crate::specs::Typed::typed_line))]
pub fn read_typed(line: &[u8]) -> CommandText<'_>
    ensures { meaning result ≡ typed_line line.now }
{
    match line {
        [] => CommandText::Nothing,
        [b'/', text @ ..] => slash_command(text),
        _ => no_text_here(),
    }
}

/// The refusal of a line that the core does not know by itself, as two texts. None where it knows
/// the line.
pub(crate) fn other_in(line: &[u8]) -> Option<(&[u8], &[u8])>
    ensures { texts_in result ≡ other_of (typed_line line.now) }
{
    match read_typed(line) {
        CommandText::Other { front, name } => Some((front, name)),
        _ => None,
    }
}

const BUFFER: &[u8] = b"-buffer";

const TAGS: &[u8] = b"-tags";

/// A text whose first tab parts the prefix from the message.
fn print_words<'a>(buffer: Option<&'a [u8]>, tags: &'a [u8], text: &'a [u8]) -> CommandText<'a>
    ensures { meaning result ≡ print_words (word_in buffer.entry) (tags_of tags.now) text.now }
{
    if text.is_empty() {
        return wrong_arguments(b"print");
    }
    match split_once(text, b'\t') {
        (prefix, Some(message)) => CommandText::Print {
            buffer,
            tags,
            prefix,
            message,
        },
        (_, None) => CommandText::Print {
            buffer,
            tags,
            prefix: b"",
            message: text,
        },
    }
}

/// After the buffer there may be tags.
fn print_tagged<'a>(buffer: &'a [u8], text: &'a [u8]) -> CommandText<'a>
    ensures { meaning result ≡ print_tagged (Some buffer.now) text.now }
{
    let (word, rest) = cut_word(text);
    if word != TAGS {
        return print_words(Some(buffer), b"", text);
    }
    let (tags, text) = cut_word(rest);
    print_words(Some(buffer), tags, text)
}

/// After the tags there may be a buffer.
fn print_on<'a>(tags: &'a [u8], text: &'a [u8]) -> CommandText<'a>
    ensures { meaning result ≡ print_on (tags_of tags.now) text.now }
{
    let (word, rest) = cut_word(text);
    if word != BUFFER {
        return print_words(None, tags, text);
    }
    let (buffer, text) = cut_word(rest);
    print_words(Some(buffer), tags, text)
}

/// What is to be printed: a text, which words for its buffer and for its tags may be before, in
/// either order.
pub(crate) fn print_command(text: &[u8]) -> CommandText<'_>
    ensures { meaning result ≡ print_command text.now }
{
    let (word, rest) = cut_word(text);
    if word == BUFFER {
        let (buffer, text) = cut_word(rest);
        return print_tagged(buffer, text);
    }
    if word == TAGS {
        let (tags, text) = cut_word(rest);
        return print_on(tags, text);
    }
    print_words(None, b"", text)
}

/// Puts a tag after the others, where it is not empty.
fn push_filled(tags: &mut Items<Text>, alloc: Global, tag: &[u8]) -> Result<(), NoMemory>
    ensures { OnOk result (tags.new ≡ tags.old ++ filter is_filled (tag.now ∷ [])) }
{
    if tag.is_empty() {
        return Ok(());
    }
    tags.push(Text::from_slice(alloc, tag)?)
}

/// The tags that commas part. Empty ones are passed over.
pub(crate) fn read_tags(alloc: Global, word: &[u8]) -> Result<Items<Text>, NoMemory>
    ensures { IfOk result (λ tags. tags ≡ tags_of word.now) }
{
    let mut tags = Items::new(alloc);
    let mut left = Some(word);
    while let Some(rest) = left {
        let (tag, following) = split_once(rest, b',');
        push_filled(&mut tags, alloc, tag)?;
        left = following;
    }
    Ok(tags)
}

/// The number that decimal digits write, or the largest of its type where that one is larger. None
/// where the bytes are no digits.
pub(crate) fn read_number(bytes: &[u8]) -> Option<u32>
    ensures { result ≡ number_of bytes.now }
{
    if bytes.is_empty() {
        return None;
    }
    let mut value: u32 = 0;
    for b in bytes {
        if !b.is_ascii_digit() {
            return None;
        }
        value = value
            .saturating_mul(10)
            .saturating_add(u32::from(*b - b'0'));
    }
    Some(value)
}
