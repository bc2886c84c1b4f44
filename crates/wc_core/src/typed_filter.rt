ghost use Rattle.std.specs.Prelude.{◌≡◌};
ghost use Rattle.wc_core.specs.Typed.{add_filter, filter_command, filter_with, one_filter, switch_filters};
ghost use Rattle.wc_core.specs.TypedSeen.{meaning, only_word};
ghost use Rattle.wc_core.specs.declared.typed_filter.FilterChange.TheVariants as filtering;

use crate::typed::{CommandText, wrong_arguments};
use crate::typed_buffer::only_word;
use wc_filters::Switch;
use wc_text::{Text, cut_word};

/// A change of filters, whose texts are lent by a line.
#[derive(Clone, Copy)]
pub enum FilterUse<'a> {
    /// One more, after the others.
    Add {
        name: &'a [u8],
        buffers: &'a [u8],
        tags: &'a [u8],
        pattern: &'a [u8],
    },
    /// Those of this name go.
    Delete(&'a [u8]),
    /// Those of a name, or without one all, are enabled, disabled or both.
    Switch {
        name: Option<&'a [u8]>,
        switch: Switch,
    },
}

/// A change of filters.
#[derive(Drop)]
pub enum FilterChange {
    /// One more, after the others.
    Add {
        name: Text,
        buffers: Text,
        tags: Text,
        pattern: Text,
    },
    /// Those of this name go.
    Delete(Text),
    /// The flag of those of a name is switched, or without one that of each.
    Switch {
        name: Option<Text>,
        switch: Switch,
    },
}

/// A filter whose pattern is not empty.
fn filter_with<'a>(
    name: &'a [u8],
    buffers: &'a [u8],
    tags: &'a [u8],
    pattern: &'a [u8],
) -> CommandText<'a>
    ensures { meaning result ≡ filter_with name.now buffers.now tags.now pattern.now }
{
    if pattern.is_empty() {
        return wrong_arguments(b"filter");
    }
    CommandText::UseFilters(FilterUse::Add {
        name,
        buffers,
        tags,
        pattern,
    })
}

/// Three words, and the pattern after them, which may have blanks.
fn add_filter(text: &[u8]) -> CommandText<'_>
    ensures { meaning result ≡ add_filter text.now }
{
    let (name, rest) = cut_word(text);
    let (buffers, rest) = cut_word(rest);
    let (tags, pattern) = cut_word(rest);
    filter_with(name, buffers, tags, pattern)
}

/// The name of the filters that go, alone.
fn delete_filter(text: &[u8]) -> CommandText<'_>
    ensures { meaning result ≡ one_filter filtering.Delete text.now }
{
    match only_word(text) {
        Some(name) => CommandText::UseFilters(FilterUse::Delete(name)),
        None => wrong_arguments(b"filter"),
    }
}

/// A name alone, or nothing.
fn switch_filters(switch: Switch, text: &[u8]) -> CommandText<'_>
    ensures { meaning result ≡ switch_filters switch text.now }
{
    if text.is_empty() {
        return CommandText::UseFilters(FilterUse::Switch { name: None, switch });
    }
    match only_word(text) {
        Some(name) => CommandText::UseFilters(FilterUse::Switch {
            name: Some(name),
            switch,
        }),
        None => wrong_arguments(b"filter"),
    }
}

/// What `/filter` asks for.
pub(crate) fn filter_command(text: &[u8]) -> CommandText<'_>
    ensures { meaning result ≡ filter_command text.now }
{
    let (word, rest) = cut_word(text);
    if word == b"add".as_slice() {
        add_filter(rest)
    } else if word == b"del".as_slice() {
        delete_filter(rest)
    } else if word == b"enable".as_slice() {
        switch_filters(Switch::Enable, rest)
    } else if word == b"disable".as_slice() {
        switch_filters(Switch::Disable, rest)
    } else if word == b"toggle".as_slice() {
        switch_filters(Switch::Toggle, rest)
    } else {
        wrong_arguments(b"filter")
    }
}
