ghost use Rattle.std.specs.Prelude.{◌≡◌};
ghost use Rattle.wc_core.specs.Typed.{hotlist_command, hotlist_value, input_command, news_command};
ghost use Rattle.wc_core.specs.Typed.{some_text};
ghost use Rattle.wc_core.specs.TypedSeen.{meaning};

use crate::typed::{CommandText, option_command, unknown_command, wrong_arguments};

/// Which rows of the hotlist are taken out.
#[derive(Clone, Copy)]
pub enum HotlistUse {
    /// All of them.
    Clear,
    /// That of the buffer into which the command was typed.
    Remove,
}

/// One of two words.
fn hotlist_command(text: &[u8]) -> CommandText<'_>
    ensures { meaning result ≡ hotlist_command text.now }
{
    if text == b"clear".as_slice() {
        CommandText::UseHotlist(HotlistUse::Clear)
    } else if text == b"remove".as_slice() {
        CommandText::UseHotlist(HotlistUse::Remove)
    } else {
        wrong_arguments(b"hotlist")
    }
}

/// The value of the property `hotlist` of a buffer. Other values than `-1` mean nothing here.
fn hotlist_value(value: &[u8]) -> CommandText<'_>
    ensures { meaning result ≡ hotlist_value value.now }
{
    if value == b"-1".as_slice() {
        CommandText::UseHotlist(HotlistUse::Remove)
    } else {
        CommandText::Nothing
    }
}

/// What the property `hotlist` of a buffer is set to.
pub(crate) fn hotlist_property(text: &[u8]) -> CommandText<'_>
    ensures { meaning result ≡ some_text hotlist_value text.now }
{
    if text.is_empty() {
        return wrong_arguments(b"buffer");
    }
    hotlist_value(text)
}

/// What clients type as they show another buffer.
fn input_command(text: &[u8]) -> CommandText<'_>
    ensures { meaning result ≡ input_command text.now }
{
    if text == b"set_unread_current_buffer".as_slice() {
        CommandText::Nothing
    } else if text == b"hotlist_clear".as_slice() {
        CommandText::UseHotlist(HotlistUse::Clear)
    } else {
        unknown_command(b"input")
    }
}

/// A command that changes which buffers have news, or else one of options.
#[tactic(auto, unfolding(crate::specs::Typed::news_command))]
pub(crate) fn news_command<'a>(name: &'a [u8], text: &'a [u8]) -> CommandText<'a>
    ensures { meaning result ≡ news_command name.now text.now }
{
    if name == b"input".as_slice() {
        input_command(text)
    } else if name == b"hotlist".as_slice() {
        hotlist_command(text)
    } else {
        option_command(name, text)
    }
}
