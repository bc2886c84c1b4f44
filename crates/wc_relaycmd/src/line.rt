ghost use Rattle.std.specs.Prelude.{◌≡◌, ◌↔◌, ℕ, Bool, List, Option, Some, None, IfOk, IfSome};
ghost use Rattle.std.specs.Prelude.{OnErr, IsTrue, option_map};
ghost use Rattle.std.specs.Str.{IsUtf8};
ghost use Rattle.wc_relaycmd.specs.Answers.{tag_of, tag_seen, call_named, call_of, command_of};
ghost use Rattle.wc_relaycmd.specs.Answers.{asked_by, request_of};
ghost use Rattle.wc_relaycmd.specs.Escapes.{without_escapes, arguments_meant};
ghost use Rattle.wc_relaycmd.specs.Grammar.{HasCommand, ReadsRequest};
ghost use Rattle.wc_relaycmd.specs.Utf8.{RequestIsUtf8};
ghost use Rattle.wc_relaycmd.specs.declared.request.Request.{Request};

use crate::arguments::command;
use crate::escapes::unescape;
use crate::request::{Command, Request};
use crate::word::Word;
use std::alloc::Global;
use wc_text::{NoMemory, Text, cut_at, cut_word, past_blanks, split_once};

/// What a line calls.
#[derive(Clone, Copy)]
pub struct Call<'a> {
    pub id: &'a [u8],
    pub word: Word,
    pub arguments: &'a [u8],
}

/// The id at the front of a text, empty where none is there, and what follows it. None where the id
/// begins with
/// `_`, or its parenthesis is not closed.
fn cut_tag(text: &[u8]) -> Option<(&[u8], &[u8])>
    ensures { option_map tag_seen result ≡ tag_of text.now }
{
    let [b'(', named @ ..] = text else {
        return Some((&[], text));
    };
    if let [b'_', ..] = named {
        return None;
    }
    let (id, text_after) = split_once(named, b')');
    Some((id, text_after?))
}

/// What a line calls. It takes no memory.
#[tactic(auto, unfolding(crate::specs::Answers::call_of))]
fn read_call(line: &[u8]) -> Option<Call<'_>>
    ensures { option_map call_named result ≡ call_of line.now }
{
    let (id, text_after) = cut_tag(past_blanks(line))?;
    let (name, arguments) = cut_word(past_blanks(text_after));
    let word = Word::named(name)?;
    Some(Call {
        id,
        word,
        arguments,
    })
}

/// What the arguments ask once their escapes are read. A text without a `\` is not copied for it,
/// and one that is asked for as it is is moved into the command.
#[tactic(auto, unfolding(crate::specs::Answers::command_of))]
fn escaped_command(alloc: Global, word: Word, arguments: &[u8]) -> Result<Option<Command>, NoMemory>
    ensures { IfOk result (λ asked. asked ≡ command_of word (without_escapes arguments.now)) }
{
    let (_, text_after) = cut_at(arguments, b'\\');
    if text_after.is_empty() {
        return command(alloc, word, arguments);
    }
    let text = unescape(alloc, arguments)?;
    match word {
        Word::Ping => Ok(Some(Command::Ping(text))),
        _ => command(alloc, word, text.as_slice()),
    }
}

fn meant_command(
    alloc: Global,
    word: Word,
    arguments: &[u8],
    escaped: bool,
) -> Result<Option<Command>, NoMemory>
    ensures { IfOk result (λ asked. asked ≡ command_of word
        (arguments_meant escaped arguments.now)) }
{
    if escaped {
        escaped_command(alloc, word, arguments)
    } else {
        command(alloc, word, arguments)
    }
}

#[tactic(auto, unfolding(crate::specs::Answers::asked_by))]
fn request_by(alloc: Global, call: Call<'_>, escaped: bool) -> Result<Option<Request>, NoMemory>
    ensures { IfOk result (λ asked. asked ≡ asked_by escaped (call_named call.entry)) }
{
    match meant_command(alloc, call.word, call.arguments, escaped)? {
        Some(command) => Ok(Some(request_under(alloc, call.id, command)?)),
        None => Ok(None),
    }
}

fn request_under(alloc: Global, id: &[u8], command: Command) -> Result<Request, NoMemory>
    ensures { IfOk result (λ request. request ≡ record { id = id.now; command = command }) }
{
    let id = Text::from_slice(alloc, id)?;
    Ok(Request { id, command })
}

fn is_text(line: &[u8]) -> bool
    ensures { IsTrue result ↔ IsUtf8 line.now }
{
    match std::str::from_utf8(line) {
        Ok(_) => true,
        Err(_) => false,
    }
}

fn request_in(alloc: Global, line: &[u8], escaped: bool) -> Result<Option<Request>, NoMemory>
    ensures computed { IfOk result (λ asked. asked ≡ request_of escaped line.now) }
    ensures refused { OnErr result (HasCommand line.now) }
{
    if !is_text(line) {
        return Ok(None);
    }
    let Some(call) = read_call(line) else {
        return Ok(None);
    };
    request_by(alloc, call, escaped)
}

/// The request that a line of the WeeChat relay protocol spells, where `escaped` says whether the
/// client asked for
/// `escape_commands`. None exactly where the line is outside the grammar.
///
/// A line that is not UTF-8, or has no command's word after its optional id, takes no memory.
pub fn read_request(alloc: Global, line: &[u8], escaped: bool) -> Result<Option<Request>, NoMemory>
    // What is read is in the grammar, and nothing in it is refused.
    ensures read { IfOk result (λ asked. IfSome asked (ReadsRequest line.now escaped)) }
    ensures unread { result ≡ Ok None → (request : Request) →
        ¬ (ReadsRequest line.now escaped request) }
    ensures computed { IfOk result (λ asked. asked ≡ request_of escaped line.now) }

    // Each text of the request is UTF-8.
    ensures texts { IfOk result (λ asked. IfSome asked RequestIsUtf8) }
    ensures without_memory { ¬ (HasCommand line.now) → result ≡ Ok None }
{
    request_in(alloc, line, escaped)
}

/// A line has at most one request, and it is the one that is computed.
pub fn one_request()
    ensures one { (line : List ℕ) (escaped : Bool) (a b : Request) → ReadsRequest line escaped a →
        ReadsRequest line escaped b → a ≡ b }
    ensures computed { (line : List ℕ) (escaped : Bool) (request : Request) →
        ReadsRequest line escaped request ↔ (request_of escaped line ≡ Some request) }
{}
