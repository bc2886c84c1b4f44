ghost use Rattle.std.specs.Prelude.{◌≡◌, ◌≢◌, ◌↔◌, ◌⊎◌, ℕ, List, Ok, Err, IfOk, IfErr};
ghost use Rattle.std.specs.Prelude.{length};
ghost use Rattle.wc_text.specs.Lossy.{lossy_of};
ghost use Rattle.wc_ircmsg.specs.Answers.{tags_of, source_of, call_of, message_from, refusal_of};
ghost use Rattle.wc_ircmsg.specs.Answers.{reading_of};
ghost use Rattle.wc_ircmsg.specs.Grammar.{SpellsLine, RefusesLine, ReadsLine};
ghost use Rattle.wc_ircmsg.specs.Utf8.{MessageIsUtf8};
ghost use Rattle.wc_ircmsg.specs.Written.{IsWritable, line_of, without_prefix};
ghost use Rattle.wc_ircmsg.specs.declared.message.Message.{Message};
ghost use Rattle.wc_ircmsg.specs.declared.message.LineRefused.{LineRefused};

use crate::command::is_command;
use crate::marked::cut_marked;
use crate::message::{LineRefused, Message};
use crate::params::read_params;
use crate::source::cut_source;
use std::alloc::Global;
use wc_text::{NoMemory, Text, cut_word, lossy, past_blanks};

/// The tags at the front of a text, without their `@`, the prefix, without its `:`, and from the
/// command on.
#[rattlefmt::skip]
#[tactic(auto, unfolding(
    crate::specs::Answers::tags_of,
    crate::specs::Answers::source_of,
    crate::specs::Answers::call_of,
    crate::specs::Answers::untagged_of
))]
fn cut_front(text: &[u8]) -> (&[u8], &[u8], &[u8])
    ensures tags { result.0.now ≡ tags_of text.now }
    ensures source { result.1.now ≡ source_of text.now }
    ensures call { result.2.now ≡ call_of text.now }
{
    let (tags, untagged) = cut_marked(past_blanks(text), b'@');
    let (prefix, call) = cut_marked(untagged, b':');
    (tags, prefix, call)
}

/// The message with these parts.
#[tactic(auto, unfolding(crate::specs::Answers::message_from))]
fn message(
    alloc: Global,
    tags: &[u8],
    prefix: &[u8],
    command: &[u8],
    rest: &[u8],
) -> Result<Message, NoMemory>
    ensures { IfOk result (λ message. message
        ≡ message_from tags.now prefix.now command.now rest.now) }
{
    let source = cut_source(prefix);
    let tags = Text::from_slice(alloc, tags)?;
    let nick = Text::from_slice(alloc, source.nick)?;
    let user = Text::from_slice(alloc, source.user)?;
    let host = Text::from_slice(alloc, source.host)?;
    let command = Text::from_slice(alloc, command)?;
    let params = read_params(alloc, rest)?;
    Ok(Message {
        tags,
        nick,
        user,
        host,
        command,
        params,
    })
}

/// Why a text without a command is refused, of which this is where the command has to be.
#[tactic(auto, using(crate::proofs::ReadLemmas::refusals))]
fn refusal(text: &[u8], call: &[u8]) -> LineRefused
    requires { call.now ≡ call_of text.now }
    ensures { result ≡ refusal_of text.now }
{
    if past_blanks(text).is_empty() {
        return LineRefused::Empty;
    }
    LineRefused::BadCommand {
        place: text.len() - call.len(),
    }
}

#[tactic(auto, unfolding(crate::specs::Answers::reading_of))]
fn read_text(alloc: Global, text: &[u8]) -> Result<Message, LineRefused>
    ensures read { IfOk result (λ message. reading_of text.now ≡ Ok message) }
    ensures refused { IfErr result (λ refused. refused ≢ LineRefused.NoMemory → reading_of text.now
        ≡ Err refused) }
{
    let (tags, prefix, call) = cut_front(text);
    let (command, rest) = cut_word(call);
    if !is_command(command) {
        return Err(refusal(text, call));
    }
    Ok(message(alloc, tags, prefix, command, rest)?)
}

/// The message that a line spells in the grammar of RFC 1459 and RFC 2812. The line comes without
/// its CR LF, and its bytes are made UTF-8 by `lossy` first.
///
/// Blanks may be in front, and where one has to be there may be more. A first word that begins
/// with `@` has the tags. Of a prefix the nick goes up to the first `!` or `@`, the
/// user up to the first `@`. A parameter after a `:` takes the rest of the line, and so does the
/// fifteenth without one.
///
/// Refused as `Empty` exactly where the line has no word, and as `BadCommand` exactly where no
/// command of letters or of three digits comes after tags and prefix.
pub fn read_line(alloc: Global, line: &[u8]) -> Result<Message, LineRefused>
    // What is read is spelled so, what is spelled so is read, and a line is refused only for its
    // reason.
    ensures read { IfOk result (ReadsLine line.now) }
    ensures only { (message : Message) → ReadsLine line.now message → (result ≡ Ok message)
        ⊎ (result ≡ Err LineRefused.NoMemory) }
    ensures refused { IfErr result (λ refused. refused ≢ LineRefused.NoMemory →
        RefusesLine (lossy_of line.now) refused) }

    // Which answer it is, if memory is found.
    ensures computed { IfOk result (λ message. reading_of (lossy_of line.now) ≡ Ok message) }
    ensures refusal { IfErr result (λ refused. refused ≢ LineRefused.NoMemory →
        reading_of (lossy_of line.now) ≡ Err refused) }

    // Each text of the message is UTF-8.
    ensures texts { IfOk result MessageIsUtf8 }
{
    let text = lossy(alloc, line)?;
    read_text(alloc, text.as_slice())
}

/// A text spells one message or is refused for one reason, which are those that are computed; and
/// the line that is written of a message spells it without its prefix.
pub fn one_message()
    ensures one { (text : List ℕ) (a b : Message) → SpellsLine text a → SpellsLine text b → a ≡ b }
    ensures spells { (text : List ℕ) (message : Message) →
        SpellsLine text message ↔ (reading_of text ≡ Ok message) }
    ensures refuses { (text : List ℕ) (refused : LineRefused) →
        RefusesLine text refused ↔ (reading_of text ≡ Err refused) }
    ensures written { (message : Message) → IsWritable message →
        SpellsLine (line_of message) (without_prefix message) }
{}
