ghost use Rattle.std.specs.Prelude.{◌≡◌, All, IfOk, IsTrue};
ghost use Rattle.std.specs.Str.{IsUtf8};
ghost use Rattle.wc_eval.specs.Verdicts.{Oracle, Agrees, Stay};
ghost use Rattle.wc_triggers.specs.Triggers.{by_code, by_hook, reading_of, fine_only};
ghost use Rattle.wc_triggers.specs.Triggers.{new_trigger, IsReading, IsFine};
ghost use Rattle.wc_triggers.specs.Replacements.{replacements_of, are_known, HasTexts};
ghost use Rattle.wc_triggers.specs.Words.{word_at};
ghost use Rattle.wc_triggers.specs.Commands.{commands_of};
ghost use Rattle.wc_triggers.specs.Outcomes.{code_of};
ghost use Rattle.wc_triggers.specs.Hooks.{kind_named};

use crate::arguments::{Arguments, arguments_of};
use crate::commands::commands_of;
use crate::hooks::kind_named;
use crate::outcomes::{PostAction, ReturnCode, code_of, post_of};
use crate::refused::TriggerRefused;
use crate::replacements::{Replacement, are_fine, replacements_of};
use crate::trigger::{Trigger, TriggerParts};
use crate::words::{trigger_words, word_at};
use std::alloc::Global;
use wc_eval::Verdicts;
use wc_hooks::HookKind;
use wc_text::{Items, NoMemory, Text};

/// What a trigger takes out of its words as it stands.
#[derive(Drop)]
struct Texts {
    name: Text,
    condition: Text,
    commands: Items<Text>,
}

fn texts_of(alloc: Global, words: &[Text]) -> Result<Texts, NoMemory>
    requires { All IsUtf8 words.now }
    ensures name { IfOk result (λ texts. texts.name ≡ word_at words.now 0) }
    ensures condition { IfOk result (λ texts. texts.condition ≡ word_at words.now 3) }
    ensures commands { IfOk result (λ texts. texts.commands ≡ commands_of (word_at words.now 5)) }
    ensures utf8 { IfOk result (λ texts. All IsUtf8 texts.commands) }
{
    Ok(Texts {
        name: Text::from_slice(alloc, word_at(words, 0))?,
        condition: Text::from_slice(alloc, word_at(words, 3))?,
        commands: commands_of(alloc, word_at(words, 5))?,
    })
}

/// The trigger of these words and of what was read of them.
fn new_trigger(
    alloc: Global,
    words: &[Text],
    kind: HookKind,
    arguments: Arguments,
    replacements: Items<Replacement>,
    code: ReturnCode,
    post: PostAction,
) -> Result<Trigger, NoMemory>
    requires words { All IsUtf8 words.now }
    requires replacements { All HasTexts replacements }
    ensures { IfOk result (λ trigger. trigger
        ≡ new_trigger words.now kind arguments replacements code post) }
{
    let texts = texts_of(alloc, words)?;
    Ok(Trigger::new(TriggerParts {
        name: texts.name,
        kind,
        arguments,
        condition: texts.condition,
        replacements,
        commands: texts.commands,
        code,
        post,
        enabled: true,
    }))
}

/// The trigger of these words, of which the last two are still to be read.
fn read_last(
    alloc: Global,
    words: &[Text],
    kind: HookKind,
    arguments: Arguments,
    replacements: Items<Replacement>,
) -> Result<Trigger, TriggerRefused>
    requires words { All IsUtf8 words.now }
    requires replacements { All HasTexts replacements }
    ensures answer { IsReading
        (by_code words.now kind arguments replacements (code_of (word_at words.now 6))) result }
    ensures same { IfOk result (λ trigger. trigger.replacements ≡ replacements) }
{
    let Some(code) = code_of(word_at(words, 6)) else {
        return Err(TriggerRefused::BadReturn);
    };
    let Some(post) = post_of(word_at(words, 7)) else {
        return Err(TriggerRefused::BadPost);
    };
    Ok(new_trigger(alloc, words, kind, arguments, replacements, code, post)?)
}

/// What is replaced, with each pattern judged.
fn read_replacements(
    alloc: Global,
    verdicts: &mut Verdicts,
    kind: HookKind,
    text: &[u8],
) -> Result<Items<Replacement>, TriggerRefused>
    requires { IsUtf8 text.now }
    ensures answer { (oracle : Oracle) → Agrees oracle verdicts.new →
        IsReading (fine_only oracle (replacements_of kind text.now)) result }
    ensures fine { IfOk result (λ found. IsTrue (are_known verdicts.new found)) }
    ensures utf8 { IfOk result (All HasTexts) }
    ensures stay { Stay verdicts.old verdicts.new }
{
    let Some(found) = replacements_of(alloc, kind, text)? else {
        return Err(TriggerRefused::BadPattern);
    };
    if are_fine(verdicts, found.as_slice())? {
        Ok(found)
    } else {
        Err(TriggerRefused::BadPattern)
    }
}

/// The trigger of these words.
fn read_words(
    alloc: Global,
    verdicts: &mut Verdicts,
    words: &[Text],
) -> Result<Trigger, TriggerRefused>
    requires { All IsUtf8 words.now }
    ensures answer { (oracle : Oracle) → Agrees oracle verdicts.new →
        IsReading (by_hook oracle words.now (kind_named (word_at words.now 1))) result }
    ensures fine { IfOk result (λ trigger. IsFine verdicts.new trigger) }
    ensures stay { Stay verdicts.old verdicts.new }
{
    let Some(kind) = kind_named(word_at(words, 1)) else {
        return Err(TriggerRefused::BadHook);
    };
    let Some(arguments) = arguments_of(alloc, kind, word_at(words, 2))? else {
        return Err(TriggerRefused::BadArguments);
    };
    let replacements = read_replacements(alloc, verdicts, kind, word_at(words, 4))?;
    read_last(alloc, words, kind, arguments, replacements)
}

/// The trigger that a text is: a name, a hook, its arguments, and where they stand a condition, what
/// is replaced, commands, a return code and a post action. Its patterns are judged.
///
/// Refused, in this order: `BadWords` where it is not such words, `BadHook`, `BadArguments`,
/// `BadPattern`, `BadReturn`, `BadPost`.
pub fn read_trigger(
    alloc: Global,
    verdicts: &mut Verdicts,
    text: &Text,
) -> Result<Trigger, TriggerRefused>
    requires { IsUtf8 text.now }
    // Whatever is thought of texts that were not judged, the answer is the same.
    ensures answer { (oracle : Oracle) → Agrees oracle verdicts.new →
        IsReading (reading_of oracle text.now) result }
    ensures fine { IfOk result (λ trigger. IsFine verdicts.new trigger) }
    ensures stay { Stay verdicts.old verdicts.new }
{
    let Some(words) = trigger_words(alloc, text.as_slice())? else {
        return Err(TriggerRefused::BadWords);
    };
    read_words(alloc, verdicts, words.as_slice())
}
