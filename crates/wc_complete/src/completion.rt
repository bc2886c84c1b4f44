ghost use Rattle.std.specs.Prelude.{◌≡◌, ◌≤◌, ◌⊎◌, ◌<ℤ◌, ◌≤ℤ◌, negsuc, true, false, length, IfOk};
ghost use Rattle.std.specs.Prelude.{◌<◌, IfSome, MatchOption, filter};
ghost use Rattle.std.specs.Str.{IsUtf8};
ghost use Rattle.wc_buffers.specs.Calls.{is_there};
ghost use Rattle.wc_model.specs.World.{rows_at};
ghost use Rattle.wc_complete.specs.BaseWord.{front_at, last_word};
ghost use Rattle.wc_complete.specs.Completed.{Completes, context_by, candidates_of, context_name};
ghost use Rattle.wc_complete.specs.Completed.{begins_with_slash, completion_of, completion_at};
ghost use Rattle.wc_complete.specs.declared.completion.Context.TheVariants.{Command};
ghost use Rattle.wc_complete.specs.Candidates.{begins_as};
ghost use Rattle.wc_complete.specs.Order.{IsInOrder, in_order};

use crate::base_word::{char_count, front_at, last_word};
use crate::found::commands_found;
use crate::nicks::nicks_found;
use crate::order::{as_items, in_order};
use std::alloc::Global;
use wc_nicklist::Nicklist;
use wc_text::{Handle, Items, NoMemory, Text};
use wc_world::World;

/// No line that is read holds a longer text.
const LONGEST: usize = 65_536;

/// What kind of word is completed.
#[derive(Clone, Copy, Debug, PartialEq, Eq)]
pub enum Context {
    /// The name of a command, at the begin of the text.
    Command,
    /// Any other word.
    Auto,
}

impl Context {
    /// Its name in the relay protocol.
    pub fn name(self) -> &'static [u8]
        ensures { result.now ≡ context_name self }
    {
        match self {
            Context::Command => b"command",
            Context::Auto => b"auto",
        }
    }
}

/// What may be put for the word before a position of a text.
#[derive(Drop)]
pub struct Completion {
    pub context: Context,
    pub base_word: Text,
    /// Where the word begins, in characters.
    pub pos_start: u32,
    /// Where it ends, in characters: at the position.
    pub pos_end: u32,
    /// The texts that begin with the word, ASCII case ignored, in the order of `fold_cmp`.
    pub list: Items<Text>,
}

/// What completes the word of a text that ends at a position: one of these commands, where the word
/// begins the text with a `/`, and else a nick of the buffer.
///
/// The position counts characters; -1 and one after the end are the end. The word is the longest
/// run without blanks that ends there. None exactly where the buffer is not there, the position is
/// below -1, or the text has more than 65,536 bytes.
#[tactic(auto, unfolding(crate::specs::Completed::completion_at))]
pub fn complete(
    alloc: Global,
    world: &World,
    commands: &[Text],
    buffer: Handle,
    position: i64,
    text: &[u8],
) -> Result<Option<Completion>, NoMemory>
    ensures model { IfOk result (λ found. MatchOption found
        ((is_there buffer world.now.groups ≡ false) ⊎ (position <ℤ negsuc 0)
        ⊎ (65536 < length text.now))
        (λ completion. (is_there buffer world.now.groups ≡ true)
        × (negsuc 0 ≤ℤ position)
        × Completes commands.now (rows_at world.now buffer.0)
        (front_at position text.now) completion)) }
    ensures value { IfOk result (λ found. found
        ≡ completion_at world.now commands.now buffer position text.now) }
    ensures text { IfOk result (λ found. IfSome found
        (λ completion. IsUtf8 text.now → IsUtf8 completion.base_word)) }
{
    if position < -1 || text.len() > LONGEST {
        return Ok(None);
    }
    let Some(nicks) = world.nicks(buffer) else {
        return Ok(None);
    };
    match completed(alloc, nicks, commands, front_at(text, position)) {
        Ok(completion) => Ok(Some(completion)),
        Err(NoMemory) => Err(NoMemory),
    }
}

/// What completes the last word of a text.
#[tactic(auto, unfolding(crate::specs::Completed::completion_of))]
fn completed(
    alloc: Global,
    nicks: &Nicklist,
    commands: &[Text],
    front: &[u8],
) -> Result<Completion, NoMemory>
    requires { length front.now ≤ 65536 }
    ensures model { IfOk result (λ completion.
        Completes commands.now nicks.now.rows front.now completion) }
    ensures value { IfOk result (λ completion. completion
        ≡ completion_of commands.now nicks.now.rows front.now) }
    ensures word { IfOk result (λ completion. completion.base_word ≡ last_word front.now) }
{
    let word = last_word(front);
    let before = front.split_at(front.len() - word.len()).0;
    let context = context_of(before, word);
    let list = list_of(alloc, nicks, commands, context, word)?;
    let base_word = Text::from_slice(alloc, word)?;
    Ok(Completion {
        context,
        base_word,
        pos_start: char_count(before) as u32,
        pos_end: char_count(front) as u32,
        list,
    })
}

fn context_of(before: &[u8], word: &[u8]) -> Context
    ensures { result ≡ context_by before.now word.now }
{
    match word {
        [b'/', ..] if before.is_empty() => Context::Command,
        _ => Context::Auto,
    }
}

/// The candidates that begin with a word.
fn list_of(
    alloc: Global,
    nicks: &Nicklist,
    commands: &[Text],
    context: Context,
    word: &[u8],
) -> Result<Items<Text>, NoMemory>
    requires { context ≡ Command → begins_with_slash word.now ≡ true }
    ensures order { IfOk result (λ list. IsInOrder (filter (begins_as word.now)
        (candidates_of context commands.now nicks.now.rows)) list) }
    ensures value { IfOk result (λ list. list ≡ in_order (filter (begins_as word.now)
        (candidates_of context commands.now nicks.now.rows))) }
{
    let mut found = match context {
        Context::Command => commands_found(alloc, commands, &word[1..])?,
        Context::Auto => nicks_found(alloc, nicks, word)?,
    };
    in_order(&mut found);
    as_items(alloc, found)
}
