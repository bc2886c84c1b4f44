ghost use Rattle.std.specs.Prelude.{◌≡◌, ◌∷◌, [], Some, IfOk};
ghost use Rattle.wc_triggers.specs.Arguments.{keyed, printed, print_arguments, times_of, timed, is_slashed};
ghost use Rattle.wc_triggers.specs.Arguments.{is_key, key_arguments, ranked_arguments, others_of};
ghost use Rattle.wc_triggers.specs.Arguments.{arguments_of};
ghost use Rattle.wc_triggers.specs.Keys.{key_of};
ghost use Rattle.wc_hooks.specs.declared.kind.HookKind.TheVariants.{Signal};

use crate::hooks::is_modifier;
use crate::keys::{TriggerKey, push_key, ranked, signal_keys};
use crate::words::is_name;
use std::alloc::Global;
use wc_hooks::HookKind;
use wc_options::number_in;
use wc_text::{Items, NoMemory, Text, split_once};

/// The shortest time between two calls of a timer.
const SHORTEST_INTERVAL: u32 = 100;

/// The longest time between two calls of a timer, and the highest bound on their number.
const MOST: u32 = 2147483647;

/// What the arguments of a hook say.
#[derive(Drop)]
pub struct Arguments {
    pub(crate) keys: Items<TriggerKey>,
    /// Masks of the buffers of a printed line, which commas part.
    pub(crate) buffers: Text,
    /// What is asked of the tags of a printed line: items, which commas part.
    pub(crate) tags: Text,
    /// What a printed line has to have in its message.
    pub(crate) text: Text,
    /// The time between two calls of a timer.
    pub(crate) interval: u64,
    /// How many calls of a timer there may be, where it is not 0.
    pub(crate) max_calls: u64,
}

fn keyed(alloc: Global, keys: Items<TriggerKey>) -> Arguments
    ensures { result ≡ keyed keys }
{
    Arguments {
        keys,
        buffers: Text::new(alloc),
        tags: Text::new(alloc),
        text: Text::new(alloc),
        interval: 0,
        max_calls: 0,
    }
}

fn one_key(alloc: Global, priority: u32, key: &[u8]) -> Result<Items<TriggerKey>, NoMemory>
    ensures { IfOk result (λ keys. keys ≡ key_of priority key.now ∷ []) }
{
    let mut keys = Items::new(alloc);
    push_key(alloc, &mut keys, priority, key)?;
    Ok(keys)
}

/// The arguments of a print of these three.
fn printed(
    alloc: Global,
    priority: u32,
    buffers: &[u8],
    tags: &[u8],
    text: &[u8],
) -> Result<Arguments, NoMemory>
    ensures { IfOk result (λ arguments. Some arguments
        ≡ printed priority buffers.now tags.now (Some text.now)) }
{
    Ok(Arguments {
        keys: one_key(alloc, priority, b"")?,
        buffers: Text::from_slice(alloc, buffers)?,
        tags: Text::from_slice(alloc, tags)?,
        text: Text::from_slice(alloc, text)?,
        interval: 0,
        max_calls: 0,
    })
}

/// The arguments of a print: masks of buffers, of tags, and a text, with two semicolons between.
fn print_arguments(alloc: Global, priority: u32, text: &[u8]) -> Result<Option<Arguments>, NoMemory>
    ensures { IfOk result (λ arguments. arguments ≡ print_arguments priority text.now) }
{
    let (buffers, Some(rest)) = split_once(text, b';') else {
        return Ok(None);
    };
    let (tags, Some(text)) = split_once(rest, b';') else {
        return Ok(None);
    };
    Ok(Some(printed(alloc, priority, buffers, tags, text)?))
}

/// The interval of a timer, and how many calls there may be.
fn times_of(text: &[u8]) -> Option<(u32, u32)>
    ensures { result ≡ times_of text.now }
{
    let (interval, rest) = split_once(text, b';');
    let (zero, calls) = split_once(rest?, b';');
    let calls = calls?;
    if zero != b"0".as_slice() {
        return None;
    }
    let interval = number_in(interval, SHORTEST_INTERVAL, MOST)?;
    Some((interval, number_in(calls, 0, MOST)?))
}

fn timer_arguments(alloc: Global, priority: u32, times: (u32, u32)) -> Result<Arguments, NoMemory>
    ensures { IfOk result (λ arguments. arguments ≡ timed priority times) }
{
    let (interval, max_calls) = times;
    let mut arguments = keyed(alloc, one_key(alloc, priority, b"")?);
    arguments.interval = u64::from(interval);
    arguments.max_calls = u64::from(max_calls);
    Ok(arguments)
}

/// Whether the text is a slash and a name.
fn is_slashed(text: &[u8]) -> bool
    ensures { result ≡ is_slashed text.now }
{
    match text {
        [b'/', name @ ..] => is_name(name),
        _ => false,
    }
}

/// Whether the text is a key of a hook whose arguments are a key alone.
fn is_key(kind: HookKind, text: &[u8]) -> bool
    ensures { result ≡ is_key kind text.now }
{
    match kind {
        HookKind::Modifier => is_modifier(text),
        HookKind::Command => is_name(text),
        HookKind::CommandRun => is_slashed(text),
        HookKind::Relay | HookKind::Signal | HookKind::Print | HookKind::Timer => false,
    }
}

fn key_arguments(
    alloc: Global,
    kind: HookKind,
    priority: u32,
    text: &[u8],
) -> Result<Option<Arguments>, NoMemory>
    ensures { IfOk result (λ arguments. arguments ≡ key_arguments kind priority text.now) }
{
    if !is_key(kind, text) {
        return Ok(None);
    }
    let keys = one_key(alloc, priority, text)?;
    Ok(Some(keyed(alloc, keys)))
}

/// The arguments of a hook other than a signal, after their priority.
fn ranked_arguments(
    alloc: Global,
    kind: HookKind,
    priority: u32,
    text: &[u8],
) -> Result<Option<Arguments>, NoMemory>
    ensures { IfOk result (λ arguments. arguments ≡ ranked_arguments kind (priority, text.now)) }
{
    match kind {
        HookKind::Print => print_arguments(alloc, priority, text),
        HookKind::Timer => match times_of(text) {
            Some(times) => Ok(Some(timer_arguments(alloc, priority, times)?)),
            None => Ok(None),
        },
        _ => key_arguments(alloc, kind, priority, text),
    }
}

fn others_of(alloc: Global, kind: HookKind, text: &[u8]) -> Result<Option<Arguments>, NoMemory>
    ensures { IfOk result (λ arguments. arguments ≡ others_of kind text.now) }
{
    match ranked(text) {
        Some((priority, text)) => ranked_arguments(alloc, kind, priority, text),
        None => Ok(None),
    }
}

fn signal_arguments(alloc: Global, text: &[u8]) -> Result<Option<Arguments>, NoMemory>
    ensures { IfOk result (λ arguments. arguments ≡ arguments_of Signal text.now) }
{
    match signal_keys(alloc, text)? {
        Some(keys) => Ok(Some(keyed(alloc, keys))),
        None => Ok(None),
    }
}

/// What the arguments of a hook say. None where they say nothing.
pub(crate) fn arguments_of(
    alloc: Global,
    kind: HookKind,
    text: &[u8],
) -> Result<Option<Arguments>, NoMemory>
    ensures { IfOk result (λ arguments. arguments ≡ arguments_of kind text.now) }
{
    match kind {
        HookKind::Signal => signal_arguments(alloc, text),
        _ => others_of(alloc, kind, text),
    }
}
