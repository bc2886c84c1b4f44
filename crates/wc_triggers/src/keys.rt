ghost use Rattle.std.specs.Prelude.{◌≡◌, ◌++◌, ◌∷◌, [], IfOk, OnOk, option_map};
ghost use Rattle.std.specs.Char.{is_ascii_digit};
ghost use Rattle.std.specs.List.{list_all};
ghost use Rattle.wc_triggers.specs.Keys.{is_numeral, key_of, ranked, signal_key, signal_keys};
ghost use Rattle.wc_triggers.specs.Keys.{has_key, with_new};

use crate::hooks::is_signal;
use std::alloc::Global;
use wc_options::number_in;
use wc_text::{Items, NoMemory, Text, split_once};

/// The priority where none is written.
const PLAIN_PRIORITY: u32 = 1000;

/// The highest priority.
const HIGHEST_PRIORITY: u32 = 65535;

/// A key that a trigger is hooked under, and its priority there.
#[derive(Drop)]
pub struct TriggerKey {
    pub key: Text,
    pub priority: u32,
}

/// Whether the bytes are digits, one or more.
fn is_numeral(bytes: &[u8]) -> bool
    ensures { result ≡ is_numeral bytes.now }
{
    match bytes {
        [] => false,
        _ => are_digits(bytes),
    }
}

fn are_digits(bytes: &[u8]) -> bool
    ensures { result ≡ list_all is_ascii_digit bytes.now }
{
    bytes.iter().all(|byte| byte.is_ascii_digit())
}

/// The priority of a text, and the text after it. Digits before the first bar are a priority. None
/// where they are no number up to the highest one.
pub(crate) fn ranked(text: &[u8]) -> Option<(u32, &[u8])>
    ensures { option_map (λ named. (named.0, named.1.now)) result ≡ ranked text.now }
{
    let (front, Some(rest)) = split_once(text, b'|') else {
        return Some((PLAIN_PRIORITY, text));
    };
    if !is_numeral(front) {
        return Some((PLAIN_PRIORITY, text));
    }
    Some((number_in(front, 0, HIGHEST_PRIORITY)?, rest))
}

/// The priority and the name of a signal. None where it is none.
fn signal_named(text: &[u8]) -> Option<(u32, &[u8])>
    ensures { option_map (λ named. key_of named.0 named.1.now) result ≡ signal_key text.now }
{
    let (priority, name) = ranked(text)?;
    if is_signal(name) {
        Some((priority, name))
    } else {
        None
    }
}

/// Whether one of the keys has this name.
fn has_key(keys: &[TriggerKey], name: &[u8]) -> bool
    ensures { result ≡ has_key name.now keys.now }
{
    keys.iter().any(|key| key.key.as_slice() == name)
}

pub(crate) fn push_key(
    alloc: Global,
    keys: &mut Items<TriggerKey>,
    priority: u32,
    key: &[u8],
) -> Result<(), NoMemory>
    ensures { OnOk result (keys.new ≡ keys.old ++ key_of priority key.now ∷ []) }
{
    let key = Text::from_slice(alloc, key)?;
    keys.push(TriggerKey { key, priority })
}

/// Puts a key after the others, unless its name is there.
fn push_new(
    alloc: Global,
    keys: &mut Items<TriggerKey>,
    priority: u32,
    name: &[u8],
) -> Result<(), NoMemory>
    ensures { OnOk result (keys.new ≡ with_new keys.old (key_of priority name.now)) }
{
    if has_key(keys.as_slice(), name) {
        return Ok(());
    }
    push_key(alloc, keys, priority, name)
}

/// The keys of the signals whose names stand between semicolons: a repeated name counts once, at its
/// first place. None where one is no signal.
pub(crate) fn signal_keys(alloc: Global, text: &[u8]) -> Result<Option<Items<TriggerKey>>, NoMemory>
    ensures { IfOk result (λ keys. keys ≡ signal_keys text.now) }
{
    let mut keys = Items::new(alloc);
    let mut rest = Some(text);
    while let Some(names) = rest {
        let (front, others) = split_once(names, b';');
        let Some((priority, name)) = signal_named(front) else {
            return Ok(None);
        };
        push_new(alloc, &mut keys, priority, name)?;
        rest = others;
    }
    Ok(Some(keys))
}
