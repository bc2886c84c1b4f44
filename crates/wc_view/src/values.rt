//! What values say. None where a value is of another kind, or has a number or a null text that it
//! can not have.

ghost use Rattle.std.specs.Prelude.{◌≡◌, None, Some, MatchOption, IfOk};
ghost use Rattle.wc_view.specs.Each.{each};
ghost use Rattle.wc_view.specs.Values.{pointer_in, date_in, number_in, level_in, truth_of};
ghost use Rattle.wc_view.specs.Values.{truth_in, text_in, texts_in, switch_in, pair_in, pairs_in};

use std::alloc::Global;
use wc_objects::{Kind, Object};
use wc_text::{Items, NoMemory, Pair, Text};

pub(crate) fn pointer_in(value: &Object) -> Option<u64>
    ensures { result ≡ pointer_in value.now }
{
    match value {
        Object::Ptr(pointer) => Some(*pointer),
        _ => None,
    }
}

pub(crate) fn date_in(value: &Object) -> Option<u64>
    ensures { result ≡ date_in value.now }
{
    match value {
        Object::Tim(date) => u64::try_from(*date).ok(),
        _ => None,
    }
}

/// A number is not negative.
pub(crate) fn number_in(value: &Object) -> Option<u32>
    ensures { result ≡ number_in value.now }
{
    match value {
        Object::Int(number) => u32::try_from(*number).ok(),
        _ => None,
    }
}

pub(crate) fn level_in(value: &Object) -> Option<i8>
    ensures { result ≡ level_in value.now }
{
    match value {
        Object::Chr(level) => Some(*level),
        _ => None,
    }
}

/// Truth is 1 and 0.
fn truth_of(number: i8) -> Option<bool>
    ensures { result ≡ truth_of number }
{
    if number == 0 {
        return Some(false);
    }
    if number == 1 { Some(true) } else { None }
}

pub(crate) fn truth_in(value: &Object) -> Option<bool>
    ensures { result ≡ truth_in value.now }
{
    match value {
        Object::Chr(number) => truth_of(*number),
        _ => None,
    }
}

pub(crate) fn text_in(value: &Object) -> Option<&Text>
    ensures { MatchOption result (text_in value.now ≡ None) (λ text. text_in value.now
        ≡ Some text.now) }
{
    match value {
        Object::Str(Some(text)) => Some(text),
        _ => None,
    }
}

pub(crate) fn text_copy(alloc: Global, value: &Object) -> Result<Option<Text>, NoMemory>
    ensures { IfOk result (λ text. text ≡ text_in value.now) }
{
    match text_in(value) {
        Some(text) => Ok(Some(text.copy(alloc)?)),
        None => Ok(None),
    }
}

/// The texts of an array. None where one is null.
#[tactic(auto, using(crate::proofs::EachLemmas::each_flag_facts))]
fn each_text(alloc: Global, values: &Items<Object>) -> Result<Option<Items<Text>>, NoMemory>
    ensures { IfOk result (λ texts. texts ≡ each text_in values.now) }
{
    let mut texts = Items::new(alloc);
    for value in values.as_slice() {
        let Some(text) = text_in(value) else {
            return Ok(None);
        };
        texts.push(text.copy(alloc)?)?;
    }
    Ok(Some(texts))
}

pub(crate) fn texts_in(alloc: Global, value: &Object) -> Result<Option<Items<Text>>, NoMemory>
    ensures { IfOk result (λ texts. texts ≡ texts_in value.now) }
{
    match value {
        Object::Arr { kind, values } => {
            if kind.is(Kind::Str) {
                each_text(alloc, values)
            } else {
                Ok(None)
            }
        }
        _ => Ok(None),
    }
}

/// Truth among numbers is 1 and 0 too.
pub(crate) fn switch_in(value: &Object) -> Option<bool>
    ensures { result ≡ switch_in value.now }
{
    match value {
        Object::Int(0) => Some(false),
        Object::Int(1) => Some(true),
        _ => None,
    }
}

fn pair_in(alloc: Global, pair: &(Object, Object)) -> Result<Option<Pair>, NoMemory>
    ensures { IfOk result (λ found. found ≡ pair_in pair.now) }
{
    let Some(name) = text_copy(alloc, &pair.0)? else {
        return Ok(None);
    };
    let Some(value) = text_copy(alloc, &pair.1)? else {
        return Ok(None);
    };
    Ok(Some(Pair { name, value }))
}

#[tactic(auto, using(crate::proofs::EachLemmas::each_flag_facts))]
fn each_pair(
    alloc: Global,
    pairs: &Items<(Object, Object)>,
) -> Result<Option<Items<Pair>>, NoMemory>
    ensures { IfOk result (λ found. found ≡ each pair_in pairs.now) }
{
    let mut found = Items::new(alloc);
    for pair in pairs.as_slice() {
        let Some(pair) = pair_in(alloc, pair)? else {
            return Ok(None);
        };
        found.push(pair)?;
    }
    Ok(Some(found))
}

/// The variables of a buffer. None of a table of other kinds, and where one text is null.
pub(crate) fn pairs_in(alloc: Global, value: &Object) -> Result<Option<Items<Pair>>, NoMemory>
    ensures { IfOk result (λ found. found ≡ pairs_in value.now) }
{
    match value {
        Object::Htb { key, value, pairs } => {
            if key.is(Kind::Str) && value.is(Kind::Str) {
                each_pair(alloc, pairs)
            } else {
                Ok(None)
            }
        }
        _ => Ok(None),
    }
}
