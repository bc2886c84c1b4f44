//! What an item tells of a buffer.

ghost use Rattle.std.specs.Prelude.{◌≡◌, IfOk};
ghost use Rattle.wc_view.specs.ToldBuffer.{bare, carry, carry_all, buffer_in};
ghost use Rattle.wc_view.specs.Each.{some_if};
ghost use Rattle.wc_view.specs.Values.{number_in, pointer_in, switch_in, text_in, pairs_in};

use crate::items::last_pointer;
use crate::mirror_buffer::MirrorBuffer;
use crate::values::{number_in, pairs_in, pointer_in, switch_in, text_copy};
use std::alloc::Global;
use wc_keys::Key;
use wc_objects::{HdaItem, Object};
use wc_text::{Handle, Items, NoMemory, Pair, Text};

/// What an item tells of a buffer; of what it does not tell, nothing is to be read.
#[derive(Drop)]
pub(crate) struct ToldBuffer {
    pub number: u32,
    pub prev: u64,
    pub buffer: MirrorBuffer,
}

fn bare(alloc: Global, buffer: u64) -> ToldBuffer
    ensures { result ≡ bare buffer }
{
    let buffer = MirrorBuffer {
        handle: Handle(buffer),
        full_name: Text::new(alloc),
        short_name: Text::new(alloc),
        title: Text::new(alloc),
        hidden: false,
        vars: Items::new(alloc),
    };
    ToldBuffer {
        number: 0,
        prev: 0,
        buffer,
    }
}

/// Puts the number that a value is. False where it is none.
fn put_number(place: &mut u32, value: &Object) -> bool
    ensures { some_if result place.new ≡ number_in value.now }
{
    let Some(number) = number_in(value) else {
        return false;
    };
    *place = number;
    true
}

fn put_pointer(place: &mut u64, value: &Object) -> bool
    ensures { some_if result place.new ≡ pointer_in value.now }
{
    let Some(pointer) = pointer_in(value) else {
        return false;
    };
    *place = pointer;
    true
}

fn put_switch(place: &mut bool, value: &Object) -> bool
    ensures { some_if result place.new ≡ switch_in value.now }
{
    let Some(on) = switch_in(value) else {
        return false;
    };
    *place = on;
    true
}

fn put_text(place: &mut Text, alloc: Global, value: &Object) -> Result<bool, NoMemory>
    ensures { IfOk result (λ fits. some_if fits place.new ≡ text_in value.now) }
{
    let Some(text) = text_copy(alloc, value)? else {
        return Ok(false);
    };
    *place = text;
    Ok(true)
}

fn put_pairs(place: &mut Items<Pair>, alloc: Global, value: &Object) -> Result<bool, NoMemory>
    ensures { IfOk result (λ fits. some_if fits place.new ≡ pairs_in value.now) }
{
    let Some(pairs) = pairs_in(alloc, value)? else {
        return Ok(false);
    };
    *place = pairs;
    Ok(true)
}

/// Puts one more value. False where it can not be that of the key, or where no buffer has the key.
#[tactic(auto, unfolding(crate::specs::ToldBuffer::carry), using(crate::proofs::CarryLemmas::put))]
fn carry(told: &mut ToldBuffer, alloc: Global, key: Key, value: &Object) -> Result<bool, NoMemory>
    ensures { IfOk result (λ fits. some_if fits told.new ≡ carry key value.now told.old) }
{
    match key {
        Key::Number => Ok(put_number(&mut told.number, value)),
        Key::FullName => put_text(&mut told.buffer.full_name, alloc, value),
        Key::ShortName => put_text(&mut told.buffer.short_name, alloc, value),
        Key::Hidden => Ok(put_switch(&mut told.buffer.hidden, value)),
        Key::Title => put_text(&mut told.buffer.title, alloc, value),
        Key::LocalVariables => put_pairs(&mut told.buffer.vars, alloc, value),
        Key::PrevBuffer => Ok(put_pointer(&mut told.prev, value)),
        Key::NextBuffer => Ok(pointer_in(value).is_some()),
        _ => Ok(false),
    }
}

/// Puts the values of these keys. False where one can not be that of its key, or where they are
/// more or fewer.
#[tactic(auto, using(crate::proofs::CarryLemmas::carry_all_facts))]
fn carry_all(
    told: &mut ToldBuffer,
    alloc: Global,
    keys: &[Key],
    values: &[Object],
) -> Result<bool, NoMemory>
    ensures { IfOk result (λ fits. some_if fits told.new
        ≡ carry_all keys.now values.now told.old) }
{
    let mut values = values;
    for key in keys {
        let [value, rest @ ..] = values else {
            return Ok(false);
        };
        if !carry(told, alloc, *key, value)? {
            return Ok(false);
        }
        values = rest;
    }
    Ok(values.is_empty())
}

/// What an item tells under these keys. None where it has other values.
#[tactic(auto, unfolding(crate::specs::ToldBuffer::buffer_in))]
pub(crate) fn buffer_in(
    alloc: Global,
    keys: &[Key],
    item: &HdaItem,
) -> Result<Option<ToldBuffer>, NoMemory>
    ensures { IfOk result (λ c. c ≡ buffer_in keys.now item.now) }
{
    let Some(buffer) = last_pointer(item) else {
        return Ok(None);
    };
    let mut told = bare(alloc, buffer);
    if carry_all(&mut told, alloc, keys, item.values.as_slice())? {
        Ok(Some(told))
    } else {
        Ok(None)
    }
}
