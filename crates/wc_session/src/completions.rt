//! The reply to `completion`.

ghost use Rattle.std.specs.Prelude.{◌≡◌, true, IfOk, IfSome};
ghost use Rattle.std.specs.List.{list_all};
ghost use Rattle.std.specs.Str.{IsUtf8, is_utf8};
ghost use Rattle.wc_complete.specs.Completed.{context_name};
ghost use Rattle.wc_events.specs.BufferObjects.{text};
ghost use Rattle.wc_events.specs.LineObjects.{texts};
ghost use Rattle.wc_objects.specs.Forms.{well_formed};
ghost use Rattle.wc_session.specs.Completions.{completion_in, completion_objects};
ghost use Rattle.wc_session.specs.Completions.{completion_values, told_completion};
ghost use Rattle.wc_session.specs.Names.{buffer_named};

use crate::names::buffer_named;
use crate::sending::null_hdata;
use std::alloc::Global;
use wc_complete::{Completion, complete};
use wc_events::parts::{count, text};
use wc_keys::KeyList;
use wc_objects::{Hda, HdaItem, Kind, Object};
use wc_text::{Items, NoMemory, Text};
use wc_world::World;

/// The name of what a completion is told as.
const NAME: &[u8] = b"completion";

/// What completes a text in the buffer that is named. None where there is no such buffer too.
fn completion_named(
    alloc: Global,
    world: &World,
    commands: &[Text],
    buffer: &[u8],
    position: i64,
    typed: &[u8],
) -> Result<Option<Completion>, NoMemory>
    ensures value { IfOk result (λ found. found ≡ completion_in world.now commands.now
        (buffer_named world.now.groups buffer.now) position typed.now) }
    ensures text { IfOk result (λ found. IfSome found
        (λ completion. IsUtf8 typed.now → IsUtf8 completion.base_word)) }
{
    match buffer_named(world.buffers(), buffer) {
        Some(buffer) => complete(alloc, world, commands, buffer, position, typed),
        None => Ok(None),
    }
}

fn is_text(bytes: &[u8]) -> bool
    ensures { result ≡ is_utf8 bytes.now }
{
    match std::str::from_utf8(bytes) {
        Ok(_) => true,
        Err(_) => false,
    }
}

fn are_text(texts: &[Text]) -> bool
    ensures { result ≡ list_all is_utf8 texts.now }
{
    texts.iter().all(|text| is_text(text.as_slice()))
}

fn texts(alloc: Global, list: &[Text]) -> Result<Items<Object>, NoMemory>
    ensures { IfOk result (λ values. values ≡ texts list.now) }
{
    let mut values = Items::with_room(alloc, list.len())?;
    for one in list {
        values.push(text(alloc, one)?)?;
    }
    Ok(values)
}

fn context_text(alloc: Global, completion: &Completion) -> Result<Object, NoMemory>
    ensures { IfOk result (λ object. object ≡ text (context_name completion.now.context)) }
{
    let name = Text::from_slice(alloc, completion.context.name())?;
    Ok(Object::Str(Some(name)))
}

/// The values of a completion, in the order of the keys.
fn completion_values(alloc: Global, completion: &Completion) -> Result<Items<Object>, NoMemory>
    ensures { IfOk result (λ values. values ≡ completion_values completion.now) }
{
    let mut values = Items::with_room(alloc, 5)?;
    values.push(context_text(alloc, completion)?)?;
    values.push(text(alloc, &completion.base_word)?)?;
    values.push(Object::Int(count(u64::from(completion.pos_start))))?;
    values.push(Object::Int(count(u64::from(completion.pos_end))))?;
    let list = texts(alloc, completion.list.as_slice())?;
    values.push(Object::Arr {
        kind: Kind::Str,
        values: list,
    })?;
    Ok(values)
}

/// A completion as one item, which no pointer names.
fn told_completion(alloc: Global, completion: &Completion) -> Result<Object, NoMemory>
    ensures { IfOk result (λ object. object ≡ told_completion completion.now) }
{
    let values = completion_values(alloc, completion)?;
    let mut pointers = Items::with_room(alloc, 1)?;
    pointers.push(0)?;
    let mut items = Items::with_room(alloc, 1)?;
    items.push(HdaItem { pointers, values })?;
    let path = Text::from_slice(alloc, NAME)?;
    let keys = Text::from_slice(alloc, KeyList::Completion.text())?;
    Ok(Object::Hda(Hda {
        path: Some(path),
        keys: Some(keys),
        items,
    }))
}

/// What completes a text in the buffer that is named, and the null hdata where nothing does, or a
/// text that does is not UTF-8.
#[tactic(auto, unfolding(crate::specs::Completions::completion_objects))]
pub fn completion_objects(
    alloc: Global,
    world: &World,
    commands: &[Text],
    buffer: &[u8],
    position: i64,
    typed: &[u8],
) -> Result<[Object; 1], NoMemory>
    requires { IsUtf8 typed.now }
    ensures objects { IfOk result (λ objects. objects
        ≡ completion_objects world.now commands.now buffer.now position typed.now) }
    ensures formed { IfOk result (λ objects. well_formed objects ≡ true) }
{
    let Some(completion) = completion_named(alloc, world, commands, buffer, position, typed)? else {
        return Ok(null_hdata(alloc));
    };
    if !are_text(completion.list.as_slice()) {
        return Ok(null_hdata(alloc));
    }
    Ok([told_completion(alloc, &completion)?])
}
