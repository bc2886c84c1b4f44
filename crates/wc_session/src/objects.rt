ghost use Rattle.std.specs.Prelude.{◌≡◌, ◌∷◌, [], true, Some, codes, IfOk, IfSome, option_map};
ghost use Rattle.std.specs.Str.{IsUtf8};
ghost use Rattle.wc_objects.specs.Forms.{well_formed};
ghost use Rattle.wc_events.specs.Nicks.{nicks_objects};
ghost use Rattle.wc_hdata.specs.Infos.{info_of};
ghost use Rattle.wc_session.specs.Names.{buffer_named};
ghost use Rattle.wc_session.specs.Reply.{list_of_named, nicklist_objects, or_null};
ghost use Rattle.wc_session.specs.Reply.{test_texts, test_numbers, test_objects};
ghost use Rattle.wc_session.specs.Reply.{info_objects, infolist_objects, pong_objects};

use crate::names::buffer_named;
use std::alloc::Global;
use wc_events::Nicks;
use wc_hdata::{info, infolist};
use wc_objects::{Kind, Object};
use wc_text::{Items, NoMemory, Text};
use wc_world::World;

fn some_text(alloc: Global, bytes: &[u8]) -> Result<Option<Text>, NoMemory>
    ensures { IfOk result (λ text. text ≡ Some bytes.now) }
{
    Ok(Some(Text::from_slice(alloc, bytes)?))
}

fn test_texts(alloc: Global) -> Result<Items<Object>, NoMemory>
    ensures { IfOk result (λ values. values ≡ test_texts) }
{
    let mut values = Items::new(alloc);
    values.push(Object::Str(some_text(alloc, b"abc")?))?;
    values.push(Object::Str(some_text(alloc, b"de")?))?;
    Ok(values)
}

fn test_numbers(alloc: Global) -> Result<Items<Object>, NoMemory>
    ensures { IfOk result (λ values. values ≡ test_numbers) }
{
    let mut values = Items::new(alloc);
    values.push(Object::Int(123))?;
    values.push(Object::Int(456))?;
    values.push(Object::Int(789))?;
    Ok(values)
}

/// The objects of `test`, with these values in those that take memory.
#[tactic(auto, unfolding(crate::specs::Reply::test_objects))]
fn test_list(
    alloc: Global,
    string: Text,
    buffer: Text,
    texts: Items<Object>,
    numbers: Items<Object>,
) -> [Object; 15]
    requires string { string ≡ codes "a string" }
    requires buffer { buffer ≡ codes "buffer" }
    requires texts { texts ≡ test_texts }
    requires numbers { numbers ≡ test_numbers }
    ensures { result ≡ test_objects }
{
    [
        Object::Chr(65),
        Object::Int(123456),
        Object::Int(-123456),
        Object::Lon(1234567890),
        Object::Lon(-1234567890),
        Object::Str(Some(string)),
        Object::Str(Some(Text::new(alloc))),
        Object::Str(None),
        Object::Buf(Some(buffer)),
        Object::Buf(None),
        Object::Ptr(0x1234abcd),
        Object::Ptr(0),
        Object::Tim(1321993456),
        Object::Arr {
            kind: Kind::Str,
            values: texts,
        },
        Object::Arr {
            kind: Kind::Int,
            values: numbers,
        },
    ]
}

/// One object of each kind, as WeeChat's relay protocol lists them for `test`.
pub fn test_objects(alloc: Global) -> Result<[Object; 15], NoMemory>
    ensures objects { IfOk result (λ objects. objects ≡ test_objects) }
    ensures formed { IfOk result (λ objects. well_formed objects ≡ true) }
{
    let string = Text::from_slice(alloc, b"a string")?;
    let buffer = Text::from_slice(alloc, b"buffer")?;
    let texts = test_texts(alloc)?;
    let numbers = test_numbers(alloc)?;
    Ok(test_list(alloc, string, buffer, texts, numbers))
}

/// The nicklist of the buffer that a text names, where there is one.
fn nicks_named<'a>(world: &'a World, name: &[u8]) -> Option<Nicks<'a>>
    ensures objects { option_map nicks_objects result
        ≡ list_of_named world.now (buffer_named world.now.groups name.now) }
    ensures formed { IfSome result (λ nicks. well_formed (nicks_objects nicks) ≡ true) }
{
    match buffer_named(world.buffers(), name) {
        Some(buffer) => Nicks::of_buffer(world, buffer),
        None => None,
    }
}

/// The nicklists of all buffers, or that of the buffer that is named. None where there is no such
/// buffer.
#[tactic(auto, unfolding(crate::specs::Reply::nicklist_objects))]
pub fn nicks_asked<'a>(world: &'a World, buffer: &Option<Text>) -> Option<Nicks<'a>>
    ensures objects { or_null (option_map nicks_objects result)
        ≡ nicklist_objects world.now buffer.now }
    ensures formed { IfSome result (λ nicks. well_formed (nicks_objects nicks) ≡ true) }
{
    match buffer {
        Some(name) => nicks_named(world, name.as_slice()),
        None => Some(Nicks::of_all(world)),
    }
}

fn info_value(alloc: Global, name: &[u8]) -> Result<Option<Text>, NoMemory>
    ensures { IfOk result (λ value. value ≡ info_of name.now) }
{
    let Some(value) = info(name) else {
        return Ok(None);
    };
    some_text(alloc, value)
}

/// The information of a name, null where it is unknown.
pub fn info_objects(alloc: Global, name: Text) -> Result<[Object; 1], NoMemory>
    requires { IsUtf8 name }
    ensures objects { IfOk result (λ objects. objects ≡ info_objects name) }
    ensures formed { IfOk result (λ objects. well_formed objects ≡ true) }
{
    let value = info_value(alloc, name.as_slice())?;
    Ok([Object::Inf {
        name: Some(name),
        value,
    }])
}

/// The list of informations of a name and an argument, empty where it is unknown.
#[tactic(auto, unfolding(crate::specs::Reply::infolist_objects))]
pub fn infolist_objects(
    alloc: Global,
    world: &World,
    name: &Text,
    argument: &Text,
) -> Result<[Object; 1], NoMemory>
    requires { IsUtf8 name.now }
    ensures objects { IfOk result (λ objects. objects
        ≡ infolist_objects world.now name.now argument.now) }
    ensures formed { IfOk result (λ objects. well_formed objects ≡ true) }
{
    let _ = world.buffers().groups();
    Ok([infolist(alloc, world, name.as_slice(), argument.as_slice())?])
}

/// The text of a `ping`.
pub fn pong_objects(text: Text) -> [Object; 1]
    requires { IsUtf8 text }
    ensures objects { result ≡ pong_objects text }
    ensures formed { well_formed result ≡ true }
{
    [Object::Str(Some(text))]
}
