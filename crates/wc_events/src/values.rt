ghost use Rattle.std.specs.Prelude.{◌≡◌, ◌++◌, ◌∷◌, [], map, IfOk, OnOk, Some};
ghost use Rattle.wc_events.specs.BufferObjects.{about, count, pair_of, table, text};
ghost use Rattle.wc_events.specs.LineObjects.{texts, truth};
ghost use Rattle.wc_keys.specs.Keys.{list_text};
ghost use Rattle.wc_objects.specs.declared.kind.Kind.TheVariants as kinds;
ghost use Rattle.wc_objects.specs.declared.object.Object.TheVariants as objects;

use std::alloc::Global;
use wc_buffers::Vars;
use wc_keys::{BUFFER_PATH, KeyList};
use wc_lines::PackedLine;
use wc_objects::{Hda, HdaItem, Kind, Object};
use wc_text::{Handle, Items, NoMemory, Text};

/// 1 where it is so, and else 0.
pub(crate) fn truth(on: bool) -> i32
    ensures { result ≡ truth on }
{
    if on { 1 } else { 0 }
}

/// A number. One that is greater than the protocol can say counts as the greatest.
pub fn count(number: u64) -> i32
    ensures { result ≡ count number }
{
    i32::try_from(number).unwrap_or(i32::MAX)
}

/// A text as an object.
pub fn text(alloc: Global, value: &Text) -> Result<Object, NoMemory>
    ensures { IfOk result (λ object. object ≡ text value.now) }
{
    text_of(alloc, value.as_slice())
}

/// Bytes as a text that is an object.
pub(crate) fn text_of(alloc: Global, value: &[u8]) -> Result<Object, NoMemory>
    ensures { IfOk result (λ object. object ≡ text value.now) }
{
    let copy = Text::from_slice(alloc, value)?;
    Ok(Object::Str(Some(copy)))
}

/// A name and a value as objects.
fn pair(alloc: Global, name: &Text, value: &Text) -> Result<(Object, Object), NoMemory>
    ensures { IfOk result (λ pair. pair ≡ (text name.now, text value.now)) }
{
    let name = name.copy(alloc)?;
    let value = value.copy(alloc)?;
    Ok((Object::Str(Some(name)), Object::Str(Some(value))))
}

fn pairs(alloc: Global, vars: &Vars) -> Result<Items<(Object, Object)>, NoMemory>
    ensures { IfOk result (λ pairs. pairs ≡ map pair_of vars.now) }
{
    let mut pairs = Items::new(alloc);
    for (name, value) in vars.iter() {
        pairs.push(pair(alloc, name, value)?)?;
    }
    Ok(pairs)
}

/// The variables of a buffer, in order.
pub(crate) fn table(alloc: Global, vars: &Vars) -> Result<Object, NoMemory>
    ensures { IfOk result (λ object. object ≡ table vars.now) }
{
    let pairs = pairs(alloc, vars)?;
    Ok(Object::Htb {
        key: Kind::Str,
        value: Kind::Str,
        pairs,
    })
}

fn texts(alloc: Global, line: &PackedLine) -> Result<Items<Object>, NoMemory>
    ensures { IfOk result (λ values. values ≡ texts line.now.tags) }
{
    let mut values = Items::with_room(alloc, line.tags_len())?;
    for tag in line.tags() {
        values.push(text_of(alloc, tag)?)?;
    }
    Ok(values)
}

/// The tags of a line, in order.
pub(crate) fn tags(alloc: Global, line: &PackedLine) -> Result<Object, NoMemory>
    ensures { IfOk result (λ object. object ≡ objects.Arr kinds.Str (texts line.now.tags)) }
{
    let values = texts(alloc, line)?;
    Ok(Object::Arr {
        kind: Kind::Str,
        values,
    })
}

/// Puts a small integer after values.
pub(crate) fn push_chr(values: &mut Items<Object>, value: i8) -> Result<(), NoMemory>
    ensures { OnOk result (values.new ≡ values.old ++ objects.Chr value ∷ []) }
{
    values.push(Object::Chr(value))
}

/// One item of a buffer, with these keys and their values.
pub(crate) fn about(
    alloc: Global,
    keys: KeyList,
    buffer: Handle,
    values: Items<Object>,
) -> Result<[Object; 1], NoMemory>
    ensures { IfOk result (λ objects. objects ≡ about (list_text keys) buffer values) }
{
    let mut pointers = Items::with_room(alloc, 1)?;
    pointers.push(buffer.0)?;
    let mut items = Items::with_room(alloc, 1)?;
    items.push(HdaItem { pointers, values })?;
    let path = Text::from_slice(alloc, BUFFER_PATH)?;
    let keys = Text::from_slice(alloc, keys.text())?;
    Ok([Object::Hda(Hda {
        path: Some(path),
        keys: Some(keys),
        items,
    })])
}
