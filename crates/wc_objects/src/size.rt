//! How long a message is, found before it is written: each function tells what is left of a room
//! after what it looks at, and None where that is longer than the room.

ghost use Rattle.std.specs.Prelude.{◌≡◌, ◌+◌, ◌-◌, ◌^◌, ◌<◌, ◌≤◌, ◌++◌, ◌∷◌};
ghost use Rattle.std.specs.Prelude.{[], List, length, MatchOption, Some};
ghost use Rattle.std.specs.List.{flat_map};
ghost use Rattle.std.specs.Fmt.{signed_decimal};
ghost use Rattle.wc_objects.specs.Hex.{hex};
ghost use Rattle.wc_objects.specs.Spelling.{short_bytes, pointer_bytes, text_bytes, with_count};
ghost use Rattle.wc_objects.specs.Spelling.{simple_bytes, pair_bytes, value_bytes, item_bytes};
ghost use Rattle.wc_objects.specs.Spelling.{hda_bytes, variable_bytes, object_bytes, message_bytes};
ghost use Rattle.wc_objects.specs.Spelling.{text_body_bytes, FitsIn};

use crate::hex::HexBuffer;
use crate::object::{Hda, HdaItem, InlVar, Object};
use wc_text::{Items, Text};

/// How many bytes a message has at most.
pub const MAX_MESSAGE: usize = 0x7fff_ffff;

/// What is left after a text and its length.
#[tactic(auto, unfolding(crate::specs::Spelling::text_bytes, crate::specs::Spelling::be32))]
pub fn room_after_bytes(room: usize, text: &[u8]) -> Option<usize>
    ensures { FitsIn result room (text_bytes (Some text.now)) }
{
    room.checked_sub(4)?.checked_sub(text.len())
}

#[tactic(auto, unfolding(crate::specs::Spelling::text_bytes))]
fn room_after_text(room: usize, text: &Option<Text>) -> Option<usize>
    ensures { FitsIn result room (text_bytes text.now) }
{
    match text {
        Some(text) => room_after_bytes(room, text.as_slice()),
        None => room.checked_sub(4),
    }
}

/// What is left after a number as a `lon` or a `tim` has it.
pub fn room_after_decimal(room: usize, n: i64) -> Option<usize>
    ensures { FitsIn result room (short_bytes (signed_decimal n)) }
{
    let mut buffer = itoa::Buffer::new();
    let text = buffer.format(n);
    room.checked_sub(1)?.checked_sub(text.len())
}

/// What is left after a pointer.
pub fn room_after_pointer(room: usize, p: u64) -> Option<usize>
    ensures { FitsIn result room (pointer_bytes p) }
{
    let mut buffer = HexBuffer::new();
    let text = buffer.format(p);
    room.checked_sub(1)?.checked_sub(text.len())
}

#[tactic(auto, unfolding(crate::specs::Spelling::simple_bytes, crate::specs::Spelling::be32))]
fn room_after_simple(room: usize, object: &Object) -> Option<usize>
    ensures { FitsIn result room (simple_bytes object.now) }
{
    match object {
        Object::Chr(_) => room.checked_sub(1),
        Object::Int(_) => room.checked_sub(4),
        Object::Lon(n) | Object::Tim(n) => room_after_decimal(room, *n),
        Object::Str(text) | Object::Buf(text) => room_after_text(room, text),
        Object::Ptr(p) => room_after_pointer(room, *p),
        Object::Htb { .. }
        | Object::Hda(_)
        | Object::Inf { .. }
        | Object::Inl { .. }
        | Object::Arr { .. } => Some(room),
    }
}

fn room_after_pairs(room: usize, pairs: &[(Object, Object)]) -> Option<usize>
    ensures { FitsIn result room (flat_map pair_bytes pairs.now) }
{
    let mut left = room;
    for (key, value) in pairs {
        left = room_after_simple(room_after_simple(left, key)?, value)?;
    }
    Some(left)
}

fn room_after_values(room: usize, values: &[Object]) -> Option<usize>
    ensures { FitsIn result room (flat_map simple_bytes values.now) }
{
    let mut left = room;
    for value in values {
        left = room_after_simple(left, value)?;
    }
    Some(left)
}

#[rattlefmt::skip]
#[tactic(auto, unfolding(
    crate::specs::Spelling::value_bytes,
    crate::specs::Spelling::simple_bytes,
    crate::specs::Spelling::be32
))]
fn room_after_value(room: usize, value: &Object) -> Option<usize>
    ensures { FitsIn result room (value_bytes value.now) }
{
    match value {
        Object::Htb { pairs, .. } => room_after_pairs(room.checked_sub(10)?, pairs.as_slice()),
        Object::Arr { values, .. } => room_after_values(room.checked_sub(7)?, values.as_slice()),
        Object::Chr(_)
        | Object::Int(_)
        | Object::Lon(_)
        | Object::Str(_)
        | Object::Buf(_)
        | Object::Ptr(_)
        | Object::Tim(_)
        | Object::Hda(_)
        | Object::Inf { .. }
        | Object::Inl { .. } => room_after_simple(room, value),
    }
}

fn room_after_pointers(room: usize, pointers: &[u64]) -> Option<usize>
    ensures { FitsIn result room (flat_map pointer_bytes pointers.now) }
{
    let mut left = room;
    for pointer in pointers {
        left = room_after_pointer(left, *pointer)?;
    }
    Some(left)
}

/// What is left after the values of an item of an `hda`.
pub fn room_after_item_values(room: usize, values: &[Object]) -> Option<usize>
    ensures { FitsIn result room (flat_map value_bytes values.now) }
{
    let mut left = room;
    for value in values {
        left = room_after_value(left, value)?;
    }
    Some(left)
}

#[tactic(auto, unfolding(crate::specs::Spelling::item_bytes))]
fn room_after_item(room: usize, item: &HdaItem) -> Option<usize>
    ensures { FitsIn result room (item_bytes item.now) }
{
    let room = room_after_pointers(room, item.pointers.as_slice())?;
    room_after_item_values(room, item.values.as_slice())
}

fn room_after_items(room: usize, items: &[HdaItem]) -> Option<usize>
    ensures { FitsIn result room (flat_map item_bytes items.now) }
{
    let mut left = room;
    for item in items {
        left = room_after_item(left, item)?;
    }
    Some(left)
}

#[tactic(auto, unfolding(crate::specs::Spelling::hda_bytes, crate::specs::Spelling::be32))]
fn room_after_hda(room: usize, hda: &Hda) -> Option<usize>
    ensures { FitsIn result room (hda_bytes hda.now) }
{
    let room = room_after_text(room, &hda.path)?;
    let room = room_after_text(room, &hda.keys)?.checked_sub(4)?;
    room_after_items(room, hda.items.as_slice())
}

#[tactic(auto, unfolding(crate::specs::Spelling::variable_bytes))]
fn room_after_variable(room: usize, variable: &InlVar) -> Option<usize>
    ensures { FitsIn result room (variable_bytes variable.now) }
{
    let room = room_after_bytes(room, variable.name.as_slice())?.checked_sub(3)?;
    room_after_simple(room, &variable.value)
}

#[tactic(auto, unfolding(crate::specs::Spelling::be32))]
fn room_after_variables(room: usize, variables: &[InlVar]) -> Option<usize>
    ensures { FitsIn result room (with_count variable_bytes variables.now) }
{
    let mut left = room.checked_sub(4)?;
    for variable in variables {
        left = room_after_variable(left, variable)?;
    }
    Some(left)
}

#[tactic(auto, unfolding(crate::specs::Spelling::be32))]
fn room_after_lists(room: usize, lists: &[Items<InlVar>]) -> Option<usize>
    ensures { FitsIn result room (with_count (with_count variable_bytes) lists.now) }
{
    let mut left = room.checked_sub(4)?;
    for list in lists {
        left = room_after_variables(left, list.as_slice())?;
    }
    Some(left)
}

#[tactic(auto, unfolding(crate::specs::Spelling::object_bytes, crate::specs::Spelling::value_bytes))]
fn room_after_object(room: usize, object: &Object) -> Option<usize>
    ensures { FitsIn result room (object_bytes object.now) }
{
    let room = room.checked_sub(3)?;
    match object {
        Object::Hda(hda) => room_after_hda(room, hda),
        Object::Inf { name, value } => room_after_text(room_after_text(room, name)?, value),
        Object::Inl { name, items } => {
            room_after_lists(room_after_bytes(room, name.as_slice())?, items.as_slice())
        }
        Object::Chr(_)
        | Object::Int(_)
        | Object::Lon(_)
        | Object::Str(_)
        | Object::Buf(_)
        | Object::Ptr(_)
        | Object::Tim(_)
        | Object::Htb { .. }
        | Object::Arr { .. } => room_after_value(room, object),
    }
}

fn room_after_objects(room: usize, objects: &[Object]) -> Option<usize>
    ensures { FitsIn result room (flat_map object_bytes objects.now) }
{
    let mut left = room;
    for object in objects {
        left = room_after_object(left, object)?;
    }
    Some(left)
}

/// How many bytes the message has, where a message may be that long.
#[tactic(auto, unfolding(crate::specs::Spelling::message_bytes, crate::specs::Spelling::be32))]
pub fn message_length(id: &[u8], objects: &[Object]) -> Option<usize>
    ensures { MatchOption result (2 ^ 31 - 1 < length (message_bytes id.now objects.now))
        (λ n. (n ≡ length (message_bytes id.now objects.now)) × (n ≤ 2 ^ 31 - 1)) }
{
    let room = room_after_bytes(MAX_MESSAGE - 5, id)?;
    let room = room_after_objects(room, objects)?;
    Some(MAX_MESSAGE - room)
}

/// The same for a message of one `str`.
pub fn text_message_length(id: &[u8], text: &[u8]) -> Option<usize>
    ensures { MatchOption result (2 ^ 31 - 1 < 4 + length (text_body_bytes id.now text.now))
        (λ n. (n ≡ 4 + length (text_body_bytes id.now text.now)) × (n ≤ 2 ^ 31 - 1)) }
{
    let room = room_after_bytes(MAX_MESSAGE - 5, id)?;
    let room = room_after_bytes(room.checked_sub(3)?, text)?;
    Some(MAX_MESSAGE - room)
}
