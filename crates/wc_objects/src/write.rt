//! Messages as bytes. The parts that `parts` gives to other crates write what they are given as a
//! part of a message whose length was found before, into room that was taken for it.

ghost use Rattle.std.specs.Prelude.{◌≡◌, ◌+◌, ◌-◌, ◌^◌, ◌<◌, ◌≤◌, ◌++◌, ◌∷◌};
ghost use Rattle.std.specs.Prelude.{[], List, length, Some, IsTrue, true, IfOk, IsOk, OnOk, OnErr};
ghost use Rattle.std.specs.Prelude.{IsErrOf};
ghost use Rattle.std.specs.List.{flat_map};
ghost use Rattle.std.specs.Fmt.{signed_decimal};
ghost use Rattle.std.specs.Int.{w8, cast_unsigned};
ghost use Rattle.std.specs.Str.{IsUtf8};
ghost use Rattle.wc_objects.specs.Forms.{well_formed};
ghost use Rattle.wc_objects.specs.Spells.{Spells};
ghost use Rattle.wc_objects.specs.Hex.{hex};
ghost use Rattle.wc_objects.specs.Spelling.{be32, short_bytes, pointer_bytes, text_bytes};
ghost use Rattle.wc_objects.specs.Spelling.{with_count, simple_bytes, pair_bytes, value_bytes};
ghost use Rattle.wc_objects.specs.Spelling.{item_bytes, hda_bytes, variable_bytes, table_bytes};
ghost use Rattle.wc_objects.specs.Spelling.{array_bytes, whole_bytes, object_bytes, body_bytes};
ghost use Rattle.wc_objects.specs.Spelling.{message_bytes, text_body_bytes, HasRoomFor, Puts};
ghost use Rattle.wc_objects.specs.Kinds.{letters};

use crate::hex::HexBuffer;
use crate::kind::Kind;
use crate::object::{Hda, HdaItem, InlVar, Object};
use crate::size::{message_length, text_message_length};
use bytes::BytesMut;
use std::alloc::Global;
use wc_text::{Items, NoMemory, Text};

/// Puts the low four bytes of a count. A count that needs more is that of no message.
#[tactic(auto, unfolding(crate::specs::Spelling::be32))]
pub fn put_count(out: &mut BytesMut, count: usize)
    requires { 4 ≤ out.old.spare }
    ensures { Puts out.old out.new (be32 count) }
{
    let bytes = count.to_be_bytes();
    out.extend_reserved(&bytes[4..]);
}

/// Puts a text after its length, as an `str` has it.
#[tactic(auto, unfolding(crate::specs::Spelling::text_bytes, crate::specs::Spelling::be32))]
pub fn put_bytes(out: &mut BytesMut, text: &[u8])
    requires { HasRoomFor out.old (text_bytes (Some text.now)) }
    ensures { Puts out.old out.new (text_bytes (Some text.now)) }
{
    put_count(out, text.len());
    out.extend_reserved(text);
}

#[tactic(auto, unfolding(crate::specs::Spelling::text_bytes))]
fn put_text(out: &mut BytesMut, text: &Option<Text>)
    requires { HasRoomFor out.old (text_bytes text.now) }
    ensures { Puts out.old out.new (text_bytes text.now) }
{
    match text {
        Some(text) => put_bytes(out, text.as_slice()),
        None => out.extend_reserved(&[255, 255, 255, 255]),
    }
}

fn put_short(out: &mut BytesMut, text: &[u8])
    requires room { HasRoomFor out.old (short_bytes text.now) }
    requires short { length text.now < 256 }
    ensures { Puts out.old out.new (short_bytes text.now) }
{
    out.extend_reserved(&[text.len() as u8]);
    out.extend_reserved(text);
}

/// Puts a number as a `lon` or a `tim` has it.
pub fn put_decimal(out: &mut BytesMut, n: i64)
    requires { HasRoomFor out.old (short_bytes (signed_decimal n)) }
    ensures { Puts out.old out.new (short_bytes (signed_decimal n)) }
{
    let mut buffer = itoa::Buffer::new();
    put_short(out, buffer.format(n).as_bytes());
}

/// Puts a pointer.
pub fn put_pointer(out: &mut BytesMut, p: u64)
    requires { HasRoomFor out.old (pointer_bytes p) }
    ensures { Puts out.old out.new (pointer_bytes p) }
{
    let mut buffer = HexBuffer::new();
    put_short(out, buffer.format(p));
}

/// Puts a `chr`.
pub fn put_chr(out: &mut BytesMut, n: i8)
    requires { 1 ≤ out.old.spare }
    ensures { Puts out.old out.new (cast_unsigned w8 n ∷ []) }
{
    out.extend_reserved(&n.to_be_bytes());
}

#[tactic(auto, unfolding(crate::specs::Spelling::simple_bytes, crate::specs::Spelling::be32))]
fn put_simple(out: &mut BytesMut, object: &Object)
    requires { HasRoomFor out.old (simple_bytes object.now) }
    ensures { Puts out.old out.new (simple_bytes object.now) }
{
    match object {
        Object::Chr(n) => out.extend_reserved(&n.to_be_bytes()),
        Object::Int(n) => out.extend_reserved(&n.to_be_bytes()),
        Object::Lon(n) | Object::Tim(n) => put_decimal(out, *n),
        Object::Str(text) | Object::Buf(text) => put_text(out, text),
        Object::Ptr(p) => put_pointer(out, *p),
        Object::Htb { .. }
        | Object::Hda(_)
        | Object::Inf { .. }
        | Object::Inl { .. }
        | Object::Arr { .. } => {}
    }
}

fn put_pair(out: &mut BytesMut, pair: &(Object, Object))
    requires { HasRoomFor out.old (pair_bytes pair.now) }
    ensures { Puts out.old out.new (pair_bytes pair.now) }
{
    put_simple(out, &pair.0);
    put_simple(out, &pair.1);
}

fn put_pairs(out: &mut BytesMut, pairs: &[(Object, Object)])
    requires { HasRoomFor out.old (with_count pair_bytes pairs.now) }
    ensures { Puts out.old out.new (with_count pair_bytes pairs.now) }
{
    put_count(out, pairs.len());
    for pair in pairs {
        put_pair(out, pair);
    }
}

fn put_values(out: &mut BytesMut, values: &[Object])
    requires { HasRoomFor out.old (with_count simple_bytes values.now) }
    ensures { Puts out.old out.new (with_count simple_bytes values.now) }
{
    put_count(out, values.len());
    for value in values {
        put_simple(out, value);
    }
}

/// Puts the letters of a type.
pub fn put_kind(out: &mut BytesMut, kind: Kind)
    requires { HasRoomFor out.old (letters kind) }
    ensures { Puts out.old out.new (letters kind) }
{
    out.extend_reserved(kind.letters());
}

fn put_table(out: &mut BytesMut, key: Kind, value: Kind, pairs: &[(Object, Object)])
    requires { HasRoomFor out.old (table_bytes key value pairs.now) }
    ensures { Puts out.old out.new (table_bytes key value pairs.now) }
{
    put_kind(out, key);
    put_kind(out, value);
    put_pairs(out, pairs);
}

fn put_array(out: &mut BytesMut, kind: Kind, values: &[Object])
    requires { HasRoomFor out.old (array_bytes kind values.now) }
    ensures { Puts out.old out.new (array_bytes kind values.now) }
{
    put_kind(out, kind);
    put_values(out, values);
}

#[tactic(auto, unfolding(crate::specs::Spelling::value_bytes, crate::specs::Spelling::simple_bytes))]
fn put_value(out: &mut BytesMut, value: &Object)
    requires { HasRoomFor out.old (value_bytes value.now) }
    ensures { Puts out.old out.new (value_bytes value.now) }
{
    match value {
        Object::Htb { key, value, pairs } => put_table(out, *key, *value, pairs.as_slice()),
        Object::Arr { kind, values } => put_array(out, *kind, values.as_slice()),
        Object::Chr(_)
        | Object::Int(_)
        | Object::Lon(_)
        | Object::Str(_)
        | Object::Buf(_)
        | Object::Ptr(_)
        | Object::Tim(_)
        | Object::Hda(_)
        | Object::Inf { .. }
        | Object::Inl { .. } => put_simple(out, value),
    }
}

fn put_pointers(out: &mut BytesMut, pointers: &[u64])
    requires { HasRoomFor out.old (flat_map pointer_bytes pointers.now) }
    ensures { Puts out.old out.new (flat_map pointer_bytes pointers.now) }
{
    for pointer in pointers {
        put_pointer(out, *pointer);
    }
}

fn put_item_values(out: &mut BytesMut, values: &[Object])
    requires { HasRoomFor out.old (flat_map value_bytes values.now) }
    ensures { Puts out.old out.new (flat_map value_bytes values.now) }
{
    for value in values {
        put_value(out, value);
    }
}

#[tactic(auto, unfolding(crate::specs::Spelling::item_bytes))]
fn put_item(out: &mut BytesMut, item: &HdaItem)
    requires { HasRoomFor out.old (item_bytes item.now) }
    ensures { Puts out.old out.new (item_bytes item.now) }
{
    put_pointers(out, item.pointers.as_slice());
    put_item_values(out, item.values.as_slice());
}

fn put_items(out: &mut BytesMut, items: &[HdaItem])
    requires { HasRoomFor out.old (with_count item_bytes items.now) }
    ensures { Puts out.old out.new (with_count item_bytes items.now) }
{
    put_count(out, items.len());
    for item in items {
        put_item(out, item);
    }
}

#[tactic(auto, unfolding(crate::specs::Spelling::hda_bytes))]
fn put_hda(out: &mut BytesMut, hda: &Hda)
    requires { HasRoomFor out.old (hda_bytes hda.now) }
    ensures { Puts out.old out.new (hda_bytes hda.now) }
{
    put_text(out, &hda.path);
    put_text(out, &hda.keys);
    put_items(out, hda.items.as_slice());
}

#[tactic(auto, unfolding(crate::specs::Spelling::variable_bytes))]
fn put_variable(out: &mut BytesMut, variable: &InlVar)
    requires { HasRoomFor out.old (variable_bytes variable.now) }
    ensures { Puts out.old out.new (variable_bytes variable.now) }
{
    put_bytes(out, variable.name.as_slice());
    put_kind(out, Kind::of(&variable.value));
    put_simple(out, &variable.value);
}

fn put_variables(out: &mut BytesMut, variables: &[InlVar])
    requires { HasRoomFor out.old (with_count variable_bytes variables.now) }
    ensures { Puts out.old out.new (with_count variable_bytes variables.now) }
{
    put_count(out, variables.len());
    for variable in variables {
        put_variable(out, variable);
    }
}

fn put_lists(out: &mut BytesMut, lists: &[Items<InlVar>])
    requires { HasRoomFor out.old (with_count (with_count variable_bytes) lists.now) }
    ensures { Puts out.old out.new (with_count (with_count variable_bytes) lists.now) }
{
    put_count(out, lists.len());
    for list in lists {
        put_variables(out, list.as_slice());
    }
}

#[tactic(auto, unfolding(crate::specs::Spelling::value_bytes))]
fn put_whole(out: &mut BytesMut, object: &Object)
    requires { HasRoomFor out.old (whole_bytes object.now) }
    ensures { Puts out.old out.new (whole_bytes object.now) }
{
    match object {
        Object::Hda(hda) => put_hda(out, hda),
        Object::Inf { name, value } => {
            put_text(out, name);
            put_text(out, value);
        }
        Object::Inl { name, items } => {
            put_bytes(out, name.as_slice());
            put_lists(out, items.as_slice());
        }
        Object::Chr(_)
        | Object::Int(_)
        | Object::Lon(_)
        | Object::Str(_)
        | Object::Buf(_)
        | Object::Ptr(_)
        | Object::Tim(_)
        | Object::Htb { .. }
        | Object::Arr { .. } => put_value(out, object),
    }
}

#[tactic(auto, unfolding(crate::specs::Spelling::object_bytes))]
fn put_object(out: &mut BytesMut, object: &Object)
    requires { HasRoomFor out.old (object_bytes object.now) }
    ensures { Puts out.old out.new (object_bytes object.now) }
{
    put_kind(out, Kind::of(object));
    put_whole(out, object);
}

fn put_objects(out: &mut BytesMut, objects: &[Object])
    requires { HasRoomFor out.old (flat_map object_bytes objects.now) }
    ensures { Puts out.old out.new (flat_map object_bytes objects.now) }
{
    for object in objects {
        put_object(out, object);
    }
}

/// Puts what comes after the length of a message.
fn put_body(out: &mut BytesMut, id: &[u8], objects: &[Object])
    requires { HasRoomFor out.old (body_bytes id.now objects.now) }
    ensures { Puts out.old out.new (body_bytes id.now objects.now) }
{
    out.extend_reserved(&[0]);
    put_bytes(out, id);
    put_objects(out, objects);
}

/// Puts a message whose length is known.
fn put_message(out: &mut BytesMut, size: usize, id: &[u8], objects: &[Object])
    requires size { size ≡ length (message_bytes id.now objects.now) }
    requires room { HasRoomFor out.old (message_bytes id.now objects.now) }
    ensures { Puts out.old out.new (message_bytes id.now objects.now) }
{
    put_count(out, size);
    put_body(out, id, objects);
}

/// Puts what comes after the length of a message of one `str`.
fn put_text_body(out: &mut BytesMut, id: &[u8], text: &[u8])
    requires { HasRoomFor out.old (text_body_bytes id.now text.now) }
    ensures { Puts out.old out.new (text_body_bytes id.now text.now) }
{
    out.extend_reserved(&[0]);
    put_bytes(out, id);
    put_kind(out, Kind::Str);
    put_bytes(out, text);
}

/// Puts a message of one `str` whose length is known.
fn put_text_message(out: &mut BytesMut, size: usize, id: &[u8], text: &[u8])
    requires size { size ≡ length (message_bytes id.now (Object.Str (Some text.now) ∷ [])) }
    requires room { HasRoomFor out.old (message_bytes id.now (Object.Str (Some text.now) ∷ [])) }
    ensures { Puts out.old out.new (message_bytes id.now (Object.Str (Some text.now) ∷ [])) }
{
    put_count(out, size);
    put_text_body(out, id, text);
}

/// Why a message was not written.
#[derive(Clone, Copy, Debug, PartialEq, Eq, thiserror::Error)]
pub enum WriteRefused {
    #[error("the message is longer than 2147483647 bytes")]
    TooLong,
    #[error("out of memory")]
    NoMemory,
}

/// Puts a message of well-formed objects after the bytes that are in a buffer, in WeeChat's relay
/// protocol without compression. Where it is refused the bytes stay as they were.
///
/// `TooLong` where the message would be longer than 2^31 - 1 bytes, which is found before memory is
/// asked for; `NoMemory` where the buffer can't grow by its length.
pub fn append_message(out: &mut BytesMut, id: &[u8], objects: &[Object]) -> Result<(), WriteRefused>
    requires formed { well_formed objects.now ≡ true }
    requires text { IsUtf8 id.now }
    ensures ok { OnOk result (out.new.items ≡ out.old.items ++ message_bytes id.now objects.now) }
    ensures fits { OnOk result (length (message_bytes id.now objects.now) ≤ 2 ^ 31 - 1) }
    ensures too_long { IsErrOf result WriteRefused.TooLong →
        2 ^ 31 - 1 < length (message_bytes id.now objects.now) }
    ensures err { OnErr result (out.new.items ≡ out.old.items) }
{
    let Some(size) = message_length(id, objects) else {
        return Err(WriteRefused::TooLong);
    };
    let Ok(()) = out.reserve(size) else {
        return Err(WriteRefused::NoMemory);
    };
    put_message(out, size, id, objects);
    Ok(())
}

/// A message of well-formed objects, in WeeChat's relay protocol without compression.
///
/// `TooLong` where it would be longer than 2^31 - 1 bytes, which is found before memory is asked
/// for.
pub fn write_message(
    alloc: Global,
    id: &Text,
    objects: &Items<Object>,
) -> Result<Text, WriteRefused>
    requires formed { well_formed objects.now ≡ true }
    requires text { IsUtf8 id.now }
    ensures ok { IfOk result (λ text. text ≡ message_bytes id.now objects.now) }
    ensures spells { IfOk result
        (λ text. Spells (record { id = id.now; objects = objects.now }) text) }
    ensures fits { OnOk result (length (message_bytes id.now objects.now) ≤ 2 ^ 31 - 1) }
    ensures too_long { IsErrOf result WriteRefused.TooLong →
        2 ^ 31 - 1 < length (message_bytes id.now objects.now) }
{
    let Some(size) = message_length(id.as_slice(), objects.as_slice()) else {
        return Err(WriteRefused::TooLong);
    };
    let Ok(mut out) = BytesMut::with_capacity(alloc, size) else {
        return Err(WriteRefused::NoMemory);
    };
    put_message(&mut out, size, id.as_slice(), objects.as_slice());
    match Text::from_slice(alloc, out.as_slice()) {
        Ok(text) => Ok(text),
        Err(NoMemory) => Err(WriteRefused::NoMemory),
    }
}

/// Puts the message of one `str` after the bytes that are in a buffer, as `append_message` does.
#[tactic(auto, using(crate::proofs::Rooms::text_sizes))]
pub fn append_text(out: &mut BytesMut, id: &[u8], text: &[u8]) -> Result<(), WriteRefused>
    requires id { IsUtf8 id.now }
    requires text { IsUtf8 text.now }
    ensures ok { OnOk result (out.new.items ≡ out.old.items ++ message_bytes id.now
        (Object.Str (Some text.now) ∷ [])) }
    ensures fits { OnOk result (length (message_bytes id.now (Object.Str (Some text.now) ∷ []))
        ≤ 2 ^ 31 - 1) }
    ensures too_long { IsErrOf result WriteRefused.TooLong →
        2 ^ 31 - 1 < length (message_bytes id.now (Object.Str (Some text.now) ∷ [])) }
    ensures err { OnErr result (out.new.items ≡ out.old.items) }
{
    let Some(size) = text_message_length(id, text) else {
        return Err(WriteRefused::TooLong);
    };
    let Ok(()) = out.reserve(size) else {
        return Err(WriteRefused::NoMemory);
    };
    put_text_message(out, size, id, text);
    Ok(())
}
