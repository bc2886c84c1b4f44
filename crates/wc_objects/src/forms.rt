//! Which objects a message may hold.

ghost use Rattle.std.specs.Prelude.{◌≡◌, ◌&&◌, ◌==◌, true, Some, None, length, MatchOption};
ghost use Rattle.std.specs.Prelude.{is_some};
ghost use Rattle.std.specs.List.{list_all};
ghost use Rattle.std.specs.Str.{is_utf8};
ghost use Rattle.wc_objects.specs.Forms as spec;
ghost use Rattle.wc_objects.specs.Left.{keys_left};

use crate::keys::{all_keys, first_key, path_depth};
use crate::kind::Kind;
use crate::object::{Hda, HdaItem, InlVar, Object};
use wc_text::{Items, Text};

/// Whether the bytes are UTF-8.
pub fn is_utf8(bytes: &[u8]) -> bool
    ensures { result ≡ is_utf8 bytes.now }
{
    match std::str::from_utf8(bytes) {
        Ok(_) => true,
        Err(_) => false,
    }
}

fn is_text(text: &Option<Text>) -> bool
    ensures { result ≡ spec.is_text text.now }
{
    match text {
        Some(text) => is_utf8(text.as_slice()),
        None => true,
    }
}

fn is_name(text: &Option<Text>) -> bool
    ensures { result ≡ spec.is_name text.now }
{
    match text {
        Some(text) => is_utf8(text.as_slice()),
        None => false,
    }
}

/// Whether the object is of this type, which holds no others, and its text is one.
#[tactic(auto, unfolding(crate::specs::Forms::simple_is))]
fn simple_is(kind: Kind, object: &Object) -> bool
    ensures { result ≡ spec.simple_is kind object.now }
{
    match object {
        Object::Chr(_) => kind.is(Kind::Chr),
        Object::Int(_) => kind.is(Kind::Int),
        Object::Lon(_) => kind.is(Kind::Lon),
        Object::Str(text) => kind.is(Kind::Str) && is_text(text),
        Object::Buf(text) => kind.is(Kind::Buf) && is_text(text),
        Object::Ptr(_) => kind.is(Kind::Ptr),
        Object::Tim(_) => kind.is(Kind::Tim),
        Object::Htb { .. }
        | Object::Hda(_)
        | Object::Inf { .. }
        | Object::Inl { .. }
        | Object::Arr { .. } => false,
    }
}

fn values_are_simple(kind: Kind, values: &[Object]) -> bool
    ensures { result ≡ list_all (λ o. spec.simple_is kind o) values.now }
{
    values.iter().all(|value| simple_is(kind, value))
}

fn pairs_are_simple(key: Kind, value: Kind, pairs: &[(Object, Object)]) -> bool
    ensures { result ≡ list_all (λ p. spec.simple_is key p.0 && spec.simple_is value p.1)
        pairs.now }
{
    pairs.iter().all(|pair| simple_is(key, &pair.0) && simple_is(value, &pair.1))
}

/// Whether the object is of this type, and a table, an array or one that holds no others.
#[tactic(auto, unfolding(crate::specs::Forms::value_is, crate::specs::Forms::simple_is))]
fn value_is(kind: Kind, object: &Object) -> bool
    ensures { result ≡ spec.value_is kind object.now }
{
    match object {
        Object::Htb { key, value, pairs } => {
            kind.is(Kind::Htb)
                && key.is_simple()
                && value.is_simple()
                && pairs_are_simple(*key, *value, pairs.as_slice())
        }
        Object::Arr {
            kind: element,
            values,
        } => {
            kind.is(Kind::Arr)
                && element.is_simple()
                && values_are_simple(*element, values.as_slice())
        }
        Object::Chr(_)
        | Object::Int(_)
        | Object::Lon(_)
        | Object::Str(_)
        | Object::Buf(_)
        | Object::Ptr(_)
        | Object::Tim(_)
        | Object::Hda(_)
        | Object::Inf { .. }
        | Object::Inl { .. } => simple_is(kind, object),
    }
}

/// Whether there is a value for each key, of the key's type and in their order.
fn values_are(keys: &[u8], values: &[Object]) -> bool
    ensures { result ≡ spec.values_of (spec.kinds_of keys.now) values.now }
{
    let mut left = all_keys(keys);
    for value in values {
        let Some(text) = left else {
            return false;
        };
        let Some((kind, rest)) = first_key(text) else {
            return false;
        };
        if !value_is(kind, value) {
            return false;
        }
        left = rest;
    }
    left.is_none()
}

/// Whether an item has a pointer for each name of the path, and a value for each key.
#[tactic(auto, unfolding(crate::specs::Forms::item_of))]
fn item_is(depth: usize, keys: &[u8], item: &HdaItem) -> bool
    ensures { result ≡ spec.item_of depth (spec.kinds_of keys.now) item.now }
{
    item.pointers.as_slice().len() == depth && values_are(keys, item.values.as_slice())
}

fn items_are(depth: usize, keys: &[u8], items: &[HdaItem]) -> bool
    ensures { result ≡ list_all (λ item. spec.item_of depth (spec.kinds_of keys.now) item)
        items.now }
{
    items.iter().all(|item| item_is(depth, keys, item))
}

/// Whether the bytes are keys.
#[tactic(auto, unfolding(crate::specs::Forms::kinds_of))]
pub fn are_keys(keys: &[u8]) -> bool
    ensures { result ≡ is_some (spec.kinds_of keys.now) }
{
    let mut left = all_keys(keys);
    while let Some(text) = left {
        let Some((_, rest)) = first_key(text) else {
            return false;
        };
        left = rest;
    }
    true
}

fn hda_parts_are(path: &Option<Text>, keys: &Option<Text>, items: &[HdaItem]) -> bool
    ensures { result ≡ spec.hda_parts_are path.now keys.now items.now }
{
    match (path, keys) {
        (None, None) => items.is_empty(),
        (Some(path), Some(keys)) => hda_is_listed(path.as_slice(), keys.as_slice(), items),
        (None, Some(_)) | (Some(_), None) => false,
    }
}

fn hda_is_listed(path: &[u8], keys: &[u8], items: &[HdaItem]) -> bool
    ensures { result ≡ spec.hda_parts_are (Some path.now) (Some keys.now) items.now }
{
    if !is_utf8(path) {
        return false;
    }
    let Some(depth) = path_depth(path) else {
        return false;
    };
    is_utf8(keys) && are_keys(keys) && items_are(depth, keys, items)
}

#[tactic(auto, unfolding(crate::specs::Forms::hda_is))]
fn hda_is(hda: &Hda) -> bool
    ensures { result ≡ spec.hda_is hda.now }
{
    hda_parts_are(&hda.path, &hda.keys, hda.items.as_slice())
}

#[tactic(auto, unfolding(crate::specs::Forms::variable_is))]
fn variable_is(variable: &InlVar) -> bool
    ensures { result ≡ spec.variable_is variable.now }
{
    is_utf8(variable.name.as_slice()) && simple_is(Kind::of(&variable.value), &variable.value)
}

fn variables_are(variables: &[InlVar]) -> bool
    ensures { result ≡ list_all (λ v. spec.variable_is v) variables.now }
{
    variables.iter().all(variable_is)
}

fn lists_are(lists: &[Items<InlVar>]) -> bool
    ensures { result ≡ list_all (λ list. list_all (λ v. spec.variable_is v) list) lists.now }
{
    lists.iter().all(|list| variables_are(list.as_slice()))
}

#[rattlefmt::skip]
#[tactic(auto, unfolding(
    crate::specs::Forms::object_is,
    crate::specs::Forms::value_is,
    crate::specs::Forms::simple_is
))]
fn object_is(object: &Object) -> bool
    ensures { result ≡ spec.object_is object.now }
{
    match object {
        Object::Hda(hda) => hda_is(hda),
        Object::Inf { name, value } => is_name(name) && is_text(value),
        Object::Inl { name, items } => is_utf8(name.as_slice()) && lists_are(items.as_slice()),
        Object::Chr(_)
        | Object::Int(_)
        | Object::Lon(_)
        | Object::Str(_)
        | Object::Buf(_)
        | Object::Ptr(_)
        | Object::Tim(_)
        | Object::Htb { .. }
        | Object::Arr { .. } => value_is(Kind::of(object), object),
    }
}

/// Whether a message may hold the objects: each keeps the rules of its type in WeeChat's relay
/// protocol.
///
/// Texts are UTF-8. Values of an `arr`, keys and values of an `htb`, and variables of an `inl` are
/// of the type that is named, which holds no other objects. An `inf` has a name. An `hda` has
/// neither path nor keys nor items, or a path of names parted by `/` and keys `name:type` parted by
/// `,`; each of its items has a pointer for each name and a value for each key.
#[tactic(auto, unfolding(crate::specs::Forms::well_formed))]
pub fn well_formed(objects: &Items<Object>) -> bool
    ensures { result ≡ spec.well_formed objects.now }
{
    objects.as_slice().iter().all(object_is)
}
