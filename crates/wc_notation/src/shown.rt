use crate::escapes::escape;
use std::alloc::AllocError;
use wc_objects::{Hda, HdaItem, InlVar, Kind, Object};
use wc_text::{Items, Text};

/// What parts words and what is in them.
const MARKS: &[u8] = b" ,=:~";

/// What parts words.
const BLANK: &[u8] = b" ";

fn show_text(out: &mut String, text: &Option<Text>) -> Result<(), AllocError> {
    match text {
        Some(text) => escape(out, text.as_slice(), MARKS),
        None => out.push('~'),
    }
}

/// Path and keys have commas and colons of their own.
fn show_plain(out: &mut String, text: &Option<Text>) -> Result<(), AllocError> {
    match text {
        Some(text) => escape(out, text.as_slice(), BLANK),
        None => out.push('~'),
    }
}

fn show_kind(out: &mut String, kind: Kind) -> Result<(), AllocError> {
    escape(out, kind.letters().as_slice(), BLANK)
}

/// A sign of ASCII that is no digit is shown for its code.
fn show_chr(out: &mut String, number: i8) -> Result<(), AllocError> {
    match u8::try_from(number) {
        Ok(sign) if sign.is_ascii_graphic() && !sign.is_ascii_digit() => out.push(sign as char),
        _ => write!(out, "{number}"),
    }
}

/// What is after the kind of a value that holds no others.
fn show_bare(out: &mut String, object: &Object) -> Result<(), AllocError> {
    match object {
        Object::Chr(number) => show_chr(out, *number),
        Object::Int(number) => write!(out, "{number}"),
        Object::Lon(number) => write!(out, "{number}"),
        Object::Tim(number) => write!(out, "{number}"),
        Object::Ptr(pointer) => write!(out, "{pointer:x}"),
        Object::Str(text) => show_text(out, text),
        Object::Buf(text) => show_text(out, text),
        Object::Htb { .. }
        | Object::Hda(_)
        | Object::Inf { .. }
        | Object::Inl { .. }
        | Object::Arr { .. } => out.push('?'),
    }
}

/// A colon before the first of some values, and a comma before each other.
fn show_mark(out: &mut String, place: usize) -> Result<(), AllocError> {
    out.push(if place == 0 { ':' } else { ',' })
}

fn show_array(out: &mut String, kind: Kind, values: &[Object]) -> Result<(), AllocError> {
    out.push_str("arr:")?;
    show_kind(out, kind)?;
    for (place, value) in values.iter().enumerate() {
        show_mark(out, place)?;
        show_bare(out, value)?;
    }
    Ok(())
}

fn show_pairs(out: &mut String, pairs: &[(Object, Object)]) -> Result<(), AllocError> {
    for (place, pair) in pairs.iter().enumerate() {
        show_mark(out, place)?;
        show_bare(out, &pair.0)?;
        out.push('=')?;
        show_bare(out, &pair.1)?;
    }
    Ok(())
}

fn show_table_kinds(out: &mut String, key: Kind, value: Kind) -> Result<(), AllocError> {
    out.push_str("htb:")?;
    show_kind(out, key)?;
    out.push(':')?;
    show_kind(out, value)
}

fn show_simple(out: &mut String, object: &Object) -> Result<(), AllocError> {
    show_kind(out, Kind::of(object))?;
    out.push(':')?;
    show_bare(out, object)
}

fn show_value(out: &mut String, object: &Object) -> Result<(), AllocError> {
    match object {
        Object::Arr { kind, values } => show_array(out, *kind, values.as_slice()),
        Object::Htb { key, value, pairs } => {
            show_table_kinds(out, *key, *value)?;
            show_pairs(out, pairs.as_slice())
        }
        _ => show_simple(out, object),
    }
}

fn show_pointers(out: &mut String, pointers: &[u64]) -> Result<(), AllocError> {
    for (place, pointer) in pointers.iter().enumerate() {
        out.push(if place == 0 { ':' } else { '/' })?;
        write!(out, "{pointer:x}")?;
    }
    Ok(())
}

fn show_item(out: &mut String, item: &HdaItem) -> Result<(), AllocError> {
    out.push_str(" at")?;
    show_pointers(out, item.pointers.as_slice())?;
    for value in item.values.as_slice() {
        out.push(' ')?;
        show_value(out, value)?;
    }
    Ok(())
}

fn show_hda(out: &mut String, hda: &Hda) -> Result<(), AllocError> {
    out.push_str("hda:")?;
    show_plain(out, &hda.path)?;
    out.push(':')?;
    show_plain(out, &hda.keys)?;
    for item in hda.items.as_slice() {
        show_item(out, item)?;
    }
    out.push_str(" end")
}

fn show_variables(out: &mut String, variables: &[InlVar]) -> Result<(), AllocError> {
    out.push_str(" item")?;
    for variable in variables {
        out.push(' ')?;
        escape(out, variable.name.as_slice(), MARKS)?;
        out.push('=')?;
        show_simple(out, &variable.value)?;
    }
    Ok(())
}

fn show_inl(out: &mut String, name: &Text, items: &[Items<InlVar>]) -> Result<(), AllocError> {
    out.push_str("inl:")?;
    escape(out, name.as_slice(), MARKS)?;
    for variables in items {
        show_variables(out, variables.as_slice())?;
    }
    out.push_str(" end")
}

fn show_inf(out: &mut String, name: &Option<Text>, value: &Option<Text>) -> Result<(), AllocError> {
    out.push_str("inf:")?;
    show_text(out, name)?;
    out.push(':')?;
    show_text(out, value)
}

fn show_object(out: &mut String, object: &Object) -> Result<(), AllocError> {
    match object {
        Object::Hda(hda) => show_hda(out, hda),
        Object::Inf { name, value } => show_inf(out, name, value),
        Object::Inl { name, items } => show_inl(out, name, items.as_slice()),
        _ => show_value(out, object),
    }
}

/// Shows objects in the words in which scripts write them, each after a blank.
pub fn show_objects(out: &mut String, objects: &[Object]) -> Result<(), AllocError> {
    for object in objects {
        out.push(' ')?;
        show_object(out, object)?;
    }
    Ok(())
}
