//! What paths lead to in a world.

use crate::sheet::Sheet;
use std::alloc::Global;
use wc_hdata::{Path, WalkRefused, info, infolist, read_path, walk};
use wc_objects::{Hda, HdaItem, InlVar, Object};
use wc_text::{NoMemory, Text};
use wc_world::World;

fn show_some(out: &mut Sheet, text: &Option<Text>) {
    match text {
        Some(text) => out.put_text("", text.as_slice()),
        None => out.put("null"),
    }
}

fn show_value(out: &mut Sheet, value: &Object) {
    match value {
        Object::Chr(n) => out.put_signed("", i64::from(*n)),
        Object::Int(n) => out.put_signed("", i64::from(*n)),
        Object::Tim(n) => out.put_signed("", *n),
        Object::Ptr(p) => out.put_hex("0x", *p),
        Object::Str(text) => show_some(out, text),
        Object::Htb { pairs, .. } => show_count(out, pairs.as_slice().len(), " pairs"),
        Object::Arr { values, .. } => show_count(out, values.as_slice().len(), " values"),
        _ => out.put("?"),
    }
}

fn show_count(out: &mut Sheet, count: usize, what: &str) {
    out.put_number("", count as u64);
    out.put(what);
}

fn show_item(out: &mut Sheet, item: &HdaItem) {
    out.put(" ");
    for pointer in item.pointers.as_slice() {
        out.put_hex("/", *pointer);
    }
    show_values(out, item.values.as_slice());
}

fn show_values(out: &mut Sheet, values: &[Object]) {
    for value in values {
        out.put(",");
        show_value(out, value);
    }
}

fn show_hda(out: &mut Sheet, hda: &Hda) {
    show_some(out, &hda.path);
    out.put(" ");
    if let Some(keys) = &hda.keys {
        out.put_bytes(keys.as_slice());
    }
    out.put("\n ");
    for item in hda.items.as_slice() {
        show_item(out, item);
    }
    out.put("\n");
}

fn show_refused(out: &mut Sheet, refused: WalkRefused) {
    let written = write!(out.text, "{refused}\n");
    out.note(written);
}

fn show_answer(out: &mut Sheet, answer: &Result<Object, WalkRefused>) {
    match answer {
        Ok(Object::Hda(hda)) => show_hda(out, hda),
        Ok(_) => out.put("another object\n"),
        Err(refused) => show_refused(out, *refused),
    }
}

fn show_walked(alloc: Global, out: &mut Sheet, world: &World, path: &Path, keys: &str) {
    let answer = walk(alloc, world, path, keys.as_bytes());
    show_answer(out, &answer);
}

/// What a path leads to, or why it is refused.
pub fn show_walk(alloc: Global, out: &mut Sheet, world: &World, path: &str, keys: &str) {
    match &read_path(alloc, path.as_bytes()) {
        Ok(Some(path)) => show_walked(alloc, out, world, path, keys),
        Ok(None) => out.put("no path\n"),
        Err(NoMemory) => out.lack(),
    }
}

/// An information of a name.
pub fn show_info(out: &mut Sheet, name: &str) {
    match info(name.as_bytes()) {
        Some(value) => out.put_text("", value),
        None => out.put("none"),
    }
    out.put("\n");
}

fn show_listed(out: &mut Sheet, vars: &[InlVar]) {
    out.put(" ");
    for var in vars {
        out.put_text(" ", var.name.as_slice());
        out.put("=");
        show_value(out, &var.value);
    }
    out.put("\n");
}

fn show_list(out: &mut Sheet, list: &Object) {
    let Object::Inl { name, items } = list else {
        return out.put("another object\n");
    };
    out.put_text("", name.as_slice());
    out.put_number(" has ", items.as_slice().len() as u64);
    out.put("\n");
    for vars in items.as_slice() {
        show_listed(out, vars.as_slice());
    }
}

/// A list of informations of a name and an argument.
pub fn show_infolist(alloc: Global, out: &mut Sheet, world: &World, name: &str, argument: &str) {
    match infolist(alloc, world, name.as_bytes(), argument.as_bytes()) {
        Ok(list) => show_list(out, &list),
        Err(NoMemory) => out.lack(),
    }
}
