//! Calls on data paths and their keys.

use std::alloc::{AllocError, Global};
use wc_hdata::{Count, Element, Path, Start, Step, h_path, keys_text, read_keys, read_path};
use wc_notation::{Wrong, cut_word, escape, put_named, unescape};

fn put_element(out: &mut String, element: Element) -> Result<(), AllocError> {
    escape(out, element.name(), &[])
}

fn put_pointer(out: &mut String, element: Element, pointer: u64) -> Result<(), AllocError> {
    put_element(out, element)?;
    write!(out, " {pointer:x}")
}

fn put_start(out: &mut String, start: Start) -> Result<(), AllocError> {
    match start {
        Start::FirstBuffer => out.push_str("first buffer"),
        Start::LastBuffer => out.push_str("last buffer"),
        Start::Pointer { element, pointer } => put_pointer(out, element, pointer),
    }
}

fn put_count(out: &mut String, count: Count) -> Result<(), AllocError> {
    match count {
        Count::One => out.push_str(" once"),
        Count::All => out.push_str(" all"),
        Count::Forward(number) => write!(out, " forward {number}"),
        Count::Backward(number) => write!(out, " backward {number}"),
    }
}

fn put_steps(out: &mut String, steps: &[Step]) -> Result<(), AllocError> {
    for step in steps {
        out.push_str(", ")?;
        escape(out, step.variable.name(), &[])?;
        put_count(out, step.count)?;
    }
    Ok(())
}

fn put_path(out: &mut String, path: &Path) -> Result<(), AllocError> {
    put_start(out, path.start)?;
    put_count(out, path.count)?;
    put_steps(out, path.steps.as_slice())?;
    out.push_str(", to ")?;
    put_element(out, path.element())
}

/// Writes a path, and the names of its elements.
fn put_reading(alloc: Global, path: &Option<Path>, out: &mut String) -> Result<(), Wrong> {
    let Some(path) = path else {
        return Ok(out.push_str("no path")?);
    };
    put_path(out, path)?;
    let names = h_path(alloc, path)?;
    Ok(put_named(out, ", by", names.as_slice())?)
}

fn path(alloc: Global, rest: &str, out: &mut String) -> Result<(), Wrong> {
    let text = unescape(alloc, rest)?;
    let path = read_path(alloc, text.as_slice())?;
    put_reading(alloc, &path, out)
}

/// Writes the keys of an element that a text names.
fn put_keys(alloc: Global, element: Element, text: &[u8], out: &mut String) -> Result<(), Wrong> {
    let keys = read_keys(alloc, element, text)?;
    let shown = keys_text(alloc, keys.as_slice())?;
    Ok(put_named(out, "keys", shown.as_slice())?)
}

fn element_named(name: &str) -> Result<Element, Wrong> {
    match name {
        "buffer" => Ok(Element::Buffer),
        "lines" => Ok(Element::Lines),
        "line" => Ok(Element::Line),
        "line_data" => Ok(Element::LineData),
        _ => Err(Wrong::Word),
    }
}

/// The keys of an element that a request asks for.
fn keys(alloc: Global, rest: &str, out: &mut String) -> Result<(), Wrong> {
    let (name, text) = cut_word(rest);
    let element = element_named(name)?;
    let text = unescape(alloc, text)?;
    put_keys(alloc, element, text.as_slice(), out)
}

/// Writes the answer of a call.
pub fn answer(alloc: Global, call: &str, rest: &str, out: &mut String) -> Result<(), Wrong> {
    match call {
        "path" => path(alloc, rest, out),
        "keys" => keys(alloc, rest, out),
        _ => Err(Wrong::Word),
    }
}
