//! Long texts and long answers, which tables show in short.

use crate::sheet::Sheet;
use std::alloc::{AllocError, Global};

/// Writes how many lines a text has, and its number by FNV-1a, in place of the text.
pub fn put_mark(out: &mut Sheet, text: &str) {
    let mut number: u64 = 0xCBF2_9CE4_8422_2325;
    for byte in text.as_bytes() {
        number = (number ^ u64::from(*byte)).wrapping_mul(0x0100_0000_01B3);
    }
    let written = write!(out.text, "{} {number:016x}", text.lines().count());
    out.note(written);
}

/// A text with so many letters `a` after it.
pub fn lengthened(alloc: Global, text: &str, count: u32) -> Result<String, AllocError> {
    let mut long = String::new(alloc);
    long.push_str(text)?;
    for _ in 0..count {
        long.push('a')?;
    }
    Ok(long)
}

/// A text with a number after it.
pub fn numbered(alloc: Global, text: &str, number: u32) -> Result<String, AllocError> {
    format!(in alloc; "{text}{number}")
}
