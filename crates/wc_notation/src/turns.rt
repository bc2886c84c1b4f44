//! The lines of a script, their words, and the ends of their answers.

use crate::escapes::unescape;
use crate::wrong::Wrong;
use std::alloc::{AllocError, Global};
use wc_text::Text;

/// Whether a line is empty or a comment.
pub fn is_passed_over(line: &str) -> bool {
    line.is_empty() || line.starts_with('#')
}

/// The word at the front of a text, and what is after the blank that ends it.
pub fn cut_word(text: &str) -> (&str, &str) {
    match text.split_once(' ') {
        Some((word, rest)) => (word, rest),
        None => (text, ""),
    }
}

/// The two texts that two words write.
pub fn two_texts(alloc: Global, text: &str) -> Result<(Text, Text), Wrong> {
    let Some((first, second)) = text.split_once(' ') else {
        return Err(Wrong::Missing);
    };
    let first = unescape(alloc, first)?;
    let second = unescape(alloc, second)?;
    Ok((first, second))
}

/// Writes what is wrong with a line, if something is, and ends its answer.
pub fn end_answer(out: &mut String, answered: Result<(), Wrong>) -> Result<(), AllocError> {
    if let Err(wrong) = answered {
        write!(out, "! {}", wrong.as_str())?;
    }
    out.push('\n')
}
