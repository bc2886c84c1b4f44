//! What a table or a script comes to, as it is written.

use crate::escapes::{escape, put_quoted};
use crate::wrong::Wrong;
use std::alloc::{AllocError, Global};

/// A text that is written piece by piece. What finds no memory is left out, and this is noted
/// once, so that who writes has nothing to test after each piece.
#[derive(Drop)]
pub struct Sheet {
    pub text: String,
    /// Whether something is left out.
    lacks: bool,
}

impl Sheet {
    /// Nothing yet.
    pub fn new(alloc: Global) -> Sheet {
        Sheet {
            text: String::new(alloc),
            lacks: false,
        }
    }

    /// The text, or else that there was no memory for it.
    pub fn read(&self) -> &str {
        if self.lacks {
            return "! out of memory\n";
        }
        self.text.as_str()
    }

    /// Notes that something finds no memory.
    pub fn lack(&mut self) {
        self.lacks = true;
    }

    /// Notes whether a piece was written.
    pub fn note(&mut self, written: Result<(), AllocError>) {
        if written.is_err() {
            self.lack();
        }
    }

    pub fn put(&mut self, text: &str) {
        let written = self.text.push_str(text);
        self.note(written);
    }

    /// Writes one of two words.
    pub fn put_either(&mut self, is: bool, yes: &str, no: &str) {
        self.put(if is { yes } else { no });
    }

    /// Writes bytes so that they can be read.
    pub fn put_escaped(&mut self, bytes: &[u8]) {
        let written = escape(&mut self.text, bytes, &[]);
        self.note(written);
    }

    /// Writes a text so that it can be read, between `<` and `>`.
    pub fn put_quoted(&mut self, bytes: &[u8]) {
        let written = put_quoted(&mut self.text, bytes);
        self.note(written);
    }

    /// The same after a word and a blank.
    pub fn put_named(&mut self, name: &str, bytes: &[u8]) {
        self.put(name);
        self.put(" ");
        self.put_quoted(bytes);
    }

    /// Writes a word and two texts.
    pub fn put_two(&mut self, name: &str, first: &[u8], second: &[u8]) {
        self.put_named(name, first);
        self.put(" ");
        self.put_quoted(second);
    }

    /// Writes the line of a script that is answered next.
    pub fn begin_answer(&mut self, line: &str) {
        self.put("> ");
        self.put(line);
        self.put("\n");
    }

    /// Writes what is wrong with the line, if something is, and ends its answer.
    pub fn end_answer(&mut self, answered: Result<(), Wrong>) {
        if let Err(wrong) = answered {
            self.put("! ");
            self.put(wrong.as_str());
        }
        self.put("\n");
    }
}
