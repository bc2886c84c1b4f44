//! What a script comes to, as it is written.

use std::alloc::{AllocError, Global};
use wc_text::NoMemory;

/// How many bytes of a text are shown at most.
const SHOWN: usize = 40;

/// A text that is written piece by piece. What finds no memory is left out, and this is noted
/// once, so that who writes has nothing to test after each piece.
#[derive(Drop)]
pub struct Sheet {
    pub text: String,
    /// Whether something is left out.
    lacks: bool,
}

impl Sheet {
    /// Nothing yet.
    pub fn new(alloc: Global) -> Sheet {
        Sheet {
            text: String::new(alloc),
            lacks: false,
        }
    }

    /// The text, or else that there was no memory for it.
    pub fn read(&self) -> &str {
        if self.lacks {
            return "no memory\n";
        }
        self.text.as_str()
    }

    pub fn is_empty(&self) -> bool {
        self.text.is_empty()
    }

    /// Begins again.
    pub fn clear(&mut self) {
        self.text.clear();
    }

    /// Notes that something finds no memory.
    pub fn lack(&mut self) {
        self.lacks = true;
    }

    /// Notes whether a piece was written.
    pub fn note(&mut self, written: Result<(), AllocError>) {
        if written.is_err() {
            self.lack();
        }
    }

    /// Notes whether something else found memory.
    pub fn note_done(&mut self, done: Result<(), NoMemory>) {
        if done.is_err() {
            self.lack();
        }
    }

    pub fn put(&mut self, text: &str) {
        let written = self.text.push_str(text);
        self.note(written);
    }

    /// Writes two texts and the end of a line.
    pub fn put_line(&mut self, label: &str, text: &str) {
        self.put(label);
        self.put(text);
        self.put("\n");
    }

    /// Writes a number after a label.
    pub fn put_number(&mut self, label: &str, number: u64) {
        let written = write!(self.text, "{label}{number}");
        self.note(written);
    }

    /// Writes a number that may be below 0 after a label.
    pub fn put_signed(&mut self, label: &str, number: i64) {
        let written = write!(self.text, "{label}{number}");
        self.note(written);
    }

    /// Writes a number in digits of base 16 after a label.
    pub fn put_hex(&mut self, label: &str, number: u64) {
        let written = write!(self.text, "{label}{number:x}");
        self.note(written);
    }

    fn put_byte(&mut self, byte: u8) {
        let written = match byte {
            0 => self.text.push_str("\\0"),
            b'\\' => self.text.push_str("\\\\"),
            b' '..=b'~' => self.text.push(byte as char),
            _ => write!(self.text, "\\x{byte:02x}"),
        };
        self.note(written);
    }

    /// Writes bytes so that they can be read: those that do not print as `\0` or `\xHH`.
    pub fn put_bytes(&mut self, bytes: &[u8]) {
        for byte in bytes {
            self.put_byte(*byte);
        }
    }

    /// Writes the ends of a long text.
    fn put_ends(&mut self, bytes: &[u8]) {
        self.put_bytes(bytes.get(..4).unwrap_or(&[]));
        self.put_number("..", bytes.len() as u64);
        self.put(" bytes..");
        let end = bytes.len().saturating_sub(4);
        self.put_bytes(bytes.get(end..).unwrap_or(&[]));
    }

    /// Writes a text after a label. Of a long one only the ends are shown.
    pub fn put_text(&mut self, label: &str, bytes: &[u8]) {
        self.put(label);
        if bytes.is_empty() {
            self.put("''");
        } else if bytes.len() <= SHOWN {
            self.put_bytes(bytes);
        } else {
            self.put_ends(bytes);
        }
    }
}
