use crate::escapes::add_unescaped;
use crate::frames::{add_frame, first_byte};
use crate::wrong::Wrong;
use std::alloc::Global;
use wc_text::{Items, Pair, Text};

/// Bytes that a script gives a name, so that it can repeat them.
#[derive(Drop)]
pub struct Forms {
    alloc: Global,
    named: Items<Pair>,
}

/// The number that a word writes.
pub fn number(word: &str) -> Result<u64, Wrong> {
    match word.parse::<u64>() {
        Ok(number) => Ok(number),
        Err(_) => Err(Wrong::Number),
    }
}

/// Adds a number in four bytes.
fn add_int(bytes: &mut Text, value: &str) -> Result<(), Wrong> {
    let Ok(number) = value.parse::<i32>() else {
        return Err(Wrong::Number);
    };
    Ok(bytes.append(&number.to_be_bytes())?)
}

/// Adds a text after its length in four bytes.
pub fn add_str(bytes: &mut Text, text: &[u8]) -> Result<(), Wrong> {
    let Ok(length) = u32::try_from(text.len()) else {
        return Err(Wrong::Number);
    };
    bytes.append(&length.to_be_bytes())?;
    Ok(bytes.append(text)?)
}

/// Adds a text after its length in one byte.
fn add_short(bytes: &mut Text, text: &[u8]) -> Result<(), Wrong> {
    let Ok(length) = u8::try_from(text.len()) else {
        return Err(Wrong::Number);
    };
    bytes.append(&[length])?;
    Ok(bytes.append(text)?)
}

/// Adds the bytes that a text spells so many times, as in `65537:p`.
fn add_many(bytes: &mut Text, value: &str) -> Result<(), Wrong> {
    let Some((times, text)) = value.split_once(':') else {
        return Err(Wrong::Form);
    };
    for _ in 0..number(times)? {
        add_unescaped(bytes, text.as_bytes())?;
    }
    Ok(())
}

/// Adds the bytes of a form of this kind, whose value spells a text.
fn add_kind(bytes: &mut Text, kind: &str, value: &str, text: &[u8]) -> Result<(), Wrong> {
    match kind {
        "str" => add_str(bytes, text),
        "ptr" | "tim" | "lon" => add_short(bytes, text),
        "int" => add_int(bytes, value),
        "many" => add_many(bytes, value),
        _ => add_frame(bytes, first_byte(kind)?, text),
    }
}

impl Forms {
    pub fn new(alloc: Global) -> Forms {
        Forms {
            alloc,
            named: Items::new(alloc),
        }
    }

    /// Gives bytes a name, as in `NAME BYTES`.
    pub fn define(&mut self, rest: &str) -> Result<(), Wrong> {
        let Some((name, text)) = rest.split_once(' ') else {
            return Err(Wrong::Missing);
        };
        let pair = Pair {
            name: Text::from_slice(self.alloc, name.as_bytes())?,
            value: self.spell(text)?,
        };
        Ok(self.named.push(pair)?)
    }

    /// Adds the bytes that have this name.
    fn add_named(&self, bytes: &mut Text, name: &str) -> Result<(), Wrong> {
        for pair in self.named.as_slice() {
            if pair.name.as_slice() == name.as_bytes() {
                return Ok(bytes.append(pair.value.as_slice())?);
            }
        }
        Err(Wrong::Form)
    }

    /// The bytes of a text in which there are escapes.
    fn unescape(&self, text: &str) -> Result<Text, Wrong> {
        let mut bytes = Text::new(self.alloc);
        add_unescaped(&mut bytes, text.as_bytes())?;
        Ok(bytes)
    }

    /// Adds the bytes that a form stands for.
    fn add_form(&self, bytes: &mut Text, form: &str) -> Result<(), Wrong> {
        let Some((kind, value)) = form.split_once(':') else {
            return self.add_named(bytes, form);
        };
        if kind == "text_many" {
            return self.add_lines(bytes, value);
        }
        let text = self.unescape(value)?;
        add_kind(bytes, kind, value, text.as_slice())
    }

    /// Adds a frame whose payload is a text so many times.
    fn add_lines(&self, bytes: &mut Text, value: &str) -> Result<(), Wrong> {
        let mut text = Text::new(self.alloc);
        add_many(&mut text, value)?;
        add_frame(bytes, first_byte("text")?, text.as_slice())
    }

    /// Adds the bytes of a form and of the text after it, as in `int:5}text`.
    fn add_part(&self, bytes: &mut Text, part: &str) -> Result<(), Wrong> {
        let Some((form, text)) = part.split_once('}') else {
            return Err(Wrong::Form);
        };
        self.add_form(bytes, form)?;
        add_unescaped(bytes, text.as_bytes())
    }

    /// Adds the bytes that a text spells, in which there are escapes, and these forms: `{str:TEXT}`
    /// is the text after its length in four bytes; `{ptr:TEXT}`, `{tim:TEXT}` and `{lon:TEXT}` have
    /// it in one; `{int:NUMBER}` is the number in four bytes; `{many:NUMBER:TEXT}` repeats a text;
    /// `{NAME}` has the bytes of that name; `{text:TEXT}`, `{binary:TEXT}` and others that
    /// `first_byte` has are frames of a WebSocket client, and `{text_many:NUMBER:TEXT}` is one that
    /// repeats a text.
    pub fn add_spelled(&self, bytes: &mut Text, text: &str) -> Result<(), Wrong> {
        for (place, part) in text.split('{').enumerate() {
            let added = if place == 0 {
                add_unescaped(bytes, part.as_bytes())
            } else {
                self.add_part(bytes, part)
            };
            added?;
        }
        Ok(())
    }

    /// The bytes that a text spells.
    pub fn spell(&self, text: &str) -> Result<Text, Wrong> {
        let mut bytes = Text::new(self.alloc);
        self.add_spelled(&mut bytes, text)?;
        Ok(bytes)
    }
}
