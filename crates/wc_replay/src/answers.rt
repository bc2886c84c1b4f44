use crate::escapes::escape;
use crate::forms::{Forms, add_str};
use crate::stage::{NAMED, link};
use crate::wrong::Wrong;
use std::alloc::{AllocError, Global};
use wc_scripted::MemorySockets;
use wc_text::{LinkId, Text};

/// What was sent on each link, and how much of it the script has named.
#[derive(Drop)]
pub struct Answers<'a> {
    alloc: Global,
    sockets: &'a MemorySockets,
    /// How many bytes of a link were named, by its number.
    named: [usize; NAMED as usize],
}

/// The first message of these bytes, or all that there is of it.
fn first_message(bytes: &[u8]) -> &[u8] {
    let [first, second, third, fourth, ..] = bytes else {
        return bytes;
    };
    let length = u32::from_be_bytes([*first, *second, *third, *fourth]) as usize;
    bytes.get(..length.max(4)).unwrap_or(bytes)
}

/// The first line of these bytes with its end, or all that there is of it.
fn first_line(bytes: &[u8]) -> &[u8] {
    match bytes.iter().position(|byte| *byte == b'\n') {
        Some(place) => bytes.get(..=place).unwrap_or(bytes),
        None => bytes,
    }
}

/// The id that a word names: `-` is none.
fn meant_id(word: &str) -> &[u8] {
    if word == "-" {
        return b"";
    }
    word.as_bytes()
}

/// Whether a message has this id, which is after its length and its compression.
fn has_id(message: &[u8], id: &[u8]) -> bool {
    let [first, second, third, fourth, rest @ ..] = message.get(5..).unwrap_or(&[]) else {
        return false;
    };
    let length = u32::from_be_bytes([*first, *second, *third, *fourth]) as usize;
    match rest.get(..length) {
        Some(found) => found == id,
        None => false,
    }
}

/// The link that the first word names, and what is after it.
fn on_link(rest: &str) -> Result<(LinkId, &str), Wrong> {
    let (word, rest) = rest.split_once(' ').unwrap_or((rest, ""));
    Ok((link(word)?, rest))
}

/// Writes whether what came is what was wanted.
fn judge(out: &mut String, is_wanted: bool, came: &[u8]) -> Result<(), AllocError> {
    if is_wanted {
        return out.push_str("  as expected\n");
    }
    if came.is_empty() {
        return out.push_str("  nothing came instead\n");
    }
    out.push_str("  came instead: ")?;
    escape(out, came)?;
    out.push('\n')
}

impl<'a> Answers<'a> {
    pub fn new(alloc: Global, sockets: &'a MemorySockets) -> Answers<'a> {
        Answers {
            alloc,
            sockets,
            named: [0; NAMED as usize],
        }
    }

    /// The bytes of a link that the script has not named.
    pub fn rest_of_link(&self, link: LinkId) -> &'a [u8] {
        let named = match self.named.get(link.0 as usize) {
            Some(named) => *named,
            None => 0,
        };
        self.sockets.sent(link).get(named..).unwrap_or(&[])
    }

    /// Takes note that the script named so many bytes of a link.
    fn name(&mut self, link: LinkId, count: usize) {
        if let Some(named) = self.named.get_mut(link.0 as usize) {
            *named = named.saturating_add(count);
        }
    }

    /// The next message of a link, which is named by this.
    fn next(&mut self, link: LinkId) -> &'a [u8] {
        let message = first_message(self.rest_of_link(link));
        self.name(link, message.len());
        message
    }

    /// The next line of a link with its end, which is named by this.
    fn next_line(&mut self, link: LinkId) -> &'a [u8] {
        let line = first_line(self.rest_of_link(link));
        self.name(link, line.len());
        line
    }

    /// Compares the next message of a link as a line asks:
    ///
    /// - `expect 1 BYTES`: it is these bytes;
    /// - `bytes 1 BYTES`: the next bytes, as many as these, are these;
    /// - `message 1 ID BYTES`: it has this id, which `-` is none, and its objects are these bytes;
    /// - `any 1 ID`: it has this id.
    ///
    /// `line 1 BYTES` compares the next line of the connection to a server, whose end is CR LF.
    /// Where less than a message was sent, it is what there is of it. There are also `name` and
    /// comments, as before the run.
    pub fn compare(
        &mut self,
        out: &mut String,
        forms: &mut Forms,
        line: &str,
    ) -> Result<(), Wrong> {
        let (word, rest) = line.split_once(' ').unwrap_or((line, ""));
        match word {
            "" | "#" => Ok(()),
            "name" => forms.define(rest),
            "expect" => self.expect(out, forms, rest),
            "bytes" => self.expect_bytes(out, forms, rest),
            "line" => self.expect_line(out, forms, rest),
            "message" => self.expect_message(out, forms, rest),
            "any" => self.expect_id(out, rest),
            _ => Err(Wrong::Word),
        }
    }

    /// The next message is these bytes.
    fn expect(&mut self, out: &mut String, forms: &Forms, rest: &str) -> Result<(), Wrong> {
        let (link, text) = on_link(rest)?;
        let wanted = forms.spell(text)?;
        let came = self.next(link);
        Ok(judge(out, came == wanted.as_slice(), came)?)
    }

    /// The next bytes are these, whatever messages they are of.
    fn expect_bytes(&mut self, out: &mut String, forms: &Forms, rest: &str) -> Result<(), Wrong> {
        let (link, text) = on_link(rest)?;
        let wanted = forms.spell(text)?;
        let unnamed = self.rest_of_link(link);
        let came = unnamed.get(..wanted.as_slice().len()).unwrap_or(unnamed);
        self.name(link, came.len());
        Ok(judge(out, came == wanted.as_slice(), came)?)
    }

    /// The next line is these bytes and its end.
    fn expect_line(&mut self, out: &mut String, forms: &Forms, rest: &str) -> Result<(), Wrong> {
        let (link, text) = on_link(rest)?;
        let mut wanted = forms.spell(text)?;
        wanted.append(b"\r\n")?;
        let came = self.next_line(link);
        Ok(judge(out, came == wanted.as_slice(), came)?)
    }

    /// The next message has this id, or none for `-`, and these objects.
    fn expect_message(&mut self, out: &mut String, forms: &Forms, rest: &str) -> Result<(), Wrong> {
        let (link, rest) = on_link(rest)?;
        let wanted = self.message_bytes(forms, rest)?;
        let came = self.next(link);
        Ok(judge(out, came == wanted.as_slice(), came)?)
    }

    /// The message of an id and objects.
    fn message_bytes(&self, forms: &Forms, rest: &str) -> Result<Text, Wrong> {
        let (id, objects) = rest.split_once(' ').unwrap_or((rest, ""));
        let mut body = Text::from_slice(self.alloc, b"\0")?;
        add_str(&mut body, meant_id(id))?;
        forms.add_spelled(&mut body, objects)?;
        self.with_length(body.as_slice())
    }

    /// A message, whose length counts itself.
    fn with_length(&self, body: &[u8]) -> Result<Text, Wrong> {
        let Ok(length) = u32::try_from(body.len().saturating_add(4)) else {
            return Err(Wrong::Number);
        };
        let mut message = Text::from_slice(self.alloc, &length.to_be_bytes())?;
        message.append(body)?;
        Ok(message)
    }

    /// The next message has this id, and any objects.
    fn expect_id(&mut self, out: &mut String, rest: &str) -> Result<(), Wrong> {
        let (link, id) = on_link(rest)?;
        let came = self.next(link);
        Ok(judge(out, has_id(came, meant_id(id)), came)?)
    }
}
