ghost use Rattle.std.specs.Str.{IsUtf8};

use crate::masks::{put_buffers, put_tags};
use crate::texts::{tags_of, text_of};
use std::alloc::{AllocError, Global};
use wc_eval::Verdicts;
use wc_filters::{FilterRefused, Filters};
use wc_notation::{Wrong, cut_word, end_answer, is_passed_over, put_either, put_quoted, unescape};
use wc_text::Text;

/// What a table holds.
#[derive(Drop)]
pub struct Player {
    verdicts: Verdicts,
    filters: Filters,
}

impl Player {
    pub fn new(alloc: Global) -> Result<Player, Wrong> {
        let verdicts = Verdicts::new(alloc)?;
        let filters = Filters::new(alloc);
        Ok(Player { verdicts, filters })
    }

    /// Adds a filter.
    fn add(&mut self, alloc: Global, rest: &str, out: &mut String) -> Result<(), Wrong> {
        let (name, rest) = cut_word(rest);
        let (buffers, rest) = cut_word(rest);
        let (tags, pattern) = cut_word(rest);
        let name = unescape(alloc, name)?;
        let buffers = unescape(alloc, buffers)?;
        let tags = unescape(alloc, tags)?;
        let pattern = text_of(alloc, pattern)?;
        let added = self
            .filters
            .add(&mut self.verdicts, &name, &buffers, &tags, &pattern);
        Ok(out.push_str(words_of(added))?)
    }

    /// Changes the filter of a name, or says whether it is enabled.
    fn call_by_name(&mut self, call: &str, name: &Text, out: &mut String) -> Result<(), Wrong> {
        match call {
            "del" => put_done(self.filters.del(name), out),
            "enable" => put_done(self.filters.enable(name, true), out),
            "disable" => put_done(self.filters.enable(name, false), out),
            "state" => put_state(self.filters.is_enabled(name), out),
            _ => Err(Wrong::Word),
        }
    }

    /// Whether a line is hidden, once and by what is kept for many lines.
    fn put_line(&self, alloc: Global, rest: &str, out: &mut String) -> Result<(), Wrong> {
        let (buffer, rest) = cut_word(rest);
        let (tags, rest) = cut_word(rest);
        let (prefix, message) = cut_word(rest);
        let buffer = unescape(alloc, buffer)?;
        let tags = tags_of(alloc, tags)?;
        let prefix = text_of(alloc, prefix)?;
        let message = text_of(alloc, message)?;
        self.put_hidden(&buffer, tags.as_slice(), &prefix, &message, out)
    }

    fn put_hidden(
        &self,
        buffer: &Text,
        tags: &[Text],
        prefix: &Text,
        message: &Text,
        out: &mut String,
    ) -> Result<(), Wrong>
        requires prefix { IsUtf8 prefix.now }
        requires message { IsUtf8 message.now }
    {
        let (name, prefix, message) = (buffer.as_slice(), prefix.as_slice(), message.as_slice());
        let hidden = self.filters.hides_texts(name, tags, prefix, message)?;
        put_either(out, hidden, "hidden", "shown")?;
        let mut seeker = self.filters.seeker(name)?;
        if seeker.hides_texts(tags, prefix, message) != hidden {
            out.push_str(", and the other by a seeker")?;
        }
        Ok(())
    }

    /// The names, in their order.
    fn put_names(&self, out: &mut String) -> Result<(), Wrong> {
        for name in self.filters.names() {
            put_quoted(out, name.as_slice())?;
        }
        Ok(())
    }

    /// Writes the answer of a call.
    fn answer(
        &mut self,
        alloc: Global,
        call: &str,
        rest: &str,
        out: &mut String,
    ) -> Result<(), Wrong> {
        match call {
            "buffers" => put_buffers(alloc, rest, out),
            "tags" => put_tags(alloc, rest, out),
            "add" => self.add(alloc, rest, out),
            "line" => self.put_line(alloc, rest, out),
            "names" => self.put_names(out),
            _ => {
                let name = unescape(alloc, rest)?;
                self.call_by_name(call, &name, out)
            }
        }
    }

    /// Writes a line and its answer.
    fn turn(&mut self, alloc: Global, line: &str, out: &mut String) -> Result<(), AllocError> {
        if is_passed_over(line) {
            return Ok(());
        }
        write!(out, "> {line}\n")?;
        let (call, rest) = cut_word(line);
        let answered = self.answer(alloc, call, rest, out);
        end_answer(out, answered)
    }

    /// The lines of a table, each with its answer.
    pub fn play(&mut self, alloc: Global, text: &str) -> Result<String, Wrong> {
        let mut out = String::new(alloc);
        for line in text.lines() {
            self.turn(alloc, line, &mut out)?;
        }
        Ok(out)
    }
}

/// What came of an add.
fn words_of(added: Result<(), FilterRefused>) -> &'static str {
    match added {
        Ok(()) => "added",
        Err(FilterRefused::NameTaken) => "name taken",
        Err(FilterRefused::BadPattern) => "bad pattern",
        Err(FilterRefused::TooMany) => "too many",
        Err(FilterRefused::NoMemory) => "out of memory",
    }
}

fn put_done(found: bool, out: &mut String) -> Result<(), Wrong> {
    Ok(put_either(out, found, "done", "no such filter")?)
}

fn put_state(state: Option<bool>, out: &mut String) -> Result<(), Wrong> {
    match state {
        Some(enabled) => Ok(put_either(out, enabled, "enabled", "disabled")?),
        None => Ok(out.push_str("no such filter")?),
    }
}
