ghost use Rattle.std.specs.Prelude.{◌≡◌, IfOk};
ghost use Rattle.std.specs.Option.{option_copied};
ghost use Rattle.std.specs.Str.{IsUtf8};
ghost use Rattle.wc_filters.specs.Finders.{IsFinderOf};
ghost use Rattle.wc_filters.specs.Hides.{asks, sifts};
ghost use Rattle.wc_filters.specs.Parts.{tags_in};
ghost use Rattle.wc_filters.specs.Patterns.{half_holds};

use crate::line_parts::LineParts;
use crate::row::Row;
use std::alloc::Global;
use std::marker::Model;
use wc_eval::{Finder, Pattern};
use wc_text::NoMemory;

/// A filter with what searches for its patterns. Contracts see the filter.
#[derive(Drop)]
pub(crate) struct Sieve<'a> {
    row: &'a Row,
    prefix: Option<Finder<'a>>,
    message: Option<Finder<'a>>,
}

impl<'a> Model for Sieve<'a> {
    ghost use Rattle.wc_filters.specs.declared.filter.Filter.{Filter};

    ghost Value = { Filter };

    ghost use Rattle.wc_filters.specs.Finders.{IsFinderOf};
    ghost use Rattle.wc_filters.specs.Patterns.{search_of};

    ghost view = { λ s. s.row.now };

    ghost invariant = { λ s. IsFinderOf (search_of s.row.now.pattern).prefix s.prefix
        × IsFinderOf (search_of s.row.now.pattern).message s.message };
}

impl<'a> Sieve<'a> {
    /// The filter. Memory is taken here alone.
    pub(crate) fn new(alloc: Global, row: &'a Row) -> Result<Sieve<'a>, NoMemory>
        ensures { IfOk result (λ sieve. sieve ≡ row.now) }
    {
        let halves = row.halves();
        let prefix = finder_of(alloc, halves.prefix.as_ref())?;
        let message = finder_of(alloc, halves.message.as_ref())?;
        Ok(Sieve {
            row,
            prefix,
            message,
        })
    }

    /// Whether it hides a line in a buffer that it concerns. The tags are looked at first.
    pub(crate) fn sifts(&mut self, line: &LineParts<'_>) -> bool
        requires prefix { IsUtf8 line.now.prefix.now }
        requires message { IsUtf8 line.now.message.now }
        ensures found { result ≡ sifts (tags_in line.now.tags) line.now.prefix.now
            line.now.message.now self.old }
        ensures same { self.new ≡ self.old }
    {
        self.row.takes(line.tags) && self.asks(line.prefix, line.message)
    }

    /// Whether what the pattern asks of prefix and message holds.
    pub(crate) fn asks(&mut self, prefix: &[u8], message: &[u8]) -> bool
        requires prefix { IsUtf8 prefix.now }
        requires message { IsUtf8 message.now }
        ensures found { result ≡ asks prefix.now message.now self.old }
        ensures same { self.new ≡ self.old }
    {
        let both = finds(&mut self.prefix, prefix) && finds(&mut self.message, message);
        if self.row.search().negated {
            !both
        } else {
            both
        }
    }
}

/// What searches for a pattern, if there is one.
fn finder_of<'a>(
    alloc: Global,
    pattern: Option<&'a Pattern>,
) -> Result<Option<Finder<'a>>, NoMemory>
    ensures { IfOk result (λ finder. finder ≡ option_copied pattern.entry) }
{
    match pattern {
        Some(pattern) => Ok(Some(Finder::new(alloc, pattern.regex())?)),
        None => Ok(None),
    }
}

/// Whether a text has a match of the pattern, which may be empty.
fn finds(finder: &mut Option<Finder<'_>>, text: &[u8]) -> bool
    requires { IsUtf8 text.now }
    ensures found { (pattern : _) → IsFinderOf pattern finder.old →
        result ≡ half_holds pattern text.now }
    ensures same { finder.new ≡ finder.old }
{
    let Some(finder) = finder else {
        return true;
    };
    let Ok(text) = std::str::from_utf8(text) else {
        unreachable!()
    };
    finder.is_match(text)
}
