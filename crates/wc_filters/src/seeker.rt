ghost use Rattle.std.specs.Prelude.{◌≡◌, ◌++◌, ◌∷◌, [], IfOk, OnOk};
ghost use Rattle.std.specs.Str.{IsUtf8};
ghost use Rattle.wc_lines.specs.LineText.{HasUtf8Texts};
ghost use Rattle.wc_filters.specs.Finders.{concerning};
ghost use Rattle.wc_filters.specs.Hides.{hides, sifted};
ghost use Rattle.wc_filters.specs.Parts.{tags_in};

use crate::filters::Filters;
use crate::line_parts::{LineParts, Tags};
use crate::row::Row;
use crate::sieve::Sieve;
use std::alloc::Global;
use std::marker::Model;
use wc_lines::PackedLine;
use wc_text::{NoMemory, Text};

/// Filters that are kept ready for many lines of one buffer. Contracts see the filters and the
/// buffer's full name.
#[derive(Drop)]
pub struct Seeker<'a> {
    filters: &'a Filters,
    full_name: &'a [u8],
    /// Those that concern the buffer.
    sieves: Vec<Sieve<'a>>,
}

impl<'a> Model for Seeker<'a> {
    ghost use Rattle.wc_filters.specs.Finders.{Ready};

    ghost Value = { Ready };

    ghost use Rattle.std.specs.Prelude.{◌≡◌};
    ghost use Rattle.wc_filters.specs.Finders.{concerning};

    ghost view = { λ s. record { filters = s.filters.now; name = s.full_name.now } };

    ghost invariant = { λ s. s.sieves.items ≡ concerning s.full_name.now s.filters.now };
}

impl Filters {
    /// What finds which lines of the buffer of this full name are hidden. Memory is taken here
    /// alone.
    pub fn seeker<'a>(&'a self, full_name: &'a [u8]) -> Result<Seeker<'a>, NoMemory>
        ensures filters { IfOk result (λ seeker. seeker.filters ≡ self.now) }
        ensures name { IfOk result (λ seeker. seeker.name ≡ full_name.now) }
    {
        let sieves = sieves(self.alloc(), self.rows(), full_name)?;
        Ok(Seeker {
            filters: self,
            full_name,
            sieves,
        })
    }
}

impl<'a> Seeker<'a> {
    /// Whether some filter hides a line of the buffer.
    pub fn hides_line(&mut self, line: &PackedLine) -> bool
        requires { HasUtf8Texts line.now }
        ensures hides { result ≡ hides self.old.filters self.old.name line.now.tags
            line.now.prefix line.now.message }
        ensures same { self.new ≡ self.old }
    {
        let parts = LineParts {
            tags: Tags::Packed(line),
            prefix: line.prefix(),
            message: line.message(),
        };
        sifts(self.sieves.as_mut_slice(), &parts)
    }

    /// Whether some filter hides a line of these texts.
    pub fn hides_texts(&mut self, tags: &[Text], prefix: &[u8], message: &[u8]) -> bool
        requires prefix { IsUtf8 prefix.now }
        requires message { IsUtf8 message.now }
        ensures hides { result ≡ hides self.old.filters self.old.name tags.now prefix.now
            message.now }
        ensures same { self.new ≡ self.old }
    {
        let parts = LineParts {
            tags: Tags::Listed(tags),
            prefix,
            message,
        };
        sifts(self.sieves.as_mut_slice(), &parts)
    }
}

/// The filters that concern a buffer, ready.
fn sieves<'a>(alloc: Global, rows: &'a [Row], full_name: &[u8]) -> Result<Vec<Sieve<'a>>, NoMemory>
    ensures { IfOk result (λ sieves. sieves.items ≡ concerning full_name.now rows.now) }
{
    let mut sieves = Vec::new(alloc);
    let mut rest = rows;
    while let [row, others @ ..] = rest {
        put(alloc, &mut sieves, row, full_name)?;
        rest = others;
    }
    Ok(sieves)
}

/// Puts a filter after the others, if it concerns the buffer.
fn put<'a>(
    alloc: Global,
    sieves: &mut Vec<Sieve<'a>>,
    row: &'a Row,
    full_name: &[u8],
) -> Result<(), NoMemory>
    ensures { OnOk result (sieves.new.items
        ≡ sieves.old.items ++ concerning full_name.now (row.now ∷ [])) }
{
    if !row.concerns(full_name) {
        return Ok(());
    }
    let sieve = Sieve::new(alloc, row)?;
    match sieves.push(sieve) {
        Ok(()) => Ok(()),
        Err(_) => Err(NoMemory),
    }
}

/// Whether some of these filters, which concern its buffer, hides a line.
fn sifts(sieves: &mut [Sieve<'_>], line: &LineParts<'_>) -> bool
    requires prefix { IsUtf8 line.now.prefix.now }
    requires message { IsUtf8 line.now.message.now }
    ensures found { result ≡ sifted sieves.old (tags_in line.now.tags) line.now.prefix.now
        line.now.message.now }
    ensures same { sieves.new ≡ sieves.old }
{
    for n in 0..sieves.len() {
        if sieves[n].sifts(line) {
            return true;
        }
    }
    false
}
