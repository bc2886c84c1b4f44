ghost use Rattle.std.specs.Prelude.{◌≡◌, ◌++◌, ◌∷◌, [], IfOk, OnOk, OnErr, IfErr, map};
ghost use Rattle.std.specs.Option.{option_copied};
ghost use Rattle.std.specs.Iterator.{YieldsFirstRef, item_count};
ghost use Rattle.std.specs.Str.{IsUtf8};
ghost use Rattle.wc_eval.specs.Verdicts.{Oracle, Agrees, Stay, VerdictsView};
ghost use Rattle.wc_lines.specs.LineText.{HasUtf8Texts};
ghost use Rattle.wc_filters.specs.Hides.{hides, is_hider};
ghost use Rattle.wc_filters.specs.Kept.{has_name, without, with_flag, flag_of, new_filter};
ghost use Rattle.wc_filters.specs.Kept.{is_there, with_switch};
ghost use Rattle.wc_filters.specs.Kept.{refusal_of, IsAnswer, AreFine};
ghost use Rattle.wc_filters.specs.NamesLeft.{names_left};
ghost use Rattle.wc_filters.specs.Parts.{tags_in};

use crate::line_parts::{LineParts, Tags};
use crate::refused::FilterRefused;
use crate::row::Row;
use crate::search::Search;
use crate::sieve::Sieve;
use crate::switch::Switch;
use std::alloc::Global;
use std::marker::Model;
use wc_eval::Verdicts;
use wc_lines::PackedLine;
use wc_text::{NoMemory, Text};

/// How many filters there may be.
const MOST_FILTERS: usize = 256;

/// Filters in the order of adding. Contracts see the list.
///
/// Each keeps what its patterns are built into, half a megabyte at most for each of the two.
#[derive(Drop)]
pub struct Filters {
    alloc: Global,
    rows: Vec<Row>,
}

impl Model for Filters {
    ghost use Rattle.std.specs.Prelude.{List};
    ghost use Rattle.wc_filters.specs.declared.filter.Filter.{Filter};

    ghost Value = { List Filter };

    ghost view = { λ f. f.rows.items };
}

impl Filters {
    /// No filters. It takes no memory.
    pub fn new(alloc: Global) -> Filters
        ensures { result ≡ [] }
    {
        Filters {
            alloc,
            rows: Vec::new(alloc),
        }
    }

    /// Adds a filter, which is enabled, after the others. Its patterns are judged, and what they are
    /// built into is kept with it.
    ///
    /// Refused, in this order: `NameTaken` where a filter has the name, `BadPattern` where the
    /// verdict on one of its patterns is that it is none, `TooMany` where there are 256 filters.
    pub fn add(
        &mut self,
        verdicts: &mut Verdicts,
        name: &Text,
        buffers: &Text,
        tags: &Text,
        pattern: &Text,
    ) -> Result<(), FilterRefused>
        requires { IsUtf8 pattern.now }
        ensures added { OnOk result (self.new
            ≡ self.old ++ new_filter name.now buffers.now tags.now pattern.now ∷ []) }
        ensures refused { OnErr result (self.new ≡ self.old) }
        // Whatever is thought of texts that were not judged, the answer is the same.
        ensures answer { (oracle : Oracle) → Agrees oracle verdicts.new →
            IsAnswer (refusal_of oracle self.old name.now pattern.now) result }
        ensures fine { AreFine verdicts.old self.old → AreFine verdicts.new self.new }
        ensures stay { Stay verdicts.old verdicts.new }
    {
        if is_taken(self.rows.as_slice(), name) {
            return Err(FilterRefused::NameTaken);
        }
        let search = Search::read(self.alloc, pattern.as_slice())?;
        let Some(halves) = search.build(verdicts)? else {
            return Err(FilterRefused::BadPattern);
        };
        if self.rows.len() >= MOST_FILTERS {
            return Err(FilterRefused::TooMany);
        }
        let row = Row::new(self.alloc, name, buffers, tags, pattern, search, halves)?;
        push(&mut self.rows, row)?;
        Ok(())
    }

    /// Takes the filter of this name out. False exactly where there is none.
    pub fn del(&mut self, name: &Text) -> bool
        ensures filters { self.new ≡ without name.now self.old }
        ensures found { result ≡ has_name name.now self.old }
        ensures fine { (verdicts : VerdictsView) → AreFine verdicts self.old →
            AreFine verdicts self.new }
    {
        let found = is_taken(self.rows.as_slice(), name);
        drop_named(&mut self.rows, name);
        found
    }

    /// Enables or disables the filter of this name. False exactly where there is none.
    pub fn enable(&mut self, name: &Text, on: bool) -> bool
        ensures filters { self.new ≡ map (with_flag name.now on) self.old }
        ensures found { result ≡ has_name name.now self.old }
        ensures fine { (verdicts : VerdictsView) → AreFine verdicts self.old →
            AreFine verdicts self.new }
    {
        let switch = if on { Switch::Enable } else { Switch::Disable };
        self.switch(Some(name), switch)
    }

    /// Switches the filter of this name, or without a name each by its own flag. False exactly
    /// where a name is given that no filter has.
    pub fn switch(&mut self, name: Option<&Text>, switch: Switch) -> bool
        ensures filters { self.new ≡ map (with_switch (option_copied name.entry) switch) self.old }
        ensures found { result ≡ is_there (option_copied name.entry) self.old }
        ensures fine { (verdicts : VerdictsView) → AreFine verdicts self.old →
            AreFine verdicts self.new }
    {
        let found = is_there(self.rows.as_slice(), name);
        switch_rows(self.rows.as_mut_slice(), name, switch);
        found
    }

    /// The same filters in memory of their own, but for what their patterns are built into.
    pub fn copy(&self) -> Result<Filters, NoMemory>
        ensures { IfOk result (λ filters. filters ≡ self.now) }
    {
        let rows = copies(self.alloc, self.rows.as_slice())?;
        Ok(Filters {
            alloc: self.alloc,
            rows,
        })
    }

    /// The names, in the order of adding.
    pub fn names(&self) -> NameIter<'_>
        ensures { names_left result ≡ map (λ f. f.name) self.now }
    {
        NameIter {
            rows: self.rows.as_slice(),
        }
    }

    /// The filters with their patterns read.
    pub(crate) fn rows(&self) -> &[Row]
        ensures { result.now ≡ self.now }
    {
        self.rows.as_slice()
    }

    pub(crate) fn alloc(&self) -> Global {
        self.alloc
    }

    /// Whether the filter of this name is enabled. None exactly where there is none.
    pub fn is_enabled(&self, name: &Text) -> Option<bool>
        ensures { result ≡ flag_of name.now self.now }
    {
        match self.rows.iter().find(|row| row.is_named(name)) {
            Some(row) => Some(row.is_enabled()),
            None => None,
        }
    }

    /// Whether some filter hides a line in the buffer of this full name.
    pub fn hides_line(&self, full_name: &[u8], line: &PackedLine) -> Result<bool, NoMemory>
        requires text { HasUtf8Texts line.now }
        ensures { IfOk result (λ hidden. hidden ≡ hides self.now full_name.now line.now.tags
            line.now.prefix line.now.message) }
    {
        let parts = LineParts {
            tags: Tags::Packed(line),
            prefix: line.prefix(),
            message: line.message(),
        };
        hides(self.alloc, self.rows.as_slice(), full_name, &parts)
    }

    /// Whether some filter hides a line of these texts in the buffer of this full name.
    pub fn hides_texts(
        &self,
        full_name: &[u8],
        tags: &[Text],
        prefix: &[u8],
        message: &[u8],
    ) -> Result<bool, NoMemory>
        requires prefix { IsUtf8 prefix.now }
        requires message { IsUtf8 message.now }
        ensures { IfOk result (λ hidden. hidden ≡ hides self.now full_name.now tags.now prefix.now
            message.now) }
    {
        let parts = LineParts {
            tags: Tags::Listed(tags),
            prefix,
            message,
        };
        hides(self.alloc, self.rows.as_slice(), full_name, &parts)
    }
}

fn is_taken(rows: &[Row], name: &Text) -> bool
    ensures { result ≡ has_name name.now rows.now }
{
    rows.iter().any(|row| row.is_named(name))
}

fn drop_named(rows: &mut Vec<Row>, name: &Text)
    ensures { rows.new.items ≡ without name.now rows.old.items }
{
    rows.retain(|row| !row.is_named(name));
}

fn push(rows: &mut Vec<Row>, row: Row) -> Result<(), NoMemory>
    ensures ok { OnOk result (rows.new.items ≡ rows.old.items ++ row ∷ []) }
    ensures err { OnErr result (rows.new.items ≡ rows.old.items) }
{
    match rows.push(row) {
        Ok(()) => Ok(()),
        Err(_) => Err(NoMemory),
    }
}

/// Whether a name means some filter. Without a name nothing is asked.
fn is_there(rows: &[Row], name: Option<&Text>) -> bool
    ensures { result ≡ is_there (option_copied name.entry) rows.now }
{
    match name {
        Some(name) => is_taken(rows, name),
        None => true,
    }
}

fn switch_rows(rows: &mut [Row], name: Option<&Text>, switch: Switch)
    ensures { rows.new ≡ map (with_switch (option_copied name.entry) switch) rows.old }
{
    for row in rows.iter_mut() {
        row.switch(name, switch);
    }
}

fn copies(alloc: Global, rows: &[Row]) -> Result<Vec<Row>, NoMemory>
    ensures { IfOk result (λ copies. copies.items ≡ rows.now) }
{
    let mut copies = Vec::with_capacity(alloc, rows.len())?;
    for row in rows {
        let copy = row.copy(alloc)?;
        copies.push_reserved(copy);
    }
    Ok(copies)
}

/// Whether a filter hides a line. The masks and the tags are looked at before a pattern is searched.
fn is_hider(
    alloc: Global,
    row: &Row,
    full_name: &[u8],
    line: &LineParts<'_>,
) -> Result<bool, NoMemory>
    requires prefix { IsUtf8 line.now.prefix.now }
    requires message { IsUtf8 line.now.message.now }
    ensures { IfOk result (λ hidden. hidden ≡ is_hider full_name.now (tags_in line.now.tags)
        line.now.prefix.now line.now.message.now row.now) }
{
    if !row.concerns(full_name) || !row.takes(line.tags) {
        return Ok(false);
    }
    let mut sieve = Sieve::new(alloc, row)?;
    Ok(sieve.asks(line.prefix, line.message))
}

/// Whether some filter hides a line.
fn hides(
    alloc: Global,
    rows: &[Row],
    full_name: &[u8],
    line: &LineParts<'_>,
) -> Result<bool, NoMemory>
    requires prefix { IsUtf8 line.now.prefix.now }
    requires message { IsUtf8 line.now.message.now }
    ensures { IfOk result (λ hidden. hidden ≡ hides rows.now full_name.now
        (tags_in line.now.tags) line.now.prefix.now line.now.message.now) }
{
    let mut rest = rows;
    while let [row, others @ ..] = rest {
        if is_hider(alloc, row, full_name, line)? {
            return Ok(true);
        }
        rest = others;
    }
    Ok(false)
}

/// The names of filters that are still to come, in the order of adding.
#[derive(Drop)]
pub struct NameIter<'a> {
    rows: &'a [Row],
}

impl<'a> Iterator for NameIter<'a> {
    type Item = &'a Text;

    ghost next_gives = { YieldsFirstRef names_left };

    ghost remaining = { item_count names_left };

    fn next(&mut self) -> Option<&'a Text> {
        let (row, others) = self.rows.split_first()?;
        self.rows = others;
        Some(row.name())
    }
}
