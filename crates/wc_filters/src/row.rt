ghost use Rattle.std.specs.Prelude.{◌≡◌, IfOk};
ghost use Rattle.std.specs.Option.{option_copied};
ghost use Rattle.wc_filters.specs.Finders.{AreBuiltOf};
ghost use Rattle.wc_filters.specs.Hides.{concerns, takes};
ghost use Rattle.wc_filters.specs.Kept.{is_named, is_meant, with_switch, new_filter};
ghost use Rattle.wc_filters.specs.Parts.{tags_in};
ghost use Rattle.wc_filters.specs.Patterns.{search_of};

use crate::filter::Filter;
use crate::halves::Halves;
use crate::line_parts::Tags;
use crate::masks::{buffers_match, tags_match};
use crate::search::Search;
use crate::switch::Switch;
use std::alloc::Global;
use std::marker::Model;
use wc_text::{NoMemory, Text};

/// A filter with its pattern read and built. Contracts see the filter.
#[derive(Drop)]
pub(crate) struct Row {
    own: Filter,
    search: Search,
    halves: Halves,
}

impl Model for Row {
    ghost use Rattle.wc_filters.specs.declared.filter.Filter.{Filter};

    ghost Value = { Filter };

    ghost use Rattle.std.specs.Prelude.{◌≡◌};
    ghost use Rattle.wc_filters.specs.Finders.{AreBuiltOf};
    ghost use Rattle.wc_filters.specs.Patterns.{search_of};

    ghost view = { λ r. r.own };

    ghost invariant = { λ r. (r.search ≡ search_of r.own.pattern)
        × AreBuiltOf (search_of r.own.pattern) r.halves };
}

impl Row {
    /// A filter that is enabled, of which the pattern asks this and is built into this.
    pub(crate) fn new(
        alloc: Global,
        name: &Text,
        buffers: &Text,
        tags: &Text,
        pattern: &Text,
        search: Search,
        halves: Halves,
    ) -> Result<Row, NoMemory>
        requires search { search ≡ search_of pattern.now }
        requires halves { AreBuiltOf (search_of pattern.now) halves }
        ensures { IfOk result (λ row. row
            ≡ new_filter name.now buffers.now tags.now pattern.now) }
    {
        let own = Filter {
            name: name.copy(alloc)?,
            buffers: buffers.copy(alloc)?,
            tags: tags.copy(alloc)?,
            pattern: pattern.copy(alloc)?,
            enabled: true,
        };
        Ok(Row {
            own,
            search,
            halves,
        })
    }

    pub(crate) fn name(&self) -> &Text
        ensures { result.now ≡ self.now.name }
    {
        &self.own.name
    }

    pub(crate) fn is_named(&self, name: &Text) -> bool
        ensures { result ≡ is_named name.now self.now }
    {
        self.own.name.as_slice() == name.as_slice()
    }

    pub(crate) fn is_enabled(&self) -> bool
        ensures { result ≡ self.now.enabled }
    {
        self.own.enabled
    }

    /// Whether a name means the filter. Without a name each is meant.
    fn is_meant(&self, name: Option<&Text>) -> bool
        ensures { result ≡ is_meant (option_copied name.entry) self.now }
    {
        match name {
            Some(name) => self.is_named(name),
            None => true,
        }
    }

    /// Switches the filter's own flag, if it is meant.
    pub(crate) fn switch(&mut self, name: Option<&Text>, switch: Switch)
        ensures { self.new ≡ with_switch (option_copied name.entry) switch self.old }
    {
        if self.is_meant(name) {
            self.own.enabled = switch.of(self.own.enabled);
        }
    }

    /// The same filter in memory of its own, but for what its pattern is built into.
    pub(crate) fn copy(&self, alloc: Global) -> Result<Row, NoMemory>
        ensures { IfOk result (λ row. row ≡ self.now) }
    {
        let own = self.own.copy(alloc)?;
        let search = self.search.copy(alloc)?;
        let halves = self.halves.share()?;
        Ok(Row {
            own,
            search,
            halves,
        })
    }

    /// What the pattern asks.
    pub(crate) fn search(&self) -> &Search
        ensures { result.now ≡ search_of self.now.pattern }
    {
        &self.search
    }

    /// What the pattern is built into.
    pub(crate) fn halves(&self) -> &Halves
        ensures { AreBuiltOf (search_of self.now.pattern) result.now }
    {
        &self.halves
    }

    /// Whether it may hide lines of the buffer of this full name.
    pub(crate) fn concerns(&self, full_name: &[u8]) -> bool
        ensures { result ≡ concerns full_name.now self.now }
    {
        self.own.enabled && buffers_match(self.own.buffers.as_slice(), full_name)
    }

    /// Whether it may hide a line with these tags.
    pub(crate) fn takes(&self, tags: Tags<'_>) -> bool
        ensures { result ≡ takes (tags_in tags.entry) self.now }
    {
        tags_match(self.own.tags.as_slice(), tags) && !tags.shield()
    }
}
