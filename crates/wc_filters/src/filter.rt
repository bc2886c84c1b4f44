ghost use Rattle.std.specs.Prelude.{◌≡◌, IfOk};

use std::alloc::Global;
use wc_text::{NoMemory, Text};

/// A filter, as contracts see it.
#[derive(Drop)]
pub struct Filter {
    pub name: Text,
    /// Masks of the buffers that it is for, which commas part.
    pub buffers: Text,
    /// What it asks of a line's tags: items, which commas part, of masks, which plus signs part.
    pub tags: Text,
    /// What it asks of a line's prefix and message.
    pub pattern: Text,
    /// Only then it hides lines.
    pub enabled: bool,
}

impl Filter {
    /// The same filter in memory of its own.
    pub(crate) fn copy(&self, alloc: Global) -> Result<Filter, NoMemory>
        ensures { IfOk result (λ filter. filter ≡ self.now) }
    {
        Ok(Filter {
            name: self.name.copy(alloc)?,
            buffers: self.buffers.copy(alloc)?,
            tags: self.tags.copy(alloc)?,
            pattern: self.pattern.copy(alloc)?,
            enabled: self.enabled,
        })
    }
}
