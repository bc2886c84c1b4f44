use wc_text::NoMemory;

/// Why a diff was not applied.
#[derive(Debug, Drop, thiserror::Error)]
pub enum DiffRefused {
    /// The item at this place, from 0, can't be applied.
    #[error("a wrong item at {place}")]
    BadItem { place: u64 },
    /// Memory was asked for and not found.
    #[error("out of memory")]
    NoMemory,
}

impl From<NoMemory> for DiffRefused {
    ghost use Rattle.std.specs.Prelude.{◌≡◌};
    ghost use Rattle.wc_nickdiff.specs.declared.refused.DiffRefused.TheVariants.{NoMemory as no_memory};

    ghost from_gives = { λ _ e. e ≡ no_memory };

    fn from(_error: NoMemory) -> DiffRefused {
        DiffRefused::NoMemory
    }
}
