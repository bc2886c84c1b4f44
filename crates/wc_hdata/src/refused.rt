use wc_text::NoMemory;

/// Why a path was not gone through. Of several reasons the first in this order is answered.
#[derive(Clone, Copy, Debug, PartialEq, Eq, thiserror::Error)]
pub enum WalkRefused {
    /// No such thing lives as the path begins at.
    #[error("nothing lives at {pointer:#x}")]
    DeadPointer { pointer: u64 },
    /// The elements of the path give more pointers together.
    #[error("more than {limit} pointers")]
    TooManyVisits { limit: u32 },
    /// The values have more bytes together.
    #[error("more than {limit} bytes of values")]
    TooLong { limit: u32 },
    /// Memory was asked for and not found.
    #[error("out of memory")]
    NoMemory,
}

impl From<NoMemory> for WalkRefused {
    ghost use Rattle.std.specs.Prelude.{◌≡◌};
    ghost use Rattle.wc_hdata.specs.declared.refused.WalkRefused.TheVariants.{NoMemory as no_memory};

    ghost from_gives = { λ _ e. e ≡ no_memory };

    fn from(_error: NoMemory) -> WalkRefused {
        WalkRefused::NoMemory
    }
}
