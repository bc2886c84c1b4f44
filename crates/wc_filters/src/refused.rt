ghost use Rattle.std.specs.Prelude.{◌≡◌};

use wc_text::NoMemory;

/// Why a filter was not added. The filters stay as they were.
#[derive(Clone, Copy, PartialEq, Eq, Debug)]
pub enum FilterRefused {
    /// A filter has that name.
    NameTaken,
    /// The pattern, or one of the two, was judged to be none.
    BadPattern,
    /// There are as many filters as there may be.
    TooMany,
    /// Memory was asked for and not found.
    NoMemory,
}

impl From<NoMemory> for FilterRefused {
    ghost use Rattle.wc_filters.specs.declared.refused.FilterRefused.TheVariants as refused;

    ghost from_gives = { λ _ e. e ≡ refused.NoMemory };

    fn from(_none: NoMemory) -> FilterRefused {
        FilterRefused::NoMemory
    }
}
