ghost use Rattle.std.specs.Prelude.{◌≡◌};

use wc_text::NoMemory;

/// Why a text is no trigger. Of several reasons the first in this order is answered.
#[derive(Clone, Copy, PartialEq, Eq, Debug)]
pub enum TriggerRefused {
    /// It has fewer than three words or more than eight, the first is empty or has a blank, or a
    /// quote is not closed or is followed by something else than a blank.
    BadWords,
    /// The second word names no hook.
    BadHook,
    /// The third word says nothing to that hook.
    BadArguments,
    /// The fifth word is no list of replacements, or a pattern in it was judged to be none.
    BadPattern,
    /// The seventh word names no return code.
    BadReturn,
    /// The eighth word names no post action.
    BadPost,
    /// Memory was asked for and not found.
    NoMemory,
}

impl From<NoMemory> for TriggerRefused {
    ghost use Rattle.wc_triggers.specs.declared.refused.TriggerRefused.TheVariants as refused;

    ghost from_gives = { λ _ e. e ≡ refused.NoMemory };

    fn from(_none: NoMemory) -> TriggerRefused {
        TriggerRefused::NoMemory
    }
}

/// Why a trigger was not added. Of several reasons the first in this order is answered.
#[derive(Clone, Copy, PartialEq, Eq, Debug)]
pub enum AddRefused {
    /// A trigger has that name.
    NameTaken,
    /// There are as many triggers as there may be.
    TooMany,
    /// All numbers were drawn.
    Spent,
    /// Memory was asked for and not found.
    NoMemory,
}

impl From<NoMemory> for AddRefused {
    ghost use Rattle.wc_triggers.specs.declared.refused.AddRefused.TheVariants as refused;

    ghost from_gives = { λ _ e. e ≡ refused.NoMemory };

    fn from(_none: NoMemory) -> AddRefused {
        AddRefused::NoMemory
    }
}

/// No trigger has that name.
#[derive(Clone, Copy, PartialEq, Eq, Debug)]
pub struct NoSuch;
