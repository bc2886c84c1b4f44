ghost use Rattle.std.specs.Prelude.{◌≡◌};
ghost use Rattle.wc_hooks.specs.Kinds.{same_owner};

use wc_text::LinkId;

/// The name of an entry of the table. None is given twice.
#[derive(Clone, Copy, Debug, PartialEq, Eq)]
pub struct HookId(pub u64);

/// Whose an entry is: the session of a link, or the trigger with a number.
#[derive(Clone, Copy, Debug, PartialEq, Eq)]
pub enum Owner {
    /// The session of this link.
    Session(LinkId),
    /// The trigger with this number.
    Trigger(u64),
}

impl Owner {
    /// Whether both are the same owner.
    pub(crate) fn is_same(self, other: Owner) -> bool
        ensures { result ≡ same_owner self other }
    {
        self == other
    }
}

/// What a pass gives: an entry, and whose it is.
#[derive(Clone, Copy, Debug, PartialEq, Eq)]
pub struct Entry {
    pub id: HookId,
    pub owner: Owner,
}

/// Why an entry was not hooked. Of both reasons the first in this order is answered.
#[derive(Clone, Copy, Debug, PartialEq, Eq, thiserror::Error)]
pub enum HookRefused {
    /// As many entries of kinds other than `Relay` live as are allowed.
    #[error("{limit} hooks")]
    TooMany { limit: u32 },
    /// Memory was asked for and not found.
    #[error("out of memory")]
    NoMemory,
}
