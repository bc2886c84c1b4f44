use std::alloc::AllocError;
use wc_text::NoMemory;

/// Why a line of a script is not played.
#[derive(Clone, Copy)]
pub enum Wrong {
    /// A word is none of those that may be there, or one is missing.
    NoWord,
    /// A word is not the number that is there.
    NoNumber,
    /// No client has the number.
    NoClient,
    /// Memory was asked for and not found.
    NoMemory,
}

impl Wrong {
    pub fn as_str(self) -> &'static str {
        match self {
            Wrong::NoWord => "wrong: a word that is none",
            Wrong::NoNumber => "wrong: a number that is none",
            Wrong::NoClient => "wrong: no such client",
            Wrong::NoMemory => "wrong: out of memory",
        }
    }
}

impl From<NoMemory> for Wrong {
    fn from(_error: NoMemory) -> Wrong {
        Wrong::NoMemory
    }
}

impl From<AllocError> for Wrong {
    fn from(_error: AllocError) -> Wrong {
        Wrong::NoMemory
    }
}
