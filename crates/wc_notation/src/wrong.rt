use std::alloc::AllocError;
use wc_text::NoMemory;

/// What is wrong with a line of a script.
#[derive(Clone, Copy, Debug, PartialEq, Eq)]
pub enum Wrong {
    NoMemory,
    /// An escape ends early, or stands for nothing that is known.
    Escape,
    /// A word is none of those that may are there.
    Word,
    /// A number is none, or out of its range.
    Number,
    /// Fewer words are there than are needed.
    Missing,
    /// A text has to be UTF-8.
    NoText,
    /// No message may hold such objects.
    Unformed,
    /// A message is too long.
    TooLong,
}

impl Wrong {
    /// The same in words.
    pub fn as_str(self) -> &'static str {
        match self {
            Wrong::NoMemory => "out of memory",
            Wrong::Escape => "no such escape",
            Wrong::Word => "no such word",
            Wrong::Number => "no such number",
            Wrong::Missing => "too few words",
            Wrong::NoText => "no UTF-8",
            Wrong::Unformed => "no message may hold this",
            Wrong::TooLong => "too long",
        }
    }
}

impl From<NoMemory> for Wrong {
    fn from(_error: NoMemory) -> Wrong {
        Wrong::NoMemory
    }
}

impl From<AllocError> for Wrong {
    fn from(_error: AllocError) -> Wrong {
        Wrong::NoMemory
    }
}
