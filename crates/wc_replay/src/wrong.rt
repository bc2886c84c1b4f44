use std::alloc::AllocError;
use wc_text::NoMemory;

/// What is wrong with a line of a script.
#[derive(Clone, Copy)]
pub enum Wrong {
    Word,
    Number,
    Link,
    Escape,
    EarlyEnd,
    Form,
    Missing,
    NoMemory,
}

impl Wrong {
    /// What is printed of it.
    pub fn text(self) -> &'static str {
        match self {
            Wrong::Word => "no such word",
            Wrong::Number => "no number",
            Wrong::Link => "no such link",
            Wrong::Escape => "no such escape",
            Wrong::EarlyEnd => "an escape ends early",
            Wrong::Form => "no such form",
            Wrong::Missing => "something is missing",
            Wrong::NoMemory => "out of memory",
        }
    }
}

impl From<NoMemory> for Wrong {
    fn from(_error: NoMemory) -> Wrong {
        Wrong::NoMemory
    }
}

impl From<AllocError> for Wrong {
    fn from(_error: AllocError) -> Wrong {
        Wrong::NoMemory
    }
}
