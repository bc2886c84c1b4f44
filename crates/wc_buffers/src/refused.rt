use std::fmt;
use wc_text::{Handle, NoMemory, Text};

/// Why a call of the buffers was refused. Of several reasons the first in this order is answered.
#[derive(Drop, thiserror::Error)]
pub enum BufferRefused {
    /// No buffer has the handle.
    NoBuffer { handle: Handle },
    /// The core buffer can't be closed.
    IsCore,
    /// The name is empty or too long.
    BadName { length: u64 },
    /// `plugin` and `name` follow from the full name, and can't be set or removed.
    FixedVar { name: Text },
    /// Another buffer has the full name.
    NameTaken { name: Text },
    /// The buffer has no such variable.
    NoVar { name: Text },
    /// The two buffers are in one group already.
    SameGroup { number: u32 },
    /// The buffer is the only one of its group.
    NotMerged,
    /// No group has the number.
    BadNumber { number: u32 },
    /// As many buffers, or as many variables of the buffer, as are allowed are there.
    TooMany { limit: u32 },
    /// Memory was asked for and not found.
    NoMemory,
}

impl From<NoMemory> for BufferRefused {
    ghost use Rattle.std.specs.Prelude.{◌≡◌};
    ghost use Rattle.wc_buffers.specs.declared.refused.BufferRefused.{BufferRefused};

    ghost from_gives = { λ _ e. e ≡ BufferRefused.NoMemory };

    fn from(_error: NoMemory) -> BufferRefused {
        BufferRefused::NoMemory
    }
}

impl fmt::Display for BufferRefused {
    fn fmt<W: fmt::Write>(&self, f: &mut fmt::Formatter<W>) -> fmt::Result {
        let reason = reason(self);
        match self {
            BufferRefused::NoBuffer { handle: _ }
            | BufferRefused::IsCore
            | BufferRefused::NotMerged
            | BufferRefused::NoMemory => f.write_str(reason),
            BufferRefused::BadName { length } => write!(f, "{reason}{length} bytes"),
            BufferRefused::FixedVar { name }
            | BufferRefused::NameTaken { name }
            | BufferRefused::NoVar { name } => write!(f, "{reason}{name}"),
            BufferRefused::SameGroup { number }
            | BufferRefused::BadNumber { number }
            | BufferRefused::TooMany { limit: number } => write!(f, "{reason}{number}"),
        }
    }
}

/// The text of `Display`, since what a derive writes for so many variants is dear to prove.
impl fmt::Debug for BufferRefused {
    fn fmt<W: fmt::Write>(&self, f: &mut fmt::Formatter<W>) -> fmt::Result {
        fmt::Display::fmt(self, f)
    }
}

/// What is written before the name or the number of a refusal that has one.
fn reason(refused: &BufferRefused) -> &'static str {
    match refused {
        BufferRefused::NoBuffer { handle: _ } => "no such buffer",
        BufferRefused::IsCore => "the core buffer",
        BufferRefused::BadName { length: _ } => "a name of ",
        BufferRefused::FixedVar { name: _ } => "a fixed variable: ",
        BufferRefused::NameTaken { name: _ } => "name taken: ",
        BufferRefused::NoVar { name: _ } => "no such variable: ",
        BufferRefused::SameGroup { number: _ } => "the same group: ",
        BufferRefused::NotMerged => "not merged",
        BufferRefused::BadNumber { number: _ } => "no such number: ",
        BufferRefused::TooMany { limit: _ } => "too many, at most ",
        BufferRefused::NoMemory => "out of memory",
    }
}
