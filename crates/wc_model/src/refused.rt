use std::error::Error;
use std::fmt;
use wc_buffers::BufferRefused;
use wc_nicklist::NickRefused;
use wc_text::{Handle, NoMemory};

/// Why a change was refused. Of several reasons the first in this order is answered.
#[derive(Drop)]
pub enum ChangeRefused {
    Buffer(BufferRefused),
    Nick(NickRefused),
    /// No line that is held has this content.
    NoLine { handle: Handle },
    /// All nicklists together have as many rows as they may.
    TooManyRows { limit: u64 },
    /// There are not as many handles left as it would draw.
    Spent,
    /// Memory was asked for and not found.
    NoMemory,
}

// By hand, as `Debug` below: what a derive writes is much dearer to prove.
impl fmt::Display for ChangeRefused {
    fn fmt<W: fmt::Write>(&self, f: &mut fmt::Formatter<W>) -> fmt::Result {
        match self {
            ChangeRefused::Buffer(refused) => fmt::Display::fmt(refused, f),
            ChangeRefused::Nick(refused) => fmt::Display::fmt(refused, f),
            ChangeRefused::NoLine { handle: _ } => f.write_str("no such line"),
            ChangeRefused::TooManyRows { limit } => {
                write!(f, "more than {limit} nicks and groups")
            }
            ChangeRefused::Spent => f.write_str("no handle left"),
            ChangeRefused::NoMemory => f.write_str("out of memory"),
        }
    }
}

impl fmt::Debug for ChangeRefused {
    fn fmt<W: fmt::Write>(&self, f: &mut fmt::Formatter<W>) -> fmt::Result {
        fmt::Display::fmt(self, f)
    }
}

impl Error for ChangeRefused {}

impl From<NoMemory> for ChangeRefused {
    ghost use Rattle.std.specs.Prelude.{◌≡◌};
    ghost use Rattle.wc_model.specs.declared.refused.ChangeRefused.{ChangeRefused};

    ghost from_gives = { λ _ e. e ≡ ChangeRefused.NoMemory };

    fn from(_error: NoMemory) -> ChangeRefused {
        ChangeRefused::NoMemory
    }
}

impl From<BufferRefused> for ChangeRefused {
    ghost use Rattle.std.specs.Prelude.{◌≡◌};
    ghost use Rattle.wc_model.specs.Refusals.{refused_by};

    ghost from_gives = { λ refused e. e ≡ refused_by refused };

    fn from(refused: BufferRefused) -> ChangeRefused {
        match refused {
            BufferRefused::NoMemory => ChangeRefused::NoMemory,
            refused => ChangeRefused::Buffer(refused),
        }
    }
}
