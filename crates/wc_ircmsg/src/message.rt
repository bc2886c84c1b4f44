ghost use Rattle.std.specs.Prelude.{◌≡◌};
ghost use Rattle.wc_ircmsg.specs.declared.message.LineRefused.TheVariants.{NoMemory as no_memory};

use wc_text::{Items, NoMemory, Text};

/// A message of the IRC protocol, as RFC 1459 and RFC 2812 have it.
#[derive(Drop)]
pub struct Message {
    /// The first word without its `@`, where it has one. Empty where there are no tags.
    pub tags: Text,
    /// The nick of the prefix, or the name of a server. Empty where there is none.
    pub nick: Text,
    /// The user of the prefix. Empty where there is none.
    pub user: Text,
    /// The host of the prefix. Empty where there is none.
    pub host: Text,
    /// Letters of ASCII, or three digits.
    pub command: Text,
    /// The parameters, of which a line has at most 15.
    pub params: Items<Text>,
}

/// Why a line is no message.
#[derive(Clone, Copy, Debug, PartialEq, Eq, thiserror::Error)]
pub enum LineRefused {
    /// The line is empty, or has blanks alone.
    #[error("empty line")]
    Empty,
    /// No command of letters or three digits is at this place, where one has to be. Places are
    /// counted in bytes from 0, in the line after it was made UTF-8.
    #[error("no command at byte {place}")]
    BadCommand { place: usize },
    /// Memory was asked for and not found.
    #[error("out of memory")]
    NoMemory,
}

impl From<NoMemory> for LineRefused {
    ghost from_gives = { λ _ refused. refused ≡ no_memory };

    fn from(_error: NoMemory) -> LineRefused {
        LineRefused::NoMemory
    }
}
