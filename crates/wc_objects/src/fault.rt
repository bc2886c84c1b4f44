//! Why bytes could not be read.
ghost use Rattle.std.specs.Prelude.{◌≡◌, ◌&&◌};
ghost use Rattle.wc_objects.specs.Reading.{keeps};
ghost use Rattle.wc_objects.specs.declared.fault.ReadError.TheVariants.{NoMemory as no_memory};

use crate::forms::{are_keys, is_utf8};
use crate::keys::path_depth;
use wc_text::NoMemory;

/// Why a value could not be read.
#[derive(Clone, Copy)]
pub enum ReadError {
    NoMemory,
    /// A field breaks a rule, and this many bytes are left where the first such field begins.
    Broken(usize),
}

impl From<NoMemory> for ReadError {
    ghost from_gives = { λ _ e. e ≡ no_memory };

    fn from(_error: NoMemory) -> ReadError {
        ReadError::NoMemory
    }
}

/// What a text has to be.
#[derive(Clone, Copy)]
pub enum Rule {
    /// UTF-8.
    Plain,
    /// An h-path.
    Path,
    /// The keys of an `hda`.
    Keys,
}

impl Rule {
    /// Whether the bytes are such a text.
    pub fn keeps(self, text: &[u8]) -> bool
        ensures { result ≡ keeps self text.now }
    {
        match self {
            Rule::Plain => is_utf8(text),
            Rule::Path => is_utf8(text) && path_depth(text).is_some(),
            Rule::Keys => is_utf8(text) && are_keys(text),
        }
    }
}
