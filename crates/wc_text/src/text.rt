ghost use Rattle.std.specs.Prelude.{◌≡◌, ◌++◌, [], length, IfOk, OnOk, OnErr};

use crate::no_memory::NoMemory;
use std::alloc::Global;
use std::fmt;
use std::marker::Model;

/// A text, which contracts see as the list of its bytes.
#[derive(Drop)]
pub struct Text {
    bytes: Vec<u8>,
}

impl Model for Text {
    ghost use Rattle.std.specs.Prelude.{List, ℕ};

    ghost Value = { List ℕ };

    ghost view = { λ t. t.bytes.items };
}

impl Text {
    /// The empty text. It takes no memory.
    pub fn new(alloc: Global) -> Text
        ensures { result ≡ [] }
    {
        Text {
            bytes: Vec::new(alloc),
        }
    }

    /// A text of these bytes.
    pub fn from_slice(alloc: Global, bytes: &[u8]) -> Result<Text, NoMemory>
        ensures { IfOk result (λ text. text ≡ bytes.now) }
    {
        let bytes = bytes.to_vec(alloc)?;
        Ok(Text { bytes })
    }

    /// The bytes of the text.
    pub fn as_slice(&self) -> &[u8]
        ensures { result.now ≡ self.now }
    {
        self.bytes.as_slice()
    }

    /// Puts bytes after the text. Where memory is refused the text stays as it was.
    pub fn append(&mut self, bytes: &[u8]) -> Result<(), NoMemory>
        ensures ok { OnOk result (self.new ≡ self.old ++ bytes.now) }
        ensures err { OnErr result (self.new ≡ self.old) }
    {
        match self.bytes.extend_from_slice(bytes) {
            Ok(()) => Ok(()),
            Err(_) => Err(NoMemory),
        }
    }

    /// The same text in memory of its own.
    pub fn copy(&self, alloc: Global) -> Result<Text, NoMemory>
        ensures { IfOk result (λ text. text ≡ self.now) }
    {
        Text::from_slice(alloc, self.as_slice())
    }
}

impl fmt::Display for Text {
    ghost use Rattle.std.specs.Fmt.{WritesOnOk};
    ghost use Rattle.std.specs.Str.{IsUtf8};

    fn fmt<W: fmt::Write>(&self, f: &mut fmt::Formatter<W>) -> fmt::Result
        ensures text { IsUtf8 self.now → WritesOnOk W.write_str_gives f.old result self.now f.new }
    {
        match std::str::from_utf8(self.as_slice()) {
            Ok(text) => f.write_str(text),
            Err(_) => fmt::Debug::fmt(self, f),
        }
    }
}

impl fmt::Debug for Text {
    fn fmt<W: fmt::Write>(&self, f: &mut fmt::Formatter<W>) -> fmt::Result {
        f.debug_list().entries(self.as_slice()).finish()
    }
}
