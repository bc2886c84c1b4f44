ghost use Rattle.std.specs.Prelude.{◌≡◌, ◌≤◌, length};

use std::fmt;
use std::marker::Model;

/// The most bytes that the name of a group or a nick has.
pub const NAME_LIMIT: usize = 64;

/// The name of a group or a nick, kept in place so that a refusal which names it takes no memory.
#[derive(Drop)]
pub struct Name {
    bytes: [u8; NAME_LIMIT],
    length: usize,
}

impl Model for Name {
    ghost use Rattle.std.specs.Prelude.{List, ℕ, take, ◌≤◌};

    ghost Value = { List ℕ };

    ghost view = { λ n. take n.length n.bytes };

    ghost invariant = { λ n. n.length ≤ 64 };
}

impl Name {
    /// The name of these bytes.
    pub fn from_slice(name: &[u8]) -> Name
        requires { length name.now ≤ 64 }
        ensures { result ≡ name.now }
    {
        let mut bytes = [0; NAME_LIMIT];
        bytes[..name.len()].copy_from_slice(name);
        Name {
            bytes,
            length: name.len(),
        }
    }

    /// The bytes of the name.
    pub fn as_slice(&self) -> &[u8]
        ensures { result.now ≡ self.now }
    {
        &self.bytes[..self.length]
    }
}

impl fmt::Display for Name {
    ghost use Rattle.std.specs.Fmt.{WritesOnOk};
    ghost use Rattle.std.specs.Str.{IsUtf8};

    fn fmt<W: fmt::Write>(&self, f: &mut fmt::Formatter<W>) -> fmt::Result
        ensures text { IsUtf8 self.now → WritesOnOk W.write_str_gives f.old result self.now f.new }
    {
        match std::str::from_utf8(self.as_slice()) {
            Ok(name) => f.write_str(name),
            Err(_) => fmt::Debug::fmt(self, f),
        }
    }
}

impl fmt::Debug for Name {
    fn fmt<W: fmt::Write>(&self, f: &mut fmt::Formatter<W>) -> fmt::Result {
        f.debug_list().entries(self.as_slice()).finish()
    }
}
