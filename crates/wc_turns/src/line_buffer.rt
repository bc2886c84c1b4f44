ghost use Rattle.std.specs.Prelude.{◌≡◌, ◌+◌, ◌++◌, [], ◌≤◌, IfOk, length};

use std::alloc::Global;
use std::marker::Model;
use wc_text::NoMemory;

/// How many bytes a line has at most.
pub const LINE_LIMIT: usize = 65_536;

/// Room for one line, all of which is made at once.
#[derive(Drop)]
pub struct LineBuffer {
    bytes: Vec<u8>,
}

impl Model for LineBuffer {
    ghost use Rattle.std.specs.Prelude.{List, ℕ, ◌≤◌};
    ghost use Rattle.std.specs.Vec.{vec_capacity};

    ghost Value = { List ℕ };

    ghost view = { λ l. l.bytes.items };

    ghost invariant = { λ l. 65536 ≤ vec_capacity l.bytes };
}

impl LineBuffer {
    /// Makes the room.
    pub fn new(alloc: Global) -> Result<LineBuffer, NoMemory>
        ensures { IfOk result (λ line. line ≡ []) }
    {
        let bytes = Vec::with_capacity(alloc, LINE_LIMIT)?;
        Ok(LineBuffer { bytes })
    }

    /// Adds bytes. It takes no memory.
    pub fn append(&mut self, bytes: &[u8])
        requires { length self.old + length bytes.now ≤ LINE_LIMIT }
        ensures { self.new ≡ self.old ++ bytes.now }
    {
        if self.bytes.extend_from_slice(bytes).is_err() {
            unreachable!()
        }
    }

    /// Takes all bytes away.
    pub fn clear(&mut self)
        ensures { self.new ≡ [] }
    {
        self.bytes.clear();
    }

    pub fn as_slice(&self) -> &[u8]
        ensures { result.now ≡ self.now }
    {
        self.bytes.as_slice()
    }
}
