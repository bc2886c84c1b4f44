ghost use Rattle.std.specs.Prelude.{◌≡◌, ◌-◌, ◌≤◌, ◌++◌, [], ℕ, List, false, length, IfOk};
ghost use Rattle.std.specs.Prelude.{IsTrue, ◌↔◌};
ghost use Rattle.wc_turns.specs.Lines as Lines;

use crate::line_buffer::{LINE_LIMIT, LineBuffer};
use std::alloc::Global;
use wc_text::NoMemory;

/// What came on a link after its last line.
#[derive(Drop)]
pub struct Tail {
    pub line: LineBuffer,
    /// Whether it is longer than a line may be.
    pub over: bool,
}

/// A line without one CR at its end.
pub fn without_cr(line: &[u8]) -> &[u8]
    ensures { result.now ≡ Lines.without_cr line.now }
{
    match line {
        [front @ .., b'\r'] => front,
        _ => line,
    }
}

impl Tail {
    ghost use Rattle.wc_turns.specs.Tails.{IsTail};

    /// An empty tail, with room for a line.
    pub fn new(alloc: Global) -> Result<Tail, NoMemory>
        ensures { IfOk result (λ tail. tail ≡ record { line = []; over = false }) }
    {
        Ok(Tail {
            line: LineBuffer::new(alloc)?,
            over: false,
        })
    }

    /// Begins a line.
    pub fn begin(&mut self)
        ensures { self.new ≡ record { line = []; over = false } }
    {
        self.line.clear();
        self.over = false;
    }

    /// Whether no byte came after the last line.
    pub fn is_empty(&self) -> bool
        ensures { IsTrue result ↔ (self.now ≡ record { line = []; over = false }) }
    {
        !self.over && self.line.as_slice().is_empty()
    }

    /// Adds bytes that do not end the line. It takes no memory.
    pub fn extend(&mut self, bytes: &[u8])
        ensures { (line : List ℕ) → IsTail line self.old → IsTail (line ++ bytes.now) self.new }
    {
        let have = self.line.as_slice().len();
        if self.over || have > LINE_LIMIT || bytes.len() > LINE_LIMIT - have {
            self.over = true;
            return;
        }
        self.line.append(bytes);
    }
}
