ghost use Rattle.std.specs.Prelude.{◌≡◌, ◌≤◌, ℕ, List, Option, OnOk, OnErr};
ghost use Rattle.std.specs.Io.KnownBytes.{append_known};
ghost use Rattle.wc_outside.specs.Faults.{Rose};

use crate::happening::Failed;

/// Takes printed text.
pub trait Sink {
    /// What was written, where it is told.
    ghost contents: { Self → Option (List ℕ) };

    /// How often it failed.
    ghost faults: { Self → ℕ };

    /// Writes the whole piece, or fails.
    fn write(&mut self, piece: &[u8]) -> Result<(), Failed>
        ensures ok { OnOk result (contents self.new ≡ append_known (contents self.old) piece.now) }
        ensures count { OnOk result (faults self.new ≡ faults self.old) }
        ensures counts { faults self.old ≤ faults self.new }
        ensures failed { OnErr result (Rose (faults self.old) (faults self.new)) };
}
