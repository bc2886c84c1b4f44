ghost use Rattle.std.specs.Prelude.{◌≡◌, ◌≤◌, ℕ, List, Option, Some, IfOk, IfSome, IsSome, OnOk};
ghost use Rattle.std.specs.Prelude.{OnErr, IsErrOf};
ghost use Rattle.wc_outside.specs.Faults.{Rose, UnlessFailed};

use crate::happening::Failed;
use std::alloc::Global;
use wc_text::Text;

/// Why the kept bytes were not read.
#[derive(Clone, Copy, Debug, PartialEq, Eq, thiserror::Error)]
pub enum KeepFault {
    #[error("cannot read the kept bytes")]
    Failed,
    #[error("out of memory")]
    NoMemory,
}

/// Keeps the bytes of one file.
pub trait Keeper {
    /// The bytes, where they are told.
    ghost contents: { Self → Option (List ℕ) };

    /// How often it failed.
    ghost faults: { Self → ℕ };

    /// Reads all bytes. What is kept stays as it is.
    fn read_all(&mut self, alloc: Global) -> Result<Text, KeepFault>
        ensures contents { contents self.new ≡ contents self.old }
        ensures read { IfOk result (λ text. IfSome (contents self.old) (λ kept. text ≡ kept)) }
        ensures count { UnlessFailed result (faults self.new ≡ faults self.old) }
        ensures counts { faults self.old ≤ faults self.new }
        ensures failed { IsErrOf result KeepFault.Failed →
            Rose (faults self.old) (faults self.new) };

    /// Puts these bytes in the place of all that is kept. Where it fails what is kept stays as it
    /// is.
    fn replace(&mut self, bytes: &[u8]) -> Result<(), Failed>
        ensures ok { OnOk result (IsSome (contents self.new) → contents self.new ≡ Some bytes.now) }
        ensures kept { OnErr result (contents self.new ≡ contents self.old) }
        ensures count { OnOk result (faults self.new ≡ faults self.old) }
        ensures counts { faults self.old ≤ faults self.new }
        ensures failed { OnErr result (Rose (faults self.old) (faults self.new)) };
}
