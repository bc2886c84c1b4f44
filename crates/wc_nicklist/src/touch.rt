ghost use Rattle.std.specs.Prelude.{◌≡◌, OnOk, OnErr, Option};
ghost use Rattle.wc_nicklist.specs.Touched.{first_touch};
ghost use Rattle.wc_nicklist.specs.declared.item.Key.{Key as KeyValue};
ghost use Rattle.wc_nicklist.specs.declared.item.Row.{Row as RowValue};
ghost use Rattle.wc_text.specs.declared.names.Handle.{Handle as HandleValue};

use crate::item::{Key, Row};
use wc_text::{Handle, NoMemory};

/// What is told of each change of a nicklist, before the change.
pub trait Touch {
    /// The row that was under a key of a buffer at its first touch: None where it was not
    /// touched, and Some of None where no row was.
    ghost first: { Self → HandleValue → KeyValue → Option (Option RowValue) };

    /// The row of that key is about to change. Where memory is refused nothing is noted.
    fn touch(&mut self, buffer: Handle, key: &Key, before: Option<Row>) -> Result<(), NoMemory>
        ensures ok { OnOk result ((b : HandleValue) (k : KeyValue) → first self.new b k
            ≡ first_touch buffer key.now before (first self.old) b k) }
        ensures err { OnErr result ((b : HandleValue) (k : KeyValue) → first self.new b k
            ≡ first self.old b k) };
}
