ghost use Rattle.std.specs.Prelude.{◌≡◌, IfOk};

use std::alloc::Global;
use std::marker::Model;
use std::rc::Rc;
use wc_text::{Items, NoMemory, Text};

/// The names of the groups above a row, which rows share.
#[derive(Drop)]
pub(crate) struct Path {
    names: Rc<Items<Text>>,
}

impl Model for Path {
    ghost use Rattle.std.specs.Prelude.{List, ℕ};

    ghost Value = { List (List ℕ) };

    ghost view = { λ p. p.names.value };
}

impl Path {
    /// A path that no row has yet.
    pub(crate) fn new(alloc: Global, names: Items<Text>) -> Result<Path, NoMemory>
        ensures { IfOk result (λ path. path ≡ names) }
    {
        match Rc::new(alloc, names) {
            Ok(names) => Ok(Path { names }),
            Err(_) => Err(NoMemory),
        }
    }

    /// The same path in the same memory.
    pub(crate) fn share(&self) -> Result<Path, NoMemory>
        ensures { IfOk result (λ path. path ≡ self.now) }
    {
        let names = self.names.clone()?;
        Ok(Path { names })
    }

    /// The names, from below the root.
    pub(crate) fn as_slice(&self) -> &[Text]
        ensures { result.now ≡ self.now }
    {
        self.names.as_ref().as_slice()
    }

    /// The same names in memory of their own.
    pub(crate) fn copy(&self, alloc: Global) -> Result<Items<Text>, NoMemory>
        ensures { IfOk result (λ names. names ≡ self.now) }
    {
        self.names.as_ref().copy(alloc)
    }
}
