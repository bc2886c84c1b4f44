ghost use Rattle.std.specs.Prelude.{◌≡◌, ◌++◌, ◌∷◌, [], IfOk, OnOk, OnErr};

use crate::names::Pair;
use crate::no_memory::NoMemory;
use crate::text::Text;
use std::alloc::Global;
use std::marker::Model;

/// A list of values, which contracts see as that list.
///
/// A type may hold itself through it, as a tree holds its children.
#[derive(Drop)]
pub struct Items<T> {
    items: Vec<T>,
}

impl<T> Model for Items<T> {
    ghost use Rattle.std.specs.Prelude.{List};
    ghost use Rattle.std.specs.Coded.{coded_list};

    ghost Value = { List T };

    ghost coded = { coded_list T.code };

    ghost view = { λ t. t.items.items };
}

impl<T> Items<T> {
    /// The empty list. It takes no memory.
    pub fn new(alloc: Global) -> Items<T>
        ensures { result ≡ [] }
    {
        Items {
            items: Vec::new(alloc),
        }
    }

    /// The empty list, with room for this many values.
    pub fn with_room(alloc: Global, room: usize) -> Result<Items<T>, NoMemory>
        ensures { IfOk result (λ items. items ≡ []) }
    {
        let items = Vec::with_capacity(alloc, room)?;
        Ok(Items { items })
    }

    /// The values, in order.
    pub fn as_slice(&self) -> &[T]
        ensures { result.now ≡ self.now }
    {
        self.items.as_slice()
    }

    /// The values, in order, in a vector of their own. It takes no memory.
    pub fn into_vec(self) -> Vec<T>
        ensures { result.items ≡ self }
    {
        self.items
    }
}

impl<T: Drop> Items<T> {
    /// Puts a value after the list. Where memory is refused the list stays as it was.
    pub fn push(&mut self, item: T) -> Result<(), NoMemory>
        ensures ok { OnOk result (self.new ≡ self.old ++ item ∷ []) }
        ensures err { OnErr result (self.new ≡ self.old) }
    {
        match self.items.push(item) {
            Ok(()) => Ok(()),
            Err(_) => Err(NoMemory),
        }
    }
}

/// A value that can be made again in memory of its own.
pub trait Duplicate: Drop {
    /// The same value in memory of its own.
    fn duplicate(&self, alloc: Global) -> Result<Self, NoMemory>
    where
        Self: Sized,
        ensures { IfOk result (λ t. t ≡ self.now) };
}

impl Duplicate for Text {
    fn duplicate(&self, alloc: Global) -> Result<Text, NoMemory> {
        self.copy(alloc)
    }
}

impl Duplicate for Pair {
    fn duplicate(&self, alloc: Global) -> Result<Pair, NoMemory> {
        self.copy(alloc)
    }
}

impl<T: Duplicate> Items<T> {
    /// The same list in memory of its own.
    pub fn copy(&self, alloc: Global) -> Result<Items<T>, NoMemory>
        ensures { IfOk result (λ items. items ≡ self.now) }
    {
        let mut items = Vec::with_capacity(alloc, self.items.len())?;
        for item in self.items.as_slice() {
            let copy = item.duplicate(alloc)?;
            items.push_reserved(copy);
        }
        Ok(Items { items })
    }
}

impl<T: Duplicate> Duplicate for Items<T> {
    fn duplicate(&self, alloc: Global) -> Result<Items<T>, NoMemory> {
        self.copy(alloc)
    }
}
