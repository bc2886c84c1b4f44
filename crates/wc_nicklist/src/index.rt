ghost use Rattle.std.specs.Prelude.{◌≡◌, None, Some, OnOk, if◌then◌else◌};

use crate::by_name::IdsByName;
use crate::store::RowId;
use std::alloc::Global;
use wc_text::NoMemory;

/// The number of each row, by its key.
#[derive(Drop)]
pub(crate) struct Index {
    groups: IdsByName,
    nicks: IdsByName,
}

impl Index {
    ghost use Rattle.wc_nicklist.specs.Index.{id_in, IndexHasRoom};
    ghost use Rattle.wc_nicklist.specs.Order.{key_at};
    ghost use Rattle.wc_nicklist.specs.Rows.{key_eq};
    ghost use Rattle.wc_nicklist.specs.declared.item.Key.{Key};

    /// No numbers. It takes no memory.
    pub(crate) fn new(alloc: Global) -> Index
        ensures { (k : Key) → id_in result k ≡ None }
    {
        Index {
            groups: IdsByName::new(alloc),
            nicks: IdsByName::new(alloc),
        }
    }

    /// The number of the row of a key.
    pub(crate) fn find(&self, is_group: bool, name: &[u8]) -> Option<RowId>
        ensures { result ≡ id_in self.now (key_at is_group name.now) }
    {
        if is_group {
            self.groups.find(name)
        } else {
            self.nicks.find(name)
        }
    }

    /// Takes the memory for one group and one nick more.
    pub(crate) fn reserve(&mut self) -> Result<(), NoMemory>
        ensures same { (k : Key) → id_in self.new k ≡ id_in self.old k }
        ensures kept { IndexHasRoom self.old → IndexHasRoom self.new }
        ensures ok { OnOk result (IndexHasRoom self.new) }
    {
        self.groups.reserve()?;
        self.nicks.reserve()
    }

    /// Notes the number of a key. It takes no memory.
    pub(crate) fn insert(&mut self, is_group: bool, name: Vec<u8>, id: RowId)
        requires { IndexHasRoom self.old }
        ensures { (k : Key) → id_in self.new k ≡ (if key_eq (key_at is_group name.items) k
            then Some id else id_in self.old k) }
    {
        if is_group {
            self.groups.insert(name, id);
        } else {
            self.nicks.insert(name, id);
        }
    }

    /// Forgets the number of a key.
    pub(crate) fn remove(&mut self, is_group: bool, name: &[u8])
        ensures { (k : Key) → id_in self.new k ≡ (if key_eq (key_at is_group name.now) k then None
            else id_in self.old k) }
    {
        if is_group {
            self.groups.remove(name);
        } else {
            self.nicks.remove(name);
        }
    }
}
