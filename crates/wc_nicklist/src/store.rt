ghost use Rattle.std.specs.Prelude.{◌≡◌, ℕ, None, Some, IsSome, OnOk, IsTrue, if◌then◌else◌};
ghost use Rattle.std.specs.Prelude.{nat_eq};
ghost use Rattle.wc_nicklist.specs.Rows.{changed_item, changed_row};
ghost use Rattle.wc_nicklist.specs.Stored.{row_at, store_has_room};
ghost use Rattle.wc_nicklist.specs.declared.item.Row.{Row as RowValue};

use crate::digest::Digest;
use crate::item::{Item, Row};
use crate::order::Address;
use crate::path::Path;
use slab::Slab;
use std::alloc::Global;
use std::marker::Model;
use wc_text::{Handle, Items, NoMemory, Text};

/// A row as a leaf keeps it: its number beside its digest, so that a leaf is short and a search in
/// it reads few rows.
#[derive(Clone, Copy)]
pub(crate) struct Entry {
    pub(crate) digest: Digest,
    pub(crate) id: RowId,
}

/// A path and an item. Contracts see the row.
#[derive(Drop)]
pub(crate) struct Stored {
    path: Path,
    item: Item,
}

/// Memory for a row.
pub(crate) type Slot = Box<Stored>;

impl Model for Stored {
    ghost use Rattle.wc_nicklist.specs.declared.item.Row.{Row};

    ghost Value = { Row };

    ghost view = { λ s. record { path = s.path; item = s.item } };
}

impl Stored {
    ghost use Rattle.std.specs.Prelude.{IfOk};

    /// The names of the groups above the row.
    pub(crate) fn path(&self) -> &[Text]
        ensures { result.now ≡ self.now.path }
    {
        self.path.as_slice()
    }

    /// The group or the nick.
    pub(crate) fn item(&self) -> &Item
        ensures { result.now ≡ self.now.item }
    {
        &self.item
    }

    /// Where the row is.
    pub(crate) fn address(&self) -> Address<'_>
        ensures path { result.path.now ≡ self.now.path }
        ensures kind { result.is_group ≡ self.now.item.is_group }
        ensures name { result.name.now ≡ self.now.item.name }
    {
        let path = self.path.as_slice();
        let is_group = self.item.is_group;
        let name = self.item.name.as_slice();
        let digest = Digest::of(path, is_group, name);
        Address {
            path,
            is_group,
            name,
            digest,
        }
    }

    /// The same names in memory of their own.
    pub(crate) fn copy_path(&self, alloc: Global) -> Result<Items<Text>, NoMemory>
        ensures { IfOk result (λ path. path ≡ self.now.path) }
    {
        self.path.copy(alloc)
    }

    /// The same row in memory of its own.
    pub(crate) fn copy(&self, alloc: Global) -> Result<Row, NoMemory>
        ensures { IfOk result (λ row. row ≡ self.now) }
    {
        let path = self.path.copy(alloc)?;
        let item = self.item.copy(alloc)?;
        Ok(Row { path, item })
    }

    /// Gives the row other fields. The kind, the name and the level stay.
    fn change(&mut self, item: Item)
        ensures { self.new ≡ changed_row self.old item }
    {
        change_item(&mut self.item, item);
    }
}

/// The kind, the name and the level stay.
fn change_item(old: &mut Item, new: Item)
    ensures { old.new ≡ changed_item old.old new }
{
    old.handle = new.handle;
    old.visible = new.visible;
    old.color = new.color;
    old.prefix = new.prefix;
    old.prefix_color = new.prefix_color;
}

/// Memory for a row that is still to come, below that path or another.
pub(crate) fn slot(alloc: Global, path: Path) -> Result<Slot, NoMemory> {
    let item = Item {
        handle: Handle(0),
        is_group: false,
        visible: false,
        level: 0,
        name: Text::new(alloc),
        color: Text::new(alloc),
        prefix: Text::new(alloc),
        prefix_color: Text::new(alloc),
    };
    match Box::new(alloc, Stored { path, item }) {
        Ok(slot) => Ok(slot),
        Err(_) => Err(NoMemory),
    }
}

/// Puts a row into memory that was taken for one.
pub(crate) fn write_row(mut slot: Slot, path: Path, item: Item) -> Slot
    ensures path { result.value.path ≡ path }
    ensures item { result.value.item ≡ item }
{
    *slot = Stored { path, item };
    slot
}

/// The group or the nick of a row alone.
pub(crate) fn into_item(slot: Slot) -> Item
    ensures { result ≡ slot.value.item }
{
    let Stored { path: _, item } = Box::into_inner(slot);
    item
}

/// The number of a row.
#[derive(Clone, Copy)]
pub(crate) struct RowId(usize);

/// Rows under numbers that they keep as long as they are there, so that what has a number reads
/// the row at once.
#[derive(Drop)]
pub(crate) struct Store {
    rows: Slab<Slot>,
}

impl Store {
    /// No rows. It takes no memory.
    pub(crate) fn new(alloc: Global) -> Store
        ensures { (n : ℕ) → row_at result n ≡ None }
    {
        Store {
            rows: Slab::new(alloc),
        }
    }

    /// Takes the memory for one number more.
    pub(crate) fn reserve(&mut self) -> Result<(), NoMemory>
        ensures same { (n : ℕ) → row_at self.new n ≡ row_at self.old n }
        ensures kept { IsTrue (store_has_room self.old) → IsTrue (store_has_room self.new) }
        ensures ok { OnOk result (IsTrue (store_has_room self.new)) }
    {
        self.rows.reserve(1)?;
        Ok(())
    }

    /// The row of a number.
    pub(crate) fn get(&self, id: RowId) -> &Stored
        requires { IsSome (row_at self.now id.0) }
        ensures { row_at self.now id.0 ≡ Some result.now }
    {
        match self.rows.get(id.0) {
            Some(row) => row,
            None => unreachable!(),
        }
    }

    /// Gives a row a number. It takes no memory.
    pub(crate) fn put(&mut self, row: Slot) -> RowId
        requires { IsTrue (store_has_room self.old) }
        ensures fresh { row_at self.old result.0 ≡ None }
        ensures after { (n : ℕ) → row_at self.new n ≡ (if nat_eq result.0 n then Some row.value
            else row_at self.old n) }
    {
        RowId(self.rows.insert_reserved(row))
    }

    /// Takes the row of a number out.
    pub(crate) fn take(&mut self, id: RowId) -> Slot
        requires { IsSome (row_at self.old id.0) }
        ensures row { row_at self.old id.0 ≡ Some result.value }
        ensures after { (n : ℕ) → row_at self.new n ≡ (if nat_eq id.0 n then None
            else row_at self.old n) }
    {
        match self.rows.try_remove(id.0) {
            Some(row) => row,
            None => unreachable!(),
        }
    }

    /// Gives the row of a number other fields. The kind, the name and the level stay.
    pub(crate) fn change(&mut self, id: RowId, item: Item)
        requires { IsSome (row_at self.old id.0) }
        ensures { (r : RowValue) → row_at self.old id.0 ≡ Some r → (n : ℕ) → row_at self.new n
            ≡ (if nat_eq id.0 n then Some (changed_row r item) else row_at self.old n) }
    {
        match self.rows.get_mut(id.0) {
            Some(row) => row.change(item),
            None => unreachable!(),
        }
    }
}
