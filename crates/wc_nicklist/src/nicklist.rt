ghost use Rattle.std.specs.Prelude.{[], ◌≡◌, ◌≢◌, ◌≤◌, ◌<◌, Some, None, false, OnOk};
ghost use Rattle.std.specs.Prelude.{OnErr, IfOk, IfErr, IfSome, IsSome, length, unwrap_or};
ghost use Rattle.std.specs.Prelude.{option_copied, IsOk, IsTrue, ◌↔◌, true, vec_capacity};
ghost use Rattle.wc_nicklist.specs.Calls.{name_refusal, add_refusal, remove_refusal};
ghost use Rattle.wc_nicklist.specs.Calls.{change_refusal, add_row, item_of, with_rows};
ghost use Rattle.wc_nicklist.specs.Calls.{has_children, row_under};
ghost use Rattle.wc_nicklist.specs.Order.{key_at};
ghost use Rattle.wc_nicklist.specs.Rows.{find_row, remove_row, change_row, path_below};
ghost use Rattle.wc_nicklist.specs.Rows.{below, TextsAreUtf8, IsRows, Nicks};

use crate::index::Index;
use crate::item::{Item, Key, Row};
use crate::iter::RowIter;
use crate::leaf::is_below;
use crate::name::NAME_LIMIT;
use crate::path::Path;
use crate::reasons::no_parent;
use crate::refused::NickRefused;
use crate::room::Room;
use crate::row_tree::RowTree;
use crate::store::{Stored, into_item, slot, write_row};
use std::alloc::Global;
use std::marker::Model;
use wc_text::{Handle, Items, NoMemory, Text};

/// The groups of a buffer with their nicks.
///
/// Contracts see the handle of the root group, the rows in canonical order, and the parent for
/// which room is. The order lists a group, its nicks, then its child groups, each by
/// `fold_cmp` of names, the root's own nicks first. The root is named `root` and is no row.
#[derive(Drop)]
pub struct Nicklist {
    root: Handle,
    pub(crate) rows: RowTree,
    pub(crate) index: Index,
    pub(crate) room: Option<Room>,
    /// The path of the row that came last. One that comes below the same group shares it.
    latest: Option<Path>,
}

impl Model for Nicklist {
    ghost use Rattle.wc_nicklist.specs.Rows.{Nicks};
    ghost use Rattle.wc_nicklist.specs.Kept.{parent_in, IsNicklistKept};

    ghost Value = { Nicks };

    ghost view = { λ a. record { root = a.root; rows = a.rows.rows; room = parent_in a.room } };

    ghost invariant = { λ a. IsNicklistKept a.rows a.index a.room };
}

impl Nicklist {
    ghost use Rattle.wc_nicklist.specs.Kept.{IsRoom};

    /// A nicklist without rows, whose root group has this handle.
    pub fn new(alloc: Global, root: Handle) -> Result<Nicklist, NoMemory>
        ensures { IfOk result (λ list. list ≡ record { root = root; rows = []; room = None }) }
    {
        Ok(Nicklist {
            root,
            rows: RowTree::new(alloc),
            index: Index::new(alloc),
            room: None,
            latest: None,
        })
    }

    /// The handle of the root group.
    pub fn root(&self) -> Handle
        ensures { result ≡ self.now.root }
    {
        self.root
    }

    /// The number of rows.
    pub fn count(&self) -> u64
        ensures count { result ≡ length self.now.rows }
        ensures held { IsRows self.now.rows }
    {
        self.rows.len() as u64
    }

    /// The rows in canonical order.
    pub fn rows(&self) -> RowIter<'_>
        ensures rows { result ≡ self.now.rows }
        ensures held { IsRows self.now.rows }
    {
        self.rows.iter()
    }

    /// The item of a key, where there is one.
    pub fn row(&self, key: &Key) -> Option<&Item>
        ensures { option_copied result ≡ item_of (find_row key.now self.now.rows) }
    {
        match self.stored(key.is_group, key.name.as_slice()) {
            Some(row) => Some(row.item()),
            None => None,
        }
    }

    /// A copy of the row of a key, where there is one.
    pub fn row_of(&self, alloc: Global, key: &Key) -> Result<Option<Row>, NoMemory>
        ensures row { IfOk result (λ row. row ≡ find_row key.now self.now.rows) }
        ensures held { IsRows self.now.rows }
    {
        match self.stored(key.is_group, key.name.as_slice()) {
            Some(row) => Ok(Some(row.copy(alloc)?)),
            None => Ok(None),
        }
    }

    pub(crate) fn stored(&self, is_group: bool, name: &[u8]) -> Option<&Stored>
        ensures row { option_copied result ≡ find_row (key_at is_group name.now) self.now.rows }
        ensures held { IsRows self.now.rows }
    {
        let id = self.index.find(is_group, name)?;
        Some(self.rows.get(id))
    }

    /// Adds a group below a parent, which is a group's name or `root`. Its level is its parent's
    /// plus 1. A refusal changes nothing: `IsRoot`, `BadName`, `NoParent`, `NameTaken`, in this
    /// order.
    pub fn add_group(
        &mut self,
        alloc: Global,
        parent: &Text,
        group: Item,
    ) -> Result<(), NickRefused>
        requires { TextsAreUtf8 group }
        ensures accepted { OnOk result
            (add_refusal true parent.now group.name self.old.rows ≡ None) }
        ensures after { OnOk result
            (self.new ≡ with_rows (add_row true parent.now group self.old.rows) self.old) }
        ensures refused { IfErr result (λ e. e ≢ NickRefused.NoMemory →
            add_refusal true parent.now group.name self.old.rows ≡ Some e) }
        ensures err { OnErr result (self.new ≡ self.old) }
        ensures room { self.old.room ≡ Some parent.now → result ≢ Err NickRefused.NoMemory }
    {
        self.add(alloc, true, parent, group)
    }

    /// Adds a nick to a group, which is a group's name or `root`. Its level is 0. A refusal changes
    /// nothing: `BadName`, `NoParent`, `NameTaken`, in this order.
    pub fn add_nick(&mut self, alloc: Global, group: &Text, nick: Item) -> Result<(), NickRefused>
        requires { TextsAreUtf8 nick }
        ensures accepted { OnOk result
            (add_refusal false group.now nick.name self.old.rows ≡ None) }
        ensures after { OnOk result
            (self.new ≡ with_rows (add_row false group.now nick self.old.rows) self.old) }
        ensures refused { IfErr result (λ e. e ≢ NickRefused.NoMemory →
            add_refusal false group.now nick.name self.old.rows ≡ Some e) }
        ensures err { OnErr result (self.new ≡ self.old) }
        ensures room { self.old.room ≡ Some group.now → result ≢ Err NickRefused.NoMemory }
    {
        self.add(alloc, false, group, nick)
    }

    fn add(
        &mut self,
        alloc: Global,
        is_group: bool,
        parent: &Text,
        item: Item,
    ) -> Result<(), NickRefused>
        requires { TextsAreUtf8 item }
        ensures accepted { OnOk result
            (add_refusal is_group parent.now item.name self.old.rows ≡ None) }
        ensures after { OnOk result
            (self.new ≡ with_rows (add_row is_group parent.now item self.old.rows) self.old) }
        ensures refused { IfErr result (λ e. e ≢ NickRefused.NoMemory →
            add_refusal is_group parent.now item.name self.old.rows ≡ Some e) }
        ensures err { OnErr result (self.new ≡ self.old) }
        ensures room { self.old.room ≡ Some parent.now → result ≢ Err NickRefused.NoMemory }
    {
        if let Some(refused) = self.add_refusal(alloc, is_group, parent, item.name.as_slice()) {
            return Err(refused);
        }
        match self.prepare(alloc, parent) {
            Ok(()) => {
                self.put(is_group, item);
                Ok(())
            }
            Err(NoMemory) => Err(NickRefused::NoMemory),
        }
    }

    /// Takes the memory for one row more below a parent, so that adding one there does not answer
    /// `NoMemory` until the next change. A refusal changes nothing: `NoParent`.
    pub fn make_room(&mut self, alloc: Global, parent: &Text) -> Result<(), NickRefused>
        ensures accepted { OnOk result (IsSome (path_below parent.now self.old.rows)) }
        ensures after { OnOk result (self.new ≡ record {
          root = self.old.root;
          rows = self.old.rows;
          room = Some parent.now;
        }) }
        ensures refused { IfErr result (λ e. e ≢ NickRefused.NoMemory →
            (path_below parent.now self.old.rows ≡ None) × (e ≡ NickRefused.NoParent parent.now)) }
        ensures err { OnErr result (self.new ≡ self.old) }
    {
        if !self.has_parent(parent.as_slice()) {
            return Err(no_parent(alloc, parent));
        }
        match self.prepare(alloc, parent) {
            Ok(()) => Ok(()),
            Err(NoMemory) => Err(NickRefused::NoMemory),
        }
    }

    fn prepare(&mut self, alloc: Global, parent: &Text) -> Result<(), NoMemory>
        requires { IsSome (path_below parent.now self.old.rows) }
        ensures ok { OnOk result (self.new ≡ record {
          root = self.old.root;
          rows = self.old.rows;
          room = Some parent.now;
        }) }
        ensures err { OnErr result (self.new ≡ self.old) }
        ensures ready { self.old.room ≡ Some parent.now → IsOk result }
    {
        if self.has_room_for(parent) {
            return Ok(());
        }
        let room = self.room_below(alloc, parent)?;
        self.rows.reserve()?;
        self.index.reserve()?;
        self.room = Some(room);
        Ok(())
    }

    fn has_room_for(&self, parent: &Text) -> bool
        ensures { IsTrue result ↔ (self.now.room ≡ Some parent.now) }
    {
        match &self.room {
            Some(room) => room.parent.as_slice() == parent.as_slice(),
            None => false,
        }
    }

    fn room_below(&mut self, alloc: Global, parent: &Text) -> Result<Room, NoMemory>
        requires { IsSome (path_below parent.now self.old.rows) }
        ensures path { IfOk result (λ r. path_below r.parent self.old.rows ≡ Some r.path) }
        ensures parent { IfOk result (λ r. r.parent ≡ parent.now) }
        ensures parts { IfOk result IsRoom }
        ensures same { self.new ≡ self.old }
    {
        let path = self.below(alloc, parent.as_slice())?;
        let name = Vec::with_capacity(alloc, NAME_LIMIT)?;
        let slot = slot(alloc, path.share()?)?;
        let parent = parent.copy(alloc)?;
        Ok(Room {
            parent,
            path,
            name,
            slot,
        })
    }

    /// The path of what is right below a parent, which rows of it share.
    fn below(&mut self, alloc: Global, parent: &[u8]) -> Result<Path, NoMemory>
        requires { IsSome (path_below parent.now self.old.rows) }
        ensures path { IfOk result (λ path. path_below parent.now self.old.rows ≡ Some path) }
        ensures same { self.new ≡ self.old }
    {
        if let Some(path) = self.latest_below(parent) {
            return path.share();
        }
        let names = self.names_below(alloc, parent)?;
        let path = Path::new(alloc, names)?;
        self.latest = Some(path.share()?);
        Ok(path)
    }

    /// The path of the row that came last, where it is that of what is right below a parent.
    fn latest_below(&self, parent: &[u8]) -> Option<&Path>
        requires { IsSome (path_below parent.now self.now.rows) }
        ensures { IfSome result (λ path. path_below parent.now self.now.rows ≡ Some path.now) }
    {
        let latest = self.latest.as_ref()?;
        if self.leads_below(latest.as_slice(), parent) {
            Some(latest)
        } else {
            None
        }
    }

    /// Whether a path is that of what is right below a parent.
    fn leads_below(&self, path: &[Text], parent: &[u8]) -> bool
        requires { IsSome (path_below parent.now self.now.rows) }
        ensures { IsTrue result → path_below parent.now self.now.rows ≡ Some path.now }
    {
        match self.stored(true, parent) {
            Some(above) => is_below(path, above.path(), parent),
            None => path.is_empty(),
        }
    }

    fn names_below(&self, alloc: Global, parent: &[u8]) -> Result<Items<Text>, NoMemory>
        requires { IsSome (path_below parent.now self.now.rows) }
        ensures { IfOk result (λ path. path_below parent.now self.now.rows ≡ Some path) }
    {
        let Some(above) = self.stored(true, parent) else {
            return Ok(Items::new(alloc));
        };
        let mut path = above.copy_path(alloc)?;
        let name = Text::from_slice(alloc, parent)?;
        path.push(name)?;
        Ok(path)
    }

    /// Puts an item where room was made for it. It takes no memory.
    fn put(&mut self, is_group: bool, item: Item)
        requires room { IsSome self.old.room }
        requires absent { find_row (key_at is_group item.name) self.old.rows ≡ None }
        requires named { name_refusal is_group item.name ≡ None }
        requires utf8 { TextsAreUtf8 item }
        ensures { self.new ≡ with_rows
            (add_row is_group (unwrap_or self.old.room []) item self.old.rows) self.old }
    {
        let Some(room) = self.room.take() else {
            unreachable!()
        };
        let Room {
            parent: _,
            path,
            name,
            slot,
        } = room;
        let name = filled(name, item.name.as_slice());
        let item = placed(is_group, path.as_slice(), item);
        let id = self.rows.insert(write_row(slot, path, item));
        self.index.insert(is_group, name, id);
    }

    /// Takes a group out that has no nicks and no groups. A refusal changes nothing: `IsRoot`,
    /// `BadName`, `NoSuch`, `NotEmpty`, in this order.
    pub fn remove_group(&mut self, name: &Text) -> Result<Item, NickRefused>
        ensures accepted { OnOk result (remove_refusal true name.now self.old.rows ≡ None) }
        ensures item { IfOk result (λ item. item_of (find_row (key_at true name.now) self.old.rows)
            ≡ Some item) }
        ensures after { OnOk result
            (self.new ≡ with_rows (remove_row (key_at true name.now) self.old.rows) self.old) }
        ensures refused { IfErr result (λ e. remove_refusal true name.now self.old.rows ≡ Some e) }
        ensures err { OnErr result (self.new ≡ self.old) }
    {
        self.remove(true, name.as_slice())
    }

    /// Takes a nick out. A refusal changes nothing: `BadName`, `NoSuch`, in this order.
    pub fn remove_nick(&mut self, name: &Text) -> Result<Item, NickRefused>
        ensures accepted { OnOk result (remove_refusal false name.now self.old.rows ≡ None) }
        ensures item { IfOk result (λ item. item_of (find_row (key_at false name.now) self.old.rows)
            ≡ Some item) }
        ensures after { OnOk result
            (self.new ≡ with_rows (remove_row (key_at false name.now) self.old.rows) self.old) }
        ensures refused { IfErr result (λ e. remove_refusal false name.now self.old.rows ≡ Some e) }
        ensures err { OnErr result (self.new ≡ self.old) }
    {
        self.remove(false, name.as_slice())
    }

    fn remove(&mut self, is_group: bool, name: &[u8]) -> Result<Item, NickRefused>
        ensures accepted { OnOk result (remove_refusal is_group name.now self.old.rows ≡ None) }
        ensures item { IfOk result
            (λ item. item_of (find_row (key_at is_group name.now) self.old.rows) ≡ Some item) }
        ensures after { OnOk result
            (self.new ≡ with_rows (remove_row (key_at is_group name.now) self.old.rows) self.old) }
        ensures refused { IfErr result (λ e. remove_refusal is_group name.now self.old.rows
            ≡ Some e) }
        ensures err { OnErr result (self.new ≡ self.old) }
    {
        if let Some(refused) = self.remove_refusal(is_group, name) {
            return Err(refused);
        }
        Ok(self.take(is_group, name))
    }

    /// Takes a row out that is there and has no children.
    fn take(&mut self, is_group: bool, name: &[u8]) -> Item
        requires stands { IsSome (find_row (key_at is_group name.now) self.old.rows) }
        requires childless { is_group ≡ true →
            has_children (find_row (key_at is_group name.now) self.old.rows) self.old.rows ≡ false }
        ensures item { item_of (find_row (key_at is_group name.now) self.old.rows) ≡ Some result }
        ensures after { self.new
            ≡ with_rows (remove_row (key_at is_group name.now) self.old.rows) self.old }
    {
        let Some(id) = self.index.find(is_group, name) else {
            unreachable!()
        };
        let row = self.rows.remove(id);
        self.index.remove(is_group, name);
        self.room = None;
        into_item(row)
    }

    /// Gives the group of the item's name its other fields, but for the level. A refusal changes
    /// nothing: `IsRoot`, `BadName`, `NoSuch`, in this order.
    pub fn change_group(&mut self, item: Item) -> Result<(), NickRefused>
        requires { TextsAreUtf8 item }
        ensures accepted { OnOk result (change_refusal true item.name self.old.rows ≡ None) }
        ensures after { OnOk result
            (self.new ≡ with_rows (change_row (key_at true item.name) item self.old.rows)
            self.old) }
        ensures refused { IfErr result (λ e. change_refusal true item.name self.old.rows ≡ Some e) }
        ensures err { OnErr result (self.new ≡ self.old) }
    {
        self.change(true, item)
    }

    /// Gives the nick of the item's name its other fields, but for the level. A refusal changes
    /// nothing: `BadName`, `NoSuch`, in this order.
    pub fn change_nick(&mut self, item: Item) -> Result<(), NickRefused>
        requires { TextsAreUtf8 item }
        ensures accepted { OnOk result (change_refusal false item.name self.old.rows ≡ None) }
        ensures after { OnOk result
            (self.new ≡ with_rows (change_row (key_at false item.name) item self.old.rows)
            self.old) }
        ensures refused { IfErr result (λ e. change_refusal false item.name self.old.rows
            ≡ Some e) }
        ensures err { OnErr result (self.new ≡ self.old) }
    {
        self.change(false, item)
    }

    fn change(&mut self, is_group: bool, item: Item) -> Result<(), NickRefused>
        requires { TextsAreUtf8 item }
        ensures accepted { OnOk result (change_refusal is_group item.name self.old.rows ≡ None) }
        ensures after { OnOk result
            (self.new ≡ with_rows (change_row (key_at is_group item.name) item self.old.rows)
            self.old) }
        ensures refused { IfErr result (λ e. change_refusal is_group item.name self.old.rows
            ≡ Some e) }
        ensures err { OnErr result (self.new ≡ self.old) }
    {
        if let Some(refused) = self.change_refusal(is_group, item.name.as_slice()) {
            return Err(refused);
        }
        self.write(is_group, item);
        Ok(())
    }

    /// Gives an item that is there other fields.
    fn write(&mut self, is_group: bool, item: Item)
        requires stands { IsSome (find_row (key_at is_group item.name) self.old.rows) }
        requires utf8 { TextsAreUtf8 item }
        ensures { self.new ≡ with_rows
            (change_row (key_at is_group item.name) item self.old.rows) self.old }
    {
        let Some(id) = self.index.find(is_group, item.name.as_slice()) else {
            unreachable!()
        };
        self.rows.change(id, item);
        self.room = None;
    }
}

/// The name in memory that was taken for it.
fn filled(mut spare: Vec<u8>, name: &[u8]) -> Vec<u8>
    requires empty { spare.items ≡ [] }
    requires fits { length name.now ≤ vec_capacity spare }
    ensures { result.items ≡ name.now }
{
    let Ok(()) = spare.extend_from_slice(name) else {
        unreachable!()
    };
    spare
}

/// An item below this path, with the kind and the level that it then has.
fn placed(is_group: bool, path: &[Text], item: Item) -> Item
    ensures { (row_under is_group path.now item).item ≡ result }
{
    let level = if is_group { path.len() as u64 + 1 } else { 0 };
    Item {
        is_group,
        level,
        ..item
    }
}
