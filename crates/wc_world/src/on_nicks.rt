ghost use Rattle.std.specs.Prelude.{◌≡◌, ◌≢◌, IfOk, IsSome, OnOk, OnErr, Some, None};
ghost use Rattle.wc_model.specs.Apply.{adds_row, removes_row, changes_row, handle_in, item_with};
ghost use Rattle.wc_model.specs.Notices.{Outcome};
ghost use Rattle.wc_model.specs.Touches.{touched_by};
ghost use Rattle.wc_model.specs.declared.refused.ChangeRefused.{ChangeRefused as ChangeRefusedValue};
ghost use Rattle.wc_nicklist.specs.Order.{key_at};
ghost use Rattle.wc_nicklist.specs.Rows.{find_row, TextsAreUtf8};
ghost use Rattle.wc_nicklist.specs.Touched.{first_touch};
ghost use Rattle.wc_nicklist.specs.declared.item.Key.{Key as KeyValue};
ghost use Rattle.wc_text.specs.declared.names.Handle.{Handle as HandleValue};
ghost use Rattle.wc_world.specs.Nicks.{add_of, remove_of, change_of_rows, refused_by_nicks};
ghost use Rattle.wc_world.specs.Nicks.{list_at, with_room, IsListChangedAt, AreSameRows};

use crate::nick_item::{handle_at, item_with, key_at};
use crate::nicks::{self, Lists};
use crate::noticed::{name_of, no_buffer, told};
use crate::world::{LAST_HANDLE, ROW_LIMIT, World};
use std::alloc::Global;
use wc_model::{ChangeRefused, EventKind, Notice};
use wc_nicklist::{Item, Key, NickRefused, Nicklist, Touch};
use wc_text::{Handle, NoMemory, Text};

/// The refusal of a change that a nicklist refused.
fn refused_by(refused: NickRefused) -> ChangeRefused
    ensures { result ≡ refused_by_nicks refused }
{
    match refused {
        NickRefused::NoMemory => ChangeRefused::NoMemory,
        refused => ChangeRefused::Nick(refused),
    }
}

/// Touches a key with the row that is there. A touch takes the last memory of a change, so nothing
/// is told of one that is not made.
fn touch_row<T: Touch>(
    list: &Nicklist,
    alloc: Global,
    h: Handle,
    key: &Key,
    touch: &mut T,
) -> Result<(), NoMemory>
    ensures ok { OnOk result ((b : HandleValue) (k : KeyValue) → T.first touch.new b k
        ≡ first_touch h key.now (find_row key.now list.now.rows) (T.first touch.old) b k) }
    ensures err { OnErr result ((b : HandleValue) (k : KeyValue) → T.first touch.new b k
        ≡ T.first touch.old b k) }
{
    let row = list.row_of(alloc, key)?;
    touch.touch(h, key, row)
}

/// The item with the handle of the row of its name, which is touched.
fn touch_item<T: Touch>(
    list: &Nicklist,
    alloc: Global,
    h: Handle,
    is_group: bool,
    item: Item,
    touch: &mut T,
) -> Result<Item, NoMemory>
    requires { TextsAreUtf8 item }
    ensures item { IfOk result (λ cut. cut
        ≡ item_with (handle_in (find_row (key_at is_group item.name) list.now.rows)) item) }
    ensures ok { OnOk result ((b : HandleValue) (k : KeyValue) → T.first touch.new b k
        ≡ first_touch h (key_at is_group item.name)
        (find_row (key_at is_group item.name) list.now.rows) (T.first touch.old) b k) }
    ensures err { OnErr result ((b : HandleValue) (k : KeyValue) → T.first touch.new b k
        ≡ T.first touch.old b k) }
{
    let Ok(key) = key_at(alloc, is_group, &item.name) else {
        drop(item);
        return Err(NoMemory);
    };
    let item = item_with(alloc, handle_at(list, &key), item)?;
    let Ok(()) = touch_row(list, alloc, h, &key, touch) else {
        drop(item);
        return Err(NoMemory);
    };
    Ok(item)
}

/// Makes room below a parent for an item of this name, and touches its key, where no row is.
fn touch_room<T: Touch>(
    lists: &mut Lists,
    alloc: Global,
    h: Handle,
    is_group: bool,
    parent: &Text,
    name: &Text,
    touch: &mut T,
) -> Result<(), NoMemory>
    requires { IsSome (list_at lists.old h.0) }
    ensures room { OnOk result (IsListChangedAt h.0 (with_room parent.now) lists.old lists.new) }
    ensures same { OnErr result (AreSameRows lists.old lists.new) }
    ensures ok { OnOk result ((b : HandleValue) (k : KeyValue) → T.first touch.new b k
        ≡ first_touch h (key_at is_group name.now) None (T.first touch.old) b k) }
    ensures err { OnErr result ((b : HandleValue) (k : KeyValue) → T.first touch.new b k
        ≡ T.first touch.old b k) }
{
    let key = key_at(alloc, is_group, name)?;
    nicks::make_room(lists, alloc, h, parent)?;
    touch.touch(h, &key, None)
}

impl World {
    /// Why a group or a nick can't be added below a parent.
    fn add_refusal(
        &self,
        alloc: Global,
        h: Handle,
        is_group: bool,
        parent: &Text,
        item: &Item,
    ) -> Option<ChangeRefused>
        ensures { result ≢ Some ChangeRefusedValue.NoMemory →
            result ≡ adds_row self.now h is_group parent.now item.now }
    {
        if let Some(refused) = no_buffer(&self.buffers, h) {
            return Some(ChangeRefused::Buffer(refused));
        }
        let list = nicks::at(&self.nicks, h);
        if let Some(refused) = list.add_refusal(alloc, is_group, parent, item.name.as_slice()) {
            return Some(refused_by(refused));
        }
        if self.row_count >= ROW_LIMIT {
            return Some(ChangeRefused::TooManyRows { limit: ROW_LIMIT });
        }
        if self.next > LAST_HANDLE {
            return Some(ChangeRefused::Spent);
        }
        None
    }

    /// A group or a nick more below a group. It draws its handle.
    pub(crate) fn add_row<T: Touch>(
        &mut self,
        alloc: Global,
        h: Handle,
        is_group: bool,
        parent: &Text,
        item: Item,
        touch: &mut T,
    ) -> Result<Notice, ChangeRefused>
        requires { TextsAreUtf8 item }
        ensures outcome { Outcome self.old
            (record { buffer = h; what = add_of is_group parent.now item }) self.new result }
        ensures touched { OnOk result ((b : HandleValue) (k : KeyValue) → T.first touch.new b k
            ≡ touched_by self.old h (add_of is_group parent.now item) (T.first touch.old) b k) }
        ensures untouched { OnErr result ((b : HandleValue) (k : KeyValue) → T.first touch.new b k
            ≡ T.first touch.old b k) }
    {
        if let Some(refused) = self.add_refusal(alloc, h, is_group, parent, &item) {
            drop(item);
            return Err(refused);
        }
        let Ok(full_name) = name_of(&self.buffers, alloc, h) else {
            drop(item);
            return Err(ChangeRefused::NoMemory);
        };
        let Ok(item) = item_with(alloc, Handle(self.next), item) else {
            drop(full_name);
            return Err(ChangeRefused::NoMemory);
        };
        let lists = &mut self.nicks;
        let Ok(()) = touch_room(lists, alloc, h, is_group, parent, &item.name, touch) else {
            drop(full_name);
            drop(item);
            return Err(ChangeRefused::NoMemory);
        };
        nicks::put(&mut self.nicks, alloc, h, is_group, parent, item);
        self.next += 1;
        self.row_count += 1;
        Ok(told(&self.buffers, alloc, EventKind::NickTouched, h, full_name))
    }

    /// Why a group or a nick can't be taken out.
    fn remove_refusal(&self, h: Handle, is_group: bool, name: &Text) -> Option<ChangeRefused>
        ensures { result ≡ removes_row self.now h is_group name.now }
    {
        if let Some(refused) = no_buffer(&self.buffers, h) {
            return Some(ChangeRefused::Buffer(refused));
        }
        match nicks::at(&self.nicks, h).remove_refusal(is_group, name.as_slice()) {
            Some(refused) => Some(ChangeRefused::Nick(refused)),
            None => None,
        }
    }

    /// A group without nicks and groups goes, or a nick.
    pub(crate) fn remove_row<T: Touch>(
        &mut self,
        alloc: Global,
        h: Handle,
        is_group: bool,
        name: Text,
        touch: &mut T,
    ) -> Result<Notice, ChangeRefused>
        ensures outcome { Outcome self.old (record { buffer = h; what = remove_of is_group name })
            self.new result }
        ensures touched { OnOk result ((b : HandleValue) (k : KeyValue) → T.first touch.new b k
            ≡ touched_by self.old h (remove_of is_group name) (T.first touch.old) b k) }
        ensures untouched { OnErr result ((b : HandleValue) (k : KeyValue) → T.first touch.new b k
            ≡ T.first touch.old b k) }
    {
        if let Some(refused) = self.remove_refusal(h, is_group, &name) {
            drop(name);
            return Err(refused);
        }
        let Ok(full_name) = name_of(&self.buffers, alloc, h) else {
            drop(name);
            return Err(ChangeRefused::NoMemory);
        };
        let key = Key { is_group, name };
        let Ok(()) = touch_row(nicks::at(&self.nicks, h), alloc, h, &key, touch) else {
            drop(full_name);
            drop(key);
            return Err(ChangeRefused::NoMemory);
        };
        nicks::take(&mut self.nicks, h, &key);
        self.row_count -= 1;
        drop(key);
        Ok(told(&self.buffers, alloc, EventKind::NickTouched, h, full_name))
    }

    /// Why a group or a nick can't be changed.
    fn change_refusal(&self, h: Handle, is_group: bool, item: &Item) -> Option<ChangeRefused>
        ensures { result ≡ changes_row self.now h is_group item.now }
    {
        if let Some(refused) = no_buffer(&self.buffers, h) {
            return Some(ChangeRefused::Buffer(refused));
        }
        match nicks::at(&self.nicks, h).change_refusal(is_group, item.name.as_slice()) {
            Some(refused) => Some(ChangeRefused::Nick(refused)),
            None => None,
        }
    }

    /// The group or the nick of the item's name gets its other fields, but for the handle.
    pub(crate) fn change_row<T: Touch>(
        &mut self,
        alloc: Global,
        h: Handle,
        is_group: bool,
        item: Item,
        touch: &mut T,
    ) -> Result<Notice, ChangeRefused>
        requires { TextsAreUtf8 item }
        ensures outcome { Outcome self.old
            (record { buffer = h; what = change_of_rows is_group item }) self.new result }
        ensures touched { OnOk result ((b : HandleValue) (k : KeyValue) → T.first touch.new b k
            ≡ touched_by self.old h (change_of_rows is_group item) (T.first touch.old) b k) }
        ensures untouched { OnErr result ((b : HandleValue) (k : KeyValue) → T.first touch.new b k
            ≡ T.first touch.old b k) }
    {
        if let Some(refused) = self.change_refusal(h, is_group, &item) {
            drop(item);
            return Err(refused);
        }
        let Ok(full_name) = name_of(&self.buffers, alloc, h) else {
            drop(item);
            return Err(ChangeRefused::NoMemory);
        };
        let item = touch_item(nicks::at(&self.nicks, h), alloc, h, is_group, item, touch)?;
        nicks::write(&mut self.nicks, h, is_group, item);
        Ok(told(&self.buffers, alloc, EventKind::NickTouched, h, full_name))
    }
}
