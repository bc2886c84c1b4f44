ghost use Rattle.std.specs.Prelude.{◌≡◌, IfOk};

use std::alloc::Global;
use wc_text::{Duplicate, Handle, Items, NoMemory, Text};

/// A group or a nick of a nicklist.
#[derive(Drop)]
pub struct Item {
    pub handle: Handle,
    pub is_group: bool,
    pub visible: bool,
    /// One more than the level of the parent for a group, 0 for a nick.
    pub level: u64,
    pub name: Text,
    pub color: Text,
    pub prefix: Text,
    pub prefix_color: Text,
}

/// An item and the names of the groups that it is in, from below the root to its parent.
#[derive(Drop)]
pub struct Row {
    pub path: Items<Text>,
    pub item: Item,
}

/// What tells the rows of a nicklist apart: each group has its own name, and each nick.
#[derive(Drop)]
pub struct Key {
    pub is_group: bool,
    pub name: Text,
}

impl Item {
    /// The same item in memory of its own.
    pub fn copy(&self, alloc: Global) -> Result<Item, NoMemory>
        ensures { IfOk result (λ item. item ≡ self.now) }
    {
        let name = self.name.copy(alloc)?;
        let color = self.color.copy(alloc)?;
        let prefix = self.prefix.copy(alloc)?;
        let prefix_color = self.prefix_color.copy(alloc)?;
        Ok(Item {
            handle: self.handle,
            is_group: self.is_group,
            visible: self.visible,
            level: self.level,
            name,
            color,
            prefix,
            prefix_color,
        })
    }
}

impl Row {
    /// The same row in memory of its own.
    pub fn copy(&self, alloc: Global) -> Result<Row, NoMemory>
        ensures { IfOk result (λ row. row ≡ self.now) }
    {
        let path = self.path.copy(alloc)?;
        let item = self.item.copy(alloc)?;
        Ok(Row { path, item })
    }
}

impl Key {
    /// The same key in memory of its own.
    pub fn copy(&self, alloc: Global) -> Result<Key, NoMemory>
        ensures { IfOk result (λ key. key ≡ self.now) }
    {
        let name = self.name.copy(alloc)?;
        Ok(Key {
            is_group: self.is_group,
            name,
        })
    }
}

impl Duplicate for Item {
    fn duplicate(&self, alloc: Global) -> Result<Item, NoMemory> {
        self.copy(alloc)
    }
}

impl Duplicate for Row {
    fn duplicate(&self, alloc: Global) -> Result<Row, NoMemory> {
        self.copy(alloc)
    }
}

impl Duplicate for Key {
    fn duplicate(&self, alloc: Global) -> Result<Key, NoMemory> {
        self.copy(alloc)
    }
}
