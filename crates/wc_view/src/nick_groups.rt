//! The groups and nicks that are told of each buffer.

ghost use Rattle.std.specs.Prelude.{◌≡◌, ◌<◌, ◌++◌, ◌∷◌, [], None, length, IfSome, IfNone, IfOk};
ghost use Rattle.std.specs.Prelude.{OnOk};
ghost use Rattle.std.specs.FinMap.{find};
ghost use Rattle.std.specs.Ordering.{nat_cmp};
ghost use Rattle.wc_view.specs.Entries.{IsEntry};
ghost use Rattle.wc_view.specs.NickGroups.{with_item, by_buffer};

use crate::nick_rows::NickRow;
use std::alloc::Global;
use std::marker::Model;
use wc_nicklist::Item;
use wc_text::NoMemory;

/// A buffer's handle and the items that are told of it, in order.
#[derive(Drop)]
pub(crate) struct BufferItems {
    pub buffer: u64,
    pub items: Vec<Item>,
}

impl Model for BufferItems {
    ghost use Rattle.wc_view.specs.NickGroups.{Group};

    ghost Value = { Group };

    ghost view = { λ b. (b.buffer, b.items.items) };
}

impl BufferItems {
    fn new(alloc: Global, row: NickRow) -> Result<BufferItems, NoMemory>
        ensures { IfOk result (λ group. group ≡ (row.buffer, row.item ∷ [])) }
    {
        let mut items = Vec::new(alloc);
        match items.push(row.item) {
            Ok(()) => Ok(BufferItems {
                buffer: row.buffer,
                items,
            }),
            Err(_) => Err(NoMemory),
        }
    }

    fn buffer(&self) -> u64
        ensures { result ≡ self.now.0 }
    {
        self.buffer
    }

    fn push(&mut self, item: Item) -> Result<(), NoMemory>
        ensures { OnOk result (self.new ≡ (self.old.0, self.old.1 ++ item ∷ [])) }
    {
        match self.items.push(item) {
            Ok(()) => Ok(()),
            Err(_) => Err(NoMemory),
        }
    }

    /// The buffer and its items.
    pub(crate) fn parts(self) -> (u64, Vec<Item>)
        ensures buffer { result.0 ≡ self.0 }
        ensures items { result.1.items ≡ self.1 }
    {
        (self.buffer, self.items)
    }
}

#[tactic(auto, using(crate::proofs::EntryLemmas::find_more))]
fn place_of(groups: &[BufferItems], buffer: u64) -> Option<usize>
    ensures some { IfSome result (λ i. (i < length groups.now) × IsEntry buffer i groups.now) }
    ensures none { IfNone result (find nat_cmp buffer groups.now ≡ None) }
{
    for i in 0..groups.len() {
        if groups[i].buffer() == buffer {
            return Some(i);
        }
    }
    None
}

/// Puts an item after the others of its buffer.
#[tactic(auto, using(crate::proofs::NickGroups::item_at, crate::proofs::NickGroups::item_new))]
fn add_item(groups: &mut Vec<BufferItems>, alloc: Global, row: NickRow) -> Result<(), NoMemory>
    ensures { OnOk result (groups.new.items ≡ with_item groups.old.items row) }
{
    match place_of(groups.as_slice(), row.buffer) {
        Some(place) => groups[place].push(row.item),
        None => match groups.push(BufferItems::new(alloc, row)?) {
            Ok(()) => Ok(()),
            Err(_) => Err(NoMemory),
        },
    }
}

/// The items of each buffer, the buffers in the order of their first rows.
pub(crate) fn by_buffer(alloc: Global, rows: Vec<NickRow>) -> Result<Vec<BufferItems>, NoMemory>
    ensures { IfOk result (λ groups. groups.items ≡ by_buffer rows.items) }
{
    let mut groups = Vec::new(alloc);
    for row in rows {
        add_item(&mut groups, alloc, row)?;
    }
    Ok(groups)
}
