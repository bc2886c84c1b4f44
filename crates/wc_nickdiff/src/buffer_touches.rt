ghost use Rattle.std.specs.Prelude.{◌≡◌, ◌==◌, ◌<◌, ◌++◌, ◌∷◌, [], Some, IfOk, OnOk, OnErr};
ghost use Rattle.std.specs.Prelude.{if◌then◌else◌, length, option_copied, vec_len, vec_capacity};
ghost use Rattle.wc_nicklist.specs.declared.item.Key.{Key as KeyValue};
ghost use Rattle.wc_nicklist.specs.Order.{key_at};
ghost use Rattle.wc_nicklist.specs.Rows.{key_eq};
ghost use Rattle.wc_nickdiff.specs.Held.{before_at, with_touch, EachOnce};
ghost use Rattle.wc_nickdiff.specs.Index.{place_in, HasTouchRoom};

use crate::diff_item::FirstTouch;
use crate::index::{Index, bytes_of};
use std::alloc::Global;
use std::marker::Model;
use wc_nicklist::{Key, Row};
use wc_text::{Handle, NoMemory};

/// The keys of a buffer's nicklist that were touched, in the order of their first touches.
#[derive(Drop)]
pub(crate) struct BufferTouches {
    buffer: Handle,
    touches: Vec<FirstTouch>,
    index: Index,
}

impl Model for BufferTouches {
    ghost use Rattle.wc_nickdiff.specs.Held.{OfBuffer, EachOnce};
    ghost use Rattle.wc_nickdiff.specs.Index.{IndexesTouches};

    ghost Value = { OfBuffer };

    ghost view = { λ a. record { buffer = a.buffer; touches = a.touches.items } };

    ghost invariant = { λ a. record {
      once : EachOnce a.touches.items;
      indexed : IndexesTouches a.touches.items a.index;
    } };
}

impl BufferTouches {
    /// No touches of a buffer. It takes no memory.
    pub(crate) fn new(alloc: Global, buffer: Handle) -> BufferTouches
        ensures { result ≡ record { buffer = buffer; touches = [] } }
    {
        BufferTouches {
            buffer,
            touches: Vec::new(alloc),
            index: Index::new(alloc),
        }
    }

    /// Whether they are those of that buffer.
    pub(crate) fn is_of(&self, buffer: Handle) -> bool
        ensures { result ≡ (self.now.buffer.0 == buffer.0) }
    {
        self.buffer.0 == buffer.0
    }

    /// The touches.
    pub(crate) fn as_slice(&self) -> &[FirstTouch]
        ensures touches { result.now ≡ self.now.touches }
        ensures once { EachOnce self.now.touches }
    {
        let _ = &self.index;
        self.touches.as_slice()
    }

    /// What was at the first touch of a key, where it was touched.
    pub(crate) fn before(&self, is_group: bool, name: &[u8]) -> Option<&Option<Row>>
        ensures { option_copied result ≡ before_at (key_at is_group name.now) self.now.touches }
    {
        match self.index.find(is_group, name) {
            Some(place) => Some(&self.touches[place].before),
            None => None,
        }
    }

    /// Notes the row that is under a key, where it is the key's first touch. Where memory is
    /// refused nothing is noted.
    pub(crate) fn touch(
        &mut self,
        alloc: Global,
        key: &Key,
        before: Option<Row>,
    ) -> Result<(), NoMemory>
        ensures ok { OnOk result (self.new ≡ record {
          buffer = self.old.buffer;
          touches = with_touch key.now before self.old.touches;
        }) }
        ensures err { OnErr result (self.new ≡ self.old) }
    {
        if self.index.find(key.is_group, key.name.as_slice()).is_some() {
            drop(before);
            return Ok(());
        }
        let Ok((key, name)) = reserve(alloc, &mut self.touches, &mut self.index, key) else {
            drop(before);
            return Err(NoMemory);
        };
        put(
            &mut self.touches,
            &mut self.index,
            name,
            FirstTouch { key, before },
        );
        Ok(())
    }
}

/// Takes the memory for one touch more, and copies its key and the bytes of its name.
fn reserve(
    alloc: Global,
    touches: &mut Vec<FirstTouch>,
    index: &mut Index,
    key: &Key,
) -> Result<(Key, Vec<u8>), NoMemory>
    ensures touches { touches.new.items ≡ touches.old.items }
    ensures places { (k : KeyValue) → place_in index.new k ≡ place_in index.old k }
    ensures room { OnOk result (vec_len touches.new < vec_capacity touches.new) }
    ensures index_room { OnOk result (HasTouchRoom index.new) }
    ensures key { IfOk result (λ copies. copies.0 ≡ key.now) }
    ensures name { IfOk result (λ copies. copies.1.items ≡ key.now.name) }
{
    index.reserve()?;
    touches.reserve(1)?;
    let name = bytes_of(alloc, key.name.as_slice())?;
    Ok((key.copy(alloc)?, name))
}

/// Puts a touch after the others, and notes its place. It takes no memory.
fn put(touches: &mut Vec<FirstTouch>, index: &mut Index, name: Vec<u8>, touch: FirstTouch)
    requires room { vec_len touches.old < vec_capacity touches.old }
    requires index_room { HasTouchRoom index.old }
    requires named { name.items ≡ touch.key.name }
    ensures touches { touches.new.items ≡ touches.old.items ++ touch ∷ [] }
    ensures places { (k : KeyValue) → place_in index.new k ≡ (if key_eq touch.key k
        then Some (length touches.old.items) else place_in index.old k) }
{
    index.insert(touch.key.is_group, name, touches.len());
    touches.push_reserved(touch);
}
