ghost use Rattle.std.specs.Prelude.{◌≡◌, ◌==◌, ◌++◌, ◌∷◌, [], OnOk, OnErr, IfOk, position};
ghost use Rattle.wc_session.specs.Sync.{set_at, put_to, without_options, without_set};

use crate::sync_set::{BufferSet, SyncSet};
use std::alloc::Global;
use std::marker::Model;
use wc_text::{Handle, NoMemory};

/// The sets of options for single buffers, which contracts see as that list.
#[derive(Drop)]
pub struct BufferSets {
    sets: Vec<BufferSet>,
}

impl Model for BufferSets {
    ghost use Rattle.std.specs.Prelude.{List};
    ghost use Rattle.wc_session.specs.declared.sync_set.BufferSet.{BufferSet};

    ghost Value = { List BufferSet };

    ghost view = { λ s. s.sets.items };
}

impl BufferSets {
    /// No sets. It takes no memory.
    pub fn new(alloc: Global) -> BufferSets
        ensures { result ≡ [] }
    {
        BufferSets {
            sets: Vec::new(alloc),
        }
    }

    /// The same sets in memory of their own.
    pub fn copy(&self, alloc: Global) -> Result<BufferSets, NoMemory>
        ensures { IfOk result (λ sets. sets ≡ self.now) }
    {
        let sets = self.sets.as_slice().to_vec(alloc)?;
        Ok(BufferSets { sets })
    }

    /// The set for a buffer, which is empty where it has none.
    pub fn at(&self, buffer: Handle) -> SyncSet
        ensures { result ≡ set_at buffer.0 self.now }
    {
        for own in self.sets.as_slice() {
            if own.buffer.0 == buffer.0 {
                return own.set;
            }
        }
        SyncSet::none()
    }

    /// Puts options to the set of a buffer. Where it has none, a set is made after the others.
    /// Where memory is refused the sets stay as they were.
    pub fn put(&mut self, options: SyncSet, buffer: Handle) -> Result<(), NoMemory>
        ensures ok { OnOk result (self.new ≡ put_to options buffer self.old) }
        ensures err { OnErr result (self.new ≡ self.old) }
    {
        let Some(place) = place_of(self.sets.as_slice(), buffer) else {
            return self.push(BufferSet {
                buffer,
                set: options,
            });
        };
        let own = self.sets[place];
        self.sets[place] = BufferSet {
            buffer: own.buffer,
            set: own.set.union(options),
        };
        Ok(())
    }

    fn push(&mut self, own: BufferSet) -> Result<(), NoMemory>
        ensures ok { OnOk result (self.new ≡ self.old ++ own ∷ []) }
        ensures err { OnErr result (self.new ≡ self.old) }
    {
        match self.sets.push(own) {
            Ok(()) => Ok(()),
            Err(_) => Err(NoMemory),
        }
    }

    /// Takes options from the set of a buffer, where it has one.
    pub fn take(&mut self, options: SyncSet, buffer: Handle)
        ensures { self.new ≡ without_options options buffer self.old }
    {
        let Some(place) = place_of(self.sets.as_slice(), buffer) else {
            return;
        };
        let own = self.sets[place];
        self.sets[place] = BufferSet {
            buffer: own.buffer,
            set: own.set.difference(options),
        };
    }

    /// Drops the set of a buffer.
    pub fn remove(&mut self, buffer: Handle)
        ensures { self.new ≡ without_set buffer.0 self.old }
    {
        remove_from(&mut self.sets, buffer);
    }
}

/// The place of the first set for a buffer.
fn place_of(sets: &[BufferSet], buffer: Handle) -> Option<usize>
    ensures { result ≡ position (λ own. own.buffer.0 == buffer.0) sets.now }
{
    sets.iter().position(|own| own.buffer.0 == buffer.0)
}

fn remove_from(sets: &mut Vec<BufferSet>, buffer: Handle)
    ensures { sets.new.items ≡ without_set buffer.0 sets.old.items }
{
    sets.retain(|own| !(own.buffer.0 == buffer.0));
}
