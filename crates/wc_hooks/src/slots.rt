//! The entries that are filed, in the order of kinds, keys and priorities.
ghost use Rattle.std.specs.Prelude.{◌≡◌, ◌≤◌, ◌<◌, ◌+◌, ◌^◌, ◌&&◌, length, map, filter};
ghost use Rattle.std.specs.Prelude.{insert, IfOk, OnErr, true, []};
ghost use Rattle.std.specs.List.{slice_index_or, list_any};
ghost use Rattle.wc_hooks.specs.Ranks.{put_by, falls_by};
ghost use Rattle.wc_hooks.specs.Slots.{slot_rank, is_slot, is_live, live_relays, live_others};
ghost use Rattle.wc_hooks.specs.Slots.{with_slot_switch, left_slots, with_opening, Walked, IsRange};

use crate::cursor::Cursor;
use crate::entry::{Entry, HookId};
use crate::kind::HookKind;
use crate::slot::Slot;
use crate::steps::Steps;
use std::alloc::Global;
use std::marker::Model;
use std::sync::ledger::Ledger;
use wc_text::{NoMemory, Text};

/// The slots, which contracts see as their list. A pass reads them only by `look`.
#[derive(Drop)]
pub struct Slots {
    items: Vec<Slot>,
}

impl Model for Slots {
    ghost use Rattle.std.specs.Prelude.{List};
    ghost use Rattle.wc_hooks.specs.declared.slot.Slot.{Slot};

    ghost Value = { List Slot };

    ghost view = { λ s. s.items.items };
}

impl Slots {
    pub fn new(alloc: Global) -> Slots
        ensures { result ≡ [] }
    {
        Slots {
            items: Vec::new(alloc),
        }
    }

    /// Puts a slot after all but those that it precedes, and tells where.
    pub fn put(&mut self, slot: Slot) -> Result<usize, NoMemory>
        ensures within { IfOk result (λ at. at ≤ length self.old) }
        ensures there { IfOk result (λ at. self.new ≡ insert self.old at slot) }
        ensures order { IfOk result (λ at. insert self.old at slot
            ≡ put_by slot_rank slot self.old) }
        ensures short { IfOk result (λ at. length self.old + 1 < 2 ^ 64) }
        ensures err { OnErr result (self.new ≡ self.old) }
    {
        let at = place_of(self.items.as_slice(), &slot);
        match self.items.insert(at, slot) {
            Ok(()) => Ok(at),
            Err(_) => Err(NoMemory),
        }
    }

    /// Whether an entry with this number lives.
    pub fn lives(&self, id: HookId) -> bool
        ensures { result ≡ list_any (λ slot. is_slot id slot && is_live slot) self.now }
    {
        self.items.iter().any(|slot| slot.lives_as(id))
    }

    /// How many entries for relay sessions live.
    pub fn relays(&self) -> usize
        ensures { result ≡ live_relays self.now }
    {
        self.items
            .iter()
            .filter(|slot| !slot.gone && slot.kind.is_relay())
            .count()
    }

    /// How many entries of other kinds live.
    pub fn others(&self) -> usize
        ensures { result ≡ live_others self.now }
    {
        self.items
            .iter()
            .filter(|slot| !slot.gone && !slot.kind.is_relay())
            .count()
    }

    /// Enables or disables the entry with this number that lives.
    pub fn switch(&mut self, id: HookId, on: bool)
        ensures { self.new ≡ map (with_slot_switch id on) self.old }
    {
        switch_all(self.items.as_mut_slice(), id, on);
    }

    /// The entry with this number lives no more. It stays filed where `stays` says so.
    pub fn leave(&mut self, id: HookId, stays: bool)
        ensures { self.new ≡ left_slots id stays self.old }
    {
        if stays {
            leave_all(self.items.as_mut_slice(), id);
        } else {
            self.items.retain(|slot| !slot.is(id));
        }
    }

    /// Takes out the slots of the entries that are gone.
    pub fn purge(&mut self)
        ensures { self.new ≡ filter is_live self.old }
    {
        self.items.retain(|slot| !slot.gone);
    }

    /// A pass over this kind and key opens at this place. Gives where its slots begin, and how many
    /// they are; no other is changed.
    pub fn open(&mut self, place: usize, kind: HookKind, key: &Text) -> (usize, usize)
        requires place { place < 32 }
        requires falls { falls_by slot_rank self.old ≡ true }
        ensures range { IsRange kind key.now self.old result.0 result.1 }
        ensures slots { self.new ≡ map (with_opening place kind key.now) self.old }
    {
        let (start, count) = range_of(self.items.as_slice(), kind, key);
        open_range(self.items.as_mut_slice(), place, kind, key, start, count);
        (start, count)
    }

    /// One entry is looked at: the step.
    fn look<L: Ledger>(&self, cursor: &mut Cursor, steps: &mut Steps<L>) -> &Slot
        requires there { cursor.old.seen < cursor.old.count }
        requires inside { cursor.old.start + cursor.old.count ≤ length self.now }
        requires counted { cursor.old.looked ≤ cursor.old.seen }
        ensures slot { result.now ≡ slice_index_or self.now (cursor.old.start + cursor.old.seen)
            result.now }
        ensures cursor { cursor.new ≡ record cursor.old {
          seen = cursor.old.seen + 1;
          looked = cursor.old.looked + 1;
        } }
        ensures step { steps.new ≡ steps.old + 1 }
    {
        let slot = &self.items[cursor.start + cursor.seen];
        cursor.seen += 1;
        cursor.looked += 1;
        steps.tick();
        slot
    }

    /// The next entry of the pass of this place that may run.
    #[tactic(auto, using(crate::proofs::Walks::next_facts))]
    pub fn next<L: Ledger>(
        &self,
        marks: &[Entry],
        place: usize,
        cursor: &mut Cursor,
        steps: &mut Steps<L>,
    ) -> Option<Entry>
        requires place { place < 32 }
        requires inside { cursor.old.start + cursor.old.count ≤ length self.now }
        requires within { cursor.old.seen ≤ cursor.old.count }
        requires counted { cursor.old.looked ≤ cursor.old.seen }
        ensures walked { Walked self.now marks.now place cursor.old cursor.new result }
        ensures steps { steps.new + cursor.old.looked ≡ steps.old + cursor.new.looked }
    {
        while cursor.seen < cursor.count {
            let slot = self.look(cursor, steps);
            if slot.is_in_snapshot(place, cursor.hooked) && slot.may_go(marks) {
                return Some(slot.entry());
            }
        }
        None
    }
}

/// Where a slot goes: after all but those that it precedes.
#[tactic(auto, using(crate::proofs::Puts::place_of_facts))]
fn place_of(slots: &[Slot], slot: &Slot) -> usize
    ensures within { result ≤ length slots.now }
    ensures place { insert slots.now result slot.now ≡ put_by slot_rank slot.now slots.now }
{
    for at in 0..slots.len() {
        if slot.precedes(&slots[at]) {
            return at;
        }
    }
    slots.len()
}

/// Where the slots of a kind and a key begin, and how many they are.
fn range_of(slots: &[Slot], kind: HookKind, key: &Text) -> (usize, usize)
    requires { falls_by slot_rank slots.now ≡ true }
    ensures { IsRange kind key.now slots.now result.0 result.1 }
{
    let start = slots.partition_point(|slot| slot.is_before(kind, key));
    let (_, others) = slots.split_at(start);
    let count = others.partition_point(|slot| slot.is_for(kind, key));
    (start, count)
}

fn switch_all(slots: &mut [Slot], id: HookId, on: bool)
    ensures { slots.new ≡ map (with_slot_switch id on) slots.old }
{
    for slot in slots.iter_mut() {
        slot.switch(id, on);
    }
}

fn leave_all(slots: &mut [Slot], id: HookId)
    ensures { slots.new ≡ left_slots id true slots.old }
{
    for slot in slots.iter_mut() {
        slot.leave(id);
    }
}

fn open_range(
    slots: &mut [Slot],
    place: usize,
    kind: HookKind,
    key: &Text,
    start: usize,
    count: usize,
)
    requires place { place < 32 }
    requires range { IsRange kind key.now slots.old start count }
    ensures { slots.new ≡ map (with_opening place kind key.now) slots.old }
{
    for at in start..start + count {
        slots[at].see_opening(place, kind, key);
    }
}
