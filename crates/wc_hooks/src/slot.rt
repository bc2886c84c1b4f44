ghost use Rattle.std.specs.Prelude.{◌≡◌, ◌<◌, ◌&&◌};
ghost use Rattle.std.specs.Ordering.{is_lt};
ghost use Rattle.wc_hooks.specs.Ranks.{precedes, topic_order};
ghost use Rattle.wc_hooks.specs.Slots.{slot_rank, is_slot, is_live, is_slot_for, slot_entry};
ghost use Rattle.wc_hooks.specs.Slots.{in_snapshot, may_go, with_slot_switch, with_leave};
ghost use Rattle.wc_hooks.specs.Slots.{with_opening};

use crate::entry::{Entry, HookId, Owner};
use crate::kind::HookKind;
use crate::marks::runs;
use crate::past::{Past, changing, opened, was_enabled};
use std::cmp::Ordering;
use wc_text::Text;

/// An entry that is filed, also one that is gone while a pass is open.
#[derive(Drop)]
pub struct Slot {
    pub id: HookId,
    pub kind: HookKind,
    pub key: Text,
    pub priority: u32,
    pub owner: Owner,
    pub enabled: bool,
    pub gone: bool,
    pub past: Past,
}

impl Slot {
    /// Whether it is the one with this number.
    pub fn is(&self, id: HookId) -> bool
        ensures { result ≡ is_slot id self.now }
    {
        self.id == id
    }

    /// Whether it is the one with this number, and lives.
    pub fn lives_as(&self, id: HookId) -> bool
        ensures { result ≡ (is_slot id self.now && is_live self.now) }
    {
        self.id == id && !self.gone
    }

    /// Whether it is filed under this kind and key.
    pub fn is_for(&self, kind: HookKind, key: &Text) -> bool
        ensures { result ≡ is_slot_for kind key.now self.now }
    {
        self.kind.is_same(kind) && self.key.as_slice() == key.as_slice()
    }

    /// Whether it is before all of this kind and key.
    pub fn is_before(&self, kind: HookKind, key: &Text) -> bool
        ensures { result ≡ is_lt (topic_order self.now.kind self.now.key kind key.now) }
    {
        topic_cmp(self.kind, &self.key, kind, key).is_lt()
    }

    /// Whether it is before the other.
    #[tactic(auto, unfolding(crate::specs::Ranks::rank_order))]
    pub fn precedes(&self, other: &Slot) -> bool
        ensures { result ≡ precedes (slot_rank self.now) (slot_rank other.now) }
    {
        topic_cmp(self.kind, &self.key, other.kind, &other.key)
            .then(other.priority.cmp(&self.priority))
            .is_lt()
    }

    /// What a pass gives of it.
    pub fn entry(&self) -> Entry
        ensures { result ≡ slot_entry self.now }
    {
        Entry {
            id: self.id,
            owner: self.owner,
        }
    }

    /// Whether the snapshot of the pass of this place has it, which opened when so many entries had
    /// been hooked.
    pub fn is_in_snapshot(&self, place: usize, hooked: u64) -> bool
        requires { place < 32 }
        ensures { result ≡ in_snapshot place hooked self.now }
    {
        let was = was_enabled(self.past, place, self.enabled);
        self.id.0 <= hooked && was
    }

    /// Whether it is enabled, and none of its owner is marked as running. One that is gone is not
    /// enabled.
    pub fn may_go(&self, marks: &[Entry]) -> bool
        ensures { result ≡ may_go marks.now self.now }
    {
        self.enabled && !runs(marks, self.owner)
    }

    /// Enables or disables it where it is the one with this number, and lives.
    pub fn switch(&mut self, id: HookId, on: bool)
        ensures { self.new ≡ with_slot_switch id on self.old }
    {
        if self.lives_as(id) {
            self.past = changing(self.past, self.enabled);
            self.enabled = on;
        }
    }

    /// It is gone where it is the one with this number. No pass that opens later has it, so it is
    /// disabled.
    pub fn leave(&mut self, id: HookId)
        ensures { self.new ≡ with_leave id self.old }
    {
        if self.is(id) {
            self.past = changing(self.past, self.enabled);
            self.enabled = false;
            self.gone = true;
        }
    }

    /// A pass over this kind and key opens at this place.
    pub fn see_opening(&mut self, place: usize, kind: HookKind, key: &Text)
        requires { place < 32 }
        ensures { self.new ≡ with_opening place kind key.now self.old }
    {
        if self.is_for(kind, key) {
            self.past = opened(self.past, place);
        }
    }
}

#[tactic(auto, unfolding(crate::specs::Ranks::topic_order))]
fn topic_cmp(kind: HookKind, key: &Text, other_kind: HookKind, other_key: &Text) -> Ordering
    ensures { result ≡ topic_order kind key.now other_kind other_key.now }
{
    kind.number()
        .cmp(&other_kind.number())
        .then(key.as_slice().cmp(other_key.as_slice()))
}
