ghost use Rattle.std.specs.Prelude.{◌≤◌, is_some, ◌≡◌, ◌≢◌, ◌+◌, ◌-◌, ◌^◌, ◌<◌};
ghost use Rattle.std.specs.Prelude.{◌==◌, ℕ, List, true, false, None, Some, IsTrue, IfOk, IfSome};
ghost use Rattle.std.specs.Prelude.{IfNone, OnErr, is_none, IsOkUnless, Ok, Err, if◌then◌else◌};
ghost use Rattle.wc_hooks.specs.declared.kind.HookKind.{HookKind};
ghost use Rattle.wc_hooks.specs.declared.entry.HookRefused.{HookRefused};
ghost use Rattle.wc_hooks.specs.Kinds.{is_relay};
ghost use Rattle.wc_hooks.specs.Rows.{new_row, without, rows_switched, lives, relays, others};
ghost use Rattle.wc_hooks.specs.Rows.{rows_filed};
ghost use Rattle.wc_hooks.specs.Passes.{without_mark};
ghost use Rattle.wc_hooks.specs.Table.{new_table, with_row, without_row, with_rows, with_marks};
ghost use Rattle.wc_hooks.specs.Table.{with_pass, without_pass, opening, pass_at, looked_at};
ghost use Rattle.wc_hooks.specs.Table.{IsOpen, has_no_place, is_place_for, is_full_for, is_bounded};
ghost use Rattle.wc_hooks.specs.Table.{next_of, after_next, IsHookTable, IsFiled, IsUnusedId};
ghost use Rattle.wc_hooks.specs.Table.{other_passes};

use crate::cursor::{Cursor, move_all};
use crate::entry::{Entry, HookId, HookRefused, Owner};
use crate::kind::HookKind;
use crate::marks::{mark_given, unmark};
use crate::past::unchanged;
use crate::places::{
    RELAY_PLACE, cursor_at, is_any_open, is_open, new_places, place_for, put_cursor,
};
use crate::slot::Slot;
use crate::slots::Slots;
use crate::steps::Steps;
use std::alloc::Global;
use std::marker::Model;
use std::sync::ledger::Ledger;
use wc_text::{NoMemory, Text};

/// How many entries of other kinds than the one of relay sessions may live.
const OTHER_LIMIT: u32 = 960;

/// As many entries as can live, and so as can be marked as running.
const ENTRY_LIMIT: usize = 1024;

/// A pass that is open. It can't be let go: `close_pass` takes it back.
pub struct Pass {
    place: usize,
}

impl Model for Pass {
    ghost use Rattle.std.specs.Prelude.{◌≤◌, is_some, ℕ};

    ghost Value = { ℕ };

    ghost view = { λ pass. pass.place };
}

/// The entries that are hooked, and the passes that go through them.
///
/// A pass takes the enabled entries of its kind and key as they are at its opening, by priority
/// downward, ties by creation. At each turn it gives the first of those left that lives, is
/// enabled, and of whose owner no entry is marked as running. Entries may be hooked, unhooked and
/// switched, and further passes opened, while passes are open.
///
/// A pass copies nothing: it is a place in the entries of its kind and key. So an entry that is
/// unhooked while a pass is open stays filed until the last pass is closed, and each entry notes
/// what it was as each open pass opened.
#[derive(Drop)]
pub struct HookTable {
    slots: Slots,
    hooked: u64,
    cursors: Vec<Option<Cursor>>,
    marks: Vec<Entry>,
    relays: usize,
    others: usize,
    has_gone: bool,
}

impl Model for HookTable {
    ghost use Rattle.wc_hooks.specs.Table.{Table};

    ghost Value = { Table };

    ghost use Rattle.wc_hooks.specs.Inside.{table_of, IsSound};

    ghost view = { table_of };

    ghost invariant = { IsSound };
}

impl HookTable {
    /// A table without entries, and with no pass open. It takes the room for all passes and marks.
    pub fn new(alloc: Global) -> Result<HookTable, NoMemory>
        ensures { IfOk result (λ table. table ≡ new_table) }
    {
        let cursors = new_places(alloc)?;
        let marks = Vec::with_capacity(alloc, ENTRY_LIMIT)?;
        Ok(HookTable {
            slots: Slots::new(alloc),
            hooked: 0,
            cursors,
            marks,
            relays: 0,
            others: 0,
            has_gone: false,
        })
    }

    /// Hooks an entry under a kind and a key, after those of its priority or a higher one. It is
    /// enabled, is not running, and has a number that no entry had. `TooMany` exactly where the
    /// kind is not `Relay` and 960 entries of other kinds than `Relay` live. After a refusal
    /// nothing changed.
    pub fn hook(
        &mut self,
        alloc: Global,
        kind: HookKind,
        key: &Text,
        priority: u32,
        owner: Owner,
    ) -> Result<HookId, HookRefused>
        requires relays { IsTrue (is_relay kind) → relays self.old.rows < 64 }
        requires numbers { self.old.hooked < 2 ^ 64 - 1 }
        ensures number { IfOk result (λ id. id.0 ≡ self.old.hooked + 1) }
        ensures filed { IfOk result
            (λ id. self.new ≡ with_row (new_row id kind key.now priority owner) self.old) }
        ensures by_key { IfOk result
            (λ id. IsFiled (new_row id kind key.now priority owner) self.old self.new) }
        ensures fresh { IfOk result (λ id. IsUnusedId id self.old) }
        ensures too_many { IsTrue (is_full_for kind self.old) →
            result ≡ Err (HookRefused.TooMany 960) }
        ensures room { is_full_for kind self.old ≡ false → IsOkUnless result HookRefused.NoMemory }
        ensures err { OnErr result (self.new ≡ self.old) }
    {
        if !kind.is_relay() && self.others == OTHER_LIMIT as usize {
            return Err(HookRefused::TooMany { limit: OTHER_LIMIT });
        }
        match self.file(alloc, kind, key, priority, owner) {
            Ok(id) => Ok(id),
            Err(NoMemory) => Err(HookRefused::NoMemory),
        }
    }

    /// Files a new entry.
    fn file(
        &mut self,
        alloc: Global,
        kind: HookKind,
        key: &Text,
        priority: u32,
        owner: Owner,
    ) -> Result<HookId, NoMemory>
        requires relays { IsTrue (is_relay kind) → relays self.old.rows < 64 }
        requires others { is_full_for kind self.old ≡ false }
        requires numbers { self.old.hooked < 2 ^ 64 - 1 }
        ensures number { IfOk result (λ id. id.0 ≡ self.old.hooked + 1) }
        ensures filed { IfOk result
            (λ id. self.new ≡ with_row (new_row id kind key.now priority owner) self.old) }
        ensures by_key { IfOk result
            (λ id. IsFiled (new_row id kind key.now priority owner) self.old self.new) }
        ensures fresh { IfOk result (λ id. IsUnusedId id self.old) }
        ensures err { OnErr result (self.new ≡ self.old) }
    {
        let key = key.copy(alloc)?;
        let id = HookId(self.hooked + 1);
        let slot = Slot {
            id,
            kind,
            key,
            priority,
            owner,
            enabled: true,
            gone: false,
            past: unchanged(),
        };
        let at = self.slots.put(slot)?;
        move_all(&mut self.cursors, at);
        self.hooked += 1;
        self.relays = one_more(self.relays, kind.is_relay());
        self.others = one_more(self.others, !kind.is_relay());
        Ok(id)
    }

    /// Takes the entry out, with its mark of running. False exactly where no entry with this number
    /// lives; then nothing changes.
    pub fn unhook(&mut self, id: HookId) -> bool
        ensures found { result ≡ lives id self.old.rows }
        ensures after { self.new ≡ without_row id self.old }
        ensures missing { result ≡ false → self.new ≡ self.old }
        ensures by_key { (kind : HookKind) (key : List ℕ) → rows_filed kind key self.new.rows
            ≡ without id (rows_filed kind key self.old.rows) }
    {
        if !self.slots.lives(id) {
            return false;
        }
        // with no pass open nothing is gone, and nothing needs to stay
        self.has_gone = is_any_open(self.cursors.as_slice());
        self.slots.leave(id, self.has_gone);
        unmark(&mut self.marks, id);
        self.relays = self.slots.relays();
        self.others = self.slots.others();
        true
    }

    /// Enables or disables the entry. False exactly where no entry with this number lives; then
    /// nothing changes.
    pub fn set_enabled(&mut self, id: HookId, on: bool) -> bool
        ensures found { result ≡ lives id self.old.rows }
        ensures after { self.new ≡ with_rows (rows_switched id on self.old.rows) self.old }
        ensures missing { result ≡ false → self.new ≡ self.old }
        ensures by_key { (kind : HookKind) (key : List ℕ) → rows_filed kind key self.new.rows
            ≡ rows_switched id on (rows_filed kind key self.old.rows) }
    {
        let found = self.slots.lives(id);
        self.slots.switch(id, on);
        found
    }

    /// Opens a pass over the entries of a kind and a key. None exactly where the kind is not
    /// `Relay` and 16 passes of other kinds than `Relay` are open; then nothing changes. It takes
    /// no memory.
    pub fn open_pass(&mut self, kind: HookKind, key: &Text) -> Option<Pass>
        requires { IsTrue (is_relay kind) → pass_at self.old 16 ≡ None }
        ensures none { is_none result ≡ has_no_place kind self.old }
        ensures refused { IfNone result (self.new ≡ self.old) }
        ensures place { IfSome result (λ pass. is_place_for kind pass ≡ true) }
        ensures free { IfSome result (λ pass. pass_at self.old pass ≡ None) }
        ensures opened { IfSome result
            (λ pass. self.new ≡ with_pass pass (Some (opening kind key.now self.old)) self.old) }
        ensures is_open { IfSome result (λ pass. IsOpen self.new pass) }
        ensures apart { IfSome result (λ pass. (place : ℕ) → IsOpen self.old place → place ≢ pass) }
        ensures others { (place : ℕ) → IsOpen self.old place → pass_at self.new place
            ≡ pass_at self.old place }
        ensures count { IfSome result (λ pass. other_passes self.new
            ≡ (if is_relay kind then other_passes self.old else other_passes self.old + 1)) }
    {
        let place = place_for(self.cursors.as_slice(), kind)?;
        let (start, count) = self.slots.open(place, kind, key);
        let cursor = Cursor {
            start,
            count,
            seen: 0,
            hooked: self.hooked,
            looked: 0,
        };
        put_cursor(&mut self.cursors, place, Some(cursor));
        Some(Pass { place })
    }

    /// The next entry of the pass that lives, is enabled, and of whose owner no entry is marked as
    /// running. It is marked as running. None exactly where no entry that is left may run. It takes
    /// no memory.
    ///
    /// A step is one entry looked at. Over all calls of one pass the steps are at most the entries
    /// that are filed under its kind and key, and none where none was filed there as it opened.
    pub fn next<L: Ledger>(&mut self, pass: &mut Pass, steps: &mut Steps<L>) -> Option<Entry>
        requires { IsOpen self.old pass.old }
        ensures given { result ≡ next_of self.old pass.old }
        ensures after { self.new ≡ after_next self.old pass.old (steps.new - steps.old) }
        ensures steps { steps.new + looked_at self.old pass.old
            ≡ steps.old + looked_at self.new pass.old }
        ensures bound { is_bounded self.new pass.old ≡ true }
        ensures pass { pass.new ≡ pass.old }
        ensures is_open { IsOpen self.new pass.new }
        ensures others { (place : ℕ) → place ≢ pass.old → pass_at self.new place
            ≡ pass_at self.old place }
        ensures count { other_passes self.new ≡ other_passes self.old }
    {
        let mut cursor = cursor_at(&self.cursors, pass.place);
        let given = self
            .slots
            .next(self.marks.as_slice(), pass.place, &mut cursor, steps);
        put_cursor(&mut self.cursors, pass.place, Some(cursor));
        mark_given(&mut self.marks, given);
        given
    }

    /// Takes the entry's mark of running away. Where it is gone or is not marked, nothing changes.
    pub fn end_run(&mut self, id: HookId)
        ensures { self.new ≡ with_marks (without_mark id self.old.marks) self.old }
    {
        unmark(&mut self.marks, id);
    }

    /// Closes a pass. With the last one the entries that are gone are no longer filed.
    pub fn close_pass(&mut self, pass: Pass)
        requires { IsOpen self.old pass }
        ensures after { self.new ≡ without_pass pass self.old }
        ensures closed { pass_at self.new pass ≡ None }
        ensures others { (place : ℕ) → place ≢ pass → pass_at self.new place
            ≡ pass_at self.old place }
        ensures count { pass < 16 → other_passes self.new + 1 ≡ other_passes self.old }
    {
        let Pass { place } = pass;
        put_cursor(&mut self.cursors, place, None);
        if !self.has_gone || is_any_open(self.cursors.as_slice()) {
            return;
        }
        self.slots.purge();
        self.has_gone = false;
    }

    /// Whether an entry with this number lives.
    pub fn lives(&self, id: HookId) -> bool
        ensures found { result ≡ lives id self.now.rows }
        ensures law { IsHookTable self.now }
    {
        self.slots.lives(id)
    }

    /// How many entries for relay sessions live.
    pub fn relay_count(&self) -> u32
        ensures count { result ≡ relays self.now.rows }
        ensures most { result ≤ 64 }
    {
        self.relays as u32
    }

    /// Whether the pass that tells relay sessions is open.
    pub fn is_relay_open(&self) -> bool
        ensures { result ≡ is_some (pass_at self.now 16) }
    {
        is_open(&self.cursors, RELAY_PLACE)
    }
}

fn one_more(count: usize, is_one: bool) -> usize
    requires { count ≤ 960 }
    ensures { result ≡ (if is_one then count + 1 else count) }
{
    if is_one { count + 1 } else { count }
}
