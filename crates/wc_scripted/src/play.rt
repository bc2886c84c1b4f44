ghost use Rattle.std.specs.Prelude.{◌≡◌, ◌+◌, ◌-◌, ◌<◌, ◌≤◌, ◌++◌, ◌∷◌, [], ℕ, IfOk, OnOk};
ghost use Rattle.std.specs.Prelude.{OnErr, MatchOption, IsSome, length, take, drop, ◌^◌};
ghost use Rattle.std.specs.Prelude.{vec_len, vec_capacity};
ghost use Rattle.std.specs.Prelude.{◌==◌, ◌&&◌, if◌then◌else◌};
ghost use Rattle.std.specs.List.{list_any};
ghost use Rattle.wc_outside.specs.Happenings.{IsReadWithin};
ghost use Rattle.wc_scripted.specs.Cursors.{at_start, cursor_at, given_at, IsPlay, BeginsArrival};
ghost use Rattle.wc_scripted.specs.Plays.{IsFound, IsNonce, given_by, left, stands_next};
ghost use Rattle.wc_scripted.specs.Scripts.{is_for, nonces, turn_size, next_moment};

use crate::cursors::Cursor;
use crate::script::Script;
use crate::scripted::{Scripted, before_arrival};
use std::alloc::Global;
use wc_outside::Got;
use wc_text::{Items, LinkId, NoMemory};

/// How many links are given at most.
const LINK_LIMIT: u64 = 1 << 62;

/// A script, and how far the listener and each link have come in it.
#[derive(Drop)]
pub(crate) struct Play {
    pub(crate) script: Script,
    /// The arrivals before this step were given.
    pub(crate) listener: usize,
    /// By link number; no link has the place of 0.
    pub(crate) cursors: Vec<Cursor>,
    ghost fits: { IsPlay (take script.released script.steps) listener (vec_len cursors)
        cursors.items },
}

impl Play {
    pub(crate) fn new(alloc: Global, steps: Items<Scripted>) -> Result<Play, NoMemory>
        ensures steps { IfOk result (λ play. play.script.steps ≡ steps) }
        ensures released { IfOk result (λ play. play.script.released ≡ 0) }
        ensures moment { IfOk result (λ play. play.script.moment ≡ 0) }
        ensures cursors { IfOk result (λ play. play.cursors.items ≡ at_start ∷ []) }
    {
        let mut cursors = Vec::with_capacity(alloc, 8)?;
        cursors.push(Cursor::new()).map_err(|_| NoMemory)?;
        Ok(Play {
            script: Script::new(steps),
            listener: 0,
            cursors,
        })
    }

    /// Releases the steps of one wait, and gives its moment.
    pub(crate) fn wake(&mut self) -> u64
        ensures steps { self.new.script.steps ≡ self.old.script.steps }
        ensures released { self.new.script.released ≡ self.old.script.released
            + turn_size (drop self.old.script.released self.old.script.steps) }
        ensures moment { result ≡ next_moment self.old.script.moment
            (drop self.old.script.released self.old.script.steps) }
        ensures kept { self.new.script.moment ≡ result }
        ensures listener { self.new.listener ≡ self.old.listener }
        ensures cursors { self.new.cursors.items ≡ self.old.cursors.items }
    {
        self.script.wake()
    }

    /// The nonce of the next arrival, where one is released and a number is left for its link.
    pub(crate) fn arrival(&mut self, used: u64) -> Option<[u8; 16]>
        ensures script { self.new.script ≡ self.old.script }
        ensures cursors { self.new.cursors.items ≡ self.old.cursors.items }
        ensures begins { MatchOption result (Unit {0}) (λ _. BeginsArrival
            (drop self.new.listener (take self.new.script.released self.new.script.steps))) }
        ensures arrived { let steps = take self.old.script.released self.old.script.steps in
            nonces (take self.new.listener steps) ≡ nonces (take self.old.listener steps) }
        ensures found { let steps = take self.old.script.released self.old.script.steps in
            IsNonce steps used (length (nonces (take self.old.listener steps))) result }
        ensures limit { IsSome result → used < 2 ^ 62 }
    {
        if used >= LINK_LIMIT {
            return None;
        }
        let coming = self.script.ready().split_at(self.listener).1;
        self.listener += before_arrival(coming);
        let Some(step) = self.script.ready().get(self.listener) else {
            return None;
        };
        step.nonce()
    }

    /// Makes room for a link.
    pub(crate) fn reserve(&mut self) -> Result<(), NoMemory>
        ensures script { self.new.script ≡ self.old.script }
        ensures listener { self.new.listener ≡ self.old.listener }
        ensures cursors { self.new.cursors.items ≡ self.old.cursors.items }
        ensures room { OnOk result (vec_len self.new.cursors < vec_capacity self.new.cursors) }
    {
        self.cursors.reserve(1)?;
        Ok(())
    }

    /// Makes the place of the next link. Whether a step for it is released already.
    pub(crate) fn admit(&mut self) -> bool
        requires room { vec_len self.old.cursors < vec_capacity self.old.cursors }
        ensures script { self.new.script ≡ self.old.script }
        ensures listener { self.new.listener ≡ self.old.listener }
        ensures count { vec_len self.new.cursors ≡ vec_len self.old.cursors + 1 }
        ensures given { let steps = take self.old.script.released self.old.script.steps in
            (link : ℕ) → given_at steps link (cursor_at link self.new.cursors.items)
            ≡ given_at steps link (cursor_at link self.old.cursors.items) }
        ensures news { result ≡ list_any (is_for (vec_len self.old.cursors))
            (take self.old.script.released self.old.script.steps) }
    {
        let link = LinkId(self.cursors.len() as u64);
        let mut cursor = Cursor::new();
        let has_news = cursor.seek(self.script.ready(), link);
        self.cursors.push_reserved(cursor);
        has_news
    }

    /// Passes the next arrival.
    pub(crate) fn pass_arrival(&mut self)
        requires begins { BeginsArrival
            (drop self.old.listener (take self.old.script.released self.old.script.steps)) }
        ensures script { self.new.script ≡ self.old.script }
        ensures cursors { self.new.cursors.items ≡ self.old.cursors.items }
        ensures arrived { let steps = take self.old.script.released self.old.script.steps in
            length (nonces (take self.new.listener steps))
            ≡ length (nonces (take self.old.listener steps)) + 1 }
    {
        let coming = self.script.ready().split_at(self.listener).1;
        self.listener += coming.len().min(1);
    }

    /// Gives what a read of a link finds.
    pub(crate) fn read(&mut self, link: LinkId, into: &mut [u8]) -> Got
        requires there { link.0 < vec_len self.old.cursors }
        requires room { 0 < length into.old }
        ensures script { self.new.script ≡ self.old.script }
        ensures listener { self.new.listener ≡ self.old.listener }
        ensures count { vec_len self.new.cursors ≡ vec_len self.old.cursors }
        ensures found { let steps = take self.old.script.released self.old.script.steps in
            IsFound steps link.0 (given_at steps link.0 (cursor_at link.0 self.old.cursors.items))
            into.new result }
        ensures given { let steps = take self.old.script.released self.old.script.steps in
            (other : ℕ) → given_at steps other (cursor_at other self.new.cursors.items)
            ≡ given_at steps other (cursor_at other self.old.cursors.items)
            + (if other == link.0 then given_by result else 0) }
        ensures within { IsReadWithin (length into.old) result }
    {
        let cursor = &mut self.cursors[link.0 as usize];
        cursor.read(self.script.ready(), link, into)
    }
    /// Whether it is next of a link that its connection stands, which is passed then.
    pub(crate) fn stands(&mut self, link: LinkId) -> bool
        requires there { link.0 < vec_len self.old.cursors }
        ensures script { self.new.script ≡ self.old.script }
        ensures listener { self.new.listener ≡ self.old.listener }
        ensures count { vec_len self.new.cursors ≡ vec_len self.old.cursors }
        ensures found { let steps = take self.old.script.released self.old.script.steps in result
            ≡ stands_next (left steps link.0
            (given_at steps link.0 (cursor_at link.0 self.old.cursors.items))) }
        ensures given { let steps = take self.old.script.released self.old.script.steps in
            (other : ℕ) → given_at steps other (cursor_at other self.new.cursors.items)
            ≡ given_at steps other (cursor_at other self.old.cursors.items)
            + (if (other == link.0) && result then 1 else 0) }
    {
        let cursor = &mut self.cursors[link.0 as usize];
        cursor.stands(self.script.ready(), link)
    }
}
