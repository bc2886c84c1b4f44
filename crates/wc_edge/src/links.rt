ghost use Rattle.std.specs.Prelude.{◌≡◌, false, ◌+◌, ◌^◌, ◌<◌, ◌≤◌, ◌&&◌, ◌||◌};
ghost use Rattle.std.specs.Prelude.{◌==◌, not, map, length, ℕ, All, vec_len, vec_capacity, IfOk};
ghost use Rattle.std.specs.Prelude.{IfSome, IsTrue, take, if◌then◌else◌};
ghost use Rattle.wc_outside.specs.Keyed.{IsKeyPlace, PlaceOf};
ghost use Rattle.wc_edge.specs.Rows.{number_of, is_there, is_undrained, is_blocked};
ghost use Rattle.wc_edge.specs.Rows.{IsAscending, SourcesReported};
ghost use Rattle.wc_edge.specs.Sources.{sources_of};
ghost use Rattle.mio.specs.Events.{items};

use crate::rows::{Row, place_of, set_blocked, set_undrained};
use crate::streams::Streams;
use std::alloc::{AllocError, Global};
use std::net::Net;
use std::random::RandomSource;
use std::rt::Clock;
use wc_outside::Ready;
use wc_text::LinkId;

/// How many links are held at most.
pub(crate) const SLOTS: usize = 512;

/// The links that are there, by number.
#[derive(Drop)]
pub(crate) struct Links {
    pub(crate) rows: Vec<Row>,
    /// How many link numbers are used.
    pub(crate) used: u64,
    ghost ascending: { IsAscending (map number_of rows.items) },
    ghost below: { All (λ number. number ≤ used) (map number_of rows.items) },
    ghost few: { used ≤ 2 ^ 62 },
    ghost room: { 512 ≤ vec_capacity rows },
}

impl Links {
    pub(crate) fn new(alloc: Global) -> Result<Links, AllocError>
        ensures used { IfOk result (λ links. links.used ≡ 0) }
        ensures there { IfOk result (λ links. (link : ℕ) → is_there links.rows.items link ≡ false) }
        ensures undrained { IfOk result (λ links. (link : ℕ) →
            is_undrained links.rows.items link ≡ false) }
        ensures blocked { IfOk result (λ links. (link : ℕ) →
            is_blocked links.rows.items link ≡ false) }
    {
        Ok(Links {
            rows: Vec::with_capacity(alloc, SLOTS)?,
            used: 0,
        })
    }

    /// Adds the link with the next number.
    pub(crate) fn add(&mut self) -> LinkId
        requires slot { vec_len self.old.rows < 512 }
        requires number { self.old.used < 2 ^ 62 }
        ensures next { result.0 ≡ self.old.used + 1 }
        ensures used { self.new.used ≡ self.old.used + 1 }
        ensures there { (link : ℕ) → is_there self.new.rows.items link
            ≡ is_there self.old.rows.items link || (result.0 == link) }
        ensures undrained { (link : ℕ) → is_undrained self.new.rows.items link
            ≡ is_undrained self.old.rows.items link }
        ensures blocked { (link : ℕ) → is_blocked self.new.rows.items link
            ≡ is_blocked self.old.rows.items link }
    {
        let link = LinkId(self.used + 1);
        self.used += 1;
        self.rows.push_reserved(Row {
            link,
            undrained: false,
            blocked: false,
        });
        link
    }

    /// Uses up the next number, for no link.
    pub(crate) fn pass_number(&mut self)
        requires { self.old.used < 2 ^ 62 }
        ensures used { self.new.used ≡ self.old.used + 1 }
        ensures rows { self.new.rows.items ≡ self.old.rows.items }
    {
        self.used += 1;
    }

    /// Removes a link, which is at this place.
    pub(crate) fn remove(&mut self, place: usize, link: LinkId)
        requires { IsKeyPlace number_of link.0 self.old.rows.items place }
        ensures used { self.new.used ≡ self.old.used }
        ensures there { (other : ℕ) → is_there self.new.rows.items other
            ≡ is_there self.old.rows.items other && not (other == link.0) }
        ensures undrained { (other : ℕ) → is_undrained self.new.rows.items other
            ≡ is_undrained self.old.rows.items other && not (other == link.0) }
        ensures blocked { (other : ℕ) → is_blocked self.new.rows.items other
            ≡ is_blocked self.old.rows.items other && not (other == link.0) }
    {
        self.rows.remove(place);
    }

    /// Where a link is.
    #[tactic(auto, using(crate::proofs::RowLemmas::placed_there))]
    pub(crate) fn place_of(&self, link: LinkId) -> Option<usize>
        ensures place { PlaceOf number_of link.0 self.now.rows.items result }
        ensures there { IfSome result (λ place. IsTrue (is_there self.now.rows.items link.0)) }
    {
        let _ = &self.used;
        place_of(&self.rows, link)
    }

    /// Takes a link, which is at this place, out of those that are not drained.
    pub(crate) fn drain(&mut self, place: usize, link: LinkId)
        requires { IsKeyPlace number_of link.0 self.old.rows.items place }
        ensures used { self.new.used ≡ self.old.used }
        ensures undrained { (other : ℕ) → is_undrained self.new.rows.items other
            ≡ is_undrained self.old.rows.items other && not (other == link.0) }
        ensures there { (other : ℕ) → is_there self.new.rows.items other
            ≡ is_there self.old.rows.items other }
        ensures blocked { (other : ℕ) → is_blocked self.new.rows.items other
            ≡ is_blocked self.old.rows.items other }
    {
        set_undrained(&mut self.rows, place, link, false);
    }

    /// Notes whether the last write to a link, which is at this place, found no room.
    pub(crate) fn set_blocked(&mut self, place: usize, link: LinkId, blocked: bool)
        requires { IsKeyPlace number_of link.0 self.old.rows.items place }
        ensures used { self.new.used ≡ self.old.used }
        ensures undrained { (other : ℕ) → is_undrained self.new.rows.items other
            ≡ is_undrained self.old.rows.items other }
        ensures there { (other : ℕ) → is_there self.new.rows.items other
            ≡ is_there self.old.rows.items other }
        ensures blocked { (other : ℕ) → is_blocked self.new.rows.items other
            ≡ (if other == link.0 then blocked else is_blocked self.old.rows.items other) }
    {
        set_blocked(&mut self.rows, place, link, blocked);
    }

    /// Reports the source of each event that the last wait fetched, where it is still there.
    pub(crate) fn report<R: Net + Clock + RandomSource>(
        &mut self,
        streams: &mut Streams<'_, R>,
        listening: &mut bool,
        ready: &mut Ready,
    )
        ensures used { self.new.used ≡ self.old.used }
        ensures reported { SourcesReported self.old.rows.items self.new.rows.items listening.old
            listening.new (take ready.new.count ready.new.tokens) }
        ensures handed { take ready.new.count ready.new.tokens
            ≡ sources_of (is_there self.old.rows.items) (items streams.old.events) }
    {
        streams.report(&mut self.rows, listening, ready);
    }
}
