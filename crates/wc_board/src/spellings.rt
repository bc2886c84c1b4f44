//! The events that are spelled, with a count of them. Nothing else in this crate spells.

ghost use Rattle.std.specs.Prelude.{◌≡◌, ◌+◌, ◌<◌, false, List, IfOk, IfSome, MatchOption};
ghost use Rattle.std.specs.Str.{IsUtf8};
ghost use Rattle.wc_buffers.specs.Calls.{is_there};
ghost use Rattle.wc_model.specs.Parts.{flag_part, trim_part};
ghost use Rattle.wc_model.specs.World.{World as WorldValue, rows_at, root_at};
ghost use Rattle.wc_nickdiff.specs.Held.{before_at, touches_of};
ghost use Rattle.wc_nickdiff.specs.NickPush.{nick_push};
ghost use Rattle.wc_nickdiff.specs.Told.{IsTold};
ghost use Rattle.wc_nicklist.specs.declared.item.Row.{Row};
ghost use Rattle.wc_session.specs.Event.{IsEventOf, IsPushOf, IsPushKind};

use std::alloc::Global;
use std::marker::Model;
use std::sync::ledger::{Blank, Book, Ledger, Share};
use wc_events::FlipLookup;
use wc_model::{Notice, Trim};
use wc_nickdiff::Pending;
use wc_session::BufferEvent;
use wc_text::{Handle, NoMemory};
use wc_world::World;

/// How many events were spelled. It takes no bytes, and only a spelling adds to it.
#[derive(Drop)]
pub struct Spellings<L: Ledger> {
    book: Book<L>,
    share: Share<L>,
}

impl<L: Ledger> Model for Spellings<L> {
    ghost use Rattle.std.specs.Prelude.{◌<◌, ℕ};

    ghost Value = { ℕ };

    ghost view = { λ s. s.book.total };

    ghost invariant = { λ s. 0 < s.share.parts };
}

impl<L: Ledger> Spellings<L> {
    /// None was spelled yet.
    pub fn new(blank: Blank) -> Spellings<L>
        requires name { blank.name ≡ L.name }
        requires parts { blank.parts ≡ L.parts }
        requires some { 0 < L.parts }
        ensures { result ≡ 0 }
    {
        let (book, share) = blank.open::<L>();
        Spellings { book, share }
    }

    /// Spells the event of a notice, in the world after the change.
    pub(crate) fn of_notice(
        &mut self,
        alloc: Global,
        world: &World,
        notice: &Notice,
    ) -> Result<BufferEvent, NoMemory>
        requires { IsUtf8 notice.now.full_name }
        ensures count { self.new ≡ self.old + 1 }
        ensures event { IfOk result (λ event. IsEventOf event world.now notice.now) }
    {
        self.book.add(&mut self.share, 1);
        BufferEvent::of(alloc, world, notice)
    }

    /// Spells the event of the lines of a buffer whose flags differ, in the world after the change.
    pub(crate) fn of_flags(
        &mut self,
        alloc: Global,
        world: &World,
        buffer: Handle,
        flips: &FlipLookup<'_>,
    ) -> Result<BufferEvent, NoMemory>
        ensures count { self.new ≡ self.old + 1 }
        ensures event { IfOk result (λ event.
            IsEventOf event world.now (flag_part flips.now buffer.0)) }
    {
        self.book.add(&mut self.share, 1);
        BufferEvent::of_flags(alloc, world, buffer, flips)
    }

    /// Spells the event of the oldest lines that a buffer lost.
    pub(crate) fn of_trim(&mut self, alloc: Global, trim: Trim) -> Result<BufferEvent, NoMemory>
        ensures count { self.new ≡ self.old + 1 }
        ensures event { IfOk result (λ event. (world : WorldValue) →
            IsEventOf event world (trim_part trim)) }
    {
        self.book.add(&mut self.share, 1);
        BufferEvent::of_trim(alloc, trim)
    }

    /// Spells the event of what became of the nicklist of a buffer since it was told.
    pub(crate) fn of_nicks(
        &mut self,
        alloc: Global,
        world: &World,
        pending: &Pending,
        buffer: Handle,
    ) -> Result<Option<BufferEvent>, NoMemory>
        ensures count { self.new ≡ self.old + 1 }
        ensures told { IfOk result (λ told. MatchOption told (is_there buffer world.now.groups ≡ false)
            (λ event. (told : List Row) → IsTold (λ k. before_at k (touches_of buffer pending.now))
            (rows_at world.now buffer.0) told →
            IsPushOf event buffer
            (nick_push (root_at buffer.0) told (rows_at world.now buffer.0)))) }
        ensures kind { IfOk result (λ told. IfSome told (λ event. IsPushKind event.kind)) }
    {
        self.book.add(&mut self.share, 1);
        BufferEvent::of_nicks(alloc, world, pending, buffer)
    }
}
