ghost use Rattle.std.specs.Prelude.{◌≡◌, ℕ, ◌≤◌, ◌<◌, Some, None, Ok, [], true, option_map};
ghost use Rattle.std.specs.Prelude.{vec_len, vec_capacity};
ghost use Rattle.std.specs.Prelude.{slice_index_or, IfOk, IfErr, IfSome, OnOk, OnErr, IsTrue};
ghost use Rattle.std.specs.Option.{option_and_then};
ghost use Rattle.std.specs.FinMap.{get};
ghost use Rattle.wc_objects.specs.declared.object.WireMessage.{WireMessage};
ghost use Rattle.wc_objects.specs.Forms.{well_formed};
ghost use Rattle.wc_objects.specs.Spells.{FrontSpells, misses_bytes};
ghost use Rattle.wc_objects.specs.Reading.{GivesFirst, first_message};
ghost use Rattle.wc_view.specs.BufferFold.{fold_buffers};
ghost use Rattle.wc_view.specs.Runs.{or_kept};
ghost use Rattle.wc_view.specs.Ids.{AreIds};
ghost use Rattle.wc_view.specs.Entries.{part_at};
ghost use Rattle.wc_view.specs.Fold.{fold_lines};
ghost use Rattle.wc_view.specs.LinesLeft.{mirror_lines_left};
ghost use Rattle.wc_view.specs.NickEntries.{nicks_at};
ghost use Rattle.wc_view.specs.NickFold.{fold_nicks};
ghost use Rattle.wc_view.specs.NickSteps.{after_step, RefusesDiff};
ghost use Rattle.wc_view.specs.Parts.{lines_at};
ghost use Rattle.wc_view.specs.Taking.{nothing_taken, parts_after, TakesMessage};

use crate::buffer_lines::{BufferLines, lines_of};
use crate::buffer_nicks::{BufferNicks, nicklist_of};
use crate::mirror_buffer::SharedBuffer;
use crate::mirror_line::MirrorLineIter;
use crate::mirror_lines::fold_lines;
use crate::mirror_nicks::{NickStep, make_room, nick_step, take_step};
use crate::told::{groups_in_dump, groups_in_event};
use std::alloc::Global;
use std::marker::Model;
use wc_nickdiff::DiffRefused;
use wc_nicklist::Nicklist;
use wc_objects::{MessageRefused, WireMessage, read_message};
use wc_text::{Handle, Items, NoMemory, Text};

/// Why bytes were not taken.
#[derive(Clone, Copy, Debug, PartialEq, Eq, thiserror::Error)]
pub enum MirrorRefused {
    /// The first field that breaks a rule begins at this place. It is 0 for a length that no
    /// message has.
    #[error("a field breaks a rule at byte {place}")]
    BadMessage { place: usize },
    /// The item at this place of a diff, from 0, can't be applied to the nicklist that is held.
    #[error("item {place} of a diff can't be applied")]
    BadDiff { place: u64 },
    #[error("out of memory")]
    NoMemory,
}

/// What a message tells of the buffers, where it tells some, and what is to be done to the nicklists.
#[derive(Drop)]
struct News {
    groups: Option<Items<Items<SharedBuffer>>>,
    step: NickStep,
}

/// What is held, once it was told.
#[derive(Drop)]
struct Held {
    buffers: Option<Items<Items<SharedBuffer>>>,
    lines: Option<Vec<BufferLines>>,
    nicks: Option<Vec<BufferNicks>>,
}

impl Held {
    fn none() -> Held
        ensures buffers { result.buffers ≡ None }
        ensures lines { result.lines ≡ None }
        ensures nicks { result.nicks ≡ None }
    {
        Held {
            buffers: None,
            lines: None,
            nicks: None,
        }
    }

    /// Folds what a message tells of lines, and makes room for one buffer more among the nicklists.
    fn fold_first(
        &mut self,
        alloc: Global,
        limit: Option<usize>,
        dump: &Text,
        message: &WireMessage,
    ) -> Result<(), NoMemory>
        ensures lines { OnOk result (option_map (λ v. part_at v.items) self.new.lines ≡ fold_lines
            limit dump.now (option_map (λ v. part_at v.items) self.old.lines) message.now) }
        ensures room { OnOk result (IfSome self.new.nicks (λ v. vec_len v < vec_capacity v)) }
        ensures same_buffers { self.new.buffers ≡ self.old.buffers }
        ensures same_lines { OnErr result (option_map (λ v. v.items) self.new.lines
            ≡ option_map (λ v. v.items) self.old.lines) }
        ensures same_nicks { option_map (λ v. v.items) self.new.nicks
            ≡ option_map (λ v. v.items) self.old.nicks }
    {
        make_room(&mut self.nicks)?;
        fold_lines(&mut self.lines, alloc, limit, dump, message)
    }

    /// Puts what a message told of the buffers and the nicklists in the place of what is held.
    fn put(&mut self, news: News)
        requires { IfSome self.old.nicks (λ v. vec_len v < vec_capacity v) }
        ensures buffers { self.new.buffers ≡ or_kept news.groups self.old.buffers }
        ensures lines { self.new.lines ≡ self.old.lines }
        ensures nicks { option_map (λ v. nicks_at v.items) self.new.nicks
            ≡ after_step news.step (option_map (λ v. nicks_at v.items) self.old.nicks) }
    {
        take_step(&mut self.nicks, news.step);
        put_groups(&mut self.buffers, news.groups);
    }
}

/// A client's mirror: what it holds by the messages that a relay sent it. Contracts see the limit
/// on the lines of a buffer, where there is one, the ids of the dumps of buffers, of lines and of
/// nicklists, and once they were taken, the buffers in groups, the lines of each buffer and the
/// rows of its nicklist.
#[derive(Drop)]
pub struct Mirror {
    limit: Option<usize>,
    buffer_dump: Text,
    line_dump: Text,
    nick_dump: Text,
    held: Held,
}

impl Model for Mirror {
    ghost use Rattle.std.specs.Prelude.{option_map};
    ghost use Rattle.std.specs.Coded.{codes};
    ghost use Rattle.std.specs.FinMap as map;
    ghost use Rattle.wc_view.specs.Entries.{part_at};
    ghost use Rattle.wc_view.specs.Entries.{part_at};
    ghost use Rattle.wc_view.specs.Fold.{fold_lines};
    ghost use Rattle.wc_view.specs.NickEntries.{nicks_at};
    ghost use Rattle.wc_view.specs.Taking.{MirrorParts};

    ghost Value = { MirrorParts };

    ghost coded = { Prim.hlevel (codes, map.code) };

    ghost view = { λ m. record {
      limit = m.limit;
      buffer_dump = m.buffer_dump;
      line_dump = m.line_dump;
      nick_dump = m.nick_dump;
      buffers = m.held.buffers;
      lines = option_map (λ v. part_at v.items) m.held.lines;
      nicks = option_map (λ v. nicks_at v.items) m.held.nicks;
    } };
}

impl Mirror {
    /// A mirror that has taken nothing, of at most `limit` lines a buffer. The ids are those under
    /// which the client asks for the dumps of buffers, of lines and of nicklists.
    pub fn new(alloc: Global, limit: u32, ids: [Text; 3]) -> Result<Mirror, NoMemory>
        requires some { 1 ≤ limit }
        requires ids { AreIds ids }
        ensures { IfOk result (λ mirror. mirror ≡ nothing_taken (Some limit)
            (slice_index_or ids 0 []) (slice_index_or ids 1 []) (slice_index_or ids 2 [])) }
    {
        Mirror::with_limit(alloc, Some(limit as usize), &ids)
    }

    /// The same where it never cuts lines by itself: for a client that asked for `trims`.
    pub fn trimmed(alloc: Global, ids: [Text; 3]) -> Result<Mirror, NoMemory>
        requires ids { AreIds ids }
        ensures { IfOk result (λ mirror. mirror ≡ nothing_taken None (slice_index_or ids 0 [])
            (slice_index_or ids 1 []) (slice_index_or ids 2 [])) }
    {
        Mirror::with_limit(alloc, None, &ids)
    }

    /// A mirror that has taken nothing.
    fn with_limit(alloc: Global, limit: Option<usize>, ids: &[Text; 3]) -> Result<Mirror, NoMemory>
        ensures { IfOk result (λ mirror. mirror ≡ nothing_taken limit (slice_index_or ids.now 0 [])
            (slice_index_or ids.now 1 []) (slice_index_or ids.now 2 [])) }
    {
        let buffer_dump = ids[0].copy(alloc)?;
        let line_dump = ids[1].copy(alloc)?;
        let nick_dump = ids[2].copy(alloc)?;
        Ok(Mirror {
            limit,
            buffer_dump,
            line_dump,
            nick_dump,
            held: Held::none(),
        })
    }

    /// The buffers in groups, in order. None where the buffer dump was not taken.
    pub fn buffers(&self) -> Option<&Items<Items<SharedBuffer>>>
        ensures { option_map (λ groups. groups.now) result ≡ self.now.buffers }
    {
        self.held.buffers.as_ref()
    }

    /// The lines of a buffer, from the oldest, and none of them where the buffer has none or is not
    /// there. None where the line dump was not taken.
    pub fn lines(&self, buffer: Handle) -> Option<MirrorLineIter<'_>>
        ensures { option_map mirror_lines_left result
            ≡ option_map (λ part. lines_at part buffer.0) self.now.lines }
    {
        match &self.held.lines {
            Some(entries) => Some(lines_of(entries.as_slice(), buffer.0)),
            None => None,
        }
    }

    /// The nicklist of a buffer. None where the nicklist dump was not taken, or the buffer is not
    /// there.
    pub fn nicks(&self, buffer: Handle) -> Option<&Nicklist>
        ensures { option_map (λ list. list.now.rows) result ≡ option_and_then
            (λ part. get part buffer.0) self.now.nicks }
    {
        match &self.held.nicks {
            Some(entries) => nicklist_of(entries.as_slice(), buffer.0),
            None => None,
        }
    }

    /// The groups of buffers that a message tells. None where they stay as they are.
    #[tactic(auto, using(crate::proofs::KindLemmas::nothing_held))]
    fn told_groups(
        &self,
        alloc: Global,
        message: &WireMessage,
    ) -> Result<Option<Items<Items<SharedBuffer>>>, NoMemory>
        ensures { IfOk result (λ new. or_kept new self.now.buffers
            ≡ fold_buffers self.now.buffer_dump self.now.buffers message.now) }
    {
        if message.id.as_slice() == self.buffer_dump.as_slice() {
            return groups_in_dump(alloc, message);
        }
        match &self.held.buffers {
            Some(groups) => groups_in_event(alloc, groups, message),
            None => Ok(None),
        }
    }

    /// What a message tells of the buffers and of the nicklists. `BadItem` where it is a diff that
    /// can't be applied.
    fn news_in(&self, alloc: Global, message: &WireMessage) -> Result<News, DiffRefused>
        requires { well_formed message.now.objects ≡ true }
        ensures groups { IfOk result (λ news. or_kept news.groups self.now.buffers
            ≡ fold_buffers self.now.buffer_dump self.now.buffers message.now) }
        ensures step { IfOk result (λ news. fold_nicks self.now.nick_dump self.now.nicks message.now
            ≡ Ok (after_step news.step self.now.nicks)) }
        ensures err { IfErr result (λ e. RefusesDiff e
            (fold_nicks self.now.nick_dump self.now.nicks message.now)) }
    {
        let groups = self.told_groups(alloc, message)?;
        let step = nick_step(alloc, &self.nick_dump, &self.held.nicks, message)?;
        Ok(News { groups, step })
    }

    /// Folds a message. `BadItem` where it is a diff that can't be applied. Nothing changes after a
    /// refusal.
    #[tactic(auto, using(crate::proofs::FoldLemmas::fold_facts))]
    fn fold(&mut self, alloc: Global, message: &WireMessage) -> Result<(), DiffRefused>
        requires { well_formed message.now.objects ≡ true }
        ensures ok { OnOk result (parts_after self.old message.now ≡ Ok self.new) }
        ensures refused { IfErr result (λ e. RefusesDiff e (parts_after self.old message.now)) }
        ensures err { OnErr result (self.new ≡ self.old) }
    {
        let news = self.news_in(alloc, message)?;
        match self
            .held
            .fold_first(alloc, self.limit, &self.line_dump, message)
        {
            Ok(()) => {
                self.held.put(news);
                Ok(())
            }
            Err(NoMemory) => {
                drop(news);
                Err(DiffRefused::NoMemory)
            }
        }
    }

    /// Folds the message at the front of the bytes, as `take` does.
    #[tactic(auto, using(crate::proofs::TakeLemmas::take_front_facts))]
    fn take_front(&mut self, alloc: Global, bytes: &[u8]) -> Result<usize, MirrorRefused>
        ensures { TakesMessage result self.old self.new (first_message bytes.now) }
    {
        match front_of(alloc, bytes) {
            Ok(Some((message, size))) => match self.fold(alloc, &message) {
                Ok(()) => Ok(size),
                Err(DiffRefused::BadItem { place }) => Err(MirrorRefused::BadDiff { place }),
                Err(DiffRefused::NoMemory) => Err(MirrorRefused::NoMemory),
            },
            Ok(None) => Ok(0),
            Err(MessageRefused::BadAt { place }) => Err(MirrorRefused::BadMessage { place }),
            Err(MessageRefused::NoMemory) => Err(MirrorRefused::NoMemory),
        }
    }

    /// Folds the first message of WeeChat's relay protocol where a whole one is at the front of the
    /// bytes, and answers how many bytes it takes. 0 where none is there yet, as `read_message`
    /// tells.
    ///
    /// `BadMessage` where the bytes of the length that is at the front spell no message, and for a
    /// length that no message has. The mirror stays as it was after each refusal.
    pub fn take(&mut self, alloc: Global, bytes: &[u8]) -> Result<usize, MirrorRefused>
        // A message at the front is folded, unless memory is refused.
        ensures folded { (message : WireMessage) (size : ℕ) → FrontSpells message size bytes.now →
            TakesMessage result self.old self.new (Ok (Some (message, size))) }
        // Nothing changes exactly where bytes are missing.
        ensures missing { IsTrue (misses_bytes bytes.now) → TakesMessage result self.old self.new
            (Ok None) }
        ensures none { IfOk result (λ size. size ≡ 0 → IsTrue (misses_bytes bytes.now)) }
        // Which field is the first that breaks a rule.
        ensures exact { TakesMessage result self.old self.new (first_message bytes.now) }
        ensures refused { OnErr result (self.new ≡ self.old) }
    {
        self.take_front(alloc, bytes)
    }
}

/// New groups, where there are some, in place of those that are held.
fn put_groups(
    held: &mut Option<Items<Items<SharedBuffer>>>,
    groups: Option<Items<Items<SharedBuffer>>>,
)
    ensures { held.new ≡ or_kept groups held.old }
{
    if let Some(groups) = groups {
        *held = Some(groups);
    }
}

/// The message at the front of the bytes, as `read_message` gives it.
fn front_of(alloc: Global, bytes: &[u8]) -> Result<Option<(WireMessage, usize)>, MessageRefused>
    ensures front { GivesFirst result (first_message bytes.now) }
    ensures formed { IfOk result
        (λ front. IfSome front (λ found. well_formed found.0.objects ≡ true)) }
{
    read_message(alloc, bytes)
}
