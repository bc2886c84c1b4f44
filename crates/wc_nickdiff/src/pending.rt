ghost use Rattle.std.specs.Prelude.{◌≡◌, ◌==◌, ◌≤◌, ℕ, List, [], IfOk, OnOk, OnErr, length};
ghost use Rattle.std.specs.Prelude.{if◌then◌else◌, position, MatchOption};
ghost use Rattle.wc_nicklist.specs.declared.item.Key.{Key as KeyValue};
ghost use Rattle.wc_nicklist.specs.declared.item.Row.{Row as RowValue};
ghost use Rattle.wc_text.specs.declared.names.Handle.{Handle as HandleValue};
ghost use Rattle.wc_nickdiff.specs.Held.{before_at, with_touch, touches_of, AreAmong};
ghost use Rattle.wc_nickdiff.specs.NickPush.{nick_push};
ghost use Rattle.wc_nickdiff.specs.Told.{IsTold};

use crate::buffer_touches::BufferTouches;
use crate::diff_item::Push;
use crate::message::message;
use crate::row::push;
use crate::told::told_rows;
use std::alloc::Global;
use std::marker::Model;
use wc_nicklist::{Key, Nicklist, Row, Touch};
use wc_text::{Handle, Items, NoMemory};

/// What was at the first touch of each key since a buffer's last push.
#[derive(Drop)]
pub struct Pending {
    alloc: Global,
    buffers: Vec<BufferTouches>,
}

impl Model for Pending {
    ghost use Rattle.std.specs.Prelude.{List};
    ghost use Rattle.wc_nickdiff.specs.Held.{OfBuffer};

    ghost Value = { List OfBuffer };

    ghost view = { λ p. p.buffers.items };
}

impl Pending {
    /// No touches.
    pub fn new(alloc: Global) -> Result<Pending, NoMemory>
        ensures { IfOk result (λ pending. pending ≡ []) }
    {
        Ok(Pending {
            alloc,
            buffers: Vec::new(alloc),
        })
    }

    /// Where the touches of a buffer are.
    fn place(&self, buffer: Handle) -> Option<usize>
        ensures { result ≡ position (λ x. x.buffer.0 == buffer.0) self.now }
    {
        self.buffers
            .iter()
            .position(|touches| touches.is_of(buffer))
    }

    /// The touches of a buffer, where there are some.
    fn of(&self, buffer: Handle) -> Option<&BufferTouches>
        ensures touches { MatchOption result (touches_of buffer self.now ≡ [])
            (λ touches. touches.now.touches ≡ touches_of buffer self.now) }
    {
        match self.place(buffer) {
            Some(place) => Some(&self.buffers[place]),
            None => None,
        }
    }

    /// Notes the row that is under a key, where it is the key's first touch.
    fn note(&mut self, buffer: Handle, key: &Key, before: Option<Row>) -> Result<(), NoMemory>
        ensures ok { OnOk result ((b : HandleValue) → touches_of b self.new
            ≡ (if buffer.0 == b.0 then with_touch key.now before (touches_of b self.old)
            else touches_of b self.old)) }
        ensures err { OnErr result (self.new ≡ self.old) }
    {
        let alloc = self.alloc;
        let Some(place) = self.place(buffer) else {
            let mut touches = BufferTouches::new(alloc, buffer);
            touches.touch(alloc, key, before)?;
            return push(&mut self.buffers, touches);
        };
        let touches = &mut self.buffers[place];
        touches.touch(alloc, key, before)
    }

    /// The number of keys of a buffer that were touched since its last push.
    pub fn held(&self, buffer: Handle) -> u64
        ensures exact { result ≡ length (touches_of buffer self.now) }
        ensures bound { (keys : List KeyValue) → AreAmong (touches_of buffer self.now) keys →
            result ≤ length keys }
    {
        match self.of(buffer) {
            Some(touches) => touches.as_slice().len() as u64,
            None => 0,
        }
    }

    /// Drops what is kept of a buffer, whose rows now were told, or which was closed.
    pub fn forget(&mut self, buffer: Handle)
        ensures { (b : HandleValue) → touches_of b self.new ≡ (if buffer.0 == b.0 then []
            else touches_of b self.old) }
    {
        self.buffers.retain(|touches| !touches.is_of(buffer));
    }

    /// The rows that were told of a buffer.
    pub fn told(
        &self,
        alloc: Global,
        buffer: Handle,
        now: &Nicklist,
    ) -> Result<Items<Row>, NoMemory>
        ensures { IfOk result (λ rows. (told : List RowValue) →
            IsTold (λ k. before_at k (touches_of buffer self.now)) now.now.rows told →
            rows ≡ told) }
    {
        match self.of(buffer) {
            Some(touches) => told_rows(alloc, touches, now),
            None => told_rows(alloc, &BufferTouches::new(alloc, buffer), now),
        }
    }

    /// What is to be pushed of a buffer, so that the rows told become the rows now.
    pub fn message_of(
        &self,
        alloc: Global,
        buffer: Handle,
        now: &Nicklist,
    ) -> Result<Push, NoMemory>
        ensures { IfOk result (λ push. (told : List RowValue) →
            IsTold (λ k. before_at k (touches_of buffer self.now)) now.now.rows told →
            push ≡ nick_push now.now.root told now.now.rows) }
    {
        match self.of(buffer) {
            Some(touches) => message(alloc, touches, now),
            None => message(alloc, &BufferTouches::new(alloc, buffer), now),
        }
    }
}

impl Touch for Pending {
    ghost first = { λ p b k. before_at k (touches_of b p) };

    fn touch(&mut self, buffer: Handle, key: &Key, before: Option<Row>) -> Result<(), NoMemory> {
        self.note(buffer, key, before)
    }
}
