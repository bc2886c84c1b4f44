ghost use Rattle.std.specs.Prelude.{◌≡◌, List, [], false, IfOk, IfSome, MatchOption};
ghost use Rattle.std.specs.Str.{IsUtf8};
ghost use Rattle.wc_buffers.specs.Calls.{is_there};
ghost use Rattle.wc_model.specs.Parts.{flag_part, trim_part};
ghost use Rattle.wc_model.specs.World.{World as WorldValue, rows_at, root_at};
ghost use Rattle.wc_nickdiff.specs.Held.{before_at, touches_of};
ghost use Rattle.wc_nickdiff.specs.NickPush.{nick_push};
ghost use Rattle.wc_nickdiff.specs.Told.{IsTold};
ghost use Rattle.wc_nicklist.specs.declared.item.Row.{Row};
ghost use Rattle.wc_session.specs.Event.{IsEventOf, IsPushOf, IsPushKind, push_messages};
ghost use Rattle.wc_session.specs.Sending.{Sends};
ghost use Rattle.wc_events.specs.NickForms.{IsPushText};

use crate::sending::{send, send_event, send_flags, send_nicks};
use bytes::BytesMut;
use std::alloc::Global;
use std::marker::Model;
use wc_events::{FlipLookup, Nicks, event_id, push_kind, trim_objects};
use wc_model::{EventKind, Notice, Trim};
use wc_nickdiff::{Pending, Push};
use wc_text::{Handle, NoMemory};
use wc_world::World;

/// The event of a notice or of a push, as it is sent. Its bytes are none where nothing is told, or
/// the message would be too long.
#[derive(Drop)]
pub struct BufferEvent {
    kind: EventKind,
    buffer: Handle,
    bytes: BytesMut,
}

impl Model for BufferEvent {
    ghost use Rattle.wc_session.specs.Event.{Spelled};

    ghost Value = { Spelled };

    ghost view = { λ event. record {
      kind = event.kind;
      buffer = event.buffer;
      bytes = event.bytes.items;
    } };
}

impl BufferEvent {
    /// Spells the event of a notice, in the world after the change, for however many clients are to
    /// be sent it.
    pub fn of(alloc: Global, world: &World, notice: &Notice) -> Result<BufferEvent, NoMemory>
        requires text { IsUtf8 notice.now.full_name }
        ensures { IfOk result (λ event. IsEventOf event world.now notice.now) }
    {
        let mut bytes = BytesMut::new(alloc);
        send_event(alloc, &mut bytes, world, notice)?;
        Ok(BufferEvent {
            kind: notice.kind,
            buffer: notice.buffer,
            bytes,
        })
    }

    /// Spells the event of a buffer's lines whose flags differ, in the world after the change, for
    /// however many clients are to be sent it. It has no bytes where there are no such lines.
    pub fn of_flags(
        alloc: Global,
        world: &World,
        buffer: Handle,
        flips: &FlipLookup<'_>,
    ) -> Result<BufferEvent, NoMemory>
        ensures { IfOk result (λ event.
            IsEventOf event world.now (flag_part flips.now buffer.0)) }
    {
        let mut bytes = BytesMut::new(alloc);
        send_flags(&mut bytes, world, buffer, flips)?;
        Ok(BufferEvent {
            kind: EventKind::LineDataChanged,
            buffer,
            bytes,
        })
    }

    /// Spells the event of the oldest lines that a buffer lost, which is the same in each world, for
    /// however many clients are to be sent it.
    pub fn of_trim(alloc: Global, trim: Trim) -> Result<BufferEvent, NoMemory>
        ensures { IfOk result (λ event. (world : WorldValue) →
            IsEventOf event world (trim_part trim)) }
    {
        let kind = EventKind::LinesTrimmed;
        let objects = trim_objects(alloc, trim)?;
        let mut bytes = BytesMut::new(alloc);
        let _fits = send(&mut bytes, event_id(kind), objects.as_slice())?;
        Ok(BufferEvent {
            kind,
            buffer: trim.buffer,
            bytes,
        })
    }

    /// Spells the event of a push of a buffer's nicklist, for however many clients are to be sent
    /// it.
    pub fn of_push(alloc: Global, buffer: Handle, push: &Push) -> Result<BufferEvent, NoMemory>
        requires text { IsPushText push.now }
        ensures { IfOk result (λ event. IsPushOf event buffer push.now) }
    {
        push_event(alloc, buffer, push)
    }

    /// Spells what became of the nicklist of a buffer since it was told, for however many clients
    /// are to be sent it. None exactly where the buffer is not there.
    pub fn of_nicks(
        alloc: Global,
        world: &World,
        pending: &Pending,
        buffer: Handle,
    ) -> Result<Option<BufferEvent>, NoMemory>
        ensures told { IfOk result (λ told. MatchOption told (is_there buffer world.now.groups ≡ false)
            (λ event. (told : List Row) → IsTold (λ k. before_at k (touches_of buffer pending.now))
            (rows_at world.now buffer.0) told →
            IsPushOf event buffer
            (nick_push (root_at buffer.0) told (rows_at world.now buffer.0)))) }
        ensures kind { IfOk result (λ told. IfSome told (λ event. IsPushKind event.kind)) }
    {
        let Some(list) = world.nicks(buffer) else {
            return Ok(None);
        };
        let _ = list.count();
        let push = pending.message_of(alloc, buffer, list)?;
        Ok(Some(push_event(alloc, buffer, &push)?))
    }

    /// What happened.
    pub fn kind(&self) -> EventKind
        ensures { result ≡ self.now.kind }
    {
        self.kind
    }

    /// The buffer to which it happened.
    pub fn buffer(&self) -> Handle
        ensures { result ≡ self.now.buffer }
    {
        self.buffer
    }

    /// The bytes of its message.
    pub fn as_slice(&self) -> &[u8]
        ensures { result.now ≡ self.now.bytes }
    {
        self.bytes.as_slice()
    }
}

fn push_event(alloc: Global, buffer: Handle, push: &Push) -> Result<BufferEvent, NoMemory>
    ensures event { IfOk result (λ event. IsPushText push.now → IsPushOf event buffer push.now) }
    ensures kind { IfOk result (λ event. IsPushKind event.kind) }
{
    let kind = push_kind(push);
    let bytes = push_bytes(alloc, buffer, push)?;
    Ok(BufferEvent {
        kind,
        buffer,
        bytes,
    })
}

/// The bytes of a push.
fn push_bytes(alloc: Global, buffer: Handle, push: &Push) -> Result<BytesMut, NoMemory>
    ensures { IfOk result (λ bytes. IsPushText push.now →
        Sends [] bytes.items (push_messages buffer push.now)) }
{
    let mut bytes = BytesMut::new(alloc);
    let Some(nicks) = Nicks::of_push(buffer, push) else {
        return Ok(bytes);
    };
    let _fits = send_nicks(&mut bytes, event_id(push_kind(push)), nicks)?;
    Ok(bytes)
}
