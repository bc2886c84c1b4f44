//! What a client is told of nicklists: the pushes, and the lists of one buffer or of all.

ghost use Rattle.std.specs.Prelude.{◌≡◌, true, IfSome, option_map};
ghost use Rattle.wc_objects.specs.Forms.{well_formed};
ghost use Rattle.wc_events.specs.NickForms.{IsPushText};
ghost use Rattle.wc_events.specs.NickObjects.{nick_dump, nick_list, push_kind, push_objects};
ghost use Rattle.wc_events.specs.Nicks.{nicks_keys, nicks_objects};

use wc_keys::KeyList;
use wc_model::EventKind;
use wc_nickdiff::{DiffItem, Push};
use wc_nicklist::{Item, Nicklist};
use wc_text::{Handle, Items};
use wc_world::World;

/// Groups and nicks that are told in one message, lent by who has them.
#[derive(Clone, Copy)]
pub enum Nicks<'a> {
    /// The nicklists of all buffers, in the order of groups: of each the root and its rows.
    All(&'a World),
    /// The root and the rows of the nicklist of a buffer.
    Of {
        buffer: Handle,
        list: &'a Nicklist,
    },
    /// What is pushed of a buffer, the root and all rows.
    Full {
        buffer: Handle,
        items: &'a Items<Item>,
    },
    /// What is pushed of a buffer, as a diff.
    Diff {
        buffer: Handle,
        items: &'a Items<DiffItem>,
    },
}

impl<'a> Nicks<'a> {
    /// The nicklists of all buffers.
    pub fn of_all(world: &'a World) -> Nicks<'a>
        ensures objects { nicks_objects result ≡ nick_dump world.now }
        ensures formed { well_formed (nicks_objects result) ≡ true }
    {
        // what the buffers and the rows say of themselves
        let _buffers = world.buffers().groups();
        let _rows = world.nicks(Handle(1));
        Nicks::All(world)
    }

    /// The nicklist of a buffer. None where the buffer is not there.
    pub fn of_buffer(world: &'a World, buffer: Handle) -> Option<Nicks<'a>>
        ensures objects { option_map nicks_objects result ≡ nick_list world.now buffer }
        ensures formed { IfSome result (λ nicks. well_formed (nicks_objects nicks) ≡ true) }
    {
        match world.nicks(buffer) {
            Some(list) => Some(Nicks::Of { buffer, list }),
            None => None,
        }
    }

    /// What is pushed of the nicklist of a buffer. None where there is nothing to push.
    pub fn of_push(buffer: Handle, push: &'a Push) -> Option<Nicks<'a>>
        ensures objects { option_map nicks_objects result ≡ push_objects buffer push.now }
        ensures formed { IfSome result (λ nicks. IsPushText push.now →
            well_formed (nicks_objects nicks) ≡ true) }
    {
        match push {
            Push::Nothing => None,
            Push::Diff(items) => Some(Nicks::Diff { buffer, items }),
            Push::Full(items) => Some(Nicks::Full { buffer, items }),
        }
    }

    /// The keys under which they are told.
    pub(crate) fn keys(self) -> KeyList
        ensures { result ≡ nicks_keys self.entry }
    {
        match self {
            Nicks::All(_) | Nicks::Of { .. } | Nicks::Full { .. } => KeyList::Nicks,
            Nicks::Diff { .. } => KeyList::Diff,
        }
    }
}

/// The event as which a push is told. Nothing is told as a touch, which no client is told of.
pub fn push_kind(push: &Push) -> EventKind
    ensures { result ≡ push_kind push.now }
{
    match push {
        Push::Nothing => EventKind::NickTouched,
        Push::Diff(_) => EventKind::NicklistDiff,
        Push::Full(_) => EventKind::Nicklist,
    }
}
