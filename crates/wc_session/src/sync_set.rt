ghost use Rattle.std.specs.Prelude.{◌≡◌};
ghost use Rattle.wc_session.specs.Sync.{has, no_options, usual_options, options_named, options_asked};
ghost use Rattle.wc_session.specs.Sync.{of_buffer, union, difference, wants};

use wc_keys::{Asked, event_asked};
use wc_model::EventKind;
use wc_text::{Handle, Items, Text};

/// The options of `sync`: which events a client asked for.
#[derive(Clone, Copy, Debug, PartialEq, Eq)]
pub struct SyncSet {
    pub buffers: bool,
    pub upgrade: bool,
    pub buffer: bool,
    pub nicklist: bool,
    pub trims: bool,
}

pub(crate) fn has(names: &[Text], name: &[u8]) -> bool
    ensures { result ≡ has name.now names.now }
{
    names.iter().any(|other| other.as_slice() == name)
}

impl SyncSet {
    /// No option.
    pub fn none() -> SyncSet
        ensures { result ≡ no_options }
    {
        SyncSet {
            buffers: false,
            upgrade: false,
            buffer: false,
            nicklist: false,
            trims: false,
        }
    }

    /// What a request asks for that names no option: each one but for `trims`, which WeeChat does not
    /// have.
    pub fn usual() -> SyncSet
        ensures { result ≡ usual_options }
    {
        SyncSet {
            buffers: true,
            upgrade: true,
            buffer: true,
            nicklist: true,
            trims: false,
        }
    }

    /// The options of these names. Other names are passed over.
    pub fn named(names: &[Text]) -> SyncSet
        ensures { result ≡ options_named names.now }
    {
        SyncSet {
            buffers: has(names, b"buffers"),
            upgrade: has(names, b"upgrade"),
            buffer: has(names, b"buffer"),
            nicklist: has(names, b"nicklist"),
            trims: has(names, b"trims"),
        }
    }

    /// The options that a request asks for. Where it names none, the usual ones.
    pub fn asked(options: &Option<Items<Text>>) -> SyncSet
        ensures { result ≡ options_asked options.now }
    {
        match options {
            Some(names) => SyncSet::named(names.as_slice()),
            None => SyncSet::usual(),
        }
    }

    /// What of the options there is for one buffer.
    pub fn of_buffer(self) -> SyncSet
        ensures { result ≡ of_buffer self }
    {
        SyncSet {
            buffers: false,
            upgrade: false,
            ..self
        }
    }

    /// The options of either.
    pub fn union(self, other: SyncSet) -> SyncSet
        ensures { result ≡ union self other }
    {
        SyncSet {
            buffers: self.buffers || other.buffers,
            upgrade: self.upgrade || other.upgrade,
            buffer: self.buffer || other.buffer,
            nicklist: self.nicklist || other.nicklist,
            trims: self.trims || other.trims,
        }
    }

    /// The options of this one alone.
    pub fn difference(self, other: SyncSet) -> SyncSet
        ensures { result ≡ difference self other }
    {
        SyncSet {
            buffers: self.buffers && !other.buffers,
            upgrade: self.upgrade && !other.upgrade,
            buffer: self.buffer && !other.buffer,
            nicklist: self.nicklist && !other.nicklist,
            trims: self.trims && !other.trims,
        }
    }

    /// Whether it has one of the options of which an event needs one.
    pub fn wants(self, kind: EventKind) -> bool
        ensures { result ≡ wants kind self }
    {
        match event_asked(kind) {
            Asked::Buffers => self.buffers,
            Asked::Buffer => self.buffer,
            Asked::Either => self.buffers || self.buffer,
            Asked::Nicklist => self.nicklist,
            Asked::Trims => self.trims,
            Asked::Nothing => false,
        }
    }
}

/// The options that a client asked for of one buffer.
#[derive(Clone, Copy, Debug, PartialEq, Eq)]
pub struct BufferSet {
    pub buffer: Handle,
    pub set: SyncSet,
}
