ghost use Rattle.std.specs.Prelude.{◌≡◌, ◌≤◌, length, position};
ghost use Rattle.std.specs.List.{position_or_len};
ghost use Rattle.wc_scripted.specs.Scripts.{is_wake, is_arrival, is_for, nonce_of};

use wc_text::{LinkId, Text};

/// A step of the script of a `MemorySockets`.
///
/// What is between one `Wake` and the next is released by the wait that comes back at the first of
/// them, and that wait reports it. A step for a link that is not there yet waits for that link: the
/// next wait after the accept or the connect reports it. One for a link that is closed is passed
/// over.
#[derive(Drop)]
pub enum Scripted {
    /// A wait comes back at this moment, in milliseconds since 1970.
    Wake(u64),
    /// A client comes, with this nonce.
    Arrive([u8; 16]),
    /// The connection of a link stands. A read finds nothing of the link before `connected` found it.
    Stands(LinkId),
    /// Bytes come on a link.
    Gives(LinkId, Text),
    /// The bytes of a link come to their end.
    Ends(LinkId),
}

impl Scripted {
    /// Whether a wait comes back at it.
    pub(crate) fn is_wake(&self) -> bool
        ensures { result ≡ is_wake self.now }
    {
        matches!(self, Scripted::Wake(_))
    }

    /// Whether a client comes by it.
    pub(crate) fn is_arrival(&self) -> bool
        ensures { result ≡ is_arrival self.now }
    {
        matches!(self, Scripted::Arrive(_))
    }

    /// The nonce of the client that comes by it.
    pub(crate) fn nonce(&self) -> Option<[u8; 16]>
        ensures { result ≡ nonce_of self.now }
    {
        match self {
            Scripted::Arrive(nonce) => Some(*nonce),
            Scripted::Wake(_) | Scripted::Stands(_) | Scripted::Gives(_, _) | Scripted::Ends(_) =>
                None,
        }
    }

    /// Whether something is found of this link by it.
    pub(crate) fn is_for(&self, link: LinkId) -> bool
        ensures { result ≡ is_for link.0 self.now }
    {
        match self {
            Scripted::Gives(other, bytes) => *other == link && !bytes.as_slice().is_empty(),
            Scripted::Stands(other) | Scripted::Ends(other) => *other == link,
            Scripted::Wake(_) | Scripted::Arrive(_) => false,
        }
    }
}

/// The place of the next wake.
fn wake_place(steps: &[Scripted]) -> Option<usize>
    ensures { result ≡ position is_wake steps.now }
{
    steps.iter().position(|step| step.is_wake())
}

/// How many steps are before the next wake.
pub(crate) fn before_wake(steps: &[Scripted]) -> usize
    ensures place { result ≡ position_or_len is_wake steps.now }
    ensures within { result ≤ length steps.now }
{
    wake_place(steps).unwrap_or(steps.len())
}

/// The place of the next arrival.
fn arrival_place(steps: &[Scripted]) -> Option<usize>
    ensures { result ≡ position is_arrival steps.now }
{
    steps.iter().position(|step| step.is_arrival())
}

/// How many steps are before the next arrival.
pub(crate) fn before_arrival(steps: &[Scripted]) -> usize
    ensures place { result ≡ position_or_len is_arrival steps.now }
    ensures within { result ≤ length steps.now }
{
    arrival_place(steps).unwrap_or(steps.len())
}

/// The place of the next step of a link.
fn link_place(steps: &[Scripted], link: LinkId) -> Option<usize>
    ensures { result ≡ position (is_for link.0) steps.now }
{
    steps.iter().position(|step| step.is_for(link))
}

/// How many steps are before the next one of a link.
pub(crate) fn before_link(steps: &[Scripted], link: LinkId) -> usize
    ensures place { result ≡ position_or_len (is_for link.0) steps.now }
    ensures within { result ≤ length steps.now }
{
    link_place(steps, link).unwrap_or(steps.len())
}
