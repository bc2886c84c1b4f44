ghost use Rattle.std.specs.Prelude.{◌≡◌, ◌≢◌, ◌+◌, ◌^◌, ◌<◌, ◌≤◌, ◌++◌, ◌∷◌};
ghost use Rattle.std.specs.Prelude.{◌&&◌, ◌||◌, not, ◌==◌, Ok, Err, None, true, false, take, ℕ};
ghost use Rattle.std.specs.Prelude.{Bool, [], IsTrue, IfOk, IfSome, IsSome, IsErr, OnOk, OnErr};
ghost use Rattle.std.specs.Prelude.{length, if◌then◌else◌, All};
ghost use Rattle.std.specs.List.{list_any};
ghost use Rattle.wc_outside.specs.Faults.{NeverFall, Rose};
ghost use Rattle.wc_outside.specs.Seen.{Seen, MayWait};
ghost use Rattle.wc_outside.specs.Happenings.{wait_gives, listen_gives, accept_gives, read_gives};
ghost use Rattle.wc_outside.specs.Happenings.{write_gives, sent_of, found_no_room, found_nothing};
ghost use Rattle.wc_outside.specs.Happenings.{found_no_arrival, used_after, is_arrival};
ghost use Rattle.wc_outside.specs.Happenings.{IsReadWithin, IsPutWithin, is_link, is_listener};
ghost use Rattle.wc_outside.specs.Happenings.{IsThere, connect_gives, connected_gives};
ghost use Rattle.wc_outside.specs.Happenings.{is_connection, is_undecided};

use crate::happening::{Asked, Failed};
use wc_text::{Address, Arrival, LinkId};

/// What may be ready.
#[derive(Clone, Copy, Debug, PartialEq, Eq)]
pub enum Token {
    Listener,
    Link(LinkId),
}

/// How many sources one wait reports at most.
pub const READY_LIMIT: usize = 64;

/// The sources that a wait reported: the first `count` of `tokens`.
#[derive(Clone, Copy)]
pub struct Ready {
    pub count: usize,
    pub tokens: [Token; 64],
    ghost within: { count ≤ 64 },
}

impl Ready {
    /// No source.
    pub fn new() -> Ready
        ensures { result.count ≡ 0 }
    {
        Ready {
            count: 0,
            tokens: [Token::Listener; 64],
        }
    }
}

/// What a read gave.
#[derive(Clone, Copy, Debug, PartialEq, Eq)]
pub enum Got {
    /// So many bytes, at the front of the buffer.
    Bytes(usize),
    /// No more bytes will come.
    End,
    /// Nothing is ready.
    NotYet,
}

/// What a write did.
#[derive(Clone, Copy, Debug, PartialEq, Eq)]
pub enum Put {
    /// So many bytes of the piece were sent, from its front.
    Took(usize),
    /// There is no room.
    NotYet,
}

/// A listener at 127.0.0.1, the links that it gave, and those that were connected to others.
///
/// Contracts see a record of what was given and sent, where that is told, and of the links, the
/// sources that are ready, and the counts of faults, which are always told. An implementation that
/// is refused memory for what it tells stops telling, for good. No call waits but `wait`.
pub trait Sockets {
    /// What is seen of it.
    ghost seen: { Self → Seen };

    /// Opens the listener at this port. It fails only where the listener's count of faults rose.
    fn listen(&mut self, port: u16) -> Result<(), Failed>
        ensures told { IsTrue (seen self.new).tells → IsTrue (seen self.old).tells }
        ensures taken { IsTrue (seen self.new).tells → (seen self.new).taken ≡ (seen self.old).taken
            ++ listen_gives result }
        ensures sent { IsTrue (seen self.new).tells → (link : ℕ) → (seen self.new).sent link
            ≡ (seen self.old).sent link }
        ensures asked { IsTrue (seen self.new).tells → (seen self.new).asked ≡ (seen self.old).asked
            ++ Asked.Listen port ∷ [] }
        ensures choked { IsTrue (seen self.new).tells → (link : ℕ) → (seen self.new).choked link
            ≡ (seen self.old).choked link }
        ensures used { (seen self.new).used ≡ (seen self.old).used }
        ensures there { (link : ℕ) → (seen self.new).there link ≡ (seen self.old).there link }
        ensures undrained { (link : ℕ) → (seen self.new).undrained link
            ≡ (seen self.old).undrained link }
        ensures listening { (seen self.new).listening ≡ (seen self.old).listening }
        ensures blocked { (link : ℕ) → (seen self.new).blocked link ≡ (seen self.old).blocked link }
        ensures counts { NeverFall (seen self.old).faults (seen self.new).faults }
        ensures failed { OnErr result
            (Rose (seen self.old).faults.listens (seen self.new).faults.listens) };

    /// Waits until a source is ready or the time is over, and gives the moment, in milliseconds
    /// since 1970. `ready` then has sources that are ready: the listener, or links that are there.
    /// It fails only where the count of failed waits rose.
    ///
    /// Readiness is reported once: a source is reported where something became ready since it was
    /// last drained, and a link whose write found no room once it has room again. So who is told of
    /// a source goes on with it until it is drained, and does not wait for longer than no time while
    /// one is not. An implementation over a system that reports levels has to leave out what it
    /// reported before; one over a system that reports edges owes nothing but the numbers of links.
    fn wait(&mut self, timeout_ms: u64, ready: &mut Ready) -> Result<u64, Failed>
        requires { MayWait timeout_ms (seen self.old) }
        ensures told { IsTrue (seen self.new).tells → IsTrue (seen self.old).tells }
        ensures taken { IsTrue (seen self.new).tells → (seen self.new).taken ≡ (seen self.old).taken
            ++ wait_gives result }
        ensures sent { IsTrue (seen self.new).tells → (link : ℕ) → (seen self.new).sent link
            ≡ (seen self.old).sent link }
        ensures asked { IsTrue (seen self.new).tells → (seen self.new).asked
            ≡ (seen self.old).asked }
        ensures choked { IsTrue (seen self.new).tells → (link : ℕ) → (seen self.new).choked link
            ≡ (seen self.old).choked link }
        ensures used { (seen self.new).used ≡ (seen self.old).used }
        ensures there { (link : ℕ) → (seen self.new).there link ≡ (seen self.old).there link }
        ensures tokens { OnOk result
            (All (IsThere (seen self.old).there) (take ready.new.count ready.new.tokens)) }
        ensures undrained { OnOk result ((link : ℕ) → (seen self.new).undrained link
            ≡ (seen self.old).undrained link || list_any (is_link link)
            (take ready.new.count ready.new.tokens)) }
        ensures listening { OnOk result ((seen self.new).listening ≡ (seen self.old).listening
            || list_any is_listener (take ready.new.count ready.new.tokens)) }
        ensures listening_as_before { OnErr result ((seen self.new).listening
            ≡ (seen self.old).listening) }
        ensures undrained_as_before { OnErr result ((link : ℕ) → (seen self.new).undrained link
            ≡ (seen self.old).undrained link) }
        ensures freed { OnOk result ((link : ℕ) → (seen self.new).blocked link
            ≡ (seen self.old).blocked link && not (list_any (is_link link)
            (take ready.new.count ready.new.tokens))) }
        ensures blocked_as_before { OnErr result ((link : ℕ) → (seen self.new).blocked link
            ≡ (seen self.old).blocked link) }
        ensures counts { NeverFall (seen self.old).faults (seen self.new).faults }
        ensures failed { OnErr result
            (Rose (seen self.old).faults.waits (seen self.new).faults.waits) };

    /// Takes an arrival, whose link has the next number. It gives none only where none is ready or
    /// 2^62 numbers are used, and the listener is then drained. It fails only where the listener's
    /// count of faults rose.
    fn accept(&mut self) -> Result<Option<Arrival>, Failed>
        ensures told { IsTrue (seen self.new).tells → IsTrue (seen self.old).tells }
        ensures taken { IsTrue (seen self.new).tells → (seen self.new).taken ≡ (seen self.old).taken
            ++ accept_gives result }
        ensures sent { IsTrue (seen self.new).tells → (link : ℕ) → (seen self.new).sent link
            ≡ (seen self.old).sent link }
        ensures asked { IsTrue (seen self.new).tells → (seen self.new).asked
            ≡ (seen self.old).asked }
        ensures choked { IsTrue (seen self.new).tells → (link : ℕ) → (seen self.new).choked link
            ≡ (seen self.old).choked link }
        ensures used { (seen self.new).used ≡ used_after (seen self.old).used result }
        ensures next { IfOk result
            (λ found. IfSome found (λ arrival. arrival.link.0 ≡ (seen self.old).used + 1)) }
        ensures limit { IfOk result (λ found. IsSome found → (seen self.new).used ≤ 2 ^ 62) }
        ensures there { (link : ℕ) → (seen self.new).there link ≡ (seen self.old).there link
            || is_arrival link result }
        ensures undrained { (link : ℕ) → (seen self.new).undrained link
            ≡ (seen self.old).undrained link }
        ensures listening { (seen self.new).listening ≡ (seen self.old).listening
            && not (found_no_arrival result) }
        ensures blocked { (link : ℕ) → (seen self.new).blocked link ≡ (seen self.old).blocked link }
        ensures counts { NeverFall (seen self.old).faults (seen self.new).faults }
        ensures failed { OnErr result
            (Rose (seen self.old).faults.listens (seen self.new).faults.listens) };

    /// Begins a connection to this address, whose link has the next number and is there from then
    /// on. Whether it stands is told by `connected`. It fails only where the count of failed
    /// connections rose, and uses the next number up all the same.
    fn connect(&mut self, to: Address) -> Result<LinkId, Failed>
        requires { (seen self.old).used < 2 ^ 62 }
        ensures told { IsTrue (seen self.new).tells → IsTrue (seen self.old).tells }
        ensures taken { IsTrue (seen self.new).tells → (seen self.new).taken ≡ (seen self.old).taken
            ++ connect_gives (seen self.old).used result }
        ensures sent { IsTrue (seen self.new).tells → (link : ℕ) → (seen self.new).sent link
            ≡ (seen self.old).sent link }
        ensures asked { IsTrue (seen self.new).tells → (seen self.new).asked ≡ (seen self.old).asked
            ++ Asked.Connect to ∷ [] }
        ensures choked { IsTrue (seen self.new).tells → (link : ℕ) → (seen self.new).choked link
            ≡ (seen self.old).choked link }
        ensures used { (seen self.new).used ≡ (seen self.old).used + 1 }
        ensures next { IfOk result (λ link. link.0 ≡ (seen self.old).used + 1) }
        ensures there { (link : ℕ) → (seen self.new).there link ≡ (seen self.old).there link
            || is_connection link result }
        ensures undrained { (link : ℕ) → (seen self.new).undrained link
            ≡ (seen self.old).undrained link }
        ensures listening { (seen self.new).listening ≡ (seen self.old).listening }
        ensures blocked { (link : ℕ) → (seen self.new).blocked link ≡ (seen self.old).blocked link }
        ensures counts { NeverFall (seen self.old).faults (seen self.new).faults }
        ensures failed { OnErr result
            (Rose (seen self.old).faults.connects (seen self.new).faults.connects) };

    /// Whether the connection of a link stands. False only where that is not decided yet, and the
    /// link is then drained: a wait reports it once it is decided. It fails only where the links'
    /// count of faults rose, as where the peer refused the connection, and always for a link that
    /// is not there.
    fn connected(&mut self, link: LinkId) -> Result<bool, Failed>
        ensures told { IsTrue (seen self.new).tells → IsTrue (seen self.old).tells }
        ensures taken { IsTrue (seen self.new).tells → (seen self.new).taken ≡ (seen self.old).taken
            ++ connected_gives link result }
        ensures sent { IsTrue (seen self.new).tells → (other : ℕ) → (seen self.new).sent other
            ≡ (seen self.old).sent other }
        ensures asked { IsTrue (seen self.new).tells → (seen self.new).asked
            ≡ (seen self.old).asked }
        ensures choked { IsTrue (seen self.new).tells → (other : ℕ) → (seen self.new).choked other
            ≡ (seen self.old).choked other }
        ensures used { (seen self.new).used ≡ (seen self.old).used }
        ensures there { (other : ℕ) → (seen self.new).there other ≡ (seen self.old).there other }
        ensures known { (seen self.old).there link.0 ≡ false → IsErr result }
        ensures undrained { (other : ℕ) → (seen self.new).undrained other
            ≡ (seen self.old).undrained other && not (other == link.0 && is_undecided result) }
        ensures listening { (seen self.new).listening ≡ (seen self.old).listening }
        ensures blocked { (other : ℕ) → (seen self.new).blocked other
            ≡ (seen self.old).blocked other }
        ensures counts { NeverFall (seen self.old).faults (seen self.new).faults }
        ensures failed { OnErr result
            (Rose (seen self.old).faults.links (seen self.new).faults.links) };

    /// Reads bytes of a link to the front of the buffer. It gives `NotYet` only where nothing was
    /// ready, and the link is then drained. It fails only where the links' count of faults rose,
    /// and always for a link that is not there.
    fn read(&mut self, link: LinkId, into: &mut [u8]) -> Result<Got, Failed>
        requires { 0 < length into.old }
        ensures told { IsTrue (seen self.new).tells → IsTrue (seen self.old).tells }
        ensures taken { IsTrue (seen self.new).tells → (seen self.new).taken ≡ (seen self.old).taken
            ++ read_gives link into.new result }
        ensures sent { IsTrue (seen self.new).tells → (other : ℕ) → (seen self.new).sent other
            ≡ (seen self.old).sent other }
        ensures asked { IsTrue (seen self.new).tells → (seen self.new).asked
            ≡ (seen self.old).asked }
        ensures choked { IsTrue (seen self.new).tells → (other : ℕ) → (seen self.new).choked other
            ≡ (seen self.old).choked other }
        ensures used { (seen self.new).used ≡ (seen self.old).used }
        ensures there { (other : ℕ) → (seen self.new).there other ≡ (seen self.old).there other }
        ensures known { (seen self.old).there link.0 ≡ false → IsErr result }
        ensures undrained { (other : ℕ) → (seen self.new).undrained other
            ≡ (seen self.old).undrained other && not (other == link.0 && found_nothing result) }
        ensures listening { (seen self.new).listening ≡ (seen self.old).listening }
        ensures blocked { (other : ℕ) → (seen self.new).blocked other
            ≡ (seen self.old).blocked other }
        ensures within { IfOk result (IsReadWithin (length into.old)) }
        ensures counts { NeverFall (seen self.old).faults (seen self.new).faults }
        ensures failed { OnErr result
            (Rose (seen self.old).faults.links (seen self.new).faults.links) };

    /// Sends bytes from the front of the piece: at least one, where it has one. It gives `NotYet`
    /// only where there was no room for any. It fails only where the links' count of faults rose,
    /// and always for a link that is not there.
    fn write(&mut self, link: LinkId, piece: &[u8]) -> Result<Put, Failed>
        ensures told { IsTrue (seen self.new).tells → IsTrue (seen self.old).tells }
        ensures taken { IsTrue (seen self.new).tells → (seen self.new).taken ≡ (seen self.old).taken
            ++ write_gives link result }
        ensures sent { IsTrue (seen self.new).tells → (other : ℕ) → (seen self.new).sent other
            ≡ (seen self.old).sent other ++ (if other == link.0
            then sent_of piece.now result else []) }
        ensures asked { IsTrue (seen self.new).tells → (seen self.new).asked
            ≡ (seen self.old).asked }
        ensures choked { IsTrue (seen self.new).tells → (other : ℕ) → (seen self.new).choked other
            ≡ (seen self.old).choked other }
        ensures used { (seen self.new).used ≡ (seen self.old).used }
        ensures there { (other : ℕ) → (seen self.new).there other ≡ (seen self.old).there other }
        ensures known { (seen self.old).there link.0 ≡ false → IsErr result }
        ensures undrained { (other : ℕ) → (seen self.new).undrained other
            ≡ (seen self.old).undrained other }
        ensures listening { (seen self.new).listening ≡ (seen self.old).listening }
        ensures blocked { (other : ℕ) → (seen self.new).blocked other
            ≡ (if other == link.0 then found_no_room result else (seen self.old).blocked other) }
        ensures within { IfOk result (IsPutWithin (length piece.now)) }
        ensures counts { NeverFall (seen self.old).faults (seen self.new).faults }
        ensures failed { OnErr result
            (Rose (seen self.old).faults.links (seen self.new).faults.links) };

    /// Gives a link up. It takes no memory, and does nothing for a link that is not there.
    fn close(&mut self, link: LinkId)
        ensures told { IsTrue (seen self.new).tells → IsTrue (seen self.old).tells }
        ensures taken { IsTrue (seen self.new).tells → (seen self.new).taken
            ≡ (seen self.old).taken }
        ensures sent { IsTrue (seen self.new).tells → (other : ℕ) → (seen self.new).sent other
            ≡ (seen self.old).sent other }
        ensures asked { IsTrue (seen self.new).tells → (seen self.new).asked
            ≡ (seen self.old).asked }
        ensures choked { IsTrue (seen self.new).tells → (other : ℕ) → (seen self.new).choked other
            ≡ (seen self.old).choked other || (other == link.0 && (seen self.old).blocked other) }
        ensures used { (seen self.new).used ≡ (seen self.old).used }
        ensures there { (other : ℕ) → (seen self.new).there other ≡ (seen self.old).there other
            && not (other == link.0) }
        ensures undrained { (other : ℕ) → (seen self.new).undrained other
            ≡ (seen self.old).undrained other && not (other == link.0) }
        ensures listening { (seen self.new).listening ≡ (seen self.old).listening }
        ensures blocked { (other : ℕ) → (seen self.new).blocked other
            ≡ (seen self.old).blocked other && not (other == link.0) }
        ensures counts { NeverFall (seen self.old).faults (seen self.new).faults };
}
