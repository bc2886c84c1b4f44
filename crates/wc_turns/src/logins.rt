//! Links that are read in a turn: of clients that did not log in, those up to the first login by
//! PBKDF2 that is decided.
//!
//! Such a password takes long to check, as it is meant to. With one check in a turn, whoever tries
//! passwords on many links keeps clients that are in waiting for one of them, and not for all.
ghost use Rattle.std.specs.Prelude.{◌≡◌, ◌≢◌, ◌⊎◌, ◌≤◌, ◌+◌, ℕ, IsTrue, true, false};
ghost use Rattle.wc_turns.specs.Contained.{KeepsLinks};
ghost use Rattle.wc_turns.specs.Parties.{IsCalm};
ghost use Rattle.wc_turns.specs.Sources.{NothingBecameReady, IsReadUp, bytes_taken, arrivals};
ghost use Rattle.wc_turns.specs.Sources.{is_guest_on, is_slow_on, IsServedAfter, DecidesBy};
ghost use Rattle.wc_turns.specs.Sources.{ReadsGuests};
ghost use Rattle.wc_turns.specs.Turns.{LoopStep, AgreesWithSockets};

use crate::connect::stand_link;
use crate::headless::Headless;
use crate::serve::{is_left_over, lesser};
use crate::turns::read_link;
use wc_core::Connection;
use wc_outside::{Ready, Sockets, Token};
use wc_text::LinkId;

/// How many sources are served first in a turn at most.
const MOST_FIRST: usize = 65;

/// The sources that are served first in a turn, in order: the link of the guest that waits longest,
/// where one does, and then those that the wait named. So no guest is passed for ever by others.
#[derive(Clone, Copy)]
pub(crate) struct Order {
    tokens: [Token; 65],
    count: usize,
    ghost within: { count ≤ 65 },
}

impl Order {
    /// The order of a turn whose wait named these.
    pub(crate) fn of(headless: &Headless, ready: &Ready) -> Order {
        let named = &ready.tokens[..ready.count];
        let mut tokens = [Token::Listener; MOST_FIRST];
        let mut count = 0;
        if let Some(link) = first_waiting(headless, named) {
            tokens[0] = Token::Link(link);
            count = 1;
        }
        tokens[count..count + named.len()].copy_from_slice(named);
        Order {
            tokens,
            count: count + named.len(),
        }
    }

    pub(crate) fn as_slice(&self) -> &[Token] {
        &self.tokens[..self.count]
    }
}

/// The link with the least number of a guest that an earlier turn left undrained, and that these tokens
/// do not name.
fn first_waiting(headless: &Headless, tokens: &[Token]) -> Option<LinkId> {
    let mut first = None;
    for state in headless.links() {
        if is_left_over(state, tokens) && is_guest(headless.core.connections(), state.link) {
            first = lesser(first, state.link, 0);
        }
    }
    first
}

/// Whether the client of a link is open and did not log in.
fn is_guest(connections: &[Connection], link: LinkId) -> bool
    ensures { result ≡ is_guest_on link.0 connections.now }
{
    connections.iter().any(|connection| {
        connection.session.link() == link && connection.is_open() && !connection.session.logged_in()
    })
}

/// Whether the client of a link did not log in, and is to do so by a password that takes long to check.
fn is_slow(connections: &[Connection], link: LinkId) -> bool
    ensures { result ≡ is_slow_on link.0 connections.now }
{
    connections.iter().any(|connection| {
        connection.session.link() == link
            && connection.is_open()
            && !connection.session.logged_in()
            && connection.session.proves_slowly()
    })
}

/// Serves a link that is ready: asks whether it stands, where that is not known, and reads it.
fn serve_link<S: Sockets>(headless: &mut Headless, sockets: &mut S, link: LinkId)
    requires agrees { AgreesWithSockets headless.old (S.seen sockets.old) }
    requires calm { IsCalm headless.old.core }
    requires going { headless.old.core.quits ≡ false }
    ensures continues { LoopStep true 0 0 headless.old headless.new (S.seen sockets.old)
        (S.seen sockets.new) }
    ensures calm { IsCalm headless.new.core }
    ensures falls { NothingBecameReady (S.seen sockets.old) (S.seen sockets.new) }
    ensures served { headless.new.core.quits ≡ false →
        IsReadUp link.0 (S.seen sockets.old) (S.seen sockets.new) }
    ensures within { IsTrue (S.seen sockets.new).tells →
        bytes_taken link.0 (S.seen sockets.new).taken ≤ bytes_taken link.0
        (S.seen sockets.old).taken + 1048576 }
    ensures others { IsTrue (S.seen sockets.new).tells → (other : ℕ) → other ≢ link.0 →
        bytes_taken other (S.seen sockets.new).taken ≡ bytes_taken other
        (S.seen sockets.old).taken }
    ensures clients { IsTrue (S.seen sockets.new).tells → arrivals (S.seen sockets.new).taken
        ≡ arrivals (S.seen sockets.old).taken }
    ensures contained { KeepsLinks headless.old headless.new }
{
    if !headless.links.is_connecting(link) {
        read_link(headless, sockets, link);
        return;
    }
    if stand_link(headless, sockets, link) {
        read_link(headless, sockets, link);
    }
}

/// Serves a link that is ready, but for that of a guest where a slow login was decided: it stays
/// undrained, so that the next turn follows at once. Whether a slow login was decided by then.
pub(crate) fn serve_in_turn<S: Sockets>(
    headless: &mut Headless,
    sockets: &mut S,
    link: LinkId,
    decided: bool,
) -> bool
    requires agrees { AgreesWithSockets headless.old (S.seen sockets.old) }
    requires calm { IsCalm headless.old.core }
    requires going { headless.old.core.quits ≡ false }
    ensures continues { LoopStep true 0 0 headless.old headless.new (S.seen sockets.old)
        (S.seen sockets.new) }
    ensures calm { IsCalm headless.new.core }
    ensures falls { NothingBecameReady (S.seen sockets.old) (S.seen sockets.new) }
    ensures served { headless.new.core.quits ≡ false → IsServedAfter decided link.0 headless.old
        headless.new (S.seen sockets.old) (S.seen sockets.new) }
    ensures decides { result ≡ true → DecidesBy decided link.0 headless.old headless.new
        (S.seen sockets.old) (S.seen sockets.new) }
    ensures once { ReadsGuests decided result headless.old headless.new (S.seen sockets.old)
        (S.seen sockets.new) }
    ensures within { IsTrue (S.seen sockets.new).tells →
        bytes_taken link.0 (S.seen sockets.new).taken ≤ bytes_taken link.0
        (S.seen sockets.old).taken + 1048576 }
    ensures others { IsTrue (S.seen sockets.new).tells → (other : ℕ) → other ≢ link.0 →
        bytes_taken other (S.seen sockets.new).taken ≡ bytes_taken other
        (S.seen sockets.old).taken }
    ensures clients { IsTrue (S.seen sockets.new).tells → arrivals (S.seen sockets.new).taken
        ≡ arrivals (S.seen sockets.old).taken }
    ensures contained { KeepsLinks headless.old headless.new }
{
    if decided && is_guest(headless.core.connections(), link) {
        return true;
    }
    let slow = is_slow(headless.core.connections(), link);
    serve_link(headless, sockets, link);
    decided || slow && !is_guest(headless.core.connections(), link)
}
