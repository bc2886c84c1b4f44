ghost use Rattle.std.specs.Prelude.{◌≡◌, ◌≢◌, ◌⊎◌, ◌<◌, ◌≤◌, ◌+◌, ℕ, None, Some};
ghost use Rattle.std.specs.Prelude.{IfSome, OnOk, OnErr, IsTrue, true, false, take};
ghost use Rattle.std.specs.List.{list_any};
ghost use Rattle.wc_outside.specs.Faults.{Rose};
ghost use Rattle.wc_outside.specs.Happenings.{is_link, is_listener};
ghost use Rattle.wc_outside.specs.Keyed.{at_key};
ghost use Rattle.wc_board.specs.Connections.{connection_link};
ghost use Rattle.wc_turns.specs.Contained.{KeepsLinks};
ghost use Rattle.wc_turns.specs.Links.{link_number};
ghost use Rattle.wc_turns.specs.Parties.{IsCalm};
ghost use Rattle.wc_servers.specs.Seats.{seat_link};
ghost use Rattle.wc_turns.specs.Sources.{NothingBecameReady, IsServedAfter, IsHeard, IsWritten};
ghost use Rattle.wc_turns.specs.Sources.{HasDecided, ReadsGuests, OneLogin};
ghost use Rattle.wc_turns.specs.Sources.{AllServed, AllSent, ServesNamed, ServesSources, TakesWithin};
ghost use Rattle.wc_turns.specs.Sources.{TakesNothing, bytes_taken, arrivals, has_flag, may_write};
ghost use Rattle.wc_turns.specs.Sources.{may_write_seat, may_write_party, may_write_frames};
ghost use Rattle.wc_turns.specs.Sources.{may_write_on, is_left_over};
ghost use Rattle.wc_turns.specs.Turns.{LoopStep, AgreesWithSockets, faults_of};

use crate::headless::Headless;
use crate::links::{LinkState, Links};
use crate::logins::{Order, serve_in_turn};
use crate::turns::{accept_all, send_link, write_link};
use wc_core::{Connection, Core};
use wc_framing::Framing;
use wc_outside::{Failed, Ready, Sockets, Token};
use wc_servers::Seat;
use wc_text::LinkId;

/// What serving the sources that a wait named came to.
struct Named {
    /// Whether the listener failed.
    listened: Result<(), Failed>,
    /// Whether a login was decided.
    decided: bool,
}

/// The lesser one of two links, where it is above the last one.
pub(crate) fn lesser(next: Option<LinkId>, link: LinkId, last: u64) -> Option<LinkId>
    ensures above { IfSome next (λ known. last < known.0) →
        IfSome result (λ least. last < least.0) }
    ensures other { IfSome result (λ least. (other : ℕ) → last < other → other < least.0 →
        link.0 ≢ other) }
    ensures before { IfSome result (λ least. IfSome next (λ known. least.0 ≤ known.0)) }
    ensures none { result ≡ None → (next ≡ None) × (link.0 ≤ last) }
    ensures one { (result ≡ next) ⊎ (result ≡ Some link) }
{
    if link.0 <= last {
        return next;
    }
    match next {
        Some(known) if known.0 <= link.0 => next,
        _ => Some(link),
    }
}

/// Whether a client has unsent bytes, and its link is not known to have no room for them. The link
/// is looked up only where there are such bytes.
fn may_write(links: &Links, connection: &Connection) -> bool
    ensures { result ≡ may_write links.now.opened.items connection.now }
{
    if connection.session.unsent().is_empty() {
        return false;
    }
    !links.is_blocked(connection.session.link())
}

/// The client with the least number above the last one that has unsent bytes and is not blocked.
fn next_client(connections: &[Connection], links: &Links, last: u64) -> Option<LinkId>
    ensures above { IfSome result (λ link. last < link.0) }
    ensures between { IfSome result (λ link. (other : ℕ) → last < other → other < link.0 →
        has_flag (may_write links.now.opened.items)
        (at_key connection_link other connections.now) ≡ false) }
    ensures none { result ≡ None → (other : ℕ) → last < other →
        has_flag (may_write links.now.opened.items)
        (at_key connection_link other connections.now) ≡ false }
{
    let mut next = None;
    for connection in connections {
        if may_write(links, connection) {
            next = lesser(next, connection.session.link(), last);
        }
    }
    next
}

/// Whether a server has unsent bytes, and its link is not known to have no room for them.
fn may_write_seat(links: &Links, seat: &Seat) -> bool
    ensures { result ≡ may_write_seat links.now.opened.items seat.now }
{
    if seat.unsent().is_empty() {
        return false;
    }
    !links.is_blocked(seat.link())
}

/// The server with the least number above the last one that has unsent bytes and is not blocked.
fn next_seat(seats: &[Seat], links: &Links, last: u64) -> Option<LinkId>
    ensures above { IfSome result (λ link. last < link.0) }
    ensures between { IfSome result (λ link. (other : ℕ) → last < other → other < link.0 →
        has_flag (may_write_seat links.now.opened.items)
        (at_key seat_link other seats.now) ≡ false) }
    ensures none { result ≡ None → (other : ℕ) → last < other →
        has_flag (may_write_seat links.now.opened.items)
        (at_key seat_link other seats.now) ≡ false }
{
    let mut next = None;
    for seat in seats {
        if may_write_seat(links, seat) {
            next = lesser(next, seat.link(), last);
        }
    }
    next
}

/// Whether a WebSocket link has unsent frames, and is not known to have no room for them.
fn may_write_frames(state: &LinkState) -> bool
    ensures { result ≡ may_write_frames state.now }
{
    match &state.framing {
        Framing::Socket(socket) => !state.blocked && !socket.unsent().is_empty(),
        Framing::Undecided | Framing::Plain => false,
    }
}

/// The WebSocket link with the least number above the last one that has unsent frames and is not
/// blocked.
fn next_framed(states: &[LinkState], last: u64) -> Option<LinkId>
    ensures above { IfSome result (λ link. last < link.0) }
    ensures between { IfSome result (λ link. (other : ℕ) → last < other → other < link.0 →
        has_flag may_write_frames (at_key link_number other states.now) ≡ false) }
    ensures none { result ≡ None → (other : ℕ) → last < other →
        has_flag may_write_frames (at_key link_number other states.now) ≡ false }
{
    let mut next = None;
    for state in states {
        if may_write_frames(state) {
            next = lesser(next, state.link, last);
        }
    }
    next
}

/// The lesser one of two links.
fn lesser_of(a: Option<LinkId>, b: Option<LinkId>) -> Option<LinkId>
    ensures one { (result ≡ a) ⊎ (result ≡ b) }
    ensures first { IfSome a (λ link. IfSome result (λ least. least.0 ≤ link.0)) }
    ensures second { IfSome b (λ link. IfSome result (λ least. least.0 ≤ link.0)) }
    ensures none { result ≡ None → (a ≡ None) × (b ≡ None) }
{
    match (a, b) {
        (Some(first), Some(second)) if first.0 <= second.0 => Some(first),
        (Some(first), None) => Some(first),
        (_, other) => other,
    }
}

/// The link of a client or a server with the least number above the last one that has unsent bytes
/// and is not blocked.
fn next_party(core: &Core, links: &Links, last: u64) -> Option<LinkId>
    ensures above { IfSome result (λ link. last < link.0) }
    ensures between { IfSome result (λ link. (other : ℕ) → last < other → other < link.0 →
        may_write_party other links.now.opened.items core.now ≡ false) }
    ensures none { result ≡ None → (other : ℕ) → last < other →
        may_write_party other links.now.opened.items core.now ≡ false }
{
    let client = next_client(core.connections(), links, last);
    let server = next_seat(core.servers().seats(), links, last);
    lesser_of(client, server)
}

/// The link with the least number above the last one that has unsent bytes and is not blocked.
fn next_unsent(core: &Core, links: &Links, last: u64) -> Option<LinkId>
    ensures above { IfSome result (λ link. last < link.0) }
    ensures between { IfSome result (λ link. (other : ℕ) → last < other → other < link.0 →
        may_write_on other links.now.opened.items core.now ≡ false) }
    ensures none { result ≡ None → (other : ℕ) → last < other →
        may_write_on other links.now.opened.items core.now ≡ false }
{
    let party = next_party(core, links, last);
    let framed = next_framed(links.opened.as_slice(), last);
    lesser_of(party, framed)
}

/// Whether tokens name a link.
fn is_named(tokens: &[Token], link: LinkId) -> bool
    ensures { result ≡ list_any (is_link link.0) tokens.now }
{
    tokens.iter().any(|token| *token == Token::Link(link))
}

/// Whether tokens name the listener.
fn is_listener_named(tokens: &[Token]) -> bool
    ensures { result ≡ list_any is_listener tokens.now }
{
    tokens.iter().any(|token| *token == Token::Listener)
}

/// Whether a link is not drained, and these tokens do not name it.
pub(crate) fn is_left_over(state: &LinkState, tokens: &[Token]) -> bool
    ensures { result ≡ is_left_over tokens.now state.now }
{
    state.undrained && !is_named(tokens, state.link)
}

/// The link with the least number above the last one that an earlier turn left undrained, and that
/// these tokens do not name.
fn next_undrained(states: &[LinkState], tokens: &[Token], last: u64) -> Option<LinkId>
    ensures above { IfSome result (λ link. last < link.0) }
    ensures between { IfSome result (λ link. (other : ℕ) → last < other → other < link.0 →
        has_flag (is_left_over tokens.now) (at_key link_number other states.now) ≡ false) }
    ensures none { result ≡ None → (other : ℕ) → last < other → has_flag (is_left_over tokens.now)
        (at_key link_number other states.now) ≡ false }
    ensures unnamed { IfSome result (λ link. list_any (is_link link.0) tokens.now ≡ false) }
{
    let mut next = None;
    for state in states {
        if is_left_over(state, tokens) {
            next = lesser(next, state.link, last);
        }
    }
    next
}

/// Writes the unsent bytes of each client and server that is not blocked, in the order of their
/// numbers. Where a link fails they are gone through again, since its loss is told.
fn write_all<S: Sockets>(headless: &mut Headless, sockets: &mut S)
    requires agrees { AgreesWithSockets headless.old (S.seen sockets.old) }
    requires calm { IsCalm headless.old.core }
    requires going { headless.old.core.quits ≡ false }
    ensures continues { LoopStep true 0 0 headless.old headless.new (S.seen sockets.old)
        (S.seen sockets.new) }
    ensures calm { IsCalm headless.new.core }
    ensures contained { KeepsLinks headless.old headless.new }
    ensures going { headless.new.core.quits ≡ false }
    ensures falls { NothingBecameReady (S.seen sockets.old) (S.seen sockets.new) }
    ensures written { AgreesWithSockets headless.old (S.seen sockets.old) → (link : ℕ) → 1 ≤ link →
        IsWritten link headless.new (S.seen sockets.new) }
    ensures nothing { TakesNothing (S.seen sockets.old) (S.seen sockets.new) }
{
    let mut last = 0;
    while let Some(link) = next_unsent(&headless.core, &headless.links, last) {
        last = if write_link(headless, sockets, link) {
            0
        } else {
            link.0
        };
    }
}

/// Sends the unsent bytes of each client and server that is not blocked after `/quit`, in the order
/// of their numbers.
fn send_all<S: Sockets>(headless: &mut Headless, sockets: &mut S)
    requires agrees { AgreesWithSockets headless.old (S.seen sockets.old) }
    requires calm { IsCalm headless.old.core }
    requires quit { headless.old.core.quits ≡ true }
    ensures continues { LoopStep true 0 0 headless.old headless.new (S.seen sockets.old)
        (S.seen sockets.new) }
    ensures calm { IsCalm headless.new.core }
    ensures contained { KeepsLinks headless.old headless.new }
    ensures quits { headless.new.core.quits ≡ headless.old.core.quits }
    ensures sent { AgreesWithSockets headless.old (S.seen sockets.old) →
        AllSent headless.new (S.seen sockets.old) (S.seen sockets.new) }
    ensures nothing { TakesNothing (S.seen sockets.old) (S.seen sockets.new) }
{
    let mut last = 0;
    while let Some(link) = next_unsent(&headless.core, &headless.links, last) {
        send_link(headless, sockets, link);
        last = link.0;
    }
}

/// Reads the links that an earlier turn left undrained and that these tokens do not name, in the
/// order of their numbers, unless `/quit` is run. Those of guests are left where a login was decided.
fn read_rest<S: Sockets>(headless: &mut Headless, sockets: &mut S, tokens: &[Token], decided: bool)
    requires agrees { AgreesWithSockets headless.old (S.seen sockets.old) }
    requires calm { IsCalm headless.old.core }
    requires going { headless.old.core.quits ≡ false }
    ensures continues { LoopStep true 0 0 headless.old headless.new (S.seen sockets.old)
        (S.seen sockets.new) }
    ensures calm { IsCalm headless.new.core }
    ensures contained { KeepsLinks headless.old headless.new }
    ensures falls { NothingBecameReady (S.seen sockets.old) (S.seen sockets.new) }
    ensures served { AgreesWithSockets headless.old (S.seen sockets.old) → headless.new.core.quits
        ≡ false → (link : ℕ) → 1 ≤ link → list_any (is_link link) tokens.now ≡ false →
        IsServedAfter decided link headless.old headless.new (S.seen sockets.old)
        (S.seen sockets.new) }
    ensures once { OneLogin decided headless.old headless.new (S.seen sockets.old)
        (S.seen sockets.new) }
    ensures most { IsTrue (S.seen sockets.new).tells → (link : ℕ) →
        bytes_taken link (S.seen sockets.new).taken ≤ bytes_taken link (S.seen sockets.old).taken
        + 1048576 }
    ensures named { IsTrue (S.seen sockets.new).tells → (link : ℕ) →
        IsTrue (list_any (is_link link) tokens.now) → bytes_taken link (S.seen sockets.new).taken
        ≡ bytes_taken link (S.seen sockets.old).taken }
    ensures clients { IsTrue (S.seen sockets.new).tells → arrivals (S.seen sockets.new).taken
        ≡ arrivals (S.seen sockets.old).taken }
{
    let mut last = 0;
    let mut decided = decided;
    while let Some(link) = next_undrained(headless.links(), tokens, last) {
        if headless.core.quits() {
            return;
        }
        decided = serve_in_turn(headless, sockets, link, decided);
        last = link.0;
    }
}

/// Serves the sources that tokens name, in order and each once, unless `/quit` is run. The listener
/// may fail. Guests wait once a login was decided.
fn serve_tokens<S: Sockets>(headless: &mut Headless, sockets: &mut S, tokens: &[Token]) -> Named
    requires agrees { AgreesWithSockets headless.old (S.seen sockets.old) }
    requires calm { IsCalm headless.old.core }
    requires going { headless.old.core.quits ≡ false }
    ensures serves { ServesNamed tokens.now (faults_of result.listened) headless.old headless.new
        (S.seen sockets.old) (S.seen sockets.new) }
    ensures decides { result.decided ≡ true → HasDecided headless.old headless.new
        (S.seen sockets.old) (S.seen sockets.new) }
    ensures once { ReadsGuests false result.decided headless.old headless.new
        (S.seen sockets.old) (S.seen sockets.new) }
{
    let mut listened = Ok(());
    let mut decided = false;
    for place in 0..tokens.len() {
        if headless.core.quits() {
            return Named { listened, decided };
        }
        let before = &tokens[..place];
        match tokens[place] {
            Token::Listener => {
                if !is_listener_named(before) {
                    listened = accept_all(headless, sockets);
                }
            }
            Token::Link(link) => {
                if !is_named(before, link) {
                    decided = serve_in_turn(headless, sockets, link, decided);
                }
            }
        }
    }
    Named { listened, decided }
}

/// Takes the arrivals that an earlier turn left, where these tokens do not name the listener.
fn accept_rest<S: Sockets>(
    headless: &mut Headless,
    sockets: &mut S,
    tokens: &[Token],
) -> Result<(), Failed>
    requires agrees { AgreesWithSockets headless.old (S.seen sockets.old) }
    requires calm { IsCalm headless.old.core }
    requires going { headless.old.core.quits ≡ false }
    ensures continues { LoopStep true 0 (faults_of result) headless.old headless.new
        (S.seen sockets.old) (S.seen sockets.new) }
    ensures calm { IsCalm headless.new.core }
    ensures contained { AgreesWithSockets headless.old (S.seen sockets.old) →
        KeepsLinks headless.old headless.new }
    ensures going { headless.new.core.quits ≡ false }
    ensures falls { NothingBecameReady (S.seen sockets.old) (S.seen sockets.new) }
    ensures heard { OnOk result (AgreesWithSockets headless.old (S.seen sockets.old) →
        list_any is_listener tokens.now ≡ false →
        IsHeard (S.seen sockets.old) (S.seen sockets.new)) }
    ensures failed { OnErr result (Rose (S.seen sockets.old).faults.listens
        (S.seen sockets.new).faults.listens) }
    ensures clients { IsTrue (S.seen sockets.new).tells → arrivals (S.seen sockets.new).taken
        ≤ arrivals (S.seen sockets.old).taken + 1024 }
    ensures named { IsTrue (S.seen sockets.new).tells → IsTrue (list_any is_listener tokens.now) →
        arrivals (S.seen sockets.new).taken ≡ arrivals (S.seen sockets.old).taken }
    ensures bytes { IsTrue (S.seen sockets.new).tells → (link : ℕ) →
        bytes_taken link (S.seen sockets.new).taken ≡ bytes_taken link (S.seen sockets.old).taken }
{
    if !headless.listening || is_listener_named(tokens) {
        return Ok(());
    }
    accept_all(headless, sockets)
}

/// Serves the sources that tokens name, and then those that an earlier turn left undrained, unless
/// `/quit` is run.
fn serve_sources<S: Sockets>(
    headless: &mut Headless,
    sockets: &mut S,
    tokens: &[Token],
) -> Result<(), Failed>
    requires agrees { AgreesWithSockets headless.old (S.seen sockets.old) }
    requires calm { IsCalm headless.old.core }
    requires going { headless.old.core.quits ≡ false }
    ensures { ServesSources (faults_of result) headless.old headless.new (S.seen sockets.old)
        (S.seen sockets.new) }
{
    let Named { listened, decided } = serve_tokens(headless, sockets, tokens);
    if headless.core.quits() {
        return listened;
    }
    read_rest(headless, sockets, tokens, decided);
    if listened.is_err() {
        return listened;
    }
    if headless.core.quits() {
        return listened;
    }
    accept_rest(headless, sockets, tokens)
}

/// Serves the sources, unless `/quit` was run at the start.
fn serve_unless_quit<S: Sockets>(
    headless: &mut Headless,
    sockets: &mut S,
    tokens: &[Token],
) -> Result<(), Failed>
    requires agrees { AgreesWithSockets headless.old (S.seen sockets.old) }
    requires calm { IsCalm headless.old.core }
    ensures { ServesSources (faults_of result) headless.old headless.new (S.seen sockets.old)
        (S.seen sockets.new) }
{
    if headless.core.quits() {
        return Ok(());
    }
    serve_sources(headless, sockets, tokens)
}

/// Writes what is unsent, or sends it after `/quit`.
fn write_unsent<S: Sockets>(headless: &mut Headless, sockets: &mut S)
    requires agrees { AgreesWithSockets headless.old (S.seen sockets.old) }
    requires calm { IsCalm headless.old.core }
    ensures continues { LoopStep true 0 0 headless.old headless.new (S.seen sockets.old)
        (S.seen sockets.new) }
    ensures calm { IsCalm headless.new.core }
    ensures contained { KeepsLinks headless.old headless.new }
    ensures quits { headless.new.core.quits ≡ headless.old.core.quits }
    ensures falls { headless.new.core.quits ≡ false → NothingBecameReady (S.seen sockets.old)
        (S.seen sockets.new) }
    ensures written { AgreesWithSockets headless.old (S.seen sockets.old) →
        headless.new.core.quits ≡ false → (link : ℕ) → 1 ≤ link →
        IsWritten link headless.new (S.seen sockets.new) }
    ensures sent { AgreesWithSockets headless.old (S.seen sockets.old) → headless.new.core.quits
        ≡ true → AllSent headless.new (S.seen sockets.old) (S.seen sockets.new) }
    ensures nothing { TakesNothing (S.seen sockets.old) (S.seen sockets.new) }
{
    if headless.core.quits() {
        send_all(headless, sockets);
        return;
    }
    write_all(headless, sockets);
}

/// Serves the sources that are ready, and then writes what is unsent.
pub fn serve_ready<S: Sockets>(
    headless: &mut Headless,
    sockets: &mut S,
    ready: &Ready,
) -> Result<(), Failed>
    requires agrees { AgreesWithSockets headless.old (S.seen sockets.old) }
    requires calm { IsCalm headless.old.core }
    ensures continues { LoopStep true 0 (faults_of result) headless.old headless.new
        (S.seen sockets.old) (S.seen sockets.new) }
    ensures calm { IsCalm headless.new.core }
    ensures contained { AgreesWithSockets headless.old (S.seen sockets.old) →
        KeepsLinks headless.old headless.new }
    ensures served { OnOk result (AgreesWithSockets headless.old (S.seen sockets.old) →
        headless.new.core.quits ≡ false → AllServed headless.old headless.new
        (S.seen sockets.old) (S.seen sockets.new)) }
    ensures sent { AgreesWithSockets headless.old (S.seen sockets.old) → headless.new.core.quits
        ≡ true → AllSent headless.new (S.seen sockets.old) (S.seen sockets.new) }
    ensures failed { OnErr result (Rose (S.seen sockets.old).faults.listens
        (S.seen sockets.new).faults.listens) }
    ensures within { TakesWithin (S.seen sockets.old) (S.seen sockets.new) }
    ensures once { OneLogin false headless.old headless.new (S.seen sockets.old)
        (S.seen sockets.new) }
{
    let order = Order::of(headless, ready);
    let listened = serve_unless_quit(headless, sockets, order.as_slice());
    write_unsent(headless, sockets);
    listened
}
