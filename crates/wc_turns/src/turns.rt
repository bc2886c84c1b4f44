ghost use Rattle.std.specs.Prelude.{◌≡◌, ◌≢◌, ◌+◌, ◌<◌, ◌≤◌, ℕ, [], None, Some, Ok, IfSome};
ghost use Rattle.std.specs.Prelude.{IsSome, OnOk, OnErr, IsTrue, true, false, length};
ghost use Rattle.wc_outside.specs.Faults.{Rose};
ghost use Rattle.wc_core.specs.LinksSeen.{departure_in};
ghost use Rattle.wc_turns.specs.Contained.{KeepsLinks};
ghost use Rattle.wc_turns.specs.Links.{IsStanding};
ghost use Rattle.wc_turns.specs.Parts.{FailureIgnored, SendsOn, ClosesLeaving, HasFailed, ReadsOn};
ghost use Rattle.wc_turns.specs.Parts.{ReadBytes, came_of};
ghost use Rattle.wc_turns.specs.Parties.{IsCalm, closes_asked, party_count};
ghost use Rattle.wc_turns.specs.Sources.{NothingBecameReady, IsReadUp, IsHeard, IsWritten, IsSent};
ghost use Rattle.wc_turns.specs.Sources.{IsPut};
ghost use Rattle.wc_turns.specs.Sources.{TakesNothing, bytes_taken, arrivals};
ghost use Rattle.wc_turns.specs.Turns.{LoopStep, AgreesWithSockets, IsSettled, faults_of, left_on};

use crate::connect::settle;
use crate::headless::Headless;
use wc_core::Departure;
use wc_outside::{Failed, Got, Put, Sockets};
use wc_text::{Cause, LinkId};

/// How many bytes of a link one turn takes at most.
const READ_LIMIT: usize = 1_048_576;

/// How many arrivals one turn takes at most.
const ACCEPT_LIMIT: usize = 1024;

/// How many bytes one read takes at most.
const PIECE: usize = 16_384;

/// What a write came to.
#[derive(Clone, Copy, PartialEq, Eq)]
enum Wrote {
    /// Some bytes were sent, and there may be more.
    Some,
    /// Nothing is left, or there is no room for it.
    All,
    /// The link failed.
    Lost,
}

/// Sends unsent bytes of a client once, at which a failure changes nothing. Whether more may be
/// sent.
fn send_once<S: Sockets>(headless: &mut Headless, sockets: &mut S, link: LinkId) -> bool
    requires missed { FailureIgnored link.0 headless.old.core }
    ensures continues { LoopStep true 0 0 headless.old headless.new (S.seen sockets.old)
        (S.seen sockets.new) }
    ensures sends { SendsOn link.0 headless.old headless.new (S.seen sockets.old)
        (S.seen sockets.new) }
    ensures done { result ≡ false → AgreesWithSockets headless.new (S.seen sockets.new) →
        IsSent link.0 headless.new (S.seen sockets.old) (S.seen sockets.new) }
    ensures less { result ≡ true → length (left_on link.0 headless.new)
        < length (left_on link.0 headless.old) }
{
    let Some(unsent) = headless.to_send(link) else {
        return false;
    };
    if unsent.is_empty() {
        return false;
    }
    match sockets.write(link, unsent) {
        Ok(Put::Took(count)) => {
            headless.links.mark_written(link, false);
            headless.sent(link, count);
            true
        }
        Ok(Put::NotYet) => {
            headless.links.mark_written(link, true);
            false
        }
        Err(Failed) => {
            headless.links.mark_written(link, false);
            headless.link_missed();
            false
        }
    }
}

/// Whether a link is the one that was lost.
fn is_lost(lost: Option<LinkId>, link: LinkId) -> bool
    ensures { result ≡ true → lost ≡ Some link }
{
    match lost {
        Some(failed) => failed == link,
        None => false,
    }
}

/// Sends what who is leaving is owed, until it is gone, there is no room, or its link
/// failed. Nothing is sent on the link that was lost, if one was, nor on one that is known to have
/// no room.
fn flush_leaving<S: Sockets>(
    headless: &mut Headless,
    sockets: &mut S,
    departure: Departure,
    lost: Option<LinkId>,
)
    requires first { departure_in headless.old.core ≡ Some departure }
    requires failed { HasFailed lost (S.seen sockets.old) }
    ensures continues { LoopStep true 0 0 headless.old headless.new (S.seen sockets.old)
        (S.seen sockets.new) }
    ensures sends { SendsOn departure.link.0 headless.old headless.new (S.seen sockets.old)
        (S.seen sockets.new) }
    ensures done { AgreesWithSockets headless.new (S.seen sockets.new) →
        IsSettled departure.link.0 headless.new (S.seen sockets.new) }
{
    if is_lost(lost, departure.link) {
        return;
    }
    if headless.links.is_blocked(departure.link) {
        return;
    }
    send_link(headless, sockets, departure.link);
}

/// Closes the link of who is leaving, after a last try to send what it is owed.
fn close_leaving<S: Sockets>(
    headless: &mut Headless,
    sockets: &mut S,
    departure: Departure,
    lost: Option<LinkId>,
)
    requires first { departure_in headless.old.core ≡ Some departure }
    requires asked { headless.old.core.servers.wanted ≡ [] }
    requires failed { HasFailed lost (S.seen sockets.old) }
    ensures continues { LoopStep true 0 0 headless.old headless.new (S.seen sockets.old)
        (S.seen sockets.new) }
    ensures parts { ClosesLeaving headless.old headless.new (S.seen sockets.old)
        (S.seen sockets.new) }
    ensures fewer { party_count headless.new.core < party_count headless.old.core }
{
    flush_leaving(headless, sockets, departure, lost);
    sockets.close(departure.link);
    headless.links.close(departure.link, departure.cause);
    headless.core.forget(departure.link);
}

/// Closes the links of all clients and servers that are leaving, where each connection that was wanted
/// is asked for.
pub fn close_all_leaving<S: Sockets>(headless: &mut Headless, sockets: &mut S, lost: Option<LinkId>)
    requires asked { headless.old.core.servers.wanted ≡ [] }
    requires failed { HasFailed lost (S.seen sockets.old) }
    ensures continues { LoopStep true 0 0 headless.old headless.new (S.seen sockets.old)
        (S.seen sockets.new) }
    ensures parts { ClosesLeaving headless.old headless.new (S.seen sockets.old)
        (S.seen sockets.new) }
    ensures parted { closes_asked headless.new.core ≡ [] }
{
    while let Some(departure) = headless.core.departure() {
        close_leaving(headless, sockets, departure, lost);
    }
}

/// Serves what one read of a link gave. The number is that of the bytes, where it may be read
/// again.
fn read_once<S: Sockets>(
    headless: &mut Headless,
    sockets: &mut S,
    link: LinkId,
    buffer: &mut [u8],
) -> Option<usize>
    requires agrees { AgreesWithSockets headless.old (S.seen sockets.old) }
    requires calm { IsCalm headless.old.core }
    requires going { headless.old.core.quits ≡ false }
    requires stands { IsStanding link.0 headless.old.links.opened.items }
    requires room { 0 < length buffer.old }
    ensures continues { LoopStep true 0 0 headless.old headless.new (S.seen sockets.old)
        (S.seen sockets.new) }
    ensures calm { IsCalm headless.new.core }
    ensures going { IsSome result → headless.new.core.quits ≡ false }
    ensures reads { ReadsOn link.0 (S.seen sockets.old) (S.seen sockets.new) }
    ensures drained { result ≡ None → AgreesWithSockets headless.old (S.seen sockets.old) →
        headless.new.core.quits ≡ false → (S.seen sockets.new).undrained link.0 ≡ false }
    ensures bytes { IfSome result (λ count. ReadBytes link.0 count (S.seen sockets.old)
        (S.seen sockets.new)) }
    ensures within { IsTrue (S.seen sockets.new).tells →
        bytes_taken link.0 (S.seen sockets.new).taken ≤ bytes_taken link.0
        (S.seen sockets.old).taken + length buffer.old }
    ensures count { IfSome result (λ count. (1 ≤ count) × (count ≤ length buffer.old)) }
    ensures stands { IsStanding link.0 headless.new.links.opened.items }
    ensures contained { KeepsLinks headless.old headless.new }
{
    let Some(place) = headless.links.place(link) else {
        return None;
    };
    match sockets.read(link, buffer) {
        Ok(Got::NotYet) => {
            headless.links.mark_drained(link);
            None
        }
        Ok(Got::Bytes(count)) => {
            headless.bytes_came(place, link, &buffer[..count]);
            settle(headless, sockets, None);
            if headless.core.quits() {
                return None;
            }
            Some(count)
        }
        Ok(Got::End) => {
            headless.link_gone(link, Cause::Ended);
            settle(headless, sockets, None);
            None
        }
        Err(Failed) => {
            headless.link_gone(link, Cause::Failed);
            settle(headless, sockets, Some(link));
            None
        }
    }
}

/// Reads a link that stands until nothing is ready, up to the limit of a turn, or up to `/quit`.
pub fn read_link<S: Sockets>(headless: &mut Headless, sockets: &mut S, link: LinkId)
    requires agrees { AgreesWithSockets headless.old (S.seen sockets.old) }
    requires calm { IsCalm headless.old.core }
    requires going { headless.old.core.quits ≡ false }
    requires stands { IsStanding link.0 headless.old.links.opened.items }
    ensures continues { LoopStep true 0 0 headless.old headless.new (S.seen sockets.old)
        (S.seen sockets.new) }
    ensures calm { IsCalm headless.new.core }
    ensures falls { NothingBecameReady (S.seen sockets.old) (S.seen sockets.new) }
    ensures served { AgreesWithSockets headless.old (S.seen sockets.old) → headless.new.core.quits
        ≡ false → IsReadUp link.0 (S.seen sockets.old) (S.seen sockets.new) }
    ensures within { IsTrue (S.seen sockets.new).tells →
        bytes_taken link.0 (S.seen sockets.new).taken ≤ bytes_taken link.0
        (S.seen sockets.old).taken + 1048576 }
    ensures others { IsTrue (S.seen sockets.new).tells → (other : ℕ) → other ≢ link.0 →
        bytes_taken other (S.seen sockets.new).taken ≡ bytes_taken other
        (S.seen sockets.old).taken }
    ensures clients { IsTrue (S.seen sockets.new).tells → arrivals (S.seen sockets.new).taken
        ≡ arrivals (S.seen sockets.old).taken }
    ensures contained { KeepsLinks headless.old headless.new }
{
    let mut buffer = [0u8; PIECE];
    let mut left = READ_LIMIT;
    while left > 0 {
        let room = left.min(PIECE);
        match read_once(headless, sockets, link, &mut buffer[..room]) {
            Some(count) => left -= count,
            None => return,
        }
    }
}

/// Takes one arrival. Whether another may be taken, or that the listener failed.
fn accept_once<S: Sockets>(headless: &mut Headless, sockets: &mut S) -> Result<bool, Failed>
    requires agrees { AgreesWithSockets headless.old (S.seen sockets.old) }
    requires calm { IsCalm headless.old.core }
    requires going { headless.old.core.quits ≡ false }
    ensures continues { LoopStep true 0 (faults_of result) headless.old headless.new
        (S.seen sockets.old) (S.seen sockets.new) }
    ensures calm { IsCalm headless.new.core }
    ensures going { headless.new.core.quits ≡ false }
    ensures falls { NothingBecameReady (S.seen sockets.old) (S.seen sockets.new) }
    ensures drained { result ≡ Ok false → (S.seen sockets.new).listening ≡ false }
    ensures arrived { IsTrue (S.seen sockets.new).tells → arrivals (S.seen sockets.new).taken
        ≡ arrivals (S.seen sockets.old).taken + came_of result }
    ensures bytes { IsTrue (S.seen sockets.new).tells → (link : ℕ) →
        bytes_taken link (S.seen sockets.new).taken ≡ bytes_taken link (S.seen sockets.old).taken }
    ensures failed { OnErr result (Rose (S.seen sockets.old).faults.listens
        (S.seen sockets.new).faults.listens) }
    ensures contained { AgreesWithSockets headless.old (S.seen sockets.old) →
        KeepsLinks headless.old headless.new }
{
    match sockets.accept() {
        Ok(None) => {
            headless.listening = false;
            Ok(false)
        }
        Ok(Some(arrival)) => {
            if headless.link_came(arrival) {
                sockets.close(arrival.link);
            }
            Ok(true)
        }
        Err(Failed) => {
            headless.link_missed();
            Err(Failed)
        }
    }
}

/// Takes arrivals until none is ready, or up to the limit of a turn.
pub fn accept_all<S: Sockets>(headless: &mut Headless, sockets: &mut S) -> Result<(), Failed>
    requires agrees { AgreesWithSockets headless.old (S.seen sockets.old) }
    requires calm { IsCalm headless.old.core }
    requires going { headless.old.core.quits ≡ false }
    ensures continues { LoopStep true 0 (faults_of result) headless.old headless.new
        (S.seen sockets.old) (S.seen sockets.new) }
    ensures calm { IsCalm headless.new.core }
    ensures going { headless.new.core.quits ≡ false }
    ensures falls { NothingBecameReady (S.seen sockets.old) (S.seen sockets.new) }
    ensures heard { OnOk result (IsHeard (S.seen sockets.old) (S.seen sockets.new)) }
    ensures failed { OnErr result (Rose (S.seen sockets.old).faults.listens
        (S.seen sockets.new).faults.listens) }
    ensures within { IsTrue (S.seen sockets.new).tells → arrivals (S.seen sockets.new).taken
        ≤ arrivals (S.seen sockets.old).taken + 1024 }
    ensures bytes { IsTrue (S.seen sockets.new).tells → (link : ℕ) →
        bytes_taken link (S.seen sockets.new).taken ≡ bytes_taken link (S.seen sockets.old).taken }
    ensures contained { AgreesWithSockets headless.old (S.seen sockets.old) →
        KeepsLinks headless.old headless.new }
{
    for _ in 0..ACCEPT_LIMIT {
        match accept_once(headless, sockets) {
            Ok(true) => {}
            Ok(false) => return Ok(()),
            Err(Failed) => return Err(Failed),
        }
    }
    Ok(())
}

/// Writes unsent bytes of a client or a server once.
fn write_once<S: Sockets>(headless: &mut Headless, sockets: &mut S, link: LinkId) -> Wrote
    requires agrees { AgreesWithSockets headless.old (S.seen sockets.old) }
    requires calm { IsCalm headless.old.core }
    requires going { headless.old.core.quits ≡ false }
    ensures continues { LoopStep true 0 0 headless.old headless.new (S.seen sockets.old)
        (S.seen sockets.new) }
    ensures calm { IsCalm headless.new.core }
    ensures going { headless.new.core.quits ≡ false }
    ensures falls { NothingBecameReady (S.seen sockets.old) (S.seen sockets.new) }
    ensures done { result ≡ Wrote.All → IsPut link.0 headless.old →
        IsWritten link.0 headless.new (S.seen sockets.new) }
    ensures put { result ≡ Wrote.Some → IsPut link.0 headless.old → IsPut link.0 headless.new }
    ensures others { result ≢ Wrote.Lost → (other : ℕ) → other ≢ link.0 →
        IsWritten other headless.old (S.seen sockets.old) →
        IsWritten other headless.new (S.seen sockets.new) }
    ensures less { result ≡ Wrote.Some → length (left_on link.0 headless.new)
        < length (left_on link.0 headless.old) }
    ensures parties { party_count headless.new.core ≤ party_count headless.old.core }
    ensures lost { result ≡ Wrote.Lost →
        party_count headless.new.core < party_count headless.old.core }
    ensures nothing { TakesNothing (S.seen sockets.old) (S.seen sockets.new) }
    ensures contained { KeepsLinks headless.old headless.new }
{
    let Some(unsent) = headless.to_send(link) else {
        return Wrote::All;
    };
    if unsent.is_empty() {
        return Wrote::All;
    }
    match sockets.write(link, unsent) {
        Ok(Put::Took(count)) => {
            headless.links.mark_written(link, false);
            headless.sent(link, count);
            Wrote::Some
        }
        Ok(Put::NotYet) => {
            headless.links.mark_written(link, true);
            Wrote::All
        }
        Err(Failed) => {
            headless.links.mark_written(link, false);
            headless.link_gone(link, Cause::Failed);
            settle(headless, sockets, Some(link));
            Wrote::Lost
        }
    }
}

/// Writes the unsent bytes of a client or a server until they are gone or there is no room. Whether
/// the link failed: who was there is gone then, and others may have unsent bytes of that.
pub fn write_link<S: Sockets>(headless: &mut Headless, sockets: &mut S, link: LinkId) -> bool
    requires agrees { AgreesWithSockets headless.old (S.seen sockets.old) }
    requires calm { IsCalm headless.old.core }
    requires going { headless.old.core.quits ≡ false }
    ensures continues { LoopStep true 0 0 headless.old headless.new (S.seen sockets.old)
        (S.seen sockets.new) }
    ensures calm { IsCalm headless.new.core }
    ensures going { headless.new.core.quits ≡ false }
    ensures falls { NothingBecameReady (S.seen sockets.old) (S.seen sockets.new) }
    ensures done { result ≡ false → IsWritten link.0 headless.new (S.seen sockets.new) }
    ensures others { result ≡ false → (other : ℕ) → other ≢ link.0 →
        IsWritten other headless.old (S.seen sockets.old) →
        IsWritten other headless.new (S.seen sockets.new) }
    ensures parties { party_count headless.new.core ≤ party_count headless.old.core }
    ensures lost { result ≡ true →
        party_count headless.new.core < party_count headless.old.core }
    ensures nothing { TakesNothing (S.seen sockets.old) (S.seen sockets.new) }
    ensures contained { KeepsLinks headless.old headless.new }
{
    if !headless.frame(link) {
        settle(headless, sockets, None);
        return true;
    }
    loop {
        match write_once(headless, sockets, link) {
            Wrote::Some => {}
            Wrote::All => return false,
            Wrote::Lost => return true,
        }
    }
}

/// Sends the unsent bytes of a client until they are gone, there is no room, or the link fails. A
/// client whose link fails stays, so it is leaving already, or `/quit` was run.
pub fn send_link<S: Sockets>(headless: &mut Headless, sockets: &mut S, link: LinkId)
    requires missed { FailureIgnored link.0 headless.old.core }
    ensures continues { LoopStep true 0 0 headless.old headless.new (S.seen sockets.old)
        (S.seen sockets.new) }
    ensures sends { SendsOn link.0 headless.old headless.new (S.seen sockets.old)
        (S.seen sockets.new) }
    ensures done { AgreesWithSockets headless.new (S.seen sockets.new) →
        IsSent link.0 headless.new (S.seen sockets.old) (S.seen sockets.new) }
    ensures leaving { closes_asked headless.new.core
        ≡ closes_asked headless.old.core }
    ensures quits { headless.new.core.quits ≡ headless.old.core.quits }
    ensures falls { NothingBecameReady (S.seen sockets.old) (S.seen sockets.new) }
    ensures unsent { (other : ℕ) → other ≢ link.0 → left_on other headless.new
        ≡ left_on other headless.old }
    ensures others { (other : ℕ) → other ≢ link.0 → (S.seen sockets.new).blocked other
        ≡ (S.seen sockets.old).blocked other }
    ensures nothing { TakesNothing (S.seen sockets.old) (S.seen sockets.new) }
    ensures contained { KeepsLinks headless.old headless.new }
{
    // Who is leaving goes anyway, so a refused message is of no matter.
    let _refused = headless.frame_unsent(link);
    loop {
        if !send_once(headless, sockets, link) {
            return;
        }
    }
}
