ghost use Rattle.std.specs.Prelude.{◌≡◌, ◌+◌, ◌-◌, ◌^◌, ◌<◌, ◌≤◌, ◌++◌, ◌∷◌, ◌||◌, not, [], ℕ};
ghost use Rattle.std.specs.Prelude.{◌==◌, if◌then◌else◌};
ghost use Rattle.std.specs.Prelude.{true, false, IsTrue, IfOk, OnOk, OnErr, MatchOption, vec_len};
ghost use Rattle.std.specs.Prelude.{length, take, drop, All, IfSome, IsSome};
ghost use Rattle.wc_scripted.specs.Cursors.{cursor_at, given_at};
ghost use Rattle.wc_outside.specs.Faults.{Rose};
ghost use Rattle.wc_scripted.specs.Rises.{RoseOnce, TellsOn};
ghost use Rattle.wc_outside.specs.Happenings.{IsThere, IsReadWithin, IsPutWithin};
ghost use Rattle.wc_scripted.specs.Plays.{IsAsFar, called, next_fails, fresh_sources, after_wait};
ghost use Rattle.wc_scripted.specs.Plays.{after_accept, after_read, after_write, IsArrival, IsFound};
ghost use Rattle.wc_scripted.specs.Plays.{IsTaken, FailsWhere, FailsOrStarves, room_for, IsStart};
ghost use Rattle.wc_scripted.specs.Plays.{after_connect, after_connected, left, stands_next};
ghost use Rattle.wc_scripted.specs.Rows.{row_at};
ghost use Rattle.wc_scripted.specs.Scripts.{next_moment};
ghost use Rattle.wc_outside.specs.Seen.{IsNew};
ghost use Rattle.wc_scripted.specs.Sees.{Sees, listen_sees, wait_sees, accept_sees, read_sees};
ghost use Rattle.wc_scripted.specs.Sees.{write_sees, close_sees, connect_sees, connected_sees};

use crate::fault_counts::{
    Calls, FaultCounts, count_fault, fail, give, give_bytes, note, starve, starve_noted,
};
use crate::places::make_link;
use crate::play::Play;
use crate::report::report_turn;
use crate::rows::{Row, close, drain, is_open, send, set_blocked, taken};
use crate::scripted::Scripted;
use crate::told::Told;
use std::alloc::Global;
use wc_outside::{Asked, Failed, Got, Happening, Put, Ready, Sockets};
use wc_text::{Address, Arrival, Items, LinkId, NoMemory};

/// Sockets in memory, which play a script and tell what they gave and were sent.
///
/// A count of faults rises at each call that is named as failing, at each in which memory is
/// refused to them, and at each call for a link that is not there.
#[derive(Drop)]
pub struct MemorySockets {
    alloc: Global,
    calls: Calls,
    play: Play,
    /// How many bytes a link takes between two waits, or 0 where there is no bound.
    window: usize,
    told: Told,
    /// How many link numbers are used.
    used: u64,
    /// By link number, up to the last link that there was; no link has the place of 0.
    rows: Vec<Row>,
    /// Whether an arrival was released that no wait reported.
    arriving: bool,
    /// Whether the listener was reported and is not drained.
    listening: bool,
    faults: FaultCounts,
    ghost limit: { used ≤ 2 ^ 62 },
    ghost numbered: { vec_len rows ≤ used + 1 },
    ghost paired: { vec_len rows ≡ vec_len play.cursors },
    ghost none: { (row_at 0 rows.items).is_open ≡ false },
}

/// How many bytes of a piece of this size a link takes that took so many of its window.
fn room_for(window: usize, taken: usize, size: usize) -> usize
    ensures { result ≡ room_for window taken size }
{
    if window == 0 {
        return size;
    }
    size.min(window.saturating_sub(taken))
}

impl MemorySockets {
    ghost use Rattle.wc_scripted.specs.Views.{play_of};

    /// Sockets that play a script, and fail at the calls with these numbers, which count all
    /// calls but those of `close` from 1. A link takes `window` bytes between two waits, or any
    /// number where `window` is 0.
    ///
    /// The script begins with a `Wake`; each wait goes on to the next one, and after the last one
    /// the moment rises by 100 at each wait. What is before a first `Wake` is ready after the
    /// first wait.
    pub fn new(
        alloc: Global,
        script: Items<Scripted>,
        failing: Items<u64>,
        window: u32,
    ) -> Result<MemorySockets, NoMemory>
        ensures fresh { IfOk result (λ sockets. IsNew (⟦<MemorySockets as Sockets>⟧.seen sockets)) }
        ensures tells { IfOk result
            (λ sockets. IsTrue (⟦<MemorySockets as Sockets>⟧.seen sockets).tells) }
        ensures play { IfOk result
            (λ sockets. IsStart script failing window (play_of sockets)) }
    {
        let mut rows = Vec::with_capacity(alloc, 8)?;
        rows.push(Row::new(alloc)).map_err(|_| NoMemory)?;
        Ok(MemorySockets {
            alloc,
            calls: Calls::new(failing),
            play: Play::new(alloc, script)?,
            window: window as usize,
            told: Told::new(alloc),
            used: 0,
            rows,
            arriving: false,
            listening: false,
            faults: FaultCounts {
                waits: 0,
                listens: 0,
                connects: 0,
                links: 0,
            },
        })
    }

    /// What they gave, in order, where they still tell.
    pub fn taken(&self) -> Option<&[Happening]>
        ensures { MatchOption result
            ((⟦<MemorySockets as Sockets>⟧.seen self.now).tells ≡ false)
            (λ taken. IsTrue (⟦<MemorySockets as Sockets>⟧.seen self.now).tells
            × (taken.now ≡ (⟦<MemorySockets as Sockets>⟧.seen self.now).taken)) }
    {
        self.told.tells.then_some(self.told.taken.as_slice())
    }

    /// What they were asked, in order, where they still tell.
    pub fn asked(&self) -> Option<&[Asked]>
        ensures { MatchOption result
            ((⟦<MemorySockets as Sockets>⟧.seen self.now).tells ≡ false)
            (λ asked. IsTrue (⟦<MemorySockets as Sockets>⟧.seen self.now).tells
            × (asked.now ≡ (⟦<MemorySockets as Sockets>⟧.seen self.now).asked)) }
    {
        self.told.tells.then_some(self.told.asked.as_slice())
    }

    /// The bytes that were sent on a link, which may be closed; none for one that was never there.
    pub fn sent(&self, link: LinkId) -> &[u8]
        ensures { result.now ≡ (⟦<MemorySockets as Sockets>⟧.seen self.now).sent link.0 }
    {
        match self.rows.get(link.0 as usize) {
            Some(row) => row.sent.as_slice(),
            None => &[],
        }
    }

    /// Whether a link was given and is not closed.
    pub fn is_open(&self, link: LinkId) -> bool
        ensures { result ≡ (⟦<MemorySockets as Sockets>⟧.seen self.now).there link.0 }
    {
        is_open(&self.rows, link)
    }

    /// How often memory was refused to them.
    pub fn refused(&self) -> u64
        ensures { result ≡ (play_of self.now).refused }
    {
        self.told.refused
    }
}

impl Sockets for MemorySockets {
    ghost use Rattle.wc_scripted.specs.Views.{seen_of, play_of};

    ghost seen = { seen_of };

    fn listen(&mut self, port: u16) -> Result<(), Failed>
        ensures sees { Sees (seen_of self.old) (seen_of self.new)
            (listen_sees (seen_of self.old) port result) }
        ensures play { IsAsFar (play_of self.new) (called (play_of self.old)) }
        ensures fails { FailsWhere (next_fails (play_of self.old)) result }
        ensures refused { RoseOnce (play_of self.old).refused (play_of self.new).refused }
        ensures goes_on { TellsOn (seen_of self.old).tells (seen_of self.new).tells
            (play_of self.old).refused (play_of self.new).refused }
        ensures failed { OnErr result (Rose (seen_of self.old).faults.listens
            (seen_of self.new).faults.listens) }
    {
        let fails = self.calls.next_fails();
        note(
            &mut self.told,
            &mut self.faults.listens,
            Asked::Listen(port),
        );
        if fails {
            return Err(fail(
                &mut self.told,
                &mut self.faults.listens,
                Happening::ListenFailed,
            ));
        }
        Ok(())
    }

    fn wait(&mut self, _timeout_ms: u64, ready: &mut Ready) -> Result<u64, Failed>
        ensures sees { Sees (seen_of self.old) (seen_of self.new) (wait_sees (seen_of self.old)
            (take ready.new.count ready.new.tokens) result) }
        ensures sources { OnOk result (take ready.new.count ready.new.tokens
            ≡ take 64 (fresh_sources (play_of self.old) (seen_of self.old))) }
        ensures moment { IfOk result (λ moment. moment
            ≡ next_moment (play_of self.old).moment (play_of self.old).coming) }
        ensures play { IsAsFar (play_of self.new) (after_wait (play_of self.old) (seen_of self.old)
            (take ready.new.count ready.new.tokens) result) }
        ensures fails { FailsWhere (next_fails (play_of self.old)) result }
        ensures refused { RoseOnce (play_of self.old).refused (play_of self.new).refused }
        ensures goes_on { TellsOn (seen_of self.old).tells (seen_of self.new).tells
            (play_of self.old).refused (play_of self.new).refused }
        ensures tokens { OnOk result (All (IsThere (seen_of self.old).there)
            (take ready.new.count ready.new.tokens)) }
        ensures failed { OnErr result (Rose (seen_of self.old).faults.waits
            (seen_of self.new).faults.waits) }
    {
        if self.calls.next_fails() {
            count_fault(&mut self.faults.waits);
            return Err(Failed);
        }
        let before = self.play.script.released;
        let moment = self.play.wake();
        report_turn(
            &mut self.rows,
            &mut self.arriving,
            &mut self.listening,
            self.play.script.since(before),
            ready,
        );
        give(
            &mut self.told,
            &mut self.faults.waits,
            Happening::Woke(moment),
        );
        Ok(moment)
    }

    fn accept(&mut self) -> Result<Option<Arrival>, Failed>
        ensures sees { Sees (seen_of self.old) (seen_of self.new)
            (accept_sees (seen_of self.old) result) }
        ensures arrival { IfOk result (IsArrival (play_of self.old) (seen_of self.old).used) }
        ensures play { IsAsFar (play_of self.new) (after_accept (play_of self.old) result) }
        ensures fails { FailsOrStarves (next_fails (play_of self.old)) (play_of self.old).refused
            (play_of self.new).refused result }
        ensures refused { RoseOnce (play_of self.old).refused (play_of self.new).refused }
        ensures goes_on { TellsOn (seen_of self.old).tells (seen_of self.new).tells
            (play_of self.old).refused (play_of self.new).refused }
        ensures next { IfOk result (λ found. IfSome found
            (λ arrival. arrival.link.0 ≡ (seen_of self.old).used + 1)) }
        ensures limit { IfOk result (λ found. IsSome found → (seen_of self.new).used ≤ 2 ^ 62) }
        ensures failed { OnErr result (Rose (seen_of self.old).faults.listens
            (seen_of self.new).faults.listens) }
    {
        if self.calls.next_fails() {
            return Err(fail(
                &mut self.told,
                &mut self.faults.listens,
                Happening::ListenFailed,
            ));
        }
        let Some(nonce) = self.play.arrival(self.used) else {
            self.listening = false;
            return Ok(None);
        };
        let link = LinkId(self.used + 1);
        let Ok(()) = make_link(self.alloc, &mut self.play, &mut self.rows, link) else {
            return Err(starve(
                &mut self.told,
                &mut self.faults.listens,
                Happening::ListenFailed,
            ));
        };
        self.play.pass_arrival();
        self.used += 1;
        give(
            &mut self.told,
            &mut self.faults.listens,
            Happening::Accepted(link, nonce),
        );
        Ok(Some(Arrival { link, nonce }))
    }

    fn connect(&mut self, to: Address) -> Result<LinkId, Failed>
        requires { (seen_of self.old).used < 2 ^ 62 }
        ensures sees { Sees (seen_of self.old) (seen_of self.new)
            (connect_sees (seen_of self.old) to result) }
        ensures play { IsAsFar (play_of self.new) (after_connect (play_of self.old) result) }
        ensures fails { FailsOrStarves (next_fails (play_of self.old)) (play_of self.old).refused
            (play_of self.new).refused result }
        ensures refused { RoseOnce (play_of self.old).refused (play_of self.new).refused }
        ensures goes_on { TellsOn (seen_of self.old).tells (seen_of self.new).tells
            (play_of self.old).refused (play_of self.new).refused }
        ensures next { IfOk result (λ link. link.0 ≡ (seen_of self.old).used + 1) }
        ensures failed { OnErr result (Rose (seen_of self.old).faults.connects
            (seen_of self.new).faults.connects) }
    {
        let before = self.told.refused;
        let fails = self.calls.next_fails();
        note(
            &mut self.told,
            &mut self.faults.connects,
            Asked::Connect(to),
        );
        self.used += 1;
        let link = LinkId(self.used);
        if fails {
            return Err(fail(
                &mut self.told,
                &mut self.faults.connects,
                Happening::Refused(link),
            ));
        }
        let Ok(()) = make_link(self.alloc, &mut self.play, &mut self.rows, link) else {
            return Err(starve_noted(
                &mut self.told,
                &mut self.faults.connects,
                Happening::Refused(link),
                before,
            ));
        };
        Ok(link)
    }

    fn connected(&mut self, link: LinkId) -> Result<bool, Failed>
        ensures sees { Sees (seen_of self.old) (seen_of self.new)
            (connected_sees (seen_of self.old) link result) }
        ensures found { let play = play_of self.old in IfOk result (λ stands. stands
            ≡ stands_next (left play.released link.0 (play.given link.0))) }
        ensures play { IsAsFar (play_of self.new) (after_connected (play_of self.old) link.0
            result) }
        ensures fails { FailsWhere (next_fails (play_of self.old)
            || not ((seen_of self.old).there link.0)) result }
        ensures refused { RoseOnce (play_of self.old).refused (play_of self.new).refused }
        ensures goes_on { TellsOn (seen_of self.old).tells (seen_of self.new).tells
            (play_of self.old).refused (play_of self.new).refused }
        ensures failed { OnErr result (Rose (seen_of self.old).faults.links
            (seen_of self.new).faults.links) }
    {
        if self.calls.next_fails() || !is_open(&self.rows, link) {
            return Err(fail(
                &mut self.told,
                &mut self.faults.links,
                Happening::Failed(link),
            ));
        }
        if !self.play.stands(link) {
            drain(&mut self.rows, link);
            return Ok(false);
        }
        give(
            &mut self.told,
            &mut self.faults.links,
            Happening::Connected(link),
        );
        Ok(true)
    }

    fn read(&mut self, link: LinkId, into: &mut [u8]) -> Result<Got, Failed>
        requires { 0 < length into.old }
        ensures sees { Sees (seen_of self.old) (seen_of self.new)
            (read_sees (seen_of self.old) link into.new result) }
        ensures found { let play = play_of self.old in
            IfOk result (IsFound play.released link.0 (play.given link.0) into.new) }
        ensures play { IsAsFar (play_of self.new) (after_read (play_of self.old) link.0 result) }
        ensures fails { FailsWhere (next_fails (play_of self.old)
            || not ((seen_of self.old).there link.0)) result }
        ensures refused { RoseOnce (play_of self.old).refused (play_of self.new).refused }
        ensures goes_on { TellsOn (seen_of self.old).tells (seen_of self.new).tells
            (play_of self.old).refused (play_of self.new).refused }
        ensures within { IfOk result (IsReadWithin (length into.old)) }
        ensures failed { OnErr result (Rose (seen_of self.old).faults.links
            (seen_of self.new).faults.links) }
    {
        if self.calls.next_fails() || !is_open(&self.rows, link) {
            return Err(fail(
                &mut self.told,
                &mut self.faults.links,
                Happening::Failed(link),
            ));
        }
        let got = self.play.read(link, into);
        match got {
            Got::Bytes(count) => give_bytes(
                self.alloc,
                &mut self.told,
                &mut self.faults.links,
                link,
                &into[..count],
            ),
            Got::End => give(
                &mut self.told,
                &mut self.faults.links,
                Happening::Ended(link),
            ),
            Got::NotYet => drain(&mut self.rows, link),
        }
        Ok(got)
    }

    fn write(&mut self, link: LinkId, piece: &[u8]) -> Result<Put, Failed>
        ensures sees { Sees (seen_of self.old) (seen_of self.new)
            (write_sees (seen_of self.old) link piece.now result) }
        ensures fits { let play = play_of self.old in
            IfOk result (IsTaken play.window (play.took link.0) (length piece.now)) }
        ensures play { IsAsFar (play_of self.new) (after_write (play_of self.old) link.0 result) }
        ensures fails { FailsOrStarves (next_fails (play_of self.old)
            || not ((seen_of self.old).there link.0)) (play_of self.old).refused
            (play_of self.new).refused result }
        ensures refused { RoseOnce (play_of self.old).refused (play_of self.new).refused }
        ensures goes_on { TellsOn (seen_of self.old).tells (seen_of self.new).tells
            (play_of self.old).refused (play_of self.new).refused }
        ensures within { IfOk result (IsPutWithin (length piece.now)) }
        ensures failed { OnErr result (Rose (seen_of self.old).faults.links
            (seen_of self.new).faults.links) }
    {
        if self.calls.next_fails() || !is_open(&self.rows, link) {
            set_blocked(&mut self.rows, link, false);
            return Err(fail(
                &mut self.told,
                &mut self.faults.links,
                Happening::Failed(link),
            ));
        }
        let count = room_for(self.window, taken(&self.rows, link), piece.len());
        if count == 0 && !piece.is_empty() {
            set_blocked(&mut self.rows, link, true);
            return Ok(Put::NotYet);
        }
        let Ok(()) = send(&mut self.rows, link, &piece[..count], self.window) else {
            return Err(starve(
                &mut self.told,
                &mut self.faults.links,
                Happening::Failed(link),
            ));
        };
        Ok(Put::Took(count))
    }

    fn close(&mut self, link: LinkId)
        ensures sees { Sees (seen_of self.old) (seen_of self.new)
            (close_sees (seen_of self.old) link) }
        ensures play { IsAsFar (play_of self.new) (play_of self.old) }
        ensures refused { (play_of self.new).refused ≡ (play_of self.old).refused }
        ensures goes_on { TellsOn (seen_of self.old).tells (seen_of self.new).tells
            (play_of self.old).refused (play_of self.new).refused }
    {
        close(&mut self.rows, link);
    }
}
