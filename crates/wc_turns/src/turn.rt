ghost use Rattle.std.specs.List.{list_any};
ghost use Rattle.std.specs.Prelude.{◌≡◌, ◌≢◌, All};
ghost use Rattle.wc_outside.specs.Faults.{Rose};

use crate::connect::settle;
use crate::headless::Headless;
use crate::links::LinkState;
use crate::serve::serve_ready;
use wc_outside::{Failed, Keeper, Ready, Sockets};

/// How a turn ended.
#[derive(Clone, Copy, Debug, PartialEq, Eq)]
pub enum TurnEnd {
    /// The next turn may come.
    GoOn,
    /// A client or a command asked for the end of the run.
    Quit,
    /// The wait failed.
    WaitFault,
    /// The listener failed.
    ListenFault,
    /// What was saved could not be written.
    KeeperFault,
}

/// Whether one of the links is not drained.
fn any_undrained(states: &[LinkState]) -> bool
    ensures { result ≡ list_any (λ state. state.undrained) states.now }
{
    states.iter().any(|state| state.undrained)
}

impl Headless {
    ghost use Rattle.std.specs.Prelude.{true, false, IsTrue, OnOk, OnErr};
    ghost use Rattle.wc_turns.specs.Parties.{IsCalm};
    ghost use Rattle.wc_turns.specs.Sources.{AllServed, AllSent, TakesWithin, OneLogin};
    ghost use Rattle.wc_turns.specs.Turns.{AgreesWithSockets, LoopStep, HasCause, ClosesExactly};
    ghost use Rattle.wc_turns.specs.Turns.{waits_then, faults_then, TurnStep};
    ghost use Rattle.wc_turns.specs.Saves.{SavesTurn, WritesText, written_state};
    ghost use Rattle.wc_core.specs.Served.{KeepsSaved, unwritten_of};
    ghost use Rattle.wc_turns.specs.Waits.{has_undrained, timeout_of, then_of, WakesCore};
    ghost use Rattle.wc_turns.specs.Waits.{LosesNone};

    /// Whether a source was reported ready and is not drained.
    fn has_undrained(&self) -> bool
        ensures { result ≡ has_undrained self.now }
    {
        self.listening || any_undrained(self.links())
    }

    /// How long the next wait may take, in milliseconds. It takes no time where a source is not
    /// drained, nor at the start, which is the first event.
    fn timeout(&self) -> u64
        ensures { result ≡ timeout_of self.now }
    {
        if self.ran == 0 || self.has_undrained() {
            return 0;
        }
        100
    }

    /// One turn: a wait, and what follows from it. Sources that are ready are read, each link up to
    /// 1,048,576 bytes, at most 1,024 arrivals are taken, and then unsent bytes are written. A
    /// connection is asked whether it stands before it is read. The connections that the core wants
    /// are asked for after each event that may want one, and those that were refused before the
    /// wait are lost first. The wait does not block where a source was left undrained, and else for
    /// 100 ms at most. Where `/quit` is run, nothing more is read, and what is unsent is written
    /// once. Of clients that did not log in none is read after one whose password took long to check:
    /// they are read in the next turn, which does not wait. At its end the text that `/save` saved
    /// last, if it was run, takes the place of what the keeper holds.
    ///
    /// The sockets are those that this state was made with, `/quit` was not run, and what was saved
    /// before is written.
    pub fn turn<S: Sockets, K: Keeper>(&mut self, sockets: &mut S, keeper: &mut K) -> TurnEnd
        requires agrees { AgreesWithSockets self.old (S.seen sockets.old) }
        requires calm { IsCalm self.old.core }
        requires going { self.old.core.quits ≡ false }
        requires written { self.old.core.unwritten ≡ false }
        ensures continues { TurnStep result self.old self.new (S.seen sockets.old)
            (S.seen sockets.new) }
        ensures agrees { AgreesWithSockets self.new (S.seen sockets.new) }
        ensures calm { IsCalm self.new.core }
        ensures causes { All (HasCause self.old self.new (S.seen sockets.old)
            (S.seen sockets.new)) self.new.links.closed.items }
        ensures served { result ≡ TurnEnd.GoOn → AllServed self.old self.new
            (S.seen sockets.old) (S.seen sockets.new) }
        ensures sent { result ≡ TurnEnd.Quit →
            AllSent self.new (S.seen sockets.old) (S.seen sockets.new) }
        ensures within { TakesWithin (S.seen sockets.old) (S.seen sockets.new) }
        ensures once { OneLogin false self.old self.new (S.seen sockets.old) (S.seen sockets.new) }
        ensures contained { LosesNone self.old self.new }
        ensures closes { ClosesExactly self.old self.new (S.seen sockets.old) (S.seen sockets.new) }
        ensures quit { result ≡ TurnEnd.Quit → self.new.core.quits ≡ true }
        ensures goes_on { result ≡ TurnEnd.GoOn → self.new.core.quits ≡ false }
        ensures wait_fault { result ≡ TurnEnd.WaitFault → Rose (S.seen sockets.old).faults.waits
            (S.seen sockets.new).faults.waits }
        ensures unasked { result ≡ TurnEnd.WaitFault → IsTrue (S.seen sockets.new).tells →
            (S.seen sockets.new).asked ≡ (S.seen sockets.old).asked }
        ensures unwoken { result ≡ TurnEnd.WaitFault → self.new.core.quits ≡ false }
        ensures unsaved { result ≡ TurnEnd.WaitFault → self.new.core ≡ self.old.core }
        ensures listen_fault { result ≡ TurnEnd.ListenFault →
            Rose (S.seen sockets.old).faults.listens (S.seen sockets.new).faults.listens }
        ensures written { result ≢ TurnEnd.KeeperFault → self.new.core.unwritten ≡ false }
        ensures saves { result ≢ TurnEnd.KeeperFault → SavesTurn self.old.core self.new.core
            (K.contents keeper.old) (K.contents keeper.new) }
        ensures keeper_fault { result ≡ TurnEnd.KeeperFault →
            Rose (K.faults keeper.old) (K.faults keeper.new) }
        ensures kept { result ≡ TurnEnd.KeeperFault → K.contents keeper.new
            ≡ K.contents keeper.old }
        ensures unwritten { result ≡ TurnEnd.WaitFault → K.contents keeper.new
            ≡ K.contents keeper.old }
        ensures keeper_count { result ≢ TurnEnd.KeeperFault → K.faults keeper.new
            ≡ K.faults keeper.old }
    {
        let end = self.serve_turn(sockets);
        if self.save(keeper).is_err() {
            return TurnEnd::KeeperFault;
        }
        end
    }

    /// Writes the text that was saved last, where it is not written yet.
    fn save<K: Keeper>(&mut self, keeper: &mut K) -> Result<(), Failed>
        ensures states { OnOk result (self.new ≡ written_state self.old) }
        ensures kept { OnErr result (self.new ≡ self.old) }
        ensures unwritten { OnErr result (self.old.core.unwritten ≡ true) }
        ensures saves { OnOk result (WritesText (unwritten_of self.old.core)
            (K.contents keeper.old) (K.contents keeper.new)) }
        ensures contents { OnErr result (K.contents keeper.new ≡ K.contents keeper.old) }
        ensures failed { OnErr result (Rose (K.faults keeper.old) (K.faults keeper.new)) }
        ensures count { OnOk result (K.faults keeper.new ≡ K.faults keeper.old) }
    {
        if let Some(text) = self.core.unwritten() {
            keeper.replace(text)?;
        }
        self.core.written();
        Ok(())
    }

    /// Waits, and serves what is ready.
    fn serve_turn<S: Sockets>(&mut self, sockets: &mut S) -> TurnEnd
        requires agrees { AgreesWithSockets self.old (S.seen sockets.old) }
        requires calm { IsCalm self.old.core }
        requires going { self.old.core.quits ≡ false }
        ensures continues { LoopStep false (waits_then result) (faults_then result) self.old
            self.new (S.seen sockets.old) (S.seen sockets.new) }
        ensures agrees { AgreesWithSockets self.new (S.seen sockets.new) }
        ensures calm { IsCalm self.new.core }
        ensures causes { All (HasCause self.old self.new (S.seen sockets.old)
            (S.seen sockets.new)) self.new.links.closed.items }
        ensures served { result ≡ TurnEnd.GoOn → AllServed self.old self.new
            (S.seen sockets.old) (S.seen sockets.new) }
        ensures sent { result ≡ TurnEnd.Quit →
            AllSent self.new (S.seen sockets.old) (S.seen sockets.new) }
        ensures within { TakesWithin (S.seen sockets.old) (S.seen sockets.new) }
        ensures once { OneLogin false self.old self.new (S.seen sockets.old) (S.seen sockets.new) }
        ensures contained { LosesNone self.old self.new }
        ensures closes { ClosesExactly self.old self.new (S.seen sockets.old) (S.seen sockets.new) }
        ensures quit { result ≡ TurnEnd.Quit → self.new.core.quits ≡ true }
        ensures goes_on { result ≡ TurnEnd.GoOn → self.new.core.quits ≡ false }
        ensures wait_fault { result ≡ TurnEnd.WaitFault → Rose (S.seen sockets.old).faults.waits
            (S.seen sockets.new).faults.waits }
        ensures unasked { result ≡ TurnEnd.WaitFault → IsTrue (S.seen sockets.new).tells →
            (S.seen sockets.new).asked ≡ (S.seen sockets.old).asked }
        ensures unwoken { result ≡ TurnEnd.WaitFault → self.new.core.quits ≡ false }
        ensures listen_fault { result ≡ TurnEnd.ListenFault →
            Rose (S.seen sockets.old).faults.listens (S.seen sockets.new).faults.listens }
        ensures saves { KeepsSaved self.old.core self.new.core }
        ensures unsaved { result ≡ TurnEnd.WaitFault → self.new.core ≡ self.old.core }
        ensures keeper { result ≢ TurnEnd.KeeperFault }
    {
        let mut ready = Ready::new();
        if self.wake(sockets, &mut ready).is_err() {
            return TurnEnd::WaitFault;
        }
        let listened = serve_ready(self, sockets, &ready);
        self.turn_end(listened)
    }

    /// Waits, and begins a turn where the wait returns: the first one runs the commands of the start.
    /// Clients that found no memory for what is told then are parted with.
    fn wake<S: Sockets>(&mut self, sockets: &mut S, ready: &mut Ready) -> Result<(), Failed>
        requires agrees { AgreesWithSockets self.old (S.seen sockets.old) }
        requires calm { IsCalm self.old.core }
        requires going { self.old.core.quits ≡ false }
        ensures woken { OnOk result (WakesCore 1 self.old self.new (S.seen sockets.old)
            (S.seen sockets.new)) }
        ensures failed { OnErr result (WakesCore 0 self.old self.new (S.seen sockets.old)
            (S.seen sockets.new)) }
        ensures fault { OnErr result
            (Rose (S.seen sockets.old).faults.waits (S.seen sockets.new).faults.waits) }
        ensures going { OnErr result (self.new.core.quits ≡ false) }
        ensures unsaved { OnErr result (self.new.core ≡ self.old.core) }
        ensures unasked { OnErr result (IsTrue (S.seen sockets.new).tells →
            (S.seen sockets.new).asked ≡ (S.seen sockets.old).asked) }
    {
        match sockets.wait(self.timeout(), ready) {
            Ok(moment) => {
                self.begin_turn(moment);
                self.report(ready);
                settle(self, sockets, None);
                Ok(())
            }
            Err(Failed) => {
                self.links.begin_turn();
                Err(Failed)
            }
        }
    }

    /// How a turn ended whose wait returned.
    fn turn_end(&self, listened: Result<(), Failed>) -> TurnEnd
        ensures { result ≡ then_of listened self.now.core.quits }
    {
        if listened.is_err() {
            return TurnEnd::ListenFault;
        }
        if self.core.quits() {
            return TurnEnd::Quit;
        }
        TurnEnd::GoOn
    }
}
