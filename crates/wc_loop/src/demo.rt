//! The demo: a run in memory in which a server speaks and a client follows.

ghost use Rattle.std.specs.Prelude.{◌≡◌, ◌≤◌, Some, false, max, IsTrue, IfOk, IfSome, OnOk};
ghost use Rattle.wc_outside.specs.Seen.{IsNew};
ghost use Rattle.wc_demo.specs.Client.{IsCountedBy};
ghost use Rattle.wc_demo.specs.Counts.{counts_of};
ghost use Rattle.wc_demo.specs.Script.{client, demo_taken, wakes_of};
ghost use Rattle.wc_loop.specs.Demo.{AreDemoCounts, RunsDemo, unsent_to_client};
ghost use Rattle.wc_loop.specs.Endings.{status_of};

use crate::run::{Outcome, run};
use crate::words::{Shows, Wish};
use std::alloc::Global;
use wc_demo::{
    CLIENT, Counts, client_counts, is_played, script, start_words, wake_count, world_counts,
};
use wc_outside::Sockets;
use wc_scripted::{MemoryKeeper, MemorySockets};
use wc_text::{Items, NoMemory, Text};
use wc_turns::Headless;

/// What the run is asked for: as many turns as waits of its script return.
fn demo_wish(lines: u32) -> Wish
    ensures turns { result.turns ≡ wakes_of lines }
    ensures some { 1 ≤ result.turns }
    ensures holds { result.holds ≡ false }
{
    Wish {
        shows: Shows::Nothing,
        turns: wake_count(lines),
        holds: false,
    }
}

/// The state after a run that took all its turns, and was never short of memory. None where it did
/// not end so.
fn ample_end(outcome: Outcome) -> Option<Headless>
    ensures last { IfSome result (λ last. outcome.last ≡ Some last) }
    ensures turns { IfSome result (λ _. status_of outcome.ending ≡ 8) }
    ensures starved { IfSome result (λ last. last.core.starved ≡ 0) }
{
    let Outcome { ending, last } = outcome;
    let Some(last) = last else {
        return None;
    };
    if ending.status() != 8 || last.starved() > 0 {
        drop(last);
        return None;
    }
    Some(last)
}

/// Runs what the sockets play, with an empty configuration of its own.
fn run_over(alloc: Global, lines: u32, sockets: &mut MemorySockets) -> Result<Headless, NoMemory>
    requires { IsNew (⟦<MemorySockets as Sockets>⟧.seen sockets.old) }
    ensures { IfOk result (RunsDemo (⟦<MemorySockets as Sockets>⟧.seen sockets.new)) }
{
    let words = start_words(alloc)?;
    let mut keeper = MemoryKeeper::new(alloc, Text::new(alloc), Items::new(alloc))?;
    let outcome = run(
        alloc,
        words.as_slice(),
        demo_wish(lines),
        sockets,
        &mut keeper,
    );
    match ample_end(outcome) {
        Some(last) => Ok(last),
        None => Err(NoMemory),
    }
}

/// Whether the sockets gave the whole script, and nothing else: else they were short of memory.
fn gave_all(alloc: Global, lines: u32, sockets: &MemorySockets) -> Result<(), NoMemory>
    ensures tells { OnOk result (IsTrue (⟦<MemorySockets as Sockets>⟧.seen sockets.now).tells) }
    ensures taken { OnOk result
        ((⟦<MemorySockets as Sockets>⟧.seen sockets.now).taken ≡ demo_taken lines) }
{
    let steps = script(alloc, lines)?;
    match sockets.taken() {
        Some(taken) if is_played(steps.as_slice(), taken) => Ok(()),
        _ => Err(NoMemory),
    }
}

/// What the client's mirror has by all that it is sent. The mirror holds as many lines of a buffer as
/// the core does.
fn mirrored_counts(
    alloc: Global,
    sockets: &MemorySockets,
    last: &Headless,
) -> Result<Counts, NoMemory>
    ensures { IfOk result (IsCountedBy (max last.now.core.world.limit 1)
        ((⟦<MemorySockets as Sockets>⟧.seen sockets.now).sent client.0)
        (unsent_to_client last.now)) }
{
    let limit = last.world().limit().max(1);
    let unsent = last.unsent(CLIENT).unwrap_or(&[]);
    client_counts(alloc, limit, sockets.sent(CLIENT), unsent)
}

/// The same, where it is also what the core has: else there was no memory for it.
fn agreed_counts(
    alloc: Global,
    sockets: &MemorySockets,
    last: &Headless,
) -> Result<Counts, NoMemory>
    ensures mirrored { IfOk result (IsCountedBy (max last.now.core.world.limit 1)
        ((⟦<MemorySockets as Sockets>⟧.seen sockets.now).sent client.0)
        (unsent_to_client last.now)) }
    ensures are { IfOk result (λ counts. counts ≡ counts_of last.now.core.world) }
{
    let counts = mirrored_counts(alloc, sockets, last)?;
    match world_counts(last.world()) {
        Some(held) if held == counts => Ok(counts),
        _ => Err(NoMemory),
    }
}

/// The counts after the run of a demo, where the sockets gave its whole script.
fn played_counts(
    alloc: Global,
    lines: u32,
    sockets: &MemorySockets,
    last: &Headless,
) -> Result<Counts, NoMemory>
    requires { RunsDemo (⟦<MemorySockets as Sockets>⟧.seen sockets.now) last.now }
    ensures { IfOk result (AreDemoCounts lines) }
{
    gave_all(alloc, lines, sockets)?;
    agreed_counts(alloc, sockets, last)
}

/// Runs what the sockets play, and counts what its client has in the end.
fn counts_over(alloc: Global, lines: u32, sockets: &mut MemorySockets) -> Result<Counts, NoMemory>
    requires { IsNew (⟦<MemorySockets as Sockets>⟧.seen sockets.old) }
    ensures { IfOk result (AreDemoCounts lines) }
{
    let last = run_over(alloc, lines, sockets)?;
    played_counts(alloc, lines, sockets, &last)
}

/// Runs a demo in which a server says so many lines, and answers how many buffers, lines and nicks
/// its client has in the end.
pub(crate) fn run_demo(alloc: Global, lines: u32) -> Result<Counts, NoMemory>
    ensures { IfOk result (AreDemoCounts lines) }
{
    let mut sockets = MemorySockets::new(alloc, script(alloc, lines)?, Items::new(alloc), 0)?;
    counts_over(alloc, lines, &mut sockets)
}
