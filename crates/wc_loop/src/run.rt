//! One run: its configuration, its turns, and why it ends.

ghost use Rattle.std.specs.Prelude.{◌≡◌, ◌≢◌, ◌≤◌, ◌⊎◌, true, false, None, Ok, IfOk, IfErr};
ghost use Rattle.std.specs.Prelude.{IfSome, IsTrue, map, string_bytes};
ghost use Rattle.wc_outside.specs.Faults.{Rose};
ghost use Rattle.wc_outside.specs.Seen.{IsNew};
ghost use Rattle.wc_loop.specs.Endings.{IsEarly, Runs, RunStep, EndsAt, kept_of, status_of};
ghost use Rattle.wc_loop.specs.Endings.{KeepsText, HoldsEarlier, FailsToSave, LastTurn};
ghost use Rattle.wc_loop.specs.Endings.{ServedLast, SentLast};
ghost use Rattle.wc_turns.specs.Saves.{SavesTurn};
ghost use Rattle.wc_options.specs.Config.{config_of};
ghost use Rattle.wc_core.specs.Limits.{port_of};
ghost use Rattle.wc_core.specs.Served.{Means};
ghost use Rattle.wc_eval.specs.Verdicts.{Oracle};
ghost use Rattle.wc_loop.specs.Headline.{state_before, held_if, IsFirst, IsConfigured};
ghost use Rattle.wc_turns.specs.Parties.{IsCalm};
ghost use Rattle.wc_loop.specs.Words.{commands_of};
ghost use Rattle.wc_turns.specs.Turns.{AgreesWithSockets};

use crate::ending::Ending;
use crate::words::{Wish, start_commands};
use std::alloc::Global;
use wc_core::port_of;
use wc_options::{ConfigRefused, Options, read_config};
use wc_outside::{KeepFault, Keeper, Sockets};
use wc_text::NoMemory;
use wc_turns::{Headless, TurnEnd};

/// The options that the configuration holds.
#[tactic(auto, using(crate::proofs::OptionsLemmas::line_is))]
fn read_options<K: Keeper>(alloc: Global, keeper: &mut K) -> Result<Options, Ending>
    ensures known { IfOk result (λ options. IfSome (K.contents keeper.old)
        (λ configuration. config_of configuration ≡ Ok options)) }
    ensures early { IfErr result (IsEarly (K.contents keeper.old) (K.faults keeper.old)
        (K.faults keeper.new)) }
    ensures kept { K.contents keeper.new ≡ K.contents keeper.old }
    ensures counts { K.faults keeper.old ≤ K.faults keeper.new }
{
    let text = match keeper.read_all(alloc) {
        Ok(text) => text,
        Err(KeepFault::Failed) => return Err(Ending::NoConfiguration),
        Err(KeepFault::NoMemory) => return Err(Ending::NoMemory),
    };
    match read_config(alloc, text.as_slice()) {
        Ok(options) => Ok(options),
        Err(ConfigRefused::BadLine { line }) => Err(Ending::BadLine(line)),
        Err(ConfigRefused::NoMemory) => Err(Ending::NoMemory),
    }
}

/// What the options make of a run: its state, and where clients are listened for.
#[derive(Drop)]
struct Configured {
    headless: Headless,
    port: u16,
}

/// Makes the state of a run by the options, which runs the commands after its first wait, and then
/// connects servers by itself, unless that is held back.
fn state_by(
    alloc: Global,
    options: Options,
    commands: Vec<String>,
    holds: bool,
) -> Result<Configured, NoMemory>
    ensures first { IfOk result (λ made. IsFirst made.headless) }
    ensures means { IfOk result (λ made. (oracle : Oracle) → Means made.headless.core
        (state_before oracle options
        (record { commands = map string_bytes commands.items; holds = holds }))) }
    ensures port { IfOk result (λ made. made.port ≡ port_of options) }
    ensures calm { IfOk result (λ made. IsCalm made.headless.core) }
{
    let port = port_of(&options);
    let mut headless = Headless::new(alloc, options, commands)?;
    hold_if(holds, &mut headless);
    Ok(Configured { headless, port })
}

/// Has no server connect by itself at the start, where that is held back.
fn hold_if(holds: bool, headless: &mut Headless)
    ensures { headless.new ≡ held_if holds headless.old }
{
    if holds {
        headless.hold_servers();
    }
}

/// Makes the state of a run, by the configuration and the words.
fn configure<K: Keeper>(
    alloc: Global,
    words: &[String],
    holds: bool,
    keeper: &mut K,
) -> Result<Configured, Ending>
    ensures first { IfOk result (λ made. IsFirst made.headless) }
    ensures known { IfOk result (λ made. IfSome (K.contents keeper.old)
        (IsConfigured (record {
          commands = commands_of (map string_bytes words.now);
          holds = holds;
        }) made.headless made.port)) }
    ensures calm { IfOk result (λ made. IsCalm made.headless.core) }
    ensures early { IfErr result (IsEarly (K.contents keeper.old) (K.faults keeper.old)
        (K.faults keeper.new)) }
    ensures kept { K.contents keeper.new ≡ K.contents keeper.old }
    ensures counts { K.faults keeper.old ≤ K.faults keeper.new }
{
    let options = read_options(alloc, keeper)?;
    let commands = match start_commands(alloc, words) {
        Ok(commands) => commands,
        Err(NoMemory) => return Err(Ending::NoMemory),
    };
    match state_by(alloc, options, commands, holds) {
        Ok(made) => Ok(made),
        Err(_) => Err(Ending::NoMemory),
    }
}

/// Takes so many turns, unless a wait or the listener fails or `/quit` is run before. `headless` is
/// a state that took no turn yet, and the sockets are those that it was made with.
fn take_turns<S: Sockets, K: Keeper>(
    headless: &mut Headless,
    sockets: &mut S,
    keeper: &mut K,
    turns: u64,
) -> TurnEnd
    requires first { IsFirst headless.old }
    requires agrees { AgreesWithSockets headless.old (S.seen sockets.old) }
    ensures continues { RunStep result headless.old headless.new (S.seen sockets.old)
        (S.seen sockets.new) }
    ensures agrees { AgreesWithSockets headless.new (S.seen sockets.new) }
    ensures calm { IsCalm headless.new.core }
    ensures causes { 1 ≤ headless.new.turns → LastTurn headless.old headless.new
        (S.seen sockets.old) (S.seen sockets.new) }
    ensures served { result ≡ TurnEnd.GoOn → 1 ≤ turns → ServedLast (S.seen sockets.old)
        (S.seen sockets.new) headless.new }
    ensures sent { result ≡ TurnEnd.Quit → SentLast (S.seen sockets.old) (S.seen sockets.new)
        headless.new }
    ensures quit { result ≡ TurnEnd.Quit → headless.new.core.quits ≡ true }
    ensures going { result ≢ TurnEnd.Quit → result ≢ TurnEnd.ListenFault →
        result ≢ TurnEnd.KeeperFault → headless.new.core.quits ≡ false }
    ensures all { result ≡ TurnEnd.GoOn → headless.new.turns ≡ turns }
    ensures fewer { result ≡ TurnEnd.WaitFault → headless.new.turns ≢ turns }
    ensures some { (result ≡ TurnEnd.ListenFault) ⊎ ((result ≡ TurnEnd.Quit)
        ⊎ (result ≡ TurnEnd.KeeperFault)) → 1 ≤ headless.new.turns }
    ensures most { headless.new.turns ≤ turns }
    ensures wait_fault { result ≡ TurnEnd.WaitFault → Rose (S.seen sockets.old).faults.waits
        (S.seen sockets.new).faults.waits }
    ensures listen_fault { result ≡ TurnEnd.ListenFault → Rose (S.seen sockets.old).faults.listens
        (S.seen sockets.new).faults.listens }
    ensures saves { result ≢ TurnEnd.KeeperFault → SavesTurn headless.old.core headless.new.core
        (K.contents keeper.old) (K.contents keeper.new) }
    ensures unsaved { headless.new.turns ≡ 0 → headless.new.core.saved ≡ None }
    ensures unwoken { headless.new.turns ≡ 0 → K.contents keeper.new ≡ K.contents keeper.old }
    ensures unasked { headless.new.turns ≡ 0 → IsTrue (S.seen sockets.new).tells →
        (S.seen sockets.new).asked ≡ (S.seen sockets.old).asked }
    ensures unwritten { result ≡ TurnEnd.KeeperFault → FailsToSave headless.old headless.new
        (S.seen sockets.old) (S.seen sockets.new) (K.contents keeper.old) (K.contents keeper.new) }
    ensures keeper_fault { result ≡ TurnEnd.KeeperFault →
        Rose (K.faults keeper.old) (K.faults keeper.new) }
{
    for _ in 0..turns {
        match headless.turn(sockets, keeper) {
            TurnEnd::GoOn => {}
            then => return then,
        }
    }
    TurnEnd::GoOn
}

/// Why the run ends after its last turn.
fn ending_of(then: TurnEnd) -> Ending
    ensures { EndsAt then result }
{
    match then {
        TurnEnd::GoOn => Ending::TurnsTaken,
        TurnEnd::Quit => Ending::Quit,
        TurnEnd::WaitFault => Ending::WaitFailed,
        TurnEnd::ListenFault => Ending::ListenFailed,
        TurnEnd::KeeperFault => Ending::NotSaved,
    }
}

/// The state at the end, where a wait returned.
fn last_state(headless: Headless) -> Option<Headless>
    ensures { result ≡ kept_of headless }
{
    if headless.turns() == 0 {
        drop(headless);
        return None;
    }
    Some(headless)
}

/// How a run ended, before its text is printed.
#[derive(Drop)]
pub(crate) struct Outcome {
    pub(crate) ending: Ending,
    pub(crate) last: Option<Headless>,
}

/// Runs the program where words ask for turns.
pub(crate) fn run<S: Sockets, K: Keeper>(
    alloc: Global,
    words: &[String],
    wish: Wish,
    sockets: &mut S,
    keeper: &mut K,
) -> Outcome
    requires above { 1 ≤ wish.turns }
    requires new { IsNew (S.seen sockets.old) }
    ensures runs { Runs (record {
      commands = commands_of (map string_bytes words.now);
      holds = wish.holds;
    }) wish.turns (K.contents keeper.old) (K.faults keeper.old)
        (K.faults keeper.new) (S.seen sockets.old) (S.seen sockets.new) result.ending
        result.last }
    ensures kept { status_of result.ending ≢ 3 → KeepsText (K.contents keeper.old)
        (K.contents keeper.new) result.last }
    ensures unsaved { status_of result.ending ≡ 3 → IfSome result.last (HoldsEarlier (record {
      commands = commands_of (map string_bytes words.now);
      holds = wish.holds;
    }) (K.contents keeper.old) (K.contents keeper.new) (S.seen sockets.new)) }
    ensures unwoken { result.last ≡ None → K.contents keeper.new ≡ K.contents keeper.old }
{
    let Configured { mut headless, port } = match configure(alloc, words, wish.holds, keeper) {
        Ok(made) => made,
        Err(ending) => return Outcome { ending, last: None },
    };
    let Ok(()) = sockets.listen(port) else {
        drop(headless);
        return Outcome {
            ending: Ending::ListenFailed,
            last: None,
        };
    };
    let then = take_turns(&mut headless, sockets, keeper, wish.turns);
    Outcome {
        ending: ending_of(then),
        last: last_state(headless),
    }
}
