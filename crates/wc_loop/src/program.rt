ghost use Rattle.std.specs.Prelude.{◌≡◌, ◌≢◌, false, None, IfOk, IfSome, IsTrue, OnOk, OnErr};
ghost use Rattle.std.specs.Prelude.{is_some, map, string_bytes};
ghost use Rattle.std.specs.Io.KnownBytes.{append_known};
ghost use Rattle.wc_outside.specs.Faults.{Rose};
ghost use Rattle.wc_outside.specs.Seen.{IsNew};
ghost use Rattle.wc_loop.specs.Demo.{PrintsDemo, IsDemoEnd, IfDemo};
ghost use Rattle.wc_loop.specs.Endings.{LastOf, StatusOf, WaitsAtMost, Prints, HasCause, RunsBy};
ghost use Rattle.wc_loop.specs.Endings.{asks_turns, IsAsked, status_of, ending_text, KeepsText};
ghost use Rattle.wc_loop.specs.Endings.{HoldsEarlier, HoldsSaved, ClosesLast, ServedLast, SentLast};
ghost use Rattle.wc_loop.specs.Headline.{Headline, TakesEach, ClientsHoldDumps, LinesAreShown};
ghost use Rattle.wc_turns.specs.Parties.{IsCalm};
ghost use Rattle.wc_loop.specs.Words.{opening_of, wish_of};
ghost use Rattle.wc_turns.specs.Turns.{AgreesWithSockets};

use crate::demo::run_demo;
use crate::ending::Ending;
use crate::help::help;
use crate::print::print;
use crate::run::{Outcome, run};
use crate::words::{Shows, read_words};
use std::alloc::Global;
use wc_outside::{Failed, Keeper, Sink, Sockets};
use wc_turns::Headless;

/// How a run ended.
#[derive(Drop)]
pub struct Ended {
    /// 0 where words asked for the version, the help or a demo, or `/quit` was run; 1 for a bad word;
    /// 2 where a wait failed; 3 where the configuration could not be read, or not be written; 4 where
    /// a line of it is unreadable; 5 for want of memory before the first wait, or in a demo; 6 where
    /// the listener failed; 7 where printing failed; and 8 where as many waits returned as were asked
    /// for.
    pub status: u8,
    /// The state after the last turn, where a wait returned.
    pub last: Option<Headless>,
}

/// Runs the program, and prints nothing.
fn run_words<S: Sockets, K: Keeper>(
    alloc: Global,
    words: &[String],
    sockets: &mut S,
    keeper: &mut K,
) -> Outcome
    requires { IsNew (S.seen sockets.old) }
    ensures runs { RunsBy (opening_of (map string_bytes words.now))
        (wish_of (map string_bytes words.now)) (K.contents keeper.old)
        (K.faults keeper.old) (K.faults keeper.new) (S.seen sockets.old) (S.seen sockets.new)
        result.ending result.last }
    ensures kept { status_of result.ending ≢ 3 → KeepsText (K.contents keeper.old)
        (K.contents keeper.new) result.last }
    ensures unsaved { status_of result.ending ≡ 3 → IfSome result.last (HoldsEarlier
        (opening_of (map string_bytes words.now)) (K.contents keeper.old)
        (K.contents keeper.new) (S.seen sockets.new)) }
    ensures unwoken { result.last ≡ None → K.contents keeper.new ≡ K.contents keeper.old }
{
    let wish = match read_words(words) {
        Ok(wish) => wish,
        Err(number) => {
            return Outcome {
                ending: Ending::BadWord(number),
                last: None,
            };
        }
    };
    match wish.shows {
        Shows::Nothing => run(alloc, words, wish, sockets, keeper),
        Shows::Version => Outcome {
            ending: Ending::Version,
            last: None,
        },
        Shows::Help => Outcome {
            ending: Ending::Help,
            last: None,
        },
        Shows::Demo(lines) => Outcome {
            ending: demo_ending(alloc, lines),
            last: None,
        },
    }
}

/// How a demo ends in which a server says so many lines.
fn demo_ending(alloc: Global, lines: u32) -> Ending
    ensures { IsDemoEnd lines result }
{
    match run_demo(alloc, lines) {
        Ok(counts) => Ending::Demo(lines, counts),
        Err(_) => Ending::NoMemory,
    }
}

/// Prints the text of an end.
fn print_ending<O: Sink>(out: &mut O, ending: Ending) -> Result<(), Failed>
    ensures ok { OnOk result (O.contents out.new
        ≡ append_known (O.contents out.old) (ending_text ending)) }
    ensures count { OnOk result (O.faults out.new ≡ O.faults out.old) }
    ensures failed { OnErr result (Rose (O.faults out.old) (O.faults out.new)) }
{
    match ending {
        Ending::Help => print(out, help()),
        _ => print(out, ending.text().as_slice()),
    }
}

/// Prints what is to be told of an outcome.
fn end<O: Sink>(out: &mut O, outcome: Outcome) -> Ended
    ensures last { result.last ≡ outcome.last }
    ensures status { result.status ≢ 7 → result.status ≡ status_of outcome.ending }
    ensures printed { result.status ≢ 7 → O.contents out.new ≡ append_known (O.contents out.old)
        (ending_text outcome.ending) }
    ensures count { result.status ≢ 7 → O.faults out.new ≡ O.faults out.old }
    ensures sink { result.status ≡ 7 → Rose (O.faults out.old) (O.faults out.new) }
{
    let status = match print_ending(out, outcome.ending) {
        Ok(()) => outcome.ending.status(),
        Err(_) => 7,
    };
    Ended {
        status,
        last: outcome.last,
    }
}

/// Whether words ask for a run, which needs sockets. A bad word, and words that ask for a text alone
/// or for a demo, need none.
pub fn needs_sockets(words: &Vec<String>) -> bool
    ensures { result ≡ asks_turns (wish_of (map string_bytes words.now.items)) }
{
    match read_words(words.as_slice()) {
        Ok(wish) => wish.shows == Shows::Nothing,
        Err(_) => false,
    }
}

/// Runs the program for these words: it reads the options of the configuration, listens at 127.0.0.1
/// and the port that they set, runs the commands of `-r` on the core buffer after the first wait, and
/// serves clients of the relay protocol `weechat` until as many waits returned as `--turns` asks for,
/// or `/quit` is run. What `/save` saves takes the place of the configuration. The sockets are new.
/// At its end it prints what is to be told.
///
/// For `--demo` nothing of this is touched but what is printed to. A run in memory of its own has a
/// server say lines that are made up, and a client that takes the three dumps and follows. Printed is
/// how many buffers, lines and nicks the client has in the end.
///
/// A sink that fails gives the status 7 in place of the one that was to come.
pub fn run_program<S: Sockets, K: Keeper, O: Sink>(
    alloc: Global,
    words: &Vec<String>,
    sockets: &mut S,
    keeper: &mut K,
    out: &mut O,
) -> Ended
    requires { IsNew (S.seen sockets.old) }
    ensures headline { IfSome result.last (Headline
        (opening_of (map string_bytes words.now.items)) (K.contents keeper.old)
        (S.seen sockets.new)) }
    ensures contained { IfSome result.last (TakesEach
        (opening_of (map string_bytes words.now.items)) (K.contents keeper.old)
        (S.seen sockets.new)) }
    ensures mirrored { IfSome result.last (ClientsHoldDumps
        (opening_of (map string_bytes words.now.items)) (K.contents keeper.old)
        (S.seen sockets.new)) }
    // Each line of each buffer is shown or hidden as the filters have it.
    ensures shown { IfSome result.last (LinesAreShown
        (opening_of (map string_bytes words.now.items)) (K.contents keeper.old)
        (S.seen sockets.new)) }
    ensures status { result.status ≢ 7 → StatusOf (wish_of (map string_bytes words.now.items))
        (K.contents keeper.old) (S.seen sockets.new) result.status result.last }
    ensures printed { result.status ≢ 7 → Prints (wish_of (map string_bytes words.now.items))
        (K.contents keeper.old) result.status result.last (O.contents out.old)
        (O.contents out.new) }
    ensures demo { result.status ≡ 0 → IfDemo (wish_of (map string_bytes words.now.items))
        (λ lines. PrintsDemo lines (O.contents out.old) (O.contents out.new)) }
    ensures last { LastOf (S.seen sockets.new) result.last }
    ensures waits { IfOk (wish_of (map string_bytes words.now.items))
        (λ wish. WaitsAtMost wish.turns (S.seen sockets.new) result.last) }
    ensures agrees { IfSome result.last (λ last. AgreesWithSockets last (S.seen sockets.new)) }
    ensures calm { IfSome result.last (λ last. IsCalm last.core) }
    ensures causes { IfSome result.last (ClosesLast
        (opening_of (map string_bytes words.now.items)) (K.contents keeper.old)
        (S.seen sockets.old) (S.seen sockets.new)) }
    ensures served { result.status ≡ 8 →
        IfSome result.last (ServedLast (S.seen sockets.old) (S.seen sockets.new)) }
    ensures sent { result.status ≡ 0 →
        IfSome result.last (SentLast (S.seen sockets.old) (S.seen sockets.new)) }
    ensures faults { HasCause (S.seen sockets.old).faults (S.seen sockets.new).faults
        (K.faults keeper.old) (K.faults keeper.new) result.status }
    ensures sink { result.status ≡ 7 → Rose (O.faults out.old) (O.faults out.new) }
    ensures sink_count { result.status ≢ 7 → O.faults out.new ≡ O.faults out.old }
    ensures asked { result.status ≢ 7 → IsTrue (S.seen sockets.new).tells →
        IsAsked (asks_turns (wish_of (map string_bytes words.now.items)))
        (K.contents keeper.old) result.status (is_some result.last) (S.seen sockets.new).asked }
    ensures untouched { asks_turns (wish_of (map string_bytes words.now.items)) ≡ false →
        S.seen sockets.new ≡ S.seen sockets.old }
    ensures kept { result.status ≢ 3 → result.status ≢ 7 → KeepsText (K.contents keeper.old)
        (K.contents keeper.new) result.last }
    ensures unsaved { result.status ≡ 3 → IfSome result.last (HoldsEarlier
        (opening_of (map string_bytes words.now.items)) (K.contents keeper.old)
        (K.contents keeper.new) (S.seen sockets.new)) }
    ensures held { HoldsSaved (opening_of (map string_bytes words.now.items))
        (K.contents keeper.old) (K.contents keeper.new) (S.seen sockets.new) result.last }
{
    let outcome = run_words(alloc, words.as_slice(), sockets, keeper);
    end(out, outcome)
}
