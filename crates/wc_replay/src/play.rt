ghost use Rattle.wc_outside.specs.Seen.{IsNew};

use crate::answers::Answers;
use crate::escapes::escape;
use crate::forms::Forms;
use crate::keeper::ReplayKeeper;
use crate::stage::{Kept, SHOWN, Stage};
use std::alloc::{AllocError, Global};
use wc_loop::{Ended, run_program};
use wc_outside::{Asked, Sockets};
use wc_scripted::{MemorySink, MemorySockets};
use wc_text::{Address, Items, LinkId, NoMemory};
use wc_turns::{Closed, Headless};

/// What is looked at after a run: the lines that compare, and how many links there may be.
#[derive(Clone, Copy)]
struct Wanted<'a> {
    lines: &'a str,
    links: u64,
}

/// Writes why a link was closed in the last turn, where it is written of its link.
fn show_closed(out: &mut String, closed: &Closed) -> Result<(), AllocError> {
    let (number, cause) = (closed.link.0, closed.cause);
    if number >= SHOWN {
        return Ok(());
    }
    write!(out, "  link {number} closed in the last turn: {cause:?}\n")
}

/// Writes what a run ended with.
fn show_last(out: &mut String, last: &Headless) -> Result<(), AllocError> {
    let (turns, ran, starved) = (last.turns(), last.ran(), last.starved());
    write!(out, "  turns {turns}, events {ran}, starved {starved}\n")?;
    for closed in last.closed() {
        show_closed(out, closed)?;
    }
    Ok(())
}

/// Writes how a run ended.
fn show_ended(out: &mut String, ended: &Ended) -> Result<(), AllocError> {
    let status = ended.status;
    write!(out, "  status {status}\n")?;
    match &ended.last {
        Some(last) => show_last(out, last),
        None => out.push_str("  no wait returned\n"),
    }
}

/// Runs the program over sockets, and writes how it ended.
fn run(
    alloc: Global,
    words: &Vec<String>,
    sockets: &mut MemorySockets,
    keeper: &mut ReplayKeeper,
    sink: &mut MemorySink,
    out: &mut String,
) -> Result<(), AllocError>
    requires { IsNew (⟦<MemorySockets as Sockets>⟧.seen sockets.old) }
{
    let ended = run_program(alloc, words, sockets, keeper, sink);
    show_ended(out, &ended)
}

/// Writes bytes after what they are.
fn show_bytes(out: &mut String, what: &str, bytes: &[u8]) -> Result<(), AllocError> {
    out.push_str(what)?;
    escape(out, bytes)?;
    out.push('\n')
}

/// Compares as the lines ask, and writes each of them before its answer.
fn compare_all(
    out: &mut String,
    answers: &mut Answers<'_>,
    forms: &mut Forms,
    lines: &str,
) -> Result<(), AllocError> {
    for line in lines.lines() {
        write!(out, "{line}\n")?;
        if let Err(wrong) = answers.compare(out, forms, line) {
            let what = wrong.text();
            write!(out, "  {what}\n")?;
        }
    }
    Ok(())
}

/// Writes whether a link is open at the end, and what it was sent that no line names.
fn show_link(
    out: &mut String,
    sockets: &MemorySockets,
    answers: &Answers<'_>,
    link: LinkId,
) -> Result<(), AllocError> {
    let number = link.0;
    let unnamed = answers.rest_of_link(link);
    let state = if sockets.is_open(link) {
        "open"
    } else {
        "not open"
    };
    write!(out, "link {number}: {state}, {} more bytes", unnamed.len())?;
    show_bytes(out, if unnamed.is_empty() { "" } else { ": " }, unnamed)
}

/// Compares what was sent, and writes what became of each link.
fn show_links(
    alloc: Global,
    out: &mut String,
    sockets: &MemorySockets,
    forms: &mut Forms,
    wanted: Wanted<'_>,
) -> Result<(), AllocError> {
    let mut answers = Answers::new(alloc, sockets);
    compare_all(out, &mut answers, forms, wanted.lines)?;
    for number in 1..SHOWN.min(wanted.links.saturating_add(1)) {
        show_link(out, sockets, &answers, LinkId(number))?;
    }
    Ok(())
}

/// Writes what was printed, and what is kept.
fn show_outside(
    out: &mut String,
    sink: &MemorySink,
    keeper: &ReplayKeeper,
) -> Result<(), AllocError> {
    show_bytes(out, "  printed: ", sink.contents())?;
    show_bytes(out, "  kept: ", keeper.contents())
}

/// Writes an address that was to be connected to.
fn show_address(out: &mut String, address: Address) -> Result<(), AllocError> {
    let [a, b, c, d] = address.ip.to_be_bytes();
    let port = address.port;
    write!(out, "  connects to {a}.{b}.{c}.{d}/{port}\n")
}

/// Writes what the sockets were asked to connect to, in order.
fn show_asked(out: &mut String, sockets: &MemorySockets) -> Result<(), AllocError> {
    for asked in sockets.asked().unwrap_or(&[]) {
        if let Asked::Connect(address) = asked {
            show_address(out, *address)?;
        }
    }
    Ok(())
}

/// How many connections the sockets were asked for.
fn connections(sockets: &MemorySockets) -> u64 {
    let asked = sockets.asked().unwrap_or(&[]);
    asked
        .iter()
        .filter(|asked| matches!(asked, Asked::Connect(_)))
        .count() as u64
}

fn with_sink(
    alloc: Global,
    words: &Vec<String>,
    sockets: &mut MemorySockets,
    keeper: &mut ReplayKeeper,
    sink: &mut MemorySink,
    out: &mut String,
) -> Result<(), NoMemory>
    requires { IsNew (⟦<MemorySockets as Sockets>⟧.seen sockets.old) }
{
    run(alloc, words, sockets, keeper, sink, out)?;
    show_outside(out, sink, keeper)?;
    Ok(show_asked(out, sockets)?)
}

fn with_sockets(
    alloc: Global,
    words: &Vec<String>,
    sockets: &mut MemorySockets,
    kept: Kept,
    sink_faults: Items<u64>,
    out: &mut String,
) -> Result<(), NoMemory>
    requires { IsNew (⟦<MemorySockets as Sockets>⟧.seen sockets.old) }
{
    let mut keeper = kept.keeper(alloc)?;
    let mut sink = MemorySink::new(alloc, sink_faults)?;
    with_sink(alloc, words, sockets, &mut keeper, &mut sink, out)
}

/// Runs the program on a stage, and writes how it ended. The sockets are those of the run.
fn run_stage(alloc: Global, stage: Stage, out: &mut String) -> Result<MemorySockets, NoMemory> {
    let Stage {
        words,
        wires,
        kept,
        sink_faults,
        ..
    } = stage;
    let mut sockets = wires.sockets(alloc)?;
    with_sockets(alloc, &words, &mut sockets, kept, sink_faults, out)?;
    Ok(sockets)
}

/// Runs the program on a stage, writes how it ended, and compares as the lines ask.
pub fn play(
    alloc: Global,
    stage: Stage,
    forms: &mut Forms,
    lines: &str,
    out: &mut String,
) -> Result<(), NoMemory> {
    let arrivals = stage.arrivals;
    let sockets = run_stage(alloc, stage, out)?;
    let links = arrivals.saturating_add(connections(&sockets));
    let wanted = Wanted { lines, links };
    Ok(show_links(alloc, out, &sockets, forms, wanted)?)
}
