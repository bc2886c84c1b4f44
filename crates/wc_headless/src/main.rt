//! A chat core without a screen, read through relays.
#![tactic(auto)]

use std::alloc::{AllocError, Global};
use std::process::ExitCode;
use std::{env, io};
use wc_edge::{FileKeeper, MioSockets, StdSink};
use wc_loop::{config_dir, needs_sockets, run_program};
use wc_scripted::MemorySockets;
use wc_text::Items;

/// The exit status for want of memory before the first wait.
const STARVED: u8 = 5;

/// Answers words that ask for a text alone, for which no sockets are made.
fn show(rt: &HostRuntime, alloc: Global, words: &Vec<String>) -> io::Result<u8> {
    let made = MemorySockets::new(alloc, Items::new(alloc), Items::new(alloc), 0);
    let mut sockets = made.map_err(|_| AllocError)?;
    let mut keeper = FileKeeper::new(rt, alloc, ".")?;
    let ended = run_program(
        alloc,
        words,
        &mut sockets,
        &mut keeper,
        &mut StdSink::new(rt),
    );
    Ok(ended.status)
}

/// Runs the program over real sockets and the file of its configuration.
fn run(rt: &HostRuntime, alloc: Global, words: &Vec<String>) -> io::Result<u8> {
    let mut sockets = MioSockets::new(rt, alloc)?;
    let mut keeper = FileKeeper::new(rt, alloc, config_dir(words).unwrap_or("."))?;
    let ended = run_program(
        alloc,
        words,
        &mut sockets,
        &mut keeper,
        &mut StdSink::new(rt),
    );
    Ok(ended.status)
}

/// Does what the words ask, and answers the exit status.
fn start(rt: &HostRuntime) -> io::Result<u8> {
    let alloc = rt.alloc();
    let mut words = Vec::new(alloc);
    for word in env::args(rt)?.skip(1) {
        words.push(word)?;
    }
    if needs_sockets(&words) {
        return run(rt, alloc, &words);
    }
    show(rt, alloc, &words)
}

fn main(rt: HostRuntime) -> ExitCode {
    if let Ok(status) = start(&rt) {
        return ExitCode::from(status);
    }
    let _ = print!(rt; "out of memory\n");
    ExitCode::from(STARVED)
}
