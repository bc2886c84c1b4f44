//! Plays scripts of changes over a world, and prints what becomes of it and what clients are told.
//!
//! Each word is the name of a file, whose lines are played in a world of their own. Nothing is
//! claimed here: what is printed is compared.
#![tactic(auto)]

mod answers;
mod audience;
mod clients;
mod commands;
mod context;
mod diffs;
mod dumps;
mod hdata;
mod mirrors;
mod parts;
mod random;
mod sheet;
mod show_buffers;
mod show_lines;
mod show_nicks;
mod stage;

use sheet::Sheet;
use stage::{LIMIT, Stage};
use std::alloc::Global;
use std::{env, fs, io};
use wc_text::NoMemory;

fn play_lines(stage: &mut Stage, out: &mut Sheet, text: &str) {
    for line in text.lines() {
        stage.play(out, line);
    }
}

/// Plays the lines of a file in a world of their own.
fn play(alloc: Global, out: &mut Sheet, text: &str) {
    match &mut Stage::new(alloc, LIMIT) {
        Ok(stage) => play_lines(stage, out, text),
        Err(NoMemory) => out.lack(),
    }
}

fn print_file(rt: &HostRuntime, name: &str) -> io::Result<()> {
    let text = fs::read_to_string(rt, name)?;
    let mut out = Sheet::new(rt.alloc());
    play(rt.alloc(), &mut out, text.as_str());
    print!(rt; "== {name}\n{}", out.read())
}

fn main(rt: HostRuntime) -> io::Result<()> {
    for name in env::args(&rt)?.skip(1) {
        print_file(&rt, name.as_str())?;
    }
    Ok(())
}
