//! Plays tables of texts, conditions, comparisons, expressions and patterns, and prints each line
//! and its answer.
//!
//! Each word of the command line is the name of a file. Each line of it is a call: `eval`,
//! `condition`, `calc` or `judge` and a text, `compare`, the sign and two texts, or `built` alone, how
//! many patterns are kept built. Lines that are empty or begin with `#` are passed over. Nothing is
//! claimed here: what is printed is compared.
#![tactic(auto)]

mod calls;
mod player;
mod scenery;

use player::Player;
use std::alloc::Global;
use std::{env, fs, io};
use wc_notation::Wrong;

/// What a table comes to.
fn played(alloc: Global, text: &str) -> Result<String, Wrong> {
    let mut player = Player::new(alloc)?;
    player.play(alloc, text)
}

fn print_table(rt: &HostRuntime, name: &str) -> io::Result<()> {
    let text = fs::read_to_string(rt, name)?;
    match played(rt.alloc(), text.as_str()) {
        Ok(answers) => print!(rt; "== {name}\n{answers}"),
        Err(wrong) => print!(rt; "== {name}\n! {}\n", wrong.as_str()),
    }
}

fn main(rt: HostRuntime) -> io::Result<()> {
    for name in env::args(&rt)?.skip(1) {
        print_table(&rt, name.as_str())?;
    }
    Ok(())
}
