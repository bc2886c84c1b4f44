//! Plays tables of what is typed for a server, of its messages, of what follows of them and of the
//! nicks of a channel, and prints each line and its answer.
//!
//! Each word of the command line is the name of a file. Each line of it is a call: its word and
//! its texts. Lines that are empty or begin with `#` are passed over. Nothing is claimed here:
//! what is printed is compared.
#![tactic(auto)]

mod acts;
mod commands;
mod marks;
mod nicks;
mod options;
mod player;
mod rows;
mod server;
mod sheet;
mod stage;
mod texts;
mod typed;

use player::Player;
use sheet::Sheet;
use std::alloc::Global;
use std::{env, fs, io};
use wc_text::NoMemory;

/// Plays the lines of a table, and writes each with its answer.
fn play(alloc: Global, text: &str, out: &mut Sheet) {
    match Player::new(alloc) {
        Ok(mut player) => player.play(alloc, text, out),
        Err(NoMemory) => out.lack(),
    }
}

fn print_table(rt: &HostRuntime, name: &str) -> io::Result<()> {
    let text = fs::read_to_string(rt, name)?;
    let mut out = Sheet::new(rt.alloc());
    play(rt.alloc(), text.as_str(), &mut out);
    print!(rt; "== {name}\n{}", out.read())
}

fn main(rt: HostRuntime) -> io::Result<()> {
    for name in env::args(&rt)?.skip(1) {
        print_table(&rt, name.as_str())?;
    }
    Ok(())
}
