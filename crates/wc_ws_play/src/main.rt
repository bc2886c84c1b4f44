//! Plays tables of calls on WebSocket links, and prints each line and its answer.
//!
//! Each word of the command line is the name of a file. Each line of it is a call on the link of
//! this file, as `play` says. Lines that are empty or begin with `#` are passed over. Nothing is
//! claimed here: what is printed is compared.
#![tactic(auto)]

mod calls;
mod play;
mod shown;

use play::play;
use std::alloc::Global;
use std::{env, fs, io};
use wc_notation::Wrong;
use wc_ws::WsLink;

/// What a table comes to.
fn played(alloc: Global, text: &str) -> Result<String, Wrong> {
    let mut link = WsLink::new(alloc)?;
    play(alloc, &mut link, text)
}

fn print_table(rt: &HostRuntime, name: &str) -> io::Result<()> {
    let text = fs::read_to_string(rt, name)?;
    match played(rt.alloc(), text.as_str()) {
        Ok(answers) => print!(rt; "== {name}\n{answers}"),
        Err(wrong) => print!(rt; "== {name}\n! {}\n", wrong.as_str()),
    }
}

fn main(rt: HostRuntime) -> io::Result<()> {
    for name in env::args(&rt)?.skip(1) {
        print_table(&rt, name.as_str())?;
    }
    Ok(())
}
