//! Plays tables of calls on texts, and prints each line and its answer.
//!
//! Each word of the command line is the name of a file. Each line of it is a call: the word of a
//! part, the word of a call, and its texts. Lines that are empty or begin with `#` are passed
//! over. Nothing is claimed here: what is printed is compared.
#![tactic(auto)]

mod irc;
mod logins;
mod objects;
mod options;
mod play;
mod requests;
mod texts;

use play::play;
use std::alloc::Global;
use std::{env, fs, io};
use wc_notation::Sheet;
use wc_options::Options;
use wc_text::NoMemory;

/// Writes what a table comes to.
fn put_played(alloc: Global, text: &str, out: &mut Sheet) {
    match Options::new(alloc) {
        Ok(mut options) => play(alloc, &mut options, text, out),
        Err(NoMemory) => out.lack(),
    }
}

fn print_table(rt: &HostRuntime, name: &str) -> io::Result<()> {
    let text = fs::read_to_string(rt, name)?;
    let mut out = Sheet::new(rt.alloc());
    put_played(rt.alloc(), text.as_str(), &mut out);
    print!(rt; "== {name}\n{}", out.read())
}

fn main(rt: HostRuntime) -> io::Result<()> {
    for name in env::args(&rt)?.skip(1) {
        print_table(&rt, name.as_str())?;
    }
    Ok(())
}
