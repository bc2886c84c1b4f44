//! Plays tables of data paths and keys, and prints each line and its answer.
//!
//! Each word of the command line is the name of a file. Each line of it is a call: its word and
//! its texts. Lines that are empty or begin with `#` are passed over. Nothing is claimed here:
//! what is printed is compared.
#![tactic(auto)]

mod paths;

use paths::answer;
use std::alloc::{AllocError, Global};
use std::{env, fs, io};
use wc_notation::{cut_word, end_answer, is_passed_over};

/// Writes a line and its answer.
fn turn(alloc: Global, line: &str, out: &mut String) -> Result<(), AllocError> {
    if is_passed_over(line) {
        return Ok(());
    }
    write!(out, "> {line}\n")?;
    let (call, rest) = cut_word(line);
    let answered = answer(alloc, call, rest, out);
    end_answer(out, answered)
}

/// What a table comes to.
fn play_text(alloc: Global, text: &str) -> Result<String, AllocError> {
    let mut out = String::new(alloc);
    for line in text.lines() {
        turn(alloc, line, &mut out)?;
    }
    Ok(out)
}

fn print_table(rt: &HostRuntime, name: &str) -> io::Result<()> {
    let text = fs::read_to_string(rt, name)?;
    match play_text(rt.alloc(), text.as_str()) {
        Ok(answers) => print!(rt; "== {name}\n{answers}"),
        Err(_) => print!(rt; "== {name}\n! out of memory\n"),
    }
}

fn main(rt: HostRuntime) -> io::Result<()> {
    for name in env::args(&rt)?.skip(1) {
        print_table(&rt, name.as_str())?;
    }
    Ok(())
}
