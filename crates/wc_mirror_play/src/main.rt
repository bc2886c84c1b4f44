//! Plays messages of a relay to a client's mirror, and prints each line, what taking it answers,
//! and the copy after it.
//!
//! Each word of the command line is the name of a file. Its lines are:
//!
//! - `mirror LIMIT` begins anew with a mirror of so many lines a buffer, whose dumps have the ids
//!   `b`, `l` and `n`; a file begins with one of three;
//! - `take ID OBJECT..` gives it a message, in the notation of objects;
//! - `front COUNT ID OBJECT..` gives it so many bytes of a message;
//! - `bytes BYTES` gives it any bytes.
//!
//! Lines that are empty or begin with `#` are passed over. Handles are shown to the base 16, as
//! messages have them. Nothing is claimed here: what is printed is compared.
#![tactic(auto)]

mod buffers_shown;
mod copy;
mod lines_shown;
mod messages;
mod nicks_shown;
mod play;
mod stage;

use play::play;
use std::{env, fs, io};
use wc_notation::Sheet;

fn print_play(rt: &HostRuntime, name: &str) -> io::Result<()> {
    let text = fs::read_to_string(rt, name)?;
    let mut out = Sheet::new(rt.alloc());
    play(rt.alloc(), text.as_str(), &mut out);
    print!(rt; "== {name}\n{}", out.read())
}

fn main(rt: HostRuntime) -> io::Result<()> {
    for name in env::args(&rt)?.skip(1) {
        print_play(&rt, name.as_str())?;
    }
    Ok(())
}
