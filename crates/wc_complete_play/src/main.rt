//! Plays tables of completions and of the hotlist, and prints each line and its answer.
//!
//! Each word of the command line is the name of a file, which begins with the core buffer alone,
//! and with no commands and no rows. Each line of it is a call, whose last text takes the rest of
//! the line:
//!
//! - `commands NAMES`: the commands are these;
//! - `buffer NAME` adds a buffer, whose handle is 5 where it comes before all nicks; `group BUFFER
//!   PARENT NAME` and `nick BUFFER GROUP NAME` add to its nicklist, and `hidden_group` and
//!   `hidden_nick` what is not visible there;
//! - `complete BUFFER POSITION TEXT`: context, base word, where it begins and ends, and the list;
//! - `line BUFFER LEVEL shown`, or `hidden`, counts a line in the hotlist, `many COUNT BUFFER LEVEL`
//!   so many of them, and `each FIRST LAST LEVEL` one of each buffer from one to another;
//! - `remove BUFFER`, `clear`, and `place NUMBER` for the row at a place.
//!
//! Lines that are empty or begin with `#` are passed over. Nothing is claimed here: what is printed
//! is compared.
#![tactic(auto)]

mod hot;
mod names;
mod player;
mod texts;

use player::Player;
use std::alloc::Global;
use std::{env, fs, io};
use wc_notation::Wrong;

/// What a table comes to.
fn played(alloc: Global, text: &str) -> Result<String, Wrong> {
    let mut player = Player::new(alloc)?;
    player.play(alloc, text)
}

fn print_table(rt: &HostRuntime, name: &str) -> io::Result<()> {
    let text = fs::read_to_string(rt, name)?;
    match played(rt.alloc(), text.as_str()) {
        Ok(answers) => print!(rt; "== {name}\n{answers}"),
        Err(wrong) => print!(rt; "== {name}\n! {}\n", wrong.as_str()),
    }
}

fn main(rt: HostRuntime) -> io::Result<()> {
    for name in env::args(&rt)?.skip(1) {
        print_table(&rt, name.as_str())?;
    }
    Ok(())
}
