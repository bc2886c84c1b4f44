//! Plays scripts of runs over sockets in memory, and prints what each link was sent.
//!
//! Each word is the name of a file, which has the scripts of one run or more, parted by lines
//! `----`. The lines of a script up to the line `run` are what comes to the run (`Stage::step` has
//! their words), and those after it what its links are to be sent (`Answers::compare`). Each line
//! is printed before what is to be told of it. Nothing is claimed here: what is printed is
//! compared.
#![tactic(auto)]

mod answers;
mod escapes;
mod forms;
mod frames;
mod keeper;
mod play;
mod stage;
mod wrong;

use forms::Forms;
use play::play;
use stage::Stage;
use std::alloc::{AllocError, Global};
use std::{env, fs, io};
use wc_text::NoMemory;

/// Takes the steps of lines, and writes each of them before what is wrong with it.
fn take_steps(
    stage: &mut Stage,
    forms: &mut Forms,
    lines: &str,
    out: &mut String,
) -> Result<(), AllocError> {
    for line in lines.lines() {
        write!(out, "{line}\n")?;
        if let Err(wrong) = stage.step(forms, line) {
            let what = wrong.text();
            write!(out, "  {what}\n")?;
        }
    }
    Ok(())
}

/// The stage that lines make.
fn stage_of(
    alloc: Global,
    forms: &mut Forms,
    lines: &str,
    out: &mut String,
) -> Result<Stage, AllocError> {
    let mut stage = Stage::new(alloc);
    take_steps(&mut stage, forms, lines, out)?;
    Ok(stage)
}

/// Plays a stage, and compares as the lines ask.
fn play_stage(
    alloc: Global,
    stage: Stage,
    forms: &mut Forms,
    lines: &str,
    out: &mut String,
) -> Result<(), AllocError> {
    out.push_str("run\n")?;
    match play(alloc, stage, forms, lines, out) {
        Ok(()) => Ok(()),
        Err(NoMemory) => out.push_str("  out of memory\n"),
    }
}

/// Plays a script.
fn play_script(alloc: Global, script: &str, out: &mut String) -> Result<(), AllocError> {
    let (steps, lines) = script.split_once("\nrun\n").unwrap_or((script, ""));
    let mut forms = Forms::new(alloc);
    let stage = stage_of(alloc, &mut forms, steps, out)?;
    play_stage(alloc, stage, &mut forms, lines, out)
}

/// Plays the scripts that lines `----` part.
fn played_all(alloc: Global, scripts: &str, out: &mut String) -> Result<(), AllocError> {
    for (place, script) in scripts.split("----\n").enumerate() {
        if place > 0 {
            out.push_str("----\n")?;
        }
        play_script(alloc, script, out)?;
    }
    Ok(())
}

/// Plays the scripts of a file.
fn played_file(rt: &HostRuntime, name: &str) -> io::Result<String> {
    let alloc = rt.alloc();
    let mut out = String::new(alloc);
    match fs::read_to_string(rt, name) {
        Ok(scripts) => played_all(alloc, scripts.as_str(), &mut out)?,
        Err(_) => out.push_str("  cannot be read\n")?,
    }
    Ok(out)
}

/// Prints what comes of the scripts of a file.
fn print_played(rt: &HostRuntime, name: &str) -> io::Result<()> {
    let text = played_file(rt, name)?;
    print!(rt; "== {name}\n{text}")?;
    Ok(())
}

fn main(rt: HostRuntime) -> io::Result<()> {
    for name in env::args(&rt)?.skip(1) {
        print_played(&rt, name.as_str())?;
    }
    Ok(())
}
