//! More sources than one wait reports, and more clients than there is room for.

use crate::stage::{OFTEN, PORT, SELDOM, Stage, connect};
use std::io;
use wc_edge::MioSockets;
use wc_outside::{Ready, Sockets};

/// More links than one wait reports.
const MANY: u32 = 70;

/// How many links are there at most.
const SLOTS: u32 = 512;

/// So many clients come, and go again before they are taken.
fn come(stage: &mut Stage<'_>, count: u32) -> io::Result<()> {
    for _ in 0..count {
        connect(stage.rt)?;
    }
    print!(stage.rt; "-- {count} clients come and go\n")
}

/// Takes so many clients.
fn take(stage: &mut Stage<'_>, count: u32) {
    let mut taken = 0u32;
    for _ in 0..count {
        if let Ok(Some(_)) = stage.sockets.accept() {
            taken = taken.saturating_add(1);
        }
    }
    let shown = print!(stage.rt; "{taken} are taken\n");
    stage.note(shown);
}

/// Shows how many sources a wait reports.
fn count_once(stage: &mut Stage<'_>, ready: &mut Ready) {
    if stage.sockets.wait(0, ready).is_err() {
        stage.show(" failed");
    }
    let shown = print!(stage.rt; " {}", ready.count);
    stage.note(shown);
}

/// Shows how many sources each wait reports, until one reports none.
fn count_sources(stage: &mut Stage<'_>) {
    let mut ready = Ready::new();
    stage.show("waits:");
    for _ in 0..SLOTS {
        count_once(stage, &mut ready);
        if ready.count == 0 {
            break;
        }
    }
    stage.show("\n");
}

/// So many clients come, and so many are taken.
fn meet(stage: &mut Stage<'_>, coming: u32, taken: u32) -> io::Result<()> {
    come(stage, coming)?;
    stage.wait(OFTEN);
    take(stage, taken);
    count_sources(stage);
    Ok(())
}

/// More clients come than there is room for.
fn crowd(stage: &mut Stage<'_>) -> io::Result<()> {
    come(stage, SLOTS + MANY)?;
    stage.wait(OFTEN);
    stage.accept();
    stage.wait(OFTEN);
    stage.accept();
    stage.wait(SELDOM);
    Ok(())
}

/// Once a link is closed, the next client is taken in its place, under a number of its own.
fn replace_one(stage: &mut Stage<'_>) -> io::Result<()> {
    stage.close(1);
    let _client = connect(stage.rt)?;
    stage.welcome();
    Ok(())
}

fn play_clients(stage: &mut Stage<'_>) -> io::Result<()> {
    meet(stage, MANY, MANY)?;
    meet(stage, SLOTS, SLOTS - MANY)?;
    crowd(stage)?;
    replace_one(stage)?;
    stage.end()
}

pub fn play(rt: &HostRuntime) -> io::Result<()> {
    print!(rt; "== many clients come\n")?;
    let mut sockets = MioSockets::new(rt, rt.alloc())?;
    if sockets.listen(PORT).is_err() {
        return print!(rt; "the port is taken\n");
    }
    let mut stage = Stage::new(rt, sockets);
    play_clients(&mut stage)
}
