//! A client logs in, writes a ping, gets the 34 bytes of its answer, and goes.

ghost use Rattle.wc_outside.specs.Seen.{IsDrained};

use crate::stage::{OFTEN, PORT, SELDOM, Stage, connect};
use std::io::{self, Read, Write};
use std::time::{Duration, Instant};
use wc_edge::MioSockets;
use wc_outside::{Ready, Sockets};

/// The answer to the ping.
const PONG: &[u8; 34] = b"\0\0\0\x22\0\0\0\0\x05_pongstr\0\0\0\r1480802456789";

fn show_digits(stage: &mut Stage<'_>, byte: u8) {
    let shown = print!(stage.rt; " {byte:02x}");
    stage.note(shown);
}

/// Shows the 34 bytes that a client gets next.
fn show_answer<S: Read>(stage: &mut Stage<'_>, client: &mut S) {
    let mut answer = [0; 34];
    stage.fill_from(client, &mut answer);
    stage.show("-- the client reads");
    for byte in answer {
        show_digits(stage, byte);
    }
    stage.show("\n");
}

/// A client is let in.
fn log_in<S: Write>(stage: &mut Stage<'_>, client: &mut S) {
    stage.welcome();
    stage.wait(OFTEN);
    stage.read(1);
    stage.say(client, "init password=x\n");
    stage.wait(OFTEN);
    stage.read_times(1, 3);
}

/// A client gets an answer to its ping.
fn ping<S: Read + Write>(stage: &mut Stage<'_>, client: &mut S) {
    stage.say(client, "ping 1480802456789\n");
    stage.wait(OFTEN);
    stage.read_times(1, 3);
    stage.write(1, PONG);
    show_answer(stage, client);
    stage.wait(SELDOM);
}

/// A client comes, is served, and goes.
fn visit(stage: &mut Stage<'_>) -> io::Result<()> {
    let mut client = connect(stage.rt)?;
    log_in(stage, &mut client);
    ping(stage, &mut client);
    stage.show("-- the client goes\n");
    Ok(())
}

/// The link of a client that is gone ends, and once it is closed there is nothing to read.
fn leave(stage: &mut Stage<'_>) {
    stage.wait(OFTEN);
    stage.read(1);
    stage.close(1);
    stage.read(1);
    stage.wait(SELDOM);
}

/// Waits for 100 ms at sockets that are drained, and shows whether that time passed with nothing.
fn rest<S: Sockets>(rt: &HostRuntime, sockets: &mut S) -> io::Result<()>
    requires { IsDrained (S.seen sockets.old) }
{
    let start = Instant::now(rt)?;
    let mut ready = Ready::new();
    let is_woken = sockets.wait(100, &mut ready).is_ok();
    let is_over = start.elapsed(rt)? >= Duration::from_millis(90);
    let tokens = &ready.tokens[..ready.count];
    print!(rt; "wait for 100 ms: {is_woken} {tokens:?} {is_over}\n")
}

fn play_client(stage: &mut Stage<'_>) -> io::Result<()> {
    visit(stage)?;
    leave(stage);
    stage.end()
}

pub fn play(rt: &HostRuntime) -> io::Result<()> {
    print!(rt; "== a ping is answered by 34 bytes\n")?;
    let mut sockets = MioSockets::new(rt, rt.alloc())?;
    if sockets.listen(PORT).is_err() {
        return print!(rt; "the port is taken\n");
    }
    rest(rt, &mut sockets)?;
    let mut stage = Stage::new(rt, sockets);
    play_client(&mut stage)
}
