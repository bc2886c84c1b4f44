//! A source is reported where something becomes ready, once, and a link that is closed never.

use crate::stage::{OFTEN, PORT, Played, SELDOM, Stage, connect};
use std::io::{self, Read, Write};
use std::net::{OpenStream, Shutdown};
use std::thread;
use std::time::Duration;
use wc_edge::MioSockets;
use wc_outside::{Put, Sockets};
use wc_text::LinkId;

/// How many pieces are more than a link has room for.
const MANY: u32 = 100_000;

/// How many bytes a link takes, piece by piece, until it has no room.
fn fill_by(sockets: &mut Played<'_>, link: u64, piece: &[u8]) -> u64 {
    let mut sum = 0u64;
    for _ in 0..MANY {
        match sockets.write(LinkId(link), piece) {
            Ok(Put::Took(count)) => sum = sum.saturating_add(count as u64),
            _ => return sum,
        }
    }
    sum
}

/// How many bytes a link takes, in large pieces and then in small ones, until it has no room.
fn fill_once(sockets: &mut Played<'_>, link: u64) -> u64 {
    let piece = [b'x'; 4096];
    let large = fill_by(sockets, link, &piece);
    let small = fill_by(sockets, link, b"x");
    large.saturating_add(small)
}

/// How many bytes a link takes until it has no room, also once they had time to go to the other
/// end.
fn fill_wholly(stage: &mut Stage<'_>, link: u64) -> u64 {
    let mut sum = 0u64;
    for _ in 0..100 {
        let count = fill_once(&mut stage.sockets, link);
        if count == 0 {
            break;
        }
        sum = sum.saturating_add(count);
        thread::sleep(stage.rt, Duration::from_millis(50));
    }
    sum
}

/// Writes to a link until it has no room, and answers how many bytes it took.
fn fill(stage: &mut Stage<'_>, link: u64) -> u64 {
    let sum = fill_wholly(stage, link);
    let shown = print!(stage.rt; "-- link {link} is written to until there is no room\n");
    stage.note(shown);
    stage.write(link, b"x");
    sum
}

/// A client reads so many bytes.
fn read_all<S: Read>(stage: &mut Stage<'_>, client: &mut S, count: u64) {
    let mut buffer = [0; 4096];
    for _ in 0..count / 4096 {
        stage.fill_from(client, &mut buffer);
    }
    stage.fill_from(client, &mut buffer[..(count % 4096) as usize]);
    stage.show("-- the client reads all\n");
}

/// A source that is not drained is reported again where something new comes, and not before.
fn leave_undrained<S: Write>(stage: &mut Stage<'_>, client: &mut S) {
    stage.say(client, "twenty bytes in all.");
    stage.wait(OFTEN);
    stage.wait(SELDOM);
    stage.read(1);
    stage.wait(SELDOM);
    stage.say(client, "more");
    stage.wait(OFTEN);
    stage.read_times(1, 3);
}

/// A link with no room is reported once the client has read, and has nothing to read itself.
fn block<S: Read>(stage: &mut Stage<'_>, client: &mut S) {
    let count = fill(stage, 1);
    stage.wait(SELDOM);
    read_all(stage, client, count);
    stage.wait(OFTEN);
    stage.wait(SELDOM);
    stage.read(1);
    stage.write(1, b"x");
}

/// A client will write no more.
fn shut<S: OpenStream>(stage: &mut Stage<'_>, client: &S) {
    stage.note(client.shutdown(Shutdown::Write));
    stage.show("-- the client will write no more\n");
}

/// A client that will write no more still reads.
fn read_after_end<S: Read>(stage: &mut Stage<'_>, client: &mut S) {
    stage.wait(OFTEN);
    stage.read(1);
    stage.write(1, b"y");
    read_all(stage, client, 2);
    stage.close(1);
}

/// The first client.
fn play_first(stage: &mut Stage<'_>) -> io::Result<()> {
    let mut client = connect(stage.rt)?;
    stage.welcome();
    stage.wait(OFTEN);
    leave_undrained(stage, &mut client);
    block(stage, &mut client);
    shut(stage, &client);
    read_after_end(stage, &mut client);
    Ok(())
}

/// A link that has no room ends, as its client will write no more.
fn play_second(stage: &mut Stage<'_>) -> io::Result<()> {
    let client = connect(stage.rt)?;
    stage.welcome();
    stage.wait(OFTEN);
    fill(stage, 2);
    shut(stage, &client);
    stage.wait(OFTEN);
    stage.read(2);
    stage.close(2);
    Ok(())
}

/// A client comes, reads nothing, and goes while its link has no room.
fn visit_blocked(stage: &mut Stage<'_>) -> io::Result<()> {
    let _client = connect(stage.rt)?;
    stage.welcome();
    stage.wait(OFTEN);
    fill(stage, 3);
    stage.show("-- the client goes\n");
    Ok(())
}

/// A link that has no room fails, as its client is gone.
fn play_third(stage: &mut Stage<'_>) -> io::Result<()> {
    visit_blocked(stage)?;
    stage.wait(OFTEN);
    stage.read(3);
    stage.close(3);
    Ok(())
}

/// Of two clients that wrote, the link of one is closed before the wait.
fn close_one<S: Write>(stage: &mut Stage<'_>, closed: &mut S, open: &mut S) {
    stage.say(closed, "a");
    stage.say(open, "b");
    stage.close(4);
    stage.wait(OFTEN);
    stage.read_times(5, 2);
    stage.wait(SELDOM);
}

fn play_others(stage: &mut Stage<'_>) -> io::Result<()> {
    let mut closed = connect(stage.rt)?;
    stage.welcome();
    let mut open = connect(stage.rt)?;
    stage.welcome();
    close_one(stage, &mut closed, &mut open);
    Ok(())
}

fn play_clients(stage: &mut Stage<'_>) -> io::Result<()> {
    play_first(stage)?;
    play_second(stage)?;
    play_third(stage)?;
    play_others(stage)?;
    stage.end()
}

pub fn play(rt: &HostRuntime) -> io::Result<()> {
    print!(rt; "== sources are reported once\n")?;
    let mut sockets = MioSockets::new(rt, rt.alloc())?;
    if sockets.listen(PORT).is_err() {
        return print!(rt; "the port is taken\n");
    }
    let mut stage = Stage::new(rt, sockets);
    play_clients(&mut stage)
}
