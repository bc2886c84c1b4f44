//! Connections that the sockets begin: one that stands, one that is refused, one whose peer closes,
//! and more than there is room for.

use crate::stage::{OFTEN, Played, SELDOM, Stage};
use std::io::{self, Read, Write};
use std::net::{Ipv4Addr, Net, OpenListener, SocketAddr, TcpListener};
use wc_edge::MioSockets;
use wc_outside::{Failed, Sockets};
use wc_text::{Address, LinkId};

/// The port at which a server listens.
const SERVER: u16 = 18_440;

/// A port at which nobody listens.
const NOBODY: u16 = 18_441;

/// The port of a server that lets its clients wait.
const BUSY: u16 = 18_442;

/// How many links are there at most.
const SLOTS: u32 = 512;

/// How many link numbers there are.
const NUMBERS: u64 = 1 << 62;

/// A server that listens at a port.
fn serve<N: Net>(rt: &N, port: u16) -> io::Result<N::Listener> {
    TcpListener::bind(rt, SocketAddr::from((Ipv4Addr::LOCALHOST, port)))
}

/// A port of this computer.
fn here(port: u16) -> Address {
    let ip = 0x7f00_0001;
    Address { ip, port }
}

/// Begins a connection, where a number is left for it.
fn ask(sockets: &mut Played<'_>, port: u16) -> Result<LinkId, Failed> {
    if sockets.used() >= NUMBERS {
        return Err(Failed);
    }
    sockets.connect(here(port))
}

/// Shows what comes of a connection that is begun.
fn begin(stage: &mut Stage<'_>, port: u16) {
    let begun = ask(&mut stage.sockets, port);
    let shown = print!(stage.rt; "connect: {begun:?}\n");
    stage.note(shown);
}

/// Shows whether a connection stands.
fn decide(stage: &mut Stage<'_>, link: u64) {
    let stands = stage.sockets.connected(LinkId(link));
    let shown = print!(stage.rt; "connected {link}: {stands:?}\n");
    stage.note(shown);
}

/// Shows the next byte that the server reads.
fn show_byte<S: Read>(stage: &mut Stage<'_>, server: &mut S) {
    let mut byte = [0; 1];
    stage.fill_from(server, &mut byte);
    let shown = print!(stage.rt; "-- the server reads {byte:?}\n");
    stage.note(shown);
}

/// A server and its client write to each other, and the server goes.
fn talk<S: Read + Write>(stage: &mut Stage<'_>, server: &mut S) {
    stage.write(1, b"a");
    show_byte(stage, server);
    stage.show("-- the server writes\n");
    stage.note(server.write_all(b"b"));
    stage.wait(OFTEN);
    stage.read_times(1, 2);
    stage.wait(SELDOM);
    stage.show("-- the server goes\n");
}

/// A connection that stands, and whose peer goes.
fn play_standing(stage: &mut Stage<'_>) -> io::Result<()> {
    let listener = serve(stage.rt, SERVER)?;
    begin(stage, SERVER);
    stage.wait(OFTEN);
    decide(stage, 1);
    let (mut server, _) = listener.accept()?;
    talk(stage, &mut server);
    Ok(())
}

/// A connection that is refused, once the peer of another went.
fn play_refused(stage: &mut Stage<'_>) {
    stage.wait(OFTEN);
    begin(stage, NOBODY);
    stage.wait(OFTEN);
    decide(stage, 2);
    stage.close(2);
    stage.wait(SELDOM);
    stage.read(1);
    decide(stage, 3);
}

/// A connection whose peer closes it before anybody asks.
fn play_closed(stage: &mut Stage<'_>) -> io::Result<()> {
    let listener = serve(stage.rt, SERVER)?;
    begin(stage, SERVER);
    listener.accept()?;
    stage.show("-- the server closes at once\n");
    stage.wait(OFTEN);
    decide(stage, 3);
    stage.read(3);
    Ok(())
}

/// Begins as many connections as there is room for, to a server that takes none.
fn fill(stage: &mut Stage<'_>) {
    let mut begun = 0u32;
    for _ in 0..SLOTS {
        if ask(&mut stage.sockets, BUSY).is_ok() {
            begun = begun.saturating_add(1);
        }
    }
    let shown = print!(stage.rt; "-- {begun} connections are begun\n");
    stage.note(shown);
}

/// One more connection than there is room for fails, and uses its number up.
fn overfill(stage: &mut Stage<'_>) {
    fill(stage);
    decide(stage, 1);
    decide(stage, 512);
    begin(stage, BUSY);
    decide(stage, 513);
    stage.close(1);
    begin(stage, BUSY);
}

fn play_full(rt: &HostRuntime) -> io::Result<()> {
    let _server = serve(rt, BUSY)?;
    let sockets = MioSockets::new(rt, rt.alloc())?;
    let mut stage = Stage::new(rt, sockets);
    overfill(&mut stage);
    stage.end()
}

fn play_peers(stage: &mut Stage<'_>) -> io::Result<()> {
    play_standing(stage)?;
    play_refused(stage);
    play_closed(stage)?;
    stage.end()
}

pub fn play(rt: &HostRuntime) -> io::Result<()> {
    print!(rt; "== connections are begun\n")?;
    let sockets = MioSockets::new(rt, rt.alloc())?;
    let mut stage = Stage::new(rt, sockets);
    play_peers(&mut stage)?;
    play_full(rt)
}
