//! Clients that come: where they are let in, and what each is told to begin with.

use crate::stage::{OFTEN, PORT, Stage, connect};
use std::io;
use std::net::{Ipv4Addr, Net, OpenStream, SocketAddr, TcpStream};
use wc_edge::MioSockets;
use wc_outside::Sockets;

/// Shows that nobody listens at another address of this computer, though the port is the same.
fn knock_elsewhere(rt: &HostRuntime) -> io::Result<()> {
    let elsewhere = SocketAddr::from((Ipv4Addr::new(127, 0, 0, 2), PORT));
    match TcpStream::connect(rt, elsewhere) {
        Ok(_) => print!(rt; "{elsewhere} lets a client in\n"),
        Err(error) => print!(rt; "{elsewhere}: {:?}\n", error.kind()),
    }
}

/// The nonce of the next client, where one waits.
fn next_nonce(stage: &mut Stage<'_>) -> [u8; 16] {
    match stage.sockets.accept() {
        Ok(Some(arrival)) => arrival.nonce,
        _ => [0; 16],
    }
}

/// Shows whether the nonces of two clients differ, from each other and from no nonce.
fn compare_nonces(stage: &mut Stage<'_>) {
    let first = next_nonce(stage);
    let second = next_nonce(stage);
    let all_differ = first != second && first != [0; 16] && second != [0; 16];
    let shown = print!(stage.rt; "nonces differ: {all_differ}\n");
    stage.note(shown);
}

/// Two clients come at the one address where the listener is.
fn play_clients(stage: &mut Stage<'_>) -> io::Result<()> {
    knock_elsewhere(stage.rt)?;
    let first = connect(stage.rt)?;
    let _second = connect(stage.rt)?;
    print!(stage.rt; "-- two clients come, to {}\n", first.peer_addr()?)?;
    stage.wait(OFTEN);
    compare_nonces(stage);
    stage.accept();
    stage.end()
}

pub fn play(rt: &HostRuntime) -> io::Result<()> {
    print!(rt; "== clients are let in at one address\n")?;
    let mut sockets = MioSockets::new(rt, rt.alloc())?;
    if sockets.listen(PORT).is_err() {
        return print!(rt; "the port is taken\n");
    }
    let mut stage = Stage::new(rt, sockets);
    play_clients(&mut stage)
}
