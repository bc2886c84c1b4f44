//! Calls of the sockets, each with a line that shows what came of it.

use std::io::{self, Read, Write};
use std::net::{Ipv4Addr, Net, SocketAddr, TcpStream};
use std::time::Duration;
use std::{str, thread};
use wc_edge::MioSockets;
use wc_outside::{Got, Ready, Sockets, Token};
use wc_text::LinkId;

/// The port of the stories.
pub const PORT: u16 = 18_439;

/// How often sockets that have something to report are asked for it, a millisecond apart.
pub const OFTEN: u32 = 5000;

/// How often sockets that have nothing to report are asked.
pub const SELDOM: u32 = 20;

/// The sockets that are played.
pub type Played<'a> = MioSockets<'a, HostRuntime>;

/// A client that comes.
pub fn connect<N: Net>(rt: &N) -> io::Result<N::Stream> {
    TcpStream::connect(rt, SocketAddr::from((Ipv4Addr::LOCALHOST, PORT)))
}

/// The sockets, and the lines that are shown of them. What fails beside the sockets is noted once,
/// so that a story has nothing to test after each step.
#[derive(Drop)]
pub struct Stage<'a> {
    pub rt: &'a HostRuntime,
    pub sockets: Played<'a>,
    /// Whether a line could not be shown, or a client or a server failed.
    fails: bool,
}

impl<'a> Stage<'a> {
    /// A stage on which nothing failed.
    pub fn new(rt: &'a HostRuntime, sockets: Played<'a>) -> Stage<'a> {
        Stage {
            rt,
            sockets,
            fails: false,
        }
    }

    /// Whether all went well that was noted.
    pub fn end(&self) -> io::Result<()> {
        if self.fails {
            return Err(io::Error::other("a step of a story failed"));
        }
        Ok(())
    }

    /// Notes whether something was done.
    pub fn note(&mut self, done: io::Result<()>) {
        if done.is_err() {
            self.fails = true;
        }
    }

    pub fn show(&mut self, text: &str) {
        let shown = print!(self.rt; "{text}");
        self.note(shown);
    }

    fn show_tokens(&mut self, tokens: &[Token]) {
        let shown = print!(self.rt; "wait: {tokens:?}\n");
        self.note(shown);
    }

    /// Shows what is reported first, where anything is in so many waits.
    pub fn wait(&mut self, times: u32) {
        let mut ready = Ready::new();
        for _ in 0..times {
            if self.sockets.wait(0, &mut ready).is_err() {
                return self.show("wait: failed\n");
            }
            if ready.count > 0 {
                break;
            }
            thread::sleep(self.rt, Duration::from_millis(1));
        }
        self.show_tokens(&ready.tokens[..ready.count]);
    }

    fn show_arrival(&mut self, link: LinkId) {
        let shown = print!(self.rt; "accept: link {}\n", link.0);
        self.note(shown);
    }

    /// Shows the number of the next link, where one came.
    pub fn accept(&mut self) {
        match self.sockets.accept() {
            Ok(Some(arrival)) => self.show_arrival(arrival.link),
            Ok(None) => self.show("accept: nobody\n"),
            Err(_) => self.show("accept: failed\n"),
        }
    }

    /// Shows what a read of ten bytes at most gives.
    pub fn read(&mut self, link: u64) {
        let mut buffer = [0; 10];
        let got = self.sockets.read(LinkId(link), &mut buffer);
        let count = match got {
            Ok(Got::Bytes(count)) => count.min(buffer.len()),
            _ => 0,
        };
        let text = str::from_utf8(&buffer[..count]).unwrap_or("no text");
        let shown = print!(self.rt; "read {link}: {got:?} {text:?}\n");
        self.note(shown);
    }

    /// Shows what so many reads give.
    pub fn read_times(&mut self, link: u64, times: u32) {
        for _ in 0..times {
            self.read(link);
        }
    }

    /// Shows what a write takes.
    pub fn write(&mut self, link: u64, piece: &[u8]) {
        let put = self.sockets.write(LinkId(link), piece);
        let shown = print!(self.rt; "write {link}: {put:?}\n");
        self.note(shown);
    }

    /// Closes a link.
    pub fn close(&mut self, link: u64) {
        self.sockets.close(LinkId(link));
        let shown = print!(self.rt; "close {link}\n");
        self.note(shown);
    }

    /// Shows that a client comes, is reported, and is taken.
    pub fn welcome(&mut self) {
        self.show("-- a client comes\n");
        self.wait(OFTEN);
        self.accept();
        self.accept();
    }

    /// A client writes a text.
    pub fn say<S: Write>(&mut self, client: &mut S, text: &str) {
        let shown = print!(self.rt; "-- the client writes {text:?}\n");
        self.note(shown);
        self.note(client.write_all(text.as_bytes()));
    }

    /// A client or a server reads as many bytes as there is room for.
    pub fn fill_from<S: Read>(&mut self, peer: &mut S, buffer: &mut [u8]) {
        self.note(peer.read_exact(buffer));
    }
}
