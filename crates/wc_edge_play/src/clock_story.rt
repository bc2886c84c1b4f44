//! Clocks that are set before 1970, or that cannot be read.

use std::io::{self, ErrorKind};
use std::net::{Net, SocketAddr};
use std::random::RandomSource;
use std::rt::Clock;
use std::time::Duration;
use wc_edge::MioSockets;
use wc_outside::{Ready, Sockets};

/// A runtime whose clock answers each question with a failure of this kind.
#[derive(Drop)]
struct BadClock<'a, R> {
    rt: &'a R,
    kind: ErrorKind,
}

impl<'a, R> Clock for BadClock<'a, R> {
    fn monotonic(&self) -> io::Result<Duration> {
        Err(io::Error::from(self.kind))
    }

    fn since_1970(&self) -> io::Result<Duration> {
        Err(io::Error::from(self.kind))
    }
}

impl<'a, R: RandomSource> RandomSource for BadClock<'a, R> {
    fn fill_bytes(&self, buf: &mut [u8]) -> io::Result<()> {
        self.rt.fill_bytes(buf)
    }
}

impl<'a, R: Net> Net for BadClock<'a, R> {
    type Stream = R::Stream;

    type Listener = R::Listener;

    fn bind(&self, addr: SocketAddr) -> io::Result<R::Listener> {
        self.rt.bind(addr)
    }

    fn connect(&self, addr: SocketAddr) -> io::Result<R::Stream> {
        self.rt.connect(addr)
    }
}

/// Shows the moment that a wait gives over such a clock.
fn wait_by(rt: &HostRuntime, kind: ErrorKind) -> io::Result<()> {
    let clock = BadClock { rt, kind };
    let mut sockets = MioSockets::new(&clock, rt.alloc())?;
    let mut ready = Ready::new();
    let moment = sockets.wait(0, &mut ready);
    print!(rt; "{kind:?}: {moment:?}\n")
}

pub fn play(rt: &HostRuntime) -> io::Result<()> {
    print!(rt; "== a clock may be set before 1970\n")?;
    wait_by(rt, ErrorKind::InvalidData)?;
    wait_by(rt, ErrorKind::PermissionDenied)
}
