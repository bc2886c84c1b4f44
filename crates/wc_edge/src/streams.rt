ghost use Rattle.std.specs.Prelude.{◌≡◌, ◌<◌, ◌≤◌, ◌||◌, length, map, take, IfOk, IfErr};
ghost use Rattle.std.specs.IoError.{raw_os_error};
ghost use Rattle.mio.specs.Events.{items, capacity as events_capacity};
ghost use Rattle.wc_outside.specs.Happenings.{IsReadWithin, IsPutWithin};
ghost use Rattle.wc_edge.specs.Misses.{miss_of};
ghost use Rattle.wc_edge.specs.Rows.{number_of, is_there, IsAscending, SourcesReported};
ghost use Rattle.wc_edge.specs.Sources.{sources_of, is_uneven, tells_to_read};

use crate::addresses::{far_address, local_address};
use crate::links::SLOTS;
use crate::misses::{Miss, miss_of};
use crate::moment::moment;
use crate::report::report;
use crate::rows::Row;
use mio::event::Event;
use mio::net::{TcpListener, TcpStream};
use mio::{Events, Interest, Poll};
use std::alloc::Global;
use std::io::{self, ErrorKind, Read, Write};
use std::net::Net;
use std::random::RandomSource;
use std::rt::Clock;
use std::time::Duration;
use wc_outside::{Got, Put, READY_LIMIT, Ready};
use wc_text::{Address, LinkId};

/// The number under which the listener is registered; no link has it.
pub(crate) const LISTENER: usize = 0;

/// The stream of a link.
///
/// A read that takes less than it may has taken all, and what comes later is an event. So the
/// system need not be asked once more for each request, nor for a link that is reported for writing
/// alone.
#[derive(Drop)]
pub(crate) struct Peer {
    stream: TcpStream,
    /// Whether an event told of something to read, and no read found the end of it.
    readable: bool,
    /// Whether a read may take less while there is more: the peer will send no more, the stream has
    /// failed, or bytes are marked as urgent, before which a read stops.
    uneven: bool,
}

impl Peer {
    /// Notes what an event says of reading.
    pub(crate) fn note(&mut self, event: &Event)
        ensures uneven { self.new.uneven ≡ self.old.uneven || is_uneven event.now }
        ensures readable { self.new.readable ≡ self.old.readable || tells_to_read event.now }
    {
        let uneven = event.is_read_closed() || event.is_error() || event.is_priority();
        self.uneven = self.uneven || uneven;
        self.readable = self.readable || uneven || event.is_readable();
    }
}

/// The listener and the streams, which are at the places of their rows.
///
/// Readiness is edge-triggered: the system reports a source once where something becomes ready, and
/// keeps what was not fetched.
#[derive(Drop)]
pub(crate) struct Streams<'a, R: Net + Clock + RandomSource> {
    rt: &'a R,
    poll: Poll,
    events: Events,
    listener: Option<TcpListener>,
    /// Whether connections may wait of which the system told before, so that it tells no more.
    untold: bool,
    peers: Vec<Peer>,
    ghost room: { events_capacity events ≡ 64 },
    ghost fetched: { length (items events) ≤ 64 },
}

impl<'a, R: Net + Clock + RandomSource> Streams<'a, R> {
    pub(crate) fn new(rt: &'a R, alloc: Global) -> io::Result<Streams<'a, R>> {
        Ok(Streams {
            rt,
            poll: Poll::new(rt)?,
            events: Events::with_capacity(alloc, READY_LIMIT)?,
            listener: None,
            untold: false,
            peers: Vec::with_capacity(alloc, SLOTS)?,
        })
    }

    /// Opens the listener at this port of 127.0.0.1.
    pub(crate) fn listen(&mut self, port: u16) -> io::Result<()> {
        let mut listener = TcpListener::bind(self.rt, local_address(port))?;
        self.poll
            .registry()
            .register(&mut listener, mio::Token(LISTENER), Interest::READABLE)?;
        self.listener = Some(listener);
        Ok(())
    }

    /// Has the system tell once more of connections that wait.
    fn renew(&mut self) -> io::Result<()> {
        let Some(listener) = &mut self.listener else {
            return Ok(());
        };
        let token = mio::Token(LISTENER);
        self.poll
            .registry()
            .reregister(listener, token, Interest::READABLE)
    }

    /// Waits until a source becomes ready or the time is over, and gives the moment. A signal ends
    /// it early, with no source. Where the clock fails, what was fetched is lost.
    ///
    /// Connections that were left for want of files or memory are told of by the next wait, and not
    /// by this one, which would then not rest while there is such a want.
    pub(crate) fn wait(&mut self, timeout_ms: u64) -> io::Result<u64> {
        let timeout = Duration::from_millis(timeout_ms);
        self.poll.poll(&mut self.events, Some(timeout))?;
        if self.untold {
            self.untold = self.renew().is_err();
        }
        moment(self.rt)
    }

    /// Reports the source of each event that the last wait fetched. Only events of closed links are
    /// passed over.
    pub(crate) fn report(&mut self, rows: &mut [Row], listening: &mut bool, ready: &mut Ready)
        requires { IsAscending (map number_of rows.old) }
        ensures reported { SourcesReported rows.old rows.new listening.old listening.new
            (take ready.new.count ready.new.tokens) }
        ensures handed { take ready.new.count ready.new.tokens
            ≡ sources_of (is_there rows.old) (items self.old.events) }
    {
        report(&self.events, rows, &mut self.peers, listening, ready);
    }

    /// The next connection, where one waits and there is a file for it. Those that are gone are
    /// passed over, up to 512 of them. It fails only where the listener does.
    fn next_stream(&mut self) -> io::Result<Option<TcpStream>>
        ensures { IfErr result (λ error. miss_of (raw_os_error error) ≡ Miss.Fault) }
    {
        let Some(listener) = &self.listener else {
            return Ok(None);
        };
        for _ in 0..SLOTS {
            match listener.accept() {
                Ok((stream, _)) => return Ok(Some(stream)),
                Err(error) => match miss_of(&error) {
                    Miss::Nobody => return Ok(None),
                    Miss::Gone => {}
                    Miss::Want => break,
                    Miss::Fault => return Err(error),
                },
            }
        }
        self.untold = true;
        Ok(None)
    }

    /// Closes the connections that wait, up to 512. Where more may wait the system tells of them
    /// once more. It fails only where the listener does.
    pub(crate) fn refuse(&mut self) -> io::Result<()>
        ensures { IfErr result (λ error. miss_of (raw_os_error error) ≡ Miss.Fault) }
    {
        for _ in 0..SLOTS {
            if self.next_stream()?.is_none() {
                return Ok(());
            }
        }
        self.untold = self.renew().is_err();
        Ok(())
    }

    /// Keeps a stream under this link, and has the system report both of its directions.
    fn keep(&mut self, mut stream: TcpStream, link: LinkId) -> io::Result<()> {
        let _ = stream.set_nodelay(true);
        self.poll.registry().register(
            &mut stream,
            mio::Token(link.0 as usize),
            Interest::READABLE | Interest::WRITABLE | Interest::PRIORITY,
        )?;
        self.peers.push(Peer {
            stream,
            readable: false,
            uneven: false,
        })?;
        Ok(())
    }

    /// Keeps a connection that was accepted under this link, and gives its nonce.
    fn admit(&mut self, stream: TcpStream, link: LinkId) -> io::Result<[u8; 16]> {
        let mut nonce = [0u8; 16];
        self.rt.fill_bytes(&mut nonce)?;
        self.keep(stream, link)?;
        Ok(nonce)
    }

    /// Keeps the next connection under this link, and gives its nonce. One for which the system has
    /// no nonce, or no room for its events, is closed. It fails only where the listener does.
    pub(crate) fn accept(&mut self, link: LinkId) -> io::Result<Option<[u8; 16]>>
        ensures { IfErr result (λ error. miss_of (raw_os_error error) ≡ Miss.Fault) }
    {
        let Some(stream) = self.next_stream()? else {
            return Ok(None);
        };
        let Ok(nonce) = self.admit(stream, link) else {
            self.untold = true;
            return Ok(None);
        };
        Ok(Some(nonce))
    }

    /// Begins a connection, and keeps it under this link.
    pub(crate) fn connect(&mut self, link: LinkId, to: Address) -> io::Result<()> {
        let stream = TcpStream::connect(self.rt, far_address(to))?;
        self.keep(stream, link)
    }

    /// Whether the connection at this place stands. It is an error where it failed; where it is not
    /// decided, an event will tell of it.
    pub(crate) fn connected(&self, place: usize) -> io::Result<bool> {
        let Some(peer) = self.peers.get(place) else {
            return Err(io::Error::from(ErrorKind::NotFound));
        };
        if let Some(error) = peer.stream.take_error()? {
            return Err(error);
        }
        match peer.stream.peer_addr() {
            Ok(_) => Ok(true),
            Err(error) if error.kind() == ErrorKind::NotConnected => Ok(false),
            Err(error) => Err(error),
        }
    }

    /// Reads from the stream at this place, where an event told of something to read.
    pub(crate) fn read(&mut self, place: usize, into: &mut [u8]) -> io::Result<Got>
        requires { 0 < length into.old }
        ensures { IfOk result (IsReadWithin (length into.old)) }
    {
        let room = into.len();
        let Some(peer) = self.peers.get_mut(place) else {
            return Err(io::Error::from(ErrorKind::NotFound));
        };
        if !peer.readable {
            return Ok(Got::NotYet);
        }
        match peer.stream.read(into) {
            Ok(0) => Ok(Got::End),
            Ok(count) => {
                peer.readable = count == room || peer.uneven;
                Ok(Got::Bytes(count))
            }
            Err(error) if error.kind() == ErrorKind::WouldBlock => {
                peer.readable = false;
                Ok(Got::NotYet)
            }
            Err(error) => Err(error),
        }
    }

    /// Writes to the stream at this place.
    pub(crate) fn write(&mut self, place: usize, piece: &[u8]) -> io::Result<Put>
        ensures { IfOk result (IsPutWithin (length piece.now)) }
    {
        let Some(peer) = self.peers.get_mut(place) else {
            return Err(io::Error::from(ErrorKind::NotFound));
        };
        match peer.stream.write(piece) {
            Ok(0) if !piece.is_empty() => Err(io::Error::from(ErrorKind::WriteZero)),
            Ok(count) => Ok(Put::Took(count)),
            Err(error) if error.kind() == ErrorKind::WouldBlock => Ok(Put::NotYet),
            Err(error) => Err(error),
        }
    }

    /// Closes the stream at this place.
    pub(crate) fn close(&mut self, place: usize) {
        if place < self.peers.len() {
            self.peers.remove(place);
        }
    }
}
