ghost use Rattle.std.specs.Prelude.{◌≡◌, ◌≤◌, IfOk};
ghost use Rattle.wc_outside.specs.Faults.{Rose};
ghost use Rattle.wc_outside.specs.Seen.{IsNew};

use crate::links::{Links, SLOTS};
use crate::streams::Streams;
use std::alloc::Global;
use std::io;
use std::net::Net;
use std::random::RandomSource;
use std::rt::Clock;
use wc_outside::{Failed, Got, Put, Ready, Sockets};
use wc_text::{Address, Arrival, LinkId};

/// How many link numbers are given at most.
const LINK_LIMIT: u64 = 1 << 62;

/// Non-blocking TCP sockets of the system, over epoll, which tell nothing of what they gave.
///
/// The system remembers what is ready, and tells it once. At most 512 links are there at a time; a
/// connection beyond them is closed as soon as it is accepted, and one that is asked for fails. Each
/// failure raises a count of faults.
#[derive(Drop)]
pub struct MioSockets<'a, R: Net + Clock + RandomSource> {
    streams: Streams<'a, R>,
    links: Links,
    listening: bool,
    wait_faults: u64,
    listen_faults: u64,
    connect_faults: u64,
    link_faults: u64,
}

/// Counts a fault.
fn fail(count: &mut u64) -> Failed
    ensures rose { Rose count.old count.new }
    ensures counts { count.old ≤ count.new }
{
    *count = count.saturating_add(1);
    Failed
}

impl<'a, R: Net + Clock + RandomSource> MioSockets<'a, R> {
    /// Sockets with no listener and no link, and with room for 512 links.
    pub fn new(rt: &'a R, alloc: Global) -> io::Result<MioSockets<'a, R>>
        ensures { IfOk result (λ sockets. IsNew (⟦<MioSockets<'a, R> as Sockets>⟧.seen sockets)) }
    {
        Ok(MioSockets {
            streams: Streams::new(rt, alloc)?,
            links: Links::new(alloc)?,
            listening: false,
            wait_faults: 0,
            listen_faults: 0,
            connect_faults: 0,
            link_faults: 0,
        })
    }

    /// How many link numbers are used.
    pub fn used(&self) -> u64
        ensures { result ≡ (⟦<MioSockets<'a, R> as Sockets>⟧.seen self.now).used }
    {
        self.links.used
    }
}

impl<'a, R: Net + Clock + RandomSource> Sockets for MioSockets<'a, R> {
    ghost use Rattle.std.specs.Prelude.{false, []};
    ghost use Rattle.wc_edge.specs.Rows.{is_there, is_undrained, is_blocked};

    ghost seen = { λ s. record {
      tells = false;
      taken = [];
      sent = λ link. [];
      asked = [];
      choked = λ link. false;
      used = s.links.used;
      there = is_there s.links.rows.items;
      undrained = is_undrained s.links.rows.items;
      listening = s.listening;
      blocked = is_blocked s.links.rows.items;
      faults = record {
        waits = s.wait_faults;
        listens = s.listen_faults;
        connects = s.connect_faults;
        links = s.link_faults;
      };
    } };

    fn listen(&mut self, port: u16) -> Result<(), Failed> {
        if self.streams.listen(port).is_err() {
            return Err(fail(&mut self.listen_faults));
        }
        Ok(())
    }

    fn wait(&mut self, timeout_ms: u64, ready: &mut Ready) -> Result<u64, Failed> {
        let Ok(moment) = self.streams.wait(timeout_ms) else {
            return Err(fail(&mut self.wait_faults));
        };
        self.links
            .report(&mut self.streams, &mut self.listening, ready);
        Ok(moment)
    }

    fn accept(&mut self) -> Result<Option<Arrival>, Failed> {
        if self.links.used >= LINK_LIMIT || self.links.rows.len() >= SLOTS {
            if self.streams.refuse().is_err() {
                return Err(fail(&mut self.listen_faults));
            }
            self.listening = false;
            return Ok(None);
        }
        let link = LinkId(self.links.used + 1);
        match self.streams.accept(link) {
            Ok(Some(nonce)) => {
                let link = self.links.add();
                Ok(Some(Arrival { link, nonce }))
            }
            Ok(None) => {
                self.listening = false;
                Ok(None)
            }
            Err(_) => Err(fail(&mut self.listen_faults)),
        }
    }

    fn connect(&mut self, to: Address) -> Result<LinkId, Failed> {
        let link = LinkId(self.links.used + 1);
        if self.links.rows.len() >= SLOTS || self.streams.connect(link, to).is_err() {
            self.links.pass_number();
            return Err(fail(&mut self.connect_faults));
        }
        Ok(self.links.add())
    }

    fn connected(&mut self, link: LinkId) -> Result<bool, Failed> {
        let Some(place) = self.links.place_of(link) else {
            return Err(fail(&mut self.link_faults));
        };
        let Ok(stands) = self.streams.connected(place) else {
            return Err(fail(&mut self.link_faults));
        };
        if !stands {
            self.links.drain(place, link);
        }
        Ok(stands)
    }

    fn read(&mut self, link: LinkId, into: &mut [u8]) -> Result<Got, Failed> {
        let Some(place) = self.links.place_of(link) else {
            return Err(fail(&mut self.link_faults));
        };
        let Ok(got) = self.streams.read(place, into) else {
            return Err(fail(&mut self.link_faults));
        };
        if got == Got::NotYet {
            self.links.drain(place, link);
        }
        Ok(got)
    }

    fn write(&mut self, link: LinkId, piece: &[u8]) -> Result<Put, Failed> {
        let Some(place) = self.links.place_of(link) else {
            return Err(fail(&mut self.link_faults));
        };
        let Ok(put) = self.streams.write(place, piece) else {
            self.links.set_blocked(place, link, false);
            return Err(fail(&mut self.link_faults));
        };
        self.links.set_blocked(place, link, put == Put::NotYet);
        Ok(put)
    }

    fn close(&mut self, link: LinkId) {
        if let Some(place) = self.links.place_of(link) {
            self.links.remove(place, link);
            self.streams.close(place);
        }
    }
}
