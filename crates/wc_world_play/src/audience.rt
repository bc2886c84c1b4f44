//! The clients, and what they are told of the world's changes.

ghost use Rattle.std.specs.Str.{IsUtf8};
ghost use Rattle.wc_events.specs.NickForms.{IsPushText};

use crate::clients::{Client, place_of};
use crate::diffs::show_push;
use crate::mirrors::show_other;
use crate::sheet::Sheet;
use bytes::BytesMut;
use std::alloc::Global;
use wc_change_words::{Wrong, number};
use wc_events::{FlipLookup, has_flips};
use wc_model::{Notice, Trim};
use wc_nickdiff::{Pending, Push};
use wc_session::BufferEvent;
use wc_text::{Handle, Items, NoMemory};
use wc_world::World;

/// The clients, and the bytes that were told last, whether or not a client follows them.
#[derive(Drop)]
pub struct Audience {
    alloc: Global,
    clients: Vec<Client>,
    pub told: BytesMut,
}

impl Audience {
    /// No clients.
    pub fn new(alloc: Global) -> Audience {
        Audience {
            alloc,
            clients: Vec::new(alloc),
            told: BytesMut::new(alloc),
        }
    }

    /// A client of this number comes, whose mirror holds so many lines a buffer, or as many as it is told.
    pub fn come(&mut self, number: u64, limit: Option<u32>) -> Result<(), NoMemory> {
        match Client::new(self.alloc, number, limit) {
            Ok(client) => self.add(client),
            Err(NoMemory) => Err(NoMemory),
        }
    }

    fn add(&mut self, client: Client) -> Result<(), NoMemory> {
        match self.clients.push(client) {
            Ok(()) => Ok(()),
            Err(_) => Err(NoMemory),
        }
    }

    /// The client whose number a word writes.
    pub fn client(&mut self, word: &str) -> Result<&mut Client, Wrong> {
        let place = place_of(self.clients.as_slice(), number(word)?)?;
        match self.clients.get_mut(place) {
            Some(client) => Ok(client),
            None => Err(Wrong::NoClient),
        }
    }

    /// Shows each mirror that does not have all that the world has, and answers how many these are.
    pub fn compare(&self, out: &mut Sheet, world: &World) -> u64 {
        let mut otherwise = 0u64;
        for client in self.clients.as_slice() {
            let has_all = show_other(self.alloc, out, world, &client.screen);
            otherwise = otherwise.saturating_add(u64::from(!has_all));
        }
        otherwise
    }

    fn tell(&mut self, out: &mut Sheet, event: &BufferEvent) {
        let alloc = self.alloc;
        out.note(self.told.extend_from_slice(event.as_slice()));
        for client in self.clients.iter_mut() {
            client.tell(alloc, out, event);
        }
    }

    /// Tells what was noticed of a change, in the world after it.
    pub fn tell_notice(&mut self, out: &mut Sheet, world: &World, notice: &Notice) {
        self.told.clear();
        if std::str::from_utf8(notice.full_name.as_slice()).is_err() {
            return;
        }
        self.tell_change(out, world, notice);
        if !notice.flips.as_slice().is_empty() {
            self.tell_flips(out, world, &notice.flips);
        }
        self.tell_trims(out, notice.trims.as_slice());
    }

    /// Tells how many of the oldest lines each buffer lost.
    fn tell_trims(&mut self, out: &mut Sheet, trims: &[Trim]) {
        for trim in trims {
            match BufferEvent::of_trim(self.alloc, *trim) {
                Ok(event) => self.tell(out, &event),
                Err(NoMemory) => out.lack(),
            }
        }
    }

    /// Tells the one event of a change.
    fn tell_change(&mut self, out: &mut Sheet, world: &World, notice: &Notice)
        requires { IsUtf8 notice.now.full_name }
    {
        match BufferEvent::of(self.alloc, world, notice) {
            Ok(event) => self.tell(out, &event),
            Err(NoMemory) => out.lack(),
        }
    }

    /// Tells the flags of lines that differ, buffer by buffer.
    fn tell_flips(&mut self, out: &mut Sheet, world: &World, flips: &Items<Handle>) {
        let flips = FlipLookup::new(self.alloc, flips);
        for group in world.buffers().groups() {
            self.tell_flips_in(out, world, &flips, group);
        }
    }

    fn tell_flips_in(
        &mut self,
        out: &mut Sheet,
        world: &World,
        flips: &FlipLookup<'_>,
        group: &[Handle],
    ) {
        for buffer in group {
            if has_flips(world, flips, *buffer) {
                self.tell_flips_of(out, world, flips, *buffer);
            }
        }
    }

    fn tell_flips_of(
        &mut self,
        out: &mut Sheet,
        world: &World,
        flips: &FlipLookup<'_>,
        buffer: Handle,
    ) {
        match BufferEvent::of_flags(self.alloc, world, buffer, flips) {
            Ok(event) => self.tell(out, &event),
            Err(NoMemory) => out.lack(),
        }
    }

    /// Tells what became of the nicklist of each buffer since it was told, and shows it.
    pub fn push_all(&mut self, out: &mut Sheet, world: &World, pending: &mut Pending) {
        self.told.clear();
        for group in world.buffers().groups() {
            self.push_group(out, world, pending, group);
        }
    }

    fn push_group(
        &mut self,
        out: &mut Sheet,
        world: &World,
        pending: &mut Pending,
        group: &[Handle],
    ) {
        for buffer in group {
            if pending.held(*buffer) > 0 {
                show_push_of(self.alloc, out, world, pending, *buffer);
                self.tell_nicks(out, world, pending, *buffer);
                pending.forget(*buffer);
            }
        }
    }

    /// Tells what became of the nicklist of a buffer, if the buffer is there.
    pub fn tell_nicks(
        &mut self,
        out: &mut Sheet,
        world: &World,
        pending: &Pending,
        buffer: Handle,
    ) {
        match BufferEvent::of_nicks(self.alloc, world, pending, buffer) {
            Ok(Some(event)) => self.tell(out, &event),
            Ok(None) => {}
            Err(NoMemory) => out.lack(),
        }
    }

    /// Tells a push of a buffer's nicklist.
    pub fn push_one(&mut self, out: &mut Sheet, buffer: Handle, push: &Push)
        requires { IsPushText push.now }
    {
        self.told.clear();
        match BufferEvent::of_push(self.alloc, buffer, push) {
            Ok(event) => self.tell(out, &event),
            Err(NoMemory) => out.lack(),
        }
    }
}

/// What became of the nicklist of a buffer since it was told.
fn show_push_of(alloc: Global, out: &mut Sheet, world: &World, pending: &Pending, buffer: Handle) {
    let Some(list) = world.nicks(buffer) else {
        return;
    };
    out.put_number("", buffer.0);
    out.put(": ");
    match pending.message_of(alloc, buffer, list) {
        Ok(push) => show_push(out, &push),
        Err(NoMemory) => out.lack(),
    }
}
