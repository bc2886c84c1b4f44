ghost use Rattle.std.specs.Prelude.{◌≡◌, ◌+◌, ◌≤◌, ◌++◌, ◌∷◌, [], ◌==◌, OnOk, OnErr};
ghost use Rattle.std.specs.Prelude.{IfOk, IfSome, length, position, vec_len, vec_capacity};
ghost use Rattle.std.specs.Option.{option_copied};
ghost use Rattle.wc_turns.specs.Framed.{first_framing};
ghost use Rattle.wc_outside.specs.Keyed.{at_key, without, PlaceOf};

use crate::tail::Tail;
use std::alloc::Global;
use wc_framing::Framing;
use wc_text::{Cause, LinkId, NoMemory, Text};

/// A link that is open, or a connection that is to be one.
#[derive(Drop)]
pub struct LinkState {
    pub link: LinkId,
    /// The name of the server that it was connected to; none for a client.
    pub server: Option<Text>,
    /// Whether it is a connection that does not stand yet.
    pub(crate) connecting: bool,
    /// Whether that was refused as it was asked for: the sockets have no such link.
    pub(crate) refused: bool,
    pub(crate) tail: Tail,
    /// How its bytes are framed.
    pub(crate) framing: Framing,
    /// Whether it is a WebSocket of which nothing is read any more, since it is to be closed.
    pub(crate) ended: bool,
    /// Whether it was reported ready and is not drained.
    pub(crate) undrained: bool,
    /// Whether its last write found no room and no wait reported it since.
    pub(crate) blocked: bool,
}

/// A link that was closed.
#[derive(Clone, Copy, Debug, PartialEq, Eq)]
pub struct Closed {
    pub link: LinkId,
    pub cause: Cause,
}

/// How many links there is room for from the start.
const ROOM: usize = 192;

/// The links that are open, in the order of their numbers, and those that were closed since the
/// turn began. Each open link has its place among the closed ones, so that a close takes no memory.
#[derive(Drop)]
pub struct Links {
    pub opened: Vec<LinkState>,
    pub closed: Vec<Closed>,
    ghost room: { vec_len opened + vec_len closed ≤ vec_capacity closed },
}

fn position_of(opened: &[LinkState], link: LinkId) -> Option<usize>
    ensures { result ≡ position (λ state. state.link.0 == link.0) opened.now }
{
    opened.iter().position(|state| state.link == link)
}

/// The framing of a link that is new: that of a server's is plain.
fn first_framing(of_server: bool) -> Framing
    ensures { result ≡ first_framing of_server }
{
    if of_server {
        return Framing::Plain;
    }
    Framing::Undecided
}

impl Links {
    ghost use Rattle.wc_turns.specs.Links.{link_number, is_blocked, new_state, with_closed};
    ghost use Rattle.wc_turns.specs.Links.{changed_at, reported_state, drained_state};
    ghost use Rattle.wc_turns.specs.Links.{written_link, is_connecting, standing_state};
    ghost use Rattle.wc_turns.specs.Links.{frames_of, gone_frames};

    /// No link, with room for the first ones.
    pub fn new(alloc: Global) -> Result<Links, NoMemory>
        ensures opened { IfOk result (λ links. links.opened.items ≡ []) }
        ensures closed { IfOk result (λ links. links.closed.items ≡ []) }
    {
        let opened = Vec::with_capacity(alloc, ROOM)?;
        let closed = Vec::with_capacity(alloc, ROOM)?;
        Ok(Links { opened, closed })
    }

    /// The place of an open link.
    pub fn place(&self, link: LinkId) -> Option<usize>
        ensures { PlaceOf link_number link.0 self.now.opened.items result }
    {
        position_of(&self.opened, link)
    }

    /// Takes a link in, with room for a line of it and for its close: one of a client, or the
    /// connection to a server of this name, which does not stand yet, or was refused.
    pub fn admit(
        &mut self,
        alloc: Global,
        link: LinkId,
        server: Option<Text>,
        refused: bool,
    ) -> Result<(), NoMemory>
        ensures ok { OnOk result (self.new.opened.items ≡ self.old.opened.items
            ++ new_state link server refused ∷ []) }
        ensures err { OnErr result (self.new.opened.items ≡ self.old.opened.items) }
        ensures closed { self.new.closed.items ≡ self.old.closed.items }
    {
        let tail = Tail::new(alloc)?;
        self.opened.reserve(1)?;
        self.closed.reserve(self.opened.len() + 1)?;
        let connecting = server.is_some();
        let framing = first_framing(connecting);
        self.opened.push_reserved(LinkState {
            link,
            server,
            connecting,
            refused,
            tail,
            framing,
            ended: false,
            undrained: false,
            blocked: false,
        });
        Ok(())
    }

    /// Takes a link out, and lists it as closed, where it is there. It takes no memory.
    pub fn close(&mut self, link: LinkId, cause: Cause)
        ensures opened { self.new.opened.items ≡ without link_number link.0 self.old.opened.items }
        ensures closed { self.new.closed.items
            ≡ with_closed (at_key link_number link.0 self.old.opened.items) self.old.closed.items
            (record { link = link; cause = cause }) }
    {
        if self.place(link).is_none() {
            return;
        }
        self.opened.retain(|state| state.link != link);
        self.closed.push_reserved(Closed { link, cause });
    }

    /// Whether a link is kept as one whose last write found no room.
    pub fn is_blocked(&self, link: LinkId) -> bool
        ensures { result ≡ is_blocked (at_key link_number link.0 self.now.opened.items) }
    {
        match self.place(link) {
            Some(place) => self.opened[place].blocked,
            None => false,
        }
    }

    /// Whether a link is a connection that does not stand yet.
    pub fn is_connecting(&self, link: LinkId) -> bool
        ensures { result ≡ is_connecting (at_key link_number link.0 self.now.opened.items) }
    {
        match self.place(link) {
            Some(place) => self.opened[place].connecting,
            None => false,
        }
    }

    /// The unsent frames of a WebSocket link.
    pub fn frames(&self, link: LinkId) -> Option<&[u8]>
        ensures { option_copied result
            ≡ frames_of (at_key link_number link.0 self.now.opened.items) }
    {
        let place = self.place(link)?;
        match &self.opened[place].framing {
            Framing::Socket(socket) => Some(socket.unsent()),
            Framing::Undecided | Framing::Plain => None,
        }
    }

    /// Takes the first unsent bytes of a WebSocket link's frames away.
    pub fn frames_gone(&mut self, link: LinkId, count: usize)
        requires { IfSome (frames_of (at_key link_number link.0 self.old.opened.items))
            (λ frames. count ≤ length frames) }
        ensures opened { self.new.opened.items ≡ changed_at link.0 (gone_frames count)
            self.old.opened.items (at_key link_number link.0 self.old.opened.items) }
        ensures closed { self.new.closed ≡ self.old.closed }
    {
        let Some(place) = self.place(link) else {
            return;
        };
        if let Framing::Socket(socket) = &mut self.opened[place].framing {
            socket.gone(count);
        }
    }

    /// Marks a connection as one that stands.
    pub fn mark_standing(&mut self, link: LinkId)
        ensures opened { self.new.opened.items ≡ changed_at link.0 standing_state
            self.old.opened.items (at_key link_number link.0 self.old.opened.items) }
        ensures closed { self.new.closed ≡ self.old.closed }
    {
        if let Some(place) = self.place(link) {
            self.opened[place].connecting = false;
        }
    }

    /// Marks a link as one that a wait reported: it is not drained, and no longer blocked.
    pub fn mark_reported(&mut self, link: LinkId)
        ensures opened { self.new.opened.items ≡ changed_at link.0 reported_state
            self.old.opened.items (at_key link_number link.0 self.old.opened.items) }
        ensures closed { self.new.closed ≡ self.old.closed }
    {
        if let Some(place) = self.place(link) {
            let state = &mut self.opened[place];
            state.undrained = true;
            state.blocked = false;
        }
    }

    /// Marks a link as one that is drained.
    pub fn mark_drained(&mut self, link: LinkId)
        ensures opened { self.new.opened.items ≡ changed_at link.0 drained_state
            self.old.opened.items (at_key link_number link.0 self.old.opened.items) }
        ensures closed { self.new.closed ≡ self.old.closed }
    {
        if let Some(place) = self.place(link) {
            self.opened[place].undrained = false;
        }
    }

    /// Keeps whether a write to a link found no room.
    pub fn mark_written(&mut self, link: LinkId, blocked: bool)
        ensures opened { self.new.opened.items ≡ changed_at link.0 (written_link blocked)
            self.old.opened.items (at_key link_number link.0 self.old.opened.items) }
        ensures closed { self.new.closed ≡ self.old.closed }
    {
        if let Some(place) = self.place(link) {
            self.opened[place].blocked = blocked;
        }
    }

    /// Begins a turn, in which no link is closed yet.
    pub fn begin_turn(&mut self)
        ensures closed { self.new.closed.items ≡ [] }
        ensures opened { self.new.opened ≡ self.old.opened }
    {
        self.closed.clear();
    }
}
