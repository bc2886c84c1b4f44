//! Clients of the relay, each with a mirror that takes what it is sent.

ghost use Rattle.wc_relaycmd.specs.Utf8.{RequestIsUtf8};

use crate::context::Context;
use crate::sheet::Sheet;
use bytes::BytesMut;
use std::alloc::Global;
use wc_change_words::Wrong;
use wc_relaycmd::{Request, read_request};
use wc_session::{BufferEvent, Outcome, Session};
use wc_text::{Cause, LinkId, NoMemory, Text};
use wc_view::Mirror;
use wc_world::World;

/// A mirror, and the bytes that it was sent since they were last shown.
#[derive(Drop)]
pub struct Screen {
    pub mirror: Mirror,
    pub sent: BytesMut,
    /// How many messages the mirror refused.
    pub refused: u64,
}

/// A mirror that took nothing.
#[tactic(auto, using(wc_view::proofs::IdLemmas::letter_ids))]
fn new_mirror(alloc: Global, limit: Option<u32>) -> Result<Mirror, NoMemory> {
    let ids = [
        Text::from_slice(alloc, b"b")?,
        Text::from_slice(alloc, b"l")?,
        Text::from_slice(alloc, b"n")?,
    ];
    match limit {
        Some(limit) => Mirror::new(alloc, limit.max(1), ids),
        None => Mirror::trimmed(alloc, ids),
    }
}

impl Screen {
    /// A mirror that was sent nothing, which holds so many lines a buffer, or as many as it is told.
    fn new(alloc: Global, limit: Option<u32>) -> Result<Screen, NoMemory> {
        match new_mirror(alloc, limit) {
            Ok(mirror) => Ok(Screen {
                mirror,
                sent: BytesMut::new(alloc),
                refused: 0,
            }),
            Err(NoMemory) => Err(NoMemory),
        }
    }

    /// Has the mirror take what is sent.
    pub fn take(&mut self, alloc: Global, out: &mut Sheet, bytes: &[u8]) {
        out.note(self.sent.extend_from_slice(bytes));
        let refused = take_all(alloc, &mut self.mirror, bytes);
        self.refused = self.refused.saturating_add(refused);
    }
}

/// A client: its session, and what it was sent.
#[derive(Drop)]
pub struct Client {
    pub session: Session,
    pub context: Context,
    pub screen: Screen,
}

impl Client {
    /// A client that said nothing, whose mirror holds so many lines a buffer, or as many as it is told.
    pub fn new(alloc: Global, number: u64, limit: Option<u32>) -> Result<Client, NoMemory> {
        match Context::new(alloc) {
            Ok(context) => Client::with(alloc, LinkId(number), limit, context),
            Err(NoMemory) => Err(NoMemory),
        }
    }

    fn with(
        alloc: Global,
        link: LinkId,
        limit: Option<u32>,
        context: Context,
    ) -> Result<Client, NoMemory> {
        match Session::new(alloc, link, *b"abcdbcdecdefdefg") {
            Ok(session) => Client::of(alloc, limit, context, session),
            Err(NoMemory) => Err(NoMemory),
        }
    }

    fn of(
        alloc: Global,
        limit: Option<u32>,
        context: Context,
        session: Session,
    ) -> Result<Client, NoMemory> {
        match Screen::new(alloc, limit) {
            Ok(screen) => Ok(Client {
                session,
                context,
                screen,
            }),
            Err(NoMemory) => Err(NoMemory),
        }
    }

    /// Sends what is unsent.
    fn catch_up(&mut self, alloc: Global, out: &mut Sheet) {
        let unsent = self.session.unsent();
        self.screen.take(alloc, out, unsent);
        let size = unsent.len();
        self.session.gone(size);
    }

    /// Is told an event, where the client follows it.
    pub fn tell(&mut self, alloc: Global, out: &mut Sheet, event: &BufferEvent) {
        out.note_done(self.session.append_event(event));
        self.catch_up(alloc, out);
    }

    /// Says a line, and answers what it comes to.
    pub fn say(
        &mut self,
        alloc: Global,
        out: &mut Sheet,
        world: &World,
        line: &str,
    ) -> &'static str {
        let answer = self.ask(alloc, world, line);
        self.catch_up(alloc, out);
        answer
    }

    fn ask(&mut self, alloc: Global, world: &World, line: &str) -> &'static str {
        match read_request(alloc, line.as_bytes(), self.session.escaped()) {
            Ok(Some(request)) => self.request(alloc, world, request),
            Ok(None) => "no request",
            Err(NoMemory) => "no memory",
        }
    }

    fn request(&mut self, alloc: Global, world: &World, request: Request) -> &'static str
        requires { RequestIsUtf8 request }
    {
        let context = self.context.lent();
        let outcome = self.session.request(alloc, world, context, request);
        outcome_word(&outcome)
    }
}

/// Takes the messages of bytes in order, up to the first that is refused. Answers how many are.
fn take_all(alloc: Global, mirror: &mut Mirror, bytes: &[u8]) -> u64 {
    let mut rest = bytes;
    for _ in 0..bytes.len() {
        let Ok(size) = mirror.take(alloc, rest) else {
            return 1;
        };
        match rest.get(size..) {
            Some(left) if size > 0 => rest = left,
            _ => return 0,
        }
    }
    0
}

fn outcome_word(outcome: &Outcome) -> &'static str {
    match outcome {
        Outcome::Replied => "replied",
        Outcome::Silent => "silent",
        Outcome::Input { .. } => "input",
        Outcome::Leave(Cause::Quit) => "quit",
        Outcome::Leave(Cause::LoginFailed) => "login failed",
        Outcome::Leave(_) => "left",
        Outcome::NoMemory => "no memory",
    }
}

/// The place of the client of a number.
pub fn place_of(clients: &[Client], number: u64) -> Result<usize, Wrong> {
    match clients
        .iter()
        .position(|client| client.session.link() == LinkId(number))
    {
        Some(place) => Ok(place),
        None => Err(Wrong::NoClient),
    }
}
