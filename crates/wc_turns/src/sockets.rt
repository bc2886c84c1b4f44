//! WebSocket links: what their frames come to, and what is owed to them, in frames.

ghost use Rattle.std.specs.Prelude.{◌≡◌, ◌≤◌, ◌++◌, None, Some, IfSome, OnOk, OnErr, length};
ghost use Rattle.std.specs.Prelude.{true, false};
ghost use Rattle.std.specs.Option.{option_copied};
ghost use Rattle.wc_turns.specs.Sockets.{IsSocketCause, ServesSocket, ClosesSocket, FeedsHeld};
ghost use Rattle.wc_turns.specs.Sockets.{ServesFrames, ServesOpened, ServesBytes, cause_of};
ghost use Rattle.wc_turns.specs.Sockets.{then_of, ServesPiece};
ghost use Rattle.wc_framing.specs.Framing.{is_socket};
ghost use Rattle.wc_framing.specs.Messages.{Frames};
ghost use Rattle.wc_framing.specs.Unframed.{Fed};
ghost use Rattle.wc_outside.specs.Keyed.{at_key};
ghost use Rattle.wc_board.specs.Connections.{connection_link, is_open_at};
ghost use Rattle.wc_turns.specs.Events.{read_events};
ghost use Rattle.wc_turns.specs.Lines.{rest};
ghost use Rattle.wc_turns.specs.Served.{MayTake, LeavesAtLine};
ghost use Rattle.wc_turns.specs.Tails.{IsTail};
ghost use Rattle.std.specs.Prelude.{◌<◌, ◌≢◌, ◌+◌, ◌-◌, ◌^◌, min, ℕ, List};

use crate::feed::feed;
use crate::headless::Headless;
use crate::links::LinkState;
use crate::tail::Tail;
use std::alloc::Global;
use wc_core::Core;
use wc_framing::{Belongs, Framed, Framing, feed_piece, next_message, put_messages};
use wc_text::{Cause, LinkId, NoMemory, Text};
use wc_ws::{PutRefused, WsGot, WsLink, WsRefused};

/// What a WebSocket link does once what was fed is read.
#[derive(Clone, Copy, Debug, PartialEq, Eq)]
pub enum WsThen {
    /// More bytes may come.
    GoOn,
    /// It is to be closed for this cause.
    Closed(Cause),
}

/// Serves bytes of a link: as they come, or what their frames come to. Nothing is read of a link that
/// is to be closed.
pub fn serve_bytes(
    alloc: Global,
    core: &mut Core,
    state: &mut LinkState,
    bytes: &[u8],
    ran: &mut u64,
)
    requires going { core.old.quits ≡ false }
    ensures serves { ServesBytes bytes.now state.old state.new core.old core.new ran.old ran.new }
{
    if state.ended {
        return;
    }
    match state.framing.open(alloc, state.tail.line.as_slice(), bytes) {
        Belongs::Text => feed(core, state.link, &mut state.tail, bytes, ran),
        Belongs::Opened => serve_opened(alloc, core, state, bytes, ran),
        Belongs::Frames => serve_frames(alloc, core, state, bytes, ran),
    }
}

/// Feeds what was held of a link to the WebSocket that begins with it.
fn feed_held(state: &mut LinkState) -> Result<(), NoMemory>
    ensures ok { OnOk result (FeedsHeld state.old state.new) }
    ensures socket { is_socket state.new.framing ≡ is_socket state.old.framing }
    ensures rest { state.new ≡ record state.old { framing = state.new.framing } }
{
    let Framing::Socket(socket) = &mut state.framing else {
        return Ok(());
    };
    feed_piece(socket, state.tail.line.as_slice())
}

/// Serves the first frames of a WebSocket link, which begins with what was held of it.
fn serve_opened(alloc: Global, core: &mut Core, state: &mut LinkState, bytes: &[u8], ran: &mut u64)
    requires going { core.old.quits ≡ false }
    ensures serves { ServesOpened bytes.now state.old state.new core.old core.new ran.old ran.new }
{
    let held = feed_held(state);
    state.tail.begin();
    match held {
        Ok(()) => serve_frames(alloc, core, state, bytes, ran),
        Err(NoMemory) => close_socket(core, state, Cause::NoMemory, ran),
    }
}

/// Serves what the frames of a WebSocket link come to. Where there is no memory for them, its client
/// leaves.
fn serve_frames(alloc: Global, core: &mut Core, state: &mut LinkState, bytes: &[u8], ran: &mut u64)
    requires going { core.old.quits ≡ false }
    ensures serves { ServesFrames bytes.now state.old state.new core.old core.new ran.old ran.new }
{
    let Framing::Socket(socket) = &mut state.framing else {
        return;
    };
    let then = serve_piece(alloc, socket, core, state.link, &mut state.tail, bytes, ran);
    let WsThen::Closed(cause) = then else {
        return;
    };
    close_socket(core, state, cause, ran);
}

/// Feeds a piece to a WebSocket, where so many bytes may wait to be sent to its client.
fn feed_bounded(socket: &mut WsLink, most: Option<usize>, piece: &[u8]) -> Result<(), NoMemory>
    ensures ok { OnOk result ((bytes text : List ℕ) → Fed bytes text socket.old →
        Fed (bytes ++ piece.now) text socket.new) }
    ensures err { OnErr result (socket.new ≡ socket.old) }
{
    socket.set_most_unsent(most);
    feed_piece(socket, piece)
}

/// Puts the messages at the front of these bytes into frames, where so many bytes may wait to be sent.
fn put_bounded(socket: &mut WsLink, most: Option<usize>, bytes: &[u8]) -> Framed
    ensures within { result.count ≤ length bytes.now }
    ensures frames { Frames bytes.now socket.old result socket.new }
{
    socket.set_most_unsent(most);
    put_messages(socket, bytes)
}

/// Feeds a piece to a WebSocket, and serves the messages that are at the front of what was fed.
fn serve_piece(
    alloc: Global,
    socket: &mut WsLink,
    core: &mut Core,
    link: LinkId,
    tail: &mut Tail,
    bytes: &[u8],
    ran: &mut u64,
) -> WsThen
    requires going { core.old.quits ≡ false }
    ensures serves { ServesPiece link.0 bytes.now result socket.old socket.new core.old core.new
        tail.old tail.new ran.old ran.new }
{
    match feed_bounded(socket, core.most_unsent(link), bytes) {
        Ok(()) => serve_ws(alloc, socket, core, link, tail, ran),
        Err(NoMemory) => WsThen::Closed(Cause::NoMemory),
    }
}

/// Serves the lines of the messages that are at the front of what was fed, up to one that runs
/// `/quit`: payloads of text and binary messages, one after the other, are the text of the link. It
/// is to be closed where a close was read, for a head or a frame that is none, and where there is no
/// memory for a payload.
pub fn serve_ws(
    alloc: Global,
    socket: &mut WsLink,
    core: &mut Core,
    link: LinkId,
    tail: &mut Tail,
    ran: &mut u64,
) -> WsThen
    requires going { core.old.quits ≡ false }
    ensures serves { ServesSocket link.0 (Some result) socket.old socket.new core.old core.new
        tail.old tail.new ran.old ran.new }
{
    loop {
        match serve_next(alloc, socket, core, link, tail, ran) {
            Some(then) => return then,
            None => {}
        }
    }
}

/// Serves the next message. None where there may be more.
fn serve_next(
    alloc: Global,
    socket: &mut WsLink,
    core: &mut Core,
    link: LinkId,
    tail: &mut Tail,
    ran: &mut u64,
) -> Option<WsThen>
    requires going { core.old.quits ≡ false }
    ensures serves { ServesSocket link.0 result socket.old socket.new core.old core.new
        tail.old tail.new ran.old ran.new }
    ensures shrinks { result ≡ None → length socket.new.input < length socket.old.input }
{
    match next_message(alloc, socket) {
        Ok(WsGot::Payload(text)) => serve_text(core, link, tail, &text, ran),
        Ok(WsGot::Control) => None,
        Ok(WsGot::NotYet) => Some(WsThen::GoOn),
        Ok(WsGot::Ended) => Some(WsThen::Closed(Cause::Ended)),
        Err(why) => Some(WsThen::Closed(cause_of(why))),
    }
}

/// Serves the lines that a message ends. Nothing more is served where one of them ran `/quit`.
fn serve_text(
    core: &mut Core,
    link: LinkId,
    tail: &mut Tail,
    text: &Text,
    ran: &mut u64,
) -> Option<WsThen>
    requires going { core.old.quits ≡ false }
    ensures tail { core.new.quits ≡ false → (line : List ℕ) → IsTail line tail.old →
        IsTail (rest line text.now) tail.new }
    ensures takes { (line : List ℕ) → IsTail line tail.old →
        MayTake core.old core.new ran.old ran.new (read_events link.0 line text.now) }
    ensures causes { LeavesAtLine link.0 core.old core.new }
    ensures idle { ran.new ≡ 0 → (ran.old ≡ 0) × (core.new ≡ core.old) }
    ensures then { result ≡ then_of core.new.quits }
{
    feed(core, link, tail, text.as_slice(), ran);
    if core.quits() {
        return Some(WsThen::GoOn);
    }
    None
}

/// Why a link is closed that was refused.
fn cause_of(why: WsRefused) -> Cause
    ensures { result ≡ cause_of why }
{
    match why {
        WsRefused::HeadTooLong { .. } | WsRefused::BadHead | WsRefused::BadFrame =>
            Cause::BadSocket,
        WsRefused::NoMemory => Cause::NoMemory,
    }
}

/// Has the client of a WebSocket link leave, which is to be closed for this cause. That is an event,
/// but for want of memory, which does nothing to a client that is leaving already.
fn close_socket(core: &mut Core, state: &mut LinkState, cause: Cause, ran: &mut u64)
    requires going { core.old.quits ≡ false }
    requires cause { IsSocketCause cause }
    ensures closes { ClosesSocket cause state.old state.new core.old core.new ran.old ran.new }
{
    state.ended = true;
    if is_spared(core, state.link, cause) {
        return;
    }
    count_end(cause, ran);
    core.link_gone(state.link, cause);
}

/// Whether the client of a link is spared a loss for this cause: there is no memory, and it is leaving
/// already, so that it would be counted twice.
fn is_spared(core: &Core, link: LinkId, cause: Cause) -> bool
    ensures spared { result ≡ true → cause ≡ Cause.NoMemory }
    ensures leaves { result ≡ true →
        is_open_at (at_key connection_link link.0 core.now.connections) ≡ false }
    ensures lost { result ≡ false → cause ≡ Cause.NoMemory →
        is_open_at (at_key connection_link link.0 core.now.connections) ≡ true }
{
    cause == Cause::NoMemory && !core.is_open(link)
}

/// Counts the end of a WebSocket link as an event, unless it ends for want of memory.
fn count_end(cause: Cause, ran: &mut u64)
    ensures starves { cause ≡ Cause.NoMemory → ran.new ≡ ran.old }
    ensures counts { cause ≢ Cause.NoMemory → ran.new ≡ min (ran.old + 1) (2 ^ 64 - 1) }
{
    if cause == Cause::NoMemory {
        return;
    }
    *ran = ran.saturating_add(1);
}

impl Headless {
    ghost use Rattle.wc_turns.specs.Sockets.{PutsMessages, PutsOrLoses, to_send, SendsFirst};

    /// Puts each whole message that the client of a WebSocket link is owed into a frame, up to one
    /// that is refused. It answers why that was, and nothing where all were put, or the link is no
    /// WebSocket or has no client; then nothing changes.
    pub fn frame_unsent(&mut self, link: LinkId) -> Option<PutRefused>
        ensures { PutsMessages link.0 self.old self.new result }
    {
        let place = self.links.place(link)?;
        let Framing::Socket(socket) = &mut self.links.opened[place].framing else {
            return None;
        };
        let most = self.core.most_unsent(link);
        let framed = put_bounded(socket, most, self.core.unsent(link)?);
        self.core.gone(link, framed.count);
        framed.refused
    }

    /// Puts what the client of a WebSocket link is owed into frames. Where a message is refused, its
    /// client begins to leave, and it is false.
    pub(crate) fn frame(&mut self, link: LinkId) -> bool
        requires going { self.old.core.quits ≡ false }
        ensures { PutsOrLoses result link.0 self.old self.new }
    {
        match self.frame_unsent(link) {
            None => true,
            Some(PutRefused::NoMemory) => {
                self.core.link_gone(link, Cause::NoMemory);
                false
            }
            Some(PutRefused::NotTaken) => {
                self.link_gone(link, Cause::BadSocket);
                false
            }
        }
    }

    /// The bytes that are to be sent on a link: the frames of a WebSocket, or else what its client or
    /// its server is owed. None where there is neither.
    #[tactic(auto, using(crate::proofs::SocketLemmas::sends_frames, crate::proofs::SocketLemmas::sends_unsent))]
    pub(crate) fn to_send(&self, link: LinkId) -> Option<&[u8]>
        ensures { option_copied result ≡ to_send link.0 self.now }
    {
        match self.links.frames(link) {
            Some(frames) => Some(frames),
            None => self.core.unsent(link),
        }
    }

    /// Takes the first bytes that were to be sent on a link away.
    pub(crate) fn sent(&mut self, link: LinkId, count: usize)
        requires { IfSome (to_send link.0 self.old) (λ bytes. count ≤ length bytes) }
        ensures { SendsFirst link.0 count self.old self.new }
    {
        if self.links.frames(link).is_some() {
            self.links.frames_gone(link, count);
        } else {
            self.core.gone(link, count);
        }
    }
}
