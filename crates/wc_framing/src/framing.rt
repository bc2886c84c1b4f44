//! A link's framing, as its bytes come.
ghost use Rattle.std.specs.Prelude.{◌≡◌, ◌++◌, ℕ, List, OnOk, OnErr};
ghost use Rattle.wc_framing.specs.Framing.{Opens, StaysPlain};
ghost use Rattle.wc_framing.specs.Unframed.{Fed, Comes, Shrinks};
ghost use Rattle.wc_ws.specs.Link.{fresh_link};

use crate::opening::{Opening, opening_of};
use std::alloc::Global;
use wc_text::NoMemory;
use wc_ws::{WsGot, WsLink, WsRefused};

/// How the bytes of a link are framed.
#[derive(Drop)]
pub enum Framing {
    /// Too few bytes came of a client to tell.
    Undecided,
    /// They are text as they come.
    Plain,
    /// They are the head and the frames of a WebSocket.
    Socket(WsLink),
}

/// Where a piece of a link belongs.
#[derive(Clone, Copy, Debug, PartialEq, Eq)]
pub enum Belongs {
    /// To the text of the link.
    Text,
    /// To the WebSocket that begins with what was held before, and to which nothing was fed yet.
    Opened,
    /// To the WebSocket that began before.
    Frames,
}

impl Framing {
    /// Where a piece belongs that comes after these bytes, which are held of a client whose first
    /// bytes are too few to tell.
    pub fn open(&mut self, alloc: Global, held: &[u8], piece: &[u8]) -> Belongs
        ensures opens { Opens held.now piece.now self.old result self.new }
        ensures plain { StaysPlain self.old result self.new }
    {
        match self {
            Framing::Undecided => self.decide(alloc, held, piece),
            Framing::Plain => Belongs::Text,
            Framing::Socket(_) => Belongs::Frames,
        }
    }

    /// Decides by a piece, where it tells.
    fn decide(&mut self, alloc: Global, held: &[u8], piece: &[u8]) -> Belongs
        requires { self.old ≡ Framing.Undecided }
        ensures { Opens held.now piece.now self.old result self.new }
    {
        match opening_of(held, piece) {
            Opening::Undecided => Belongs::Text,
            Opening::Plain => {
                *self = Framing::Plain;
                Belongs::Text
            }
            Opening::Socket => {
                *self = new_socket(alloc);
                Belongs::Opened
            }
        }
    }
}

/// A WebSocket to which nothing was fed. It takes no memory.
fn new_socket(alloc: Global) -> Framing
    ensures { result ≡ Framing.Socket fresh_link }
{
    let Ok(link) = WsLink::new(alloc) else {
        unreachable!()
    };
    Framing::Socket(link)
}

/// Feeds a piece to a WebSocket.
pub fn feed_piece(link: &mut WsLink, piece: &[u8]) -> Result<(), NoMemory>
    ensures ok { OnOk result ((bytes text : List ℕ) → Fed bytes text link.old →
        Fed (bytes ++ piece.now) text link.new) }
    ensures err { OnErr result (link.new ≡ link.old) }
{
    link.feed(piece)
}

/// Reads the head, or the next frame, of a WebSocket that was fed. Payloads of text and binary
/// messages, one after the other, are the text of the link.
pub fn next_message(alloc: Global, link: &mut WsLink) -> Result<WsGot, WsRefused>
    ensures comes { (bytes text : List ℕ) → Fed bytes text link.old →
        Comes bytes text result link.new }
    ensures shrinks { Shrinks result link.old link.new }
{
    link.next(alloc)
}
