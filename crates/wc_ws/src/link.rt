//! A link: its stage, its connection, and the bytes of both ways.
ghost use Rattle.std.specs.Prelude.{◌≡◌, ◌≤◌, ◌++◌, ◌↔◌, length, drop, false};
ghost use Rattle.std.specs.Prelude.{Ok, Err, OnOk, OnErr};
ghost use Rattle.wc_ws.specs.Link.{fresh_link, binary_frame, takes_messages};

use crate::names::{PutRefused, WsStage};
use bytes::BytesMut;
use std::alloc::Global;
use std::marker::Model;
use wc_text::NoMemory;
use websocket::protocol::{
    Message, NoMask, Role, WebSocketConfig, WebSocketContext, WebSocketState,
};

/// How many bytes a message and a frame have at most.
const MESSAGE_LIMIT: usize = 1_048_576;

/// How large a block may be that is kept while nothing is to be sent.
const MOST_KEPT: usize = 1 << 16;

/// Gives the block back of bytes of which none are left.
fn give_back(bytes: &mut BytesMut)
    requires { length bytes.old.items ≡ 0 }
    ensures { bytes.new.items ≡ bytes.old.items }
{
    *bytes = BytesMut::new(*bytes.allocator());
}

/// A server's side of a WebSocket, with what was fed and what is to be sent.
#[derive(Drop)]
pub struct WsLink {
    pub(crate) stage: WsStage,
    pub(crate) context: WebSocketContext,
    pub(crate) input: BytesMut,
    pub(crate) output: BytesMut,
    /// How many bytes may wait to be sent, where that is bounded.
    most_unsent: Option<usize>,
    /// How many bytes of memory those had at most since none were left.
    largest: usize,
}

impl Model for WsLink {
    ghost use Rattle.std.specs.Coded.{codes};
    ghost use Rattle.std.specs.Prelude.{◌≡◌};
    ghost use Rattle.wc_ws.specs.Link.{Link, server_of};

    ghost Value = { Link };

    ghost coded = { Prim.hlevel codes };

    ghost view = { λ link. record {
      stage = link.stage;
      state = link.context.state;
      fragments = link.context.fragments;
      input = link.input.items;
      output = link.output.items;
    } };

    ghost invariant = { λ link. link.context
        ≡ server_of link.context.state link.context.fragments };
}

impl WsLink {
    /// A link to which nothing was fed.
    pub fn new(alloc: Global) -> Result<WsLink, NoMemory>
        ensures { result ≡ Ok fresh_link }
    {
        let config = WebSocketConfig {
            max_message_size: Some(MESSAGE_LIMIT),
            max_frame_size: Some(MESSAGE_LIMIT),
            accept_unmasked_frames: false,
        };
        Ok(WsLink {
            stage: WsStage::Head,
            context: WebSocketContext::new(alloc, Role::Server, config),
            input: BytesMut::new(alloc),
            output: BytesMut::new(alloc),
            most_unsent: None,
            largest: 0,
        })
    }

    /// Sets how many bytes may wait to be sent: beyond them nothing is put or answered, as where there
    /// is no memory for it.
    pub fn set_most_unsent(&mut self, most: Option<usize>)
        ensures { self.new ≡ self.old }
    {
        self.most_unsent = most;
    }

    /// Whether so many more bytes may wait to be sent.
    pub(crate) fn has_room(&self, more: usize) -> bool {
        match self.most_unsent {
            Some(most) => self.output.len().saturating_add(more) <= most,
            None => true,
        }
    }

    /// Takes what the client sent, after what was fed before.
    pub fn feed(&mut self, piece: &[u8]) -> Result<(), NoMemory>
        ensures ok { OnOk result (self.new ≡ record self.old {
          input = self.old.input ++ piece.now;
        }) }
        ensures err { OnErr result (self.new ≡ self.old) }
    {
        match self.input.extend_from_slice(piece) {
            Ok(()) => Ok(()),
            Err(_) => Err(NoMemory),
        }
    }

    /// What is to be sent.
    pub fn unsent(&self) -> &[u8]
        ensures { result.now ≡ self.now.output }
    {
        self.output.as_slice()
    }

    /// Forgets the first bytes of what is to be sent: they were sent. A large block is given back as
    /// none are left.
    pub fn gone(&mut self, n: usize)
        requires { n ≤ length self.old.output }
        ensures { self.new ≡ record self.old { output = drop n self.old.output } }
    {
        self.largest = self.largest.max(self.output.capacity());
        self.output.advance(n);
        if self.largest > MOST_KEPT && self.output.is_empty() {
            give_back(&mut self.output);
            self.largest = 0;
        }
    }

    /// Puts a message, as one binary frame, after what is to be sent. `NotTaken` exactly where the
    /// link takes no messages, and `NoMemory` also where too much waits to be sent.
    pub fn put(&mut self, message: &[u8]) -> Result<(), PutRefused>
        ensures ok { OnOk result (self.new ≡ record self.old {
          output = self.old.output ++ binary_frame message.now;
        }) }
        ensures err { OnErr result (self.new ≡ self.old) }
        ensures taken { (result ≡ Err PutRefused.NotTaken) ↔ (takes_messages self.old ≡ false) }
    {
        if self.stage != WsStage::Frames || !self.context.can_write() {
            return Err(PutRefused::NotTaken);
        }
        if !self.has_room(message.len()) {
            return Err(PutRefused::NoMemory);
        }
        match put_binary(&mut self.context, &mut self.output, message) {
            Ok(()) => Ok(()),
            Err(NoMemory) => Err(PutRefused::NoMemory),
        }
    }
}

/// Appends one unmasked binary frame.
fn put_binary(
    context: &mut WebSocketContext,
    output: &mut BytesMut,
    message: &[u8],
) -> Result<(), NoMemory>
    requires server { context.old.role ≡ Role.Server }
    requires active { context.old.state ≡ WebSocketState.Active }
    ensures ok { OnOk result (output.new.items ≡ output.old.items ++ binary_frame message.now) }
    ensures err { OnErr result (output.new.items ≡ output.old.items) }
    ensures kept { context.new ≡ context.old }
{
    match context.write(Message::Binary(message), output, &mut NoMask) {
        Ok(()) => Ok(()),
        Err(_) => Err(NoMemory),
    }
}
