ghost use Rattle.std.specs.Prelude.{◌≡◌, ◌≤◌, ◌<◌, true, false, Some, List, length, drop};
ghost use Rattle.std.specs.Prelude.{IfOk, IsOk, OnOk, OnErr};
ghost use Rattle.wc_hdata.specs.Dumps.{AreShort};
ghost use Rattle.wc_objects.specs.declared.object.Object.{Object};
ghost use Rattle.wc_relaycmd.specs.Utf8.{RequestIsUtf8};
ghost use Rattle.wc_session.specs.Known.{new_session, proves_slowly};
ghost use Rattle.wc_session.specs.Event.{with_event};
ghost use Rattle.wc_session.specs.Reply.{dump_asked, reply_of};
ghost use Rattle.wc_session.specs.RequestContext.{context_seen};
ghost use Rattle.wc_session.specs.Sending.{Sends, reply};
ghost use Rattle.wc_session.specs.Served.{OnServed, OnNoMemory, AnswersRequest};
ghost use Rattle.wc_session.specs.Sync.{follows, after_event};

use crate::buffer_event::BufferEvent;
use crate::client::Client;
use crate::heeded::most_unsent;
use crate::outcome::Outcome;
use crate::request_context::RequestContext;
use crate::served::serve;
use bytes::BytesMut;
use std::alloc::Global;
use std::marker::Model;
use wc_model::EventKind;
use wc_relaycmd::{Algorithm, Request};
use wc_text::{Handle, LinkId, NoMemory};
use wc_world::World;

/// How many unsent bytes a client may have before its login: some hundred replies to `handshake`.
const MOST_BEFORE_LOGIN: usize = 1 << 16;

/// How large a block of unsent bytes may be that is kept while none are left.
const MOST_KEPT: usize = 1 << 16;

/// Gives the block back of bytes of which none are left.
fn give_back(bytes: &mut BytesMut)
    requires { length bytes.old.items ≡ 0 }
    ensures { bytes.new.items ≡ bytes.old.items }
{
    *bytes = BytesMut::new(*bytes.allocator());
}

/// The relay's side of one client: what is known of it, and the bytes that are still to be sent to
/// it. Where these reach a bound more are refused, as where there is no memory for them.
#[derive(Drop)]
pub struct Session {
    client: Client,
    unsent: BytesMut,
    /// How many bytes of memory the unsent ones had at most since none were left.
    largest: usize,
    /// How many unsent bytes the client may have once it is logged in, as the options had it at its
    /// last request.
    most_after_login: Option<usize>,
}

impl Model for Session {
    ghost use Rattle.wc_session.specs.Known.{Known};

    ghost Value = { Known };

    ghost view = { λ s. record { client = s.client; unsent = s.unsent.items } };
}

impl Session {
    /// A session whose client has said nothing, with the random bytes that its login is bound to.
    pub fn new(alloc: Global, link: LinkId, nonce: [u8; 16]) -> Result<Session, NoMemory>
        ensures { IfOk result (λ session. session ≡ new_session link nonce) }
    {
        Ok(Session {
            client: Client::new(alloc, link, nonce),
            unsent: BytesMut::new(alloc),
            largest: 0,
            most_after_login: None,
        })
    }

    /// Serves a request in WeeChat's relay protocol, from this world and what stands beside it. The
    /// reply is put after the unsent bytes.
    ///
    /// `Leave` where the client asked to quit, its login was refused, or it asked for something
    /// else before its login.
    /// `NoMemory` leaves the session as it was. It is the answer too where the unsent bytes have
    /// reached their bound: 65,536 before the login, and `relay.network.max_unsent` after it.
    pub fn request(
        &mut self,
        alloc: Global,
        world: &World,
        context: RequestContext<'_>,
        request: Request,
    ) -> Outcome
        requires { RequestIsUtf8 request }
        ensures answered { OnServed result (AnswersRequest self.old self.new result
            (reply_of world.now (context_seen context.entry) self.old.client request)) }
        ensures refused { OnNoMemory result (self.new ≡ self.old) }

        // A client that is not logged in is served only while few bytes wait to be sent to it.
        ensures bounded { OnServed result (self.old.client.logged_in ≡ false →
            length self.old.unsent < 65536) }

        // A client that is logged in gets each dump whole, where a message may be that long: a dump
        // never gives too many pointers.
        ensures dumps { OnServed result (self.old.client.logged_in ≡ true → AreShort world.now →
            (objects : List Object) → dump_asked world.now request.command ≡ Some objects →
            Sends self.old.unsent self.new.unsent (reply request.id objects)) }
    {
        self.most_after_login = most_unsent(context.options);
        if self.is_full() {
            return Outcome::NoMemory;
        }
        let _ = world.buffers().groups();
        let Ok(outcome) = serve(
            alloc,
            &mut self.unsent,
            &mut self.client,
            world,
            context,
            request,
        ) else {
            return Outcome::NoMemory;
        };
        outcome
    }

    /// How many bytes may wait to be sent to the client, where that is bounded: 65,536 before its
    /// login, and after it what `relay.network.max_unsent` had at its last request.
    pub fn most_unsent(&self) -> Option<usize>
        ensures { self.now.client.logged_in ≡ false → result ≡ Some 65536 }
    {
        if self.client.logged_in {
            return self.most_after_login;
        }
        Some(MOST_BEFORE_LOGIN)
    }

    /// Whether the unsent bytes have reached their bound.
    fn is_full(&self) -> bool
        ensures { result ≡ false → self.now.client.logged_in ≡ false →
            length self.now.unsent < 65536 }
    {
        match self.most_unsent() {
            Some(most) => most <= self.unsent.len(),
            None => false,
        }
    }

    /// Whether so many more unsent bytes do not pass their bound.
    fn has_room(&self, more: usize) -> bool {
        match self.most_unsent() {
            Some(most) => self.unsent.len().saturating_add(more) <= most,
            None => true,
        }
    }

    /// Puts an event after the unsent bytes, where it is for this client. Where memory is refused, or
    /// the bytes would pass `relay.network.max_unsent`, the session stays as it was.
    pub fn append_event(&mut self, event: &BufferEvent) -> Result<(), NoMemory>
        ensures told { OnOk result (self.new ≡ with_event event.now self.old) }
        ensures refused { OnErr result (self.new ≡ self.old) }

        // A client that did not ask for the event is never dropped for want of memory here.
        ensures unasked { follows event.now.kind event.now.buffer.0 self.old.client ≡ false →
            IsOk result }
    {
        if self.client.follows(event.kind(), event.buffer()) {
            if !self.has_room(event.as_slice().len()) {
                return Err(NoMemory);
            }
            self.unsent.extend_from_slice(event.as_slice())?;
        }
        self.client.hear(event.kind(), event.buffer());
        Ok(())
    }

    /// Whether an event of a buffer is for this client.
    pub fn follows(&self, kind: EventKind, buffer: Handle) -> bool
        ensures { result ≡ follows kind buffer.0 self.now.client }
    {
        self.client.follows(kind, buffer)
    }

    /// Takes note of an event that is not put after the unsent bytes.
    pub fn hear(&mut self, kind: EventKind, buffer: Handle)
        ensures { self.new
            ≡ record self.old { client = after_event kind buffer.0 self.old.client } }
    {
        self.client.hear(kind, buffer);
    }

    /// The bytes that are still to be sent.
    pub fn unsent(&self) -> &[u8]
        ensures { result.now ≡ self.now.unsent }
    {
        self.unsent.as_slice()
    }

    /// Takes the first bytes away from the unsent ones, in the same time however many are left. A
    /// large block is given back as none are left.
    pub fn gone(&mut self, n: usize)
        requires { n ≤ length self.old.unsent }
        ensures unsent { self.new.unsent ≡ drop n self.old.unsent }
        ensures client { self.new.client ≡ self.old.client }
    {
        self.largest = self.largest.max(self.unsent.capacity());
        self.unsent.advance(n);
        if self.largest > MOST_KEPT && self.unsent.is_empty() {
            give_back(&mut self.unsent);
            self.largest = 0;
        }
    }

    /// The link of the client.
    pub fn link(&self) -> LinkId
        ensures { result ≡ self.now.client.link }
    {
        self.client.link
    }

    /// Whether the client writes its lines with `escape_commands`.
    pub fn escaped(&self) -> bool
        ensures { result ≡ self.now.client.escaped }
    {
        self.client.escaped
    }

    /// Whether `init` let the client in.
    pub fn logged_in(&self) -> bool
        ensures { result ≡ self.now.client.logged_in }
    {
        self.client.logged_in
    }

    /// Whether the client is to prove by PBKDF2 that it knows the password, which takes long to check.
    pub fn proves_slowly(&self) -> bool
        ensures { result ≡ proves_slowly self.now.client.chosen }
    {
        matches!(
            self.client.chosen,
            Some(Algorithm::Pbkdf2Sha256 | Algorithm::Pbkdf2Sha512)
        )
    }
}
