//! The requests of the clients of a board.

ghost use Rattle.std.specs.Prelude.{◌≡◌, true};
ghost use Rattle.wc_outside.specs.Keyed.{at_key};
ghost use Rattle.wc_relaycmd.specs.Utf8.{RequestIsUtf8};
ghost use Rattle.wc_board.specs.Answered.{is_nicklist, pushes_before, PushedIf, AnsweredAt};
ghost use Rattle.wc_board.specs.Answered.{AnswersAfterPushes};
ghost use Rattle.wc_session.specs.RequestContext.{context_seen};
ghost use Rattle.wc_board.specs.Connections.{connection_link, is_open_at};

use crate::board::Board;
use crate::connection::connection_place;
use wc_relaycmd::{Command, Request};
use wc_session::{Outcome, RequestContext};
use wc_text::LinkId;

/// Whether nicklists are asked for.
fn is_nicklist(command: &Command) -> bool
    ensures { result ≡ is_nicklist command.now }
{
    matches!(command, Command::Nicklist(_))
}

impl Board {
    /// Serves a request of a client that is open, from the world and what stands beside it. A
    /// nicklist is shown as it was told, so what is to be pushed is pushed before. NoMemory stands for
    /// a client that finds no memory in these pushes too, and that is leaving then.
    pub fn request(
        &mut self,
        context: RequestContext<'_>,
        link: LinkId,
        request: Request,
    ) -> Outcome
        requires opened { is_open_at (at_key connection_link link.0 self.old.connections) ≡ true }
        requires text { RequestIsUtf8 request }
        ensures { AnswersAfterPushes link.0 (context_seen context.entry) request result self.old self.new }
    {
        self.push_before(link, &request.command);
        self.answer(context, link, request)
    }

    /// Makes the pushes that stand before the answer to a command of a client.
    fn push_before(&mut self, link: LinkId, command: &Command)
        ensures { PushedIf (pushes_before (at_key connection_link link.0 self.old.connections)
            command.now) self.old self.new }
    {
        if !self.asks_nicks(link, command) {
            return;
        }
        let _told = self.push();
    }

    /// Whether a client that is logged in asks for nicklists.
    fn asks_nicks(&self, link: LinkId, command: &Command) -> bool
        ensures { result ≡ pushes_before (at_key connection_link link.0 self.now.connections)
            command.now }
    {
        match connection_place(self.clients.as_slice(), link) {
            Some(place) => self.clients.as_slice()[place].session.logged_in()
                && is_nicklist(command),
            None => false,
        }
    }

    /// Serves a request of a client, unless it is leaving.
    fn answer(&mut self, context: RequestContext<'_>, link: LinkId, request: Request) -> Outcome
        requires { RequestIsUtf8 request }
        ensures { AnsweredAt link.0 (context_seen context.entry) request result self.old self.new
            (at_key connection_link link.0 self.old.connections) }
    {
        self.clients
            .answer(self.alloc, &self.world, context, link, request)
    }
}
