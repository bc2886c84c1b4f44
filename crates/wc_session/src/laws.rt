//! What the definitions say of one another.

ghost use Rattle.std.specs.Prelude.{◌↔◌, ℕ, List, IsTrue};
ghost use Rattle.wc_relaycmd.specs.declared.algorithm.Algorithm.{Algorithm};
ghost use Rattle.wc_relaycmd.specs.declared.login.Login.{Login};
ghost use Rattle.wc_relaycmd.specs.Logins.{LetsIn};
ghost use Rattle.wc_relaycmd.specs.declared.request.Request.{Request};
ghost use Rattle.wc_text.specs.declared.names.Handle.{Handle};
ghost use Rattle.wc_model.specs.World.{World};
ghost use Rattle.wc_nickdiff.specs.declared.diff_item.Push.{Push};
ghost use Rattle.wc_model.specs.declared.notice.Notice.{Notice};
ghost use Rattle.wc_session.specs.declared.client.Client.{Client};
ghost use Rattle.wc_session.specs.Logins.{lets_in};
ghost use Rattle.wc_session.specs.Event.{Spelled, IsEventOf, IsPushOf, with_event, part_told};
ghost use Rattle.wc_session.specs.Event.{push_told};
ghost use Rattle.wc_session.specs.Known.{Known};
ghost use Rattle.wc_session.specs.OneReply.{IsOneReply};
ghost use Rattle.wc_session.specs.Reply.{reply_of};
ghost use Rattle.wc_session.specs.RequestContext.{Context};
ghost use Rattle.wc_session.specs.Sending.{Sends};

/// The test that a session takes of a login is the rule of who is let in.
pub fn lets_in_exactly()
    ensures { (login : Login) (password nonce : List ℕ) (chosen : Algorithm) →
        IsTrue (lets_in login password nonce chosen) ↔ LetsIn login password nonce chosen }
{}

/// A request gets one message under its id, or none. The id is `_pong` for `ping`.
pub fn one_reply_each()
    ensures { (world : World) (context : Context) (client : Client) (request : Request) →
        IsOneReply request (reply_of world context client request).messages }
{}

/// The event of one part of a notice puts after the unsent bytes of each client what that client is
/// to be told of it.
pub fn event_tells()
    ensures { (event : Spelled) (world : World) (part : Notice) (session : Known) →
        IsEventOf event world part → Sends session.unsent (with_event event session).unsent
        (part_told world part session.client) }
{}

/// The event of a push puts after the unsent bytes of each client what that client is to be told of
/// it.
pub fn push_tells()
    ensures { (event : Spelled) (buffer : Handle) (push : Push) (session : Known) →
        IsPushOf event buffer push → Sends session.unsent (with_event event session).unsent
        (push_told buffer push session.client) }
{}
