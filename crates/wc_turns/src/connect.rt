//! Connections to servers: the loop asks for what the core wants, and the core hears what became of
//! it.

ghost use Rattle.std.specs.Prelude.{◌≡◌, ◌<◌, [], true, false, length};
ghost use Rattle.wc_turns.specs.Contained.{KeepsLinks};
ghost use Rattle.wc_turns.specs.Links.{IsStanding, IsConnecting};
ghost use Rattle.wc_turns.specs.Parties.{IsCalm};
ghost use Rattle.wc_turns.specs.Parts.{AsksWanted, HasFailed, ReadsOn, Settles};
ghost use Rattle.wc_turns.specs.Steps.{LosesEach};
ghost use Rattle.wc_turns.specs.Sources.{TakesNothing};
ghost use Rattle.wc_turns.specs.Turns.{LoopStep, AgreesWithSockets};

use crate::headless::Headless;
use crate::turns::close_all_leaving;
use std::mem;
use wc_core::{Core, Wanted};
use wc_outside::{Failed, Sockets};
use wc_text::{Cause, LinkId, Text};

impl Headless {
    ghost use Rattle.std.specs.Prelude.{ℕ};
    ghost use Rattle.wc_board.specs.Connections.{leaving_on};
    ghost use Rattle.wc_board.specs.Served.{StaysOrStarves};
    ghost use Rattle.wc_core.specs.Served.{Distinct, links_of, KeepsClients};
    ghost use Rattle.wc_outside.specs.declared.happening.Happening.TheVariants.{Connected};
    ghost use Rattle.wc_turns.specs.Heard.{Happened};
    ghost use Rattle.wc_turns.specs.Turns.{TakesHappening};
    ghost use Rattle.wc_turns.specs.Steps.{TakesWanted, TakesRecord, DropsServer, LosesRefused};

    /// Takes in a connection that was begun. Whether its link is to be closed at once, since there
    /// is no memory for it: its server is gone then.
    fn link_begun(&mut self, wanted: Wanted) -> bool
        ensures { TakesWanted result self.old self.new wanted false }
    {
        let link = wanted.link;
        self.used = link.0;
        self.take_link(link, wanted.server, false)
    }

    /// Has a connection be kept, which may have been refused. Whether there is no memory for it: its
    /// server is gone then.
    fn take_link(&mut self, link: LinkId, server: Text, refused: bool) -> bool
        ensures { TakesRecord result self.old self.new link server refused }
    {
        let made = self.links.admit(self.alloc, link, Some(server), refused);
        if made.is_err() {
            self.starve_server(link);
            return true;
        }
        false
    }

    /// Takes in a connection that was refused as it was asked for. It is lost after the next wait,
    /// and goes as one that does not stand till then. Whether there is no memory for it: its server
    /// is gone then.
    fn link_refused(&mut self, wanted: Wanted) -> bool
        ensures { TakesWanted result self.old self.new wanted true }
    {
        let link = wanted.link;
        self.used = link.0;
        if self.refused.push(link).is_err() {
            self.unlisted = self.unlisted.saturating_add(1);
            self.starve_server(link);
            return true;
        }
        self.take_link(link, wanted.server, true)
    }

    /// Has the server of a link go, for which there is no memory.
    fn starve_server(&mut self, link: LinkId)
        ensures drops { DropsServer self.old.core self.new.core link.0 }
        ensures rest { self.new ≡ record self.old { core = self.new.core } }
    {
        self.core.link_gone(link, Cause::NoMemory);
        self.core.forget(link);
    }

    /// Serves that a connection stands.
    fn link_stands(&mut self, link: LinkId)
        requires going { self.old.core.quits ≡ false }
        requires connecting { IsConnecting link.0 self.old.links.opened.items }
        ensures takes { TakesHappening self.old self.new (Happened (Connected link)) }
        ensures stands { IsStanding link.0 self.new.links.opened.items }
        ensures links { Distinct (links_of self.old.core) → (other : ℕ) →
            StaysOrStarves (leaving_on other self.old.core.connections)
            (leaving_on other self.new.core.connections) }
        ensures keeps { KeepsClients self.old.core self.new.core }
    {
        self.ran = self.ran.saturating_add(1);
        self.links.mark_standing(link);
        self.core.link_stands(link);
    }

    /// Serves the loss of the connections that were refused before a wait, unless `/quit` was run.
    /// One that is not listed has no server any more, and its want of memory was counted as that went:
    /// its loss is an event that changes nothing.
    pub(crate) fn lose_refused(&mut self)
        ensures { LosesRefused self.old self.new }
    {
        let refused = mem::replace(&mut self.refused, Vec::new(self.alloc));
        let unlisted = mem::replace(&mut self.unlisted, 0);
        if self.core.quits() {
            return;
        }
        let listed = refused.len() as u64;
        lose_each(&mut self.core, refused.as_slice());
        self.ran = self.ran.saturating_add(listed).saturating_add(unlisted);
    }
}

/// Has connections be lost, one after another.
fn lose_each(core: &mut Core, links: &[LinkId])
    requires going { core.old.quits ≡ false }
    ensures { LosesEach links.now core.old core.new }
{
    for link in links {
        core.link_gone(*link, Cause::Failed);
    }
}

/// Asks for the connection that the core wants next. Whether there was one.
fn connect_next<S: Sockets>(headless: &mut Headless, sockets: &mut S) -> bool
    requires agrees { AgreesWithSockets headless.old (S.seen sockets.old) }
    ensures continues { LoopStep true 0 0 headless.old headless.new (S.seen sockets.old)
        (S.seen sockets.new) }
    ensures asks { AsksWanted headless.old headless.new (S.seen sockets.old)
        (S.seen sockets.new) }
    ensures fewer { result ≡ true → length headless.new.core.servers.wanted
        < length headless.old.core.servers.wanted }
    ensures done { result ≡ false → headless.new.core.servers.wanted ≡ [] }
{
    let Some(wanted) = headless.core.take_wanted() else {
        return false;
    };
    match sockets.connect(wanted.address) {
        Ok(link) => {
            if headless.link_begun(wanted) {
                sockets.close(link);
            }
        }
        Err(Failed) => {
            headless.link_refused(wanted);
        }
    }
    true
}

/// Asks for the connections that the core wants, in order.
fn connect_wanted<S: Sockets>(headless: &mut Headless, sockets: &mut S)
    requires agrees { AgreesWithSockets headless.old (S.seen sockets.old) }
    ensures continues { LoopStep true 0 0 headless.old headless.new (S.seen sockets.old)
        (S.seen sockets.new) }
    ensures asks { AsksWanted headless.old headless.new (S.seen sockets.old)
        (S.seen sockets.new) }
    ensures done { headless.new.core.servers.wanted ≡ [] }
{
    loop {
        if !connect_next(headless, sockets) {
            return;
        }
    }
}

/// Does what the core asks for after an event: first the connections that it wants, and then the
/// closes. Nothing is sent on the link that was lost, if one was.
pub fn settle<S: Sockets>(headless: &mut Headless, sockets: &mut S, lost: Option<LinkId>)
    requires agrees { AgreesWithSockets headless.old (S.seen sockets.old) }
    requires failed { HasFailed lost (S.seen sockets.old) }
    ensures continues { LoopStep true 0 0 headless.old headless.new (S.seen sockets.old)
        (S.seen sockets.new) }
    ensures settles { Settles headless.old headless.new (S.seen sockets.old)
        (S.seen sockets.new) }
{
    connect_wanted(headless, sockets);
    close_all_leaving(headless, sockets, lost);
}

/// Asks whether a connection stands. Whether it may be read.
pub fn stand_link<S: Sockets>(headless: &mut Headless, sockets: &mut S, link: LinkId) -> bool
    requires agrees { AgreesWithSockets headless.old (S.seen sockets.old) }
    requires calm { IsCalm headless.old.core }
    requires going { headless.old.core.quits ≡ false }
    requires connecting { IsConnecting link.0 headless.old.links.opened.items }
    ensures continues { LoopStep true 0 0 headless.old headless.new (S.seen sockets.old)
        (S.seen sockets.new) }
    ensures calm { IsCalm headless.new.core }
    ensures going { result ≡ true → headless.new.core.quits ≡ false }
    ensures reads { ReadsOn link.0 (S.seen sockets.old) (S.seen sockets.new) }
    ensures nothing { TakesNothing (S.seen sockets.old) (S.seen sockets.new) }
    ensures stands { result ≡ true → IsStanding link.0 headless.new.links.opened.items }
    ensures drained { result ≡ false → headless.new.core.quits ≡ false →
        (S.seen sockets.new).undrained link.0 ≡ false }
    ensures contained { KeepsLinks headless.old headless.new }
{
    match sockets.connected(link) {
        Ok(true) => {
            headless.link_stands(link);
            settle(headless, sockets, None);
            !headless.core.quits()
        }
        Ok(false) => {
            headless.links.mark_drained(link);
            false
        }
        Err(Failed) => {
            headless.link_gone(link, Cause::Failed);
            settle(headless, sockets, Some(link));
            false
        }
    }
}
