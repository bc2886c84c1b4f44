ghost use Rattle.std.specs.Prelude.{◌≡◌, ◌≢◌, ◌+◌, ◌-◌, ◌^◌};
ghost use Rattle.std.specs.Prelude.{◌∷◌, [], None, Some, true, false, IfOk, length, map, min, take};
ghost use Rattle.std.specs.Prelude.{string_bytes};
ghost use Rattle.std.specs.Option.{option_copied};
ghost use Rattle.wc_outside.specs.declared.happening.Happening.TheVariants.{Woke, Ended, Failed};
ghost use Rattle.wc_outside.specs.Keyed.{at_key, IsKeyPlace};
ghost use Rattle.wc_core.specs.Limits.{most_lines};
ghost use Rattle.wc_core.specs.State.{first_state};
ghost use Rattle.wc_eval.specs.Verdicts.{Oracle};
ghost use Rattle.wc_core.specs.LinksSeen.{unsent_in_core};
ghost use Rattle.wc_servers.specs.Seats.{no_servers};
ghost use Rattle.wc_core.specs.Served.{Means};
ghost use Rattle.wc_turns.specs.Events.{is_tick, wake_events, clock_from};
ghost use Rattle.wc_turns.specs.Links.{link_number, IsStanding};
ghost use Rattle.wc_turns.specs.Served.{MayRun};
ghost use Rattle.wc_turns.specs.Steps.{LosesLink, WakesParties};

use crate::links::{Closed, LinkState, Links};
use crate::sockets::serve_bytes;
use std::alloc::Global;
use wc_core::Core;
use wc_options::Options;
use wc_outside::{Ready, Token};
use wc_text::{Arrival, Cause, LinkId, NoMemory};
use wc_world::World;

/// The state of a run, as it comes after its last turn.
#[derive(Drop)]
pub struct Headless {
    pub(crate) alloc: Global,
    pub(crate) core: Core,
    pub(crate) links: Links,
    /// The moment of the last tick, or of the start.
    pub(crate) clock: Option<u64>,
    /// How many link numbers are used.
    pub(crate) used: u64,
    /// Whether the listener was reported ready and is not drained.
    pub(crate) listening: bool,
    /// The connections that were refused since the last wait, in order.
    pub(crate) refused: Vec<LinkId>,
    /// How many more were refused since then, for which there was no memory.
    pub(crate) unlisted: u64,
    pub(crate) turns: u64,
    pub(crate) ran: u64,
}

/// Whether the return of a wait is a tick, where the last one was at this moment.
fn is_tick(last: u64, moment: u64) -> bool
    ensures { result ≡ is_tick last moment }
{
    moment < last || moment - last >= 100
}

impl Headless {
    ghost use Rattle.wc_turns.specs.Heard.{Happened, NotPut};
    ghost use Rattle.wc_turns.specs.Links.{is_socket_at};
    ghost use Rattle.wc_turns.specs.Served.{LeavesAtRead};
    ghost use Rattle.wc_turns.specs.Turns.{TakesHappening, TakesRead};
    ghost use Rattle.wc_turns.specs.Steps.{LinkComes, ServesArrival, MarksLink, ReportsSources};
    ghost use Rattle.wc_turns.specs.Steps.{BeginsTurn, reached_after_miss};

    /// The state before the first turn, where these are the options. The commands are run after the
    /// first wait.
    pub fn new(alloc: Global, options: Options, commands: Vec<String>) -> Result<Headless, NoMemory>
        ensures means { IfOk result (λ headless. (oracle : Oracle) → Means headless.core
            (first_state oracle options (most_lines options) (map string_bytes commands.items))) }
        ensures core { IfOk result (λ headless. (headless.core.connections ≡ [])
            × (headless.core.starved ≡ 0) × (headless.core.quits ≡ false)) }
        ensures links { IfOk result (λ headless. (headless.links.opened.items ≡ [])
            × (headless.links.closed.items ≡ [])) }
        ensures rest { IfOk result (λ headless. (headless.clock ≡ None) × (headless.used ≡ 0)
            × (headless.listening ≡ false) × (headless.turns ≡ 0) × (headless.ran ≡ 0)) }
        ensures refused { IfOk result (λ headless. (headless.refused.items ≡ [])
            × (headless.unlisted ≡ 0)) }
        ensures servers { IfOk result (λ headless. headless.core.servers ≡ no_servers) }
        ensures unjudged { IfOk result (λ headless. headless.core.verdicts.rows ≡ []) }
        ensures written { IfOk result (λ headless. (headless.core.unwritten ≡ false)
            × (headless.core.saved ≡ None)) }
    {
        let links = Links::new(alloc)?;
        let core = Core::new(alloc, options, commands)?;
        Ok(Headless {
            alloc,
            core,
            links,
            clock: None,
            used: 0,
            listening: false,
            refused: Vec::new(alloc),
            unlisted: 0,
            turns: 0,
            ran: 0,
        })
    }

    /// Serves bytes of a link. Clients and servers may begin to leave, and connections may be wanted.
    pub(crate) fn bytes_came(&mut self, place: usize, link: LinkId, bytes: &[u8])
        requires place { IsKeyPlace link_number link.0 self.old.links.opened.items place }
        requires going { self.old.core.quits ≡ false }
        requires stands { IsStanding link.0 self.old.links.opened.items }
        ensures takes { TakesRead self.old self.new link bytes.now }
        ensures causes { LeavesAtRead
            (is_socket_at (at_key link_number link.0 self.new.links.opened.items)) link.0
            self.old.core self.new.core }
        ensures stands { IsStanding link.0 self.new.links.opened.items }
    {
        serve_bytes(
            self.alloc,
            &mut self.core,
            &mut self.links.opened[place],
            bytes,
            &mut self.ran,
        );
    }

    /// Serves the end of a link, or its failure. Its client or server begins to leave.
    pub(crate) fn link_gone(&mut self, link: LinkId, cause: Cause)
        requires going { self.old.core.quits ≡ false }
        requires cause { cause ≢ Cause.NoMemory }
        ensures ended { cause ≡ Cause.Ended →
            TakesHappening self.old self.new (Happened (Ended link)) }
        ensures failed { cause ≡ Cause.Failed →
            TakesHappening self.old self.new (Happened (Failed link)) }
        ensures broken { cause ≡ Cause.BadSocket →
            is_socket_at (at_key link_number link.0 self.old.links.opened.items) ≡ true →
            TakesHappening self.old self.new (NotPut link) }
        ensures core { LosesLink link.0 cause self.old.core self.new.core }
        ensures rest { self.new ≡ record self.old { core = self.new.core; ran = self.new.ran } }
        ensures ran { self.new.ran ≡ min (self.old.ran + 1) (2 ^ 64 - 1) }
    {
        self.ran = self.ran.saturating_add(1);
        self.core.link_gone(link, cause);
    }

    /// Counts an event that changes nothing, as the failure of a link whose client or server is
    /// leaving, or that of the listener. After `/quit` no event is reached.
    pub(crate) fn link_missed(&mut self)
        ensures { self.new ≡ record self.old {
          ran = reached_after_miss self.old.core.quits
              self.old.ran;
        } }
    {
        if self.core.quits() {
            return;
        }
        self.ran = self.ran.saturating_add(1);
    }

    /// Serves an arrival. Whether its link is to be closed at once: its client is one too many, and
    /// the link is listed as closed; or there is no memory for a client or for a line of the link,
    /// and then it may not be listed.
    pub(crate) fn link_came(&mut self, arrival: Arrival) -> bool
        ensures comes { LinkComes self.old self.new arrival.link }
        ensures serves { ServesArrival result self.old self.new arrival.link arrival.nonce }
    {
        self.used = arrival.link.0;
        self.ran = self.ran.saturating_add(1);
        if self
            .links
            .admit(self.alloc, arrival.link, None, false)
            .is_err()
        {
            self.core.refuse_link(arrival.link);
            return true;
        }
        match self.core.accepted(arrival) {
            Some(cause) => {
                self.links.close(arrival.link, cause);
                true
            }
            None => false,
        }
    }

    /// Keeps a source as one that was reported: it is not drained, and a link is no longer blocked.
    fn mark(&mut self, token: Token)
        ensures { MarksLink self.old self.new token }
    {
        match token {
            Token::Listener => self.listening = true,
            Token::Link(link) => self.links.mark_reported(link),
        }
    }

    /// Keeps the sources that a wait reported.
    pub(crate) fn report(&mut self, ready: &Ready)
        ensures { ReportsSources self.old self.new (take ready.now.count ready.now.tokens) }
    {
        for place in 0..ready.count {
            self.mark(ready.tokens[place]);
        }
    }

    /// Begins a turn at the moment at which a wait returned.
    pub(crate) fn begin_turn(&mut self, moment: u64)
        requires going { self.old.core.quits ≡ false }
        ensures begins { BeginsTurn self.old self.new moment }
        ensures closed { self.new.links.closed.items ≡ [] }
    {
        self.turns = self.turns.saturating_add(1);
        self.links.begin_turn();
        self.wake_core(moment);
        self.lose_refused();
    }

    /// Serves the return of a wait: the start, or a tick where it is one.
    fn wake_core(&mut self, moment: u64)
        ensures takes { MayRun self.old.core self.new.core (wake_events self.old.clock moment) }
        ensures causes { WakesParties self.old.core self.new.core }
        ensures clock { self.new.clock ≡ clock_from self.old.clock (Woke moment ∷ []) }
        ensures ran { self.new.ran
            ≡ min (self.old.ran + length (wake_events self.old.clock moment)) (2 ^ 64 - 1) }
        ensures idle { self.new.ran ≡ 0 → self.new.core ≡ self.old.core }
        ensures rest { self.new ≡ record self.old {
          core = self.new.core;
          clock = self.new.clock;
          ran = self.new.ran;
        } }
    {
        let _ran = self.ran();
        let Some(last) = self.clock else {
            self.core.start(moment);
            self.reach(moment);
            return;
        };
        if !is_tick(last, moment) {
            return;
        }
        self.core.tick(moment);
        self.reach(moment);
    }

    /// Counts the start or a tick at this moment.
    fn reach(&mut self, moment: u64)
        ensures { self.new ≡ record self.old {
          clock = Some moment;
          ran = min (self.old.ran + 1) (2 ^ 64 - 1);
        } }
    {
        self.clock = Some(moment);
        self.ran = self.ran.saturating_add(1);
    }

    /// Has no server connect by itself at the start.
    pub fn hold_servers(&mut self)
        ensures { self.new ≡ record self.old {
          core = record self.old.core { connects = false };
        } }
    {
        self.core.hold_servers();
    }

    /// The links that are open, and the connections that are to be, in the order of their numbers.
    pub fn links(&self) -> &[LinkState]
        ensures { result.now ≡ self.now.links.opened.items }
    {
        self.links.opened.as_slice()
    }

    /// The links that were closed in the last turn, in order, each with its cause.
    pub fn closed(&self) -> &[Closed]
        ensures { result.now ≡ self.now.links.closed.items }
    {
        self.links.closed.as_slice()
    }

    /// The bytes that a client or a server is owed and that are not sent yet. There are none exactly
    /// where the link has neither.
    pub fn unsent(&self, link: LinkId) -> Option<&[u8]>
        ensures { option_copied result ≡ unsent_in_core link.0 self.now.core }
    {
        self.core.unsent(link)
    }

    /// How often want of memory cut something short or took a client out.
    pub fn starved(&self) -> u64
        ensures { result ≡ self.now.core.starved }
    {
        self.core.starved()
    }

    /// The buffers, with their lines.
    pub fn world(&self) -> &World
        ensures { result.now ≡ self.now.core.world }
    {
        self.core.world()
    }

    /// How many waits returned.
    pub fn turns(&self) -> u64
        ensures { result ≡ self.now.turns }
    {
        self.turns
    }

    /// How many events were reached.
    pub fn ran(&self) -> u64
        ensures { result ≡ self.now.ran }
    {
        self.ran
    }
}
