ghost use Rattle.std.specs.Prelude.{◌≡◌, ◌≢◌, ◌⊎◌, ◌∷◌, ◌≤◌, ◌^◌, ◌-◌, ◌+◌};
ghost use Rattle.std.specs.Prelude.{◌<◌, ◌++◌, [], min, true, false, Some, None};
ghost use Rattle.std.specs.Prelude.{IfOk, IfSome, map, filter, length, string_bytes};
ghost use Rattle.wc_text.specs.declared.names.Handle.{Handle as HandleValue};
ghost use Rattle.wc_nickdiff.specs.Held.{touches_of};
ghost use Rattle.wc_outside.specs.Keyed.{at_key, without};
ghost use Rattle.wc_relaycmd.specs.Grammar.{HasCommand};
ghost use Rattle.wc_relaycmd.specs.Utf8.{RequestIsUtf8};
ghost use Rattle.wc_session.specs.Served.{OnServed, OnNoMemory};
ghost use Rattle.wc_core.specs.Events.{Start, Tick, Arrives, Line as LineCame};
ghost use Rattle.wc_core.specs.Limits.{first_handle, most_lines};
ghost use Rattle.wc_core.specs.State.{Beside, first_state};
ghost use Rattle.wc_core.specs.Step.{step, commands_step, push_step};
ghost use Rattle.wc_core.specs.Step.{link_loss_step, line_step, start_step};
ghost use Rattle.wc_core.specs.Step.{outcome_step, request_step, client_link};
ghost use Rattle.wc_servers.specs.Seats.{no_servers, seat_link, used_up, open_in};
ghost use Rattle.wc_eval.specs.Verdicts.{Oracle};
ghost use Rattle.wc_board.specs.Connections.{connection_link, is_open, is_open_at};
ghost use Rattle.wc_core.specs.Served.{state_of, Means, Does, ChangesServers};
ghost use Rattle.wc_core.specs.Contained.{Runs, RunsFor, RunsHere, LosesAsker, starved_by, lost_number};
ghost use Rattle.wc_core.specs.Contained.{want_number, Contains, Counts};
ghost use Rattle.wc_core.specs.ServersKept.{LosesServer};
ghost use Rattle.wc_core.specs.Starts.{Starts, RunsStart, RunsCommands};
ghost use Rattle.wc_board.specs.Connections.{left_at, new_connection};
ghost use Rattle.wc_core.specs.Served.{Absent, links_of};
ghost use Rattle.wc_core.specs.Served.{AdmitsUnlessStarved};
ghost use Rattle.wc_core.specs.Served.{OutcomeUtf8};
ghost use Rattle.wc_core.specs.BoardSteps.{board_of, StepsBy};
ghost use Rattle.wc_core.specs.Inputs.{AnswersRequestOf};
ghost use Rattle.wc_world.specs.Handles.{skip_world};

use crate::beginning::Beginning;
use crate::command_names::CommandNames;
use crate::limits::{first_handle, most_lines};
use std::alloc::Global;
use std::marker::Model;
use std::mem;
use wc_board::Board;
use wc_hotlist::Hotlist;
use wc_options::Options;
use wc_relaycmd::{Request, read_request};
use wc_rules::Rules;
use wc_servers::Servers;
use wc_session::{Outcome, RequestContext};
use wc_text::{Arrival, Cause, Handle, LinkId, NoMemory, Text};

/// The core buffer.
const CORE: Handle = Handle(1);

/// The engine between the loop and the board: the options, the moment, and what is typed.
#[derive(Drop)]
pub struct Core {
    pub(crate) alloc: Global,
    pub(crate) options: Options,
    pub(crate) board: Board,
    pub(crate) servers: Servers,
    /// The texts that were judged as patterns, and the filters.
    pub(crate) rules: Rules,
    pub(crate) moment: u64,
    commands: Vec<String>,
    /// The text of the options that was saved last, and whether the loop is still to write it.
    pub(crate) saved: Option<Text>,
    pub(crate) unwritten: bool,
    /// Which buffers had lines that were displayed.
    pub(crate) hotlist: Hotlist,
    /// Whether servers are connected by themselves at the start.
    pub(crate) connects: bool,
    pub(crate) starved: u64,
    /// How many inputs were cut short for want of memory.
    pub(crate) cuts: u64,
    pub(crate) quits: bool,
    /// What clients complete names of commands by.
    pub(crate) command_names: CommandNames,
}

impl Model for Core {
    ghost use Rattle.std.specs.Coded.{codes};
    ghost use Rattle.std.specs.FinMap as map;
    ghost use Rattle.std.specs.Prelude.{map as mapped, string_bytes};
    ghost use Rattle.wc_core.specs.CoreView.{CoreView};

    ghost Value = { CoreView };

    ghost coded = { Prim.hlevel (codes, map.code) };

    ghost view = { λ core. record {
      options = core.options;
      world = core.board.world;
      pending = core.board.pending;
      connections = core.board.connections;
      moment = core.moment;
      commands = mapped string_bytes core.commands.items;
      saved = core.saved;
      unwritten = core.unwritten;
      hotlist = core.hotlist;
      filters = core.rules.filters;
      servers = core.servers;
      verdicts = core.rules.verdicts;
      connects = core.connects;
      starved = core.starved;
      cuts = core.cuts;
      quits = core.quits;
    } };
}

impl Core {
    /// A core without clients and with the core buffer alone, where these are the options. They
    /// say how many lines a buffer holds at most. The commands are run at the start.
    pub fn new(alloc: Global, options: Options, commands: Vec<String>) -> Result<Core, NoMemory>
        ensures means { IfOk result (λ core. (oracle : Oracle) → Means core
            (first_state oracle options (most_lines options) (map string_bytes commands.items))) }
        ensures fresh { IfOk result (λ core. (core.connections ≡ []) × (core.starved ≡ 0)
            × (core.quits ≡ false)) }
        ensures written { IfOk result (λ core. (core.unwritten ≡ false) × (core.saved ≡ None)) }
        ensures servers { IfOk result (λ core. core.servers ≡ no_servers) }
        ensures unjudged { IfOk result (λ core. core.verdicts.rows ≡ []) }
        ensures uncut { IfOk result (λ core. core.cuts ≡ 0) }
    {
        let made = Beginning::new(alloc, most_lines(&options))?;
        let Beginning {
            board,
            rules,
            hotlist,
            command_names,
        } = made;
        Ok(Core {
            alloc,
            options,
            board,
            servers: Servers::new(alloc),
            rules,
            moment: 0,
            commands,
            saved: None,
            unwritten: false,
            hotlist,
            command_names,
            connects: true,
            starved: 0,
            cuts: 0,
            quits: false,
        })
    }

    /// Sets the starting moment, in milliseconds since 1970, and runs the commands of the start on
    /// the core buffer, in order and each as an input of its own, up to `/quit`. After them the
    /// servers whose option `autoconnect` is on are connected, unless that was held back. Where
    /// there are no commands and it was, nothing but the moment changes, and the next handle: where
    /// `relay.network.handles` is `fresh` it is the moment times 2^20 or more.
    pub fn start(&mut self, moment: u64)
        ensures does { Does self.old self.new (λ state. step state (Start moment)) }
        ensures each { Starts moment self.old self.new }
        ensures idle { self.old.commands ≡ [] → self.old.connects ≡ false →
            self.new ≡ record self.old {
              world = skip_world (first_handle self.old.options moment) self.old.world;
              moment = moment;
            } }
    {
        self.moment = moment;
        let handle = first_handle(&self.options, moment);
        self.board.skip_to(handle);
        let commands = mem::replace(&mut self.commands, Vec::new(self.alloc));
        let quit = mem::replace(&mut self.quits, false);
        self.run_start(commands.as_slice());
        self.quits |= quit;
    }

    /// Runs the commands of the start, and connects servers where they did not run `/quit`.
    fn run_start(&mut self, commands: &[String])
        requires { self.old.quits ≡ false }
        ensures does { Does self.old self.new
            (λ state. start_step state (map string_bytes commands.now)) }
        ensures each { RunsStart (map string_bytes commands.now) self.old self.new }
        ensures idle { map string_bytes commands.now ≡ [] → self.old.connects ≡ false →
            self.new ≡ self.old }
    {
        self.run_commands(commands);
        if self.quits {
            return;
        }
        self.connect_all();
    }

    /// Runs the commands of the start, where `/quit` was not run. Each is an input of its own: where
    /// one finds no memory, the next one is run.
    fn run_commands(&mut self, commands: &[String])
        requires { self.old.quits ≡ false }
        ensures does { Does self.old self.new
            (λ state. commands_step state (map string_bytes commands.now)) }
        ensures each { RunsCommands (map string_bytes commands.now) self.old self.new }
        ensures idle { map string_bytes commands.now ≡ [] → self.new ≡ self.old }
    {
        for command in commands {
            self.run_lines(CORE, command.as_str().as_bytes());
            if self.quits {
                return;
            }
        }
    }

    /// Sets the last moment, in milliseconds since 1970, and pushes what became of the nicklists.
    /// Where nothing of them was touched that takes no memory.
    pub fn tick(&mut self, moment: u64)
        ensures does { Does self.old self.new (λ state. step state (Tick moment)) }
        ensures stays { self.new ≡ record self.old {
          pending = self.new.pending;
          connections = self.new.connections;
          moment = moment;
          starved = self.new.starved;
        } }
        ensures idle { ((buffer : HandleValue) → touches_of buffer self.old.pending ≡ []) →
            self.new ≡ record self.old { pending = self.new.pending; moment = moment } }
        ensures contained { Contains self.old self.new (λ state. step state (Tick moment)) }
        ensures counted { Counts 0 self.old self.new }
        ensures drops { StepsBy None (board_of self.old) (board_of self.new) }
    {
        self.moment = moment;
        self.push();
    }

    /// Pushes what became of each nicklist since it was last pushed.
    fn push(&mut self)
        ensures does { Runs self.old self.new (λ state. push_step state) }
        ensures stays { self.new ≡ record self.old {
          pending = self.new.pending;
          connections = self.new.connections;
          starved = self.new.starved;
        } }
        ensures idle { ((buffer : HandleValue) → touches_of buffer self.old.pending ≡ []) →
            self.new ≡ record self.old { pending = self.new.pending } }
    {
        let before = self.board.open_count();
        let _to_all = self.board.push();
        self.count_dropped(before);
    }

    /// Counts an input that is cut short for want of memory.
    pub(crate) fn starve(&mut self)
        ensures counts { self.new ≡ record self.old {
          starved = min (self.old.starved + 1) (2 ^ 64 - 1);
          cuts = min (self.old.cuts + 1) (2 ^ 64 - 1);
        } }
        ensures rises { self.old.starved ≤ self.new.starved }
    {
        self.starved = self.starved.saturating_add(1);
        self.cut();
    }

    /// Counts an input that is cut short where its want of memory is counted otherwise.
    fn cut(&mut self)
        ensures { self.new ≡ record self.old { cuts = min (self.old.cuts + 1) (2 ^ 64 - 1) } }
    {
        self.cuts = self.cuts.saturating_add(1);
    }

    /// Counts so many clients that were dropped, or links that were refused, for want of memory.
    fn count_starved(&mut self, count: u64)
        ensures counts { self.new ≡ record self.old {
          starved = min (self.old.starved + count) (2 ^ 64 - 1);
        } }
        ensures rises { self.old.starved ≤ self.new.starved }
    {
        self.starved = self.starved.saturating_add(count);
    }

    /// Counts the clients that were dropped for want of memory since so many were open.
    pub(crate) fn count_dropped(&mut self, before: usize)
        requires { length (filter (λ connection. is_open connection) self.old.connections) ≤ before }
        ensures counts { self.new ≡ record self.old {
          starved =
              min (self.old.starved + (before
              - length (filter (λ connection. is_open connection) self.old.connections)))
              (2 ^ 64 - 1);
        } }
        ensures rises { self.old.starved ≤ self.new.starved }
    {
        let dropped = before - self.board.open_count();
        self.count_starved(dropped as u64);
    }

    /// Admits an arrival. It answers why where that is refused: as many clients as are allowed are
    /// open, or there is no memory. The link of a refused arrival is to be closed, and is no
    /// client.
    pub fn accepted(&mut self, arrival: Arrival) -> Option<Cause>
        ensures comes { Absent arrival.link.0 (links_of self.old) → (told : Beside) →
            AdmitsUnlessStarved told arrival.link.0 self.old self.new result
            (step (state_of self.old told) (Arrives arrival.link.0 arrival.nonce)) }
        ensures admitted { result ≡ None →
            self.new ≡ record self.old {
              connections = self.old.connections
                  ++ new_connection arrival.link arrival.nonce ∷ [];
              servers = used_up arrival.link.0 self.old.servers;
            } }
        ensures refused { IfSome result
            (λ cause. self.new ≡ record self.old {
              starved = starved_by cause self.old.starved;
              servers = used_up arrival.link.0 self.old.servers;
            }) }
        ensures cause { IfSome result (λ cause. (cause ≡ Cause.Surplus)
            ⊎ (cause ≡ Cause.NoMemory)) }
        ensures rises { self.old.starved ≤ self.new.starved }
        ensures counted { Counts (want_number result) self.old self.new }
    {
        self.servers.use_up(arrival.link);
        if self.is_full() {
            return Some(Cause::Surplus);
        }
        if self.board.admit(arrival).is_err() {
            self.count_starved(1);
            return Some(Cause::NoMemory);
        }
        None
    }

    /// Refuses an arrival for whose link there is no memory: its number is used, and that is
    /// counted.
    pub fn refuse_link(&mut self, link: LinkId)
        ensures counted { self.new ≡ record self.old {
          starved = min (self.old.starved + 1) (2 ^ 64 - 1);
          servers = used_up link.0 self.old.servers;
        } }
        ensures rises { self.old.starved ≤ self.new.starved }
    {
        self.servers.use_up(link);
        self.count_starved(1);
    }

    /// Serves a line of a link: that of an open client, where it is a request, or else that of a
    /// server, where it is a message. A client that finds no memory for its reply or an event leaves
    /// with that cause. A line of a client that is not UTF-8 or has no command's word takes no memory.
    pub fn relay_line(&mut self, link: LinkId, line: &[u8])
        ensures does { Does self.old self.new (λ state. step state (LineCame link.0 line.now)) }
        ensures contained { Contains self.old self.new
            (λ state. step state (LineCame link.0 line.now)) }
        ensures counted { Counts 0 self.old self.new }
        ensures drops { StepsBy (Some link.0) (board_of self.old) (board_of self.new) }
        ensures stray { is_open_at (at_key connection_link link.0 self.old.connections) ≡ true →
            ¬ (HasCommand line.now) → self.new ≡ self.old }
    {
        if self.board.is_open(link) {
            self.client_line(link, line);
            return;
        }
        self.server_line(link, line);
    }

    /// Serves a line of a client, where the client is open and the line is a request.
    fn client_line(&mut self, link: LinkId, line: &[u8])
        ensures does { RunsHere link.0 self.old self.new
            (λ state. line_step state line.now (at_key client_link link.0 state.clients)) }
        ensures stray { ¬ (HasCommand line.now) → self.new ≡ self.old }
    {
        if !self.board.is_open(link) {
            return;
        }
        let Some(session) = self.board.session(link) else {
            return;
        };
        match read_request(self.alloc, line, session.escaped()) {
            Ok(Some(request)) => self.ask(link, request),
            Ok(None) => {}
            Err(NoMemory) => self.lose_asker(link),
        }
    }

    /// Serves a request of a client that is open.
    fn ask(&mut self, link: LinkId, request: Request)
        requires opened { is_open_at (at_key connection_link link.0 self.old.connections) ≡ true }
        requires text { RequestIsUtf8 request }
        ensures { IfSome (at_key connection_link link.0 self.old.connections)
            (λ connection. RunsFor (Some link.0) self.old self.new
            (λ state. request_step state connection.session.client (Some request))) }
    {
        let outcome = self.answer(link, request);
        self.follow(link, outcome);
    }

    /// Answers a request of a client that is open. A client that finds no memory for what is pushed
    /// before is counted.
    fn answer(&mut self, link: LinkId, request: Request) -> Outcome
        requires opened { is_open_at (at_key connection_link link.0 self.old.connections) ≡ true }
        requires text { RequestIsUtf8 request }
        ensures { AnswersRequestOf link.0 request result self.old self.new }
    {
        let before = self.board.open_count();
        let context = RequestContext {
            options: &self.options,
            hotlist: &self.hotlist,
            commands: self.command_names.as_slice(),
        };
        let outcome = self.board.request(context, link, request);
        self.count_dropped(before);
        outcome
    }

    /// Does what an answer asks, after its messages.
    fn follow(&mut self, link: LinkId, outcome: Outcome)
        requires opened { OnServed outcome
            (is_open_at (at_key connection_link link.0 self.old.connections) ≡ true) }
        requires text { OutcomeUtf8 outcome }
        ensures does { OnServed outcome
            (RunsFor (Some link.0) self.old self.new
            (λ state. outcome_step state link.0 outcome)) }
        ensures refused { OnNoMemory outcome (LosesAsker link.0 self.old self.new) }
        ensures rises { self.old.starved ≤ self.new.starved }
    {
        match outcome {
            Outcome::Replied | Outcome::Silent => {}
            Outcome::Input { buffer, text } => self.run_input(buffer, text.as_slice()),
            Outcome::Leave(cause) => self.lose_client(link, cause),
            Outcome::NoMemory => self.lose_asker(link),
        }
    }

    /// Has the client of a link leave that found no memory for what it asked, where it is open. What
    /// it asked is cut short.
    fn lose_asker(&mut self, link: LinkId)
        ensures loses { LosesAsker link.0 self.old self.new }
        ensures rises { self.old.starved ≤ self.new.starved }
    {
        if self.board.is_open(link) {
            self.lose_client(link, Cause::NoMemory);
        }
        self.cut();
    }

    /// Serves the loss of a link for this cause: its client, if it is open, is leaving, or else its
    /// server. The cause NoMemory counts as want of memory.
    pub fn link_gone(&mut self, link: LinkId, cause: Cause)
        ensures does { Does self.old self.new
            (λ state. link_loss_step state link.0 cause (at_key client_link link.0 state.clients)) }
        ensures gone { is_open_at (at_key connection_link link.0 self.new.connections) ≡ false }
        ensures stays { ChangesServers self.old self.new }
        ensures servers { LosesServer
            (is_open_at (at_key connection_link link.0 self.old.connections)) link.0 cause
            self.old.servers self.new.servers }
        ensures leaves { open_in (at_key seat_link link.0 self.old.servers.seats) ≡ None →
            self.new ≡ record self.old {
              connections =
                  left_at link.0 cause self.old.connections
                  (at_key connection_link link.0 self.old.connections);
              starved = self.new.starved;
            } }
        ensures counted { cause ≡ Cause.NoMemory → self.old.starved < 2 ^ 64 - 1 →
            self.old.starved < self.new.starved }
        ensures starved { open_in (at_key seat_link link.0 self.old.servers.seats) ≡ None →
            cause ≢ Cause.NoMemory → self.new.starved ≡ self.old.starved }
        ensures starves { open_in (at_key seat_link link.0 self.old.servers.seats) ≡ None →
            cause ≡ Cause.NoMemory → self.new.starved ≡ min (self.old.starved + 1)
            (2 ^ 64 - 1) }
        ensures contained { Contains self.old self.new
            (λ state. link_loss_step state link.0 cause (at_key client_link link.0 state.clients)) }
        ensures counts { Counts (lost_number
            (is_open_at (at_key connection_link link.0 self.old.connections)) cause)
            self.old self.new }
        ensures drops { StepsBy (Some link.0) (board_of self.old) (board_of self.new) }
    {
        if self.board.is_open(link) {
            self.lose_client(link, cause);
            return;
        }
        self.lose_server(link, cause);
        self.count_refusal(cause);
    }

    /// Has the open client of a link leave for this cause. Want of memory is counted.
    fn lose_client(&mut self, link: LinkId, cause: Cause)
        requires { is_open_at (at_key connection_link link.0 self.old.connections) ≡ true }
        ensures leaves { self.new ≡ record self.old {
          connections =
              left_at link.0 cause self.old.connections
              (at_key connection_link link.0 self.old.connections);
          starved = starved_by cause self.old.starved;
        } }
        ensures rises { self.old.starved ≤ self.new.starved }
        ensures gone { is_open_at (at_key connection_link link.0 self.new.connections) ≡ false }
    {
        self.board.retire(link, cause);
        self.count_refusal(cause);
    }

    /// Counts the loss of a client or of another link, where its cause is want of memory.
    fn count_refusal(&mut self, cause: Cause)
        ensures counts { self.new ≡ record self.old { starved = starved_by cause self.old.starved } }
        ensures rises { self.old.starved ≤ self.new.starved }
    {
        if cause == Cause::NoMemory {
            self.count_starved(1);
        }
    }
}
