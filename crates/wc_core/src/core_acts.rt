//! The acts that servers ask for, one by one.

ghost use Rattle.std.specs.Prelude.{◌≡◌, ◌≢◌, true, false};
ghost use Rattle.wc_core.specs.Resolved.{change_of, null};
ghost use Rattle.wc_core.specs.Contained.{Runs};
ghost use Rattle.wc_core.specs.Served.{ChangesBuffers, ChangesServers};
ghost use Rattle.wc_core.specs.ServerSteps.{own_date, own_usec};
ghost use Rattle.wc_core.specs.ServerSteps.{dated, say_step, told_step_if, try_step, on_step};
ghost use Rattle.wc_core.specs.ServerSteps.{send_step, act_step};
ghost use Rattle.wc_core.specs.ServerSteps.{acts_step, leave_in, loss_step_if, server_acts_step};
ghost use Rattle.wc_outside.specs.Keyed.{at_key};
ghost use Rattle.wc_buffers.specs.Calls.{handle_of_name};
ghost use Rattle.wc_core.specs.Step.{change_step_if, refused};
ghost use Rattle.wc_model.specs.declared.change.What.TheVariants as what;
ghost use Rattle.wc_world.specs.Texts.{IsChangeText};
ghost use Rattle.wc_servers.specs.Seats.{server_link, seat_link, is_open_at};

use crate::core_state::Core;
use crate::refusals::refusal_text;
use crate::resolve::usec_of;
use wc_buffers::BufferSpec;
use wc_irc::Act;
use wc_model::{Change, LineSpec, What};
use wc_servers::{is_change_text, is_utf8};
use wc_text::{Cause, Handle, Items, LinkId, NoMemory, Text};

/// The handle of no buffer, which a change has that adds one or is of no one buffer.
pub(crate) const NULL: Handle = Handle(0);

/// The date of a line, in seconds since 1970: its own, or this moment where it has none.
fn own_date(moment: u64, line: &LineSpec) -> u64
    ensures { result ≡ own_date moment line.now }
{
    if line.date == 0 {
        moment / 1000
    } else {
        line.date
    }
}

/// The microseconds of the date of a line.
fn own_usec(moment: u64, line: &LineSpec) -> u32
    ensures { result ≡ own_usec moment line.now }
{
    if line.date == 0 {
        usec_of(moment)
    } else {
        line.usec
    }
}

/// What is to be done at this moment, in milliseconds since 1970: a line is printed at it, and has it
/// as its date where it has none.
fn dated(moment: u64, what: What) -> What
    ensures { result ≡ dated moment what }
{
    match what {
        What::Print(mut line) => {
            let date = own_date(moment, &line);
            line.usec = own_usec(moment, &line);
            line.date = date;
            line.date_printed = moment / 1000;
            line.usec_printed = usec_of(moment);
            What::Print(line)
        }
        other => other,
    }
}

/// The cause of the loss that acts ask for, if they do.
fn leave_in(acts: &[Act]) -> Option<Cause>
    ensures { result ≡ leave_in acts.now }
{
    let mut rest = acts;
    while let [act, others @ ..] = rest {
        if let Act::Leave(cause) = act {
            return Some(*cause);
        }
        rest = others;
    }
    None
}

impl Core {
    /// Runs the acts that the server of a link asks for, one by one, and then its loss, where they
    /// ask for it. Refusals are told where the acts follow of a command. Where memory is refused
    /// the others are skipped.
    pub(crate) fn run_server_acts(&mut self, link: LinkId, acts: Items<Act>, tells: bool)
        ensures { Runs self.old self.new (λ state. server_acts_step tells link.0 state acts) }
    {
        let cause = leave_in(acts.as_slice());
        let cuts = self.cuts;
        self.run_acts(link, acts, tells);
        if self.cuts != cuts {
            return;
        }
        self.lose_if(link, cause);
    }

    /// Has the server of a link leave, where there is a cause.
    fn lose_if(&mut self, link: LinkId, cause: Option<Cause>)
        ensures { Runs self.old self.new (λ state. loss_step_if link.0 state cause) }
    {
        if let Some(cause) = cause {
            self.lose_server(link, cause);
        }
    }

    /// Runs acts one by one. Where memory is refused the others are skipped.
    pub(crate) fn run_acts(&mut self, link: LinkId, acts: Items<Act>, tells: bool)
        ensures does { Runs self.old self.new (λ state. acts_step tells link.0 state acts) }
        ensures stays { ChangesServers self.old self.new }
        ensures shut { is_open_at (at_key seat_link link.0 self.old.servers.seats) ≡ false →
            self.new.servers ≡ self.old.servers }
    {
        self.run_each(link, acts.into_vec(), tells);
    }

    fn run_each(&mut self, link: LinkId, acts: Vec<Act>, tells: bool)
        ensures does { Runs self.old self.new
            (λ state. acts_step tells link.0 state acts.items) }
        ensures stays { ChangesServers self.old self.new }
        ensures shut { is_open_at (at_key seat_link link.0 self.old.servers.seats) ≡ false →
            self.new.servers ≡ self.old.servers }
    {
        for act in acts {
            if self.run_one(link, act, tells) {
                return;
            }
        }
    }

    /// Runs an act. It answers whether it was cut short.
    fn run_one(&mut self, link: LinkId, act: Act, tells: bool) -> bool
        ensures does { Runs self.old self.new (λ state. act_step tells link.0 state act) }
        ensures cut { result ≡ true → self.new.cuts ≢ self.old.cuts }
        ensures uncut { result ≡ false → self.new.cuts ≡ self.old.cuts }
        ensures stays { ChangesServers self.old self.new }
        ensures shut { is_open_at (at_key seat_link link.0 self.old.servers.seats) ≡ false →
            self.new.servers ≡ self.old.servers }
    {
        let cuts = self.cuts;
        self.run_act(link, act, tells);
        self.cuts != cuts
    }

    fn run_act(&mut self, link: LinkId, act: Act, tells: bool)
        ensures does { Runs self.old self.new (λ state. act_step tells link.0 state act) }
        ensures stays { ChangesServers self.old self.new }
        ensures shut { is_open_at (at_key seat_link link.0 self.old.servers.seats) ≡ false →
            self.new.servers ≡ self.old.servers }
    {
        match act {
            Act::Open(spec) => self.open(spec, tells),
            Act::On { full_name, what } => self.change_named(&full_name, what, tells),
            Act::Send(line) => self.send(link, &line),
            Act::Raise {
                signal: _,
                payload: _,
            } => {}
            Act::Leave(_) => {}
        }
    }

    /// Opens a buffer.
    pub(crate) fn open(&mut self, spec: BufferSpec, tells: bool)
        ensures does { Runs self.old self.new
            (λ state. try_step tells state (change_of null (what.Add spec))) }
        ensures stays { ChangesBuffers self.old self.new }
    {
        let change = Change {
            buffer: NULL,
            what: What::Add(spec),
        };
        self.try_change(change, tells);
    }

    /// Changes the buffer of this full name, where it is there.
    fn change_named(&mut self, full_name: &Text, what: What, tells: bool)
        ensures does { Runs self.old self.new
            (λ state. on_step tells state what (handle_of_name full_name.now state.world.groups)) }
        ensures stays { ChangesBuffers self.old self.new }
    {
        let what = dated(self.moment, what);
        match self.board.world().buffers().find(full_name.as_slice()) {
            Some(buffer) => self.try_change(Change { buffer, what }, tells),
            None => drop(what),
        }
    }

    /// Makes a change whose texts are UTF-8, and of which a limit of lines is one that there may be. A
    /// refusal is told or passed over.
    fn try_change(&mut self, change: Change, tells: bool)
        ensures does { Runs self.old self.new (λ state. try_step tells state change) }
        ensures stays { ChangesBuffers self.old self.new }
    {
        if !is_change_text(&change.what) {
            drop(change);
            return;
        }
        if tells {
            self.tell_change(change);
        } else {
            self.make_change(change);
        }
    }

    /// Makes a change, or tells why it is refused.
    fn tell_change(&mut self, change: Change)
        requires { IsChangeText change.what }
        ensures does { Runs self.old self.new
            (λ state. told_step_if state change (refused state change)) }
        ensures stays { ChangesBuffers self.old self.new }
    {
        let Some(reason) = self.change(change) else {
            return;
        };
        match refusal_text(self.alloc, &reason) {
            Ok(text) => self.say(text),
            Err(NoMemory) => self.starve(),
        }
    }

    /// Tells a refusal, where it is UTF-8.
    pub(crate) fn say(&mut self, text: Text)
        ensures does { Runs self.old self.new (λ state. say_step state text) }
        ensures stays { ChangesBuffers self.old self.new }
    {
        if !is_utf8(text.as_slice()) {
            return;
        }
        self.tell_refusal(text);
    }

    /// Makes a change, or passes it over where it is refused.
    pub(crate) fn make_change(&mut self, change: Change)
        requires { IsChangeText change.what }
        ensures does { Runs self.old self.new
            (λ state. change_step_if state change (refused state change)) }
        ensures stays { ChangesBuffers self.old self.new }
    {
        let _refused = self.change(change);
    }

    /// Puts a line with its end after the unsent bytes of the server of a link, where it is not
    /// leaving.
    fn send(&mut self, link: LinkId, line: &Text)
        ensures does { Runs self.old self.new (λ state. send_step state link.0 line.now
            (at_key server_link link.0 state.servers)) }
        ensures stays { ChangesServers self.old self.new }
        ensures shut { is_open_at (at_key seat_link link.0 self.old.servers.seats) ≡ false →
            self.new.servers ≡ self.old.servers }
    {
        let _seats = self.servers.seats();
        match self.servers.tell(link, line.as_slice()) {
            Ok(()) => {}
            Err(NoMemory) => self.starve(),
        }
    }
}
