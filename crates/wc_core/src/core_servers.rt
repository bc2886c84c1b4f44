//! The servers of the core: their lines, their loss, and what they are told before an end.

ghost use Rattle.std.specs.Option.{option_copied};
ghost use Rattle.std.specs.Prelude.{◌≡◌, None, option_map};
ghost use Rattle.wc_ircmsg.specs.Utf8.{MessageIsUtf8};
ghost use Rattle.wc_core.specs.Inputs.{taken_at};
ghost use Rattle.wc_outside.specs.Keyed.{at_key};
ghost use Rattle.wc_core.specs.Events.{Stands};
ghost use Rattle.wc_core.specs.BoardSteps.{board_of, StepsBy};
ghost use Rattle.wc_core.specs.Contained.{Runs, Contains, Counts};
ghost use Rattle.wc_core.specs.Served.{Does, ChangesServers, plain_beside, state_of};
ghost use Rattle.wc_core.specs.ServersKept.{LeavesAt};
ghost use Rattle.wc_core.specs.ServerSteps.{server_line_step, server_loss_step, before_step};
ghost use Rattle.wc_core.specs.ServerSteps.{parting_step, server_of, quit_step};
ghost use Rattle.wc_core.specs.Step.{step, ask_step, then_does};
ghost use Rattle.wc_core.specs.Texts.{WhatUtf8};
ghost use Rattle.wc_servers.specs.Seats.{seat_of, seat_link, server_link, open_in};

use crate::core_state::Core;
use wc_ircmsg::{LineRefused, Message, read_line};
use wc_model::{Change, What};
use wc_servers::Seat;
use wc_text::{Cause, Handle, LinkId, NoMemory};

impl Core {
    /// Serves that the link of a server stands, which then is told who comes.
    pub fn link_stands(&mut self, link: LinkId)
        ensures does { Does self.old self.new (λ state. step state (Stands link.0)) }
        ensures contained { Contains self.old self.new (λ state. step state (Stands link.0)) }
        ensures counted { Counts 0 self.old self.new }
        ensures drops { StepsBy None (board_of self.old) (board_of self.new) }
    {
        let _seats = self.servers.seats();
        match self.servers.stand(link) {
            Ok(acts) => self.run_server_acts(link, acts, false),
            Err(NoMemory) => self.starve(),
        }
    }

    /// Serves a line of a server, where it is a message. What is none is passed over.
    pub(crate) fn server_line(&mut self, link: LinkId, line: &[u8])
        ensures { Runs self.old self.new (λ state. server_line_step state link.0 line.now
            (at_key server_link link.0 state.servers)) }
    {
        let _seats = self.servers.seats();
        if self.servers.open_at(link).is_none() {
            return;
        }
        match read_line(self.alloc, line) {
            Ok(message) => self.take_message(link, &message),
            Err(LineRefused::NoMemory) => self.starve(),
            Err(LineRefused::Empty) => {}
            Err(LineRefused::BadCommand { place: _ }) => {}
        }
    }

    fn take_message(&mut self, link: LinkId, message: &Message)
        requires { MessageIsUtf8 message.now }
        ensures { Runs self.old self.new (λ state. taken_at state link.0 message.now
            (at_key server_link link.0 state.servers)) }
    {
        let _seats = self.servers.seats();
        let buffers = self.board.world().buffers();
        match self.servers.take(link, buffers, message) {
            Ok(acts) => self.run_server_acts(link, acts, false),
            Err(NoMemory) => self.starve(),
        }
    }

    /// Has the server of a link leave for this cause, where it is not leaving, and does what follows
    /// of its loss.
    pub(crate) fn lose_server(&mut self, link: LinkId, cause: Cause)
        ensures does { Runs self.old self.new (λ state. server_loss_step link.0 cause state
            (at_key server_link link.0 state.servers)) }
        ensures stays { ChangesServers self.old self.new }
        ensures leaves { LeavesAt link.0 cause self.old.servers self.new.servers
            (at_key seat_link link.0 self.old.servers.seats) }
        ensures idle { open_in (at_key seat_link link.0 self.old.servers.seats) ≡ None →
            self.new ≡ self.old }
    {
        let _seats = self.servers.seats();
        if self.servers.open_at(link).is_none() {
            return;
        }
        let buffers = self.board.world().buffers();
        match self.servers.lose(link, cause, buffers) {
            Ok(acts) => self.run_acts(link, acts, false),
            Err(NoMemory) => self.starve(),
        }
    }

    /// Makes a change, or tells why it is refused. Before the buffer of a joined channel is closed
    /// the channel is left.
    pub(crate) fn ask_after_part(&mut self, change: Change)
        requires { WhatUtf8 change.what }
        ensures { Runs self.old self.new (λ state. then_does (before_step state change)
            (λ next. ask_step next change)) }
    {
        let cuts = self.cuts;
        self.part_before(&change);
        if self.cuts != cuts {
            drop(change);
            return;
        }
        self.ask_change(change);
    }

    fn part_before(&mut self, change: &Change)
        ensures { Runs self.old self.new (λ state. before_step state change.now) }
    {
        if matches!(change.what, What::Close) {
            self.part(change.buffer);
        }
    }

    /// Leaves the channel of a buffer.
    fn part(&mut self, buffer: Handle)
        ensures { Runs self.old self.new
            (λ state. parting_step state buffer (server_of state buffer)) }
    {
        let buffers = self.board.world().buffers();
        let Some(seat) = self.server_at(buffer) else {
            return;
        };
        let link = seat.link();
        match seat.server().before_close(self.alloc, buffers, buffer) {
            Ok(acts) => self.run_acts(link, acts, false),
            Err(NoMemory) => self.starve(),
        }
    }

    /// The server of a buffer, which its variable names, where it is not leaving.
    pub(crate) fn server_at(&self, buffer: Handle) -> Option<&Seat>
        ensures { option_map seat_of (option_copied result)
            ≡ server_of (state_of self.now (plain_beside self.now)) buffer }
    {
        let vars = self.board.world().buffers().vars(buffer)?;
        let name = vars.get(b"server")?;
        self.servers.named(name.as_slice())
    }

    /// Tells each server whose link stands that the run ends, which then is to end. It ends also
    /// where memory is refused.
    pub(crate) fn quit(&mut self)
        ensures { Runs self.old self.new (λ state. quit_step state) }
    {
        let _seats = self.servers.seats();
        let told = self.servers.quit();
        self.quits = true;
        if !told {
            self.starve();
        }
    }
}
