//! What is typed for servers.

ghost use Rattle.std.specs.Option.{option_copied};
ghost use Rattle.std.specs.Prelude.{◌≡◌, ◌≢◌, ◌++◌, true, ℕ, List, IfOk, IfErr, Some, option_map};
ghost use Rattle.std.specs.List.{All};
ghost use Rattle.std.specs.Str.{IsUtf8};
ghost use Rattle.wc_core.specs.Resolved.{option_text};
ghost use Rattle.wc_core.specs.Contained.{Runs};
ghost use Rattle.wc_core.specs.Served.{plain_beside, state_of};
ghost use Rattle.wc_core.specs.ServerSteps.{say_step, server_of, server_acts_step};
ghost use Rattle.wc_core.specs.ServerTyped.{settings_step, delete_step, unlinked_text};
ghost use Rattle.wc_core.specs.ServerTyped.{disconnect_step, meant_server, on_buffer_step};
ghost use Rattle.wc_core.specs.ServerTyped.{is_linked, served_step, served_line_step, acts_in};
ghost use Rattle.wc_core.specs.ServerTyped.{HasTextValue};
ghost use Rattle.wc_core.specs.State.{State, Stepped};
ghost use Rattle.wc_core.specs.Step.{refusal_step};
ghost use Rattle.wc_options.specs.Options.{has_server};
ghost use Rattle.wc_servers.specs.Seats.{seat_of};
ghost use Rattle.wc_irc.specs.ServerOptions.{settings_of, delete_refusal};
ghost use Rattle.wc_irc_texts.specs.Texts.{in_one_line};
ghost use Rattle.wc_irc_words.specs.Typed.{asked_of};
ghost use Rattle.wc_irc_words.specs.TypedSeen.{meaning};

use crate::core_state::Core;
use crate::refusals::{joined_texts, option_text};
use std::alloc::Global;
use wc_irc::{Act, delete_refusal, on_command_unlinked, server_settings};
use wc_irc_texts::in_one_line;
use wc_irc_words::{ServerCommand, read_server_command};
use wc_options::{Options, SetRefused};
use wc_servers::Seat;
use wc_text::{Handle, Items, LinkId, NoMemory, Pair, Text};

/// The number of no link.
const NO_LINK: LinkId = LinkId(0);

/// Why a server that is named has no link.
fn unlinked_text(alloc: Global, options: &Options, name: Option<&[u8]>) -> Result<Text, NoMemory>
    ensures { IfOk result (λ text. text ≡ unlinked_text options.now (option_copied name.entry)) }
{
    match name {
        Some(name) if !has_server(options, name) => {
            joined_texts(alloc, b"irc: no such server: ", name)
        }
        _ => Text::from_slice(alloc, b"irc: not connected"),
    }
}

fn has_server(options: &Options, name: &[u8]) -> bool
    ensures { result ≡ has_server name.now options.now.servers }
{
    for server in options.servers() {
        if server.as_slice() == name {
            return true;
        }
    }
    false
}

impl Core {
    /// Does what a line asks for that is typed into a buffer, and that the core does not know by
    /// itself. Where servers do not either, a refusal whose text is these two is told. CR and NUL
    /// are taken out before it is read.
    pub(crate) fn serve_line(&mut self, buffer: Handle, line: &[u8], front: &[u8], name: &[u8])
        requires line { IsUtf8 line.now }
        requires text { IsUtf8 (front.now ++ name.now) }
        ensures { Runs self.old self.new
            (λ state. served_line_step state buffer line.now (front.now ++ name.now)) }
    {
        let Ok(asked) = in_one_line(self.alloc, line) else {
            self.starve();
            return;
        };
        match read_server_command(asked.as_slice()) {
            Some(command) => self.serve_command(buffer, line, command),
            None => self.refuse(front, name),
        }
    }

    /// Tells a refusal whose text is these two.
    pub(crate) fn refuse(&mut self, front: &[u8], name: &[u8])
        requires { IsUtf8 (front.now ++ name.now) }
        ensures { Runs self.old self.new
            (λ state. refusal_step state (front.now ++ name.now)) }
    {
        match joined_texts(self.alloc, front, name) {
            Ok(text) => self.tell_refusal(text),
            Err(NoMemory) => self.starve(),
        }
    }

    /// Does what a command asks for that is typed into a buffer.
    fn serve_command(&mut self, buffer: Handle, line: &[u8], command: ServerCommand<'_>)
        requires line { IsUtf8 line.now }
        requires asked { asked_of (in_one_line line.now) ≡ Some (meaning command) }
        ensures { (text : List ℕ) → Runs self.old self.new
            (λ state. served_step state buffer line.now text (Some (meaning command.entry))) }
    {
        match command {
            ServerCommand::AddServer { name, address, tls } => self.add_server(name, address, tls),
            ServerCommand::DeleteServer(name) => self.delete_server(name),
            ServerCommand::Connect(name) => self.connect(name),
            ServerCommand::Disconnect(name) => self.disconnect(buffer, name),
            ServerCommand::Join(_)
            | ServerCommand::Part(_)
            | ServerCommand::Say { target: _, text: _ }
            | ServerCommand::Notice { target: _, text: _ }
            | ServerCommand::Query(_)
            | ServerCommand::Act(_)
            | ServerCommand::Nick(_)
            | ServerCommand::Topic(_)
            | ServerCommand::Kick { nick: _, reason: _ }
            | ServerCommand::Mode(_)
            | ServerCommand::Names
            | ServerCommand::Bid(_, _)
            | ServerCommand::Quote(_)
            | ServerCommand::Talk(_)
            | ServerCommand::Wrong(_) => self.serve_buffer(buffer, line),
        }
    }

    /// Sets the options of a server that is added, up to one that is refused.
    fn add_server(&mut self, name: &[u8], address: &[u8], tls: Option<bool>)
        requires { IsUtf8 address.now }
        ensures { Runs self.old self.new
            (λ state. settings_step state (settings_of name.now address.now tls)) }
    {
        match server_settings(self.alloc, name, address, tls) {
            Ok(settings) => self.set_each(settings.as_slice()),
            Err(NoMemory) => self.starve(),
        }
    }

    /// Gives options values, one after another, up to one that is refused.
    fn set_each(&mut self, settings: &[Pair])
        requires { All HasTextValue settings.now }
        ensures { Runs self.old self.new (λ state. settings_step state settings.now) }
    {
        for setting in settings {
            match self.options.set(self.alloc, &setting.name, &setting.value) {
                Ok(_) => {}
                Err(refused) => {
                    self.refuse_setting(&setting.name, &refused);
                    return;
                }
            }
        }
    }

    /// Tells why an option does not get a value, and counts want of memory.
    fn refuse_setting(&mut self, name: &Text, refused: &SetRefused)
        ensures told { refused.now ≢ SetRefused.NoMemory → Runs self.old self.new
            (λ state. say_step state (option_text name.now refused.now)) }
        ensures starves { refused.now ≡ SetRefused.NoMemory → (step : State → Stepped) →
            Runs self.old self.new step }
    {
        match refused {
            SetRefused::NoMemory => self.starve(),
            _ => self.say_setting(name, refused),
        }
    }

    fn say_setting(&mut self, name: &Text, refused: &SetRefused)
        ensures { Runs self.old self.new
            (λ state. say_step state (option_text name.now refused.now)) }
    {
        match option_text(self.alloc, name.as_slice(), refused) {
            Ok(text) => self.say(text),
            Err(NoMemory) => self.starve(),
        }
    }

    /// Deletes a server, or tells why it is refused.
    fn delete_server(&mut self, name: &[u8])
        ensures { Runs self.old self.new (λ state. delete_step state name.now
            (delete_refusal state.options (is_linked state name.now) name.now)) }
    {
        let is_linked = self.servers.named(name).is_some();
        match delete_refusal(self.alloc, &self.options, is_linked, name) {
            Ok(Some(text)) => self.say(text),
            Ok(None) => {
                let _found = self.options.del_server(name);
            }
            Err(NoMemory) => self.starve(),
        }
    }

    /// Ends the connection of the server that is named, or else of that of the buffer.
    fn disconnect(&mut self, buffer: Handle, name: Option<&[u8]>)
        ensures { Runs self.old self.new
            (λ state. disconnect_step state buffer (option_copied name.entry)) }
    {
        match self.meant_server(buffer, name) {
            Some(seat) => {
                let link = seat.link();
                let acts = seat.server().on_disconnect(self.alloc);
                self.run_found(link, acts);
            }
            None => self.refuse_unlinked(name),
        }
    }

    /// The server that is named, or else that of the buffer, where it is not leaving.
    fn meant_server(&self, buffer: Handle, name: Option<&[u8]>) -> Option<&Seat>
        ensures { option_map seat_of (option_copied result)
            ≡ meant_server (state_of self.now (plain_beside self.now)) buffer
            (option_copied name.entry) }
    {
        match name {
            Some(name) => self.servers.named(name),
            None => self.server_at(buffer),
        }
    }

    fn refuse_unlinked(&mut self, name: Option<&[u8]>)
        ensures { Runs self.old self.new (λ state. say_step state
            (unlinked_text state.options (option_copied name.entry))) }
    {
        match unlinked_text(self.alloc, &self.options, name) {
            Ok(text) => self.say(text),
            Err(NoMemory) => self.starve(),
        }
    }

    /// Runs the acts of a command, where memory was found for them.
    fn run_found(&mut self, link: LinkId, acts: Result<Items<Act>, NoMemory>)
        ensures found { IfOk acts (λ acts. Runs self.old self.new
            (λ state. server_acts_step true link.0 state acts)) }
        ensures starves { IfErr acts (λ e. (step : State → Stepped) → Runs self.old self.new step) }
    {
        match acts {
            Ok(acts) => self.run_server_acts(link, acts, true),
            Err(NoMemory) => self.starve(),
        }
    }

    /// Does what a text asks of the server of a buffer.
    fn serve_buffer(&mut self, buffer: Handle, line: &[u8])
        requires { IsUtf8 line.now }
        ensures { Runs self.old self.new
            (λ state. on_buffer_step state buffer line.now (server_of state buffer)) }
    {
        let buffers = self.board.world().buffers();
        match self.server_at(buffer) {
            Some(seat) => {
                let link = seat.link();
                let acts = seat.server().on_command(self.alloc, buffers, buffer, line);
                self.run_typed(link, acts);
            }
            None => {
                let acts = on_command_unlinked(self.alloc, buffers, buffer, line);
                self.run_typed(NO_LINK, acts);
            }
        }
    }

    /// Runs the acts of a text, where memory was found for them.
    fn run_typed(&mut self, link: LinkId, acts: Result<Option<Items<Act>>, NoMemory>)
        ensures found { IfOk acts (λ acts. Runs self.old self.new
            (λ state. server_acts_step true link.0 state (acts_in acts))) }
        ensures starves { IfErr acts (λ e. (step : State → Stepped) → Runs self.old self.new step) }
    {
        match acts {
            Ok(Some(acts)) => self.run_server_acts(link, acts, true),
            Ok(None) => {}
            Err(NoMemory) => self.starve(),
        }
    }
}
