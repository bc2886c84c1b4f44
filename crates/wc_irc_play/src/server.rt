//! A server, and what follows of its messages.

ghost use Rattle.std.specs.Prelude.{IfOk};
ghost use Rattle.wc_ircmsg.specs.Utf8.{MessageIsUtf8};

use crate::acts::put_result;
use crate::commands::commands_answer;
use crate::marks::put_mark;
use crate::nicks::put_all;
use crate::options::options_answer;
use crate::rows::put_features;
use crate::sheet::Sheet;
use crate::stage::Stage;
use std::alloc::Global;
use wc_buffers::Buffers;
use wc_irc::{Channel, Server, ServerRefused};
use wc_ircmsg::{LineRefused, Message, read_line};
use wc_notation::{Wrong, unescape};
use wc_text::{Address, NoMemory, Text};

/// A server that was begun, where there is one, with what it looks at.
#[derive(Drop)]
pub struct Scene {
    stage: Stage,
    server: Option<Server>,
}

fn put_address(out: &mut Sheet, address: Address) {
    let written = write!(out.text, " at {:08x}/{}", address.ip, address.port);
    out.note(written);
}

fn put_server(out: &mut Sheet, server: &Server) {
    out.put_named("now", server.nick().as_slice());
    out.put(if server.is_registered() {
        " registered"
    } else {
        " not registered"
    });
}

fn put_told(out: &mut Sheet, server: &Server) {
    out.put_named("server", server.name().as_slice());
    put_address(out, server.address());
    out.put(" ");
    put_features(out, server.features());
}

fn put_refused(out: &mut Sheet, refused: ServerRefused) {
    let written = write!(out.text, "refused: {refused}");
    out.note(written);
}

fn put_channel(out: &mut Sheet, channel: &Channel) {
    out.put_named("on", channel.name.as_slice());
    out.put(" ");
    put_all(out, &channel.nicks);
    out.put("\n");
}

fn put_channels(out: &mut Sheet, channels: &[Channel]) {
    for channel in channels {
        put_channel(out, channel);
    }
}

/// Takes in a message, and writes what follows.
fn heard(alloc: Global, server: &mut Server, buffers: &Buffers, message: &Message, out: &mut Sheet)
    requires { MessageIsUtf8 message.now }
{
    put_result(out, server.on_message(alloc, buffers, message));
    put_server(out, server);
}

fn read(alloc: Global, line: &Text) -> Result<Message, Wrong>
    ensures { IfOk result MessageIsUtf8 }
{
    match read_line(alloc, line.as_slice()) {
        Ok(message) => Ok(message),
        Err(LineRefused::NoMemory) => Err(Wrong::NoMemory),
        Err(_) => Err(Wrong::Unformed),
    }
}

impl Scene {
    /// No server, and nothing that it looks at.
    pub fn new(alloc: Global) -> Result<Scene, NoMemory> {
        let stage = Stage::new(alloc)?;
        Ok(Scene {
            stage,
            server: None,
        })
    }

    /// Begins a server in place of the one before.
    fn begin(&mut self, alloc: Global, name: &str, out: &mut Sheet) -> Result<(), Wrong> {
        let name = unescape(alloc, name)?;
        self.begin_named(alloc, name.as_slice(), out);
        Ok(())
    }

    fn begin_named(&mut self, alloc: Global, name: &[u8], out: &mut Sheet) {
        match Server::new(alloc, name, &self.stage.options) {
            Ok(server) => self.start(server, out),
            Err(refused) => put_refused(out, refused),
        }
    }

    fn start(&mut self, server: Server, out: &mut Sheet) {
        put_server(out, &server);
        self.server = Some(server);
    }

    fn hear(&mut self, alloc: Global, rest: &str, out: &mut Sheet) -> Result<(), Wrong> {
        let line = unescape(alloc, rest)?;
        self.hear_line(alloc, &line, out)
    }

    fn hear_line(&mut self, alloc: Global, line: &Text, out: &mut Sheet) -> Result<(), Wrong> {
        match read(alloc, line) {
            Ok(message) => self.hear_message(alloc, &message, out),
            Err(wrong) => Err(wrong),
        }
    }

    fn hear_message(
        &mut self,
        alloc: Global,
        message: &Message,
        out: &mut Sheet,
    ) -> Result<(), Wrong>
        requires { MessageIsUtf8 message.now }
    {
        match &mut self.server {
            Some(server) => heard(alloc, server, &self.stage.buffers, message, out),
            None => return Err(Wrong::Missing),
        }
        Ok(())
    }

    /// Takes in a message, and writes the mark of what follows and of the lists after it.
    fn mark(&mut self, alloc: Global, rest: &str, out: &mut Sheet) -> Result<(), Wrong> {
        let mut whole = Sheet::new(alloc);
        self.hear(alloc, rest, &mut whole)?;
        whole.put("\n");
        self.lists(&mut whole)?;
        whole.put("\n");
        put_mark(out, whole.read());
        Ok(())
    }

    fn told(&self, out: &mut Sheet) -> Result<(), Wrong> {
        match &self.server {
            Some(server) => put_told(out, server),
            None => return Err(Wrong::Missing),
        }
        Ok(())
    }

    fn lists(&self, out: &mut Sheet) -> Result<(), Wrong> {
        match &self.server {
            Some(server) => put_channels(out, server.channels()),
            None => return Err(Wrong::Missing),
        }
        Ok(())
    }

    /// Writes the answer of what commands ask of options.
    pub fn options(
        &self,
        alloc: Global,
        call: &str,
        rest: &str,
        out: &mut Sheet,
    ) -> Result<(), Wrong> {
        options_answer(alloc, &self.stage, call, rest, out)
    }

    /// Writes the answer of what is typed for the server.
    pub fn command(
        &mut self,
        alloc: Global,
        call: &str,
        rest: &str,
        out: &mut Sheet,
    ) -> Result<(), Wrong> {
        match &mut self.server {
            Some(server) => commands_answer(alloc, server, &self.stage, call, rest, out),
            None => Err(Wrong::Missing),
        }
    }

    /// Writes the answer of a call on a server.
    pub fn answer(
        &mut self,
        alloc: Global,
        call: &str,
        rest: &str,
        out: &mut Sheet,
    ) -> Result<(), Wrong> {
        match call {
            "begin" => self.begin(alloc, rest, out),
            "hear" => self.hear(alloc, rest, out),
            "mark" => self.mark(alloc, rest, out),
            "told" => self.told(out),
            "lists" => self.lists(out),
            _ => self.stage.change(alloc, call, rest),
        }
    }
}
