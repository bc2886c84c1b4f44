//! How connections to servers are begun and ended.

ghost use Rattle.std.specs.Prelude.{◌≡◌, ◌<◌, ◌^◌, ◌++◌, ◌∷◌, [], false, None, Ok, IfOk, OnOk};
ghost use Rattle.std.specs.Prelude.{codes};
ghost use Rattle.wc_buffers.specs.Vars.{pair};
ghost use Rattle.wc_core.specs.Contained.{Runs};
ghost use Rattle.wc_core.specs.Served.{ChangesBuffers};
ghost use Rattle.wc_core.specs.ServerTyped.{connect_step, connect_step_if, connect_all_step};
ghost use Rattle.wc_core.specs.ServerTyped.{connect_each_step, connect_own_step, connects_itself};
ghost use Rattle.wc_core.specs.ServerTyped.{open_new_step, open_step, seat_step, begin_step};
ghost use Rattle.wc_core.specs.ServerSteps.{say_step};
ghost use Rattle.wc_core.specs.ServerTyped.{server_vars, server_spec, server_names};
ghost use Rattle.wc_irc.specs.Start.{option_of, start_of};
ghost use Rattle.wc_irc.specs.Targets.{server_buffer};

use crate::core_state::Core;
use crate::refusals::joined_texts;
use std::alloc::Global;
use wc_buffers::BufferSpec;
use wc_irc::{Server, ServerRefused, connect_refusal};
use wc_irc_texts::joined;
use wc_options::Options;
use wc_text::{Items, NoMemory, Pair, Text};

/// The last number of a link.
const LAST_LINK: u64 = 1 << 62;

fn pair(alloc: Global, name: &[u8], value: &[u8]) -> Result<Pair, NoMemory>
    ensures { IfOk result (λ made. made ≡ pair name.now value.now) }
{
    let name = Text::from_slice(alloc, name)?;
    let value = Text::from_slice(alloc, value)?;
    Ok(Pair { name, value })
}

/// The full name of a server's own buffer.
fn server_buffer(alloc: Global, server: &[u8]) -> Result<Text, NoMemory>
    ensures { IfOk result (λ name. name ≡ server_buffer server.now) }
{
    joined_texts(alloc, b"irc.server.", server)
}

/// Puts a variable after the others.
fn put_pair(
    vars: &mut Items<Pair>,
    alloc: Global,
    name: &[u8],
    value: &[u8],
) -> Result<(), NoMemory>
    ensures { OnOk result (vars.new ≡ vars.old ++ pair name.now value.now ∷ []) }
{
    vars.push(pair(alloc, name, value)?)
}

fn server_vars(alloc: Global, name: &[u8], nick: &[u8]) -> Result<Items<Pair>, NoMemory>
    ensures { IfOk result (λ vars. vars ≡ server_vars name.now nick.now) }
{
    let mut vars = Items::new(alloc);
    put_pair(&mut vars, alloc, b"type", b"server")?;
    put_pair(&mut vars, alloc, b"server", name)?;
    put_pair(&mut vars, alloc, b"nick", nick)?;
    Ok(vars)
}

/// A server's own buffer.
fn server_spec(alloc: Global, server: &Server) -> Result<BufferSpec, NoMemory>
    ensures { IfOk result (λ spec. spec ≡ server_spec server.now) }
{
    let name = server.name().as_slice();
    let full_name = server_buffer(alloc, name)?;
    let short_name = Text::from_slice(alloc, name)?;
    let vars = server_vars(alloc, name, server.nick().as_slice())?;
    Ok(BufferSpec {
        full_name,
        short_name,
        title: Text::new(alloc),
        vars,
    })
}

impl Core {
    /// Connects the servers whose option `autoconnect` is on, unless that was held back.
    pub(crate) fn connect_all(&mut self)
        ensures does { Runs self.old self.new (λ state. connect_all_step state) }
        ensures idle { self.old.connects ≡ false → self.new ≡ self.old }
    {
        if !self.connects {
            return;
        }
        match server_names(self.alloc, &self.options) {
            Ok(names) => self.connect_each(names.as_slice()),
            Err(NoMemory) => self.starve(),
        }
    }

    /// Connects those of these servers. Where memory is refused the others are skipped.
    fn connect_each(&mut self, names: &[Text])
        ensures { Runs self.old self.new (λ state. connect_each_step state names.now) }
    {
        for name in names {
            let cuts = self.cuts;
            self.connect_own(name);
            if self.cuts != cuts {
                return;
            }
        }
    }

    /// Connects a server where its option `autoconnect` is on.
    fn connect_own(&mut self, name: &Text)
        ensures { Runs self.old self.new (λ state. connect_own_step state name.now) }
    {
        match connects_itself(self.alloc, &self.options, name.as_slice()) {
            Ok(true) => self.connect(name.as_slice()),
            Ok(false) => {}
            Err(NoMemory) => self.starve(),
        }
    }

    /// Connects a server, or tells why it is refused.
    pub(crate) fn connect(&mut self, name: &[u8])
        ensures { Runs self.old self.new (λ state. connect_step state name.now) }
    {
        let is_linked = self.servers.named(name).is_some();
        match connect_refusal(self.alloc, &self.options, is_linked, name) {
            Ok(Some(text)) => self.say(text),
            Ok(None) => self.connect_free(name),
            Err(NoMemory) => self.starve(),
        }
    }

    /// Connects a server that is refused for no reason of its own.
    fn connect_free(&mut self, name: &[u8])
        ensures { Runs self.old self.new (λ state. connect_step_if state name.now None) }
    {
        if self.servers.used() >= LAST_LINK {
            self.say_bytes(b"no handle left");
            return;
        }
        self.begin(name);
    }

    fn begin(&mut self, name: &[u8])
        requires { self.old.servers.used < 2 ^ 62 }
        ensures { Runs self.old self.new
            (λ state. begin_step state (start_of state.options name.now)) }
    {
        match Server::new(self.alloc, name, &self.options) {
            Ok(server) => self.begin_with(server),
            Err(ServerRefused::NoMemory) => self.starve(),
            Err(ServerRefused::TlsOn) => {}
            Err(ServerRefused::BadAddress) => {}
        }
    }

    /// Opens the buffer of a server and begins its connection.
    fn begin_with(&mut self, server: Server)
        requires { self.old.servers.used < 2 ^ 62 }
        ensures { Runs self.old self.new (λ state. begin_step state (Ok server)) }
    {
        let cuts = self.cuts;
        self.open_server(&server);
        if self.cuts != cuts {
            return;
        }
        self.seat(server);
    }

    /// Opens the buffer of a server, where it is not there.
    fn open_server(&mut self, server: &Server)
        ensures does { Runs self.old self.new (λ state. open_step state server.now) }
        ensures stays { ChangesBuffers self.old self.new }
    {
        match server_spec(self.alloc, server) {
            Ok(spec) => self.open_new(spec),
            Err(NoMemory) => self.starve(),
        }
    }

    /// Opens a buffer, where none has its full name.
    fn open_new(&mut self, spec: BufferSpec)
        ensures does { Runs self.old self.new (λ state. open_new_step state spec) }
        ensures stays { ChangesBuffers self.old self.new }
    {
        if self
            .board
            .world()
            .buffers()
            .find(spec.full_name.as_slice())
            .is_some()
        {
            return;
        }
        self.open(spec, true);
    }

    /// Begins a connection.
    fn seat(&mut self, server: Server)
        requires { self.old.servers.used < 2 ^ 62 }
        ensures { Runs self.old self.new (λ state. seat_step state server) }
    {
        let _seats = self.servers.seats();
        match self.servers.begin(server) {
            Ok(()) => {}
            Err(NoMemory) => self.starve(),
        }
    }

    /// Tells a refusal of these bytes, where they are UTF-8.
    pub(crate) fn say_bytes(&mut self, text: &[u8])
        ensures { Runs self.old self.new (λ state. say_step state text.now) }
    {
        match Text::from_slice(self.alloc, text) {
            Ok(text) => self.say(text),
            Err(NoMemory) => self.starve(),
        }
    }
}

/// The option `autoconnect` of a server.
fn autoconnect<'a>(alloc: Global, options: &'a Options, name: &[u8]) -> Result<&'a [u8], NoMemory>
    ensures { IfOk result (λ value. value.now
        ≡ option_of options.now name.now (codes "autoconnect")) }
{
    let option = joined(alloc, &[b"irc.server.", name, b".", b"autoconnect"])?;
    match options.get(option.as_slice()) {
        Some(value) => Ok(value.as_slice()),
        None => Ok(b""),
    }
}

/// Whether a server is connected by itself at the start.
fn connects_itself(alloc: Global, options: &Options, name: &[u8]) -> Result<bool, NoMemory>
    ensures { IfOk result (λ own. own ≡ connects_itself options.now name.now) }
{
    let value = autoconnect(alloc, options, name)?;
    Ok(value == b"on".as_slice())
}

fn server_names(alloc: Global, options: &Options) -> Result<Items<Text>, NoMemory>
    ensures { IfOk result (λ names. names ≡ server_names options.now) }
{
    let mut names = Items::new(alloc);
    for name in options.servers() {
        names.push(name.copy(alloc)?)?;
    }
    Ok(names)
}
