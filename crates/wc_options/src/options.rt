ghost use Rattle.std.specs.Prelude.{◌≡◌, ◌≢◌, ◌<◌, ◌∷◌, [], map, length, find, IfOk, IfErr};
ghost use Rattle.std.specs.Prelude.{IfSome, IfNone, OnOk, OnErr, Some, None, IsTrue, position};
ghost use Rattle.std.specs.Prelude.{option_map, true, false, slice_set, slice_index_or, ◌++◌};
ghost use Rattle.std.specs.Prelude.{remove};
ghost use Rattle.std.specs.Option.{option_copied};
ghost use Rattle.std.specs.Str.{IsUtf8};
ghost use Rattle.wc_options.specs.Options.{fresh, value_of, global_value, server_value, refusal_of};
ghost use Rattle.wc_options.specs.Options.{with_value, makes, without_value, has_server, without};
ghost use Rattle.wc_options.specs.Options.{is_named, value_at, refusal_at, with_value_at};
ghost use Rattle.wc_options.specs.Options.{makes_server, reset_at, ServerOptions, own_at_first};
ghost use Rattle.wc_options.specs.Options.{with_own, fresh_server, no_server};
ghost use Rattle.wc_options.specs.Kept.{Fits, unset_at_first};
ghost use Rattle.wc_options.specs.Names.{AtServer, IsInTable, IsNamed, is_server_name};
ghost use Rattle.wc_options.specs.Place.{located_of};
ghost use Rattle.wc_options.specs.Table.{globals, of_server, row_at};

use crate::place::{Place, locate, row};
use crate::refusal::SetRefused;
use crate::server::{Server, own_at_first, stands_for};
use crate::table::{GLOBAL_COUNT, global_row};
use std::alloc::Global;
use std::marker::Model;
use wc_text::{NoMemory, Text};

/// The most servers that may be there.
pub const MOST_SERVERS: usize = 64;

/// What setting an option changed.
#[derive(Clone, Copy, Debug, PartialEq, Eq)]
pub struct Changed {
    /// The option is one of a server that was not there.
    pub made_server: bool,
}

/// The options: a map from names to values, and the servers in the order of their making.
#[derive(Drop)]
pub struct Options {
    /// The defaults of the options of the program, in the order of the table.
    defaults: Vec<Text>,
    /// The default of the addresses of a server.
    no_address: Text,
    /// The values of the options of the program, where one is set, in the order of the table.
    pub(crate) set: Vec<Option<Text>>,
    pub(crate) servers: Vec<Server>,
    /// The names of the servers again, for callers.
    names: Vec<Text>,
}

impl Model for Options {
    ghost use Rattle.wc_options.specs.Options.{OptionsValue};
    ghost use Rattle.wc_options.specs.Kept.{AreTextsStored};

    ghost Value = { OptionsValue };

    ghost view = { λ a. record { set = a.set.items; servers = a.servers.items } };

    ghost invariant = { λ a. AreTextsStored
        (record { set = a.set.items; servers = a.servers.items }) a.defaults.items a.no_address
        a.names.items };
}

/// The place of the server with a name.
fn server_place(servers: &[Server], name: &[u8]) -> Option<usize>
    ensures { result ≡ position (is_named name.now) servers.now }
{
    servers.iter().position(|server| server.name() == name)
}

/// The defaults of the options of the program.
#[tactic(auto, using(crate::proofs::ReadLemmas::first_options))]
fn first_defaults(alloc: Global) -> Result<Vec<Text>, NoMemory>
    ensures { IfOk result (λ defaults. defaults.items ≡ map (λ row. row.default) globals) }
{
    let mut defaults = Vec::with_capacity(alloc, GLOBAL_COUNT)?;
    for place in 0..GLOBAL_COUNT {
        let default = Text::from_slice(alloc, global_row(place).default)?;
        let Ok(()) = defaults.push(default) else {
            return Err(NoMemory);
        };
    }
    Ok(defaults)
}

/// The values of the options of the program, none of which is set.
#[tactic(auto, using(crate::proofs::ReadLemmas::first_options))]
fn first_values(alloc: Global) -> Result<Vec<Option<Text>>, NoMemory>
    ensures { IfOk result (λ set. set.items ≡ map unset_at_first globals) }
{
    let mut set = Vec::with_capacity(alloc, GLOBAL_COUNT)?;
    for _ in 0..GLOBAL_COUNT {
        let Ok(()) = set.push(None) else {
            return Err(NoMemory);
        };
    }
    Ok(set)
}

impl Options {
    /// The options with each at its default, and no server.
    pub fn new(alloc: Global) -> Result<Options, NoMemory>
        ensures { IfOk result (λ options. options ≡ fresh) }
    {
        let defaults = first_defaults(alloc)?;
        let set = first_values(alloc)?;
        Ok(Options {
            defaults,
            no_address: Text::new(alloc),
            set,
            servers: Vec::new(alloc),
            names: Vec::new(alloc),
        })
    }

    /// The value that counts: the one that is set, else for an option of a server that of its
    /// `irc.server_default`, else the default. None exactly where there is no option with this
    /// name; the options of a server are there where the server is.
    pub fn get(&self, name: &[u8]) -> Option<&Text>
        ensures { option_copied result ≡ value_of self.now name.now }
    {
        match locate(name) {
            Some(place) => self.value_at(place),
            None => None,
        }
    }

    /// The place of the server with a name.
    fn place_of(&self, name: &[u8]) -> Option<usize>
        ensures { result ≡ position (is_named name.now) self.now.servers }
    {
        server_place(&self.servers, name)
    }

    fn value_at(&self, place: Place<'_>) -> Option<&Text>
        requires { IsInTable (located_of place) }
        ensures { option_copied result ≡ value_at self.now (located_of place.entry) }
    {
        match place {
            Place::Global(place) => Some(self.global_value(place)),
            Place::OfServer(name, place) => self.value_of_server(name, place),
        }
    }

    fn value_of_server(&self, name: &[u8], place: usize) -> Option<&Text>
        requires { place < 12 }
        ensures { option_copied result ≡ value_at self.now (AtServer name.now place) }
    {
        match self.place_of(name) {
            Some(found) => Some(self.server_value(&self.servers[found], place)),
            None => None,
        }
    }

    fn global_value(&self, place: usize) -> &Text
        requires { place < 19 }
        ensures { result.now ≡ global_value self.now place }
    {
        match &self.set[place] {
            Some(value) => value,
            None => &self.defaults[place],
        }
    }

    fn server_value<'a>(&'a self, server: &'a Server, place: usize) -> &'a Text
        requires { place < 12 }
        ensures { result.now ≡ server_value self.now server.now place }
    {
        match server.own(place) {
            Some(value) => value,
            None => match stands_for(place) {
                Some(default) => self.global_value(default),
                None => &self.no_address,
            },
        }
    }

    /// The names of the servers, in the order of their making.
    pub fn servers(&self) -> &[Text]
        ensures { result.now ≡ map (λ (server : ServerOptions). server.name) self.now.servers }
    {
        self.names.as_slice()
    }

    /// Sets an option. An option `irc.server.NAME.X` makes the server where it is not there.
    ///
    /// Refused, and nothing is changed, where there is no option with this name, where the option
    /// takes no such value, and where 64 servers are there and the option is one of another.
    pub fn set(&mut self, alloc: Global, name: &Text, value: &Text) -> Result<Changed, SetRefused>
        requires value_is_text { IsUtf8 value.now }
        ensures after { OnOk result (self.new ≡ with_value self.old name.now value.now) }
        ensures made { IfOk result (λ changed. changed.made_server ≡ makes self.old name.now) }
        ensures accepted { OnOk result (refusal_of self.old name.now value.now ≡ None) }
        ensures refused { IfErr result (λ refused. refused ≢ SetRefused.NoMemory →
            refusal_of self.old name.now value.now ≡ Some refused) }
        ensures unchanged { OnErr result (self.new ≡ self.old) }
    {
        self.set_bytes(alloc, name.as_slice(), value.as_slice())
    }

    pub(crate) fn set_bytes(
        &mut self,
        alloc: Global,
        name: &[u8],
        value: &[u8],
    ) -> Result<Changed, SetRefused>
        requires value_is_text { IsUtf8 value.now }
        ensures after { OnOk result (self.new ≡ with_value self.old name.now value.now) }
        ensures made { IfOk result (λ changed. changed.made_server ≡ makes self.old name.now) }
        ensures accepted { OnOk result (refusal_of self.old name.now value.now ≡ None) }
        ensures refused { IfErr result (λ refused. refused ≢ SetRefused.NoMemory →
            refusal_of self.old name.now value.now ≡ Some refused) }
        ensures unchanged { OnErr result (self.new ≡ self.old) }
    {
        match locate(name) {
            Some(place) => self.set_at(alloc, place, value),
            None => Err(SetRefused::UnknownOption),
        }
    }

    /// Sets an option to its default. Refused, and nothing is changed, where there is no option
    /// with this name; the options of a server are there where the server is.
    pub fn unset(&mut self, alloc: Global, name: &Text) -> Result<(), SetRefused>
        ensures after { OnOk result (self.new ≡ without_value self.old name.now) }
        ensures known { OnOk result (value_of self.old name.now ≢ None) }
        ensures refused { IfErr result (λ refused. refused ≡ SetRefused.UnknownOption) }
        ensures unknown { OnErr result (value_of self.old name.now ≡ None) }
        ensures unchanged { OnErr result (self.new ≡ self.old) }
    {
        match locate(name.as_slice()) {
            Some(place) => self.reset(alloc, place),
            None => Err(SetRefused::UnknownOption),
        }
    }

    fn reset(&mut self, alloc: Global, place: Place<'_>) -> Result<(), SetRefused>
        requires { IsInTable (located_of place) }
        ensures after { OnOk result (self.new ≡ reset_at self.old (located_of place.entry)) }
        ensures known { OnOk result (value_at self.old (located_of place.entry) ≢ None) }
        ensures refused { IfErr result (λ refused. refused ≡ SetRefused.UnknownOption) }
        ensures unknown { OnErr result (value_at self.old (located_of place.entry) ≡ None) }
        ensures unchanged { OnErr result (self.new ≡ self.old) }
    {
        match place {
            Place::Global(place) => {
                self.put_global(place, None);
                Ok(())
            }
            Place::OfServer(name, place) => self.reset_of_server(alloc, name, place),
        }
    }

    fn reset_of_server(
        &mut self,
        alloc: Global,
        name: &[u8],
        place: usize,
    ) -> Result<(), SetRefused>
        requires { place < 12 }
        ensures after { OnOk result (self.new ≡ reset_at self.old (AtServer name.now place)) }
        ensures known { OnOk result (value_at self.old (AtServer name.now place) ≢ None) }
        ensures refused { IfErr result (λ refused. refused ≡ SetRefused.UnknownOption) }
        ensures unknown { OnErr result (value_at self.old (AtServer name.now place) ≡ None) }
        ensures unchanged { OnErr result (self.new ≡ self.old) }
    {
        match self.place_of(name) {
            Some(found) => {
                self.put_own(found, place, own_at_first(alloc, place));
                Ok(())
            }
            None => Err(SetRefused::UnknownOption),
        }
    }

    /// Takes a server and its options away. False exactly where there is no server with this name,
    /// and then nothing is changed.
    pub fn del_server(&mut self, name: &[u8]) -> bool
        ensures found { result ≡ has_server name.now self.old.servers }
        ensures after { self.new ≡ record self.old { servers = without name.now self.old.servers } }
    {
        match self.place_of(name) {
            Some(found) => {
                self.remove_server(found);
                true
            }
            None => false,
        }
    }

    fn remove_server(&mut self, found: usize)
        requires { found < length self.old.servers }
        ensures { self.new ≡ record self.old { servers = remove self.old.servers found } }
    {
        let _server = self.servers.remove(found);
        let _name = self.names.remove(found);
    }

    fn set_at(
        &mut self,
        alloc: Global,
        place: Place<'_>,
        value: &[u8],
    ) -> Result<Changed, SetRefused>
        requires place { IsInTable (located_of place) }
        requires named { IsNamed (located_of place) }
        requires value_is_text { IsUtf8 value.now }
        ensures after { OnOk result (self.new ≡ with_value_at self.old value.now
            (located_of place.entry)) }
        ensures made { IfOk result (λ changed. changed.made_server ≡ makes_server self.old
            (located_of place.entry)) }
        ensures accepted { OnOk result
            (refusal_at self.old value.now (located_of place.entry) ≡ None) }
        ensures refused { IfErr result (λ refused. refused ≢ SetRefused.NoMemory →
            refusal_at self.old value.now (located_of place.entry) ≡ Some refused) }
        ensures unchanged { OnErr result (self.new ≡ self.old) }
    {
        let row = row(place);
        if !row.kind.fits(value) {
            return Err(bad_value(alloc, row.range));
        }
        let Ok(value) = Text::from_slice(alloc, value) else {
            return Err(SetRefused::NoMemory);
        };
        match place {
            Place::Global(place) => {
                self.put_global(place, Some(value));
                Ok(Changed { made_server: false })
            }
            Place::OfServer(name, place) => self.set_of_server(alloc, name, place, value),
        }
    }

    fn put_global(&mut self, place: usize, value: Option<Text>)
        requires place { place < 19 }
        requires fits { Fits unset_at_first (row_at globals place) value }
        ensures { self.new ≡ record self.old { set = slice_set self.old.set place value } }
    {
        self.set[place] = value;
    }

    fn put_own(&mut self, found: usize, place: usize, value: Option<Text>)
        requires found { found < length self.old.servers }
        requires place { place < 12 }
        requires fits { Fits own_at_first (row_at of_server place) value }
        ensures { self.new ≡ record self.old {
          servers = slice_set self.old.servers found
              (with_own place value (slice_index_or self.old.servers found no_server));
        } }
    {
        self.servers[found].put(place, value);
    }

    fn set_of_server(
        &mut self,
        alloc: Global,
        name: &[u8],
        place: usize,
        value: Text,
    ) -> Result<Changed, SetRefused>
        requires named { is_server_name name.now ≡ true }
        requires place { place < 12 }
        requires fits { Fits own_at_first (row_at of_server place) (Some value) }
        ensures after { OnOk result (self.new ≡ with_value_at self.old value
            (AtServer name.now place)) }
        ensures made { IfOk result (λ changed. changed.made_server ≡ makes_server self.old
            (AtServer name.now place)) }
        ensures accepted { OnOk result
            (refusal_at self.old value (AtServer name.now place) ≡ None) }
        ensures refused { IfErr result (λ refused. refused ≢ SetRefused.NoMemory →
            refusal_at self.old value (AtServer name.now place) ≡ Some refused) }
        ensures unchanged { OnErr result (self.new ≡ self.old) }
    {
        match self.place_of(name) {
            Some(found) => {
                self.put_own(found, place, Some(value));
                Ok(Changed { made_server: false })
            }
            None => {
                if self.servers.len() >= MOST_SERVERS {
                    return Err(SetRefused::TooManyServers { limit: 64 });
                }
                match self.make_server(alloc, name, place, value) {
                    Ok(()) => Ok(Changed { made_server: true }),
                    Err(NoMemory) => Err(SetRefused::NoMemory),
                }
            }
        }
    }

    /// Makes a server, where none has its name, with a value at one of its options.
    fn make_server(
        &mut self,
        alloc: Global,
        name: &[u8],
        place: usize,
        value: Text,
    ) -> Result<(), NoMemory>
        requires named { is_server_name name.now ≡ true }
        requires absent { has_server name.now self.old.servers ≡ false }
        requires few { length self.old.servers < 64 }
        requires place { place < 12 }
        requires fits { Fits own_at_first (row_at of_server place) (Some value) }
        ensures after { OnOk result (self.new ≡ record self.old {
          servers = self.old.servers
              ++ with_own place (Some value) (fresh_server name.now) ∷ [];
        }) }
        ensures unchanged { OnErr result (self.new ≡ self.old) }
    {
        let server = server_with(alloc, name, place, value)?;
        let name = Text::from_slice(alloc, name)?;
        self.servers.reserve(1)?;
        self.names.reserve(1)?;
        self.servers.push_reserved(server);
        self.names.push_reserved(name);
        Ok(())
    }
}

/// A new server with a value at one of its options.
fn server_with(alloc: Global, name: &[u8], place: usize, value: Text) -> Result<Server, NoMemory>
    requires { place < 12 }
    ensures { IfOk result
        (λ server. server ≡ with_own place (Some value) (fresh_server name.now)) }
{
    let mut server = Server::new(alloc, name)?;
    server.put(place, Some(value));
    Ok(server)
}

/// The refusal of a value, with the words that tell which values the option takes.
fn bad_value(alloc: Global, range: &[u8]) -> SetRefused
    ensures { result ≢ SetRefused.NoMemory → result ≡ SetRefused.BadValue range.now }
{
    match Text::from_slice(alloc, range) {
        Ok(range) => SetRefused::BadValue { range },
        Err(NoMemory) => SetRefused::NoMemory,
    }
}
