ghost use Rattle.std.specs.Prelude.{◌≡◌, ◌≢◌, ◌++◌, ◌∷◌, [], Ok, Err, codes, filter, drop, false};
ghost use Rattle.std.specs.Prelude.{IfOk, IfErr, OnOk};
ghost use Rattle.wc_irc_texts.specs.Features.{default_features};
ghost use Rattle.wc_irc.specs.Servers.{first_of};
ghost use Rattle.wc_irc.specs.ServersSeen.{seen};
ghost use Rattle.wc_irc.specs.Start.{option_of, address_in, is_tls, may_be_tried, nicks_of};
ghost use Rattle.wc_irc.specs.Start.{server_nicks, first_negotiation, private_max_of, first_state};
ghost use Rattle.wc_irc.specs.Start.{start_of};
ghost use Rattle.wc_irc.specs.declared.refused.ServerRefused.TheVariants as Refused;

use crate::private_buffers::MOST_BUFFERS;
use crate::refused::ServerRefused;
use crate::state::{Login, State};
use std::alloc::Global;
use wc_irc_texts::{Features, Negotiation, is_nick, joined};
use wc_options::{Options, number_in, read_address};
use wc_text::{Address, Items, NoMemory, Text, split_once};

/// The most bytes of a nick that is tried, so that the `_` that may come to it have room.
const LONGEST_TRIED: usize = 60;

/// An option of a server.
fn option(alloc: Global, options: &Options, server: &[u8], name: &[u8]) -> Result<Text, NoMemory>
    ensures { IfOk result (λ value. value ≡ option_of options.now server.now name.now) }
{
    let name = joined(alloc, &[b"irc.server.", server, b".", name])?;
    match options.get(name.as_slice()) {
        Some(value) => value.copy(alloc),
        None => Ok(Text::new(alloc)),
    }
}

fn is_tls(alloc: Global, options: &Options, server: &[u8]) -> Result<bool, NoMemory>
    ensures { IfOk result (λ tls. tls ≡ is_tls options.now server.now) }
{
    let value = option(alloc, options, server, b"tls")?;
    Ok(value.as_slice() == b"on".as_slice())
}

fn address_in(alloc: Global, options: &Options, server: &[u8]) -> Result<Option<Address>, NoMemory>
    ensures { IfOk result (λ address. address ≡ address_in options.now server.now) }
{
    let value = option(alloc, options, server, b"addresses")?;
    Ok(read_address(value.as_slice()))
}

fn may_be_tried(features: &Features, nick: &[u8]) -> bool
    requires { features.now ≡ default_features }
    ensures { result ≡ may_be_tried nick.now }
{
    is_nick(&features.prefixes, nick) && nick.len() <= LONGEST_TRIED
}

/// Puts a nick after the others, where it may be tried.
fn put_nick(
    nicks: &mut Items<Text>,
    alloc: Global,
    features: &Features,
    nick: &[u8],
) -> Result<(), NoMemory>
    requires { features.now ≡ default_features }
    ensures { OnOk result (nicks.new ≡ nicks.old ++ filter may_be_tried (nick.now ∷ [])) }
{
    if !may_be_tried(features, nick) {
        return Ok(());
    }
    nicks.push(Text::from_slice(alloc, nick)?)
}

/// The nicks to try, which commas part.
#[tactic(auto, unfolding(crate::specs::Start::nicks_of))]
fn nicks_of(alloc: Global, features: &Features, value: &[u8]) -> Result<Items<Text>, NoMemory>
    requires { features.now ≡ default_features }
    ensures { IfOk result (λ nicks. nicks ≡ nicks_of value.now) }
{
    let mut nicks = Items::new(alloc);
    let mut left = Some(value);
    while let Some(rest) = left {
        let (nick, others) = split_once(rest, b',');
        put_nick(&mut nicks, alloc, features, nick)?;
        left = others;
    }
    Ok(nicks)
}

fn server_nicks(
    alloc: Global,
    options: &Options,
    features: &Features,
    server: &[u8],
) -> Result<Items<Text>, NoMemory>
    requires { features.now ≡ default_features }
    ensures { IfOk result (λ nicks. nicks ≡ server_nicks options.now server.now) }
{
    let value = option(alloc, options, server, b"nicks")?;
    nicks_of(alloc, features, value.as_slice())
}

/// The first of the nicks, or `weechat` where there is none.
fn first_nick(alloc: Global, nicks: &[Text]) -> Result<Text, NoMemory>
    ensures { IfOk result (λ nick. nick ≡ first_of nicks.now (codes "weechat")) }
{
    match nicks {
        [nick, ..] => nick.copy(alloc),
        [] => Text::from_slice(alloc, b"weechat"),
    }
}

fn login(alloc: Global, options: &Options, server: &[u8]) -> Result<Login, NoMemory>
    ensures { IfOk result (λ login. login ≡ record {
      user = option_of options.now server.now (codes "username");
      real_name = option_of options.now server.now (codes "realname");
      password = option_of options.now server.now (codes "password");
      autojoin = option_of options.now server.now (codes "autojoin");
    }) }
{
    let user = option(alloc, options, server, b"username")?;
    let real_name = option(alloc, options, server, b"realname")?;
    let password = option(alloc, options, server, b"password")?;
    let autojoin = option(alloc, options, server, b"autojoin")?;
    Ok(Login {
        user,
        real_name,
        password,
        autojoin,
    })
}

fn first_negotiation(
    alloc: Global,
    options: &Options,
    server: &[u8],
) -> Result<Negotiation, NoMemory>
    ensures { IfOk result (λ negotiation. negotiation ≡ first_negotiation options.now server.now) }
{
    let user = option(alloc, options, server, b"sasl_username")?;
    let password = option(alloc, options, server, b"sasl_password")?;
    let wishes = option(alloc, options, server, b"capabilities")?;
    let at_failure = option(alloc, options, server, b"sasl_fail")?;
    Negotiation::new(
        alloc,
        user,
        password,
        wishes.as_slice(),
        at_failure.as_slice(),
    )
}

/// How many private buffers messages may open.
#[tactic(auto, unfolding(crate::specs::Start::private_max_of))]
fn private_max(options: &Options) -> u32
    ensures { result ≡ private_max_of options.now }
{
    let Some(value) = options.get(b"irc.look.private_max") else {
        return MOST_BUFFERS;
    };
    match number_in(value.as_slice(), 1, MOST_BUFFERS) {
        Some(number) => number,
        None => MOST_BUFFERS,
    }
}

/// A server of which nothing is known yet but what its options give.
fn made(
    alloc: Global,
    name: Text,
    address: Address,
    login: Login,
    nicks: Items<Text>,
    negotiation: Negotiation,
    features: Features,
    private_max: u32,
) -> Result<State, NoMemory>
    requires { features ≡ default_features }
    ensures { IfOk result (λ state. seen state ≡ record {
      name = name;
      address = address;
      user = login.user;
      real_name = login.real_name;
      password = login.password;
      autojoin = login.autojoin;
      nick = first_of nicks (codes "weechat");
      nicks_left = drop 1 nicks;
      taken = 0;
      negotiation = negotiation;
      mask = [];
      is_connected = false;
      is_registered = false;
      features = default_features;
      channels = [];
      private_max = private_max;
    }) }
{
    let nick = first_nick(alloc, nicks.as_slice())?;
    Ok(State {
        name,
        address,
        login,
        nick,
        nicks,
        tried: 1,
        taken: 0,
        negotiation,
        mask: Text::new(alloc),
        is_connected: false,
        is_registered: false,
        features,
        channels: Vec::new(alloc),
        private_max,
    })
}

/// The server with what its options give.
#[tactic(auto, unfolding(crate::specs::Start::first_state))]
fn first_state(
    alloc: Global,
    server: &[u8],
    options: &Options,
    address: Address,
) -> Result<State, NoMemory>
    ensures { IfOk result (λ state. seen state ≡ first_state options.now server.now address) }
{
    let features = Features::new(alloc)?;
    let nicks = server_nicks(alloc, options, &features, server)?;
    let login = login(alloc, options, server)?;
    let negotiation = first_negotiation(alloc, options, server)?;
    let name = Text::from_slice(alloc, server)?;
    let private_max = private_max(options);
    made(
        alloc,
        name,
        address,
        login,
        nicks,
        negotiation,
        features,
        private_max,
    )
}

fn first_at(
    alloc: Global,
    server: &[u8],
    options: &Options,
    address: Address,
) -> Result<State, ServerRefused>
    ensures made { IfOk result (λ state. seen state ≡ first_state options.now server.now address) }
    ensures refused { IfErr result (λ refused. refused ≡ Refused.NoMemory) }
{
    match first_state(alloc, server, options, address) {
        Ok(state) => Ok(state),
        Err(NoMemory) => Err(ServerRefused::NoMemory),
    }
}

/// Where a server is to be connected to. Refused where it is to use TLS, and else where it has no
/// address.
#[tactic(auto, unfolding(crate::specs::Start::start_of))]
pub(crate) fn reached_at(
    alloc: Global,
    options: &Options,
    server: &[u8],
) -> Result<Address, ServerRefused>
    ensures made { IfOk result (λ address. start_of options.now server.now
        ≡ Ok (first_state options.now server.now address)) }
    ensures refused { IfErr result (λ refused. refused ≢ Refused.NoMemory →
        start_of options.now server.now ≡ Err refused) }
{
    if is_tls(alloc, options, server)? {
        return Err(ServerRefused::TlsOn);
    }
    match address_in(alloc, options, server)? {
        Some(address) => Ok(address),
        None => Err(ServerRefused::BadAddress),
    }
}

/// A server that is to be connected, or why it is not.
pub(crate) fn started(
    alloc: Global,
    server: &[u8],
    options: &Options,
) -> Result<State, ServerRefused>
    ensures made { IfOk result (λ state. start_of options.now server.now ≡ Ok (seen state)) }
    ensures refused { IfErr result (λ refused. refused ≢ Refused.NoMemory →
        start_of options.now server.now ≡ Err refused) }
{
    let address = reached_at(alloc, options, server)?;
    first_at(alloc, server, options, address)
}
