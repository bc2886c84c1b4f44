ghost use Rattle.std.specs.Prelude.{◌≡◌, ◌++◌, IfOk, OnOk};
ghost use Rattle.wc_buffers.specs.Vars.{pair};
ghost use Rattle.wc_options.specs.Options.{has_server};
ghost use Rattle.wc_irc.specs.ServerOptions.{on_or_off, tls_settings, settings_of, no_such_server};
ghost use Rattle.wc_irc.specs.ServerOptions.{if_connected, delete_refusal, start_refusal};
ghost use Rattle.wc_irc.specs.ServerOptions.{connect_refusal};
ghost use Rattle.wc_irc.specs.Start.{option_name, start_of};

use crate::refused::ServerRefused;
use crate::start::reached_at;
use std::alloc::Global;
use wc_irc_texts::joined;
use wc_options::Options;
use wc_text::{Items, NoMemory, Pair, Text};

// ---- `/server add`

fn setting(alloc: Global, server: &[u8], option: &[u8], value: &[u8]) -> Result<Pair, NoMemory>
    ensures { IfOk result (λ made. made ≡ pair (option_name server.now option.now) value.now) }
{
    let name = joined(alloc, &[b"irc.server.", server, b".", option])?;
    let value = Text::from_slice(alloc, value)?;
    Ok(Pair { name, value })
}

fn on_or_off(tls: bool) -> &'static [u8]
    ensures { result.now ≡ on_or_off tls }
{
    if tls { b"on" } else { b"off" }
}

fn put_tls(
    settings: &mut Items<Pair>,
    alloc: Global,
    server: &[u8],
    tls: Option<bool>,
) -> Result<(), NoMemory>
    ensures { OnOk result (settings.new ≡ settings.old ++ tls_settings server.now tls) }
{
    match tls {
        Some(tls) => settings.push(setting(alloc, server, b"tls", on_or_off(tls))?),
        None => Ok(()),
    }
}

/// The options that `/server add` sets, in order: the address, and TLS where that is said. It is
/// refused where one of them is.
pub fn server_settings(
    alloc: Global,
    server: &[u8],
    address: &[u8],
    tls: Option<bool>,
) -> Result<Items<Pair>, NoMemory>
    ensures { IfOk result (λ settings. settings ≡ settings_of server.now address.now tls) }
{
    let mut settings = Items::new(alloc);
    settings.push(setting(alloc, server, b"addresses", address)?)?;
    put_tls(&mut settings, alloc, server, tls)?;
    Ok(settings)
}

// ---- refusals

fn has_server(options: &Options, server: &[u8]) -> bool
    ensures { result ≡ has_server server.now options.now.servers }
{
    for name in options.servers() {
        if name.as_slice() == server {
            return true;
        }
    }
    false
}

fn no_such_server(alloc: Global, server: &[u8]) -> Result<Text, NoMemory>
    ensures { IfOk result (λ text. text ≡ no_such_server server.now) }
{
    joined(alloc, &[b"irc: no such server: ", server])
}

fn if_connected(alloc: Global, is_linked: bool, server: &[u8]) -> Result<Option<Text>, NoMemory>
    ensures { IfOk result (λ text. text ≡ if_connected is_linked server.now) }
{
    if !is_linked {
        return Ok(None);
    }
    Ok(Some(joined(alloc, &[b"irc: connected: ", server])?))
}

/// Why `/server del` is refused: the server is not there, or else it has a link.
#[tactic(auto, unfolding(crate::specs::ServerOptions::delete_refusal))]
pub fn delete_refusal(
    alloc: Global,
    options: &Options,
    is_linked: bool,
    server: &[u8],
) -> Result<Option<Text>, NoMemory>
    ensures { IfOk result (λ text. text ≡ delete_refusal options.now is_linked server.now) }
{
    if !has_server(options, server) {
        return Ok(Some(no_such_server(alloc, server)?));
    }
    if_connected(alloc, is_linked, server)
}

fn start_refusal(
    alloc: Global,
    options: &Options,
    is_linked: bool,
    server: &[u8],
) -> Result<Option<Text>, NoMemory>
    ensures { IfOk result (λ text. text
        ≡ start_refusal is_linked server.now (start_of options.now server.now)) }
{
    match reached_at(alloc, options, server) {
        Ok(_) => if_connected(alloc, is_linked, server),
        Err(ServerRefused::TlsOn) => {
            Ok(Some(joined(alloc, &[b"irc: TLS is not offered: ", server])?))
        }
        Err(ServerRefused::BadAddress) => {
            Ok(Some(joined(alloc, &[b"irc: bad address: ", server])?))
        }
        Err(ServerRefused::NoMemory) => Err(NoMemory),
    }
}

/// Why `/connect` is refused: the server is not there, or it is to use TLS, or it has no address,
/// or it has a link.
#[tactic(auto, unfolding(crate::specs::ServerOptions::connect_refusal))]
pub fn connect_refusal(
    alloc: Global,
    options: &Options,
    is_linked: bool,
    server: &[u8],
) -> Result<Option<Text>, NoMemory>
    ensures { IfOk result (λ text. text ≡ connect_refusal options.now is_linked server.now) }
{
    if !has_server(options, server) {
        return Ok(Some(no_such_server(alloc, server)?));
    }
    start_refusal(alloc, options, is_linked, server)
}
