//! What is typed for a server.

use crate::sheet::Sheet;
use std::alloc::Global;
use wc_irc_words::{ServerCommand, read_server_command};
use wc_notation::{Wrong, unescape};

fn put_tls(out: &mut Sheet, tls: Option<bool>) {
    match tls {
        Some(true) => out.put(" with TLS"),
        Some(false) => out.put(" without TLS"),
        None => {}
    }
}

fn put_server(out: &mut Sheet, name: &[u8], address: &[u8], tls: Option<bool>) {
    out.put_two("adds", name, address);
    put_tls(out, tls);
}

fn put_end(out: &mut Sheet, name: Option<&[u8]>) {
    match name {
        Some(name) => out.put_named("disconnects", name),
        None => out.put("disconnects"),
    }
}

/// A command about a server, or one that says something.
fn put_command(out: &mut Sheet, command: &ServerCommand<'_>) {
    match command {
        ServerCommand::AddServer { name, address, tls } => put_server(out, name, address, *tls),
        ServerCommand::DeleteServer(name) => out.put_named("deletes", name),
        ServerCommand::Connect(name) => out.put_named("connects", name),
        ServerCommand::Disconnect(name) => put_end(out, *name),
        ServerCommand::Say { target, text } => out.put_two("says", target, text),
        ServerCommand::Notice { target, text } => out.put_two("notices", target, text),
        ServerCommand::Kick { nick, reason } => out.put_two("kicks", nick, reason),
        ServerCommand::Names => out.put("names"),
        ServerCommand::Bid(word, text) => out.put_two("bids", word.name(), text),
        _ => put_of_one(out, command),
    }
}

/// A command with one text.
fn put_of_one(out: &mut Sheet, command: &ServerCommand<'_>) {
    match command {
        ServerCommand::Join(channel) => out.put_named("joins", channel),
        ServerCommand::Part(reason) => out.put_named("parts", reason),
        ServerCommand::Query(nick) => out.put_named("queries", nick),
        ServerCommand::Act(deed) => out.put_named("does", deed),
        ServerCommand::Nick(nick) => out.put_named("renames", nick),
        ServerCommand::Topic(topic) => out.put_named("topic", topic),
        ServerCommand::Mode(words) => out.put_named("modes", words),
        ServerCommand::Quote(line) => out.put_named("quotes", line),
        ServerCommand::Talk(text) => out.put_named("talks", text),
        ServerCommand::Wrong(name) => out.put_named("wrong arguments", name),
        _ => out.put("another"),
    }
}

fn put_typed(out: &mut Sheet, text: &[u8]) {
    match &read_server_command(text) {
        Some(command) => put_command(out, command),
        None => out.put("another command"),
    }
}

/// Writes what a text asks of servers.
pub fn typed(alloc: Global, rest: &str, out: &mut Sheet) -> Result<(), Wrong> {
    let text = unescape(alloc, rest)?;
    put_typed(out, text.as_slice());
    Ok(())
}
