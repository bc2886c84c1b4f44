ghost use Rattle.std.specs.Prelude.{◌≡◌, codes};
ghost use Rattle.wc_irc_words.specs.Typed.{server_add, server_command, disconnect_command};
ghost use Rattle.wc_irc_words.specs.Typed.{one_word, DeletesServer};
ghost use Rattle.wc_irc_words.specs.TypedSeen.{meaning};

use crate::typed::ServerCommand;
use crate::typed_words::{only_word, tls_in};
use wc_text::cut_word;

const ADD: &[u8] = b"add";

const DELETE: &[u8] = b"del";

fn add(text: &[u8]) -> ServerCommand<'_>
    ensures { meaning result ≡ server_add text.now }
{
    let (name, rest) = cut_word(text);
    let (address, rest) = cut_word(rest);
    if name.is_empty() || address.is_empty() {
        return ServerCommand::Wrong(b"server");
    }
    match tls_in(rest) {
        Some(tls) => ServerCommand::AddServer { name, address, tls },
        None => ServerCommand::Wrong(b"server"),
    }
}

fn delete(text: &[u8]) -> ServerCommand<'_>
    ensures { meaning result ≡ one_word (codes "server") (λ name. DeletesServer name) text.now }
{
    match only_word(text) {
        Some(name) => ServerCommand::DeleteServer(name),
        None => ServerCommand::Wrong(b"server"),
    }
}

/// What `/server` asks for.
pub(crate) fn server_command(text: &[u8]) -> ServerCommand<'_>
    ensures { meaning result ≡ server_command text.now }
{
    let (word, rest) = cut_word(text);
    if word == ADD {
        add(rest)
    } else if word == DELETE {
        delete(rest)
    } else {
        ServerCommand::Wrong(b"server")
    }
}

/// What `/disconnect` asks for: the end of the link of the server that is named, or else of that of
/// the buffer.
pub(crate) fn disconnect_command(text: &[u8]) -> ServerCommand<'_>
    ensures { meaning result ≡ disconnect_command text.now }
{
    if text.is_empty() {
        return ServerCommand::Disconnect(None);
    }
    match only_word(text) {
        Some(name) => ServerCommand::Disconnect(Some(name)),
        None => ServerCommand::Wrong(b"disconnect"),
    }
}
