ghost use Rattle.std.specs.Prelude.{◌≡◌, codes, option_map};
ghost use Rattle.wc_irc_words.specs.Typed.{without_words, one_word, some_text};
ghost use Rattle.wc_irc_words.specs.Typed.{target_and_text, kick_command, mode_command, command_of};
ghost use Rattle.wc_irc_words.specs.Typed.{join_command, query_command, query_with, slash_command};
ghost use Rattle.wc_irc_words.specs.Typed.{asked_of, Says, Notices, Renames, AsksNames, Connects};
ghost use Rattle.wc_irc_words.specs.TypedSeen.{meaning, asked_with, pair_in, target_pair};
ghost use Rattle.wc_text.specs.Splits.{word_of, rest_of};
ghost use Rattle.wc_text.specs.Words.{is_filled};

use crate::command_word::CommandWord;
use crate::everyday::Everyday;
use crate::typed_server::{disconnect_command, server_command};
use crate::typed_words::{are_mode_words, is_at_most_two, is_target, only_word};
use wc_text::cut_word;

/// What a text that is typed asks of servers.
#[derive(Drop)]
pub enum ServerCommand<'a> {
    /// Whether it is to use TLS is set where that is said.
    AddServer {
        name: &'a [u8],
        address: &'a [u8],
        tls: Option<bool>,
    },
    DeleteServer(&'a [u8]),
    Connect(&'a [u8]),
    /// The server that is named, or else that of the buffer.
    Disconnect(Option<&'a [u8]>),
    /// One or two words: channels, and the keys of the first of them, each parted at commas.
    Join(&'a [u8]),
    /// A channel that is joined, or else that of the buffer, and a reason; each may be left out.
    Part(&'a [u8]),
    Say {
        target: &'a [u8],
        text: &'a [u8],
    },
    Notice {
        target: &'a [u8],
        text: &'a [u8],
    },
    Query(&'a [u8]),
    /// A deed on the channel or with the nick of the buffer.
    Act(&'a [u8]),
    Nick(&'a [u8]),
    Topic(&'a [u8]),
    /// The reason may be empty.
    Kick {
        nick: &'a [u8],
        reason: &'a [u8],
    },
    /// Blanks part the words.
    Mode(&'a [u8]),
    Names,
    /// An everyday command with what comes after its name.
    Bid(Everyday, &'a [u8]),
    /// A line as it stands.
    Quote(&'a [u8]),
    /// A text on the channel or to the nick of the buffer.
    Talk(&'a [u8]),
    /// The arguments of the command of this name are wrong.
    Wrong(&'a [u8]),
}

/// One or two words, of which the last alone may begin with `:`.
fn join_command(text: &[u8]) -> ServerCommand<'_>
    ensures { meaning result ≡ join_command text.now }
{
    if are_mode_words(text) && is_at_most_two(text) {
        ServerCommand::Join(text)
    } else {
        ServerCommand::Wrong(b"join")
    }
}

fn nick_command(text: &[u8]) -> ServerCommand<'_>
    ensures { meaning result ≡ one_word (codes "nick") (λ n. Renames n) text.now }
{
    match only_word(text) {
        Some(nick) => ServerCommand::Nick(nick),
        None => ServerCommand::Wrong(b"nick"),
    }
}

fn connect_command(text: &[u8]) -> ServerCommand<'_>
    ensures { meaning result ≡ one_word (codes "connect") (λ n. Connects n) text.now }
{
    match only_word(text) {
        Some(name) => ServerCommand::Connect(name),
        None => ServerCommand::Wrong(b"connect"),
    }
}

/// A word that can be sent before others, and a text that is said, where there is one.
fn query_command(text: &[u8]) -> ServerCommand<'_>
    ensures { meaning result ≡ query_command text.now }
{
    let (nick, said) = cut_word(text);
    if !is_target(nick) {
        return ServerCommand::Wrong(b"query");
    }
    query_with(nick, said)
}

fn query_with<'a>(nick: &'a [u8], said: &'a [u8]) -> ServerCommand<'a>
    ensures { meaning result ≡ query_with nick.now said.now }
{
    if said.is_empty() {
        ServerCommand::Query(nick)
    } else {
        ServerCommand::Say {
            target: nick,
            text: said,
        }
    }
}

/// A word that can be sent before others, and a text that is not empty.
fn target_and_text(text: &[u8]) -> Option<(&[u8], &[u8])>
    ensures { pair_in result ≡ target_pair text.now }
{
    let (target, rest) = cut_word(text);
    if !is_target(target) || rest.is_empty() {
        return None;
    }
    Some((target, rest))
}

fn msg_command(text: &[u8]) -> ServerCommand<'_>
    ensures { meaning result ≡ target_and_text (codes "msg") (λ t said. Says t said) text.now }
{
    match target_and_text(text) {
        Some((target, text)) => ServerCommand::Say { target, text },
        None => ServerCommand::Wrong(b"msg"),
    }
}

fn notice_command(text: &[u8]) -> ServerCommand<'_>
    ensures { meaning result
        ≡ target_and_text (codes "notice") (λ t said. Notices t said) text.now }
{
    match target_and_text(text) {
        Some((target, text)) => ServerCommand::Notice { target, text },
        None => ServerCommand::Wrong(b"notice"),
    }
}

/// What is asked with a text that is not empty.
fn with_text<'a>(asked: ServerCommand<'a>, name: &'static [u8], text: &'a [u8]) -> ServerCommand<'a>
    ensures { meaning result ≡ some_text name.now (λ value. meaning asked.entry) text.now }
{
    if text.is_empty() {
        ServerCommand::Wrong(name)
    } else {
        asked
    }
}

/// A nick, which is the last parameter where no reason comes after it.
fn kick_command(text: &[u8]) -> ServerCommand<'_>
    ensures { meaning result ≡ kick_command text.now }
{
    let (nick, reason) = cut_word(text);
    if nick.is_empty() || !is_target(nick) && !reason.is_empty() {
        return ServerCommand::Wrong(b"kick");
    }
    ServerCommand::Kick { nick, reason }
}

fn mode_command(text: &[u8]) -> ServerCommand<'_>
    ensures { meaning result ≡ mode_command text.now }
{
    if are_mode_words(text) {
        ServerCommand::Mode(text)
    } else {
        ServerCommand::Wrong(b"mode")
    }
}

fn names_command(text: &[u8]) -> ServerCommand<'_>
    ensures { meaning result ≡ without_words (codes "names") AsksNames text.now }
{
    if text.is_empty() {
        ServerCommand::Names
    } else {
        ServerCommand::Wrong(b"names")
    }
}

/// What a command asks with a text after it.
fn asked(word: CommandWord, text: &[u8]) -> ServerCommand<'_>
    ensures { meaning result ≡ asked_with word text.now }
{
    match word {
        CommandWord::Join => join_command(text),
        CommandWord::Part => ServerCommand::Part(text),
        CommandWord::Msg => msg_command(text),
        CommandWord::Notice => notice_command(text),
        CommandWord::Query => query_command(text),
        CommandWord::Me => with_text(ServerCommand::Act(text), b"me", text),
        CommandWord::Nick => nick_command(text),
        CommandWord::Topic => with_text(ServerCommand::Topic(text), b"topic", text),
        CommandWord::Kick => kick_command(text),
        CommandWord::Mode => mode_command(text),
        CommandWord::Names => names_command(text),
        CommandWord::Quote => with_text(ServerCommand::Quote(text), b"quote", text),
        CommandWord::Server => server_command(text),
        CommandWord::Connect => connect_command(text),
        CommandWord::Disconnect => disconnect_command(text),
        CommandWord::Everyday(word) => ServerCommand::Bid(word, text),
    }
}

fn command<'a>(name: &[u8], text: &'a [u8]) -> Option<ServerCommand<'a>>
    ensures { option_map meaning result ≡ command_of name.now text.now }
{
    match CommandWord::named(name) {
        Some(word) => Some(asked(word, text)),
        None => None,
    }
}

/// What comes after a `/`, which a second `/` makes a text.
fn slash_command(text: &[u8]) -> Option<ServerCommand<'_>>
    ensures { option_map meaning result ≡ slash_command text.now }
{
    match text {
        [] => None,
        [b'/', ..] => Some(ServerCommand::Talk(text)),
        _ => {
            let (name, rest) = cut_word(text);
            command(name, rest)
        }
    }
}

/// Reads what a text asks of servers. The answer borrows from it. None exactly where the text is
/// empty or another command. CR, LF and NUL are to be taken out before, of a text that is sent.
#[tactic(auto, unfolding(crate::specs::Typed::asked_of))]
pub fn read_server_command(text: &[u8]) -> Option<ServerCommand<'_>>
    ensures { option_map meaning result ≡ asked_of text.now }
{
    match text {
        [] => None,
        [b'/', rest @ ..] => slash_command(rest),
        _ => Some(ServerCommand::Talk(text)),
    }
}
