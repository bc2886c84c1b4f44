ghost use Rattle.std.specs.Prelude.{◌≡◌, ◌<◌, length};
ghost use Rattle.wc_irc_texts.specs.Names.{is_channel};
ghost use Rattle.wc_irc_texts.specs.Rows.{command_of, kind_found, kind_named, param, has_params};
ghost use Rattle.wc_irc_texts.specs.Rows.{is_about_channel, is_complete, kind_of};

use crate::names::is_channel;
use wc_ircmsg::Message;

/// What a message tells, as far as a server looks at it.
#[derive(Clone, Copy, Debug, PartialEq, Eq)]
pub enum MessageKind {
    /// 001
    Welcome,
    /// 005
    Tokens,
    /// 433
    NickInUse,
    Join,
    Part,
    Quit,
    Kick,
    Nick,
    Mode,
    Topic,
    /// 332
    TopicReply,
    /// 353
    Names,
    /// 366
    NamesEnd,
    /// 324
    ModeReply,
    Privmsg,
    Notice,
    Ping,
    Error,
    Invite,
    /// Any other, and one that lacks what its kind uses.
    Other,
}

impl MessageKind {
    const NAMED: [MessageKind; 19] = [
        MessageKind::Welcome,
        MessageKind::Tokens,
        MessageKind::NickInUse,
        MessageKind::Join,
        MessageKind::Part,
        MessageKind::Quit,
        MessageKind::Kick,
        MessageKind::Nick,
        MessageKind::Mode,
        MessageKind::Topic,
        MessageKind::TopicReply,
        MessageKind::Names,
        MessageKind::NamesEnd,
        MessageKind::ModeReply,
        MessageKind::Privmsg,
        MessageKind::Notice,
        MessageKind::Ping,
        MessageKind::Error,
        MessageKind::Invite,
    ];

    fn command(self) -> &'static [u8]
        ensures { result.now ≡ command_of self }
    {
        match self {
            MessageKind::Welcome => b"001",
            MessageKind::Tokens => b"005",
            MessageKind::NickInUse => b"433",
            MessageKind::Join => b"JOIN",
            MessageKind::Part => b"PART",
            MessageKind::Quit => b"QUIT",
            MessageKind::Kick => b"KICK",
            MessageKind::Nick => b"NICK",
            MessageKind::Mode => b"MODE",
            MessageKind::Topic => b"TOPIC",
            MessageKind::TopicReply => b"332",
            MessageKind::Names => b"353",
            MessageKind::NamesEnd => b"366",
            MessageKind::ModeReply => b"324",
            MessageKind::Privmsg => b"PRIVMSG",
            MessageKind::Notice => b"NOTICE",
            MessageKind::Ping => b"PING",
            MessageKind::Error => b"ERROR",
            MessageKind::Invite => b"INVITE",
            MessageKind::Other => b"",
        }
    }

    fn find(command: &[u8]) -> Option<MessageKind>
        ensures { result ≡ kind_found command.now }
    {
        MessageKind::NAMED
            .iter()
            .copied()
            .find(|kind| command == kind.command())
    }
}

/// The kind that a command names, whatever its parameters are.
fn named(command: &[u8]) -> MessageKind
    ensures { result ≡ kind_named command.now }
{
    match MessageKind::find(command) {
        Some(kind) => kind,
        None => MessageKind::Other,
    }
}

fn has_params(m: &Message, count: usize) -> bool
    ensures { result ≡ has_params count m.now }
{
    count <= m.params.as_slice().len()
}

/// Whether the parameter at a place names a channel.
fn names_channel(chan_types: &[u8], m: &Message, place: usize) -> bool
    requires { place < length m.now.params }
    ensures { result ≡ is_channel chan_types.now (param place m.now) }
{
    is_channel(chan_types, m.params.as_slice()[place].as_slice())
}

/// Whether a message has so many parameters, and the one at a place names a channel.
fn is_about_channel(chan_types: &[u8], m: &Message, count: usize, place: usize) -> bool
    requires { place < count }
    ensures { result ≡ is_about_channel chan_types.now count place m.now }
{
    has_params(m, count) && names_channel(chan_types, m, place)
}

/// Whether a message has what a kind uses.
#[tactic(auto, unfolding(crate::specs::Rows::is_complete))]
fn is_complete(chan_types: &[u8], is_registered: bool, m: &Message, kind: MessageKind) -> bool
    ensures { result ≡ is_complete chan_types.now is_registered m.now kind }
{
    match kind {
        MessageKind::Tokens | MessageKind::Quit | MessageKind::Other => true,
        MessageKind::NickInUse => !is_registered,
        MessageKind::Welcome | MessageKind::Nick | MessageKind::Ping | MessageKind::Error => {
            has_params(m, 1)
        }
        MessageKind::Privmsg | MessageKind::Notice => has_params(m, 2),
        MessageKind::Names => has_params(m, 4),
        MessageKind::Join | MessageKind::Part => is_about_channel(chan_types, m, 1, 0),
        MessageKind::Kick | MessageKind::Mode | MessageKind::Topic => {
            is_about_channel(chan_types, m, 2, 0)
        }
        MessageKind::NamesEnd | MessageKind::Invite => is_about_channel(chan_types, m, 2, 1),
        MessageKind::TopicReply | MessageKind::ModeReply => is_about_channel(chan_types, m, 3, 1),
    }
}

/// What a message tells a server whose CHANTYPES is this, before or after its first 001: the kind
/// that its command names in capitals. It is `Other` where no kind has that command, and where the
/// message lacks what its kind uses: a parameter, the name of a channel where one belongs, or for
/// 433 that no 001 was there.
#[tactic(auto, unfolding(crate::specs::Rows::kind_of))]
pub fn kind_of(chan_types: &[u8], is_registered: bool, m: &Message) -> MessageKind
    ensures { result ≡ kind_of chan_types.now is_registered m.now }
{
    let kind = named(m.command.as_slice());
    if is_complete(chan_types, is_registered, m, kind) {
        kind
    } else {
        MessageKind::Other
    }
}
