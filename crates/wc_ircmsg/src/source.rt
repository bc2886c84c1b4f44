ghost use Rattle.std.specs.Prelude.{◌≡◌};
ghost use Rattle.std.specs.Option.{option_copied};
ghost use Rattle.wc_ircmsg.specs.Sources.{nick_of, user_of, host_of, or_empty};

use wc_text::split_once;

/// What the prefix of a message names. A part that is not there is empty.
#[derive(Clone, Copy)]
pub struct Source<'a> {
    pub nick: &'a [u8],
    pub user: &'a [u8],
    pub host: &'a [u8],
}

pub(crate) fn or_empty(text: Option<&[u8]>) -> &[u8]
    ensures { result.now ≡ or_empty (option_copied text.entry) }
{
    match text {
        Some(text) => text,
        None => &[],
    }
}

/// The parts of a prefix: a nick, after `!` a user, and after the first `@` a host.
pub(crate) fn cut_source(prefix: &[u8]) -> Source<'_>
    ensures nick { result.nick.now ≡ nick_of prefix.now }
    ensures user { result.user.now ≡ user_of prefix.now }
    ensures host { result.host.now ≡ host_of prefix.now }
{
    let (front, host) = split_once(prefix, b'@');
    let (nick, user) = split_once(front, b'!');
    Source {
        nick,
        user: or_empty(user),
        host: or_empty(host),
    }
}
