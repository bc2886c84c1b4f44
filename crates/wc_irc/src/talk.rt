ghost use Rattle.std.specs.Prelude.{◌≡◌, ◌-◌, Some, ℕ, List, length};
ghost use Rattle.wc_irc.specs.SpeechActs.{talk_in, talk_of, may_be_cut, open_deed, said_or_done};
ghost use Rattle.wc_irc.specs.SpeechActs.{talk_heard};
ghost use Rattle.wc_irc.specs.SpeechSeen.{talk_seen};

use wc_irc_texts::param;
use wc_ircmsg::{Message, read_ctcp};

/// What a text between clients is.
#[derive(Clone, Copy)]
pub(crate) enum Talk<'a> {
    /// Something that is said.
    Says(&'a [u8]),
    /// Something that is done, as `/me` tells it.
    Does(&'a [u8]),
    /// Another request between clients, by its word.
    Requests(&'a [u8]),
}

/// What a request between clients is, by its word and what comes after it.
fn requested<'a>(word: &'a [u8], rest: &'a [u8]) -> Talk<'a>
    ensures { (text : List ℕ) → talk_seen result ≡ talk_in text (Some (word.now, rest.now)) }
{
    if word == b"ACTION".as_slice() {
        Talk::Does(rest)
    } else {
        Talk::Requests(word)
    }
}

/// What a text is.
pub(crate) fn talk_of(text: &[u8]) -> Talk<'_>
    ensures { talk_seen result ≡ talk_of text.now }
{
    match read_ctcp(text) {
        Some((word, rest)) => requested(word, rest),
        None => Talk::Says(text),
    }
}

/// The bytes before a deed.
const DEED: &[u8] = b"\x01ACTION ";

/// How long a line may be that no server cuts.
const SHORT: usize = 400;

/// How many bytes there are in it beside its parts.
const BETWEEN: usize = 7;

/// What a part leaves of the room.
pub(crate) fn room_after(room: usize, part: &[u8]) -> usize
    ensures { result ≡ room - length part.now }
{
    room.saturating_sub(part.len())
}

/// Whether a line of these parts, with a source in front, may have been cut by a server.
fn may_be_cut(m: &Message) -> bool
    ensures { result ≡ may_be_cut m.now }
{
    let room = room_after(SHORT - BETWEEN, m.nick.as_slice());
    let room = room_after(room, m.user.as_slice());
    let room = room_after(room, m.host.as_slice());
    let room = room_after(room, m.command.as_slice());
    let room = room_after(room, param(m, 0));
    room_after(room, param(m, 1)) == 0
}

/// What is done, also without its end.
fn open_deed(text: &[u8]) -> Talk<'_>
    ensures { talk_seen result ≡ open_deed text.now }
{
    match text.strip_prefix(DEED) {
        Some(deed) => Talk::Does(deed),
        None => Talk::Says(text),
    }
}

fn said_or_done(cut: bool, text: &[u8]) -> Talk<'_>
    ensures { talk_seen result ≡ said_or_done cut text.now }
{
    if cut {
        open_deed(text)
    } else {
        Talk::Says(text)
    }
}

/// What a message says. Where its line is so long that it may have been cut, something that is done
/// may lack its end.
pub(crate) fn talk_heard(m: &Message) -> Talk<'_>
    ensures { talk_seen result ≡ talk_heard m.now }
{
    match talk_of(param(m, 1)) {
        Talk::Says(text) => said_or_done(may_be_cut(m), text),
        Talk::Does(deed) => Talk::Does(deed),
        Talk::Requests(word) => Talk::Requests(word),
    }
}
