//! Messages that a client is owed, each in a frame of its own.
ghost use Rattle.std.specs.Prelude.{◌≡◌, ◌<◌, ◌≤◌, length, MatchOption};
ghost use Rattle.std.specs.Option.{option_copied};
ghost use Rattle.wc_framing.specs.Messages.{FirstMessage, Frames, stated};

use wc_ws::{PutRefused, WsLink};

/// How many bytes a message has at least: its length, its compression and the length of its id.
const LEAST: usize = 9;

/// How far messages were put into frames.
#[derive(Clone, Copy)]
pub struct Framed {
    /// How many bytes the messages have that were.
    pub count: usize,
    /// Why the next one was not, where there is one.
    pub refused: Option<PutRefused>,
}

/// The length that the first four bytes state.
fn stated_length(bytes: &[u8]) -> Option<usize>
    ensures { MatchOption result (length bytes.now < 4) (λ size. (4 ≤ length bytes.now)
        × (size ≡ stated bytes.now)) }
{
    if bytes.len() < 4 {
        return None;
    }
    let size = u32::from_be_bytes([bytes[0], bytes[1], bytes[2], bytes[3]]);
    Some(size as usize)
}

/// The message at the front, where it is whole.
#[tactic(auto, using(crate::proofs::MessagesLemmas::none_short, crate::proofs::MessagesLemmas::none_stated, crate::proofs::MessagesLemmas::none_whole, crate::proofs::MessagesLemmas::first_whole))]
fn first_message(bytes: &[u8]) -> Option<&[u8]>
    ensures { FirstMessage bytes.now (option_copied result) }
{
    let length = stated_length(bytes)?;
    if length < LEAST {
        return None;
    }
    if bytes.len() < length {
        return None;
    }
    Some(&bytes[..length])
}

/// Puts each whole message at the front of these bytes into a binary frame of its own, up to one
/// that is refused.
pub fn put_messages(link: &mut WsLink, bytes: &[u8]) -> Framed
    ensures within { result.count ≤ length bytes.now }
    ensures frames { Frames bytes.now link.old result link.new }
{
    let mut count = 0;
    while let Some(message) = first_message(&bytes[count..]) {
        if let Err(why) = link.put(message) {
            return Framed {
                count,
                refused: Some(why),
            };
        }
        count += message.len();
    }
    Framed {
        count,
        refused: None,
    }
}
