ghost use Rattle.std.specs.List.{list_all};
ghost use Rattle.std.specs.Prelude.{◌≡◌, ◌||◌, codes};
ghost use Rattle.wc_irc_texts.specs.Names.{begins_with_char_of, is_nick_byte, is_nick, is_channel_byte};
ghost use Rattle.wc_irc_texts.specs.Names.{is_channel, is_same, begins_with_text};
ghost use Rattle.wc_irc_texts.specs.Texts.{is_inner};
ghost use Rattle.wc_irc_texts.specs.TextsSeen.{past_inner, first_char, after_char};

use wc_ircmsg::{CaseMap, Prefixes, same_name};

/// The most bytes of a nick.
pub const LONGEST_NICK: usize = 64;

/// The most bytes of a channel's name.
const LONGEST_CHANNEL: usize = 200;

/// Whether a byte is inside a character of UTF-8.
fn is_inner(byte: u8) -> bool
    ensures { result ≡ is_inner byte }
{
    0x80 <= byte && byte < 0xC0
}

fn past_inner(text: &[u8]) -> &[u8]
    ensures { result.now ≡ past_inner text.now }
{
    let mut rest = text;
    while let [first, others @ ..] = rest {
        if !is_inner(*first) {
            return rest;
        }
        rest = others;
    }
    rest
}

/// The first character of a text, and what comes after it.
#[tactic(auto, using(crate::proofs::TextLemmas::char_cuts))]
pub(crate) fn cut_char(text: &[u8]) -> (&[u8], &[u8])
    ensures first { result.0.now ≡ first_char text.now }
    ensures rest { result.1.now ≡ after_char text.now }
{
    let [_, others @ ..] = text else {
        return (text, text);
    };
    let back = past_inner(others);
    (&text[..text.len() - back.len()], back)
}

fn begins_with_text(text: &[u8], front: &[u8]) -> bool
    ensures { result ≡ begins_with_text text.now front.now }
{
    text.starts_with(front)
}

fn begins_with_colon(text: &[u8]) -> bool
    ensures { result ≡ begins_with_text text.now (codes ":") }
{
    begins_with_text(text, b":")
}

/// Whether a text begins with one of the characters of another.
#[tactic(auto, using(crate::proofs::TextLemmas::char_steps))]
fn begins_with_char_of(characters: &[u8], text: &[u8]) -> bool
    ensures { result ≡ begins_with_char_of characters.now text.now }
{
    let mut rest = characters;
    while !rest.is_empty() {
        let (character, others) = cut_char(rest);
        if begins_with_text(text, character) {
            return true;
        }
        rest = others;
    }
    false
}

fn is_nick_byte(byte: u8) -> bool
    ensures { result ≡ is_nick_byte byte }
{
    !(byte == b' ' || byte.is_ascii_control() || byte == b'!' || byte == b'@')
}

fn are_nick_bytes(text: &[u8]) -> bool
    ensures { result ≡ list_all is_nick_byte text.now }
{
    text.iter().all(|byte| is_nick_byte(*byte))
}

fn begins_with_sign(signs: &[u8], text: &[u8]) -> bool
    ensures { result ≡ (begins_with_text text.now (codes ":")
        || begins_with_char_of signs.now text.now) }
{
    begins_with_colon(text) || begins_with_char_of(signs, text)
}

/// Whether a text is a nick where PREFIX is this: it has 1 to 64 bytes, no blank, no control byte,
/// no `!` and no `@`, and begins with neither `:` nor a character of PREFIX.
#[tactic(auto, unfolding(crate::specs::Names::is_nick))]
pub fn is_nick(prefixes: &Prefixes, text: &[u8]) -> bool
    ensures { result ≡ is_nick prefixes.now text.now }
{
    !text.is_empty()
        && text.len() <= LONGEST_NICK
        && are_nick_bytes(text)
        && !begins_with_sign(prefixes.chars.as_slice(), text)
}

fn is_channel_byte(byte: u8) -> bool
    ensures { result ≡ is_channel_byte byte }
{
    !(byte == b' ' || byte.is_ascii_control() || byte == b',')
}

fn are_channel_bytes(text: &[u8]) -> bool
    ensures { result ≡ list_all is_channel_byte text.now }
{
    text.iter().all(|byte| is_channel_byte(*byte))
}

/// Whether a text is the name of a channel where CHANTYPES is this: it begins with one of its
/// characters other than `:`, and has at most 200 bytes, no blank, no comma and no control byte.
#[tactic(auto, unfolding(crate::specs::Names::is_channel))]
pub fn is_channel(chan_types: &[u8], text: &[u8]) -> bool
    ensures { result ≡ is_channel chan_types.now text.now }
{
    begins_with_char_of(chan_types, text)
        && !begins_with_colon(text)
        && text.len() <= LONGEST_CHANNEL
        && are_channel_bytes(text)
}

/// Whether two names are the same to a server of this case map.
pub fn is_same(case_map: CaseMap, a: &[u8], b: &[u8]) -> bool
    ensures { result ≡ is_same case_map a.now b.now }
{
    same_name(case_map, a, b)
}
