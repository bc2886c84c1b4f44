ghost use Rattle.std.specs.Prelude.{◌≡◌};
ghost use Rattle.wc_irc_texts.specs.Listed.{place_among, unsigned, bare_nick};
ghost use Rattle.wc_irc_texts.specs.Listed.{listed_nick, listed_bits};
ghost use Rattle.wc_irc_texts.specs.ListedSeen.{IsCut};
ghost use Rattle.wc_irc_texts.specs.Texts.{char_texts};

use crate::names::cut_char;
use crate::seat::ModeSet;
use wc_ircmsg::Prefixes;
use wc_text::split_once;

/// A name as a list of names has it, with the modes that its signs are.
#[derive(Clone, Copy)]
pub struct ListedName<'a> {
    pub nick: &'a [u8],
    pub modes: ModeSet,
}

/// The place of a character among those of a text.
fn place_among(signs: &[u8], character: &[u8]) -> Option<usize>
    ensures { result ≡ place_among (char_texts signs.now) character.now }
{
    let mut rest = signs;
    let mut place = 0;
    while !rest.is_empty() {
        let (sign, others) = cut_char(rest);
        if character == sign {
            return Some(place);
        }
        place += 1;
        rest = others;
    }
    None
}

/// The place of the sign at the front of a name, and the name without it, where one is there.
fn cut_sign<'a>(signs: &[u8], name: &'a [u8]) -> Option<(usize, &'a [u8])>
    ensures { IsCut (char_texts signs.now) name.now result }
{
    if name.is_empty() {
        return None;
    }
    let (character, others) = cut_char(name);
    match place_among(signs, character) {
        Some(place) => Some((place, others)),
        None => None,
    }
}

/// What is after the signs of a name, and the modes that these are.
fn without_signs<'a>(prefixes: &Prefixes, name: &'a [u8]) -> ListedName<'a>
    ensures nick { result.nick.now ≡ unsigned prefixes.now name.now }
    ensures modes { result.modes.0 ≡ listed_bits prefixes.now name.now }
{
    let mut nick = name;
    let mut modes = ModeSet::NONE;
    while let Some((place, others)) = cut_sign(prefixes.chars.as_slice(), nick) {
        modes = modes.changed(true, place);
        nick = others;
    }
    ListedName { nick, modes }
}

/// The nick of a name without signs.
fn bare_nick(has_hosts: bool, name: &[u8]) -> &[u8]
    ensures { result.now ≡ bare_nick has_hosts name.now }
{
    if has_hosts {
        split_once(name, b'!').0
    } else {
        name
    }
}

/// The nick of a name and the modes that its signs are. The signs are the characters of PREFIX that
/// are at the front of the name. Where names have hosts the nick ends at the first `!` after them.
pub fn listed_name<'a>(prefixes: &Prefixes, has_hosts: bool, name: &'a [u8]) -> ListedName<'a>
    ensures nick { result.nick.now ≡ listed_nick prefixes.now has_hosts name.now }
    ensures modes { result.modes.0 ≡ listed_bits prefixes.now name.now }
{
    let listed = without_signs(prefixes, name);
    ListedName {
        nick: bare_nick(has_hosts, listed.nick),
        modes: listed.modes,
    }
}
