ghost use Rattle.std.specs.Prelude.{◌≡◌, ◌++◌, ◌∷◌, [], filter, map, OnOk, IfOk, if◌then◌else◌};
ghost use Rattle.std.specs.Option.{option_copied};
ghost use Rattle.wc_text.specs.Words.{words_of};
ghost use Rattle.wc_irc_texts.specs.Capabilities.{is_among, has_plain, is_offer, is_offered};
ghost use Rattle.wc_irc_texts.specs.Capabilities.{known, wished_names, offered_names};
ghost use Rattle.wc_irc_texts.specs.Capabilities.{named_in, unnamed_in};
ghost use Rattle.wc_irc_texts.specs.Pieces.{pieces};

use std::alloc::Global;
use wc_text::{Items, NoMemory, Text, split_once, words};

/// The capability by which a client logs in.
pub const SASL: &[u8] = b"sasl";

/// The way of it that sends a name and a password.
const PLAIN: &[u8] = b"PLAIN";

/// How many capabilities are known beside it.
const COUNT: usize = 10;

/// Those that may be asked for: this program reads rightly what each of them changes.
const KNOWN: [&[u8]; COUNT] = [
    b"multi-prefix",
    b"extended-join",
    b"away-notify",
    b"account-notify",
    b"chghost",
    b"setname",
    b"message-tags",
    b"userhost-in-names",
    b"invite-notify",
    b"server-time",
];

/// Whether a name is one of these.
pub fn is_among(name: &[u8], names: &[Text]) -> bool
    ensures { result ≡ is_among name.now names.now }
{
    names.iter().any(|other| name == other.as_slice())
}

/// Whether a name is one of the words of a text.
fn is_word(name: &[u8], text: &[u8]) -> bool
    ensures { result ≡ is_among name.now (words_of text.now) }
{
    for word in words(text) {
        if name == word {
            return true;
        }
    }
    false
}

/// Whether a name is one of the pieces of a text, which commas part.
fn is_piece(name: &[u8], text: &[u8]) -> bool
    ensures { result ≡ is_among name.now (pieces text.now) }
{
    let mut left = Some(text);
    while let Some(rest) = left {
        let (piece, others) = split_once(rest, b',');
        if name == piece {
            return true;
        }
        left = others;
    }
    false
}

fn has_plain(value: Option<&[u8]>) -> bool
    ensures { result ≡ has_plain (option_copied value.entry) }
{
    match value {
        Some(value) => is_piece(PLAIN, value),
        None => true,
    }
}

/// Whether a word offers the capability of a name.
fn is_offer(name: &[u8], word: &[u8]) -> bool
    ensures { result ≡ is_offer name.now word.now }
{
    let (offered, value) = split_once(word, b'=');
    name == offered && (name != SASL || has_plain(value))
}

fn is_offered(name: &[u8], text: &[u8]) -> bool
    ensures { result ≡ is_offered name.now text.now }
{
    for word in words(text) {
        if is_offer(name, word) {
            return true;
        }
    }
    false
}

// ---- lists of names

/// Puts a name after the others, where it is kept.
fn put_if(
    names: &mut Items<Text>,
    alloc: Global,
    name: &[u8],
    is_kept: bool,
) -> Result<(), NoMemory>
    ensures { OnOk result (names.new ≡ names.old ++ (if is_kept then name.now ∷ [] else [])) }
{
    if !is_kept {
        return Ok(());
    }
    names.push(Text::from_slice(alloc, name)?)
}

/// Puts those of some names that are words of an option after the names.
fn put_words(
    names: &mut Items<Text>,
    alloc: Global,
    option: &[u8],
    others: &[&[u8]],
) -> Result<(), NoMemory>
    ensures { OnOk result (names.new ≡ names.old
        ++ filter (λ name. is_among name (words_of option.now)) (map (λ name. name.now) others.now)) }
{
    for name in others {
        put_if(names, alloc, name, is_word(name, option))?;
    }
    Ok(())
}

/// Puts the known ones that are words of an option after the names.
#[tactic(auto, unfolding(crate::specs::Capabilities::known))]
fn put_known(names: &mut Items<Text>, alloc: Global, option: &[u8]) -> Result<(), NoMemory>
    ensures { OnOk result (names.new
        ≡ names.old ++ filter (λ name. is_among name (words_of option.now)) known) }
{
    put_words(names, alloc, option, &KNOWN)
}

/// The capabilities that a login wishes for: `sasl` where it has a name and a password, and the
/// known ones that are words of an option.
pub(crate) fn wished_names(
    alloc: Global,
    logs_in: bool,
    option: &[u8],
) -> Result<Items<Text>, NoMemory>
    ensures { IfOk result (λ names. names ≡ wished_names logs_in option.now) }
{
    let mut names = Items::new(alloc);
    put_if(&mut names, alloc, SASL, logs_in)?;
    put_known(&mut names, alloc, option)?;
    Ok(names)
}

/// Those that were offered before, and those that a text offers.
pub(crate) fn offered_names(
    alloc: Global,
    wished: &[Text],
    offered: &[Text],
    text: &[u8],
) -> Result<Items<Text>, NoMemory>
    ensures { IfOk result (λ names. names ≡ offered_names wished.now offered.now text.now) }
{
    let mut names = Items::new(alloc);
    for name in wished {
        let name = name.as_slice();
        let is_kept = is_among(name, offered) || is_offered(name, text);
        put_if(&mut names, alloc, name, is_kept)?;
    }
    Ok(names)
}

/// Those that are words of a text.
pub(crate) fn named_in(alloc: Global, names: &[Text], text: &[u8]) -> Result<Items<Text>, NoMemory>
    ensures { IfOk result (λ kept. kept ≡ named_in names.now text.now) }
{
    let mut kept = Items::new(alloc);
    for name in names {
        let name = name.as_slice();
        put_if(&mut kept, alloc, name, is_word(name, text))?;
    }
    Ok(kept)
}

/// Those that are not.
pub(crate) fn unnamed_in(
    alloc: Global,
    names: &[Text],
    text: &[u8],
) -> Result<Items<Text>, NoMemory>
    ensures { IfOk result (λ kept. kept ≡ unnamed_in names.now text.now) }
{
    let mut kept = Items::new(alloc);
    for name in names {
        let name = name.as_slice();
        put_if(&mut kept, alloc, name, !is_word(name, text))?;
    }
    Ok(kept)
}
