ghost use Rattle.std.specs.Prelude.{◌≡◌, IfOk, OnOk, fold};
ghost use Rattle.wc_irc_texts.specs.Features.{default_features, tokens_of, read_prefixes, read_case_map};
ghost use Rattle.wc_irc_texts.specs.Features.{are_mode_lists, with_prefixes, with_case_map};
ghost use Rattle.wc_irc_texts.specs.Features.{with_chan_modes, with_status_msg, with_value, with_token};
ghost use Rattle.wc_irc_texts.specs.Features.{after_tokens};

use std::alloc::Global;
use wc_ircmsg::{CaseMap, Prefixes, read_prefix_token};
use wc_text::{NoMemory, Text, split_once};

/// How many commas part the lists of CHANMODES.
const COMMAS: usize = 3;

/// What a server tells of itself by 005.
#[derive(Drop)]
pub struct Features {
    /// The modes of nicks and their signs.
    pub prefixes: Prefixes,
    /// The characters with which names of channels begin.
    pub chan_types: Text,
    /// Which names are the same.
    pub case_map: CaseMap,
    /// Four lists of modes of channels, which commas part.
    pub chan_modes: Text,
    /// The signs before a channel that make of it those of its nicks that have the sign, where the
    /// server tells them; else they are the signs of the modes of nicks.
    pub status_msg: Option<Text>,
}

fn copied_prefixes(alloc: Global, prefixes: &Prefixes) -> Result<Prefixes, NoMemory>
    ensures { IfOk result (λ copy. copy ≡ prefixes.now) }
{
    let modes = prefixes.modes.copy(alloc)?;
    let chars = prefixes.chars.copy(alloc)?;
    Ok(Prefixes { modes, chars })
}

fn copied_signs(alloc: Global, signs: &Option<Text>) -> Result<Option<Text>, NoMemory>
    ensures { IfOk result (λ copy. copy ≡ signs.now) }
{
    match signs {
        Some(signs) => Ok(Some(signs.copy(alloc)?)),
        None => Ok(None),
    }
}

/// The sides of PREFIX in a value. None where it has another form.
fn read_prefixes(alloc: Global, value: &[u8]) -> Result<Option<Prefixes>, NoMemory>
    ensures { IfOk result (λ prefixes. prefixes ≡ read_prefixes value.now) }
{
    read_prefix_token(alloc, value)
}

fn read_case_map(value: &[u8]) -> Option<CaseMap>
    ensures { result ≡ read_case_map value.now }
{
    if value == b"ascii".as_slice() {
        Some(CaseMap::Ascii)
    } else if value == b"rfc1459".as_slice() {
        Some(CaseMap::Rfc1459)
    } else if value == b"strict-rfc1459".as_slice() {
        Some(CaseMap::StrictRfc1459)
    } else {
        None
    }
}

/// Whether a value is four lists, which commas part.
fn are_mode_lists(value: &[u8]) -> bool
    ensures { result ≡ are_mode_lists value.now }
{
    value.iter().filter(|byte| **byte == b',').count() == COMMAS
}

/// The parameters between the first and the last.
fn tokens_of(params: &[Text]) -> &[Text]
    ensures { result.now ≡ tokens_of params.now }
{
    match params {
        [_, tokens @ .., _] => tokens,
        _ => &[],
    }
}

impl Features {
    /// Those of a server that tells nothing.
    pub fn new(alloc: Global) -> Result<Features, NoMemory>
        ensures { IfOk result (λ features. features ≡ default_features) }
    {
        let modes = Text::from_slice(alloc, b"ov")?;
        let chars = Text::from_slice(alloc, b"@+")?;
        let chan_types = Text::from_slice(alloc, b"#&")?;
        let chan_modes = Text::from_slice(alloc, b"beI,k,l,")?;
        Ok(Features {
            prefixes: Prefixes { modes, chars },
            chan_types,
            case_map: CaseMap::Rfc1459,
            chan_modes,
            status_msg: None,
        })
    }

    /// The same in memory of their own.
    pub fn copy(&self, alloc: Global) -> Result<Features, NoMemory>
        ensures { IfOk result (λ copy. copy ≡ self.now) }
    {
        let prefixes = copied_prefixes(alloc, &self.prefixes)?;
        let chan_types = self.chan_types.copy(alloc)?;
        let chan_modes = self.chan_modes.copy(alloc)?;
        let status_msg = copied_signs(alloc, &self.status_msg)?;
        Ok(Features {
            prefixes,
            chan_types,
            case_map: self.case_map,
            chan_modes,
            status_msg,
        })
    }

    fn take_prefixes(&mut self, alloc: Global, value: &[u8]) -> Result<(), NoMemory>
        ensures { OnOk result (self.new ≡ with_prefixes self.old (read_prefixes value.now)) }
    {
        if let Some(prefixes) = read_prefixes(alloc, value)? {
            self.prefixes = prefixes;
        }
        Ok(())
    }

    fn take_chan_types(&mut self, alloc: Global, value: &[u8]) -> Result<(), NoMemory>
        ensures { OnOk result (self.new ≡ record self.old { chan_types = value.now }) }
    {
        self.chan_types = Text::from_slice(alloc, value)?;
        Ok(())
    }

    fn take_case_map(&mut self, value: &[u8])
        ensures { self.new ≡ with_case_map self.old (read_case_map value.now) }
    {
        if let Some(case_map) = read_case_map(value) {
            self.case_map = case_map;
        }
    }

    fn take_chan_modes(&mut self, alloc: Global, value: &[u8]) -> Result<(), NoMemory>
        ensures { OnOk result (self.new ≡ with_chan_modes self.old value.now) }
    {
        if are_mode_lists(value) {
            self.chan_modes = Text::from_slice(alloc, value)?;
        }
        Ok(())
    }

    fn take_status_msg(&mut self, alloc: Global, value: &[u8]) -> Result<(), NoMemory>
        ensures { OnOk result (self.new ≡ with_status_msg self.old value.now) }
    {
        self.status_msg = Some(Text::from_slice(alloc, value)?);
        Ok(())
    }

    fn take_value(&mut self, alloc: Global, name: &[u8], value: &[u8]) -> Result<(), NoMemory>
        ensures { OnOk result (self.new ≡ with_value self.old name.now value.now) }
    {
        if name == b"PREFIX".as_slice() {
            return self.take_prefixes(alloc, value);
        }
        if name == b"CHANTYPES".as_slice() {
            return self.take_chan_types(alloc, value);
        }
        if name == b"CASEMAPPING".as_slice() {
            self.take_case_map(value);
            return Ok(());
        }
        if name == b"CHANMODES".as_slice() {
            return self.take_chan_modes(alloc, value);
        }
        if name == b"STATUSMSG".as_slice() {
            return self.take_status_msg(alloc, value);
        }
        Ok(())
    }

    fn take_token(&mut self, alloc: Global, token: &[u8]) -> Result<(), NoMemory>
        ensures { OnOk result (self.new ≡ with_token self.old token.now) }
    {
        match split_once(token, b'=') {
            (name, Some(value)) => self.take_value(alloc, name, value),
            (_, None) => Ok(()),
        }
    }

    fn take_tokens(&mut self, alloc: Global, tokens: &[Text]) -> Result<(), NoMemory>
        ensures { OnOk result (self.new ≡ fold with_token self.old tokens.now) }
    {
        for token in tokens {
            self.take_token(alloc, token.as_slice())?;
        }
        Ok(())
    }

    /// What the server tells of itself after a 005 with these parameters. Its tokens are those
    /// between the first and the last, and each counts over those before it. PREFIX, CHANTYPES,
    /// CASEMAPPING, CHANMODES and STATUSMSG are read; a value of another form than its token has changes
    /// nothing, and neither does a token without `=` or with a `-` in front.
    pub fn after_tokens(&self, alloc: Global, params: &[Text]) -> Result<Features, NoMemory>
        ensures { IfOk result (λ features. features ≡ after_tokens self.now params.now) }
    {
        let mut features = self.copy(alloc)?;
        features.take_tokens(alloc, tokens_of(params))?;
        Ok(features)
    }
}
