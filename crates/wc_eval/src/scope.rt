ghost use Rattle.std.specs.Prelude.{◌≡◌, All, IfSome, option_map};
ghost use Rattle.std.specs.Str.{IsUtf8, is_utf8};
ghost use Rattle.wc_eval.specs.Names.{facts_of, value_of, text_in, option_in, known_in};
ghost use Rattle.wc_eval.specs.Names.{group_value, HasText, AreTexts};

use crate::values::read_size;
use wc_options::Options;
use wc_text::{Items, Pair, Text};

/// What a text may name.
#[derive(Clone, Copy)]
pub struct Scope<'a> {
    /// The variables of a trigger.
    pub vars: &'a Items<Pair>,
    pub options: &'a Options,
    /// Facts of the buffer.
    pub facts: &'a Items<Pair>,
    /// The local variables of the buffer.
    pub locals: &'a Items<Pair>,
    /// The groups of the last match, of which the first is the match.
    pub groups: &'a Items<Text>,
}

/// The value of the first pair with this name.
pub fn value_of<'a>(pairs: &'a [Pair], name: &[u8]) -> Option<&'a [u8]>
    requires { All HasText pairs.now }
    ensures utf8 { IfSome result (λ value. IsUtf8 value.now) }
    ensures value { option_map (λ value. value.now) result ≡ value_of name.now pairs.now }
{
    for pair in pairs {
        if pair.name.as_slice() == name {
            return Some(pair.value.as_slice());
        }
    }
    None
}

/// Whether bytes are UTF-8.
fn is_text(bytes: &[u8]) -> bool
    ensures { result ≡ is_utf8 bytes.now }
{
    match std::str::from_utf8(bytes) {
        Ok(_) => true,
        Err(_) => false,
    }
}

/// A value, where it is text.
pub(crate) fn text_in(value: &[u8]) -> Option<&[u8]>
    ensures utf8 { IfSome result (λ text. IsUtf8 text.now) }
    ensures value { option_map (λ text. text.now) result ≡ text_in value.now }
{
    if is_text(value) { Some(value) } else { None }
}

/// The value of an option, where it is text.
fn option_in<'a>(options: &'a Options, name: &[u8]) -> Option<&'a [u8]>
    ensures utf8 { IfSome result (λ value. IsUtf8 value.now) }
    ensures value { option_map (λ value. value.now) result ≡ option_in options.now name.now }
{
    match options.get(name) {
        Some(value) => text_in(value.as_slice()),
        None => None,
    }
}

impl<'a> Scope<'a> {
    /// What a name stands for that is not defined in the text.
    pub(crate) fn known(self, name: &[u8]) -> Option<&'a [u8]>
        requires { AreTexts (facts_of self) }
        ensures utf8 { IfSome result (λ value. IsUtf8 value.now) }
        ensures value { option_map (λ value. value.now) result
            ≡ known_in (facts_of self.entry) name.now }
    {
        if let Some(value) = value_of(self.vars.as_slice(), name) {
            return Some(value);
        }
        if let Some(value) = option_in(self.options, name) {
            return Some(value);
        }
        if let Some(value) = value_of(self.facts.as_slice(), name) {
            return Some(value);
        }
        value_of(self.locals.as_slice(), name)
    }

    /// A group of the last match, or nothing.
    #[tactic(auto, unfolding(crate::specs::Names::group_value))]
    pub(crate) fn group(self, number: &[u8]) -> &'a [u8]
        requires { AreTexts (facts_of self) }
        ensures utf8 { IsUtf8 result.now }
        ensures value { result.now ≡ group_value (facts_of self.entry) number.now }
    {
        let Some(place) = read_size(number) else {
            return b"";
        };
        match self.groups.as_slice().get(place as usize) {
            Some(group) => group.as_slice(),
            None => b"",
        }
    }
}
