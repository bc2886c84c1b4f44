ghost use Rattle.std.specs.Prelude.{◌≡◌, IfOk, IfSome, OnOk, IsTrue, is_some};
ghost use Rattle.std.specs.Str.{IsUtf8};
ghost use Rattle.wc_eval.specs.Verdicts.{Oracle, Agrees, Stay};
ghost use Rattle.wc_filters.specs.Finders.{AreBuiltOf};
ghost use Rattle.wc_filters.specs.Patterns.{is_tab, from_tab, halves_of, parted, search_by, search_of};
ghost use Rattle.wc_filters.specs.Patterns.{half_is_fine, half_is_known, is_fine_by, is_known};

use crate::halves::Halves;
use std::alloc::Global;
use wc_eval::Verdicts;
use wc_text::{NoMemory, Text};

/// What the pattern of a filter asks of a line: of the prefix and of the message, where an empty
/// pattern asks nothing.
#[derive(Drop)]
pub(crate) struct Search {
    /// Lines are meant of which the two do not hold.
    pub(crate) negated: bool,
    pub(crate) prefix: Text,
    pub(crate) message: Text,
}

impl Search {
    /// What a text asks.
    #[tactic(auto, unfolding(crate::specs::Patterns::search_of))]
    pub(crate) fn read(alloc: Global, text: &[u8]) -> Result<Search, NoMemory>
        ensures { IfOk result (λ search. search ≡ search_of text.now) }
    {
        match text {
            [b'!', others @ ..] => Search::of_halves(alloc, true, others),
            _ => Search::of_halves(alloc, false, text),
        }
    }

    fn of_halves(alloc: Global, negated: bool, text: &[u8]) -> Result<Search, NoMemory>
        ensures { IfOk result (λ search. search ≡ search_by negated (halves_of text.now)) }
    {
        let (prefix, message) = halves(text);
        Ok(Search {
            negated,
            prefix: Text::from_slice(alloc, prefix)?,
            message: Text::from_slice(alloc, message)?,
        })
    }

    /// The same in memory of its own.
    pub(crate) fn copy(&self, alloc: Global) -> Result<Search, NoMemory>
        ensures { IfOk result (λ search. search ≡ self.now) }
    {
        Ok(Search {
            negated: self.negated,
            prefix: self.prefix.copy(alloc)?,
            message: self.message.copy(alloc)?,
        })
    }

    /// Whether the verdicts on both patterns are that they are some.
    fn judge(&self, verdicts: &mut Verdicts) -> Result<bool, NoMemory>
        requires prefix { IsUtf8 self.now.prefix }
        requires message { IsUtf8 self.now.message }
        ensures fine { IfOk result (λ fine. (oracle : Oracle) → Agrees oracle verdicts.new →
            fine ≡ is_fine_by oracle self.now) }
        ensures known { IfOk result (λ fine. fine ≡ is_known verdicts.new self.now) }
        ensures stay { Stay verdicts.old verdicts.new }
    {
        if !judge_half(verdicts, &self.prefix)? {
            return Ok(false);
        }
        judge_half(verdicts, &self.message)
    }

    /// What both patterns are built into. None where the verdict on one is that it is none.
    pub(crate) fn build(&self, verdicts: &mut Verdicts) -> Result<Option<Halves>, NoMemory>
        requires prefix { IsUtf8 self.now.prefix }
        requires message { IsUtf8 self.now.message }
        ensures built { IfOk result (λ halves. IfSome halves (AreBuiltOf self.now)) }
        ensures fine { IfOk result (λ halves. (oracle : Oracle) → Agrees oracle verdicts.new →
            is_some halves ≡ is_fine_by oracle self.now) }
        ensures known { IfOk result (λ halves. is_some halves ≡ is_known verdicts.new self.now) }
        ensures stay { Stay verdicts.old verdicts.new }
    {
        if !self.judge(verdicts)? {
            return Ok(None);
        }
        let halves = Halves::of(verdicts, self)?;
        Ok(Some(halves))
    }
}

/// Whether the verdict on a pattern is that it is one. An empty one is not judged.
fn judge_half(verdicts: &mut Verdicts, pattern: &Text) -> Result<bool, NoMemory>
    requires { IsUtf8 pattern.now }
    ensures fine { IfOk result (λ fine. (oracle : Oracle) → Agrees oracle verdicts.new →
        fine ≡ half_is_fine oracle pattern.now) }
    ensures known { IfOk result (λ fine. fine ≡ half_is_known verdicts.new pattern.now) }
    ensures stay { Stay verdicts.old verdicts.new }
{
    if pattern.as_slice().is_empty() {
        return Ok(true);
    }
    verdicts.judge(pattern)
}

/// The patterns on prefix and message.
fn halves(text: &[u8]) -> (&[u8], &[u8])
    ensures { (result.0.now, result.1.now) ≡ halves_of text.now }
{
    if text == b"*".as_slice() {
        return (b"", b"");
    }
    parted(text)
}

/// What is before and after the first `\t`. Without one the text is on the message alone.
#[tactic(auto, using(crate::proofs::TabLemmas::cuts))]
fn parted(text: &[u8]) -> (&[u8], &[u8])
    ensures { (result.0.now, result.1.now) ≡ parted (from_tab text.now) text.now }
{
    let tab = from_tab(text);
    match tab {
        [_, _, message @ ..] => (&text[..text.len() - tab.len()], message),
        _ => (b"", text),
    }
}

/// The text from the first `\t` on.
fn from_tab(text: &[u8]) -> &[u8]
    ensures { result.now ≡ from_tab text.now }
{
    let mut rest = text;
    while let [_, others @ ..] = rest {
        if is_tab(rest) {
            return rest;
        }
        rest = others;
    }
    rest
}

fn is_tab(text: &[u8]) -> bool
    ensures { result ≡ is_tab text.now }
{
    match text {
        [b'\\', b't', ..] => true,
        _ => false,
    }
}
