ghost use Rattle.std.specs.Prelude.{◌≡◌, IfOk};
ghost use Rattle.wc_triggers.specs.Triggers.{listens, matches_line, contains_folded};
ghost use Rattle.wc_triggers.specs.Triggers.{listens_to_buffer, listens_to_tags, AreTexts, IsFine};
ghost use Rattle.wc_triggers.specs.Reactions.{reaction_of, SaysTexts};
ghost use Rattle.wc_eval.specs.Verdicts.{Oracle, Agrees, Stay};
ghost use Rattle.wc_eval.specs.Names.{facts_of, AreTexts as AreKnown};
ghost use Rattle.std.specs.Prelude.{is_some, true};
ghost use Rattle.std.specs.Option.{option_copied};
ghost use Rattle.std.specs.Str.{bytes_eq};
ghost use Rattle.wc_text.specs.Mask.{after_front};

use crate::arguments::Arguments;
use crate::keys::TriggerKey;
use crate::outcomes::{PostAction, ReturnCode};
use crate::react::{Reaction, react};
use crate::replacements::Replacement;
use std::alloc::Global;
use std::marker::Model;
use wc_eval::{Scope, Verdicts};
use wc_filters::{Tags, buffers_match, tags_match};
use wc_hooks::HookKind;
use wc_lines::Line;
use wc_text::{Items, NoMemory, Text};

/// What a trigger is, as contracts see it.
#[derive(Drop)]
pub struct TriggerParts {
    pub(crate) name: Text,
    pub(crate) kind: HookKind,
    pub(crate) arguments: Arguments,
    /// Where it is not empty and does not hold, the trigger does not fire.
    pub(crate) condition: Text,
    pub(crate) replacements: Items<Replacement>,
    pub(crate) commands: Items<Text>,
    pub(crate) code: ReturnCode,
    pub(crate) post: PostAction,
    pub(crate) enabled: bool,
}

/// What a user has run at an event. Contracts see its parts.
#[derive(Drop)]
pub struct Trigger {
    parts: TriggerParts,
}

impl Model for Trigger {
    ghost use Rattle.wc_triggers.specs.declared.trigger.TriggerParts.{TriggerParts};

    ghost Value = { TriggerParts };

    ghost use Rattle.wc_triggers.specs.Triggers.{AreTexts};

    ghost view = { λ t. t.parts };

    ghost invariant = { λ t. AreTexts t.parts };
}

impl Trigger {
    /// The trigger of these parts.
    pub(crate) fn new(parts: TriggerParts) -> Trigger
        requires { AreTexts parts }
        ensures { result ≡ parts }
    {
        Trigger { parts }
    }

    pub fn name(&self) -> &Text
        ensures { result.now ≡ self.now.name }
    {
        &self.parts.name
    }

    /// Whether it has this name.
    pub(crate) fn is_named(&self, name: &Text) -> bool
        ensures { result ≡ bytes_eq self.now.name name.now }
    {
        self.parts.name.as_slice() == name.as_slice()
    }

    pub fn kind(&self) -> HookKind
        ensures { result ≡ self.now.kind }
    {
        self.parts.kind
    }

    /// The keys that it is hooked under, each once. The one of a timer is empty.
    pub fn keys(&self) -> &Items<TriggerKey>
        ensures { result.now ≡ self.now.arguments.keys }
    {
        &self.parts.arguments.keys
    }

    pub fn enabled(&self) -> bool
        ensures { result ≡ self.now.enabled }
    {
        self.parts.enabled
    }

    /// The milliseconds between two calls of a timer, and 0 for another hook.
    pub fn interval(&self) -> u64
        ensures { result ≡ self.now.arguments.interval }
    {
        self.parts.arguments.interval
    }

    /// How many calls of a timer there may be, where it is not 0, and 0 for another hook.
    pub fn max_calls(&self) -> u64
        ensures { result ≡ self.now.arguments.max_calls }
    {
        self.parts.arguments.max_calls
    }

    /// What it does at an event, up to its commands: whether it fires, the variables as its
    /// replacements leave them, its commands, of which each is still to be evaluated at its turn,
    /// its return code and its post action. The replacements are one evaluation: a variable is empty
    /// where it would be longer than 65,536 bytes or another limit is passed, and so is from then on
    /// each in which a pattern has a match.
    ///
    /// Refused for want of memory alone.
    pub fn react(
        &self,
        alloc: Global,
        scope: Scope<'_>,
        verdicts: &mut Verdicts,
    ) -> Result<Reaction, NoMemory>
        requires scope { AreKnown (facts_of scope) }
        requires fine { IsFine verdicts.old self.now }
        // Whatever is thought of texts that were not judged, the answer is the same.
        ensures reaction { IfOk result (λ reaction. (oracle : Oracle) →
            Agrees oracle verdicts.new →
            reaction ≡ reaction_of self.now (facts_of scope.entry) oracle) }
        ensures texts { IfOk result SaysTexts }
        ensures stay { Stay verdicts.old verdicts.new }
    {
        react(alloc, &self.parts, scope, verdicts)
    }

    /// Enables or disables the trigger.
    pub(crate) fn switch(&mut self, on: bool)
        ensures { self.new ≡ record self.old { enabled = on } }
    {
        self.parts.enabled = on;
    }

    /// Whether the arguments of a print match a line of the buffer of this full name: each of them
    /// does, of which an empty one always does. A trigger of another hook listens to all lines.
    pub fn listens(&self, full_name: &Text, line: &Line) -> bool
        ensures { result ≡ listens self.now full_name.now line.now }
    {
        self.parts.kind != HookKind::Print || matches_line(&self.parts.arguments, full_name, line)
    }
}

fn matches_line(arguments: &Arguments, full_name: &Text, line: &Line) -> bool
    ensures { result ≡ matches_line arguments.now full_name.now line.now }
{
    listens_to_buffer(arguments.buffers.as_slice(), full_name.as_slice())
        && listens_to_tags(arguments.tags.as_slice(), line.tags.as_slice())
        && contains_folded(arguments.text.as_slice(), line.message.as_slice())
}

fn listens_to_buffer(masks: &[u8], full_name: &[u8]) -> bool
    ensures { result ≡ listens_to_buffer masks.now full_name.now }
{
    masks.is_empty() || buffers_match(masks, full_name)
}

fn listens_to_tags(items: &[u8], tags: &[Text]) -> bool
    ensures { result ≡ listens_to_tags items.now tags.now }
{
    items.is_empty() || tags_match(items, Tags::Listed(tags))
}

/// Whether the part stands somewhere in the text, with ASCII case ignored.
fn contains_folded(part: &[u8], text: &[u8]) -> bool
    ensures { result ≡ contains_folded part.now text.now }
{
    let mut rest = text;
    while let [_, others @ ..] = rest {
        if begins_folded(part, rest) {
            return true;
        }
        rest = others;
    }
    begins_folded(part, rest)
}

/// Whether the text begins with the part, with ASCII case ignored.
fn begins_folded(part: &[u8], text: &[u8]) -> bool
    ensures { result ≡ is_some (after_front true part.now text.now) }
{
    let mut part = part;
    let mut text = text;
    while let Some((c, others)) = part.split_first() {
        let Some((b, following)) = text.split_first() else {
            return false;
        };
        if c.to_ascii_lowercase() != b.to_ascii_lowercase() {
            return false;
        }
        part = others;
        text = following;
    }
    true
}
