//! The replacements of a run of a trigger.

ghost use Rattle.std.specs.Prelude.{◌≡◌, All, IfOk, OnOk, IsTrue};
ghost use Rattle.std.specs.Str.{IsUtf8};
ghost use Rattle.wc_eval.specs.Verdicts.{Oracle, Agrees, Stay, is_known_fine};
ghost use Rattle.wc_eval.specs.Names.{facts_of, AreTexts, HasText};
ghost use Rattle.wc_triggers.specs.Replacements.{HasTexts, are_known};
ghost use Rattle.wc_triggers.specs.Reactions.{value_after, var_after, with_value, begun, matched};
ghost use Rattle.wc_triggers.specs.Reactions.{replaced_by, all_replaced, RunsOnTexts};

use crate::replacements::Replacement;
use std::alloc::Global;
use wc_eval::{Evaluation, Scope, Span, Verdicts, group_texts, matches_of, value_of};
use wc_text::{Items, NoMemory, Pair, Text};

/// How far the replacements of a run are.
#[derive(Drop)]
pub struct Run {
    pub(crate) vars: Items<Pair>,
    /// The groups of the last match.
    pub(crate) groups: Items<Text>,
    evaluation: Evaluation,
}

/// The value of a variable after this name is given this value.
fn value_after<'a>(pair: &'a Pair, name: &[u8], value: &'a [u8]) -> &'a [u8]
    ensures { result.now ≡ value_after name.now value.now pair.now }
{
    if pair.name.as_slice() == name {
        value
    } else {
        pair.value.as_slice()
    }
}

/// A variable after this name is given this value.
fn var_after(alloc: Global, pair: &Pair, name: &[u8], value: &[u8]) -> Result<Pair, NoMemory>
    ensures { IfOk result (λ var. var ≡ var_after name.now value.now pair.now) }
{
    Ok(Pair {
        name: pair.name.copy(alloc)?,
        value: Text::from_slice(alloc, value_after(pair, name, value))?,
    })
}

/// The variables after this name is given this value.
fn with_value(
    alloc: Global,
    vars: &[Pair],
    name: &[u8],
    value: &[u8],
) -> Result<Items<Pair>, NoMemory>
    ensures { IfOk result (λ made. made ≡ with_value name.now value.now vars.now) }
{
    let mut made = Items::new(alloc);
    let mut rest = vars;
    'vars: while let Some((pair, others)) = rest.split_first() {
        made.push(var_after(alloc, pair, name, value)?)?;
        rest = others;
    }
    Ok(made)
}

impl Run {
    /// A run that begins with what is known of the event.
    pub(crate) fn begin(alloc: Global, scope: Scope<'_>) -> Result<Run, NoMemory>
        ensures { IfOk result (λ run. run ≡ begun (facts_of scope.entry)) }
    {
        Ok(Run {
            vars: scope.vars.copy(alloc)?,
            groups: scope.groups.copy(alloc)?,
            evaluation: Evaluation::new(alloc),
        })
    }

    /// Replaces these matches in the text of a part's variable.
    fn replace_matches(
        &mut self,
        alloc: Global,
        scope: Scope<'_>,
        verdicts: &mut Verdicts,
        part: &Replacement,
        text: &Text,
        matches: &[Items<Span>],
    ) -> Result<(), NoMemory>
        requires scope { AreTexts (facts_of scope) }
        requires part { HasTexts part.now }
        requires texts { RunsOnTexts self.old }
        ensures run { OnOk result ((oracle : Oracle) → Agrees oracle verdicts.new →
            self.new ≡ matched (facts_of scope.entry) oracle part.now text.now matches.now
            self.old) }
        ensures texts { OnOk result (RunsOnTexts self.new) }
        ensures stay { Stay verdicts.old verdicts.new }
    {
        let Some((last, _)) = matches.split_last() else {
            return Ok(());
        };
        let groups = group_texts(alloc, text.as_slice(), last.as_slice())?;
        let scope = Scope {
            vars: &self.vars,
            options: scope.options,
            facts: scope.facts,
            locals: scope.locals,
            groups: scope.groups,
        };
        let value = self
            .evaluation
            .replaced(alloc, scope, verdicts, &part.replacement, text, matches)?;
        let name = part.variable.as_slice();
        self.vars = with_value(alloc, self.vars.as_slice(), name, value.as_slice())?;
        self.groups = groups;
        Ok(())
    }

    /// Replaces what a part finds in its variable.
    fn replace(
        &mut self,
        alloc: Global,
        scope: Scope<'_>,
        verdicts: &mut Verdicts,
        part: &Replacement,
    ) -> Result<(), NoMemory>
        requires scope { AreTexts (facts_of scope) }
        requires part { HasTexts part.now }
        requires known { IsTrue (is_known_fine part.now.pattern verdicts.old) }
        requires texts { RunsOnTexts self.old }
        ensures run { OnOk result ((oracle : Oracle) → Agrees oracle verdicts.new →
            self.new ≡ replaced_by (facts_of scope.entry) oracle part.now self.old) }
        ensures texts { OnOk result (RunsOnTexts self.new) }
        ensures stay { Stay verdicts.old verdicts.new }
    {
        let Some(value) = value_of(self.vars.as_slice(), part.variable.as_slice()) else {
            return Ok(());
        };
        let text = Text::from_slice(alloc, value)?;
        let matches = matches_of(alloc, verdicts, &text, &part.pattern)?;
        self.replace_matches(alloc, scope, verdicts, part, &text, matches.as_slice())
    }

    /// Replaces what each part finds in its variable, in order.
    pub(crate) fn replace_all(
        &mut self,
        alloc: Global,
        scope: Scope<'_>,
        verdicts: &mut Verdicts,
        parts: &[Replacement],
    ) -> Result<(), NoMemory>
        requires scope { AreTexts (facts_of scope) }
        requires parts { All HasTexts parts.now }
        requires known { IsTrue (are_known verdicts.old parts.now) }
        requires texts { RunsOnTexts self.old }
        ensures run { OnOk result ((oracle : Oracle) → Agrees oracle verdicts.new →
            self.new ≡ all_replaced (facts_of scope.entry) oracle parts.now self.old) }
        ensures texts { OnOk result (RunsOnTexts self.new) }
        ensures stay { Stay verdicts.old verdicts.new }
    {
        let mut rest = parts;
        'parts: while let Some((part, others)) = rest.split_first() {
            self.replace(alloc, scope, verdicts, part)?;
            rest = others;
        }
        Ok(())
    }
}
