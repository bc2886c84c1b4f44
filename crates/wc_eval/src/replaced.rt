ghost use Rattle.std.specs.Prelude.{◌≡◌, IfOk};
ghost use Rattle.std.specs.Str.{IsUtf8};
ghost use Rattle.wc_eval.specs.Verdicts.{Oracle, Agrees, Stay};
ghost use Rattle.wc_eval.specs.Names.{facts_of, AreTexts};
ghost use Rattle.wc_eval.specs.Progress.{Gives};
ghost use Rattle.wc_eval.specs.Replaced.{group_texts, value_at, replaced_text};

use crate::context::Context;
use crate::kept::Kept;
use crate::matches::{group_texts, match_span, text_between};
use crate::scope::Scope;
use crate::search::Span;
use crate::values::{Stop, append};
use crate::verdicts::Verdicts;
use std::alloc::Global;
use wc_text::{Items, Text};

/// What a match of these groups is replaced by: a text evaluated, which may name the groups.
fn value_at(
    alloc: Global,
    scope: Scope<'_>,
    verdicts: &mut Verdicts,
    kept: &mut Kept,
    replacement: &[u8],
    text: &[u8],
    groups: &[Span],
) -> Result<Text, Stop>
    requires scope { AreTexts (facts_of scope) }
    requires replacement { IsUtf8 replacement.now }
    ensures gives { Gives (λ oracle. value_at (facts_of scope.entry) oracle replacement.now
        (group_texts text.now groups.now)) verdicts.new kept.old kept.new result }
    ensures stay { Stay verdicts.old verdicts.new }
    ensures utf8 { IfOk result IsUtf8 }
{
    let groups = group_texts(alloc, text, groups)?;
    let scope = Scope {
        vars: scope.vars,
        options: scope.options,
        facts: scope.facts,
        locals: scope.locals,
        groups: &groups,
    };
    Context::new(alloc, scope).text(verdicts, kept, replacement)
}

/// A text in which these matches are replaced.
pub(crate) fn replaced_text(
    alloc: Global,
    scope: Scope<'_>,
    verdicts: &mut Verdicts,
    kept: &mut Kept,
    replacement: &[u8],
    text: &[u8],
    matches: &[Items<Span>],
) -> Result<Text, Stop>
    requires scope { AreTexts (facts_of scope) }
    requires replacement { IsUtf8 replacement.now }
    ensures gives { Gives (λ oracle. replaced_text (facts_of scope.entry) oracle replacement.now
        text.now matches.now) verdicts.new kept.old kept.new result }
    ensures stay { Stay verdicts.old verdicts.new }
    ensures utf8 { IfOk result IsUtf8 }
{
    let mut value = Text::new(alloc);
    let mut at = 0;
    let mut rest = matches;
    'matches: while let Some((found, others)) = rest.split_first() {
        let groups = found.as_slice();
        let (start, end) = match_span(groups);
        append(&mut value, text_between(text, at, start))?;
        let made = value_at(alloc, scope, verdicts, kept, replacement, text, groups)?;
        append(&mut value, made.as_slice())?;
        at = end;
        rest = others;
    }
    append(&mut value, text_between(text, at, text.len()))?;
    Ok(value)
}
