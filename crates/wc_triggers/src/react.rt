ghost use Rattle.std.specs.Prelude.{◌≡◌, All, IfOk};
ghost use Rattle.std.specs.Str.{IsUtf8};
ghost use Rattle.wc_eval.specs.Verdicts.{Oracle, Agrees, Stay};
ghost use Rattle.wc_eval.specs.Names.{facts_of, AreTexts as AreKnown};
ghost use Rattle.wc_triggers.specs.Replacements.{HasTexts};
ghost use Rattle.wc_triggers.specs.Triggers.{AreTexts, IsFine};
ghost use Rattle.wc_triggers.specs.Reactions.{begun, all_replaced, fires, idle, reaction_after};
ghost use Rattle.wc_triggers.specs.Reactions.{reaction_of, RunsOnTexts, SaysTexts};

use crate::outcomes::{PostAction, ReturnCode};
use crate::run::Run;
use crate::trigger::TriggerParts;
use std::alloc::Global;
use wc_eval::{Scope, Verdicts, condition};
use wc_text::{Items, NoMemory, Pair, Text};

/// What a trigger does at an event, up to its commands.
#[derive(Drop)]
pub struct Reaction {
    /// Whether it fires. Where it does not, nothing is replaced, run or done.
    pub fired: bool,
    /// The variables, as what is replaced leaves them.
    pub vars: Items<Pair>,
    /// The groups of the last match that was replaced, of which the first is the match.
    pub groups: Items<Text>,
    /// Its commands, each still to be evaluated at its turn with these variables and groups.
    pub commands: Items<Text>,
    pub code: ReturnCode,
    pub post: PostAction,
}

/// Whether a trigger fires: its condition is empty, or holds.
fn fires(
    alloc: Global,
    parts: &TriggerParts,
    scope: Scope<'_>,
    verdicts: &mut Verdicts,
) -> Result<bool, NoMemory>
    requires scope { AreKnown (facts_of scope) }
    requires condition { IsUtf8 parts.now.condition }
    ensures fires { IfOk result (λ fired. (oracle : Oracle) → Agrees oracle verdicts.new →
        fired ≡ fires parts.now (facts_of scope.entry) oracle) }
    ensures stay { Stay verdicts.old verdicts.new }
{
    if parts.condition.as_slice().is_empty() {
        return Ok(true);
    }
    condition(alloc, scope, verdicts, &parts.condition)
}

/// What a trigger does that does not fire.
fn idle(alloc: Global, scope: Scope<'_>) -> Result<Reaction, NoMemory>
    ensures { IfOk result (λ reaction. reaction ≡ idle (begun (facts_of scope.entry))) }
{
    let run = Run::begin(alloc, scope)?;
    Ok(Reaction {
        fired: false,
        vars: run.vars,
        groups: run.groups,
        commands: Items::new(alloc),
        code: ReturnCode::Ok,
        post: PostAction::Keep,
    })
}

/// A run whose replacements are done.
fn run_of(
    alloc: Global,
    parts: &TriggerParts,
    scope: Scope<'_>,
    verdicts: &mut Verdicts,
) -> Result<Run, NoMemory>
    requires scope { AreKnown (facts_of scope) }
    requires parts { All HasTexts parts.now.replacements }
    requires fine { IsFine verdicts.old parts.now }
    ensures run { IfOk result (λ run. (oracle : Oracle) → Agrees oracle verdicts.new →
        run ≡ all_replaced (facts_of scope.entry) oracle parts.now.replacements
        (begun (facts_of scope.entry))) }
    ensures texts { IfOk result RunsOnTexts }
    ensures stay { Stay verdicts.old verdicts.new }
{
    let mut run = Run::begin(alloc, scope)?;
    run.replace_all(alloc, scope, verdicts, parts.replacements.as_slice())?;
    Ok(run)
}

/// What a trigger does whose replacements are done.
fn reaction_after(alloc: Global, parts: &TriggerParts, run: Run) -> Result<Reaction, NoMemory>
    ensures { IfOk result (λ reaction. reaction ≡ reaction_after parts.now run) }
{
    let commands = parts.commands.copy(alloc)?;
    Ok(Reaction {
        fired: true,
        vars: run.vars,
        groups: run.groups,
        commands,
        code: parts.code,
        post: parts.post,
    })
}

/// What a trigger of these parts does at an event of which this is known.
pub(crate) fn react(
    alloc: Global,
    parts: &TriggerParts,
    scope: Scope<'_>,
    verdicts: &mut Verdicts,
) -> Result<Reaction, NoMemory>
    requires scope { AreKnown (facts_of scope) }
    requires parts { AreTexts parts.now }
    requires fine { IsFine verdicts.old parts.now }
    ensures reaction { IfOk result (λ reaction. (oracle : Oracle) → Agrees oracle verdicts.new →
        reaction ≡ reaction_of parts.now (facts_of scope.entry) oracle) }
    ensures texts { IfOk result SaysTexts }
    ensures stay { Stay verdicts.old verdicts.new }
{
    if !fires(alloc, parts, scope, verdicts)? {
        return idle(alloc, scope);
    }
    let run = run_of(alloc, parts, scope, verdicts)?;
    reaction_after(alloc, parts, run)
}
