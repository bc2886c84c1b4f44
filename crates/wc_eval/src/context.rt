ghost use Rattle.std.specs.Prelude.{◌≡◌, ◌+◌, ◌≤◌, ◌<◌, ◌⊎◌, All, IfOk, OnOk, OnErr, IfErr};
ghost use Rattle.std.specs.Str.{IsUtf8};
ghost use Rattle.wc_eval.specs.Verdicts.{Oracle, Agrees, Stay};
ghost use Rattle.wc_eval.specs.Comparisons.{holds_by};
ghost use Rattle.wc_eval.specs.Names.{facts_of, AreTexts};
ghost use Rattle.wc_eval.specs.Kinds.{commas_of};
ghost use Rattle.wc_eval.specs.Arguments.{arguments_of, lent_texts};
ghost use Rattle.wc_eval.specs.Progress.{Gives, counted};
ghost use Rattle.wc_eval.specs.LongValues.{GivesLong};
ghost use Rattle.wc_eval.specs.Conditions.{condition_by, holds_at, inside_at, single_holds, side_of};
ghost use Rattle.wc_eval.specs.Conditions.{comparison_holds};
ghost use Rattle.wc_eval.specs.Meaning.{evaluator, form_at, kind_value, if_value, values_by, call_by};

use crate::arguments::arguments;
use crate::blanks::{digit, is_true, without_blanks};
use crate::branches::{branch, split_at_block};
use crate::calls::call_value;
use crate::comparison::{Comparison, compare};
use crate::forms::cut_to_form;
use crate::kept::Kept;
use crate::kind::Kind;
use crate::parts::{Sides, cut_comparison, opens_at_most, whole_group};
use crate::scope::Scope;
use crate::turns::{Ranks, Turn};
use crate::values::{Stop, append};
use crate::verdicts::Verdicts;
use std::alloc::Global;
use wc_text::{Items, NoMemory, Text};

/// The most forms that may be inside one another.
const MOST_LEVELS: u32 = 32;

/// Whether a comparison holds of two sides that have their values.
fn compare_sides(
    alloc: Global,
    verdicts: &mut Verdicts,
    comparison: Comparison,
    left: &Text,
    right: &Text,
) -> Result<bool, NoMemory>
    requires left { IsUtf8 left.now }
    requires right { IsUtf8 right.now }
    ensures holds { IfOk result (λ holds. (oracle : Oracle) → Agrees oracle verdicts.new →
        holds ≡ holds_by oracle comparison left.now right.now) }
    ensures stay { Stay verdicts.old verdicts.new }
{
    compare(alloc, verdicts, comparison, left, right)
}

/// The most parentheses that may be open at one place of a condition.
const MOST_GROUPS: u32 = 32;

/// Where texts are evaluated.
#[derive(Clone, Copy)]
pub(crate) struct Context<'a> {
    alloc: Global,
    scope: Scope<'a>,
    /// How many forms may still be inside one another.
    levels: u32,
}

impl<'a> Context<'a> {
    pub(crate) fn new(alloc: Global, scope: Scope<'a>) -> Context<'a>
        ensures scope { result.scope ≡ scope.entry }
        ensures levels { result.levels ≡ 32 }
    {
        Context {
            alloc,
            scope,
            levels: MOST_LEVELS,
        }
    }

    /// What is inside one form more, which is counted.
    fn enter(self, kept: &mut Kept) -> Result<Context<'a>, Stop>
        ensures ok { IfOk result (λ inner. (inner.scope ≡ self.entry.scope)
            × (inner.levels + 1 ≡ self.entry.levels) × (kept.new ≡ counted kept.old)) }
        ensures few { OnOk result (kept.old.forms < 65536) }
        ensures over { OnErr result ((self.entry.levels ≡ 0) ⊎ (65536 ≤ kept.old.forms)) }
        ensures err { IfErr result (λ stop. stop ≡ Stop.Over) }
    {
        if self.levels == 0 {
            return Err(Stop::Over);
        }
        kept.count_form()?;
        Ok(Context {
            alloc: self.alloc,
            scope: self.scope,
            levels: self.levels - 1,
        })
    }

    /// A text evaluated.
    #[cycle(eval)]
    pub(crate) fn text(
        self,
        verdicts: &mut Verdicts,
        kept: &mut Kept,
        text: &[u8],
    ) -> Result<Text, Stop>
        requires scope { AreTexts (facts_of self.scope) }
        requires text { IsUtf8 text.now }
        ensures gives { Gives (λ oracle. evaluator (facts_of self.entry.scope) oracle
            self.entry.levels text.now) verdicts.new kept.old kept.new result }
        ensures stay { Stay verdicts.old verdicts.new }
        ensures utf8 { IfOk result IsUtf8 }
    {
        let mut value = Text::new(self.alloc);
        let mut rest = text;
        'forms: loop {
            let (plain, following) = cut_to_form(rest);
            append(&mut value, plain)?;
            let Some((form, after)) = following else {
                return Ok(value);
            };
            let made = self.form(verdicts, kept, form)?;
            append(&mut value, made.as_slice())?;
            rest = after;
        }
    }

    /// The value of a form, of which this is between `${` and `}`.
    #[cycle(eval)]
    fn form(self, verdicts: &mut Verdicts, kept: &mut Kept, inside: &[u8]) -> Result<Text, Stop>
        requires scope { AreTexts (facts_of self.scope) }
        requires inside { IsUtf8 inside.now }
        ensures gives { Gives (λ oracle. form_at (facts_of self.entry.scope) oracle
            self.entry.levels inside.now) verdicts.new kept.old kept.new result }
        ensures stay { Stay verdicts.old verdicts.new }
        ensures utf8 { IfOk result IsUtf8 }
    {
        let inner = self.enter(kept)?;
        let (kind, text) = Kind::cut(inside);
        let value = inner.form_of_kind(verdicts, kept, kind, text)?;
        kept.count_value(value)
    }

    /// The value of a form of this kind, whose text comes after its word. It may pass a limit.
    #[cycle(eval)]
    fn form_of_kind(
        self,
        verdicts: &mut Verdicts,
        kept: &mut Kept,
        kind: Kind,
        text: &[u8],
    ) -> Result<Text, Stop>
        requires scope { AreTexts (facts_of self.scope) }
        requires text { IsUtf8 text.now }
        ensures gives { GivesLong (λ oracle. kind_value (facts_of self.entry.scope) oracle
            (evaluator (facts_of self.entry.scope) oracle self.entry.levels) kind text.now)
            verdicts.new kept.old kept.new result }
        ensures stay { Stay verdicts.old verdicts.new }
        ensures utf8 { IfOk result IsUtf8 }
    {
        match kind {
            Kind::Raw => Ok(Text::from_slice(self.alloc, text)?),
            Kind::Eval => {
                let once = self.text(verdicts, kept, text)?;
                self.text(verdicts, kept, once.as_slice())
            }
            Kind::If => self.taken_branch(verdicts, kept, text),
            _ => self.call(verdicts, kept, kind, text),
        }
    }

    /// The value of `${if:}`: of the branch that is taken, or without branches of the condition.
    #[cycle(eval)]
    fn taken_branch(
        self,
        verdicts: &mut Verdicts,
        kept: &mut Kept,
        text: &[u8],
    ) -> Result<Text, Stop>
        requires scope { AreTexts (facts_of self.scope) }
        requires text { IsUtf8 text.now }
        ensures gives { Gives (λ oracle. if_value
            (evaluator (facts_of self.entry.scope) oracle self.entry.levels)
            (condition_by oracle (evaluator (facts_of self.entry.scope) oracle
            self.entry.levels)) text.now) verdicts.new kept.old kept.new result }
        ensures stay { Stay verdicts.old verdicts.new }
        ensures utf8 { IfOk result IsUtf8 }
    {
        let Some((condition, branches)) = split_at_block(text, b'?') else {
            let holds = self.condition(verdicts, kept, text)?;
            return Ok(Text::from_slice(self.alloc, digit(holds))?);
        };
        let holds = self.condition(verdicts, kept, condition)?;
        self.text(verdicts, kept, branch(branches, holds))
    }

    /// The value of a form whose arguments are evaluated first. With too few it is empty.
    #[cycle(eval)]
    fn call(
        self,
        verdicts: &mut Verdicts,
        kept: &mut Kept,
        kind: Kind,
        text: &[u8],
    ) -> Result<Text, Stop>
        requires scope { AreTexts (facts_of self.scope) }
        requires text { IsUtf8 text.now }
        ensures gives { GivesLong (λ oracle. call_by (facts_of self.entry.scope)
            (evaluator (facts_of self.entry.scope) oracle self.entry.levels) kind
            (arguments_of (commas_of kind) text.now)) verdicts.new kept.old kept.new result }
        ensures stay { Stay verdicts.old verdicts.new }
        ensures utf8 { IfOk result IsUtf8 }
    {
        let Some(texts) = arguments(self.alloc, text, kind.commas())? else {
            return Ok(Text::new(self.alloc));
        };
        let values = self.values(verdicts, kept, texts.as_slice())?;
        call_value(self.alloc, self.scope, kept, kind, values.as_slice())
    }

    /// Texts evaluated, in order.
    #[cycle(eval)]
    fn values(
        self,
        verdicts: &mut Verdicts,
        kept: &mut Kept,
        texts: &[&[u8]],
    ) -> Result<Items<Text>, Stop>
        requires scope { AreTexts (facts_of self.scope) }
        requires texts { All IsUtf8 (lent_texts texts.now) }
        ensures gives { Gives (λ oracle. values_by (evaluator (facts_of self.entry.scope) oracle
            self.entry.levels) (lent_texts texts.now)) verdicts.new kept.old kept.new result }
        ensures stay { Stay verdicts.old verdicts.new }
        ensures utf8 { IfOk result (All IsUtf8) }
    {
        let mut values = Items::new(self.alloc);
        for text in texts {
            let value = self.text(verdicts, kept, text)?;
            values.push(value)?;
        }
        Ok(values)
    }

    /// Whether a condition holds. With too many parentheses open at one place it does not.
    #[cycle(eval)]
    pub(crate) fn condition(
        self,
        verdicts: &mut Verdicts,
        kept: &mut Kept,
        text: &[u8],
    ) -> Result<bool, Stop>
        requires scope { AreTexts (facts_of self.scope) }
        requires text { IsUtf8 text.now }
        ensures gives { Gives (λ oracle. condition_by oracle
            (evaluator (facts_of self.entry.scope) oracle self.entry.levels) text.now)
            verdicts.new kept.old kept.new result }
        ensures stay { Stay verdicts.old verdicts.new }
    {
        if !opens_at_most(text, MOST_GROUPS as usize) {
            return Ok(false);
        }
        self.holds(verdicts, kept, MOST_GROUPS, text)
    }

    /// Whether a condition holds in which so many parentheses may be inside one another.
    #[cycle(eval)]
    fn holds(
        self,
        verdicts: &mut Verdicts,
        kept: &mut Kept,
        groups: u32,
        text: &[u8],
    ) -> Result<bool, Stop>
        requires scope { AreTexts (facts_of self.scope) }
        requires text { IsUtf8 text.now }
        ensures gives { Gives (λ oracle. holds_at oracle
            (evaluator (facts_of self.entry.scope) oracle self.entry.levels) groups text.now)
            verdicts.new kept.old kept.new result }
        ensures stay { Stay verdicts.old verdicts.new }
    {
        let mut turn = Ranks::begin(text);
        'turns: loop {
            match turn {
                Turn::End(holds) => return Ok(holds),
                Turn::Test(part, ranks) => {
                    let holds = self.single_holds(verdicts, kept, groups, part)?;
                    turn = ranks.go_on(holds);
                }
            }
        }
    }

    /// Whether a condition without `||` and `&&` outside parentheses holds.
    #[cycle(eval)]
    fn single_holds(
        self,
        verdicts: &mut Verdicts,
        kept: &mut Kept,
        groups: u32,
        part: &[u8],
    ) -> Result<bool, Stop>
        requires scope { AreTexts (facts_of self.scope) }
        requires part { IsUtf8 part.now }
        ensures gives { Gives (λ oracle. single_holds oracle
            (evaluator (facts_of self.entry.scope) oracle self.entry.levels)
            (inside_at oracle (evaluator (facts_of self.entry.scope) oracle self.entry.levels)
            groups) part.now) verdicts.new kept.old kept.new result }
        ensures stay { Stay verdicts.old verdicts.new }
    {
        let text = without_blanks(part);
        if let Some(sides) = cut_comparison(text) {
            return self.comparison_holds(verdicts, kept, groups, sides);
        }
        let value = self.side(verdicts, kept, groups, false, text)?;
        Ok(is_true(value.as_slice()))
    }

    /// Whether a comparison of two sides holds.
    #[cycle(eval)]
    fn comparison_holds(
        self,
        verdicts: &mut Verdicts,
        kept: &mut Kept,
        groups: u32,
        sides: Sides<'_>,
    ) -> Result<bool, Stop>
        requires scope { AreTexts (facts_of self.scope) }
        requires left { IsUtf8 sides.left.now }
        requires right { IsUtf8 sides.right.now }
        ensures gives { Gives (λ oracle. comparison_holds oracle
            (evaluator (facts_of self.entry.scope) oracle self.entry.levels)
            (inside_at oracle (evaluator (facts_of self.entry.scope) oracle self.entry.levels)
            groups) sides.entry.comparison sides.entry.left.now sides.entry.right.now)
            verdicts.new kept.old kept.new result }
        ensures stay { Stay verdicts.old verdicts.new }
    {
        let is_text = sides.comparison.has_text_sides();
        let left = self.side(verdicts, kept, groups, is_text, without_blanks(sides.left))?;
        let right = self.side(verdicts, kept, groups, is_text, without_blanks(sides.right))?;
        Ok(compare_sides(self.alloc, verdicts, sides.comparison, &left, &right)?)
    }

    /// What a side of a comparison is worth: of one group in parentheses what the condition in it
    /// comes to, unless the side is a text in any case.
    #[cycle(eval)]
    fn side(
        self,
        verdicts: &mut Verdicts,
        kept: &mut Kept,
        groups: u32,
        is_text: bool,
        text: &[u8],
    ) -> Result<Text, Stop>
        requires scope { AreTexts (facts_of self.scope) }
        requires text { IsUtf8 text.now }
        ensures gives { Gives (λ oracle. side_of
            (evaluator (facts_of self.entry.scope) oracle self.entry.levels)
            (inside_at oracle (evaluator (facts_of self.entry.scope) oracle self.entry.levels)
            groups) is_text text.now) verdicts.new kept.old kept.new result }
        ensures stay { Stay verdicts.old verdicts.new }
        ensures utf8 { IfOk result IsUtf8 }
    {
        if is_text {
            return self.text(verdicts, kept, text);
        }
        let Some(inside) = whole_group(text) else {
            return self.text(verdicts, kept, text);
        };
        if groups == 0 {
            return Ok(Text::from_slice(self.alloc, b"0")?);
        }
        let holds = self.holds(verdicts, kept, groups - 1, inside)?;
        Ok(Text::from_slice(self.alloc, digit(holds))?)
    }
}
