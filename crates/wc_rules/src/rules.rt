ghost use Rattle.std.specs.Prelude.{◌≡◌, [], IfOk, OnErr};
ghost use Rattle.std.specs.Str.{IsUtf8};
ghost use Rattle.wc_eval.specs.Meaning.{text_value, condition_holds};
ghost use Rattle.wc_eval.specs.Names.{facts_of, AreTexts};
ghost use Rattle.wc_eval.specs.Verdicts.{Oracle, Agrees, Stay, Judges, is_fine};
ghost use Rattle.wc_eval.specs.declared.verdict.Verdict.{Verdict as VerdictValue};
ghost use Rattle.wc_filters.specs.Kept.{AreFine};

use std::alloc::Global;
use std::marker::Model;
use wc_eval::{Scope, Verdicts, condition, eval};
use wc_filters::Filters;
use wc_text::{NoMemory, Text};

/// The verdicts on patterns, and the filters. Contracts see both. Each pattern of a filter was
/// judged to be one, and since verdicts stay it always is.
#[derive(Drop)]
pub struct Rules {
    pub(crate) alloc: Global,
    pub(crate) verdicts: Verdicts,
    pub(crate) filters: Filters,
}

impl Model for Rules {
    ghost use Rattle.wc_rules.specs.RulesView.{RulesView};

    ghost Value = { RulesView };

    ghost use Rattle.wc_filters.specs.Kept.{AreFine};

    ghost view = { λ r. record { verdicts = r.verdicts; filters = r.filters } };

    ghost invariant = { λ r. AreFine r.verdicts r.filters };
}

impl Rules {
    /// No verdicts and no filters.
    pub fn new(alloc: Global) -> Result<Rules, NoMemory>
        ensures unjudged { IfOk result (λ rules. (rules.verdicts.rows ≡ [])
            × (rules.verdicts.others ≡ 0)) }
        ensures filters { IfOk result (λ rules. rules.filters ≡ []) }
    {
        Ok(Rules {
            alloc,
            verdicts: Verdicts::new(alloc)?,
            filters: Filters::new(alloc),
        })
    }

    pub fn verdicts(&self) -> &Verdicts
        ensures { result.now ≡ self.now.verdicts }
    {
        &self.verdicts
    }

    pub fn filters(&self) -> &Filters
        ensures filters { result.now ≡ self.now.filters }
        ensures fine { AreFine self.now.verdicts self.now.filters }
    {
        &self.filters
    }

    /// Whether a text is a pattern. The filters stay.
    pub fn judge(&mut self, pattern: &Text) -> Result<bool, NoMemory>
        requires { IsUtf8 pattern.now }
        ensures judges { IfOk result (λ fine. (verdict : VerdictValue)
            × Judges pattern.now self.old.verdicts self.new.verdicts verdict
            × (fine ≡ is_fine verdict)) }
        ensures err { OnErr result (self.new ≡ self.old) }
        ensures only { self.new ≡ record self.old { verdicts = self.new.verdicts } }
        ensures stay { Stay self.old.verdicts self.new.verdicts }
    {
        self.verdicts.judge(pattern)
    }

    /// The value of a text, as `wc_eval::eval` has it. The filters stay.
    pub fn eval(&mut self, scope: Scope<'_>, text: &Text) -> Result<Text, NoMemory>
        requires scope { AreTexts (facts_of scope) }
        requires text { IsUtf8 text.now }
        ensures value { IfOk result (λ value. (oracle : Oracle) →
            Agrees oracle self.new.verdicts →
            value ≡ text_value (facts_of scope.entry) oracle text.now) }
        ensures utf8 { IfOk result IsUtf8 }
        ensures only { self.new ≡ record self.old { verdicts = self.new.verdicts } }
        ensures stay { Stay self.old.verdicts self.new.verdicts }
    {
        eval(self.alloc, scope, &mut self.verdicts, text)
    }

    /// Whether a condition holds, as `wc_eval::condition` has it. The filters stay.
    pub fn condition(&mut self, scope: Scope<'_>, text: &Text) -> Result<bool, NoMemory>
        requires scope { AreTexts (facts_of scope) }
        requires text { IsUtf8 text.now }
        ensures holds { IfOk result (λ holds. (oracle : Oracle) →
            Agrees oracle self.new.verdicts →
            holds ≡ condition_holds (facts_of scope.entry) oracle text.now) }
        ensures only { self.new ≡ record self.old { verdicts = self.new.verdicts } }
        ensures stay { Stay self.old.verdicts self.new.verdicts }
    {
        condition(self.alloc, scope, &mut self.verdicts, text)
    }
}
