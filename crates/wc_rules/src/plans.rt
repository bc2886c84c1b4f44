//! The changes of filters, in two steps: what they would be is made first, which may be refused, and
//! is then taken, which takes no memory. In between flags may be changed, and may be refused.

ghost use Rattle.std.specs.Prelude.{◌≡◌, ◌++◌, ◌∷◌, [], IfOk, IfSome, option_map};
ghost use Rattle.std.specs.Option.{option_copied};
ghost use Rattle.std.specs.Str.{IsUtf8};
ghost use Rattle.wc_eval.specs.Verdicts.{Oracle, Agrees, Stay};
ghost use Rattle.wc_filters.specs.Kept.{AreFine, new_filter, refusal_of};
ghost use Rattle.wc_rules.specs.Plans.{IsPlan, filters_without, filters_switched};

use crate::rules::Rules;
use wc_filters::{FilterRefused, Filters, Switch};
use wc_text::{NoMemory, Text};

impl Rules {
    /// The filters as they would be with one more, which is enabled, after the others. Its patterns
    /// are judged. Refused as `Filters::add` refuses. The filters stay.
    pub fn plan_add(
        &mut self,
        name: &Text,
        buffers: &Text,
        tags: &Text,
        pattern: &Text,
    ) -> Result<Filters, FilterRefused>
        requires { IsUtf8 pattern.now }
        // Whatever is thought of texts that were not judged, the answer is the same.
        ensures plan { (oracle : Oracle) → Agrees oracle self.new.verdicts →
            IsPlan (refusal_of oracle self.old.filters name.now pattern.now)
            (self.old.filters ++ new_filter name.now buffers.now tags.now pattern.now ∷ [])
            result }
        ensures added { IfOk result (λ plan. plan ≡ self.old.filters
            ++ new_filter name.now buffers.now tags.now pattern.now ∷ []) }
        ensures fine { IfOk result (λ plan. AreFine self.new.verdicts plan) }
        ensures only { self.new ≡ record self.old { verdicts = self.new.verdicts } }
        ensures stay { Stay self.old.verdicts self.new.verdicts }
    {
        let mut plan = self.filters.copy()?;
        plan.add(&mut self.verdicts, name, buffers, tags, pattern)?;
        Ok(plan)
    }

    /// The filters as they would be without those of this name. None exactly where there is none.
    pub fn plan_del(&self, name: &Text) -> Result<Option<Filters>, NoMemory>
        ensures plan { IfOk result
            (λ plan. plan ≡ filters_without name.now self.now.filters) }
        ensures fine { IfOk result (λ plan. IfSome plan (AreFine self.now.verdicts)) }
    {
        let mut plan = self.filters.copy()?;
        if !plan.del(name) {
            return Ok(None);
        }
        Ok(Some(plan))
    }

    /// The filters as they would be with the flag of those of this name switched, or without a name
    /// the flag of each. None exactly where a name is given that no filter has.
    pub fn plan_switch(
        &self,
        name: Option<&Text>,
        switch: Switch,
    ) -> Result<Option<Filters>, NoMemory>
        ensures plan { IfOk result (λ plan. plan
            ≡ filters_switched (option_copied name.entry) switch self.now.filters) }
        ensures fine { IfOk result (λ plan. IfSome plan (AreFine self.now.verdicts)) }
    {
        let mut plan = self.filters.copy()?;
        if !plan.switch(name, switch) {
            return Ok(None);
        }
        Ok(Some(plan))
    }

    /// Takes filters that were planned in place of those that there are. It takes no memory.
    pub fn take(&mut self, plan: Filters)
        requires { AreFine self.old.verdicts plan }
        ensures { self.new ≡ record self.old { filters = plan } }
    {
        self.filters = plan;
    }
}
