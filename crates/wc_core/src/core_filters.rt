//! The filters, as clients change them, and the flags that they give lines.

ghost use Rattle.std.specs.Option.{option_copied};
ghost use Rattle.std.specs.Prelude.{◌≡◌, ◌≢◌, ◌++◌, [], IfOk, IfSome, OnOk, unwrap_or};
ghost use Rattle.std.specs.Str.{IsUtf8};
ghost use Rattle.wc_filters.specs.Kept.{AreFine, new_filter, refusal_of};
ghost use Rattle.wc_filters.specs.declared.refused.FilterRefused.{FilterRefused as FilterRefusedValue};
ghost use Rattle.wc_core.specs.Contained.{Runs};
ghost use Rattle.wc_core.specs.Filtering.{IsFilterText};
ghost use Rattle.wc_core.specs.Fitted.{fitted, fitted_line, flips_among, flips_at, flips_change, flips_everywhere, full_name_at};
ghost use Rattle.wc_core.specs.Resolved.{filter_text};
ghost use Rattle.wc_core.specs.Changing.{add_filter_if, filter_step, filters_step, planned_step};
ghost use Rattle.wc_core.specs.Changing.{made_step, refilter_step, with_filters};
ghost use Rattle.wc_core.specs.State.{State, Stepped};
ghost use Rattle.wc_core.specs.Step.{refusal_step};
ghost use Rattle.wc_model.specs.World.{lines_at};
ghost use Rattle.wc_rules.specs.Displayed.{flips_of};
ghost use Rattle.wc_rules.specs.Plans.{filters_switched, filters_without};
ghost use Rattle.wc_world.specs.Near.{numbers};
ghost use Rattle.wc_world.specs.Texts.{IsChangeText, IsLineText};

use crate::core_acts::NULL;
use crate::core_state::Core;
use crate::refusals::{filter_text, joined_texts};
use crate::typed_filter::FilterChange;
use wc_filters::{FilterRefused, Filters, Switch};
use wc_model::{Change, Flip, LineSpec, What};
use wc_text::{Handle, Items, NoMemory, Text};
use wc_world::cut_texts;

/// The text of a name, and nothing without one.
fn called_by(name: Option<&Text>) -> &[u8]
    ensures { result.now ≡ unwrap_or (option_copied name.entry) [] }
{
    match name {
        Some(name) => name.as_slice(),
        None => b"",
    }
}

impl Core {
    /// The full name of a buffer, and nothing where it is not there.
    fn full_name_at(&self, buffer: Handle) -> &[u8]
        ensures { result.now ≡ full_name_at self.now.world buffer }
    {
        match self.board.world().buffers().get(buffer) {
            Some(row) => row.full_name.as_slice(),
            None => b"",
        }
    }

    /// A change with the flags of lines as the filters have them: that of a line that is printed, by
    /// its texts as the buffer takes them, and those of a buffer that gets another name.
    pub(crate) fn fit(&self, change: Change) -> Result<Change, NoMemory>
        requires { IsChangeText change.what }
        ensures fitted { IfOk result
            (λ fit. fit ≡ fitted self.now.filters self.now.world change) }
        ensures text { IfOk result (λ fit. IsChangeText fit.what) }
    {
        let buffer = change.buffer;
        let what = match change.what {
            What::Print(line) => What::Print(self.fit_line(buffer, line)?),
            What::Rename { name, flips } => {
                drop(flips);
                let flips = self.flips_for(buffer, &name)?;
                What::Rename { name, flips }
            }
            other => other,
        };
        Ok(Change { buffer, what })
    }

    /// A line of a buffer with the flag that the filters give it.
    fn fit_line(&self, buffer: Handle, mut line: LineSpec) -> Result<LineSpec, NoMemory>
        requires { IsLineText line }
        ensures fitted { IfOk result (λ fit. fit
            ≡ fitted_line self.now.filters (full_name_at self.now.world buffer) line) }
        ensures text { IfOk result IsLineText }
    {
        let texts = cut_texts(&line);
        let shown = self.rules.displays_texts(
            self.full_name_at(buffer),
            texts.tags,
            texts.prefix,
            texts.message,
        )?;
        line.displayed = shown;
        Ok(line)
    }

    /// The lines of a buffer that get another flag under this full name.
    fn flips_for(&self, buffer: Handle, name: &Text) -> Result<Items<Flip>, NoMemory>
        ensures { IfOk result (λ flips. flips ≡ flips_of self.now.filters name.now
            (lines_at self.now.world buffer.0)) }
    {
        let mut flips = Items::new(self.alloc);
        if let Some(lines) = self.board.world().lines(buffer) {
            self.rules
                .flips_of(self.rules.filters(), name.as_slice(), lines, &mut flips)?;
        }
        Ok(flips)
    }

    /// Changes the filters, and the flags of lines with them, or tells why that is refused.
    pub(crate) fn change_filters(&mut self, change: FilterChange)
        requires { IsFilterText change }
        ensures { Runs self.old self.new (λ state. filter_step state change) }
    {
        match change {
            FilterChange::Add {
                name,
                buffers,
                tags,
                pattern,
            } => self.add_filter(&name, &buffers, &tags, &pattern),
            FilterChange::Delete(name) => self.delete_filter(&name),
            FilterChange::Switch { name, switch } => self.switch_filters(name.as_ref(), switch),
        }
    }

    /// One more filter, or why it is refused.
    fn add_filter(&mut self, name: &Text, buffers: &Text, tags: &Text, pattern: &Text)
        requires name { IsUtf8 name.now }
        requires pattern { IsUtf8 pattern.now }
        ensures { Runs self.old self.new (λ state. add_filter_if state
            (new_filter name.now buffers.now tags.now pattern.now)
            (refusal_of state.oracle state.filters name.now pattern.now)) }
    {
        match self.rules.plan_add(name, buffers, tags, pattern) {
            Ok(plan) => self.take_filters(plan),
            Err(refused) => self.refuse_filter(name, &refused),
        }
    }

    /// Tells why a filter is not added. Want of memory is counted.
    fn refuse_filter(&mut self, name: &Text, refused: &FilterRefused)
        requires { IsUtf8 name.now }
        ensures told { refused.now ≢ FilterRefusedValue.NoMemory → Runs self.old self.new
            (λ state. refusal_step state (filter_text name.now refused.now)) }
        ensures starves { refused.now ≡ FilterRefusedValue.NoMemory → (step : State → Stepped) →
            Runs self.old self.new step }
    {
        match refused {
            FilterRefused::NoMemory => self.starve(),
            _ => self.say_filter(name, refused),
        }
    }

    fn say_filter(&mut self, name: &Text, refused: &FilterRefused)
        requires { IsUtf8 name.now }
        ensures { Runs self.old self.new
            (λ state. refusal_step state (filter_text name.now refused.now)) }
    {
        match filter_text(self.alloc, name.as_slice(), refused) {
            Ok(text) => self.tell_refusal(text),
            Err(NoMemory) => self.starve(),
        }
    }

    /// The filters without those of a name.
    fn delete_filter(&mut self, name: &Text)
        requires { IsUtf8 name.now }
        ensures { Runs self.old self.new (λ state. planned_step state name.now
            (filters_without name.now state.filters)) }
    {
        match self.rules.plan_del(name) {
            Ok(plan) => self.take_planned(name.as_slice(), plan),
            Err(NoMemory) => self.starve(),
        }
    }

    /// The filters with the flags of those switched that a name means, or all.
    fn switch_filters(&mut self, name: Option<&Text>, switch: Switch)
        requires { IfSome name (λ text. IsUtf8 text.now) }
        ensures { Runs self.old self.new
            (λ state. planned_step state (unwrap_or (option_copied name.entry) [])
            (filters_switched (option_copied name.entry) switch state.filters)) }
    {
        let called = called_by(name);
        match self.rules.plan_switch(name, switch) {
            Ok(plan) => self.take_planned(called, plan),
            Err(NoMemory) => self.starve(),
        }
    }

    /// Takes filters that were planned, or tells that there is none of this name.
    fn take_planned(&mut self, name: &[u8], plan: Option<Filters>)
        requires name { IsUtf8 name.now }
        requires fine { IfSome plan (AreFine self.old.verdicts) }
        ensures { Runs self.old self.new (λ state. planned_step state name.now plan) }
    {
        match plan {
            Some(plan) => self.take_filters(plan),
            None => self.refuse(b"filter: no such name: ", name),
        }
    }

    /// Takes other filters, with the flags of lines that differ by them. Where memory is refused
    /// for these, the filters stay.
    fn take_filters(&mut self, plan: Filters)
        requires { AreFine self.old.verdicts plan }
        ensures { Runs self.old self.new (λ state. filters_step state plan) }
    {
        match self.flips_everywhere(&plan) {
            Ok(flips) => self.refilter(plan, flips),
            Err(NoMemory) => {
                drop(plan);
                self.starve();
            }
        }
    }

    /// The lines of all buffers that get another flag by these filters, in the order of buffers.
    fn flips_everywhere(&self, plan: &Filters) -> Result<Items<Flip>, NoMemory>
        requires { AreFine self.now.verdicts plan.now }
        ensures { IfOk result (λ flips. flips ≡ flips_everywhere plan.now self.now.world) }
    {
        let mut flips = Items::new(self.alloc);
        for group in self.board.world().buffers().groups() {
            self.put_flips(plan, group, &mut flips)?;
        }
        Ok(flips)
    }

    /// Puts those of the buffers of a group after the others.
    fn put_flips(
        &self,
        plan: &Filters,
        group: &[Handle],
        flips: &mut Items<Flip>,
    ) -> Result<(), NoMemory>
        requires { AreFine self.now.verdicts plan.now }
        ensures { OnOk result (flips.new ≡ flips.old
            ++ flips_among plan.now self.now.world (numbers group.now)) }
    {
        for buffer in group {
            self.put_flips_at(plan, *buffer, flips)?;
        }
        Ok(())
    }

    fn put_flips_at(
        &self,
        plan: &Filters,
        buffer: Handle,
        flips: &mut Items<Flip>,
    ) -> Result<(), NoMemory>
        requires { AreFine self.now.verdicts plan.now }
        ensures { OnOk result (flips.new ≡ flips.old
            ++ flips_at plan.now self.now.world buffer.0) }
    {
        match self.board.world().lines(buffer) {
            Some(lines) => self
                .rules
                .flips_of(plan, self.full_name_at(buffer), lines, flips),
            None => Ok(()),
        }
    }

    /// Takes other filters, with these flags.
    fn refilter(&mut self, plan: Filters, flips: Items<Flip>)
        requires { AreFine self.old.verdicts plan }
        ensures { Runs self.old self.new (λ state. refilter_step state plan flips) }
    {
        if flips.as_slice().is_empty() {
            drop(flips);
            self.rules.take(plan);
            return;
        }
        self.flip_lines(plan, flips);
    }

    /// Changes flags, of which there are some, and takes the filters that ask for it. No flag is of
    /// a line that is not held, so that want of memory alone refuses it.
    fn flip_lines(&mut self, plan: Filters, flips: Items<Flip>)
        requires { AreFine self.old.verdicts plan }
        ensures { Runs self.old self.new
            (λ state. made_step (with_filters state plan) (flips_change flips)) }
    {
        let _before = self.board.world();
        let before = self.board.open_count();
        let change = Change {
            buffer: NULL,
            what: What::Flips(flips),
        };
        match self.board.tell(change) {
            Ok(_told) => {
                let _after = self.board.world().buffers().groups();
                self.count_dropped(before);
                self.rules.take(plan);
            }
            Err(_) => {
                drop(plan);
                self.starve();
            }
        }
    }
}
