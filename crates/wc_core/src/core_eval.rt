//! What is typed to be evaluated: `/eval` in its three forms.

ghost use Rattle.std.specs.Prelude.{◌≡◌, None, IfOk};
ghost use Rattle.std.specs.Str.{IsUtf8};
ghost use Rattle.wc_core.specs.Evaluated.{value_at, holds_at, answer_text, printed_value};
ghost use Rattle.wc_core.specs.EvaluatedSeen.{IsAround, facts_around};
ghost use Rattle.wc_core.specs.Inputs.{Judges, Values};
ghost use Rattle.wc_eval.specs.Meaning.{text_value, condition_holds};
ghost use Rattle.wc_eval.specs.Names.{AreTexts};
ghost use Rattle.wc_eval.specs.Verdicts.{Oracle, Agrees};
ghost use Rattle.wc_core.specs.Contained.{Runs};
ghost use Rattle.wc_core.specs.Step.{ask_step, plain_step, evaluation_at, input_at, run_value};
ghost use Rattle.wc_core.specs.Typed.{typed_line, evaluation_of};

use crate::core_state::Core;
use crate::evaluated::Surroundings;
use crate::resolve::printed_value;
use crate::typed::other_in;
use crate::typed_eval::{EvalUse, evaluation_in};
use wc_text::{Handle, NoMemory, Text};

/// Whether a condition holds, as a text.
fn answer_text(holds: bool) -> &'static [u8]
    ensures { result.now ≡ answer_text holds }
{
    if holds { b"1" } else { b"0" }
}

impl Core {
    /// Does what a line asks for that is typed into a buffer, where so many `/eval`s may still be
    /// inside one another. One more does nothing.
    #[cycle(input)]
    pub(crate) fn input_at(&mut self, levels: u32, buffer: Handle, line: &[u8])
        requires { IsUtf8 line.now }
        ensures { Runs self.old self.new (λ state. input_at levels state buffer line.now) }
    {
        match evaluation_in(line) {
            Some((usage, text)) => self.evaluate(levels, buffer, usage, text),
            None => self.plain_input(buffer, line),
        }
    }

    /// Does what an `/eval` asks for.
    #[cycle(input)]
    fn evaluate(&mut self, levels: u32, buffer: Handle, usage: EvalUse, text: &[u8])
        requires { IsUtf8 text.now }
        ensures { Runs self.old self.new
            (λ state. evaluation_at levels state buffer usage text.now) }
    {
        if levels == 0 {
            return;
        }
        match usage {
            EvalUse::Run => self.run_value(levels - 1, buffer, text),
            EvalUse::Print => self.print_value(buffer, text),
            EvalUse::Test => self.print_answer(buffer, text),
        }
    }

    /// Runs the value of a text as an input.
    #[cycle(input)]
    fn run_value(&mut self, levels: u32, buffer: Handle, text: &[u8])
        requires { IsUtf8 text.now }
        ensures { Runs self.old self.new
            (λ state. run_value (input_at levels) state buffer (value_at state buffer text.now)) }
    {
        match self.value_of(buffer, text) {
            Ok(value) => self.input_at(levels, buffer, value.as_slice()),
            Err(NoMemory) => self.starve(),
        }
    }

    /// Does what a line asks for that evaluates nothing.
    fn plain_input(&mut self, buffer: Handle, line: &[u8])
        requires { IsUtf8 line.now }
        ensures { Runs self.old self.new (λ state. plain_step state buffer line.now) }
    {
        match other_in(line) {
            Some((front, name)) => self.serve_line(buffer, line, front, name),
            None => self.do_line(buffer, line),
        }
    }

    /// Prints the value of a text on the core buffer.
    fn print_value(&mut self, buffer: Handle, text: &[u8])
        requires { IsUtf8 text.now }
        ensures { Runs self.old self.new (λ state. ask_step state
            (printed_value state.moment (value_at state buffer text.now))) }
    {
        match self.value_of(buffer, text) {
            Ok(value) => self.print_evaluated(value.as_slice()),
            Err(NoMemory) => self.starve(),
        }
    }

    /// Prints on the core buffer whether a condition holds.
    fn print_answer(&mut self, buffer: Handle, text: &[u8])
        requires { IsUtf8 text.now }
        ensures { Runs self.old self.new (λ state. ask_step state
            (printed_value state.moment (answer_text (holds_at state buffer text.now)))) }
    {
        match self.holds(buffer, text) {
            Ok(holds) => self.print_evaluated(answer_text(holds)),
            Err(NoMemory) => self.starve(),
        }
    }

    /// Prints what a text or a condition came to.
    fn print_evaluated(&mut self, value: &[u8])
        requires { IsUtf8 value.now }
        ensures { Runs self.old self.new
            (λ state. ask_step state (printed_value state.moment value.now)) }
    {
        match printed_value(self.alloc, self.moment, value) {
            Ok(change) => self.ask_change(change),
            Err(NoMemory) => self.starve(),
        }
    }

    /// The value of a text on a buffer.
    fn value_of(&mut self, buffer: Handle, text: &[u8]) -> Result<Text, NoMemory>
        requires { IsUtf8 text.now }
        ensures judges { Judges self.old self.new }
        ensures value { IfOk result (λ value. Values self.old self.new value
            (λ state. value_at state buffer text.now)) }
        ensures utf8 { IfOk result IsUtf8 }
    {
        let around = self.around(buffer)?;
        self.value_in(&around, text)
    }

    fn value_in(&mut self, around: &Surroundings, text: &[u8]) -> Result<Text, NoMemory>
        requires around { AreTexts (facts_around self.old.options around.now) }
        requires text { IsUtf8 text.now }
        ensures judges { Judges self.old self.new }
        ensures value { IfOk result (λ value. (oracle : Oracle) → Agrees oracle self.new.verdicts →
            value ≡ text_value (facts_around self.old.options around.now) oracle text.now) }
        ensures utf8 { IfOk result IsUtf8 }
    {
        let text = Text::from_slice(self.alloc, text)?;
        let scope = around.scope(&self.options);
        self.rules.eval(scope, &text)
    }

    /// Whether a condition holds on a buffer.
    fn holds(&mut self, buffer: Handle, text: &[u8]) -> Result<bool, NoMemory>
        requires { IsUtf8 text.now }
        ensures judges { Judges self.old self.new }
        ensures value { IfOk result (λ holds. Values self.old self.new holds
            (λ state. holds_at state buffer text.now)) }
    {
        let around = self.around(buffer)?;
        self.holds_in(&around, text)
    }

    fn holds_in(&mut self, around: &Surroundings, text: &[u8]) -> Result<bool, NoMemory>
        requires around { AreTexts (facts_around self.old.options around.now) }
        requires text { IsUtf8 text.now }
        ensures judges { Judges self.old self.new }
        ensures value { IfOk result (λ holds. (oracle : Oracle) → Agrees oracle self.new.verdicts →
            holds ≡ condition_holds (facts_around self.old.options around.now) oracle text.now) }
    {
        let text = Text::from_slice(self.alloc, text)?;
        let scope = around.scope(&self.options);
        self.rules.condition(scope, &text)
    }

    /// What a text may name beside options that is evaluated on a buffer.
    fn around(&self, buffer: Handle) -> Result<Surroundings, NoMemory>
        ensures is { IfOk result (IsAround self.now.world.groups buffer) }
        ensures texts { IfOk result
            (λ around. AreTexts (facts_around self.now.options around)) }
    {
        let buffers = self.board.world().buffers();
        let _texts = buffers.groups();
        Surroundings::of(self.alloc, buffers, buffer)
    }
}
