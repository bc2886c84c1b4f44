//! What is typed into buffers, line by line.

ghost use Rattle.std.specs.Prelude.{◌≡◌, true, false, None, IfSome};
ghost use Rattle.std.specs.Str.{IsUtf8};
ghost use Rattle.wc_buffers.specs.Calls.{is_there};
ghost use Rattle.wc_world.specs.Texts.{IsChangeText};
ghost use Rattle.wc_core.specs.Typed.{typed_line, lines_of_text};
ghost use Rattle.wc_core.specs.ResolvedSeen.{outcome_of};
ghost use Rattle.wc_core.specs.Step.{refusal_step, ask_step, typed_step, input_step, lines_step};
ghost use Rattle.wc_core.specs.Step.{effect_step};
ghost use Rattle.wc_core.specs.Texts.{EffectUtf8, WhatUtf8};
ghost use Rattle.wc_core.specs.Contained.{Runs};
ghost use Rattle.wc_core.specs.Served.{ChangesBuffers};
ghost use Rattle.wc_core.specs.Inputs.{Makes, MakesChange, Refuses, RefusesChange, GoesOn, Stops};

use crate::core_hotlist::News;
use crate::core_state::Core;
use crate::lines::cut_line;
use crate::refusals::refusal_text;
use crate::resolve::{Resolution, resolve, told_refusal};
use crate::typed::read_typed;
use std::mem;
use wc_model::{Change, ChangeRefused};
use wc_text::{Handle, NoMemory, Text};

/// The most `/eval`s that may be inside one another.
const MOST_EVALS: u32 = 32;

impl Core {
    /// Runs a text that a client types into a buffer, line by line, also where `/quit` was run
    /// before.
    pub(crate) fn run_input(&mut self, buffer: Handle, text: &[u8])
        requires { IsUtf8 text.now }
        ensures { Runs self.old self.new
            (λ state. lines_step state buffer (lines_of_text text.now)) }
    {
        let quit = mem::replace(&mut self.quits, false);
        self.run_lines(buffer, text);
        self.quits |= quit;
    }

    /// Runs a text that is typed into a buffer, line by line. After a `/quit` nothing is run, nor
    /// once the buffer is closed, nor after a line that was cut short.
    pub(crate) fn run_lines(&mut self, buffer: Handle, text: &[u8])
        requires text { IsUtf8 text.now }
        requires going { self.old.quits ≡ false }
        ensures { Runs self.old self.new
            (λ state. lines_step state buffer (lines_of_text text.now)) }
    {
        let mut left = Some(text);
        while let Some(rest) = left {
            let (line, following) = cut_line(rest);
            if !self.has_buffer(buffer) {
                return;
            }
            if self.run_line(buffer, line) {
                return;
            }
            left = following;
        }
    }

    fn has_buffer(&self, buffer: Handle) -> bool
        ensures { result ≡ is_there buffer self.now.world.groups }
    {
        match self.board.world().buffers().get(buffer) {
            Some(_) => true,
            None => false,
        }
    }

    /// Runs a line that is typed into a buffer that is there. It answers whether what is after the
    /// line is skipped.
    fn run_line(&mut self, buffer: Handle, line: &[u8]) -> bool
        requires text { IsUtf8 line.now }
        requires going { self.old.quits ≡ false }
        ensures goes_on { result ≡ false → GoesOn self.old self.new buffer line.now }
        ensures stops { result ≡ true → Stops self.old self.new buffer line.now }
    {
        let cuts = self.cuts;
        self.input(buffer, line);
        if self.quits {
            return true;
        }
        self.cuts != cuts
    }

    /// Does what a line asks for that is typed into a buffer.
    fn input(&mut self, buffer: Handle, line: &[u8])
        requires { IsUtf8 line.now }
        ensures { Runs self.old self.new (λ state. input_step state buffer line.now) }
    {
        self.input_at(MOST_EVALS, buffer, line);
    }

    /// Does what a line asks for that is typed into a buffer, by what the core knows by itself.
    pub(crate) fn do_line(&mut self, buffer: Handle, line: &[u8])
        requires { IsUtf8 line.now }
        ensures { Runs self.old self.new
            (λ state. typed_step state buffer (typed_line line.now)) }
    {
        let _texts = self.board.world().buffers().groups();
        let asked = read_typed(line);
        match resolve(self.alloc, self.board.world(), self.moment, buffer, asked) {
            Ok(resolution) => self.do_effect(resolution),
            Err(NoMemory) => self.starve(),
        }
    }

    /// Does what a line came to.
    fn do_effect(&mut self, resolution: Resolution)
        requires { EffectUtf8 (outcome_of resolution) }
        ensures { Runs self.old self.new (λ state. effect_step state (outcome_of resolution)) }
    {
        match resolution {
            Resolution::Stays => {}
            Resolution::Ends => self.quit(),
            Resolution::Tells(text) => self.tell_refusal(text),
            Resolution::Asks(change) => self.ask_after_part(change),
            Resolution::SetsOption(pair) => self.set_option(&pair),
            Resolution::UnsetsOption(name) => self.unset_option(&name),
            Resolution::SavesOptions => self.save(),
            Resolution::ChangesHotlist(usage, buffer) => self.use_hotlist(usage, buffer),
            Resolution::ChangesFilters(change) => self.change_filters(change),
        }
    }

    /// Makes a change, or tells why it is refused.
    pub(crate) fn ask_change(&mut self, change: Change)
        requires { WhatUtf8 change.what }
        ensures does { Runs self.old self.new (λ state. ask_step state change) }
        ensures stays { ChangesBuffers self.old self.new }
    {
        let Some(reason) = self.change(change) else {
            return;
        };
        match refusal_text(self.alloc, &reason) {
            Ok(text) => self.tell_refusal(text),
            Err(NoMemory) => self.starve(),
        }
    }

    /// Tells a refusal by a line of the core buffer, where there are handles for it.
    pub(crate) fn tell_refusal(&mut self, text: Text)
        requires { IsUtf8 text }
        ensures does { Runs self.old self.new (λ state. refusal_step state text) }
        ensures stays { ChangesBuffers self.old self.new }
    {
        match told_refusal(self.alloc, self.moment, text) {
            Ok(line) => {
                let _skipped = self.change(line);
            }
            Err(NoMemory) => self.starve(),
        }
    }

    /// Makes a change with the flags of lines that the filters give, and tells it to each client that
    /// asked for its event. It answers why the change is refused, and nothing where it is made or memory
    /// was refused.
    pub(crate) fn change(&mut self, change: Change) -> Option<ChangeRefused>
        requires { IsChangeText change.what }
        ensures made { result ≡ None → MakesChange self.old change self.new }
        ensures refused { IfSome result (λ reason. RefusesChange self.old change reason self.new) }
        ensures stays { ChangesBuffers self.old self.new }
    {
        match self.fit(change) {
            Ok(fitted) => self.make(fitted),
            Err(NoMemory) => {
                self.starve();
                None
            }
        }
    }

    /// The same of a change as it is.
    fn make(&mut self, change: Change) -> Option<ChangeRefused>
        requires { IsChangeText change.what }
        ensures made { result ≡ None → Makes self.old change self.new }
        ensures refused { IfSome result (λ reason. Refuses self.old change reason self.new) }
        ensures stays { ChangesBuffers self.old self.new }
    {
        let _before = self.board.world();
        let before = self.board.open_count();
        let news = News::of(&change);
        match self.board.tell(change) {
            Ok(_told) => {
                let _after = self.board.world().buffers().groups();
                self.count_dropped(before);
                self.heed(news);
                None
            }
            Err(ChangeRefused::NoMemory) => {
                self.starve();
                None
            }
            Err(reason) => Some(reason),
        }
    }
}
