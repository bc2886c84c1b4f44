//! Changes that are drawn at random, after each of which all mirrors are compared with the world.

use crate::sheet::Sheet;
use crate::show_lines::HANDLES;
use crate::stage::Stage;
use std::alloc::{AllocError, Global};
use wc_buffers::Buffers;
use wc_change_words::{Wrong, number};
use wc_text::Handle;

/// After so many changes it is shown how many there were.
const SHOWN_AFTER: u64 = 100;

/// What follows the words of a change.
#[derive(Clone, Copy)]
enum Argument {
    Nothing,
    /// The number of the step, by which no name comes twice.
    Step,
    /// A buffer that is there.
    Buffer,
    /// A number from 1 to this one.
    UpTo(u64),
}

/// The words of a change after its buffer.
#[derive(Clone, Copy)]
struct Phrase {
    words: &'static str,
    argument: Argument,
}

const PRINT: Phrase = Phrase {
    words: " print line",
    argument: Argument::Step,
};

const LIMIT: Phrase = Phrase {
    words: " limit ",
    argument: Argument::UpTo(5),
};

/// Changes of other kinds.
const OTHERS: &[(&str, Argument)] = &[
    (" add core.b", Argument::Step),
    (" close", Argument::Nothing),
    (" clear", Argument::Nothing),
    (" merge ", Argument::Buffer),
    (" unmerge", Argument::Nothing),
    (" move ", Argument::UpTo(5)),
    (" hide", Argument::Nothing),
    (" unhide", Argument::Nothing),
    (" rename core.r", Argument::Step),
    (" set-var v=", Argument::Step),
    (" add-nick root n", Argument::UpTo(5)),
    (" remove-nick n", Argument::UpTo(5)),
];

/// What is drawn, and what it came to.
#[derive(Clone, Copy)]
struct Draws {
    state: u64,
    /// Whether the limit of lines is changed too.
    with_limits: bool,
    steps: u64,
    accepted: u64,
    /// How often a mirror did not have what the world had.
    otherwise: u64,
}

impl Draws {
    fn new(seed: u64, with_limits: bool) -> Draws {
        Draws {
            state: seed,
            with_limits,
            steps: 0,
            accepted: 0,
            otherwise: 0,
        }
    }

    /// A number below this one, by the linear congruential generator of Knuth's MMIX.
    fn below(&mut self, end: u64) -> u64 {
        self.state = self
            .state
            .wrapping_mul(6_364_136_223_846_793_005)
            .wrapping_add(1_442_695_040_888_963_407);
        (self.state >> 33) % end.max(1)
    }

    fn buffer(&mut self, buffers: &[Handle]) -> u64 {
        let place = self.below(buffers.len() as u64);
        match buffers.get(place as usize) {
            Some(buffer) => buffer.0,
            None => 0,
        }
    }

    fn other(&mut self) -> Phrase {
        let place = self.below(OTHERS.len() as u64);
        match OTHERS.get(place as usize) {
            Some((words, argument)) => Phrase {
                words: *words,
                argument: *argument,
            },
            None => PRINT,
        }
    }

    /// Half of the changes are prints.
    fn phrase(&mut self) -> Phrase {
        match self.below(20) {
            0 if self.with_limits => LIMIT,
            0..=9 => PRINT,
            _ => self.other(),
        }
    }

    fn put_argument(&mut self, line: &mut Sheet, argument: Argument, buffers: &[Handle]) {
        match argument {
            Argument::Nothing => {}
            Argument::Step => line.put_number("", self.steps),
            Argument::Buffer => line.put_number("", self.buffer(buffers)),
            Argument::UpTo(most) => line.put_number("", self.below(most).saturating_add(1)),
        }
    }

    /// Writes the line of a change.
    fn put_line(&mut self, line: &mut Sheet, buffers: &[Handle]) {
        line.put_number("", self.buffer(buffers));
        let phrase = self.phrase();
        line.put(phrase.words);
        self.put_argument(line, phrase.argument, buffers);
    }

    /// Counts a step.
    fn count(&mut self, is_accepted: bool, otherwise: u64) {
        self.steps = self.steps.saturating_add(1);
        self.accepted = self.accepted.saturating_add(u64::from(is_accepted));
        self.otherwise = self.otherwise.saturating_add(otherwise);
    }

    fn show(&self, out: &mut Sheet, label: &str) {
        out.put_number(label, self.steps);
        out.put_number(" steps, ", self.accepted);
        out.put_number(" accepted, mirrors otherwise ", self.otherwise);
        out.put("\n");
    }
}

/// The handles of the buffers, in their order.
fn handles_of(alloc: Global, buffers: &Buffers) -> Result<Vec<Handle>, AllocError> {
    let mut handles = Vec::new(alloc);
    for group in buffers.groups() {
        handles.extend_from_slice(group)?;
    }
    Ok(handles)
}

impl Stage {
    /// Writes a change that is drawn. A buffer whose handle is not shown ends the play.
    fn draw(&self, line: &mut Sheet, draws: &mut Draws) -> Result<(), Wrong> {
        let handles = handles_of(self.alloc, self.world.buffers())?;
        if handles.iter().any(|handle| handle.0 >= HANDLES) {
            return Err(Wrong::NoNumber);
        }
        draws.put_line(line, handles.as_slice());
        Ok(())
    }

    /// Makes the change of a line, tells the nicklists, and answers whether it was accepted.
    fn make_drawn(&mut self, line: &str) -> Result<bool, Wrong> {
        let mut last = Sheet::new(self.alloc);
        let is_accepted = self.change_by(&mut last, line)?;
        self.audience
            .push_all(&mut last, &self.world, &mut self.pending);
        Ok(is_accepted)
    }

    /// How many mirrors do not have what the world has after the change of a line.
    fn compare(&self, out: &mut Sheet, line: &str) -> u64 {
        let otherwise = self.audience.compare(out, &self.world);
        if otherwise > 0 {
            out.put_line("after ", line);
        }
        otherwise
    }

    fn random_step(&mut self, out: &mut Sheet, draws: &mut Draws) -> Result<(), Wrong> {
        let mut line = Sheet::new(self.alloc);
        self.draw(&mut line, draws)?;
        let is_accepted = self.make_drawn(line.read())?;
        draws.count(is_accepted, self.compare(out, line.read()));
        Ok(())
    }

    /// Makes so many changes, and shows what they came to so far.
    fn random_steps(
        &mut self,
        out: &mut Sheet,
        draws: &mut Draws,
        steps: u64,
    ) -> Result<(), Wrong> {
        for step in 1..steps.saturating_add(1) {
            self.random_step(out, draws)?;
            if step % SHOWN_AFTER == 0 {
                draws.show(out, "");
            }
        }
        Ok(())
    }

    /// Makes so many changes that are drawn from a seed, and shows how many mirrors did not follow.
    pub fn random(
        &mut self,
        out: &mut Sheet,
        steps: &str,
        seed: &str,
        with_limits: bool,
    ) -> Result<(), Wrong> {
        let mut draws = Draws::new(number(seed)?, with_limits);
        self.random_steps(out, &mut draws, number(steps)?)?;
        draws.show(out, "in all ");
        out.put_number("limit of lines ", u64::from(self.world.limit()));
        out.put_number(", changes of it ", self.world.limit_changes());
        out.put("\n");
        Ok(())
    }
}
