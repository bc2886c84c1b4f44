use crate::calls::answer;
use std::alloc::{AllocError, Global};
use wc_eval::Verdicts;
use wc_notation::{Wrong, cut_word, end_answer, is_passed_over};

/// What a table holds.
#[derive(Drop)]
pub struct Player {
    verdicts: Verdicts,
}

impl Player {
    pub fn new(alloc: Global) -> Result<Player, Wrong> {
        let verdicts = Verdicts::new(alloc)?;
        Ok(Player { verdicts })
    }

    /// Writes a line and its answer.
    fn turn(&mut self, alloc: Global, line: &str, out: &mut String) -> Result<(), AllocError> {
        if is_passed_over(line) {
            return Ok(());
        }
        write!(out, "> {line}\n")?;
        let (call, rest) = cut_word(line);
        let answered = answer(alloc, &mut self.verdicts, call, rest, out);
        end_answer(out, answered)
    }

    /// The lines of a table, each with its answer.
    pub fn play(&mut self, alloc: Global, text: &str) -> Result<String, Wrong> {
        let mut out = String::new(alloc);
        for line in text.lines() {
            self.turn(alloc, line, &mut out)?;
        }
        Ok(out)
    }
}
