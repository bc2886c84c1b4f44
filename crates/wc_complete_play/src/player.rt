use crate::hot::answer;
use crate::names::Names;
use std::alloc::{AllocError, Global};
use wc_hotlist::Hotlist;
use wc_notation::{Wrong, cut_word, end_answer, is_passed_over};

/// What a table holds.
#[derive(Drop)]
pub struct Player {
    names: Names,
    hotlist: Hotlist,
}

impl Player {
    pub fn new(alloc: Global) -> Result<Player, Wrong> {
        let names = Names::new(alloc)?;
        let hotlist = Hotlist::new(alloc)?;
        Ok(Player { names, hotlist })
    }

    /// Writes the answer of a call.
    fn answer(
        &mut self,
        alloc: Global,
        call: &str,
        rest: &str,
        out: &mut String,
    ) -> Result<(), Wrong> {
        match call {
            "commands" => self.names.take_commands(alloc, rest),
            "buffer" => self.names.add_buffer(alloc, rest, out),
            "group" | "nick" | "hidden_group" | "hidden_nick" => {
                self.names.add_item(alloc, call, rest, out)
            }
            "complete" => self.names.put_completed(alloc, rest, out),
            _ => answer(&mut self.hotlist, call, rest, out),
        }
    }

    /// Writes a line and its answer.
    fn turn(&mut self, alloc: Global, line: &str, out: &mut String) -> Result<(), AllocError> {
        if is_passed_over(line) {
            return Ok(());
        }
        write!(out, "> {line}\n")?;
        let (call, rest) = cut_word(line);
        let answered = self.answer(alloc, call, rest, out);
        end_answer(out, answered)
    }

    /// The lines of a table, each with its answer.
    pub fn play(&mut self, alloc: Global, text: &str) -> Result<String, Wrong> {
        let mut out = String::new(alloc);
        for line in text.lines() {
            self.turn(alloc, line, &mut out)?;
        }
        Ok(out)
    }
}
