//! The world of a script, with its clients, and the lines that change it.

ghost use Rattle.std.specs.Prelude.{IfOk, None};
ghost use Rattle.wc_world.specs.Texts.{IsChangeText};

use crate::answers::show_notice;
use crate::audience::Audience;
use crate::parts::{Part, show_part};
use crate::sheet::Sheet;
use std::alloc::{AllocError, Global};
use wc_change_words::{Wrong, handle, number, read_change, small_number};
use wc_model::{Change, ChangeRefused, Notice, What};
use wc_nickdiff::Pending;
use wc_nicklist::{Key, Row, Touch};
use wc_text::{Handle, NoMemory};
use wc_world::World;

/// How many lines a buffer holds, where a script says nothing.
pub const LIMIT: u32 = 3;

/// Has no memory for what is touched.
#[derive(Drop)]
struct Full;

impl Touch for Full {
    ghost first = { λ _ _ _. None };

    fn touch(&mut self, _buffer: Handle, _key: &Key, _before: Option<Row>) -> Result<(), NoMemory> {
        Err(NoMemory)
    }
}

#[derive(Drop)]
pub struct Stage {
    pub alloc: Global,
    pub world: World,
    /// What was touched since the last tick.
    pub pending: Pending,
    pub audience: Audience,
    /// What is shown after each change.
    pub watched: Part,
}

/// The change that words ask for: a buffer, a word, and what follows it.
fn change_of(alloc: Global, words: &[&str]) -> Result<Change, Wrong>
    ensures { IfOk result (λ change. IsChangeText change.what) }
{
    let [buffer, word, rest @ ..] = words else {
        return Err(Wrong::NoWord);
    };
    let buffer = handle(buffer)?;
    match read_change(alloc, word, rest) {
        Ok(what) => Ok(Change { buffer, what }),
        Err(wrong) => Err(wrong),
    }
}

/// A line in which the number of a turn takes the place of each `#`.
fn with_turn(alloc: Global, line: &str, turn: u64) -> Result<String, AllocError> {
    let turn = format!(in alloc; "{turn}")?;
    line.replace(alloc, '#', turn.as_str())
}

impl Stage {
    /// A new world, whose buffers hold so many lines, and no clients.
    pub fn new(alloc: Global, limit: u32) -> Result<Stage, NoMemory> {
        match World::new(alloc, limit.clamp(1, 4096)) {
            Ok(world) => Stage::of(alloc, world),
            Err(NoMemory) => Err(NoMemory),
        }
    }

    fn of(alloc: Global, world: World) -> Result<Stage, NoMemory> {
        match Pending::new(alloc) {
            Ok(pending) => Ok(Stage {
                alloc,
                world,
                pending,
                audience: Audience::new(alloc),
                watched: Part::Nothing,
            }),
            Err(NoMemory) => Err(NoMemory),
        }
    }

    /// Begins again with a new world, whose buffers hold so many lines, and without clients.
    pub fn restart(&mut self, limit: &str) -> Result<(), Wrong> {
        let limit = small_number(limit)?;
        match Stage::new(self.alloc, limit) {
            Ok(stage) => *self = stage,
            Err(NoMemory) => return Err(Wrong::NoMemory),
        }
        Ok(())
    }

    /// Makes a change, and answers whether it was accepted.
    fn make(&mut self, out: &mut Sheet, change: Change) -> bool
        requires { IsChangeText change.what }
    {
        let buffer = change.buffer;
        let closes = matches!(change.what, What::Close);
        let answer = self.world.change(self.alloc, change, &mut self.pending);
        if closes && answer.is_ok() {
            self.pending.forget(buffer);
        }
        self.answer(out, &answer);
        answer.is_ok()
    }

    /// Makes a change that finds no memory for what it touches.
    fn make_without_touch(&mut self, out: &mut Sheet, change: Change)
        requires { IsChangeText change.what }
    {
        let answer = self.world.change(self.alloc, change, &mut Full);
        self.answer(out, &answer);
    }

    /// Shows the answer to a change, and tells what was noticed of it.
    fn answer(&mut self, out: &mut Sheet, answer: &Result<Notice, ChangeRefused>) {
        match answer {
            Ok(notice) => {
                show_notice(out, notice);
                self.audience.tell_notice(out, &self.world, notice);
            }
            Err(refused) => show_refused(out, refused),
        }
    }

    /// Makes the change that words ask for, and answers whether it was accepted.
    fn change(&mut self, out: &mut Sheet, words: &[&str]) -> Result<bool, Wrong> {
        match change_of(self.alloc, words) {
            Ok(change) => Ok(self.make(out, change)),
            Err(wrong) => Err(wrong),
        }
    }

    fn show_watched(&self, out: &mut Sheet) {
        show_part(self.alloc, out, &self.world, &self.pending, self.watched);
    }

    /// Makes a change, and shows what is watched.
    pub fn change_and_show(&mut self, out: &mut Sheet, words: &[&str]) -> Result<(), Wrong> {
        let _accepted = self.change(out, words)?;
        self.show_watched(out);
        Ok(())
    }

    /// The same where the change finds no memory for what it touches.
    pub fn change_without_touch(&mut self, out: &mut Sheet, words: &[&str]) -> Result<(), Wrong> {
        match change_of(self.alloc, words) {
            Ok(change) => self.make_without_touch(out, change),
            Err(wrong) => return Err(wrong),
        }
        self.show_watched(out);
        Ok(())
    }

    /// Makes the change of a line. The answer takes the place of the last one.
    pub fn change_by(&mut self, last: &mut Sheet, line: &str) -> Result<bool, Wrong> {
        let words: Vec<&str> = line.split_whitespace().collect(self.alloc)?;
        last.clear();
        self.change(last, words.as_slice())
    }

    /// Makes the change of a line in one turn of many.
    fn turn(&mut self, last: &mut Sheet, line: &str, turn: u64) -> Result<bool, Wrong> {
        let line = with_turn(self.alloc, line, turn)?;
        self.change_by(last, line.as_str())
    }

    /// Makes many changes, and answers how many were accepted.
    fn turns(&mut self, last: &mut Sheet, line: &str, count: u64) -> Result<u64, Wrong> {
        let mut accepted = 0u64;
        for turn in 0..count {
            if self.turn(last, line, turn)? {
                accepted = accepted.saturating_add(1);
            }
        }
        Ok(accepted)
    }

    /// Makes many changes, and shows how many were accepted and the last answer.
    pub fn repeat(&mut self, out: &mut Sheet, count: &str, line: &str) -> Result<(), Wrong> {
        let mut last = Sheet::new(self.alloc);
        let accepted = self.turns(&mut last, line, number(count)?)?;
        out.put_number("", accepted);
        out.put(" accepted, the last: ");
        out.put(last.read());
        self.show_watched(out);
        Ok(())
    }
}

fn show_refused(out: &mut Sheet, refused: &ChangeRefused) {
    let written = write!(out.text, "{refused}\n");
    out.note(written);
}
