use crate::marks::{lengthened, numbered, put_mark};
use crate::nicks::nicks_answer;
use crate::rows::rows_answer;
use crate::server::Scene;
use crate::sheet::Sheet;
use crate::texts::texts_answer;
use crate::typed::typed;
use std::alloc::Global;
use wc_irc_nicks::Members;
use wc_ircmsg::CaseMap;
use wc_notation::{Wrong, cut_word, is_passed_over};
use wc_text::NoMemory;

/// The nicks of a channel and the server, which the lines of a table change.
#[derive(Drop)]
pub struct Player {
    members: Members,
    scene: Scene,
}

/// What a call is of.
#[derive(Clone, Copy)]
enum Part {
    Typed,
    Rows,
    Nicks,
    Scene,
    Commands,
    Options,
    Texts,
}

const ROWS: &[&str] = &[
    "kind",
    "registered",
    "tokens",
    "modes",
    "groups",
    "listed",
    "listed-hosts",
    "nick",
    "channel",
];

const NICKS: &[&str] = &["come", "go", "name", "give", "find", "nicks"];

const SCENE: &[&str] = &[
    "set", "buffer", "var", "rename", "gone", "begin", "hear", "mark", "told", "lists",
];

const COMMANDS: &[&str] = &[
    "link",
    "lose",
    "type",
    "everywhere",
    "unlinked",
    "close",
    "quit",
    "disconnect",
];

const OPTIONS: &[&str] = &[
    "settings",
    "delete",
    "delete-linked",
    "connect",
    "connect-linked",
];

/// The parts whose calls have these words. All other calls are of texts.
const PARTS: &[(Part, &[&str])] = &[
    (Part::Typed, &["typed"]),
    (Part::Rows, ROWS),
    (Part::Nicks, NICKS),
    (Part::Scene, SCENE),
    (Part::Commands, COMMANDS),
    (Part::Options, OPTIONS),
];

fn part_of(call: &str) -> Part {
    for (part, words) in PARTS {
        if words.iter().any(|word| *word == call) {
            return *part;
        }
    }
    Part::Texts
}

impl Player {
    /// No nicks, and no server.
    pub fn new(alloc: Global) -> Result<Player, NoMemory> {
        let scene = Scene::new(alloc)?;
        Ok(Player {
            members: Members::new(alloc, CaseMap::Rfc1459),
            scene,
        })
    }

    fn answer(
        &mut self,
        alloc: Global,
        call: &str,
        rest: &str,
        out: &mut Sheet,
    ) -> Result<(), Wrong> {
        match part_of(call) {
            Part::Typed => typed(alloc, rest, out),
            Part::Rows => rows_answer(alloc, call, rest, out),
            Part::Nicks => nicks_answer(alloc, &mut self.members, call, rest, out),
            Part::Scene => self.scene.answer(alloc, call, rest, out),
            Part::Commands => self.scene.command(alloc, call, rest, out),
            Part::Options => self.scene.options(alloc, call, rest, out),
            Part::Texts => texts_answer(alloc, call, rest, out),
        }
    }

    /// Writes the mark of a call's answer, whose text goes on with so many letters.
    fn long(&mut self, alloc: Global, words: &str, out: &mut Sheet) -> Result<(), Wrong> {
        let (count, rest) = cut_word(words);
        let (call, rest) = cut_word(rest);
        let Ok(count) = count.parse::<u32>() else {
            return Err(Wrong::Number);
        };
        let text = lengthened(alloc, rest, count)?;
        self.answer_by_mark(alloc, call, text.as_str(), out)
    }

    fn answer_by_mark(
        &mut self,
        alloc: Global,
        call: &str,
        rest: &str,
        out: &mut Sheet,
    ) -> Result<(), Wrong> {
        let mut whole = Sheet::new(alloc);
        self.answer(alloc, call, rest, &mut whole)?;
        put_mark(out, whole.read());
        Ok(())
    }

    /// Writes the mark of the answers of a call that is made so often, with the number of the call
    /// from 0 on after its text.
    fn each(&mut self, alloc: Global, words: &str, out: &mut Sheet) -> Result<(), Wrong> {
        let (count, rest) = cut_word(words);
        let (call, rest) = cut_word(rest);
        let Ok(count) = count.parse::<u32>() else {
            return Err(Wrong::Number);
        };
        let mut whole = Sheet::new(alloc);
        for number in 0..count {
            let text = numbered(alloc, rest, number)?;
            self.answer(alloc, call, text.as_str(), &mut whole)?;
            whole.put("\n");
        }
        put_mark(out, whole.read());
        Ok(())
    }

    fn answer_or_mark(
        &mut self,
        alloc: Global,
        call: &str,
        rest: &str,
        out: &mut Sheet,
    ) -> Result<(), Wrong> {
        match call {
            "long" => self.long(alloc, rest, out),
            "each" => self.each(alloc, rest, out),
            _ => self.answer(alloc, call, rest, out),
        }
    }

    /// Writes a line and its answer.
    fn turn(&mut self, alloc: Global, line: &str, out: &mut Sheet) {
        if is_passed_over(line) {
            return;
        }
        out.put("> ");
        out.put(line);
        out.put("\n");
        let (call, rest) = cut_word(line);
        if let Err(wrong) = self.answer_or_mark(alloc, call, rest, out) {
            out.put("! ");
            out.put(wrong.as_str());
        }
        out.put("\n");
    }

    /// Writes the lines of a table, each with its answer.
    pub fn play(&mut self, alloc: Global, text: &str, out: &mut Sheet) {
        for line in text.lines() {
            self.turn(alloc, line, out);
        }
    }
}
