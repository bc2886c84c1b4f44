ghost use Rattle.std.specs.Prelude.{IfOk};
ghost use Rattle.wc_outside.specs.Seen.{IsNew};

use crate::forms::{Forms, number};
use crate::keeper::ReplayKeeper;
use crate::wrong::Wrong;
use std::alloc::Global;
use wc_outside::Sockets;
use wc_scripted::{MemoryKeeper, MemorySockets, Scripted};
use wc_text::{Items, LinkId, NoMemory, Text};

/// What each client is to salt its password with.
const NONCE: [u8; 16] = *b"abcdbcdecdefdefg";

/// The links that a script names have numbers below this one.
pub const NAMED: u64 = 80;

/// What became of the links with numbers below this one is written.
pub const SHOWN: u64 = 12;

/// What comes on the sockets of a run, and which of their calls fail.
#[derive(Drop)]
pub struct Wires {
    script: Items<Scripted>,
    faults: Items<u64>,
    /// How many bytes a link takes between two waits, or 0 where there is no bound.
    window: u32,
}

/// The configuration of a run, which calls of its keeper fail, and whether reads find no memory.
#[derive(Drop)]
pub struct Kept {
    configuration: Text,
    faults: Items<u64>,
    starves: bool,
}

/// A run before it begins.
#[derive(Drop)]
pub struct Stage {
    alloc: Global,
    pub words: Vec<String>,
    pub wires: Wires,
    pub kept: Kept,
    pub sink_faults: Items<u64>,
    /// How many clients come.
    pub arrivals: u64,
    /// How many bytes come at once, or 0 where there is no bound.
    piece: usize,
    /// The moment of the last wake.
    moment: u64,
}

/// The link that a word names.
pub fn link(word: &str) -> Result<LinkId, Wrong> {
    let number = number(word)?;
    if number < 1 || number >= NAMED {
        return Err(Wrong::Link);
    }
    Ok(LinkId(number))
}

/// Adds the number that a word writes.
fn add_number(numbers: &mut Items<u64>, word: &str) -> Result<(), Wrong> {
    Ok(numbers.push(number(word)?)?)
}

impl Wires {
    fn new(alloc: Global) -> Wires {
        Wires {
            script: Items::new(alloc),
            faults: Items::new(alloc),
            window: 0,
        }
    }

    /// The sockets that play it.
    pub fn sockets(self, alloc: Global) -> Result<MemorySockets, NoMemory>
        ensures { IfOk result (λ sockets. IsNew (⟦<MemorySockets as Sockets>⟧.seen sockets)) }
    {
        let Wires {
            script,
            faults,
            window,
        } = self;
        MemorySockets::new(alloc, script, faults, window)
    }
}

impl Kept {
    fn new(alloc: Global) -> Kept {
        Kept {
            configuration: Text::new(alloc),
            faults: Items::new(alloc),
            starves: false,
        }
    }

    /// The keeper that has it.
    pub fn keeper(self, alloc: Global) -> Result<ReplayKeeper, NoMemory> {
        let Kept {
            configuration,
            faults,
            starves,
        } = self;
        let keeper = MemoryKeeper::new(alloc, configuration, faults)?;
        Ok(ReplayKeeper::new(keeper, starves))
    }
}

impl Stage {
    pub fn new(alloc: Global) -> Stage {
        Stage {
            alloc,
            words: Vec::new(alloc),
            wires: Wires::new(alloc),
            kept: Kept::new(alloc),
            sink_faults: Items::new(alloc),
            arrivals: 0,
            piece: 0,
            moment: 0,
        }
    }

    /// Adds the step of a line, of which these begin with the number of a link:
    ///
    /// - `says 1 BYTES`: the bytes and a line feed come on it; `gives 1 BYTES`: the bytes alone;
    /// - `ends 1`: its bytes come to their end;
    /// - `stands 1`: it is a connection, which stands from now on.
    ///
    /// The others are:
    ///
    /// - `words WORDS`: words of the command line; `word TEXT`: one that may have blanks;
    /// - `config BYTES`: a line of the configuration; `config_end BYTES`: one without a line feed;
    /// - `wake NUMBER`: a wait comes back at this moment, in milliseconds since 1970;
    /// - `arrive`: a client comes; `arrive NUMBER`: so many;
    /// - `piece NUMBER`: from here on bytes come in pieces of so many, each before its own wait;
    /// - `window NUMBER`: a link takes so many bytes between two waits;
    /// - `fail_sockets`, `fail_keeper` and `fail_sink`, each with a number: that call fails, where
    ///   all calls but closes are counted from 1;
    /// - `starve_keeper`: its reads find no memory;
    /// - `name NAME BYTES`: these bytes get a name; and a comment after `#`.
    ///
    /// Bytes are spelled as `Forms::spelled` has it.
    pub fn step(&mut self, forms: &mut Forms, line: &str) -> Result<(), Wrong> {
        let (word, rest) = line.split_once(' ').unwrap_or((line, ""));
        match word {
            "" | "#" => Ok(()),
            "name" => forms.define(rest),
            "says" => self.give(forms, rest, b"\n"),
            "gives" => self.give(forms, rest, b""),
            "config" => self.configure(forms, rest, b"\n"),
            "config_end" => self.configure(forms, rest, b""),
            _ => self.come(word, rest),
        }
    }

    /// Adds what comes, but for bytes.
    fn come(&mut self, word: &str, rest: &str) -> Result<(), Wrong> {
        match word {
            "wake" => self.wake(rest),
            "arrive" => self.arrive(rest),
            "ends" => self.end(rest),
            "stands" => self.stand(rest),
            _ => self.settle(word, rest),
        }
    }

    /// Settles what holds of the whole run, or of what comes after it in the script.
    fn settle(&mut self, word: &str, rest: &str) -> Result<(), Wrong> {
        match word {
            "words" => self.take_words(rest),
            "word" => self.take_word(rest),
            "piece" => self.cut(rest),
            "window" => self.narrow(rest),
            "fail_sockets" => add_number(&mut self.wires.faults, rest),
            "fail_keeper" => add_number(&mut self.kept.faults, rest),
            "fail_sink" => add_number(&mut self.sink_faults, rest),
            "starve_keeper" => self.starve(),
            _ => Err(Wrong::Word),
        }
    }

    /// The keeper's reads find no memory.
    fn starve(&mut self) -> Result<(), Wrong> {
        self.kept.starves = true;
        Ok(())
    }

    /// Words of the command line, which blanks part.
    fn take_words(&mut self, rest: &str) -> Result<(), Wrong> {
        for word in rest.split_whitespace() {
            self.take_word(word)?;
        }
        Ok(())
    }

    /// One word of the command line.
    fn take_word(&mut self, rest: &str) -> Result<(), Wrong> {
        let word = String::from_str(self.alloc, rest)?;
        if self.words.push(word).is_err() {
            return Err(Wrong::NoMemory);
        }
        Ok(())
    }

    /// A line of the configuration, and its end.
    fn configure(&mut self, forms: &Forms, rest: &str, end: &[u8]) -> Result<(), Wrong> {
        let line = forms.spell(rest)?;
        self.kept.configuration.append(line.as_slice())?;
        Ok(self.kept.configuration.append(end)?)
    }

    /// A wait comes back at this moment.
    fn wake(&mut self, rest: &str) -> Result<(), Wrong> {
        self.moment = number(rest)?;
        Ok(self.wires.script.push(Scripted::Wake(self.moment))?)
    }

    /// Clients come: one, or so many.
    fn arrive(&mut self, rest: &str) -> Result<(), Wrong> {
        let count = if rest.is_empty() { 1 } else { number(rest)? };
        for _ in 0..count {
            self.wires.script.push(Scripted::Arrive(NONCE))?;
            self.arrivals = self.arrivals.saturating_add(1);
        }
        Ok(())
    }

    /// Bytes come on a link: a text, and its end.
    fn give(&mut self, forms: &Forms, rest: &str, end: &[u8]) -> Result<(), Wrong> {
        let Some((word, text)) = rest.split_once(' ') else {
            return Err(Wrong::Missing);
        };
        let link = link(word)?;
        let mut bytes = forms.spell(text)?;
        bytes.append(end)?;
        self.give_bytes(link, bytes.as_slice())
    }

    /// Bytes come on a link, at once or in pieces, each before a wait of its own.
    fn give_bytes(&mut self, link: LinkId, bytes: &[u8]) -> Result<(), Wrong> {
        if self.piece == 0 {
            return self.give_piece(link, bytes);
        }
        for piece in bytes.chunks(self.piece) {
            self.give_piece(link, piece)?;
            self.wires.script.push(Scripted::Wake(self.moment))?;
        }
        Ok(())
    }

    fn give_piece(&mut self, link: LinkId, bytes: &[u8]) -> Result<(), Wrong> {
        let piece = Text::from_slice(self.alloc, bytes)?;
        Ok(self.wires.script.push(Scripted::Gives(link, piece))?)
    }

    /// The bytes of a link end.
    fn end(&mut self, rest: &str) -> Result<(), Wrong> {
        let link = link(rest)?;
        Ok(self.wires.script.push(Scripted::Ends(link))?)
    }

    /// The connection of a link stands.
    fn stand(&mut self, rest: &str) -> Result<(), Wrong> {
        let link = link(rest)?;
        Ok(self.wires.script.push(Scripted::Stands(link))?)
    }

    /// From here on so many bytes come at once, or any number for 0.
    fn cut(&mut self, rest: &str) -> Result<(), Wrong> {
        let Ok(piece) = rest.parse::<usize>() else {
            return Err(Wrong::Number);
        };
        self.piece = piece;
        Ok(())
    }

    /// So many bytes are taken by a link between two waits.
    fn narrow(&mut self, rest: &str) -> Result<(), Wrong> {
        let Ok(window) = rest.parse::<u32>() else {
            return Err(Wrong::Number);
        };
        self.wires.window = window;
        Ok(())
    }
}
