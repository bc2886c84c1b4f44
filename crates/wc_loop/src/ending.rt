ghost use Rattle.std.specs.Prelude.{◌≡◌, ◌≢◌};
ghost use Rattle.wc_loop.specs.Endings.{status_of, ending_text};

use crate::print::{demo_line, line, put_number};
use arrayvec::ArrayVec;
use wc_demo::Counts;

/// Why a run ends.
#[derive(Clone, Copy)]
pub enum Ending {
    /// Words asked for the version.
    Version,
    /// Words asked for the words.
    Help,
    /// The word of this number is unknown, lacks its value, or has an unreadable one.
    BadWord(u64),
    WaitFailed,
    NoConfiguration,
    /// The line of this number is unreadable.
    BadLine(u64),
    NoMemory,
    ListenFailed,
    /// The configuration could not be written.
    NotSaved,
    /// As many waits returned as were asked for.
    TurnsTaken,
    /// `/quit` was run.
    Quit,
    /// The demo of so many lines was run, after which there is this.
    Demo(u32, Counts),
}

impl Ending {
    /// The exit status.
    pub fn status(self) -> u8
        ensures { result ≡ status_of self }
    {
        match self {
            Ending::Version | Ending::Help | Ending::Quit | Ending::Demo(_, _) => 0,
            Ending::BadWord(_) => 1,
            Ending::WaitFailed => 2,
            Ending::NoConfiguration | Ending::NotSaved => 3,
            Ending::BadLine(_) => 4,
            Ending::NoMemory => 5,
            Ending::ListenFailed => 6,
            Ending::TurnsTaken => 8,
        }
    }

    /// What is printed, but for the help, which is longer.
    pub fn text(self) -> ArrayVec<u8, 192>
        ensures { self ≢ Ending.Help → result.items ≡ ending_text self }
    {
        match self {
            Ending::Version => line(b"wc-headless 1"),
            Ending::BadWord(number) => put_number(b"bad word ", number),
            Ending::WaitFailed => line(b"wait failed"),
            Ending::NoConfiguration => line(b"cannot read configuration"),
            Ending::BadLine(number) => put_number(b"configuration line ", number),
            Ending::NoMemory => line(b"out of memory"),
            Ending::ListenFailed => line(b"listen failed"),
            Ending::NotSaved => line(b"cannot write configuration"),
            Ending::Demo(lines, counts) => demo_line(lines, counts),
            Ending::Help | Ending::TurnsTaken | Ending::Quit => ArrayVec::new(),
        }
    }
}
