ghost use Rattle.std.specs.Prelude.{◌≡◌, ◌≤◌, ◌++◌, [], Some, IfOk, OnOk, OnErr};
ghost use Rattle.wc_outside.specs.Faults.{Rose};
ghost use Rattle.wc_scripted.specs.Counted.{none_made, call_fails, CountsCall};
ghost use Rattle.wc_scripted.specs.Plays.{FailsOrStarves};

use crate::fault_counts::{Calls, count_fault};
use std::alloc::Global;
use wc_outside::{Failed, Sink};
use wc_text::{Items, NoMemory, Text};

/// Keeps what is printed in memory.
///
/// Its count of faults rises at each call that is named as failing, and where memory for what is
/// printed is refused; nothing of that piece is then kept.
#[derive(Drop)]
pub struct MemorySink {
    contents: Text,
    calls: Calls,
    faults: u64,
    refused: u64,
}

impl MemorySink {
    ghost use Rattle.wc_scripted.specs.Views.{sink_calls};

    /// An empty sink, which fails at the calls with these numbers, counted from 1.
    pub fn new(alloc: Global, failing: Items<u64>) -> Result<MemorySink, NoMemory>
        ensures contents { IfOk result (λ sink. ⟦<MemorySink as Sink>⟧.contents sink ≡ Some []) }
        ensures faults { IfOk result (λ sink. ⟦<MemorySink as Sink>⟧.faults sink ≡ 0) }
        ensures calls { IfOk result (λ sink. sink_calls sink ≡ none_made failing) }
    {
        Ok(MemorySink {
            contents: Text::new(alloc),
            calls: Calls::new(failing),
            faults: 0,
            refused: 0,
        })
    }

    /// What was printed.
    pub fn contents(&self) -> &[u8]
        ensures { ⟦<MemorySink as Sink>⟧.contents self.now ≡ Some result.now }
    {
        self.contents.as_slice()
    }

    /// How often memory was refused to it.
    pub fn refused(&self) -> u64
        ensures { result ≡ (sink_calls self.now).refused }
    {
        self.refused
    }
}

impl Sink for MemorySink {
    ghost use Rattle.std.specs.Prelude.{Some};
    ghost use Rattle.wc_scripted.specs.Views.{printed_on, sink_faults, sink_calls};

    ghost contents = { λ sink. Some sink.contents };

    ghost faults = { λ sink. sink.faults };

    fn write(&mut self, piece: &[u8]) -> Result<(), Failed>
        ensures ok { OnOk result (printed_on self.new ≡ printed_on self.old ++ piece.now) }
        ensures count { OnOk result (sink_faults self.new ≡ sink_faults self.old) }
        ensures counts { sink_faults self.old ≤ sink_faults self.new }
        ensures failed { OnErr result (Rose (sink_faults self.old) (sink_faults self.new)) }
        ensures fails { FailsOrStarves (call_fails (sink_calls self.old))
            (sink_calls self.old).refused (sink_calls self.new).refused result }
        ensures calls { CountsCall (sink_calls self.old) (sink_calls self.new) }
    {
        if self.calls.next_fails() {
            count_fault(&mut self.faults);
            return Err(Failed);
        }
        if self.contents.append(piece).is_err() {
            self.refused = self.refused.saturating_add(1);
            count_fault(&mut self.faults);
            return Err(Failed);
        }
        Ok(())
    }
}
