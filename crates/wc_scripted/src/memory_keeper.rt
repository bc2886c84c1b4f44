ghost use Rattle.std.specs.Prelude.{◌≡◌, ◌≤◌, Some, IfOk, OnOk, OnErr, IsErrOf};
ghost use Rattle.wc_outside.specs.Faults.{Rose, UnlessFailed};
ghost use Rattle.wc_scripted.specs.Counted.{none_made, call_fails, CountsCall, ReadFailsWhere};
ghost use Rattle.wc_scripted.specs.Plays.{FailsOrStarves};

use crate::fault_counts::{Calls, count_fault};
use std::alloc::Global;
use wc_outside::{Failed, KeepFault, Keeper};
use wc_text::{Items, NoMemory, Text};

/// Keeps a text in memory.
///
/// Its count of faults rises at each call that is named as failing, and where memory for what is to
/// be kept is refused.
#[derive(Drop)]
pub struct MemoryKeeper {
    alloc: Global,
    contents: Text,
    calls: Calls,
    faults: u64,
    refused: u64,
}

impl MemoryKeeper {
    ghost use Rattle.wc_scripted.specs.Views.{keeper_calls};

    /// A keeper of this text, which fails at the calls with these numbers, counted from 1.
    pub fn new(alloc: Global, contents: Text, failing: Items<u64>) -> Result<MemoryKeeper, NoMemory>
        ensures contents { IfOk result (λ keeper. ⟦<MemoryKeeper as Keeper>⟧.contents keeper
            ≡ Some contents) }
        ensures faults { IfOk result (λ keeper. ⟦<MemoryKeeper as Keeper>⟧.faults keeper ≡ 0) }
        ensures calls { IfOk result (λ keeper. keeper_calls keeper ≡ none_made failing) }
    {
        Ok(MemoryKeeper {
            alloc,
            contents,
            calls: Calls::new(failing),
            faults: 0,
            refused: 0,
        })
    }

    /// The bytes that are kept.
    pub fn contents(&self) -> &[u8]
        ensures { ⟦<MemoryKeeper as Keeper>⟧.contents self.now ≡ Some result.now }
    {
        self.contents.as_slice()
    }

    /// How often memory was refused to it.
    pub fn refused(&self) -> u64
        ensures { result ≡ (keeper_calls self.now).refused }
    {
        self.refused
    }
}

impl Keeper for MemoryKeeper {
    ghost use Rattle.std.specs.Prelude.{Some};
    ghost use Rattle.wc_scripted.specs.Views.{held_by, faults_of, keeper_calls};

    ghost contents = { λ keeper. Some keeper.contents };

    ghost faults = { λ keeper. keeper.faults };

    fn read_all(&mut self, alloc: Global) -> Result<Text, KeepFault>
        ensures contents { held_by self.new ≡ held_by self.old }
        ensures read { IfOk result (λ text. text ≡ held_by self.old) }
        ensures count { UnlessFailed result (faults_of self.new ≡ faults_of self.old) }
        ensures counts { faults_of self.old ≤ faults_of self.new }
        ensures failed { IsErrOf result KeepFault.Failed →
            Rose (faults_of self.old) (faults_of self.new) }
        ensures fails { ReadFailsWhere (call_fails (keeper_calls self.old)) result }
        ensures calls { CountsCall (keeper_calls self.old) (keeper_calls self.new) }
    {
        if self.calls.next_fails() {
            count_fault(&mut self.faults);
            return Err(KeepFault::Failed);
        }
        match self.contents.copy(alloc) {
            Ok(text) => Ok(text),
            Err(NoMemory) => Err(KeepFault::NoMemory),
        }
    }

    fn replace(&mut self, bytes: &[u8]) -> Result<(), Failed>
        ensures ok { OnOk result (held_by self.new ≡ bytes.now) }
        ensures kept { OnErr result (held_by self.new ≡ held_by self.old) }
        ensures count { OnOk result (faults_of self.new ≡ faults_of self.old) }
        ensures counts { faults_of self.old ≤ faults_of self.new }
        ensures failed { OnErr result (Rose (faults_of self.old) (faults_of self.new)) }
        ensures fails { FailsOrStarves (call_fails (keeper_calls self.old))
            (keeper_calls self.old).refused (keeper_calls self.new).refused result }
        ensures calls { CountsCall (keeper_calls self.old) (keeper_calls self.new) }
    {
        if self.calls.next_fails() {
            count_fault(&mut self.faults);
            return Err(Failed);
        }
        let Ok(contents) = Text::from_slice(self.alloc, bytes) else {
            self.refused = self.refused.saturating_add(1);
            count_fault(&mut self.faults);
            return Err(Failed);
        };
        self.contents = contents;
        Ok(())
    }
}
