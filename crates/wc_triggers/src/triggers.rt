ghost use Rattle.std.specs.Prelude.{◌≡◌, ◌<◌, ◌+◌, ◌^◌, ◌++◌, ◌∷◌, [], None, IfOk, OnOk, OnErr};
ghost use Rattle.std.specs.Prelude.{map};
ghost use Rattle.std.specs.Option.{option_copied};
ghost use Rattle.std.specs.Iterator.{YieldsFirst, item_count};
ghost use Rattle.wc_eval.specs.Verdicts.{VerdictsView};
ghost use Rattle.wc_triggers.specs.Kept.{has_name, without, with_flags, number_of, trigger_of};
ghost use Rattle.wc_triggers.specs.Kept.{with_trigger, with_rows, refusal_of, IsAnswer, answered};
ghost use Rattle.wc_triggers.specs.NumbersLeft.{numbers_left};

use crate::numbered::NumberedTrigger;
use crate::refused::{AddRefused, NoSuch};
use crate::trigger::Trigger;
use std::alloc::Global;
use std::marker::Model;
use wc_text::{NoMemory, Text};

/// How many triggers there may be.
const MOST_TRIGGERS: usize = 256;

/// How many numbers may be drawn.
const MOST_NUMBERS: u64 = 4503599627370496;

/// Triggers in the order of creation, each with a number that is never used again. Contracts see the
/// list, and how many numbers were drawn.
#[derive(Drop)]
pub struct Triggers {
    rows: Vec<NumberedTrigger>,
    drawn: u64,
}

impl Model for Triggers {
    ghost use Rattle.wc_triggers.specs.Kept.{TriggersView, UpTo};

    ghost Value = { TriggersView };

    ghost view = { λ t. record { rows = t.rows.items; drawn = t.drawn } };

    ghost invariant = { λ t. UpTo t.drawn t.rows.items };
}

impl Triggers {
    /// No triggers. It takes no memory.
    pub fn new(alloc: Global) -> Triggers
        ensures rows { result.rows ≡ [] }
        ensures drawn { result.drawn ≡ 0 }
    {
        Triggers {
            rows: Vec::new(alloc),
            drawn: 0,
        }
    }

    /// Adds a trigger after the others. It has the next number, from 1 on, which is the answer.
    ///
    /// Refused, in this order: `NameTaken` where a trigger has the name, `TooMany` where there are
    /// 256 triggers, `Spent` where 2^52 numbers were drawn.
    pub fn add(&mut self, trigger: Trigger) -> Result<u64, AddRefused>
        ensures added { OnOk result (self.new ≡ with_trigger trigger self.old) }
        ensures number { IfOk result (λ number. number ≡ self.old.drawn + 1) }
        ensures refused { OnErr result (self.new ≡ self.old) }
        ensures answer { IsAnswer (refusal_of self.old trigger.name) result }
    {
        if let Some(refused) = self.refusal_of(trigger.name()) {
            drop(trigger);
            return Err(refused);
        }
        let number = self.drawn + 1;
        push(&mut self.rows, NumberedTrigger { number, trigger })?;
        self.drawn = number;
        Ok(number)
    }

    /// Why a trigger of this name is not added, but for want of memory.
    fn refusal_of(&self, name: &Text) -> Option<AddRefused>
        ensures refusal { result ≡ refusal_of self.now name.now }
        ensures room { result ≡ None → self.now.drawn < 2 ^ 52 }
    {
        if is_taken(self.rows.as_slice(), name) {
            return Some(AddRefused::NameTaken);
        }
        if self.rows.len() >= MOST_TRIGGERS {
            return Some(AddRefused::TooMany);
        }
        if self.drawn >= MOST_NUMBERS {
            return Some(AddRefused::Spent);
        }
        None
    }

    /// Takes the trigger of this name out, and answers its number. Refused exactly where there is
    /// none.
    pub fn del(&mut self, name: &Text) -> Result<u64, NoSuch>
        ensures triggers { self.new ≡ with_rows (without name.now self.old.rows) self.old }
        ensures number { answered result ≡ number_of name.now self.old.rows }
    {
        let number = number_of(self.rows.as_slice(), name);
        drop_named(&mut self.rows, name);
        number
    }

    /// Enables or disables the trigger of this name, and answers its number. Refused exactly where
    /// there is none.
    pub fn enable(&mut self, name: &Text, on: bool) -> Result<u64, NoSuch>
        ensures triggers { self.new ≡ with_rows (with_flags name.now on self.old.rows) self.old }
        ensures number { answered result ≡ number_of name.now self.old.rows }
    {
        let number = number_of(self.rows.as_slice(), name);
        enable(self.rows.as_mut_slice(), name, on);
        number
    }

    /// The trigger of this number. None exactly where there is none.
    pub fn get(&self, number: u64) -> Option<&Trigger>
        ensures { option_copied result ≡ trigger_of number self.now.rows }
    {
        match self.rows.iter().find(|row| row.number == number) {
            Some(row) => Some(&row.trigger),
            None => None,
        }
    }

    /// The numbers, in the order of creation.
    pub fn numbers(&self) -> NumberIter<'_>
        ensures { numbers_left result ≡ map (λ row. row.number) self.now.rows }
    {
        NumberIter {
            rows: self.rows.as_slice(),
        }
    }
}

fn is_taken(rows: &[NumberedTrigger], name: &Text) -> bool
    ensures { result ≡ has_name name.now rows.now }
{
    rows.iter().any(|row| row.is_named(name))
}

/// The number of the trigger of this name.
fn number_of(rows: &[NumberedTrigger], name: &Text) -> Result<u64, NoSuch>
    ensures { answered result ≡ number_of name.now rows.now }
{
    match rows.iter().find(|row| row.is_named(name)) {
        Some(row) => Ok(row.number),
        None => Err(NoSuch),
    }
}

fn drop_named(rows: &mut Vec<NumberedTrigger>, name: &Text)
    ensures { rows.new.items ≡ without name.now rows.old.items }
{
    rows.retain(|row| !row.is_named(name));
}

fn push(rows: &mut Vec<NumberedTrigger>, row: NumberedTrigger) -> Result<(), NoMemory>
    ensures ok { OnOk result (rows.new.items ≡ rows.old.items ++ row ∷ []) }
    ensures err { OnErr result (rows.new.items ≡ rows.old.items) }
{
    match rows.push(row) {
        Ok(()) => Ok(()),
        Err(_) => Err(NoMemory),
    }
}

fn enable(rows: &mut [NumberedTrigger], name: &Text, on: bool)
    ensures { rows.new ≡ with_flags name.now on rows.old }
{
    for row in rows.iter_mut() {
        row.enable(name, on);
    }
}

/// The numbers of triggers that are still to come, in the order of creation.
#[derive(Drop)]
pub struct NumberIter<'a> {
    rows: &'a [NumberedTrigger],
}

impl<'a> Iterator for NumberIter<'a> {
    type Item = u64;

    ghost next_gives = { YieldsFirst numbers_left };

    ghost remaining = { item_count numbers_left };

    fn next(&mut self) -> Option<u64> {
        let (row, others) = self.rows.split_first()?;
        self.rows = others;
        Some(row.number)
    }
}
