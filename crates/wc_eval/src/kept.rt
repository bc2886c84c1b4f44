ghost use Rattle.std.specs.Prelude.{◌≡◌, ◌≤◌, ◌<◌, ◌+◌, length, IfErr, IfOk, OnOk, OnErr};
ghost use Rattle.std.specs.Prelude.{option_map};
ghost use Rattle.std.specs.Str.{IsUtf8};
ghost use Rattle.wc_eval.specs.Progress.{fresh, counted, define};
ghost use Rattle.wc_eval.specs.LongValues.{Fits};
ghost use Rattle.wc_eval.specs.Names.{defined_in};

use crate::characters::as_text;
use crate::values::{LONGEST, Stop};
use indexmap::IndexMap;
use std::alloc::Global;
use std::marker::Model;
use wc_text::{NoMemory, Text};

/// The most forms that one evaluation has.
const MOST_FORMS: u32 = 65_536;

/// The most bytes that all names of one evaluation have that are defined, and all their values.
const MOST_DEFINED: u64 = 1_048_576;

/// The most bytes that the values of all forms of one evaluation have.
const MOST_MADE: u64 = 16_777_216;

/// What an evaluation keeps while it goes on: the names that were defined, each with its value, how
/// many forms were evaluated, and sums of bytes, in which a name that is defined again counts again.
#[derive(Drop)]
pub(crate) struct Kept {
    names: IndexMap<Vec<u8>, String>,
    forms: u32,
    /// Of the names that were defined.
    named: u64,
    /// Of the values that they got.
    defined: u64,
    /// Of the values of forms.
    made: u64,
}

impl Model for Kept {
    ghost use Rattle.wc_eval.specs.Progress.{Progress};
    ghost use Rattle.wc_eval.specs.Stored.{names_of};

    ghost Value = { Progress };

    ghost view = { λ kept. record {
      names = names_of kept.names.entries;
      forms = kept.forms;
      named = kept.named;
      defined = kept.defined;
      made = kept.made;
    } };
}

/// A sum with the bytes of a text more. So many that it does not fit are in no memory.
fn sum_with(sum: u64, text: &[u8]) -> Result<u64, NoMemory>
    ensures { IfOk result (λ more. more ≡ sum + length text.now) }
{
    match sum.checked_add(text.len() as u64) {
        Some(more) => Ok(more),
        None => Err(NoMemory),
    }
}

impl Kept {
    pub(crate) fn new(alloc: Global) -> Kept
        ensures { result ≡ fresh }
    {
        Kept {
            names: IndexMap::new(alloc),
            forms: 0,
            named: 0,
            defined: 0,
            made: 0,
        }
    }

    /// Counts one form more, if that many may be.
    pub(crate) fn count_form(&mut self) -> Result<(), Stop>
        ensures few { OnOk result (self.old.forms < 65536) }
        ensures ok { OnOk result (self.new ≡ counted self.old) }
        ensures over { OnErr result (65536 ≤ self.old.forms) }
        ensures err { IfErr result (λ stop. stop ≡ Stop.Over) }
    {
        if self.forms >= MOST_FORMS {
            return Err(Stop::Over);
        }
        self.forms += 1;
        Ok(())
    }

    /// Counts the value of a form, if no limit is passed then: by the value, by the names that are
    /// defined, by the values of all forms.
    pub(crate) fn count_value(&mut self, value: Text) -> Result<Text, Stop>
        ensures fits { Fits value self.old self.new result }
    {
        let bytes = value.as_slice().len();
        if bytes > LONGEST || self.named > MOST_DEFINED || self.defined > MOST_DEFINED {
            return Err(Stop::Over);
        }
        let made = self.made.saturating_add(bytes as u64);
        if made > MOST_MADE {
            return Err(Stop::Over);
        }
        self.made = made;
        Ok(value)
    }

    /// Sets a name. One that was set before gets the new value. Whether the names fit then is seen
    /// where the value of the form is counted.
    pub(crate) fn define(
        &mut self,
        alloc: Global,
        name: &[u8],
        value: &[u8],
    ) -> Result<(), NoMemory>
        requires { IsUtf8 value.now }
        ensures ok { OnOk result (self.new ≡ define name.now value.now self.old) }
    {
        let named = sum_with(self.named, name)?;
        let defined = sum_with(self.defined, value)?;
        let key = name.to_vec(alloc)?;
        let text = as_text(value).to_string(alloc)?;
        let Ok(_) = self.names.insert(key, text) else {
            return Err(NoMemory);
        };
        self.named = named;
        self.defined = defined;
        Ok(())
    }

    /// The value of a name that was set.
    pub(crate) fn value(&self, name: &[u8]) -> Option<&str>
        ensures { option_map (λ value. value.now) result ≡ defined_in name.now self.now.names }
    {
        match self.names.get(name) {
            Some(value) => Some(value.as_str()),
            None => None,
        }
    }
}
