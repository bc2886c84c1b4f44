ghost use Rattle.std.specs.Prelude.{◌≡◌, IfOk};
ghost use Rattle.regex.specs.Strings.{regex_source};
ghost use Rattle.wc_eval.specs.Built.{IsBuiltOf};

use regex::Regex;
use std::alloc::Global;
use std::marker::Model;
use std::rc::Rc;
use wc_text::NoMemory;

/// A pattern that was built, which takes about half a megabyte at most. Contracts see its text.
#[derive(Drop)]
pub struct Pattern {
    regex: Rc<Regex>,
}

impl Model for Pattern {
    ghost use Rattle.std.specs.Prelude.{List, ℕ};

    ghost Value = { List ℕ };

    ghost use Rattle.regex.specs.Strings.{regex_source};
    ghost use Rattle.wc_eval.specs.Built.{IsBuiltOf};

    ghost view = { λ p. regex_source p.regex.value };

    ghost invariant = { λ p. IsBuiltOf (regex_source p.regex.value) p.regex.value };
}

impl Pattern {
    /// The pattern that this regular expression is.
    pub(crate) fn new(alloc: Global, regex: Regex) -> Result<Pattern, NoMemory>
        requires { IsBuiltOf (regex_source regex) regex }
        ensures { IfOk result (λ pattern. pattern ≡ regex_source regex) }
    {
        match Rc::new(alloc, regex) {
            Ok(regex) => Ok(Pattern { regex }),
            Err(_) => Err(NoMemory),
        }
    }

    /// The same pattern in the same memory.
    pub fn share(&self) -> Result<Pattern, NoMemory>
        ensures { IfOk result (λ pattern. pattern ≡ self.now) }
    {
        let regex = self.regex.clone()?;
        Ok(Pattern { regex })
    }

    /// The regular expression that it is.
    pub fn regex(&self) -> &Regex
        ensures { IsBuiltOf self.now result.now }
    {
        self.regex.as_ref()
    }
}
