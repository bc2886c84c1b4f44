ghost use Rattle.std.specs.Prelude.{◌≡◌, IfOk};
ghost use Rattle.regex.specs.Strings.{regex_source};
ghost use Rattle.wc_eval.specs.Built.{IsBuiltOf};
ghost use Rattle.wc_eval.specs.Matching.{is_found};

use regex::{Matcher, Regex};
use std::alloc::Global;
use std::marker::Model;
use wc_text::NoMemory;

/// Looks for one pattern in many texts. Contracts see the text of the pattern.
///
/// Memory is asked for where it is made alone: a search keeps what it learnt for later ones, and
/// none is refused.
#[derive(Drop)]
pub struct Finder<'r> {
    regex: &'r Regex,
    matcher: Matcher<'r>,
}

impl<'r> Model for Finder<'r> {
    ghost use Rattle.std.specs.Prelude.{List, ℕ};

    ghost Value = { List ℕ };

    ghost use Rattle.regex.specs.Strings.{regex_source};
    ghost use Rattle.wc_eval.specs.Searched.{SearchesFor};

    ghost view = { λ f. regex_source f.regex.now };

    ghost invariant = { λ f. SearchesFor f.regex.now f.matcher };
}

impl<'r> Finder<'r> {
    /// What looks for this pattern.
    pub fn new(alloc: Global, regex: &'r Regex) -> Result<Finder<'r>, NoMemory>
        requires { IsBuiltOf (regex_source regex.now) regex.now }
        ensures { IfOk result (λ finder. finder ≡ regex_source regex.now) }
    {
        let matcher = regex.matcher(alloc)?;
        Ok(Finder { regex, matcher })
    }

    /// Whether a text has a match of the pattern.
    pub fn is_match(&mut self, text: &str) -> bool
        ensures found { result ≡ is_found self.old text.now }
        ensures same { self.new ≡ self.old }
    {
        self.matcher.is_match(text)
    }
}
