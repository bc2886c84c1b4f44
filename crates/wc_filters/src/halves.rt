ghost use Rattle.std.specs.Prelude.{◌≡◌, IfOk, IsTrue};
ghost use Rattle.wc_eval.specs.Verdicts.{Stay};
ghost use Rattle.wc_filters.specs.Finders.{IsFinderOf, AreBuiltOf};
ghost use Rattle.wc_filters.specs.Patterns.{half_is_known, is_known};

use crate::search::Search;
use wc_eval::{Pattern, Verdicts};
use wc_text::{NoMemory, Text};

/// What the patterns on prefix and message were built into. An empty one is not built.
#[derive(Drop)]
pub(crate) struct Halves {
    pub(crate) prefix: Option<Pattern>,
    pub(crate) message: Option<Pattern>,
}

impl Halves {
    /// What both patterns, which were judged to be some, are built into.
    pub(crate) fn of(verdicts: &mut Verdicts, search: &Search) -> Result<Halves, NoMemory>
        requires { IsTrue (is_known verdicts.old search.now) }
        ensures built { IfOk result (AreBuiltOf search.now) }
        ensures stay { Stay verdicts.old verdicts.new }
    {
        let prefix = half(verdicts, &search.prefix)?;
        let message = half(verdicts, &search.message)?;
        Ok(Halves { prefix, message })
    }

    /// The same in the same memory.
    pub(crate) fn share(&self) -> Result<Halves, NoMemory>
        ensures { IfOk result (λ halves. halves ≡ self.now) }
    {
        let prefix = share(&self.prefix)?;
        let message = share(&self.message)?;
        Ok(Halves { prefix, message })
    }
}

/// What a pattern that was judged to be one is built into. None where it is empty.
fn half(verdicts: &mut Verdicts, pattern: &Text) -> Result<Option<Pattern>, NoMemory>
    requires { IsTrue (half_is_known verdicts.old pattern.now) }
    ensures built { IfOk result (IsFinderOf pattern.now) }
    ensures stay { Stay verdicts.old verdicts.new }
{
    if pattern.as_slice().is_empty() {
        return Ok(None);
    }
    let Some(own) = verdicts.pattern(pattern)? else {
        unreachable!()
    };
    Ok(Some(own))
}

fn share(half: &Option<Pattern>) -> Result<Option<Pattern>, NoMemory>
    ensures { IfOk result (λ shared. shared ≡ half.now) }
{
    match half {
        Some(pattern) => Ok(Some(pattern.share()?)),
        None => Ok(None),
    }
}
