ghost use Rattle.std.specs.Prelude.{◌≡◌, IfOk};
ghost use Rattle.std.specs.Str.{IsUtf8};
ghost use Rattle.wc_eval.specs.Verdicts.{Oracle, Agrees, Stay};
ghost use Rattle.wc_eval.specs.Names.{facts_of, AreTexts};
ghost use Rattle.wc_eval.specs.Meaning.{text_value, condition_holds};

use crate::context::Context;
use crate::kept::Kept;
use crate::scope::Scope;
use crate::values::Stop;
use crate::verdicts::Verdicts;
use std::alloc::Global;
use wc_text::{NoMemory, Text};

/// The value of a text: what is outside `${` and its `}` stays, and each form has its value. It is
/// empty where more than 32 forms are inside one another, more than 65,536 are evaluated, a value is
/// longer than 65,536 bytes, the values of all forms have more than 16,777,216 bytes, or the names
/// that are defined have more than 1,048,576, or their values. Refused for want of memory alone.
pub fn eval(
    alloc: Global,
    scope: Scope<'_>,
    verdicts: &mut Verdicts,
    text: &Text,
) -> Result<Text, NoMemory>
    requires scope { AreTexts (facts_of scope) }
    requires text { IsUtf8 text.now }
    // Whatever is thought of texts that were not judged, the value is the same.
    ensures value { IfOk result (λ value. (oracle : Oracle) → Agrees oracle verdicts.new →
        value ≡ text_value (facts_of scope.entry) oracle text.now) }
    ensures utf8 { IfOk result IsUtf8 }
    ensures stay { Stay verdicts.old verdicts.new }
{
    let mut kept = Kept::new(alloc);
    let context = Context::new(alloc, scope);
    match context.text(verdicts, &mut kept, text.as_slice()) {
        Ok(value) => Ok(value),
        Err(Stop::Over) => Ok(Text::new(alloc)),
        Err(Stop::NoMemory) => Err(NoMemory),
    }
}

/// Whether a condition holds: by rank `||`, `&&`, a comparison, a text whose value is not empty and
/// not `0`. Parentheses group, and one without its partner is text. It does not hold where more than
/// 32 parentheses are open at one place, or the value of a text would pass a limit. Refused for want
/// of memory alone.
pub fn condition(
    alloc: Global,
    scope: Scope<'_>,
    verdicts: &mut Verdicts,
    text: &Text,
) -> Result<bool, NoMemory>
    requires scope { AreTexts (facts_of scope) }
    requires text { IsUtf8 text.now }
    // Whatever is thought of texts that were not judged, the answer is the same.
    ensures holds { IfOk result (λ holds. (oracle : Oracle) → Agrees oracle verdicts.new →
        holds ≡ condition_holds (facts_of scope.entry) oracle text.now) }
    ensures stay { Stay verdicts.old verdicts.new }
{
    let mut kept = Kept::new(alloc);
    let context = Context::new(alloc, scope);
    match context.condition(verdicts, &mut kept, text.as_slice()) {
        Ok(holds) => Ok(holds),
        Err(Stop::Over) => Ok(false),
        Err(Stop::NoMemory) => Err(NoMemory),
    }
}
