ghost use Rattle.std.specs.Prelude.{◌≡◌, IfOk, Some};
ghost use Rattle.std.specs.Str.{IsUtf8};
ghost use Rattle.wc_eval.specs.Verdicts.{Oracle, Agrees, Stay};
ghost use Rattle.wc_eval.specs.Names.{facts_of, AreTexts};
ghost use Rattle.wc_eval.specs.Progress.{fresh};
ghost use Rattle.wc_eval.specs.Replaced.{replaced};

use crate::kept::Kept;
use crate::replaced::replaced_text;
use crate::scope::Scope;
use crate::search::Span;
use crate::values::Stop;
use crate::verdicts::Verdicts;
use std::alloc::Global;
use std::marker::Model;
use wc_text::{Items, NoMemory, Text};

/// One evaluation in which matches are replaced in several texts. Its limits are those of all of
/// them together. Contracts see what it keeps, and nothing once a limit was passed.
#[derive(Drop)]
pub struct Evaluation {
    kept: Kept,
    is_over: bool,
}

impl Model for Evaluation {
    ghost use Rattle.wc_eval.specs.Replaced.{Evaluation as Seen};

    ghost Value = { Seen };

    ghost use Rattle.std.specs.Prelude.{Some, None, if◌then◌else◌};

    ghost view = { λ e. if e.is_over then None else Some e.kept };
}

impl Evaluation {
    /// An evaluation that begins. It takes no memory.
    pub fn new(alloc: Global) -> Evaluation
        ensures { result ≡ Some fresh }
    {
        Evaluation {
            kept: Kept::new(alloc),
            is_over: false,
        }
    }

    /// A text in which these matches are replaced, each by the value of a text that may name the
    /// groups of the match. It is empty where more than 32 forms are inside one another, the
    /// evaluation has more than 65,536 of them, a value or the text is longer than 65,536 bytes, the
    /// values of all forms have more than 16,777,216 bytes, the names that are defined have more than
    /// 1,048,576, or their values, or this was so of a text before. Refused for want of memory alone.
    pub fn replaced(
        &mut self,
        alloc: Global,
        scope: Scope<'_>,
        verdicts: &mut Verdicts,
        replacement: &Text,
        text: &Text,
        matches: &[Items<Span>],
    ) -> Result<Text, NoMemory>
        requires scope { AreTexts (facts_of scope) }
        requires replacement { IsUtf8 replacement.now }
        // Whatever is thought of texts that were not judged, the value is the same.
        ensures value { IfOk result (λ value. (oracle : Oracle) → Agrees oracle verdicts.new →
            (value, self.new) ≡ replaced (facts_of scope.entry) oracle replacement.now text.now
            matches.now self.old) }
        ensures utf8 { IfOk result IsUtf8 }
        ensures stay { Stay verdicts.old verdicts.new }
    {
        if self.is_over {
            return Ok(Text::new(alloc));
        }
        let replacement = replacement.as_slice();
        let text = text.as_slice();
        match replaced_text(
            alloc,
            scope,
            verdicts,
            &mut self.kept,
            replacement,
            text,
            matches,
        ) {
            Ok(value) => Ok(value),
            Err(Stop::Over) => {
                self.is_over = true;
                Ok(Text::new(alloc))
            }
            Err(Stop::NoMemory) => Err(NoMemory),
        }
    }
}
