ghost use Rattle.std.specs.Prelude.{◌≡◌};
ghost use Rattle.wc_core.specs.Typed.{eval_text, eval_printed, eval_command, evaluation_of};
ghost use Rattle.wc_core.specs.Typed.{typed_line};
ghost use Rattle.wc_core.specs.TypedSeen.{meaning, evaluation_in};

use crate::typed::{CommandText, read_typed, wrong_arguments};
use wc_text::cut_word;

/// What becomes of a text that is evaluated.
#[derive(Clone, Copy)]
pub enum EvalUse {
    /// Its value is run as an input.
    Run,
    /// Its value is printed.
    Print,
    /// It is a condition, and whether that holds is printed.
    Test,
}

/// A text to evaluate, which is not empty.
fn eval_text(usage: EvalUse, text: &[u8]) -> CommandText<'_>
    ensures { meaning result ≡ eval_text usage text.now }
{
    if text.is_empty() {
        return wrong_arguments(b"eval");
    }
    CommandText::Eval { usage, text }
}

/// What comes after `-n`: a text, or a condition after `-c`.
fn eval_printed(text: &[u8]) -> CommandText<'_>
    ensures { meaning result ≡ eval_printed text.now }
{
    let (word, rest) = cut_word(text);
    if word == b"-c".as_slice() {
        return eval_text(EvalUse::Test, rest);
    }
    eval_text(EvalUse::Print, text)
}

/// What is to be evaluated: a text, before which `-n` may stand, and `-c` after that.
pub(crate) fn eval_command(text: &[u8]) -> CommandText<'_>
    ensures { meaning result ≡ eval_command text.now }
{
    let (word, rest) = cut_word(text);
    if word == b"-n".as_slice() {
        return eval_printed(rest);
    }
    eval_text(EvalUse::Run, text)
}

/// The text that a line evaluates, and what for. None where it evaluates none.
pub(crate) fn evaluation_in(line: &[u8]) -> Option<(EvalUse, &[u8])>
    ensures { evaluation_in result ≡ evaluation_of (typed_line line.now) }
{
    match read_typed(line) {
        CommandText::Eval { usage, text } => Some((usage, text)),
        _ => None,
    }
}
