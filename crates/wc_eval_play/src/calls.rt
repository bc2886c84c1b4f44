ghost use Rattle.std.specs.Prelude.{IfOk};
ghost use Rattle.std.specs.Str.{IsUtf8};
ghost use Rattle.wc_eval.specs.Names.{facts_of, AreTexts};

use crate::scenery::{facts, groups, locals, vars};
use std::alloc::Global;
use wc_eval::{Comparison, Scope, Verdicts, calc, compare, condition, eval};
use wc_notation::{Wrong, cut_word, put_either, put_quoted, unescape};
use wc_options::Options;
use wc_text::Text;

/// The text that the rest of a line writes.
fn text_of(alloc: Global, rest: &str) -> Result<Text, Wrong>
    ensures { IfOk result IsUtf8 }
{
    let text = unescape(alloc, rest)?;
    match std::str::from_utf8(text.as_slice()) {
        Ok(_) => Ok(text),
        Err(_) => Err(Wrong::NoText),
    }
}

/// Whether the text is a pattern, and how many were refused for another cause than the grammar's.
fn put_verdict(verdicts: &mut Verdicts, text: &Text, out: &mut String) -> Result<(), Wrong>
    requires { IsUtf8 text.now }
{
    let is_pattern = verdicts.judge(text)?;
    put_either(out, is_pattern, "a pattern", "no pattern")?;
    Ok(write!(out, ", others {}", verdicts.others())?)
}

fn put_number(text: &Text, out: &mut String) -> Result<(), Wrong> {
    match calc(text.as_slice()) {
        Some(value) => Ok(write!(out, "{value}")?),
        None => Ok(out.push_str("no number")?),
    }
}

/// The comparison whose sign is a whole word.
fn comparison_of(word: &str) -> Result<Comparison, Wrong> {
    match Comparison::cut(word.as_bytes()) {
        Some((comparison, rest)) if rest.is_empty() => Ok(comparison),
        _ => Err(Wrong::Word),
    }
}

/// Whether a comparison of two words holds, of which the second may have blanks.
fn put_comparison(
    alloc: Global,
    verdicts: &mut Verdicts,
    rest: &str,
    out: &mut String,
) -> Result<(), Wrong> {
    let (sign, sides) = cut_word(rest);
    let comparison = comparison_of(sign)?;
    let (left, right) = cut_word(sides);
    let left = text_of(alloc, left)?;
    let right = text_of(alloc, right)?;
    let holds = compare(alloc, verdicts, comparison, &left, &right)?;
    Ok(put_either(out, holds, "holds", "does not hold")?)
}

/// Writes the value of a text, or how long it is.
fn put_value(
    alloc: Global,
    scope: Scope<'_>,
    verdicts: &mut Verdicts,
    text: &Text,
    out: &mut String,
) -> Result<(), Wrong>
    requires scope { AreTexts (facts_of scope) }
    requires text { IsUtf8 text.now }
{
    let value = eval(alloc, scope, verdicts, text)?;
    let bytes = value.as_slice();
    if bytes.len() > 200 {
        return Ok(write!(out, "{} bytes", bytes.len())?);
    }
    Ok(put_quoted(out, bytes)?)
}

/// Whether a condition holds.
fn put_condition(
    alloc: Global,
    scope: Scope<'_>,
    verdicts: &mut Verdicts,
    text: &Text,
    out: &mut String,
) -> Result<(), Wrong>
    requires scope { AreTexts (facts_of scope) }
    requires text { IsUtf8 text.now }
{
    let holds = condition(alloc, scope, verdicts, text)?;
    Ok(put_either(out, holds, "holds", "does not hold")?)
}

/// Writes the answer of a call on a text that may name what there is.
fn answer_in_scope(
    alloc: Global,
    verdicts: &mut Verdicts,
    call: &str,
    text: &Text,
    out: &mut String,
) -> Result<(), Wrong>
    requires { IsUtf8 text.now }
{
    let vars = vars(alloc)?;
    let options = Options::new(alloc)?;
    let facts = facts(alloc)?;
    let locals = locals(alloc)?;
    let groups = groups(alloc)?;
    let scope = Scope {
        vars: &vars,
        options: &options,
        facts: &facts,
        locals: &locals,
        groups: &groups,
    };
    match call {
        "eval" => put_value(alloc, scope, verdicts, text, out),
        "condition" => put_condition(alloc, scope, verdicts, text, out),
        _ => Err(Wrong::Word),
    }
}

/// Writes the answer of a call on one text.
fn answer_on_text(
    alloc: Global,
    verdicts: &mut Verdicts,
    call: &str,
    rest: &str,
    out: &mut String,
) -> Result<(), Wrong> {
    let text = text_of(alloc, rest)?;
    match call {
        "calc" => put_number(&text, out),
        "judge" => put_verdict(verdicts, &text, out),
        _ => answer_in_scope(alloc, verdicts, call, &text, out),
    }
}

/// How many patterns are kept built.
fn put_built(verdicts: &Verdicts, out: &mut String) -> Result<(), Wrong> {
    Ok(write!(out, "{} patterns", verdicts.built_count())?)
}

/// Writes the answer of a call.
pub fn answer(
    alloc: Global,
    verdicts: &mut Verdicts,
    call: &str,
    rest: &str,
    out: &mut String,
) -> Result<(), Wrong> {
    match call {
        "compare" => put_comparison(alloc, verdicts, rest, out),
        "built" => put_built(verdicts, out),
        _ => answer_on_text(alloc, verdicts, call, rest, out),
    }
}
