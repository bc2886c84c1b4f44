ghost use Rattle.std.specs.Prelude.{◌≡◌, [], List, ℕ, All, IfOk, OnOk};
ghost use Rattle.std.specs.Str.{IsUtf8};
ghost use Rattle.wc_eval.specs.Values.{Makes};
ghost use Rattle.wc_eval.specs.Names.{facts_of, AreTexts, name_value};
ghost use Rattle.wc_eval.specs.Meaning.{argument, with_defined, call_value, after_call};

use crate::characters::{lower_case, reverse_text, upper_case};
use crate::cuts::{calc_value, cut_value, length_value};
use crate::kept::Kept;
use crate::kind::Kind;
use crate::scope::Scope;
use crate::split::split_value;
use crate::values::{Stop, hide_value, repeat_value};
use std::alloc::Global;
use wc_text::{NoMemory, Text};

/// The argument of a number from 0, or nothing.
fn argument(values: &[Text], place: usize) -> &[u8]
    requires { All IsUtf8 values.now }
    ensures value { result.now ≡ argument values.now place }
    ensures utf8 { IsUtf8 result.now }
{
    match values.get(place) {
        Some(value) => value.as_slice(),
        None => b"",
    }
}

/// What was made, where only want of memory stops it.
fn made(value: Result<Text, NoMemory>) -> Result<Text, Stop>
    ensures made { (wanted : List ℕ) → IfOk value (λ text. text ≡ wanted) →
        Makes wanted result }
    ensures utf8 { IfOk value IsUtf8 → IfOk result IsUtf8 }
{
    Ok(value?)
}

/// The value of a name: one that is defined, else what the scope knows of it.
#[tactic(auto, unfolding(crate::specs::Names::name_value))]
fn name_value(alloc: Global, scope: Scope<'_>, kept: &Kept, name: &[u8]) -> Result<Text, NoMemory>
    requires { AreTexts (facts_of scope) }
    ensures value { IfOk result (λ value. value
        ≡ name_value (facts_of scope.entry) kept.now.names name.now) }
    ensures utf8 { IfOk result IsUtf8 }
{
    if let Some(value) = kept.value(name) {
        return Text::from_slice(alloc, value.as_bytes());
    }
    match scope.known(name) {
        Some(value) => Text::from_slice(alloc, value),
        None => Ok(Text::new(alloc)),
    }
}

/// Defines a name that is not empty. The value of the form is the empty text.
fn define(alloc: Global, kept: &mut Kept, name: &[u8], value: &[u8]) -> Result<Text, NoMemory>
    requires { IsUtf8 value.now }
    ensures value { IfOk result (λ text. text ≡ []) }
    ensures kept { OnOk result (kept.new ≡ with_defined name.now value.now kept.old) }
{
    if !name.is_empty() {
        kept.define(alloc, name, value)?;
    }
    Ok(Text::new(alloc))
}

/// The value of a form of this kind, whose arguments are values. It may be too long.
pub(crate) fn call_value(
    alloc: Global,
    scope: Scope<'_>,
    kept: &mut Kept,
    kind: Kind,
    values: &[Text],
) -> Result<Text, Stop>
    requires scope { AreTexts (facts_of scope) }
    requires values { All IsUtf8 values.now }
    ensures made { Makes (call_value (facts_of scope.entry) kept.old kind values.now) result }
    ensures kept { OnOk result (kept.new ≡ after_call kind values.now kept.old) }
    ensures utf8 { IfOk result IsUtf8 }
{
    let first = argument(values, 0);
    let second = argument(values, 1);
    match kind {
        Kind::Calc => made(calc_value(alloc, first)),
        Kind::Length => made(length_value(alloc, first)),
        Kind::Lower => made(lower_case(alloc, first)),
        Kind::Upper => made(upper_case(alloc, first)),
        Kind::Rev => made(reverse_text(alloc, first)),
        Kind::Cut => made(cut_value(alloc, first, second, argument(values, 2))),
        Kind::Repeat => repeat_value(alloc, first, second),
        Kind::Hide => hide_value(alloc, first, second),
        Kind::Split => made(split_value(
            alloc,
            first,
            second,
            argument(values, 2),
            argument(values, 3),
        )),
        Kind::Define => made(define(alloc, kept, first, second)),
        Kind::Group => made(Text::from_slice(alloc, scope.group(first))),
        Kind::Name => made(name_value(alloc, scope, kept, first)),
        Kind::Raw | Kind::Eval | Kind::If => made(Text::from_slice(alloc, first)),
    }
}
