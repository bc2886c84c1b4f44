ghost use Rattle.std.specs.Prelude.{◌≡◌, ◌≤◌, All, length, IfOk, IfSome, option_map};
ghost use Rattle.std.specs.Option.{option_copied};
ghost use Rattle.std.specs.Str.{IsUtf8, chars, encode_utf8_all};
ghost use Rattle.wc_eval.specs.Verdicts.{Oracle, Agrees, Stay, is_known_fine};
ghost use Rattle.wc_text.specs.Splits.{before, onward, text_after, past};
ghost use Rattle.wc_triggers.specs.Replacements.{variable_of, tail_of, written_front, part_front};
ghost use Rattle.wc_triggers.specs.Replacements.{replacement_of, all_parts, replacements_of};
ghost use Rattle.wc_triggers.specs.Replacements.{are_fine, are_known, HasTexts};
ghost use Rattle.wc_triggers.specs.Seen.{seen};

use crate::hooks::{is_variable, own_variable};
use std::alloc::{AllocError, Global};
use wc_eval::Verdicts;
use wc_hooks::HookKind;
use wc_text::{Items, NoMemory, Text};

/// What is replaced in a variable, and by what.
#[derive(Drop)]
pub struct Replacement {
    pub(crate) pattern: Text,
    /// It is evaluated, for each match of the pattern.
    pub(crate) replacement: Text,
    /// The name of the variable.
    pub(crate) variable: Text,
}

/// The characters of a text.
fn characters(alloc: Global, text: &[u8]) -> Result<Vec<char>, NoMemory>
    requires { IsUtf8 text.now }
    ensures { IfOk result (λ found. found.items ≡ chars text.now) }
{
    let Ok(text) = std::str::from_utf8(text) else {
        unreachable!()
    };
    Ok(collected(alloc, text)?)
}

fn collected(alloc: Global, text: &str) -> Result<Vec<char>, AllocError>
    ensures { IfOk result (λ found. found.items ≡ chars text.now) }
{
    text.chars().collect(alloc)
}

/// The text that characters write.
fn spelled(alloc: Global, characters: &[char]) -> Result<Text, NoMemory>
    ensures text { IfOk result (λ text. text ≡ encode_utf8_all characters.now) }
    ensures utf8 { IfOk result IsUtf8 }
{
    let mut text = String::new(alloc);
    for character in characters {
        text.push(*character)?;
    }
    Text::from_slice(alloc, text.as_str().as_bytes())
}

/// The characters from the first such one on.
fn onward(text: &[char], mark: char) -> &[char]
    ensures { result.now ≡ onward mark text.now }
{
    let mut rest = text;
    while let [first, others @ ..] = rest {
        if *first == mark {
            return rest;
        }
        rest = others;
    }
    rest
}

/// The characters after the first such one, where there is one.
fn text_after(text: &[char], mark: char) -> Option<&[char]>
    ensures { option_copied result ≡ text_after mark text.now }
{
    let mut rest = text;
    while let [first, others @ ..] = rest {
        if *first == mark {
            return Some(others);
        }
        rest = others;
    }
    None
}

/// The characters before the first such one.
#[tactic(auto, using(crate::proofs::PartLemmas::cuts))]
fn before(text: &[char], mark: char) -> &[char]
    ensures { result.now ≡ before mark text.now }
{
    let back = onward(text, mark);
    &text[..text.len() - back.len()]
}

/// The characters without the blanks at their front.
fn past_blanks(text: &[char]) -> &[char]
    ensures { result.now ≡ past 32 text.now }
{
    let mut rest = text;
    while let [' ', others @ ..] = rest {
        rest = others;
    }
    rest
}

/// The name of a variable, and what follows it after blanks.
fn tail_of(text: Option<&[char]>) -> (&[char], &[char])
    ensures { (result.0.now, result.1.now) ≡ tail_of (option_copied text.entry) }
{
    let Some(text) = text else {
        return (&[], &[]);
    };
    (before(text, ' '), past_blanks(onward(text, ' ')))
}

/// The variable of a hook that a name means. None where the hook has none of this name.
fn variable_of(alloc: Global, kind: HookKind, name: Text) -> Result<Option<Text>, NoMemory>
    ensures { IfOk result (λ variable. variable ≡ variable_of kind name) }
{
    if name.as_slice().is_empty() {
        return Ok(Some(Text::from_slice(alloc, own_variable(kind))?));
    }
    if is_variable(kind, name.as_slice()) {
        Ok(Some(name))
    } else {
        Ok(None)
    }
}

/// A part as it is written, in characters, and what follows it after blanks.
#[derive(Clone, Copy)]
struct Written<'a> {
    pattern: &'a [char],
    replacement: &'a [char],
    name: &'a [char],
    rest: &'a [char],
}

/// The part at the front of some characters. None where there is none.
fn written_front(text: &[char]) -> Option<Written<'_>>
    ensures { option_map seen result ≡ written_front text.now }
{
    let (mark, text) = text.split_first()?;
    let pattern = before(text, *mark);
    let text = text_after(text, *mark)?;
    if pattern.is_empty() {
        return None;
    }
    let replacement = before(text, *mark);
    let (name, rest) = tail_of(text_after(text, *mark));
    Some(Written {
        pattern,
        replacement,
        name,
        rest,
    })
}

/// What a part replaces. None where the hook does not have its variable.
fn replacement_of(
    alloc: Global,
    kind: HookKind,
    part: Written<'_>,
) -> Result<Option<Replacement>, NoMemory>
    ensures is { IfOk result (λ found. found ≡ replacement_of kind (seen part.entry)) }
    ensures utf8 { IfOk result (λ found. IfSome found HasTexts) }
{
    let name = spelled(alloc, part.name)?;
    let Some(variable) = variable_of(alloc, kind, name)? else {
        return Ok(None);
    };
    Ok(Some(Replacement {
        pattern: spelled(alloc, part.pattern)?,
        replacement: spelled(alloc, part.replacement)?,
        variable,
    }))
}

/// What the part at the front of some characters replaces, and what follows it after blanks. None
/// where it is no part, or the hook does not have its variable.
fn part_front(
    alloc: Global,
    kind: HookKind,
    text: &[char],
) -> Result<Option<(Replacement, &[char])>, NoMemory>
    ensures is { IfOk result (λ front. option_map (λ front. (front.0, front.1.now)) front
        ≡ part_front kind text.now) }
    ensures utf8 { IfOk result (λ front. IfSome front (λ front. HasTexts front.0)) }
{
    let Some(part) = written_front(text) else {
        return Ok(None);
    };
    match replacement_of(alloc, kind, part)? {
        Some(found) => Ok(Some((found, part.rest))),
        None => Ok(None),
    }
}

/// What some characters that begin with no blank replace. None where they are not all parts.
fn all_parts(
    alloc: Global,
    kind: HookKind,
    text: &[char],
) -> Result<Option<Items<Replacement>>, NoMemory>
    ensures is { IfOk result (λ parts. parts ≡ all_parts kind text.now) }
    ensures utf8 { IfOk result (λ parts. IfSome parts (All HasTexts)) }
{
    let mut parts = Items::new(alloc);
    let mut rest = text;
    while !rest.is_empty() {
        let Some((part, following)) = part_front(alloc, kind, rest)? else {
            return Ok(None);
        };
        parts.push(part)?;
        rest = following;
    }
    Ok(Some(parts))
}

/// What a text replaces: parts with blanks between them, each a delimiter, a pattern, the delimiter,
/// a replacement, and where the delimiter stands again a variable's name. None where it is not all
/// such parts, or the hook does not have a variable.
pub(crate) fn replacements_of(
    alloc: Global,
    kind: HookKind,
    text: &[u8],
) -> Result<Option<Items<Replacement>>, NoMemory>
    requires { IsUtf8 text.now }
    ensures is { IfOk result (λ parts. parts ≡ replacements_of kind text.now) }
    ensures utf8 { IfOk result (λ parts. IfSome parts (All HasTexts)) }
{
    let characters = characters(alloc, text)?;
    all_parts(alloc, kind, past_blanks(characters.as_slice()))
}

/// Whether the verdict on a pattern is that it is one.
fn is_fine(verdicts: &mut Verdicts, pattern: &Text) -> Result<bool, NoMemory>
    requires { IsUtf8 pattern.now }
    ensures fine { IfOk result (λ fine. (oracle : Oracle) → Agrees oracle verdicts.new →
        fine ≡ oracle pattern.now) }
    ensures known { IfOk result (λ fine. fine ≡ is_known_fine pattern.now verdicts.new) }
    ensures stay { Stay verdicts.old verdicts.new }
{
    verdicts.judge(pattern)
}

/// Whether the verdicts on all patterns are that they are some.
pub(crate) fn are_fine(verdicts: &mut Verdicts, parts: &[Replacement]) -> Result<bool, NoMemory>
    requires { All HasTexts parts.now }
    ensures fine { IfOk result (λ fine. (oracle : Oracle) → Agrees oracle verdicts.new →
        fine ≡ are_fine oracle parts.now) }
    ensures known { IfOk result (λ fine. fine ≡ are_known verdicts.new parts.now) }
    ensures stay { Stay verdicts.old verdicts.new }
{
    let mut rest = parts;
    while let [part, others @ ..] = rest {
        if !is_fine(verdicts, &part.pattern)? {
            return Ok(false);
        }
        rest = others;
    }
    Ok(true)
}
