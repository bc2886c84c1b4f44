ghost use Rattle.std.specs.Str.{IsUtf8};
ghost use Rattle.wc_triggers.specs.Triggers.{IsFine};

use crate::scenery::{no_groups, no_pairs, text_of, vars_of};
use crate::words::{code_word, kind_word, post_word, refusal_word};
use std::alloc::Global;
use wc_eval::{Scope, Verdicts};
use wc_hooks::HookKind;
use wc_notation::{Wrong, cut_word, escape, put_named, put_quoted};
use wc_options::Options;
use wc_text::{Pair, Text};
use wc_triggers::{Reaction, Trigger, read_trigger};

/// The name of a trigger, its hook, and its keys with their priorities.
fn put_trigger(trigger: &Trigger, out: &mut String) -> Result<(), Wrong> {
    put_named(out, kind_word(trigger.kind()), trigger.name().as_slice())?;
    for key in trigger.keys().as_slice() {
        write!(out, ", {} ", key.priority)?;
        put_quoted(out, key.key.as_slice())?;
    }
    if trigger.kind() == HookKind::Timer {
        write!(
            out,
            ", every {}, at most {}",
            trigger.interval(),
            trigger.max_calls()
        )?;
    }
    Ok(())
}

/// What a text is read as.
fn put_read(
    alloc: Global,
    verdicts: &mut Verdicts,
    text: &Text,
    out: &mut String,
) -> Result<(), Wrong>
    requires { IsUtf8 text.now }
{
    match read_trigger(alloc, verdicts, text) {
        Ok(trigger) => put_trigger(&trigger, out),
        Err(refused) => Ok(out.push_str(refusal_word(refused))?),
    }
}

fn put_vars(vars: &[Pair], out: &mut String) -> Result<(), Wrong> {
    for pair in vars {
        out.push(' ')?;
        escape(out, pair.name.as_slice(), &[])?;
        put_value(pair.value.as_slice(), out)?;
    }
    Ok(())
}

/// A value, or how long it is.
fn put_value(value: &[u8], out: &mut String) -> Result<(), Wrong> {
    out.push(' ')?;
    if value.len() > 200 {
        return Ok(write!(out, "{} bytes", value.len())?);
    }
    Ok(put_quoted(out, value)?)
}

fn put_texts(word: &str, texts: &[Text], out: &mut String) -> Result<(), Wrong> {
    out.push_str(word)?;
    for text in texts {
        put_value(text.as_slice(), out)?;
    }
    Ok(())
}

/// What a trigger does.
fn put_reaction(reaction: &Reaction, out: &mut String) -> Result<(), Wrong> {
    out.push_str(if reaction.fired {
        "fires,"
    } else {
        "does not fire,"
    })?;
    put_vars(reaction.vars.as_slice(), out)?;
    put_texts(", groups", reaction.groups.as_slice(), out)?;
    put_texts(", commands", reaction.commands.as_slice(), out)?;
    let (code, post) = (code_word(reaction.code), post_word(reaction.post));
    Ok(write!(out, ", {code}, {post}")?)
}

/// What a trigger does at an event in which its hook's own variable has this value.
fn put_done(
    alloc: Global,
    verdicts: &mut Verdicts,
    value: &Text,
    trigger: &Trigger,
    out: &mut String,
) -> Result<(), Wrong>
    requires value { IsUtf8 value.now }
    requires fine { IsFine verdicts.old trigger.now }
{
    let vars = vars_of(alloc, trigger.kind(), value)?;
    let options = Options::new(alloc)?;
    let none = no_pairs(alloc);
    let groups = no_groups(alloc);
    let scope = Scope {
        vars: &vars,
        options: &options,
        facts: &none,
        locals: &none,
        groups: &groups,
    };
    let reaction = trigger.react(alloc, scope, verdicts)?;
    put_reaction(&reaction, out)
}

/// The same of the trigger that a text is, where it is one.
fn put_react(
    alloc: Global,
    verdicts: &mut Verdicts,
    value: &Text,
    text: &Text,
    out: &mut String,
) -> Result<(), Wrong>
    requires value { IsUtf8 value.now }
    requires text { IsUtf8 text.now }
{
    match read_trigger(alloc, verdicts, text) {
        Ok(trigger) => put_done(alloc, verdicts, value, &trigger, out),
        Err(refused) => Ok(out.push_str(refusal_word(refused))?),
    }
}

/// Writes the answer of a call.
pub fn answer(
    alloc: Global,
    verdicts: &mut Verdicts,
    call: &str,
    rest: &str,
    out: &mut String,
) -> Result<(), Wrong> {
    match call {
        "read" => {
            let text = Text::from_slice(alloc, rest.as_bytes())?;
            put_read(alloc, verdicts, &text, out)
        }
        "react" => {
            let (value, rest) = cut_word(rest);
            let value = text_of(alloc, value)?;
            let text = Text::from_slice(alloc, rest.as_bytes())?;
            put_react(alloc, verdicts, &value, &text, out)
        }
        _ => Err(Wrong::Word),
    }
}
