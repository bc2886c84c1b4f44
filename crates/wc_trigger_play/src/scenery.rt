ghost use Rattle.std.specs.Prelude.{All, IfOk, OnOk};
ghost use Rattle.std.specs.Str.{IsUtf8};
ghost use Rattle.wc_eval.specs.Names.{HasText};

use std::alloc::Global;
use wc_hooks::HookKind;
use wc_notation::{Wrong, unescape};
use wc_text::{Items, NoMemory, Pair, Text};

/// The text that a word writes.
pub fn text_of(alloc: Global, word: &str) -> Result<Text, Wrong>
    ensures { IfOk result IsUtf8 }
{
    let text = unescape(alloc, word)?;
    match std::str::from_utf8(text.as_slice()) {
        Ok(_) => Ok(text),
        Err(_) => Err(Wrong::NoText),
    }
}

/// The variables of a hook beside its own one, each with its value.
fn others_of(kind: HookKind) -> &'static [(&'static str, &'static str)] {
    match kind {
        HookKind::Signal => &[("tg_signal", "buffer_opened")],
        HookKind::Print => &[("tg_tags", "a,b"), ("tg_prefix", "bob")],
        HookKind::Modifier => &[("tg_modifier", "weechat_print")],
        HookKind::Command => &[("tg_argv1", "one"), ("tg_argv2", "two")],
        HookKind::Relay | HookKind::CommandRun | HookKind::Timer => &[],
    }
}

/// The variable of a hook that patterns replace in where none is named.
fn own_name(kind: HookKind) -> &'static str {
    match kind {
        HookKind::Relay => "",
        HookKind::Signal => "tg_signal_data",
        HookKind::Print => "tg_message",
        HookKind::Modifier => "tg_string",
        HookKind::Command => "tg_argv_eol1",
        HookKind::CommandRun => "tg_command",
        HookKind::Timer => "tg_remaining_calls",
    }
}

/// Puts a variable after the others.
fn put_pair(alloc: Global, vars: &mut Items<Pair>, name: &str, value: &[u8]) -> Result<(), NoMemory>
    requires old { All HasText vars.old }
    requires value { IsUtf8 value.now }
    ensures { OnOk result (All HasText vars.new) }
{
    let name = Text::from_slice(alloc, name.as_bytes())?;
    let value = Text::from_slice(alloc, value)?;
    vars.push(Pair { name, value })?;
    Ok(())
}

/// The variables of an event at which a hook's own variable has this value.
pub fn vars_of(alloc: Global, kind: HookKind, value: &Text) -> Result<Items<Pair>, NoMemory>
    requires { IsUtf8 value.now }
    ensures { IfOk result (All HasText) }
{
    let mut vars = no_pairs(alloc);
    for other in others_of(kind) {
        put_pair(alloc, &mut vars, other.0, other.1.as_bytes())?;
    }
    put_pair(alloc, &mut vars, own_name(kind), value.as_slice())?;
    Ok(vars)
}

pub fn no_pairs(alloc: Global) -> Items<Pair>
    ensures { All HasText result }
{
    Items::new(alloc)
}

pub fn no_groups(alloc: Global) -> Items<Text>
    ensures { All IsUtf8 result }
{
    Items::new(alloc)
}
