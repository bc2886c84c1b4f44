ghost use Rattle.std.specs.Prelude.{All, IfOk};
ghost use Rattle.std.specs.Str.{IsUtf8};
ghost use Rattle.wc_eval.specs.Names.{HasText};

use std::alloc::Global;
use wc_text::{Items, NoMemory, Pair, Text};

fn pair(alloc: Global, name: &str, value: &str) -> Result<Pair, NoMemory>
    ensures { IfOk result HasText }
{
    let name = Text::from_slice(alloc, name.as_bytes())?;
    let value = Text::from_slice(alloc, value.as_bytes())?;
    Ok(Pair { name, value })
}

/// The variables of a trigger.
pub fn vars(alloc: Global) -> Result<Items<Pair>, NoMemory>
    ensures { IfOk result (All HasText) }
{
    let mut vars = Items::new(alloc);
    vars.push(pair(alloc, "tg_signal", "buffer_opened")?)?;
    vars.push(pair(alloc, "tg_string", "${raw:x}")?)?;
    Ok(vars)
}

/// Facts of a buffer.
pub fn facts(alloc: Global) -> Result<Items<Pair>, NoMemory>
    ensures { IfOk result (All HasText) }
{
    let mut facts = Items::new(alloc);
    facts.push(pair(alloc, "buffer.number", "1")?)?;
    facts.push(pair(alloc, "buffer.full_name", "core.weechat")?)?;
    Ok(facts)
}

/// The local variables of a buffer, of which one has the name of a variable.
pub fn locals(alloc: Global) -> Result<Items<Pair>, NoMemory>
    ensures { IfOk result (All HasText) }
{
    let mut locals = Items::new(alloc);
    locals.push(pair(alloc, "plugin", "core")?)?;
    locals.push(pair(alloc, "tg_signal", "hidden")?)?;
    Ok(locals)
}

/// The groups of a match: the match, a group, and one that took no part.
pub fn groups(alloc: Global) -> Result<Items<Text>, NoMemory>
    ensures { IfOk result (All IsUtf8) }
{
    let mut groups = Items::new(alloc);
    groups.push(Text::from_slice(alloc, "abc".as_bytes())?)?;
    groups.push(Text::from_slice(alloc, "b".as_bytes())?)?;
    groups.push(Text::new(alloc))?;
    Ok(groups)
}
