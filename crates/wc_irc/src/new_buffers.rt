ghost use Rattle.std.specs.Prelude.{◌≡◌, ◌++◌, ◌∷◌, [], None, IfOk, OnOk};
ghost use Rattle.std.specs.Str.{IsUtf8};
ghost use Rattle.wc_buffers.specs.Vars.{pair, cut_to};
ghost use Rattle.wc_irc.specs.NewBuffers.{target_spec, opened, name_or};
ghost use Rattle.wc_irc.specs.ServersSeen.{seen};
ghost use Rattle.wc_irc.specs.Targets.{full_name};

use crate::act::Act;
use crate::state::State;
use crate::targets::full_name;
use std::alloc::Global;
use wc_buffers::BufferSpec;
use wc_text::{Items, NoMemory, Pair, Text, cut};

/// The most bytes of a short name.
const SHORT_NAME: usize = 128;

pub(crate) fn pair(alloc: Global, name: &[u8], value: &[u8]) -> Result<Pair, NoMemory>
    ensures { IfOk result (λ made. made ≡ pair name.now value.now) }
{
    let name = Text::from_slice(alloc, name)?;
    let value = Text::from_slice(alloc, value)?;
    Ok(Pair { name, value })
}

fn put_var(vars: &mut Items<Pair>, alloc: Global, name: &[u8], value: &[u8]) -> Result<(), NoMemory>
    ensures { OnOk result (vars.new ≡ vars.old ++ pair name.now value.now ∷ []) }
{
    vars.push(pair(alloc, name, value)?)
}

/// The variables of a new buffer.
#[tactic(auto, unfolding(crate::specs::NewBuffers::target_spec))]
fn target_vars(
    alloc: Global,
    kind: &[u8],
    state: &State,
    target: &[u8],
) -> Result<Items<Pair>, NoMemory>
    ensures { IfOk result (λ vars. vars
        ≡ (target_spec kind.now (seen state.now) target.now).vars) }
{
    let mut vars = Items::new(alloc);
    put_var(&mut vars, alloc, b"type", kind)?;
    put_var(&mut vars, alloc, b"server", state.name.as_slice())?;
    put_var(&mut vars, alloc, b"channel", target)?;
    put_var(&mut vars, alloc, b"nick", state.nick.as_slice())?;
    Ok(vars)
}

#[tactic(auto, using(wc_text::proofs::CutLemmas::cut_inside))]
pub(crate) fn short_name(alloc: Global, target: &[u8]) -> Result<Text, NoMemory>
    requires { IsUtf8 target.now }
    ensures { IfOk result (λ name. name ≡ cut_to 128 target.now) }
{
    Text::from_slice(alloc, target.split_at(cut(target, SHORT_NAME)).0)
}

/// A new buffer of a channel or a nick.
#[tactic(auto, unfolding(crate::specs::NewBuffers::target_spec))]
fn target_spec(
    alloc: Global,
    kind: &[u8],
    state: &State,
    target: &[u8],
) -> Result<BufferSpec, NoMemory>
    requires { IsUtf8 target.now }
    ensures { IfOk result (λ spec. spec ≡ target_spec kind.now (seen state.now) target.now) }
{
    let full_name = full_name(alloc, state.name.as_slice(), target)?;
    let short_name = short_name(alloc, target)?;
    let vars = target_vars(alloc, kind, state, target)?;
    Ok(BufferSpec {
        full_name,
        short_name,
        title: Text::new(alloc),
        vars,
    })
}

fn put_open(
    acts: &mut Items<Act>,
    alloc: Global,
    state: &State,
    kind: &[u8],
    target: &[u8],
) -> Result<(), NoMemory>
    requires { IsUtf8 target.now }
    ensures { OnOk result (acts.new ≡ acts.old
        ++ opened None kind.now (seen state.now) target.now) }
{
    acts.push(Act::Open(target_spec(alloc, kind, state, target)?))
}

/// Opens the buffer of a channel or a nick where it is not there. The answer is its full name.
pub(crate) fn put_opened(
    acts: &mut Items<Act>,
    alloc: Global,
    state: &State,
    kind: &[u8],
    target: &[u8],
    there: Option<Text>,
) -> Result<Text, NoMemory>
    requires { IsUtf8 target.now }
    ensures acts { OnOk result (acts.new ≡ acts.old
        ++ opened there kind.now (seen state.now) target.now) }
    ensures name { IfOk result (λ name. name
        ≡ name_or there (full_name state.now.name target.now)) }
{
    if let Some(name) = there {
        return Ok(name);
    }
    put_open(acts, alloc, state, kind, target)?;
    full_name(alloc, state.name.as_slice(), target)
}
