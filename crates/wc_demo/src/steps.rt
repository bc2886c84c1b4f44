ghost use Rattle.std.specs.Prelude.{◌≡◌, ◌++◌, ◌∷◌, [], ◌≤◌, IfOk, OnOk};
ghost use Rattle.wc_demo.specs.Script.{start_steps, welcome_steps, login_steps, dump_steps};
ghost use Rattle.wc_demo.specs.Script.{opening_steps, steps_at, steps_to, demo_script, wakes_of};
ghost use Rattle.wc_demo.specs.Script.{moment_of};

use crate::lines::line_at;
use std::alloc::Global;
use wc_scripted::Scripted;
use wc_text::{Items, LinkId, NoMemory, Text};

/// The link of the server, to which the program connects as it starts.
const SERVER: LinkId = LinkId(1);

/// The link of the client, which comes after that.
pub const CLIENT: LinkId = LinkId(2);

/// What the client's login is bound to.
const NONCE: [u8; 16] = *b"a client's nonce";

/// The moment of the start, in milliseconds since 1970.
const START: u64 = 1_700_000_000_000;

/// Puts what a link says after steps.
fn push_said(
    alloc: Global,
    steps: &mut Items<Scripted>,
    link: LinkId,
    said: &[u8],
) -> Result<(), NoMemory>
    ensures { OnOk result (steps.new ≡ steps.old ++ Scripted.Gives link said.now ∷ []) }
{
    let bytes = Text::from_slice(alloc, said)?;
    steps.push(Scripted::Gives(link, bytes))
}

/// Puts the start after steps, then that the client came, and that the connection stands.
fn push_start(steps: &mut Items<Scripted>) -> Result<(), NoMemory>
    ensures { OnOk result (steps.new ≡ steps.old ++ start_steps) }
{
    steps.push(Scripted::Wake(START))?;
    steps.push(Scripted::Arrive(NONCE))?;
    steps.push(Scripted::Wake(START))?;
    steps.push(Scripted::Stands(SERVER))
}

/// Puts what the server says first after steps: the program is welcome, and is on a channel.
fn push_welcome(alloc: Global, steps: &mut Items<Scripted>) -> Result<(), NoMemory>
    ensures { OnOk result (steps.new ≡ steps.old ++ welcome_steps) }
{
    push_said(alloc, steps, SERVER, b":s 001 me :hi\r\n")?;
    push_said(alloc, steps, SERVER, b":me!m@h JOIN #d\r\n")
}

/// Puts after steps that the client logs in, and asks for all events.
fn push_login(alloc: Global, steps: &mut Items<Scripted>) -> Result<(), NoMemory>
    ensures { OnOk result (steps.new ≡ steps.old ++ login_steps) }
{
    push_said(alloc, steps, CLIENT, b"init password=x\n")?;
    push_said(alloc, steps, CLIENT, b"sync\n")
}

/// Puts after steps that the client takes the dumps of buffers, of lines and of nicklists.
fn push_dumps(alloc: Global, steps: &mut Items<Scripted>) -> Result<(), NoMemory>
    ensures { OnOk result (steps.new ≡ steps.old ++ dump_steps) }
{
    push_said(
        alloc,
        steps,
        CLIENT,
        b"(b) hdata buffer:gui_buffers(*) number,full_name,short_name,hidden,title,local_variables\n",
    )?;
    push_said(
        alloc,
        steps,
        CLIENT,
        b"(l) hdata buffer:gui_buffers(*)/own_lines/first_line(*)/data buffer,id,date,date_usec,date_printed,date_usec_printed,displayed,notify_level,highlight,tags_array,prefix,message\n",
    )?;
    push_said(alloc, steps, CLIENT, b"(n) nicklist\n")
}

/// Puts the steps before the first line after others: the client takes its dumps after the server let
/// the program on the channel.
fn push_opening(alloc: Global, steps: &mut Items<Scripted>) -> Result<(), NoMemory>
    ensures { OnOk result (steps.new ≡ steps.old ++ opening_steps) }
{
    push_start(steps)?;
    push_welcome(alloc, steps)?;
    push_login(alloc, steps)?;
    push_dumps(alloc, steps)?;
    steps.push(Scripted::Wake(START))
}

/// The moment after so many lines, which rises by 100 at each tenth.
fn moment_of(count: u32) -> u64
    ensures at { result ≡ moment_of count }
    ensures most { result ≤ 1800000000000 }
{
    START + u64::from(count / 10) * 100
}

/// Puts the line at a place after steps, and after each tenth the rise of the moment.
#[tactic(auto, using(crate::proofs::ScriptLemmas::step_facts))]
fn push_line(alloc: Global, steps: &mut Items<Scripted>, place: u32) -> Result<(), NoMemory>
    ensures { OnOk result (steps.new ≡ steps.old ++ steps_at place) }
{
    let line = line_at(alloc, place)?;
    steps.push(Scripted::Gives(SERVER, line))?;
    if place % 10 != 0 {
        return Ok(());
    }
    steps.push(Scripted::Wake(moment_of(place)))
}

/// Puts so many lines after steps.
#[tactic(auto, using(crate::proofs::ScriptLemmas::steps_more))]
fn push_lines(alloc: Global, steps: &mut Items<Scripted>, count: u32) -> Result<(), NoMemory>
    ensures { OnOk result (steps.new ≡ steps.old ++ steps_to count) }
{
    for place in 0..count {
        push_line(alloc, steps, place + 1)?;
    }
    Ok(())
}

/// Puts the whole script after steps.
fn push_script(alloc: Global, steps: &mut Items<Scripted>, count: u32) -> Result<(), NoMemory>
    ensures { OnOk result (steps.new ≡ steps.old ++ demo_script count) }
{
    push_opening(alloc, steps)?;
    push_lines(alloc, steps, count)?;
    steps.push(Scripted::Wake(moment_of(count) + 100))
}

/// The script of a run in which the server says so many lines after the client took its dumps. The
/// moment rises by 100 after each tenth line, and at the end.
pub fn script(alloc: Global, count: u32) -> Result<Items<Scripted>, NoMemory>
    ensures { IfOk result (λ steps. steps ≡ demo_script count) }
{
    let mut steps = Items::new(alloc);
    push_script(alloc, &mut steps, count)?;
    Ok(steps)
}

/// How many waits of that script return.
pub fn wake_count(count: u32) -> u64
    ensures count { result ≡ wakes_of count }
    ensures some { 1 ≤ result }
{
    u64::from(count / 10) + 4
}
