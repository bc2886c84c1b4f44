ghost use Rattle.std.specs.Option.{option_copied};
ghost use Rattle.std.specs.Prelude.{◌≡◌, IfOk, ◌++◌, [], ℕ, ◌^◌, ◌-◌, min};
ghost use Rattle.wc_core.specs.Forms.{names_told};
ghost use Rattle.wc_core.specs.Resolved.{ChangesFilters, SetsOption, UnsetsOption, switched};
ghost use Rattle.wc_core.specs.Resolved.{Asks, Tells, no_such_buffer, change_of, buffer_meant};
ghost use Rattle.wc_core.specs.Resolved.{of_meant, of_named, effect_of, line_spec, core_spec, usec_of};
ghost use Rattle.wc_core.specs.Resolved.{plugin_in, rename_of, told_refusal, first_of_number};
ghost use Rattle.wc_core.specs.Resolved.{first_in, null};
ghost use Rattle.wc_core.specs.ResolvedSeen.{outcome_of};
ghost use Rattle.wc_core.specs.Evaluated.{printed_value};
ghost use Rattle.wc_core.specs.Typed.{Merges, tags_of};
ghost use Rattle.wc_core.specs.TypedSeen.{filters_meant, meaning, word_in};
ghost use Rattle.wc_model.specs.declared.change.Change.{Change};
ghost use Rattle.wc_model.specs.declared.change.What.TheVariants as what;
ghost use Rattle.wc_text.specs.declared.names.Handle.{Handle};

use crate::command_names::names_told;
use crate::refusals::joined_texts;
use crate::typed::{CommandText, read_number, read_tags};
use crate::typed_filter::{FilterChange, FilterUse};
use crate::typed_hotlist::HotlistUse;
use std::alloc::Global;
use wc_buffers::{BufferRow, BufferSpec, Buffers};
use wc_model::{Change, LineSpec, What, levels_of};
use wc_session::buffer_named;
use wc_text::{Handle, Items, NoMemory, Pair, Text, split_once};
use wc_world::World;

/// The handle of no buffer, which a change has that adds one.
const NULL: Handle = Handle(0);

/// What a typed line comes to.
pub(crate) enum Resolution {
    Stays,
    /// The run is to end.
    Ends,
    /// A refusal is to be told.
    Tells(Text),
    Asks(Change),
    /// An option is to get a value.
    SetsOption(Pair),
    /// An option is to get its default.
    UnsetsOption(Text),
    /// The options are to be saved.
    SavesOptions,
    /// Rows of the hotlist are to be taken out.
    ChangesHotlist(HotlistUse, Handle),
    /// The filters are to change.
    ChangesFilters(FilterChange),
}

fn asks(buffer: Handle, what: What) -> Resolution
    ensures { outcome_of result ≡ Asks (change_of buffer what) }
{
    Resolution::Asks(Change { buffer, what })
}

fn no_such_buffer(alloc: Global) -> Result<Resolution, NoMemory>
    ensures { IfOk result (λ r. outcome_of r ≡ Tells no_such_buffer) }
{
    let text = Text::from_slice(alloc, b"buffer: no such buffer")?;
    Ok(Resolution::Tells(text))
}

/// The buffer that is named, or else the one into which the line was typed. None where there is no
/// such buffer.
fn target(buffers: &Buffers, buffer: Handle, name: Option<&[u8]>) -> Option<Handle>
    ensures { (change : Handle → Change) → of_meant change result
        ≡ of_named buffers.now buffer change (word_in name.entry) }
{
    match name {
        Some(word) => buffer_meant(buffers, word),
        None => Some(buffer),
    }
}

/// What is asked of a buffer, where it is there.
fn asks_there(alloc: Global, buffer: Option<Handle>, what: What) -> Result<Resolution, NoMemory>
    ensures { IfOk result (λ r. outcome_of r ≡ of_meant (λ b. change_of b what) buffer) }
{
    match buffer {
        Some(buffer) => Ok(asks(buffer, what)),
        None => {
            drop(what);
            no_such_buffer(alloc)
        }
    }
}

/// The merge into another buffer, where that one is there.
fn merge(alloc: Global, buffer: Handle, into: Option<Handle>) -> Result<Resolution, NoMemory>
    ensures { IfOk result (λ r. outcome_of r
        ≡ of_meant (λ into. change_of buffer (what.MergeInto into)) into) }
{
    match into {
        Some(into) => Ok(asks(buffer, What::MergeInto(into))),
        None => no_such_buffer(alloc),
    }
}

/// The buffer that is to be shown is there, or its command is refused.
fn switch(alloc: Global, buffer: Option<Handle>) -> Result<Resolution, NoMemory>
    ensures { IfOk result (λ r. outcome_of r ≡ switched buffer) }
{
    if buffer.is_some() {
        return Ok(Resolution::Stays);
    }
    let text = Text::from_slice(alloc, b"wrong arguments: /buffer")?;
    Ok(Resolution::Tells(text))
}

/// The refusal whose text is these two.
fn refuse(alloc: Global, front: &[u8], name: &[u8]) -> Result<Resolution, NoMemory>
    ensures { IfOk result (λ r. outcome_of r ≡ Tells (front.now ++ name.now)) }
{
    let text = joined_texts(alloc, front, name)?;
    Ok(Resolution::Tells(text))
}

fn set_short_name(alloc: Global, buffer: Handle, name: &[u8]) -> Result<Resolution, NoMemory>
    ensures { IfOk result
        (λ r. outcome_of r ≡ Asks (change_of buffer (what.ShortName name.now))) }
{
    let name = Text::from_slice(alloc, name)?;
    Ok(asks(buffer, What::ShortName(name)))
}

fn set_title(alloc: Global, buffer: Handle, title: &[u8]) -> Result<Resolution, NoMemory>
    ensures { IfOk result (λ r. outcome_of r ≡ Asks (change_of buffer (what.Title title.now))) }
{
    let title = Text::from_slice(alloc, title)?;
    Ok(asks(buffer, What::Title(title)))
}

fn set_var(alloc: Global, buffer: Handle, name: &[u8], value: &[u8]) -> Result<Resolution, NoMemory>
    ensures { IfOk result (λ r. outcome_of r ≡ Asks (change_of buffer
        (what.SetVar (record { name = name.now; value = value.now })))) }
{
    let name = Text::from_slice(alloc, name)?;
    let value = Text::from_slice(alloc, value)?;
    Ok(asks(buffer, What::SetVar(Pair { name, value })))
}

fn remove_var(alloc: Global, buffer: Handle, name: &[u8]) -> Result<Resolution, NoMemory>
    ensures { IfOk result
        (λ r. outcome_of r ≡ Asks (change_of buffer (what.RemoveVar name.now))) }
{
    let name = Text::from_slice(alloc, name)?;
    Ok(asks(buffer, What::RemoveVar(name)))
}

fn set_option(alloc: Global, name: &[u8], value: &[u8]) -> Result<Resolution, NoMemory>
    ensures { IfOk result (λ r. outcome_of r ≡ SetsOption name.now value.now) }
{
    let name = Text::from_slice(alloc, name)?;
    let value = Text::from_slice(alloc, value)?;
    Ok(Resolution::SetsOption(Pair { name, value }))
}

fn unset_option(alloc: Global, name: &[u8]) -> Result<Resolution, NoMemory>
    ensures { IfOk result (λ r. outcome_of r ≡ UnsetsOption name.now) }
{
    let name = Text::from_slice(alloc, name)?;
    Ok(Resolution::UnsetsOption(name))
}

/// A change of filters with texts of its own.
fn own_change(alloc: Global, usage: FilterUse<'_>) -> Result<FilterChange, NoMemory>
    ensures { IfOk result (λ change. change ≡ filters_meant usage.entry) }
{
    match usage {
        FilterUse::Add {
            name,
            buffers,
            tags,
            pattern,
        } => Ok(FilterChange::Add {
            name: Text::from_slice(alloc, name)?,
            buffers: Text::from_slice(alloc, buffers)?,
            tags: Text::from_slice(alloc, tags)?,
            pattern: Text::from_slice(alloc, pattern)?,
        }),
        FilterUse::Delete(name) => Ok(FilterChange::Delete(Text::from_slice(alloc, name)?)),
        FilterUse::Switch { name: None, switch } => Ok(FilterChange::Switch { name: None, switch }),
        FilterUse::Switch {
            name: Some(name),
            switch,
        } => Ok(FilterChange::Switch {
            name: Some(Text::from_slice(alloc, name)?),
            switch,
        }),
    }
}

fn change_filters(alloc: Global, usage: FilterUse<'_>) -> Result<Resolution, NoMemory>
    ensures { IfOk result (λ r. outcome_of r ≡ ChangesFilters (filters_meant usage.entry)) }
{
    let change = own_change(alloc, usage)?;
    Ok(Resolution::ChangesFilters(change))
}

/// What a line that was typed into a buffer at this moment, in milliseconds since 1970, comes to.
#[tactic(auto, unfolding(crate::specs::Resolved::effect_of))]
pub(crate) fn resolve(
    alloc: Global,
    world: &World,
    moment: u64,
    buffer: Handle,
    asked: CommandText<'_>,
) -> Result<Resolution, NoMemory>
    ensures { IfOk result (λ r. outcome_of r ≡ effect_of world.now moment buffer
        (meaning asked.entry)) }
{
    let buffers = world.buffers();
    match asked {
        CommandText::Nothing => Ok(Resolution::Stays),
        CommandText::Quit => Ok(Resolution::Ends),
        CommandText::Refused { front, name } | CommandText::Other { front, name } => {
            refuse(alloc, front, name)
        }
        CommandText::Print {
            buffer: name,
            tags,
            prefix,
            message,
        } => print(
            alloc,
            target(buffers, buffer, name),
            moment,
            tags,
            prefix,
            message,
        ),
        CommandText::Add(name) => add(alloc, name),
        CommandText::Close(name) => {
            asks_there(alloc, target(buffers, buffer, name), What::Close)
        }
        CommandText::MoveTo(number) => Ok(asks(buffer, What::MoveTo(number))),
        CommandText::Merge(name) => merge(alloc, buffer, buffer_meant(buffers, name)),
        CommandText::Unmerge => Ok(asks(buffer, What::Unmerge)),
        CommandText::Hide => Ok(asks(buffer, What::Hide)),
        CommandText::Unhide => Ok(asks(buffer, What::Unhide)),
        CommandText::Clear => Ok(asks(buffer, What::Clear)),
        CommandText::Name(name) => rename(alloc, buffers, buffer, name),
        CommandText::ShortName(name) => set_short_name(alloc, buffer, name),
        CommandText::Title(title) => set_title(alloc, buffer, title),
        CommandText::SetVar { name, value } => set_var(alloc, buffer, name, value),
        CommandText::RemoveVar(name) => remove_var(alloc, buffer, name),
        CommandText::SetOption { name, value } => set_option(alloc, name, value),
        CommandText::UnsetOption(name) => unset_option(alloc, name),
        CommandText::Switch(name) => switch(alloc, buffer_meant(buffers, name)),
        CommandText::Save => Ok(Resolution::SavesOptions),
        CommandText::UseHotlist(usage) => Ok(Resolution::ChangesHotlist(usage, buffer)),
        CommandText::UseFilters(usage) => change_filters(alloc, usage),
        CommandText::ListCommands => list_commands(alloc, moment, buffer),
        CommandText::Eval { usage: _, text: _ } => Ok(Resolution::Stays),
    }
}

/// The handle of the core buffer.
const CORE: Handle = Handle(1);

/// The prefix of a line that tells a refusal.
const REFUSAL: &[u8] = b"=!=";

/// The microseconds of the second of a moment, which is in milliseconds since 1970.
pub(crate) fn usec_of(moment: u64) -> u32
    ensures { result ≡ usec_of moment }
{
    (moment % 1000) as u32 * 1000
}

/// A line that is printed at this moment, in milliseconds since 1970.
fn line_spec(moment: u64, tags: Items<Text>, prefix: Text, message: Text) -> LineSpec
    ensures { result ≡ line_spec moment tags prefix message }
{
    let levels = levels_of(tags.as_slice(), false);
    LineSpec {
        date: moment / 1000,
        usec: usec_of(moment),
        date_printed: moment / 1000,
        usec_printed: usec_of(moment),
        displayed: true,
        notify: levels.notify,
        highlight: levels.highlight,
        tags,
        prefix,
        message,
    }
}

/// A line at this moment, in milliseconds since 1970. Commas part its tags.
fn read_line_spec(
    alloc: Global,
    moment: u64,
    tags: &[u8],
    prefix: &[u8],
    message: &[u8],
) -> Result<LineSpec, NoMemory>
    ensures { IfOk result
        (λ line. line ≡ line_spec moment (tags_of tags.now) prefix.now message.now) }
{
    let tags = read_tags(alloc, tags)?;
    let prefix = Text::from_slice(alloc, prefix)?;
    let message = Text::from_slice(alloc, message)?;
    Ok(line_spec(moment, tags, prefix, message))
}

/// The print of a line on a buffer at this moment, in milliseconds since 1970, where the buffer is
/// there.
fn print(
    alloc: Global,
    buffer: Option<Handle>,
    moment: u64,
    tags: &[u8],
    prefix: &[u8],
    message: &[u8],
) -> Result<Resolution, NoMemory>
    ensures { IfOk result (λ r. outcome_of r ≡ of_meant (λ b. change_of b
        (what.Print (line_spec moment (tags_of tags.now) prefix.now message.now))) buffer) }
{
    let line = read_line_spec(alloc, moment, tags, prefix, message)?;
    asks_there(alloc, buffer, What::Print(line))
}

/// The print of the names of all commands on a buffer.
fn list_commands(alloc: Global, moment: u64, buffer: Handle) -> Result<Resolution, NoMemory>
    ensures { IfOk result (λ r. outcome_of r ≡ Asks (change_of buffer
        (what.Print (line_spec moment [] [] names_told)))) }
{
    let names = names_told(alloc)?;
    print(alloc, Some(buffer), moment, b"", b"", names.as_slice())
}

/// The print of a line without tags on the core buffer.
fn printed(alloc: Global, moment: u64, prefix: Text, message: Text) -> Change
    ensures { result ≡ change_of (record { 0 = 1 })
        (what.Print (line_spec moment [] prefix message)) }
{
    Change {
        buffer: CORE,
        what: What::Print(line_spec(moment, Items::new(alloc), prefix, message)),
    }
}

/// The print that tells a refusal: a line of the core buffer.
pub(crate) fn told_refusal(alloc: Global, moment: u64, text: Text) -> Result<Change, NoMemory>
    ensures { IfOk result (λ change. change ≡ told_refusal moment text) }
{
    let prefix = Text::from_slice(alloc, REFUSAL)?;
    Ok(printed(alloc, moment, prefix, text))
}

/// The print of what a text came to that was evaluated: a line of the core buffer.
pub(crate) fn printed_value(alloc: Global, moment: u64, value: &[u8]) -> Result<Change, NoMemory>
    ensures { IfOk result (λ change. change ≡ printed_value moment value.now) }
{
    let mut message = joined_texts(alloc, b"== [", value)?;
    message.append(b"]")?;
    Ok(printed(alloc, moment, Text::new(alloc), message))
}

/// A new buffer of the core.
fn read_core_spec(alloc: Global, name: &[u8]) -> Result<BufferSpec, NoMemory>
    ensures { IfOk result (λ spec. spec ≡ core_spec name.now) }
{
    let full_name = joined_texts(alloc, b"core.", name)?;
    let short_name = Text::from_slice(alloc, name)?;
    Ok(BufferSpec {
        full_name,
        short_name,
        title: Text::new(alloc),
        vars: Items::new(alloc),
    })
}

fn add(alloc: Global, name: &[u8]) -> Result<Resolution, NoMemory>
    ensures { IfOk result
        (λ r. outcome_of r ≡ Asks (change_of null (what.Add (core_spec name.now)))) }
{
    let spec = read_core_spec(alloc, name)?;
    Ok(asks(NULL, What::Add(spec)))
}

/// What is before the first dot of a buffer's full name, or all of it.
#[tactic(auto, using(crate::proofs::ResolvedWords::plugin_before))]
fn plugin_in(row: Option<&BufferRow>) -> &[u8]
    ensures { result.now ≡ plugin_in (option_copied row.entry) }
{
    match row {
        Some(row) => split_once(row.full_name.as_slice(), b'.').0,
        None => b"",
    }
}

/// A buffer's full name with another name after the first dot.
fn renamed_text(
    alloc: Global,
    buffers: &Buffers,
    buffer: Handle,
    name: &[u8],
) -> Result<Text, NoMemory>
    ensures { IfOk result
        (λ text. what.Rename text [] ≡ rename_of buffers.now buffer name.now) }
{
    let mut full_name = joined_texts(alloc, plugin_in(buffers.get(buffer)), b".")?;
    full_name.append(name)?;
    Ok(full_name)
}

/// Another name after the first dot of a buffer's full name.
fn rename(
    alloc: Global,
    buffers: &Buffers,
    buffer: Handle,
    name: &[u8],
) -> Result<Resolution, NoMemory>
    ensures { IfOk result
        (λ r. outcome_of r ≡ Asks (change_of buffer (rename_of buffers.now buffer name.now))) }
{
    let name = renamed_text(alloc, buffers, buffer, name)?;
    let flips = Items::new(alloc);
    Ok(asks(buffer, What::Rename { name, flips }))
}

/// The first buffer of the group of a number, which may be larger than the largest of its type.
#[tactic(auto, using(crate::proofs::ResolvedWords::numbered_facts))]
fn first_of_number(buffers: &Buffers, number: u32) -> Option<Handle>
    ensures { (n : ℕ) → number ≡ min n (2 ^ 32 - 1) → result ≡ first_of_number buffers.now n }
{
    let mut left = number.checked_sub(1)?;
    for group in buffers.groups() {
        if left == 0 {
            return group.first().copied();
        }
        left -= 1;
    }
    None
}

/// The buffer that a word of a command means: by the number of its group, of which the first one is
/// meant, by its full name or by its handle. None exactly where there is no such buffer.
#[tactic(auto, unfolding(crate::specs::Resolved::buffer_meant))]
pub(crate) fn buffer_meant(buffers: &Buffers, word: &[u8]) -> Option<Handle>
    ensures { result ≡ buffer_meant buffers.now word.now }
{
    match read_number(word) {
        Some(number) => first_of_number(buffers, number),
        None => buffer_named(buffers, word),
    }
}
