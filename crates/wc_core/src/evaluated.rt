//! What a text on a buffer may name, in memory of its own.

ghost use Rattle.std.specs.Option.{option_copied};
ghost use Rattle.std.specs.Prelude.{◌≡◌, ◌++◌, ◌∷◌, [], codes, IfOk, OnOk};
ghost use Rattle.wc_buffers.specs.Vars.{pair};
ghost use Rattle.wc_core.specs.Evaluated.{number_text, facts_of_row, facts_of_buffer};
ghost use Rattle.wc_core.specs.Evaluated.{locals_of_buffer, buffer_or_core};
ghost use Rattle.wc_core.specs.EvaluatedSeen.{IsAround, facts_around};
ghost use Rattle.wc_eval.specs.Names.{facts_of};

use std::alloc::Global;
use wc_buffers::{BufferRow, Buffers, Vars};
use wc_eval::Scope;
use wc_options::Options;
use wc_text::{Handle, Items, NoMemory, Pair, Text};

/// The core buffer.
const CORE: Handle = Handle(1);

/// What a text may name beside options that is evaluated on a buffer. There are no variables of a
/// trigger and no groups of a match.
#[derive(Drop)]
pub(crate) struct Surroundings {
    vars: Items<Pair>,
    /// Facts of the buffer.
    facts: Items<Pair>,
    /// Its local variables.
    locals: Items<Pair>,
    groups: Items<Text>,
}

impl Surroundings {
    /// Those of a buffer, or of the core buffer where that one is gone.
    pub(crate) fn of(
        alloc: Global,
        buffers: &Buffers,
        buffer: Handle,
    ) -> Result<Surroundings, NoMemory>
        ensures { IfOk result (λ around. IsAround buffers.now buffer around) }
    {
        let buffer = buffer_or_core(buffers, buffer);
        let facts = facts_of_buffer(alloc, buffers, buffer)?;
        let locals = locals_of_buffer(alloc, buffers, buffer)?;
        Ok(Surroundings {
            vars: Items::new(alloc),
            facts,
            locals,
            groups: Items::new(alloc),
        })
    }

    /// What a text may name, these options among it.
    pub(crate) fn scope<'a>(&'a self, options: &'a Options) -> Scope<'a>
        ensures { facts_of result ≡ facts_around options.now self.now }
    {
        Scope {
            vars: &self.vars,
            options,
            facts: &self.facts,
            locals: &self.locals,
            groups: &self.groups,
        }
    }
}

/// The buffer, or the core buffer where it is gone.
fn buffer_or_core(buffers: &Buffers, buffer: Handle) -> Handle
    ensures { result ≡ buffer_or_core buffers.now buffer }
{
    match buffers.get(buffer) {
        Some(_) => buffer,
        None => CORE,
    }
}

/// Puts a name and its value after the others.
fn put_pair(
    pairs: &mut Items<Pair>,
    alloc: Global,
    name: &[u8],
    value: &[u8],
) -> Result<(), NoMemory>
    ensures { OnOk result (pairs.new ≡ pairs.old ++ pair name.now value.now ∷ []) }
{
    let name = Text::from_slice(alloc, name)?;
    let value = Text::from_slice(alloc, value)?;
    pairs.push(Pair { name, value })
}

/// Puts the number of a buffer, which is there, after the others.
fn put_number(pairs: &mut Items<Pair>, alloc: Global, number: Option<u32>) -> Result<(), NoMemory>
    ensures { OnOk result (pairs.new
        ≡ pairs.old ++ pair (codes "buffer.number") (number_text number) ∷ []) }
{
    let mut digits = itoa::Buffer::new();
    let text = match number {
        Some(number) => digits.format(number).as_bytes(),
        None => b"",
    };
    put_pair(pairs, alloc, b"buffer.number", text)
}

/// The facts of a buffer that has this number.
fn facts_of_row(
    alloc: Global,
    number: Option<u32>,
    row: &BufferRow,
) -> Result<Items<Pair>, NoMemory>
    ensures { IfOk result (λ facts. facts ≡ facts_of_row number row.now) }
{
    let mut facts = Items::new(alloc);
    put_number(&mut facts, alloc, number)?;
    put_pair(
        &mut facts,
        alloc,
        b"buffer.full_name",
        row.full_name.as_slice(),
    )?;
    put_pair(
        &mut facts,
        alloc,
        b"buffer.short_name",
        row.short_name.as_slice(),
    )?;
    put_pair(&mut facts, alloc, b"buffer.title", row.title.as_slice())?;
    Ok(facts)
}

/// The facts of a buffer, and none where it is not there.
fn facts_of_buffer(
    alloc: Global,
    buffers: &Buffers,
    buffer: Handle,
) -> Result<Items<Pair>, NoMemory>
    ensures { IfOk result (λ facts. facts ≡ facts_of_buffer buffers.now buffer) }
{
    match buffers.get(buffer) {
        Some(row) => facts_of_row(alloc, buffers.number(buffer), row),
        None => Ok(Items::new(alloc)),
    }
}

/// Variables in memory of their own.
fn copied(alloc: Global, vars: &Vars) -> Result<Items<Pair>, NoMemory>
    ensures { IfOk result (λ locals. locals ≡ vars.now) }
{
    let mut locals = Items::new(alloc);
    for (name, value) in vars.iter() {
        put_pair(&mut locals, alloc, name.as_slice(), value.as_slice())?;
    }
    Ok(locals)
}

/// The local variables of a buffer, and none where it is not there.
fn locals_of_buffer(
    alloc: Global,
    buffers: &Buffers,
    buffer: Handle,
) -> Result<Items<Pair>, NoMemory>
    ensures { IfOk result (λ locals. locals ≡ locals_of_buffer buffers.now buffer) }
{
    match buffers.vars(buffer) {
        Some(vars) => copied(alloc, vars),
        None => Ok(Items::new(alloc)),
    }
}
