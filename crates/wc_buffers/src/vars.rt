ghost use Rattle.std.specs.Prelude.{◌≡◌, ◌<◌, ◌≤◌, ◌+◌, ◌==◌, length, IfOk, OnOk, OnErr};
ghost use Rattle.std.specs.Prelude.{is_none, position, All};
ghost use Rattle.std.specs.List.{before_first, after_first};
ghost use Rattle.std.specs.Option.{option_copied};
ghost use Rattle.std.specs.Iterator.{YieldsFirstBy, item_count};
ghost use Rattle.std.specs.Str.{IsUtf8};
ghost use Rattle.indexmap.specs.IndexMap.{IndexMap, values, spare};
ghost use Rattle.wc_buffers.specs.Entries.{AreNamed, IsText};
ghost use Rattle.wc_buffers.specs.Vars.{pair, plugin_var, name_var, set_fixed, set_all, set_var};
ghost use Rattle.wc_buffers.specs.Vars.{remove_var, value_of, var_of, var, vars_of, cut_to};
ghost use Rattle.wc_buffers.specs.Vars.{lent_pair};

use indexmap::IndexMap;
use indexmap::map::Values;
use std::alloc::Global;
use std::marker::Model;
use wc_text::{NoMemory, Pair, Text, cut};

/// The most bytes of a value or a title. What is longer is cut.
pub(crate) const VALUE_LIMIT: usize = 1024;

/// The variables of a buffer, which contracts see as the list of their names and values, in the
/// order in which they were set first. The names `plugin` and `name` are first.
#[derive(Drop)]
pub struct Vars {
    vars: IndexMap<Vec<u8>, Pair>,
}

impl Model for Vars {
    ghost use Rattle.std.specs.Prelude.{List};
    ghost use Rattle.indexmap.specs.IndexMap.{values};
    ghost use Rattle.wc_text.specs.declared.names.Pair.{Pair};
    ghost use Rattle.wc_buffers.specs.Entries.{AreNamed};

    ghost Value = { List Pair };

    ghost view = { λ a. values a.vars };

    ghost invariant = { λ a. AreNamed a.vars.entries };
}

impl Vars {
    /// The variables of a new buffer.
    #[tactic(auto, unfolding(crate::specs::Vars::vars_of))]
    pub(crate) fn of(alloc: Global, full_name: &[u8], vars: &[Pair]) -> Result<Vars, NoMemory>
        requires { All IsText vars.now }
        ensures { IfOk result (λ kept. kept ≡ vars_of full_name.now vars.now) }
    {
        let mut kept = Vars {
            vars: IndexMap::new(alloc),
        };
        kept.set_fixed(alloc, full_name)?;
        kept.set_all(alloc, vars)?;
        Ok(kept)
    }

    fn set_all(&mut self, alloc: Global, vars: &[Pair]) -> Result<(), NoMemory>
        requires { All IsText vars.now }
        ensures { OnOk result (self.new ≡ set_all self.old vars.now) }
    {
        for var in vars {
            let _ = self.set(alloc, var.name.as_slice(), var.value.as_slice())?;
        }
        Ok(())
    }

    /// The value of a variable, where there is one of that name.
    pub fn get(&self, name: &[u8]) -> Option<&Text>
        ensures { option_copied result ≡ value_of name.now self.now }
    {
        match self.vars.get(name) {
            Some(pair) => Some(&pair.value),
            None => None,
        }
    }

    /// How many variables there are.
    pub fn len(&self) -> usize
        ensures { result ≡ length self.now }
    {
        self.vars.len()
    }

    /// The names and the values, in order.
    pub fn iter(&self) -> VarIter<'_>
        ensures { result ≡ self.now }
    {
        VarIter {
            vars: self.vars.values(),
        }
    }

    /// Sets a variable: a new one goes last, a changed one keeps its place. True where it is new.
    pub(crate) fn set(&mut self, alloc: Global, name: &[u8], value: &[u8]) -> Result<bool, NoMemory>
        requires { IsUtf8 value.now }
        ensures ok { OnOk result (self.new ≡ set_var (var name.now value.now) self.old) }
        ensures new { IfOk result (λ new. new ≡ is_none (var_of name.now self.old)) }
        ensures err { OnErr result (self.new ≡ self.old) }
    {
        let entry = Entry::new(alloc, name, cut_value(value))?;
        self.vars.reserve(1)?;
        Ok(put(&mut self.vars, entry))
    }

    /// Sets the two variables that follow from the full name.
    pub(crate) fn set_fixed(&mut self, alloc: Global, full_name: &[u8]) -> Result<(), NoMemory>
        ensures ok { OnOk result (self.new ≡ set_fixed full_name.now self.old) }
        ensures err { OnErr result (self.new ≡ self.old) }
    {
        let (plugin, name) = part_at_dot(full_name);
        let plugin = Entry::new(alloc, b"plugin", plugin)?;
        let name = Entry::new(alloc, b"name", name)?;
        self.vars.reserve(2)?;
        put(&mut self.vars, plugin);
        put(&mut self.vars, name);
        Ok(())
    }

    /// Takes a variable out. The others keep their order.
    pub(crate) fn remove(&mut self, name: &[u8])
        ensures { self.new ≡ remove_var name.now self.old }
    {
        self.vars.shift_remove(name);
    }
}

/// A variable and the key that it is under.
#[derive(Drop)]
struct Entry {
    key: Vec<u8>,
    pair: Pair,
}

impl Entry {
    fn new(alloc: Global, name: &[u8], value: &[u8]) -> Result<Entry, NoMemory>
        ensures key { IfOk result (λ entry. entry.key.items ≡ name.now) }
        ensures pair { IfOk result (λ entry. entry.pair ≡ pair name.now value.now) }
    {
        let key = name.to_vec(alloc)?;
        let name = Text::from_slice(alloc, name)?;
        let value = Text::from_slice(alloc, value)?;
        Ok(Entry {
            key,
            pair: Pair { name, value },
        })
    }
}

/// Puts a variable in. True where it is new. It takes no memory.
fn put(vars: &mut IndexMap<Vec<u8>, Pair>, entry: Entry) -> bool
    requires room { 0 < spare vars.old }
    requires key { entry.key.items ≡ entry.pair.name }
    requires named { AreNamed vars.old.entries }
    ensures vars { values vars.new ≡ set_var entry.pair (values vars.old) }
    ensures new { result ≡ is_none (var_of entry.pair.name (values vars.old)) }
    ensures still_named { AreNamed vars.new.entries }
    ensures left { spare vars.old ≤ spare vars.new + 1 }
{
    match vars.insert(entry.key, entry.pair) {
        Ok(old) => old.is_none(),
        Err(_) => unreachable!(),
    }
}

/// The front of a value that is kept.
#[tactic(auto, using(wc_text::proofs::CutLemmas::cut_inside))]
pub(crate) fn cut_value(value: &[u8]) -> &[u8]
    requires { IsUtf8 value.now }
    ensures { result.now ≡ cut_to 1024 value.now }
{
    value.split_at(cut(value, VALUE_LIMIT)).0
}

/// The place of the first dot.
fn dot_place(text: &[u8]) -> Option<usize>
    ensures { result ≡ position (λ b. b == 46) text.now }
{
    text.iter().position(|byte| *byte == b'.')
}

/// The part of a full name before its first dot, and the part after it, which is empty without one.
fn part_at_dot(full_name: &[u8]) -> (&[u8], &[u8])
    ensures before { result.0.now ≡ before_first (λ b. b == 46) full_name.now }
    ensures following { result.1.now ≡ after_first (λ b. b == 46) full_name.now }
{
    match dot_place(full_name) {
        Some(place) => (full_name.split_at(place).0, full_name.split_at(place + 1).1),
        None => (full_name, &[]),
    }
}

/// The variables that are still to come, each as its name and its value.
#[derive(Drop)]
pub struct VarIter<'a> {
    vars: Values<'a, Vec<u8>, Pair>,
}

impl<'a> Model for VarIter<'a> {
    ghost use Rattle.std.specs.Prelude.{List};
    ghost use Rattle.wc_text.specs.declared.names.Pair.{Pair};

    ghost Value = { List Pair };

    ghost view = { λ a. a.vars };
}

impl<'a> Iterator for VarIter<'a> {
    type Item = (&'a Text, &'a Text);

    ghost next_gives = { YieldsFirstBy lent_pair (λ s. s) };

    ghost remaining = { item_count (λ s. s) };

    fn next(&mut self) -> Option<(&'a Text, &'a Text)> {
        let pair = self.vars.next()?;
        Some((&pair.name, &pair.value))
    }
}
