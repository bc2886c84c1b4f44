//! The options and the buffers that a server looks at.

ghost use Rattle.std.specs.Prelude.{◌≡◌, ◌<◌, IfOk};
ghost use Rattle.std.specs.Str.{IsUtf8};

use std::alloc::Global;
use wc_buffers::{BufferRefused, BufferRow, Buffers};
use wc_notation::{Wrong, cut_word, unescape};
use wc_options::{Options, SetRefused};
use wc_text::{Handle, Items, NoMemory, Text};

#[derive(Drop)]
pub struct Stage {
    pub options: Options,
    pub buffers: Buffers,
    /// The handle that was drawn last.
    last: u64,
}

/// The text that a word writes, which has to be UTF-8.
pub fn utf8(alloc: Global, word: &str) -> Result<Text, Wrong>
    ensures { IfOk result IsUtf8 }
{
    let text = unescape(alloc, word)?;
    match std::str::from_utf8(text.as_slice()) {
        Ok(_) => Ok(text),
        Err(_) => Err(Wrong::NoText),
    }
}

fn not_added(refused: BufferRefused) -> Wrong {
    match refused {
        BufferRefused::NoMemory => Wrong::NoMemory,
        _ => Wrong::Word,
    }
}

fn not_set(refused: SetRefused) -> Wrong {
    match refused {
        SetRefused::NoMemory => Wrong::NoMemory,
        _ => Wrong::Word,
    }
}

/// What is kept of a buffer with this name.
fn row(alloc: Global, handle: Handle, name: Text) -> Result<BufferRow, NoMemory>
    requires { IsUtf8 name }
    ensures { IfOk result (λ row. (row.handle ≡ handle) × (IsUtf8 row.full_name)
        × (IsUtf8 row.short_name) × (IsUtf8 row.title)) }
{
    let short_name = name.copy(alloc)?;
    Ok(BufferRow {
        handle,
        own_lines: Handle(0),
        mixed_lines: Handle(0),
        full_name: name,
        short_name,
        title: Text::new(alloc),
        hidden: false,
    })
}

/// Adds a buffer without variables of its own.
#[tactic(auto, using(crate::proofs::BufferLemmas::absent))]
fn add(alloc: Global, buffers: &mut Buffers, handle: Handle, name: &str) -> Result<(), Wrong>
    requires { 0 < handle.0 }
{
    let name = utf8(alloc, name)?;
    let row = row(alloc, handle, name)?;
    if buffers.number(handle).is_some() {
        return Err(Wrong::Number);
    }
    let no_vars = Items::new(alloc);
    buffers.add(alloc, row, &no_vars).map_err(not_added)
}

/// The buffer of the name that a word writes.
pub fn named(alloc: Global, buffers: &Buffers, word: &str) -> Result<Handle, Wrong> {
    let name = unescape(alloc, word)?;
    match buffers.find(name.as_slice()) {
        Some(handle) => Ok(handle),
        None => Err(Wrong::Word),
    }
}

/// Sets the variable of a buffer to what the two words write.
fn put_var(alloc: Global, buffers: &mut Buffers, buffer: Handle, words: &str) -> Result<(), Wrong> {
    let (name, value) = cut_word(words);
    let name = utf8(alloc, name)?;
    let value = utf8(alloc, value)?;
    match buffers.set_var(alloc, buffer, &name, &value) {
        Ok(_) => Ok(()),
        Err(refused) => Err(not_added(refused)),
    }
}

fn set_var(alloc: Global, buffers: &mut Buffers, words: &str) -> Result<(), Wrong> {
    let (buffer, words) = cut_word(words);
    let buffer = named(alloc, buffers, buffer)?;
    put_var(alloc, buffers, buffer, words)
}

/// Sets an option to what the second word writes.
fn set(alloc: Global, options: &mut Options, words: &str) -> Result<(), Wrong> {
    let (name, value) = cut_word(words);
    let name = utf8(alloc, name)?;
    let value = utf8(alloc, value)?;
    match options.set(alloc, &name, &value) {
        Ok(_) => Ok(()),
        Err(refused) => Err(not_set(refused)),
    }
}

/// Gives a buffer another full name.
fn rename(alloc: Global, buffers: &mut Buffers, words: &str) -> Result<(), Wrong> {
    let (buffer, name) = cut_word(words);
    let buffer = named(alloc, buffers, buffer)?;
    let name = utf8(alloc, name)?;
    buffers.rename(alloc, buffer, &name).map_err(not_added)
}

/// Takes a buffer out.
fn close(alloc: Global, buffers: &mut Buffers, name: &str) -> Result<(), Wrong> {
    let buffer = named(alloc, buffers, name)?;
    match buffers.close(buffer) {
        Ok(_) => Ok(()),
        Err(refused) => Err(not_added(refused)),
    }
}

impl Stage {
    /// Options at their defaults, and no buffers.
    pub fn new(alloc: Global) -> Result<Stage, NoMemory> {
        let options = Options::new(alloc)?;
        let buffers = Buffers::new(alloc)?;
        Ok(Stage {
            options,
            buffers,
            last: 0,
        })
    }

    fn add(&mut self, alloc: Global, name: &str) -> Result<(), Wrong> {
        let Some(next) = self.last.checked_add(1) else {
            return Err(Wrong::Number);
        };
        add(alloc, &mut self.buffers, Handle(next), name)?;
        self.last = next;
        Ok(())
    }

    /// Changes what the server looks at.
    pub fn change(&mut self, alloc: Global, call: &str, rest: &str) -> Result<(), Wrong> {
        match call {
            "set" => set(alloc, &mut self.options, rest),
            "buffer" => self.add(alloc, rest),
            "var" => set_var(alloc, &mut self.buffers, rest),
            "rename" => rename(alloc, &mut self.buffers, rest),
            "gone" => close(alloc, &mut self.buffers, rest),
            _ => Err(Wrong::Word),
        }
    }
}
