//! The names that complete words: of commands, and of the nicks of buffers.

ghost use Rattle.std.specs.Prelude.{IfOk};
ghost use Rattle.wc_world.specs.Texts.{IsChangeText};

use crate::texts::{cut_handle, text_of, texts_of};
use std::alloc::Global;
use wc_buffers::BufferSpec;
use wc_complete::{Completion, complete};
use wc_model::{Change, What};
use wc_nickdiff::Pending;
use wc_nicklist::Item;
use wc_notation::{Wrong, cut_word, put_quoted, unescape};
use wc_text::{Handle, Items, Text};
use wc_world::World;

/// Buffers and commands.
#[derive(Drop)]
pub struct Names {
    world: World,
    pending: Pending,
    commands: Items<Text>,
}

/// A buffer of this name.
fn new_buffer(alloc: Global, name: &str) -> Result<What, Wrong>
    ensures { IfOk result IsChangeText }
{
    let full_name = text_of(alloc, name)?;
    let short_name = text_of(alloc, name)?;
    Ok(What::Add(BufferSpec {
        full_name,
        short_name,
        title: Text::new(alloc),
        vars: Items::new(alloc),
    }))
}

/// What is put into a group by words: its name, and that of the new item.
fn new_item(alloc: Global, call: &str, rest: &str) -> Result<What, Wrong>
    ensures { IfOk result IsChangeText }
{
    let (group, name) = cut_word(rest);
    let group = text_of(alloc, group)?;
    let item = Item {
        handle: Handle(0),
        is_group: call.ends_with("group"),
        visible: !call.starts_with("hidden"),
        level: 0,
        name: text_of(alloc, name)?,
        color: Text::new(alloc),
        prefix: Text::new(alloc),
        prefix_color: Text::new(alloc),
    };
    match call {
        "group" | "hidden_group" => Ok(What::AddGroup {
            parent: group,
            item,
        }),
        _ => Ok(What::AddNick { group, item }),
    }
}

fn put_completion(completion: &Completion, out: &mut String) -> Result<(), Wrong> {
    let start = completion.pos_start;
    let end = completion.pos_end;
    let context = match std::str::from_utf8(completion.context.name()) {
        Ok(name) => name,
        Err(_) => return Err(Wrong::NoText),
    };
    write!(out, "{context} ")?;
    put_quoted(out, completion.base_word.as_slice())?;
    write!(out, " {start} {end}:")?;
    for name in completion.list.as_slice() {
        out.push(' ')?;
        put_quoted(out, name.as_slice())?;
    }
    Ok(())
}

impl Names {
    pub fn new(alloc: Global) -> Result<Names, Wrong> {
        let world = World::new(alloc, 1)?;
        let pending = Pending::new(alloc)?;
        Ok(Names {
            world,
            pending,
            commands: Items::new(alloc),
        })
    }

    /// The commands are these from now on.
    pub fn take_commands(&mut self, alloc: Global, rest: &str) -> Result<(), Wrong> {
        self.commands = texts_of(alloc, rest)?;
        Ok(())
    }

    fn change(&mut self, alloc: Global, change: Change, out: &mut String) -> Result<(), Wrong>
        requires { IsChangeText change.what }
    {
        match self.world.change(alloc, change, &mut self.pending) {
            Ok(_) => Ok(out.push_str("done")?),
            Err(_) => Ok(out.push_str("refused")?),
        }
    }

    /// Adds a buffer.
    pub fn add_buffer(&mut self, alloc: Global, rest: &str, out: &mut String) -> Result<(), Wrong> {
        let what = new_buffer(alloc, rest)?;
        let buffer = Handle(0);
        self.change(alloc, Change { buffer, what }, out)
    }

    /// Adds a group or a nick.
    pub fn add_item(
        &mut self,
        alloc: Global,
        call: &str,
        rest: &str,
        out: &mut String,
    ) -> Result<(), Wrong> {
        let (buffer, rest) = cut_handle(rest)?;
        let what = new_item(alloc, call, rest)?;
        self.change(alloc, Change { buffer, what }, out)
    }

    /// What completes the word at a position of a text.
    pub fn put_completed(&self, alloc: Global, rest: &str, out: &mut String) -> Result<(), Wrong> {
        let (buffer, rest) = cut_handle(rest)?;
        let (position, text) = cut_word(rest);
        let Ok(position) = position.parse::<i64>() else {
            return Err(Wrong::Number);
        };
        let text = unescape(alloc, text)?;
        let commands = self.commands.as_slice();
        match complete(
            alloc,
            &self.world,
            commands,
            buffer,
            position,
            text.as_slice(),
        )? {
            Some(completion) => put_completion(&completion, out),
            None => Ok(out.push_str("none")?),
        }
    }
}
