//! What the requests of a client are answered from, beside the world.

use std::alloc::Global;
use wc_hotlist::Hotlist;
use wc_options::{Options, read_config};
use wc_session::RequestContext;
use wc_text::{Handle, NoMemory, Text};

/// The options: the password that clients log in by.
const CONFIGURATION: &[u8] = b"relay.network.password = x";

/// Names of commands, of which one is not in order and one stands twice.
const COMMANDS: &[&[u8]] = &[b"join", b"buffer", b"Bar", b"buffer"];

/// The options, a hotlist of lines that the script names, and some commands.
#[derive(Drop)]
pub struct Context {
    options: Options,
    hotlist: Hotlist,
    commands: Vec<Text>,
}

impl Context {
    /// No line was counted yet.
    pub fn new(alloc: Global) -> Result<Context, NoMemory> {
        match read_config(alloc, CONFIGURATION) {
            Ok(options) => Context::with(alloc, options),
            Err(_) => Err(NoMemory),
        }
    }

    fn with(alloc: Global, options: Options) -> Result<Context, NoMemory> {
        let hotlist = Hotlist::new(alloc)?;
        let commands = commands(alloc)?;
        Ok(Context {
            options,
            hotlist,
            commands,
        })
    }

    pub fn lent(&self) -> RequestContext<'_> {
        RequestContext {
            options: &self.options,
            hotlist: &self.hotlist,
            commands: self.commands.as_slice(),
        }
    }

    /// Counts a line of this level, where there is room for its buffer.
    pub fn count_line(&mut self, buffer: Handle, level: u32) {
        if self.hotlist.len() < 256 {
            self.hotlist.line(buffer, level.min(3) as i8, true);
        }
    }
}

fn commands(alloc: Global) -> Result<Vec<Text>, NoMemory> {
    let mut commands = Vec::new(alloc);
    for name in COMMANDS {
        let name = Text::from_slice(alloc, name)?;
        if commands.push(name).is_err() {
            return Err(NoMemory);
        }
    }
    Ok(commands)
}
