ghost use Rattle.std.specs.Prelude.{◌≡◌, IfOk};

use std::alloc::Global;
use std::marker::Model;
use std::rc::Rc;
use wc_text::{Duplicate, Handle, Items, NoMemory, Pair, Text};

/// A line of a buffer as a client has it, without the line's own handle, as contracts see it.
#[derive(Drop)]
pub struct MirrorLine {
    /// The name of what the line says, which a mixed buffer's line shares.
    pub content: Handle,
    /// The number of the line in its buffer.
    pub id: u32,
    /// In seconds since 1970.
    pub date: u64,
    /// The microseconds of the date.
    pub usec: u32,
    /// In seconds since 1970.
    pub date_printed: u64,
    /// The microseconds of the date of printing.
    pub usec_printed: u32,
    /// No filter hides it.
    pub displayed: bool,
    /// The level of notification, from -1 for none to 3.
    pub notify: i8,
    pub highlight: bool,
    pub tags: Items<Text>,
    pub prefix: Text,
    pub message: Text,
}

/// A buffer as a client has it.
#[derive(Drop)]
pub struct MirrorBuffer {
    pub handle: Handle,
    pub full_name: Text,
    pub short_name: Text,
    pub title: Text,
    pub hidden: bool,
    /// The variables, in order.
    pub vars: Items<Pair>,
}

impl MirrorBuffer {
    /// The same buffer in memory of its own.
    pub(crate) fn copy(&self, alloc: Global) -> Result<MirrorBuffer, NoMemory>
        ensures { IfOk result (λ b. b ≡ self.now) }
    {
        let full_name = self.full_name.copy(alloc)?;
        let short_name = self.short_name.copy(alloc)?;
        let title = self.title.copy(alloc)?;
        let vars = self.vars.copy(alloc)?;
        Ok(MirrorBuffer {
            handle: self.handle,
            full_name,
            short_name,
            title,
            hidden: self.hidden,
            vars,
        })
    }
}

/// A buffer that the groups before and after an event share. Contracts see the buffer.
#[derive(Drop)]
pub struct SharedBuffer {
    buffer: Rc<MirrorBuffer>,
}

impl Model for SharedBuffer {
    ghost use Rattle.wc_view.specs.declared.mirror_buffer.MirrorBuffer.{MirrorBuffer};

    ghost Value = { MirrorBuffer };

    ghost view = { λ b. b.buffer.value };
}

impl SharedBuffer {
    pub(crate) fn new(alloc: Global, buffer: MirrorBuffer) -> Result<SharedBuffer, NoMemory>
        ensures { IfOk result (λ b. b ≡ buffer) }
    {
        match Rc::new(alloc, buffer) {
            Ok(buffer) => Ok(SharedBuffer { buffer }),
            Err(_) => Err(NoMemory),
        }
    }

    /// The buffer.
    pub fn get(&self) -> &MirrorBuffer
        ensures { result.now ≡ self.now }
    {
        self.buffer.as_ref()
    }

    /// The same buffer, shared. It takes no memory.
    pub(crate) fn share(&self) -> Result<SharedBuffer, NoMemory>
        ensures { IfOk result (λ b. b ≡ self.now) }
    {
        match self.buffer.clone() {
            Ok(buffer) => Ok(SharedBuffer { buffer }),
            Err(_) => Err(NoMemory),
        }
    }
}

impl Duplicate for SharedBuffer {
    fn duplicate(&self, _alloc: Global) -> Result<SharedBuffer, NoMemory> {
        self.share()
    }
}
